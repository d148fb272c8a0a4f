// Claims on resources: how many cycles a claim has alone, and where a resource has its earliest gap.
#![tactic(auto)]

mod claim;
mod gaps;
mod stretches;
mod window;

pub use claim::{Claim, Span};
pub use gaps::gap;
pub use stretches::alone;
