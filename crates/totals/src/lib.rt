// The totals of a sheet, by claims on the lane: wanted, and how many cycles are clear.
#![tactic(auto)]

mod clears;
mod ends;
mod stays;
mod sums;

pub use clears::{clear_exec, clear_stay, clear_transfer};
pub use stays::stay;
pub use sums::totals;
