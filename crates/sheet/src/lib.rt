// Sheets: a draft can be changed, a closed sheet can't. Closing and reopening keep all placements.
#![tactic(auto)]

mod closed;
mod draft;
mod model;
mod states;

pub use model::{Closed, Draft, Open, Sheet, Shut};
