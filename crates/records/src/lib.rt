// The records of a file, checked: what may stand where, and the numbers of a plan file.
#![tactic(auto)]

mod check;
mod fault;
mod found;
mod gathered;
mod gathering;
mod row;
mod row_calls;
mod rules;

pub use check::{closing, ends_of, within};
pub use fault::Fault;
pub use found::Found;
pub use gathered::Gathered;
pub use gathering::gather;
pub use row::Row;
pub use rules::{FileRules, read};
