// The placements that a timetable file says, read for one plan, and the refusals of the layer sheet.
#![tactic(auto)]

mod check;
mod fault;
mod gathered;
mod gathering;

pub use check::in_time;
pub use fault::Fault;
pub use gathered::Placements;
