// The table of a sheet: the slots of a plan, and the calls that place, withdraw and load.
#![tactic(auto)]

mod loading;
mod model;
mod opening;
mod parts;
mod placing;

pub use model::Table;
