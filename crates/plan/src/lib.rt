// Plans: the board, its tasks and its channels, read from a file.
#![tactic(auto)]

mod error;
mod facts;
mod model;
mod parts;
mod reading;

pub use board::{Channel, Task};
pub use error::ReadError;
pub use model::Plan;
pub use records::Fault;
