// The slots of a sheet: one for each entry of a plan, with what it claims.
#![tactic(auto)]

mod claims;
mod place;
mod slot;

pub use place::Place;
pub use slot::{ExecSlot, Slot, Slots, TransferSlot};
