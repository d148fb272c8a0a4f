// What was read of a plan so far.
use crate::row::Row;
use board::{Channel, Task};

// Like a plan, but in room of its own for any plan, and not yet known to be one.
#[derive(Clone, Copy)]
pub struct Gathered {
    pub cores: u32,
    pub slot_time: u32,
    pub slot_load: u32,
    pub scratchpad: u32,
    pub regions: Row<u32, 8>,
    pub tasks: Row<Task, 64>,
    pub channels: Row<Channel, 256>,
}
