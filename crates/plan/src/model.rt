// The type of plans, alone in a file, so that definitions may name it.
ghost use Rattle.std.specs.Prelude.{◌≤◌, length, sum};
ghost use Rattle.board.specs.Ranges.{Between, Throughout, TaskFits, ChannelFits};

use board::{Channel, Task};

// A plan. No value of this type is outside the ranges: they are its invariant.
#[derive(Drop)]
pub struct Plan {
    pub(crate) cores: u32,
    pub(crate) slot_time: u32,
    pub(crate) slot_load: u32,
    pub(crate) scratchpad: u32,
    pub(crate) regions: Vec<u32>,
    pub(crate) tasks: Vec<Task>,
    pub(crate) channels: Vec<Channel>,
    ghost cores_fit: { Between 1 8 cores },
    ghost slot_time_fits: { Between 1 100 slot_time },
    ghost slot_load_fits: { Between 1 256 slot_load },
    ghost scratchpad_fits: { Between 1 1048576 scratchpad },
    ghost region_count: { Between 1 8 (length regions.items) },
    ghost regions_fit: { Throughout (Between 1 1048576) regions.items },
    ghost regions_add_up: { sum regions.items ≤ scratchpad },
    ghost task_count: { Between 1 64 (length tasks.items) },
    ghost tasks_fit: { Throughout TaskFits tasks.items },
    ghost channel_count: { length channels.items ≤ 256 },
    ghost channels_fit: { Throughout (ChannelFits (length tasks.items)) channels.items },
}
