// The board by definition: plans, their files, sheets, totals and runs, and what holds of them.
// The definitions are under specs/; this file has the plain records that they speak of.
// Two of these have a `Default`, which fills the unused room of a row.
#![tactic(auto)]

// A task runs for at most `limit` cycles and keeps `local` bytes of its own.
#[derive(Clone, Copy, Debug, Default, PartialEq, Eq)]
pub struct Task {
    pub limit: u32,
    pub local: u32,
}

// A channel carries `bytes` from its producer to its consumer, each by its task number.
#[derive(Clone, Copy, Debug, Default, PartialEq, Eq)]
pub struct Channel {
    pub from: usize,
    pub to: usize,
    pub bytes: u32,
}

// Where and when a task runs: its exec begins at cycle `start` on a core, in a region of that core's scratchpad.
#[derive(Clone, Copy, Debug, PartialEq, Eq)]
pub struct Seat {
    pub start: u32,
    pub core: u32,
    pub region: u32,
}

// An entry as a call names it: the exec of a task with the core and the region of its seat, or the write or the read
// of a channel.
#[derive(Clone, Copy, Debug, PartialEq, Eq)]
pub enum Entry {
    Exec { task: usize, core: u32, region: u32 },
    Write { channel: usize },
    Read { channel: usize },
}
