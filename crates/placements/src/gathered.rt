// What was read of a timetable.
use board::Seat;
use records::Row;

// A seat for each placed exec, by task, and a start for each placed transfer, by 2 times its channel, plus 1 for a read.
#[derive(Clone, Copy)]
pub struct Placements {
    pub execs: Row<Option<Seat>, 64>,
    pub transfers: Row<Option<u32>, 512>,
}

// The placements so far, and the least task and the least side that may still come in the file.
#[derive(Clone, Copy)]
pub(crate) struct Loaded {
    pub(crate) placements: Placements,
    pub(crate) next_task: usize,
    pub(crate) next_value: usize,
}
