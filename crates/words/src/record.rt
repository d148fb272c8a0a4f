// One record: its opening word and the plain words that go with it.

// What the words of a record say. Nothing is checked but that they are there and of their kinds.
// The region sizes are the words of the file themselves, lent, with the place of the first.
#[derive(Clone, Copy, Debug, PartialEq, Eq)]
pub enum Record<'a> {
    Machine {
        cores: u32,
        slot_time: u32,
        slot_load: u32,
        scratchpad: u32,
    },
    Regions {
        place: usize,
        sizes: &'a [u32],
    },
    Task {
        limit: u32,
        local: u32,
    },
    // The pair is 64 times the producer plus the consumer.
    Channel {
        bytes: u32,
        pair: u32,
    },
    // The seat is 64 times the task plus 8 times the core plus the region.
    Exec {
        start: u32,
        seat: u32,
    },
    // The side is 2 times the channel, plus 1 for its read.
    Transfer {
        start: u32,
        side: u32,
    },
    End {
        count: u32,
    },
}
