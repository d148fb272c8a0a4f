// Makes plan files in code.
ghost use Rattle.std.specs.Prelude.{◌≡◌, ◌+◌, ◌*◌, ◌%◌, IfOk, vec_len};

use std::alloc::{AllocError, Global};
use words::Kind;

// A word with these top three bits and this number. By number, since a damaged word may have any of the eight, also one
// that is no `Kind`.
pub(crate) fn word(top: u32, number: u32) -> u32
    ensures { result ≡ top % 8 * 536870912 + number % 536870912 }
{
    top % 8 * 0x2000_0000 + number % 0x2000_0000
}

// A word that belongs to the record before it.
pub(crate) fn plain(number: u32) -> u32
    ensures { result ≡ number % 536870912 }
{
    word(0, number)
}

// The words of a file so far.
#[derive(Drop)]
pub struct Draft {
    words: Vec<u32>,
}

impl Draft {
    pub(crate) fn new(heap: Global) -> Draft {
        Draft {
            words: Vec::new(heap),
        }
    }

    fn record(&mut self, kind: Kind, number: u32, fields: &[u32]) -> Result<(), AllocError> {
        self.words.push(word(kind as u32, number))?;
        for field in fields {
            self.words.push(plain(*field))?;
        }
        Ok(())
    }

    pub(crate) fn machine(
        &mut self,
        cores: u32,
        slot_time: u32,
        slot_load: u32,
        scratchpad: u32,
    ) -> Result<(), AllocError> {
        self.record(Kind::Machine, cores, &[slot_time, slot_load, scratchpad])
    }

    // So many regions are told of, whatever sizes follow.
    pub(crate) fn regions(&mut self, count: u32, sizes: &[u32]) -> Result<(), AllocError> {
        self.record(Kind::Regions, count, sizes)
    }

    pub(crate) fn task(&mut self, limit: u32, local: u32) -> Result<(), AllocError> {
        self.record(Kind::Task, limit, &[local])
    }

    pub(crate) fn channel(&mut self, bytes: u32, from: u32, to: u32) -> Result<(), AllocError> {
        self.record(Kind::Channel, bytes, &[from % 64 * 64 + to % 64])
    }

    // The file, with its end word.
    pub(crate) fn end(mut self) -> Result<Vec<u32>, AllocError>
        ensures { IfOk result (λ v. vec_len v ≡ vec_len self.words + 1) }
    {
        let count = u32::try_from(self.words.len()).unwrap_or(0);
        self.words.push(word(Kind::End as u32, count))?;
        let Draft { words } = self;
        Ok(words)
    }
}

// A plan with so many tasks and channels, their numbers varied, and five regions that fill the scratchpad.
pub(crate) fn varied(heap: Global, tasks: u32, channels: u32) -> Result<Vec<u32>, AllocError> {
    let mut draft = Draft::new(heap);
    draft.machine(4, 7, 48, 40_000)?;
    draft.regions(5, &[16_000, 12_000, 8_000, 3_000, 1_000])?;
    for task in 0..tasks {
        draft.task(1_000 + task % 64 * 37, task % 7 * 100)?;
    }
    let to_last = tasks.max(2) - 1;
    for channel in 0..channels {
        let from = channel % to_last;
        let to = from + 1 + channel / to_last % (to_last - from);
        draft.channel(1 + channel % 60 * 8, from, to)?;
    }
    draft.end()
}

// A plan with as much of everything as there may be, every number at its upper bound.
pub(crate) fn largest(heap: Global) -> Result<Vec<u32>, AllocError> {
    let mut draft = Draft::new(heap);
    draft.machine(8, 100, 256, 1_048_576)?;
    draft.regions(8, &[131_072; 8])?;
    for _ in 0..64 {
        draft.task(1_000_000, 65_535)?;
    }
    for _ in 0..256 {
        draft.channel(4_096, 62, 63)?;
    }
    draft.end()
}
