// Reads a plan file.
ghost use Rattle.std.specs.Prelude.{◌≡◌, IfOk};
ghost use Rattle.records.specs.Gathering.{gathered};
ghost use Rattle.board.specs.Plans.{Valid};
ghost use Rattle.board.specs.Reading.{LawOfReading};
ghost use Rattle.plan.specs.Views.{view, Answers};

use crate::error::ReadError;
use crate::model::Plan;
use records::{Gathered, gather};
use std::alloc::{AllocError, Global};

// A plan of these numbers.
fn keep(heap: Global, numbers: &Gathered) -> Result<Plan, AllocError>
    requires { Valid (gathered numbers.now) }
    ensures { IfOk result (λ p. view p ≡ gathered numbers.now) }
{
    let regions = Vec::from_slice(heap, numbers.regions.as_slice())?;
    let tasks = Vec::from_slice(heap, numbers.tasks.as_slice())?;
    let channels = Vec::from_slice(heap, numbers.channels.as_slice())?;
    Ok(Plan {
        cores: numbers.cores,
        slot_time: numbers.slot_time,
        slot_load: numbers.slot_load,
        scratchpad: numbers.scratchpad,
        regions,
        tasks,
        channels,
    })
}

impl Plan {
    // The plan that the words of a file say, or why they say none. Memory is asked for only once the whole file is accepted.
    pub fn read(heap: Global, words: &[u32]) -> Result<Plan, ReadError>
        ensures answer { Answers words.now result }
        ensures law { LawOfReading }
    {
        let numbers = gather(words)?;
        Ok(keep(heap, &numbers)?)
    }
}
