// Whether a record may stand where it stands.
ghost use Rattle.std.specs.Prelude.{◌≡◌, ◌+◌, ◌/◌, ◌%◌, ◌^◌, ◌<◌, ◌≤◌, length, sum};
ghost use Rattle.words.specs.Records.{machine, regions, task, channel, end};
ghost use Rattle.board.specs.Files.{within, closing};
ghost use Rattle.board.specs.Reading.{sizes_within, why};
ghost use Rattle.records.specs.Shown.{reported};

use crate::fault::Fault;

// Refuses a number outside its range.
pub fn within(place: usize, n: usize, low: usize, high: usize) -> Result<(), Fault>
    ensures { reported result ≡ within place n low high }
{
    if (low..=high).contains(&n) {
        Ok(())
    } else {
        Err(Fault::Range { place })
    }
}

fn sizes_within(place: usize, sizes: &[u32]) -> Result<(), Fault>
    requires { place + length sizes.now < 2 ^ 64 }
    ensures { reported result ≡ sizes_within place sizes.now }
{
    for (i, n) in sizes.iter().enumerate() {
        within(place + i, *n as usize, 1, 1_048_576)?;
    }
    Ok(())
}

// The sum of the region sizes, by a loop over the lent words, as docs/DECISIONS.md has the form.
fn total(sizes: &[u32]) -> u64
    requires { length sizes.now ≤ 8 }
    ensures { result ≡ sum sizes.now }
{
    let mut total = 0;
    for size in sizes {
        total += u64::from(*size);
    }
    total
}

// These take the numbers of one kind of record each, so each asks that the places of just its words are numbers.
pub(crate) fn machine(
    place: usize,
    cores: u32,
    slot_time: u32,
    slot_load: u32,
    scratchpad: u32,
) -> Result<(), Fault>
    requires { place + 4 < 2 ^ 64 }
    ensures { reported result ≡ why 0 0 0 place (machine cores slot_time slot_load scratchpad) }
{
    within(place, cores as usize, 1, 8)?;
    within(place + 1, slot_time as usize, 1, 100)?;
    within(place + 2, slot_load as usize, 1, 256)?;
    within(place + 3, scratchpad as usize, 1, 1_048_576)
}

pub(crate) fn regions(place: usize, at: usize, sizes: &[u32], scratchpad: u32) -> Result<(), Fault>
    requires { at + length sizes.now < 2 ^ 64 }
    ensures { reported result ≡ why scratchpad 0 0 place (regions at sizes.now) }
{
    within(place, sizes.len(), 1, 8)?;
    sizes_within(at, sizes)?;
    if total(sizes) <= u64::from(scratchpad) {
        Ok(())
    } else {
        Err(Fault::Overfull { place })
    }
}

pub(crate) fn task(place: usize, limit: u32, local: u32, tasks: usize) -> Result<(), Fault>
    requires { place + 2 < 2 ^ 64 }
    ensures { reported result ≡ why 0 tasks 0 place (task limit local) }
{
    within(place, limit as usize, 1, 1_000_000)?;
    within(place + 1, local as usize, 0, 65_535)?;
    if tasks < 64 {
        Ok(())
    } else {
        Err(Fault::TooMany { place })
    }
}

pub(crate) fn channel(
    place: usize,
    bytes: u32,
    pair: u32,
    tasks: usize,
    channels: usize,
) -> Result<(), Fault>
    requires { place + 2 < 2 ^ 64 }
    ensures { reported result ≡ why 0 tasks channels place (channel bytes pair) }
{
    within(place, bytes as usize, 1, 4096)?;
    within(place + 1, pair as usize, 0, 4095)?;
    if channels >= 256 {
        return Err(Fault::TooMany { place });
    }
    let (from, to) = ends_of(pair);
    if from < to && (to as usize) < tasks {
        Ok(())
    } else {
        Err(Fault::Pair { place: place + 1 })
    }
}

// The tasks that a channel's pair names: its producer, and its consumer.
pub fn ends_of(pair: u32) -> (u32, u32)
    ensures { result ≡ (pair / 64, pair % 64) }
{
    (pair / 64, pair % 64)
}

// Refuses an end that does not tell how many words stand before it, or that words follow; `left` counts the words from it on.
pub fn closing(place: usize, count: u32, left: usize) -> Result<(), Fault>
    ensures { reported result ≡ closing place left (end count) }
{
    if count as usize == place && left == 1 {
        Ok(())
    } else {
        Err(Fault::End { place })
    }
}
