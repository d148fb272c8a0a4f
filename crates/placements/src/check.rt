// Whether a record may stand where it stands in a timetable.
ghost use Rattle.std.specs.Prelude.{◌≡◌, ◌+◌, ◌^◌, ◌<◌, nat_le};
ghost use Rattle.words.specs.Records.{exec, transfer};
ghost use Rattle.board.specs.Timetables.{why, task_in, core_in, region_in};
ghost use Rattle.plan.specs.Views.{view};
ghost use Rattle.placements.specs.Shown.{reported};

use crate::fault::Fault;
use plan::Plan;
use records::within;

// Whether an entry that starts there ends by the last cycle.
pub fn in_time(start: u32, length: u32) -> bool
    ensures { result ≡ nat_le (start + length) 536870911 }
{
    u64::from(start) + u64::from(length) <= 536_870_911
}

// The task, the core and the region that a seat's one word names.
pub(crate) fn parts_of(seat: u32) -> (usize, u32, u32)
    ensures { result ≡ (task_in seat, core_in seat, region_in seat) }
{
    (seat as usize / 64, seat / 8 % 8, seat % 8)
}

// These two ask that the places of their two words are numbers. They differ in what they name and in what has to rise.
pub(crate) fn exec(
    plan: &Plan,
    place: usize,
    start: u32,
    seat: u32,
    next_task: usize,
) -> Result<(), Fault>
    requires { place + 2 < 2 ^ 64 }
    ensures { reported result ≡ why (view plan.now) next_task 0 place (exec start seat) }
{
    within(place + 1, seat as usize, 0, 4095)?;
    let (task, core, region) = parts_of(seat);
    let Some(length) = plan.exec_length(task) else {
        return Err(Fault::Unknown { place: place + 1 });
    };
    if !plan.has_region(core, region) {
        return Err(Fault::Unknown { place: place + 1 });
    }
    if task < next_task {
        return Err(Fault::NotRising { place: place + 1 });
    }
    if in_time(start, length) {
        Ok(())
    } else {
        Err(Fault::TooLate { place })
    }
}

pub(crate) fn transfer(
    plan: &Plan,
    place: usize,
    start: u32,
    side: u32,
    next_value: usize,
) -> Result<(), Fault>
    requires { place + 2 < 2 ^ 64 }
    ensures { reported result ≡ why (view plan.now) 0 next_value place (transfer start side) }
{
    within(place + 1, side as usize, 0, 511)?;
    let value = side as usize;
    let Some(length) = plan.transfer_length(value / 2) else {
        return Err(Fault::Unknown { place: place + 1 });
    };
    if value < next_value {
        return Err(Fault::NotRising { place: place + 1 });
    }
    if in_time(start, length) {
        Ok(())
    } else {
        Err(Fault::TooLate { place })
    }
}
