// Opens a table: nothing is placed.
ghost use Rattle.std.specs.Prelude.{◌≡◌, ◌*◌, map, length, replicate, IfOk, None as nothing};
ghost use Rattle.std.specs.List.{range_with_len};
ghost use Rattle.board.specs.Entries.{transfer, length_of};
ghost use Rattle.board.specs.Sheets.{empty};
ghost use Rattle.plan.specs.Views.{view};
ghost use Rattle.slots.specs.Views.{places, lengths};
ghost use Rattle.table.specs.Tables.{sheet};

use crate::model::Table;
use plan::Plan;
use slots::{ExecSlot, Slot, Slots, TransferSlot};
use std::alloc::{AllocError, Global};

// An empty slot for each exec.
fn exec_slots(heap: Global, plan: &Plan) -> Result<Vec<ExecSlot>, AllocError>
    ensures lengths { IfOk result (λ v. lengths v.items ≡ map (λ t. t.limit) (view plan.now).tasks) }
    ensures places { IfOk result (λ v. places v.items ≡ replicate (length (view plan.now).tasks) nothing) }
{
    let mut slots = Vec::new(heap);
    for task in plan.tasks() {
        slots.push(Slot {
            length: task.limit,
            place: None,
        })?;
    }
    Ok(slots)
}

// An empty slot for the write and the read of each channel.
// Apart from the execs: two slots a channel, and their length is worked out, so one function of both would be no plainer.
fn transfer_slots(heap: Global, plan: &Plan) -> Result<Vec<TransferSlot>, AllocError>
    ensures lengths { IfOk result (λ v. lengths v.items ≡ map (λ v. length_of (view plan.now) (transfer v)) (range_with_len 0 (2 * length (view plan.now).channels))) }
    ensures places { IfOk result (λ v. places v.items ≡ replicate (2 * length (view plan.now).channels) nothing) }
{
    let mut slots = Vec::new(heap);
    for channel in plan.channels() {
        let empty = Slot {
            length: plan.cycles(channel.bytes) as u32,
            place: None,
        };
        slots.push(empty)?;
        slots.push(empty)?;
    }
    Ok(slots)
}

impl<'p> Table<'p> {
    // The empty table of a plan.
    pub fn new(heap: Global, plan: &'p Plan) -> Result<Table<'p>, AllocError>
        ensures plan { IfOk result (λ t. t.plan ≡ plan.entry) }
        ensures sheet { IfOk result (λ t. sheet t ≡ empty (view plan.now)) }
    {
        let execs = exec_slots(heap, plan)?;
        let transfers = transfer_slots(heap, plan)?;
        Ok(Table {
            plan,
            slots: Slots { execs, transfers },
        })
    }
}
