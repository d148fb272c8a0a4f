// What a table says.
ghost use Rattle.std.specs.Prelude.{◌≡◌, None as nothing, slice_index_or};
ghost use Rattle.board.specs.Sheets.{seat_of};
ghost use Rattle.slots.specs.Views.{places};
ghost use Rattle.table.specs.Tables.{sheet};

use crate::model::Table;
use board::Seat;
use plan::Plan;
use slots::{ExecSlot, Slot, TransferSlot};

// Where the entry with this number is placed, none where it is not or there is none.
fn placed<P: Copy>(slots: &[Slot<P>], number: usize) -> Option<P>
    ensures { result ≡ slice_index_or (places slots.now) number nothing }
{
    slots.get(number)?.place
}

impl<'p> Table<'p> {
    pub fn plan(&self) -> &'p Plan
        ensures { result ≡ self.now.plan }
    {
        self.plan
    }

    // The slots of the execs, by task.
    pub fn execs(&self) -> &[ExecSlot]
        ensures { result.now ≡ self.now.slots.execs.items }
    {
        self.slots.execs.as_slice()
    }

    // The slots of the transfers, by 2 times the channel, plus 1 for the read.
    pub fn transfers(&self) -> &[TransferSlot]
        ensures { result.now ≡ self.now.slots.transfers.items }
    {
        self.slots.transfers.as_slice()
    }

    // The seat of a task, none where its exec is not placed or the plan lacks the task.
    pub fn seat(&self, task: usize) -> Option<Seat>
        ensures { result ≡ seat_of (sheet self.now) task }
    {
        placed(self.execs(), task)
    }

    // The start of a transfer, by 2 times its channel, plus 1 for the read; none where it is not placed or the plan lacks
    // the channel.
    pub fn start(&self, value: usize) -> Option<u32>
        ensures { result ≡ slice_index_or (sheet self.now).transfers value nothing }
    {
        placed(self.transfers(), value)
    }
}
