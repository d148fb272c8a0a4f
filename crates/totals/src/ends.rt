// When entries end, and when what they wait for has ended.
ghost use Rattle.std.specs.Prelude.{◌≡◌, ℕ, ◌*◌, ◌<◌, ◌≤◌, length, slice_index_or, Some as there, None as nothing};
ghost use Rattle.board.specs.Entries.{exec, transfer};
ghost use Rattle.board.specs.Sheets.{end};
ghost use Rattle.board.specs.Totals.{ended_by, ready};
ghost use Rattle.table.specs.Tables.{plan_in, sheet};
ghost use Rattle.totals.specs.Ends.{end_in, ends};

use slots::{Place, Slot};
use table::Table;

// The end of a slot's entry, if it is placed.
pub(crate) fn slot_end<P: Place>(slot: &Slot<P>) -> Option<u32>
    requires { (z : ℕ) → end_in P.from slot.now ≡ there z → z ≤ 536870911 }
    ensures { result ≡ end_in P.from slot.now }
{
    Some(slot.place?.start() + slot.length)
}

// The end of the entry with this number, if it is placed.
fn end_of<P: Place>(slots: &[Slot<P>], number: usize) -> Option<u32>
    requires { (z : ℕ) → slice_index_or (ends P.from slots.now) number nothing ≡ there z → z ≤ 536870911 }
    ensures { result ≡ slice_index_or (ends P.from slots.now) number nothing }
{
    slot_end(slots.get(number)?)
}

// The end of a task's exec, if it is placed.
pub(crate) fn exec_end(table: &Table<'_>, task: usize) -> Option<u32>
    ensures { result ≡ end (plan_in table.now) (sheet table.now) (exec task) }
{
    end_of(table.execs(), task)
}

// The end of a transfer, if it is placed.
fn transfer_end(table: &Table<'_>, value: usize) -> Option<u32>
    ensures { result ≡ end (plan_in table.now) (sheet table.now) (transfer value) }
{
    end_of(table.transfers(), value)
}

// When everything that a task's exec waits for has ended; none where something is not placed.
pub(crate) fn exec_ready(table: &Table<'_>, task: usize) -> Option<u32>
    ensures { (k : ℕ) → ended_by k result ≡ ready (plan_in table.now) (sheet table.now) (exec task) k }
{
    let mut at = 0;
    let (sides, _) = table.transfers().as_chunks::<2>();
    for (channel, [_, read]) in table.plan().channels().iter().zip(sides) {
        if channel.to == task {
            at = slot_end(read)?.max(at);
        }
    }
    Some(at)
}

// When what a transfer waits for has ended; none where that is not placed.
pub(crate) fn transfer_ready(table: &Table<'_>, value: usize) -> Option<u32>
    requires { value < 2 * length (plan_in table.now).channels }
    ensures { (k : ℕ) → ended_by k result ≡ ready (plan_in table.now) (sheet table.now) (transfer value) k }
{
    if value % 2 == 0 {
        exec_end(table, table.plan().channels()[value / 2].from)
    } else {
        transfer_end(table, value - 1)
    }
}
