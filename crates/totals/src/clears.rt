// How many cycles of each claim are clear.
ghost use Rattle.std.specs.Prelude.{◌≡◌, ℕ, Bool, map};
ghost use Rattle.board.specs.Entries.{exec, transfer};
ghost use Rattle.board.specs.Sheets.{seat_of};
ghost use Rattle.board.specs.Totals.{ended_by, clear_in, clear_of, clear_stay, has_room};
ghost use Rattle.table.specs.Tables.{plan_in, sheet};

use crate::ends::{exec_ready, transfer_ready};
use crate::stays::Stays;
use lane::{Claim, alone};
use table::Table;

// How many cycles of the claim at `position` are clear: alone on its resource, from `ready` on; 0 where `ready` is none.
fn clear_from<C: Claim>(claims: &[C], position: usize, ready: Option<u32>) -> u32
    ensures { (test : ℕ → Bool) → ((k : ℕ) → ended_by k ready ≡ test k) → result ≡ clear_in (map C.claimed claims.now) position test }
{
    ready.map_or(0, |from| alone(claims, position, from))
}

// How many cycles of a task's exec are clear: alone on its core, and all reads into the task have ended.
pub fn clear_exec(table: &Table<'_>, task: usize) -> u32
    ensures { result ≡ clear_of (plan_in table.now) (sheet table.now) (exec task) }
{
    clear_from(table.execs(), task, exec_ready(table, task))
}

// How many cycles of a transfer are clear: alone on the bus, and what the transfer waits for has ended.
pub fn clear_transfer(table: &Table<'_>, value: usize) -> u32
    ensures { result ≡ clear_of (plan_in table.now) (sheet table.now) (transfer value) }
{
    if value >= table.transfers().len() {
        return 0;
    }
    clear_from(table.transfers(), value, transfer_ready(table, value))
}

// Whether a task is seated in a region that is large enough for it.
fn has_room(table: &Table<'_>, task: usize) -> bool
    ensures { result ≡ has_room (plan_in table.now) task (seat_of (sheet table.now) task) }
{
    let Some(seat) = table.seat(task) else {
        return false;
    };
    let plan = table.plan();
    // A seated task is one of the plan, so it has a need.
    let need = plan.need(task).unwrap_or(0);
    need <= plan.regions()[seat.region as usize]
}

impl Stays<'_, '_> {
    // How many cycles of a task's stay are clear: alone in its region, which is large enough.
    pub(crate) fn clear(&self, task: usize) -> u32
        ensures { result ≡ clear_stay (plan_in self.now.table.now) (sheet self.now.table.now) task }
    {
        let ready = has_room(self.table, task).then_some(0);
        clear_from(self.spans.as_slice(), task, ready)
    }
}

// How many cycles of a task's stay are clear.
pub fn clear_stay(table: &Table<'_>, task: usize) -> u32
    ensures { result ≡ clear_stay (plan_in table.now) (sheet table.now) task }
{
    Stays::of(table).clear(task)
}
