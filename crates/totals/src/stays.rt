// The stays of the tasks.
ghost use Rattle.std.specs.Prelude.{◌≡◌, ℕ, ◌≤◌, min, max, map, Some as there};
ghost use Rattle.board.specs.Entries.{exec as exec_of};
ghost use Rattle.board.specs.Sheets.{seat_of, start, end};
ghost use Rattle.board.specs.Stays.{of_two, first_start, last_end, stay_claim, stay_claims};
ghost use Rattle.table.specs.Tables.{plan_in, sheet};
ghost use Rattle.totals.specs.Ends.{end_in};
ghost use Rattle.totals.specs.Spans.{span_of};

use crate::ends::{exec_end, slot_end};
use arrayvec::ArrayVec;
use lane::Span;
use slots::TransferSlot;
use table::Table;

// From the first start to the last end of what was seen of a task.
#[derive(Clone, Copy)]
struct Reach {
    first: u32,
    end: u32,
}

impl Reach {
    // With one transfer more, if it is placed.
    fn with(self, slot: &TransferSlot) -> Reach
        requires { (z : ℕ) → end_in (λ a. a) slot.now ≡ there z → z ≤ 536870911 }
        ensures first { there result.first ≡ of_two min (there self.first) slot.now.place }
        ensures end { there result.end ≡ of_two max (there self.end) (end_in (λ a. a) slot.now) }
    {
        let (Some(start), Some(end)) = (slot.place, slot_end(slot)) else {
            return self;
        };
        Reach {
            first: self.first.min(start),
            end: self.end.max(end),
        }
    }
}

// What is placed of a task, whose exec has this reach.
fn reach_of(table: &Table<'_>, task: usize, exec: Reach) -> Reach
    requires begins { there exec.first ≡ start (sheet table.now) (exec_of task) }
    requires ends { there exec.end ≡ end (plan_in table.now) (sheet table.now) (exec_of task) }
    ensures first { there result.first ≡ first_start (plan_in table.now) (sheet table.now) task }
    ensures end { there result.end ≡ last_end (plan_in table.now) (sheet table.now) task }
{
    let mut reach = exec;
    // The slots of a channel lie side by side.
    let (sides, _) = table.transfers().as_chunks::<2>();
    for (channel, [write, read]) in table.plan().channels().iter().zip(sides) {
        if channel.to == task {
            reach = reach.with(read);
        }
        if channel.from == task {
            reach = reach.with(write);
        }
    }
    reach
}

// The stay of a task: its region on its core, numbered 8 times the core plus the region, from its first start to its
// last end. It has no cycle where the task's exec is not placed or the plan lacks the task.
pub fn stay(table: &Table<'_>, task: usize) -> Span
    ensures { span_of result ≡ stay_claim (seat_of (sheet table.now) task) (first_start (plan_in table.now) (sheet table.now) task) (last_end (plan_in table.now) (sheet table.now) task) }
{
    let (Some(seat), Some(end)) = (table.seat(task), exec_end(table, task)) else {
        return Span::NOTHING;
    };
    let exec = Reach {
        first: seat.start,
        end,
    };
    let reach = reach_of(table, task, exec);
    Span {
        resource: seat.core * 8 + seat.region,
        first: reach.first,
        length: reach.end - reach.first,
    }
}

// The stays of a table's tasks, by task; no plan has more than 64.
#[derive(Drop)]
pub(crate) struct Stays<'t, 'p> {
    pub(crate) table: &'t Table<'p>,
    pub(crate) spans: ArrayVec<Span, 64>,
    ghost claims: { map span_of spans.items ≡ stay_claims (plan_in table.now) (sheet table.now) },
}

impl<'t, 'p> Stays<'t, 'p> {
    pub(crate) fn of(table: &'t Table<'p>) -> Stays<'t, 'p>
        ensures { result.table ≡ table.entry }
    {
        let mut spans = ArrayVec::new();
        // By `push`: `extend` and `collect` answer an error where the vector is full, and `collect` asks for the heap.
        for task in 0..table.plan().tasks().len() {
            spans.push(stay(table, task));
        }
        Stays { table, spans }
    }
}
