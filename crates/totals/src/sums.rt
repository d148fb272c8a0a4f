// The totals.
ghost use Rattle.std.specs.Prelude.{◌≡◌, ℕ, ◌<◌, ◌≤◌, ◌↔◌, length, sum_by};
ghost use Rattle.std.specs.List.{range_with_len};
ghost use Rattle.board.specs.Entries.{length_of, entries};
ghost use Rattle.board.specs.Runs.{Faultless};
ghost use Rattle.board.specs.Sound.{EqualTotalsMeanNoFault};
ghost use Rattle.board.specs.Stays.{stay_claims};
ghost use Rattle.board.specs.Totals.{wanted, clear, clear_of, clear_stay};
ghost use Rattle.table.specs.Tables.{plan_in, sheet};

use crate::clears::{clear_exec, clear_transfer};
use crate::stays::Stays;
use slots::Slot;
use table::Table;

// The sum of these slots' lengths. A plan has fewer than 1000 entries, and so few u32 add up in a u64.
fn total_length<P>(slots: &[Slot<P>]) -> u64
    requires { length slots.now ≤ 1000 }
    ensures { result ≡ sum_by (λ x. x.length) slots.now }
{
    slots.iter().map(|slot| u64::from(slot.length)).sum()
}

// The sum of `number(i)` for i below `count`. Again, no count in a plan reaches 1000.
fn sum<F: Fn(usize) -> u32>(count: usize, number: F) -> u64
    requires few { count ≤ 1000 }
    requires callable { F.IsAlwaysCallable number }
    ensures { (f : ℕ → ℕ) → ((i n : ℕ) → F.post number i n → n ≡ f i) → result ≡ sum_by f (range_with_len 0 count) }
{
    (0..count).map(|i| u64::from(number(i))).sum()
}

// How many cycles of all entries are clear.
fn clear_cycles(table: &Table<'_>) -> u64
    ensures { result ≡ sum_by (clear_of (plan_in table.now) (sheet table.now)) (entries (plan_in table.now)) }
{
    sum(table.execs().len(), |task| clear_exec(table, task))
        + sum(
            table.transfers().len(),
            |value| clear_transfer(table, value),
        )
}

impl Stays<'_, '_> {
    // The sum of all stays' lengths. Spans and slots share only this line of std: one function would be no plainer.
    fn total_length(&self) -> u64
        ensures { result ≡ sum_by (λ c. c.length) (stay_claims (plan_in self.now.table.now) (sheet self.now.table.now)) }
    {
        self.spans.iter().map(|span| u64::from(span.length)).sum()
    }

    // How many cycles of all stays are clear.
    fn clear_cycles(&self) -> u64
        ensures { result ≡ sum_by (clear_stay (plan_in self.now.table.now) (sheet self.now.table.now)) (range_with_len 0 (length (plan_in self.now.table.now).tasks)) }
    {
        sum(self.spans.len(), |task| self.clear(task))
    }
}

// Wanted, and then clear.
pub fn totals(table: &Table<'_>) -> (u64, u64)
    ensures value { result ≡ (wanted (plan_in table.now) (sheet table.now), clear (plan_in table.now) (sheet table.now)) }
    ensures safe { (result.0 ≡ result.1) ↔ Faultless (plan_in table.now) (sheet table.now) }
    ensures law { EqualTotalsMeanNoFault }
{
    let stays = Stays::of(table);
    let wanted = total_length(table.execs())
        + total_length(table.transfers())
        + stays.total_length();
    let clear = clear_cycles(table) + stays.clear_cycles();
    (wanted, clear)
}
