// The type of tables, alone in a file, so that definitions may name it.
ghost use Rattle.std.specs.Prelude.{◌≡◌, ℕ, ◌+◌, ◌*◌, ◌<◌, ◌≤◌, map, length};
ghost use Rattle.std.specs.List.{range_with_len};
ghost use Rattle.board.specs.declared.Seat.{Seat};
ghost use Rattle.board.specs.Entries.{Entry, transfer, length_of};
ghost use Rattle.board.specs.Sheets.{Seated, Starts};
ghost use Rattle.plan.specs.Views.{view};
ghost use Rattle.slots.specs.Views.{sheet_of, exec_lengths, transfer_lengths};

use plan::Plan;
use slots::Slots;

// A sheet of a plan. Its slots are the plan's, by number and length; seats are in range, and what is placed ends by
// the last cycle.
#[derive(Drop)]
pub struct Table<'p> {
    pub(crate) plan: &'p Plan,
    pub(crate) slots: Slots,
    ghost exec_lengths: { exec_lengths slots ≡ map (λ t. t.limit) plan.now.tasks.items },
    ghost transfer_lengths: { transfer_lengths slots ≡ map (λ v. length_of (view plan.now) (transfer v)) (range_with_len 0 (2 * length plan.now.channels.items)) },
    ghost seats_fit: { (t : ℕ) (x : Seat) → Seated (sheet_of slots) t x → (x.core < plan.now.cores) × (x.region < length plan.now.regions.items) },
    ghost ends_fit: { (e : Entry) (a : ℕ) → Starts (sheet_of slots) e a → a + length_of (view plan.now) e ≤ 536870911 },
}
