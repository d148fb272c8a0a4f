// The slots of a sheet, plain tables.
ghost use Rattle.std.specs.Prelude.{◌≡◌, length, slice_set};
ghost use Rattle.std.specs.List.{refill};
ghost use Rattle.board.specs.Sheets.{with_exec, with_transfer};
ghost use Rattle.slots.specs.Views.{places, lengths, sheet_of, KeepsLengths};

use board::Seat;

// The slot of an entry: its length, and its place where it is placed.
#[derive(Clone, Copy)]
pub struct Slot<P> {
    pub length: u32,
    pub place: Option<P>,
}

// An exec is placed by its seat.
pub type ExecSlot = Slot<Seat>;

// A transfer is placed by its start.
pub type TransferSlot = Slot<u32>;

// The slots of execs by task, those of transfers by 2 times the channel, plus 1 for the read, as a file numbers
// them: two tables, as docs/DECISIONS.md has the form.
#[derive(Drop)]
pub struct Slots {
    pub execs: Vec<ExecSlot>,
    pub transfers: Vec<TransferSlot>,
}

// Slots have no invariant of their own (a form in docs/DECISIONS.md), so each method says that the lengths stay.
impl Slots {
    // Seats one exec, or empties its slot. There is nothing to do past the last task.
    pub fn set_exec(&mut self, task: usize, seat: Option<Seat>)
        ensures sheet { sheet_of self.new ≡ with_exec (sheet_of self.old) task seat }
        ensures lengths { KeepsLengths self.old self.new }
    {
        set(&mut self.execs, task, seat);
    }

    // Starts one transfer, or empties its slot. There is nothing to do past the last value.
    pub fn set_transfer(&mut self, value: usize, start: Option<u32>)
        ensures sheet { sheet_of self.new ≡ with_transfer (sheet_of self.old) value start }
        ensures lengths { KeepsLengths self.old self.new }
    {
        set(&mut self.transfers, value, start);
    }

    // Gives each exec the seat of its task and each transfer the start of its value, or empties its slot.
    // Those past the last one given stay, and those given past the last slot count for nothing.
    pub fn fill(&mut self, seats: &[Option<Seat>], starts: &[Option<u32>])
        ensures execs { (sheet_of self.new).execs ≡ refill (length (sheet_of self.old).execs) (sheet_of self.old).execs seats.now }
        ensures transfers { (sheet_of self.new).transfers ≡ refill (length (sheet_of self.old).transfers) (sheet_of self.old).transfers starts.now }
        ensures lengths { KeepsLengths self.old self.new }
    {
        fill(&mut self.execs, seats);
        fill(&mut self.transfers, starts);
    }
}

// Places one entry, or empties its slot.
fn set<P: Copy>(slots: &mut Vec<Slot<P>>, index: usize, place: Option<P>)
    ensures places { places slots.new.items ≡ slice_set (places slots.old.items) index place }
    ensures lengths { lengths slots.new.items ≡ lengths slots.old.items }
{
    if let Some(slot) = slots.get_mut(index) {
        *slot = Slot { place, ..*slot };
    }
}

// Gives each slot the place with its number, or empties it.
fn fill<P: Copy>(slots: &mut Vec<Slot<P>>, given: &[Option<P>])
    ensures places { places slots.new.items ≡ refill (length (places slots.old.items)) (places slots.old.items) given.now }
    ensures lengths { lengths slots.new.items ≡ lengths slots.old.items }
{
    // By number, since nothing is known of what is written through the items of an `iter_mut`.
    for (index, place) in given.iter().enumerate() {
        set(slots, index, *place);
    }
}
