// Places and withdraws one entry.
ghost use Rattle.std.specs.Prelude.{◌≡◌, ◌-◌, ◌^◌, min, is_some};
ghost use Rattle.board.specs.Placing.{entry_of, may_place, may_withdraw, placing, withdrawing};
ghost use Rattle.board.specs.Sheets.{start};
ghost use Rattle.placements.specs.Shown.{reported};
ghost use Rattle.slots.specs.Views.{sheet_of, KeepsLengths};
ghost use Rattle.table.specs.Tables.{plan_in, sheet, length_if_known, number_of, with_entry, Leaves};

use crate::model::Table;
use board::{Entry, Seat};
use placements::{Fault, in_time};
use slots::Slots;

// The number of the entry's slot: its task, or 2 times its channel, plus 1 for the read. The greatest `usize`, which no
// slot has, stands for all past it.
fn number(entry: Entry) -> usize
    ensures { result ≡ min (number_of entry) (2 ^ 64 - 1) }
{
    match entry {
        Entry::Exec { task, .. } => task,
        Entry::Write { channel } => channel.saturating_mul(2),
        Entry::Read { channel } => channel.saturating_mul(2).saturating_add(1),
    }
}

// Places the entry, or empties its slot.
fn set(slots: &mut Slots, entry: Entry, start: Option<u32>)
    ensures sheet { sheet_of slots.new ≡ with_entry (sheet_of slots.old) entry start }
    ensures lengths { KeepsLengths slots.old slots.new }
{
    let number = number(entry);
    match entry {
        Entry::Exec { core, region, .. } => slots.set_exec(
            number,
            start.map(|start| Seat {
                start,
                core,
                region,
            }),
        ),
        Entry::Write { .. } | Entry::Read { .. } => slots.set_transfer(number, start),
    }
}

impl Table<'_> {
    // The length of the entry, none where the plan lacks the task, core, region or channel that it names.
    fn length_of(&self, entry: Entry) -> Option<u32>
        ensures { result ≡ length_if_known (plan_in self.now) entry }
    {
        match entry {
            Entry::Exec { task, core, region } => {
                if !self.plan.has_region(core, region) {
                    return None;
                }
                self.plan.exec_length(task)
            }
            Entry::Write { channel } | Entry::Read { channel } => self
                .plan
                .transfer_length(channel),
        }
    }

    // Whether the entry is placed; an exec wherever it is seated.
    fn is_placed(&self, entry: Entry) -> bool
        ensures { result ≡ is_some (start (sheet self.now) (entry_of entry)) }
    {
        let number = number(entry);
        match entry {
            Entry::Exec { .. } => self.seat(number).is_some(),
            Entry::Write { .. } | Entry::Read { .. } => self.start(number).is_some(),
        }
    }

    // Whether the entry may be placed there.
    fn may_place(&self, entry: Entry, start: u32) -> Result<(), Fault>
        ensures { reported result ≡ may_place (plan_in self.now) (sheet self.now) entry start }
    {
        let length = self.length_of(entry).ok_or(Fault::Unknown { place: 0 })?;
        if !in_time(start, length) {
            return Err(Fault::TooLate { place: 0 });
        }
        if self.is_placed(entry) {
            return Err(Fault::AlreadyPlaced);
        }
        Ok(())
    }

    // Whether the entry may be withdrawn.
    fn may_withdraw(&self, entry: Entry) -> Result<(), Fault>
        ensures { reported result ≡ may_withdraw (plan_in self.now) (sheet self.now) entry }
    {
        self.length_of(entry).ok_or(Fault::Unknown { place: 0 })?;
        if !self.is_placed(entry) {
            return Err(Fault::NotPlaced);
        }
        Ok(())
    }

    // Sets an empty entry.
    pub fn place(&mut self, entry: Entry, start: u32) -> Result<(), Fault>
        ensures { Leaves self.old self.new result (placing (plan_in self.old) (sheet self.old) entry start) }
    {
        self.may_place(entry, start)?;
        set(&mut self.slots, entry, Some(start));
        Ok(())
    }

    // Empties a placed entry, an exec wherever it is seated.
    pub fn withdraw(&mut self, entry: Entry) -> Result<(), Fault>
        ensures { Leaves self.old self.new result (withdrawing (plan_in self.old) (sheet self.old) entry) }
    {
        self.may_withdraw(entry)?;
        set(&mut self.slots, entry, None);
        Ok(())
    }
}
