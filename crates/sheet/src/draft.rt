// The calls on a draft alone.
ghost use Rattle.std.specs.Prelude.{◌≡◌, IfOk};
ghost use Rattle.board.specs.Placing.{placing, withdrawing, loading};
ghost use Rattle.board.specs.Sheets.{empty};
ghost use Rattle.board.specs.Timetables.{LawOfLoading};
ghost use Rattle.plan.specs.Views.{view};
ghost use Rattle.table.specs.Tables.{plan_in, sheet, Leaves};

use crate::model::{Closed, Draft, Open, Sheet};
use board::Entry;
use placements::Fault;
use plan::Plan;
use std::alloc::{AllocError, Global};
use std::marker::PhantomData;
use table::Table;

impl<'p> Sheet<'p, Open> {
    // A draft of the plan with nothing placed.
    pub fn open(heap: Global, plan: &'p Plan) -> Result<Draft<'p>, AllocError>
        ensures plan { IfOk result (λ d. d.table.plan ≡ plan.entry) }
        ensures sheet { IfOk result (λ d. sheet d.table ≡ empty (view plan.now)) }
    {
        let table = Table::new(heap, plan)?;
        Ok(Sheet {
            table,
            state: PhantomData,
        })
    }

    // Sets an empty entry.
    pub fn place(&mut self, entry: Entry, start: u32) -> Result<(), Fault>
        ensures { Leaves self.old.table self.new.table result (placing (plan_in self.old.table) (sheet self.old.table) entry start) }
    {
        self.table.place(entry, start)
    }

    // Empties a placed entry. An exec is named with a core and a region of the plan and emptied wherever it is seated.
    pub fn withdraw(&mut self, entry: Entry) -> Result<(), Fault>
        ensures { Leaves self.old.table self.new.table result (withdrawing (plan_in self.old.table) (sheet self.old.table) entry) }
    {
        self.table.withdraw(entry)
    }

    // Replaces all placements by those of a timetable file.
    pub fn load(&mut self, words: &[u32]) -> Result<(), Fault>
        ensures after { Leaves self.old.table self.new.table result (loading (plan_in self.old.table) (sheet self.old.table) words.now) }
        ensures law { LawOfLoading }
    {
        self.table.load(words)
    }

    pub fn close(self) -> Closed<'p>
        ensures { result.table ≡ self.entry.table }
    {
        self.moved()
    }
}
