// Loads a timetable: all placements are replaced by those of the file.
ghost use Rattle.board.specs.Placing.{loading};
ghost use Rattle.board.specs.Timetables.{LawOfLoading};
ghost use Rattle.table.specs.Tables.{plan_in, sheet, Leaves};

use crate::model::Table;
use placements::{Fault, Placements};

impl Table<'_> {
    // Replaces all placements by those of a timetable file. The file is checked whole before the first is changed.
    pub fn load(&mut self, words: &[u32]) -> Result<(), Fault>
        ensures after { Leaves self.old self.new result (loading (plan_in self.old) (sheet self.old) words.now) }
        ensures law { LawOfLoading }
    {
        let found = Placements::read(self.plan, words)?;
        self.slots
            .fill(found.execs.as_slice(), found.transfers.as_slice());
        Ok(())
    }
}
