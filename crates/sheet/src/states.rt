// The calls on a sheet in any state.
ghost use Rattle.std.specs.Prelude.{◌≡◌, ◌↔◌};
ghost use Rattle.board.specs.Runs.{Faultless};
ghost use Rattle.board.specs.Sound.{EqualTotalsMeanNoFault};
ghost use Rattle.board.specs.Totals.{wanted, clear};
ghost use Rattle.table.specs.Tables.{plan_in, sheet};

use crate::model::Sheet;
use std::marker::PhantomData;
use table::Table;
use totals::totals;

impl<'p, S> Sheet<'p, S> {
    // The same sheet in another state. `close` and `reopen` promise the same, each in its own contract.
    pub(crate) fn moved<T>(self) -> Sheet<'p, T>
        ensures { result.table ≡ self.entry.table }
    {
        Sheet {
            table: self.table,
            state: PhantomData,
        }
    }

    // Wanted, and then clear. They are equal exactly when no run of the sheet has a fault.
    pub fn totals(&self) -> (u64, u64)
        ensures value { result ≡ (wanted (plan_in self.now.table) (sheet self.now.table), clear (plan_in self.now.table) (sheet self.now.table)) }
        ensures safe { (result.0 ≡ result.1) ↔ Faultless (plan_in self.now.table) (sheet self.now.table) }
        ensures law { EqualTotalsMeanNoFault }
    {
        totals(&self.table)
    }

    // The placements, to be read.
    pub fn table(&self) -> &Table<'p>
        ensures { result.now ≡ self.now.table }
    {
        &self.table
    }
}
