// The call on a closed sheet alone.
ghost use Rattle.std.specs.Prelude.{◌≡◌};

use crate::model::{Draft, Sheet, Shut};

impl<'p> Sheet<'p, Shut> {
    pub fn reopen(self) -> Draft<'p>
        ensures { result.table ≡ self.entry.table }
    {
        self.moved()
    }
}
