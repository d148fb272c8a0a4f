// What can be done with a row.
ghost use Rattle.std.specs.Prelude.{◌≡◌, ◌<◌, ◌≤◌, [], ◌∷◌, ◌++◌, length, min, replicate, slice_set};
ghost use Rattle.records.specs.Rows.{items};

use crate::row::Row;

impl<T: Copy, const ROOM: usize> Row<T, ROOM> {
    // So many times the same thing, as far as there is room.
    pub fn filled(count: usize, thing: T) -> Row<T, ROOM>
        ensures { items result ≡ replicate (min count ROOM) thing }
    {
        Row {
            cells: [thing; ROOM],
            len: count.min(ROOM),
        }
    }

    // These things. The room behind them holds the blank.
    pub(crate) fn of(things: &[T], blank: T) -> Row<T, ROOM>
        requires { length things.now ≤ ROOM }
        ensures { items result ≡ things.now }
    {
        let len = things.len();
        let mut cells = [blank; ROOM];
        cells[..len].copy_from_slice(things);
        Row { cells, len }
    }

    pub(crate) fn len(&self) -> usize
        ensures { result ≡ length (items self.now) }
    {
        self.len
    }

    pub fn as_slice(&self) -> &[T]
        ensures { result.now ≡ items self.now }
    {
        &self.cells[..self.len]
    }

    // One thing more, behind the others.
    pub(crate) fn push(&mut self, thing: T)
        requires { length (items self.old) < ROOM }
        ensures { items self.new ≡ items self.old ++ thing ∷ [] }
    {
        let len = self.len;
        self.cells[len] = thing;
        self.len = len + 1;
    }

    // Another thing at this index. There is nothing to do past the last.
    pub fn set(&mut self, index: usize, thing: T)
        ensures { items self.new ≡ slice_set (items self.old) index thing }
    {
        if index < self.len {
            self.cells[index] = thing;
        }
    }
}
