// Walks through a plan file record by record.
ghost use Rattle.std.specs.Prelude.{◌≡◌, [], ◌∷◌};
ghost use Rattle.words.specs.declared.kind.Kind.TheVariants.{Machine};

use words::{Kind, Reader, Record};

// A record, with the place of its first word and the place behind its last.
#[derive(Clone, Copy)]
pub struct Step<'a> {
    pub place: usize,
    pub end: usize,
    pub record: Record<'a>,
}

// The records from where the reader stands, as long as the words go on with one.
#[derive(Drop)]
pub struct Walk<'a> {
    reader: Reader<'a>,
    kinds: &'static [Kind],
}

impl<'a> Walk<'a> {
    pub(crate) fn new(words: &'a [u32]) -> Walk<'a>
        ensures place { result.reader.place ≡ 0 }
        ensures rest { result.reader.rest.now ≡ words.now }
        ensures kinds { result.kinds.now ≡ Machine ∷ [] }
    {
        Walk {
            reader: Reader::new(words),
            kinds: &[Kind::Machine],
        }
    }
}

impl<'a> Iterator for Walk<'a> {
    type Item = Step<'a>;

    ghost use Rattle.std.specs.Prelude.{length};
    ghost use Rattle.std.specs.Iterator.{at_most};
    ghost use Rattle.timetable.specs.Walks.{Steps};

    ghost next_gives = { Steps };

    // Each record has a word at least.
    ghost remaining = { λ w. at_most (length w.reader.rest.now) };

    fn next(&mut self) -> Option<Step<'a>> {
        let place = self.reader.place();
        let record = self.reader.record(self.kinds).ok()?;
        self.kinds = record.follows();
        Some(Step {
            place,
            end: self.reader.place(),
            record,
        })
    }
}

// What stands at a place of a file. Neither case is an error, so this is no Result.
#[derive(Clone, Copy)]
pub enum Spot<'a> {
    // A word of this record, so far behind its first.
    Within { record: Record<'a>, offset: usize },
    // No word that belongs to a record. One of these kinds is due; a plain word is due where the slice, as `Kind` has no
    // such case, is empty.
    Open(&'static [Kind]),
}

impl<'a> Spot<'a> {
    pub(crate) fn of(words: &'a [u32], place: usize) -> Spot<'a> {
        let mut walk = Walk::new(words);
        match walk.find(|step| (step.place..step.end).contains(&place)) {
            Some(step) => Spot::Within {
                record: step.record,
                offset: place - step.place,
            },
            None if walk.reader.place() == place => Spot::Open(walk.kinds),
            None => Spot::Open(&[]),
        }
    }
}
