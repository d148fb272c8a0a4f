// The ways in which a file is damaged.
ghost use Rattle.std.specs.Prelude.{◌≡◌, ◌<◌, ◌≤◌, ◌++◌, length, take, IfOk, slice_index, slice_set};
ghost use Rattle.std.specs.List.{insert, remove};

use std::alloc::{AllocError, Global};
use std::fmt;

// The ways in which a file is damaged, in the order in which they are told.
#[derive(Clone, Copy, PartialEq, Eq, PartialOrd, Ord)]
pub enum Damage {
    Unharmed,
    Cut,
    OtherKind,
    OtherNumber,
    Removed,
    Doubled,
    Appended,
    TwoInARecord,
    OtherPair,
    OtherCount,
    Mixed,
}

impl fmt::Display for Damage {
    fn fmt<W: fmt::Write>(&self, f: &mut fmt::Formatter<W>) -> fmt::Result {
        f.pad(match self {
            Damage::Unharmed => "unharmed",
            Damage::Cut => "cut short",
            Damage::OtherKind => "kind changed",
            Damage::OtherNumber => "number changed",
            Damage::Removed => "word removed",
            Damage::Doubled => "word doubled",
            Damage::Appended => "words appended",
            Damage::TwoInARecord => "two in a record",
            Damage::OtherPair => "pair changed",
            Damage::OtherCount => "count changed",
            Damage::Mixed => "mixed",
        })
    }
}

// Numbers at the bounds of the ranges, and just past them.
pub const EDGES: [u32; 18] = [
    0,
    1,
    8,
    9,
    100,
    101,
    256,
    257,
    4_095,
    4_096,
    4_097,
    65_535,
    65_536,
    1_000_000,
    1_000_001,
    1_048_576,
    1_048_577,
    0x1fff_ffff,
];

// A whole file, and the heap for its damaged copies. A place that it lacks is not damaged.
#[derive(Clone, Copy)]
pub struct File<'a> {
    pub heap: Global,
    pub words: &'a [u32],
}

impl<'a> File<'a> {
    // The words before this place.
    pub(crate) fn cut(self, place: usize) -> &'a [u32]
        ensures { result.now ≡ take place self.entry.words.now }
    {
        match self.words.split_at_checked(place) {
            Some((front, _)) => front,
            None => self.words,
        }
    }

    // With another word at this place.
    pub(crate) fn with_word(self, place: usize, word: u32) -> Result<Vec<u32>, AllocError>
        ensures { IfOk result (λ v. v.items ≡ slice_set self.entry.words.now place word) }
    {
        let mut words = Vec::from_slice(self.heap, self.words)?;
        if let Some(old) = words.get_mut(place) {
            *old = word;
        }
        Ok(words)
    }

    // Without the word at this place.
    pub(crate) fn without(self, place: usize) -> Result<Vec<u32>, AllocError>
        ensures { IfOk result (λ v. v.items ≡ remove self.entry.words.now place) }
    {
        let mut words = Vec::from_slice(self.heap, self.words)?;
        if place < words.len() {
            let _ = words.remove(place);
        }
        Ok(words)
    }

    // With the word at this place twice.
    pub(crate) fn doubled(self, place: usize) -> Result<Vec<u32>, AllocError>
        ensures twice { place < length self.entry.words.now → IfOk result (λ v. v.items ≡ insert self.entry.words.now place (slice_index self.entry.words.now place)) }
        ensures same { length self.entry.words.now ≤ place → IfOk result (λ v. v.items ≡ self.entry.words.now) }
    {
        let mut words = Vec::from_slice(self.heap, self.words)?;
        if let Some(word) = self.words.get(place) {
            words.insert(place, *word)?;
        }
        Ok(words)
    }

    // With more words behind it.
    pub(crate) fn with_more(self, more: &[u32]) -> Result<Vec<u32>, AllocError>
        ensures { IfOk result (λ v. v.items ≡ self.entry.words.now ++ more.now) }
    {
        let mut words = Vec::from_slice(self.heap, self.words)?;
        words.extend_from_slice(more)?;
        Ok(words)
    }
}
