// Hands files to both readers and compares what they answer.
ghost use Rattle.std.specs.Prelude.{◌≡◌, true, is_some};

use crate::damage::{Damage, File};
use crate::outcome::{Outcome, proved};
use crate::sweep::second;
use crate::tally::Tally;
use std::alloc::{AllocError, Global};
use std::fmt;

// A file on which the readers differ.
#[derive(Drop)]
pub struct Difference {
    damage: Damage,
    words: Vec<u32>,
    proved: Outcome,
    second: Outcome,
}

impl fmt::Display for Difference {
    fn fmt<W: fmt::Write>(&self, f: &mut fmt::Formatter<W>) -> fmt::Result {
        let (damage, count) = (self.damage, self.words.len());
        writeln!(f, "first difference, {damage}, {count} words:")?;
        for word in &self.words {
            write!(f, "{word:08X} ")?;
        }
        let (proved, second) = (Answer(&self.proved), Answer(&self.second));
        writeln!(f, "\nproved reader: {proved}")?;
        writeln!(f, "second reader: {second}")
    }
}

// An outcome as it is told.
#[derive(Clone, Copy)]
struct Answer<'a>(&'a Outcome);

impl fmt::Display for Answer<'_> {
    fn fmt<W: fmt::Write>(&self, f: &mut fmt::Formatter<W>) -> fmt::Result {
        match self.0 {
            Ok(numbers) => write!(f, "Read({numbers:?})"),
            Err(refusal) => write!(f, "Refused({refusal:?})"),
        }
    }
}

#[derive(Drop)]
pub struct Trial {
    heap: Global,
    tally: Tally,
    first: Option<Difference>,
}

impl Trial {
    pub(crate) fn new(heap: Global) -> Trial {
        Trial {
            heap,
            tally: Tally::new(heap),
            first: None,
        }
    }

    pub(crate) fn heap(&self) -> Global {
        self.heap
    }

    pub(crate) fn tally(&self) -> &Tally {
        &self.tally
    }

    pub(crate) fn first(&self) -> Option<&Difference> {
        self.first.as_ref()
    }

    // Has both readers read the words. A difference that was found is kept.
    pub(crate) fn file(&mut self, damage: Damage, words: &[u32]) -> Result<(), AllocError>
        ensures { is_some self.old.first ≡ true → is_some self.new.first ≡ true }
    {
        let proved = proved(self.heap, words)?;
        let second = second(self.heap, words)?;
        self.tally.count(damage, &second)?;
        if proved == second {
            return Ok(());
        }
        self.tally.differ();
        if self.first.is_none() {
            self.first = Some(Difference {
                damage,
                words: Vec::from_slice(self.heap, words)?,
                proved,
                second,
            });
        }
        Ok(())
    }
}
