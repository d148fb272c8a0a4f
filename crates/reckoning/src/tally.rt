// Counts of files, by damage and by what became of them.
use crate::damage::Damage;
use crate::outcome::Outcome;
use std::alloc::{AllocError, Global};
use std::collections::BTreeMap;
use std::fmt;

// The files of one damage: those that were read, and those that were refused, in the order of the numbers of plan files,
// which are 1 to 7.
#[derive(Clone, Copy, Default, Drop)]
struct Row {
    read: u32,
    refused: [u32; 7],
}

fn bump(files: &mut u32) {
    *files = files.saturating_add(1);
}

impl Row {
    // One file more.
    fn count(&mut self, outcome: &Outcome) {
        match outcome {
            Ok(_) => bump(&mut self.read),
            Err(refusal) => {
                let index = (refusal.number as usize).wrapping_sub(1);
                if let Some(files) = self.refused.get_mut(index) {
                    bump(files);
                }
            }
        }
    }

    fn files(&self) -> u32 {
        self.refused
            .iter()
            .fold(self.read, |files, count| files.saturating_add(*count))
    }
}

impl fmt::Display for Row {
    fn fmt<W: fmt::Write>(&self, f: &mut fmt::Formatter<W>) -> fmt::Result {
        let (read, files) = (self.read, self.files());
        write!(f, " {read:>5}")?;
        for count in &self.refused {
            write!(f, " {count:>5}")?;
        }
        write!(f, " {files:>6}")
    }
}

// What became of all files, and on how many the readers differ.
#[derive(Drop)]
pub struct Tally {
    rows: BTreeMap<Damage, Row>,
    all: Row,
    differences: u32,
}

impl Tally {
    pub(crate) fn new(heap: Global) -> Tally {
        Tally {
            rows: BTreeMap::new(heap),
            all: Row::default(),
            differences: 0,
        }
    }

    pub(crate) fn count(&mut self, damage: Damage, outcome: &Outcome) -> Result<(), AllocError> {
        self.all.count(outcome);
        self.rows.entry(damage)?.or_default().count(outcome);
        Ok(())
    }

    pub(crate) fn differ(&mut self) {
        bump(&mut self.differences);
    }
}

impl fmt::Display for Tally {
    fn fmt<W: fmt::Write>(&self, f: &mut fmt::Formatter<W>) -> fmt::Result {
        writeln!(
            f,
            "damage           read     1     2     3     4     5     6     7  files"
        )?;
        for (damage, row) in &self.rows {
            writeln!(f, "{damage:<15}{row}")?;
        }
        let (all, files) = (self.all, self.all.files());
        writeln!(f, "{:<15}{all}", "all")?;
        writeln!(f, "{files} files, {} differences", self.differences)
    }
}
