// Shows the records of a file one by one.
use crate::walk::{Step, Walk};
use records::ends_of;
use std::fmt;
use words::Record;

// The records from the first up to the one that holds the word at `last`.
#[derive(Clone, Copy)]
pub struct Steps<'a> {
    pub words: &'a [u32],
    pub last: usize,
}

impl fmt::Display for Steps<'_> {
    fn fmt<W: fmt::Write>(&self, f: &mut fmt::Formatter<W>) -> fmt::Result {
        for step in Walk::new(self.words).take_while(|step| step.place <= self.last) {
            writeln!(f, "{step}")?;
        }
        Ok(())
    }
}

impl fmt::Display for Step<'_> {
    fn fmt<W: fmt::Write>(&self, f: &mut fmt::Formatter<W>) -> fmt::Result {
        let place = self.place;
        write!(f, "  at {place:>4}  ")?;
        match self.record {
            Record::Machine {
                cores,
                slot_time,
                slot_load,
                scratchpad,
            } => write!(
                f,
                "machine   cores {cores}, slot time {slot_time}, slot load {slot_load}, scratchpad {scratchpad}"
            ),
            Record::Regions { sizes, .. } => write!(f, "regions  {}", Sizes(sizes)),
            Record::Task { limit, local } => write!(f, "task      limit {limit}, local {local}"),
            Record::Channel { bytes, pair } => {
                let (from, to) = ends_of(pair);
                write!(f, "channel   bytes {bytes}, from {from} to {to}")
            }
            Record::Exec { start, seat } => write!(f, "exec      start {start}, seat {seat}"),
            Record::Transfer { start, side } => write!(f, "transfer  start {start}, side {side}"),
            Record::End { count } => write!(f, "end       after {count} words"),
        }
    }
}

#[derive(Clone, Copy)]
struct Sizes<'a>(&'a [u32]);

impl fmt::Display for Sizes<'_> {
    fn fmt<W: fmt::Write>(&self, f: &mut fmt::Formatter<W>) -> fmt::Result {
        for size in self.0 {
            write!(f, " {size}")?;
        }
        Ok(())
    }
}
