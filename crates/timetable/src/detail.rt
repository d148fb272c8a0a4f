// What the words of a file show of a fault.
use crate::walk::Spot;
use records::{Fault, ends_of};
use std::fmt;
use words::{Kind, Opening, Record};

// What explains a fault behind its meaning.
#[derive(Clone, Copy)]
pub enum Detail {
    // A word of one of these kinds is due, or a plain one where there is no kind. The word that is there, if any.
    Due {
        kinds: &'static [Kind],
        word: Option<u32>,
    },
    // What a number may be.
    Rule(&'static str),
    Pair {
        from: u32,
        to: u32,
    },
    // What the end counts, and how many words there are before it.
    Count {
        told: u32,
        before: usize,
    },
}

impl Detail {
    // What these words show of their fault, if anything.
    pub(crate) fn of(words: &[u32], fault: Fault) -> Option<Detail> {
        let place = fault.refusal().place;
        let (record, offset) = match Spot::of(words, place) {
            Spot::Within { record, offset } => (record, offset),
            Spot::Open(kinds) => {
                let word = words.get(place).copied();
                return Some(Detail::Due { kinds, word });
            }
        };
        match (fault, record) {
            (Fault::Range { .. }, _) => Some(Detail::Rule(range(record, offset))),
            (Fault::TooMany { .. }, Record::Task { .. }) => {
                Some(Detail::Rule("a plan has at most 64 tasks"))
            }
            (Fault::TooMany { .. }, _) => Some(Detail::Rule("a plan has at most 256 channels")),
            (Fault::Pair { .. }, Record::Channel { pair, .. }) => {
                let (from, to) = ends_of(pair);
                Some(Detail::Pair { from, to })
            }
            (Fault::End { .. }, Record::End { count }) => Some(Detail::Count {
                told: count,
                before: place,
            }),
            _ => None,
        }
    }
}

// The range of the number so many words behind the first of a record: a text for one number of one record, so it is no
// `Display` of a type.
fn range(record: Record<'_>, offset: usize) -> &'static str {
    match (record, offset) {
        (Record::Machine { .. }, 0) => "cores are 1 to 8",
        (Record::Machine { .. }, 1) => "a slot time is 1 to 100",
        (Record::Machine { .. }, 2) => "a slot load is 1 to 256",
        (Record::Machine { .. }, _) => "a scratchpad is 1 to 1048576",
        (Record::Regions { .. }, 0) => "regions are 1 to 8",
        (Record::Regions { .. }, _) => "a region is 1 to 1048576",
        (Record::Task { .. }, 0) => "a limit is 1 to 1000000",
        (Record::Task { .. }, _) => "local bytes are 0 to 65535",
        (Record::Channel { .. }, 0) => "a channel's bytes are 1 to 4096",
        (Record::Channel { .. }, _) => "a pair is 0 to 4095",
        _ => "see the records above",
    }
}

impl fmt::Display for Detail {
    fn fmt<W: fmt::Write>(&self, f: &mut fmt::Formatter<W>) -> fmt::Result {
        match *self {
            Detail::Due { kinds, word } => {
                if let Some(word) = word {
                    let found = Sort(Opening::of(word).map(|opening| opening.kind));
                    write!(f, "{word:08X} is {found}, due is ")?;
                }
                let first = Sort(kinds.first().copied());
                write!(f, "{first}")?;
                for kind in kinds.iter().skip(1) {
                    write!(f, " or {kind}")?;
                }
                Ok(())
            }
            Detail::Rule(rule) => f.write_str(rule),
            Detail::Pair { from, to } => write!(f, "it goes from {from} to {to}"),
            Detail::Count { told, before } if told as usize == before => f.write_str(
                "words follow it",
            ),
            Detail::Count { told, before } => {
                write!(
                    f,
                    "it counts {told} words before it, and there are {before}"
                )
            }
        }
    }
}

// What a word is by its kind.
#[derive(Clone, Copy)]
struct Sort(Option<Kind>);

impl fmt::Display for Sort {
    fn fmt<W: fmt::Write>(&self, f: &mut fmt::Formatter<W>) -> fmt::Result {
        match self.0 {
            Some(kind) => write!(f, "{kind}"),
            None => f.write_str("a plain word"),
        }
    }
}
