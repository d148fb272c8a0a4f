// What is wrong with the records of a file.
ghost use Rattle.std.specs.Prelude.{◌≡◌, Some};
ghost use Rattle.records.specs.declared.fault.Fault.TheVariants.{Words};
ghost use Rattle.records.specs.Shown.{shown, fault_text};

use std::error::Error;
use std::fmt;
use words::{Layer, Refusal};

// What can be wrong with the records of a file.
#[derive(Clone, Copy, Debug, PartialEq, Eq)]
pub enum Fault {
    // What the words below it found.
    Words(words::Fault),
    // A number is outside its range.
    Range { place: usize },
    // A task or a channel is one too many.
    TooMany { place: usize },
    // A pair is not from a lower task to a higher task of the plan.
    Pair { place: usize },
    // The regions exceed the scratchpad.
    Overfull { place: usize },
    // The end counts the words before it falsely, or words follow it.
    End { place: usize },
}

impl Fault {
    pub fn refusal(self) -> Refusal
        ensures { result ≡ shown self }
    {
        let (number, place) = match self {
            Fault::Words(fault) => return fault.refusal(),
            Fault::Range { place } => (3, place),
            Fault::TooMany { place } => (4, place),
            Fault::Pair { place } => (5, place),
            Fault::Overfull { place } => (6, place),
            Fault::End { place } => (7, place),
        };
        Refusal {
            number,
            layer: Layer::Records,
            place,
        }
    }
}

impl fmt::Display for Fault {
    ghost output = { λ x. Some (fault_text x) };

    fn fmt<W: fmt::Write>(&self, f: &mut fmt::Formatter<W>) -> fmt::Result {
        f.write_str(match self {
            Fault::Words(fault) => return write!(f, "{fault}"),
            Fault::Range { .. } => "a number is outside its range",
            Fault::TooMany { .. } => "a task or a channel is one too many",
            Fault::Pair { .. } =>
                "a channel does not go from a lower task to a higher task of the plan",
            Fault::Overfull { .. } => "the regions add up to more than the scratchpad",
            Fault::End { .. } => "the end does not close the file",
        })
    }
}

impl Error for Fault {}

impl From<words::Fault> for Fault {
    ghost from_gives = { λ e r. r ≡ Words e };

    fn from(e: words::Fault) -> Fault {
        Fault::Words(e)
    }
}
