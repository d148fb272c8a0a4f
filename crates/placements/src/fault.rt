// What is wrong with a timetable, or with a call on a sheet.
ghost use Rattle.std.specs.Prelude.{◌≡◌, Some};
ghost use Rattle.records.specs.declared.fault.Fault.TheVariants.{Words};
ghost use Rattle.placements.specs.declared.fault.Fault.TheVariants.{Records};
ghost use Rattle.placements.specs.Shown.{shown, fault_text};

use std::error::Error;
use std::fmt;
use words::{Layer, Refusal};

// What can be wrong with a sheet. In a call there is no file, and the format then has the place 0.
#[derive(Clone, Copy, Debug, PartialEq, Eq)]
pub enum Fault {
    // What the records below it found.
    Records(records::Fault),
    // The plan lacks this task, channel, side, core or region.
    Unknown { place: usize },
    // The tasks or the sides of a file do not rise.
    NotRising { place: usize },
    // The entry would end after the last cycle.
    TooLate { place: usize },
    AlreadyPlaced,
    NotPlaced,
}

impl Fault {
    pub fn refusal(self) -> Refusal
        ensures { result ≡ shown self }
    {
        let (number, place) = match self {
            Fault::Records(fault) => return fault.refusal(),
            Fault::Unknown { place } => (8, place),
            Fault::NotRising { place } => (9, place),
            Fault::TooLate { place } => (10, place),
            Fault::AlreadyPlaced => (11, 0),
            Fault::NotPlaced => (12, 0),
        };
        Refusal {
            number,
            layer: Layer::Sheet,
            place,
        }
    }
}

impl fmt::Display for Fault {
    ghost output = { λ x. Some (fault_text x) };

    fn fmt<W: fmt::Write>(&self, f: &mut fmt::Formatter<W>) -> fmt::Result {
        f.write_str(match self {
            Fault::Records(fault) => return write!(f, "{fault}"),
            Fault::Unknown { .. } => "the plan lacks this task, channel, side, core or region",
            Fault::NotRising { .. } => "the tasks or the sides do not rise",
            Fault::TooLate { .. } => "the entry would end after the last cycle",
            Fault::AlreadyPlaced => "the entry is already placed",
            Fault::NotPlaced => "the entry is not placed",
        })
    }
}

impl Error for Fault {}

impl From<records::Fault> for Fault {
    ghost from_gives = { λ e r. r ≡ Records e };

    fn from(e: records::Fault) -> Fault {
        Fault::Records(e)
    }
}

// For callers that take words themselves.
impl From<words::Fault> for Fault {
    ghost from_gives = { λ e r. r ≡ Records (Words e) };

    fn from(e: words::Fault) -> Fault {
        Fault::Records(records::Fault::Words(e))
    }
}
