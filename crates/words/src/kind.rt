// A word taken apart: its top three bits are its kind, the other 29 its number.
ghost use Rattle.std.specs.Prelude.{◌≡◌, Some};
ghost use Rattle.words.specs.Kinds.{Decodes, opening_of};
ghost use Rattle.words.specs.Texts.{kind_text, no_kind_text};

use std::error::Error;
use std::fmt;

// The kinds that open a record. A word of kind 0 is plain: it belongs to the record before it.
#[derive(Clone, Copy, Debug, PartialEq, Eq)]
pub enum Kind {
    Machine = 1,
    Regions = 2,
    Task = 3,
    Channel = 4,
    Exec = 5,
    Transfer = 6,
    End = 7,
}

// A number that no kind has.
#[derive(Clone, Copy, Debug, PartialEq, Eq)]
pub struct NoKind(pub u32);

impl fmt::Display for NoKind {
    ghost output = { λ x. Some (no_kind_text x) };

    fn fmt<W: fmt::Write>(&self, f: &mut fmt::Formatter<W>) -> fmt::Result {
        write!(f, "{} is no kind", self.0)
    }
}

impl Error for NoKind {}

impl TryFrom<u32> for Kind {
    type Error = NoKind;

    ghost try_from_gives = { Decodes };

    fn try_from(number: u32) -> Result<Kind, NoKind> {
        match number {
            1 => Ok(Kind::Machine),
            2 => Ok(Kind::Regions),
            3 => Ok(Kind::Task),
            4 => Ok(Kind::Channel),
            5 => Ok(Kind::Exec),
            6 => Ok(Kind::Transfer),
            7 => Ok(Kind::End),
            _ => Err(NoKind(number)),
        }
    }
}

impl fmt::Display for Kind {
    ghost output = { λ k. Some (kind_text k) };

    fn fmt<W: fmt::Write>(&self, f: &mut fmt::Formatter<W>) -> fmt::Result {
        f.write_str(match self {
            Kind::Machine => "a machine",
            Kind::Regions => "regions",
            Kind::Task => "a task",
            Kind::Channel => "a channel",
            Kind::Exec => "an exec",
            Kind::Transfer => "a transfer",
            Kind::End => "an end",
        })
    }
}

// A word that opens a record.
#[derive(Clone, Copy, Debug, PartialEq, Eq)]
pub struct Opening {
    pub kind: Kind,
    pub number: u32,
}

impl Opening {
    // The word taken apart, or none where it is plain.
    pub fn of(word: u32) -> Option<Opening>
        ensures { result ≡ opening_of word }
    {
        let kind = Kind::try_from(word >> 29).ok()?;
        Some(Opening {
            kind,
            number: word & 0x1fff_ffff,
        })
    }
}
