// Why reading gives no plan.
ghost use Rattle.std.specs.Prelude.{◌≡◌, Some};
ghost use Rattle.plan.specs.declared.error.ReadError.TheVariants.{NoMemory, Refused as RefusedBy};
ghost use Rattle.plan.specs.Views.{refusal_of, error_text};

use records::Fault;
use std::alloc::AllocError;
use std::error::Error;
use std::fmt;
use words::Refusal;

// Want of memory, or the fault for which a file is refused. Not one type with the error of bytes, whose one fault has a
// name of its own.
#[derive(Clone, Copy, Debug, PartialEq, Eq)]
pub enum ReadError {
    NoMemory,
    Refused(Fault),
}

impl ReadError {
    // The refusal, or none for want of memory, which has no number.
    pub fn refusal(self) -> Option<Refusal>
        ensures { result ≡ refusal_of self }
    {
        match self {
            ReadError::Refused(fault) => Some(fault.refusal()),
            ReadError::NoMemory => None,
        }
    }
}

impl fmt::Display for ReadError {
    ghost output = { λ x. Some (error_text x) };

    fn fmt<W: fmt::Write>(&self, f: &mut fmt::Formatter<W>) -> fmt::Result {
        match self {
            ReadError::NoMemory => f.write_str("out of memory"),
            ReadError::Refused(fault) => write!(f, "{fault}"),
        }
    }
}

impl Error for ReadError {}

impl From<Fault> for ReadError {
    ghost from_gives = { λ e r. r ≡ RefusedBy e };

    fn from(e: Fault) -> ReadError {
        ReadError::Refused(e)
    }
}

impl From<AllocError> for ReadError {
    ghost from_gives = { λ _ r. r ≡ NoMemory };

    fn from(_e: AllocError) -> ReadError {
        ReadError::NoMemory
    }
}
