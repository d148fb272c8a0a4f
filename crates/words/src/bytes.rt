// Words kept as bytes: four bytes a word, the most significant first.
ghost use Rattle.std.specs.Prelude.{◌≡◌, Some};
ghost use Rattle.words.specs.declared.bytes.BytesError.TheVariants.{NoMemory};
ghost use Rattle.words.specs.Bytes.{Read, Written};
ghost use Rattle.words.specs.Texts.{bytes_text};

use crate::fault::Fault;
use std::alloc::{AllocError, AllocFailed, Global};
use std::error::Error;
use std::fmt;

// Why bytes give no words: want of memory, or the one fault that there can be, named by what it is.
#[derive(Clone, Copy, Debug, PartialEq, Eq)]
pub enum BytesError {
    NoMemory,
    Cut(Fault),
}

impl From<AllocError> for BytesError {
    ghost from_gives = { λ _ r. r ≡ NoMemory };

    fn from(_e: AllocError) -> BytesError {
        BytesError::NoMemory
    }
}

// For callers outside that push. The two errors of std have no bound in common, so there are two of these.
impl<T: Drop> From<AllocFailed<T>> for BytesError {
    ghost from_gives = { λ _ r. r ≡ NoMemory };

    fn from(_e: AllocFailed<T>) -> BytesError {
        BytesError::NoMemory
    }
}

impl fmt::Display for BytesError {
    ghost output = { λ x. Some (bytes_text x) };

    fn fmt<W: fmt::Write>(&self, f: &mut fmt::Formatter<W>) -> fmt::Result {
        match self {
            BytesError::NoMemory => f.write_str("out of memory"),
            BytesError::Cut(fault) => write!(f, "{fault}"),
        }
    }
}

impl Error for BytesError {}

// The words in a file. One whose bytes are not whole words is refused before anything else.
pub fn from_bytes(heap: Global, bytes: &[u8]) -> Result<Vec<u32>, BytesError>
    ensures { Read bytes.now result }
{
    let (whole, []) = bytes.as_chunks::<4>() else {
        let place = bytes.len() / 4;
        return Err(BytesError::Cut(Fault::Ended { place }));
    };
    Ok(
        whole
            .iter()
            .map(|four| u32::from_be_bytes(*four))
            .collect(heap)?,
    )
}

// The words as a file has them.
pub fn to_bytes(heap: Global, words: &[u32]) -> Result<Vec<u8>, AllocError>
    ensures { Written words.now result }
{
    let mut bytes = Vec::new(heap);
    for w in words {
        bytes.extend_from_slice(&w.to_be_bytes())?;
    }
    Ok(bytes)
}
