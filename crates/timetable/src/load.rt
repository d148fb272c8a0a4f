// Loads the words of a file.
ghost use Rattle.std.specs.Prelude.{◌≡◌};
ghost use Rattle.timetable.specs.Loads.{Text, FromText, FromRaw, of_text, load_text};

use hex_text::{HexError, from_hex};
use std::alloc::Global;
use std::{fmt, fs, io};
use words::{BytesError, Fault, from_bytes};

// Why a file gives no words.
#[derive(Drop)]
pub enum LoadError {
    NoMemory,
    Unreadable(io::Error),
    // So many bytes are not whole words.
    Cut { bytes: usize, fault: Fault },
    // A text has something else than words.
    Token { line: usize, column: usize },
}

impl From<io::Error> for LoadError {
    fn from(e: io::Error) -> LoadError {
        match e.kind() {
            io::ErrorKind::OutOfMemory => LoadError::NoMemory,
            _ => LoadError::Unreadable(e),
        }
    }
}

impl From<HexError> for LoadError {
    ghost from_gives = { λ e r. r ≡ of_text e };

    fn from(e: HexError) -> LoadError {
        match e {
            HexError::NoMemory => LoadError::NoMemory,
            HexError::Token { line, column } => LoadError::Token { line, column },
        }
    }
}

impl fmt::Display for LoadError {
    ghost output = { load_text };

    fn fmt<W: fmt::Write>(&self, f: &mut fmt::Formatter<W>) -> fmt::Result {
        match self {
            LoadError::NoMemory => f.write_str("not read: out of memory"),
            LoadError::Unreadable(e) => write!(f, "can't be read: {e}"),
            LoadError::Cut { bytes, .. } => write!(f, "the last word has {} of 4 bytes", bytes % 4),
            LoadError::Token { line, column } => {
                let (line, column) = (*line, *column);
                write!(f, "not words: {}", HexError::Token { line, column })
            }
        }
    }
}

// Whether a file of this name is text.
fn is_text(name: &str) -> bool
    ensures { Text name.now result }
{
    name.ends_with(".hex")
}

fn decode_text(heap: Global, text: &[u8]) -> Result<Vec<u32>, LoadError>
    ensures { FromText text.now result }
{
    Ok(from_hex(heap, text)?)
}

fn decode_raw(heap: Global, bytes: &[u8]) -> Result<Vec<u32>, LoadError>
    ensures { FromRaw bytes.now result }
{
    from_bytes(heap, bytes).map_err(|e| match e {
        BytesError::NoMemory => LoadError::NoMemory,
        BytesError::Cut(fault) => LoadError::Cut {
            bytes: bytes.len(),
            fault,
        },
    })
}

// The words of the file of this name.
pub(crate) fn load(rt: &HostRuntime, name: &str) -> Result<Vec<u32>, LoadError> {
    let bytes = fs::read(rt, name)?;
    if is_text(name) {
        decode_text(rt.alloc(), &bytes)
    } else {
        decode_raw(rt.alloc(), &bytes)
    }
}
