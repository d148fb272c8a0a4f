// Files of 32-bit words: what a word says, how words make records, and how words are kept as bytes.
#![tactic(auto)]

mod bytes;
mod fault;
mod kind;
mod reader;
mod record;
mod take;

pub use bytes::{BytesError, from_bytes, to_bytes};
pub use fault::{Fault, Layer, Refusal};
pub use kind::{Kind, NoKind, Opening};
pub use reader::Reader;
pub use record::Record;
