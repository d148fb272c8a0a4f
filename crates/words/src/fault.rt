// Why a file is refused.
ghost use Rattle.std.specs.Prelude.{◌≡◌, Some};
ghost use Rattle.words.specs.Shown.{shown};
ghost use Rattle.words.specs.Texts.{layer_of, refusal_text, fault_text};

use std::error::Error;
use std::fmt;

// The layer that found a fault.
#[derive(Clone, Copy, Debug, PartialEq, Eq)]
pub enum Layer {
    Words,
    Records,
    Sheet,
    Bench,
}

impl fmt::Display for Layer {
    ghost output = { λ x. Some (layer_of x) };

    fn fmt<W: fmt::Write>(&self, f: &mut fmt::Formatter<W>) -> fmt::Result {
        f.write_str(match self {
            Layer::Words => "words",
            Layer::Records => "records",
            Layer::Sheet => "sheet",
            Layer::Bench => "bench",
        })
    }
}

// A refusal as it is told: its number, the layer that found it, and the place of the word that is to blame.
#[derive(Clone, Copy, Debug, PartialEq, Eq)]
pub struct Refusal {
    // The number that a maker is told; the fault behind it is an enum.
    pub number: u32,
    pub layer: Layer,
    pub place: usize,
}

impl fmt::Display for Refusal {
    ghost output = { λ x. Some (refusal_text x) };

    fn fmt<W: fmt::Write>(&self, f: &mut fmt::Formatter<W>) -> fmt::Result {
        let Refusal {
            number,
            layer,
            place,
        } = *self;
        write!(f, "{number} in {layer} at {place}")
    }
}

// What can be wrong with words, whatever they are to say.
#[derive(Clone, Copy, Debug, PartialEq, Eq)]
pub enum Fault {
    // The file ended where a word was due.
    Ended { place: usize },
    // A word of this kind may not stand here.
    Misplaced { place: usize },
}

impl Fault {
    pub fn refusal(self) -> Refusal
        ensures { result ≡ shown self }
    {
        let (number, place) = match self {
            Fault::Ended { place } => (1, place),
            Fault::Misplaced { place } => (2, place),
        };
        Refusal {
            number,
            layer: Layer::Words,
            place,
        }
    }
}

impl fmt::Display for Fault {
    ghost output = { λ x. Some (fault_text x) };

    fn fmt<W: fmt::Write>(&self, f: &mut fmt::Formatter<W>) -> fmt::Result {
        f.write_str(match self {
            Fault::Ended { .. } => "the file ends where a word is due",
            Fault::Misplaced { .. } => "a word of this kind may not stand here",
        })
    }
}

impl Error for Fault {}
