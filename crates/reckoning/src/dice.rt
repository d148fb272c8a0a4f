// Chance, the same in each run.
ghost use Rattle.std.specs.Prelude.{◌<◌, length};

use crate::damage::EDGES;
use crate::draft::word;
use std::alloc::AllocError;

// One damage among those that are mixed.
#[derive(Clone, Copy)]
enum Mishap {
    OtherKind,
    Doubled,
    Swapped,
    Cut,
    Removed,
    OtherNumber,
}

// A number is the likeliest to be damaged.
const MISHAPS: [Mishap; 8] = [
    Mishap::OtherKind,
    Mishap::Doubled,
    Mishap::Swapped,
    Mishap::Cut,
    Mishap::Removed,
    Mishap::OtherNumber,
    Mishap::OtherNumber,
    Mishap::OtherNumber,
];

// A linear congruential generator, always with the same start. No iterator, since each number has a bound of its own.
#[derive(Drop)]
pub struct Dice {
    state: u64,
}

impl Dice {
    pub(crate) fn new() -> Dice {
        Dice { state: 1 }
    }

    pub(crate) fn below(&mut self, bound: usize) -> usize
        requires { 0 < bound }
        ensures { result < bound }
    {
        self.state = self
            .state
            .wrapping_mul(6_364_136_223_846_793_005)
            .wrapping_add(1_442_695_040_888_963_407);
        (self.state >> 33) as usize % bound
    }

    fn pick<T: Copy>(&mut self, things: &[T]) -> T
        requires { 0 < length things.now }
    {
        things[self.below(things.len())]
    }

    // Does one damage of any sort at any place.
    pub(crate) fn damage(&mut self, words: &mut Vec<u32>) -> Result<(), AllocError> {
        if words.is_empty() {
            return Ok(());
        }
        let place = self.below(words.len());
        let old = words[place];
        match self.pick(&MISHAPS) {
            Mishap::OtherKind => words[place] = word(self.below(8) as u32, old),
            Mishap::Doubled => words.insert(place, old)?,
            Mishap::Swapped => {
                let other = self.below(words.len());
                words.swap(place, other);
            }
            Mishap::Cut => words.truncate(place),
            Mishap::Removed => {
                let _ = words.remove(place);
            }
            Mishap::OtherNumber => words[place] = word(old >> 29, self.pick(&EDGES)),
        }
        Ok(())
    }
}
