// A record of a file, with its place.
ghost use Rattle.std.specs.Prelude.{◌+◌, ◌^◌, ◌<◌, length};
ghost use Rattle.words.specs.Records.{words_of, Placed};
ghost use Rattle.words.specs.Seen.{said};
ghost use Rattle.words.proofs.Props.{placed_prop};

use words::Record;

// A record and the place of its first word. Each of its words has a place, and its sizes stand right behind the first.
#[derive(Clone, Copy)]
pub struct Found<'a> {
    pub place: usize,
    pub says: Record<'a>,
    ghost fits: { place + length (words_of (said says)) < 2 ^ 64 },
    ghost placed: { Placed place (said says) } by { placed_prop place (said says) },
}
