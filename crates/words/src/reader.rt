// Where a reader of a file stands.
ghost use Rattle.std.specs.Prelude.{◌≡◌, ◌+◌, ◌^◌, ◌<◌, length};

// The words of a file from a place on.
#[derive(Clone, Copy)]
pub struct Reader<'a> {
    pub(crate) place: usize,
    pub(crate) rest: &'a [u32],
    ghost counted: { place + length rest.now < 2 ^ 64 },
}

impl<'a> Reader<'a> {
    // At the first word of a file.
    pub fn new(words: &'a [u32]) -> Reader<'a>
        ensures place { result.place ≡ 0 }
        ensures rest { result.rest.now ≡ words.now }
    {
        Reader {
            place: 0,
            rest: words,
        }
    }

    // The place of the next word.
    pub fn place(&self) -> usize
        ensures { result ≡ self.now.place }
    {
        self.place
    }

    // How many words are left.
    pub fn left(&self) -> usize
        ensures { result ≡ length self.now.rest.now }
    {
        self.rest.len()
    }
}
