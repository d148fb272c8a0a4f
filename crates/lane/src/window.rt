// The cycles that one pass looks at, and what it tells of them.
ghost use Rattle.std.specs.Prelude.{◌≡◌, ◌<◌, if◌then◌else◌};
ghost use Rattle.lane.specs.Stretches.{stop, is_taken};

// The cycles of a resource from one on and before another that is later.
#[derive(Clone, Copy)]
pub(crate) struct Window {
    pub(crate) resource: u32,
    pub(crate) from: u32,
    pub(crate) end: u32,
    ghost open: { from < end },
}

// Up to an end: each cycle is some claim's, or none is.
#[derive(Clone, Copy)]
pub(crate) enum Stretch {
    Taken(u32),
    Free(u32),
}

impl Stretch {
    pub(crate) fn end(self) -> u32
        ensures { result ≡ stop self }
    {
        match self {
            Stretch::Taken(end) | Stretch::Free(end) => end,
        }
    }

    // How many of so many of its cycles are free: all or none.
    pub(crate) fn free(self, cycles: u32) -> u32
        ensures { result ≡ (if is_taken self then 0 else cycles) }
    {
        match self {
            Stretch::Taken(_) => 0,
            Stretch::Free(_) => cycles,
        }
    }
}
