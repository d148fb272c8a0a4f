// What the lane asks of a kind of claim.
ghost use Rattle.std.specs.Prelude.{◌≡◌, ◌+◌, ◌≤◌};
ghost use Rattle.lane.specs.Claims.{Claimed, cut};
ghost use Rattle.std.proofs.Common.{rules};

// A kind of claim tells of each claim a resource, a first cycle and a length.
// As told, every claim ends by the last cycle, 536,870,911.
pub trait Claim {
    ghost claimed: { Self → Claimed };

    fn resource(&self) -> u32
        ensures { result ≡ (claimed self.now).resource };

    fn first(&self) -> u32
        ensures { result ≡ (claimed self.now).first };

    fn length(&self) -> u32
        ensures { result ≡ (claimed self.now).length };

    ghost ends: { (x : Self) → (claimed x).first + (claimed x).length ≤ 536870911 };
}

// The cycle that a claim ends before.
pub(crate) fn end<C: Claim>(claim: &C) -> u32
    ensures { result ≡ (C.claimed claim.now).first + (C.claimed claim.now).length }
{
    claim.first() + claim.length()
}

// The cycle by which every claim has ended.
const LAST: u32 = 536_870_911;

// A claim of plain numbers, which may say anything: what passes the last cycle is cut.
#[derive(Clone, Copy, Default)]
pub struct Span {
    pub resource: u32,
    pub first: u32,
    pub length: u32,
}

impl Span {
    // No cycle.
    pub const NOTHING: Span = Span {
        resource: 0,
        first: 0,
        length: 0,
    };
}

impl Claim for Span {
    ghost claimed = { λ s. cut s.resource s.first s.length };

    ghost ends = { Prim.search rules };

    fn resource(&self) -> u32 {
        self.resource
    }

    fn first(&self) -> u32 {
        self.first.min(LAST)
    }

    fn length(&self) -> u32 {
        self.length.min(LAST - self.first())
    }
}
