// What slots claim: cycles of what their entry is placed on, an empty slot nothing.
ghost use Rattle.std.specs.Prelude.{◌≡◌};
ghost use Rattle.lane.specs.Claims.{cut};
ghost use Rattle.slots.specs.Views.{slot_claimed};
ghost use Rattle.std.proofs.Common.{rules};

use crate::place::Place;
use crate::slot::Slot;
use lane::{Claim, Span};

impl<P: Place> Slot<P> {
    fn span(&self) -> Span
        ensures { cut result.resource result.first result.length ≡ slot_claimed P.on P.from self.now }
    {
        self.place.map_or(
            Span::NOTHING,
            |place| Span {
                resource: place.resource(),
                first: place.start(),
                length: self.length,
            },
        )
    }
}

impl<P: Place> Claim for Slot<P> {
    ghost claimed = { slot_claimed P.on P.from };

    ghost ends = { Prim.search rules };

    fn resource(&self) -> u32 {
        self.span().resource()
    }

    fn first(&self) -> u32 {
        self.span().first()
    }

    fn length(&self) -> u32 {
        self.span().length()
    }
}
