// The earliest gap of a resource.
ghost use Rattle.std.specs.Prelude.{◌≡◌, ◌≤◌, max, map};
ghost use Rattle.lane.specs.Claims.{Free, Passed, FirstFree};
ghost use Rattle.lane.specs.Gaps.{Past};

use crate::claim::{Claim, end};

// The earliest cycle, not before `from`, from which on no claim on the resource has any of `length` cycles.
// With length 0 that is `from` itself.
pub fn gap<C: Claim>(claims: &[C], resource: u32, from: u32, length: u32) -> u32
    ensures found { FirstFree (map C.claimed claims.now) resource from length result }
    ensures within { result ≤ max from 536870911 }
{
    let row = Row { resource, length };
    let mut at = from;
    // From gap to gap: how many there are is known only at the end.
    loop {
        let next = row.pushed(claims, at);
        if next == at {
            return at;
        }
        at = next;
    }
}

// So many cycles of a resource in a row.
#[derive(Clone, Copy)]
struct Row {
    resource: u32,
    length: u32,
}

impl Row {
    // One pass: `from`, moved past each claim that has one of the row's cycles from there on.
    fn pushed<C: Claim>(self, claims: &[C], from: u32) -> u32
        ensures passed { Passed (map C.claimed claims.now) self.resource from self.length result }
        ensures free { result ≡ from → Free (map C.claimed claims.now) self.resource from self.length }
        ensures within { result ≤ max from 536870911 }
    {
        let mut at = from;
        for claim in claims {
            at = self.past(claim, at);
        }
        at
    }

    // The end of the claim, where it has one of the row's cycles from `at` on; else `at`.
    fn past<C: Claim>(self, claim: &C, at: u32) -> u32
        ensures { Past (C.claimed claim.now) self.resource self.length at result }
    {
        let (first, end) = (claim.first(), end(claim));
        // A row that passes the largest number has passed the end of every claim.
        let stop = at.saturating_add(self.length);
        if claim.resource() == self.resource && at.max(first) < stop.min(end) {
            end
        } else {
            at
        }
    }
}
