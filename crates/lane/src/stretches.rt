// The cycles that one claim has alone.
ghost use Rattle.std.specs.Prelude.{◌≡◌, ℕ, ◌-◌, ◌<◌, List, [], ◌∷◌, ◌++◌, map};
ghost use Rattle.lane.specs.Claims.{Claimed, alone_count, counted, untaken};
ghost use Rattle.lane.specs.Stretches.{Does};

use crate::claim::{Claim, end};
use crate::window::{Stretch, Window};

// How many cycles of the claim at `position`, not before `from`, no other claim on its resource has; 0 past the last.
pub fn alone<C: Claim>(claims: &[C], position: usize, from: u32) -> u32
    ensures { result ≡ alone_count (map C.claimed claims.now) position from }
{
    let Some(claim) = claims.get(position) else {
        return 0;
    };
    free_cycles(
        &claims[..position],
        &claims[position + 1..],
        claim.resource(),
        claim.first().max(from),
        end(claim),
    )
}

// How many cycles from `start` on and before `end` no claim of either slice has on the resource. There may be none, so
// they are no window.
fn free_cycles<C: Claim>(before: &[C], after: &[C], resource: u32, start: u32, end: u32) -> u32
    ensures { result ≡ counted (untaken (map C.claimed before.now ++ map C.claimed after.now) resource) start (end - start) }
{
    let mut at = start;
    let mut count = 0;
    // From stretch to stretch, each as long as the claims make it.
    while at < end {
        let window = Window {
            resource,
            from: at,
            end,
        };
        let others = next_of_both(before, after, window);
        let stop = others.end().min(end);
        count += others.free(stop - at);
        at = stop;
    }
    count
}

// What the claims of both slices do to the cycles of the window.
fn next_of_both<C: Claim>(before: &[C], after: &[C], window: Window) -> Stretch
    ensures { Does (map C.claimed before.now ++ map C.claimed after.now) window.resource window.from result }
{
    either(next_stretch(before, window), next_stretch(after, window))
}

// What the claims do to the cycles of the window, in one pass.
fn next_stretch<C: Claim>(claims: &[C], window: Window) -> Stretch
    ensures { Does (map C.claimed claims.now) window.resource window.from result }
{
    let mut all = Stretch::Free(window.end);
    for claim in claims {
        all = either(all, stretch_of(claim, window));
    }
    all
}

// What one claim does to the cycles of the window.
fn stretch_of<C: Claim>(claim: &C, window: Window) -> Stretch
    ensures { Does (C.claimed claim.now ∷ []) window.resource window.from result }
{
    let (first, end) = (claim.first(), end(claim));
    if claim.resource() != window.resource || end <= window.from || first == end {
        Stretch::Free(window.end)
    } else if first <= window.from {
        Stretch::Taken(end)
    } else {
        Stretch::Free(first)
    }
}

// What the claims of both do.
fn either(a: Stretch, b: Stretch) -> Stretch
    ensures { (ss ts : List Claimed) (r at : ℕ) → Does ss r at a → Does ts r at b → Does (ss ++ ts) r at result }
{
    match (a, b) {
        (Stretch::Taken(x), Stretch::Taken(y)) => Stretch::Taken(x.max(y)),
        (Stretch::Free(x), Stretch::Free(y)) => Stretch::Free(x.min(y)),
        (Stretch::Taken(_), Stretch::Free(_)) => a,
        (Stretch::Free(_), Stretch::Taken(_)) => b,
    }
}
