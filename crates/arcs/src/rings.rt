//! Whole numbers round the radii of an arc.
ghost use Rattle.arcs.specs.Chains.{IsGreatestUnder, IsHeld, IsRing, IsRootOver};
ghost use Rattle.arcs.specs.Copper.{greater, inmost, lesser, outmost, spread};
ghost use Rattle.arcs.specs.Taken.{IsPlacedArc};
ghost use Rattle.arcs.specs.declared.Arc.{Arc};
ghost use Rattle.planar.specs.Plane.{IsPlaced, dot_of, square};
ghost use Rattle.std.specs.Prelude.{pos, ◌*◌, ◌<◌, ◌≡◌, ◌≤◌, ◌≤ℤ◌, ◌^◌, ℕ};

use super::Arc;
use planar::{Spot, cross, dot};

/// The least whole number whose square is at least `n`.
fn root_up(n: u128) -> u128
    ensures over { n ≤ result * result }
    ensures least { (m : ℕ) → n ≤ m * m → result ≤ m }
    ensures small { result ≤ 2 ^ 64 }
{
    let root = n.isqrt();
    if root * root == n { root } else { root + 1 }
}

/// The greatest whole number whose square is at most `n`.
fn root_down(n: u128) -> u128
    ensures under { result * result ≤ n }
    ensures greatest { (m : ℕ) → m * m ≤ n → m ≤ result }
    ensures small { result < 2 ^ 64 }
{
    n.isqrt()
}

/// The square of the distance between two spots.
pub fn square_of(a: Spot, b: Spot) -> u128
    requires a_placed { IsPlaced a }
    requires b_placed { IsPlaced b }
    ensures value { pos result ≡ dot_of a b b }
    ensures small { result < 2 ^ 127 }
{
    dot(a, b, b).unsigned_abs()
}

/// The squares of the lesser and of the greater of the distances of the ends from the centre.
pub fn squares_of(arc: &Arc) -> (u128, u128)
    requires placed { IsPlacedArc arc.now }
    ensures near { pos result.0 ≡ lesser arc.now }
    ensures far { pos result.1 ≡ greater arc.now }
    ensures order { result.0 ≤ result.1 }
    ensures small { result.1 < 2 ^ 127 }
{
    let first = square_of(arc.centre, arc.start);
    let last = square_of(arc.centre, arc.end);
    (first.min(last), first.max(last))
}

/// The spread of the arc; `None` where it does not fit in 128 bits.
fn spread_of(arc: &Arc) -> Option<u128>
    requires placed { IsPlacedArc arc.now }
    ensures { IsHeld result (spread arc.now) }
{
    let swing = cross(arc.centre, arc.start, arc.end);
    if swing < 0 {
        let (near, far) = squares_of(arc);
        let apart = square_of(arc.start, arc.end);
        (far - near).checked_mul(swing.unsigned_abs() / apart + 1)
    } else {
        Some(0)
    }
}

/// The least distance that a curve may have, rounded down.
fn least_of(arc: &Arc, more: u128) -> u128
    requires placed { IsPlacedArc arc.now }
    requires is { pos more ≡ spread arc.now }
    ensures root { IsGreatestUnder (inmost arc.now) (pos result) }
    ensures small { result < 2 ^ 64 }
{
    root_down(squares_of(arc).0.saturating_sub(more))
}

/// The greatest distance, rounded up; `None` where the square of that distance does not fit in 128 bits.
fn most_of(arc: &Arc, more: u128) -> Option<u128>
    requires placed { IsPlacedArc arc.now }
    requires is { pos more ≡ spread arc.now }
    ensures { IsRootOver result (outmost arc.now) }
{
    match squares_of(arc).1.checked_add(more) {
        Some(square) => Some(root_up(square)),
        None => None,
    }
}

/// How near to the centre and how far from it a chord may be that is at most `k` off. `None` only where the
/// square of the greatest distance that a curve may have does not fit in 128 bits.
pub fn ring_of(arc: &Arc, k: u64) -> Option<(u128, u128)>
    requires placed { IsPlacedArc arc.now }
    ensures { IsRing result (inmost arc.now) (outmost arc.now) (pos k) }
{
    match spread_of(arc) {
        Some(more) => ring_by(arc, more, k as u128),
        None => None,
    }
}

/// The same, where the spread is known.
fn ring_by(arc: &Arc, more: u128, k: u128) -> Option<(u128, u128)>
    requires placed { IsPlacedArc arc.now }
    requires is { pos more ≡ spread arc.now }
    requires small { k < 2 ^ 64 }
    ensures { IsRing result (inmost arc.now) (outmost arc.now) (pos k) }
{
    match most_of(arc, more) {
        Some(most) => {
            let least = least_of(arc, more);
            Some((most.saturating_sub(k), least + k))
        }
        None => None,
    }
}
