//! Whether a chord lies in a ring, and a chord in a turn.
ghost use Rattle.arcs.specs.Chains.{EachIn, EndsAt, InTurnBoth, IsInner, IsLink, IsMeasured, Leads};
ghost use Rattle.arcs.specs.Taken.{IsPlacedArc};
ghost use Rattle.planar.specs.Plane.{EachFrom, IsPlaced, cross_of, dot_of, square};
ghost use Rattle.std.specs.Prelude.{All, IsTrue, pos, ◌*◌, ◌<◌, ◌^◌, ◌≡◌, ◌⊎◌, ◌↔◌, ◌≤◌, ◌*ℤ◌, ◌≤ℤ◌};

use super::Arc;
use planar::{Spot, cross, dot, is_same};

/// Whether `squared` is at most the square of `far`.
fn square_within(squared: u128, far: u128) -> bool
    ensures { IsTrue result ↔ squared ≤ far * far }
{
    match far.checked_mul(far) {
        Some(most) => squared <= most,
        None => true,
    }
}

/// Whether the square of `near` times `whole` has 128 bits and is at most the square of `off`.
fn line_beyond(near: u128, whole: u128, off: u128) -> bool
    ensures { IsTrue result ↔ (near * near * whole ≤ off * off) × (near * near * whole < 2 ^ 128) }
{
    match whole.checked_mul(near) {
        Some(once) => match once.checked_mul(near) {
            Some(least) => square_within(least, off),
            None => false,
        },
        None => false,
    }
}

/// Whether the spot is at most `far` from `c`.
fn spot_within(c: Spot, a: Spot, far: u128) -> bool
    requires c_placed { IsPlaced c }
    requires a_placed { IsPlaced a }
    ensures { IsTrue result ↔ dot_of c a a ≤ℤ square (pos far) }
{
    square_within(dot(c, a, a).unsigned_abs(), far)
}

/// Whether the line from `a` to `b` is at least `near` from `c`, goes round it counterclockwise, and can be measured in 128 bits.
fn line_over(c: Spot, a: Spot, b: Spot, near: u128) -> bool
    requires c_placed { IsPlaced c }
    requires a_placed { IsPlaced a }
    requires b_placed { IsPlaced b }
    ensures { IsTrue result ↔ (pos 1 ≤ℤ cross_of c a b) × ((square (pos near) *ℤ dot_of a b b) ≤ℤ square (cross_of c a b)) × IsMeasured (pos near) a b }
{
    let off = cross(c, a, b);
    if off > 0 {
        line_beyond(near, dot(a, b, b).unsigned_abs(), off.unsigned_abs())
    } else {
        false
    }
}

/// Whether the chord from `a` to `b` lies between `near` and `far` of `c`, goes round it
/// counterclockwise, and can be measured in 128 bits.
pub fn is_chord(c: Spot, near: u128, far: u128, a: Spot, b: Spot) -> bool
    requires c_placed { IsPlaced c }
    requires a_placed { IsPlaced a }
    requires b_placed { IsPlaced b }
    ensures { IsTrue result ↔ IsLink c (pos near) (pos far) a b }
{
    spot_within(c, a, far) && spot_within(c, b, far) && line_over(c, a, b, near)
}

/// Whether a spot is on the left of the line from the centre through the start, and whether on the right of
/// that through the end. On a line it is on both of its sides.
#[derive(Clone, Copy)]
struct Sides {
    left: bool,
    right: bool,
}

fn sides_of(arc: &Arc, a: Spot) -> Sides
    requires arc { IsPlacedArc arc.now }
    requires placed { IsPlaced a }
    ensures left { IsTrue result.left ↔ pos 0 ≤ℤ cross_of arc.now.centre arc.now.start a }
    ensures right { IsTrue result.right ↔ cross_of arc.now.centre arc.now.end a ≤ℤ pos 0 }
{
    Sides {
        left: cross(arc.centre, arc.start, a) >= 0,
        right: cross(arc.centre, arc.end, a) <= 0,
    }
}

/// Whether both spots lie between the lines.
fn are_between(a: Sides, b: Sides) -> bool
    ensures { IsTrue result ↔ ((IsTrue a.left × IsTrue b.left) × (IsTrue a.right × IsTrue b.right)) }
{
    (a.left && b.left) && (a.right && b.right)
}

/// Whether both lie in a turn of more than a half: on the left of the start, on the right of the end, or the
/// first there and the last here.
fn are_past(a: Sides, b: Sides) -> bool
    ensures { IsTrue result ↔ ((IsTrue a.left × IsTrue b.left) ⊎ ((IsTrue a.left ⊎ IsTrue a.right) × IsTrue b.right)) }
{
    a.left && b.left || (a.left || a.right) && b.right
}

/// Whether the chord from `a` to `b` lies in the turn of the arc. Past a half turn it may lie on the left of
/// the start, on the right of the end, or lead from the one to the other.
pub fn in_turn(arc: &Arc, a: Spot, b: Spot) -> bool
    requires arc { IsPlacedArc arc.now }
    requires a_placed { IsPlaced a }
    requires b_placed { IsPlaced b }
    ensures { IsTrue result ↔ InTurnBoth arc.now.centre arc.now.start arc.now.end a b }
{
    let first = sides_of(arc, a);
    let last = sides_of(arc, b);
    let way = cross(arc.centre, arc.start, arc.end);
    if way > 0 {
        are_between(first, last)
    } else if way < 0 {
        are_past(first, last)
    } else if dot(arc.centre, arc.start, arc.end) < 0 {
        first.left && last.left
    } else {
        is_same(arc.start, arc.end)
    }
}

/// Whether the link from `a` to `b` is a chord of the ring and lies in the turn of the arc.
fn is_inner(arc: &Arc, near: u128, far: u128, a: Spot, b: Spot) -> bool
    requires arc { IsPlacedArc arc.now }
    requires a_placed { IsPlaced a }
    requires b_placed { IsPlaced b }
    ensures { IsTrue result ↔ IsInner arc.now.centre arc.now.start arc.now.end (pos near) (pos far) a b }
{
    is_chord(arc.centre, near, far, a, b) && in_turn(arc, a, b)
}

/// Whether each chord of the chain from `start` lies in the ring and in the turn of the arc.
fn links_inside(arc: &Arc, ring: (u128, u128), start: Spot, rest: &[Spot]) -> bool
    requires arc { IsPlacedArc arc.now }
    requires start_placed { IsPlaced start }
    requires rest_placed { All IsPlaced rest.now }
    ensures { IsTrue result ↔ EachFrom (IsInner arc.now.centre arc.now.start arc.now.end (pos ring.0) (pos ring.1)) start rest.now }
{
    let mut from = start;
    for to in rest {
        if !is_inner(arc, ring.0, ring.1, from, *to) {
            return false;
        }
        from = *to;
    }
    true
}

/// Whether the chain has a first spot, and each of its chords lies in the ring and in the turn of the arc.
pub fn chain_inside(arc: &Arc, ring: (u128, u128), chain: &[Spot]) -> bool
    requires arc { IsPlacedArc arc.now }
    requires placed { All IsPlaced chain.now }
    ensures { IsTrue result ↔ EachIn (IsInner arc.now.centre arc.now.start arc.now.end (pos ring.0) (pos ring.1)) chain.now }
{
    match chain {
        [] => false,
        [first, rest @ ..] => links_inside(arc, ring, *first, rest),
    }
}

/// Whether each link of the chain from `start` is a chord of the ring, and its last spot is the end of the arc.
fn links_round(arc: &Arc, ring: (u128, u128), start: Spot, rest: &[Spot]) -> bool
    requires arc { IsPlacedArc arc.now }
    requires start_placed { IsPlaced start }
    requires rest_placed { All IsPlaced rest.now }
    ensures { IsTrue result ↔ (EachFrom (IsLink arc.now.centre (pos ring.0) (pos ring.1)) start rest.now × EndsAt arc.now.end start rest.now) }
{
    let mut from = start;
    for to in rest {
        if !is_chord(arc.centre, ring.0, ring.1, from, *to) {
            return false;
        }
        from = *to;
    }
    is_same(from, arc.end)
}

/// Whether the chain leads from the start of the arc to its end, and each of its links is a chord of the ring.
pub fn chain_round(arc: &Arc, ring: (u128, u128), chain: &[Spot]) -> bool
    requires arc { IsPlacedArc arc.now }
    requires placed { All IsPlaced chain.now }
    ensures { IsTrue result ↔ Leads (IsLink arc.now.centre (pos ring.0) (pos ring.1)) arc.now.start arc.now.end chain.now }
{
    match chain {
        [] => false,
        [first, rest @ ..] => is_same(*first, arc.start) && links_round(arc, ring, *first, rest),
    }
}
