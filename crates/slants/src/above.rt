//! Whether a polygon holds a slanted rectangle.
ghost use Rattle.board_shapes.specs.Figures.{InFigure, filled};
ghost use Rattle.planar.specs.Plane.{EachFrom, IsPlaced, Point, cross_of};
ghost use Rattle.slants.specs.Copper.{InSlant};
ghost use Rattle.slants.specs.Rounds.{EachEdge, GoesRound, on_way};
ghost use Rattle.slants.specs.Taken.{HasRoot, IsPlacedSlant, Keeps, TakenAbove, reach};
ghost use Rattle.std.specs.Prelude.{All, IsTrue, SomeIff, pos, unsigned_abs, ◌*◌, ◌<◌, ◌^◌, ◌≤◌, ◌*ℤ◌, ◌≤ℤ◌, ◌↔◌};

use super::Slant;
use super::contours::goes_once;
use super::measures::{FINE, is_ready, root_of};
use area_contact::is_closed;
use planar::{Spot, cross, dot};

/// How far the edge from `b` to `c` goes along the line, times the line's length and the width, in parts of `FINE`; `None` where
/// it does not fit in 128 bits.
fn reach_of(slant: &Slant, b: Spot, c: Spot) -> Option<u128>
    requires slant { IsPlacedSlant slant.now }
    requires b_placed { IsPlaced b }
    requires c_placed { IsPlaced c }
    ensures { SomeIff result (reach slant.now b c < 2 ^ 128) (reach slant.now b c) }
{
    let from = dot(slant.start, slant.end, b);
    let to = dot(slant.start, slant.end, c);
    (FINE * slant.width as u128).checked_mul(to.abs_diff(from))
}

/// Whether `least` is at most `off` times `root`.
fn is_over(least: u128, off: u128, root: u128) -> bool
    ensures { IsTrue result ↔ least ≤ off * root }
{
    match off.checked_mul(root) {
        Some(most) => least <= most,
        None => true,
    }
}

/// Whether the spot is on the left of the line from `b` to `c`, far enough.
fn is_off(b: Spot, c: Spot, least: u128, root: u128, q: Spot) -> bool
    requires b_placed { IsPlaced b }
    requires c_placed { IsPlaced c }
    requires q_placed { IsPlaced q }
    ensures { IsTrue result ↔ (pos 0 ≤ℤ cross_of b c q) × (pos least ≤ℤ (cross_of b c q *ℤ pos root)) }
{
    let off = cross(b, c, q);
    if off >= 0 {
        is_over(least, off.unsigned_abs(), root)
    } else {
        false
    }
}

/// Whether the edge from `b` to `c` has the rectangle on its left.
fn keeps(slant: &Slant, root: u128, b: Spot, c: Spot) -> bool
    requires slant { IsPlacedSlant slant.now }
    requires b_placed { IsPlaced b }
    requires c_placed { IsPlaced c }
    ensures { IsTrue result ↔ Keeps slant.now (pos root) b c }
{
    match reach_of(slant, b, c) {
        Some(least) => is_off(b, c, least, root, slant.start)
            && is_off(b, c, least, root, slant.end),
        None => false,
    }
}

/// Whether that from `b` to `c` does, or `back` that from `c` to `b`.
fn keeps_so(slant: &Slant, root: u128, back: bool, b: Spot, c: Spot) -> bool
    requires slant { IsPlacedSlant slant.now }
    requires b_placed { IsPlaced b }
    requires c_placed { IsPlaced c }
    ensures { IsTrue result ↔ on_way back (Keeps slant.now (pos root)) b c }
{
    if back {
        keeps(slant, root, c, b)
    } else {
        keeps(slant, root, b, c)
    }
}

/// Whether each edge of the way from `start` does, or each of the way back.
fn each_keeps(slant: &Slant, root: u128, back: bool, start: Spot, rest: &[Spot]) -> bool
    requires slant { IsPlacedSlant slant.now }
    requires start_placed { IsPlaced start }
    requires rest_placed { All IsPlaced rest.now }
    ensures { IsTrue result ↔ EachFrom (on_way back (Keeps slant.now (pos root))) start rest.now }
{
    let mut from = start;
    for to in rest {
        if !keeps_so(slant, root, back, from, *to) {
            return false;
        }
        from = *to;
    }
    true
}

/// Whether each of one of both does.
fn keeps_round(slant: &Slant, root: u128, start: Spot, rest: &[Spot]) -> bool
    requires slant { IsPlacedSlant slant.now }
    requires start_placed { IsPlaced start }
    requires rest_placed { All IsPlaced rest.now }
    ensures { IsTrue result ↔ EachEdge (Keeps slant.now (pos root)) start rest.now }
{
    each_keeps(slant, root, false, start, rest) || each_keeps(slant, root, true, start, rest)
}

/// Whether the polygon goes round the rectangle once.
fn goes_round(slant: &Slant, root: u128, points: &[Spot]) -> bool
    requires slant { IsPlacedSlant slant.now }
    requires placed { All IsPlaced points.now }
    ensures { IsTrue result ↔ GoesRound (Keeps slant.now (pos root)) points.now }
{
    match points {
        [] => false,
        [first, rest @ ..] => is_closed(points)
            && goes_once(*first, rest)
            && keeps_round(slant, root, *first, rest),
    }
}

/// Whether it does so for some root.
fn has_root(slant: &Slant, points: &[Spot]) -> bool
    requires slant { IsPlacedSlant slant.now }
    requires placed { All IsPlaced points.now }
    ensures { IsTrue result ↔ HasRoot slant.now points.now }
{
    goes_round(slant, root_of(slant), points)
}

/// Whether the polygon, which ends where it begins, holds the rectangle. Its edges have to rise in one run, with the
/// rectangle on one side of each, and are compared with the length rounded down in parts of 2 `FINE`. Where
/// it says so, it does; others that do are refused (`TakenAbove`).
pub fn is_above(slant: &Slant, points: &[Spot]) -> bool
    ensures taken { IsTrue result ↔ TakenAbove slant.now points.now }
    ensures copper { IsTrue result → (p : Point) → InSlant slant.now p → InFigure (filled points.now) p }
{
    is_ready(slant, points) && has_root(slant, points)
}
