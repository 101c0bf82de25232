//! Regular polygons in any direction, and whether polygons with whole corners bound them.
ghost use Rattle.board_shapes.specs.Figures.{InFigure, filled};
ghost use Rattle.planar.specs.Plane.{EachFrom, IsPlaced, IsWithin, Point};
ghost use Rattle.planar.specs.declared.TheConstants.{METRE};
ghost use Rattle.slants.specs.Polygons as spec;
ghost use Rattle.slants.specs.Polygons.{AllCornersLean, CornersLean, EdgeHolds, InHull, IsRegular, PolygonBelow, PolygonsAbove, SurelyInPolygon, corner_of, direction_of, edge_end, edge_start, inner_of, place_of, reach_of, step_of};
ghost use Rattle.slants.specs.Rounds.{EachEdge, GoesRound, on_way};
ghost use Rattle.slants.specs.Turned.{AreReady, Leans};
ghost use Rattle.std.specs.Prelude.{All, IsTrue, ℕ, unsigned_abs, ◌*◌, ◌+◌, ◌/◌, ◌<◌, ◌≡◌, ◌≤◌, ◌↔◌};

use super::cones::{RADIUS, RIGHT_ANGLE, cosine_of_half, turns};
use super::contours::goes_once;
use super::turned::{all_lean, leans};
use super::turns::{Motions, back, triangle_of};
use area_contact::is_closed;
use planar::{METRE, Spot, are_placed};

/// Half a turn, in 10^-7 degrees.
pub const HALF_TURN: u32 = 2 * RIGHT_ANGLE;

/// Diameters of polygons are whole in parts of which a u has so many.
pub const PARTS: u128 = 10_000;

/// A regular polygon (Gerber Layer Format Specification, 4.4.5 and 4.5.1).
#[derive(Clone, Copy)]
pub struct RegularPolygon {
    /// Its middle, in u.
    pub centre: Spot,
    /// How many corners it has: from 3 to 12.
    pub corners: u32,
    /// The diameter of the circle through them, in parts of which a u has `PARTS`.
    pub diameter: u64,
    /// The direction to the first, counterclockwise from that of the x axis, in 10^-7 degrees.
    pub angle: u32,
}

/// The angle from a corner to the next, in 10^-7 degrees, rounded down.
fn step(g: &RegularPolygon) -> u32
    requires { 3 ≤ g.now.corners }
    ensures value { result ≡ step_of g.now }
    ensures small { result ≤ 1_200_000_000 }
{
    2 * HALF_TURN / g.corners
}

/// So many halves of it, rounded down.
fn steps(g: &RegularPolygon, h: u32) -> u64
    requires enough { 3 ≤ g.now.corners }
    requires few { h ≤ 24 }
    ensures value { result ≡ h * HALF_TURN / g.now.corners }
    ensures small { result ≤ 43_200_000_000 }
{
    h as u64 * HALF_TURN as u64 / g.corners as u64
}

/// The direction so many of these on from the first corner.
fn direction(g: &RegularPolygon, h: u32) -> u64
    requires enough { 3 ≤ g.now.corners }
    requires few { h ≤ 24 }
    ensures { result ≡ direction_of g.now h }
{
    g.angle as u64 + steps(g, h)
}

/// The spot, turned counterclockwise about 0 by so many right angles.
#[tactic(auto, unfolding(crate::specs::Polygons::quartered))]
fn quartered(k: u64, p: Spot) -> Spot
    requires { IsPlaced p }
    ensures { result ≡ spec.quartered k p }
{
    match k % 4 {
        0 => p,
        1 => Spot { x: -p.y, y: p.x },
        2 => Spot { x: -p.x, y: -p.y },
        _ => Spot { x: p.y, y: -p.x },
    }
}

/// What lies so from the middle, turned there by the right angles in a direction.
fn set_out(g: &RegularPolygon, h: u32, p: Spot) -> Spot
    requires regular { IsRegular g.now }
    requires few { h ≤ 24 }
    requires across { IsWithin (reach_of g.now + 1) p.x }
    requires up { IsWithin (reach_of g.now + 1) p.y }
    ensures value { result ≡ place_of g.now h p }
    ensures placed { IsPlaced result }
{
    let q = quartered(direction(g, h) / RIGHT_ANGLE as u64, p);
    Spot {
        x: g.centre.x + q.x,
        y: g.centre.y + q.y,
    }
}

/// The turns about the middle by what is left of a direction.
fn turns_to(g: &RegularPolygon, h: u32) -> Motions
    requires regular { IsRegular g.now }
    requires few { h ≤ 24 }
    ensures value { result ≡ spec.turns_to g.now h }
    ensures ready { AreReady result }
{
    turns(g.centre, (direction(g, h) % RIGHT_ANGLE as u64) as u32)
}

/// Half the diameter, in u, rounded up.
fn reach(g: &RegularPolygon) -> u64
    ensures value { result ≡ reach_of g.now }
    ensures small { result ≤ 1_000_000_000_000_000 }
{
    ((g.diameter as u128 + (2 * PARTS - 1)) / (2 * PARTS)) as u64
}

/// How far the edges are from the middle, in u, rounded down.
fn inner(g: &RegularPolygon) -> u64
    requires { 3 ≤ g.now.corners }
    ensures value { result ≡ inner_of g.now }
    ensures small { result ≤ reach_of g.now }
{
    let across = cosine_of_half(step(g));
    let less = across.saturating_sub(1) as u128;
    (g.diameter as u128 * less / (2 * PARTS * RADIUS)) as u64
}

/// What is turned to corner `k`.
fn corner(g: &RegularPolygon, k: u32) -> Spot
    requires regular { IsRegular g.now }
    requires few { k < g.now.corners }
    ensures value { result ≡ corner_of g.now k }
    ensures placed { IsPlaced result }
{
    let p = Spot {
        x: reach(g) as i64,
        y: 0,
    };
    set_out(g, 2 * k, p)
}

/// Two spots of the line that is turned to edge `k`, in its middle and one u on.
fn edge(g: &RegularPolygon, k: u32) -> (Spot, Spot)
    requires regular { IsRegular g.now }
    requires few { k < g.now.corners }
    ensures start { result.0 ≡ edge_start g.now k }
    ensures start_placed { IsPlaced result.0 }
    ensures end { result.1 ≡ edge_end g.now k }
    ensures end_placed { IsPlaced result.1 }
{
    let x = inner(g) as i64;
    let start = set_out(g, 2 * k + 1, Spot { x, y: 0 });
    let end = set_out(g, 2 * k + 1, Spot { x, y: 1 });
    (start, end)
}

/// Whether these are as many corners as a polygon has.
fn is_lawful(corners: u32) -> bool
    ensures { IsTrue result ↔ ((3 ≤ corners) × (corners ≤ 12)) }
{
    3 <= corners && corners <= 12
}

/// Whether what reaches so far from there ends less than 1 m from 0.
fn has_room(x: i64, reach: u64) -> bool
    requires { reach ≤ 1_000_000_000_000_000 }
    ensures { IsTrue result ↔ unsigned_abs x + reach < METRE }
{
    x.unsigned_abs() + reach < METRE
}

/// Whether it has so many corners, and stays in a metre.
fn is_regular(g: &RegularPolygon) -> bool
    ensures { IsTrue result ↔ IsRegular g.now }
{
    let room = has_room(g.centre.x, reach(g)) && has_room(g.centre.y, reach(g));
    is_lawful(g.corners) && room
}

/// Whether corner `k` is on the left of the line from `b` to `c`, where it goes to for the three headings.
fn corner_leans(g: &RegularPolygon, k: u32, b: Spot, c: Spot) -> bool
    requires regular { IsRegular g.now }
    requires few { k < g.now.corners }
    requires b_placed { IsPlaced b }
    requires c_placed { IsPlaced c }
    ensures { IsTrue result ↔ Leans (spec.turns_to g.now (2 * k)) b c (corner_of g.now k) }
{
    let m = turns_to(g, 2 * k);
    leans(&m, &triangle_of(&m), b, c, corner(g, k))
}

/// Whether it is so of each corner.
fn corners_lean(g: &RegularPolygon, b: Spot, c: Spot) -> bool
    requires regular { IsRegular g.now }
    requires b_placed { IsPlaced b }
    requires c_placed { IsPlaced c }
    ensures { IsTrue result ↔ CornersLean g.now b c }
{
    for k in 0..g.corners {
        if !corner_leans(g, k, b, c) {
            return false;
        }
    }
    true
}

/// Whether it is so of each polygon.
fn all_corners_lean(gs: &[RegularPolygon], b: Spot, c: Spot) -> bool
    requires regular { All IsRegular gs.now }
    requires b_placed { IsPlaced b }
    requires c_placed { IsPlaced c }
    ensures { IsTrue result ↔ AllCornersLean gs.now b c }
{
    for g in gs {
        if !corners_lean(g, b, c) {
            return false;
        }
    }
    true
}

/// Whether it is so for the edge from `b` to `c`, or `back` for that from `c` to `b`.
fn corners_lean_so(gs: &[RegularPolygon], back: bool, b: Spot, c: Spot) -> bool
    requires regular { All IsRegular gs.now }
    requires b_placed { IsPlaced b }
    requires c_placed { IsPlaced c }
    ensures { IsTrue result ↔ on_way back (AllCornersLean gs.now) b c }
{
    if back {
        all_corners_lean(gs, c, b)
    } else {
        all_corners_lean(gs, b, c)
    }
}

/// Whether it is so for each edge of the way from `start`, or for each of the way back.
fn each_has_corners(gs: &[RegularPolygon], back: bool, start: Spot, rest: &[Spot]) -> bool
    requires regular { All IsRegular gs.now }
    requires start_placed { IsPlaced start }
    requires rest_placed { All IsPlaced rest.now }
    ensures { IsTrue result ↔ EachFrom (on_way back (AllCornersLean gs.now)) start rest.now }
{
    let mut from = start;
    for to in rest {
        if !corners_lean_so(gs, back, from, *to) {
            return false;
        }
        from = *to;
    }
    true
}

/// Whether it is so for one of both.
fn has_corners(gs: &[RegularPolygon], start: Spot, rest: &[Spot]) -> bool
    requires regular { All IsRegular gs.now }
    requires start_placed { IsPlaced start }
    requires rest_placed { All IsPlaced rest.now }
    ensures { IsTrue result ↔ EachEdge (AllCornersLean gs.now) start rest.now }
{
    each_has_corners(gs, false, start, rest) || each_has_corners(gs, true, start, rest)
}

/// Whether the contour goes round the polygons once.
fn goes_round(gs: &[RegularPolygon], points: &[Spot]) -> bool
    requires regular { All IsRegular gs.now }
    requires placed { All IsPlaced points.now }
    ensures { IsTrue result ↔ GoesRound (AllCornersLean gs.now) points.now }
{
    match points {
        [] => false,
        [first, rest @ ..] => is_closed(points)
            && goes_once(*first, rest)
            && has_corners(gs, *first, rest),
    }
}

/// Whether each of them has so many corners, and stays in a metre.
fn are_regular(gs: &[RegularPolygon]) -> bool
    ensures { IsTrue result ↔ All IsRegular gs.now }
{
    gs.iter().all(|g| is_regular(g))
}

/// Whether the contour, which ends where it begins, holds the hull of the polygons. Its edges have to rise in one run,
/// with all corners of the polygons on one side of each (`PolygonsAbove`).
pub fn is_above_polygons(gs: &[RegularPolygon], points: &[Spot]) -> bool
    ensures taken { IsTrue result ↔ PolygonsAbove gs.now points.now }
    ensures copper { IsTrue result → (p : Point) → InHull gs.now p → InFigure (filled points.now) p }
{
    if !(are_regular(gs) && are_placed(points)) {
        return false;
    }
    goes_round(gs, points)
}

/// Whether each of the points, turned back, is on the left of edge `k`.
fn edge_holds(g: &RegularPolygon, k: u32, points: &[Spot]) -> bool
    requires regular { IsRegular g.now }
    requires few { k < g.now.corners }
    requires placed { All IsPlaced points.now }
    ensures { IsTrue result ↔ EdgeHolds g.now points.now k }
{
    let m = back(&turns_to(g, 2 * k + 1));
    let (start, end) = edge(g, k);
    all_lean(&m, &triangle_of(&m), start, end, points)
}

/// Whether it is so of each edge.
fn edges_hold(g: &RegularPolygon, points: &[Spot]) -> bool
    requires regular { IsRegular g.now }
    requires placed { All IsPlaced points.now }
    ensures { IsTrue result ↔ ((k : ℕ) → k < g.now.corners → EdgeHolds g.now points.now k) }
{
    for k in 0..g.corners {
        if !edge_holds(g, k, points) {
            return false;
        }
    }
    true
}

/// Whether the contour, which ends where it begins, lies in the polygon: its corners are on the left of each edge (`PolygonBelow`).
pub fn is_below_polygon(g: &RegularPolygon, points: &[Spot]) -> bool
    ensures taken { IsTrue result ↔ PolygonBelow g.now points.now }
    ensures copper { IsTrue result → (p : Point) → InFigure (filled points.now) p → SurelyInPolygon g.now p }
{
    if !(is_regular(g) && are_placed(points)) {
        return false;
    }
    is_closed(points) && edges_hold(g, points)
}
