//! Whether polygons bound a figure that is turned by any turn between two.
ghost use Rattle.board_shapes.specs.Figures.{InFigure, filled};
ghost use Rattle.planar.specs.Plane.{EachFrom, IsPlaced, Point, cross_of, dot_of};
ghost use Rattle.slants.specs.Rounds.{EachEdge, GoesRound, on_way};
ghost use Rattle.slants.specs.Turned.{AllLean, AreBounded, AreReady, InTurned, IsBetween, IsBounded, IsTriangle, Leans, TurnedAbove, TurnedBelow};
ghost use Rattle.slants.specs.declared.turns.Turn.{Turn as AnyTurn};
ghost use Rattle.std.specs.Prelude.{All, IsTrue, pos, ◌≡◌, ◌+ℤ◌, ◌-ℤ◌, ◌*ℤ◌, ◌≤ℤ◌, ◌↔◌};

use super::contours::goes_once;
use super::turns::{Heading, Motions, Triangle, are_ready, back, triangle_of};
use area_contact::is_closed;
use planar::{Spot, are_placed, cross, dot};

/// How far a spot is on the left of a line, in square u: without a turn, and by the cosine and by the sine of one.
#[derive(Clone, Copy)]
pub struct Parts {
    pub still: i128,
    pub across: i128,
    pub along: i128,
}

/// The sum of those, for a heading, times its `n`.
fn lean(parts: Parts, d: Heading) -> i128
    requires parts_bounded { AreBounded parts }
    requires bounded { IsBounded d }
    ensures { result ≡ parts.still *ℤ d.n +ℤ parts.across *ℤ d.x +ℤ parts.along *ℤ d.y }
{
    parts.still * d.n + parts.across * d.x + parts.along * d.y
}

/// Those of a spot and the line from `b` to `c`.
fn parts_of(m: &Motions, b: Spot, c: Spot, q: Spot) -> Parts
    requires ready { AreReady m.now }
    requires b_placed { IsPlaced b }
    requires c_placed { IsPlaced c }
    requires q_placed { IsPlaced q }
    ensures still { result.still ≡ cross_of b c m.now.to }
    ensures across { result.across ≡ cross_of b c q -ℤ cross_of b c m.now.from }
    ensures along { result.along ≡ dot_of b c q -ℤ dot_of b c m.now.from }
    ensures bounded { AreBounded result }
{
    Parts {
        still: cross(b, c, m.to),
        across: cross(b, c, q) - cross(b, c, m.from),
        along: dot(b, c, q) - dot(b, c, m.from),
    }
}

/// Whether that is 0 or over.
pub fn leans_so(parts: Parts, d: Heading) -> bool
    requires parts_bounded { AreBounded parts }
    requires bounded { IsBounded d }
    ensures { IsTrue result ↔ pos 0 ≤ℤ (parts.still *ℤ d.n +ℤ parts.across *ℤ d.x +ℤ parts.along *ℤ d.y) }
{
    lean(parts, d) >= 0
}

/// Whether the spot is on the left of the line from `b` to `c`, where it goes to for the three headings.
pub fn leans(m: &Motions, triangle: &Triangle, b: Spot, c: Spot, q: Spot) -> bool
    requires ready { AreReady m.now }
    requires triangle { IsTriangle m.now triangle.now }
    requires b_placed { IsPlaced b }
    requires c_placed { IsPlaced c }
    requires q_placed { IsPlaced q }
    ensures { IsTrue result ↔ Leans m.now b c q }
{
    let parts = parts_of(m, b, c, q);
    leans_so(parts, triangle.first)
        && leans_so(parts, triangle.middle)
        && leans_so(parts, triangle.last)
}

/// Whether it is so of each corner of the figure.
pub fn all_lean(m: &Motions, triangle: &Triangle, b: Spot, c: Spot, figure: &[Spot]) -> bool
    requires ready { AreReady m.now }
    requires triangle { IsTriangle m.now triangle.now }
    requires b_placed { IsPlaced b }
    requires c_placed { IsPlaced c }
    requires placed { All IsPlaced figure.now }
    ensures { IsTrue result ↔ AllLean figure.now m.now b c }
{
    for q in figure {
        if !leans(m, triangle, b, c, *q) {
            return false;
        }
    }
    true
}

/// Whether it is so for the edge from `b` to `c`, or `back` for that from `c` to `b`.
fn all_lean_so(
    m: &Motions,
    triangle: &Triangle,
    back: bool,
    b: Spot,
    c: Spot,
    figure: &[Spot],
) -> bool
    requires ready { AreReady m.now }
    requires triangle { IsTriangle m.now triangle.now }
    requires b_placed { IsPlaced b }
    requires c_placed { IsPlaced c }
    requires placed { All IsPlaced figure.now }
    ensures { IsTrue result ↔ on_way back (AllLean figure.now m.now) b c }
{
    if back {
        all_lean(m, triangle, c, b, figure)
    } else {
        all_lean(m, triangle, b, c, figure)
    }
}

/// Whether it is so for each edge of the way from `start`, or for each of the way back.
fn each_leans(
    m: &Motions,
    triangle: &Triangle,
    back: bool,
    start: Spot,
    rest: &[Spot],
    figure: &[Spot],
) -> bool
    requires ready { AreReady m.now }
    requires triangle { IsTriangle m.now triangle.now }
    requires start_placed { IsPlaced start }
    requires rest_placed { All IsPlaced rest.now }
    requires placed { All IsPlaced figure.now }
    ensures { IsTrue result ↔ EachFrom (on_way back (AllLean figure.now m.now)) start rest.now }
{
    let mut from = start;
    for to in rest {
        if !all_lean_so(m, triangle, back, from, *to, figure) {
            return false;
        }
        from = *to;
    }
    true
}

/// Whether it is so for one of both.
fn leans_round(
    m: &Motions,
    triangle: &Triangle,
    start: Spot,
    rest: &[Spot],
    figure: &[Spot],
) -> bool
    requires ready { AreReady m.now }
    requires triangle { IsTriangle m.now triangle.now }
    requires start_placed { IsPlaced start }
    requires rest_placed { All IsPlaced rest.now }
    requires placed { All IsPlaced figure.now }
    ensures { IsTrue result ↔ EachEdge (AllLean figure.now m.now) start rest.now }
{
    each_leans(m, triangle, false, start, rest, figure)
        || each_leans(m, triangle, true, start, rest, figure)
}

/// Whether the polygon goes round the figure once.
fn goes_round(m: &Motions, triangle: &Triangle, points: &[Spot], figure: &[Spot]) -> bool
    requires ready { AreReady m.now }
    requires triangle { IsTriangle m.now triangle.now }
    requires points_placed { All IsPlaced points.now }
    requires placed { All IsPlaced figure.now }
    ensures { IsTrue result ↔ GoesRound (AllLean figure.now m.now) points.now }
{
    match points {
        [] => false,
        [first, rest @ ..] => is_closed(points)
            && goes_once(*first, rest)
            && leans_round(m, triangle, *first, rest, figure),
    }
}

/// Whether the polygon, which ends where it begins, holds the figure of the contour for each of the motions. Its edges
/// have to rise in one run, as those of a convex polygon do, with the figure on one side of each. Where it says so, it
/// does; of others that do, it may refuse some, the more the further the two turns are apart (`TurnedAbove`).
pub fn is_above_turned(figure: &[Spot], m: &Motions, points: &[Spot]) -> bool
    ensures taken { IsTrue result ↔ TurnedAbove figure.now m.now points.now }
    ensures copper { IsTrue result → (t : AnyTurn) (p : Point) → IsBetween m.now t → InTurned figure.now m.now t p → InFigure (filled points.now) p }
{
    if !(are_ready(m) && are_placed(figure) && are_placed(points)) {
        return false;
    }
    is_closed(figure) && goes_round(m, &triangle_of(m), points, figure)
}

/// Whether the polygon lies in the figure for each of the motions. The edges of the figure have to rise in one run, with
/// the polygon on one side of each. Where it says so, it does; of others that do, it may refuse some
/// (`TurnedBelow`).
pub fn is_below_turned(figure: &[Spot], m: &Motions, points: &[Spot]) -> bool
    ensures taken { IsTrue result ↔ TurnedBelow figure.now m.now points.now }
    ensures copper { IsTrue result → (t : AnyTurn) (p : Point) → IsBetween m.now t → InFigure (filled points.now) p → InTurned figure.now m.now t p }
{
    are_ready(m) && is_above_turned(points, &back(m), figure)
}
