//! Discs that are turned by degrees, and whether discs about whole spots bound them.
ghost use Rattle.board_shapes.specs.Figures.{InFigure};
ghost use Rattle.planar.specs.Plane.{IsPlaced, IsWithin, Point, cross_of, dot_of, square};
ghost use Rattle.planar.specs.declared.TheConstants.{TWO_METRES as FURTHEST};
ghost use Rattle.slants.specs.Discs.{DiscAbove, DiscBelow, HasRoom, PossiblyInDisc, StaysNear, SurelyInDisc, disc_about};
ghost use Rattle.slants.specs.Turned.{AreBounded, AreReady, IsTriangle};
ghost use Rattle.std.specs.Prelude.{IsTrue, pos, ◌≡◌, ◌≤◌, ◌+ℤ◌, ◌-ℤ◌, ◌≤ℤ◌, ◌↔◌};

use super::cones::{RIGHT_ANGLE, turns};
use super::turned::{Parts, leans_so};
use super::turns::{Motions, Triangle, are_ready, triangle_of};
use planar::{Spot, TWO_METRES, cross, dot, is_placed};

/// A disc that is turned counterclockwise about a spot (Gerber Layer Format Specification, 4.5.1, code 1).
#[derive(Clone, Copy)]
pub struct TurnedDisc {
    /// Its centre before the turn, in u.
    pub centre: Spot,
    /// Its radius, in u.
    pub radius: u64,
    /// What it is turned about, in u.
    pub about: Spot,
    /// How far, in 10^-7 degrees: below 900,000,000, and 0 for a disc that is not turned.
    pub angle: u32,
}

/// The square of a length.
fn squared(far: u64) -> i128
    requires { far ≤ FURTHEST }
    ensures value { result ≡ square (pos far) }
    ensures from_zero { pos 0 ≤ℤ result }
    ensures small { result ≤ℤ pos 800000000000000000000 }
{
    (far as u128 * far as u128) as i128
}

/// The square of the way from `o` to `a`, in square u.
fn length_squared(o: Spot, a: Spot) -> i128
    requires o_placed { IsPlaced o }
    requires a_placed { IsPlaced a }
    ensures value { result ≡ dot_of o a a }
    ensures from_zero { pos 0 ≤ℤ result }
    ensures small { result ≤ℤ pos 800000000000000000000 }
{
    dot(o, a, a)
}

/// By how much the square of `far` is over those of the ways from `o` to both spots.
fn still(o: Spot, q: Spot, s: Spot, far: u64) -> i128
    requires o_placed { IsPlaced o }
    requires q_placed { IsPlaced q }
    requires s_placed { IsPlaced s }
    requires short { far ≤ FURTHEST }
    ensures value { result ≡ square (pos far) -ℤ dot_of o q q -ℤ dot_of o s s }
    ensures small { IsWithin 1600000000000000000000 result }
{
    squared(far) - length_squared(o, q) - length_squared(o, s)
}

/// Twice the scalar product of the ways from `o`.
fn twice_along(o: Spot, q: Spot, s: Spot) -> i128
    requires o_placed { IsPlaced o }
    requires q_placed { IsPlaced q }
    requires s_placed { IsPlaced s }
    ensures value { result ≡ dot_of o q s +ℤ dot_of o q s }
    ensures small { IsWithin 1600000000000000000000 result }
{
    let product = dot(o, q, s);
    product + product
}

/// Twice their cross product.
fn twice_across(o: Spot, q: Spot, s: Spot) -> i128
    requires o_placed { IsPlaced o }
    requires q_placed { IsPlaced q }
    requires s_placed { IsPlaced s }
    ensures value { result ≡ cross_of o q s +ℤ cross_of o q s }
    ensures small { IsWithin 1600000000000000000000 result }
{
    let product = cross(o, q, s);
    product + product
}

/// By how much the square of `far` is over that of the way from `q`, turned about `o`, to `s`.
fn room(o: Spot, q: Spot, s: Spot, far: u64) -> Parts
    requires o_placed { IsPlaced o }
    requires q_placed { IsPlaced q }
    requires s_placed { IsPlaced s }
    requires short { far ≤ FURTHEST }
    ensures still { result.still ≡ square (pos far) -ℤ dot_of o q q -ℤ dot_of o s s }
    ensures across { result.across ≡ dot_of o q s +ℤ dot_of o q s }
    ensures along { result.along ≡ cross_of o q s +ℤ cross_of o q s }
    ensures bounded { AreBounded result }
{
    Parts {
        still: still(o, q, s, far),
        across: twice_along(o, q, s),
        along: twice_across(o, q, s),
    }
}

/// Whether there is room at the corners of the triangle.
fn has_room(m: &Motions, triangle: &Triangle, q: Spot, s: Spot, far: u64) -> bool
    requires ready { AreReady m.now }
    requires triangle { IsTriangle m.now triangle.now }
    requires q_placed { IsPlaced q }
    requires s_placed { IsPlaced s }
    requires short { far ≤ FURTHEST }
    ensures { IsTrue result ↔ HasRoom m.now q s far }
{
    let parts = room(m.from, q, s, far);
    leans_so(parts, triangle.first)
        && leans_so(parts, triangle.middle)
        && leans_so(parts, triangle.last)
}

/// Whether the disc's centre stays at most `far` from the spot.
fn stays_near(disc: &TurnedDisc, s: Spot, far: u64) -> bool
    ensures { IsTrue result ↔ StaysNear disc.now s far }
{
    if !(disc.angle < RIGHT_ANGLE && far <= TWO_METRES) {
        return false;
    }
    let m = turns(disc.about, disc.angle);
    if !(are_ready(&m) && is_placed(disc.centre) && is_placed(s)) {
        return false;
    }
    has_room(&m, &triangle_of(&m), disc.centre, s, far)
}

/// Whether the disc about `s` of radius `r`, in u, lies in the turned one: where it says so, it does at each turn by about
/// the angle, and of others that do, it may refuse some (`DiscBelow`).
pub fn is_below_disc(disc: &TurnedDisc, s: Spot, r: u64) -> bool
    ensures taken { IsTrue result ↔ DiscBelow disc.now s r }
    ensures copper { IsTrue result → (p : Point) → InFigure (disc_about s r) p → SurelyInDisc disc.now p }
{
    r <= disc.radius && stays_near(disc, s, disc.radius - r)
}

/// Whether it holds the turned one: where it says so, it does at each turn by about the angle, and of others that do, it may
/// refuse some (`DiscAbove`).
pub fn is_above_disc(disc: &TurnedDisc, s: Spot, r: u64) -> bool
    ensures taken { IsTrue result ↔ DiscAbove disc.now s r }
    ensures copper { IsTrue result → (p : Point) → PossiblyInDisc disc.now p → InFigure (disc_about s r) p }
{
    disc.radius <= r && stays_near(disc, s, r - disc.radius)
}
