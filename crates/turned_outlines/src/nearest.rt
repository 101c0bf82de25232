//! Spots near the corners of a turned figure. Ways are in parts of `ONE`.
ghost use Rattle.planar.specs.Plane.{IsPlaced, IsWithin};
ghost use Rattle.planar.specs.declared.TheConstants.{METRE as FURTHEST};
ghost use Rattle.std.specs.Prelude.{All, IfOk, max, pos, unsigned_abs, ◌+◌, ◌*◌, ◌-◌, ◌/◌, ◌≡◌, ◌≤◌, ◌+ℤ◌, ◌-ℤ◌, ◌*ℤ◌};
ghost use Rattle.turned_outlines.specs.Nearest as spec;

use lengths::rows::NoMemory;
use planar::{METRE, Spot, cross, dot};
use slants::{ONE, PI};
use std::alloc::Global;

/// So many halves of 10^-7 degrees, halved twenty times, are a half turn.
pub const PARTS: u128 = 3_600_000_000 * 1_048_576;

/// Squares of ways are divided by so much: directions are below a metre.
pub const SCALE: u128 = 3 * ONE * ONE / METRE as u128;

/// One part in so many of the furthest corner's distance is room for the turns of a cone.
pub const FINE: u64 = 10_000_000;

/// The cosine and the sine of a turn, times `n`.
#[derive(Clone, Copy)]
pub struct Direction {
    pub x: u64,
    pub y: u64,
    pub n: u64,
}

/// The product of two numbers up to 1.
fn product(a: u128, b: u128) -> u128
    requires a_small { a ≤ ONE }
    requires b_small { b ≤ ONE }
    ensures value { result ≡ a * b / ONE }
    ensures small { result ≤ ONE }
{
    a * b / ONE
}

/// A way at twice the angle.
#[tactic(auto, unfolding(crate::specs::Nearest::doubled))]
fn doubled(way: (u128, u128)) -> (u128, u128)
    requires across { way.0 ≤ ONE }
    requires up { way.1 ≤ ONE }
    ensures value { result ≡ spec.doubled way }
    ensures across { result.0 ≤ ONE }
    ensures up { result.1 ≤ ONE }
{
    let across = product(way.0, way.0).saturating_sub(product(way.1, way.1));
    let short = ONE.saturating_sub(2 * product(way.0, way.1));
    (across, ONE - short)
}

/// At 32 times the angle.
#[tactic(auto, unfolding(crate::specs::Nearest::doubled_five))]
fn doubled_five(way: (u128, u128)) -> (u128, u128)
    requires across { way.0 ≤ ONE }
    requires up { way.1 ≤ ONE }
    ensures value { result ≡ spec.doubled_five way }
    ensures across { result.0 ≤ ONE }
    ensures up { result.1 ≤ ONE }
{
    doubled(doubled(doubled(doubled(doubled(way)))))
}

/// A way at about half the angle.
#[tactic(auto, unfolding(crate::specs::Nearest::half_way))]
fn half_way(angle: u32) -> (u128, u128)
    ensures value { result ≡ spec.half_way angle }
    ensures across { result.0 ≤ ONE }
    ensures up { result.1 ≤ ONE }
{
    let low = (ONE, angle as u128 * PI / PARTS);
    doubled_five(doubled_five(doubled_five(doubled_five(low))))
}

/// A part of the square of a way.
fn part(z: u128) -> u64
    requires { z ≤ 2 * (ONE * ONE) }
    ensures value { result ≡ z / SCALE }
    ensures small { result + 1 ≤ FURTHEST }
{
    (z / SCALE) as u64
}

/// The direction at twice the angle of the way.
fn direction_by(way: (u128, u128)) -> Direction
    requires across { way.0 ≤ ONE }
    requires up { way.1 ≤ ONE }
    ensures value { result ≡ spec.direction_by way }
    ensures across { result.x ≤ FURTHEST }
    ensures up { result.y ≤ FURTHEST }
    ensures some { 1 ≤ result.n }
    ensures whole { result.n ≤ FURTHEST }
{
    let (across, up) = (way.0 * way.0, way.1 * way.1);
    Direction {
        x: part(across.saturating_sub(up)),
        y: part(2 * way.0 * way.1),
        n: part(across + up) + 1,
    }
}

/// The direction of the turn by about the angle.
pub fn direction_at(angle: u32) -> Direction
    ensures value { result ≡ spec.direction_by (spec.half_way angle) }
    ensures across { result.x ≤ FURTHEST }
    ensures up { result.y ≤ FURTHEST }
    ensures some { 1 ≤ result.n }
    ensures whole { result.n ≤ FURTHEST }
{
    direction_by(half_way(angle))
}

/// The scalar product of two spots, as ways from (0, 0).
fn along(a: Spot, b: Spot) -> i128
    requires a_placed { IsPlaced a }
    requires b_placed { IsPlaced b }
    ensures value { result ≡ a.x *ℤ b.x +ℤ a.y *ℤ b.y }
    ensures small { IsWithin 400000000000000000000 result }
{
    dot(Spot { x: 0, y: 0 }, a, b)
}

/// And their cross product.
fn across(a: Spot, b: Spot) -> i128
    requires a_placed { IsPlaced a }
    requires b_placed { IsPlaced b }
    ensures value { result ≡ a.x *ℤ b.y -ℤ a.y *ℤ b.x }
    ensures small { IsWithin 400000000000000000000 result }
{
    cross(Spot { x: 0, y: 0 }, a, b)
}

/// The direction's parts, the other way round.
fn flipped(d: Direction) -> Spot
    requires across { d.x ≤ FURTHEST }
    requires up { d.y ≤ FURTHEST }
    ensures across { result.x ≡ pos d.y }
    ensures up { result.y ≡ pos d.x }
    ensures placed { IsPlaced result }
{
    Spot {
        x: d.y as i64,
        y: d.x as i64,
    }
}

/// What the turn takes from `n` times a spot.
fn taken(d: Direction) -> Spot
    requires across { d.x ≤ FURTHEST }
    requires up { d.y ≤ FURTHEST }
    requires whole { d.n ≤ FURTHEST }
    ensures across { result.x ≡ pos d.n -ℤ pos d.x }
    ensures up { result.y ≡ pos d.y }
    ensures placed { IsPlaced result }
{
    Spot {
        x: d.n as i64 - d.x as i64,
        y: d.y as i64,
    }
}

/// The sum of two areas.
fn sum(a: i128, b: i128) -> i128
    requires a_small { IsWithin 400000000000000000000 a }
    requires b_small { IsWithin 400000000000000000000 b }
    ensures value { result ≡ a +ℤ b }
    ensures small { IsWithin 800000000000000000000 result }
{
    a + b
}

/// The quotient, to the nearest whole number.
fn nearest(z: i128, n: u64) -> i128
    requires some { 1 ≤ n }
    requires small { n ≤ FURTHEST }
    requires within { IsWithin 800000000000000000000 z }
    ensures { result ≡ spec.nearest z (pos n) }
{
    let whole = n as i128;
    (z + z + whole).div_euclid(whole + whole)
}

/// The spot of the two coordinates, if that is within a metre, else `s`.
fn spot_at(x: i128, y: i128, s: Spot) -> Spot
    ensures { result ≡ spec.kept (record { x = x; y = y }) s }
{
    if x.unsigned_abs() <= METRE as u128 && y.unsigned_abs() <= METRE as u128 {
        Spot {
            x: x as i64,
            y: y as i64,
        }
    } else {
        s
    }
}

/// `n` times how far across `s` comes that is turned about `o`.
fn turned_across(d: Direction, o: Spot, s: Spot) -> i128
    requires across { d.x ≤ FURTHEST }
    requires up { d.y ≤ FURTHEST }
    requires whole { d.n ≤ FURTHEST }
    requires o_placed { IsPlaced o }
    requires s_placed { IsPlaced s }
    ensures value { result ≡ pos d.n *ℤ o.x +ℤ (pos d.x *ℤ (s.x -ℤ o.x) -ℤ pos d.y *ℤ (s.y -ℤ o.y)) }
    ensures small { IsWithin 800000000000000000000 result }
{
    sum(along(o, taken(d)), across(s, flipped(d)))
}

/// And how far up.
fn turned_up(d: Direction, o: Spot, s: Spot) -> i128
    requires across { d.x ≤ FURTHEST }
    requires up { d.y ≤ FURTHEST }
    requires whole { d.n ≤ FURTHEST }
    requires o_placed { IsPlaced o }
    requires s_placed { IsPlaced s }
    ensures value { result ≡ pos d.n *ℤ o.y +ℤ (pos d.x *ℤ (s.y -ℤ o.y) +ℤ pos d.y *ℤ (s.x -ℤ o.x)) }
    ensures small { IsWithin 800000000000000000000 result }
{
    sum(across(taken(d), o), along(s, flipped(d)))
}

/// The nearest spot to `s` turned about `o`, or `s` itself where that is not within a metre.
fn turned_corner(d: Direction, o: Spot, s: Spot) -> Spot
    requires across { d.x ≤ FURTHEST }
    requires up { d.y ≤ FURTHEST }
    requires some { 1 ≤ d.n }
    requires whole { d.n ≤ FURTHEST }
    requires o_placed { IsPlaced o }
    requires s_placed { IsPlaced s }
    ensures { result ≡ spec.turned_corner d o s }
{
    let across = turned_across(d, o, s);
    let up = turned_up(d, o, s);
    spot_at(nearest(across, d.n), nearest(up, d.n), s)
}

/// The nearest spot to one, turned about another by about the angle, which is in 10^-7 degrees; itself where that would be over
/// a metre off 0.
pub fn turned_spot(s: Spot, about: Spot, angle: u32) -> Spot
    requires about_placed { IsPlaced about }
    requires placed { IsPlaced s }
    ensures { result ≡ spec.turned_at angle about s }
{
    turned_corner(direction_at(angle), about, s)
}

/// The nearest spots to the corners, turned about the spot by about the angle, which is in 10^-7 degrees. One that would be over a
/// metre off 0 stays as it was. `NoMemory` where memory is wanted for the spots.
pub fn turned_corners(
    alloc: Global,
    contour: &[Spot],
    about: Spot,
    angle: u32,
) -> Result<Vec<Spot>, NoMemory>
    requires about_placed { IsPlaced about }
    requires placed { All IsPlaced contour.now }
    ensures { IfOk result (λ corners. corners.items ≡ spec.turned_corners contour.now about angle) }
{
    let d = direction_at(angle);
    let mut corners = Vec::new(alloc);
    for s in contour {
        let corner = turned_corner(d, about, *s);
        corners.push(corner)?;
    }
    Ok(corners)
}

/// How far the spot is from `o`, across or up.
fn reach(o: Spot, s: Spot) -> u64
    ensures { result ≡ max (unsigned_abs (s.x -ℤ o.x)) (unsigned_abs (s.y -ℤ o.y)) }
{
    let across: u64 = s.x.abs_diff(o.x);
    let up: u64 = s.y.abs_diff(o.y);
    if across < up { up } else { across }
}

/// The larger number.
fn larger(a: u64, b: u64) -> u64
    ensures { result ≡ max a b }
{
    if a < b { b } else { a }
}

/// How far off the nearest spots are let be, in u: the checks ask whether they are.
pub fn slack(contour: &[Spot], about: Spot) -> u64
    ensures { result ≡ spec.slack contour.now about }
{
    let mut far: u64 = 0;
    for s in contour {
        far = larger(far, reach(about, *s));
    }
    2 + far / FINE
}
