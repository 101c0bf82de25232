//! Whether a polygon lies in a slanted rectangle.
ghost use Rattle.board_shapes.specs.Figures.{InFigure, filled};
ghost use Rattle.planar.specs.Plane.{IsPlaced, Point, at, cross_of, dot_of, square};
ghost use Rattle.slants.specs.Copper.{InSlant};
ghost use Rattle.slants.specs.Taken.{Each, IsPlacedSlant, TakenBelow, band};
ghost use Rattle.std.specs.Prelude.{All, IsTrue, pos, ◌*◌, ◌≡◌, ◌≤◌, ◌*ℤ◌, ◌≤ℤ◌, ◌↔◌};

use super::Slant;
use super::measures::{band_of, is_ready, length_squared};
use area_contact::is_closed;
use planar::{Spot, cross, dot};

/// Whether the spot is not behind `o`, on the way from there to `a`.
fn is_ahead(o: Spot, a: Spot, q: Spot) -> bool
    requires o_placed { IsPlaced o }
    requires a_placed { IsPlaced a }
    requires q_placed { IsPlaced q }
    ensures { IsTrue result ↔ pos 0 ≤ℤ dot_of o a q }
{
    dot(o, a, q) >= 0
}

/// Whether the square of twice `off` is at most `band`.
fn is_within(off: u128, band: u128) -> bool
    ensures { IsTrue result ↔ 2 * off * (2 * off) ≤ band }
{
    match off.checked_mul(off) {
        Some(square) => square <= band / 4,
        None => false,
    }
}

/// Whether the spot is at most half the width from the line through both ends.
fn is_beside(slant: &Slant, most: u128, q: Spot) -> bool
    requires slant { IsPlacedSlant slant.now }
    requires placed { IsPlaced q }
    requires is { pos most ≡ band slant.now }
    ensures { IsTrue result ↔ square (pos 2 *ℤ cross_of slant.now.start slant.now.end q) ≤ℤ band slant.now }
{
    is_within(cross(slant.start, slant.end, q).unsigned_abs(), most)
}

/// Whether it is so, and between the lines across both ends.
fn is_about(slant: &Slant, most: u128, q: Spot) -> bool
    requires slant { IsPlacedSlant slant.now }
    requires placed { IsPlaced q }
    requires is { pos most ≡ band slant.now }
    ensures { IsTrue result ↔ (pos 0 ≤ℤ dot_of slant.now.start slant.now.end q) × (pos 0 ≤ℤ dot_of slant.now.end slant.now.start q) × (square (pos 2 *ℤ cross_of slant.now.start slant.now.end q) ≤ℤ band slant.now) }
{
    is_ahead(slant.start, slant.end, q)
        && is_ahead(slant.end, slant.start, q)
        && is_beside(slant, most, q)
}

/// Whether the corner lies in the rectangle.
fn has_corner(slant: &Slant, most: u128, q: Spot) -> bool
    requires slant { IsPlacedSlant slant.now }
    requires apart { pos 1 ≤ℤ dot_of slant.now.start slant.now.end slant.now.end }
    requires placed { IsPlaced q }
    requires is { pos most ≡ band slant.now }
    ensures { IsTrue result ↔ InSlant slant.now (at q) }
{
    is_about(slant, most, q)
}

/// Whether each of the corners does.
fn has_corners(slant: &Slant, most: u128, points: &[Spot]) -> bool
    requires slant { IsPlacedSlant slant.now }
    requires apart { pos 1 ≤ℤ dot_of slant.now.start slant.now.end slant.now.end }
    requires placed { All IsPlaced points.now }
    requires is { pos most ≡ band slant.now }
    ensures { IsTrue result ↔ Each (λ q. InSlant slant.now (at q)) points.now }
{
    for q in points {
        if !has_corner(slant, most, *q) {
            return false;
        }
    }
    true
}

/// Whether the polygon with these corners, the last of which is the first again, lies in the
/// rectangle: it does exactly where each corner does. Numbers of over 128 bits are refused
/// (`TakenBelow`).
pub fn is_below(slant: &Slant, points: &[Spot]) -> bool
    ensures taken { IsTrue result ↔ TakenBelow slant.now points.now }
    ensures copper { IsTrue result → (p : Point) → InFigure (filled points.now) p → InSlant slant.now p }
{
    if !is_ready(slant, points) {
        return false;
    }
    if length_squared(slant) == 0 || !is_closed(points) {
        return false;
    }
    match band_of(slant) {
        Some(most) => has_corners(slant, most, points),
        None => false,
    }
}
