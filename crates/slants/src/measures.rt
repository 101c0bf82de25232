//! Whole numbers for the length and the width.
ghost use Rattle.planar.specs.Plane.{dot_of, square};
ghost use Rattle.planar.specs.declared.TheConstants.{TWO_METRES};
ghost use Rattle.slants.specs.Taken.{ArePlaced, IsBand, IsPlacedSlant, band};
ghost use Rattle.std.specs.Prelude.{IsTrue, pos, ◌*◌, ◌+◌, ◌≡◌, ◌≤◌, ◌*ℤ◌, ◌<ℤ◌, ◌≤ℤ◌, ◌↔◌};

use super::Slant;
use planar::{Spot, are_placed, dot, is_placed};

/// Lengths are reckoned in parts of which a u has so many.
pub const FINE: u128 = 16_777_216;

/// Whether start, end and the points are within a metre.
pub fn is_ready(slant: &Slant, points: &[Spot]) -> bool
    ensures { IsTrue result ↔ ArePlaced slant.now points.now }
{
    is_placed(slant.start) && is_placed(slant.end) && are_placed(points)
}

/// The square of the length, in square u.
pub fn length_squared(slant: &Slant) -> u128
    requires slant { IsPlacedSlant slant.now }
    ensures value { pos result ≡ dot_of slant.now.start slant.now.end slant.now.end }
    ensures small { result ≤ 2 * TWO_METRES * TWO_METRES }
{
    dot(slant.start, slant.end, slant.end).unsigned_abs()
}

/// The square of the width times that of the length; `None` where it does not fit in 128 bits.
pub fn band_of(slant: &Slant) -> Option<u128>
    requires slant { IsPlacedSlant slant.now }
    ensures { IsBand result (band slant.now) }
{
    let width = slant.width as u128;
    (width * width).checked_mul(length_squared(slant))
}

/// Twice the length in parts of `FINE`, rounded down.
pub fn root_of(slant: &Slant) -> u128
    requires slant { IsPlacedSlant slant.now }
    ensures under { square (pos result) ≤ℤ (square (pos (2 * FINE)) *ℤ dot_of slant.now.start slant.now.end slant.now.end) }
    ensures over { (square (pos (2 * FINE)) *ℤ dot_of slant.now.start slant.now.end slant.now.end) <ℤ square (pos (result + 1)) }
{
    (2 * FINE * (2 * FINE) * length_squared(slant)).isqrt()
}
