//! Whether boxes in u lie between sides in half u, or around them.
ghost use Rattle.fine_figures.specs.Taken.{HoldSides, IsRectangleAround, IsBetweenSides, corner};
ghost use Rattle.std.specs.Prelude.{IsTrue, pos, ◌*ℤ◌, ◌≤ℤ◌, ◌<ℤ◌, ◌≡◌, ◌↔◌};

use contact::Bounds;
use planar::Spot;

/// Whether the left and the right side of the box lie between the sides.
fn is_between_across(sides: &Bounds, extent: &Bounds) -> bool
    ensures { IsTrue result ↔ ((sides.now.left ≤ℤ (pos 2 *ℤ extent.now.left)) × ((pos 2 *ℤ extent.now.right) ≤ℤ sides.now.right)) }
{
    sides.left as i128 <= 2 * extent.left as i128 && 2 * extent.right as i128 <= sides.right as i128
}

/// Whether its low and its high side do.
fn is_between_up(sides: &Bounds, extent: &Bounds) -> bool
    ensures { IsTrue result ↔ ((sides.now.low ≤ℤ (pos 2 *ℤ extent.now.low)) × ((pos 2 *ℤ extent.now.high) ≤ℤ sides.now.high)) }
{
    sides.low as i128 <= 2 * extent.low as i128 && 2 * extent.high as i128 <= sides.high as i128
}

/// Whether the box lies between the sides.
pub fn is_between(sides: &Bounds, extent: &Bounds) -> bool
    ensures { IsTrue result ↔ IsBetweenSides sides.now extent.now }
{
    is_between_across(sides, extent) && is_between_up(sides, extent)
}

/// Whether the left and the right side lie between two corners.
fn hold_across(lower: &Spot, upper: &Spot, sides: &Bounds) -> bool
    ensures { IsTrue result ↔ (((pos 2 *ℤ lower.now.x) ≤ℤ sides.now.left) × (sides.now.right ≤ℤ (pos 2 *ℤ upper.now.x))) }
{
    2 * lower.x as i128 <= sides.left as i128 && sides.right as i128 <= 2 * upper.x as i128
}

/// Whether the low and the high side do.
fn hold_up(lower: &Spot, upper: &Spot, sides: &Bounds) -> bool
    ensures { IsTrue result ↔ (((pos 2 *ℤ lower.now.y) ≤ℤ sides.now.low) × (sides.now.high ≤ℤ (pos 2 *ℤ upper.now.y))) }
{
    2 * lower.y as i128 <= sides.low as i128 && sides.high as i128 <= 2 * upper.y as i128
}

/// Whether all sides do.
fn hold_sides(lower: &Spot, upper: &Spot, sides: &Bounds) -> bool
    ensures { IsTrue result ↔ ((((pos 2 *ℤ lower.now.x) ≤ℤ sides.now.left) × (sides.now.right ≤ℤ (pos 2 *ℤ upper.now.x))) × (((pos 2 *ℤ lower.now.y) ≤ℤ sides.now.low) × (sides.now.high ≤ℤ (pos 2 *ℤ upper.now.y)))) }
{
    hold_across(lower, upper, sides) && hold_up(lower, upper, sides)
}

/// Whether the second spot is right of the first, and above it.
fn is_further(lower: &Spot, upper: &Spot) -> bool
    ensures { IsTrue result ↔ ((lower.now.x <ℤ upper.now.x) × (lower.now.y <ℤ upper.now.y)) }
{
    lower.x < upper.x && lower.y < upper.y
}

/// Whether the rectangle from the lower left corner to the upper right one holds the sides.
fn hold(lower: &Spot, upper: &Spot, sides: &Bounds) -> bool
    ensures { IsTrue result ↔ HoldSides lower.now upper.now sides.now }
{
    is_further(lower, upper) && hold_sides(lower, upper, sides)
}

/// Whether the spot is as far across as the one and as far up as the other.
fn is_at(s: &Spot, across: &Spot, up: &Spot) -> bool
    ensures { IsTrue result ↔ (s.now ≡ corner across.now up.now) }
{
    s.x == across.x && s.y == up.y
}

/// Whether the other two corners of the rectangle are these.
fn are_beside(lower: &Spot, upper: &Spot, right: &Spot, left: &Spot) -> bool
    ensures { IsTrue result ↔ ((right.now ≡ corner upper.now lower.now) × (left.now ≡ corner lower.now upper.now)) }
{
    is_at(right, upper, lower) && is_at(left, lower, upper)
}

/// Whether these are, and the last is the lower left one again.
fn are_corners(lower: &Spot, upper: &Spot, right: &Spot, left: &Spot, last: &Spot) -> bool
    ensures { IsTrue result ↔ ((right.now ≡ corner upper.now lower.now) × (left.now ≡ corner lower.now upper.now) × (last.now ≡ corner lower.now lower.now)) }
{
    are_beside(lower, upper, right, left) && is_at(last, lower, lower)
}

/// Whether the points are the corners of a rectangle that holds the sides.
pub fn is_around(sides: &Bounds, points: &[Spot]) -> bool
    ensures { IsTrue result ↔ IsRectangleAround sides.now points.now }
{
    match points {
        [lower, right, upper, left, last] => {
            are_corners(lower, upper, right, left, last) && hold(lower, upper, sides)
        }
        _ => false,
    }
}
