//! On which side of a line or an edge a spot lies.
ghost use Rattle.planar.specs.Plane.{IsPlaced, PassesRight, RayCrosses, at, cross_of};
ghost use Rattle.std.specs.Prelude.{IsTrue, pos, ◌<ℤ◌, ◌≡◌, ◌↔◌};

use super::ways::cross;
use super::{Hand, Spot};

/// On which hand `p` lies, seen from `a` towards `b`: the sign of `cross(a, b, p)`.
pub fn which_side(a: Spot, b: Spot, p: Spot) -> Hand
    requires a_placed { IsPlaced a }
    requires b_placed { IsPlaced b }
    requires p_placed { IsPlaced p }
    ensures left { result ≡ Hand.Left ↔ pos 0 <ℤ (cross_of a b p) }
    ensures on { result ≡ Hand.On ↔ cross_of a b p ≡ pos 0 }
    ensures right { result ≡ Hand.Right ↔ (cross_of a b p) <ℤ pos 0 }
{
    let turn = cross(a, b, p);
    if turn > 0 {
        Hand::Left
    } else if turn == 0 {
        Hand::On
    } else {
        Hand::Right
    }
}

/// Whether the ray from `p` to the right crosses the edge between `a` and `b`: one of its ends is
/// strictly above `p` and the other is not, and the edge passes strictly to the right of `p` at `p`'s
/// height.
pub fn ray_crosses(a: Spot, b: Spot, p: Spot) -> bool
    requires a_placed { IsPlaced a }
    requires b_placed { IsPlaced b }
    requires p_placed { IsPlaced p }
    ensures { IsTrue result ↔ RayCrosses a b (at p) }
{
    passes_right(a, b, p) || passes_right(b, a, p)
}

/// Whether the edge from `low` up to `high` passes to the right of `p` at `p`'s height.
fn passes_right(low: Spot, high: Spot, p: Spot) -> bool
    requires low_placed { IsPlaced low }
    requires high_placed { IsPlaced high }
    requires p_placed { IsPlaced p }
    ensures { IsTrue result ↔ PassesRight low high (at p) }
{
    if low.y <= p.y && p.y < high.y {
        cross(low, high, p) > 0
    } else {
        false
    }
}
