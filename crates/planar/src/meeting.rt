//! Whether segments share a point.
ghost use Rattle.planar.specs.Plane.{AnEnd, InCapsule, IsPlaced, Share, at, cross_of};
ghost use Rattle.std.specs.Prelude.{IsTrue, pos, ◌<ℤ◌, ◌↔◌, ◌⊎◌};

use super::Spot;
use super::ways::{cross, dot};

/// Whether `p` lies on the segment from `a` to `b`.
fn on_segment(a: Spot, b: Spot, p: Spot) -> bool
    requires a_placed { IsPlaced a }
    requires b_placed { IsPlaced b }
    requires p_placed { IsPlaced p }
    ensures { IsTrue result ↔ InCapsule a b (pos 0) (at p) }
{
    cross(a, b, p) == 0 && dot(p, a, b) <= 0
}

/// Whether an end of the segment from `a` to `b` lies on the segment from `c` to `d`.
fn end_meets(a: Spot, b: Spot, c: Spot, d: Spot) -> bool
    requires a_placed { IsPlaced a }
    requires b_placed { IsPlaced b }
    requires c_placed { IsPlaced c }
    requires d_placed { IsPlaced d }
    ensures { IsTrue result ↔ AnEnd a b c d (pos 0) }
{
    on_segment(c, d, a) || on_segment(c, d, b)
}

/// Whether an end of one of the segments from `a` to `b` and from `c` to `d` lies on the other.
fn ends_meet(a: Spot, b: Spot, c: Spot, d: Spot) -> bool
    requires a_placed { IsPlaced a }
    requires b_placed { IsPlaced b }
    requires c_placed { IsPlaced c }
    requires d_placed { IsPlaced d }
    ensures { IsTrue result ↔ (AnEnd a b c d (pos 0) ⊎ AnEnd c d a b (pos 0)) }
{
    end_meets(a, b, c, d) || end_meets(c, d, a, b)
}

/// Whether the segment from `a` to `b`, which crosses the line through `c` and `d` from left to
/// right, shares a point with the segment from `c` to `d`.
fn crosses_over(a: Spot, b: Spot, c: Spot, d: Spot) -> bool
    requires a_placed { IsPlaced a }
    requires b_placed { IsPlaced b }
    requires c_placed { IsPlaced c }
    requires d_placed { IsPlaced d }
    requires rightward { (cross_of c d b) <ℤ (cross_of c d a) }
    ensures { IsTrue result ↔ Share a b (pos 0) c d (pos 0) }
{
    let (start, end) = (cross(c, d, a), cross(c, d, b));
    let (near, far) = (cross(a, b, c), cross(a, b, d));
    end.max(near) <= 0 && start.min(far) >= 0
}

/// Whether the segment from `a` to `b` stays on one side of the line through `c` and `d`. Most segments that
/// are asked about are told apart by this, with half of the products.
fn stays_beside(a: Spot, b: Spot, c: Spot, d: Spot) -> bool
    requires a_placed { IsPlaced a }
    requires b_placed { IsPlaced b }
    requires c_placed { IsPlaced c }
    requires d_placed { IsPlaced d }
    ensures { IsTrue result → Share a b (pos 0) c d (pos 0) → ⊥ }
{
    let (start, end) = (cross(c, d, a), cross(c, d, b));
    start.min(end) > 0 || start.max(end) < 0
}

/// Whether the closed segments from `a` to `b` and from `c` to `d` share a rational point. Segments of
/// no length, on one line or along each other are not excepted.
pub fn segments_meet(a: Spot, b: Spot, c: Spot, d: Spot) -> bool
    requires a_placed { IsPlaced a }
    requires b_placed { IsPlaced b }
    requires c_placed { IsPlaced c }
    requires d_placed { IsPlaced d }
    ensures { IsTrue result ↔ Share a b (pos 0) c d (pos 0) }
{
    if stays_beside(a, b, c, d) {
        return false;
    }
    let (start, end) = (cross(c, d, a), cross(c, d, b));
    if end < start {
        crosses_over(a, b, c, d)
    } else if start < end {
        crosses_over(c, d, a, b)
    } else {
        ends_meet(a, b, c, d)
    }
}
