//! Whether points of segments are at most a radius apart.
ghost use Rattle.planar.specs.Framed.{AreFramed, IsFramed};
ghost use Rattle.planar.specs.Plane.{AnEnd, InCapsule, IsInFrame, IsPlaced, IsRadius, IsWithin, Share, at, dot_of, square};
ghost use Rattle.planar.specs.declared.TheConstants.{MOST_REACH};
ghost use Rattle.std.specs.Prelude.{IsTrue, pos, ◌*ℤ◌, ◌≤ℤ◌, ◌↔◌, ◌⊎◌};

use super::meeting::segments_meet;
use super::ways::{cross, dot};
use super::{Frame, SIDE, Spot};

/// Whether `p` is at most `r` from `o`.
#[tactic(auto, using(crate::proofs::SpotWithin::whole_from_zero))]
fn spots_within(o: Spot, p: Spot, r: u64) -> bool
    requires o_placed { IsPlaced o }
    requires p_placed { IsPlaced p }
    requires radius { pos r ≤ℤ MOST_REACH }
    ensures { IsTrue result ↔ (dot_of o p p) ≤ℤ (square (pos r)) }
{
    let r = r as u128;
    dot(o, p, p).unsigned_abs() <= r * r
}

/// The greatest cross product that is squared, in square u. Its square is over that of each reach
/// times that of each length in a frame, so a greater one is out of reach.
const MOST_SQUARED: u128 = 10_000_000_000_000_000_000;

/// The square of the greatest length in a frame, in square u.
const MOST_WHOLE: u128 = 2 * SIDE as u128 * SIDE as u128;

/// Whether a spot that is `off / length` from a line is at most `r` from it, where `whole` is the
/// square of the length.
fn line_within(off: i128, whole: i128, r: u64) -> bool
    requires whole_small { IsWithin MOST_WHOLE whole }
    requires from_zero { pos 0 ≤ℤ whole }
    requires radius { pos r ≤ℤ MOST_REACH }
    ensures { IsTrue result ↔ (square off) ≤ℤ (square (pos r) *ℤ whole) }
{
    let off = off.unsigned_abs();
    let far = off > MOST_SQUARED;
    if far {
        return false;
    }
    let r = r as u128;
    off * off <= r * r * whole.unsigned_abs()
}

/// Whether `p` is at most `r` from some place on the segment from `a` to `b`.
fn spot_within(a: Spot, b: Spot, p: Spot, r: u64, frame: Frame) -> bool
    requires segment { AreFramed frame a b }
    requires spot { IsFramed frame p }
    requires radius { pos r ≤ℤ MOST_REACH }
    ensures { IsTrue result ↔ InCapsule a b (pos r) (at p) }
{
    let (along, whole) = (dot(a, p, b), dot(a, b, b));
    if along <= 0 {
        spots_within(a, p, r)
    } else if whole <= along {
        spots_within(b, p, r)
    } else {
        line_within(cross(a, b, p), whole, r)
    }
}

/// Whether an end of the segment from `a` to `b` is at most `r` from the segment from `c` to `d`.
fn end_within(a: Spot, b: Spot, c: Spot, d: Spot, r: u64, frame: Frame) -> bool
    requires first { AreFramed frame a b }
    requires second { AreFramed frame c d }
    requires radius { pos r ≤ℤ MOST_REACH }
    ensures { IsTrue result ↔ AnEnd a b c d (pos r) }
{
    spot_within(c, d, a, r, frame) || spot_within(c, d, b, r, frame)
}

/// Whether an end of one of the segments from `a` to `b` and from `c` to `d` is at most `r` from the
/// other.
fn ends_within(a: Spot, b: Spot, c: Spot, d: Spot, r: u64, frame: Frame) -> bool
    requires first { AreFramed frame a b }
    requires second { AreFramed frame c d }
    requires radius { pos r ≤ℤ MOST_REACH }
    ensures { IsTrue result ↔ (AnEnd a b c d (pos r) ⊎ AnEnd c d a b (pos r)) }
{
    end_within(a, b, c, d, r, frame) || end_within(c, d, a, b, r, frame)
}

/// Whether the starts of the segments from `a` to `b` and from `c` to `d`, or their ends, are at most
/// `r` apart: a quick test, which most segments that are within `r` pass.
fn are_near(a: Spot, b: Spot, c: Spot, d: Spot, r: u64) -> bool
    requires a_placed { IsPlaced a }
    requires b_placed { IsPlaced b }
    requires c_placed { IsPlaced c }
    requires d_placed { IsPlaced d }
    requires radius { pos r ≤ℤ MOST_REACH }
    ensures { IsTrue result → AnEnd a b c d (pos r) }
{
    spots_within(c, a, r) || spots_within(d, b, r)
}

/// Whether the segments meet, or an end of one is at most `r` from the other.
fn are_within(a: Spot, b: Spot, c: Spot, d: Spot, r: u64, frame: Frame) -> bool
    requires first { AreFramed frame a b }
    requires second { AreFramed frame c d }
    requires radius { pos r ≤ℤ MOST_REACH }
    ensures { IsTrue result ↔ Share a b (pos 0) c d (pos r) }
{
    segments_meet(a, b, c, d) || ends_within(a, b, c, d, r, frame)
}

/// Whether some point of the segment from `a` to `b` is at most `r` from some point of the segment
/// from `c` to `d`. All four spots lie in the frame, and `r` is from 0 to `MOST_REACH`.
pub fn segments_within(a: Spot, b: Spot, c: Spot, d: Spot, r: i64, frame: Frame) -> bool
    requires a_placed { IsPlaced a }
    requires b_placed { IsPlaced b }
    requires c_placed { IsPlaced c }
    requires d_placed { IsPlaced d }
    requires a_in_frame { IsInFrame frame a }
    requires b_in_frame { IsInFrame frame b }
    requires c_in_frame { IsInFrame frame c }
    requires d_in_frame { IsInFrame frame d }
    requires radius { IsRadius r }
    ensures { IsTrue result ↔ Share a b (pos 0) c d r }
{
    let r = r.unsigned_abs();
    are_near(a, b, c, d, r) || are_within(a, b, c, d, r, frame)
}
