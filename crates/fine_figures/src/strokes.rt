//! Whether the ends of strokes are near one another.
ghost use Rattle.fine_figures.specs.Taken as spec;
ghost use Rattle.fine_figures.specs.Taken.{EndsNear, IsThinner};
ghost use Rattle.planar.specs.Plane.{IsPlaced, dot_of, square};
ghost use Rattle.std.specs.Prelude.{IsTrue, pos, ◌≡◌, ◌+ℤ◌, ◌-ℤ◌, ◌*ℤ◌, ◌≤ℤ◌, ◌↔◌};

use super::FineStroke;
use contact::Capsule;
use planar::Spot;

/// A spot in u, within 1 m of 0 in x and y, as one in half u. It takes no memory.
pub fn doubled(s: Spot) -> Spot
    requires placed { IsPlaced s }
    ensures value { result ≡ spec.doubled s }
{
    Spot {
        x: 2 * s.x,
        y: 2 * s.y,
    }
}

/// Whether a way so far across and so far up is at most `far` long.
fn is_short(across: u64, up: u64, far: u64) -> bool
    ensures { IsTrue result ↔ (square (pos across) +ℤ square (pos up)) ≤ℤ square (pos far) }
{
    if far < across {
        return false;
    }
    let (across, up, far) = (across as u128, up as u128, far as u128);
    up * up <= far * far - across * across
}

/// Whether the spots are at most `far` apart.
fn is_near(a: Spot, b: Spot, far: u64) -> bool
    ensures { IsTrue result ↔ dot_of a b b ≤ℤ square (pos far) }
{
    is_short(a.x.abs_diff(b.x), a.y.abs_diff(b.y), far)
}

/// Whether both ends of the fine stroke are at most `far` half u from those of the capsule.
fn ends_near(fine: &FineStroke, bound: &Capsule, far: u64) -> bool
    ensures { IsTrue result ↔ EndsNear fine.now bound.now.a bound.now.b (pos far) }
{
    is_near(fine.a, doubled(bound.a), far) && is_near(fine.b, doubled(bound.b), far)
}

/// Whether the capsule, in u, is thinner than the fine stroke by at least what their ends are apart.
pub fn is_thinner(fine: &FineStroke, bound: &Capsule) -> bool
    ensures { IsTrue result ↔ IsThinner fine.now bound.now.a bound.now.b bound.now.r }
{
    let across = 2 * bound.r.unsigned_abs();
    if fine.r < across {
        return false;
    }
    ends_near(fine, bound, fine.r - across)
}

/// Whether it is thicker by at least that.
pub fn is_thicker(fine: &FineStroke, bound: &Capsule) -> bool
    ensures { IsTrue result ↔ EndsNear fine.now bound.now.a bound.now.b (pos 2 *ℤ bound.now.r -ℤ pos fine.now.r) }
{
    let across = 2 * bound.r.unsigned_abs();
    if across < fine.r {
        return false;
    }
    ends_near(fine, bound, across - fine.r)
}
