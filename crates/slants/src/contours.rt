//! Which closed contours go round once.
ghost use Rattle.planar.specs.Plane.{EachFrom, IsPlaced};
ghost use Rattle.slants.specs.Rounds as spec;
ghost use Rattle.slants.specs.Rounds.{GoesOnce, IsFlat, changes};
ghost use Rattle.std.specs.Prelude.{All, IsTrue, ◌≡◌, ◌≤◌, ◌↔◌};

use planar::{Spot, cross};

/// Whether a way that went up, or not, goes up from `a` to `b`: a level one goes on as before.
fn goes_up(up: bool, a: Spot, b: Spot) -> bool
    ensures { result ≡ spec.goes_up up a b }
{
    a.y < b.y || (up && a.y <= b.y)
}

/// 1 where of two ways one goes up and one down, else 0.
fn change(up: bool, next: bool) -> u32
    ensures { result ≡ spec.change up next }
{
    if up == next { 0 } else { 1 }
}

/// Whether the way from `start`, to which it came up or down, changes at most twice between both.
fn changes_little(up: bool, start: Spot, rest: &[Spot]) -> bool
    ensures { IsTrue result ↔ changes up start rest.now ≤ 2 }
{
    let mut count = 0;
    let mut before = up;
    let mut from = start;
    for to in rest {
        let next = goes_up(before, from, *to);
        count += change(before, next);
        if count > 2 {
            return false;
        }
        before = next;
        from = *to;
    }
    true
}

/// Whether `a` is on the line through `b` and `c`.
fn is_flat(a: Spot, b: Spot, c: Spot) -> bool
    requires a_placed { IsPlaced a }
    requires b_placed { IsPlaced b }
    requires c_placed { IsPlaced c }
    ensures { IsTrue result ↔ IsFlat a b c }
{
    cross(a, b, c) == 0
}

/// Whether `start` is on the line of each edge of the way from it.
fn is_lined(start: Spot, rest: &[Spot]) -> bool
    requires start_placed { IsPlaced start }
    requires rest_placed { All IsPlaced rest.now }
    ensures { IsTrue result ↔ EachFrom (IsFlat start) start rest.now }
{
    let mut from = start;
    for to in rest {
        if !is_flat(start, from, *to) {
            return false;
        }
        from = *to;
    }
    true
}

/// Whether the edges of the contour from `start` on rise in one run, and are not all on lines through it.
pub fn goes_once(start: Spot, rest: &[Spot]) -> bool
    requires start_placed { IsPlaced start }
    requires rest_placed { All IsPlaced rest.now }
    ensures { IsTrue result ↔ GoesOnce start rest.now }
{
    let once = changes_little(true, start, rest) || changes_little(false, start, rest);
    once && !is_lined(start, rest)
}
