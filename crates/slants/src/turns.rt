//! Turns, and rigid motions by those between two.
ghost use Rattle.slants.specs.Turned.{AreReady, IsBounded, IsTriangle, IsSmall, back_of, meet_of, mirrored};
ghost use Rattle.std.specs.Prelude.{IsTrue, ◌≡◌, ◌↔◌};

use planar::{Spot, cross, dot, is_placed};

/// The furthest that a part of a turn lies from 0.
pub const MOST_PART: u64 = 100_000_000;

/// A turn counterclockwise by twice the angle from (1, 0) to (`x`, `y`): its cosine is (`x`² - `y`²) / (`x`² + `y`²),
/// its sine 2 `x` `y` / (`x`² + `y`²).
#[derive(Clone, Copy)]
pub struct Turn {
    pub x: i64,
    pub y: i64,
}

/// The motions that turn the plane about `from`, by a turn between `first` and `last`, and move `from` to `to`.
#[derive(Clone, Copy)]
pub struct Motions {
    pub first: Turn,
    pub last: Turn,
    pub from: Spot,
    pub to: Spot,
}

/// The place (`x` / `n`, `y` / `n`).
#[derive(Clone, Copy)]
pub struct Heading {
    pub x: i128,
    pub y: i128,
    pub n: i128,
}

/// Whether both parts are at most `MOST_PART` from 0.
fn is_small(t: Turn) -> bool
    ensures { IsTrue result ↔ IsSmall t }
{
    t.x.unsigned_abs() <= MOST_PART && t.y.unsigned_abs() <= MOST_PART
}

/// Whether it is so of both turns, and both spots are within a metre.
pub fn are_ready(m: &Motions) -> bool
    ensures { IsTrue result ↔ AreReady m.now }
{
    let small = is_small(m.first) && is_small(m.last);
    let placed = is_placed(m.from) && is_placed(m.to);
    small && placed
}

/// The turn back.
fn mirror(t: Turn) -> Turn
    requires small { IsSmall t }
    ensures { result ≡ mirrored t }
{
    Turn { x: t.x, y: -t.y }
}

/// The motions back.
pub fn back(m: &Motions) -> Motions
    requires ready { AreReady m.now }
    ensures { result ≡ back_of m.now }
{
    Motions {
        first: mirror(m.first),
        last: mirror(m.last),
        from: m.to,
        to: m.from,
    }
}

/// Its way, from 0.
fn way(t: Turn) -> Spot
    ensures across { result.x ≡ t.x }
    ensures up { result.y ≡ t.y }
{
    Spot { x: t.x, y: t.y }
}

/// Where the tangents at the directions of both turns meet; of one turn, its direction.
fn meet(u: Turn, v: Turn) -> Heading
    requires u_small { IsSmall u }
    requires v_small { IsSmall v }
    ensures value { result ≡ meet_of u v }
    ensures bounded { IsBounded result }
{
    let zero = Spot { x: 0, y: 0 };
    Heading {
        x: dot(zero, way(u), way(mirror(v))),
        y: cross(zero, way(mirror(u)), way(v)),
        n: dot(zero, way(u), way(v)),
    }
}

/// The corners of a triangle about the directions of all turns between two: the directions of both, and where the tangents
/// there meet.
#[derive(Clone, Copy)]
pub struct Triangle {
    pub first: Heading,
    pub middle: Heading,
    pub last: Heading,
}

/// Those of the motions.
pub fn triangle_of(m: &Motions) -> Triangle
    requires ready { AreReady m.now }
    ensures { IsTriangle m.now result }
{
    Triangle {
        first: meet(m.first, m.first),
        middle: meet(m.first, m.last),
        last: meet(m.last, m.last),
    }
}
