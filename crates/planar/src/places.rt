//! Whether spots lie within one metre, and whether two are one.
ghost use Rattle.planar.specs.Plane.{IsPlaced, is_placed as has_place, same_spot};
ghost use Rattle.std.specs.List.{list_all};
ghost use Rattle.std.specs.Prelude.{All, IsTrue, ◌≡◌, ◌↔◌};

use super::{METRE, Spot};

/// Whether both spots are one.
pub fn is_same(a: Spot, b: Spot) -> bool
    ensures value { result ≡ same_spot a b }
    ensures same { IsTrue result ↔ a ≡ b }
{
    a == b
}

/// Whether the spot is at most one metre from 0 in x and y.
pub fn is_placed(p: Spot) -> bool
    ensures value { result ≡ has_place p }
    ensures placed { IsTrue result ↔ IsPlaced p }
{
    p.x.unsigned_abs() <= METRE && p.y.unsigned_abs() <= METRE
}

/// Whether each of the spots is.
pub fn are_placed(points: &[Spot]) -> bool
    ensures value { result ≡ list_all has_place points.now }
    ensures placed { IsTrue result ↔ All IsPlaced points.now }
{
    points.iter().all(|p| is_placed(*p))
}
