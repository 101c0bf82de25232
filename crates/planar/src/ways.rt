//! Ways from spot to spot, and their products.
ghost use Rattle.planar.specs.Plane.{IsLong, IsPlaced, IsReachable, cross_of, dot_of};
ghost use Rattle.std.specs.Prelude.{◌*ℤ◌, ◌+ℤ◌, ◌-ℤ◌, ◌≡◌};

use super::Spot;

/// The way from one spot to another: its parts are narrow, so that products are cheap.
#[derive(Clone, Copy)]
struct Way {
    x: i64,
    y: i64,
}

impl Way {
    fn cross(self, other: Way) -> i128
        requires self_long { IsLong self }
        requires other_long { IsLong other }
        ensures { result ≡ self.x *ℤ other.y -ℤ self.y *ℤ other.x }
    {
        self.x as i128 * other.y as i128 - self.y as i128 * other.x as i128
    }

    fn dot(self, other: Way) -> i128
        requires self_long { IsLong self }
        requires other_long { IsLong other }
        ensures { result ≡ self.x *ℤ other.x +ℤ self.y *ℤ other.y }
    {
        self.x as i128 * other.x as i128 + self.y as i128 * other.y as i128
    }
}

/// The way from `o` to `a`.
fn between(o: Spot, a: Spot) -> Way
    requires o_reachable { IsReachable o }
    requires a_placed { IsPlaced a }
    ensures across { result.x ≡ a.x -ℤ o.x }
    ensures up { result.y ≡ a.y -ℤ o.y }
    ensures long { IsLong result }
{
    Way {
        x: a.x - o.x,
        y: a.y - o.y,
    }
}

/// The cross product of `a` minus `o` and `b` minus `o`, in square u: above 0 where `b` is on the left
/// of the way from `o` to `a`.
pub fn cross(o: Spot, a: Spot, b: Spot) -> i128
    requires o_reachable { IsReachable o }
    requires a_placed { IsPlaced a }
    requires b_placed { IsPlaced b }
    ensures { result ≡ cross_of o a b }
{
    between(o, a).cross(between(o, b))
}

/// The scalar product of `a` minus `o` and `b` minus `o`, in square u.
pub fn dot(o: Spot, a: Spot, b: Spot) -> i128
    requires o_reachable { IsReachable o }
    requires a_placed { IsPlaced a }
    requires b_placed { IsPlaced b }
    ensures { result ≡ dot_of o a b }
{
    between(o, a).dot(between(o, b))
}
