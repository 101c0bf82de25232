//! Rectangles along the axes.
ghost use Rattle.area_contact.specs.Contour.{IsClosed};
ghost use Rattle.board_shapes.specs.Rectangles as spec;
ghost use Rattle.planar.specs.Plane.{IsPlaced, IsReachable};
ghost use Rattle.planar.specs.declared.TheConstants.{METRE};
ghost use Rattle.std.specs.Prelude.{length, ◌≡◌, ◌≤◌};

use planar::Spot;

/// The corners of what lies between two spots, with half a width and half a height (rounded down) more to each
/// side: so far to the left of and below the first, and to the right of and above the second. The spots are within 1 m,
/// `w` and `h` are the whole sizes in u, at most 1 m.
pub fn corners_around(p: Spot, q: Spot, w: u64, h: u64) -> (Spot, Spot)
    requires width { w ≤ METRE }
    requires height { h ≤ METRE }
    requires first { IsPlaced p }
    requires second { IsPlaced q }
    ensures low { result.0 ≡ spec.lower p w h }
    ensures high { result.1 ≡ spec.upper q w h }
    ensures near_low { IsReachable result.0 }
    ensures near_high { IsReachable result.1 }
{
    let across = half(w);
    let up = half(h);
    let low = Spot {
        x: p.x - across,
        y: p.y - up,
    };
    let high = Spot {
        x: q.x + across,
        y: q.y + up,
    };
    (low, high)
}

// Half a size, rounded down.
fn half(n: u64) -> i64
    requires { n ≤ METRE }
    ensures { result ≡ spec.halved n }
{
    (n / 2) as i64
}

/// The contour of a rectangle: lower left, lower right, upper right, upper left, and lower left
/// again.
pub fn rectangle(low: Spot, high: Spot) -> [Spot; 5]
    ensures value { result ≡ spec.rectangle low high }
    ensures closed { IsClosed result }
    ensures five { length result ≡ 5 }
{
    let lower_right = Spot {
        x: high.x,
        y: low.y,
    };
    let upper_left = Spot {
        x: low.x,
        y: high.y,
    };
    [low, lower_right, high, upper_left, low]
}
