//! A stretch of the plane that puts the pieces over a whole frame, so that cells are as fine as the pieces stand close.
ghost use Rattle.cell_index.specs.Stretched.{box_over, place_of, spot_over};
ghost use Rattle.std.specs.Prelude.{◌≡◌};

use contact::Bounds;
use planar::{SIDE, Spot};

/// A stretch along one side: from where, and how many times.
#[derive(Clone, Copy)]
pub struct Side {
    pub from: i64,
    pub times: u64,
}

/// A stretch across and up.
#[derive(Clone, Copy)]
pub struct Stretch {
    pub across: Side,
    pub up: Side,
}

impl Side {
    // As many times as a side from low to high fits into a frame. Whatever it is, the answers of a field are the same.
    fn over(low: i64, high: i64) -> Side {
        Side {
            from: low,
            times: SIDE as u64 / high.abs_diff(low).max(1),
        }
    }

    // Where the place comes to stand.
    fn scaled(&self, z: i64) -> i64
        ensures { result ≡ place_of self.now z }
    {
        if z < self.from {
            return 0;
        }
        let along = z.abs_diff(self.from);
        along.saturating_mul(self.times).min(SIDE as u64) as i64
    }
}

impl Stretch {
    /// A stretch of this box over a frame.
    pub fn over(bounds: Bounds) -> Stretch {
        Stretch {
            across: Side::over(bounds.left, bounds.right),
            up: Side::over(bounds.low, bounds.high),
        }
    }

    /// The box, stretched.
    pub fn bounds(&self, b: Bounds) -> Bounds
        ensures { result ≡ box_over self.now b }
    {
        Bounds {
            left: self.across.scaled(b.left),
            low: self.up.scaled(b.low),
            right: self.across.scaled(b.right),
            high: self.up.scaled(b.high),
        }
    }

    /// The spot, stretched.
    pub fn spot(&self, p: Spot) -> Spot
        ensures { result ≡ spot_over self.now p }
    {
        Spot {
            x: self.across.scaled(p.x),
            y: self.up.scaled(p.y),
        }
    }
}
