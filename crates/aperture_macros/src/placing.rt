//! Where a figure is set down.
ghost use Rattle.std.specs.Prelude.{◌≡◌};
ghost use Rattle.planar.specs.Plane.{IsPlaced, IsReachable};
ghost use Rattle.aperture_macros.specs.Images.{set_down};

use crate::primitive::Rotation;
use planar::Spot;

/// How a figure about the origin of its macro is set down: turned counterclockwise about the origin,
/// and then moved to a spot within 1 m of 0.
#[derive(Clone, Copy)]
pub struct Placing {
    pub rotation: Rotation,
    pub at: Spot,
    ghost placed: { IsPlaced at },
}

impl Placing {
    /// Where a spot of the figure comes to lie.
    pub fn moved(&self, p: Spot) -> Spot
        requires near { IsReachable p }
        ensures { result ≡ set_down self.now.rotation self.now.at p }
    {
        let at = self.at;
        match self.rotation {
            Rotation::Unturned => Spot {
                x: at.x + p.x,
                y: at.y + p.y,
            },
            Rotation::Quarter => Spot {
                x: at.x - p.y,
                y: at.y + p.x,
            },
            Rotation::Half => Spot {
                x: at.x - p.x,
                y: at.y - p.y,
            },
            Rotation::ThreeQuarters => Spot {
                x: at.x + p.y,
                y: at.y - p.x,
            },
        }
    }
}
