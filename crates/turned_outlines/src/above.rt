//! Whether a polygon, with capsules, holds a turned figure.
ghost use Rattle.arcs.specs.Copper.{InChain};
ghost use Rattle.area_contact.specs.Contour.{InArea, edges_of};
ghost use Rattle.planar.specs.Plane.{IsPlaced, Point};
ghost use Rattle.slants.specs.Cones.{PossiblyTurned};
ghost use Rattle.slants.specs.Discs.{DiscAbove};
ghost use Rattle.std.specs.Prelude.{All, IsTrue, pos, ◌≡◌, ◌↔◌, ◌⊎◌};
ghost use Rattle.turned_outlines.specs.Taken.{EachOfBoth, OutlineAbove, StandFor, corner_of};

use super::laws::outline_holds;
use area_contact::is_closed;
use planar::Spot;
use slants::{TurnedDisc, TurnedFigure, is_above_disc};

/// Whether the corner, turned about the spot by about the angle, stays at most `r` from the other.
fn is_near(corner: Spot, about: Spot, angle: u32, stand: Spot, r: u64) -> bool
    ensures { IsTrue result ↔ DiscAbove (corner_of corner about angle) stand r }
{
    let disc = TurnedDisc {
        centre: corner,
        radius: 0,
        about,
        angle,
    };
    is_above_disc(&disc, stand, r)
}

/// Whether there are as many, and each of the figure's does from its own.
fn are_near(figure: &[Spot], about: Spot, angle: u32, corners: &[Spot], r: u64) -> bool
    ensures { IsTrue result ↔ EachOfBoth (λ a b. DiscAbove (corner_of a about angle) b r) figure.now corners.now }
{
    if figure.len() != corners.len() {
        return false;
    }
    for i in 0..corners.len() {
        if !is_near(figure[i], about, angle, corners[i], r) {
            return false;
        }
    }
    true
}

/// Whether the corners stand for those of the figure, at most `r` off.
pub fn stand_for(figure: &TurnedFigure, corners: &[Spot], r: u64) -> bool
    ensures stand { IsTrue result ↔ StandFor figure.now.contour.items figure.now.about figure.now.angle corners.now r }
    ensures placed { IsTrue result → All IsPlaced corners.now }
{
    let closed = is_closed(&figure.contour) && is_closed(corners);
    closed && are_near(&figure.contour, figure.about, figure.angle, corners, r)
}

/// Whether the polygon of the corners, together with capsules of radius `r`, in u, along it, holds the
/// figure. Where it says so, they do at each turn by about the angle. The corners stand one by one for
/// those of the figure, which may have any outline: others are refused.
pub fn is_above_outline(figure: &TurnedFigure, corners: &[Spot], r: u64) -> bool
    ensures taken { IsTrue result ↔ OutlineAbove figure.now.contour.items figure.now.about figure.now.angle corners.now r }
    ensures copper { IsTrue result → (p : Point) → PossiblyTurned figure.now.contour.items figure.now.about figure.now.angle p → InArea (edges_of corners.now) p ⊎ InChain corners.now (pos r) p }
{
    outline_holds();
    stand_for(figure, corners, r)
}
