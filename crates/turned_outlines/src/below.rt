//! Whether a polygon lies in a turned figure.
ghost use Rattle.area_contact.specs.Contour.{InArea, edges_of};
ghost use Rattle.planar.specs.Plane.{Point};
ghost use Rattle.slants.specs.Cones.{SurelyTurned};
ghost use Rattle.std.specs.Prelude.{IsTrue, ◌↔◌};
ghost use Rattle.turned_outlines.specs.Taken.{OutlineBelow};

use super::above::stand_for;
use super::laws::outline_lies;
use arc_regions::{chain_clear, chain_odd, first_corner};
use area_contact::Area;
use contact::Closed;
use planar::{Frame, Spot};
use slants::TurnedFigure;
use std::sync::ledger::Ledger;
use steps::Steps;

/// Whether the area lies in the figure. Where it says so, it does at each turn by about the angle; others
/// that do are refused. The corners stand one by one for those of the figure, at most `r`, in u, off. The
/// area shares no point with a capsule of that radius along their polygon, and its first corner lies
/// inside. Area and capsules lie in the frame.
pub fn is_below_outline<L: Ledger>(
    figure: &TurnedFigure,
    corners: &[Spot],
    r: u64,
    area: &Area,
    frame: Frame,
    tests: &mut Steps<L>,
) -> bool
    ensures taken { IsTrue result ↔ OutlineBelow frame figure.now.contour.items figure.now.about figure.now.angle corners.now r area.now.points.items }
    ensures copper { IsTrue result → (p : Point) → InArea (edges_of area.now.points.items) p → SurelyTurned figure.now.contour.items figure.now.about figure.now.angle p }
{
    outline_lies();
    if !stand_for(figure, corners, r) {
        return false;
    }
    if !area.bounds().inside(frame) {
        return false;
    }
    if !chain_clear(area, corners, r, frame, tests) {
        return false;
    }
    chain_odd(first_corner(area), corners)
}
