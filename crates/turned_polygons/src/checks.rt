//! Whether polygons with whole corners bound one whose middle is turned.
ghost use Rattle.board_shapes.specs.Figures.{InFigure, filled};
ghost use Rattle.planar.specs.Plane.{IsPlaced, IsWithin, Point};
ghost use Rattle.planar.specs.declared.TheConstants.{TWO_METRES as FURTHEST};
ghost use Rattle.slants.specs.Polygons.{PolygonBelow};
ghost use Rattle.std.specs.Prelude.{All, IsTrue, SomeIff, pos, ◌≡◌, ◌≤◌, ◌+ℤ◌, ◌↔◌};
ghost use Rattle.turned_polygons.specs.Copper.{PossiblyIn, SurelyIn};
ghost use Rattle.turned_polygons.specs.Taken as spec;
ghost use Rattle.turned_polygons.specs.Taken.{StaysNear, TurnedPolygonAbove, TurnedPolygonBelow, far_of};

use super::TurnedPolygon;
use super::laws::turned_polygon_is_between;
use planar::{Spot, is_placed, is_same};
use slants::{RegularPolygon, TurnedDisc, is_above_disc, is_above_polygons, is_below_polygon};
use turned_outlines::{slack, turned_spot};

/// The middle, as a disc of no radius.
fn middle(a: &TurnedPolygon) -> TurnedDisc
    ensures { result ≡ spec.middle_of a.now }
{
    TurnedDisc {
        centre: a.polygon.centre,
        radius: 0,
        about: a.about,
        angle: a.angle,
    }
}

/// How far off a spot near it may be.
fn far(a: &TurnedPolygon) -> u64
    ensures { result ≡ far_of a.now }
{
    let centre = a.polygon.centre;
    if is_same(centre, a.about) {
        0
    } else {
        slack(&[centre], a.about)
    }
}

/// The polygon about another middle.
fn about_spot(g: &RegularPolygon, s: Spot, x: i64, y: i64) -> RegularPolygon
    requires placed { IsPlaced s }
    requires x_short { IsWithin FURTHEST x }
    requires y_short { IsWithin FURTHEST y }
    ensures { result ≡ spec.about_spot g.now s x y }
{
    RegularPolygon {
        centre: Spot {
            x: s.x + x,
            y: s.y + y,
        },
        corners: g.corners,
        diameter: g.diameter,
        angle: g.angle,
    }
}

/// About each corner of a square round the spot.
fn about_corners(g: &RegularPolygon, s: Spot, far: u64) -> [RegularPolygon; 4]
    requires placed { IsPlaced s }
    requires short { far ≤ FURTHEST }
    ensures { result ≡ spec.about_corners g.now s (pos far) }
{
    let far = far as i64;
    [
        about_spot(g, s, -far, -far),
        about_spot(g, s, far, -far),
        about_spot(g, s, far, far),
        about_spot(g, s, -far, far),
    ]
}

/// These where the middle stays so near.
fn around(a: &TurnedPolygon) -> Option<[RegularPolygon; 4]>
    ensures { SomeIff result (StaysNear a.now) (spec.around a.now) }
{
    if !(is_placed(a.about) && is_placed(a.polygon.centre)) {
        return None;
    }
    let s = turned_spot(a.polygon.centre, a.about, a.angle);
    let far = far(a);
    if is_above_disc(&middle(a), s, far) {
        Some(about_corners(&a.polygon, s, far))
    } else {
        None
    }
}

/// Whether the contour is taken below each of the polygons.
fn is_below_each(gs: &[RegularPolygon], points: &[Spot]) -> bool
    ensures { IsTrue result ↔ All (λ g. PolygonBelow g points.now) gs.now }
{
    gs.iter().all(|g| is_below_polygon(g, points))
}

/// Whether the contour, which ends where it begins, lies in the polygon: where it says so, it surely does at each turn by
/// about the angle; of others that do, it may refuse some (`TurnedPolygonBelow`).
pub fn is_below_turned_polygon(a: &TurnedPolygon, points: &[Spot]) -> bool
    ensures taken { IsTrue result ↔ TurnedPolygonBelow a.now points.now }
    ensures copper { IsTrue result → (p : Point) → InFigure (filled points.now) p → SurelyIn a.now p }
{
    turned_polygon_is_between();
    match around(a) {
        Some(gs) => is_below_each(&gs, points),
        None => false,
    }
}

/// Whether it holds the polygon: where it says so, it holds all that possibly lies in it at a turn by about the angle; of
/// others that do, it may refuse some (`TurnedPolygonAbove`).
pub fn is_above_turned_polygon(a: &TurnedPolygon, points: &[Spot]) -> bool
    ensures taken { IsTrue result ↔ TurnedPolygonAbove a.now points.now }
    ensures copper { IsTrue result → (p : Point) → PossiblyIn a.now p → InFigure (filled points.now) p }
{
    turned_polygon_is_between();
    match around(a) {
        Some(gs) => is_above_polygons(&gs, points),
        None => false,
    }
}
