//! Laws over the definitions. Their calls do nothing.
ghost use Rattle.turned_polygons.specs.Laws.{TurnedPolygonIsBetween, TurnedPolygonsHaveCopper};

use slants::laws::{discs_are_between, near_is_between, polygon_is_between, polygons_have_copper};

/// A contour that is taken below lies in the polygon, one that is taken above holds it.
pub fn turned_polygon_is_between()
    ensures { TurnedPolygonIsBetween }
{
    discs_are_between();
    polygon_is_between();
}

/// A regular polygon of 3 to 12 corners whose middle is turned by less than a right angle has a copper: what surely lies in it
/// possibly does.
pub fn turned_polygons_have_copper()
    ensures { TurnedPolygonsHaveCopper }
{
    near_is_between();
    polygons_have_copper();
}
