//! Laws over the definitions. Their calls do nothing.
ghost use Rattle.slants.specs.Laws.{BelowIsAbove, DiscsAreBetween, DiscsHaveCopper, EachTurnIsTold, LevelIsRectangle, NearIsBetween, OtherWayIsSame, PolygonIsBetween, PolygonsHaveCopper, SidesTellCone, SurelyIsPossibly, TakenIsBetween, TurnedIsBetween};

/// A contour that is taken below lies in the rectangle, one that is taken above holds it.
pub fn taken_is_between()
    ensures { TakenIsBetween }
{}

/// What lies in a contour that is taken below lies in each that is taken above.
pub fn below_is_above()
    ensures { BelowIsAbove }
{}

/// A line has the copper of the one back.
pub fn other_way_is_same()
    ensures { OtherWayIsSame }
{}

/// A level line to the right, of an even width from 2 u on, has the copper of a rectangle.
pub fn level_is_rectangle()
    ensures { LevelIsRectangle }
{}

/// Each rational point of the circle is a turn's cosine and sine.
pub fn each_turn_is_told()
    ensures { EachTurnIsTold }
{}

/// A way that is not on the right of the first of two ways nor on the left of the last, which is on the left of the first, is in
/// their cone.
pub fn sides_tell_cone()
    ensures { SidesTellCone }
{}

/// A contour that is taken below lies in the turned figure, one that is taken above holds it.
pub fn turned_is_between()
    ensures { TurnedIsBetween }
{}

/// A way up or level that is at most 1 off the whole numbers that stand for cosine and sine of half an angle is in the angle's
/// cone, for an angle below a right one.
pub fn near_is_between()
    ensures { NearIsBetween }
{}

/// What lies in a turned figure at each turn by about the angle, which is below a right one, lies in it at one.
pub fn surely_is_possibly()
    ensures { SurelyIsPossibly }
{}

/// A disc that is taken below lies in the turned disc, one that is taken above holds it.
pub fn discs_are_between()
    ensures { DiscsAreBetween }
{}

/// What lies in a turned disc at each turn by about the angle, which is below a right one, lies in it at one.
pub fn discs_have_copper()
    ensures { DiscsHaveCopper }
{}

/// A contour that is taken below lies in the regular polygon, one that is taken above holds it.
pub fn polygon_is_between()
    ensures { PolygonIsBetween }
{}

/// A regular polygon of 3 to 12 corners has a copper: what lies in it at all turns of its cones lies in the hull of its corners.
pub fn polygons_have_copper()
    ensures { PolygonsHaveCopper }
{}
