//! Laws over real boards between two others, and over files of counts. Their calls do nothing.
ghost use Rattle.arc_covers.specs.Laws.{BoundsLieBetween, CountsAreOne, CountsHaveNoOther, FindingsAreCertain, FirstOtherIsOne, RealBoardAgrees, RealBoardIsDecided, RealBoardsHaveCopper, ShapesHaveCopper, TakenAreBounds};

use arc_regions::laws::{taken_holds, taken_lies};
use board_shapes::laws::tables_are_unique;
use covers::Copper;
use covers::laws::verdicts_decide;
use fine_figures::laws::{fine_is_between, holed_is_between};
use slants::laws::{discs_are_between, discs_have_copper, turned_is_between};
use turned_outlines::laws::{outline_holds, outline_lies};
use turned_polygons::laws::{turned_polygon_is_between, turned_polygons_have_copper};

/// Pieces that are taken for those of a real board stand for them.
pub fn taken_are_bounds()
    ensures { TakenAreBounds }
{
    arcs::laws::taken_is_between();
    slants::laws::taken_is_between();
    turned_is_between();
    discs_are_between();
    turned_polygon_is_between();
    fine_is_between();
    holed_is_between();
    taken_holds();
    taken_lies();
    outline_holds();
    outline_lies();
}

/// Each shape that is turned by less than a right angle, and has from 3 to 12 corners where it is a polygon, has a copper, and so has a
/// board of such shapes: no premise that speaks of all coppers of a real board that is read is empty.
pub fn real_boards_have_copper()
    ensures shapes { ShapesHaveCopper }
    ensures boards { RealBoardsHaveCopper }
{
    arcs::laws::surely_is_possibly();
    arc_regions::laws::surely_is_possibly();
    slants::laws::surely_is_possibly();
    discs_have_copper();
    turned_polygons_have_copper();
}

/// A board of figures, arc draws, slanted lines, regions with arcs, turned figures and discs, regular polygons and fine figures lies
/// between two whose pieces stand for its own, whatever copper it has of those that its pieces may have.
pub fn bounds_lie_between<R: Copper>()
    ensures { BoundsLieBetween R.holds }
{}

/// What right verdicts on the two say of every such board: it agrees with its names where the verdict
/// below has no opens and no missing points and the one above no shorts. What is on one net below
/// is joined, what is joined is on one net above, and a point without a net above has no copper.
pub fn real_board_is_decided<R: Copper>()
    ensures agrees { RealBoardAgrees R.holds }
    ensures decides { RealBoardIsDecided R.holds }
{
    bounds_lie_between::<R>();
    verdicts_decide::<R>();
}

/// What they list is certain of it: each open and each missing point that the verdict above lists, and
/// each short that the one below does. A board with one of these does not agree with its names.
pub fn findings_are_certain<R: Copper>()
    ensures { FindingsAreCertain R.holds }
{
    tables_are_unique();
    real_board_is_decided::<R>();
}

/// Bytes spell at most one pair of lists of counts, and then no line is of another form. At most one line
/// is the first of another form.
pub fn counts_are_one()
    ensures one { CountsAreOne }
    ensures apart { CountsHaveNoOther }
    ensures first { FirstOtherIsOne }
{}
