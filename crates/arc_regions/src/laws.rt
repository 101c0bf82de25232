//! Laws over the definitions. Their calls do nothing.
ghost use Rattle.arc_regions.specs.Laws.{PossiblyIsSurely, SectorOfEach, SegmentOfEven, SurelyIsPossibly, TakenHolds, TakenLies};

use arcs::laws::taken_is_between;

/// Where the chains of a contour are taken, the polygon with the chains in place of the arcs, together
/// with the capsules along them, holds all that may lie in the region.
pub fn taken_holds()
    ensures { TakenHolds }
{
    taken_is_between();
}

/// An area that is taken below surely lies in the region.
pub fn taken_lies()
    ensures { TakenLies }
{
    taken_is_between();
}

/// What surely lies in a region may lie in it.
pub fn surely_is_possibly()
    ensures { SurelyIsPossibly }
{}

/// Where both ends of each arc are as far from its centre, what may lie in the region surely does.
pub fn possibly_is_surely()
    ensures { PossiblyIsSurely }
{}

/// Of a point on no curve of an arc each distance that a curve may have tells the same sector.
pub fn sector_of_each()
    ensures { SectorOfEach }
{}

/// Where both ends of an arc are as far from its centre, it is over a point that is neither of them where
/// the ray crosses its chord or the point lies in its circular segment, and not both.
pub fn segment_of_even()
    ensures { SegmentOfEven }
{}
