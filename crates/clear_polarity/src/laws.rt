//! Laws over the copper of a layer. Their calls do nothing.
ghost use Rattle.clear_polarity.specs.Laws.{BoundsLieBetween, CopperIsDarkAfterAll, LastDecides, LayersHaveCopper, ReadingsLieBetween};

use crate::Reading;

/// A point is copper exactly where it is dark after all objects, each of which adds or erases in its turn; so the last object that has it decides.
pub fn copper_is_dark_at_last<R: Reading>()
    ensures after { CopperIsDarkAfterAll R.marks }
    ensures last { LastDecides R.marks }
{}

/// By each reading of the objects what is surely copper is, and what is copper is possibly so.
pub fn readings_lie_between<R: Reading>()
    ensures { ReadingsLieBetween R.holds R.marks }
{}

/// Each layer whose inner figures lie in the outer ones has a reading, and so copper: the least and the most are two.
pub fn layers_have_copper()
    ensures { LayersHaveCopper }
{}

/// Pieces that the checks take bound the copper by each reading.
pub fn bounds_lie_between<R: Reading>()
    ensures { BoundsLieBetween R.holds R.marks }
{}
