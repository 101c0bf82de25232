//! Laws over the definitions alone.
ghost use Rattle.lengths.specs.Laws.{PositionsAreOne, SizesAreOne};

/// A fraction of a unit is one position, or is refused for one reason.
pub fn positions_are_one()
    ensures { PositionsAreOne }
{}

/// A fraction of a unit is one size, or is refused for one reason.
pub fn sizes_are_one()
    ensures { SizesAreOne }
{}
