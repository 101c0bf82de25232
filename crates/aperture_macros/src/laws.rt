//! Laws over the definitions alone.
ghost use Rattle.aperture_macros.specs.Laws.{FlashesDiscsAlone, StrokesAreSlantedLines};

/// Where copper is taken exactly, each stroke that a primitive flashes is a disc.
pub fn flashes_discs_alone()
    ensures { FlashesDiscsAlone }
{}

/// A stroke that is no disc is that of a vector line along no axis, and runs along none.
pub fn strokes_are_slanted_lines()
    ensures { StrokesAreSlantedLines }
{}
