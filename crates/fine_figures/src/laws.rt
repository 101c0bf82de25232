//! Laws over the definitions. Their calls do nothing.
ghost use Rattle.fine_figures.specs.Laws.{FineIsBetween, HoledIsBetween};

/// A figure that is taken below lies in the fine one, one that is taken above holds it.
pub fn fine_is_between()
    ensures { FineIsBetween }
{}

/// So it is with one that has a hole.
pub fn holed_is_between()
    ensures { HoledIsBetween }
{}
