//! Laws over the definitions. Their calls do nothing.
ghost use Rattle.arcs.specs.Laws.{MovedCircleIsHeld, MovedTurnIsHeld, PossiblyAtEnds, PossiblyIsSurely, PossiblyOfEach, SurelyIsPossibly, SurelyOfEach, TakenIsBetween};

/// What lies in the copper of every curve of an arc lies in that of some.
pub fn surely_is_possibly()
    ensures { SurelyIsPossibly }
{}

/// What lies in the copper of every curve lies in that of each distance that a curve may have.
pub fn surely_of_each()
    ensures { SurelyOfEach }
{}

/// The copper along each distance that a curve may have lies in that of some, but for the centre itself.
pub fn possibly_of_each()
    ensures { PossiblyOfEach }
{}

/// So do the rounds of both ends.
pub fn possibly_at_ends()
    ensures { PossiblyAtEnds }
{}

/// Past a half turn the circle through both ends, whose centre is nearest to the given one, keeps the
/// distances that a curve may have.
pub fn moved_circle_is_held()
    ensures { MovedCircleIsHeld }
{}

/// Up to a half turn it does so in the turn, where the arc is meant and its ends are two spots.
pub fn moved_turn_is_held()
    ensures { MovedTurnIsHeld }
{}

/// Where both ends are at one distance, what lies in the copper of some curve lies in that of every one.
pub fn possibly_is_surely()
    ensures { PossiblyIsSurely }
{}

/// A chain that is taken below lies in the copper of every curve, one that is taken above holds it.
pub fn taken_is_between()
    ensures { TakenIsBetween }
{}
