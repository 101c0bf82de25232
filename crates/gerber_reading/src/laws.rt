//! Laws of every dialect.
ghost use Rattle.std.specs.Prelude.{ℕ, List};
ghost use Rattle.gerber_reading.specs.CommandEffects.{Place};
ghost use Rattle.gerber_reading.specs.Dialect.{HasOneAnswerBy, IsReadBy};
ghost use Rattle.gerber_reading.specs.Laws.{JudgesStops, PrefixMakesTheSame, PrefixesAreRefusedBy};
ghost use Rattle.board_shapes.specs.Pieces.{PieceOf};

use crate::dialect::Dialect;
use gerber_words::laws::{prefix_has_first_words, words_lie_ahead};

/// By each dialect each file has one answer.
pub fn one_answer<D: Dialect>()
    ensures { (file : List ℕ) (p : Place) → HasOneAnswerBy D.dialect file p }
{
    words_lie_ahead();
}

/// By a dialect that judges stops as all do, of a file that is read every prefix without the star of its end word is refused as not ended.
pub fn prefix_is_refused<D: Dialect>()
    ensures { (not_ended : D.Kind) (file : List ℕ) (p : Place) (pieces : List (PieceOf D.Plain)) → JudgesStops D.dialect.table not_ended → IsReadBy D.dialect file p pieces → PrefixesAreRefusedBy D.dialect not_ended file p }
{
    words_lie_ahead();
    prefix_has_first_words();
}

/// And a prefix of it is refused, or makes the same pieces.
pub fn prefix_makes_the_same<D: Dialect>()
    ensures { (not_ended : D.Kind) (file : List ℕ) (p : Place) → JudgesStops D.dialect.table not_ended → PrefixMakesTheSame D.dialect file p }
{
    words_lie_ahead();
    prefix_has_first_words();
}
