//! Laws over the definitions alone.
ghost use Rattle.std.specs.Prelude.{◌≡◌, ℕ, List, take};
ghost use Rattle.board_shapes.specs.Plain.{PlainPiece};
ghost use Rattle.drill_forms.specs.Laws.{PrefixIsRefused, TakesTheSame};
ghost use Rattle.drill_forms.specs.FormFile.{HasOneAnswer, IsRead};
ghost use Rattle.xnc.specs.Places.{Place};

/// Each file has one answer: its barrels, or its first fault.
pub fn one_answer()
    ensures { (file : List ℕ) (p : Place) → HasOneAnswer file p }
{}

/// What `check` reads means the same here, where no line says of tools whether they are plated.
pub fn takes_the_same()
    ensures { (file : List ℕ) (p : Place) → TakesTheSame file p }
{}

/// A drill file that is read has a line `M30`, and each prefix of it without the three bytes of that line is refused.
pub fn prefix_is_refused()
    ensures { (file : List ℕ) (p : Place) → PrefixIsRefused file p }
{}

/// A prefix of a drill file that is read is refused, or makes the same barrels.
pub fn prefix_makes_the_same()
    ensures { (file : List ℕ) (p : Place) (pieces others : List PlainPiece) (n : ℕ) → IsRead file p pieces → IsRead (take n file) p others → others ≡ pieces }
{}
