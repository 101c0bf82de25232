//! Laws over the definitions alone.
ghost use Rattle.std.specs.Prelude.{◌≡◌, ℕ, List, take};
ghost use Rattle.board_shapes.specs.Plain.{PlainPiece};
ghost use Rattle.xnc.specs.declared.line.DrillLine.{DrillLine};
ghost use Rattle.xnc.specs.DrillFile.{HasOneAnswer, IsRead};
ghost use Rattle.xnc.specs.Laws.{HasTool, KindsHaveOwnNumbers, PrefixIsRefused};
ghost use Rattle.xnc.specs.Places.{Place};

/// Each file has one answer: its barrels, or its first fault.
pub fn one_answer()
    ensures { (file : List ℕ) (p : Place) → HasOneAnswer file p }
{}

/// Where lines without a fault leave the tool down, a tool is selected. So each straight rout has
/// the half of a diameter as its radius.
pub fn routs_have_tools()
    ensures { (p : Place) (earlier : List DrillLine) → HasTool p earlier }
{}

/// A drill file that is read has a line `M30`, and each prefix of it without the three bytes of
/// that line is refused.
pub fn prefix_is_refused()
    ensures { (file : List ℕ) (p : Place) → PrefixIsRefused file p }
{}

/// A prefix of a drill file that is read is refused, or makes the same barrels.
pub fn prefix_makes_the_same()
    ensures { (file : List ℕ) (p : Place) (pieces others : List PlainPiece) (n : ℕ) → IsRead file p pieces → IsRead (take n file) p others → others ≡ pieces }
{}

/// Each kind of refusal has a number of its own.
pub fn kinds_have_own_numbers()
    ensures { KindsHaveOwnNumbers }
{}
