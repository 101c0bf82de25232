//! Laws over the definitions alone.
ghost use Rattle.gerber_reading.specs.Laws.{PrefixMakesTheSame, PrefixesAreRefusedBy};
ghost use Rattle.gerber_reading.specs.declared.kind.GerberKind.TheVariants as kinds;
ghost use Rattle.gerber_reading.specs.declared.place.Place.{Place};
ghost use Rattle.real_copper.specs.Kinds.{RealKindsHaveOwnNumbers, gerber};
ghost use Rattle.real_copper.specs.Shapes.{PlainReal};
ghost use Rattle.real_copper.specs.Table.{HasOneRealAnswer, IsRealCopper, real};
ghost use Rattle.std.specs.Prelude.{List, ℕ};

use crate::real::RealCopper;
use gerber_layer::laws::kinds_have_own_numbers;
use gerber_reading::laws::{one_answer, prefix_is_refused, prefix_makes_the_same};

/// Each file has one answer: its real copper, or the first fault.
pub fn one_real_answer()
    ensures { (file : List ℕ) (p : Place) → HasOneRealAnswer file p }
{
    one_answer::<RealCopper>();
}

/// Each kind of refusal has a number of its own, which no other kind of a copper file has.
pub fn real_kinds_have_own_numbers()
    ensures { RealKindsHaveOwnNumbers }
{
    kinds_have_own_numbers();
}

/// Of a file that is read as real copper every prefix without the star of its end word is refused as not ended.
pub fn real_prefix_is_refused()
    ensures { (file : List ℕ) (p : Place) (pieces : List PlainReal) → IsRealCopper file p pieces → PrefixesAreRefusedBy real (gerber kinds.NotEnded) file p }
{
    prefix_is_refused::<RealCopper>();
}

/// And a prefix of it is refused, or makes the same pieces.
pub fn real_prefix_makes_the_same()
    ensures { (file : List ℕ) (p : Place) → PrefixMakesTheSame real file p }
{
    prefix_makes_the_same::<RealCopper>();
}
