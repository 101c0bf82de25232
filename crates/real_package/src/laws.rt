//! The laws over the definitions alone.
ghost use Rattle.std.specs.Prelude.{ℕ, List};
ghost use Rattle.board_io.specs.Package.{Files};
ghost use Rattle.real_package.specs.Laws.{HandedIsHeld, HasOneRealOutcome};

use board_package::laws as packages;
use real_copper::laws::one_real_answer;

/// A package has at most one real board or one first stop of it, and not both.
pub fn one_real_outcome()
    ensures { (files : Files) (manifest : List ℕ) → HasOneRealOutcome files manifest }
{
    one_real_answer();
    drill_forms::laws::one_answer();
    net_forms::laws::one_answer();
}

/// What is said of what was handed over holds of all files that agree with it.
pub fn handed_is_held()
    ensures { HandedIsHeld }
{
    packages::handed_is_held();
}
