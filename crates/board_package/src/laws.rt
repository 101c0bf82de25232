//! The laws over the definitions alone.
ghost use Rattle.std.specs.Prelude.{ℕ, List};
ghost use Rattle.board_io.specs.Package.{Files};
ghost use Rattle.board_package.specs.HandedLaw.{HandedIsHeld};
ghost use Rattle.board_package.specs.Laws.{CutIsRefusedOrTheSame, FilesHaveOneAnswer, HasOneLabelledOutcome, HasOneOutcome, LabelledCutIsRefusedOrTheSame, LabelledPiecesAreUnder};

/// A package has at most one board or one first stop, and not both.
pub fn one_outcome()
    ensures { (files : Files) (manifest : List ℕ) → HasOneOutcome files manifest }
{
    files_have_one_answer();
}

/// A package has at most one labelled board or one first stop of it, and not both.
pub fn one_labelled_outcome()
    ensures { (files : Files) (manifest : List ℕ) → HasOneLabelledOutcome files manifest }
{
    files_have_one_answer();
    x2_nets::laws::one_answer();
}

/// Each probe of a labelled board has its piece under it: that of its record's number less 1.
pub fn labelled_pieces_are_under()
    ensures { LabelledPiecesAreUnder }
{}

/// Of a package with a board: where one of its files, the manifest or another, is cut off at any
/// place, the package is refused or has the same board.
pub fn cut_is_refused_or_the_same()
    ensures { (files : Files) (manifest : List ℕ) → CutIsRefusedOrTheSame files manifest }
{
    files_have_one_answer();
    gerber_layer::laws::prefix_makes_the_same();
    xnc::laws::prefix_makes_the_same();
    ipc356_records::laws::prefix_makes_the_same();
}

/// Of a package with a labelled board: where one of its files, the manifest or another, is cut off at
/// any place, the package is refused, and not for a label, or has the same labelled board.
pub fn labelled_cut_is_refused_or_the_same()
    ensures { (files : Files) (manifest : List ℕ) → LabelledCutIsRefusedOrTheSame files manifest }
{
    files_have_one_answer();
    gerber_layer::laws::prefix_makes_the_same();
    xnc::laws::prefix_makes_the_same();
    ipc356_records::laws::prefix_makes_the_same();
    gerber_words::laws::words_lie_ahead();
    gerber_words::laws::prefix_has_first_words();
}

/// What is said of what was handed over holds of all files that agree with it.
pub fn handed_is_held()
    ensures { HandedIsHeld }
{}

// Each copper file, drill file and netlist has one answer.
fn files_have_one_answer()
    ensures { FilesHaveOneAnswer }
{
    gerber_layer::laws::one_answer();
    xnc::laws::one_answer();
    ipc356_records::laws::one_answer();
}
