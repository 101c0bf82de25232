//! Laws over the definitions: what a right verdict tells of its board, by the board's tables, and of the board itself.
//! Their calls do nothing.
ghost use Rattle.board_shapes.specs.LawfulBoard.{IsLawfulBoard};
ghost use Rattle.board_shapes.specs.Plain.{PlainBoard};
ghost use Rattle.tables.specs.Consistent.{AreConsistent};
ghost use Rattle.tables.specs.Tables.{Tables};
ghost use Rattle.verdict.specs.Right.{IsRight};
ghost use Rattle.verdict.specs.declared.verdict.Verdict.{Verdict};
ghost use Rattle.witness_check.specs.BoardLaws.{IsRightFor, NetNumbersJoinProbes, OpensCoverNamesOf, ShortsHavePathsOn};
ghost use Rattle.witness_check.specs.Meetings.{PairsComeTogetherOnce};
ghost use Rattle.witness_check.specs.Laws.{DifferInWitnessesOnly, NetNumbersAreJoins, OpensCoverSplitNames, ShortsHavePaths};

use board_shapes::laws as shapes;

/// In a right verdict two test points have the same net number exactly where a chain joins them, and
/// a test point without a net is joined to none.
pub fn net_numbers_are_joins()
    ensures { (board : Tables) (v : Verdict) → AreConsistent board → IsRight board v → NetNumbersAreJoins board v }
{}

/// In a right verdict, of two test points of one name other than `N/C` on different nets, one net at least
/// is listed against, and both nets stand in an open of the name. No piece outside a net touches a
/// piece of it.
pub fn opens_cover_split_names()
    ensures { (board : Tables) (v : Verdict) → AreConsistent board → IsRight board v → OpensCoverSplitNames board v }
{}

/// Two right verdicts of one board differ at most in parents, in the order of a net's pieces after the
/// first, in the pieces of branches, and in whether there is a supplement. So the status and all counts
/// belong to the board.
pub fn verdicts_differ_in_witnesses_only()
    ensures { (board : Tables) (v w : Verdict) → AreConsistent board → IsRight board v → IsRight board w → DifferInWitnessesOnly v w }
{}

/// In a right verdict two joined test points of different names have a listed short, and a path of its
/// branches' pieces from the first piece of the branch of each name to that of the other.
pub fn shorts_have_paths()
    ensures { (board : Tables) (v : Verdict) → AreConsistent board → IsRight board v → ShortsHavePaths board v }
{}

/// The four laws, of a lawful board and of verdicts that are right for it: net numbers tell which probes touching pieces
/// join, opens cover the board's split names, shorts have paths of touching pieces, and two verdicts differ in witnesses
/// only.
pub fn boards_have_the_laws()
    ensures joins { (b : PlainBoard) (v : Verdict) → IsLawfulBoard b → IsRightFor b v → NetNumbersJoinProbes b v }
    ensures opens { (b : PlainBoard) (v : Verdict) → IsLawfulBoard b → IsRightFor b v → OpensCoverNamesOf b v }
    ensures shorts { (b : PlainBoard) (v : Verdict) → IsLawfulBoard b → IsRightFor b v → ShortsHavePathsOn b v }
    ensures witnesses { (b : PlainBoard) (v w : Verdict) → IsLawfulBoard b → IsRightFor b v → IsRightFor b w → DifferInWitnessesOnly v w }
{
    shapes::tables_are_unique();
    shapes::tables_tell_joins();
}

/// In the strips of a board each two pieces come together at most once, and none with itself: so a sweep makes no more tests
/// than there are pairs of pieces that come together.
pub fn pairs_come_together_once()
    ensures { PairsComeTogetherOnce }
{}
