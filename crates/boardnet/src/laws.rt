//! Laws over the outcomes. Their calls do nothing.
ghost use Rattle.boardnet.specs.FilesAgree.{FilesAgree, OutcomesAgree};
ghost use Rattle.boardnet.specs.Laws.{BoundedBoardsAgree, BoundedBoardsAreDecided, BoundedFindingsAreCertain, BoundedFindingsAreListed, FirstReportsAreShort, ReportsPass, WrittenNetlistsPass};
ghost use Rattle.boardnet.specs.OneOutcome.{OneHandedOutcome, OneOutcome};

use arc_covers::laws as bounds;
use board_package::laws as packages;
use board_shapes::laws as shapes;
use covers::Copper;
use gaps::laws as lists;
use gerber_layer::laws as layers;
use netlist_writer::laws as netlists;
use real_package::laws as reals;
use reports::laws as said;
use verdict::laws as report_texts;
use witness_check::laws as verdicts;

/// Unless a name was handed over twice with other bytes, there are files that agree with all that was handed over: so what is said of all such
/// files is said of some.
pub fn files_agree()
    ensures { FilesAgree }
{}

/// What a command comes to by what was handed over to it, it comes to by all files that agree with that.
pub fn outcomes_agree()
    ensures { OutcomesAgree }
{
    packages::handed_is_held();
    reals::handed_is_held();
}

/// Two outcomes of a command over the same files have one status and one line, or are refusals with one line. Of their
/// texts nothing is said.
pub fn one_outcome()
    ensures { OneOutcome }
{
    packages::one_outcome();
    packages::one_labelled_outcome();
    reals::one_real_outcome();
    layers::one_macro_answer();
    bounds::counts_are_one();
    lists::gap_lists_are_one();
    report_texts::report_text_is_injective();
    verdicts::verdicts_differ_in_witnesses_only();
}

/// So have its outcomes in two calls that were handed over the same, unless a name was handed over twice with other bytes.
pub fn one_handed_outcome()
    ensures { OneHandedOutcome }
{
    one_outcome();
    packages::handed_is_held();
    reals::handed_is_held();
}

/// The report of version 1 that `check` writes has at most 67,108,864 bytes, so it can be taken as a file.
pub fn first_reports_are_short()
    ensures { FirstReportsAreShort }
{
    said::right_verdicts_are_small();
    report_texts::reports_are_short();
}

/// The report that `check` writes passes the audit of the same package: that of version 1 whatever its length, that of version
/// 2 to 67,108,864 bytes.
pub fn reports_pass()
    ensures { ReportsPass }
{
    first_reports_are_short();
}

/// Whatever copper the real package of a `between` has, of those that its files allow: under 0 it agrees with its names, and
/// what the verdicts below and above say of nets, and each finding that the text says to be certain, is so; and it has no other findings than those that the
/// text lists as certain or as undecided. A caller picks the copper, as any set of points for each piece; `between` of `run` gives the bounds and the verdicts.
pub fn bounded_boards_are_decided<R: Copper>()
    ensures agrees { BoundedBoardsAgree R.holds }
    ensures decides { BoundedBoardsAreDecided R.holds }
    ensures certain { BoundedFindingsAreCertain R.holds }
    ensures listed { BoundedFindingsAreListed R.holds }
{
    shapes::tables_are_unique();
    bounds::taken_are_bounds();
    bounds::real_board_is_decided::<R>();
    bounds::findings_are_certain::<R>();
    verdicts::boards_have_the_laws();
}

/// The netlist that `write` puts agrees with the copper: a package that holds it in place of its own netlist fits, and where
/// `check` puts a report on it the status is 0.
pub fn written_netlists_pass()
    ensures { WrittenNetlistsPass }
{
    packages::one_outcome();
    netlists::boards_are_writable();
    netlists::written_netlist_reads();
    netlists::written_netlists_are_short();
    netlists::written_netlist_agrees();
}
