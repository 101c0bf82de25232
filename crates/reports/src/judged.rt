//! The verdict on a board, and the report on it.
ghost use Rattle.board_shapes.specs.Plain.{pieces_of, plain_board};
ghost use Rattle.reports.specs.Notes.{line_of, status_of};
ghost use Rattle.reports.specs.Right.{IsOfVersion, IsReportOn, IsRightOn, rival_pairs};
ghost use Rattle.reports.specs.declared.judged.Version.TheVariants.{One, Two};
ghost use Rattle.std.specs.Prelude.{IfOk, ◌*◌, ◌+◌, ◌<◌, ◌≡◌, ◌≤◌};

use crate::answer::{Answer, Note};
use board_shapes::{Board, laws as shapes};
use cell_index::Cells;
use flood::{flood, homes, laws as nets};
use judge::{judge, supplement};
use lengths::rows::NoMemory;
use std::alloc::Global;
use std::marker::Brand;
use std::sync::ledger::{Blank, Ledger};
use steps::Steps;
use verdict::{Verdict, write_report};
use witness_check::laws as verdicts;

/// The version of a report: 1 is without a supplement, 2 is with one.
#[derive(Clone, Copy)]
pub enum Version {
    One,
    Two,
}

/// The report of a version on a board.
pub fn report_on(alloc: Global, version: Version, board: &Board) -> Result<Answer, NoMemory>
    ensures { IfOk result (λ answer. IsReportOn (plain_board board.now) version answer.text.items (status_of answer.note) (line_of answer.note)) }
{
    let verdict = verdict_in(alloc, version, board)?;
    let text = write_report(alloc, &verdict)?;
    let note = Note::of(&verdict);
    Ok(Answer { text, note })
}

// The right verdict on a board for a report of a version.
fn verdict_in(alloc: Global, version: Version, board: &Board) -> Result<Verdict, NoMemory>
    ensures right { IfOk result (IsRightOn (plain_board board.now)) }
    ensures version { IfOk result (IsOfVersion version) }
{
    let verdict = verdict_on(alloc, board)?;
    match version {
        Version::One => Ok(verdict),
        Version::Two => supplemented(alloc, board, verdict),
    }
}

// The verdict with the supplement of the board.
fn supplemented(alloc: Global, board: &Board, verdict: Verdict) -> Result<Verdict, NoMemory>
    requires { IsRightOn (plain_board board.now) verdict }
    ensures right { IfOk result (IsRightOn (plain_board board.now)) }
    ensures version { IfOk result (IsOfVersion Two) }
{
    let more = supplement(alloc, board)?;
    Ok(Verdict {
        more: Some(more),
        ..verdict
    })
}

/// The right verdict on a board, without a supplement.
pub fn verdict_on(alloc: Global, board: &Board) -> Result<Verdict, NoMemory>
    ensures right { IfOk result (IsRightOn (plain_board board.now)) }
    ensures version { IfOk result (IsOfVersion One) }
{
    with_counter::<Brand>(alloc, board, Blank::new(1))
}

// The same, with a counter of its own.
fn with_counter<L: Ledger>(alloc: Global, board: &Board, blank: Blank) -> Result<Verdict, NoMemory>
    requires name { blank.name ≡ L.name }
    requires parts { blank.parts ≡ L.parts }
    requires some { 0 < blank.parts }
    ensures right { IfOk result (IsRightOn (plain_board board.now)) }
    ensures version { IfOk result (IsOfVersion One) }
{
    let mut tests = Steps::<L>::new(blank);
    verdict_of(alloc, board, &mut tests)
}

/// The same. One tick of `tests` is one contact test: there are at most two for each pair of pieces whose boxes meet and whose
/// spans have a common layer. The calls of laws do nothing when the program runs.
pub fn verdict_of<L: Ledger>(
    alloc: Global,
    board: &Board,
    tests: &mut Steps<L>,
) -> Result<Verdict, NoMemory>
    ensures right { IfOk result (IsRightOn (plain_board board.now)) }
    ensures version { IfOk result (IsOfVersion One) }
    ensures pairs { tests.new ≤ tests.old + 2 * rival_pairs (pieces_of board.now) }
{
    let pieces = Cells::for_search(alloc, board.pieces(), board.frame())?;
    let trees = flood(alloc, &pieces, tests)?;
    let least = homes(alloc, &pieces, board.probes())?;
    nets::nets_are_of_the_board();
    nets::homes_are_of_the_board();
    shapes::boards_are_lawful();
    shapes::tables_are_unique();
    shapes::tables_tell_joins();
    verdicts::net_numbers_are_joins();
    judge(alloc, board, least, trees)
}
