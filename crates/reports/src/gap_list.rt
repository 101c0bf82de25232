//! The list of the gaps of a board.
ghost use Rattle.board_shapes.specs.Plain.{plain_board};
ghost use Rattle.gaps.specs.GapsText.{gaps_text};
ghost use Rattle.gaps.specs.declared.TheConstants.{MOST_NANOMETRES};
ghost use Rattle.reports.specs.Gapped.{IsGapListOn, IsGapStatus, IsUngapped};
ghost use Rattle.reports.specs.Notes.{line_of, status_of};
ghost use Rattle.reports.specs.Right.{IsRightOn};
ghost use Rattle.std.specs.Prelude.{IfErr, IfOk, length, ◌≡◌, ◌≤◌};

use crate::answer::{Answer, Note};
use crate::judged::verdict_on;
use board_shapes::Board;
use gaps::{Gap, GapFault, gaps, write_gaps};
use lengths::rows::NoMemory;
use std::alloc::Global;
use verdict::Verdict;

/// The gaps of a board at a distance of at most 10,000,000 nm, between the nets of the right verdict on it. `FrameTooLarge`: the box of its
/// pieces, grown by half the distance, has a side over 1 m.
pub fn gap_list_on(alloc: Global, board: &Board, nanometres: u32) -> Result<Answer, GapFault>
    requires { nanometres ≤ MOST_NANOMETRES }
    ensures ok { IfOk result (λ answer. IsGapListOn (plain_board board.now) nanometres answer.text.items (status_of answer.note) (line_of answer.note)) }
    ensures fault { IfErr result (IsUngapped (plain_board board.now) nanometres) }
{
    let verdict = verdict_on(alloc, board)?;
    list_for(alloc, board, &verdict, nanometres)
}

// The list for the right verdict.
fn list_for(
    alloc: Global,
    board: &Board,
    verdict: &Verdict,
    nanometres: u32,
) -> Result<Answer, GapFault>
    requires distance { nanometres ≤ MOST_NANOMETRES }
    requires right { IsRightOn (plain_board board.now) verdict.now }
    ensures ok { IfOk result (λ answer. IsGapListOn (plain_board board.now) nanometres answer.text.items (status_of answer.note) (line_of answer.note)) }
    ensures fault { IfErr result (IsUngapped (plain_board board.now) nanometres) }
{
    let list = gaps(alloc, board, &verdict.nets, nanometres)?;
    let answer = listed(alloc, nanometres, list.as_slice())?;
    Ok(answer)
}

// The answer that lists these gaps.
fn listed(alloc: Global, nanometres: u32, list: &[Gap]) -> Result<Answer, NoMemory>
    ensures text { IfOk result (λ answer. answer.text.items ≡ gaps_text nanometres list.now) }
    ensures status { IfOk result (λ answer. IsGapStatus (length list.now) (status_of answer.note) (line_of answer.note)) }
{
    let text = write_gaps(alloc, nanometres, list)?;
    let note = Note::gaps(list.len());
    Ok(Answer { text, note })
}
