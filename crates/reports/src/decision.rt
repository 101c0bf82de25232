//! What two boards decide of one between them.
ghost use Rattle.board_shapes.specs.Plain.{plain_board};
ghost use Rattle.reports.specs.BetweenText.{IsDecision, between_text};
ghost use Rattle.reports.specs.Decision.{IsDecisionOn};
ghost use Rattle.reports.specs.Notes.{line_of, status_of};
ghost use Rattle.std.specs.Prelude.{IfOk, ◌≡◌};

use crate::answer::{Answer, Note};
use crate::between_text::write_between;
use crate::findings::{certain, undecided};
use crate::judged::verdict_on;
use board_shapes::{Board, laws as shapes};
use lengths::rows::NoMemory;
use std::alloc::Global;
use verdict::Verdict;

/// What right verdicts on two boards decide of one between them that has so many pieces. The call of a law does nothing when the
/// program runs.
pub fn decision_on(
    alloc: Global,
    count: usize,
    lower: &Board,
    upper: &Board,
) -> Result<Answer, NoMemory>
    ensures { IfOk result (λ answer. IsDecisionOn count (plain_board lower.now) (plain_board upper.now) answer.text.items (status_of answer.note) (line_of answer.note)) }
{
    shapes::boards_are_lawful();
    let below = verdict_on(alloc, lower)?;
    let above = verdict_on(alloc, upper)?;
    decided(alloc, count, lower, &below, &above)
}

// What two verdicts decide of a board with the test points of this one.
fn decided(
    alloc: Global,
    count: usize,
    board: &Board,
    below: &Verdict,
    above: &Verdict,
) -> Result<Answer, NoMemory>
    ensures text { IfOk result (λ answer. answer.text.items ≡ between_text count (plain_board board.now).probes (plain_board board.now).names below.now above.now) }
    ensures status { IfOk result (λ answer. IsDecision below.now above.now (status_of answer.note) (line_of answer.note)) }
{
    let sure = certain(alloc, below, above)?;
    let unsure = undecided(alloc, below, above)?;
    let text = write_between(
        alloc,
        count,
        board.probes(),
        board.names(),
        below,
        above,
        &sure,
        &unsure,
    )?;
    let note = Note::between(&sure, &unsure);
    Ok(Answer { text, note })
}
