//! The ruling on a report.
ghost use Rattle.board_shapes.specs.Laws.{HasOneTables};
ghost use Rattle.board_shapes.specs.Plain.{plain_board};
ghost use Rattle.reports.specs.Rulings.{Answers, IsRuledOn, IsRulingOn, IsUnread};
ghost use Rattle.std.specs.Prelude.{IfErr, IfOk};

use crate::answer::{Answer, Note};
use crate::pieces::joined;
use board_shapes::{Board, laws as shapes};
use lengths::rows::NoMemory;
use std::alloc::Global;
use texts::Numeral;
use verdict::{ReadFault, read_report};
use witness_check::{Ruling, audit};

/// The answer that says the ruling on the verdict whose text this is. `NotAReport`: it is the text of no verdict.
pub fn ruled(alloc: Global, board: &Board, text: &[u8]) -> Result<Answer, ReadFault>
    ensures ok { IfOk result (IsRulingOn (plain_board board.now) text.now) }
    ensures fault { IfErr result (IsUnread text.now) }
{
    let ruling = ruling_on(alloc, board, text)?;
    match answer_of(alloc, ruling) {
        Ok(answer) => Ok(answer),
        Err(_) => Err(ReadFault::NoMemory),
    }
}

// The answer that says a ruling.
fn answer_of(alloc: Global, ruling: Ruling) -> Result<Answer, NoMemory>
    ensures { IfOk result (Answers ruling) }
{
    match ruling {
        Ruling::True => {
            let text = joined(alloc, &[b"audit true\n"])?;
            Ok(Answer {
                text,
                note: Note::AuditTrue,
            })
        }
        Ruling::Untrue(clause) => {
            let text = joined(
                alloc,
                &[
                    b"audit untrue ",
                    Numeral::of(u64::from(clause)).as_bytes(),
                    b"\n",
                ],
            )?;
            Ok(Answer {
                text,
                note: Note::AuditUntrue { clause },
            })
        }
    }
}

// The ruling on the verdict whose text this is. The calls of laws do nothing when the program runs.
fn ruling_on(alloc: Global, board: &Board, text: &[u8]) -> Result<Ruling, ReadFault>
    ensures one { HasOneTables (plain_board board.now) }
    ensures ok { IfOk result (λ ruling. IsRuledOn (plain_board board.now) text.now ruling) }
    ensures fault { IfErr result (IsUnread text.now) }
{
    shapes::boards_are_lawful();
    shapes::tables_are_unique();
    let verdict = read_report(alloc, text)?;
    match audit(alloc, board, &verdict) {
        Ok(ruling) => Ok(ruling),
        Err(_) => Err(ReadFault::NoMemory),
    }
}
