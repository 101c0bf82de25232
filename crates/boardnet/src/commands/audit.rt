//! The command `audit MANIFEST REPORT`: builds the board, takes and reads the report, and puts whether it is the text of a right verdict
//! on the board, or the number of the first clause that does not hold.
//!
//! 0: it is. 1: it is the text of another verdict. 3: the first refusal of the package, or of the report behind it.
ghost use Rattle.board_package.specs.Causes.{HandedCause, KeepsFaults};
ghost use Rattle.board_shapes.specs.Plain.{plain_board};
ghost use Rattle.boardnet.specs.Command.{asked};
ghost use Rattle.boardnet.specs.Answers.{IsUnruled};
ghost use Rattle.boardnet.specs.HandedOutcome.{WorksOn};
ghost use Rattle.boardnet.specs.Kept.{Leaves, LeftBy, Spares};
ghost use Rattle.boardnet.specs.Outcome.{ComesFor, HandedOver, IsAuditStop};
ghost use Rattle.boardnet.specs.Source.{FitsBefore, IsFileBy};
ghost use Rattle.boardnet.specs.Words.{Audit, IsText};
ghost use Rattle.reports.specs.Rulings.{IsRulingOn};
ghost use Rattle.std.specs.Prelude.{IfErr, IfNone, IfOk, IfSome, ◌≡◌};

use crate::answer::{Answered, Unanswered};
use crate::boards::board_of;
use crate::commands::Command;
use crate::refusing::name_of;
use board_io::Package;
use board_package::{BuildFault, take_file};
use board_shapes::Board;
use lengths::text::is_text;
use reports::{Answer, ruled};
use std::alloc::Global;
use verdict::ReadFault;

/// `audit MANIFEST REPORT`: an audit of the report.
pub fn of_words<'a>(manifest: &'a str, report: &'a str) -> Option<Command<'a>>
    ensures some { IfSome result (λ given. (asked given ≡ Audit manifest.now report.now) × IsText manifest.now × IsText report.now) }
    ensures none { IfNone result (IsText manifest.now → IsText report.now → ⊥) }
{
    if is_text(manifest.as_bytes()) && is_text(report.as_bytes()) {
        Some(Command::Audit { manifest, report })
    } else {
        None
    }
}

/// The ruling on a report on the package of a manifest.
pub fn ruling<P: Package>(alloc: Global, manifest: &str, report: &str, package: &mut P) -> Answered
    requires manifest { IsText manifest.now }
    requires report { IsText report.now }
    ensures work { WorksOn P.handed P.faults P.lost (Audit manifest.now report.now) «package».old «package».new result }
    ensures leaves { Leaves P.held P.handed P.faults «package».old «package».new }
    ensures spared { Spares LeftBy P.faults P.lost «package».old «package».new result }
{
    let mut file = Vec::new(alloc);
    let board = taken(alloc, manifest, report, package, &mut file)?;
    let ruling = ruling_on(alloc, &board, file.as_slice())?;
    Ok(ruling)
}

// Builds the board, and then takes the report.
fn taken<P: Package>(
    alloc: Global,
    manifest: &str,
    report: &str,
    package: &mut P,
    file: &mut Vec<u8>,
) -> Result<Board, BuildFault>
    requires manifest { IsText manifest.now }
    requires report { IsText report.now }
    ensures leaves { Leaves P.held P.handed P.faults «package».old «package».new }
    ensures spared { Spares KeepsFaults P.faults P.lost «package».old «package».new result }
    ensures handed { IfOk result (λ board. FitsBefore (HandedOver (P.handed «package».old) (P.handed «package».new)) manifest.now (plain_board board) (λ rest. IsFileBy rest report.now file.new.items)) }
    ensures handed_cause { IfErr result (HandedCause (λ stop. IsAuditStop (HandedOver (P.handed «package».old) (P.handed «package».new)) manifest.now report.now stop) (λ name. ComesFor (HandedOver (P.handed «package».old) (P.handed «package».new)) (Audit manifest.now report.now) name) (P.faults «package».old) (P.faults «package».new) (P.lost «package».new)) }
{
    let report = name_of(alloc, report)?;
    let board = board_of(alloc, manifest, package)?;
    take_file(alloc, &report, package, file)?;
    Ok(board)
}

// The answer that says the ruling on the verdict whose text this is.
fn ruling_on(alloc: Global, board: &Board, text: &[u8]) -> Result<Answer, Unanswered>
    ensures ok { IfOk result (IsRulingOn (plain_board board.now) text.now) }
    ensures fault { IfErr result (IsUnruled text.now) }
{
    match ruled(alloc, board, text) {
        Ok(answer) => Ok(answer),
        Err(ReadFault::NotAReport) => Err(Unanswered::NotAReport),
        Err(ReadFault::NoMemory) => Err(Unanswered::Stopped(BuildFault::NoMemory)),
    }
}
