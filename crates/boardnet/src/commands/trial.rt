//! The command `trial SEED SIZE`: checks the made board of the two numbers, and puts a summary. It takes nothing from the package.
//!
//! 0, 1: as of `check`. 3: there is no board of the size.
ghost use Rattle.board_maker.specs.declared.TheConstants.{MOST_CELLS};
ghost use Rattle.boardnet.specs.Command.{asked};
ghost use Rattle.reports.specs.Notes.{line_of, status_of};
ghost use Rattle.boardnet.specs.HandedOutcome.{HasHandedReason};
ghost use Rattle.boardnet.specs.Outcome.{IsBoardOf, IsTrialReport, PlainBoard, Source, made_files, made_manifest};
ghost use Rattle.reports.specs.Right.{IsRightOn};
ghost use Rattle.boardnet.specs.Trials.{IsUnlost};
ghost use Rattle.boardnet.specs.Words.{Trial};
ghost use Rattle.std.specs.Prelude.{IfErr, IfNone, IfOk, IfSome, List, decimal, ℕ, ◌<◌, ◌≡◌, ◌≤◌, ◌^◌};

use crate::answer::{Answered, Unanswered};
use crate::boards::board_of;
use crate::commands::Command;
use crate::words::{MADE_MANIFEST, count_of, number_of};
use board_maker::make;
use board_package::BuildFault;
use reports::{Answer, Note, summary_of, verdict_on};
use std::alloc::Global;
use verdict::Verdict;

/// `trial SEED SIZE`: a check of the made board of both numbers.
pub fn of_words(seed: &str, size: &str) -> Option<Command<'static>>
    ensures some { IfSome result (λ given. (n m : ℕ) × (asked given ≡ Trial n m) × (seed.now ≡ decimal n) × (size.now ≡ decimal m) × (n < 2 ^ 64) × (m < 2 ^ 32)) }
    ensures none { IfNone result ((n m : ℕ) → seed.now ≡ decimal n → size.now ≡ decimal m → n < 2 ^ 64 → m < 2 ^ 32 → ⊥) }
{
    let seed = number_of(seed)?;
    let size = count_of(size)?;
    Some(Command::Trial { seed, size })
}

/// The summary of a check of the made board of a seed and a size; `SizeTooLarge` where the size is over 10,000 cells.
pub fn summary(alloc: Global, seed: u64, size: u32) -> Answered
    ensures ok { IfOk result (λ answer. IsTrialReport seed size answer.text.items (status_of answer.note) (line_of answer.note)) }
    ensures reason { IfErr result (λ why. (source : Source) (before now : ℕ) (lost : List ℕ) → HasHandedReason source (Trial seed size) before now lost why) }
{
    let verdict = verdict_on_made(alloc, seed, size)?;
    let text = summary_of(alloc, seed, size, &verdict)?;
    let note = Note::TrialDone {
        agrees: verdict.agrees(),
    };
    Ok(Answer { text, note })
}

// The verdict on a made board.
fn verdict_on_made(alloc: Global, seed: u64, size: u32) -> Result<Verdict, Unanswered>
    ensures ok { IfOk result (λ verdict. (size ≤ MOST_CELLS) × (board : PlainBoard) × IsBoardOf (made_files seed size) made_manifest board × IsRightOn board verdict) }
    ensures reason { IfErr result (λ why. (source : Source) (before now : ℕ) (lost : List ℕ) → HasHandedReason source (Trial seed size) before now lost why) }
{
    let mut made = make(alloc, seed, size)?;
    match board_of(alloc, MADE_MANIFEST, &mut made) {
        Ok(board) => Ok(verdict_on(alloc, &board)?),
        Err(fault) => Err(Unanswered::Stopped(unlost(fault))),
    }
}

// A made package loses no file: a fault of reading it is answered as want of memory.
fn unlost(fault: BuildFault) -> BuildFault
    ensures { IsUnlost fault result }
{
    match fault {
        BuildFault::CannotRead(_) => BuildFault::NoMemory,
        other => other,
    }
}
