//! The command `gaps MANIFEST NANOMETRES`: builds the board and lists the nets that come that close.
//!
//! 0: no two do. 1: some do. 3: the first refusal of the package, or the box of its grown pieces is over 1 m.
ghost use Rattle.boardnet.specs.Command.{asked};
ghost use Rattle.boardnet.specs.HandedOutcome.{WorksOn};
ghost use Rattle.boardnet.specs.Kept.{Leaves, LeftBy, Spares};
ghost use Rattle.boardnet.specs.Words.{Gaps, IsText};
ghost use Rattle.gaps.specs.declared.TheConstants.{MOST_NANOMETRES};
ghost use Rattle.std.specs.Prelude.{IfNone, IfSome, decimal, ℕ, ◌≡◌, ◌≤◌};

use crate::answer::Answered;
use crate::boards::board_of;
use crate::commands::Command;
use crate::words::count_of;
use board_io::Package;
use gaps::MOST_NANOMETRES;
use lengths::text::is_text;
use reports::gap_list_on;
use std::alloc::Global;

/// `gaps MANIFEST NANOMETRES`: a list of the gaps at that distance.
pub fn of_words<'a>(manifest: &'a str, nanometres: &str) -> Option<Command<'a>>
    ensures some { IfSome result (λ given. (n : ℕ) × (asked given ≡ Gaps manifest.now n) × IsText manifest.now × (nanometres.now ≡ decimal n) × (n ≤ MOST_NANOMETRES)) }
    ensures none { IfNone result (IsText manifest.now → (n : ℕ) → nanometres.now ≡ decimal n → n ≤ MOST_NANOMETRES → ⊥) }
{
    if !is_text(manifest.as_bytes()) {
        return None;
    }
    let nanometres = count_of(nanometres)?;
    if nanometres > MOST_NANOMETRES {
        return None;
    }
    Some(Command::Gaps {
        manifest,
        nanometres,
    })
}

/// The gaps of the package of a manifest at a distance of at most `MOST_NANOMETRES`.
pub fn gap_list<P: Package>(
    alloc: Global,
    manifest: &str,
    nanometres: u32,
    package: &mut P,
) -> Answered
    requires text { IsText manifest.now }
    requires most { nanometres ≤ MOST_NANOMETRES }
    ensures work { WorksOn P.handed P.faults P.lost (Gaps manifest.now nanometres) «package».old «package».new result }
    ensures leaves { Leaves P.held P.handed P.faults «package».old «package».new }
    ensures spared { Spares LeftBy P.faults P.lost «package».old «package».new result }
{
    let board = board_of(alloc, manifest, package)?;
    let answer = gap_list_on(alloc, &board, nanometres)?;
    Ok(answer)
}
