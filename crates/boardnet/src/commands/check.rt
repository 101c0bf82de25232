//! The command `check MANIFEST`: builds the board of the package, judges it, and puts the report. It is of version 2, with the place of
//! each test point and the source of each piece; `check MANIFEST 1` puts one of version 1, without them.
//!
//! 0: the copper joins exactly what the netlist joins. 1: there are opens, shorts or points without copper. 3: the first refusal of
//! the package.
ghost use Rattle.boardnet.specs.HandedOutcome.{WorksOn};
ghost use Rattle.boardnet.specs.Kept.{Leaves, LeftBy, Spares};
ghost use Rattle.boardnet.specs.Command.{asked};
ghost use Rattle.boardnet.specs.Words.{Check, IsText};
ghost use Rattle.reports.specs.declared.judged.Version.TheVariants.{One};
ghost use Rattle.std.specs.Prelude.{IfNone, IfSome, codes, ◌≡◌};

use crate::answer::Answered;
use crate::boards::board_of;
use crate::commands::Command;
use board_io::Package;
use lengths::text::is_text;
use reports::{Version, report_on};
use std::alloc::Global;

/// `check MANIFEST 1`: a check of version 1.
pub fn of_words<'a>(manifest: &'a str, version: &str) -> Option<Command<'a>>
    ensures some { IfSome result (λ given. (asked given ≡ Check One manifest.now) × IsText manifest.now × (version.now ≡ codes "1")) }
    ensures none { IfNone result (IsText manifest.now → version.now ≡ codes "1" → ⊥) }
{
    if version == "1" && is_text(manifest.as_bytes()) {
        Some(Command::Check {
            version: Version::One,
            manifest,
        })
    } else {
        None
    }
}

/// The report of a version on the package of a manifest.
pub fn report<P: Package>(
    alloc: Global,
    version: Version,
    manifest: &str,
    package: &mut P,
) -> Answered
    requires { IsText manifest.now }
    ensures work { WorksOn P.handed P.faults P.lost (Check version manifest.now) «package».old «package».new result }
    ensures leaves { Leaves P.held P.handed P.faults «package».old «package».new }
    ensures spared { Spares LeftBy P.faults P.lost «package».old «package».new result }
{
    let board = board_of(alloc, manifest, package)?;
    let answer = report_on(alloc, version, &board)?;
    Ok(answer)
}
