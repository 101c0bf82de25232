//! The command `x2 MANIFEST`: checks the package as `check` does, by the net names in its copper files in place of its netlist, which
//! it does not take.
//!
//! 0: the copper joins exactly what the names join. 1: there are opens or shorts. 3: the first refusal of the package, or a net name
//! that is no text.
ghost use Rattle.boardnet.specs.HandedOutcome.{WorksOn};
ghost use Rattle.boardnet.specs.Kept.{Leaves, LeftBy, Spares};
ghost use Rattle.boardnet.specs.Words.{IsText, X2};

use crate::answer::Answered;
use crate::refusing::name_of;
use board_io::Package;
use board_package::{build_labelled, laws as packages};
use reports::{Version, report_on};
use std::alloc::Global;

/// The report on the package of a manifest by the net names in its copper files.
pub fn labelled_report<P: Package>(alloc: Global, manifest: &str, package: &mut P) -> Answered
    requires { IsText manifest.now }
    ensures work { WorksOn P.handed P.faults P.lost (X2 manifest.now) «package».old «package».new result }
    ensures leaves { Leaves P.held P.handed P.faults «package».old «package».new }
    ensures spared { Spares LeftBy P.faults P.lost «package».old «package».new result }
{
    packages::labelled_pieces_are_under();
    let name = name_of(alloc, manifest)?;
    let board = build_labelled(alloc, &name, package)?;
    let answer = report_on(alloc, Version::Two, &board)?;
    Ok(answer)
}
