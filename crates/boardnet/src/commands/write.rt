//! The command `write MANIFEST`: builds the board and puts a netlist of its nets.
//!
//! 0: it is written. 3: the first refusal of the package.
ghost use Rattle.boardnet.specs.HandedOutcome.{WorksOn};
ghost use Rattle.boardnet.specs.Kept.{Leaves, LeftBy, Spares};
ghost use Rattle.boardnet.specs.Words.{IsText, Write};

use crate::answer::Answered;
use crate::boards::board_of;
use board_io::Package;
use reports::{Answer, Note, netlist_on};
use std::alloc::Global;

/// The netlist of the package of a manifest.
pub fn netlist<P: Package>(alloc: Global, manifest: &str, package: &mut P) -> Answered
    requires { IsText manifest.now }
    ensures work { WorksOn P.handed P.faults P.lost (Write manifest.now) «package».old «package».new result }
    ensures leaves { Leaves P.held P.handed P.faults «package».old «package».new }
    ensures spared { Spares LeftBy P.faults P.lost «package».old «package».new result }
{
    let board = board_of(alloc, manifest, package)?;
    let text = netlist_on(alloc, &board)?;
    Ok(Answer {
        text,
        note: Note::NetlistWritten,
    })
}
