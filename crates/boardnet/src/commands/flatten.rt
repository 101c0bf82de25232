//! The command `flatten FILE`: takes one copper file, which may have aperture macros, and puts a copper file without them that every layer
//! reads as exactly the same shapes.
//!
//! 0: it is written. 3: the first refusal of the file.
ghost use Rattle.boardnet.specs.HandedOutcome.{WorksOn};
ghost use Rattle.boardnet.specs.Kept.{Leaves, LeftBy, Spares};
ghost use Rattle.boardnet.specs.Words.{Flatten, IsText};

use crate::answer::Answered;
use crate::refusing::name_of;
use board_io::Package;
use board_package::take_file;
use macro_flatten::flatten;
use reports::{Answer, Note};
use std::alloc::Global;

/// The text of the image of a copper file.
pub fn flat_text<P: Package>(alloc: Global, file: &str, package: &mut P) -> Answered
    requires { IsText file.now }
    ensures work { WorksOn P.handed P.faults P.lost (Flatten file.now) «package».old «package».new result }
    ensures leaves { Leaves P.held P.handed P.faults «package».old «package».new }
    ensures spared { Spares LeftBy P.faults P.lost «package».old «package».new result }
{
    let name = name_of(alloc, file)?;
    let mut bytes = Vec::new(alloc);
    take_file(alloc, &name, package, &mut bytes)?;
    let text = flatten(alloc, bytes.as_slice())?;
    Ok(Answer {
        text,
        note: Note::Flattened,
    })
}
