//! The netlist of a board.
ghost use Rattle.board_shapes.specs.Plain.{plain_board};
ghost use Rattle.reports.specs.Written.{IsNetlistOn};
ghost use Rattle.std.specs.Prelude.{IfOk};

use crate::judged::verdict_on;
use board_shapes::Board;
use lengths::rows::NoMemory;
use netlist_writer::write_netlist;
use std::alloc::Global;

/// The netlist of a board, for the nets of the right verdict on it.
pub fn netlist_on(alloc: Global, board: &Board) -> Result<Vec<u8>, NoMemory>
    ensures { IfOk result (λ text. IsNetlistOn (plain_board board.now) text.items) }
{
    let verdict = verdict_on(alloc, board)?;
    write_netlist(alloc, board, &verdict.nets)
}
