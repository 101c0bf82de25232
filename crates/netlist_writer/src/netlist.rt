//! Writes the netlist of a board.
ghost use Rattle.std.specs.Prelude.{◌≡◌, ℕ, ◌++◌, ◌+◌, ◌^◌, ◌<◌, ◌≤◌, length, IfOk, OnOk};
ghost use Rattle.std.specs.List.{flat_map};
ghost use Rattle.board_shapes.specs.Pieces.{plain_pieces};
ghost use Rattle.board_shapes.specs.Plain.{plain_board};
ghost use Rattle.board_shapes.specs.Tables.{IsNear};
ghost use Rattle.verdict.specs.Forest.{Holds, IsForest, StandOnce};
ghost use Rattle.netlist_writer.specs.WrittenNetlist.{place_lines, places_from, spelled, written_netlist_of};

use crate::places::push_place;
use crate::record::push_line;
use board_shapes::{Board, Piece, laws as shapes};
use lengths::rows::NoMemory;
use net_numbers::numbers_of;
use std::alloc::Global;
use verdict::{Tree, Trees};

// Appends the lines of all pieces, and the end.
fn push_places(
    alloc: Global,
    out: &mut Vec<u8>,
    layers: u8,
    pieces: &[Piece],
    nets: &[Tree],
) -> Result<(), NoMemory>
    requires few_pieces { length pieces.now < 2 ^ 32 }
    requires few_nets { length nets.now < 2 ^ 32 }
    requires known { (i piece : ℕ) → Holds nets.now i piece → piece < length pieces.now }
    requires once { StandOnce (length pieces.now) nets.now }
    ensures { OnOk result (out.new.items ≡ out.old.items ++ flat_map spelled (place_lines 0 (places_from layers nets.now 0 (plain_pieces pieces.now)))) }
{
    let table = numbers_of(alloc, nets, pieces.len())?;
    let numbers = table.as_slice();
    let mut line = Vec::new(alloc);
    for p in 0..pieces.len() {
        push_place(out, &mut line, layers, p as u32, numbers[p], &pieces[p])?;
    }
    push_line(out, b"999")?;
    Ok(())
}

/// The netlist of a board whose nets these are: a test record for each piece that is a disc about a place of whole
/// 0.001 mm, at most 999.999 mm from 0 in x and in y, and a comment line for each other, in order. `NoMemory` where
/// memory is wanted.
pub fn write_netlist(alloc: Global, board: &Board, nets: &Trees) -> Result<Vec<u8>, NoMemory>
    requires nets { IsForest (length (plain_board board.now).pieces) (IsNear (plain_board board.now)) nets.now }
    ensures text { IfOk result (λ text. text.items ≡ written_netlist_of (plain_board board.now).layers nets.now (plain_board board.now).pieces) }
{
    shapes::boards_are_lawful();
    let mut out = Vec::new(alloc);
    push_line(&mut out, b"C boardnet")?;
    push_line(&mut out, b"P  UNITS CUST 1")?;
    push_places(
        alloc,
        &mut out,
        board.layers(),
        board.pieces(),
        nets.as_slice(),
    )?;
    Ok(out)
}
