//! A board whose pieces may be other copper than figures, as arc draws.
ghost use Rattle.real_copper.specs.Shapes.{plain_reals};
ghost use Rattle.board_shapes.specs.Pieces.{plain_pieces};
ghost use Rattle.board_shapes.specs.Plain.{plain_board};
ghost use Rattle.real_package.specs.RealBoards as spec;
ghost use Rattle.real_package.specs.RealBoards.{HasNetlistOf, as_reals, plain_real_board};
ghost use Rattle.std.specs.Prelude.{◌≡◌, ◌<◌, ◌≤◌, ◌^◌, ◌↔◌, length, IfOk, IsTrue};

use board_package::{Parts, room_for};
use board_shapes::{Board, MOST_PIECES, Piece, Placed, Room};
use lengths::rows::NoMemory;
use real_copper::edges_of;
use real_shapes::{RealPiece, RealShape};
use std::alloc::Global;

/// A real board: pieces that are figures or other copper, with the test points, names and layers of its package.
pub type RealBoard = Parts<RealShape>;

// A number as far as 32 bits tell it.
fn counted(n: u64) -> u32
    ensures { result ≡ spec.counted n }
{
    match u32::try_from(n) {
        Ok(few) => few,
        Err(_) => u32::MAX,
    }
}

/// How many edges the contours of the pieces have.
fn edges_in(pieces: &[RealPiece]) -> u64
    requires few { length pieces.now < 2 ^ 32 }
    ensures { result ≡ spec.edges_in (plain_reals pieces.now) }
{
    let mut edges = 0;
    for piece in pieces {
        edges += u64::from(counted(edges_of(&piece.shape)));
    }
    edges
}

/// The pieces and edges that may still come behind these.
pub fn room_left(pieces: &[RealPiece]) -> Room
    requires { length pieces.now ≤ MOST_PIECES }
    ensures { result ≡ spec.room_left (plain_reals pieces.now) }
{
    room_for(pieces.len(), edges_in(pieces))
}

/// Pieces that are figures, as those of a real board.
pub fn as_real_pieces(alloc: Global, pieces: Vec<Piece>) -> Result<Vec<RealPiece>, NoMemory>
    ensures { IfOk result (λ reals. plain_reals reals.items ≡ as_reals (plain_pieces pieces.items)) }
{
    let mut reals = Vec::new(alloc);
    for piece in pieces {
        reals.push(Placed {
            shape: RealShape::Plain(piece.shape),
            top: piece.top,
            bottom: piece.bottom,
            origin: piece.origin,
        })?;
    }
    Ok(reals)
}

/// Whether a board of figures alone has the test points, names and layers of the real one.
pub fn has_its_netlist(real: &RealBoard, board: &Board) -> bool
    ensures { IsTrue result ↔ HasNetlistOf (plain_real_board real.now) (plain_board board.now) }
{
    has_its_points(real, board) && board.layers() == real.layers
}

fn has_its_points(real: &RealBoard, board: &Board) -> bool
    ensures { IsTrue result ↔ (((plain_board board.now).probes ≡ real.now.probes) × ((plain_board board.now).names ≡ real.now.names)) }
{
    has_its_probes(real, board) && has_its_names(real, board)
}

fn has_its_probes(real: &RealBoard, board: &Board) -> bool
    ensures { IsTrue result ↔ ((plain_board board.now).probes ≡ real.now.probes) }
{
    board.probes() == real.probes.as_slice()
}

fn has_its_names(real: &RealBoard, board: &Board) -> bool
    ensures { IsTrue result ↔ ((plain_board board.now).names ≡ real.now.names) }
{
    board.names() == real.names.as_slice()
}
