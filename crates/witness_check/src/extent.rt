//! How far boxes and spots lie from the frame's lower left corner.
ghost use Rattle.board_shapes.specs.Plain.{plain_board};
ghost use Rattle.contact.specs.Solid.{IsInside};
ghost use Rattle.std.specs.Prelude.{◌<◌, ◌≤ℤ◌, length};
ghost use Rattle.witness_check.specs.Extents.{IsAway, IsAwayAt, IsExtent, IsExtentAt};

use board_shapes::Board;
use contact::{Bounds, Closed};
use planar::{Frame, Spot};

/// The sides of a box, by how far they lie from the frame's lower left corner.
#[derive(Clone, Copy)]
pub struct Extent {
    pub left: u64,
    pub right: u64,
    pub low: u64,
    pub high: u64,
}

/// How far a spot lies from the frame's lower left corner: along and up, if it does not lie left of it or below it.
#[derive(Clone, Copy)]
pub struct Away {
    pub along: u64,
    pub up: u64,
}

/// The extent of the box of piece p.
pub fn extent_at(board: &Board, p: usize) -> Extent
    requires { p < length (plain_board board.now).pieces }
    ensures { IsExtentAt (plain_board board.now) p result }
{
    extent_of(board.pieces()[p].shape.bounds(), board.frame())
}

// The extent of a box that lies in the frame.
fn extent_of(bounds: Bounds, frame: Frame) -> Extent
    requires inside { IsInside bounds frame }
    requires across { bounds.left ≤ℤ bounds.right }
    requires up { bounds.low ≤ℤ bounds.high }
    ensures { IsExtent frame bounds result }
{
    let left = (bounds.left - frame.left) as u64;
    let right = (bounds.right - frame.left) as u64;
    let low = (bounds.low - frame.low) as u64;
    let high = (bounds.high - frame.low) as u64;
    Extent {
        left,
        right,
        low,
        high,
    }
}

/// How far probe k stands from the frame's corner.
pub fn away_at(board: &Board, k: usize) -> Away
    requires { k < length (plain_board board.now).probes }
    ensures { IsAwayAt (plain_board board.now) k result }
{
    away_of(board.probes()[k].at, board.frame())
}

// How far the spot lies from the frame's corner.
fn away_of(spot: Spot, frame: Frame) -> Away
    ensures { IsAway frame spot result }
{
    Away {
        along: spot.x.abs_diff(frame.left),
        up: spot.y.abs_diff(frame.low),
    }
}
