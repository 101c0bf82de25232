//! The common box of pieces, and whether it fits a frame.
ghost use Rattle.board_shapes.specs.CommonBox.{FitsFrame, box_around, common_box, frame_over};
ghost use Rattle.board_shapes.specs.Pieces.{plain_pieces};
ghost use Rattle.std.specs.Prelude.{IsTrue, ◌≡◌, ◌↔◌};

use crate::placed::Piece;
use contact::{Bounds, Closed};
use planar::Frame;

/// The common box of all pieces, where there are any.
pub(crate) fn box_of_all(pieces: &[Piece]) -> Option<Bounds>
    ensures { result ≡ common_box (plain_pieces pieces.now) }
{
    match pieces {
        [] => None,
        [first, rest @ ..] => Some(widened(first.shape.bounds(), rest)),
    }
}

/// The least box with the box in it and the boxes of the pieces.
fn widened(first: Bounds, pieces: &[Piece]) -> Bounds
    ensures { result ≡ box_around first (plain_pieces pieces.now) }
{
    let mut all = first;
    for piece in pieces {
        all = all.joined_with(&piece.shape.bounds());
    }
    all
}

/// The frame from the lower left corner of the box.
pub(crate) fn corner(b: Bounds) -> Frame
    ensures { result ≡ frame_over (Some b) }
{
    Frame {
        left: b.left,
        low: b.low,
    }
}

/// Whether both sides of the box are at most that of a frame.
pub(crate) fn fits_frame(b: Bounds) -> bool
    ensures { IsTrue result ↔ FitsFrame b }
{
    b.inside(corner(b))
}
