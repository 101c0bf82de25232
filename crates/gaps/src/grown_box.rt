//! The common box of grown pieces, and the frame that lies over it.
ghost use Rattle.board_shapes.specs.CommonBox.{Fits, frame_over};
ghost use Rattle.board_shapes.specs.Pieces.{plain_piece, plain_pieces};
ghost use Rattle.gaps.specs.GrownBox.{IsGapFault, grown_around, grown_box, grown_common};
ghost use Rattle.std.specs.Prelude.{IfErr, IfOk, pos, ◌≡◌, ◌≤◌};

use super::Fat;
use super::listing::GapFault;
use board_shapes::Piece;
use contact::{Bounds, Closed};
use planar::Frame;

/// The common box of the pieces, each grown, where there are any.
pub fn common(pieces: &[Piece], grow: u32) -> Option<Bounds>
    requires growth { grow ≤ 50_000_000 }
    ensures { result ≡ grown_common (pos grow) (plain_pieces pieces.now) }
{
    match pieces {
        [] => None,
        [first, rest @ ..] => Some(around(grown(first, grow), rest, grow)),
    }
}

/// The box of the grown piece.
fn grown(piece: &Piece, grow: u32) -> Bounds
    requires growth { grow ≤ 50_000_000 }
    ensures { result ≡ grown_box (pos grow) (plain_piece piece.now) }
{
    Fat::new(&piece.shape, grow as i64).bounds()
}

/// The least box with the box in it and the boxes of the grown pieces.
fn around(first: Bounds, pieces: &[Piece], grow: u32) -> Bounds
    requires growth { grow ≤ 50_000_000 }
    ensures { result ≡ grown_around (pos grow) first (plain_pieces pieces.now) }
{
    let mut all = first;
    for piece in pieces {
        all = all.joined_with(&grown(piece, grow));
    }
    all
}

/// The frame from the lower left corner of the box. A box with a side over the frame's is a fault.
pub fn frame_for(common: Option<Bounds>) -> Result<Frame, GapFault>
    ensures frame { IfOk result (λ frame. frame ≡ frame_over common) }
    ensures fits { IfOk result (λ frame. Fits common) }
    ensures fault { IfErr result (IsGapFault common) }
{
    let Some(bounds) = common else {
        return Ok(Frame { left: 0, low: 0 });
    };
    let frame = Frame {
        left: bounds.left,
        low: bounds.low,
    };
    if !bounds.inside(frame) {
        return Err(GapFault::FrameTooLarge(bounds));
    }
    Ok(frame)
}
