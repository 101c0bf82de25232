//! A board: its pieces, its probes and their names.
ghost use Rattle.board_shapes.specs.CommonBox.{common_box, frame_over};
ghost use Rattle.board_shapes.specs.Lawful.{IsInsideFrame, IsOnLayers, IsProbe};
ghost use Rattle.board_shapes.specs.Pieces.{plain_pieces};
ghost use Rattle.std.specs.Prelude.{All, length, ◌<◌, ◌≡◌, ◌^◌};
ghost use lib.IntN.{ℤ_set};

mod calls;

use crate::placed::Piece;
use crate::probe::Probe;
use contact::Bounds;
use lengths::rows::Rows;
use lengths::text::Text;
use planar::Frame;

/// The pieces, probes and net names of a board. All boxes of the pieces are inside the board's
/// frame, all spans are within its layers, and each probe has one of the names, one of the layers
/// and a place within 1 m.
#[derive(Drop)]
pub struct Board {
    pieces: Vec<Piece>,
    probes: Rows<Probe>,
    names: Rows<Text>,
    layers: u8,
    frame: Frame,
    ghost few_pieces: { length pieces.items < 2 ^ 32 },
    ghost few_probes: { length probes < 2 ^ 32 },
    ghost few_names: { length names < 2 ^ 32 },
    ghost spans: { All (IsOnLayers layers) pieces.items },
    ghost inside: { All (IsInsideFrame frame) pieces.items },
    ghost corner: { frame ≡ frame_over (common_box (plain_pieces pieces.items)) } by { Prim.hlevel (ℤ_set) },
    ghost known: { All (IsProbe (length names) layers) probes },
}

/// Why pieces are no board.
#[derive(Clone, Copy, Debug, PartialEq, Eq)]
pub enum BoardFault {
    /// The common box of all pieces, which this is, has a side over 10,000,000,000 u (1 m).
    FrameTooLarge(Bounds),
}
