//! What a board is made of and what it answers.
ghost use Rattle.board_shapes.specs.CommonBox.{Fits, common_box};
ghost use Rattle.board_shapes.specs.Faults.{IsBoardFault};
ghost use Rattle.board_shapes.specs.Lawful.{IsInsideFrame, IsOnLayers, IsProbe};
ghost use Rattle.board_shapes.specs.Pieces.{plain_pieces};
ghost use Rattle.board_shapes.specs.Plain.{frame_of, pieces_of, plain_board, plain_parts};
ghost use Rattle.std.specs.Prelude.{All, IfErr, IfOk, length, ◌<◌, ◌≡◌, ◌^◌};

use crate::board::{Board, BoardFault};
use crate::common_box::{box_of_all, corner, fits_frame};
use crate::placed::Piece;
use crate::probe::Probe;
use lengths::rows::Rows;
use lengths::text::Text;
use planar::Frame;

impl Board {
    /// The board of these parts. Its frame has its lower left corner at that of the common box of
    /// all pieces, or at (0, 0) where there are none.
    ///
    /// `FrameTooLarge` where the common box has a side over 10,000,000,000 u (1 m).
    pub fn new(
        pieces: Vec<Piece>,
        probes: Rows<Probe>,
        names: Rows<Text>,
        layers: u8,
    ) -> Result<Board, BoardFault>
        requires few_pieces { length pieces.items < 2 ^ 32 }
        requires few_probes { length probes < 2 ^ 32 }
        requires few_names { length names < 2 ^ 32 }
        requires spans { All (IsOnLayers layers) pieces.items }
        requires known { All (IsProbe (length names) layers) probes }
        ensures ok { IfOk result (λ board. plain_board board ≡ plain_parts pieces.items probes names layers) }
        ensures fits { IfOk result (λ board. Fits (common_box (plain_pieces pieces.items))) }
        ensures fault { IfErr result (IsBoardFault (common_box (plain_pieces pieces.items))) }
    {
        let Some(bounds) = box_of_all(&pieces) else {
            let frame = Frame { left: 0, low: 0 };
            return Ok(Board {
                pieces,
                probes,
                names,
                layers,
                frame,
            });
        };
        if !fits_frame(bounds) {
            return Err(BoardFault::FrameTooLarge(bounds));
        }
        let frame = corner(bounds);
        Ok(Board {
            pieces,
            probes,
            names,
            layers,
            frame,
        })
    }

    /// The pieces.
    pub fn pieces(&self) -> &[Piece]
        ensures items { result.now ≡ pieces_of self.now }
        ensures plain { plain_pieces result.now ≡ (plain_board self.now).pieces }
        ensures few { length result.now < 2 ^ 32 }
        ensures inside { All (IsInsideFrame (frame_of (plain_board self.now))) result.now }
        ensures spans { All (IsOnLayers (plain_board self.now).layers) result.now }
    {
        &self.pieces
    }

    /// The probes.
    pub fn probes(&self) -> &[Probe]
        ensures items { result.now ≡ (plain_board self.now).probes }
        ensures few { length result.now < 2 ^ 32 }
        ensures known { All (IsProbe (length (plain_board self.now).names) (plain_board self.now).layers) result.now }
    {
        self.probes.as_slice()
    }

    /// The net names.
    pub fn names(&self) -> &[Text]
        ensures items { result.now ≡ (plain_board self.now).names }
        ensures few { length result.now < 2 ^ 32 }
    {
        self.names.as_slice()
    }

    /// The number of layers.
    pub fn layers(&self) -> u8
        ensures { result ≡ (plain_board self.now).layers }
    {
        self.layers
    }

    /// The frame: a square of 10,000,000,000 u (1 m) in which all boxes of the pieces lie.
    pub fn frame(&self) -> Frame
        ensures { result ≡ frame_of (plain_board self.now) }
    {
        self.frame
    }
}
