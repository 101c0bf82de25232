//! How many edges pieces have.
ghost use Rattle.board_shapes.specs.Pieces.{edges_in as sum_of_edges, plain_pieces};
ghost use Rattle.std.specs.Prelude.{length, ◌<◌, ◌^◌, ◌≡◌};

use crate::placed::Piece;

/// How many edges the contours of the pieces have; there are fewer than 2^32 pieces.
pub fn edges_in(pieces: &[Piece]) -> u64
    requires few { length pieces.now < 2 ^ 32 }
    ensures { result ≡ sum_of_edges (plain_pieces pieces.now) }
{
    let mut edges = 0;
    for piece in pieces {
        edges += u64::from(piece.shape.edges());
    }
    edges
}
