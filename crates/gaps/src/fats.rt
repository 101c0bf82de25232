//! The pieces of a board with their shapes grown, and their spans.
ghost use Rattle.board_shapes.specs.Pieces.{plain_piece, plain_pieces};
ghost use Rattle.gaps.specs.GrownPieces.{AreGrown, piece_in, piece_span};
ghost use Rattle.std.specs.Prelude.{IfOk, map, pos, ◌≡◌, ◌≤◌};

use super::Fat;
use super::meetings::Span;
use board_shapes::{Piece, Placed};
use lengths::rows::NoMemory;
use std::alloc::Global;

/// The piece, grown.
fn grown<'a>(piece: &'a Piece, grow: u32) -> Placed<Fat<'a>>
    requires growth { grow ≤ 50_000_000 }
    ensures piece { piece_in result ≡ plain_piece piece.now }
    ensures growth { result.shape.grow ≡ pos grow }
{
    Placed {
        shape: Fat::new(&piece.shape, grow as i64),
        top: piece.top,
        bottom: piece.bottom,
        origin: piece.origin,
    }
}

/// The pieces, each of them grown.
pub fn fats_of<'a>(
    alloc: Global,
    pieces: &'a [Piece],
    grow: u32,
) -> Result<Vec<Placed<Fat<'a>>>, NoMemory>
    requires growth { grow ≤ 50_000_000 }
    ensures { IfOk result (λ fats. AreGrown (pos grow) (plain_pieces pieces.now) fats.items) }
{
    let mut fats = Vec::new(alloc);
    for piece in pieces {
        fats.push(grown(piece, grow))?;
    }
    Ok(fats)
}

/// The span of the piece.
fn span(piece: &Piece) -> Span
    ensures { result ≡ piece_span (plain_piece piece.now) }
{
    Span {
        top: piece.top,
        bottom: piece.bottom,
    }
}

/// The spans of the pieces.
pub fn spans_of(alloc: Global, pieces: &[Piece]) -> Result<Vec<Span>, NoMemory>
    ensures { IfOk result (λ spans. spans.items ≡ map piece_span (plain_pieces pieces.now)) }
{
    let mut spans = Vec::new(alloc);
    for piece in pieces {
        spans.push(span(piece))?;
    }
    Ok(spans)
}
