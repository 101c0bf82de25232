//! The clauses on the supplement of a verdict.
ghost use Rattle.board_shapes.specs.Pieces.{plain_piece, plain_pieces};
ghost use Rattle.board_shapes.specs.Plain.{plain_board};
ghost use Rattle.board_shapes.specs.Tables.{point_of, source_of as source_on};
ghost use Rattle.std.specs.Prelude.{◌≡◌, ◌↔◌, IsTrue, Some, map};
ghost use Rattle.verdict.specs.Right.{source_of, spot_of};
ghost use Rattle.witness_check.specs.Supplied.{SupplementRuled};

use board_shapes::{Board, Piece, Probe};
use verdict::{SourceLine, SpotLine, Supplement};

/// The first of the clauses on the supplement that does not hold: 10, on the places of the points, or 11, on the pieces'
/// sources. `None` where both hold, as they do where there is no supplement. Each list is gone through once. No memory.
pub fn supplement_ruling(board: &Board, more: &Option<Supplement>) -> Option<u8>
    ensures { SupplementRuled (plain_board board.now) more.now result }
{
    match more {
        None => None,
        Some(more) => ruling_of(board, more),
    }
}

// The same of a supplement that is there.
fn ruling_of(board: &Board, more: &Supplement) -> Option<u8>
    ensures { SupplementRuled (plain_board board.now) (Some more.now) result }
{
    if !spots_hold(board.probes(), more.spots.as_slice()) {
        return Some(10);
    }
    if !sources_hold(board.pieces(), more.sources.as_slice()) {
        return Some(11);
    }
    None
}

// Whether there is one place for each probe, its own.
fn spots_hold(probes: &[Probe], spots: &[SpotLine]) -> bool
    ensures { IsTrue result ↔ (spots.now ≡ map spot_of (map point_of probes.now)) }
{
    let mut pairs = probes.iter().zip(spots);
    probes.len() == spots.len() && pairs.all(|(probe, spot)| is_spot(probe, spot))
}

// Whether the place is the probe's.
fn is_spot(probe: &Probe, spot: &SpotLine) -> bool
    ensures { IsTrue result ↔ (spot.now ≡ spot_of (point_of probe.now)) }
{
    spot.x == probe.at.x && spot.y == probe.at.y
}

// Whether there is one source for each piece, its own.
fn sources_hold(pieces: &[Piece], sources: &[SourceLine]) -> bool
    ensures { IsTrue result ↔ (sources.now ≡ map source_of (map source_on (plain_pieces pieces.now))) }
{
    let mut pairs = pieces.iter().zip(sources);
    pieces.len() == sources.len() && pairs.all(|(piece, source)| is_source(piece, source))
}

// Whether the source is the piece's: its origin and its span.
fn is_source(piece: &Piece, source: &SourceLine) -> bool
    ensures { IsTrue result ↔ (source.now ≡ source_of (source_on (plain_piece piece.now))) }
{
    if source.file != piece.origin.file || source.command != piece.origin.command {
        return false;
    }
    if source.copy != piece.origin.copy {
        return false;
    }
    source.top == piece.top && source.bottom == piece.bottom
}
