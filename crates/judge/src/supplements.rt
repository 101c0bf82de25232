//! What leads from a verdict to the board and its files.
ghost use Rattle.board_shapes.specs.Pieces.{plain_piece, plain_pieces};
ghost use Rattle.board_shapes.specs.Plain.{plain_board};
ghost use Rattle.board_shapes.specs.Tables.{IsTables, point_of, source_of as source_on};
ghost use Rattle.judge.specs.Supplied.{with_supplement};
ghost use Rattle.std.specs.Prelude.{◌≡◌, IfOk, map};
ghost use Rattle.tables.specs.Tables.{Tables};
ghost use Rattle.verdict.specs.Right.{IsRight, source_of, spot_of};
ghost use Rattle.verdict.specs.declared.verdict.Verdict.{Verdict};

use board_shapes::{Board, Piece, Probe};
use lengths::rows::{NoMemory, Rows};
use std::alloc::Global;
use verdict::{SourceLine, SpotLine, Supplement};

/// The supplement of a verdict on a board: the place of each of its probes in u, and the origin and span of each of its
/// pieces. A right verdict on the board is right with it too.
pub fn supplement(alloc: Global, board: &Board) -> Result<Supplement, NoMemory>
    ensures spots { IfOk result (λ more. (t : Tables) → IsTables (plain_board board.now) t → more.spots ≡ map spot_of t.points) }
    ensures sources { IfOk result (λ more. (t : Tables) → IsTables (plain_board board.now) t → more.sources ≡ map source_of t.sources) }
    ensures right { IfOk result (λ more. (t : Tables) (v : Verdict) → IsTables (plain_board board.now) t → IsRight t v → IsRight t (with_supplement v more)) }
{
    let spots = spots_of(alloc, board.probes())?;
    let sources = sources_of(alloc, board.pieces())?;
    Ok(Supplement { spots, sources })
}

// The place of each probe.
fn spots_of(alloc: Global, probes: &[Probe]) -> Result<Rows<SpotLine>, NoMemory>
    ensures { IfOk result (λ spots. spots ≡ map spot_of (map point_of probes.now)) }
{
    let mut spots = Rows::with_capacity(alloc, probes.len())?;
    for probe in probes {
        spots.push(SpotLine {
            x: probe.at.x,
            y: probe.at.y,
        })?;
    }
    Ok(spots)
}

// The origin and the span of each piece.
fn sources_of(alloc: Global, pieces: &[Piece]) -> Result<Rows<SourceLine>, NoMemory>
    ensures { IfOk result (λ sources. sources ≡ map source_of (map source_on (plain_pieces pieces.now))) }
{
    let mut sources = Rows::with_capacity(alloc, pieces.len())?;
    for piece in pieces {
        sources.push(source_line(piece))?;
    }
    Ok(sources)
}

// The origin and the span of a piece.
fn source_line(piece: &Piece) -> SourceLine
    ensures { result ≡ source_of (source_on (plain_piece piece.now)) }
{
    SourceLine {
        file: piece.origin.file,
        command: piece.origin.command,
        copy: piece.origin.copy,
        top: piece.top,
        bottom: piece.bottom,
    }
}
