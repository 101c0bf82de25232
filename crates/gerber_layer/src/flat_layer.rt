//! Reads a copper file that may have macros.
ghost use Rattle.std.specs.Prelude.{◌≡◌, ◌≤◌, length, IfOk, IfErr};
ghost use Rattle.board_shapes.specs.Pieces.{plain_pieces};
ghost use Rattle.gerber_layer.specs.MacroLayer.{IsMacroFault, IsReadWithMacros};

use crate::MOST_FLAT_EDGES;
use crate::dialect::WithMacros;
use crate::macro_kind::FlattenFault;
use board_shapes::{MOST_PIECES, Piece, Room};
use gerber_reading::{Place, read_by};
use std::alloc::Global;
use texts::MOST_BYTES;

/// The pieces of a copper file that may have aperture macros (Gerber Layer Format Specification,
/// 4.5), as `read_by` has them. A flash of a macro makes a piece for each of its primitives that has an image. The file's
/// function is any.
///
/// The pieces stand on layer 1 of file 0; at most `MOST_PIECES` pieces with `MOST_FLAT_EDGES` edges in all come.
pub fn read_flat(alloc: Global, file: &[u8]) -> Result<Vec<Piece>, FlattenFault>
    requires size { length file.now ≤ MOST_BYTES }
    ensures ok { IfOk result (λ pieces. IsReadWithMacros file.now (plain_pieces pieces.items)) }
    ensures few { IfOk result (λ pieces. length pieces.items ≤ MOST_PIECES) }
    ensures fault { IfErr result (IsMacroFault file.now) }
{
    let room = Room {
        pieces: MOST_PIECES,
        edges: MOST_FLAT_EDGES,
    };
    let place = Place {
        layer: 1,
        file: 0,
        room,
    };
    read_by::<WithMacros>(alloc, file, place)
}
