//! Reads a layer.
ghost use Rattle.std.specs.Prelude.{◌≡◌, ◌≤◌, length, All, IfOk, IfErr};
ghost use Rattle.board_shapes.specs.Pieces.{plain_pieces};
ghost use Rattle.gerber_layer.specs.Layer.{IsFault, IsRead};

use crate::dialect::Plain;
use board_shapes::{MOST_LAYERS, Piece, Room};
use gerber_reading::{LayerFault, Place, read_by};
use std::alloc::Global;
use texts::MOST_BYTES;

/// What `read_by` gives of a layer's copper where its apertures are standard ones.
///
/// `layer` is from 1 to `MOST_LAYERS` and stands as span and in the file's function; `file_number` goes into the
/// origins; `room` says how many pieces and edges may still come.
pub fn read_layer(
    alloc: Global,
    file: &[u8],
    layer: u8,
    file_number: u32,
    room: Room,
) -> Result<Vec<Piece>, LayerFault>
    requires layer { (1 ≤ layer) × (layer ≤ MOST_LAYERS) }
    requires size { length file.now ≤ MOST_BYTES }
    ensures ok { IfOk result (λ pieces. IsRead file.now (record { layer = layer; file = file_number; room = room }) (plain_pieces pieces.items)) }
    ensures few { IfOk result (λ pieces. length pieces.items ≤ room.pieces) }
    ensures layers { IfOk result (λ pieces. All (λ piece. (piece.top ≡ layer) × (piece.bottom ≡ layer)) pieces.items) }
    ensures fault { IfErr result (IsFault file.now (record { layer = layer; file = file_number; room = room })) }
{
    let place = Place {
        layer,
        file: file_number,
        room,
    };
    read_by::<Plain>(alloc, file, place)
}
