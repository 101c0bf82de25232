//! Where the pieces of a file come to stand.
use board_shapes::Room;

/// The layer that the pieces of a file stand on, from 1 to `MOST_LAYERS`, the file's number, which goes into their origins,
/// and how many pieces and edges may still come.
#[derive(Clone, Copy)]
pub struct Place {
    pub layer: u8,
    pub file: u32,
    pub room: Room,
}
