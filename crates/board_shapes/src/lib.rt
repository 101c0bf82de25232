//! Shapes on the layers of a board: pieces of copper, test points, and the board of both.
//!
//! `shape` has the solids, and `placed` a solid on a span of layers with what made it: a piece. `moved`
//! shifts pieces, `edges` counts their edges, `rectangles` has contours along the axes. `probe` is a
//! test point, `board` the board, and `common_box` the box of all its pieces. The laws stand in `laws`.
#![tactic(auto)]

mod board;
mod common_box;
mod edges;
pub mod laws;
mod moved;
mod placed;
mod probe;
mod rectangles;
mod shape;

pub use board::{Board, BoardFault};
pub use edges::edges_in;
pub use moved::MoveFault;
pub use placed::{Origin, Piece, Placed, Room};
pub use probe::Probe;
pub use rectangles::{corners_around, rectangle};
pub use shape::Shape;

/// The most pieces of a board that is read from files.
pub const MOST_PIECES: u32 = 200_000;

/// The most layers of such a board.
pub const MOST_LAYERS: u8 = 32;
