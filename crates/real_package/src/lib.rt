//! The real board of a package of files: its draws may be arcs.
//!
//! `build_real` takes and judges the files in the order of `board_package` (`stages`), each with the room that earlier
//! files left (`contents`), and gives the real board (`board`) or says what stops it first (`fault`). Copper files are read
//! by `real_copper`, drill files and the netlist as for a board without arcs. The laws over the definitions stand in `laws`.
#![tactic(auto)]

mod board;
mod contents;
mod fault;
pub mod laws;
mod stages;

pub use board::{RealBoard, has_its_netlist};
pub use fault::RealBuildFault;
pub use real_shapes::RealPiece;
pub use stages::build_real;
