//! Step and repeat: the grid of copies that stands for a block in a Gerber file.
//!
//! `Repeat::read` reads the word that opens or ends a block, and `Repeat::copies` makes the copies
//! of the block's pieces, or says what the room has no place for. The layer above relies on this:
//! the copies are exactly those of the columns and rows, or the refusal is the first that holds.
#![tactic(auto)]

mod copying;
mod fault;
mod figure;
mod repeat;
mod repeat_word;

pub use copying::edges_of;
pub use fault::{CopyFault, RepeatFault};
pub use figure::Figure;
pub use repeat::Repeat;
