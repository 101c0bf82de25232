//! Nets that come too close to one another.
//!
//! All coordinates are in u, a tenth of a nanometre. A shape that is grown by a distance is a solid like
//! any other: whatever searches a board for shapes that touch finds, of grown shapes, those that come
//! close. So the gaps of a board are found by the field of cells, over its pieces grown by half the
//! distance. The list and its text take memory; no call on shapes refuses.
//!
//! - `listing`: the list of the gaps of a board.
//! - `text`: its text.
//! - `gap`: a line of the list, and lines in order.
//! - `found`: the lines that were found, and where they stand.
//! - `meetings`: of the lines of pieces that come close, the least of each layer and two nets.
//! - `over`: the pieces that may make lines with a piece.
//! - `fats`: the pieces of a board, grown.
//! - `grown_box`: their common box.
//! - `grown`: the grown shape as a solid.
//! - `areas`: areas that come into a stroke, and areas that come close to one another.
//! - `lines`: loops over the edges of a line of spots.
//! - `strokes`: segments with a radius that come within one another.
//! - `laws`: laws over the definitions alone.
#![tactic(auto)]

ghost use Rattle.gaps.specs.Grown.{IsGrowth};

mod areas;
mod fats;
mod found;
mod gap;
mod grown;
mod grown_box;
pub mod laws;
mod lines;
mod listing;
mod meetings;
mod over;
mod strokes;
mod text;

use board_shapes::Shape;
pub use gap::Gap;
pub use listing::{GapFault, gaps};
pub use text::write_gaps;

/// The widest distance of gaps, in nanometres: 10 mm.
pub const MOST_NANOMETRES: u32 = 10_000_000;

/// A shape, grown by a distance: the points that are at most `grow` from some point of the shape. `grow` is in u, from 0 to 5 mm.
#[derive(Clone, Copy)]
pub struct Fat<'a> {
    pub shape: &'a Shape,
    pub grow: i64,
    ghost growth: { IsGrowth grow },
}
