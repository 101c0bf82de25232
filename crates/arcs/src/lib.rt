//! Bounds of arc draws.
//!
//! A chain of spots with a radius is a row of capsules, each from a spot to the next. Whoever makes a
//! chain, the checks here say whether its copper lies in that of the arc, or holds it.
//!
//! - `bounds`: whether a chain lies in the copper of every curve of an arc, and whether it holds that of each.
//! - `chords`: whether a chord lies in a ring, and a chord in a turn.
//! - `rings`: whole numbers round the radii of an arc.
//! - `alike`: whether its ends are alike enough for it to be meant.
//! - `judged`: the ring of an arc that is judged.
//! - `laws`: laws over the definitions alone.
#![tactic(auto)]

mod alike;
mod bounds;
mod chords;
mod judged;
pub mod laws;
mod rings;

pub use bounds::{is_above, is_below};
pub use planar::Spot;

/// An arc draw with a round pen of the diameter `width`: counterclockwise about `centre`, from `start`
/// to `end`. One that goes clockwise has the same copper as the one that goes back.
#[derive(Clone, Copy)]
pub struct Arc {
    pub centre: Spot,
    pub start: Spot,
    pub end: Spot,
    pub width: u64,
}
