//! Figures on the grid of half a u, and whether figures on that of u bound them.
//!
//! A pad whose size is an odd number of u has its sides, or the ends of its middle line and its radius, at half a u;
//! a draw with such a pen has its radius there. What is told here in half u is exact; whoever rounds the sizes down
//! and up has bounds on our grid.
//!
//! - `bounds`: whether a figure lies in a fine one, or holds it.
//! - `holes`: so with a fine one that has a round hole.
//! - `strokes`: whether strokes have their ends near one another.
//! - `sides`: whether boxes lie between sides, or around them.
//! - `laws`: laws over the definitions alone.
#![tactic(auto)]

mod bounds;
mod holes;
pub mod laws;
mod sides;
mod strokes;

pub use bounds::{is_fine_above, is_fine_below};
pub use contact::Bounds;
pub use holes::{is_holed_above, is_holed_below};
pub use planar::Spot;
pub use strokes::doubled;

/// The places that are at most `r` from the segment between `a` and `b`, all in half u: a disc where these are
/// one spot.
#[derive(Clone, Copy, Debug, PartialEq, Eq)]
pub struct FineStroke {
    pub a: Spot,
    pub b: Spot,
    pub r: u64,
}

/// A figure on the grid of half a u. Nothing is asked of its numbers: a rectangle whose left side is right of its
/// right side, or whose low side is above its high side, has no points.
#[derive(Clone, Copy, Debug, PartialEq, Eq)]
pub enum FineFigure {
    Round(FineStroke),
    /// Along the axes, its sides in half u.
    Rectangle(Bounds),
}

/// A figure on that grid without the places that are nearer to the centre, in u, than half the diameter `hole`, in u too.
#[derive(Clone, Copy, Debug, PartialEq, Eq)]
pub struct HoledFigure {
    pub outline: FineFigure,
    pub centre: Spot,
    pub hole: u64,
}
