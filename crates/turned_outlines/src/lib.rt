//! Bounds of turned figures of any outline.
//!
//! Whoever makes a spot for each corner of a turned figure, the checks here say whether the polygon of
//! these spots, with capsules along it, holds the figure, and whether another polygon lies in it.
//!
//! - `above`: whether polygon and capsules hold the figure.
//! - `below`: whether a polygon lies in it.
//! - `nearest`: spots near the turned corners of a figure.
//! - `laws`: laws over the definitions alone.
#![tactic(auto)]

mod above;
mod below;
pub mod laws;
mod nearest;

pub use above::is_above_outline;
pub use below::is_below_outline;
pub use nearest::{slack, turned_corners, turned_spot};
pub use planar::Spot;
pub use slants::TurnedFigure;
