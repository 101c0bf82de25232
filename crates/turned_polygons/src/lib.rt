//! Bounds of regular polygons whose middle is turned by degrees.
//!
//! Whoever makes a polygon with whole corners, the checks here say whether it lies in a regular polygon
//! whose middle is turned about a spot, or holds it.
//!
//! - `checks`: whether it does.
//! - `laws`: laws over the definitions alone.
#![tactic(auto)]

mod checks;
pub mod laws;

pub use checks::{is_above_turned_polygon, is_below_turned_polygon};
pub use planar::Spot;
pub use slants::RegularPolygon;

/// A regular polygon whose middle is turned counterclockwise about a spot (Gerber Layer Format Specification, 4.5.1,
/// code 5).
#[derive(Clone, Copy)]
pub struct TurnedPolygon {
    /// The polygon, about its middle before the turn. Its direction is that after it.
    pub polygon: RegularPolygon,
    /// What the middle is turned about, in u.
    pub about: Spot,
    /// How far, in 10^-7 degrees, below 90 degrees.
    pub angle: u32,
}
