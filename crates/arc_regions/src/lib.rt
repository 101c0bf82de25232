//! Bounds of regions whose contours have arcs.
//!
//! Whoever makes chains of chords for the arcs of a contour, the checks here say whether the polygon
//! with the chains in place of the arcs, with capsules along them, holds the region, and whether another
//! polygon lies in it.
//!
//! - `above`: whether polygon and capsules hold the region.
//! - `below`: whether a polygon lies in it.
//! - `links`: whether a chain goes round an odd number of times.
//! - `laws`: laws over the definitions alone.
#![tactic(auto)]

mod above;
mod below;
pub mod laws;
mod links;

pub use above::{draw_of, end_of, is_above, is_part};
pub use below::{chain_clear, chain_odd, first_corner, is_below};
pub use planar::Spot;

/// A round arc about `centre` to `end`, in u. Where it begins and ends at one spot, it is the whole
/// circle.
#[derive(Clone, Copy)]
pub struct Bend {
    pub centre: Spot,
    pub end: Spot,
    pub counterclockwise: bool,
}

/// A part of a contour, from where the part before it ends: a straight one to a spot, or an arc.
#[derive(Clone, Copy)]
pub enum Part {
    Straight(Spot),
    Curved(Bend),
}

/// A region: its contour begins at `start`, and each part where the part before it ends.
#[derive(Drop)]
pub struct Region {
    pub start: Spot,
    pub parts: Vec<Part>,
}

/// A part of a contour. For an arc stand the links of a chain, each from a spot of it to the next:
/// counterclockwise, both ends of the arc included, with capsules of the radius (in u) along them. For a
/// straight part stands the part itself, and chain and radius are not read.
#[derive(Drop)]
pub struct Stretch {
    pub part: Part,
    pub chain: Vec<Spot>,
    pub radius: u64,
}
