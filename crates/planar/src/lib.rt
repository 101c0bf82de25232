//! Exact planar geometry over whole numbers.
//!
//! All coordinates, lengths and radii are in u, a tenth of a nanometre. Every call but those of
//! `places` asks that each coordinate lies between -10^10 and 10^10, one metre to each side of 0 (two, at the first
//! spot of those of `ways`). Points of segments are rational: no call rounds, takes memory or refuses.
//!
//! - `places`: whether spots lie within one metre, and whether two are one.
//! - `ways`: the cross and the scalar product of two ways.
//! - `sides`: the hand of a line that a spot lies on; whether a ray crosses an edge.
//! - `meeting`: whether two closed segments share a point.
//! - `distance`: whether points of two segments are at most a radius apart.
//! - `laws`: laws over the definitions alone.
#![tactic(auto)]

mod distance;
pub mod laws;
mod meeting;
mod places;
mod sides;
mod ways;

pub use distance::segments_within;
pub use meeting::segments_meet;
pub use places::{are_placed, is_placed, is_same};
pub use sides::{ray_crosses, which_side};
pub use ways::{cross, dot};

/// A place with whole coordinates, both in u.
#[derive(Clone, Copy, Debug, PartialEq, Eq)]
pub struct Spot {
    pub x: i64,
    pub y: i64,
}

/// The furthest that a coordinate lies from 0, in u: one metre.
pub const METRE: u64 = 10_000_000_000;

/// The furthest that two coordinates lie from one another, in u.
pub const TWO_METRES: u64 = 2 * METRE;

/// The side of a frame, in u: one metre.
pub const SIDE: i64 = METRE as i64;

/// The greatest radius that `segments_within` takes, in u: 70 mm.
pub const MOST_REACH: i64 = 700_000_000;

/// The closed square from the corner (`left`, `low`), with side `SIDE`.
#[derive(Clone, Copy, PartialEq, Eq)]
pub struct Frame {
    pub left: i64,
    pub low: i64,
}

/// On which hand of a line something lies.
#[derive(Clone, Copy, Debug, PartialEq, Eq)]
pub enum Hand {
    Left,
    On,
    Right,
}
