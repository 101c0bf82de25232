//! Bounds of slanted rectangles and of turned figures.
//!
//! Whoever makes a polygon with whole corners, the checks here say whether it lies in a rectangle
//! along any whole direction, or holds it; and so of a figure that is turned by any turn between two.
//!
//! - `below`: whether a polygon lies in a slanted rectangle.
//! - `above`: whether a polygon holds one.
//! - `cones`: turns by about an angle, and whether polygons bound a figure that is turned by it.
//! - `contours`: which closed contours go round once.
//! - `discs`: discs that are turned by degrees, and whether discs bound them.
//! - `figure`: figures that are turned by degrees.
//! - `measures`: whole numbers for the length and the width.
//! - `polygons`: regular polygons in any direction, and whether polygons bound them.
//! - `turns`: turns, and rigid motions by those between two.
//! - `turned`: whether polygons bound a figure that is turned by any of them.
//! - `laws`: laws over the definitions alone.
#![tactic(auto)]

mod above;
mod below;
mod cones;
mod contours;
mod discs;
mod figure;
pub mod laws;
mod measures;
mod polygons;
mod turned;
mod turns;

pub use above::is_above;
pub use below::is_below;
pub use cones::{ONE, PI, RIGHT_ANGLE, is_above_figure, is_below_figure};
pub use discs::{TurnedDisc, is_above_disc, is_below_disc};
pub use figure::TurnedFigure;
pub use measures::FINE;
pub use planar::Spot;
pub use polygons::{PARTS, RegularPolygon, is_above_polygons, is_below_polygon};
pub use turned::{is_above_turned, is_below_turned};
pub use turns::{MOST_PART, Motions, Turn};

/// A rectangle of the whole width `width`, in u, about the line from `start` to `end`, which runs in
/// any direction: it ends where the line does.
#[derive(Clone, Copy)]
pub struct Slant {
    pub start: Spot,
    pub end: Spot,
    pub width: u64,
}

#[cfg(test)]
mod polygon_tests;
#[cfg(test)]
mod tests;
