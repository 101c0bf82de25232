//! Real boards between bounds.
//!
//! Whether two boards of figures lie below and above one with arc draws, slanted lines, regions with arcs, turned figures
//! and discs, regular polygons and odd sizes: `check_between`, by the counts of `read_counts`.
//!
//! - `side`: the sides of a bound, and what is taken there for a draw, a slanted line, a turned figure or disc, a polygon.
//! - `rows`: whether pieces are a figure, a contour, or the capsules of a chain.
//! - `regions`: whether they are a polygon and the capsules along its arcs.
//! - `holes`: whether they are taken for a figure with a round hole.
//! - `eighths`: whether they are a contour in a region, by chains of eighth turns.
//! - `outlines`: whether they are taken for a turned figure.
//! - `between`: the check over whole boards.
//! - `counts`: the file of counts.
//! - `laws`: what follows of every board whose copper the real pieces allow.
#![tactic(auto)]

mod between;
mod counts;
mod eighths;
mod holes;
pub mod laws;
mod outlines;
mod regions;
mod rows;
mod side;

pub use between::{BoundsFault, check_between};
pub use counts::{Counts, CountsFault, read_counts};
pub use side::Side;
