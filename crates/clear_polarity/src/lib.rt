//! The copper of a layer whose objects are dark or clear, and bounds of it.
//!
//! A point is copper where a dark object has it that no later clear one has. What each object has may be known between figures.
//!
//! - `same`: whether two shapes have one figure.
//! - `apart`: whether shapes, and the edges of a contour, share no point with a shape.
//! - `below`: whether a piece lies in a dark object, and all later objects spare it.
//! - `above`: whether shapes are those of all dark objects.
//! - `check`: both, of a layer.
//! - `laws`: what holds of the copper by each reading of the objects.
#![tactic(auto)]

ghost use Rattle.planar.specs.Plane.{Point};
ghost use Rattle.std.specs.Prelude.{ℕ};

mod above;
mod apart;
mod below;
mod check;
pub mod laws;
mod same;
#[cfg(test)]
mod tests;

use board_shapes::Shape;
pub use check::{LayerFault, check_layer};

/// Whether an object adds copper or erases what was there before it.
#[derive(Clone, Copy, Debug, PartialEq, Eq)]
pub enum Polarity {
    Dark,
    Clear,
}

/// An object of a layer: a draw, a flash or a contour. Its shape may be known between figures only.
#[derive(Drop)]
pub struct LayerObject {
    pub polarity: Polarity,
    /// Figures that lie in the object.
    pub inner: Vec<Shape>,
    /// Figures that together hold it.
    pub outer: Vec<Shape>,
}

/// A piece below a layer, and in what it is said to lie; nobody needs to trust that.
#[derive(Drop)]
pub struct LowerPiece {
    pub shape: Shape,
    /// The number of the object, from 0 in the order of the file.
    pub object: usize,
    /// The number of one of its inner figures, from 0.
    pub figure: usize,
}

/// What the objects of a layer have, and what they add or erase of that: any sets of points, by the number of the object. A caller of a law picks them.
pub trait Reading {
    /// Which points object i has.
    ghost holds: { ℕ → Point → Type 0 };

    /// Which of them it adds or erases.
    ghost marks: { ℕ → Point → Type 0 };
}
