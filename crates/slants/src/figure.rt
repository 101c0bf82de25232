//! Figures that are turned by degrees.
use planar::Spot;

/// A figure that is turned counterclockwise about a spot (Gerber Layer Format Specification, 4.5.1).
#[derive(Drop)]
pub struct TurnedFigure {
    /// The points of its contour before the turn, in u: at least four, the last is the first.
    pub contour: Vec<Spot>,
    /// What it is turned about, in u.
    pub about: Spot,
    /// How far, in 10^-7 degrees: from 1 to 899,999,999.
    pub angle: u32,
}
