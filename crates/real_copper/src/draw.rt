//! How a draw goes.
use planar::Spot;

/// What makes a draw an arc: its direction, and its centre (Gerber Layer Format Specification, 4.7).
#[derive(Clone, Copy, Debug, PartialEq, Eq)]
pub struct Bend {
    pub clockwise: bool,
    pub centre: Spot,
}
