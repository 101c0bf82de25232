//! The contours of regions: the line that the draws in an open region lay down, and the area that
//! it bounds once it is closed (Gerber Layer Format Specification, 4.10).
#![tactic(auto)]

mod contour;

pub use contour::{AddFault, CloseFault, Contour, Leg};
