//! Real copper: what pieces of copper files are made of whose draws and contours may have arcs, apertures holes and odd sizes, and macros
//! slanted lines, turned figures and polygons (Gerber Layer Format Specification, 4.4, 4.5, 4.7, 4.8 and 4.10).
#![tactic(auto)]

mod anchored;
mod aperture;
mod bends;
mod centres;
mod closing;
mod contours;
mod defining;
mod definitions;
mod draw;
mod drawing;
mod flashes;
mod kind;
pub mod laws;
mod leads;
mod moving;
mod obeying;
mod real;
mod sketches;
mod strokes;
mod words;

pub use anchored::Anchored;
pub use aperture::{Hole, OddForm, RealAperture};
pub use definitions::read_real_aperture;
pub use draw::Bend;
pub use flashes::flash;
pub use kind::{RealFault, RealKind};
pub use moving::edges_of;
pub use real::{RealCopper, read_real};
pub use real_shapes::{RealPiece, RealShape};
pub use sketches::primitive_at;

#[cfg(test)]
mod tests;
