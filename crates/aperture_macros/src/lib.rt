//! The primitives of aperture macros (Gerber Layer Format Specification, 4.5).
//!
//! `read_body` reads a word in the body of a macro, `Primitive::judge` says whether its lengths are
//! lawful with the parameters of an aperture definition, and `Primitive::figure` is the shape that it
//! flashes. A primitive keeps its lengths as they are written, as a slice of the file: only an area's
//! corners take memory.
//!
//! - `primitive`: what a primitive is.
//! - `fault`: what is refused.
//! - `expression`: how lengths are written.
//! - `body_word`: how a body word is read.
//! - `values`: what lengths are with parameters.
//! - `images`: figures about the origin of the macro.
//! - `fine`: circles and lines of odd sizes in real copper.
//! - `degrees`: how far a primitive is turned in real copper.
//! - `placing`: where a figure is set down.
//! - `outline`: the areas of outlines.
//! - `figure`: figures where they are flashed.
//! - `laws`: what strokes and areas they flash.
#![tactic(auto)]

mod body_word;
mod degrees;
mod expression;
mod fault;
mod figure;
mod fine;
mod images;
pub mod laws;
mod outline;
mod parts;
mod placing;
mod primitive;
mod values;

pub use body_word::read_body;
pub use degrees::Turn;
pub use fault::{FigureFault, MacroFault};
pub use fine::{FineKind, FineSketch};
pub use images::Sketch;
pub use placing::Placing;
pub use primitive::{Copper, Form, Primitive, Rotation, Turning};

/// The most edges of an outline.
pub const MOST_OUTLINE_EDGES: usize = 5000;
