//! Flattened copper: the text of a copper file without macros, from the pieces of a layer.
//!
//! `flatten` reads a copper file that may have macros (`gerber_layer::read_flat`) and gives the text of its image.
//! The text is a function of the figures (`specs/FlatText.antt`): a format, a unit, a circle for each
//! pen, and then for each figure in order a draw or a region. `write_flat` writes it: `pens` numbers the
//! pens, `lines` puts one line, `flat_text` the whole. The layer above relies on this and on the law
//! of `laws`: the reader of copper files reads exactly these figures from the text.
#![tactic(auto)]

mod flat_text;
mod flattening;
pub mod laws;
mod lines;
mod pens;

pub use flat_text::write_flat;
pub use flattening::flatten;
