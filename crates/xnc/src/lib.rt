//! Reads the barrels of a drill file, by this project's profile of the XNC Format Specification.
//!
//! A file is its lines (`texts`). Each line is read by itself into a form (`drill_lines`, `line`),
//! and judged by one table, which has a part for the header and one for the body (`drill_effects`), with
//! what earlier lines have set (`settings`, `tools`, `reader`). `drill_file` has the call. The
//! definition (specs/DrillFile.antt) keeps no state: it looks back in the list of lines, as
//! `file_reading` says for all files.
#![tactic(auto)]

mod drill_effects;
mod drill_file;
pub mod drill_lines;
mod effect;
mod kind;
pub mod laws;
pub mod line;
pub mod reader;
pub mod settings;
mod span;
mod tools;

pub use drill_file::read_drill;
pub use kind::{DrillFault, DrillKind};
pub use span::Span;

/// The most tools that a file defines.
pub const MOST_TOOLS: usize = 1000;
