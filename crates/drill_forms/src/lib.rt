//! Reads drill files as tools write them.
//!
//! Each line is read by itself, first as `check` reads it and then by further forms (`form_lines`, `form`). By what earlier lines
//! have told (`notes`) it means a line of `check`'s dialect (`meaning`), which the reader of `xnc` obeys (`form_reader`); the
//! barrels of unplated tools are left out. The definition (specs/FormFile.antt) keeps no state.
#![tactic(auto)]

mod form;
mod form_file;
mod form_lines;
mod form_reader;
pub mod laws;
mod meaning;
mod notes;
mod number;

pub use form_file::read_forms;

#[cfg(test)]
mod tests;
