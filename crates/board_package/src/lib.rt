//! The board of a package of files.
//!
//! A package is a manifest, which lists the other files (`manifest`), copper files, drill files and a netlist. `build`
//! takes and judges them in that order (`stages`), each with the room that earlier files left (`contents`, `parts`), and
//! gives the board of the package or says what stops it first (`fault`). `build_labelled` goes the same way without the
//! netlist, and gives the board by the net names in the copper files (`labelling`). The laws over the definitions stand in
//! `laws`.
#![tactic(auto)]

mod contents;
mod entry;
mod fault;
mod labelling;
pub mod laws;
mod manifest;
mod parts;
mod stages;
mod values;

pub use contents::Refusal;
pub use entry::{Entry, Role};
pub use fault::{BuildFault, LabelledFault, refused};
pub use manifest::{Manifest, ManifestFault, read_manifest};
pub use parts::{MOST_EDGES, Parts, room_for};
pub use stages::{build, build_labelled, take_file, take_manifest};
