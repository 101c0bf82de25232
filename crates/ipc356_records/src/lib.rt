//! Reads an IPC-D-356A netlist: its test records as probes, and the names of its nets.
//!
//! `record` has the lines of a file and their columns, and `blanks` the words of a parameter. Each line is read by itself
//! as a form (`record_lines`, `line`); the table of lines says what a form does, or its fault, by what is known before it
//! (`record_effects`, `effect`, `kind`). The reader takes effects on (`reader`) and numbers the names (`names`), and `netlist` reads
//! the whole file. The definition (specs/NetlistFile.antt) keeps no state: it looks back in the list of lines, as
//! `file_reading` says for all files. The laws over the definitions stand in `laws`.
#![tactic(auto)]

pub mod blanks;
mod effect;
mod kind;
pub mod laws;
pub mod line;
mod names;
pub mod netlist;
pub mod reader;
mod record;
mod record_effects;
pub mod record_lines;

pub use kind::{RecordFault, RecordKind};
pub use names::NameTable;
pub use netlist::{Netlist, read_netlist};
pub use record::{Record, Records};

/// The most test records of a netlist.
pub const MOST_RECORDS: u32 = 200_000;
