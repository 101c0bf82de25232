//! Reads netlists as tools write them: as `ipc356_records`, with the further forms of specs/NetLines.antt. Each line means a line of
//! `check`'s dialect, which the reader of `ipc356_records` obeys.
#![tactic(auto)]

pub mod laws;
mod net_file;
mod net_lines;

pub use net_file::read_forms;

#[cfg(test)]
mod tests;
