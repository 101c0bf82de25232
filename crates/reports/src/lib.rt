//! What is said of a board: the texts that the commands answer, each with its status and its line, and the lines of the notes. No call here
//! takes a file.
//!
//! - `judged`: the right verdict on a board, and the report on it.
//! - `ruling`: the ruling on a report on a board.
//! - `gap_list`: its gaps; `netlist`: a netlist of its copper; `summary`: that of a made board.
//! - `decision`: what two boards decide of one between them, by `findings`, as `between_text` writes it.
//! - `answer`: a text, and what the line about it says; `lines`: the lines, put without memory; `pieces`: texts from pieces.
//! - `laws`: right verdicts on small boards are small.
#![tactic(auto)]

mod answer;
mod between_text;
mod decision;
mod findings;
mod gap_list;
mod judged;
pub mod laws;
pub mod lines;
mod netlist;
mod pieces;
mod ruling;
mod summary;

pub use answer::{Answer, Note};
pub use decision::decision_on;
pub use gap_list::gap_list_on;
pub use judged::{Version, report_on, verdict_of, verdict_on};
pub use netlist::netlist_on;
pub use ruling::ruled;
pub use summary::summary_of;
