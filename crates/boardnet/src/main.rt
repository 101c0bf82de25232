//! boardnet: does the copper of a bare board join exactly the points that its netlist joins?
//!
//! `run` is the top call. The words of the command line are judged (`words`). Each command does its work in a file of its own,
//! whose head says what it takes, puts and answers (`commands`), and has an answer, or a reason why there is none (`answer`).
//! `boards` has the board of a package; what is said of it is told by the crate `reports`. `unbound` says why two boards are no bounds of
//! one between them. The text goes to the output, and a line to the notes (`putting`, `refusing`). `certified` is a check with the
//! audit of its report. The laws stand in `laws`.
#![tactic(auto)]

mod answer;
mod boards;
mod certified;
mod commands;
pub mod laws;
mod putting;
mod refusing;
pub mod run;
#[cfg(test)]
mod tests;
mod unbound;
mod words;

use board_io::{FolderPackage, StreamSink};
use run::run;
use std::env;
use std::io::ErrorKind;
use std::process::ExitCode;

/// The status where the system does not give the words of the command line.
const NO_WORDS: u8 = 7;

/// The status where memory for the words is wanted.
const NO_MEMORY: u8 = 6;

// The words after the program's name.
fn words_of(rt: &HostRuntime) -> Result<Vec<String>, u8> {
    let args = match env::args(rt) {
        Ok(args) => args,
        Err(error) if error.kind() == ErrorKind::OutOfMemory => return Err(NO_MEMORY),
        Err(_) => return Err(NO_WORDS),
    };
    args.skip(1).collect(rt.alloc()).map_err(|_| NO_MEMORY)
}

fn main(rt: HostRuntime) -> ExitCode {
    let status = match words_of(&rt) {
        Ok(words) => {
            let mut out = StreamSink::new(rt.stdout());
            let mut notes = StreamSink::new(rt.stderr());
            let alloc = rt.alloc();
            let mut package = FolderPackage::new(rt);
            run(alloc, words.as_slice(), &mut package, &mut out, &mut notes)
        }
        Err(status) => status,
    };
    ExitCode::from(status)
}
