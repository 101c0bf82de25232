//! How a copper file is read by a dialect, whatever its pieces are made of (Gerber Layer Format Specification).
//!
//! A dialect (`dialect`) says what a word says, a `command`, what a command does, and what pieces are made of: its `Figure`.
//! `reader` has what the commands so far have set (`settings`), defined (`dictionary`, `tool`) and made; `read_by` (`file`) reads all
//! words of a file. The laws stand in `laws`.
#![tactic(auto)]

mod blank;
mod command;
mod command_effects;
mod dialect;
mod dictionary;
mod file;
mod kind;
pub mod laws;
mod parameters;
mod place;
mod reader;
mod settings;
mod tool;

pub use blank::Blank;
pub use command::{Bending, Code, Command, Format};
pub use command_effects::{
    Here, code_of, coordinate, go_behind, halt_of_copy, halt_of_flash, is_drawing, is_finish,
    is_of_layer, next_block, other_format, target,
};
pub use dialect::Dialect;
pub use dictionary::Dictionary;
pub use file::read_by;
pub use kind::{GerberKind, LayerFault};
pub use parameters::read_parameters;
pub use place::Place;
pub use reader::{Reader, refused};
pub use settings::{Curve, Quadrants, Settings};
pub use tool::Tool;

/// The most apertures that a file defines.
pub const MOST_APERTURES: usize = 65_536;

/// The most primitives of a macro.
pub const MOST_PRIMITIVES: usize = 256;

#[cfg(test)]
mod tests;
