//! How the readers of files read: item by item, up to the first that has a fault.
//!
//! The definitions (specs/Reading.antt) speak of items of any kind, such as commands and lines, and of
//! any table of what an item does; each reader gives its own table. `Halt` is what stops a reader at an
//! item, `FileFault` why a file of commands is not read, and `RefusalKind` what a report says of a fault
//! (specs/Kinds.antt).
#![tactic(auto)]

mod fault;
mod halt;
mod kind;

pub use fault::FileFault;
pub use halt::Halt;
pub use kind::RefusalKind;
