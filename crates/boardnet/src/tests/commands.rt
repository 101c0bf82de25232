// One file of tests for each command.
mod audit;
mod between;
pub mod check;
mod flatten;
mod gap;
mod trial;
mod write;
pub mod x2;
