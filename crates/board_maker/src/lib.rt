//! Made boards: packages of up to 10,000 cells, by a seed and a number of cells, for trials and comparisons.
//!
//! Each cell follows from the seed and its number by one formula (`cell`). The five files are written cell by cell
//! (`files`), and held by a package in memory (`make`).
#![tactic(auto)]

mod cell;
mod files;
pub mod laws;
mod made;

pub use made::{MakeFault, make};

/// The most cells of a made board.
pub const MOST_CELLS: u32 = 10_000;
