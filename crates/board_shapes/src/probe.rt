//! A test point of a board.
use planar::Spot;

/// A test point of a board: one place on one layer that a test record of the netlist names.
#[derive(Clone, Copy, Debug, PartialEq, Eq)]
pub struct Probe {
    /// The number of its test record, from 1.
    pub number: u32,
    /// Its place, in u.
    pub at: Spot,
    /// Its layer, from 1.
    pub layer: u8,
    /// The number of its net name, from 0.
    pub name: u32,
}
