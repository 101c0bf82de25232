//! What earlier commands have set.
use crate::command::{Code, Format};
use lengths::decimal::Unit;
use planar::Spot;
use step_repeat::Repeat;

/// How draws go (4.7).
#[derive(Clone, Copy, Debug, PartialEq, Eq)]
pub enum Curve {
    Line,
    Clockwise,
    Counterclockwise,
}

/// Whether an arc is at most a quarter circle, `G74`, or any, `G75` (4.7).
#[derive(Clone, Copy, Debug, PartialEq, Eq)]
pub enum Quadrants {
    Single,
    Multi,
}

/// What is in force before a command.
#[derive(Clone, Copy)]
pub struct Settings {
    pub format: Option<Format>,
    pub unit: Option<Unit>,
    pub selected: Option<u32>,
    pub at: Spot,
    pub last: Option<Code>,
    pub region: bool,
    /// The word that opened the open block.
    pub block: Option<Repeat>,
    pub ended: bool,
    /// Lines at first. Dialects without arcs leave it so.
    pub curve: Curve,
    pub quadrants: Option<Quadrants>,
}
