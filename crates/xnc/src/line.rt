//! Lines, as each is read by itself.
use crate::kind::DrillKind;
use lengths::decimal::{Decimal, Unit};

/// The coordinates that a line names for a place. What it does not name stays as it was.
#[derive(Clone, Copy)]
pub struct Coordinates {
    pub x: Option<Decimal>,
    pub y: Option<Decimal>,
}

/// What a line says, apart from all others. The end of a file is a form of its own.
#[derive(Clone, Copy)]
pub enum DrillLine {
    /// An empty line or a comment that has no fault.
    Blank,
    /// A comment on the file's function that has this fault.
    Misfit(DrillKind),
    Start,
    Format,
    Absolute,
    Unit(Unit),
    /// A tool's number and its diameter.
    Tool(u32, Decimal),
    HeaderEnd,
    Arc,
    NoTool,
    Select(u32),
    Drill,
    Rout(Coordinates),
    Lower,
    Raise,
    Straight(Coordinates),
    Hit(Coordinates),
    Slot(Coordinates, Coordinates),
    End,
    Unknown,
    Finish,
}
