//! Lines, as each is read by itself.
use crate::number::Number;
use lengths::decimal::Unit;
use xnc::line::DrillLine;

/// Which zeros a number without a point has: those in front, or those at its end.
#[derive(Clone, Copy)]
pub enum Zeros {
    Leading,
    Trailing,
}

/// How many digits a number has before its point and behind it.
#[derive(Clone, Copy)]
pub struct Layout {
    pub whole: usize,
    pub places: usize,
}

/// The coordinates that a line names, some without a point.
#[derive(Clone, Copy)]
pub struct Along {
    pub x: Option<Number>,
    pub y: Option<Number>,
}

/// What a line says, apart from all others.
#[derive(Clone, Copy)]
pub enum FormLine {
    /// What it says in `check`'s dialect.
    Says(DrillLine),
    Rout(Along),
    Straight(Along),
    Hit(Along),
    Slot(Along, Along),
    /// A unit, and what numbers without a point are.
    Units(Unit, Option<Zeros>, Option<Layout>),
    /// How many digits such numbers have.
    Counts(Layout),
    /// Whether all tools behind it are plated.
    Lasting(bool),
    /// Whether the next tool is plated.
    Next(bool),
    /// Nothing is said of the next tool.
    Untold,
    /// The file's tools are plated, or some are and some are not.
    Function(bool),
    /// How the machine runs.
    Idle,
    /// `M95`.
    Ends,
    /// `M17`.
    Lift,
}
