//! What a line says, as each is read by itself.
use lengths::decimal::Unit;

/// A whole number of steps of the netlist's unit, with its sign apart.
#[derive(Clone, Copy, Debug, PartialEq, Eq)]
pub struct Coordinate {
    pub negative: bool,
    pub steps: u32,
}

/// The fields of a test record, each `None` where it is amiss.
#[derive(Clone, Copy)]
pub struct TestFields<'a> {
    pub name: Option<&'a [u8]>,
    pub access: Option<u32>,
    pub x: Option<Coordinate>,
    pub y: Option<Coordinate>,
}

/// What a line says, apart from all others. The end of a file is its last.
#[derive(Clone, Copy)]
pub enum RecordLine<'a> {
    /// Blank in columns 1 to 57.
    Blank,
    /// A comment, a parameter or a record that says nothing of test points.
    Unread,
    /// The parameter `UNITS`; `None` where its words are amiss.
    Units(Option<Unit>),
    End,
    Continuation,
    Test(TestFields<'a>),
    Unknown,
    Finish,
}
