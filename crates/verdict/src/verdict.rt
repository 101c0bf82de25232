//! A verdict on a board: its nets as trees, the nets of its points, and what is amiss.
ghost use Rattle.std.specs.Prelude.{◌↔◌, IsTrue};

use lengths::rows::Rows;
use lengths::text::Text;

/// A piece of a net, and the piece through which it is joined to the first.
#[derive(Clone, Copy)]
pub struct Twig {
    /// The number of the piece, from 0.
    pub piece: u32,
    /// A piece that it touches and that stands earlier in the net, from 0; `None` at the net's first.
    pub parent: Option<u32>,
}

/// A net as a spanning tree: its pieces, the least first, and each behind its parent.
pub type Tree = Rows<Twig>;

/// The nets, in the order of their first pieces. The number of a net is its place here, from 0.
pub type Trees = Rows<Tree>;

/// A test point and its net.
#[derive(Clone, Copy)]
pub struct PointLine {
    /// The number of its record, from 1.
    pub number: u32,
    /// Its layer, from 1.
    pub layer: u8,
    /// The number of its name, from 0.
    pub name: u32,
    /// The number of the net under it, from 0; `None` where there is no copper.
    pub net: Option<u32>,
}

/// A net on which a name has a point, and that point.
#[derive(Clone, Copy)]
pub struct Seat {
    /// The number of the net, from 0.
    pub net: u32,
    /// The number of the point, from 0.
    pub probe: u32,
}

/// A name on a net, and its first point there.
#[derive(Clone, Copy)]
pub struct Mark {
    /// The number of the name, from 0.
    pub name: u32,
    /// The number of the point, from 0.
    pub probe: u32,
}

/// A name on a further net than its home.
#[derive(Clone, Copy, PartialEq, Eq)]
pub struct Open {
    /// The number of the name, from 0.
    pub name: u32,
    /// The net of the first of its points that has one, from 0.
    pub home: u32,
    /// The further net, from 0.
    pub other: u32,
    /// The first of its points on that net, from 0.
    pub probe: u32,
}

/// The path from a point of a name into its net.
#[derive(Drop)]
pub struct Branch {
    /// The number of the name, from 0.
    pub name: u32,
    /// The first of its points on the net, from 0.
    pub probe: u32,
    /// The pieces from the least one under the point, each before its parent, to the net's first or to one of an
    /// earlier branch; numbers from 0.
    pub pieces: Rows<u32>,
}

/// A net with points of several names.
#[derive(Drop)]
pub struct Short {
    /// The number of the net, from 0.
    pub net: u32,
    /// A path for each name on it, in the order of names.
    pub branches: Rows<Branch>,
}

/// The place of a test point, in u.
#[derive(Clone, Copy)]
pub struct SpotLine {
    /// How far to the right of 0.
    pub x: i64,
    /// How far above 0.
    pub y: i64,
}

/// Where a piece comes from, a file, a command in it and a copy of what that made, and its span of layers.
#[derive(Clone, Copy)]
pub struct SourceLine {
    /// The number of the file, from 0 through the copper files and then the drill files.
    pub file: u32,
    /// The command or line in it, from 1.
    pub command: u32,
    /// The copy of a block, from 0; 0 outside blocks.
    pub copy: u32,
    /// The first layer, from 1.
    pub top: u8,
    /// The last layer, from 1.
    pub bottom: u8,
}

/// What leads from a verdict to the board and its files: the place of each test point, and the source of each piece.
#[derive(Drop)]
pub struct Supplement {
    /// One for each test point, in order.
    pub spots: Rows<SpotLine>,
    /// One for each piece, in order.
    pub sources: Rows<SourceLine>,
}

/// What is said of a board: its nets, the nets of its test points, and what is amiss.
#[derive(Drop)]
pub struct Verdict {
    /// How many pieces there are.
    pub pieces: u32,
    /// The names of nets, in the order of their numbers.
    pub names: Rows<Text>,
    /// The nets as trees.
    pub nets: Trees,
    /// One for each test point, in order.
    pub points: Rows<PointLine>,
    /// Names on several nets, in the order of names.
    pub opens: Rows<Open>,
    /// Nets with several names, in the order of nets.
    pub shorts: Rows<Short>,
    /// The points without a net, from 0, rising.
    pub bare: Rows<u32>,
    /// What leads to the board and its files, if it is there.
    pub more: Option<Supplement>,
}

impl Verdict {
    ghost use Rattle.verdict.specs.ReportText.{Agrees};

    /// Whether nothing is amiss.
    pub fn agrees(&self) -> bool
        ensures { IsTrue result ↔ Agrees self.now }
    {
        self.opens.as_slice().is_empty()
            && self.shorts.as_slice().is_empty()
            && self.bare.as_slice().is_empty()
    }
}
