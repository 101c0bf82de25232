//! Primitives.
ghost use Rattle.std.specs.Prelude.{◌≡◌, ◌≤◌, ◌+◌, ◌*◌};
ghost use Rattle.aperture_macros.specs.BodyWord.{row};
ghost use Rattle.aperture_macros.specs.Sized.{IsSized, corners_of, outline_edges};
ghost use Rattle.aperture_macros.specs.declared.TheConstants.{MOST_OUTLINE_EDGES};

/// What a primitive is, by its code: 1, 4, 20, 21 or 5. An outline has so many edges, from 3 to `MOST_OUTLINE_EDGES`, a polygon so many
/// corners, from 3 to 12.
#[derive(Clone, Copy, Debug)]
pub enum Form {
    Circle,
    Outline(u32),
    VectorLine,
    CentreLine,
    Polygon(u32),
}

/// Which primitives are taken: those alone whose figures are exact, or those of real copper, which may be vector
/// lines along no axis, polygons, of odd sizes, and turned by degrees.
#[derive(Clone, Copy, Debug, PartialEq, Eq)]
pub enum Copper {
    Exact,
    Real,
}

/// What stands in a primitive's word: so many parts before its lengths, then sizes and points, of a polygon the
/// other way round, then the rotation, which some may lack.
#[derive(Clone, Copy)]
pub struct Row {
    pub head: u8,
    pub sizes: u8,
    pub points: u16,
    pub needs_rotation: bool,
}

impl Row {
    /// How many lengths there are.
    pub fn count(&self) -> u32
        ensures { result ≡ self.now.sizes + 2 * self.now.points }
    {
        self.sizes as u32 + 2 * self.points as u32
    }
}

impl Form {
    /// What stands in a word of this form.
    pub fn row(self) -> Row
        requires { IsSized self }
        ensures { result ≡ row self }
    {
        let (head, sizes, points, needs_rotation) = match self {
            Form::Circle => (2, 1, 1, false),
            Form::Outline(n) => (3, 0, n as u16 + 1, true),
            Form::VectorLine => (2, 1, 2, true),
            Form::CentreLine => (2, 2, 1, true),
            Form::Polygon(_) => (3, 1, 1, true),
        };
        Row {
            head,
            sizes,
            points,
            needs_rotation,
        }
    }
}

/// How far a primitive is turned about the origin of its macro, counterclockwise.
#[derive(Clone, Copy, Debug, PartialEq, Eq)]
pub enum Rotation {
    Unturned,
    Quarter,
    Half,
    ThreeQuarters,
}

/// How a primitive is turned: by quarter turns, or by the degrees that an expression behind its lengths says. In real copper a
/// circle without a rotation has 0 degrees.
#[derive(Clone, Copy, Debug, PartialEq, Eq)]
pub enum Turning {
    Quarters(Rotation),
    Degrees,
}

/// A primitive of a macro (Gerber Layer Format Specification, 4.5.1). Its lengths stand as they are
/// written, cut at commas: the text is the body word from the first length on.
#[derive(Clone, Copy)]
pub struct Primitive<'a> {
    pub form: Form,
    pub rotation: Turning,
    pub lengths: &'a [u8],
    ghost enough: { 3 ≤ outline_edges form },
    ghost few: { outline_edges form ≤ MOST_OUTLINE_EDGES },
    ghost three: { 3 ≤ corners_of form },
    ghost twelve: { corners_of form ≤ 12 },
}
