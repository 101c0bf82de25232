//! Kinds of refusal.
ghost use Rattle.std.specs.Prelude.{◌≡◌};
ghost use Rattle.xnc.specs.Kind.{row_of};

use file_reading::{RefusalKind, name_of};
use lengths::decimal::GridFault;

/// Why a drill file is refused. The forms of lines are this project's profile of the XNC Format
/// Specification.
#[derive(Clone, Copy, Debug, PartialEq, Eq)]
pub enum DrillKind {
    /// A line before `M48` that is neither empty nor a comment.
    NoHeader = 1,
    /// A line of no known form, or of none that may stand there; a unit after the other unit; a
    /// file function that is none of `Plated`, `NonPlated`, `MixedPlating`.
    BadLine,
    /// A diameter or a place before the unit.
    MissingUnit,
    /// A selection of a tool that is not defined, or a hit, a slot or `M15` where none is
    /// selected.
    NoTool,
    /// A second definition of a tool's number.
    ToolTwice,
    /// A diameter or a coordinate without a point.
    ImpliedDecimals,
    /// A coordinate that is no whole number of u (0.1 nm), or a diameter that is no even one.
    OffGrid,
    /// A coordinate over 1 m from 0, or a diameter that is not above 0 or is over 50 mm.
    OutOfRange,
    /// A line that begins with `G02` or `G03`.
    ArcRout,
    /// A line that asks for the other mode, or for the tool the other way, up or down.
    WrongMode,
    /// A file function that names other layers than the span.
    WrongSpan,
    /// A file function of holes that are not plated.
    NotPlated,
    /// A file function of plated and other holes.
    MixedPlating,
    /// The file's end before `M30`.
    NotEnded,
    /// A line after `M30` that is neither empty nor a comment.
    AfterEnd,
    /// A barrel where the room for pieces is used up.
    TooManyPieces,
    /// A definition after `MOST_TOOLS` others.
    TooManyTools,
}

/// Why a drill file is not read: its first faulty line, with its number from 1 and the offset of
/// its first byte, or want of memory.
#[derive(Clone, Copy, Debug, PartialEq, Eq)]
pub enum DrillFault {
    Refused {
        kind: DrillKind,
        /// The number of the line, from 1.
        line: u32,
        /// The place of its first byte in the file, from 0.
        at: usize,
    },
    /// Memory is wanted.
    NoMemory,
}

impl From<GridFault> for DrillKind {
    ghost use Rattle.xnc.specs.DrillEffects.{kind_of_grid};

    ghost from_gives = { λ fault kind. kind ≡ kind_of_grid fault };

    fn from(fault: GridFault) -> DrillKind {
        fault.choose(DrillKind::OffGrid, DrillKind::OutOfRange)
    }
}

impl RefusalKind for DrillKind {
    ghost row = { row_of };

    fn name(self) -> &'static str {
        name_of!(self, DrillKind:
            NoHeader BadLine MissingUnit NoTool ToolTwice ImpliedDecimals OffGrid OutOfRange
            ArcRout WrongMode WrongSpan NotPlated MixedPlating NotEnded AfterEnd TooManyPieces
            TooManyTools)
    }

    fn number(self) -> u32 {
        self as u32
    }
}
