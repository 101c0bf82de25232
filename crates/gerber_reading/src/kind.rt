//! Kinds of refusal, and how faults of the crates below are refused.
ghost use Rattle.std.specs.Prelude.{◌≡◌};
ghost use Rattle.gerber_reading.specs.Kinds.{row_of};
ghost use Rattle.gerber_reading.specs.CommandEffects.{kind_of_aperture, kind_of_repeat, kind_of_word};

use apertures::ApertureFault;
use file_reading::{FileFault, RefusalKind, name_of};
use gerber_words::WordFault;
use step_repeat::RepeatFault;

/// The kind of a fault: that of the fault's name, or the one that is named behind it.
macro_rules! kind_of {
    ($fault:expr, $of:ident: $($same:ident)*, $($own:ident => $kind:ident),*) => {
        match $fault {
            $($of::$same => GerberKind::$same,)*
            $($of::$own => GerberKind::$kind,)*
        }
    };
}

/// Why a command of a copper file is refused. Sections are those of the Gerber Layer Format
/// Specification; u is a tenth of a nanometre.
#[derive(Clone, Copy, Debug, PartialEq, Eq)]
pub enum GerberKind {
    /// A word that is none of the known ones or has a bad form, or a percent sign where none may
    /// stand.
    BadWord = 1,
    /// A line ends before the word does.
    LineBreakInWord,
    /// The file ends without an end word, in a word or in a pair of percent signs.
    NotEnded,
    /// A word after the end word, whatever it is.
    AfterEnd,
    /// An operation before any format.
    MissingFormat,
    /// An operation, a definition or a step and repeat before any unit.
    MissingUnit,
    /// A format that is not `FSLAX<i><d>Y<i><d>` in range with X as Y, or another than the first (4.2.2).
    BadFormat,
    /// Another unit than the first (4.2.1).
    UnitConflict,
    /// Incremental coordinates.
    Incremental,
    /// Clear polarity (4.9).
    ClearPolarity,
    /// A circular operation (4.7).
    Arc,
    /// An aperture macro, or an aperture of one (4.5).
    Macro,
    /// An aperture block (4.11).
    Block,
    /// A polygon aperture (4.4.5).
    Polygon,
    /// An aperture with a hole (4.4).
    Hole,
    /// Mirroring, rotation, scaling or an offset other than none.
    Transform,
    /// An aperture that is not defined, or an operation with none selected.
    NoAperture,
    /// A definition of a number that is defined (4.3).
    ApertureTwice,
    /// A draw with an aperture that is no circle.
    PenNotCircle,
    /// A word that may not stand in a region, or outside one (4.10).
    NotInRegion,
    /// A contour that does not end where it begins.
    OpenContour,
    /// A closed contour of one or two edges.
    ShortContour,
    /// A position that is no whole number of u, or a size that is no even one.
    OffGrid,
    /// A position, an end or a corner over 1 m from 0, or a size out of range.
    OutOfRange,
    /// The file has another function than this layer of copper (5.6.3).
    WrongLayer,
    /// A negative file (5.6.4).
    NegativeFile,
    /// No room for one more piece, or for the copies of a block.
    TooManyPieces,
    /// No room for the edges, or over `MOST_CONTOUR_EDGES` of them in a contour.
    TooManyVertices,
    /// Coordinates without an operation where the last one is not a draw.
    NoOperation,
    /// Over `MOST_APERTURES` apertures.
    TooManyApertures,
}

impl From<WordFault> for GerberKind {
    ghost from_gives = { λ fault refusal. refusal ≡ kind_of_word fault };

    fn from(fault: WordFault) -> GerberKind {
        kind_of!(fault, WordFault: LineBreakInWord NotEnded, PercentAmiss => BadWord)
    }
}

impl From<ApertureFault> for GerberKind {
    ghost from_gives = { λ fault refusal. refusal ≡ kind_of_aperture fault };

    fn from(fault: ApertureFault) -> GerberKind {
        kind_of!(fault, ApertureFault:
            Hole Polygon Macro OffGrid OutOfRange, BadText => BadWord, Number => BadWord)
    }
}

impl From<RepeatFault> for GerberKind {
    ghost from_gives = { λ fault refusal. refusal ≡ kind_of_repeat fault };

    fn from(fault: RepeatFault) -> GerberKind {
        kind_of!(fault, RepeatFault: OffGrid OutOfRange, BadText => BadWord)
    }
}

impl RefusalKind for GerberKind {
    ghost row = { row_of };

    fn name(self) -> &'static str {
        name_of!(self, GerberKind:
            BadWord LineBreakInWord NotEnded AfterEnd MissingFormat MissingUnit BadFormat
            UnitConflict Incremental ClearPolarity Arc Macro Block Polygon Hole Transform
            NoAperture ApertureTwice PenNotCircle NotInRegion OpenContour ShortContour OffGrid
            OutOfRange WrongLayer NegativeFile TooManyPieces TooManyVertices NoOperation
            TooManyApertures)
    }

    fn number(self) -> u32 {
        self as u32
    }
}

/// Why a copper file is not read.
pub type LayerFault = FileFault<GerberKind>;
