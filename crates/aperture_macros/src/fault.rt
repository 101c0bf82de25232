//! What is refused.
use thiserror::Error;

/// Why a word of a macro's body, or a primitive with its parameters, is refused.
#[derive(Clone, Copy, Debug, PartialEq, Eq, Error)]
pub enum MacroFault {
    /// The word is none of the forms of a primitive, or an outline's last point is not its first.
    #[error("not a primitive that is taken")]
    BadMacro,
    /// The exposure is not equal to 1.
    #[error("an exposure that is not on")]
    ExposureOff,
    /// In `Exact` copper, the rotation is not equal to 0, 90, 180 or 270 degrees. In `Real` copper, it is no multiple of 90
    /// degrees, of a vector line along no axis or a figure of an odd size that flashes anything: others may have any, and so may
    /// a disc about the origin.
    #[error("a turn that is no quarter turn")]
    Turn,
    /// A term is no whole number of u, of a rotation no whole number of 10^-7 degrees, the first factor of a product none of
    /// 10^-7, a product no whole number of 10^-4 u, or in `Exact` copper a width, a height or the diameter of a circle is an odd
    /// number of u.
    #[error("a length off the grid")]
    OffGrid,
    /// A term, a length or a corner is over 1 m from 0, of a rotation a term or the sum over 1,000 degrees, the first factor of
    /// a product over 1,000, a size or a factor is negative, or a diameter or the width of a vector line along no axis, or of an odd one, is over 50 mm.
    #[error("a length out of range")]
    OutOfRange,
    /// In `Exact` copper, a vector line is along no axis.
    #[error("a slanted line")]
    Slanted,
}

/// Why a primitive gives no shape.
#[derive(Clone, Copy, Debug)]
pub enum FigureFault {
    /// Its lengths are refused, or an end or a corner is over 1 m from 0 in x or y.
    Macro(MacroFault),
    /// Memory is wanted.
    NoMemory,
}
