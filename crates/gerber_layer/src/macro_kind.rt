//! Kinds of refusal where a file may have macros.
ghost use Rattle.std.specs.Prelude.{◌≡◌};
ghost use Rattle.gerber_layer.specs.MacroKinds.{flatten_row};
ghost use Rattle.gerber_layer.specs.MacroTable.{kind_of_macro};

use aperture_macros::MacroFault;
use file_reading::{FileFault, RefusalKind, name_of};
use gerber_reading::GerberKind;

/// Why a command of a copper file is refused where the file may have aperture macros. Sections are
/// those of the Gerber Layer Format Specification; the numbers are from 1 to 37.
#[derive(Clone, Copy, Debug, PartialEq, Eq)]
pub enum FlattenKind {
    /// As of a file without macros, with the same number and name.
    Gerber(GerberKind),
    /// A macro with no name or that of a standard aperture, a word of a body that is no primitive
    /// that is taken, over `MOST_PRIMITIVES` primitives, a parameter that is no decimal, or an outline that does
    /// not end where it begins (4.5).
    BadMacro,
    /// A macro of a name that has one.
    MacroTwice,
    /// An aperture of a macro that is not defined before.
    NoMacro,
    /// A primitive whose exposure is not on.
    ExposureOff,
    /// A primitive that is turned by no quarter turn; of real copper a slanted line, or one of an odd size that is no disc about
    /// the origin.
    Turn,
    /// A vector line that is not along an axis.
    Slanted,
    /// Over `MOST_APERTURES` radii.
    TooManyRadii,
}

impl RefusalKind for FlattenKind {
    ghost row = { flatten_row };

    fn name(self) -> &'static str {
        name_of!(self, FlattenKind(Gerber):
            BadMacro MacroTwice NoMacro ExposureOff Turn Slanted TooManyRadii)
    }

    fn number(self) -> u32 {
        match self {
            FlattenKind::Gerber(kind) => kind.number(),
            FlattenKind::BadMacro => 31,
            FlattenKind::MacroTwice => 32,
            FlattenKind::NoMacro => 33,
            FlattenKind::ExposureOff => 34,
            FlattenKind::Turn => 35,
            FlattenKind::Slanted => 36,
            FlattenKind::TooManyRadii => 37,
        }
    }
}

impl From<MacroFault> for FlattenKind {
    ghost from_gives = { λ fault refusal. refusal ≡ kind_of_macro fault };

    fn from(fault: MacroFault) -> FlattenKind {
        match fault {
            MacroFault::BadMacro => FlattenKind::BadMacro,
            MacroFault::ExposureOff => FlattenKind::ExposureOff,
            MacroFault::Turn => FlattenKind::Turn,
            MacroFault::OffGrid => FlattenKind::Gerber(GerberKind::OffGrid),
            MacroFault::OutOfRange => FlattenKind::Gerber(GerberKind::OutOfRange),
            MacroFault::Slanted => FlattenKind::Slanted,
        }
    }
}

/// Why a copper file that may have macros is not read.
pub type FlattenFault = FileFault<FlattenKind>;
