//! Why real copper is refused.
ghost use Rattle.real_copper.specs.Kinds as spec;
ghost use Rattle.real_copper.specs.Kinds.{real_row};
ghost use Rattle.std.specs.Prelude.{◌≡◌};

use file_reading::{FileFault, RefusalKind, name_of};
use gerber_layer::FlattenKind;
use gerber_reading::GerberKind;

/// Why a command of a copper file with arcs is refused. Sections are those of the Gerber Layer Format
/// Specification.
#[derive(Clone, Copy, Debug, PartialEq, Eq)]
pub enum RealKind {
    /// As where no draw is an arc and no line slanted.
    Copper(FlattenKind),
    /// An arc without `I` and `J` (4.8.2).
    NoOffsets,
    /// Offsets that are not `I` and then `J`, each at most once, or that are those of no arc.
    OffsetsAmiss,
    /// An arc before any `G74` or `G75` (4.7).
    NoQuadrants,
    /// An arc of a single quadrant with no centre, or with two that are as good.
    NoCentre,
}

/// As where there are neither arcs nor macros.
pub fn gerber(kind: GerberKind) -> RealKind
    ensures { result ≡ spec.gerber kind }
{
    RealKind::Copper(FlattenKind::Gerber(kind))
}

impl RefusalKind for RealKind {
    ghost row = { real_row };

    fn name(self) -> &'static str {
        name_of!(self, RealKind(Copper): NoOffsets OffsetsAmiss NoQuadrants NoCentre)
    }

    fn number(self) -> u32 {
        match self {
            RealKind::Copper(kind) => kind.number(),
            RealKind::NoOffsets => 38,
            RealKind::OffsetsAmiss => 39,
            RealKind::NoQuadrants => 40,
            RealKind::NoCentre => 41,
        }
    }
}

/// Why a copper file with arcs is not read.
pub type RealFault = FileFault<RealKind>;
