//! Why a package is no real board.
ghost use Rattle.std.specs.Prelude.{◌≡◌};
ghost use Rattle.real_package.specs.declared.fault.RealBuildFault.TheVariants as fault;

use board_package::BuildFault;
use lengths::text::Text;
use real_copper::RealKind;

/// Why a package gives no real board: the first that stops it, in the order of its files, or a fault of reading, or want
/// of memory.
#[derive(Debug, Drop)]
pub enum RealBuildFault {
    /// What may stop a board without arcs and macros too; of a copper file any kind of refusal that such a file may have. It
    /// is never the frame, which is not judged.
    Build(BuildFault),
    /// The copper file is refused for an arc or a macro, by the first faulty command, from 1, and the place of its first
    /// byte, from 0. The kind is one that only these have.
    Arc {
        file: Text,
        kind: RealKind,
        command: u32,
        at: usize,
    },
}

impl From<BuildFault> for RealBuildFault {
    ghost from_gives = { λ why f. f ≡ fault.Build why };

    fn from(why: BuildFault) -> RealBuildFault {
        RealBuildFault::Build(why)
    }
}
