//! Why a package is no board.
ghost use Rattle.std.specs.Prelude.{◌≡◌, List, ℕ};
ghost use Rattle.board_package.specs.Causes.{HasRefusal};
ghost use Rattle.board_package.specs.declared.fault.BuildFault.TheVariants as build;
ghost use Rattle.board_package.specs.declared.fault.LabelledFault.TheVariants as fault;

use crate::contents::Refusal;
use contact::Bounds;
use gerber_reading::GerberKind;
use ipc356_records::RecordKind;
use lengths::rows::NoMemory;
use lengths::text::Text;
use std::alloc::AllocError;
use xnc::DrillKind;

/// Why a package gives no board: the first that stops it, in the order of its files, or a fault of reading, or want of
/// memory.
#[derive(Debug, Drop)]
pub enum BuildFault {
    /// `serde_json` reads no value from the manifest.
    NotJson,
    /// The manifest has another form.
    BadManifest,
    /// The file has more than 67,108,864 bytes.
    Longer(Text),
    /// The file could not be read: the package's count of faults rose, and this is its lost name.
    CannotRead(Text),
    /// The copper file is refused, by the first faulty command, from 1, and the place of its first byte, from 0.
    Layer {
        file: Text,
        kind: GerberKind,
        command: u32,
        at: usize,
    },
    /// The drill file is refused, by the first faulty line, from 1, and the place of its first byte, from 0.
    Drill {
        file: Text,
        kind: DrillKind,
        line: u32,
        at: usize,
    },
    /// The netlist is refused, by the first faulty line, from 1.
    Netlist {
        file: Text,
        kind: RecordKind,
        line: u32,
    },
    /// The common box of all pieces, which this is, has a side over 10,000,000,000 u (1 m).
    FrameTooLarge(Bounds),
    /// Memory is wanted.
    NoMemory,
}

/// Why a package gives no labelled board: as `build` has it, or a label that is amiss.
#[derive(Debug, Drop)]
pub enum LabelledFault {
    /// What stops it without its netlist, so never a netlist's refusal; or a fault of reading; or want of memory.
    Build(BuildFault),
    /// A name of a net in the copper file is not 1 to 200 bytes from 32 to 126: the first such word, by its number, from
    /// 1, and the place of its first byte, from 0.
    Label { file: Text, command: u32, at: usize },
}

impl From<AllocError> for BuildFault {
    ghost from_gives = { λ _ f. f ≡ build.NoMemory };

    fn from(_: AllocError) -> BuildFault {
        BuildFault::NoMemory
    }
}

impl From<BuildFault> for LabelledFault {
    ghost from_gives = { λ why f. f ≡ fault.Build why };

    fn from(why: BuildFault) -> LabelledFault {
        LabelledFault::Build(why)
    }
}

impl From<NoMemory> for LabelledFault {
    ghost from_gives = { λ _ f. f ≡ fault.Build build.NoMemory };

    fn from(_: NoMemory) -> LabelledFault {
        LabelledFault::Build(BuildFault::NoMemory)
    }
}

impl From<AllocError> for LabelledFault {
    ghost from_gives = { λ _ f. f ≡ fault.Build build.NoMemory };

    fn from(_: AllocError) -> LabelledFault {
        LabelledFault::Build(BuildFault::NoMemory)
    }
}

/// The fault of a file that is refused, or want of memory for its name.
pub fn refused(name: &Text, refusal: Refusal) -> BuildFault
    ensures { HasRefusal name.now refusal result }
{
    let Ok(file) = name.clone() else {
        return BuildFault::NoMemory;
    };
    match refusal {
        Refusal::Layer { kind, command, at } => {
            BuildFault::Layer {
                file,
                kind,
                command,
                at,
            }
        }
        Refusal::Drill { kind, line, at } => {
            BuildFault::Drill {
                file,
                kind,
                line,
                at,
            }
        }
        Refusal::Netlist { kind, line } => BuildFault::Netlist { file, kind, line },
    }
}
