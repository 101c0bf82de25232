//! Why a command has no answer.
ghost use Rattle.board_package.specs.declared.fault.BuildFault.TheVariants as build;
ghost use Rattle.boardnet.specs.Answers.{unflat_of, ungapped_of, unlabelled_of, unmade_of, unreal_of};
ghost use Rattle.boardnet.specs.declared.answer.Unanswered.TheVariants as unanswered;
ghost use Rattle.std.specs.Prelude.{◌≡◌};

use crate::unbound::Unbound;
use board_maker::MakeFault;
use board_package::{BuildFault, LabelledFault};
use contact::Bounds;
use gaps::GapFault;
use gerber_layer::{FlattenFault, FlattenKind};
use lengths::rows::NoMemory;
use lengths::text::Text;
use real_copper::RealKind;
use real_package::RealBuildFault;
use reports::Answer;

/// Why a command has no answer.
#[derive(Drop)]
pub enum Unanswered {
    /// The package, or the report behind it, is refused or cannot be read, or memory is wanted.
    Stopped(BuildFault),
    /// The report is the text of no verdict.
    NotAReport,
    /// There is no made board of so many cells.
    SizeTooLarge,
    /// The common box of the pieces, grown by half the distance, has a side over that of a frame.
    GrownTooLarge(Bounds),
    /// A name of a net in the copper file is no text: the word's number, from 1, and the place of its first byte, from 0.
    Mislabelled {
        file: Text,
        command: u32,
        at: usize,
    },
    /// The copper file that may have macros is refused, by its first faulty command, from 1, and the place of its first byte,
    /// from 0.
    Unflat {
        kind: FlattenKind,
        command: u32,
        at: usize,
    },
    /// The copper file is refused for an arc or a macro, by its first faulty command, from 1, and the place of its first byte,
    /// from 0.
    Bent {
        file: Text,
        kind: RealKind,
        command: u32,
        at: usize,
    },
    /// The manifest of this name, behind the first, is not JSON.
    NotJson(Text),
    /// It is JSON and no manifest.
    NotAManifest(Text),
    /// The common box of the pieces of its package has a side over that of a frame.
    BoundTooLarge {
        manifest: Text,
        bounds: Bounds,
    },
    /// Two boards are no bounds of a real one.
    Unbound(Unbound),
}

/// What a command comes to on the package: its answer, or why it has none.
pub type Answered = Result<Answer, Unanswered>;

impl From<BuildFault> for Unanswered {
    ghost from_gives = { λ fault u. u ≡ unanswered.Stopped fault };

    fn from(fault: BuildFault) -> Unanswered {
        Unanswered::Stopped(fault)
    }
}

impl From<LabelledFault> for Unanswered {
    ghost from_gives = { λ fault u. u ≡ unlabelled_of fault };

    fn from(fault: LabelledFault) -> Unanswered {
        match fault {
            LabelledFault::Build(why) => Unanswered::Stopped(why),
            LabelledFault::Label { file, command, at } => {
                Unanswered::Mislabelled { file, command, at }
            }
        }
    }
}

impl From<RealBuildFault> for Unanswered {
    ghost from_gives = { λ fault u. u ≡ unreal_of fault };

    fn from(fault: RealBuildFault) -> Unanswered {
        match fault {
            RealBuildFault::Build(why) => Unanswered::Stopped(why),
            RealBuildFault::Arc {
                file,
                kind,
                command,
                at,
            } => {
                Unanswered::Bent {
                    file,
                    kind,
                    command,
                    at,
                }
            }
        }
    }
}

impl From<NoMemory> for Unanswered {
    ghost from_gives = { λ _ u. u ≡ unanswered.Stopped build.NoMemory };

    fn from(_: NoMemory) -> Unanswered {
        Unanswered::Stopped(BuildFault::NoMemory)
    }
}

impl From<MakeFault> for Unanswered {
    ghost from_gives = { λ fault u. u ≡ unmade_of fault };

    fn from(fault: MakeFault) -> Unanswered {
        match fault {
            MakeFault::SizeTooLarge => Unanswered::SizeTooLarge,
            MakeFault::NoMemory => Unanswered::Stopped(BuildFault::NoMemory),
        }
    }
}

impl From<GapFault> for Unanswered {
    ghost from_gives = { λ fault u. u ≡ ungapped_of fault };

    fn from(fault: GapFault) -> Unanswered {
        match fault {
            GapFault::FrameTooLarge(bounds) => Unanswered::GrownTooLarge(bounds),
            GapFault::NoMemory => Unanswered::Stopped(BuildFault::NoMemory),
        }
    }
}

impl From<FlattenFault> for Unanswered {
    ghost from_gives = { λ fault u. u ≡ unflat_of fault };

    fn from(fault: FlattenFault) -> Unanswered {
        match fault {
            FlattenFault::Refused { kind, command, at } => Unanswered::Unflat { kind, command, at },
            FlattenFault::NoMemory => Unanswered::Stopped(BuildFault::NoMemory),
        }
    }
}
