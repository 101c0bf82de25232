//! The commands: the words that ask for each, and its work, which has a file of its own (`gap`
//! for `gaps`, since no module may be named as a library is).
ghost use Rattle.boardnet.specs.Command.{asked};
ghost use Rattle.boardnet.specs.Ends.{HasNames};
ghost use Rattle.boardnet.specs.HandedOutcome.{WorksOn};
ghost use Rattle.boardnet.specs.Kept.{Leaves, LeftBy, Spares};
ghost use Rattle.boardnet.specs.Words.{CanAsk, Command as Asked, IsText, SpelledAsk, Trial};
ghost use Rattle.std.specs.Prelude.{IfNone, IfSome, [], ℕ, ◌∷◌, ◌≡◌};

pub mod audit;
pub mod between;
pub mod check;
pub mod flatten;
pub mod gap;
pub mod trial;
pub mod write;
pub mod x2;

use self::audit::ruling;
use self::between::decision;
use self::check::report;
use self::flatten::flat_text;
use self::gap::gap_list;
use self::trial::summary;
use self::write::netlist;
use self::x2::labelled_report;
use crate::answer::Answered;
use crate::words::MADE_MANIFEST;
use board_io::Package;
use lengths::text::is_text;
use reports::Version;
use std::alloc::Global;

/// What the words ask for. Names of files are texts of 1 to 200 printable bytes.
#[derive(Clone, Copy)]
pub enum Command<'a> {
    /// `check MANIFEST`: check the package of the manifest, with a report of version 2; `check MANIFEST 1`: of version 1.
    Check {
        version: Version,
        manifest: &'a str,
    },
    /// `audit MANIFEST REPORT`: audit the report on the package of the manifest.
    Audit {
        manifest: &'a str,
        report: &'a str,
    },
    /// `trial SEED SIZE`: check the made board of so many cells.
    Trial {
        seed: u64,
        size: u32,
    },
    /// `write MANIFEST`: write a netlist of the package of the manifest.
    Write {
        manifest: &'a str,
    },
    /// `gaps MANIFEST NANOMETRES`: list the nets of the package that come that close.
    Gaps {
        manifest: &'a str,
        nanometres: u32,
    },
    /// `x2 MANIFEST`: check the package of the manifest by the net names in its copper files.
    X2 {
        manifest: &'a str,
    },
    /// `flatten FILE`: rewrite the copper file without macros.
    Flatten {
        file: &'a str,
    },
    /// `between REAL LOWER UPPER COUNTS`: judge the package of REAL, which may have arcs and macros, by those of LOWER and UPPER.
    Between {
        real: &'a str,
        lower: &'a str,
        upper: &'a str,
        counts: &'a str,
    },
}

impl<'a> Command<'a> {
    ghost use Rattle.boardnet.specs.Answers.{subject_of, report_or_counts_of};

    /// The name of the manifest, or of the copper file, that it is about.
    pub fn subject(self) -> &'a str
        ensures { result.now ≡ subject_of (asked self.entry) }
    {
        match self {
            Command::Check { manifest, .. } => manifest,
            Command::Audit { manifest, .. } => manifest,
            Command::Trial { .. } => MADE_MANIFEST,
            Command::Write { manifest } => manifest,
            Command::Gaps { manifest, .. } => manifest,
            Command::X2 { manifest } => manifest,
            Command::Flatten { file } => file,
            Command::Between { real, .. } => real,
        }
    }

    /// The name of its report, or of its file of counts; empty where it has none.
    pub fn report(self) -> &'a str
        ensures { result.now ≡ report_or_counts_of (asked self.entry) }
    {
        match self {
            Command::Audit { report, .. } => report,
            Command::Between { counts, .. } => counts,
            _ => "",
        }
    }
}

/// The command of a word and a name.
pub fn of_name<'a>(command: &str, name: &'a str) -> Option<Command<'a>>
    ensures some { IfSome result (λ given. SpelledAsk (command.now ∷ name.now ∷ []) (asked given)) }
    ensures none { IfNone result ((given : Asked) → CanAsk (command.now ∷ name.now ∷ []) given → ⊥) }
{
    if is_text(name.as_bytes()) {
        of_text(command, name)
    } else {
        None
    }
}

// The same of a name that is a text.
fn of_text<'a>(command: &str, name: &'a str) -> Option<Command<'a>>
    requires { IsText name.now }
    ensures some { IfSome result (λ given. SpelledAsk (command.now ∷ name.now ∷ []) (asked given)) }
    ensures none { IfNone result ((given : Asked) → CanAsk (command.now ∷ name.now ∷ []) given → ⊥) }
{
    match command {
        "check" => {
            Some(Command::Check {
                version: Version::Two,
                manifest: name,
            })
        }
        "write" => Some(Command::Write { manifest: name }),
        "x2" => Some(Command::X2 { manifest: name }),
        "flatten" => Some(Command::Flatten { file: name }),
        _ => None,
    }
}

/// The command of a word and two more.
pub fn of_two<'a>(command: &str, first: &'a str, second: &'a str) -> Option<Command<'a>>
    ensures some { IfSome result (λ given. SpelledAsk (command.now ∷ first.now ∷ second.now ∷ []) (asked given)) }
    ensures none { IfNone result ((given : Asked) → CanAsk (command.now ∷ first.now ∷ second.now ∷ []) given → ⊥) }
{
    match command {
        "check" => check::of_words(first, second),
        "audit" => audit::of_words(first, second),
        "trial" => trial::of_words(first, second),
        "gaps" => gap::of_words(first, second),
        _ => None,
    }
}

/// The command of a word and four more.
pub fn of_four<'a>(
    command: &str,
    first: &'a str,
    second: &'a str,
    third: &'a str,
    fourth: &'a str,
) -> Option<Command<'a>>
    ensures some { IfSome result (λ given. SpelledAsk (command.now ∷ first.now ∷ second.now ∷ third.now ∷ fourth.now ∷ []) (asked given)) }
    ensures none { IfNone result ((given : Asked) → CanAsk (command.now ∷ first.now ∷ second.now ∷ third.now ∷ fourth.now ∷ []) given → ⊥) }
{
    match command {
        "between" => between::of_words(first, second, third, fourth),
        _ => None,
    }
}

/// The answer to a command, or why it has none.
pub fn answer_to<P: Package>(alloc: Global, command: Command, package: &mut P) -> Answered
    requires { HasNames (asked command) }
    ensures work { WorksOn P.handed P.faults P.lost (asked command.entry) «package».old «package».new result }
    ensures leaves { Leaves P.held P.handed P.faults «package».old «package».new }
    ensures spared { Spares LeftBy P.faults P.lost «package».old «package».new result }
    ensures untouched { (seed size : ℕ) → asked command.entry ≡ Trial seed size → «package».new ≡ «package».old }
{
    match command {
        Command::Check { version, manifest } => report(alloc, version, manifest, package),
        Command::Audit { manifest, report } => ruling(alloc, manifest, report, package),
        Command::Trial { seed, size } => summary(alloc, seed, size),
        Command::Write { manifest } => netlist(alloc, manifest, package),
        Command::Gaps {
            manifest,
            nanometres,
        } => gap_list(alloc, manifest, nanometres, package),
        Command::X2 { manifest } => labelled_report(alloc, manifest, package),
        Command::Flatten { file } => flat_text(alloc, file, package),
        Command::Between {
            real,
            lower,
            upper,
            counts,
        } => decision(alloc, real, lower, upper, counts, package),
    }
}
