//! The command `between REAL LOWER UPPER COUNTS`: builds the board of REAL, which may have arcs and macros, and those of LOWER and UPPER,
//! checks by the counts that they bound it, judges both, and puts what is certain of the real board and what is undecided.
//!
//! 0: nothing is certain or undecided, so the real board agrees, whatever its copper is of those that its files allow. 1: something
//! certain differs, or it is undecided; the line says which. 3: the first refusal of a package, an arc or a macro of REAL that is not
//! taken, or the boards are no bounds, and the line says why.
ghost use Rattle.arc_covers.specs.Counts.{AreCounts};
ghost use Rattle.board_package.specs.HandedBoard.{ComesHanded, IsBoardHanded, IsFirstStopHanded};
ghost use Rattle.board_shapes.specs.Plain.{plain_board};
ghost use Rattle.boardnet.specs.Answers.{behind_of};
ghost use Rattle.reports.specs.Notes.{line_of, status_of};
ghost use Rattle.boardnet.specs.Bounded.{AreBoundedBy, HasOtherNetlist};
ghost use Rattle.reports.specs.Decision.{IsDecisionOn};
ghost use Rattle.boardnet.specs.Command.{asked};
ghost use Rattle.boardnet.specs.HandedOutcome.{HasHandedReason, WorksOn};
ghost use Rattle.boardnet.specs.Kept.{Leaves, LeftBy, Spares};
ghost use Rattle.boardnet.specs.Outcome.{HandedOver};
ghost use Rattle.boardnet.specs.Unbounded.{IsBehindReason, IsInRange, IsNoCounts, IsNotTaken, IsUnboundedBy};
ghost use Rattle.boardnet.specs.Words.{Between, IsText, bound_names};
ghost use Rattle.boardnet.specs.commands.Between.{AreRead};
ghost use Rattle.real_package.specs.RealBoards.{HasNetlistOf, plain_real_board};
ghost use Rattle.std.specs.Prelude.{IfErr, IfNone, IfOk, IfSome, IsTrue, length, ◌≡◌, ◌↔◌};

use crate::answer::{Answered, Unanswered};
use crate::commands::Command;
use crate::refusing::name_of;
use crate::unbound::Unbound;
use arc_covers::{BoundsFault, Counts, CountsFault, Side, check_between, read_counts};
use board_io::Package;
use board_package::{BuildFault, build, take_file};
use board_shapes::Board;
use lengths::rows::NoMemory;
use lengths::text::{Text, is_text};
use real_package::{RealBoard, build_real, has_its_netlist};
use reports::{Answer, decision_on};
use std::alloc::Global;

// The names of the three manifests, and of the file of counts.
#[derive(Drop)]
struct Names {
    real: Text,
    lower: Text,
    upper: Text,
    counts: Text,
}

// The boards of the three packages.
#[derive(Drop)]
struct Boards {
    real: RealBoard,
    lower: Board,
    upper: Board,
}

fn are_texts(first: &str, second: &str) -> bool
    ensures { IsTrue result ↔ (IsText first.now × IsText second.now) }
{
    is_text(first.as_bytes()) && is_text(second.as_bytes())
}

/// `between REAL LOWER UPPER COUNTS`: the package of REAL, in which draws may be arcs, by those that bound it.
pub fn of_words<'a>(
    real: &'a str,
    lower: &'a str,
    upper: &'a str,
    counts: &'a str,
) -> Option<Command<'a>>
    ensures some { IfSome result (λ given. (asked given ≡ Between (bound_names real.now lower.now upper.now counts.now)) × IsText real.now × IsText lower.now × IsText upper.now × IsText counts.now) }
    ensures none { IfNone result (IsText real.now → IsText lower.now → IsText upper.now → IsText counts.now → ⊥) }
{
    if are_texts(real, lower) && are_texts(upper, counts) {
        Some(Command::Between {
            real,
            lower,
            upper,
            counts,
        })
    } else {
        None
    }
}

/// What is decided of the package of a manifest by two that bound it.
pub fn decision<P: Package>(
    alloc: Global,
    real: &str,
    lower: &str,
    upper: &str,
    counts: &str,
    package: &mut P,
) -> Answered
    requires real { IsText real.now }
    requires lower { IsText lower.now }
    requires upper { IsText upper.now }
    requires counts { IsText counts.now }
    ensures work { WorksOn P.handed P.faults P.lost (Between (bound_names real.now lower.now upper.now counts.now)) «package».old «package».new result }
    ensures leaves { Leaves P.held P.handed P.faults «package».old «package».new }
    ensures spared { Spares LeftBy P.faults P.lost «package».old «package».new result }
{
    let mut file = Vec::new(alloc);
    let names = names_of(alloc, real, lower, upper, counts)?;
    let boards = taken(alloc, names, package, &mut file)?;
    bounded(alloc, &boards, file.as_slice())?;
    Ok(decided(alloc, &boards)?)
}

// Why there is no board of a manifest behind the first, of this name.
fn behind(name: Text, fault: BuildFault) -> Unanswered
    ensures { result ≡ behind_of name fault }
{
    match fault {
        BuildFault::NotJson => Unanswered::NotJson(name),
        BuildFault::BadManifest => Unanswered::NotAManifest(name),
        BuildFault::FrameTooLarge(bounds) => {
            Unanswered::BoundTooLarge {
                manifest: name,
                bounds,
            }
        }
        other => Unanswered::Stopped(other),
    }
}

// The board of a package that bounds another.
fn bound<P: Package>(alloc: Global, name: Text, package: &mut P) -> Result<Board, Unanswered>
    ensures leaves { Leaves P.held P.handed P.faults «package».old «package».new }
    ensures spared { Spares LeftBy P.faults P.lost «package».old «package».new result }
    ensures handed { IfOk result (λ board. IsBoardHanded (P.handed «package».old) (P.handed «package».new) name (plain_board board)) }
    ensures reason { IfErr result (IsBehindReason name (λ stop. IsFirstStopHanded (P.handed «package».old) (P.handed «package».new) name stop) (λ other. ComesHanded (P.handed «package».old) (P.handed «package».new) name other) (P.faults «package».old) (P.faults «package».new) (P.lost «package».new)) }
{
    match build(alloc, &name, package) {
        Ok(board) => Ok(board),
        Err(fault) => Err(behind(name, fault)),
    }
}

// Two names as texts. One function of all four took longer to prove than these two.
fn two_names_of(alloc: Global, first: &str, second: &str) -> Result<(Text, Text), BuildFault>
    requires first { IsText first.now }
    requires second { IsText second.now }
    ensures ok { IfOk result (λ names. (names.0 ≡ first.now) × (names.1 ≡ second.now)) }
    ensures fault { IfErr result (λ fault. fault ≡ BuildFault.NoMemory) }
{
    let first = name_of(alloc, first)?;
    let second = name_of(alloc, second)?;
    Ok((first, second))
}

// The names as texts. The one fault is want of memory.
fn names_of(
    alloc: Global,
    real: &str,
    lower: &str,
    upper: &str,
    counts: &str,
) -> Result<Names, BuildFault>
    requires real { IsText real.now }
    requires lower { IsText lower.now }
    requires upper { IsText upper.now }
    requires counts { IsText counts.now }
    ensures ok { IfOk result (λ names. bound_names names.real names.lower names.upper names.counts ≡ bound_names real.now lower.now upper.now counts.now) }
    ensures fault { IfErr result (λ fault. fault ≡ BuildFault.NoMemory) }
{
    let (real, lower) = two_names_of(alloc, real, lower)?;
    let (upper, counts) = two_names_of(alloc, upper, counts)?;
    Ok(Names {
        real,
        lower,
        upper,
        counts,
    })
}

// Builds the three boards, and then takes the file of counts.
fn taken<P: Package>(
    alloc: Global,
    names: Names,
    package: &mut P,
    file: &mut Vec<u8>,
) -> Result<Boards, Unanswered>
    ensures leaves { Leaves P.held P.handed P.faults «package».old «package».new }
    ensures spared { Spares LeftBy P.faults P.lost «package».old «package».new result }
    ensures handed { IfOk result (λ boards. AreRead (HandedOver (P.handed «package».old) (P.handed «package».new)) (bound_names names.real names.lower names.upper names.counts) (plain_real_board boards.real) (plain_board boards.lower) (plain_board boards.upper) file.new.items) }
    ensures reason { IfErr result (HasHandedReason (HandedOver (P.handed «package».old) (P.handed «package».new)) (Between (bound_names names.real names.lower names.upper names.counts)) (P.faults «package».old) (P.faults «package».new) (P.lost «package».new)) }
{
    let real = build_real(alloc, &names.real, package)?;
    let lower = bound(alloc, names.lower, package)?;
    let upper = bound(alloc, names.upper, package)?;
    take_file(alloc, &names.counts, package, file)?;
    Ok(Boards { real, lower, upper })
}

// The counts that the bytes spell.
fn counted(alloc: Global, bytes: &[u8]) -> Result<Counts, Unanswered>
    ensures ok { IfOk result (λ counts. AreCounts bytes.now counts.lower counts.upper) }
    ensures fault { IfErr result (IsNoCounts bytes.now) }
{
    match read_counts(alloc, bytes) {
        Ok(counts) => Ok(counts),
        Err(CountsFault::Line(line)) => Err(Unanswered::Unbound(Unbound::NotCounts(line))),
        Err(CountsFault::NoMemory) => Err(Unanswered::Stopped(BuildFault::NoMemory)),
    }
}

// The side whose board has other test points, names or layers than the real one.
fn other_netlist(boards: &Boards) -> Option<Side>
    ensures some { IfSome result (λ side. HasOtherNetlist side (plain_real_board boards.now.real) (plain_board boards.now.lower) (plain_board boards.now.upper)) }
    ensures none { IfNone result (HasNetlistOf (plain_real_board boards.now.real) (plain_board boards.now.lower) × HasNetlistOf (plain_real_board boards.now.real) (plain_board boards.now.upper)) }
{
    if !has_its_netlist(&boards.real, &boards.lower) {
        return Some(Side::Below);
    }
    if !has_its_netlist(&boards.real, &boards.upper) {
        return Some(Side::Above);
    }
    None
}

// Why the checks do not take the boards.
fn not_taken(real: &RealBoard, fault: BoundsFault) -> Unanswered
    requires { IsInRange (length real.now.pieces.items) fault }
    ensures { IsNotTaken (plain_real_board real.now) fault result }
{
    match fault {
        BoundsFault::Counts(side) => Unanswered::Unbound(Unbound::Counts(side)),
        BoundsFault::Piece(side, number) => {
            let origin = real.pieces[number].origin;
            Unanswered::Unbound(Unbound::Piece { side, origin })
        }
        BoundsFault::NoMemory => Unanswered::Stopped(BuildFault::NoMemory),
    }
}

// Whether the boards bound the real one by these bytes, or why they do not.
fn bounded(alloc: Global, boards: &Boards, bytes: &[u8]) -> Result<(), Unanswered>
    ensures ok { IfOk result (λ _. AreBoundedBy (plain_real_board boards.now.real) (plain_board boards.now.lower) (plain_board boards.now.upper) bytes.now) }
    ensures fault { IfErr result (IsUnboundedBy (plain_real_board boards.now.real) (plain_board boards.now.lower) (plain_board boards.now.upper) bytes.now) }
{
    let counts = counted(alloc, bytes)?;
    if let Some(side) = other_netlist(boards) {
        return Err(Unanswered::Unbound(Unbound::Netlist(side)));
    }
    match check_between(
        alloc,
        &boards.real.pieces,
        boards.lower.pieces(),
        counts.lower.as_slice(),
        boards.upper.pieces(),
        counts.upper.as_slice(),
    ) {
        Ok(()) => Ok(()),
        Err(fault) => Err(not_taken(&boards.real, fault)),
    }
}

// What right verdicts on both boards decide.
fn decided(alloc: Global, boards: &Boards) -> Result<Answer, NoMemory>
    ensures { IfOk result (λ answer. IsDecisionOn (length (plain_real_board boards.now.real).pieces) (plain_board boards.now.lower) (plain_board boards.now.upper) answer.text.items (status_of answer.note) (line_of answer.note)) }
{
    let count = boards.real.pieces.as_slice().len();
    decision_on(alloc, count, &boards.lower, &boards.upper)
}
