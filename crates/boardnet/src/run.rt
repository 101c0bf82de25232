//! The top call.
ghost use Rattle.board_io.specs.Handed.{AgreeWith, Grows, IfAgreed};
ghost use Rattle.board_maker.specs.declared.TheConstants.{MOST_CELLS};
ghost use Rattle.boardnet.specs.Command.{asked};
ghost use Rattle.boardnet.specs.Ends.{Ends, HasNames};
ghost use Rattle.boardnet.specs.HandedOutcome.{EndsHanded};
ghost use Rattle.boardnet.specs.Kept.{Keeps, Leaves};
ghost use Rattle.reports.specs.Lines.{Gains, GainsFrontOf, Rose, Says, file_line, plain_line};
ghost use Rattle.boardnet.specs.Outcome.{ComesFor, Fits, HandedOver, Held, AreBounded, IsAnswer, IsBoardOf, IsDecided, IsFlatText, IsGapped, IsHeld, IsLabelledBoardOf, IsLabelledReport, IsReadWithMacros, IsReport, IsTextOf, IsTrialReport, IsWritten, OfFilesRead, OutcomeOf, PlainBoard, PlainPiece, Refused, Told, grown_common};
ghost use Rattle.boardnet.specs.Words.{Asks, BoundNames, Command as Asked, IsAudit, IsBetween, IsCheck, IsFlatten, IsGaps, IsTrial, IsUnderstood, IsWrite, IsX2, Trial, Version, Write, Flatten};
ghost use Rattle.verdict.specs.declared.verdict.Verdict.{Verdict};
ghost use Rattle.std.specs.Prelude.{IfSome, List, Some, [], codes, ◌++◌, ◌∷◌, pos, ℕ, ◌*◌, ◌↔◌, ◌≡◌, ◌≢◌, ◌≤◌, ◌⊎◌};

use crate::commands::{Command, answer_to};
use crate::putting::conclude;
use crate::words::command_of;
use arc_covers::laws as bounds;
use board_io::{Package, Sink};
use board_package::laws as packages;
use gerber_layer::laws as layers;
use made_files::made_packages_fit;
use real_package::laws as reals;
use reports::lines;
use std::alloc::Global;

/// Does what the words ask for, and answers the status.
///
/// What each command takes and puts, and what 0, 1 and 3 mean of it, stands at the head of its file in `commands`.
///
/// | Status | When |
/// |---|---|
/// | 0 | `out` got the command's text in one piece, which finds no fault |
/// | 1 | so it did, and the text finds one, or that of `between` leaves something undecided |
/// | 2 | the words are no command; nothing was taken |
/// | 3 | the first refusal of what the command reads; the line says which, with its file, kind and place where it has them |
/// | 4 | a fault of reading; the line says which file |
/// | 5 | a fault of writing; `out` got a front of the text |
/// | 6 | want of memory |
pub fn run<P: Package, S: Sink, N: Sink>(
    alloc: Global,
    words: &[String],
    package: &mut P,
    out: &mut S,
    notes: &mut N,
) -> u8
    ensures status { result ≤ 6 }
    ensures words { (result ≡ 2) ↔ (IsUnderstood words.now → ⊥) }
    ensures untouched { (result ≡ 2) ⊎ ((seed size : ℕ) × IsTrial words.now seed size) → «package».new ≡ «package».old }

    // A clause with `IfSome (P.held ..)` or `OfFilesRead` speaks of a package that tells its files, and of a trial, of those that
    // it makes; what `out` and `notes` got is said of sinks that tell it.

    // 0 and 1 on `check`: the package fits, and `out` got the text of a right verdict on its board.
    ensures right { result ≤ 1 → IfSome (P.held «package».old) (λ files. (version : Version) (name : List ℕ) → IsCheck words.now version name
        → (text line : List ℕ) × IsReport (Held files) version name text result line
        × Gains (S.got out.old) text (S.got out.new) × Says N.got N.faults notes.old notes.new line) }

    // Of whatever package and sinks, also those that tell nothing: what is said of 0, 1, 3, 4 and 5 of the files that the
    // package tells is said of what it handed over in this call, entry by entry, so that a name that was taken twice is no hole. 0 and 1:
    // the files of the command's order were handed over, one by one, and nothing else (of a trial, which takes none, `untouched`
    // says it); `out` was handed exactly one text, in one piece, and it is the command's text for these very bytes. 3: the refusal
    // is the first of these very bytes. 4: the file comes next behind them. 5: `out` was handed such a text in one piece, and got a
    // front of it.
    ensures handed { (command : Asked) → Asks words.now command → EndsHanded (HandedOver (P.handed «package».old) (P.handed «package».new)) command (P.lost «package».new) S.handed S.got N.got N.faults out.old out.new notes.old notes.new result }

    // The same at 0 and 1, command by command: the text is what the command answers of these very bytes.
    ensures handed_right { result ≤ 1 → (version : Version) (name : List ℕ) → IsCheck words.now version name
        → (text line : List ℕ) × IsReport (HandedOver (P.handed «package».old) (P.handed «package».new)) version name text result line
        × (S.handed out.new ≡ S.handed out.old ++ text ∷ []) × Gains (S.got out.old) text (S.got out.new) × Says N.got N.faults notes.old notes.new line }
    ensures handed_ruling { result ≤ 1 → (manifest report : List ℕ) → IsAudit words.now manifest report
        → (text line : List ℕ) × IsAnswer (HandedOver (P.handed «package».old) (P.handed «package».new)) manifest report text result line
        × (S.handed out.new ≡ S.handed out.old ++ text ∷ []) × Gains (S.got out.old) text (S.got out.new) × Says N.got N.faults notes.old notes.new line }
    ensures handed_netlist { result ≤ 1 → (name : List ℕ) → IsWrite words.now name
        → (text line : List ℕ) × IsWritten (HandedOver (P.handed «package».old) (P.handed «package».new)) name text result line
        × (S.handed out.new ≡ S.handed out.old ++ text ∷ []) × Gains (S.got out.old) text (S.got out.new) × Says N.got N.faults notes.old notes.new line }
    ensures handed_gaps { result ≤ 1 → (name : List ℕ) (nanometres : ℕ) → IsGaps words.now name nanometres
        → (text line : List ℕ) × IsGapped (HandedOver (P.handed «package».old) (P.handed «package».new)) name nanometres text result line
        × (S.handed out.new ≡ S.handed out.old ++ text ∷ []) × Gains (S.got out.old) text (S.got out.new) × Says N.got N.faults notes.old notes.new line }
    ensures handed_labels { result ≤ 1 → (name : List ℕ) → IsX2 words.now name
        → (text line : List ℕ) × IsLabelledReport (HandedOver (P.handed «package».old) (P.handed «package».new)) name text result line
        × (S.handed out.new ≡ S.handed out.old ++ text ∷ []) × Gains (S.got out.old) text (S.got out.new) × Says N.got N.faults notes.old notes.new line }
    ensures handed_image { result ≤ 1 → (name : List ℕ) → IsFlatten words.now name
        → (text line : List ℕ) × IsFlatText (HandedOver (P.handed «package».old) (P.handed «package».new)) name text result line
        × (S.handed out.new ≡ S.handed out.old ++ text ∷ []) × Gains (S.got out.old) text (S.got out.new) × Says N.got N.faults notes.old notes.new line }
    ensures handed_between { result ≤ 1 → (names : BoundNames) → IsBetween words.now names
        → (text line : List ℕ) × IsDecided (HandedOver (P.handed «package».old) (P.handed «package».new)) names text result line
        × (S.handed out.new ≡ S.handed out.old ++ text ∷ []) × Gains (S.got out.old) text (S.got out.new) × Says N.got N.faults notes.old notes.new line }

    // It follows that what is said above and below of the files that the package tells holds of all files that agree with what it
    // handed over in this call. On `check`, and of each command by its outcome.
    ensures agreed_right { result ≤ 1 → IfAgreed (P.handed «package».old) (P.handed «package».new) (λ files. (version : Version) (name : List ℕ) → IsCheck words.now version name
        → (text line : List ℕ) × IsReport (Held files) version name text result line
        × Gains (S.got out.old) text (S.got out.new) × Says N.got N.faults notes.old notes.new line) }
    ensures agreed { IfAgreed (P.handed «package».old) (P.handed «package».new) (λ files. (command : Asked) → Asks words.now command → Ends (λ p. Some files) P.faults P.lost S.got S.faults N.got N.faults command «package».old «package».new out.old out.new notes.old notes.new result) }

    // Under every status, what was handed over in this call stands behind what had been handed over before it, and what a package
    // tells that it holds agrees with it: so what is said of the one and of the other is said of the same bytes. Of a package that
    // tells nothing the second clause says nothing.
    ensures grows { Grows (P.handed «package».old) (P.handed «package».new) }
    ensures consistent { IfSome (P.held «package».old) (λ files. AgreeWith files (P.handed «package».old) (P.handed «package».new)) }

    // 0 and 1: the output's count of faults is what it was.
    ensures delivered { result ≤ 1 → S.faults out.new ≡ S.faults out.old }

    // 0 and 1 on `audit`: the package fits, and `out` got the ruling on the verdict whose text the report is.
    ensures audited { result ≤ 1 → IfSome (P.held «package».old) (λ files. (manifest report : List ℕ) → IsAudit words.now manifest report
        → (text line : List ℕ) × IsAnswer (Held files) manifest report text result line
        × Gains (S.got out.old) text (S.got out.new) × Says N.got N.faults notes.old notes.new line) }

    // 0 and 1 on `trial`: `out` got the summary of a right verdict on the made board.
    ensures tried { result ≤ 1 → (seed size : ℕ) → IsTrial words.now seed size
        → (text line : List ℕ) × IsTrialReport seed size text result line
        × Gains (S.got out.old) text (S.got out.new) × Says N.got N.faults notes.old notes.new line }

    // 0 and 1 on `write`, which is 0: the package fits, and `out` got the written netlist of a right verdict on its board.
    ensures written { result ≤ 1 → IfSome (P.held «package».old) (λ files. (name : List ℕ) → IsWrite words.now name
        → (text line : List ℕ) × IsWritten (Held files) name text result line
        × Gains (S.got out.old) text (S.got out.new) × Says N.got N.faults notes.old notes.new line) }

    // 0 and 1 on `gaps`: the package fits, and `out` got the list of its gaps between the nets of a right verdict.
    ensures gapped { result ≤ 1 → IfSome (P.held «package».old) (λ files. (name : List ℕ) (nanometres : ℕ) → IsGaps words.now name nanometres
        → (text line : List ℕ) × IsGapped (Held files) name nanometres text result line
        × Gains (S.got out.old) text (S.got out.new) × Says N.got N.faults notes.old notes.new line) }

    // 0 and 1 on `x2`: the package fits without its netlist, and `out` got the text of a right verdict on its labelled board.
    ensures labelled { result ≤ 1 → IfSome (P.held «package».old) (λ files. (name : List ℕ) → IsX2 words.now name
        → (text line : List ℕ) × IsLabelledReport (Held files) name text result line
        × Gains (S.got out.old) text (S.got out.new) × Says N.got N.faults notes.old notes.new line) }

    // 0 and 1 on `flatten`, which is 0: `out` got the text of the file's image, which each layer to `MOST_LAYERS`, in
    // a room of `MOST_PIECES` pieces and `MOST_FLAT_EDGES` edges, reads as the same copper.
    ensures flattened { result ≤ 1 → IfSome (P.held «package».old) (λ files. (name : List ℕ) → IsFlatten words.now name
        → (text line : List ℕ) × IsFlatText (Held files) name text result line
        × Gains (S.got out.old) text (S.got out.new) × Says N.got N.faults notes.old notes.new line) }

    // 0 and 1 on `between`: LOWER and UPPER fit, REAL and COUNTS are read, the boards of LOWER and UPPER bound that of REAL, and `out` got what right
    // verdicts on both decide. Under 0 each board with the pieces, test points,
    // names and layers of REAL, whatever copper they have of those that its files allow, agrees with
    // its names, and under both what the verdicts say of nets is certain of each: by `laws::bounded_boards_are_decided`, which
    // takes this `IsDecided`, of whatever copper its caller picks.
    ensures between { result ≤ 1 → IfSome (P.held «package».old) (λ files. (names : BoundNames) → IsBetween words.now names
        → (text line : List ℕ) × IsDecided (Held files) names text result line
        × Gains (S.got out.old) text (S.got out.new) × Says N.got N.faults notes.old notes.new line) }

    // `write` and `flatten` judge nothing: 1 never comes.
    ensures unjudged { (name : List ℕ) → IsWrite words.now name ⊎ IsFlatten words.now name → result ≢ 1 }

    // 3: the outcome is a refusal.
    ensures refused { result ≡ 3 → (command : Asked) → Asks words.now command → OfFilesRead command (P.held «package».old) (λ files.
        (line : List ℕ) × OutcomeOf (Held files) command (Refused line) × Says N.got N.faults notes.old notes.new line) }

    // 4: a fault of reading the file in the line, which is one of the command's order; each before it is held and read.
    ensures unreadable { result ≡ 4 → Rose (P.faults «package».old) (P.faults «package».new)
        × Says N.got N.faults notes.old notes.new (file_line (P.lost «package».new) (codes "cannot be read")) }
    ensures unread { result ≡ 4 → (command : Asked) → Asks words.now command → OfFilesRead command (P.held «package».old) (λ files. ComesFor (Held files) command (P.lost «package».new)) }

    // 5: a fault of writing, behind a front of the text.
    ensures unwritable { result ≡ 5 → Rose (S.faults out.old) (S.faults out.new)
        × Says N.got N.faults notes.old notes.new (plain_line (codes "output cannot be written")) }
    ensures front { result ≡ 5 → (command : Asked) → Asks words.now command → OfFilesRead command (P.held «package».old) (λ files.
        (text line : List ℕ) × (status : ℕ) × OutcomeOf (Held files) command (Told text status line) × GainsFrontOf (S.got out.old) text (S.got out.new)) }

    // What is left: the package holds what it held, no count of faults falls, and but under 4 and 6 the package's count and its
    // lost name are as they were.
    ensures kept { Keeps P.held P.faults P.lost «package».old «package».new result }
    ensures later { (S.faults out.old ≤ S.faults out.new) × (N.faults notes.old ≤ N.faults notes.new) }

    ensures silent { 2 ≤ result → result ≢ 5 → out.new ≡ out.old }
    ensures misunderstood { result ≡ 2 → Says N.got N.faults notes.old notes.new (plain_line (codes "words not understood")) }
    ensures memory { result ≡ 6 → Says N.got N.faults notes.old notes.new (plain_line (codes "out of memory")) }

    // A package that fits has its verdict, unless reading or writing fails or memory is wanted.
    ensures complete { IfSome (P.held «package».old) (λ files. (version : Version) (name : List ℕ) → IsCheck words.now version name → (board : PlainBoard) → IsBoardOf files name board
        → (Rose (P.faults «package».old) (P.faults «package».new) → ⊥) → (Rose (S.faults out.old) (S.faults out.new) → ⊥) → (result ≤ 1) ⊎ (result ≡ 6)) }

    // A package that fits has its netlist, unless reading or writing fails or memory is wanted.
    ensures netlisted { IfSome (P.held «package».old) (λ files. (name : List ℕ) → IsWrite words.now name → (board : PlainBoard) → IsBoardOf files name board
        → (Rose (P.faults «package».old) (P.faults «package».new) → ⊥) → (Rose (S.faults out.old) (S.faults out.new) → ⊥) → (result ≤ 1) ⊎ (result ≡ 6)) }

    // A package that fits, also with its pieces grown by half the distance, has its list of gaps, unless reading or writing
    // fails or memory is wanted.
    ensures listed { IfSome (P.held «package».old) (λ files. (name : List ℕ) (nanometres : ℕ) → IsGaps words.now name nanometres → (board : PlainBoard) → IsBoardOf files name board → Fits (grown_common (pos (5 * nanometres)) board.pieces)
        → (Rose (P.faults «package».old) (P.faults «package».new) → ⊥) → (Rose (S.faults out.old) (S.faults out.new) → ⊥) → (result ≤ 1) ⊎ (result ≡ 6)) }

    // A package that fits without its netlist, and whose labels are texts, has its verdict, unless reading or writing fails
    // or memory is wanted.
    ensures named { IfSome (P.held «package».old) (λ files. (name : List ℕ) → IsX2 words.now name → (board : PlainBoard) → IsLabelledBoardOf files name board
        → (Rose (P.faults «package».old) (P.faults «package».new) → ⊥) → (Rose (S.faults out.old) (S.faults out.new) → ⊥) → (result ≤ 1) ⊎ (result ≡ 6)) }

    // A copper file that is held, has at most `MOST_BYTES` bytes and has an image is flattened, unless reading or writing fails or memory is wanted.
    ensures rewritten { IfSome (P.held «package».old) (λ files. (name : List ℕ) → IsFlatten words.now name → (bytes : List ℕ) → IsHeld files name bytes → (pieces : List PlainPiece) → IsReadWithMacros bytes pieces
        → (Rose (P.faults «package».old) (P.faults «package».new) → ⊥) → (Rose (S.faults out.old) (S.faults out.new) → ⊥) → (result ≤ 1) ⊎ (result ≡ 6)) }

    // Packages whose bounds the checks take have what is decided, unless reading or writing fails or memory is wanted.
    ensures bounded { IfSome (P.held «package».old) (λ files. (names : BoundNames) → IsBetween words.now names → AreBounded (Held files) names
        → (Rose (P.faults «package».old) (P.faults «package».new) → ⊥) → (Rose (S.faults out.old) (S.faults out.new) → ⊥) → (result ≤ 1) ⊎ (result ≡ 6)) }

    // A trial of at most `MOST_CELLS` cells has its summary, unless writing fails or memory is wanted: every made package fits.
    ensures summarized { (seed size : ℕ) → IsTrial words.now seed size → size ≤ MOST_CELLS
        → (Rose (S.faults out.old) (S.faults out.new) → ⊥) → (result ≤ 1) ⊎ (result ≡ 6) }

    // Where the package fits and the report is held, has at most `MOST_BYTES` bytes and is the text of a verdict, its ruling follows,
    // unless reading or writing fails or memory is wanted.
    ensures answered { IfSome (P.held «package».old) (λ files. (manifest report : List ℕ) → IsAudit words.now manifest report
        → (board : PlainBoard) (bytes : List ℕ) (verdict : Verdict) → IsBoardOf files manifest board → IsHeld files report bytes → IsTextOf bytes verdict
        → (Rose (P.faults «package».old) (P.faults «package».new) → ⊥) → (Rose (S.faults out.old) (S.faults out.new) → ⊥)
        → ((text line : List ℕ) × IsAnswer (Held files) manifest report text result line) ⊎ (result ≡ 6)) }
{
    made_packages_fit();
    match command_of(words) {
        None => {
            lines::plain(notes, b"words not understood");
            2
        }
        Some(command) => perform(alloc, command, package, out, notes),
    }
}

// Does what a command asks for, and answers the status.
fn perform<P: Package, S: Sink, N: Sink>(
    alloc: Global,
    command: Command,
    package: &mut P,
    out: &mut S,
    notes: &mut N,
) -> u8
    requires { HasNames (asked command) }
    ensures agreed { IfAgreed (P.handed «package».old) (P.handed «package».new) (λ files. Ends (λ p. Some files) P.faults P.lost S.got S.faults N.got N.faults (asked command.entry) «package».old «package».new out.old out.new notes.old notes.new result) }
    ensures ends { Ends P.held P.faults P.lost S.got S.faults N.got N.faults (asked command.entry) «package».old «package».new out.old out.new notes.old notes.new result }
    ensures handed { EndsHanded (HandedOver (P.handed «package».old) (P.handed «package».new)) (asked command.entry) (P.lost «package».new) S.handed S.got N.got N.faults out.old out.new notes.old notes.new result }
    ensures leaves { Leaves P.held P.handed P.faults «package».old «package».new }
    ensures delivered { result ≤ 1 → S.faults out.new ≡ S.faults out.old }
    ensures untouched { (seed size : ℕ) → asked command.entry ≡ Trial seed size → «package».new ≡ «package».old }
    ensures unjudged { (name : List ℕ) → (asked command.entry ≡ Write name) ⊎ (asked command.entry ≡ Flatten name) → result ≢ 1 }
{
    packages::handed_is_held();
    packages::one_outcome();
    packages::one_labelled_outcome();
    layers::one_macro_answer();
    reals::handed_is_held();
    reals::one_real_outcome();
    bounds::counts_are_one();
    let given = answer_to(alloc, command, package);
    conclude(command, given, out, notes)
}
