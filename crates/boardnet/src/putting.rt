//! What is put for a command: its text to the output in one piece, and a line to the notes.
ghost use Rattle.boardnet.specs.Answers.{RefusesFor};
ghost use Rattle.boardnet.specs.Command.{asked};
ghost use Rattle.boardnet.specs.Ends.{Puts};
ghost use Rattle.reports.specs.Lines.{Gains, GainsFrontOf, Rose, Says, plain_line};
ghost use Rattle.std.specs.Prelude.{IfOk, MatchResult, [], codes, false, true, ◌++◌, ◌∷◌, ◌≡◌, ◌≤◌};

use crate::answer::Answered;
use crate::commands::Command;
use crate::refusing::refuse;
use board_io::{Put, Sink};
use reports::lines;

/// Puts the answer to a command and the line about it, or the line that says why there is none, and answers the status.
pub fn conclude<S: Sink, N: Sink>(
    command: Command,
    given: Answered,
    out: &mut S,
    notes: &mut N,
) -> u8
    ensures put { MatchResult given
        (λ answer. Puts S.got S.faults N.got N.faults answer out.old out.new notes.old notes.new result)
        (λ why. RefusesFor (asked command.entry) why result (Says N.got N.faults notes.old notes.new) × (out.new ≡ out.old)) }
    ensures handed { IfOk given (λ answer. S.handed out.new ≡ S.handed out.old ++ answer.text.items ∷ []) }
    ensures delivered { result ≤ 1 → S.faults out.new ≡ S.faults out.old }
    ensures later { (S.faults out.old ≤ S.faults out.new) × (N.faults notes.old ≤ N.faults notes.new) }
{
    match given {
        Ok(answer) => {
            if !put_text(answer.text.as_slice(), out, notes) {
                return 5;
            }
            answer.note.put(notes);
            answer.note.status()
        }
        Err(why) => refuse(command, &why, notes),
    }
}

// Puts the text, and where that fails the line about it.
fn put_text<S: Sink, N: Sink>(text: &[u8], out: &mut S, notes: &mut N) -> bool
    ensures whole { result ≡ true → Gains (S.got out.old) text.now (S.got out.new) × (notes.new ≡ notes.old) }
    ensures faultless { result ≡ true → S.faults out.new ≡ S.faults out.old }
    ensures handed { S.handed out.new ≡ S.handed out.old ++ text.now ∷ [] }
    ensures front { result ≡ false → Rose (S.faults out.old) (S.faults out.new) × GainsFrontOf (S.got out.old) text.now (S.got out.new)
        × Says N.got N.faults notes.old notes.new (plain_line (codes "output cannot be written")) }
    ensures later { (S.faults out.old ≤ S.faults out.new) × (N.faults notes.old ≤ N.faults notes.new) }
{
    if out.put(text) == Put::Failed {
        lines::plain(notes, b"output cannot be written");
        return false;
    }
    true
}
