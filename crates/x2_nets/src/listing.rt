//! Lists the labels of a file.
ghost use Rattle.std.specs.Prelude.{◌≡◌, ◌+◌, ◌≤◌, ◌<◌, ◌++◌, ℕ, length, Ok, IfOk, IfErr, OnOk};
ghost use Rattle.x2_nets.specs.Labels.{IsFault, IsRead, Rise, judged, label_of, named};
ghost use Rattle.x2_nets.specs.Seen.{IsAmiss, view};

use crate::label_table::Label;
use crate::said::{Said, said_by};
use gerber_words::laws::words_lie_ahead;
use gerber_words::{Step, Words};
use lengths::rows::Rows;
use lengths::text::{Text, TextFault};
use std::alloc::Global;
use texts::MOST_BYTES;

/// Why the labels of a file are not listed.
#[derive(Clone, Copy, Debug, PartialEq, Eq)]
pub enum LabelFault {
    /// The name is not 1 to 200 bytes from 32 to 126: the word's number, from 1, and the place of its first byte, from 0.
    Bad { command: u32, at: usize },
    /// Memory is wanted.
    NoMemory,
}

// The name that the word of this number, at this place, gives.
fn name_of(alloc: Global, text: &[u8], command: u32, at: usize) -> Result<Text, LabelFault>
    ensures good { OnOk result (judged (named text.now) ≡ Ok (named text.now)) }
    ensures same { IfOk result (λ name. name ≡ text.now) }
    ensures fault { IfErr result (IsAmiss (named text.now) command at) }
{
    match Text::new(alloc, text) {
        Ok(name) => Ok(name),
        Err(TextFault::BadText) => Err(LabelFault::Bad { command, at }),
        Err(TextFault::NoMemory) => Err(LabelFault::NoMemory),
    }
}

// Lists what the word of this number, at this place, says.
fn list_word(
    alloc: Global,
    said: Said,
    command: u32,
    at: usize,
    labels: &mut Rows<Label>,
) -> Result<(), LabelFault>
    ensures good { OnOk result (judged (view said.entry) ≡ Ok (view said.entry)) }
    ensures listed { OnOk result (labels.new ≡ labels.old ++ label_of command (view said.entry)) }
    ensures fault { IfErr result (IsAmiss (view said.entry) command at) }
{
    let name = match said {
        Said::Nothing => return Ok(()),
        Said::Unnamed => None,
        Said::Named(text) => Some(name_of(alloc, text, command, at)?),
    };
    let Ok(()) = labels.push(Label { command, name }) else {
        return Err(LabelFault::NoMemory);
    };
    Ok(())
}

/// The labels of a copper file: one for each `TO.N`, `TD` and `TD.N` word, in order, up to the stop of the words.
///
/// A `TO.N` word gives its field 1 as name, or `N/C` where that is missing or empty; the others give none. `Bad` comes
/// exactly at the first `TO.N` word whose field 1 is not empty and no text of 1 to 200 bytes from 32 to 126; want of memory
/// is `NoMemory`. The file has at most `MOST_BYTES` bytes.
pub fn labels(alloc: Global, file: &[u8]) -> Result<Rows<Label>, LabelFault>
    requires size { length file.now ≤ MOST_BYTES }
    ensures ok { IfOk result (λ labels. IsRead file.now labels) }
    ensures rise { IfOk result (λ labels. Rise labels) }
    ensures fault { IfErr result (IsFault file.now) }
{
    words_lie_ahead();
    let mut words = Words::new(file);
    let mut labels = Rows::new(alloc);
    let mut commands = 0u32;
    loop {
        match words.next_word() {
            Step::Word(word) => {
                commands += 1;
                list_word(alloc, said_by(word), commands, word.at, &mut labels)?;
            },
            Step::End => return Ok(labels),
            Step::Broken(_, _) => return Ok(labels),
        }
    }
}
