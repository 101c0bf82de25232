//! The words between blanks.
ghost use Rattle.std.specs.Prelude.{not};
ghost use Rattle.texts.specs.Blanks as spec;
ghost use Rattle.ipc356_records.specs.Columns.{NextWord};

use texts::{ByteClass, is_blank, run_len, without_front};

// A byte of a word: neither a tab nor a space.
struct WordByte;

impl ByteClass for WordByte {
    ghost member = { λ b. not (spec.is_blank b) };

    fn has(byte: u8) -> bool {
        !is_blank(byte)
    }
}

/// The first word of a text, and what stands behind it.
pub fn next_word(text: &[u8]) -> Option<(&[u8], &[u8])>
    ensures { NextWord text.now result }
{
    let text = without_front(text);
    if text.is_empty() {
        return None;
    }
    let len = run_len::<WordByte>(text);
    Some((&text[..len], &text[len..]))
}
