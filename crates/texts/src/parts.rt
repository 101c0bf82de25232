//! Parts of byte texts: what stands before and after a byte, runs of decimal digits, and the blanks at the ends.
//!
//! The readers of all formats look at a text through these few calls. Each gives what std's word on
//! lists says, lends slices of the text and takes no memory.
ghost use Rattle.std.specs.Prelude.{◌≡◌, ◌==◌, ◌+◌, ◌≤◌, true, length, take};
ghost use Rattle.std.specs.List.{after_first, before_first, list_all, list_any, position_or_len, prefix_len};
ghost use Rattle.texts.specs.Blanks as spec;
ghost use Rattle.texts.specs.Digits.{is_decimal_digit};
ghost use Rattle.texts.specs.Words as words;

use crate::classes::{Blank, Digit, run_len};

/// Whether the text is this word.
pub fn is_word(text: &[u8], word: &[u8]) -> bool
    ensures { result ≡ words.is_word text.now word.now }
{
    text == word
}

/// Whether the text begins with this word.
pub fn begins(text: &[u8], front: &[u8]) -> bool
    ensures { result ≡ words.begins text.now front.now }
{
    text.starts_with(front)
}

/// Where a byte first stands, or the length where it does not.
pub fn place_of(text: &[u8], byte: u8) -> usize
    ensures value { result ≡ position_or_len (λ b. b == byte) text.now }
    ensures within { result ≤ length text.now }
{
    for (i, b) in text.iter().enumerate() {
        if *b == byte {
            return i;
        }
    }
    text.len()
}

/// What stands before a byte, or all where it does not stand there.
pub fn before_byte(text: &[u8], byte: u8) -> &[u8]
    ensures { result.now ≡ before_first (λ b. b == byte) text.now }
{
    &text[..place_of(text, byte)]
}

/// What stands after a byte, or nothing where it does not stand there.
pub fn after_byte(text: &[u8], byte: u8) -> &[u8]
    ensures { result.now ≡ after_first (λ b. b == byte) text.now }
{
    let at = place_of(text, byte);
    if at < text.len() {
        &text[at + 1..]
    } else {
        &[]
    }
}

/// Whether a byte stands there.
pub fn has(text: &[u8], byte: u8) -> bool
    ensures { result ≡ list_any (λ b. b == byte) text.now }
{
    text.iter().any(|b| *b == byte)
}

// So many bytes are looked at at once.
const STRIDE: usize = 8;

// Whether each byte is a digit. The loop has no early exit, so that it is compiled to vector code.
#[inline(always)]
fn are_digits(bytes: &[u8; STRIDE]) -> bool
    ensures { result ≡ list_all is_decimal_digit bytes.now }
{
    let mut all = true;
    for b in bytes {
        all &= is_digit(*b);
    }
    all
}

/// How many digits stand in front. Coordinates have about as many as are looked at at once. It is inlined, as a step of a loop over words.
#[inline(always)]
pub fn digits_len(text: &[u8]) -> usize
    ensures value { result ≡ prefix_len is_decimal_digit text.now }
    ensures within { result ≤ length text.now }
    ensures digits { list_all is_decimal_digit (take result text.now) ≡ true }
{
    match text.split_first_chunk::<STRIDE>() {
        Some((front, behind)) => if are_digits(front) {
            STRIDE + run_len::<Digit>(behind)
        } else {
            run_len::<Digit>(text)
        },
        None => run_len::<Digit>(text),
    }
}

/// Whether a byte is a digit.
pub fn is_digit(byte: u8) -> bool
    ensures { result ≡ is_decimal_digit byte }
{
    byte.is_ascii_digit()
}

/// Whether each byte is a digit.
pub fn all_digits(text: &[u8]) -> bool
    ensures { result ≡ list_all is_decimal_digit text.now }
{
    text.iter().all(|b| b.is_ascii_digit())
}

/// Whether a byte is a tab or a space.
pub fn is_blank(byte: u8) -> bool
    ensures { result ≡ spec.is_blank byte }
{
    byte == b'\t' || byte == b' '
}

/// What stands behind the tabs and spaces in front.
pub fn without_front(text: &[u8]) -> &[u8]
    ensures { result.now ≡ spec.without_front text.now }
{
    &text[run_len::<Blank>(text)..]
}

// What stands before the blanks at the end.
fn without_back(text: &[u8]) -> &[u8]
    ensures { result.now ≡ spec.without_back text.now }
{
    let mut len = text.len();
    while len > 0 && is_blank(text[len - 1]) {
        len -= 1;
    }
    &text[..len]
}

/// The text without the tabs and spaces at either end.
pub fn trimmed(text: &[u8]) -> &[u8]
    ensures { result.now ≡ spec.trimmed text.now }
{
    without_back(without_front(text))
}
