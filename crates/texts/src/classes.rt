//! Classes of bytes, and how many bytes of one stand in front of a text.
ghost use Rattle.std.specs.Prelude.{◌≡◌, ◌≤◌, ℕ, Bool, true, length, take};
ghost use Rattle.std.specs.List.{list_all, prefix_len};
ghost use Rattle.texts.specs.Blanks.{is_blank};
ghost use Rattle.texts.specs.Digits.{is_decimal_digit};

use crate::parts;

/// A class of bytes, such as the digits.
pub trait ByteClass {
    /// The bytes of the class.
    ghost member: { ℕ → Bool };

    /// Whether a byte is of the class.
    fn has(byte: u8) -> bool
        ensures { result ≡ member byte };
}

/// How many bytes of the class stand in front.
pub fn run_len<C: ByteClass>(text: &[u8]) -> usize
    ensures value { result ≡ prefix_len C.member text.now }
    ensures within { result ≤ length text.now }
    ensures members { list_all C.member (take result text.now) ≡ true }
{
    for (i, b) in text.iter().enumerate() {
        if !C::has(*b) {
            return i;
        }
    }
    text.len()
}

/// The digits from 0 to 9.
pub struct Digit;

impl ByteClass for Digit {
    ghost member = { is_decimal_digit };

    fn has(byte: u8) -> bool {
        parts::is_digit(byte)
    }
}

/// A tab or a space.
pub struct Blank;

impl ByteClass for Blank {
    ghost member = { is_blank };

    fn has(byte: u8) -> bool {
        parts::is_blank(byte)
    }
}
