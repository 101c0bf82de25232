//! Whole numbers as decimal text, without memory: what the report and the lines to the notes print.

ghost use Rattle.std.specs.Fmt.{decimal, signed_decimal};
ghost use Rattle.std.specs.Prelude.{drop, length, ◌≡◌, ◌≤◌, ◌∷◌};

use std::marker::Model;

/// The most bytes of a text: a sign and twenty digits.
const LONGEST: usize = 21;

/// The decimal text of a number, without leading zeros, and with a sign only where it is negative.
#[derive(Drop)]
pub struct Numeral {
    bytes: [u8; LONGEST],
    start: usize,
}

impl Model for Numeral {
    ghost use Rattle.std.specs.Prelude.{List, drop, ℕ, ◌≤◌};

    ghost Value = { List ℕ };

    ghost view = { λ n. drop n.start n.bytes };

    ghost invariant = { λ n. n.start ≤ 21 };
}

impl Numeral {
    /// The text of n.
    pub fn of(n: u64) -> Numeral
        ensures { result ≡ decimal n }
    {
        let mut bytes = [0; LONGEST];
        let start = write_digits(n, &mut bytes);
        Numeral { bytes, start }
    }

    /// The text of z.
    pub fn signed(z: i64) -> Numeral
        ensures { result ≡ signed_decimal z }
    {
        let mut bytes = [0; LONGEST];
        let mut start = write_digits(z.unsigned_abs(), &mut bytes);
        if z < 0 {
            start -= 1;
            bytes[start] = b'-';
        }
        Numeral { bytes, start }
    }

    /// A byte, and behind it the text of n.
    pub fn behind(byte: u8, n: u64) -> Numeral
        ensures { result ≡ byte ∷ decimal n }
    {
        let mut bytes = [0; LONGEST];
        let start = write_digits(n, &mut bytes) - 1;
        bytes[start] = byte;
        Numeral { bytes, start }
    }

    /// The bytes of the text.
    pub fn as_bytes(&self) -> &[u8]
        ensures { result.now ≡ self.now }
    {
        &self.bytes[self.start..]
    }
}

// Writes the digits to the end of the buffer, and answers where they start.
fn write_digits(n: u64, buffer: &mut [u8; LONGEST]) -> usize
    ensures start { (1 ≤ result) × (result ≤ 21) }
    ensures long { length buffer.new ≡ 21 }
    ensures written { drop result buffer.new ≡ decimal n }
{
    let mut left = n;
    let mut at = LONGEST;
    while left >= 10 {
        at -= 1;
        buffer[at] = b'0' + (left % 10) as u8;
        left /= 10;
    }
    at -= 1;
    buffer[at] = b'0' + left as u8;
    at
}
