//! Bytes and whole numbers, put behind a text. Where memory is wanted, the answer is std's own error. After an error the
//! text holds anything.
ghost use Rattle.std.specs.Fmt.{decimal, signed_decimal};
ghost use Rattle.std.specs.Prelude.{◌≡◌, ◌+◌, ◌/◌, ◌%◌, ◌<◌, ◌∷◌, ◌++◌, OnOk};
ghost use Rattle.texts.specs.LastDigits.{last_digits};

use crate::numerals::Numeral;
use std::alloc::AllocError;

/// Puts bytes. It is inlined, so that a few known bytes are stored directly and not copied by a call.
#[inline(always)]
pub fn put(text: &mut Vec<u8>, bytes: &[u8]) -> Result<(), AllocError>
    ensures { OnOk result (text.new.items ≡ text.old.items ++ bytes.now) }
{
    text.extend_from_slice(bytes)
}

/// Puts a number.
pub fn put_number(text: &mut Vec<u8>, n: u64) -> Result<(), AllocError>
    ensures { OnOk result (text.new.items ≡ text.old.items ++ decimal n) }
{
    put(text, Numeral::of(n).as_bytes())
}

/// Puts a signed number.
pub fn put_signed(text: &mut Vec<u8>, z: i64) -> Result<(), AllocError>
    ensures { OnOk result (text.new.items ≡ text.old.items ++ signed_decimal z) }
{
    put(text, Numeral::signed(z).as_bytes())
}

/// Puts a blank and a number. Most numbers of a report's sources have one digit, so that has a way of its own, which is inlined.
#[inline(always)]
pub fn put_blank_number(text: &mut Vec<u8>, n: u64) -> Result<(), AllocError>
    ensures { OnOk result (text.new.items ≡ text.old.items ++ (32 ∷ decimal n)) }
{
    if n < 10 {
        return put(text, &[b' ', b'0' + n as u8]);
    }
    put_behind(text, b' ', n)
}

/// Puts a byte and a number. Digits are stored five at a time, which takes less than a copy from a buffer.
pub fn put_behind(text: &mut Vec<u8>, byte: u8, n: u64) -> Result<(), AllocError>
    ensures { OnOk result (text.new.items ≡ text.old.items ++ (byte ∷ decimal n)) }
{
    if n < 100_000 {
        return put_few(text, byte, n);
    }
    let front = n / 100_000;
    if front < 100_000 {
        put_few(text, byte, front)?;
        return put_last_five(text, n);
    }
    put_from_buffer(text, byte, n)
}

// The same from a buffer.
#[inline(never)]
fn put_from_buffer(text: &mut Vec<u8>, byte: u8, n: u64) -> Result<(), AllocError>
    ensures { OnOk result (text.new.items ≡ text.old.items ++ (byte ∷ decimal n)) }
{
    put(text, Numeral::behind(byte, n).as_bytes())
}

/// The two digits of each number below 100.
static PAIRS: [u8; 200] =
    *b"00010203040506070809101112131415161718192021222324252627282930313233343536373839404142434445464748495051525354555657585960616263646566676869707172737475767778798081828384858687888990919293949596979899";

// Both digits of a number below 100.
#[inline(always)]
fn pair(n: u32) -> (u8, u8)
    requires { n < 100 }
    ensures tens { result.0 ≡ 48 + n / 10 }
    ensures ones { result.1 ≡ 48 + n % 10 }
{
    let at = n as usize * 2;
    (PAIRS[at], PAIRS[at + 1])
}

// Puts a byte and a number of at most five digits, two of them by one division. Where there is room for them no call is made. Most
// numbers of a long report have many digits, so those are asked first.
fn put_few(text: &mut Vec<u8>, byte: u8, n: u64) -> Result<(), AllocError>
    requires { n < 100_000 }
    ensures { OnOk result (text.new.items ≡ text.old.items ++ (byte ∷ decimal n)) }
{
    if text.capacity() - text.len() < 6 {
        return put_from_buffer(text, byte, n);
    }
    let few = n as u32;
    if few < 100 {
        return put_two(text, byte, few);
    }
    let hundreds = few / 100;
    if few >= 10_000 {
        let first = b'0' + (hundreds / 100) as u8;
        let (second, third) = pair(hundreds % 100);
        let (tens, ones) = pair(few % 100);
        return put(text, &[byte, first, second, third, tens, ones]);
    }
    if few >= 1_000 {
        let (first, second) = pair(hundreds);
        let (tens, ones) = pair(few % 100);
        return put(text, &[byte, first, second, tens, ones]);
    }
    let (tens, ones) = pair(few % 100);
    put(text, &[byte, b'0' + hundreds as u8, tens, ones])
}

// Puts a byte and a number of at most two digits.
fn put_two(text: &mut Vec<u8>, byte: u8, n: u32) -> Result<(), AllocError>
    requires { n < 100 }
    ensures { OnOk result (text.new.items ≡ text.old.items ++ (byte ∷ decimal n)) }
{
    if n < 10 {
        return put(text, &[byte, b'0' + n as u8]);
    }
    let (tens, ones) = pair(n);
    put(text, &[byte, tens, ones])
}

// Puts the last five digits of a number.
fn put_last_five(text: &mut Vec<u8>, n: u64) -> Result<(), AllocError>
    ensures { OnOk result (text.new.items ≡ text.old.items ++ last_digits 5 n) }
{
    let last = (n % 100_000) as u32;
    let hundreds = last / 100;
    let (second, third) = pair(hundreds % 100);
    let (tens, ones) = pair(last % 100);
    let first = b'0' + (hundreds / 100) as u8;
    put(text, &[first, second, third, tens, ones])
}

/// Puts a blank and a signed number.
pub fn put_blank_signed(text: &mut Vec<u8>, z: i64) -> Result<(), AllocError>
    ensures { OnOk result (text.new.items ≡ text.old.items ++ (32 ∷ signed_decimal z)) }
{
    let amount = z.unsigned_abs();
    if z < 0 {
        put(text, b" ")?;
        return put_behind(text, b'-', amount);
    }
    put_behind(text, b' ', amount)
}

/// Puts so many digits of a number, its last ones.
pub fn put_last_digits(text: &mut Vec<u8>, count: u8, n: u64) -> Result<(), AllocError>
    ensures { OnOk result (text.new.items ≡ text.old.items ++ last_digits count n) }
{
    if count == 0 {
        return Ok(());
    }
    put_last_digits(text, count - 1, n / 10)?;
    put(text, &[b'0' + (n % 10) as u8])
}
