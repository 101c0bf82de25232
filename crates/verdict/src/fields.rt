//! The fields of a report: fixed words and numbers, each read from the front of the bytes.
ghost use Rattle.std.specs.Prelude.{◌≡◌, ◌+◌, ◌<◌, ◌≤◌, [], ◌∷◌, IfErr, IfSome, None, Option, Some, decimal, false, true};
ghost use Rattle.std.specs.List.{list_all};
ghost use Rattle.std.specs.Option.{option_map};
ghost use Rattle.texts.specs.Digits.{is_decimal_digit};
ghost use Rattle.verdict.specs.ReportReading as spec;

use crate::line_number::LineNumber;
use crate::report_reading::ReadFault;
use std::str;
use texts::{Numeral, is_digit};

/// The bytes behind a text, where it stands in front.
#[tactic(auto, unfolding(crate::specs::ReportReading::behind))]
pub fn behind<'a>(bytes: &'a [u8], front: &[u8]) -> Option<&'a [u8]>
    ensures { option_map (λ rest. rest.now) result ≡ spec.behind front.now bytes.now }
{
    bytes.strip_prefix(front)
}

/// The bytes behind a byte, where it stands in front.
#[tactic(auto, unfolding(crate::specs::ReportReading::behind))]
pub fn behind_byte(bytes: &[u8], byte: u8) -> Option<&[u8]>
    ensures { option_map (λ rest. rest.now) result ≡ spec.behind (byte ∷ []) bytes.now }
{
    match bytes {
        [first, rest @ ..] => if *first == byte { Some(rest) } else { None },
        [] => None,
    }
}

/// The same, where the text has to stand there.
pub fn expect<'a>(bytes: &'a [u8], front: &[u8]) -> Result<&'a [u8], ReadFault>
    ensures { spec.Gives (λ rest. rest.now) result (spec.behind front.now bytes.now) }
{
    match behind(bytes, front) {
        Some(rest) => Ok(rest),
        None => Err(ReadFault::NotAReport),
    }
}

/// The same of a byte.
pub fn expect_byte(bytes: &[u8], byte: u8) -> Result<&[u8], ReadFault>
    ensures reads { spec.Gives (λ rest. rest.now) result (spec.behind (byte ∷ []) bytes.now) }
    ensures cause { IfErr result (λ fault. fault ≡ ReadFault.NotAReport) }
{
    match behind_byte(bytes, byte) {
        Some(rest) => Ok(rest),
        None => Err(ReadFault::NotAReport),
    }
}

/// What was read, and the bytes behind the end of its line.
pub fn line_end<T: Drop>(item: T, bytes: &[u8]) -> Result<(T, &[u8]), ReadFault>
    ensures { spec.Gives (λ x. (x.0, x.1.now)) result (spec.line_end item bytes.now) }
{
    let rest = expect_byte(bytes, b'\n')?;
    Ok((item, rest))
}

// So many bytes have room for most numbers, and a byte behind them.
const FRONT: usize = 11;

// How many digits stand in front, and their value where they are at most 18. A front of known length is asked first: it needs no
// test at each byte whether one is there.
#[inline(always)]
fn leading(bytes: &[u8]) -> (usize, u64)
    ensures { spec.IsRun bytes.now result.0 result.1 }
{
    if bytes.len() >= FRONT {
        let (len, value) = run(&bytes[..FRONT]);
        if len < FRONT {
            return (len, value);
        }
    }
    long_run(bytes)
}

// The same, where fewer bytes are left or the number is longer.
#[cold]
#[inline(never)]
fn long_run(bytes: &[u8]) -> (usize, u64)
    ensures { spec.IsRun bytes.now result.0 result.1 }
{
    run(bytes)
}

// How far a byte stands above the digit 0, where one below it wraps round: below ten for a digit alone, of which it is the value.
#[inline(always)]
fn above_zero(byte: u8) -> u64
    ensures digit { result < 10 → is_decimal_digit byte ≡ true }
    ensures value { result < 10 → byte ≡ 48 + result }
    ensures other { 10 ≤ result → is_decimal_digit byte ≡ false }
{
    u64::from(byte).wrapping_sub(48)
}

// How many digits stand in front, and their value where they are at most 18. It is inlined where the length is known.
#[inline(always)]
fn run(bytes: &[u8]) -> (usize, u64)
    ensures { spec.IsRun bytes.now result.0 result.1 }
{
    let mut value: u64 = 0;
    for (i, byte) in bytes.iter().enumerate() {
        let digit = above_zero(*byte);
        if digit >= 10 {
            return (i, value);
        }
        value = value.wrapping_mul(10).wrapping_add(digit);
    }
    (bytes.len(), value)
}

// Whether digits are a number without leading zeros.
fn is_numeral(digits: &[u8]) -> bool
    ensures { result ≡ spec.is_numeral digits.now }
{
    match digits {
        [] => false,
        [_] => true,
        [first, ..] => *first != b'0',
    }
}

// The value of digits of any number. Few reports have such numbers, so the way of the others stays short.
#[cold]
#[inline(never)]
fn value_of(digits: &[u8]) -> Option<u64>
    requires digits { list_all is_decimal_digit digits.now ≡ true }
    requires some { spec.is_numeral digits.now ≡ true }
    ensures { result ≡ spec.value_of digits.now }
{
    match str::from_utf8(digits) {
        Ok(text) => text.parse::<u64>().ok(),
        Err(_) => None,
    }
}

/// A number below 2^64. It is inlined, so that what it gives is not stored to be read again.
#[inline(always)]
#[tactic(auto, unfolding(crate::specs::ReportReading::wide_at))]
pub fn wide(bytes: &[u8]) -> Result<(u64, &[u8]), ReadFault>
    ensures reads { spec.Gives (λ x. (x.0, x.1.now)) result (spec.wide_at bytes.now) }
    ensures cause { IfErr result (λ fault. fault ≡ ReadFault.NotAReport) }
{
    let (len, value) = leading(bytes);
    let (digits, rest) = bytes.split_at(len);
    if !is_numeral(digits) {
        return Err(ReadFault::NotAReport);
    }
    if len <= 18 {
        return Ok((value, rest));
    }
    match value_of(digits) {
        Some(n) => Ok((n, rest)),
        None => Err(ReadFault::NotAReport),
    }
}

// A number of two to eighteen digits, as most are, where one stands in front. It is told with few tests, and inlined, so that
// what it gives is not stored to be read again.
#[inline(always)]
fn usual_wide(bytes: &[u8]) -> Option<(u64, &[u8])>
    ensures { IfSome result (λ x. spec.wide_at bytes.now ≡ Some (x.0, x.1.now)) }
{
    let (len, value) = leading(bytes);
    if len >= 2 && len <= 18 && bytes[0] > b'0' {
        let (_, rest) = bytes.split_at(len);
        return Some((value, rest));
    }
    None
}

// The same below 2^32.
#[inline(always)]
#[tactic(auto, using(crate::proofs::Usual::number_reads))]
fn usual_number(bytes: &[u8]) -> Option<(u32, &[u8])>
    ensures { IfSome result (λ x. spec.number_at bytes.now ≡ Some (x.0, x.1.now)) }
{
    let (n, rest) = usual_wide(bytes)?;
    if n >= 4_294_967_296 {
        return None;
    }
    Some((n as u32, rest))
}

/// A number below 2^32. Mostly it is a usual one.
#[inline(always)]
pub fn number(bytes: &[u8]) -> Result<(u32, &[u8]), ReadFault>
    ensures reads { spec.Gives (λ x. (x.0, x.1.now)) result (spec.number_at bytes.now) }
    ensures cause { IfErr result (λ fault. fault ≡ ReadFault.NotAReport) }
{
    match usual_number(bytes) {
        Some((n, rest)) => Ok((n, rest)),
        None => any_number(bytes),
    }
}

// The same of any digits.
#[cold]
#[inline(never)]
#[tactic(auto, unfolding(crate::specs::ReportReading::number_at))]
fn any_number(bytes: &[u8]) -> Result<(u32, &[u8]), ReadFault>
    ensures reads { spec.Gives (λ x. (x.0, x.1.now)) result (spec.number_at bytes.now) }
    ensures cause { IfErr result (λ fault. fault ≡ ReadFault.NotAReport) }
{
    let (n, rest) = wide(bytes)?;
    match u32::try_from(n) {
        Ok(n) => Ok((n, rest)),
        Err(_) => Err(ReadFault::NotAReport),
    }
}

/// The bytes behind the text of a line's number, where it has to stand there.
#[inline(always)]
pub fn expect_line_number(bytes: &[u8], line: LineNumber) -> Result<&[u8], ReadFault>
    ensures { spec.Gives (λ rest. rest.now) result (spec.behind (decimal line.number) bytes.now) }
{
    match line.behind(bytes) {
        Some(rest) => Ok(rest),
        None => expect_written(bytes, line.number),
    }
}

// The same by writing the number: of lines from 10,000,000 on, and where fewer than eight bytes are left.
#[cold]
#[inline(never)]
fn expect_written(bytes: &[u8], number: u64) -> Result<&[u8], ReadFault>
    ensures { spec.Gives (λ rest. rest.now) result (spec.behind (decimal number) bytes.now) }
{
    expect(bytes, Numeral::of(number).as_bytes())
}

/// A blank and a number below 2^32.
#[inline(always)]
#[tactic(auto, unfolding(crate::specs::ReportReading::word_at))]
pub fn word(bytes: &[u8]) -> Result<(u32, &[u8]), ReadFault>
    ensures reads { spec.Gives (λ x. (x.0, x.1.now)) result (spec.word_at bytes.now) }
    ensures cause { IfErr result (λ fault. fault ≡ ReadFault.NotAReport) }
{
    let rest = expect_byte(bytes, b' ')?;
    number(rest)
}

/// A blank and a usual number, where they stand in front.
#[inline(always)]
pub fn usual_word(bytes: &[u8]) -> Option<(u32, &[u8])>
    ensures { IfSome result (λ x. spec.word_at bytes.now ≡ Some (x.0, x.1.now)) }
{
    match behind_byte(bytes, b' ') {
        Some(rest) => usual_number(rest),
        None => None,
    }
}

/// A blank and a usual number, where they stand in front. Mostly it is the number after the line's, as that of a record is: then it is
/// compared at once.
#[inline(always)]
pub fn word_after(bytes: &[u8], line: LineNumber) -> Option<(u32, &[u8])>
    ensures { IfSome result (λ x. spec.word_at bytes.now ≡ Some (x.0, x.1.now)) }
{
    match next_word(bytes, line) {
        Some((n, rest)) => Some((n, rest)),
        None => usual_word(bytes),
    }
}

// A blank and the number after the line's, where they stand in front.
#[inline(always)]
fn next_word(bytes: &[u8], line: LineNumber) -> Option<(u32, &[u8])>
    ensures { IfSome result (λ x. spec.word_at bytes.now ≡ Some (x.0, x.1.now)) }
{
    if line.number >= 4_294_967_295 {
        return None;
    }
    let digits = behind_byte(bytes, b' ')?;
    let next = line.next();
    let rest = next.behind(digits)?;
    if begins_digit(rest) {
        return None;
    }
    Some((next.number as u32, rest))
}

// The value of a digit; none exactly where the byte is no digit.
fn digit_value(byte: u8) -> Option<u8>
    ensures some { IfSome result (λ d. (d < 10) × (byte ≡ 48 + d)) }
    ensures none { result ≡ None → is_decimal_digit byte ≡ false }
{
    if is_digit(byte) {
        Some(byte - b'0')
    } else {
        None
    }
}

// A number of one digit, where such a number stands in front.
fn one_digit(bytes: &[u8]) -> Option<(u8, &[u8])>
    ensures { IfSome result (λ x. (x.0 < 10) × (spec.number_at bytes.now ≡ Some (x.0, x.1.now))) }
{
    let Some((digit, rest)) = bytes.split_first() else {
        return None;
    };
    if begins_digit(rest) {
        return None;
    }
    let value = digit_value(*digit)?;
    Some((value, rest))
}

/// A blank and a number of one digit, where such a number stands in front.
#[inline(always)]
pub fn short(bytes: &[u8]) -> Option<(u8, &[u8])>
    ensures { IfSome result (λ x. (x.0 < 10) × (spec.word_at bytes.now ≡ Some (x.0, x.1.now))) }
{
    match behind_byte(bytes, b' ') {
        Some(rest) => one_digit(rest),
        None => None,
    }
}

/// Three numbers of one digit, each behind a blank, and the end of the line, where they stand in front.
#[inline(always)]
pub fn short_end(bytes: &[u8]) -> Option<(u8, u8, u8, &[u8])>
    ensures { IfSome result (λ x. spec.IsShortEnd bytes.now x.0 x.1 x.2 x.3.now) }
{
    match bytes {
        [b' ', first, b' ', second, b' ', third, b'\n', rest @ ..] => {
            let first = digit_value(*first)?;
            let second = digit_value(*second)?;
            let third = digit_value(*third)?;
            Some((first, second, third, rest))
        }
        _ => None,
    }
}

/// A title, a number below 2^32 and the end of the line.
#[tactic(auto, unfolding(crate::specs::ReportReading::titled_at))]
pub fn titled<'a>(bytes: &'a [u8], title: &[u8]) -> Result<(u32, &'a [u8]), ReadFault>
    ensures { spec.Gives (λ x. (x.0, x.1.now)) result (spec.titled_at title.now bytes.now) }
{
    let rest = expect(bytes, title)?;
    let (n, rest) = word(rest)?;
    line_end(n, rest)
}

// So much below zero, from 1 to 2^63.
fn negated(n: u64) -> Option<i64>
    ensures { result ≡ spec.negated n }
{
    let less = n.checked_sub(1)?;
    match i64::try_from(less) {
        Ok(less) => Some(-1 - less),
        Err(_) => None,
    }
}

// A number below 2^63, or a minus and a number from 1 to 2^63.
#[inline(always)]
#[tactic(auto, unfolding(crate::specs::ReportReading::signed_at))]
fn signed(bytes: &[u8]) -> Result<(i64, &[u8]), ReadFault>
    ensures { spec.Gives (λ x. (x.0, x.1.now)) result (spec.signed_at bytes.now) }
{
    match behind_byte(bytes, b'-') {
        None => {
            let (n, rest) = wide(bytes)?;
            match i64::try_from(n) {
                Ok(z) => Ok((z, rest)),
                Err(_) => Err(ReadFault::NotAReport),
            }
        }
        Some(rest) => {
            let (n, rest) = wide(rest)?;
            match negated(n) {
                Some(z) => Ok((z, rest)),
                None => Err(ReadFault::NotAReport),
            }
        }
    }
}

/// A blank and a signed number.
#[inline(always)]
#[tactic(auto, unfolding(crate::specs::ReportReading::signed_word_at))]
pub fn signed_word(bytes: &[u8]) -> Result<(i64, &[u8]), ReadFault>
    ensures { spec.Gives (λ x. (x.0, x.1.now)) result (spec.signed_word_at bytes.now) }
{
    let rest = expect_byte(bytes, b' ')?;
    signed(rest)
}

/// A blank and a number of two to eighteen digits, as most places have, where they stand in front.
#[inline(always)]
#[tactic(auto, using(crate::proofs::Usual::place_reads))]
pub fn usual_place(bytes: &[u8]) -> Option<(i64, &[u8])>
    ensures { IfSome result (λ x. spec.signed_word_at bytes.now ≡ Some (x.0, x.1.now)) }
{
    let digits = behind_byte(bytes, b' ')?;
    let (n, rest) = usual_wide(digits)?;
    match i64::try_from(n) {
        Ok(z) => Some((z, rest)),
        Err(_) => None,
    }
}

/// A blank and a number below 2^8.
pub fn layer(bytes: &[u8]) -> Result<(u8, &[u8]), ReadFault>
    ensures { spec.Gives (λ x. (x.0, x.1.now)) result (spec.layer_at bytes.now) }
{
    match short(bytes) {
        Some((n, rest)) => Ok((n, rest)),
        None => long_layer(bytes),
    }
}

// The same of any number of digits.
#[cold]
#[inline(never)]
#[tactic(auto, unfolding(crate::specs::ReportReading::layer_at))]
fn long_layer(bytes: &[u8]) -> Result<(u8, &[u8]), ReadFault>
    ensures { spec.Gives (λ x. (x.0, x.1.now)) result (spec.layer_at bytes.now) }
{
    let (n, rest) = word(bytes)?;
    match u8::try_from(n) {
        Ok(n) => Ok((n, rest)),
        Err(_) => Err(ReadFault::NotAReport),
    }
}

/// A blank, a count and the end of the line.
#[tactic(auto, unfolding(crate::specs::ReportReading::count_at))]
pub fn count(bytes: &[u8]) -> Result<(u64, &[u8]), ReadFault>
    ensures { spec.Gives (λ x. (x.0, x.1.now)) result (spec.count_at bytes.now) }
{
    let rest = expect_byte(bytes, b' ')?;
    let (n, rest) = wide(rest)?;
    line_end(n, rest)
}

/// The parent of a twig, where a colon follows its piece.
#[tactic(auto, unfolding(crate::specs::ReportReading::parent_at))]
pub fn parent(bytes: &[u8]) -> Result<(Option<u32>, &[u8]), ReadFault>
    ensures { spec.Gives (λ x. (x.0, x.1.now)) result (spec.parent_at bytes.now) }
{
    match behind_byte(bytes, b':') {
        None => Ok((None, bytes)),
        Some(rest) => {
            let (parent, rest) = number(rest)?;
            Ok((Some(parent), rest))
        }
    }
}

/// A usual number behind a colon, or none where no colon stands in front.
#[inline(always)]
#[tactic(auto, unfolding(crate::specs::ReportReading::parent_at))]
pub fn usual_parent(bytes: &[u8]) -> Option<(Option<u32>, &[u8])>
    ensures { IfSome result (λ x. spec.parent_at bytes.now ≡ Some (x.0, x.1.now)) }
{
    match behind_byte(bytes, b':') {
        None => Some((None, bytes)),
        Some(digits) => {
            let (parent, rest) = usual_number(digits)?;
            Some((Some(parent), rest))
        }
    }
}

/// The net of a point, or a minus for none.
#[tactic(auto, unfolding(crate::specs::ReportReading::net_number_at))]
pub fn net_number(bytes: &[u8]) -> Result<(Option<u32>, &[u8]), ReadFault>
    ensures { spec.Gives (λ x. (x.0, x.1.now)) result (spec.net_number_at bytes.now) }
{
    match behind(bytes, b" -") {
        Some(rest) => Ok((None, rest)),
        None => {
            let (net, rest) = word(bytes)?;
            Ok((Some(net), rest))
        }
    }
}

// Whether a digit stands in front.
fn begins_digit(bytes: &[u8]) -> bool
    ensures { result ≡ spec.starts is_decimal_digit bytes.now }
{
    match bytes {
        [first, ..] => is_digit(*first),
        [] => false,
    }
}

/// Whether a blank stands in front.
pub fn begins_blank(bytes: &[u8]) -> bool
    ensures { result ≡ spec.begins_blank bytes.now }
{
    match bytes {
        [first, ..] => *first == b' ',
        [] => false,
    }
}
