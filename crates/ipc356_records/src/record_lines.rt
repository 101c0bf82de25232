//! How a line is read by itself.
ghost use Rattle.std.specs.Prelude.{◌≡◌, ◌==◌, ◌≤◌, ◌<◌, length, Option, Some, None};
ghost use Rattle.std.specs.Option.{option_copied};
ghost use Rattle.std.specs.List.{list_all};
ghost use Rattle.texts.specs.Blanks.{is_blank as blank};
ghost use Rattle.ipc356_records.specs.Columns.{column, filled, words};
ghost use Rattle.ipc356_records.specs.Line.{view, view_fields};
ghost use Rattle.ipc356_records.specs.Lawful.{IsLawfulForm, IsName};
ghost use Rattle.ipc356_records.specs.RecordLines as spec;

use crate::blanks::next_word;
use crate::line::{Coordinate, RecordLine, TestFields};
use crate::record::Record;
use lengths::decimal::{Unit, small_value};
use texts::{all_digits, begins, is_blank, is_word, without_front};

pub fn all_blank(text: &[u8]) -> bool
    ensures { result ≡ list_all blank text.now }
{
    text.iter().all(|byte| is_blank(*byte))
}

fn all_graphic(text: &[u8]) -> bool
    ensures { result ≡ list_all spec.is_graphic text.now }
{
    text.iter().all(|byte| *byte >= 33 && *byte <= 126)
}

// One column, blank past the line's end.
fn column(line: &Record, number: usize) -> u8
    requires { 1 ≤ number }
    ensures { result ≡ column number line.now.text.now }
{
    match line.text.get(number - 1) {
        None => b' ',
        Some(byte) => *byte,
    }
}

// The net name that stands between blanks.
#[tactic(auto, unfolding(crate::specs::RecordLines::name_of))]
fn name_of(name: &[u8]) -> Option<&[u8]>
    requires short { length name.now ≤ 14 }
    ensures lawful { IsName (option_copied result) }
    ensures value { option_copied result ≡ spec.name_of name.now }
{
    if name.is_empty() {
        return Some(b"N/C");
    }
    if all_graphic(name) { Some(name) } else { None }
}

#[tactic(auto, unfolding(crate::specs::RecordLines::digits_in))]
fn digits_in(digits: &[u8]) -> Option<u32>
    requires { length digits.now ≤ 6 }
    ensures { result ≡ spec.digits_in digits.now }
{
    if digits.is_empty() {
        return None;
    }
    if all_digits(digits) {
        Some(small_value(digits))
    } else {
        None
    }
}

// The number in so many columns. Most are coordinates of six digits: where their count is known, the loops over them are unrolled.
fn number_of(text: &[u8], width: usize) -> Option<u32>
    requires width { width ≤ 6 }
    requires within { length text.now ≤ width }
    ensures value { result ≡ spec.number_of (filled width text.now) }
{
    if text.len() < width {
        return None;
    }
    let digits = without_front(text);
    match digits.first_chunk::<6>() {
        Some(six) => digits_in(six),
        None => digits_in(digits),
    }
}

#[tactic(auto, unfolding(crate::specs::RecordLines::access_in))]
fn access_in(line: &Record) -> Option<u32>
    ensures value { result ≡ spec.access_in line.now.text.now }
{
    if column(line, 39) != b'A' {
        return None;
    }
    number_of(line.columns(40, 41), 2)
}

#[tactic(auto, unfolding(crate::specs::RecordLines::signed_number))]
fn signed_number(sign: u8, steps: Option<u32>) -> Option<Coordinate>
    ensures value { result ≡ spec.signed_number sign steps }
{
    let steps = steps?;
    if is_blank(sign) || sign == b'+' || sign == b'-' {
        Some(Coordinate {
            negative: sign == b'-',
            steps,
        })
    } else {
        None
    }
}

// A letter, a sign and a number of six columns, from a column on.
#[tactic(auto, unfolding(crate::specs::RecordLines::coordinate_in))]
fn coordinate_in(line: &Record, letter: u8, at: usize) -> Option<Coordinate>
    requires from_one { 1 ≤ at }
    requires in_line { at ≤ 50 }
    ensures value { result ≡ spec.coordinate_in letter at line.now.text.now }
{
    if column(line, at) != letter {
        return None;
    }
    let steps = number_of(line.columns(at + 2, at + 7), 6);
    signed_number(column(line, at + 1), steps)
}

#[tactic(auto, unfolding(crate::specs::RecordLines::fields_in))]
pub fn fields_in<'a>(line: &Record<'a>) -> TestFields<'a>
    ensures value { view_fields result ≡ spec.fields_in line.now.text.now }
    ensures lawful { IsName (option_copied result.name) }
{
    TestFields {
        name: name_of(line.net()),
        access: access_in(line),
        x: coordinate_in(line, b'X', 42),
        y: coordinate_in(line, b'Y', 50),
    }
}

// The unit that the words behind `UNITS` say.
#[tactic(auto, unfolding(crate::specs::RecordLines::unit_of))]
fn unit_of(text: &[u8]) -> Option<Unit>
    ensures { result ≡ spec.unit_of (words text.now) }
{
    let (word, text) = next_word(text)?;
    let (number, text) = next_word(text)?;
    if next_word(text).is_some() || !is_word(word, b"CUST") {
        None
    } else if is_word(number, b"0") {
        Some(Unit::Inch)
    } else if is_word(number, b"1") {
        Some(Unit::Mm)
    } else {
        None
    }
}

// A parameter record, by what stands behind its `P`.
#[tactic(auto, unfolding(crate::specs::RecordLines::parameter))]
fn parameter<'a>(text: &[u8]) -> RecordLine<'a>
    ensures value { view result ≡ spec.parameter (words text.now) }
    ensures lawful { IsLawfulForm (view result) }
{
    match next_word(text) {
        None => RecordLine::Unread,
        Some((word, further)) => if is_word(word, b"UNITS") {
            RecordLine::Units(unit_of(further))
        } else {
            RecordLine::Unread
        },
    }
}

// Whether it is a record that says nothing of test points.
fn is_other(text: &[u8]) -> bool
    ensures { result ≡ spec.is_other text.now }
{
    match text {
        [b'3', b'6', b'7', ..] | [b'3', b'8', b'9', ..] | [b'0', b'8', b'9', ..] => true,
        [b'0' | b'3', b'7', b'8' | b'9', ..] => true,
        _ => false,
    }
}

// A record by its code.
#[tactic(auto, unfolding(crate::specs::RecordLines::coded))]
fn coded<'a>(line: &Record<'a>) -> RecordLine<'a>
    ensures value { view result ≡ spec.coded line.now.text.now }
    ensures lawful { IsLawfulForm (view result) }
{
    match line.text {
        [b'9', b'9', b'9', ..] => RecordLine::End,
        [b'0', b'1' | b'2', b'7', ..] => RecordLine::Continuation,
        [b'3', b'1' | b'2', b'7', ..] => RecordLine::Test(fields_in(line)),
        text => if is_other(text) {
            RecordLine::Unread
        } else {
            RecordLine::Unknown
        },
    }
}

/// What a line says by itself.
#[tactic(auto, unfolding(crate::specs::RecordLines::form_of))]
pub fn read_form<'a>(line: &Record<'a>) -> RecordLine<'a>
    ensures value { view result ≡ spec.form_of line.now.text.now }
    ensures lawful { IsLawfulForm (view result) }
{
    if all_blank(line.columns(1, 57)) {
        return RecordLine::Blank;
    }
    match line.text {
        [b'C', ..] => RecordLine::Unread,
        [b'P', ..] => parameter(line.columns(2, 57)),
        _ => coded(line),
    }
}
