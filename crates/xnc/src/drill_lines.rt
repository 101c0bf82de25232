//! How a line is read by itself.
ghost use Rattle.std.specs.Prelude.{◌≡◌, ◌<◌, ◌≤◌, true, false, decimal as number_text, MatchOption, Option, Some, None};
ghost use Rattle.std.specs.List.{after_first, before_first, list_any};
ghost use Rattle.texts.specs.Words as words;
ghost use Rattle.xnc.specs.DrillLines as spec;

use crate::kind::DrillKind;
use crate::line::{Coordinates, DrillLine};
use crate::span::Span;
use lengths::decimal::{Decimal, Unit, read_decimal, small_value};
use texts::{after_byte, all_digits, before_byte, begins, has, is_word, place_of, trimmed};

// Whether a text is the decimal number.
fn is_number(text: &[u8], number: u8) -> bool
    requires short { number < 100 }
    ensures { result ≡ words.is_word text.now (number_text number) }
{
    if number < 10 {
        is_word(text, &[b'0' + number])
    } else {
        is_word(text, &[b'0' + number / 10, b'0' + number % 10])
    }
}

pub fn names_span(span: Span, fields: &[u8]) -> bool
    ensures { result ≡ spec.names_span span.from span.to fields.now }
{
    is_number(before_byte(fields, b','), span.from)
        && is_number(before_byte(after_byte(fields, b','), b','), span.to)
}

#[tactic(auto, unfolding(crate::specs::DrillLines::file_function))]
fn file_function(span: Span, fields: &[u8]) -> DrillLine
    ensures { result ≡ spec.file_function span.from span.to fields.now }
{
    let plating = before_byte(fields, b',');
    if is_word(plating, b"MixedPlating") {
        return DrillLine::Misfit(DrillKind::MixedPlating);
    }
    if is_word(plating, b"NonPlated") {
        return DrillLine::Misfit(DrillKind::NotPlated);
    }
    if !is_word(plating, b"Plated") {
        return DrillLine::Misfit(DrillKind::BadLine);
    }
    if names_span(span, after_byte(fields, b',')) {
        DrillLine::Blank
    } else {
        DrillLine::Misfit(DrillKind::WrongSpan)
    }
}

#[tactic(auto, unfolding(crate::specs::DrillLines::comment))]
fn comment(span: Span, text: &[u8]) -> DrillLine
    ensures { result ≡ spec.comment span.from span.to text.now }
{
    if begins(text, b"; #@! TF.FileFunction,") {
        file_function(span, &text[22..])
    } else {
        DrillLine::Blank
    }
}

// What stands before the first `Y` and what behind it, where there is one. The text is looked through once.
fn around_y(text: &[u8]) -> Option<(&[u8], &[u8])>
    ensures { MatchOption result (list_any spec.is_y text.now ≡ false) (λ parts. (list_any spec.is_y text.now ≡ true) × (parts.0.now ≡ before_first spec.is_y text.now) × (parts.1.now ≡ after_first spec.is_y text.now)) }
{
    let at = place_of(text, b'Y');
    if at < text.len() {
        Some((&text[..at], &text[at + 1..]))
    } else {
        None
    }
}

#[tactic(auto, unfolding(crate::specs::DrillLines::behind_x))]
fn behind_x(text: &[u8]) -> Option<Coordinates>
    ensures { result ≡ spec.behind_x text.now }
{
    match around_y(text) {
        None => {
            let x = read_decimal(text)?;
            Some(Coordinates {
                x: Some(x),
                y: None,
            })
        },
        Some((before, behind)) => {
            let x = read_decimal(before)?;
            let y = read_decimal(behind)?;
            Some(Coordinates {
                x: Some(x),
                y: Some(y),
            })
        },
    }
}

// A place.
#[tactic(auto, unfolding(crate::specs::DrillLines::coordinates_of))]
fn coordinates(text: &[u8]) -> Option<Coordinates>
    ensures { result ≡ spec.coordinates_of text.now }
{
    match text {
        [b'X', rest @ ..] => behind_x(rest),
        [b'Y', rest @ ..] => {
            let y = read_decimal(rest)?;
            Some(Coordinates {
                x: None,
                y: Some(y),
            })
        },
        _ => None,
    }
}

#[tactic(auto, unfolding(crate::specs::DrillLines::slot_end))]
fn slot_end(text: &[u8]) -> Option<Coordinates>
    ensures { result ≡ spec.slot_end text.now }
{
    if begins(text, b"85") {
        coordinates(&text[2..])
    } else {
        None
    }
}

// A place, which most lines are, or a slot. It is inlined into the loop over lines, so that its form is not copied on the way.
#[inline(always)]
#[tactic(auto, unfolding(crate::specs::DrillLines::place_line))]
fn place_line(text: &[u8]) -> DrillLine
    ensures { result ≡ spec.place_line text.now }
{
    if !has(text, b'G') {
        return match coordinates(text) {
            None => DrillLine::Unknown,
            Some(at) => DrillLine::Hit(at),
        };
    }
    match (
        coordinates(before_byte(text, b'G')),
        slot_end(after_byte(text, b'G')),
    ) {
        (Some(from), Some(to)) => DrillLine::Slot(from, to),
        _ => DrillLine::Unknown,
    }
}

// A tool's number.
#[tactic(auto, unfolding(crate::specs::DrillLines::tool_number))]
pub fn tool_number(digits: &[u8]) -> Option<u32>
    ensures { result ≡ spec.tool_number digits.now }
{
    if digits.is_empty() || digits.len() > 4 || !all_digits(digits) {
        return None;
    }
    let number = small_value(digits);
    if number == 0 {
        return None;
    }
    Some(number)
}

pub fn defines(number: Option<u32>, diameter: Option<Decimal>) -> DrillLine
    ensures { result ≡ spec.defines number diameter }
{
    match (number, diameter) {
        (Some(number), Some(diameter)) => DrillLine::Tool(number, diameter),
        _ => DrillLine::Unknown,
    }
}

#[tactic(auto, unfolding(crate::specs::DrillLines::tool_line))]
fn tool_line(text: &[u8]) -> DrillLine
    ensures { result ≡ spec.tool_line text.now }
{
    if has(text, b'C') {
        defines(
            tool_number(before_byte(text, b'C')),
            read_decimal(after_byte(text, b'C')),
        )
    } else if is_word(text, b"0") || is_word(text, b"00") {
        DrillLine::NoTool
    } else {
        match tool_number(text) {
            None => DrillLine::Unknown,
            Some(number) => DrillLine::Select(number),
        }
    }
}

fn is_metric(text: &[u8]) -> bool
    ensures { result ≡ spec.is_metric text.now }
{
    is_word(text, b"METRIC") || is_word(text, b"METRIC,TZ") || is_word(text, b"METRIC,LZ")
}

fn is_inch(text: &[u8]) -> bool
    ensures { result ≡ spec.is_inch text.now }
{
    is_word(text, b"INCH") || is_word(text, b"INCH,TZ") || is_word(text, b"INCH,LZ")
}

#[tactic(auto, unfolding(crate::specs::DrillLines::body_line))]
fn body_line(text: &[u8]) -> DrillLine
    ensures { result ≡ spec.body_line text.now }
{
    if begins(text, b"G02") || begins(text, b"G03") {
        return DrillLine::Arc;
    }
    if is_word(text, b"G05") {
        return DrillLine::Drill;
    }
    if begins(text, b"G00") {
        return match coordinates(&text[3..]) {
            None => DrillLine::Unknown,
            Some(to) => DrillLine::Rout(to),
        };
    }
    if begins(text, b"G01") {
        return match coordinates(&text[3..]) {
            None => DrillLine::Unknown,
            Some(to) => DrillLine::Straight(to),
        };
    }
    if is_word(text, b"M15") {
        return DrillLine::Lower;
    }
    if is_word(text, b"M16") {
        return DrillLine::Raise;
    }
    place_line(text)
}

#[tactic(auto, unfolding(crate::specs::DrillLines::command))]
fn command(text: &[u8]) -> DrillLine
    ensures { result ≡ spec.command text.now }
{
    if is_word(text, b"M48") {
        return DrillLine::Start;
    }
    if is_word(text, b"FMAT,2") {
        return DrillLine::Format;
    }
    if is_word(text, b"G90") {
        return DrillLine::Absolute;
    }
    if is_metric(text) {
        return DrillLine::Unit(Unit::Mm);
    }
    if is_inch(text) {
        return DrillLine::Unit(Unit::Inch);
    }
    if is_word(text, b"%") {
        return DrillLine::HeaderEnd;
    }
    if is_word(text, b"M30") {
        return DrillLine::End;
    }
    if begins(text, b"T") {
        return tool_line(&text[1..]);
    }
    body_line(text)
}

// Most lines are places, which their first letter tells.
#[tactic(auto, unfolding(crate::specs::DrillLines::within_blanks, crate::specs::DrillLines::command, crate::specs::DrillLines::body_line))]
fn within_blanks(span: Span, text: &[u8]) -> DrillLine
    ensures { result ≡ spec.within_blanks span.from span.to text.now }
{
    match text {
        [] => DrillLine::Blank,
        [b'X' | b'Y', ..] => place_line(text),
        [b';', ..] => comment(span, text),
        _ => command(text),
    }
}

/// What a line says, without the blanks at either end. The span judges a comment on the file's
/// function.
#[tactic(auto, unfolding(crate::specs::DrillLines::form_of))]
pub fn read_line(span: Span, line: &[u8]) -> DrillLine
    ensures { result ≡ spec.form_of span.from span.to line.now }
{
    within_blanks(span, trimmed(line))
}
