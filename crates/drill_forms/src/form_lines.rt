//! How a line is read by itself.
ghost use Rattle.std.specs.Prelude.{◌≡◌, drop};
ghost use Rattle.std.specs.List.{list_all};
ghost use Rattle.drill_forms.specs.FormLines as spec;
ghost use Rattle.drill_forms.specs.declared.form.FormLine.TheVariants as form;

use crate::form::{Along, FormLine, Layout, Zeros};
use crate::number::read_number;
use lengths::decimal::{Decimal, Unit, read_decimal};
use texts::{ByteClass, after_byte, before_byte, begins, has, is_digit, is_word, run_len, trimmed};
use xnc::line::{Coordinates, DrillLine};
use xnc::{DrillKind, Span, drill_lines as narrow};

#[tactic(auto, unfolding(crate::specs::FormLines::behind_x))]
fn behind_x(text: &[u8]) -> Option<Along>
    ensures { result ≡ spec.behind_x text.now }
{
    if has(text, b'Y') {
        let x = read_number(before_byte(text, b'Y'))?;
        let y = read_number(after_byte(text, b'Y'))?;
        Some(Along {
            x: Some(x),
            y: Some(y),
        })
    } else {
        let x = read_number(text)?;
        Some(Along {
            x: Some(x),
            y: None,
        })
    }
}

#[tactic(auto, unfolding(crate::specs::FormLines::along_of))]
fn along(text: &[u8]) -> Option<Along>
    ensures { result ≡ spec.along_of text.now }
{
    match text {
        [b'X', rest @ ..] => behind_x(rest),
        [b'Y', rest @ ..] => {
            let y = read_number(rest)?;
            Some(Along {
                x: None,
                y: Some(y),
            })
        },
        _ => None,
    }
}

// A text without its first bytes, or nothing.
fn behind(text: &[u8], count: usize) -> &[u8]
    ensures { result.now ≡ drop count text.now }
{
    if count <= text.len() {
        &text[count..]
    } else {
        &[]
    }
}

#[tactic(auto, unfolding(crate::specs::FormLines::slot_form))]
fn slot_form(text: &[u8]) -> FormLine
    ensures { result ≡ spec.slot_form text.now }
{
    match (
        along(before_byte(text, b'G')),
        along(behind(after_byte(text, b'G'), 2)),
    ) {
        (Some(from), Some(to)) => FormLine::Slot(from, to),
        _ => FormLine::Says(DrillLine::Unknown),
    }
}

#[tactic(auto, unfolding(crate::specs::FormLines::counts_of))]
fn counts_of(text: &[u8]) -> FormLine
    ensures { result ≡ spec.counts_of text.now }
{
    match text {
        [a, b':', b] if is_digit(*a) && is_digit(*b) => FormLine::Counts(Layout {
            whole: (*a - b'0') as usize,
            places: (*b - b'0') as usize,
        }),
        _ => FormLine::Says(DrillLine::Blank),
    }
}

#[tactic(auto, unfolding(crate::specs::FormLines::attribute))]
fn attribute(fields: &[u8]) -> FormLine
    ensures { result ≡ spec.attribute fields.now }
{
    let first = before_byte(fields, b',');
    if is_word(first, b"Plated") {
        return FormLine::Next(true);
    }
    if is_word(first, b"NonPlated") {
        return FormLine::Next(false);
    }
    FormLine::Untold
}

#[tactic(auto, unfolding(crate::specs::FormLines::layout_comment))]
fn layout_comment(text: &[u8]) -> FormLine
    ensures { result ≡ spec.layout_comment text.now }
{
    if begins(text, b";FILE_FORMAT=") {
        return counts_of(behind(text, 13));
    }
    if begins(text, b"; FORMAT={") {
        return counts_of(before_byte(behind(text, 10), b'/'));
    }
    FormLine::Says(DrillLine::Blank)
}

#[tactic(auto, unfolding(crate::specs::FormLines::comment))]
fn comment(text: &[u8]) -> FormLine
    ensures { result ≡ spec.comment text.now }
{
    if is_word(text, b";TYPE=PLATED") {
        return FormLine::Lasting(true);
    }
    if is_word(text, b";TYPE=NON_PLATED") {
        return FormLine::Lasting(false);
    }
    if begins(text, b"; #@! TA.AperFunction,") {
        return attribute(behind(text, 22));
    }
    if begins(text, b"; #@! TD") {
        return FormLine::Untold;
    }
    if begins(text, b"; #@! TF.FileFunction,") {
        return FormLine::Function(false);
    }
    layout_comment(text)
}

#[tactic(auto, unfolding(crate::specs::FormLines::mixed))]
fn mixed(span: Span, text: &[u8]) -> FormLine
    ensures { result ≡ spec.mixed span.from span.to text.now }
{
    if narrow::names_span(span, after_byte(behind(text, 22), b',')) {
        FormLine::Function(true)
    } else {
        FormLine::Says(DrillLine::Misfit(DrillKind::WrongSpan))
    }
}

fn all_zero(text: &[u8]) -> bool
    ensures { result ≡ list_all spec.is_zero text.now }
{
    text.iter().all(|b| *b == b'0')
}

fn is_run(zeros: &[u8]) -> bool
    ensures { result ≡ spec.is_run zeros.now }
{
    zeros.len() >= 1 && zeros.len() <= 9 && all_zero(zeros)
}

#[tactic(auto, unfolding(crate::specs::FormLines::layout_of))]
fn layout_of(text: &[u8]) -> Option<Layout>
    ensures { result ≡ spec.layout_of text.now }
{
    let front = before_byte(text, b'.');
    let back = after_byte(text, b'.');
    if is_run(front) && is_run(back) {
        Some(Layout {
            whole: front.len(),
            places: back.len(),
        })
    } else {
        None
    }
}

#[tactic(auto, unfolding(crate::specs::FormLines::units_behind))]
fn units_behind(unit: Unit, zeros: Option<Zeros>, text: &[u8]) -> FormLine
    ensures { result ≡ spec.units_behind unit zeros text.now }
{
    if begins(text, b",") {
        return match layout_of(behind(text, 1)) {
            None => FormLine::Says(DrillLine::Unknown),
            Some(layout) => FormLine::Units(unit, zeros, Some(layout)),
        };
    }
    if text.len() <= 0 {
        FormLine::Units(unit, zeros, None)
    } else {
        FormLine::Says(DrillLine::Unknown)
    }
}

#[tactic(auto, unfolding(crate::specs::FormLines::units))]
fn units(unit: Unit, text: &[u8]) -> FormLine
    ensures { result ≡ spec.units unit text.now }
{
    if begins(text, b",LZ") {
        return units_behind(unit, Some(Zeros::Leading), behind(text, 3));
    }
    if begins(text, b",TZ") {
        return units_behind(unit, Some(Zeros::Trailing), behind(text, 3));
    }
    units_behind(unit, None, text)
}

fn zeros_of(text: &[u8]) -> Option<Zeros>
    ensures { result ≡ spec.zeros_of text.now }
{
    if begins(text, b",LZ") {
        return Some(Zeros::Leading);
    }
    if begins(text, b",TZ") {
        return Some(Zeros::Trailing);
    }
    None
}

fn is_letter(b: u8) -> bool
    ensures { result ≡ spec.is_letter b }
{
    b == b'C' || b == b'F' || b == b'S' || b == b'B' || b == b'H' || b == b'Z'
}

fn is_figure(b: u8) -> bool
    ensures { result ≡ spec.is_figure b }
{
    is_digit(b) || b == b'.' || b == b'+' || b == b'-'
}

fn is_tool_byte(b: u8) -> bool
    ensures { result ≡ spec.is_tool_byte b }
{
    is_letter(b) || is_figure(b)
}

fn is_feed_byte(b: u8) -> bool
    ensures { result ≡ spec.is_feed_byte b }
{
    b == b'F' || b == b'S' || is_figure(b)
}

fn are_tool_bytes(text: &[u8]) -> bool
    ensures { result ≡ list_all spec.is_tool_byte text.now }
{
    text.iter().all(|b| is_tool_byte(*b))
}

fn are_feed_bytes(text: &[u8]) -> bool
    ensures { result ≡ list_all spec.is_feed_byte text.now }
{
    text.iter().all(|b| is_feed_byte(*b))
}

// What is no letter of a tool.
struct NoLetter;

impl ByteClass for NoLetter {
    ghost member = { spec.is_no_letter };

    fn has(byte: u8) -> bool {
        !is_letter(byte)
    }
}

fn before_letter(text: &[u8]) -> &[u8]
    ensures { result.now ≡ spec.before_letter text.now }
{
    &text[..run_len::<NoLetter>(text)]
}

#[tactic(auto, unfolding(crate::specs::FormLines::tool_form))]
fn tool_form(text: &[u8]) -> FormLine
    ensures { result ≡ spec.tool_form text.now }
{
    let size = after_byte(text, b'C');
    if are_tool_bytes(text) && !has(size, b'C') {
        FormLine::Says(narrow::defines(
            narrow::tool_number(before_letter(text)),
            read_decimal(before_letter(size)),
        ))
    } else {
        FormLine::Says(DrillLine::Unknown)
    }
}

fn is_feed(text: &[u8]) -> bool
    ensures { result ≡ spec.is_feed text.now }
{
    (begins(text, b"F") || begins(text, b"S")) && are_feed_bytes(text)
}

#[tactic(auto, unfolding(crate::specs::FormLines::is_idle))]
fn is_idle(text: &[u8]) -> bool
    ensures { result ≡ spec.is_idle text.now }
{
    if is_word(text, b"ICI,OFF") {
        return true;
    }
    if is_word(text, b"VER,1") {
        return true;
    }
    if is_word(text, b"G40") {
        return true;
    }
    if is_word(text, b"ATC,ON") {
        return true;
    }
    if is_word(text, b"ATC,OFF") {
        return true;
    }
    if is_word(text, b"DETECT,ON") {
        return true;
    }
    if is_word(text, b"DETECT,OFF") {
        return true;
    }
    is_feed(text)
}

#[tactic(auto, unfolding(crate::specs::FormLines::more_words))]
fn more_words(text: &[u8]) -> FormLine
    ensures { result ≡ spec.more_words text.now }
{
    if is_word(text, b"M71") {
        return FormLine::Units(Unit::Mm, None, None);
    }
    if is_word(text, b"M72") {
        return FormLine::Units(Unit::Inch, None, None);
    }
    if is_word(text, b"M95") {
        return FormLine::Ends;
    }
    if is_word(text, b"M17") {
        return FormLine::Lift;
    }
    if is_idle(text) {
        return FormLine::Idle;
    }
    if begins(text, b"METRIC") {
        return units(Unit::Mm, behind(text, 6));
    }
    if begins(text, b"INCH") {
        return units(Unit::Inch, behind(text, 4));
    }
    if begins(text, b"T") {
        return tool_form(behind(text, 1));
    }
    FormLine::Says(DrillLine::Unknown)
}

fn has_point(number: Option<Decimal>) -> bool
    ensures { result ≡ spec.has_point number }
{
    match number {
        None => true,
        Some(d) => d.pointed(),
    }
}

fn have_points(c: Coordinates) -> bool
    ensures { result ≡ spec.have_points c }
{
    has_point(c.x) && has_point(c.y)
}

fn rout_form(text: &[u8]) -> FormLine
    ensures { result ≡ spec.form_with form.Rout (spec.along_of text.now) }
{
    match along(text) {
        None => FormLine::Says(DrillLine::Unknown),
        Some(to) => FormLine::Rout(to),
    }
}

fn straight_form(text: &[u8]) -> FormLine
    ensures { result ≡ spec.form_with form.Straight (spec.along_of text.now) }
{
    match along(text) {
        None => FormLine::Says(DrillLine::Unknown),
        Some(to) => FormLine::Straight(to),
    }
}

fn hit_form(text: &[u8]) -> FormLine
    ensures { result ≡ spec.form_with form.Hit (spec.along_of text.now) }
{
    match along(text) {
        None => FormLine::Says(DrillLine::Unknown),
        Some(to) => FormLine::Hit(to),
    }
}

// By what the line says in `check`'s dialect.
#[tactic(auto, unfolding(crate::specs::FormLines::widened))]
fn widened(span: Span, said: &DrillLine, text: &[u8]) -> FormLine
    ensures { result ≡ spec.widened span.from span.to said.now text.now }
{
    match *said {
        DrillLine::Blank => comment(text),
        DrillLine::Misfit(DrillKind::MixedPlating) => mixed(span, text),
        DrillLine::Unit(Unit::Mm) => FormLine::Units(Unit::Mm, zeros_of(behind(text, 6)), None),
        DrillLine::Unit(Unit::Inch) => FormLine::Units(Unit::Inch, zeros_of(behind(text, 4)), None),
        DrillLine::Unknown => more_words(text),
        DrillLine::Rout(c) if !have_points(c) => rout_form(behind(text, 3)),
        DrillLine::Straight(c) if !have_points(c) => straight_form(behind(text, 3)),
        DrillLine::Hit(c) if !have_points(c) => hit_form(text),
        DrillLine::Slot(c, d) if !(have_points(c) && have_points(d)) => slot_form(text),
        _ => FormLine::Says(*said),
    }
}

/// What a line says. The span judges a comment on the file's function.
#[tactic(auto, unfolding(crate::specs::FormLines::form_of))]
pub fn read_form(span: Span, line: &[u8]) -> FormLine
    ensures { result ≡ spec.form_of span.from span.to line.now }
{
    widened(span, &narrow::read_line(span, line), trimmed(line))
}
