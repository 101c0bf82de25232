//! How a body word is read.
ghost use Rattle.std.specs.Prelude.{◌≡◌, IfSome};
ghost use Rattle.aperture_macros.specs.BodyWord as spec;
ghost use Rattle.aperture_macros.specs.Seen.{seen_body, seen_one};
ghost use Rattle.aperture_macros.specs.Sized.{IsSized};

use crate::MOST_OUTLINE_EDGES;
use crate::expression::{is_expression, is_product};
use crate::fault::MacroFault;
use crate::primitive::{Copper, Form, Primitive, Rotation, Turning};
use lengths::decimal::{Decimal, read_decimal};
use texts::{after_byte, before_byte, begins, is_word};

/// Reads a word in the body of a macro (Gerber Layer Format Specification, 4.5.1), and takes no
/// memory: a primitive, or `None` for a comment, which begins with `0`. The forms are `1,e,d,x,y`,
/// `1,e,d,x,y,r`, `4,e,n,` with n + 1 points and `r`, `20,e,w,x,y,x,y,r` and `21,e,w,h,x,y,r`, and in `Real` copper
/// `5,e,n,x,y,d,r`, where d may be a product.
///
/// `BadMacro` where it is none of these; then `ExposureOff` where the exposure is not equal to 1;
/// then, where copper is `Exact`, `Turn` where the rotation is not equal to 0, 90, 180 or 270. In `Real` copper the
/// rotation is an expression.
#[tactic(auto, unfolding(crate::specs::BodyWord::primitive_at))]
pub fn read_body(copper: Copper, word: &[u8]) -> Result<Option<Primitive<'_>>, MacroFault>
    ensures { seen_body result ≡ spec.primitive_at copper word.now }
{
    if begins(word, b"0") {
        return Ok(None);
    }
    let commas = commas(word);
    match form_at(copper, word, commas) {
        None => Err(MacroFault::BadMacro),
        Some(form) => match form_in(copper, form, commas, word) {
            Ok(primitive) => Ok(Some(primitive)),
            Err(fault) => Err(fault),
        },
    }
}

fn commas(word: &[u8]) -> usize
    ensures { result ≡ spec.commas word.now }
{
    word.iter().filter(|b| **b == b',').count()
}

/// The text from part `n` on.
#[tactic(auto, unfolding(crate::specs::BodyWord::past))]
pub fn past(n: u32, word: &[u8]) -> &[u8]
    ensures { result.now ≡ spec.past n word.now }
{
    let mut rest = word;
    for _ in 0..n {
        rest = after_byte(rest, b',');
    }
    rest
}

/// Part `n`, counted from 0.
pub fn part(n: u32, word: &[u8]) -> &[u8]
    ensures { result.now ≡ spec.part n word.now }
{
    before_byte(past(n, word), b',')
}

// Whether the decimal is this number.
fn is_number(decimal: &Decimal, n: u32) -> bool
    ensures { result ≡ spec.is_number decimal.now n }
{
    decimal.equals(n)
}

// What a word with so many commas is.
fn form_at(copper: Copper, word: &[u8], commas: usize) -> Option<Form>
    ensures value { result ≡ spec.form_at copper word.now commas }
    ensures sized { IfSome result IsSized }
{
    let form = form_of(copper, word, commas)?;
    let row = form.row();
    let whole = (row.head as u32 + row.count()) as usize;
    if commas == whole || !row.needs_rotation && commas < whole && whole - commas == 1 {
        Some(form)
    } else {
        None
    }
}

// What a word with so many commas is by its code.
#[tactic(auto, unfolding(crate::specs::BodyWord::form_of))]
fn form_of(copper: Copper, word: &[u8], commas: usize) -> Option<Form>
    ensures value { result ≡ spec.form_of copper word.now commas }
    ensures sized { IfSome result IsSized }
{
    let code = part(0, word);
    if is_word(code, b"1") {
        return Some(Form::Circle);
    }
    if is_word(code, b"4") {
        return outline(word, commas.saturating_sub(5) / 2);
    }
    if is_word(code, b"20") {
        return Some(Form::VectorLine);
    }
    if is_word(code, b"21") {
        return Some(Form::CentreLine);
    }
    if is_word(code, b"5") {
        return polygon(copper, word);
    }
    None
}

// A polygon, in real copper, of as many corners as part 2 says.
#[tactic(auto, unfolding(crate::specs::BodyWord::polygon_of))]
fn polygon(copper: Copper, word: &[u8]) -> Option<Form>
    ensures value { result ≡ spec.polygon_of copper word.now }
    ensures sized { IfSome result IsSized }
{
    match copper {
        Copper::Exact => None,
        Copper::Real => real_polygon(word),
    }
}

// The same in real copper.
#[tactic(auto, unfolding(crate::specs::BodyWord::polygon_of))]
fn real_polygon(word: &[u8]) -> Option<Form>
    ensures value { result ≡ spec.polygon_of Copper.Real word.now }
    ensures sized { IfSome result IsSized }
{
    let decimal = read_decimal(part(2, word))?;
    regular(&decimal)
}

// The polygon of so many corners, from 3 to 12.
#[tactic(auto, unfolding(crate::specs::BodyWord::regular_from))]
fn regular(corners: &Decimal) -> Option<Form>
    ensures value { result ≡ spec.regular_of corners.now }
    ensures sized { IfSome result IsSized }
{
    for n in 3..13 {
        if is_number(corners, n) {
            return Some(Form::Polygon(n));
        }
    }
    None
}

// An outline of n edges, where part 2 says so.
#[tactic(auto, unfolding(crate::specs::BodyWord::outline_of))]
fn outline(word: &[u8], n: usize) -> Option<Form>
    ensures value { result ≡ spec.outline_of word.now n }
    ensures sized { IfSome result IsSized }
{
    if n < 3 || n > MOST_OUTLINE_EDGES {
        return None;
    }
    let decimal = read_decimal(part(2, word))?;
    if is_number(&decimal, n as u32) {
        Some(Form::Outline(n as u32))
    } else {
        None
    }
}

#[tactic(auto, unfolding(crate::specs::BodyWord::form_in))]
fn form_in(
    copper: Copper,
    form: Form,
    commas: usize,
    word: &[u8],
) -> Result<Primitive<'_>, MacroFault>
    requires { IsSized form }
    ensures { seen_one result ≡ spec.form_in copper form commas word.now }
{
    let Some(exposure) = read_decimal(part(1, word)) else {
        return Err(MacroFault::BadMacro);
    };
    let row = form.row();
    let lengths = past(row.head as u32, word);
    let rotation = if commas == (row.head as u32 + row.count()) as usize {
        part(row.count(), lengths)
    } else {
        b"0"
    };
    turned(copper, form, &exposure, lengths, rotation)
}

#[tactic(auto, unfolding(crate::specs::BodyWord::turned_at))]
fn turned<'a>(
    copper: Copper,
    form: Form,
    exposure: &Decimal,
    lengths: &'a [u8],
    rotation: &[u8],
) -> Result<Primitive<'a>, MacroFault>
    requires { IsSized form }
    ensures { seen_one result ≡ spec.turned_at copper form exposure.now lengths.now rotation.now }
{
    if !are_lengths(form, lengths) {
        return Err(MacroFault::BadMacro);
    }
    let rotation = turning(copper, exposure, rotation)?;
    Ok(Primitive {
        form,
        rotation,
        lengths,
    })
}

// How a primitive is turned whose exposure is this.
#[tactic(auto, unfolding(crate::specs::BodyWord::turning_at))]
fn turning(copper: Copper, exposure: &Decimal, rotation: &[u8]) -> Result<Turning, MacroFault>
    ensures { result ≡ spec.turning_at copper exposure.now rotation.now }
{
    match copper {
        Copper::Exact => exact_turning(exposure, rotation),
        Copper::Real => {
            if !is_expression(rotation) {
                return Err(MacroFault::BadMacro);
            }
            if !is_number(exposure, 1) {
                return Err(MacroFault::ExposureOff);
            }
            Ok(Turning::Degrees)
        },
    }
}

#[tactic(auto, unfolding(crate::specs::BodyWord::turning_at))]
fn exact_turning(exposure: &Decimal, rotation: &[u8]) -> Result<Turning, MacroFault>
    ensures { result ≡ spec.turning_at Copper.Exact exposure.now rotation.now }
{
    let Some(degrees) = read_decimal(rotation) else {
        return Err(MacroFault::BadMacro);
    };
    if !is_number(exposure, 1) {
        return Err(MacroFault::ExposureOff);
    }
    let rotation = rotation_of(&degrees)?;
    Ok(Turning::Quarters(rotation))
}

// Whether the lengths of a form are written as they may be.
#[tactic(auto, unfolding(crate::specs::BodyWord::are_lengths))]
fn are_lengths(form: Form, text: &[u8]) -> bool
    requires { IsSized form }
    ensures { result ≡ spec.are_lengths form text.now }
{
    match form {
        Form::Polygon(_) => are_expressions(2, text) && is_across(part(2, text)),
        Form::Circle => are_expressions(form.row().count(), text),
        Form::Outline(_) => are_expressions(form.row().count(), text),
        Form::VectorLine => are_expressions(form.row().count(), text),
        Form::CentreLine => are_expressions(form.row().count(), text),
    }
}

// Whether the diameter of a polygon is: a product, or an expression.
fn is_across(text: &[u8]) -> bool
    ensures { result ≡ spec.is_across text.now }
{
    is_product(text) || is_expression(text)
}

// Whether the first n parts of a text are expressions.
#[tactic(auto, unfolding(crate::specs::BodyWord::are_expressions))]
fn are_expressions(n: u32, text: &[u8]) -> bool
    ensures { result ≡ spec.are_expressions n text.now }
{
    let mut rest = text;
    for _ in 0..n {
        if !is_expression(before_byte(rest, b',')) {
            return false;
        }
        rest = after_byte(rest, b',');
    }
    true
}

fn rotation_of(degrees: &Decimal) -> Result<Rotation, MacroFault>
    ensures { result ≡ spec.rotation_of degrees.now }
{
    if is_number(degrees, 0) {
        return Ok(Rotation::Unturned);
    }
    if is_number(degrees, 90) {
        return Ok(Rotation::Quarter);
    }
    if is_number(degrees, 180) {
        return Ok(Rotation::Half);
    }
    if is_number(degrees, 270) {
        return Ok(Rotation::ThreeQuarters);
    }
    Err(MacroFault::Turn)
}
