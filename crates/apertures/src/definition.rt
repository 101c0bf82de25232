//! How an aperture's definition is read.
ghost use Rattle.std.specs.Prelude.{◌≡◌, ◌==◌, ◌*◌, ◌+◌, ◌<◌, ◌≤◌, ◌^◌, true, false, take, drop, length, unsigned_abs, Option, Some, None, Result, IfOk};
ghost use Rattle.std.specs.List.{after_first, before_first, list_all, list_any, position_or_len, prefix_len};
ghost use Rattle.std.specs.Str.Parse.{digits_value, digits_value_after};
ghost use Rattle.texts.specs.Digits.{is_decimal_digit};
ghost use Rattle.apertures.specs.Flash.{IsLawful, IsNarrow};
ghost use Rattle.apertures.specs.Definition as spec;

use crate::aperture::Aperture;
use crate::fault::ApertureFault;
use contact::MOST_DIAMETER;
use lengths::decimal::{Unit, read_decimal, small_value};
use texts::{after_byte, before_byte, digits_len, has};

/// Reads an `AD` word (Gerber Layer Format Specification, 4.3 and 4.4), `ADD<n><name>,<p>X<p>`, with
/// its sizes in the unit: the aperture and its number, from 10 to 999,999,999, taken by value. It
/// takes no memory.
///
/// The refusals come in this order: `BadText` where there is no `ADD`, no digit or no name;
/// `Number`; `Macro`; `Polygon`; `BadText` for too few parameters; `Hole` for too many; then for
/// each parameter in turn `BadText` where it is no decimal, `OffGrid`, and `OutOfRange`.
#[tactic(auto, unfolding(crate::specs::Definition::aperture_at))]
pub fn read_aperture(word: &[u8], unit: Unit) -> Result<(u32, Aperture), ApertureFault>
    ensures value { result ≡ spec.aperture_at word.now unit }
    ensures lawful { IfOk result (λ read. IsLawful read.1) }
{
    if !word.starts_with(b"ADD".as_slice()) {
        return Err(ApertureFault::BadText);
    }
    let text = &word[3..];
    let len = digits_len(text);
    numbered(&text[..len], &text[len..], unit)
}

// What follows `ADD`.
fn behind_letters(word: &[u8]) -> &[u8]
    ensures { result.now ≡ drop 3 word.now }
{
    if word.len() < 3 {
        return &[];
    }
    &word[3..]
}

/// The name of an aperture with its parameters, which stand behind its number.
pub fn name_text(word: &[u8]) -> &[u8]
    ensures { result.now ≡ spec.name_text word.now }
{
    let text = behind_letters(word);
    &text[digits_len(text)..]
}

/// The number of an aperture, of at most nine digits.
pub fn number(word: &[u8]) -> u32
    requires { length (spec.number_digits word.now) ≤ 9 }
    ensures { result ≡ digits_value 10 (spec.number_digits word.now) }
{
    let text = behind_letters(word);
    small_value(&text[..digits_len(text)])
}

#[tactic(auto, unfolding(crate::specs::Definition::numbered_at))]
fn numbered(digits: &[u8], text: &[u8], unit: Unit) -> Result<(u32, Aperture), ApertureFault>
    requires { list_all is_decimal_digit digits.now ≡ true }
    ensures { result ≡ spec.numbered_at digits.now text.now unit }
{
    let name = before_byte(text, b',');
    if digits.is_empty() || name.is_empty() {
        return Err(ApertureFault::BadText);
    }
    if digits.len() > 9 {
        return Err(ApertureFault::Number);
    }
    let number = small_value(digits);
    if number < 10 {
        return Err(ApertureFault::Number);
    }
    let solid = solid(name, text, unit)?;
    Ok((number, solid))
}

#[tactic(auto, unfolding(crate::specs::Definition::solid_by))]
fn solid(name: &[u8], text: &[u8], unit: Unit) -> Result<Aperture, ApertureFault>
    ensures { result ≡ spec.solid_by name.now text.now unit }
{
    match name {
        [b'C'] => circle(text, unit),
        [b'R'] => {
            let (x, y) = sides(text, unit)?;
            Ok(Aperture::Rectangle(x, y))
        },
        [b'O'] => obround(text, unit),
        [b'P'] => Err(ApertureFault::Polygon),
        _ => Err(ApertureFault::Macro),
    }
}

#[tactic(auto, unfolding(crate::specs::Definition::circle_at))]
fn circle(text: &[u8], unit: Unit) -> Result<Aperture, ApertureFault>
    ensures { result ≡ spec.circle_at text.now unit }
{
    last_behind(text, b',')?;
    let d = diameter(after_byte(text, b','), unit)?;
    Ok(Aperture::Circle(d))
}

/// Whether a parameter stands behind the byte, and no further one behind it.
#[tactic(auto, unfolding(crate::specs::Definition::last_behind))]
pub fn last_behind(text: &[u8], byte: u8) -> Result<(), ApertureFault>
    ensures { result ≡ spec.last_behind (λ b. b == byte) text.now }
{
    if !has(text, byte) {
        return Err(ApertureFault::BadText);
    }
    if has(after_byte(text, byte), b'X') {
        return Err(ApertureFault::Hole);
    }
    Ok(())
}

#[tactic(auto, unfolding(crate::specs::Definition::obround_at))]
fn obround(text: &[u8], unit: Unit) -> Result<Aperture, ApertureFault>
    ensures { result ≡ spec.obround_at text.now unit }
{
    let (x, y) = sides(text, unit)?;
    let lesser = x.unsigned_abs().min(y.unsigned_abs());
    if lesser > MOST_DIAMETER {
        return Err(ApertureFault::OutOfRange);
    }
    Ok(Aperture::Obround(x, y))
}

#[tactic(auto, unfolding(crate::specs::Definition::sides_at))]
fn sides(text: &[u8], unit: Unit) -> Result<(i64, i64), ApertureFault>
    ensures { result ≡ spec.sides_at text.now unit }
{
    if !has(text, b',') {
        return Err(ApertureFault::BadText);
    }
    sides_in(after_byte(text, b','), unit)
}

#[tactic(auto, unfolding(crate::specs::Definition::sides_in))]
fn sides_in(parameters: &[u8], unit: Unit) -> Result<(i64, i64), ApertureFault>
    ensures { result ≡ spec.sides_in parameters.now unit }
{
    last_behind(parameters, b'X')?;
    let x = side(before_byte(parameters, b'X'), unit)?;
    let y = side(after_byte(parameters, b'X'), unit)?;
    Ok((x, y))
}

// A size that is at most `MOST_DIAMETER`.
#[tactic(auto, unfolding(crate::specs::Definition::diameter_at))]
fn diameter(text: &[u8], unit: Unit) -> Result<i64, ApertureFault>
    ensures value { result ≡ spec.diameter_at text.now unit }
    ensures narrow { IfOk result (λ d. IsNarrow (unsigned_abs d)) }
{
    let d = size(text, unit)?;
    if d.unsigned_abs() > MOST_DIAMETER {
        return Err(ApertureFault::OutOfRange);
    }
    Ok(d)
}

// A size that is no 0.
#[tactic(auto, unfolding(crate::specs::Definition::side_at))]
fn side(text: &[u8], unit: Unit) -> Result<i64, ApertureFault>
    ensures { result ≡ spec.side_at text.now unit }
{
    let u = size(text, unit)?;
    if u == 0 {
        return Err(ApertureFault::OutOfRange);
    }
    Ok(u)
}

#[tactic(auto, unfolding(crate::specs::Definition::size_at))]
fn size(text: &[u8], unit: Unit) -> Result<i64, ApertureFault>
    ensures { result ≡ spec.size_at text.now unit }
{
    let Some(decimal) = read_decimal(text) else {
        return Err(ApertureFault::BadText);
    };
    match decimal.size(unit) {
        Ok(len) => Ok(len.u()),
        Err(fault) => Err(fault.choose(ApertureFault::OffGrid, ApertureFault::OutOfRange)),
    }
}
