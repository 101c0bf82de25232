//! How a step and repeat word is read.
ghost use Rattle.std.specs.Prelude.{◌≡◌, ◌≤◌, drop, Option, Some, None, Result, IfOk, IfSome};
ghost use Rattle.planar.specs.Plane.{IsReached};
ghost use Rattle.step_repeat.specs.Repeats as spec;
ghost use Rattle.step_repeat.specs.Repeats.{IsLawful, repeat_at};

use crate::fault::RepeatFault;
use crate::repeat::Repeat;
use lengths::decimal::{Decimal, Unit, read_decimal, small_value};
use texts::{after_byte, all_digits, before_byte, has};

impl Repeat {
    /// Reads an `SR` word (Gerber Layer Format Specification, step and repeat): `SR` alone, which is
    /// `None`, or `SRX<n>Y<m>I<dx>J<dy>`, with counts of 1 to 9 digits that are not 0 and decimal
    /// steps in the unit. It takes no memory.
    ///
    /// `BadText` comes exactly where the word has another form; then `OffGrid` and `OutOfRange`
    /// exactly where a step is no position, `dx` before `dy`.
    #[tactic(auto, unfolding(crate::specs::Repeats::repeat_at))]
    pub fn read(word: &[u8], unit: Unit) -> Result<Option<Repeat>, RepeatFault>
        ensures value { result ≡ repeat_at word.now unit }
        ensures lawful { IfOk result (λ read. IfSome read IsLawful) }
    {
        if word == b"SR".as_slice() {
            return Ok(None);
        }
        if !word.starts_with(b"SRX".as_slice()) {
            return Err(RepeatFault::BadText);
        }
        let repeat = parameters(&word[3..], unit)?;
        Ok(Some(repeat))
    }
}

// The repeat of `<n>Y<m>I<dx>J<dy>`.
#[tactic(auto, unfolding(crate::specs::Repeats::parameters_at))]
fn parameters(text: &[u8], unit: Unit) -> Result<Repeat, RepeatFault>
    ensures value { result ≡ spec.parameters_at text.now unit }
    ensures lawful { IfOk result IsLawful }
{
    if !has(text, b'Y') {
        return Err(RepeatFault::BadText);
    }
    let across = count(before_byte(text, b'Y'))?;
    rows(across, after_byte(text, b'Y'), unit)
}

// The repeat of so many columns and `<m>I<dx>J<dy>`.
#[tactic(auto, unfolding(crate::specs::Repeats::rows_at))]
fn rows(across: u32, text: &[u8], unit: Unit) -> Result<Repeat, RepeatFault>
    requires some { 1 ≤ across }
    requires few { across ≤ 999999999 }
    ensures value { result ≡ spec.rows_at across text.now unit }
    ensures lawful { IfOk result IsLawful }
{
    if !has(text, b'I') {
        return Err(RepeatFault::BadText);
    }
    let up = count(before_byte(text, b'I'))?;
    let (dx, dy) = steps(after_byte(text, b'I'), unit)?;
    Ok(Repeat { across, up, dx, dy })
}

#[tactic(auto, unfolding(crate::specs::Repeats::count_at))]
fn count(digits: &[u8]) -> Result<u32, RepeatFault>
    ensures value { result ≡ spec.count_at digits.now }
    ensures some { IfOk result (λ n. 1 ≤ n) }
    ensures few { IfOk result (λ n. n ≤ 999999999) }
{
    if digits.is_empty() || digits.len() > 9 {
        return Err(RepeatFault::BadText);
    }
    if !all_digits(digits) {
        return Err(RepeatFault::BadText);
    }
    let n = small_value(digits);
    if n == 0 {
        return Err(RepeatFault::BadText);
    }
    Ok(n)
}

// The steps of `<dx>J<dy>`.
#[tactic(auto, unfolding(crate::specs::Repeats::steps_at))]
fn steps(text: &[u8], unit: Unit) -> Result<(i64, i64), RepeatFault>
    ensures value { result ≡ spec.steps_at text.now unit }
    ensures short_x { IfOk result (λ steps. IsReached steps.0) }
    ensures short_y { IfOk result (λ steps. IsReached steps.1) }
{
    if !has(text, b'J') {
        return Err(RepeatFault::BadText);
    }
    let x = decimal(before_byte(text, b'J'))?;
    let y = decimal(after_byte(text, b'J'))?;
    let dx = step(x, unit)?;
    let dy = step(y, unit)?;
    Ok((dx, dy))
}

#[tactic(auto, unfolding(crate::specs::Repeats::decimal_at))]
fn decimal(text: &[u8]) -> Result<Decimal, RepeatFault>
    ensures { result ≡ spec.decimal_at text.now }
{
    read_decimal(text).ok_or(RepeatFault::BadText)
}

#[tactic(auto, unfolding(crate::specs::Repeats::step_at))]
fn step(decimal: Decimal, unit: Unit) -> Result<i64, RepeatFault>
    ensures value { result ≡ spec.step_at decimal unit }
    ensures short { IfOk result IsReached }
{
    match decimal.position(unit) {
        Ok(len) => Ok(len.u()),
        Err(fault) => Err(fault.choose(RepeatFault::OffGrid, RepeatFault::OutOfRange)),
    }
}
