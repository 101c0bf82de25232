//! What lengths are, in u.
ghost use Rattle.aperture_macros.specs.declared.expression.TheConstants.{MOST_TERMS};
ghost use Rattle.std.specs.Prelude.{◌≡◌, ◌≤◌, ◌*◌, pos, IfOk};
ghost use Rattle.planar.specs.Plane.{IsPlaced, IsReached};
ghost use Rattle.contact.specs.declared.TheConstants.{MOST_DIAMETER};
ghost use Rattle.lengths.specs.Grid.{position_of};
ghost use Rattle.aperture_macros.specs.Values as spec;

use crate::body_word::part;
use crate::expression::{
    MOST_TERMS, first_factor, first_term, further_terms, is_product, second_factor, variable_number,
};
use crate::fault::MacroFault;
use contact::MOST_DIAMETER;
use lengths::decimal::{Decimal, Unit, has_minus, read_decimal, unsigned};
use planar::{METRE, Spot};

/// Diameters of polygons are whole in parts of which a u has so many, as those of `slants` are.
pub const PARTS: u64 = 10_000;

// How many parts of 10^-7 times 1 u are such a part.
const PARTS_OF_PRODUCT: u64 = 10_000_000 / PARTS;

// The position that a decimal is, which stands for itself or for a parameter.
fn position(decimal: &Decimal, unit: Unit) -> Result<i64, MacroFault>
    ensures value { result ≡ spec.as_fault (position_of decimal.now unit) }
    ensures reached { IfOk result IsReached }
{
    match decimal.position(unit) {
        Ok(len) => Ok(len.u()),
        Err(fault) => Err(fault.choose(MacroFault::OffGrid, MacroFault::OutOfRange)),
    }
}

// What the k-th parameter is, which count from 1: 0 where there is none.
#[tactic(auto, unfolding(crate::specs::Values::variable_at))]
fn variable(minus: bool, k: u32, parameters: &[Decimal], unit: Unit) -> Result<i64, MacroFault>
    requires some { 1 ≤ k }
    ensures value { result ≡ spec.variable_at minus k parameters.now unit }
    ensures reached { IfOk result IsReached }
{
    match parameters.get(k as usize - 1) {
        None => Ok(0),
        Some(decimal) => {
            let u = position(decimal, unit)?;
            Ok(if minus { -u } else { u })
        },
    }
}

// The position that a term is, with the sign before it.
#[tactic(auto, unfolding(crate::specs::Values::term_at))]
fn term(text: &[u8], parameters: &[Decimal], unit: Unit) -> Result<i64, MacroFault>
    ensures value { result ≡ spec.term_at text.now parameters.now unit }
    ensures reached { IfOk result IsReached }
{
    match variable_number(unsigned(text)) {
        Some(k) => variable(has_minus(text), k, parameters, unit),
        None => match read_decimal(text) {
            None => Err(MacroFault::BadMacro),
            Some(decimal) => position(&decimal, unit),
        },
    }
}

// What the terms of an expression come to.
#[tactic(auto, unfolding(crate::specs::Values::sum_from))]
fn sum(text: &[u8], parameters: &[Decimal], unit: Unit) -> Result<i64, MacroFault>
    ensures { result ≡ spec.sum_from MOST_TERMS (pos 0) text.now parameters.now unit }
{
    let mut rest = text;
    let mut sum = 0;
    for _ in 0..MOST_TERMS {
        if rest.is_empty() {
            return Ok(sum);
        }
        let one = first_term(rest);
        sum += term(one, parameters, unit)?;
        rest = further_terms(rest);
    }
    if rest.is_empty() {
        Ok(sum)
    } else {
        Err(MacroFault::BadMacro)
    }
}

/// A coordinate in u, at most 1 m from 0; or its fault.
#[tactic(auto, unfolding(crate::specs::Values::coordinate_at))]
pub fn coordinate(text: &[u8], parameters: &[Decimal], unit: Unit) -> Result<i64, MacroFault>
    ensures value { result ≡ spec.coordinate_at text.now parameters.now unit }
    ensures reached { IfOk result IsReached }
{
    let u = sum(text, parameters, unit)?;
    if u.unsigned_abs() > METRE {
        return Err(MacroFault::OutOfRange);
    }
    Ok(u)
}

/// A width or a height in u: even, and from 0 to 1 m; or its fault.
#[tactic(auto, unfolding(crate::specs::Values::size_at))]
pub fn size(text: &[u8], parameters: &[Decimal], unit: Unit) -> Result<u64, MacroFault>
    ensures value { result ≡ spec.size_at text.now parameters.now unit }
    ensures small { IfOk result (λ n. n ≤ METRE) }
{
    let u = coordinate(text, parameters, unit)?;
    if u.unsigned_abs() % 2 != 0 {
        return Err(MacroFault::OffGrid);
    }
    if u < 0 {
        return Err(MacroFault::OutOfRange);
    }
    Ok(u.unsigned_abs())
}

/// A diameter in u: even, and at most `MOST_DIAMETER`; or its fault.
#[tactic(auto, unfolding(crate::specs::Values::diameter_at))]
pub fn diameter(text: &[u8], parameters: &[Decimal], unit: Unit) -> Result<u64, MacroFault>
    ensures value { result ≡ spec.diameter_at text.now parameters.now unit }
    ensures small { IfOk result (λ n. n ≤ MOST_DIAMETER) }
{
    let d = size(text, parameters, unit)?;
    if d > MOST_DIAMETER {
        return Err(MacroFault::OutOfRange);
    }
    Ok(d)
}

// What is not below 0.
fn natural(u: i64) -> Result<u64, MacroFault>
    requires { IsReached u }
    ensures value { result ≡ spec.as_natural u }
    ensures small { IfOk result (λ n. n ≤ METRE) }
{
    if u < 0 {
        Err(MacroFault::OutOfRange)
    } else {
        Ok(u.unsigned_abs())
    }
}

/// A width or a height in u that may be odd, from 0 to 1 m; or its fault.
#[tactic(auto, unfolding(crate::specs::Values::extent_at))]
pub fn extent(text: &[u8], parameters: &[Decimal], unit: Unit) -> Result<u64, MacroFault>
    ensures value { result ≡ spec.extent_at text.now parameters.now unit }
    ensures small { IfOk result (λ n. n ≤ METRE) }
{
    let u = coordinate(text, parameters, unit)?;
    natural(u)
}

// A factor: a length, or a number as in mm, in parts of 10^-7.
#[tactic(auto, unfolding(crate::specs::Values::factor_at))]
fn factor(text: &[u8], parameters: &[Decimal], unit: Unit) -> Result<u64, MacroFault>
    ensures value { result ≡ spec.factor_at text.now parameters.now unit }
    ensures small { IfOk result (λ n. n ≤ METRE) }
{
    let u = term(text, parameters, unit)?;
    natural(u)
}

// A number times a length, in parts of which a u has `PARTS`.
#[tactic(auto, unfolding(crate::specs::Values::product_at))]
fn product(text: &[u8], parameters: &[Decimal], unit: Unit) -> Result<u128, MacroFault>
    ensures value { result ≡ spec.product_at text.now parameters.now unit }
{
    let number = factor(first_factor(text), parameters, Unit::Mm)?;
    let length = factor(second_factor(text), parameters, unit)?;
    let product = u128::from(number) * u128::from(length);
    if product % u128::from(PARTS_OF_PRODUCT) == 0 {
        Ok(product / u128::from(PARTS_OF_PRODUCT))
    } else {
        Err(MacroFault::OffGrid)
    }
}

// A whole number of u, in such parts.
#[tactic(auto, unfolding(crate::specs::Values::whole_at))]
fn whole(text: &[u8], parameters: &[Decimal], unit: Unit) -> Result<u128, MacroFault>
    ensures value { result ≡ spec.whole_at text.now parameters.now unit }
{
    let n = extent(text, parameters, unit)?;
    Ok(u128::from(n) * u128::from(PARTS))
}

/// The diameter of a polygon, which may be a product, in parts of which a u has `PARTS`: at most `MOST_DIAMETER`; or its
/// fault.
#[tactic(auto, unfolding(crate::specs::Values::across_at))]
pub fn across(text: &[u8], parameters: &[Decimal], unit: Unit) -> Result<u64, MacroFault>
    ensures value { result ≡ spec.across_at text.now parameters.now unit }
    ensures small { IfOk result (λ d. d ≤ MOST_DIAMETER * PARTS) }
{
    let d = if is_product(text) {
        product(text, parameters, unit)?
    } else {
        whole(text, parameters, unit)?
    };
    if d > u128::from(MOST_DIAMETER * PARTS) {
        return Err(MacroFault::OutOfRange);
    }
    Ok(d as u64)
}

/// The point, in u, that the first two parts of a text are; or the first fault of the two.
#[tactic(auto, unfolding(crate::specs::Values::point_at))]
pub fn point(text: &[u8], parameters: &[Decimal], unit: Unit) -> Result<Spot, MacroFault>
    ensures value { result ≡ spec.point_at text.now parameters.now unit }
    ensures placed { IfOk result IsPlaced }
{
    let x = coordinate(part(0, text), parameters, unit)?;
    let y = coordinate(part(1, text), parameters, unit)?;
    Ok(Spot { x, y })
}
