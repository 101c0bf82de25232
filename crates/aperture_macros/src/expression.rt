//! How lengths are written.
ghost use Rattle.std.specs.Prelude.{◌≡◌, ◌≤◌, IfSome, length};
ghost use Rattle.aperture_macros.specs.Expression as spec;

use lengths::decimal::{read_decimal, small_value, unsigned};
use texts::{ByteClass, all_digits, run_len};

/// The most terms of an expression.
pub const MOST_TERMS: u32 = 64;

fn is_sign(byte: u8) -> bool
    ensures { result ≡ spec.is_sign byte }
{
    byte == b'+' || byte == b'-'
}

// What is no sign.
struct Plain;

impl ByteClass for Plain {
    ghost member = { spec.is_plain };

    fn has(byte: u8) -> bool {
        !is_sign(byte)
    }
}

// One where a sign stands in front.
fn sign_len(text: &[u8]) -> usize
    ensures value { result ≡ spec.sign_len text.now }
    ensures within { result ≤ length text.now }
{
    match text {
        [b'+' | b'-', ..] => 1,
        _ => 0,
    }
}

// How long the first term is, with the sign before it.
fn term_len(text: &[u8]) -> usize
    ensures value { result ≡ spec.term_len text.now }
    ensures within { result ≤ length text.now }
{
    let sign = sign_len(text);
    sign + run_len::<Plain>(&text[sign..])
}

/// The first term, with the sign before it.
pub fn first_term(text: &[u8]) -> &[u8]
    ensures { result.now ≡ spec.first_term text.now }
{
    &text[..term_len(text)]
}

/// The terms behind the first.
pub fn further_terms(text: &[u8]) -> &[u8]
    ensures { result.now ≡ spec.further_terms text.now }
{
    &text[term_len(text)..]
}

// The number that 1 to 3 digits spell, if it is not 0.
fn parameter_number(digits: &[u8]) -> Option<u32>
    ensures value { result ≡ spec.parameter_number digits.now }
    ensures some { IfSome result (λ k. 1 ≤ k) }
{
    if digits.is_empty() || digits.len() > 3 {
        return None;
    }
    if !all_digits(digits) {
        return None;
    }
    let k = small_value(digits);
    if k == 0 { None } else { Some(k) }
}

/// The number of the parameter that `$` and digits name, or `None` where the text is no such term.
pub fn variable_number(text: &[u8]) -> Option<u32>
    ensures value { result ≡ spec.variable_number text.now }
    ensures some { IfSome result (λ k. 1 ≤ k) }
{
    match text {
        [b'$', digits @ ..] => parameter_number(digits),
        _ => None,
    }
}

fn is_term(text: &[u8]) -> bool
    ensures { result ≡ spec.is_term text.now }
{
    variable_number(unsigned(text)).is_some() || read_decimal(text).is_some()
}

// What is no `x` or `X`.
struct Untimed;

impl ByteClass for Untimed {
    ghost member = { spec.is_untimed };

    fn has(byte: u8) -> bool {
        !(byte == b'x' || byte == b'X')
    }
}

/// What stands before the first `x` or `X`.
pub fn first_factor(text: &[u8]) -> &[u8]
    ensures { result.now ≡ spec.first_factor text.now }
{
    &text[..run_len::<Untimed>(text)]
}

/// What stands behind it, or nothing where there is none.
pub fn second_factor(text: &[u8]) -> &[u8]
    ensures { result.now ≡ spec.second_factor text.now }
{
    let at = run_len::<Untimed>(text);
    if at < text.len() {
        &text[at + 1..]
    } else {
        &text[at..]
    }
}

fn is_factor(text: &[u8]) -> bool
    ensures { result ≡ spec.is_factor text.now }
{
    sign_len(text) == 0 && is_term(text)
}

/// Whether a text is a product: two terms without a sign, with `x` or `X` between them.
#[tactic(auto, unfolding(crate::specs::Expression::is_product))]
pub fn is_product(text: &[u8]) -> bool
    ensures { result ≡ spec.is_product text.now }
{
    is_factor(first_factor(text)) && is_factor(second_factor(text))
}

/// Whether a text is an expression: an optional sign and 1 to `MOST_TERMS` terms joined by `+` or `-`, each an
/// unsigned decimal or `$` with a number from 1 to 999.
#[tactic(auto, unfolding(crate::specs::Expression::is_expression))]
pub fn is_expression(text: &[u8]) -> bool
    ensures { result ≡ spec.is_expression text.now }
{
    !text.is_empty() && is_sum(MOST_TERMS, text)
}

// Whether the text is at most so many terms.
#[tactic(auto, unfolding(crate::specs::Expression::is_sum))]
fn is_sum(most: u32, text: &[u8]) -> bool
    ensures { result ≡ spec.is_sum most text.now }
{
    let mut rest = text;
    for _ in 0..most {
        if rest.is_empty() {
            return true;
        }
        let one = first_term(rest);
        if !is_term(one) {
            return false;
        }
        rest = further_terms(rest);
    }
    rest.is_empty()
}
