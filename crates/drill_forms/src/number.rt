//! Numbers, some without a point.
ghost use Rattle.std.specs.Prelude.{◌≡◌, ◌<◌, ◌≤◌, ◌-◌, ◌++◌, ◌^◌, length, drop, true};
ghost use Rattle.std.specs.Str.Parse.{digits_value as value_of_digits};
ghost use Rattle.lengths.specs.Decimal.{front, back, is_number};
ghost use Rattle.texts.specs.LastDigits.{last_digits};
ghost use Rattle.drill_forms.specs.Numbers as spec;

use lengths::decimal::{Decimal, digits_value, has_minus, read_decimal, unsigned};
use std::marker::Model;
use texts::{after_byte, before_byte};

/// The bytes of a sign, 18 digits and a point.
const LONGEST: usize = 20;

/// A number, and how many bytes it has behind its sign.
#[derive(Clone, Copy)]
pub struct Number {
    value: Decimal,
    negative: bool,
    whole: u64,
    digits: usize,
}

impl Model for Number {
    ghost use Rattle.std.specs.Prelude.{◌≡◌, ◌<◌, ◌^◌, ℕ, Bool};
    ghost use Rattle.std.proofs.Common.{sym, ap, ◌∙◌};
    ghost use Rattle.drill_forms.specs.Numbers.{Number};

    ghost Value = { Number };

    ghost view = { λ n. record { value = n.value; digits = n.digits } };

    ghost invariant = { λ n. (n.negative ≡ n.value.negative) × (n.whole ≡ n.value.whole) × (n.whole < 10 ^ 18) };

    ghost inverse = { λ n. record { value = n.value; negative = n.value.negative; whole = n.value.whole; digits = n.digits } };

    ghost inverse_ok = { λ n h. ap (λ (b : Bool). record { value = n.value; negative = b; whole = n.value.whole; digits = n.digits }) (sym h.0) ∙ ap (λ (w : ℕ). record { value = n.value; negative = n.negative; whole = w; digits = n.digits }) (sym h.1) };
}

impl Number {
    /// The number itself.
    pub fn value(&self) -> Decimal
        ensures { result ≡ self.now.value }
    {
        self.value
    }

    /// How many bytes stand behind its sign.
    pub fn digits(&self) -> usize
        ensures { result ≡ self.now.digits }
    {
        self.digits
    }

    /// The number that its digits are with a point before the last so many of them.
    pub fn with_places(&self, places: usize) -> Decimal
        requires { places ≤ 18 }
        ensures { result ≡ spec.with_places self.now.value places }
    {
        let text = pointed_text(self.negative, self.whole, places);
        match read_decimal(&text) {
            Some(number) => number,
            None => self.value,
        }
    }
}

// Puts the last so many digits of a number before a place.
fn put_digits(text: &mut [u8; LONGEST], to: usize, count: usize, n: u64)
    requires few { count ≤ to }
    requires inside { to ≤ 20 }
    ensures long { length text.new ≡ 20 }
    ensures put { drop (to - count) text.new ≡ last_digits count n ++ drop to text.old }
{
    if count > 0 {
        text[to - 1] = b'0' + (n % 10) as u8;
        put_digits(text, to - 1, count - 1, n / 10)
    }
}

// A number as text with a point before its last so many digits.
fn pointed_text(negative: bool, whole: u64, places: usize) -> [u8; LONGEST]
    requires { places ≤ 18 }
    ensures { result ≡ spec.pointed_text negative whole places }
{
    let mut text = [b'.'; LONGEST];
    put_digits(&mut text, 20, places, whole);
    text[19 - places] = b'.';
    put_digits(
        &mut text,
        19 - places,
        18 - places,
        whole / 10u64.pow(places as u32),
    );
    text[0] = if negative { b'-' } else { b'+' };
    text
}

// What the digits before and behind the point of a decimal make.
fn whole_of(body: &[u8]) -> u64
    requires { is_number (front body.now ++ back body.now) ≡ true }
    ensures value { result ≡ value_of_digits 10 (front body.now ++ back body.now) }
    ensures bound { result < 10 ^ 18 }
{
    let before = digits_value(0, before_byte(body, b'.'));
    digits_value(before, after_byte(body, b'.'))
}

/// A number that may have no point.
#[tactic(auto, unfolding(crate::specs::Numbers::number_of))]
pub fn read_number(text: &[u8]) -> Option<Number>
    ensures { result ≡ spec.number_of text.now }
{
    let value = read_decimal(text)?;
    let body = unsigned(text);
    Some(Number {
        value,
        negative: has_minus(text),
        whole: whole_of(body),
        digits: body.len(),
    })
}
