//! The definition of an aperture by a macro.
ghost use Rattle.std.specs.Prelude.{◌≡◌, IfOk, option_map};
ghost use Rattle.std.specs.List.{count_by};
ghost use Rattle.apertures.specs.Definition.{is_x};
ghost use Rattle.gerber_reading.specs.Tools as spec;

use lengths::decimal::{Decimal, read_decimal};
use lengths::rows::NoMemory;
use std::alloc::Global;
use texts::{after_byte, before_byte, has};

// How often `X` stands in a text.
fn count(text: &[u8]) -> usize
    ensures { result ≡ count_by is_x text.now }
{
    text.iter().filter(|b| **b == b'X').count()
}

// So many decimals, cut at `X`.
#[tactic(auto, unfolding(crate::specs::Tools::decimals_in))]
fn decimals(alloc: Global, n: usize, text: &[u8]) -> Result<Option<Vec<Decimal>>, NoMemory>
    ensures { IfOk result (λ ds. option_map (λ v. v.items) ds ≡ spec.decimals_in n text.now) }
{
    let mut decimals = Vec::new(alloc);
    let mut rest = text;
    for _ in 0..n {
        let Some(decimal) = read_decimal(before_byte(rest, b'X')) else {
            return Ok(None);
        };
        if let Err(_) = decimals.push(decimal) {
            return Err(NoMemory);
        }
        rest = after_byte(rest, b'X');
    }
    Ok(Some(decimals))
}

/// The parameters of an aperture of a macro, where all are decimals.
#[tactic(auto, unfolding(crate::specs::Tools::parameters_in))]
pub fn read_parameters(alloc: Global, text: &[u8]) -> Result<Option<Vec<Decimal>>, NoMemory>
    ensures { IfOk result (λ ds. option_map (λ v. v.items) ds ≡ spec.parameters_in text.now) }
{
    if !has(text, b',') {
        return Ok(Some(Vec::new(alloc)));
    }
    let text = after_byte(text, b',');
    decimals(alloc, count(text) + 1, text)
}
