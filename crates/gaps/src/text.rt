//! The text of a list of gaps.
ghost use Rattle.gaps.specs.GapsText.{gap_line, gaps_text, head_line};
ghost use Rattle.std.specs.Prelude.{IfOk, OnOk, ◌++◌, ◌≡◌};

use super::gap::Gap;
use lengths::rows::NoMemory;
use std::alloc::{AllocError, Global};
use texts::{put, put_blank_number};

/// Appends the line that tells the distance and how many gaps there are.
fn push_head(out: &mut Vec<u8>, nanometres: u32, count: u64) -> Result<(), AllocError>
    ensures { OnOk result (out.new.items ≡ out.old.items ++ head_line nanometres count) }
{
    put(out, b"gaps")?;
    put_blank_number(out, u64::from(nanometres))?;
    put_blank_number(out, count)?;
    put(out, b"\n")
}

/// Appends the line of a gap.
fn push_gap(out: &mut Vec<u8>, gap: &Gap) -> Result<(), AllocError>
    ensures { OnOk result (out.new.items ≡ out.old.items ++ gap_line gap.now) }
{
    put(out, b"gap")?;
    put_blank_number(out, u64::from(gap.layer))?;
    put_blank_number(out, u64::from(gap.low))?;
    put_blank_number(out, u64::from(gap.high))?;
    put_blank_number(out, u64::from(gap.first))?;
    put_blank_number(out, u64::from(gap.second))?;
    put(out, b"\n")
}

/// The text of the gaps at a distance in nanometres.
pub fn write_gaps(alloc: Global, nanometres: u32, gaps: &[Gap]) -> Result<Vec<u8>, NoMemory>
    ensures { IfOk result (λ text. text.items ≡ gaps_text nanometres gaps.now) }
{
    let mut out = Vec::new(alloc);
    push_head(&mut out, nanometres, gaps.len() as u64)?;
    for gap in gaps {
        push_gap(&mut out, gap)?;
    }
    Ok(out)
}
