//! The summary of a verdict on a made board.
ghost use Rattle.reports.specs.Summary.{summary_text};
ghost use Rattle.std.specs.Prelude.{IfOk, ◌≡◌};

use crate::pieces::joined;
use lengths::rows::NoMemory;
use std::alloc::Global;
use texts::Numeral;
use verdict::Verdict;

/// The summary of a verdict on the made board of both numbers.
pub fn summary_of(
    alloc: Global,
    seed: u64,
    size: u32,
    verdict: &Verdict,
) -> Result<Vec<u8>, NoMemory>
    ensures { IfOk result (λ text. text.items ≡ summary_text seed size verdict.now) }
{
    joined(
        alloc,
        &[
            b"trial ",
            Numeral::of(seed).as_bytes(),
            b" ",
            Numeral::of(u64::from(size)).as_bytes(),
            b"\npieces ",
            Numeral::of(u64::from(verdict.pieces)).as_bytes(),
            b"\nnets ",
            Numeral::of(verdict.nets.as_slice().len() as u64).as_bytes(),
            b"\npoints ",
            Numeral::of(verdict.points.as_slice().len() as u64).as_bytes(),
            b"\nopens ",
            Numeral::of(verdict.opens.as_slice().len() as u64).as_bytes(),
            b"\nshorts ",
            Numeral::of(verdict.shorts.as_slice().len() as u64).as_bytes(),
            b"\nmissing ",
            Numeral::of(verdict.bare.as_slice().len() as u64).as_bytes(),
            b"\n",
        ],
    )
}
