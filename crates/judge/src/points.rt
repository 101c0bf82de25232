//! The lines of the points, and those without a net.
ghost use Rattle.std.specs.Prelude.{◌≡◌, ◌<◌, ◌^◌, length, IfOk, All, IfSome};
ghost use Rattle.verdict.specs.Right.{bare_from};
ghost use Rattle.judge.specs.Judged.{line_by, lines_by};

use board_shapes::Probe;
use lengths::rows::{NoMemory, Rows};
use std::alloc::Global;
use verdict::PointLine;

/// A line for each probe.
pub fn lines_of(
    alloc: Global,
    probes: &[Probe],
    homes: &[Option<u32>],
    numbers: &[u32],
) -> Result<Rows<PointLine>, NoMemory>
    requires long { length homes.now ≡ length probes.now }
    requires pieces { All (λ home. IfSome home (λ piece. piece < length numbers.now)) homes.now }
    ensures { IfOk result (λ lines. lines ≡ lines_by numbers.now probes.now homes.now) }
{
    let mut lines = Rows::with_capacity(alloc, probes.len())?;
    for i in 0..probes.len() {
        lines.push(line_of(probes[i], homes[i], numbers))?;
    }
    Ok(lines)
}

// The line of a probe.
fn line_of(probe: Probe, home: Option<u32>, numbers: &[u32]) -> PointLine
    requires { IfSome home (λ piece. piece < length numbers.now) }
    ensures { result ≡ line_by numbers.now probe home }
{
    let net = match home {
        Some(piece) => Some(numbers[piece as usize]),
        None => None,
    };
    PointLine {
        number: probe.number,
        layer: probe.layer,
        name: probe.name,
        net,
    }
}

/// The points without a net.
pub fn bare_of(alloc: Global, lines: &[PointLine]) -> Result<Rows<u32>, NoMemory>
    requires { length lines.now < 2 ^ 32 }
    ensures { IfOk result (λ bare. bare ≡ bare_from 0 lines.now) }
{
    let mut bare = Rows::new(alloc);
    for i in 0..lines.len() {
        if lines[i].net.is_none() {
            bare.push(i as u32)?;
        }
    }
    Ok(bare)
}
