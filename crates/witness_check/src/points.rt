//! The lines of points, and the points without a net.
ghost use Rattle.std.specs.Prelude.{◌≡◌, ◌<◌, ◌^◌, ◌↔◌, All, IfSome, IsTrue, length, slice_get, Some};
ghost use Rattle.verdict.specs.Right.{bare_from};
ghost use Rattle.verdict.specs.Seats.{net_by};
ghost use Rattle.witness_check.specs.Lines.{AreLinesBy, IsLineBy};

use board_shapes::Probe;
use verdict::PointLine;

/// Whether there is one line for each probe, with the probe's record, layer and name and the net of its home.
pub fn points_hold(
    probes: &[Probe],
    homes: &[Option<u32>],
    numbers: &[u32],
    lines: &[PointLine],
) -> bool
    requires long { length homes.now ≡ length probes.now }
    requires pieces { All (λ home. IfSome home (λ piece. piece < length numbers.now)) homes.now }
    ensures { IsTrue result ↔ AreLinesBy numbers.now probes.now homes.now lines.now }
{
    if lines.len() != probes.len() {
        return false;
    }
    for k in 0..probes.len() {
        if !is_line(probes[k], homes[k], numbers, lines[k]) {
            return false;
        }
    }
    true
}

// Whether the line is that of the probe.
fn is_line(probe: Probe, home: Option<u32>, numbers: &[u32], line: PointLine) -> bool
    requires { IfSome home (λ piece. piece < length numbers.now) }
    ensures { IsTrue result ↔ IsLineBy numbers.now probe home line }
{
    if line.number != probe.number || line.layer != probe.layer {
        return false;
    }
    line.name == probe.name && line.net == net_of(home, numbers)
}

// The net of a home.
fn net_of(home: Option<u32>, numbers: &[u32]) -> Option<u32>
    requires { IfSome home (λ piece. piece < length numbers.now) }
    ensures { result ≡ net_by numbers.now home }
{
    match home {
        Some(piece) => Some(numbers[piece as usize]),
        None => None,
    }
}

/// Whether the list is that of the points without a net, rising.
pub fn bare_holds(lines: &[PointLine], bare: &[u32]) -> bool
    requires { length lines.now < 2 ^ 32 }
    ensures { IsTrue result ↔ (bare.now ≡ bare_from 0 lines.now) }
{
    let mut at = 0;
    for i in 0..lines.len() {
        if lines[i].net.is_none() {
            if !stands_at(bare, at, i as u32) {
                return false;
            }
            at += 1;
        }
    }
    at == bare.len()
}

// Whether the number stands there in the list.
fn stands_at(list: &[u32], at: usize, number: u32) -> bool
    ensures { IsTrue result ↔ (slice_get list.now at ≡ Some number) }
{
    at < list.len() && list[at] == number
}
