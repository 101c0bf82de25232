//! The points of each name, grouped by nets.
ghost use Rattle.judge.specs.Seated.{AreSeated, HasNow, IsFurther, IsSeated, with_seat};
ghost use Rattle.verdict.specs.Seats.{AreFirstSeats, seats_at};
ghost use Rattle.std.specs.Prelude.{◌≡◌, ◌<◌, ◌^◌, [], length, All, IfOk, OnOk};

use indexmap::IndexSet;
use lengths::rows::NoMemory;
use std::alloc::Global;
use verdict::{PointLine, Seat, SmallRows, empty_small_rows};

/// For each of so many names its first point on each net, in the order of the points.
pub fn seats_of(
    alloc: Global,
    names: usize,
    lines: &[PointLine],
) -> Result<Vec<SmallRows<Seat>>, NoMemory>
    requires few { length lines.now < 2 ^ 32 }
    requires names { All (λ line. line.name < names) lines.now }
    ensures long { IfOk result (λ groups. length groups.items ≡ names) }
    ensures seats { IfOk result (λ groups. AreFirstSeats groups.items lines.now) }
{
    let mut groups = empty_small_rows(alloc, names)?;
    seat_points(alloc, lines, groups.as_mut_slice())?;
    Ok(groups)
}

// Gives each point on a net its seat, if it is the first of its name there.
fn seat_points(
    alloc: Global,
    lines: &[PointLine],
    groups: &mut [SmallRows<Seat>],
) -> Result<(), NoMemory>
    requires few { length lines.now < 2 ^ 32 }
    requires names { All (λ line. line.name < length groups.old) lines.now }
    requires empty { All (λ seats. seats ≡ []) groups.old }
    ensures { OnOk result (AreFirstSeats groups.new lines.now) }
{
    let mut pairs = IndexSet::new(alloc);
    seat_all(alloc, lines, &mut pairs, groups)
}

// The same with the pairs of a name and a further net that were met: most names are on one net. The caller drops them: that costs
// a proof much in a loop.
fn seat_all(
    alloc: Global,
    lines: &[PointLine],
    pairs: &mut IndexSet<(u32, u32)>,
    groups: &mut [SmallRows<Seat>],
) -> Result<(), NoMemory>
    requires few { length lines.now < 2 ^ 32 }
    requires names { All (λ line. line.name < length groups.old) lines.now }
    requires empty { All (λ seats. seats ≡ []) groups.old }
    requires agree { AreSeated pairs.old.keys groups.old }
    ensures { OnOk result (AreFirstSeats groups.new lines.now) }
{
    for i in 0..lines.len() {
        seat_line(alloc, &lines[i], i as u32, pairs, groups)?;
    }
    Ok(())
}

// Gives the point of that number its seat, if it is on a net.
fn seat_line(
    alloc: Global,
    line: &PointLine,
    probe: u32,
    pairs: &mut IndexSet<(u32, u32)>,
    groups: &mut [SmallRows<Seat>],
) -> Result<(), NoMemory>
    requires name { line.now.name < length groups.old }
    requires agree { AreSeated pairs.old.keys groups.old }
    ensures agree { OnOk result (AreSeated pairs.new.keys groups.new) }
    ensures seated { OnOk result (IsSeated line.now probe groups.old groups.new) }
{
    match line.net {
        None => Ok(()),
        Some(net) => seat_point(alloc, line.name, Seat { net, probe }, pairs, groups),
    }
}

// Gives a point its seat, if no point of its name has one on its net.
fn seat_point(
    alloc: Global,
    name: u32,
    seat: Seat,
    pairs: &mut IndexSet<(u32, u32)>,
    groups: &mut [SmallRows<Seat>],
) -> Result<(), NoMemory>
    requires name { name < length groups.old }
    requires agree { AreSeated pairs.old.keys groups.old }
    ensures agree { OnOk result (AreSeated pairs.new.keys groups.new) }
    ensures seated { OnOk result (HasNow name (with_seat (seats_at groups.old name) seat) groups.old groups.new) }
{
    match groups[name as usize].as_slice() {
        [] => groups[name as usize].push(alloc, seat),
        [first, ..] => if first.net == seat.net {
            Ok(())
        } else {
            seat_further(alloc, name, seat, pairs, groups)
        },
    }
}

// Gives a point its seat, where its name has one on another net, if none of these is on its net.
#[tactic(auto, using(crate::proofs::FirstSeats::has_further))]
fn seat_further(
    alloc: Global,
    name: u32,
    seat: Seat,
    pairs: &mut IndexSet<(u32, u32)>,
    groups: &mut [SmallRows<Seat>],
) -> Result<(), NoMemory>
    requires name { name < length groups.old }
    requires further { IsFurther (seats_at groups.old name) seat }
    requires agree { AreSeated pairs.old.keys groups.old }
    ensures agree { OnOk result (AreSeated pairs.new.keys groups.new) }
    ensures seated { OnOk result (HasNow name (with_seat (seats_at groups.old name) seat) groups.old groups.new) }
{
    let first = pairs.insert((name, seat.net))?;
    if first {
        groups[name as usize].push(alloc, seat)?;
    }
    Ok(())
}
