//! The first point of each name on each net, and the names on each net, found by the audit's own way: rows of points by
//! names, thinned with one stamp a name.
ghost use Rattle.std.specs.Prelude.{◌≡◌, ◌≢◌, ℕ, ◌+◌, ◌<◌, ◌^◌, ◌++◌, [], length, All, IfOk, IfSome, OnOk};
ghost use Rattle.verdict.specs.Right.{fresh};
ghost use Rattle.verdict.specs.Seats.{AreFirstSeats, marks_at, marks_from, marks_of_seats, seats_at};
ghost use Rattle.witness_check.specs.Marked.{AreUpTo};
ghost use Rattle.witness_check.specs.Seated.{HaveFirsts, Takes, begins_on};

use lengths::rows::NoMemory;
use std::alloc::Global;
use verdict::{Mark, PointLine, Seat, SmallRows, empty_small_rows};

/// What the points say of names and nets.
#[derive(Drop)]
pub struct Groups {
    /// For each name its first point on each net, in the order of the points.
    pub seats: Vec<SmallRows<Seat>>,
    /// For each net the names with a point on it, rising, and the first point of each.
    pub marks: Vec<SmallRows<Mark>>,
}

/// The points grouped for so many names and nets.
pub fn groups_of(
    alloc: Global,
    names: usize,
    nets: usize,
    lines: &[PointLine],
) -> Result<Groups, NoMemory>
    requires few { length lines.now < 2 ^ 32 }
    requires few_names { names < 2 ^ 32 }
    requires names { All (λ line. line.name < names) lines.now }
    requires netted { All (λ line. IfSome line.net (λ net. net < nets)) lines.now }
    ensures long { IfOk result (λ groups. length groups.seats.items ≡ names) }
    ensures seats { IfOk result (λ groups. AreFirstSeats groups.seats.items lines.now) }
    ensures wide { IfOk result (λ groups. length groups.marks.items ≡ nets) }
    ensures marks { IfOk result (λ groups. (net : ℕ) → net < nets → marks_at groups.marks.items net ≡ marks_from net 0 groups.seats.items) }
{
    let rows = seats_of_names(alloc, names, lines)?;
    let mut marks = empty_small_rows(alloc, nets)?;
    let seats = first_seats(alloc, rows.as_slice(), lines, marks.as_mut_slice())?;
    Ok(Groups { seats, marks })
}

// For each name its first seat on each net, of seats that have them. Each leaves a mark on its net.
fn first_seats(
    alloc: Global,
    rows: &[SmallRows<Seat>],
    lines: &[PointLine],
    marks: &mut [SmallRows<Mark>],
) -> Result<Vec<SmallRows<Seat>>, NoMemory>
    requires few { length rows.now < 2 ^ 32 }
    requires have { HaveFirsts rows.now lines.now }
    requires netted { All (λ line. IfSome line.net (λ net. net < length marks.old)) lines.now }
    requires empty { All (λ row. row ≡ []) marks.old }
    ensures long { IfOk result (λ groups. length groups.items ≡ length rows.now) }
    ensures seats { IfOk result (λ groups. AreFirstSeats groups.items lines.now) }
    ensures marks { IfOk result (λ groups. (net : ℕ) → marks_at marks.new net ≡ marks_from net 0 groups.items) }
{
    let mut table = vec![in alloc; 0; marks.len()]?;
    let stamps = table.as_mut_slice();
    let mut groups = Vec::with_capacity(alloc, rows.len())?;
    for name in 0..rows.len() {
        groups.push(firsts(alloc, name as u32, rows[name].as_slice(), stamps, marks)?)?;
    }
    Ok(groups)
}

// For each of so many names its points on nets in their order, but no further ones on the net of the first.
fn seats_of_names(
    alloc: Global,
    names: usize,
    lines: &[PointLine],
) -> Result<Vec<SmallRows<Seat>>, NoMemory>
    requires few { length lines.now < 2 ^ 32 }
    requires names { All (λ line. line.name < names) lines.now }
    ensures long { IfOk result (λ rows. length rows.items ≡ names) }
    ensures seats { IfOk result (λ rows. HaveFirsts rows.items lines.now) }
{
    let mut table = empty_small_rows(alloc, names)?;
    seat_all(alloc, lines, table.as_mut_slice())?;
    Ok(table)
}

// Gives each point on a net its seat, unless it stands on the net of its name's first.
fn seat_all(
    alloc: Global,
    lines: &[PointLine],
    rows: &mut [SmallRows<Seat>],
) -> Result<(), NoMemory>
    requires few { length lines.now < 2 ^ 32 }
    requires names { All (λ line. line.name < length rows.old) lines.now }
    requires empty { All (λ row. row ≡ []) rows.old }
    ensures { OnOk result (HaveFirsts rows.new lines.now) }
{
    for i in 0..lines.len() {
        if let Some(net) = lines[i].net {
            let seat = Seat {
                net,
                probe: i as u32,
            };
            seat_one(alloc, lines[i].name, seat, rows)?;
        }
    }
    Ok(())
}

// Gives a point its seat, behind those of its name. On the net of their first it is not the first, and is left out.
fn seat_one(
    alloc: Global,
    name: u32,
    seat: Seat,
    rows: &mut [SmallRows<Seat>],
) -> Result<(), NoMemory>
    requires { name < length rows.old }
    ensures long { OnOk result (length rows.new ≡ length rows.old) }
    ensures seats { OnOk result (Takes (seats_at rows.old name) seat (seats_at rows.new name)) }
    ensures others { OnOk result ((other : ℕ) → other ≢ name → seats_at rows.new other ≡ seats_at rows.old other) }
{
    if begins_on(rows[name as usize].as_slice(), seat.net) {
        return Ok(());
    }
    rows[name as usize].push(alloc, seat)
}

// Whether the first seat is on this net.
fn begins_on(seats: &[Seat], net: u32) -> bool
    ensures { result ≡ begins_on net seats.now }
{
    match seats {
        [first, ..] => first.net == net,
        [] => false,
    }
}

// The first seat of a name on each net. Their nets get a stamp, the number after the name's, and a mark of the name.
fn firsts(
    alloc: Global,
    name: u32,
    seats: &[Seat],
    stamps: &mut [usize],
    marks: &mut [SmallRows<Mark>],
) -> Result<SmallRows<Seat>, NoMemory>
    requires nets { All (λ s. s.net < length stamps.old) seats.now }
    requires room { length stamps.old ≡ length marks.old }
    requires lower { AreUpTo name stamps.old }
    ensures firsts { IfOk result (λ row. row ≡ fresh [] seats.now) }
    ensures marks { IfOk result (λ row. (net : ℕ) → marks_at marks.new net ≡ marks_at marks.old net ++ marks_of_seats name net row) }
    ensures highest { AreUpTo (name + 1) stamps.new }
{
    let stamp = name as usize + 1;
    let mut row = SmallRows::new();
    for i in 0..seats.len() {
        let seat = seats[i];
        let net = seat.net as usize;
        if stamps[net] != stamp {
            stamps[net] = stamp;
            let probe = seat.probe;
            marks[net].push(alloc, Mark { name, probe })?;
            row.push(alloc, seat)?;
        }
    }
    Ok(row)
}
