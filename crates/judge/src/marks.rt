//! The names on each net.
ghost use Rattle.verdict.specs.Seats.{marks_at, marks_from, marks_of_seats, seats_at};
ghost use Rattle.std.specs.Prelude.{◌≡◌, ℕ, ◌<◌, ◌^◌, ◌++◌, length, All, IfOk, OnOk};

use lengths::rows::NoMemory;
use std::alloc::Global;
use verdict::{Mark, Seat, SmallRows, empty_small_rows};

/// For each of so many nets the names with a seat on it, rising.
pub fn marks_of(
    alloc: Global,
    nets: usize,
    groups: &[SmallRows<Seat>],
) -> Result<Vec<SmallRows<Mark>>, NoMemory>
    requires few { length groups.now < 2 ^ 32 }
    requires nets { (name : ℕ) → name < length groups.now → All (λ s. s.net < nets) (seats_at groups.now name) }
    ensures long { IfOk result (λ marks. length marks.items ≡ nets) }
    ensures marks { IfOk result (λ marks. (net : ℕ) → net < nets → marks_at marks.items net ≡ marks_from net 0 groups.now) }
{
    let mut marks = empty_small_rows(alloc, nets)?;
    mark_all(alloc, groups, marks.as_mut_slice())?;
    Ok(marks)
}

// Marks the nets of all names.
fn mark_all(
    alloc: Global,
    groups: &[SmallRows<Seat>],
    marks: &mut [SmallRows<Mark>],
) -> Result<(), NoMemory>
    requires few { length groups.now < 2 ^ 32 }
    requires nets { (name : ℕ) → name < length groups.now → All (λ s. s.net < length marks.old) (seats_at groups.now name) }
    ensures { OnOk result ((net : ℕ) → marks_at marks.new net ≡ marks_at marks.old net ++ (marks_from net 0 groups.now)) }
{
    for n in 0..groups.len() {
        mark_seats(alloc, n as u32, groups[n].as_slice(), marks)?;
    }
    Ok(())
}

// Marks the nets of a name.
fn mark_seats(
    alloc: Global,
    name: u32,
    seats: &[Seat],
    marks: &mut [SmallRows<Mark>],
) -> Result<(), NoMemory>
    requires { All (λ s. s.net < length marks.old) seats.now }
    ensures { OnOk result ((net : ℕ) → marks_at marks.new net ≡ marks_at marks.old net ++ (marks_of_seats name net seats.now)) }
{
    for seat in seats {
        let mark = Mark {
            name,
            probe: seat.probe,
        };
        marks[seat.net as usize].push(alloc, mark)?;
    }
    Ok(())
}
