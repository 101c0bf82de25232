//! The clause on opens.
ghost use Rattle.std.specs.Prelude.{◌≡◌, ◌<◌, ◌≤◌, ◌^◌, ◌+◌, ◌∷◌, ◌↔◌, List, drop, if◌then◌else◌, [], IsTrue, length, map};
ghost use Rattle.verdict.specs.Right.{all_opens, is_unconnected, opens_against};
ghost use Rattle.verdict.specs.Seats.{AreFirstSeats};
ghost use Rattle.verdict.specs.declared.verdict.PointLine.{PointLine};
ghost use Rattle.witness_check.specs.Opened.{IsPast, open_by};

use lengths::text::Text;
use verdict::{Open, Seat, SmallRows};

/// Whether the opens are those of all names, from the first point of each name on each net. The list is gone through
/// once, beside the names.
pub fn opens_hold(names: &[Text], groups: &[SmallRows<Seat>], opens: &[Open]) -> bool
    requires few { length names.now < 2 ^ 32 }
    requires long { length groups.now ≡ length names.now }
    ensures { (lines : List PointLine) → AreFirstSeats groups.now lines → IsTrue result ↔ (opens.now ≡ all_opens 0 names.now lines) }
{
    let mut next = 0;
    for n in 0..names.len() {
        let seats = groups[n].as_slice();
        let Some(after) = past_name(&names[n], n as u32, seats, opens, next) else {
            return false;
        };
        next = after;
    }
    next == opens.len()
}

// The place after the opens of a name, if they stand from this place on.
fn past_name(text: &Text, name: u32, seats: &[Seat], opens: &[Open], next: usize) -> Option<usize>
    requires { next ≤ length opens.now }
    ensures { IsPast opens.now (if is_unconnected text.now then [] else opens_against name seats.now) next result }
{
    if is_left_alone(text) {
        return Some(next);
    }
    let Some((home, rest)) = seats.split_first() else {
        return Some(next);
    };
    past_opens(name, home.net, rest, opens, next)
}

// Whether points of this name are to be joined to nothing.
fn is_left_alone(text: &Text) -> bool
    ensures { result ≡ is_unconnected text.now }
{
    text.as_bytes() == b"N/C".as_slice()
}

// The place after the opens of these seats against the home, if they stand from this place on.
fn past_opens(name: u32, home: u32, seats: &[Seat], opens: &[Open], next: usize) -> Option<usize>
    requires { next ≤ length opens.now }
    ensures { IsPast opens.now (map (open_by name home) seats.now) next result }
{
    let mut at = next;
    for i in 0..seats.len() {
        let wanted = Open {
            name,
            home,
            other: seats[i].net,
            probe: seats[i].probe,
        };
        if !stands_at(opens, at, wanted) {
            return None;
        }
        at += 1;
    }
    Some(at)
}

// Whether the open stands there in the list.
fn stands_at(opens: &[Open], at: usize, wanted: Open) -> bool
    ensures { IsTrue result ↔ (drop at opens.now ≡ wanted ∷ drop (at + 1) opens.now) }
{
    at < opens.len() && opens[at] == wanted
}
