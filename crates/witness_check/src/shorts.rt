//! The clause on shorts.
ghost use Rattle.std.specs.Prelude.{◌≡◌, ◌<◌, ◌^◌, ◌↔◌, IsTrue, length, map};
ghost use Rattle.verdict.specs.Right.{outline};
ghost use Rattle.verdict.specs.Seats.{branch_name, mark_name};
ghost use Rattle.witness_check.specs.Marked.{outline_of, outlines_from};

use verdict::{Branch, Mark, Short, SmallRows};

/// Whether the shorts are those of the nets with two marks or more, in their order, with a branch for each mark.
pub fn shorts_hold(marks: &[SmallRows<Mark>], shorts: &[Short]) -> bool
    requires few { length marks.now < 2 ^ 32 }
    ensures { IsTrue result ↔ (map outline shorts.now ≡ outlines_from 0 marks.now) }
{
    let mut next = 0;
    for n in 0..marks.len() {
        let row = marks[n].as_slice();
        if row.len() > 1 {
            if next == shorts.len() || !is_short_of(&shorts[next], n as u32, row) {
                return false;
            }
            next += 1;
        }
    }
    next == shorts.len()
}

// Whether a short is that of a net with these marks.
fn is_short_of(short: &Short, net: u32, marks: &[Mark]) -> bool
    ensures { IsTrue result ↔ (outline short.now ≡ outline_of net marks.now) }
{
    short.net == net && are_named(short.branches.as_slice(), marks)
}

// Whether the branches have the names of the marks.
fn are_named(branches: &[Branch], marks: &[Mark]) -> bool
    ensures { IsTrue result ↔ (map branch_name branches.now ≡ map mark_name marks.now) }
{
    if branches.len() != marks.len() {
        return false;
    }
    for i in 0..marks.len() {
        if branches[i].name != marks[i].name {
            return false;
        }
    }
    true
}
