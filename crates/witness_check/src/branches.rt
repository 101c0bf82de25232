//! The clause on branches.
ghost use Rattle.std.specs.Prelude.{◌≡◌, ℕ, ◌<◌, ◌≤◌, ◌↔◌, IsTrue, length, map, List, ◌∷◌, [], ◌++◌, Some, None, All, slice_index_or, IfOk};
ghost use Rattle.verdict.specs.Forest.{first_piece, net_at};
ghost use Rattle.verdict.specs.Places.{HasPlaces};
ghost use Rattle.verdict.specs.Right.{AreBranches, BeginsAt, BeginsAtHome, HasBranches, HasParent, IsBranch, IsPath};
ghost use Rattle.verdict.specs.Seats.{AreFirst, IsFirst, branch_name, mark_name};
ghost use Rattle.verdict.specs.declared.verdict.PointLine.{PointLine};
ghost use Rattle.witness_check.specs.Marked.{AreStamped, AreUpTo, HasMarks};

use crate::nets::first_of;
use lengths::rows::NoMemory;
use std::alloc::Global;
use verdict::{Branch, Mark, Short, SmallRows, Tree, Twig};

/// Whether the branches of all shorts are right. The shorts have the names of the marks on their nets, and each mark
/// says which point its branch has; points and pieces of branches may be any numbers. The ends of a short's branches are
/// the pieces with its stamp, so one table serves all shorts. The one error is want of memory.
pub fn branches_hold(
    alloc: Global,
    nets: &[Tree],
    marks: &[SmallRows<Mark>],
    places: &[usize],
    homes: &[Option<u32>],
    shorts: &[Short],
) -> Result<bool, NoMemory>
    requires placed { (i : ℕ) → i < length nets.now → HasPlaces (net_at nets.now i) places.now }
    requires long { length marks.now ≡ length nets.now }
    requires marked { All (HasMarks marks.now) shorts.now }
    ensures { IfOk result (λ yes. (lines : List PointLine) → AreFirst lines marks.now → IsTrue yes ↔ All (HasBranches nets.now (BeginsAtHome homes.now) lines) shorts.now) }
{
    let mut ends = vec![in alloc; 0; places.len().max(1)]?;
    let stamps = ends.as_mut_slice();
    for i in 0..shorts.len() {
        let short = &shorts[i];
        let net = nets[short.net as usize].as_slice();
        let names = marks[short.net as usize].as_slice();
        let branches = short.branches.as_slice();
        stamps[first_of(net)] = i + 1;
        if !are_branches(net, places, homes, names, branches, i + 1, stamps) {
            return Ok(false);
        }
    }
    Ok(true)
}

// Whether the branches of a short are right. The pieces of those that are get the stamp, which its net's first piece has.
fn are_branches(
    net: &[Twig],
    places: &[usize],
    homes: &[Option<u32>],
    marks: &[Mark],
    branches: &[Branch],
    stamp: usize,
    stamps: &mut [usize],
) -> bool
    requires places { HasPlaces net.now places.now }
    requires room { length places.now ≤ length stamps.old }
    requires some { 0 < stamp }
    requires first { AreStamped (first_piece net.now ∷ []) stamp stamps.old }
    requires highest { AreUpTo stamp stamps.old }
    requires names { map branch_name branches.now ≡ map mark_name marks.now }
    ensures right { (number : ℕ) (lines : List PointLine) → All (IsFirst number lines) marks.now → IsTrue result ↔ AreBranches net.now (BeginsAtHome homes.now) lines number (first_piece net.now ∷ []) branches.now }
    ensures highest { AreUpTo stamp stamps.new }
{
    for i in 0..branches.len() {
        let branch = &branches[i];
        if !is_branch(net, places, homes, marks[i], branch, stamp, stamps) {
            return false;
        }
        stamp_all(branch.pieces.as_slice(), stamp, stamps);
    }
    true
}

// Whether a branch is that of a mark. The pieces with the stamp are the ends.
fn is_branch(
    net: &[Twig],
    places: &[usize],
    homes: &[Option<u32>],
    mark: Mark,
    branch: &Branch,
    stamp: usize,
    stamps: &[usize],
) -> bool
    requires places { HasPlaces net.now places.now }
    requires room { length places.now ≤ length stamps.now }
    requires some { 0 < stamp }
    requires name { branch.now.name ≡ mark.name }
    ensures right { (number : ℕ) (lines : List PointLine) (ends : List ℕ) → IsFirst number lines mark → AreStamped ends stamp stamps.now → IsTrue result ↔ IsBranch net.now (BeginsAtHome homes.now) lines number ends branch.now }
    ensures inside { IsTrue result → All (λ piece. piece < length stamps.now) branch.now.pieces }
{
    let pieces = branch.pieces.as_slice();
    branch.probe == mark.probe
        && begins_at_home(pieces, homes, mark.probe)
        && is_path(net, places, pieces, stamp, stamps)
}

// Whether the first piece is the home of the point.
fn begins_at_home(pieces: &[u32], homes: &[Option<u32>], probe: u32) -> bool
    ensures { IsTrue result ↔ BeginsAt (BeginsAtHome homes.now probe) pieces.now }
{
    match pieces.first() {
        Some(first) => home_of(homes, probe) == Some(*first),
        None => false,
    }
}

// The home of a point, if it has one.
fn home_of(homes: &[Option<u32>], probe: u32) -> Option<u32>
    ensures { result ≡ slice_index_or homes.now probe None }
{
    match homes.get(probe as usize) {
        Some(home) => *home,
        None => None,
    }
}

// Whether each piece has the next as its parent, and the last is the only one with the stamp.
fn is_path(net: &[Twig], places: &[usize], pieces: &[u32], stamp: usize, stamps: &[usize]) -> bool
    requires places { HasPlaces net.now places.now }
    requires room { length places.now ≤ length stamps.now }
    requires some { 0 < stamp }
    ensures path { (ends : List ℕ) → AreStamped ends stamp stamps.now → IsTrue result ↔ IsPath net.now ends pieces.now }
    ensures inside { IsTrue result → All (λ piece. piece < length stamps.now) pieces.now }
{
    if pieces.is_empty() {
        return false;
    }
    let last = pieces.len() - 1;
    for i in 0..last {
        let piece = pieces[i];
        if value_of(stamps, piece) == stamp || !has_parent(net, places, piece, pieces[i + 1]) {
            return false;
        }
    }
    value_of(stamps, pieces[last]) == stamp
}

// What the table has for a piece, or 0 past its end.
fn value_of(table: &[usize], piece: u32) -> usize
    ensures { result ≡ slice_index_or table.now piece 0 }
{
    match table.get(piece as usize) {
        Some(value) => *value,
        None => 0,
    }
}

// Whether in the net the one piece has the other as its parent.
fn has_parent(net: &[Twig], places: &[usize], piece: u32, parent: u32) -> bool
    requires places { HasPlaces net.now places.now }
    ensures { IsTrue result ↔ HasParent net.now piece parent }
{
    match net.get(value_of(places, piece)) {
        Some(twig) => twig.piece == piece && twig.parent == Some(parent),
        None => false,
    }
}

// Gives the pieces the stamp.
fn stamp_all(pieces: &[u32], stamp: usize, stamps: &mut [usize])
    requires inside { All (λ piece. piece < length stamps.old) pieces.now }
    requires highest { AreUpTo stamp stamps.old }
    ensures stamped { (ends : List ℕ) → AreStamped ends stamp stamps.old → AreStamped (ends ++ pieces.now) stamp stamps.new }
    ensures highest { AreUpTo stamp stamps.new }
{
    for piece in pieces {
        stamps[*piece as usize] = stamp;
    }
}
