//! The clauses that speak of nets alone.
ghost use Rattle.board_shapes.specs.Plain.{plain_board};
ghost use Rattle.board_shapes.specs.Tables.{IsNear};
ghost use Rattle.std.specs.Prelude.{◌≡◌, ◌≢◌, ℕ, ◌+◌, ◌<◌, ◌≤◌, ◌^◌, ◌↔◌, IsTrue, length, None, Contains, slice_index_or, IfOk, MatchOption};
ghost use Rattle.verdict.specs.Forest.{AreTrees, StandOnce, Holds, pieces_of, first_piece};
ghost use Rattle.witness_check.specs.Nets.{AreNew, HangsByStamp, HasStanding, IsKnownTree, IsStood, twig_count};

use crate::contacts::are_joined;
use board_shapes::Board;
use lengths::rows::NoMemory;
use std::alloc::Global;
use std::sync::ledger::Ledger;
use steps::Steps;
use verdict::{Tree, Twig};

/// Whether each net is a tree of pieces of the board, and their first pieces rise. At most one contact test a twig.
pub fn are_trees<L: Ledger>(
    alloc: Global,
    board: &Board,
    nets: &[Tree],
    tests: &mut Steps<L>,
) -> Result<bool, NoMemory>
    ensures trees { IfOk result (λ yes. IsTrue yes ↔ AreTrees (length (plain_board board.now).pieces) (IsNear (plain_board board.now)) nets.now) }
    ensures tests { tests.new ≤ tests.old + twig_count nets.now }
{
    let mut stamps = vec![in alloc; 0; board.pieces().len()]?;
    Ok(all_trees(board, nets, stamps.as_mut_slice(), tests))
}

// The same, by a table without a stamp.
// Not inlined, so that its loops have the registers.
#[inline(never)]
fn all_trees<L: Ledger>(
    board: &Board,
    nets: &[Tree],
    stamps: &mut [usize],
    tests: &mut Steps<L>,
) -> bool
    requires flags { length stamps.old ≡ length (plain_board board.now).pieces }
    requires none { (q : ℕ) → slice_index_or stamps.old q 0 ≡ 0 }
    ensures trees { IsTrue result ↔ AreTrees (length (plain_board board.now).pieces) (IsNear (plain_board board.now)) nets.now }
    ensures tests { tests.new ≤ tests.old + twig_count nets.now }
{
    let mut floor = 0;
    for i in 0..nets.len() {
        let net = nets[i].as_slice();
        if !is_tree(board, net, stamps, i + 1, tests) {
            return false;
        }
        let first = first_of(net);
        if first < floor {
            return false;
        }
        floor = first + 1;
    }
    true
}

/// The first piece of a net.
pub fn first_of(net: &[Twig]) -> usize
    ensures value { result ≡ first_piece net.now }
    ensures few { result < 2 ^ 32 }
{
    match net {
        [first, ..] => first.piece as usize,
        [] => 0,
    }
}

// Whether a net is a tree of pieces of the board. Its pieces get the stamp.
fn is_tree<L: Ledger>(
    board: &Board,
    net: &[Twig],
    stamps: &mut [usize],
    stamp: usize,
    tests: &mut Steps<L>,
) -> bool
    requires flags { length stamps.old ≡ length (plain_board board.now).pieces }
    requires fresh { (q : ℕ) → slice_index_or stamps.old q 0 < stamp }
    ensures tree { IsTrue result ↔ IsKnownTree (length (plain_board board.now).pieces) (IsNear (plain_board board.now)) net.now }
    ensures stamps { (q : ℕ) → slice_index_or stamps.new q 0 ≤ stamp }
    ensures tests { tests.new ≤ tests.old + length net.now }
{
    if net.is_empty() {
        return false;
    }
    let root = net[0];
    if !is_root(root, stamps.len()) {
        return false;
    }
    stamps[root.piece as usize] = stamp;
    for j in 1..net.len() {
        let twig = net[j];
        if !hangs(board, twig, root.piece, stamps, stamp, tests) {
            return false;
        }
        stamps[twig.piece as usize] = stamp;
    }
    true
}

// Whether a twig is a piece of the board without a parent.
fn is_root(twig: Twig, count: usize) -> bool
    ensures { IsTrue result ↔ (twig.piece < count) × (twig.parent ≡ None) }
{
    match twig.parent {
        Some(_) => false,
        None => (twig.piece as usize) < count,
    }
}

// Whether a twig hangs on a stamped piece.
fn hangs<L: Ledger>(
    board: &Board,
    twig: Twig,
    first: u32,
    stamps: &[usize],
    stamp: usize,
    tests: &mut Steps<L>,
) -> bool
    requires flags { length stamps.now ≡ length (plain_board board.now).pieces }
    ensures hangs { IsTrue result ↔ HangsByStamp (length (plain_board board.now).pieces) (IsNear (plain_board board.now)) stamps.now stamp first twig }
    ensures tests { tests.new ≤ tests.old + 1 }
{
    let Some(parent) = twig.parent else {
        return false;
    };
    let piece = twig.piece as usize;
    let parent = parent as usize;
    if piece >= stamps.len() || parent >= stamps.len() {
        return false;
    }
    if twig.piece < first || stamps[parent] != stamp {
        return false;
    }
    are_joined(board, parent, piece, tests)
}

/// Where each piece stands: the number of its net, and its place there.
#[derive(Drop)]
pub struct Standing {
    pub numbers: Vec<u32>,
    pub places: Vec<usize>,
}

/// Where each piece stands, if each stands once in one net.
pub fn standing_of(alloc: Global, nets: &[Tree], count: usize) -> Result<Option<Standing>, NoMemory>
    requires few { length nets.now < 2 ^ 32 }
    requires known { (i piece : ℕ) → Holds nets.now i piece → piece < count }
    ensures { IfOk result (λ found. MatchOption found (StandOnce count nets.now → ⊥) (λ s. HasStanding count nets.now s.numbers.items s.places.items)) }
{
    let mut numbers = vec![in alloc; u32::MAX; count]?;
    let mut places = vec![in alloc; 0; count]?;
    if !stand_once(nets, numbers.as_mut_slice(), places.as_mut_slice()) {
        return Ok(None);
    }
    Ok(Some(Standing { numbers, places }))
}

// Whether each piece stands once in one net, for pieces that have no number yet. The tables get where each stands.
// Not inlined, so that its loops have the registers.
#[inline(never)]
fn stand_once(nets: &[Tree], numbers: &mut [u32], places: &mut [usize]) -> bool
    requires few { length nets.now < 2 ^ 32 }
    requires known { (i piece : ℕ) → Holds nets.now i piece → piece < length numbers.old }
    requires room { length places.old ≡ length numbers.old }
    requires none { (p : ℕ) → p < length numbers.old → slice_index_or numbers.old p 0 ≡ 4294967295 }
    ensures once { IsTrue result ↔ StandOnce (length numbers.old) nets.now }
    ensures tables { IsTrue result → HasStanding (length numbers.old) nets.now numbers.new places.new }
{
    for i in 0..nets.len() {
        if !stand_net(nets[i].as_slice(), i as u32, numbers, places) {
            return false;
        }
    }
    all_numbered(numbers)
}

// Whether the pieces of a net are different and have no number. They get the net's number, and their places.
fn stand_net(net: &[Twig], number: u32, numbers: &mut [u32], places: &mut [usize]) -> bool
    requires known { (p : ℕ) → Contains (pieces_of net.now) p → p < length numbers.old }
    requires room { length places.old ≡ length numbers.old }
    requires number { number < 4294967295 }
    ensures new { IsTrue result ↔ AreNew 4294967295 net.now numbers.old }
    ensures tables { IsTrue result → IsStood number net.now numbers.old places.old numbers.new places.new }
{
    for k in 0..net.len() {
        let piece = net[k].piece as usize;
        if numbers[piece] != u32::MAX {
            return false;
        }
        numbers[piece] = number;
        places[piece] = k;
    }
    true
}

// Whether all pieces have a number.
fn all_numbered(numbers: &[u32]) -> bool
    ensures { IsTrue result ↔ ((p : ℕ) → p < length numbers.now → slice_index_or numbers.now p 0 ≢ 4294967295) }
{
    for number in numbers {
        if *number == u32::MAX {
            return false;
        }
    }
    true
}
