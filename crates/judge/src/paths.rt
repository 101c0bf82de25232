//! Paths from a piece to its parent and on.
ghost use Rattle.std.specs.Prelude.{◌≡◌, ℕ, ◌+◌, ◌<◌, length, List, ◌++◌, Some, true, false, All, Contains, slice_index_or, IfOk};
ghost use Rattle.verdict.specs.Forest.{pieces_of};
ghost use Rattle.verdict.specs.Right.{IsPath, BeginsAt};
ghost use Rattle.judge.specs.Judged.{HangAbove, AreFlags};
ghost use Rattle.verdict.specs.Places.{twig_at, HasPlaces};

use lengths::rows::{NoMemory, Rows};
use std::alloc::Global;
use verdict::Twig;

/// The path from a piece of a net to its first flagged piece.
pub fn path_of(
    alloc: Global,
    net: &[Twig],
    places: &[usize],
    start: u32,
    flags: &[bool],
) -> Result<Rows<u32>, NoMemory>
    requires hang { HangAbove net.now }
    requires places { HasPlaces net.now places.now }
    requires start { Contains (pieces_of net.now) start }
    requires flags { length flags.now ≡ length net.now }
    requires root { slice_index_or flags.now 0 false ≡ true }
    ensures start { IfOk result (λ pieces. BeginsAt (λ piece. piece ≡ start) pieces) }
    ensures path { IfOk result (λ pieces. (ends : List ℕ) → AreFlags net.now ends flags.now → IsPath net.now ends pieces) }
    ensures inside { IfOk result (λ pieces. All (λ piece. Contains (pieces_of net.now) piece) pieces) }
{
    let mut pieces = Rows::new(alloc);
    let mut k = places[start as usize];
    while !flags[k] {
        pieces.push(net[k].piece)?;
        k = above(net, places, k);
    }
    pieces.push(net[k].piece)?;
    Ok(pieces)
}

// The place of the parent.
fn above(net: &[Twig], places: &[usize], k: usize) -> usize
    requires hang { HangAbove net.now }
    requires places { HasPlaces net.now places.now }
    requires inner { 0 < k }
    requires within { k < length net.now }
    ensures before { result < k }
    ensures named { (twig_at net.now k).parent ≡ Some (twig_at net.now result).piece }
{
    match net[k].parent {
        Some(parent) => places[parent as usize],
        None => unreachable!(),
    }
}

/// Flags the pieces of a path.
pub fn flag_path(net: &[Twig], places: &[usize], pieces: &[u32], flags: &mut [bool])
    requires places { HasPlaces net.now places.now }
    requires inside { All (λ piece. Contains (pieces_of net.now) piece) pieces.now }
    requires flags { length flags.old ≡ length net.now }
    ensures { (ends : List ℕ) → AreFlags net.now ends flags.old → AreFlags net.now (ends ++ pieces.now) flags.new }
{
    for piece in pieces {
        flags[places[*piece as usize]] = true;
    }
}
