//! Whether a chain lies in the copper of an arc, and whether it holds it.
ghost use Rattle.arcs.specs.Copper.{InChain, Possibly, Surely};
ghost use Rattle.arcs.specs.Taken.{TakenAbove, TakenBelow};
ghost use Rattle.planar.specs.Plane.{Point};
ghost use Rattle.std.specs.Prelude.{IsTrue, pos, ◌↔◌};

use super::Arc;
use super::chords::{chain_inside, chain_round};
use super::judged::ring_for;
use planar::Spot;

/// Whether each capsule of radius `r` from a spot of the chain to the next lies in the copper of every
/// curve of the arc, by its chords (`TakenBelow`). Where it says so, it does; others that do are refused.
pub fn is_below(arc: &Arc, chain: &[Spot], r: u64) -> bool
    ensures taken { IsTrue result ↔ TakenBelow arc.now chain.now r }
    ensures curves { IsTrue result → (p : Point) → InChain chain.now (pos r) p → Surely arc.now p }
{
    let half = arc.width / 2;
    if half < r {
        return false;
    }
    match ring_for(arc, chain, half - r) {
        Some(ring) => chain_inside(arc, ring, chain),
        None => false,
    }
}

/// Whether the capsules of radius `r` from each spot of the chain to the next together hold the copper
/// of each curve of the arc, by its chords (`TakenAbove`). Where it says so, they do; others that do are
/// refused. The chain has to lead from the start of the arc to its end, round the centre counterclockwise.
pub fn is_above(arc: &Arc, chain: &[Spot], r: u64) -> bool
    ensures taken { IsTrue result ↔ TakenAbove arc.now chain.now r }
    ensures curves { IsTrue result → (p : Point) → Possibly arc.now p → InChain chain.now (pos r) p }
{
    let half = arc.width - arc.width / 2;
    if r < half || chain.len() < 2 {
        return false;
    }
    match ring_for(arc, chain, r - half) {
        Some(ring) => chain_round(arc, ring, chain),
        None => false,
    }
}
