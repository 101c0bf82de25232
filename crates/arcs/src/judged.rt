//! The ring of an arc that is judged.
ghost use Rattle.arcs.specs.Taken.{IsPlacedArc, IsRingFor};
ghost use Rattle.std.specs.Prelude.{IsTrue, pos, ◌↔◌};

use super::Arc;
use super::alike::is_meant;
use super::rings::ring_of;
use planar::{Spot, are_placed, is_placed};

/// Whether the centre and both ends are within a metre.
fn is_placed_arc(arc: &Arc) -> bool
    ensures { IsTrue result ↔ IsPlacedArc arc.now }
{
    is_placed(arc.centre) && is_placed(arc.start) && is_placed(arc.end)
}

/// How near to the centre and how far from it a chord may be that is at most `k` off. `None` only where arc
/// and chain are not judged (`IsJudged`).
pub fn ring_for(arc: &Arc, chain: &[Spot], k: u64) -> Option<(u128, u128)>
    ensures { IsRingFor result arc.now chain.now (pos k) }
{
    if !(is_placed_arc(arc) && are_placed(chain)) {
        return None;
    }
    if !is_meant(arc) {
        return None;
    }
    ring_of(arc, k)
}
