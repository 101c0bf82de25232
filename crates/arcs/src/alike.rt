//! Whether the ends of an arc are alike enough for it to be meant.
ghost use Rattle.arcs.specs.Copper.{IsMeant, unlike};
ghost use Rattle.arcs.specs.Taken.{IsPlacedArc};
ghost use Rattle.std.specs.Prelude.{IsTrue, pos, ◌+◌, ◌≡◌, ◌⊎◌, ◌≤◌, ◌↔◌};

use super::Arc;
use super::rings::{square_of, squares_of};
use planar::cross;

/// The difference of the squares of the distances of the ends from the centre.
fn unlike_of(arc: &Arc) -> u128
    requires placed { IsPlacedArc arc.now }
    ensures { pos result ≡ unlike arc.now }
{
    let (near, far) = squares_of(arc);
    far - near
}

/// Whether ends that are so unlike are alike enough, where they are so far apart and the turn swings so far.
fn are_alike(unlike: u128, apart: u128, swing: u128) -> bool
    ensures { IsTrue result ↔ ((swing ≡ 0) ⊎ ((unlike ≤ apart) ⊎ (unlike ≤ swing + swing))) }
{
    if swing == 0 || unlike <= apart {
        return true;
    }
    unlike.saturating_sub(swing) <= swing
}

/// Whether the arc is meant: it is not refused for its ends.
pub fn is_meant(arc: &Arc) -> bool
    requires placed { IsPlacedArc arc.now }
    ensures { IsTrue result ↔ IsMeant arc.now }
{
    let swing = cross(arc.centre, arc.start, arc.end);
    are_alike(
        unlike_of(arc),
        square_of(arc.start, arc.end),
        swing.unsigned_abs(),
    )
}
