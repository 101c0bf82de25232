//! Whether a real board lies between two boards of figures.
ghost use Rattle.arc_covers.specs.Bounds.{AddUp, AreBounds};
ghost use Rattle.arc_covers.specs.Faults.{IsBoundsFault};
ghost use Rattle.arc_covers.specs.Taken.{AreTaken, PiecesAreTaken};
ghost use Rattle.arc_covers.specs.declared.between.BoundsFault.TheVariants as fault;
ghost use Rattle.arc_covers.specs.declared.side.Side.TheVariants.{Above, Below};
ghost use Rattle.board_shapes.specs.Pieces.{plain_pieces};
ghost use Rattle.std.specs.Prelude.{IfErr, IfOk, IsTrue, drop, length, sum, take, ◌+◌, ◌≡◌, ◌≤◌, ◌↔◌};

use crate::holes::is_holed;
use crate::laws::taken_are_bounds;
use crate::outlines::is_turned;
use crate::regions::is_region;
use crate::rows::{are_chain, are_on, is_itself, stand_alone};
use crate::side::Side;
use board_shapes::Piece;
use lengths::rows::NoMemory;
use real_shapes::{RealPiece, RealShape};
use std::alloc::Global;
use thiserror::Error;

/// Why two boards are no bounds of a real one.
#[derive(Clone, Copy, Debug, PartialEq, Eq)]
pub enum BoundsFault {
    /// The counts of that side are not as many as the real pieces, or do not sum to the pieces of its
    /// board. Those below come first.
    Counts(Side),
    /// What is counted to the real piece of that number, from 0, is not taken for it on that side. What is
    /// counted to those before it is, and to itself below, where the side is above.
    Piece(Side, usize),
    NoMemory,
}

impl From<NoMemory> for BoundsFault {
    ghost from_gives = { λ _ e. e ≡ fault.NoMemory };

    fn from(_: NoMemory) -> BoundsFault {
        BoundsFault::NoMemory
    }
}

/// Whether the counts sum to `all`.
fn sum_to(counts: &[u32], all: usize) -> bool
    ensures { IsTrue result ↔ (sum counts.now ≡ all) }
{
    let mut left = all;
    for count in counts {
        let n = *count as usize;
        if left < n {
            return false;
        }
        left -= n;
    }
    left == 0
}

/// Whether there is one count for each real piece, and they sum to the pieces.
fn add_up(real: &[RealPiece], counts: &[u32], pieces: &[Piece]) -> bool
    ensures { IsTrue result ↔ AddUp real.now counts.now (plain_pieces pieces.now) }
{
    counts.len() == real.len() && sum_to(counts, pieces.len())
}

/// So many of the pieces from `start` on.
fn part(pieces: &[Piece], start: usize, count: u32) -> &[Piece]
    requires { start + count ≤ length pieces.now }
    ensures { result.now ≡ take count (drop start pieces.now) }
{
    let rest = &pieces[start..];
    &rest[..count as usize]
}

/// Whether the pieces are taken for the real piece on that side: they are its figure, the capsules of
/// a chain that the checks take for its arc draw, a contour that they take for its slanted line or its
/// polygon, a disc for its turned disc, a figure for its fine one, or what they take for its turned figure, its region or its figure with a
/// hole, on its layers.
/// `NoMemory` where memory is wanted.
fn stand(alloc: Global, side: Side, real: &RealPiece, pieces: &[Piece]) -> Result<bool, NoMemory>
    ensures { IfOk result (λ yes. IsTrue yes ↔ PiecesAreTaken side real.now (plain_pieces pieces.now)) }
{
    if !are_on(pieces, real.top, real.bottom) {
        return Ok(false);
    }
    match &real.shape {
        RealShape::Plain(shape) => Ok(is_itself(shape, pieces)),
        RealShape::ArcDraw(arc) => are_chain(alloc, side, arc, pieces),
        RealShape::Region(region) => is_region(alloc, side, region, pieces),
        RealShape::Turned(figure) => is_turned(alloc, side, figure, pieces),
        RealShape::Holed(holed) => Ok(is_holed(side, holed, pieces)),
        alone => Ok(stand_alone(side, alone, pieces)),
    }
}

/// Whether the pieces of two boards stand for those of a real one, the lower on the side below, the
/// upper above, and the checks take them. The counts say how many stand, in order, for each real piece;
/// nobody needs to trust them.
///
/// `Counts` where they do not add up; `Piece` with the first real piece for which what is counted to it is
/// not taken, though it may bound it; `NoMemory` where memory is wanted for the spots of a chain or an outline.
pub fn check_between(
    alloc: Global,
    real: &[RealPiece],
    lower: &[Piece],
    lower_counts: &[u32],
    upper: &[Piece],
    upper_counts: &[u32],
) -> Result<(), BoundsFault>
    ensures below { IfOk result (λ _. AreBounds Below real.now lower_counts.now (plain_pieces lower.now)) }
    ensures above { IfOk result (λ _. AreBounds Above real.now upper_counts.now (plain_pieces upper.now)) }
    ensures taken_below { IfOk result (λ _. AreTaken Below real.now lower_counts.now (plain_pieces lower.now)) }
    ensures taken_above { IfOk result (λ _. AreTaken Above real.now upper_counts.now (plain_pieces upper.now)) }
    ensures fault { IfErr result (IsBoundsFault real.now lower_counts.now (plain_pieces lower.now) upper_counts.now (plain_pieces upper.now)) }
{
    taken_are_bounds();
    if !add_up(real, lower_counts, lower) {
        return Err(BoundsFault::Counts(Side::Below));
    }
    if !add_up(real, upper_counts, upper) {
        return Err(BoundsFault::Counts(Side::Above));
    }
    let mut low = 0;
    let mut high = 0;
    for i in 0..real.len() {
        let (below, above) = (lower_counts[i], upper_counts[i]);
        let under = part(lower, low, below);
        if !stand(alloc, Side::Below, &real[i], under)? {
            return Err(BoundsFault::Piece(Side::Below, i));
        }
        let over = part(upper, high, above);
        if !stand(alloc, Side::Above, &real[i], over)? {
            return Err(BoundsFault::Piece(Side::Above, i));
        }
        low += below as usize;
        high += above as usize;
    }
    Ok(())
}
