//! Whether a polygon, with capsules, holds a region.
ghost use Rattle.arc_regions.specs.Copper.{HasTurn, PossiblyIn, end_of};
ghost use Rattle.arc_regions.specs.Taken.{InCapsules, IsStretch, StandsAs, StandsFor, TakenAbove, all_chained, arc_of, chained, corners_of, odd_round, parts_of};
ghost use Rattle.area_contact.specs.Contour.{InArea, edges_of};
ghost use Rattle.arcs.specs.Copper.{swing};
ghost use Rattle.planar.specs.Plane.{IsPlaced, Point, dot_of};
ghost use Rattle.std.specs.Prelude.{All, IsTrue, pos, ◌≡◌, ◌≤ℤ◌, ◌↔◌, ◌⊎◌};

use super::laws::taken_holds;
use super::links::is_odd_round;
use super::{Bend, Part, Stretch};
use arcs::Arc;
use planar::{Spot, are_placed, cross, dot, is_placed, is_same};

/// The arc from `start`, as a draw of no width.
pub fn draw_of(start: Spot, bend: &Bend) -> Arc
    ensures { result ≡ arc_of start bend.now }
{
    let (first, last) = if bend.counterclockwise {
        (start, bend.end)
    } else {
        (bend.end, start)
    };
    Arc {
        centre: bend.centre,
        start: first,
        end: last,
        width: 0,
    }
}

/// Whether both ends are in one direction from the centre, or one of them is the centre.
fn in_one_direction(draw: &Arc) -> bool
    requires centre_placed { IsPlaced draw.now.centre }
    requires start_placed { IsPlaced draw.now.start }
    requires end_placed { IsPlaced draw.now.end }
    ensures { IsTrue result ↔ ((swing draw.now ≡ pos 0) × (pos 0 ≤ℤ dot_of draw.now.centre draw.now.start draw.now.end)) }
{
    cross(draw.centre, draw.start, draw.end) == 0 && dot(draw.centre, draw.start, draw.end) >= 0
}

/// Whether ends of the arc from `start` that are in one direction from the centre are one spot.
fn has_turn(start: Spot, bend: &Bend) -> bool
    requires start_placed { IsPlaced start }
    requires centre_placed { IsPlaced bend.now.centre }
    requires end_placed { IsPlaced bend.now.end }
    ensures { IsTrue result ↔ HasTurn (arc_of start bend.now) }
{
    let draw = draw_of(start, bend);
    !in_one_direction(&draw) || is_same(draw.start, draw.end)
}

/// Whether the chain goes past the direction of its start an odd number of times exactly where the arc is a whole turn.
fn turns_as(draw: &Arc, chain: &[Spot]) -> bool
    requires centre_placed { IsPlaced draw.now.centre }
    requires chain_placed { All IsPlaced chain.now }
    ensures { IsTrue result ↔ (IsTrue (odd_round draw.now.centre chain.now) ↔ (draw.now.start ≡ draw.now.end)) }
{
    is_odd_round(draw.centre, chain) == is_same(draw.start, draw.end)
}

/// Whether the chain may stand for the arc from `start`.
fn stands_for(start: Spot, bend: &Bend, chain: &[Spot], radius: u64) -> bool
    ensures { IsTrue result ↔ StandsFor start bend.now chain.now radius }
{
    if !(is_placed(start) && is_placed(bend.centre) && is_placed(bend.end) && are_placed(chain)) {
        return false;
    }
    let draw = draw_of(start, bend);
    has_turn(start, bend) && turns_as(&draw, chain) && arcs::is_above(&draw, chain, radius)
}

/// Whether the chain with the radius may stand for the part from `start`. For a straight part both are not
/// read: it has to end within a metre.
pub fn is_part(start: Spot, part: Part, chain: &[Spot], radius: u64) -> bool
    ensures { IsTrue result ↔ StandsAs start part chain.now radius }
{
    match part {
        Part::Straight(end) => is_placed(end),
        Part::Curved(bend) => stands_for(start, &bend, chain, radius),
    }
}

/// Whether the stretch from `start` is one.
pub fn is_stretch(start: Spot, stretch: &Stretch) -> bool
    ensures { IsTrue result ↔ IsStretch start (chained stretch.now) }
{
    is_part(start, stretch.part, &stretch.chain, stretch.radius)
}

/// Where the part ends.
pub fn end_of(part: Part) -> Spot
    ensures { result ≡ end_of part }
{
    match part {
        Part::Straight(end) => end,
        Part::Curved(bend) => bend.end,
    }
}

/// Whether the polygon with the chains in place of the arcs, together with the capsules along the
/// chains, holds the region whose contour begins at `start`, whatever curves its arcs are. Where it says
/// so, they do; others that do are refused.
pub fn is_above(start: Spot, stretches: &[Stretch]) -> bool
    ensures taken { IsTrue result ↔ TakenAbove start (all_chained stretches.now) }
    ensures copper { IsTrue result → (p : Point) → PossiblyIn start (parts_of (all_chained stretches.now)) p → InArea (edges_of (corners_of start (all_chained stretches.now))) p ⊎ InCapsules (all_chained stretches.now) p }
{
    taken_holds();
    if !is_placed(start) {
        return false;
    }
    let mut from = start;
    for stretch in stretches {
        if !is_stretch(from, stretch) {
            return false;
        }
        from = end_of(stretch.part);
    }
    is_same(from, start)
}
