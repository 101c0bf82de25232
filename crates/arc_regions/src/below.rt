//! Whether a polygon lies in a region.
ghost use Rattle.arc_regions.specs.Copper.{SurelyIn};
ghost use Rattle.arc_regions.specs.Taken.{AreClear, IsClear, IsPartClear, IsStretch, TakenBelow, all_chained, chained, odd_part, parts_of};
ghost use Rattle.area_contact.specs.Contour.{InArea, area_box, edges_from, edges_of, first_of};
ghost use Rattle.area_contact.specs.Parity.{crossed, odd};
ghost use Rattle.contact.specs.Round.{box_of};
ghost use Rattle.contact.specs.Solid.{IsInside, SharePoint};
ghost use Rattle.planar.specs.Plane.{InCapsule, IsPlaced, Point};
ghost use Rattle.std.specs.Prelude.{All, IsTrue, pos, ◌≡◌, ◌↔◌};

use super::above::{end_of, is_stretch};
use super::laws::taken_lies;
use super::{Part, Stretch};
use area_contact::Area;
use contact::{Capsule, Closed, MOST_RADIUS, Meets};
use planar::{Frame, Spot, is_placed, is_same, ray_crosses};
use std::sync::ledger::Ledger;
use steps::Steps;

/// Whether both spots are within a metre.
fn both_placed(a: Spot, b: Spot) -> bool
    ensures { IsTrue result ↔ (IsPlaced a × IsPlaced b) }
{
    is_placed(a) && is_placed(b)
}

/// Whether the capsule lies in the frame and shares no point with the area.
fn capsule_clear<L: Ledger>(
    area: &Area,
    capsule: &Capsule,
    frame: Frame,
    tests: &mut Steps<L>,
) -> bool
    requires inside { IsInside (area_box area.now.points.items) frame }
    ensures { IsTrue result ↔ (IsInside (box_of capsule.now.a capsule.now.b capsule.now.r) frame × ¬ SharePoint (InArea (edges_of area.now.points.items)) (InCapsule capsule.now.a capsule.now.b capsule.now.r)) }
{
    if capsule.bounds().inside(frame) {
        !area.meets(capsule, frame, tests)
    } else {
        false
    }
}

/// Whether the capsule from `a` to `b` is one, and does.
fn is_clear<L: Ledger>(
    area: &Area,
    a: Spot,
    b: Spot,
    r: u64,
    frame: Frame,
    tests: &mut Steps<L>,
) -> bool
    requires inside { IsInside (area_box area.now.points.items) frame }
    ensures { IsTrue result ↔ IsClear frame area.now.points.items r a b }
{
    if r > MOST_RADIUS as u64 {
        return false;
    }
    if !both_placed(a, b) {
        return false;
    }
    let capsule = Capsule::new(a, b, r as i64);
    capsule_clear(area, &capsule, frame, tests)
}

/// Whether each capsule of radius `r`, in u, along the chain is one, lies in the frame and shares no point
/// with the area.
pub fn chain_clear<L: Ledger>(
    area: &Area,
    chain: &[Spot],
    r: u64,
    frame: Frame,
    tests: &mut Steps<L>,
) -> bool
    requires inside { IsInside (area_box area.now.points.items) frame }
    ensures { IsTrue result ↔ AreClear frame area.now.points.items r chain.now }
{
    match chain {
        [] => true,
        [first, rest @ ..] => {
            let mut from = *first;
            for to in rest {
                if !is_clear(area, from, *to, r, frame, tests) {
                    return false;
                }
                from = *to;
            }
            true
        }
    }
}

/// Whether the ray from `p` to the right crosses the edge.
fn is_crossed(p: Spot, a: Spot, b: Spot) -> bool
    requires p_placed { IsPlaced p }
    requires a_placed { IsPlaced a }
    requires b_placed { IsPlaced b }
    ensures { result ≡ crossed (record { start = a; end = b }) p.x p.y (pos 1) }
{
    ray_crosses(a, b, p)
}

/// Whether it crosses an odd number of the links from `start`.
fn links_odd(p: Spot, start: Spot, rest: &[Spot]) -> bool
    requires p_placed { IsPlaced p }
    requires start_placed { IsPlaced start }
    requires rest_placed { All IsPlaced rest.now }
    ensures { result ≡ odd (edges_from start rest.now) p.x p.y (pos 1) }
{
    let mut odd = false;
    let mut from = start;
    for to in rest {
        let crossed = is_crossed(p, from, *to);
        odd = odd != crossed;
        from = *to;
    }
    odd
}

/// Whether the ray from `p` to the right crosses an odd number of the links of the chain. All spots are
/// within a metre.
pub fn chain_odd(p: Spot, chain: &[Spot]) -> bool
    requires p_placed { IsPlaced p }
    requires placed { All IsPlaced chain.now }
    ensures { result ≡ odd (edges_of chain.now) p.x p.y (pos 1) }
{
    match chain {
        [] => false,
        [first, rest @ ..] => links_odd(p, *first, rest),
    }
}

/// Whether it crosses an odd number of the edges that stand for the part from `start`.
fn part_odd(p: Spot, start: Spot, stretch: &Stretch) -> bool
    requires p_placed { IsPlaced p }
    requires start_placed { IsPlaced start }
    requires stretch { IsStretch start (chained stretch.now) }
    ensures { result ≡ odd_part p start stretch.now.part stretch.now.chain.items }
{
    match stretch.part {
        Part::Straight(end) => is_crossed(p, start, end),
        Part::Curved(_) => chain_odd(p, &stretch.chain),
    }
}

/// Whether the part from `start` with its chain is one, and clear of the area: a straight part itself, for an
/// arc its chain with the capsules along it.
fn stands_clear<L: Ledger>(
    area: &Area,
    start: Spot,
    stretch: &Stretch,
    frame: Frame,
    tests: &mut Steps<L>,
) -> bool
    requires inside { IsInside (area_box area.now.points.items) frame }
    ensures { IsTrue result ↔ (IsStretch start (chained stretch.now) × IsPartClear frame area.now.points.items start stretch.now.part stretch.now.chain.items stretch.now.radius) }
{
    if !is_stretch(start, stretch) {
        return false;
    }
    match stretch.part {
        Part::Straight(end) => is_clear(area, start, end, 0, frame, tests),
        Part::Curved(_) => chain_clear(area, &stretch.chain, stretch.radius, frame, tests),
    }
}

/// The first corner of the area, within a metre.
pub fn first_corner(area: &Area) -> Spot
    ensures placed { IsPlaced result }
    ensures first { result ≡ first_of area.now.points.items }
{
    area.corner(0)
}

/// Whether the area lies in the region whose contour begins at `start`, whatever curves its arcs are. Where
/// it says so, it does; others that do are refused. The area shares no point with the edges of the polygon that has the chains in place
/// of the arcs, nor with a capsule along a chain, and its first corner lies inside the polygon. Area and
/// capsules lie in the frame.
pub fn is_below<L: Ledger>(
    start: Spot,
    stretches: &[Stretch],
    area: &Area,
    frame: Frame,
    tests: &mut Steps<L>,
) -> bool
    ensures taken { IsTrue result ↔ TakenBelow frame start (all_chained stretches.now) area.now.points.items }
    ensures copper { IsTrue result → (p : Point) → InArea (edges_of area.now.points.items) p → SurelyIn start (parts_of (all_chained stretches.now)) p }
{
    taken_lies();
    if !(is_placed(start) && area.bounds().inside(frame)) {
        return false;
    }
    let corner = first_corner(area);
    let mut odd = false;
    let mut from = start;
    for stretch in stretches {
        if !stands_clear(area, from, stretch, frame, tests) {
            return false;
        }
        let crossed = part_odd(corner, from, stretch);
        odd = odd != crossed;
        from = end_of(stretch.part);
    }
    is_same(from, start) && odd
}
