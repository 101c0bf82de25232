//! Whether pieces are the polygon and the capsules that `arc_regions` takes above a region.
ghost use Rattle.arc_covers.specs.Bounds.{capsules_from, capsules_of, figures_of};
ghost use Rattle.arc_covers.specs.Regions as spec;
ghost use Rattle.arc_covers.specs.Regions.{ArcStands, EndFirst, NoneStands, RegionAbove, StandAlong, StandsHere};
ghost use Rattle.arc_covers.specs.Taken.{RegionTaken};
ghost use Rattle.arc_covers.specs.declared.side.Side.TheVariants.{Above};
ghost use Rattle.arc_regions.specs.declared.Part.TheVariants.{Curved};
ghost use Rattle.board_shapes.specs.Figures.{Figure, figure_of, filled, round};
ghost use Rattle.board_shapes.specs.Pieces.{plain_pieces};
ghost use Rattle.planar.specs.Plane.{IsPlaced};
ghost use Rattle.planar.specs.declared.Spot.{Spot};
ghost use Rattle.std.specs.Prelude.{All, IfNone, IfOk, IfSome, IsTrue, List, ℕ, drop, length, pos, take, ◌≡◌, ◌≢◌, ◌≤◌, ◌↔◌, ◌∷◌};

use crate::eighths::is_inside;
use crate::rows::next_spot;
use crate::side::Side;
use arc_regions::{Bend, Part, Region, end_of, is_part};
use arcs::Spot;
use board_shapes::{Piece, Shape};
use lengths::rows::NoMemory;
use planar::{is_placed, is_same};
use std::alloc::Global;

/// How many spots there are up to the first that is `end`.
fn length_to(spots: &[Spot], end: Spot) -> Option<usize>
    ensures some { IfSome result (λ n. (n ≤ length spots.now) × EndFirst end (take n spots.now)) }
    ensures none { IfNone result (All (λ s. s ≢ end) spots.now) }
{
    for i in 0..spots.len() {
        if is_same(spots[i], end) {
            return Some(i + 1);
        }
    }
    None
}

/// The chain of the arc from `start`, counterclockwise: the spots are those behind `start`, as the
/// contour goes.
fn chain_of(alloc: Global, start: Spot, bend: &Bend, spots: &[Spot]) -> Result<Vec<Spot>, NoMemory>
    ensures { IfOk result (λ chain. chain.items ≡ spec.chain_of start bend.now spots.now) }
{
    let mut chain = Vec::new(alloc);
    chain.push(start)?;
    chain.extend_from_slice(spots)?;
    if !bend.counterclockwise {
        chain.reverse();
    }
    Ok(chain)
}

/// Whether the shape is the capsule of radius `r` from `a` to `b`.
fn is_link(shape: &Shape, a: Spot, b: Spot, r: u64) -> bool
    ensures { IsTrue result ↔ (figure_of shape.now ≡ round (record { a = a; b = b; r = pos r })) }
{
    match next_spot(shape, a, r) {
        Some(to) => is_same(to, b),
        None => false,
    }
}

/// Whether the pieces are the capsules of radius `r` from `start` along the other spots.
fn are_links(pieces: &[Piece], start: Spot, rest: &[Spot], r: u64) -> bool
    ensures { IsTrue result ↔ (figures_of (plain_pieces pieces.now) ≡ capsules_from start rest.now (pos r)) }
{
    if pieces.len() != rest.len() {
        return false;
    }
    let mut from = start;
    for i in 0..rest.len() {
        if !is_link(&pieces[i].shape, from, rest[i], r) {
            return false;
        }
        from = rest[i];
    }
    true
}

/// Whether they are those along the chain.
pub fn are_capsules(pieces: &[Piece], chain: &[Spot], r: u64) -> bool
    ensures { IsTrue result ↔ (figures_of (plain_pieces pieces.now) ≡ capsules_of chain.now (pos r)) }
{
    match chain {
        [] => pieces.is_empty(),
        [first, rest @ ..] => are_links(pieces, *first, rest, r),
    }
}

/// The radius of the first piece, if it is a capsule.
pub fn radius_of(pieces: &[Piece]) -> Option<u64>
    ensures some { IfSome result (λ r. (a b : Spot) × (rest : List Figure) × (figures_of (plain_pieces pieces.now) ≡ round (record { a = a; b = b; r = pos r }) ∷ rest)) }
    ensures none { IfNone result ((a b : Spot) (r : ℕ) (rest : List Figure) → ¬ (figures_of (plain_pieces pieces.now) ≡ round (record { a = a; b = b; r = pos r }) ∷ rest)) }
{
    match pieces.first() {
        None => None,
        Some(first) => match &first.shape {
            Shape::Round(capsule) => Some(capsule.r.unsigned_abs()),
            Shape::Filled(_) => None,
        },
    }
}

/// Whether the pieces are the capsules of one radius along the chain, and both are taken for the arc from
/// `start`.
fn is_arc(start: Spot, bend: Bend, chain: &[Spot], pieces: &[Piece]) -> bool
    ensures { IsTrue result ↔ ArcStands start bend chain.now (figures_of (plain_pieces pieces.now)) }
{
    match radius_of(pieces) {
        Some(r) => {
            are_capsules(pieces, chain, r) && is_part(start, Part::Curved(bend), chain, r)
        }
        None => false,
    }
}

/// How many corners, and as many pieces, stand for the arc from `start`.
fn arc_stands(
    alloc: Global,
    start: Spot,
    bend: Bend,
    corners: &[Spot],
    pieces: &[Piece],
) -> Result<Option<usize>, NoMemory>
    ensures some { IfOk result (λ found. IfSome found (λ n. (n ≤ length corners.now) × (n ≤ length pieces.now) × StandsHere start (Curved bend) (take n corners.now) (take n (figures_of (plain_pieces pieces.now))))) }
    ensures none { IfOk result (λ found. IfNone found (NoneStands start (Curved bend) corners.now (figures_of (plain_pieces pieces.now)))) }
{
    let n = match length_to(corners, bend.end) {
        Some(n) => n,
        None => return Ok(None),
    };
    if pieces.len() < n {
        return Ok(None);
    }
    let chain = chain_of(alloc, start, &bend, &corners[..n])?;
    if is_arc(start, bend, &chain, &pieces[..n]) {
        Ok(Some(n))
    } else {
        Ok(None)
    }
}

/// Whether the corner is the spot, within a metre.
fn is_end(corner: Spot, end: Spot) -> bool
    ensures { IsTrue result ↔ ((corner ≡ end) × IsPlaced end) }
{
    is_same(corner, end) && is_placed(end)
}

/// Whether the first corner is.
fn comes_to(corners: &[Spot], end: Spot) -> bool
    ensures { IsTrue result ↔ ((rest : List Spot) × (corners.now ≡ end ∷ rest) × IsPlaced end) }
{
    match corners {
        [] => false,
        [first, ..] => is_end(*first, end),
    }
}

/// How many corners stand for the part from `start`, and how many pieces.
fn part_stands(
    alloc: Global,
    start: Spot,
    part: Part,
    corners: &[Spot],
    pieces: &[Piece],
) -> Result<Option<(usize, usize)>, NoMemory>
    ensures some { IfOk result (λ found. IfSome found (λ n. (n.0 ≤ length corners.now) × (n.1 ≤ length pieces.now) × StandsHere start part (take n.0 corners.now) (take n.1 (figures_of (plain_pieces pieces.now))))) }
    ensures none { IfOk result (λ found. IfNone found (NoneStands start part corners.now (figures_of (plain_pieces pieces.now)))) }
{
    match part {
        Part::Straight(end) => {
            if comes_to(corners, end) {
                Ok(Some((1, 0)))
            } else {
                Ok(None)
            }
        }
        Part::Curved(bend) => match arc_stands(alloc, start, bend, corners, pieces)? {
            Some(n) => Ok(Some((n, n))),
            None => Ok(None),
        },
    }
}

/// All but the first `n`.
fn behind<T>(items: &[T], n: usize) -> &[T]
    requires { n ≤ length items.now }
    ensures { result.now ≡ drop n items.now }
{
    &items[n..]
}

/// Whether the corners behind `start` and the pieces stand for the parts, from `start` and back to it.
fn parts_stand(
    alloc: Global,
    start: Spot,
    parts: &[Part],
    corners: &[Spot],
    pieces: &[Piece],
) -> Result<bool, NoMemory>
    ensures { IfOk result (λ yes. IsTrue yes ↔ StandAlong start start parts.now corners.now (figures_of (plain_pieces pieces.now))) }
{
    let mut from = start;
    let mut spots = corners;
    let mut rest = pieces;
    for part in parts {
        match part_stands(alloc, from, *part, spots, rest)? {
            Some((n, m)) => {
                spots = behind(spots, n);
                rest = behind(rest, m);
            }
            None => return Ok(false),
        }
        from = end_of(*part);
    }
    Ok(spots.is_empty() && rest.is_empty() && is_same(from, start))
}

/// Whether the polygon begins where the region does, and its other corners and the pieces stand for the
/// parts.
fn begins(
    alloc: Global,
    region: &Region,
    points: &[Spot],
    pieces: &[Piece],
) -> Result<bool, NoMemory>
    ensures { IfOk result (λ yes. IsTrue yes ↔ RegionAbove region.now.start region.now.parts.items (filled points.now ∷ figures_of (plain_pieces pieces.now))) }
{
    match points {
        [] => Ok(false),
        [first, corners @ ..] => {
            if is_end(*first, region.start) {
                parts_stand(alloc, region.start, &region.parts, corners, pieces)
            } else {
                Ok(false)
            }
        }
    }
}

/// Whether the pieces are taken above the region: a polygon with its corners, and capsules along the
/// chains of its arcs.
fn is_above(alloc: Global, region: &Region, pieces: &[Piece]) -> Result<bool, NoMemory>
    ensures { IfOk result (λ yes. IsTrue yes ↔ RegionTaken Above region.now (figures_of (plain_pieces pieces.now))) }
{
    match pieces {
        [] => Ok(false),
        [first, rest @ ..] => match &first.shape {
            Shape::Round(_) => Ok(false),
            Shape::Filled(area) => begins(alloc, region, &area.points, rest),
        },
    }
}

/// Whether the pieces are taken for the region.
pub fn is_region(
    alloc: Global,
    side: Side,
    region: &Region,
    pieces: &[Piece],
) -> Result<bool, NoMemory>
    ensures { IfOk result (λ yes. IsTrue yes ↔ RegionTaken side region.now (figures_of (plain_pieces pieces.now))) }
{
    match side {
        Side::Below => is_inside(alloc, region, pieces),
        Side::Above => is_above(alloc, region, pieces),
    }
}
