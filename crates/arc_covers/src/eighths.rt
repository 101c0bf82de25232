//! Whether a contour lies in a region, by chains of eighth turns for its arcs.
ghost use Rattle.arc_covers.specs.Bounds.{ContourFor, figures_of};
ghost use Rattle.arc_covers.specs.Eighths as spec;
ghost use Rattle.arc_covers.specs.Eighths.{IsPartPlaced, IsRound, LiesBelow, passed};
ghost use Rattle.arc_covers.specs.declared.side.Side.TheVariants.{Below};
ghost use Rattle.arc_regions.specs.Taken.{TakenBelow, all_chained, chained};
ghost use Rattle.board_shapes.specs.Pieces.{plain_pieces};
ghost use Rattle.planar.specs.Plane.{IsPlaced, IsWithin, cross_of, dot_of};
ghost use Rattle.planar.specs.declared.TheConstants.{METRE};
ghost use Rattle.std.specs.Prelude.{All, IfOk, IsTrue, OnOk, int_le, int_lt, pos, unsigned_abs, ◌*◌, ◌/◌, ◌<◌, ◌≡◌, ◌↔◌, ◌++◌};

use arc_regions::{Part, Region, Stretch, draw_of, end_of, is_below};
use arcs::{Arc, Spot};
use area_contact::Area;
use board_shapes::{Piece, Shape};
use lengths::rows::NoMemory;
use planar::{Frame, SIDE, cross, dot, is_placed};
use std::alloc::Global;
use std::marker::Brand;
use std::sync::ledger::{Blank, Ledger};
use steps::Steps;

/// Half the side of a frame, in u.
pub const HALF: i64 = SIDE / 2;

/// `s` turned about `c` by a quarter turn.
fn quarter_turn(c: Spot, s: Spot) -> Spot
    requires c_placed { IsPlaced c }
    requires round { IsRound c s }
    ensures value { result ≡ spec.quarter_turn c s }
    ensures round { IsRound c result }
{
    Spot {
        x: c.x - (s.y - c.y),
        y: c.y + (s.x - c.x),
    }
}

/// `z` over the root of 2, about.
fn shortened(z: i64) -> i64
    requires within { IsWithin (4 * METRE) z }
    ensures value { result ≡ spec.shortened z }
    ensures within { IsWithin (4 * METRE) result }
{
    (z * 70 + 49).div_euclid(99)
}

/// `s` turned about `c` by about an eighth turn.
fn eighth_turn(c: Spot, s: Spot) -> Spot
    requires c_placed { IsPlaced c }
    requires s_placed { IsPlaced s }
    ensures value { result ≡ spec.eighth_turn c s }
    ensures round { IsRound c result }
{
    let (across, up) = (s.x - c.x, s.y - c.y);
    Spot {
        x: c.x + shortened(across - up),
        y: c.y + shortened(across + up),
    }
}

/// `s` turned about `c` by one eighth turn to seven.
fn eighth_turns(c: Spot, s: Spot) -> [Spot; 7]
    requires c_placed { IsPlaced c }
    requires s_placed { IsPlaced s }
    ensures { result ≡ spec.eighth_turns c s }
{
    let (first, second) = (eighth_turn(c, s), quarter_turn(c, s));
    let (third, fourth) = (quarter_turn(c, first), quarter_turn(c, second));
    let (fifth, sixth) = (quarter_turn(c, third), quarter_turn(c, fourth));
    [
        first,
        second,
        third,
        fourth,
        fifth,
        sixth,
        quarter_turn(c, fifth),
    ]
}

/// Whether the turn from `a` to `e` is a half turn or more.
fn is_half(c: Spot, a: Spot, e: Spot) -> bool
    requires c_placed { IsPlaced c }
    requires a_placed { IsPlaced a }
    requires e_placed { IsPlaced e }
    ensures { result ≡ int_le (cross_of c a e) (pos 0) }
{
    cross(c, a, e) <= 0
}

/// Whether `e` is further on than `p` by about a 64th of its distance from `c`.
fn is_further(c: Spot, p: Spot, e: Spot) -> bool
    requires c_placed { IsPlaced c }
    requires p_placed { IsPlaced p }
    requires e_placed { IsPlaced e }
    ensures { result ≡ int_lt (pos (unsigned_abs (dot_of c e e) / 64)) (cross_of c p e) }
{
    let part = dot(c, e, e).unsigned_abs() / 64;
    cross(c, p, e) > part as i128
}

/// Whether the turn from `a` to `e` passes `p`.
fn is_passed(c: Spot, e: Spot, a: Spot, p: Spot) -> bool
    requires c_placed { IsPlaced c }
    requires e_placed { IsPlaced e }
    requires a_placed { IsPlaced a }
    ensures value { result ≡ spec.is_passed c e a p }
    ensures placed { IsTrue result → IsPlaced p }
{
    if is_placed(p) {
        is_half(c, a, e) || is_further(c, p, e)
    } else {
        false
    }
}

/// The spots are pushed, as long as each is passed by the turn from the one before it to the end.
fn push_passed(draw: &Arc, spots: &[Spot], chain: &mut Vec<Spot>) -> Result<(), NoMemory>
    requires centre { IsPlaced draw.now.centre }
    requires start { IsPlaced draw.now.start }
    requires end { IsPlaced draw.now.end }
    ensures { OnOk result (chain.new.items ≡ chain.old.items ++ passed draw.now.centre draw.now.end draw.now.start spots.now) }
{
    let mut from = draw.start;
    for p in spots {
        if !is_passed(draw.centre, draw.end, from, *p) {
            return Ok(());
        }
        chain.push(*p)?;
        from = *p;
    }
    Ok(())
}

/// A chain of eighth turns for the arc, and of what is left.
fn eighth_chain(alloc: Global, draw: &Arc) -> Result<Vec<Spot>, NoMemory>
    requires centre { IsPlaced draw.now.centre }
    requires start { IsPlaced draw.now.start }
    requires end { IsPlaced draw.now.end }
    ensures { IfOk result (λ chain. chain.items ≡ spec.eighth_chain draw.now) }
{
    let turns = eighth_turns(draw.centre, draw.start);
    let mut chain = Vec::new(alloc);
    chain.push(draw.start)?;
    push_passed(draw, &turns, &mut chain)?;
    chain.push(draw.end)?;
    Ok(chain)
}

/// A radius that is enough for its links.
fn eighth_radius(c: Spot, s: Spot) -> u64
    requires c_placed { IsPlaced c }
    requires s_placed { IsPlaced s }
    ensures { result ≡ spec.eighth_radius c s }
{
    (s.x.abs_diff(c.x) + s.y.abs_diff(c.y)) / 12 + 8
}

/// The part with such a chain.
fn with_eighths(alloc: Global, start: Spot, part: Part) -> Result<Stretch, NoMemory>
    requires start_placed { IsPlaced start }
    requires placed { IsPartPlaced part }
    ensures { IfOk result (λ stretch. chained stretch ≡ spec.with_eighths start part) }
{
    match part {
        Part::Straight(_) => Ok(Stretch {
            part,
            chain: Vec::new(alloc),
            radius: 0,
        }),
        Part::Curved(bend) => {
            let chain = eighth_chain(alloc, &draw_of(start, &bend))?;
            let radius = eighth_radius(bend.centre, start);
            Ok(Stretch {
                part,
                chain,
                radius,
            })
        }
    }
}

/// Each of the parts from `start` with such a chain.
fn by_eighths(alloc: Global, start: Spot, parts: &[Part]) -> Result<Vec<Stretch>, NoMemory>
    requires start_placed { IsPlaced start }
    requires placed { All IsPartPlaced parts.now }
    ensures { IfOk result (λ all. all_chained all.items ≡ spec.by_eighths start parts.now) }
{
    let mut all = Vec::new(alloc);
    let mut from = start;
    for part in parts {
        let stretch = with_eighths(alloc, from, *part)?;
        all.push(stretch)?;
        from = end_of(*part);
    }
    Ok(all)
}

fn is_part_placed(part: Part) -> bool
    ensures { IsTrue result ↔ IsPartPlaced part }
{
    match part {
        Part::Straight(end) => is_placed(end),
        Part::Curved(bend) => is_placed(bend.centre) && is_placed(bend.end),
    }
}

fn are_parts_placed(parts: &[Part]) -> bool
    ensures { IsTrue result ↔ All IsPartPlaced parts.now }
{
    parts.iter().all(|part| is_part_placed(*part))
}

/// The square of a metre about the spot.
pub fn frame_about(a: Spot) -> Frame
    requires { IsPlaced a }
    ensures { result ≡ spec.frame_about a }
{
    Frame {
        left: a.x - HALF,
        low: a.y - HALF,
    }
}

/// Whether `arc_regions` takes the area in the contour of the stretches.
fn is_taken<L: Ledger>(start: Spot, stretches: &[Stretch], area: &Area, blank: Blank) -> bool
    requires start_placed { IsPlaced start }
    requires name { blank.name ≡ L.name }
    requires parts { blank.parts ≡ L.parts }
    requires some { 0 < blank.parts }
    ensures { IsTrue result ↔ TakenBelow (spec.frame_about start) start (all_chained stretches.now) area.now.points.items }
{
    let mut tests = Steps::<L>::new(blank);
    is_below(start, stretches, area, frame_about(start), &mut tests)
}

/// Whether the region lies within a metre.
fn is_reached(region: &Region) -> bool
    ensures { IsTrue result ↔ (IsPlaced region.now.start × All IsPartPlaced region.now.parts.items) }
{
    is_placed(region.start) && are_parts_placed(&region.parts)
}

/// Whether the area is taken in the region.
fn lies(alloc: Global, region: &Region, area: &Area) -> Result<bool, NoMemory>
    ensures { IfOk result (λ yes. IsTrue yes ↔ LiesBelow region.now.start region.now.parts.items area.now.points.items) }
{
    if !is_reached(region) {
        return Ok(false);
    }
    let stretches = by_eighths(alloc, region.start, &region.parts)?;
    Ok(is_taken::<Brand>(region.start, &stretches, area, Blank::new(1)))
}

/// Whether the pieces are one contour that is taken in the region, or none.
pub fn is_inside(alloc: Global, region: &Region, pieces: &[Piece]) -> Result<bool, NoMemory>
    ensures { IfOk result (λ yes. IsTrue yes ↔ ContourFor Below (LiesBelow region.now.start region.now.parts.items) (figures_of (plain_pieces pieces.now))) }
{
    match pieces {
        [] => Ok(true),
        [only] => match &only.shape {
            Shape::Filled(area) => lies(alloc, region, area),
            Shape::Round(_) => Ok(false),
        },
        _ => Ok(false),
    }
}
