//! Rows of pieces: chains of capsules, and single figures.
ghost use Rattle.arc_covers.specs.Bounds.{IsOn, OneDisc, OrNone, capsules_from, capsules_of, figures_of};
ghost use Rattle.arc_covers.specs.Taken.{AloneTaken, IsDiscTaken, StandTaken};
ghost use Rattle.arc_covers.specs.declared.side.Side.TheVariants.{Below};
ghost use Rattle.real_shapes.specs.declared.RealShape.TheVariants.{ArcDraw};
ghost use Rattle.board_shapes.specs.Figures.{Figure, area_figure, capsule_figure, figure_of, round};
ghost use Rattle.board_shapes.specs.Pieces.{plain_piece, plain_pieces};
ghost use Rattle.planar.specs.declared.Spot.{Spot};
ghost use Rattle.std.specs.Prelude.{All, IfNone, IfOk, IfSome, IsTrue, List, length, pos, ◌≡◌, ◌↔◌, ◌∷◌, []};

use crate::side::{Side, is_disc_taken, is_fine_taken, is_line_taken, is_polygon_taken, is_taken};
use arcs::{Arc, Spot};
use area_contact::Area;
use board_shapes::{Piece, Shape};
use contact::Capsule;
use lengths::rows::NoMemory;
use real_shapes::RealShape;
use slants::TurnedDisc;
use std::alloc::Global;

/// Whether the piece is on the layers from `top` to `bottom` and on no others.
fn is_on(piece: &Piece, top: u8, bottom: u8) -> bool
    ensures { IsTrue result ↔ IsOn top bottom (plain_piece piece.now) }
{
    piece.top == top && piece.bottom == bottom
}

/// Whether each of the pieces is.
pub fn are_on(pieces: &[Piece], top: u8, bottom: u8) -> bool
    ensures { IsTrue result ↔ All (λ piece. IsOn top bottom (plain_piece piece)) pieces.now }
{
    pieces.iter().all(|piece| is_on(piece, top, bottom))
}

/// Whether both capsules have the same ends, in one order.
fn is_same_line(a: &Capsule, b: &Capsule) -> bool
    ensures { IsTrue result ↔ ((a.now.a ≡ b.now.a) × (a.now.b ≡ b.now.b)) }
{
    a.a == b.a && a.b == b.b
}

/// Whether they have one radius too.
fn is_same_capsule(a: &Capsule, b: &Capsule) -> bool
    ensures { IsTrue result ↔ (capsule_figure a.now ≡ capsule_figure b.now) }
{
    is_same_line(a, b) && a.r.unsigned_abs() == b.r.unsigned_abs()
}

/// Whether the contours have the same points in one order.
fn is_same_area(a: &Area, b: &Area) -> bool
    ensures { IsTrue result ↔ (area_figure a.now ≡ area_figure b.now) }
{
    a.points == b.points
}

fn is_same_shape(a: &Shape, b: &Shape) -> bool
    ensures { IsTrue result ↔ (figure_of a.now ≡ figure_of b.now) }
{
    match (a, b) {
        (Shape::Round(a), Shape::Round(b)) => is_same_capsule(a, b),
        (Shape::Filled(a), Shape::Filled(b)) => is_same_area(a, b),
        _ => false,
    }
}

/// Whether there is one piece, and it has the figure of the shape.
pub fn is_itself(shape: &Shape, pieces: &[Piece]) -> bool
    ensures { IsTrue result ↔ (figures_of (plain_pieces pieces.now) ≡ figure_of shape.now ∷ []) }
{
    match pieces {
        [only] => is_same_shape(&only.shape, shape),
        _ => false,
    }
}

/// Where the capsule leads that begins at `from` with radius `r`, if the shape is one.
pub fn next_spot(shape: &Shape, from: Spot, r: u64) -> Option<Spot>
    ensures some { IfSome result (λ to. figure_of shape.now ≡ round (record { a = from; b = to; r = pos r })) }
    ensures none { IfNone result ((to : Spot) → ¬ (figure_of shape.now ≡ round (record { a = from; b = to; r = pos r }))) }
{
    let Shape::Round(capsule) = shape else {
        return None;
    };
    if capsule.a == from && capsule.r.unsigned_abs() == r {
        Some(capsule.b)
    } else {
        None
    }
}

/// The spots of the chain from `start` whose capsules of radius `r` the pieces are, in order; none
/// where some piece is no capsule, has another radius, or does not begin where the one before ended.
fn chain_of(
    alloc: Global,
    pieces: &[Piece],
    start: Spot,
    r: u64,
) -> Result<Option<Vec<Spot>>, NoMemory>
    ensures some { IfOk result (λ found. IfSome found (λ chain. figures_of (plain_pieces pieces.now) ≡ capsules_of chain.items (pos r))) }
    ensures none { IfOk result (λ found. IfNone found ((rest : List Spot) → ¬ (figures_of (plain_pieces pieces.now) ≡ capsules_from start rest (pos r)))) }
{
    let mut chain = Vec::new(alloc);
    chain.push(start)?;
    let mut from = start;
    for piece in pieces {
        match next_spot(&piece.shape, from, r) {
            Some(to) => {
                chain.push(to)?;
                from = to;
            }
            None => return Ok(None),
        }
    }
    Ok(Some(chain))
}

/// Whether the pieces, of which the first is this capsule, are the capsules of a chain that is taken.
fn begin_chain(
    alloc: Global,
    side: Side,
    arc: &Arc,
    pieces: &[Piece],
    first: &Capsule,
) -> Result<bool, NoMemory>
    requires { (figures : List Figure) × (figures_of (plain_pieces pieces.now) ≡ capsule_figure first.now ∷ figures) }
    ensures { IfOk result (λ yes. IsTrue yes ↔ StandTaken side (ArcDraw arc.now) (figures_of (plain_pieces pieces.now))) }
{
    let r = first.r.unsigned_abs();
    match chain_of(alloc, pieces, first.a, r)? {
        Some(chain) => Ok(is_taken(side, arc, &chain, r)),
        None => Ok(false),
    }
}

/// Whether the pieces are the capsules of a chain that is taken for the arc draw. `NoMemory` where memory
/// is wanted.
pub fn are_chain(alloc: Global, side: Side, arc: &Arc, pieces: &[Piece]) -> Result<bool, NoMemory>
    ensures { IfOk result (λ yes. IsTrue yes ↔ StandTaken side (ArcDraw arc.now) (figures_of (plain_pieces pieces.now))) }
{
    match pieces.first() {
        None => Ok(is_taken(side, arc, &[], 0)),
        Some(first) => match &first.shape {
            Shape::Round(capsule) => begin_chain(alloc, side, arc, pieces, capsule),
            Shape::Filled(_) => Ok(false),
        },
    }
}

fn is_lower(side: Side) -> bool
    ensures { IsTrue result ↔ (side ≡ Below) }
{
    match side {
        Side::Below => true,
        Side::Above => false,
    }
}

/// Whether the capsule is a disc that is taken for the turned disc.
fn is_disc(side: Side, disc: &TurnedDisc, capsule: &Capsule) -> bool
    ensures { IsTrue result ↔ OneDisc (IsDiscTaken side disc.now) (capsule_figure capsule.now ∷ []) }
{
    capsule.a == capsule.b && is_disc_taken(side, disc, capsule.a, capsule.r.unsigned_abs())
}

/// Whether the shape is taken for the real one, which one figure alone bounds: a contour for a slanted line or a
/// polygon, a disc for a turned disc, either for a fine figure.
fn is_alone(side: Side, real: &RealShape, shape: &Shape) -> bool
    ensures { IsTrue result ↔ AloneTaken side real.now (figure_of shape.now ∷ []) }
{
    match (real, shape) {
        (RealShape::Slanted(line), Shape::Filled(area)) => is_line_taken(side, line, &area.points),
        (RealShape::Polygon(polygon), Shape::Filled(area)) => {
            is_polygon_taken(side, polygon, &area.points)
        }
        (RealShape::TurnedDisc(disc), Shape::Round(capsule)) => is_disc(side, disc, capsule),
        (RealShape::Fine(fine), _) => is_fine_taken(side, fine, shape),
        _ => false,
    }
}

/// Whether the pieces are one that is taken for the real shape, which one figure alone bounds; below, none are taken too.
pub fn stand_alone(side: Side, real: &RealShape, pieces: &[Piece]) -> bool
    ensures { IsTrue result ↔ OrNone side (AloneTaken side real.now) (figures_of (plain_pieces pieces.now)) }
{
    match pieces {
        [] => is_lower(side),
        [only] => is_alone(side, real, &only.shape),
        _ => false,
    }
}
