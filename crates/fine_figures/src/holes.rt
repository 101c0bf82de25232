//! Whether figures on the grid of u bound fine ones with a round hole.
ghost use Rattle.board_shapes.specs.Figures.{InFigure, figure_box, figure_of};
ghost use Rattle.contact.specs.Round.{box_of};
ghost use Rattle.contact.specs.Solid.{IsInside, SharePoint};
ghost use Rattle.fine_figures.specs.Holes as spec;
ghost use Rattle.fine_figures.specs.Holes.{HoledAbove, HoledBelow, InHoled, IsClearOf, IsUpright, LiesWithin};
ghost use Rattle.fine_figures.specs.Taken.{IsThinner};
ghost use Rattle.planar.specs.Plane.{InCapsule, IsPlaced, Point};
ghost use Rattle.std.specs.Prelude.{IsTrue, pos, ◌≡◌, ◌⊎◌, ◌≤ℤ◌, ◌↔◌};

use super::bounds::is_fine_above;
use super::sides::is_between;
use super::strokes::{doubled, is_thinner};
use super::{FineFigure, FineStroke, HoledFigure};
use board_shapes::Shape;
use contact::{Capsule, Closed, MOST_RADIUS, Meets};
use planar::{Frame, Spot, is_placed};
use std::sync::ledger::Ledger;
use steps::Steps;

/// Whether the stroke leads to the right, or is a disc.
fn is_level(f: &FineStroke) -> bool
    ensures { IsTrue result ↔ ((f.now.a.x ≤ℤ f.now.b.x) × (f.now.a.y ≡ f.now.b.y)) }
{
    f.a.x <= f.b.x && f.a.y == f.b.y
}

/// Whether it leads up, or is a disc.
fn is_standing(f: &FineStroke) -> bool
    ensures { IsTrue result ↔ ((f.now.a.x ≡ f.now.b.x) × (f.now.a.y ≤ℤ f.now.b.y)) }
{
    f.a.x == f.b.x && f.a.y <= f.b.y
}

fn is_upright(f: &FineStroke) -> bool
    ensures { IsTrue result ↔ IsUpright f.now }
{
    is_level(f) || is_standing(f)
}

/// The place of the middle line of an upright stroke that is nearest to a spot, in half u.
fn foot(f: &FineStroke, s: Spot) -> Spot
    ensures { result ≡ spec.foot f.now s }
{
    Spot {
        x: f.a.x.max(s.x.min(f.b.x)),
        y: f.a.y.max(s.y.min(f.b.y)),
    }
}

/// The part of it between those nearest to the ends of a capsule.
fn part_by(f: &FineStroke, bound: &Capsule) -> FineStroke
    ensures { result ≡ spec.part_by f.now bound.now.a bound.now.b }
{
    FineStroke {
        a: foot(f, doubled(bound.a)),
        b: foot(f, doubled(bound.b)),
        r: f.r,
    }
}

/// Whether the capsule is thinner than that part.
fn is_thinner_part(f: &FineStroke, bound: &Capsule) -> bool
    ensures { IsTrue result ↔ IsThinner (spec.part_by f.now bound.now.a bound.now.b) bound.now.a bound.now.b bound.now.r }
{
    is_thinner(&part_by(f, bound), bound)
}

fn is_in_stroke(f: &FineStroke, bound: &Capsule) -> bool
    ensures { IsTrue result ↔ (IsUpright f.now × IsThinner (spec.part_by f.now bound.now.a bound.now.b) bound.now.a bound.now.b bound.now.r) }
{
    is_upright(f) && is_thinner_part(f, bound)
}

/// Whether the figure lies in the outline: a capsule in a stroke, or any between sides.
fn lies_within(outline: &FineFigure, bound: &Shape) -> bool
    ensures { IsTrue result ↔ LiesWithin outline.now (figure_of bound.now) }
{
    match (outline, bound) {
        (FineFigure::Round(stroke), Shape::Round(capsule)) => is_in_stroke(stroke, capsule),
        (FineFigure::Round(_), Shape::Filled(_)) => false,
        (FineFigure::Rectangle(sides), shape) => is_between(sides, &shape.bounds()),
    }
}

/// Whether the figure shares a point with the disc.
fn meets<L: Ledger>(bound: &Shape, disc: &Capsule, frame: Frame, tests: &mut Steps<L>) -> bool
    requires inside { IsInside (figure_box (figure_of bound.now)) frame }
    requires disc { IsInside (box_of disc.now.a disc.now.b disc.now.r) frame }
    ensures { IsTrue result ↔ SharePoint (InFigure (figure_of bound.now)) (InCapsule disc.now.a disc.now.b disc.now.r) }
{
    match bound {
        Shape::Round(capsule) => capsule.meets(disc, frame, tests),
        Shape::Filled(area) => area.meets(disc, frame, tests),
    }
}

/// Whether the disc lies in the frame and shares no point with the figure.
fn is_apart<L: Ledger>(bound: &Shape, disc: &Capsule, frame: Frame, tests: &mut Steps<L>) -> bool
    requires inside { IsInside (figure_box (figure_of bound.now)) frame }
    ensures { IsTrue result ↔ (IsInside (box_of disc.now.a disc.now.b disc.now.r) frame × ¬ SharePoint (InFigure (figure_of bound.now)) (InCapsule disc.now.a disc.now.b disc.now.r)) }
{
    if disc.bounds().inside(frame) {
        !meets(bound, disc, frame, tests)
    } else {
        false
    }
}

/// Whether the figure shares no point with the disc of a radius about a spot, where it lies in the frame.
fn is_clear<L: Ledger>(
    bound: &Shape,
    centre: Spot,
    r: u64,
    frame: Frame,
    tests: &mut Steps<L>,
) -> bool
    requires inside { IsInside (figure_box (figure_of bound.now)) frame }
    ensures { IsTrue result ↔ IsClearOf frame centre r (figure_of bound.now) }
{
    if r > MOST_RADIUS as u64 {
        return false;
    }
    if !is_placed(centre) {
        return false;
    }
    let disc = Capsule::new(centre, centre, r as i64);
    is_apart(bound, &disc, frame, tests)
}

/// Whether the figure lies in the frame.
fn is_inside(bound: &Shape, frame: Frame) -> bool
    ensures { IsTrue result ↔ IsInside (figure_box (figure_of bound.now)) frame }
{
    bound.bounds().inside(frame)
}

/// Half of a diameter, rounded up.
fn half_up(d: u64) -> u64
    ensures { result ≡ spec.half_up d }
{
    d / 2 + d % 2
}

/// Whether the figure is clear of the hole.
fn is_past<L: Ledger>(
    holed: &HoledFigure,
    bound: &Shape,
    frame: Frame,
    tests: &mut Steps<L>,
) -> bool
    ensures { IsTrue result ↔ IsClearOf frame holed.now.centre (spec.half_up holed.now.hole) (figure_of bound.now) }
{
    if is_inside(bound, frame) {
        is_clear(bound, holed.centre, half_up(holed.hole), frame, tests)
    } else {
        false
    }
}

fn is_within<L: Ledger>(
    holed: &HoledFigure,
    bound: &Shape,
    frame: Frame,
    tests: &mut Steps<L>,
) -> bool
    ensures { IsTrue result ↔ HoledBelow frame holed.now (figure_of bound.now) }
{
    lies_within(&holed.outline, bound) && is_past(holed, bound, frame, tests)
}

/// Whether the figure, in u, lies in the one with a hole (`HoledBelow`): where it says so, it does, and of others that do, it may
/// refuse some. The figure and the disc of the hole lie in the frame.
pub fn is_holed_below<L: Ledger>(
    holed: &HoledFigure,
    bound: &Shape,
    frame: Frame,
    tests: &mut Steps<L>,
) -> bool
    ensures taken { IsTrue result ↔ HoledBelow frame holed.now (figure_of bound.now) }
    ensures copper { IsTrue result → (p : Point) → InFigure (figure_of bound.now) p → InHoled holed.now p }
{
    is_within(holed, bound, frame, tests)
}

/// Whether the figure, in u, holds the outline of the one with a hole (`HoledAbove`), and so the figure.
pub fn is_holed_above(holed: &HoledFigure, bound: &Shape) -> bool
    ensures taken { IsTrue result ↔ HoledAbove holed.now (figure_of bound.now) }
    ensures copper { IsTrue result → (p : Point) → InHoled holed.now p → InFigure (figure_of bound.now) p }
{
    is_fine_above(&holed.outline, bound)
}
