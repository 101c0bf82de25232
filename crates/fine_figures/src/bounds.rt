//! Whether figures on the grid of u bound fine ones.
ghost use Rattle.board_shapes.specs.Figures.{InFigure, figure_of};
ghost use Rattle.fine_figures.specs.Fine.{InFine};
ghost use Rattle.fine_figures.specs.Taken.{TakenAbove, TakenBelow};
ghost use Rattle.planar.specs.Plane.{Point};
ghost use Rattle.std.specs.Prelude.{IsTrue, ◌↔◌};

use super::FineFigure;
use super::sides::{is_around, is_between};
use super::strokes::{is_thicker, is_thinner};
use board_shapes::Shape;
use contact::Closed;

fn is_within(fine: &FineFigure, bound: &Shape) -> bool
    ensures { IsTrue result ↔ TakenBelow fine.now (figure_of bound.now) }
{
    match (fine, bound) {
        (FineFigure::Round(stroke), Shape::Round(capsule)) => is_thinner(stroke, capsule),
        (FineFigure::Round(_), Shape::Filled(_)) => false,
        (FineFigure::Rectangle(sides), shape) => is_between(sides, &shape.bounds()),
    }
}

fn is_outside(fine: &FineFigure, bound: &Shape) -> bool
    ensures { IsTrue result ↔ TakenAbove fine.now (figure_of bound.now) }
{
    match (fine, bound) {
        (FineFigure::Round(stroke), Shape::Round(capsule)) => is_thicker(stroke, capsule),
        (FineFigure::Rectangle(sides), Shape::Filled(area)) => is_around(sides, &area.points),
        _ => false,
    }
}

/// Whether the figure, in u, lies in the fine one, in half u: where it says so, it does, and of others that do, it may refuse some
/// (`TakenBelow`).
pub fn is_fine_below(fine: &FineFigure, bound: &Shape) -> bool
    ensures taken { IsTrue result ↔ TakenBelow fine.now (figure_of bound.now) }
    ensures copper { IsTrue result → (p : Point) → InFigure (figure_of bound.now) p → InFine fine.now p }
{
    is_within(fine, bound)
}

/// Whether the figure, in u, holds the fine one, in half u: where it says so, it does, and of others that do, it may refuse some
/// (`TakenAbove`).
pub fn is_fine_above(fine: &FineFigure, bound: &Shape) -> bool
    ensures taken { IsTrue result ↔ TakenAbove fine.now (figure_of bound.now) }
    ensures copper { IsTrue result → (p : Point) → InFine fine.now p → InFigure (figure_of bound.now) p }
{
    is_outside(fine, bound)
}
