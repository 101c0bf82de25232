//! The board below a real one, and the board above.
ghost use Rattle.arc_covers.specs.Taken.{IsDiscTaken, IsFineTaken, IsLineTaken, IsPolygonTaken, IsTaken, IsTurnedTaken};
ghost use Rattle.board_shapes.specs.Figures.{figure_of};
ghost use Rattle.std.specs.Prelude.{IsTrue, ◌↔◌};

use arcs::{Arc, Spot, is_above, is_below};
use board_shapes::Shape;
use fine_figures::{FineFigure, is_fine_above, is_fine_below};
use slants::{Slant, TurnedDisc, TurnedFigure};
use turned_polygons::{TurnedPolygon, is_above_turned_polygon, is_below_turned_polygon};

/// On which side of a real board another lies.
#[derive(Clone, Copy, Debug, PartialEq, Eq)]
pub enum Side {
    /// Its copper lies in the real copper.
    Below,
    /// Its copper holds the real copper.
    Above,
}

/// Whether the chain of radius `r` is taken as a bound of the arc draw. Below, that without a spot is.
pub fn is_taken(side: Side, arc: &Arc, chain: &[Spot], r: u64) -> bool
    ensures { IsTrue result ↔ IsTaken side arc.now chain.now r }
{
    match side {
        Side::Below => chain.is_empty() || is_below(arc, chain, r),
        Side::Above => is_above(arc, chain, r),
    }
}

/// Whether the contour is taken as a bound of the slanted line.
pub fn is_line_taken(side: Side, line: &Slant, points: &[Spot]) -> bool
    ensures { IsTrue result ↔ IsLineTaken side line.now points.now }
{
    match side {
        Side::Below => slants::is_below(line, points),
        Side::Above => slants::is_above(line, points),
    }
}

/// Whether the contour is taken as a bound of the turned figure.
pub fn is_turned_taken(side: Side, figure: &TurnedFigure, points: &[Spot]) -> bool
    ensures { IsTrue result ↔ IsTurnedTaken side figure.now.contour.items figure.now.about figure.now.angle points.now }
{
    match side {
        Side::Below => slants::is_below_figure(figure, points),
        Side::Above => slants::is_above_figure(figure, points),
    }
}

/// Whether the disc about `s` of radius `r` is taken as a bound of the turned disc.
pub fn is_disc_taken(side: Side, disc: &TurnedDisc, s: Spot, r: u64) -> bool
    ensures { IsTrue result ↔ IsDiscTaken side disc.now s r }
{
    match side {
        Side::Below => slants::is_below_disc(disc, s, r),
        Side::Above => slants::is_above_disc(disc, s, r),
    }
}

/// Whether the contour is taken as a bound of the regular polygon.
pub fn is_polygon_taken(side: Side, polygon: &TurnedPolygon, points: &[Spot]) -> bool
    ensures { IsTrue result ↔ IsPolygonTaken side polygon.now points.now }
{
    match side {
        Side::Below => is_below_turned_polygon(polygon, points),
        Side::Above => is_above_turned_polygon(polygon, points),
    }
}

/// Whether the figure is taken as a bound of the fine one.
pub fn is_fine_taken(side: Side, fine: &FineFigure, bound: &Shape) -> bool
    ensures { IsTrue result ↔ IsFineTaken side fine.now (figure_of bound.now) }
{
    match side {
        Side::Below => is_fine_below(fine, bound),
        Side::Above => is_fine_above(fine, bound),
    }
}
