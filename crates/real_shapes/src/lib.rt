//! Pieces of a real board.
//!
//! A piece is a figure, or copper that no figure is, as an arc draw; other crates check its bounds.
#![tactic(auto)]

use arc_regions::Region;
use arcs::Arc;
use board_shapes::{Placed, Shape};
use fine_figures::{FineFigure, HoledFigure};
use slants::{Slant, TurnedDisc, TurnedFigure};
use turned_polygons::TurnedPolygon;

/// A figure of ours, an arc draw with a round pen, a rectangle about a slanted line, a region whose
/// contour has arcs, a figure or a disc turned by degrees, a regular polygon in any direction, or a figure on
/// the grid of half a u, with a round hole or without.
#[derive(Drop)]
pub enum RealShape {
    Plain(Shape),
    ArcDraw(Arc),
    Slanted(Slant),
    Region(Region),
    Turned(TurnedFigure),
    TurnedDisc(TurnedDisc),
    Polygon(TurnedPolygon),
    Fine(FineFigure),
    Holed(HoledFigure),
}

/// Such a shape on a span of layers, with what made it.
pub type RealPiece = Placed<RealShape>;
