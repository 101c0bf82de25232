//! Whether shapes, and the edges of a contour, share no point with a shape.
ghost use Rattle.board_shapes.specs.Figures.{InFigure, figure_box, figure_of};
ghost use Rattle.clear_polarity.specs.Taken.{AreApart, AreEdgesApart, edge_from};
ghost use Rattle.contact.specs.Solid.{IsInside, SharePoint};
ghost use Rattle.planar.specs.Plane.{IsPlaced};
ghost use Rattle.std.specs.Prelude.{All, IsTrue, ◌<◌, ◌≡◌, ◌↔◌};

use board_shapes::Shape;
use contact::{Capsule, Closed, Meets};
use planar::{Frame, Spot};
use std::marker::Brand;
use std::sync::ledger::{Blank, Ledger};
use steps::Steps;

/// Whether some point lies in both.
fn share<L: Ledger>(a: &Shape, b: &Shape, frame: Frame, blank: Blank) -> bool
    requires first_inside { IsInside (figure_box (figure_of a.now)) frame }
    requires second_inside { IsInside (figure_box (figure_of b.now)) frame }
    requires name { blank.name ≡ L.name }
    requires parts { blank.parts ≡ L.parts }
    requires some { 0 < blank.parts }
    ensures { IsTrue result ↔ SharePoint (InFigure (figure_of a.now)) (InFigure (figure_of b.now)) }
{
    let mut tests = Steps::<L>::new(blank);
    a.meets(b, frame, &mut tests)
}

/// Whether the shape lies in the frame.
fn is_framed(shape: &Shape, frame: Frame) -> bool
    ensures { IsTrue result ↔ IsInside (figure_box (figure_of shape.now)) frame }
{
    shape.bounds().inside(frame)
}

/// Whether both lie in the frame, and share no point.
pub fn are_apart(a: &Shape, b: &Shape, frame: Frame) -> bool
    ensures { IsTrue result ↔ AreApart frame (figure_of a.now) (figure_of b.now) }
{
    if !is_framed(a, frame) {
        return false;
    }
    if !is_framed(b, frame) {
        return false;
    }
    !share::<Brand>(a, b, frame, Blank::new(1))
}

/// Whether the edge is apart from the shape.
fn is_edge_apart(a: Spot, b: Spot, shape: &Shape, frame: Frame) -> bool
    requires a_placed { IsPlaced a }
    requires b_placed { IsPlaced b }
    ensures { IsTrue result ↔ AreApart frame (edge_from a b) (figure_of shape.now) }
{
    let edge = Shape::Round(Capsule::new(a, b, 0));
    are_apart(&edge, shape, frame)
}

/// Whether each edge of the line through the spots is.
pub fn are_edges_apart(points: &[Spot], shape: &Shape, frame: Frame) -> bool
    requires { All IsPlaced points.now }
    ensures { IsTrue result ↔ AreEdgesApart frame (figure_of shape.now) points.now }
{
    match points {
        [] => true,
        [first, rest @ ..] => {
            let mut from = *first;
            for to in rest {
                if !is_edge_apart(from, *to, shape, frame) {
                    return false;
                }
                from = *to;
            }
            true
        }
    }
}
