//! Whether a piece lies in a dark object, and all later objects spare it.
ghost use Rattle.board_shapes.specs.Figures.{figure_of};
ghost use Rattle.clear_polarity.specs.Taken.{AreApart, IsLeft, LiesIn, LiesInContour, LiesInside, Spares, first_spot};
ghost use Rattle.clear_polarity.specs.declared.Polarity.TheVariants.{Dark};
ghost use Rattle.planar.specs.Plane.{IsPlaced};
ghost use Rattle.std.specs.Prelude.{All, IsTrue, drop, length, ◌+◌, ◌<◌, ◌≡◌, ◌↔◌};

use crate::apart::{are_apart, are_edges_apart};
use crate::same::is_same_shape;
use crate::{LayerObject, LowerPiece, Polarity};
use area_contact::Area;
use board_shapes::Shape;
use contact::Closed;
use planar::{Frame, Spot};

/// Where a stroke starts, or a contour.
fn first_of(shape: &Shape) -> Spot
    ensures value { result ≡ first_spot (figure_of shape.now) }
    ensures placed { IsPlaced result }
{
    match shape {
        Shape::Round(capsule) => capsule.a,
        Shape::Filled(area) => area.points[0],
    }
}

/// Whether the shape touches no edge of the contour, and its first spot lies in it.
fn lies_inside(shape: &Shape, area: &Area, frame: Frame) -> bool
    ensures { IsTrue result ↔ LiesInside frame (figure_of shape.now) area.now.points.items }
{
    if !area.bounds().inside(frame) {
        return false;
    }
    if !are_edges_apart(&area.points, shape, frame) {
        return false;
    }
    area.has(first_of(shape), frame)
}

/// Whether the whole is a contour, and the shape lies inside it.
fn lies_in_contour(shape: &Shape, whole: &Shape, frame: Frame) -> bool
    ensures { IsTrue result ↔ LiesInContour frame (figure_of shape.now) (figure_of whole.now) }
{
    match whole {
        Shape::Round(_) => false,
        Shape::Filled(area) => lies_inside(shape, area, frame),
    }
}

/// Whether the shape is the whole, or lies inside it.
fn lies_in(shape: &Shape, whole: &Shape, frame: Frame) -> bool
    ensures { IsTrue result ↔ LiesIn frame (figure_of shape.now) (figure_of whole.now) }
{
    is_same_shape(shape, whole) || lies_in_contour(shape, whole, frame)
}

/// Whether each of the others is apart from the shape.
fn are_all_apart(shape: &Shape, others: &[Shape], frame: Frame) -> bool
    ensures { IsTrue result ↔ All (λ other. AreApart frame (figure_of shape.now) (figure_of other)) others.now }
{
    others.iter().all(|other| are_apart(shape, other, frame))
}

/// Whether the object takes nothing away of the shape.
fn spares(object: &LayerObject, shape: &Shape, frame: Frame) -> bool
    ensures { IsTrue result ↔ Spares frame (figure_of shape.now) object.now }
{
    match object.polarity {
        Polarity::Dark => true,
        Polarity::Clear => are_all_apart(shape, &object.outer, frame),
    }
}

/// Whether all of the objects do.
fn all_spare(objects: &[LayerObject], shape: &Shape, frame: Frame) -> bool
    ensures { IsTrue result ↔ All (Spares frame (figure_of shape.now)) objects.now }
{
    objects.iter().all(|object| spares(object, shape, frame))
}

/// Whether the object is dark.
fn is_dark(object: &LayerObject) -> bool
    ensures { IsTrue result ↔ (object.now.polarity ≡ Dark) }
{
    match object.polarity {
        Polarity::Dark => true,
        Polarity::Clear => false,
    }
}

/// The objects after that number.
fn after(objects: &[LayerObject], number: usize) -> &[LayerObject]
    requires { number < length objects.now }
    ensures { result.now ≡ drop (number + 1) objects.now }
{
    &objects[number + 1..]
}

/// Whether the piece lies in the dark object that it names, and all later objects spare it.
pub fn is_left(objects: &[LayerObject], piece: &LowerPiece, frame: Frame) -> bool
    ensures { IsTrue result ↔ IsLeft frame objects.now piece.now }
{
    let Some(object) = objects.get(piece.object) else {
        return false;
    };
    let Some(figure) = object.inner.get(piece.figure) else {
        return false;
    };
    if !is_dark(object) {
        return false;
    }
    if !lies_in(&piece.shape, figure, frame) {
        return false;
    }
    all_spare(after(objects, piece.object), &piece.shape, frame)
}

/// Whether each of the pieces does.
pub fn are_left(objects: &[LayerObject], pieces: &[LowerPiece], frame: Frame) -> bool
    ensures { IsTrue result ↔ All (IsLeft frame objects.now) pieces.now }
{
    for piece in pieces {
        if !is_left(objects, piece, frame) {
            return false;
        }
    }
    true
}
