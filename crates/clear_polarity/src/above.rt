//! Whether shapes are those of all dark objects.
ghost use Rattle.board_shapes.specs.Figures.{Figure, figure_of};
ghost use Rattle.clear_polarity.specs.Taken.{AreHeld, dark_ones};
ghost use Rattle.std.specs.Prelude.{IfNone, IfSome, IsTrue, List, drop, length, map, take, ◌++◌, ◌≡◌, ◌≤◌, ◌↔◌};

use crate::same::is_same_shape;
use crate::{LayerObject, Polarity};
use board_shapes::Shape;

/// Whether as many shapes have the same figures, one by one.
fn are_same(shapes: &[Shape], others: &[Shape]) -> bool
    ensures { IsTrue result ↔ (map figure_of shapes.now ≡ map figure_of others.now) }
{
    if shapes.len() != others.len() {
        return false;
    }
    for i in 0..shapes.len() {
        if !is_same_shape(&shapes[i], &others[i]) {
            return false;
        }
    }
    true
}

/// How many of the shapes, from the first on, have the figures of the others; none where they do not begin with them.
fn begun(others: &[Shape], shapes: &[Shape]) -> Option<usize>
    ensures some { IfSome result (λ n. (n ≤ length shapes.now) × (map figure_of (take n shapes.now) ≡ map figure_of others.now)) }
    ensures none { IfNone result ((rest : List Figure) → ¬ (map figure_of shapes.now ≡ map figure_of others.now ++ rest)) }
{
    let count = others.len();
    if shapes.len() < count {
        return None;
    }
    let first = &shapes[..count];
    if !are_same(first, others) {
        return None;
    }
    Some(count)
}

/// How many of them are the outer figures of the object, where it is dark; a clear one has none above.
fn passed(object: &LayerObject, shapes: &[Shape]) -> Option<usize>
    ensures some { IfSome result (λ n. (n ≤ length shapes.now) × (map figure_of (take n shapes.now) ≡ dark_ones object.now.polarity (map figure_of object.now.outer.items))) }
    ensures none { IfNone result ((rest : List Figure) → ¬ (map figure_of shapes.now ≡ dark_ones object.now.polarity (map figure_of object.now.outer.items) ++ rest)) }
{
    match object.polarity {
        Polarity::Dark => begun(&object.outer, shapes),
        Polarity::Clear => Some(0),
    }
}

/// The shapes from that number on.
fn from(shapes: &[Shape], start: usize) -> &[Shape]
    requires { start ≤ length shapes.now }
    ensures { result.now ≡ drop start shapes.now }
{
    &shapes[start..]
}

/// Whether the shapes are the outer figures of the dark objects, in their order.
pub fn are_held(objects: &[LayerObject], upper: &[Shape]) -> bool
    ensures { IsTrue result ↔ AreHeld objects.now upper.now }
{
    let mut start = 0;
    for object in objects {
        match passed(object, from(upper, start)) {
            Some(count) => start += count,
            None => return false,
        }
    }
    start == upper.len()
}
