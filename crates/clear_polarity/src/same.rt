//! Whether two shapes have one figure.
ghost use Rattle.board_shapes.specs.Figures.{area_figure, capsule_figure, figure_of};
ghost use Rattle.std.specs.Prelude.{IsTrue, ◌≡◌, ◌↔◌};

use area_contact::Area;
use board_shapes::Shape;
use contact::Capsule;

/// Whether both capsules have the same ends, in one order.
fn is_same_line(a: &Capsule, b: &Capsule) -> bool
    ensures { IsTrue result ↔ ((a.now.a ≡ b.now.a) × (a.now.b ≡ b.now.b)) }
{
    a.a == b.a && a.b == b.b
}

/// Whether they have one radius too.
fn is_same_capsule(a: &Capsule, b: &Capsule) -> bool
    ensures { IsTrue result ↔ (capsule_figure a.now ≡ capsule_figure b.now) }
{
    is_same_line(a, b) && a.r.unsigned_abs() == b.r.unsigned_abs()
}

/// Whether the contours have the same points in one order.
fn is_same_area(a: &Area, b: &Area) -> bool
    ensures { IsTrue result ↔ (area_figure a.now ≡ area_figure b.now) }
{
    a.points == b.points
}

/// Whether the shapes have one figure.
pub fn is_same_shape(a: &Shape, b: &Shape) -> bool
    ensures { IsTrue result ↔ (figure_of a.now ≡ figure_of b.now) }
{
    match (a, b) {
        (Shape::Round(a), Shape::Round(b)) => is_same_capsule(a, b),
        (Shape::Filled(a), Shape::Filled(b)) => is_same_area(a, b),
        _ => false,
    }
}
