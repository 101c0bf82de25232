//! A solid of copper: a capsule or a filled contour.
ghost use Rattle.area_contact.specs.Contour.{IsClosed};
ghost use Rattle.board_shapes.specs.Figures.{figure_edges, figure_of, filled};
ghost use Rattle.board_shapes.specs.Shapes.{InShape, IsShapeLawful, boxed, not_empty, shape_box};
ghost use Rattle.planar.specs.Plane.{IsPlaced};
ghost use Rattle.std.specs.Prelude.{All, IfOk, length, ◌≡◌, ◌≤◌};

use area_contact::{Area, AreaFault, MOST_CONTOUR_POINTS};
use contact::{Bounds, Capsule, Closed, Meets};
use lengths::rows::NoMemory;
use planar::{Frame, Spot};
use std::alloc::Global;
use std::sync::ledger::Ledger;
use steps::Steps;

/// A solid of copper: a capsule or a filled contour.
#[derive(Drop)]
pub enum Shape {
    Round(Capsule),
    Filled(Area),
}

impl Shape {
    /// The number of edges of its contour; 0 for a capsule.
    pub fn edges(&self) -> u32
        ensures { result ≡ figure_edges (figure_of self.now) }
    {
        match self {
            Shape::Round(_) => 0,
            Shape::Filled(area) => area.edges(),
        }
    }

    /// The area of points that are known to be a contour: 4 to `MOST_CONTOUR_POINTS` points, the last the first again, each within 1 m.
    /// `NoMemory` where memory is wanted.
    pub fn area_of(alloc: Global, points: Vec<Spot>) -> Result<Shape, NoMemory>
        requires closed { IsClosed points.items }
        requires enough { 4 ≤ length points.items }
        requires not_many { length points.items ≤ MOST_CONTOUR_POINTS }
        requires placed { All IsPlaced points.items }
        ensures { IfOk result (λ shape. figure_of shape ≡ filled points.items) }
    {
        match Area::new(alloc, points) {
            Ok(area) => Ok(Shape::Filled(area)),
            Err(AreaFault::NoMemory) => Err(NoMemory),
            Err(AreaFault::Open) => unreachable!(),
            Err(AreaFault::Short) => unreachable!(),
            Err(AreaFault::TooLong) => unreachable!(),
        }
    }
}

impl Closed for Shape {
    ghost holds = { λ s p. InShape s p };

    ghost extent = { λ s. shape_box s };

    ghost is_lawful = { λ s. IsShapeLawful s };

    fn bounds(&self) -> Bounds {
        match self {
            Shape::Round(capsule) => capsule.bounds(),
            Shape::Filled(area) => area.bounds(),
        }
    }

    fn has(&self, p: Spot, frame: Frame) -> bool {
        match self {
            Shape::Round(capsule) => capsule.has(p, frame),
            Shape::Filled(area) => area.has(p, frame),
        }
    }

    ghost not_empty = { λ s h. not_empty s h };

    ghost boxed = { λ s p h k. boxed s p h k };
}

impl Meets<Shape> for Shape {
    fn meets<L: Ledger>(&self, other: &Shape, frame: Frame, tests: &mut Steps<L>) -> bool {
        match (self, other) {
            (Shape::Round(first), Shape::Round(second)) => first.meets(second, frame, tests),
            (Shape::Round(first), Shape::Filled(second)) => first.meets(second, frame, tests),
            (Shape::Filled(first), Shape::Round(second)) => first.meets(second, frame, tests),
            (Shape::Filled(first), Shape::Filled(second)) => first.meets(second, frame, tests),
        }
    }

    ghost reflexive = { λ s h. let p = not_empty s h in record { point = p.0; in_first = p.1; in_second = p.1 } };

    ghost within_boxes = { λ s t h k m. record { point = m.point; in_first = boxed s m.point h m.in_first; in_second = boxed t m.point k m.in_second } };
}
