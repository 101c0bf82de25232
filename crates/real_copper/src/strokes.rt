//! What a draw makes (Gerber Layer Format Specification, 4.7 and 4.8).
ghost use Rattle.apertures.specs.Flash.{IsNarrow};
ghost use Rattle.planar.specs.Plane.{IsPlaced};
ghost use Rattle.real_copper.specs.Draws as spec;
ghost use Rattle.real_copper.specs.Draws.{IsNearBend};
ghost use Rattle.real_copper.specs.Figures.{arc};
ghost use Rattle.real_copper.specs.Shapes.{real_figure};
ghost use Rattle.std.specs.Prelude.{◌≡◌};

use crate::anchored::Anchored;
use crate::draw::Bend;
use crate::flashes::plain;
use apertures::half;
use arcs::Arc;
use board_shapes::Shape;
use contact::Capsule;
use fine_figures::{FineFigure, FineStroke, doubled};
use planar::Spot;
use real_shapes::RealShape;

// The stroke between two spots, in half u.
fn odd_draw(from: Spot, to: Spot, pen: u64) -> Anchored
    requires from { IsPlaced from }
    requires to { IsPlaced to }
    ensures { real_figure result.shape ≡ spec.odd_draw from to pen }
{
    Anchored {
        shape: RealShape::Fine(FineFigure::Round(FineStroke {
            a: doubled(from),
            b: doubled(to),
            r: pen,
        })),
    }
}

// The stroke between two spots with a pen of this diameter.
fn straight_draw(from: Spot, to: Spot, pen: u64) -> Anchored
    requires from { IsPlaced from }
    requires to { IsPlaced to }
    requires pen { IsNarrow pen }
    ensures { real_figure result.shape ≡ spec.straight_draw from to pen }
{
    if pen % 2 == 0 {
        plain(Shape::Round(Capsule::new(from, to, half(pen))))
    } else {
        odd_draw(from, to, pen)
    }
}

fn arc_draw(bend: Bend, from: Spot, to: Spot, pen: u64) -> Anchored
    requires from { IsPlaced from }
    requires to { IsPlaced to }
    requires centre { IsPlaced bend.centre }
    ensures { real_figure result.shape ≡ spec.arc_draw bend from to pen }
{
    let (start, end) = if bend.clockwise {
        (to, from)
    } else {
        (from, to)
    };
    Anchored {
        shape: RealShape::ArcDraw(Arc {
            centre: bend.centre,
            start,
            end,
            width: pen,
        }),
    }
}

/// A draw between two spots, with a bend or none, and with a round pen of this diameter.
pub fn draw_of(bend: Option<Bend>, from: Spot, to: Spot, pen: u64) -> Anchored
    requires from { IsPlaced from }
    requires to { IsPlaced to }
    requires bend { IsNearBend bend }
    requires pen { IsNarrow pen }
    ensures { real_figure result.shape ≡ spec.draw_of bend from to pen }
{
    match bend {
        Some(bend) => arc_draw(bend, from, to, pen),
        None => straight_draw(from, to, pen),
    }
}
