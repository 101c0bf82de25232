//! Grown shapes. The least distances were worked out by hand: from corner to corner along 3, 4, 5, from
//! side to side straight across, and 2 for what is a diagonal of 1 apart.
ghost use Rattle.planar.specs.Plane.{IsPlaced};
ghost use Rattle.std.specs.Prelude.{◌<◌, ◌≡◌};

use Form::*;
use area_contact::{Area, AreaFault};
use board_shapes::Shape;
use contact::{Capsule, Closed, Meets};
use gaps::Fat;
use planar::{Frame, Spot};
use std::alloc::{AllocError, Global};
use std::marker::Brand;
use std::sync::ledger::{Blank, Ledger};
use std::test::Fail;
use steps::Steps;

/// Forms of the tables.
#[derive(Clone, Copy)]
enum Form {
    /// A capsule: its ends and its radius.
    Bar((i16, i16), (i16, i16), i16),
    /// A square: its lower left corner and its side.
    Square((i16, i16), i16),
    /// A square of side 100 with a square hole of side 60 in its middle.
    Hollow,
}

/// Two forms, and the least whole number that is not under their distance.
type Pair = (Form, Form, i16);

static PAIRS: [Pair; 20] = [
    (Bar((0, 0), (0, 0), 5), Bar((30, 40), (30, 40), 5), 40),
    (Bar((0, 0), (10, 0), 1), Bar((0, 10), (10, 10), 2), 7),
    (Bar((0, 0), (0, 0), 0), Bar((1, 1), (1, 1), 0), 2),
    (Bar((0, 0), (10, 0), 5), Bar((5, 0), (5, 30), 1), 0),
    (Square((0, 0), 10), Square((13, 14), 10), 5),
    (Square((0, 0), 10), Square((20, 3), 10), 10),
    (Square((0, 0), 10), Square((11, 11), 10), 2),
    (Square((0, 0), 10), Square((0, 0), 10), 0),
    (Square((0, 0), 10), Square((10, 10), 10), 0),
    (Square((0, 0), 30), Square((10, 10), 5), 0),
    (Hollow, Square((40, 40), 20), 20),
    (Hollow, Square((25, 40), 10), 5),
    (Hollow, Square((90, 90), 5), 0),
    (Hollow, Square((103, 104), 10), 5),
    (Hollow, Bar((50, 50), (50, 50), 10), 20),
    (Hollow, Bar((30, 30), (70, 70), 3), 7),
    (Square((0, 0), 10), Bar((20, 5), (40, 5), 3), 7),
    (Square((0, 0), 10), Bar((13, 14), (40, 50), 1), 4),
    (Square((0, 0), 10), Bar((5, 5), (5, 5), 1), 0),
    (Square((0, 0), 10), Bar((11, 11), (11, 11), 0), 2),
];

/// A form, a spot and the least whole number that is not under their distance.
type Holding = (Form, (i16, i16), i16);

static HOLDINGS: [Holding; 8] = [
    (Bar((0, 0), (10, 0), 5), (5, 5), 0),
    (Bar((0, 0), (10, 0), 5), (5, 12), 7),
    (Bar((0, 0), (10, 0), 5), (40, 40), 45),
    (Square((0, 0), 10), (3, 4), 0),
    (Square((0, 0), 10), (13, 14), 5),
    (Hollow, (50, 50), 30),
    (Hollow, (25, 50), 5),
    (Hollow, (10, 50), 0),
];

const FRAME: Frame = Frame {
    left: -1_000_000,
    low: -1_000_000,
};

fn spot(at: (i16, i16)) -> Spot
    ensures { IsPlaced result }
{
    Spot {
        x: at.0 as i64,
        y: at.1 as i64,
    }
}

/// The spot, so many times as far out, and moved.
fn moved(at: (i16, i16), by: (i16, i16), scale: i16) -> Spot
    ensures { IsPlaced result }
{
    let x = at.0.wrapping_mul(scale).wrapping_add(by.0);
    let y = at.1.wrapping_mul(scale).wrapping_add(by.1);
    spot((x, y))
}

fn contour(
    alloc: Global,
    corners: &[(i16, i16)],
    by: (i16, i16),
    scale: i16,
) -> Result<Result<Area, AreaFault>, AllocError> {
    let mut points = Vec::new(alloc);
    for at in corners {
        points.push(moved(*at, by, scale))?;
    }
    Ok(Area::new(alloc, points))
}

const SQUARE: &[(i16, i16)] = &[(0, 0), (1, 0), (1, 1), (0, 1), (0, 0)];

const HOLLOW: &[(i16, i16)] = &[
    (0, 0),
    (100, 0),
    (100, 100),
    (0, 100),
    (0, 50),
    (20, 50),
    (20, 80),
    (80, 80),
    (80, 20),
    (20, 20),
    (20, 50),
    (0, 50),
    (0, 0),
];

fn shape(alloc: Global, form: Form) -> Result<Result<Shape, AreaFault>, AllocError> {
    match form {
        Form::Bar(a, b, r) => {
            let radius = (r as i64).clamp(0, 1_000);
            Ok(Ok(Shape::Round(Capsule::new(spot(a), spot(b), radius))))
        }
        Form::Square(corner, side) => {
            let area = contour(alloc, SQUARE, corner, side)?;
            Ok(area.map(|area| Shape::Filled(area)))
        }
        Form::Hollow => {
            let area = contour(alloc, HOLLOW, (0, 0), 1)?;
            Ok(area.map(|area| Shape::Filled(area)))
        }
    }
}

fn fat(shape: &Shape, grow: i16) -> Fat<'_> {
    Fat::new(shape, (grow as i64).clamp(0, 50_000_000))
}

/// Whether two solids share a point, asked through the bounds of the traits alone; nothing where they
/// do not lie in the frame.
fn share<S: Meets<S>, L: Ledger>(s: &S, t: &S, blank: Blank) -> Option<bool>
    requires name { blank.name ≡ L.name }
    requires parts { blank.parts ≡ L.parts }
    requires some { 0 < blank.parts }
{
    let mut tests = Steps::<L>::new(blank);
    if s.bounds().inside(FRAME) && t.bounds().inside(FRAME) {
        Some(s.meets(t, FRAME, &mut tests))
    } else {
        None
    }
}

fn fats_share(first: &Fat<'_>, second: &Fat<'_>) -> Option<bool> {
    share::<Fat<'_>, Brand>(first, second, Blank::new(1))
}

fn holds(grown: &Fat<'_>, p: Spot) -> Option<bool>
    requires { IsPlaced p }
{
    if grown.bounds().inside(FRAME) {
        Some(grown.has(p, FRAME))
    } else {
        None
    }
}

#[test]
fn grown_pairs(rt: HostRuntime) -> Result<(), Fail> {
    for row in &PAIRS {
        let (first, second, gap) = *row;
        let first = shape(rt.alloc(), first)?.expect(&rt, "first");
        let second = shape(rt.alloc(), second)?.expect(&rt, "second");
        for part in [0, 1, gap / 2, gap] {
            let rest = gap.wrapping_sub(part);
            let (low, high) = (fat(&first, part), fat(&second, rest));
            assert!(rt; part > gap || fats_share(&low, &high) == Some(true));
            assert!(rt; part > gap || fats_share(&high, &low) == Some(true));
            let less = fat(&second, rest.wrapping_sub(1));
            assert!(rt; rest <= 0 || fats_share(&low, &less) == Some(false));
            assert!(rt; rest <= 0 || fats_share(&less, &low) == Some(false));
            let more = fat(&second, rest.wrapping_add(1));
            assert!(rt; part > gap || fats_share(&low, &more) == Some(true));
        }
    }
    Ok(())
}

#[test]
fn grown_spots(rt: HostRuntime) -> Result<(), Fail> {
    for row in &HOLDINGS {
        let (form, at, gap) = *row;
        let form = shape(rt.alloc(), form)?.expect(&rt, "form");
        assert!(rt; holds(&fat(&form, gap), spot(at)) == Some(true));
        let less = fat(&form, gap.wrapping_sub(1));
        assert!(rt; gap == 0 || holds(&less, spot(at)) == Some(false));
    }
    Ok(())
}
