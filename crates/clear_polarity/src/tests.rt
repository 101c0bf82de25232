//! Worked layers. The answers were reckoned by hand from the rule: what a clear object has is erased of all before it, and of nothing after it.
ghost use Rattle.planar.specs.Plane.{IsPlaced};

use crate::{LayerFault, LayerObject, LowerPiece, Polarity, check_layer};
use area_contact::Area;
use board_shapes::Shape;
use contact::Capsule;
use planar::{Frame, Spot, are_placed};
use std::alloc::Global;
use std::test::Fail;

const FRAME: Frame = Frame {
    left: -500,
    low: -500,
};

fn spot(x: i16, y: i16) -> Spot
    ensures { IsPlaced result }
{
    Spot {
        x: x as i64,
        y: y as i64,
    }
}

const DARK: bool = true;

const CLEAR: bool = false;

const DISC: bool = true;

const SQUARE: bool = false;

/// A disc about (x, 0), or a square with half the side r.
type Form = (bool, i16, u8);

/// Such a form, dark or clear.
type Item = (bool, bool, i16, u8);

fn disc(x: i16, r: u8) -> Shape {
    Shape::Round(Capsule::new(spot(x, 0), spot(x, 0), r as i64))
}

fn square(alloc: Global, x: i16, side: u8) -> Result<Shape, Fail> {
    let mut points = Vec::new(alloc);
    let r = side as i16;
    let low = x.saturating_sub(r);
    let high = x.saturating_add(r);
    let under = 0_i16.saturating_sub(r);
    for corner in [
        spot(low, under),
        spot(high, under),
        spot(high, r),
        spot(low, r),
        spot(low, under),
    ] {
        points.push(corner)?;
    }
    if are_placed(&points) {
        Ok(Shape::Filled(Area::new(alloc, points)?))
    } else {
        Ok(disc(0, 0))
    }
}

fn shape(alloc: Global, form: Form) -> Result<Shape, Fail> {
    let (round, x, r) = form;
    if round {
        Ok(disc(x, r))
    } else {
        square(alloc, x, r)
    }
}

const NOTHING: Item = (CLEAR, DISC, -400, 1);

/// Three objects in their order, a piece, the number of the object in which it is said to lie, and whether it is taken.
type Row = (Item, Item, Item, Form, u8, bool);

static ROWS: [Row; 20] = [
    // a dark object whole
    (
        (DARK, DISC, 0, 10),
        NOTHING,
        NOTHING,
        (DISC, 0, 10),
        0,
        true,
    ),
    // a clear one, and none
    (
        (CLEAR, DISC, 0, 10),
        NOTHING,
        NOTHING,
        (DISC, 0, 10),
        0,
        false,
    ),
    (
        (DARK, DISC, 0, 10),
        NOTHING,
        NOTHING,
        (DISC, 0, 10),
        3,
        false,
    ),
    // a clear one before all dark ones
    (
        (CLEAR, SQUARE, 0, 100),
        (DARK, DISC, 0, 10),
        NOTHING,
        (DISC, 0, 10),
        1,
        true,
    ),
    // and after it
    (
        (DARK, DISC, 0, 10),
        (CLEAR, SQUARE, 0, 100),
        NOTHING,
        (DISC, 0, 10),
        0,
        false,
    ),
    // clear over dark over clear: what was before is erased, what comes after stays
    (
        (DARK, DISC, 0, 10),
        (CLEAR, DISC, 0, 20),
        (DARK, DISC, 0, 10),
        (DISC, 0, 10),
        2,
        true,
    ),
    (
        (DARK, DISC, 0, 10),
        (CLEAR, DISC, 0, 20),
        (DARK, DISC, 0, 10),
        (DISC, 0, 10),
        0,
        false,
    ),
    (
        (CLEAR, DISC, 0, 20),
        (DARK, DISC, 0, 10),
        (CLEAR, DISC, 5, 1),
        (DISC, 0, 10),
        1,
        false,
    ),
    // borders that touch, and 1 u beside
    (
        (DARK, DISC, 0, 10),
        (CLEAR, DISC, 30, 20),
        NOTHING,
        (DISC, 0, 10),
        0,
        false,
    ),
    (
        (DARK, DISC, 0, 10),
        (CLEAR, DISC, 31, 20),
        NOTHING,
        (DISC, 0, 10),
        0,
        true,
    ),
    // two clear ones, of which the second touches
    (
        (DARK, DISC, 0, 10),
        (CLEAR, DISC, 31, 20),
        (CLEAR, SQUARE, -30, 20),
        (DISC, 0, 10),
        0,
        false,
    ),
    // within a contour, at its edge, and across it
    (
        (DARK, SQUARE, 0, 100),
        NOTHING,
        NOTHING,
        (DISC, 0, 99),
        0,
        true,
    ),
    (
        (DARK, SQUARE, 0, 100),
        NOTHING,
        NOTHING,
        (DISC, 0, 100),
        0,
        false,
    ),
    (
        (DARK, SQUARE, 0, 100),
        NOTHING,
        NOTHING,
        (DISC, 100, 10),
        0,
        false,
    ),
    (
        (DARK, SQUARE, 0, 100),
        NOTHING,
        NOTHING,
        (SQUARE, 0, 99),
        0,
        true,
    ),
    (
        (DARK, SQUARE, 0, 100),
        NOTHING,
        NOTHING,
        (SQUARE, 0, 101),
        0,
        false,
    ),
    // beside it
    (
        (DARK, SQUARE, 0, 100),
        NOTHING,
        NOTHING,
        (DISC, 200, 10),
        0,
        false,
    ),
    // a plane whose clearance the piece touches, or not
    (
        (DARK, SQUARE, 0, 100),
        (CLEAR, DISC, 50, 10),
        NOTHING,
        (DISC, 0, 40),
        0,
        false,
    ),
    (
        (DARK, SQUARE, 0, 100),
        (CLEAR, DISC, 50, 10),
        NOTHING,
        (DISC, 0, 39),
        0,
        true,
    ),
    // round the clearance
    (
        (DARK, SQUARE, 0, 100),
        (CLEAR, DISC, 50, 10),
        NOTHING,
        (SQUARE, 50, 20),
        0,
        false,
    ),
];

fn push(alloc: Global, objects: &mut Vec<LayerObject>, item: Item) -> Result<(), Fail> {
    let (dark, round, x, r) = item;
    let mut inner = Vec::new(alloc);
    inner.push(shape(alloc, (round, x, r))?)?;
    let mut outer = Vec::new(alloc);
    outer.push(shape(alloc, (round, x, r))?)?;
    let polarity = if dark {
        Polarity::Dark
    } else {
        Polarity::Clear
    };
    objects.push(LayerObject {
        polarity,
        inner,
        outer,
    })?;
    Ok(())
}

#[test]
fn pieces_below(rt: HostRuntime) -> Result<(), Fail> {
    let alloc = rt.alloc();
    for row in &ROWS {
        let (first, second, third, piece, number, taken) = *row;
        let mut objects = Vec::new(alloc);
        push(alloc, &mut objects, first)?;
        push(alloc, &mut objects, second)?;
        push(alloc, &mut objects, third)?;
        let mut upper = Vec::new(alloc);
        for item in [first, second, third] {
            let (dark, round, x, r) = item;
            if dark {
                upper.push(shape(alloc, (round, x, r))?)?;
            }
        }
        let mut lower = Vec::new(alloc);
        lower.push(LowerPiece {
            shape: shape(alloc, piece)?,
            object: number as usize,
            figure: 0,
        })?;
        let answer = check_layer(&objects, &lower, &upper, FRAME);
        if taken {
            assert!(rt; answer == Ok(()));
        } else {
            assert!(rt; answer == Err(LayerFault::Lower));
        }
    }
    Ok(())
}

/// Shapes above a layer of a dark disc, a clear one, and a dark square, and whether they are those of the dark objects.
static ABOVE: [(Form, Form, u8, bool); 5] = [
    ((DISC, 0, 10), (SQUARE, 50, 20), 2, true),
    // another order, another size, one alone, none
    ((SQUARE, 50, 20), (DISC, 0, 10), 2, false),
    ((DISC, 0, 10), (SQUARE, 50, 19), 2, false),
    ((DISC, 0, 10), (SQUARE, 50, 20), 1, false),
    ((DISC, 0, 10), (SQUARE, 50, 20), 0, false),
];

#[test]
fn shapes_above(rt: HostRuntime) -> Result<(), Fail> {
    let alloc = rt.alloc();
    let mut objects = Vec::new(alloc);
    push(alloc, &mut objects, (DARK, DISC, 0, 10))?;
    push(alloc, &mut objects, (CLEAR, DISC, 50, 5))?;
    push(alloc, &mut objects, (DARK, SQUARE, 50, 20))?;
    for row in &ABOVE {
        let (first, second, count, held) = *row;
        let mut upper = Vec::new(alloc);
        if count > 0 {
            upper.push(shape(alloc, first)?)?;
        }
        if count > 1 {
            upper.push(shape(alloc, second)?)?;
        }
        let answer = check_layer(&objects, &[], &upper, FRAME);
        if held {
            assert!(rt; answer == Ok(()));
        } else {
            assert!(rt; answer == Err(LayerFault::Upper));
        }
    }
    Ok(())
}
