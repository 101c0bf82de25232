//! Fine figures and figures on the grid of u. The answers were reckoned by hand, by squares of ways in half u.
ghost use Rattle.planar.specs.Plane.{IsPlaced};
ghost use Rattle.std.specs.Prelude.{◌<◌, ◌≡◌};

use area_contact::Area;
use board_shapes::Shape;
use contact::Capsule;
use fine_figures::{
    Bounds, FineFigure, FineStroke, HoledFigure, Spot, is_fine_above, is_fine_below,
    is_holed_above, is_holed_below,
};
use planar::{Frame, are_placed};
use std::alloc::Global;
use std::marker::Brand;
use std::sync::ledger::{Blank, Ledger};
use std::test::Fail;
use steps::Steps;

fn spot(p: [i16; 2]) -> Spot
    ensures { IsPlaced result }
{
    Spot {
        x: p[0] as i64,
        y: p[1] as i64,
    }
}

fn capsule(a: [i16; 2], b: [i16; 2], r: u8) -> Shape {
    Shape::Round(Capsule::new(spot(a), spot(b), r as i64))
}

fn stroke(a: [i16; 2], b: [i16; 2], r: u8) -> FineFigure {
    FineFigure::Round(FineStroke {
        a: spot(a),
        b: spot(b),
        r: r as u64,
    })
}

/// Whether the figure is taken below and above.
fn taken(fine: &FineFigure, bound: &Shape) -> (bool, bool) {
    (is_fine_below(fine, bound), is_fine_above(fine, bound))
}

/// The ends and the radius of a fine stroke, those of a capsule, and whether it is taken below and above.
type Row = ([i16; 4], u8, [i16; 4], u8, (bool, bool));

static ROWS: [Row; 17] = [
    // a circle of 9 u about (100, -50)
    (
        [200, -100, 200, -100],
        9,
        [100, -50, 100, -50],
        4,
        (true, false),
    ),
    (
        [200, -100, 200, -100],
        9,
        [100, -50, 100, -50],
        5,
        (false, true),
    ),
    // about spots beside it
    (
        [200, -100, 200, -100],
        9,
        [101, -50, 101, -50],
        4,
        (false, false),
    ),
    (
        [200, -100, 200, -100],
        9,
        [101, -49, 101, -49],
        3,
        (true, false),
    ),
    (
        [200, -100, 200, -100],
        9,
        [102, -50, 102, -50],
        3,
        (false, false),
    ),
    (
        [200, -100, 200, -100],
        9,
        [101, -49, 101, -49],
        6,
        (false, true),
    ),
    // an even one
    (
        [200, -100, 200, -100],
        8,
        [100, -50, 100, -50],
        4,
        (true, true),
    ),
    // an obround of 11 by 7 u
    ([-4, 0, 4, 0], 7, [-2, 0, 2, 0], 3, (true, false)),
    ([-4, 0, 4, 0], 7, [-2, 0, 2, 0], 4, (false, true)),
    // the other way
    ([-4, 0, 4, 0], 7, [2, 0, -2, 0], 3, (false, false)),
    // of 12 by 7 u
    ([-5, 0, 5, 0], 7, [-3, 0, 3, 0], 3, (true, false)),
    ([-5, 0, 5, 0], 7, [-2, 0, 2, 0], 4, (false, true)),
    // of 8 by 11 u: with one size 1 less and more they are bounds that are not taken
    ([0, -3, 0, 3], 8, [0, -1, 0, 1], 4, (false, false)),
    ([0, -3, 0, 3], 8, [0, -2, 0, 2], 3, (true, false)),
    ([0, -3, 0, 3], 8, [0, -1, 0, 1], 5, (false, true)),
    // a slanted draw with a pen of 5 u
    ([0, 0, 60, 80], 5, [0, 0, 30, 40], 2, (true, false)),
    ([0, 0, 60, 80], 5, [0, 0, 30, 40], 3, (false, true)),
];

#[test]
fn stroke_rows_are_told(rt: HostRuntime) {
    for row in &ROWS {
        let (f, r, c, q, told) = *row;
        let fine = stroke([f[0], f[1]], [f[2], f[3]], r);
        let bound = capsule([c[0], c[1]], [c[2], c[3]], q);
        assert!(rt; taken(&fine, &bound) == told);
    }
}

/// A contour of four corners.
fn area(alloc: Global, p: [i16; 8]) -> Result<Shape, Fail> {
    let mut points = Vec::new(alloc);
    for corner in [
        [p[0], p[1]],
        [p[2], p[3]],
        [p[4], p[5]],
        [p[6], p[7]],
        [p[0], p[1]],
    ] {
        points.push(spot(corner))?;
    }
    if are_placed(&points) {
        Ok(Shape::Filled(Area::new(alloc, points)?))
    } else {
        Ok(capsule([0, 0], [0, 0], 0))
    }
}

/// A rectangle of 9 by 6 u about 0.
fn pad() -> FineFigure {
    FineFigure::Rectangle(Bounds {
        left: -9,
        low: -6,
        right: 9,
        high: 6,
    })
}

/// Corners of contours, and whether they are taken below and above for the pad.
static CONTOURS: [([i16; 8], (bool, bool)); 9] = [
    ([-4, -3, 4, -3, 4, 3, -4, 3], (true, false)),
    ([-5, -3, 5, -3, 5, 3, -5, 3], (false, true)),
    ([-9, -9, 9, -9, 9, 9, -9, 9], (false, true)),
    ([-4, -3, 5, -3, 5, 3, -4, 3], (false, false)),
    ([-5, -3, 5, -3, 5, 2, -5, 2], (false, false)),
    // from another corner, and clockwise
    ([5, -3, 5, 3, -5, 3, -5, -3], (false, false)),
    ([-4, -3, -4, 3, 4, 3, 4, -3], (true, false)),
    // others within
    ([0, -3, 4, 0, 0, 3, -4, 0], (true, false)),
    ([0, 0, 1, 0, 0, 0, 1, 0], (true, false)),
];

#[test]
fn contours_are_told(rt: HostRuntime) -> Result<(), Fail> {
    let alloc = rt.alloc();
    for row in &CONTOURS {
        let (corners, told) = *row;
        let bound = area(alloc, corners)?;
        assert!(rt; taken(&pad(), &bound) == told);
        assert!(rt; taken(&stroke([0, 0], [0, 0], 200), &bound) == (false, false));
    }
    assert!(rt; taken(&pad(), &capsule([-1, 0], [1, 0], 3)) == (true, false));
    assert!(rt; taken(&pad(), &capsule([-1, 0], [2, 0], 3)) == (false, false));
    assert!(rt; taken(&pad(), &capsule([0, 0], [0, 0], 200)) == (false, false));
    Ok(())
}

fn below_by<L: Ledger>(holed: &HoledFigure, bound: &Shape, blank: Blank) -> bool
    requires name { blank.name ≡ L.name }
    requires parts { blank.parts ≡ L.parts }
    requires some { 0 < blank.parts }
{
    let mut tests = Steps::<L>::new(blank);
    let frame = Frame {
        left: -5000,
        low: -5000,
    };
    is_holed_below(holed, bound, frame, &mut tests)
}

/// Whether the figure is taken below and above the one with a hole about 0.
fn taken_round(outline: FineFigure, hole: u8, bound: &Shape) -> (bool, bool) {
    let holed = HoledFigure {
        outline,
        centre: spot([0, 0]),
        hole: hole as u64,
    };
    (
        below_by::<Brand>(&holed, bound, Blank::new(1)),
        is_holed_above(&holed, bound),
    )
}

/// Capsules, and whether they are taken below and above an obround of 301 by 101 u with a hole of 21 u.
static ROUND_A_HOLE: [([i16; 4], u8, (bool, bool)); 8] = [
    ([32, 0, 100, 0], 20, (true, false)),
    // at the hole
    ([31, 0, 100, 0], 20, (false, false)),
    // at the side, and at the end
    ([30, 30, 100, 30], 20, (true, false)),
    ([30, 31, 100, 31], 20, (false, false)),
    ([130, 0, 130, 0], 20, (true, false)),
    ([131, 0, 131, 0], 20, (false, false)),
    // all round
    ([-100, 0, 100, 0], 51, (false, true)),
    ([-100, 0, 100, 0], 50, (false, false)),
];

/// Corners of contours, and whether they are taken below and above for the pad with a hole of 3 u.
static CONTOURS_ROUND_A_HOLE: [([i16; 8], (bool, bool)); 4] = [
    ([3, -3, 4, -3, 4, 3, 3, 3], (true, false)),
    ([2, -3, 4, -3, 4, 3, 2, 3], (false, false)),
    ([3, -3, 5, -3, 5, 3, 3, 3], (false, false)),
    ([-5, -3, 5, -3, 5, 3, -5, 3], (false, true)),
];

#[test]
fn holes_are_told(rt: HostRuntime) -> Result<(), Fail> {
    for row in &ROUND_A_HOLE {
        let (c, r, told) = *row;
        let lying = stroke([-200, 0], [200, 0], 101);
        let bound = capsule([c[0], c[1]], [c[2], c[3]], r);
        assert!(rt; taken_round(lying, 21, &bound) == told);
        let standing = stroke([0, -200], [0, 200], 101);
        let bound = capsule([c[1], c[0]], [c[3], c[2]], r);
        assert!(rt; taken_round(standing, 21, &bound) == told);
    }
    for row in &CONTOURS_ROUND_A_HOLE {
        let (corners, told) = *row;
        let bound = area(rt.alloc(), corners)?;
        assert!(rt; taken_round(pad(), 3, &bound) == told);
    }
    Ok(())
}
