//! A pad and a quarter circle that touches it in one point, between pads and chains, in u.
ghost use Rattle.planar.specs.Plane.{IsPlaced};

use arc_covers::{BoundsFault, Side, check_between};
use arcs::{Arc, Spot};
use area_contact::Area;
use board_shapes::{Origin, Piece, Placed, Shape};
use contact::{Bounds, Capsule};
use fine_figures::{FineFigure, FineStroke};
use lengths::rows::NoMemory;
use planar::are_placed;
use real_shapes::{RealPiece, RealShape};
use slants::{Slant, TurnedDisc, TurnedFigure};
use std::alloc::Global;
use std::test::Fail;

pub const ORIGIN: Origin = Origin {
    file: 0,
    command: 1,
    copy: 0,
};

pub fn spot(p: (i16, i16)) -> Spot
    ensures { IsPlaced result }
{
    Spot {
        x: p.0 as i64,
        y: p.1 as i64,
    }
}

pub fn capsule(a: (i16, i16), b: (i16, i16), r: u16) -> Shape {
    Shape::Round(Capsule::new(spot(a), spot(b), r as i64))
}

pub fn on(layer: u8, shape: Shape) -> Piece {
    let layer = layer.max(1);
    Placed {
        shape,
        top: layer,
        bottom: layer,
        origin: ORIGIN,
    }
}

fn pad(r: u16) -> Shape {
    capsule((0, 7000), (0, 7000), r)
}

fn quarter() -> Arc {
    Arc {
        centre: spot((0, 0)),
        start: spot((3000, 4000)),
        end: spot((-4000, 3000)),
        width: 2000,
    }
}

/// What `check_between` answers.
pub type Told = Result<(), BoundsFault>;

pub const BELOW: Told = Err(BoundsFault::Piece(Side::Below, 0));

pub const ABOVE: Told = Err(BoundsFault::Piece(Side::Above, 0));

/// A pad of some radius, and links of radius `r` along the quarter circle: the fourth begins at `bend`, the fifth
/// is on `layer`, the last has the radius `last`.
#[derive(Clone, Copy)]
struct Row {
    pad: u16,
    bend: (i16, i16),
    last: u16,
    layer: u8,
    r: u16,
}

/// The row that the checks take with the radius `r`.
fn taken(r: u16) -> Row {
    Row {
        pad: 1000,
        bend: (-1149, 4866),
        last: r,
        layer: 1,
        r,
    }
}

fn real(alloc: Global) -> Result<Vec<RealPiece>, NoMemory> {
    let mut pieces = Vec::new(alloc);
    pieces.push(Placed {
        shape: RealShape::Plain(pad(1000)),
        top: 1,
        bottom: 1,
        origin: ORIGIN,
    })?;
    pieces.push(Placed {
        shape: RealShape::ArcDraw(quarter()),
        top: 1,
        bottom: 1,
        origin: ORIGIN,
    })?;
    Ok(pieces)
}

fn board(alloc: Global, row: &Row) -> Result<Vec<Piece>, NoMemory> {
    let mut pieces = Vec::new(alloc);
    pieces.push(on(1, pad(row.pad)))?;
    for (from, to) in [
        ((3000, 4000), (1581, 4743)),
        ((1581, 4743), (0, 5000)),
        ((0, 5000), (-1149, 4866)),
    ] {
        pieces.push(on(1, capsule(from, to, row.r)))?;
    }
    pieces.push(on(1, capsule(row.bend, (-2236, 4472), row.r)))?;
    pieces.push(on(row.layer, capsule((-2236, 4472), (-3204, 3839), row.r)))?;
    pieces.push(on(1, capsule((-3204, 3839), (-4000, 3000), row.last)))?;
    Ok(pieces)
}

fn checked(
    alloc: Global,
    lower: &Row,
    upper: &Row,
    lower_counts: &[u32],
    upper_counts: &[u32],
) -> Result<(), BoundsFault> {
    let real = real(alloc)?;
    let lower = board(alloc, lower)?;
    let upper = board(alloc, upper)?;
    check_between(alloc, &real, &lower, lower_counts, &upper, upper_counts)
}

/// The radius below, that above, the counts of both, and what is told.
type Chains = (u16, u16, [u32; 2], [u32; 2], Told);

static CHAINS: [Chains; 8] = [
    (935, 1065, [1, 6], [1, 6], Ok(())),
    (
        936,
        1065,
        [1, 6],
        [1, 6],
        Err(BoundsFault::Piece(Side::Below, 1)),
    ),
    (
        935,
        1064,
        [1, 6],
        [1, 6],
        Err(BoundsFault::Piece(Side::Above, 1)),
    ),
    (
        1065,
        935,
        [1, 6],
        [1, 6],
        Err(BoundsFault::Piece(Side::Below, 1)),
    ),
    (
        935,
        1065,
        [1, 5],
        [1, 6],
        Err(BoundsFault::Counts(Side::Below)),
    ),
    (
        935,
        1065,
        [1, 6],
        [1, 7],
        Err(BoundsFault::Counts(Side::Above)),
    ),
    (
        935,
        1065,
        [2, 5],
        [1, 6],
        Err(BoundsFault::Piece(Side::Below, 0)),
    ),
    (
        935,
        1065,
        [1, 6],
        [0, 7],
        Err(BoundsFault::Piece(Side::Above, 0)),
    ),
];

/// Chains at their limits, and one u beyond; counts one off.
#[test]
fn a_quarter_circle(rt: HostRuntime) {
    let alloc = rt.alloc();
    for row in &CHAINS {
        let (low, high, lower_counts, upper_counts, told) = *row;
        let found = checked(
            alloc,
            &taken(low),
            &taken(high),
            &lower_counts,
            &upper_counts,
        );
        assert!(rt; found == told, "at {low} {high}");
    }
    let counts = checked(alloc, &taken(935), &taken(1065), &[1, 6, 0], &[1, 6]);
    assert!(rt; counts == Err(BoundsFault::Counts(Side::Below)));
}

/// A smaller pad, a gap, a link of another radius, a link on another layer.
#[test]
fn rows_that_stand_for_nothing(rt: HostRuntime) {
    let alloc = rt.alloc();
    let mut smaller = taken(935);
    smaller.pad = 999;
    let mut gap = taken(935);
    gap.bend = (-1150, 4866);
    let mut thin = taken(935);
    thin.last = 934;
    let mut away = taken(935);
    away.layer = 2;
    for (lower, told) in [(&smaller, 0), (&gap, 1), (&thin, 1), (&away, 1)] {
        let found = checked(alloc, lower, &taken(1065), &[1, 6], &[1, 6]);
        assert!(rt;
            found == Err(BoundsFault::Piece(Side::Below, told)),
            "at {told}"
        );
    }
}

/// Nothing below an arc draw is a bound, nothing above it is none.
#[test]
fn nothing_below(rt: HostRuntime) -> Result<(), Fail> {
    let alloc = rt.alloc();
    let real = real(alloc)?;
    let mut lower = Vec::new(alloc);
    lower.push(on(1, pad(1000)))?;
    let upper = board(alloc, &taken(1065))?;
    let found = check_between(alloc, &real, &lower, &[1, 0], &upper, &[1, 6]);
    assert!(rt; found == Ok(()));
    let other = check_between(alloc, &real, &lower, &[1, 0], &lower, &[1, 0]);
    assert!(rt; other == Err(BoundsFault::Piece(Side::Above, 1)));
    Ok(())
}

/// A contour of four corners, the first of which is given and again the last.
fn contour(alloc: Global, first: (i16, i16)) -> Result<Shape, Fail> {
    let mut points = Vec::new(alloc);
    for corner in [first, (3400, 3700), (2600, 4300), (-400, 300), first] {
        points.push(spot(corner))?;
    }
    if !are_placed(&points) {
        return Ok(pad(1));
    }
    Ok(Shape::Filled(Area::new(alloc, points)?))
}

/// The rectangle about a slanted line has whole corners: it bounds the line on both sides. With one corner a u
/// further out it lies above, a u further in below. A capsule does neither, and no piece lies below alone.
#[test]
fn a_slanted_line(rt: HostRuntime) -> Result<(), Fail> {
    let alloc = rt.alloc();
    let mut real = Vec::new(alloc);
    let line = Slant {
        start: spot((0, 0)),
        end: spot((3000, 4000)),
        width: 1000,
    };
    real.push(Placed {
        shape: RealShape::Slanted(line),
        top: 1,
        bottom: 1,
        origin: ORIGIN,
    })?;
    for (first, below, above) in [
        ((400, -300), true, true),
        ((401, -301), false, true),
        ((399, -299), true, false),
        ((401, -299), false, false),
    ] {
        let mut pieces = Vec::new(alloc);
        pieces.push(on(1, contour(alloc, first)?))?;
        let none = check_between(alloc, &real, &[], &[0], &pieces, &[1]);
        let over = if above {
            Ok(())
        } else {
            Err(BoundsFault::Piece(Side::Above, 0))
        };
        assert!(rt; none == over);
        let found = check_between(alloc, &real, &pieces, &[1], &pieces, &[1]);
        let told = if below {
            over
        } else {
            Err(BoundsFault::Piece(Side::Below, 0))
        };
        assert!(rt; found == told);
    }
    let mut pieces = Vec::new(alloc);
    pieces.push(on(1, capsule((0, 0), (300, 400), 1)))?;
    let found = check_between(alloc, &real, &pieces, &[1], &pieces, &[1]);
    assert!(rt; found == Err(BoundsFault::Piece(Side::Below, 0)));
    let other = check_between(alloc, &real, &[], &[0], &[], &[0]);
    assert!(rt; other == Err(BoundsFault::Piece(Side::Above, 0)));
    Ok(())
}

/// The contour of four corners.
fn corners(alloc: Global, places: [(i64, i64); 4]) -> Result<Vec<Spot>, Fail> {
    let mut points = Vec::new(alloc);
    for (x, y) in [places[0], places[1], places[2], places[3], places[0]] {
        points.push(Spot { x, y })?;
    }
    Ok(points)
}

/// It as a piece.
fn polygon(alloc: Global, places: [(i64, i64); 4]) -> Result<Vec<Piece>, Fail> {
    let points = corners(alloc, places)?;
    let mut pieces = Vec::new(alloc);
    if are_placed(&points) {
        pieces.push(on(1, Shape::Filled(Area::new(alloc, points)?)))?;
    }
    Ok(pieces)
}

/// A rectangle of 1 mm by 0.5 mm, turned about its centre.
fn turned_pad(alloc: Global, angle: u32) -> Result<Vec<RealPiece>, Fail> {
    let contour = corners(
        alloc,
        [
            (7_345_678, -4_500_000),
            (17_345_678, -4_500_000),
            (17_345_678, 500_000),
            (7_345_678, 500_000),
        ],
    )?;
    let about = Spot {
        x: 12_345_678,
        y: -2_000_000,
    };
    let mut real = Vec::new(alloc);
    real.push(Placed {
        shape: RealShape::Turned(TurnedFigure {
            contour,
            about,
            angle,
        }),
        top: 1,
        bottom: 1,
        origin: ORIGIN,
    })?;
    Ok(real)
}

/// Contours just within a pad that is turned by 30 degrees and just round it, and one u beyond; by other angles they are none.
#[test]
fn a_turned_pad(rt: HostRuntime) -> Result<(), Fail> {
    let alloc = rt.alloc();
    let (first, second) = ((9_265_551, -6_665_063), (17_925_804, -1_665_063));
    let (third, fourth) = ((15_425_805, 2_665_063), (6_765_552, -2_334_937));
    let within = [first, second, third, fourth];
    let beyond = [first, second, third, (6_765_551, -2_334_937)];
    let (first, second) = ((9_265_551, -6_665_064), (17_925_806, -1_665_064));
    let (third, fourth) = ((15_425_805, 2_665_064), (6_765_550, -2_334_936));
    let round = [first, second, third, fourth];
    let short = [first, (17_925_805, -1_665_064), third, fourth];
    for (angle, lower, upper, told) in [
        (300_000_000, within, round, Ok(())),
        (300_000_000, beyond, round, BELOW),
        (300_000_000, within, short, ABOVE),
        (300_000_000, round, round, BELOW),
        (300_000_000, within, within, ABOVE),
        (299_999_000, within, round, BELOW),
        (300_001_000, within, round, BELOW),
        (900_000_000, within, round, BELOW),
    ] {
        let real = turned_pad(alloc, angle)?;
        let lower = polygon(alloc, lower)?;
        let upper = polygon(alloc, upper)?;
        let found = check_between(alloc, &real, &lower, &[1], &upper, &[1]);
        assert!(rt; found == told, "at {angle}");
        let none = check_between(alloc, &real, &[], &[0], &upper, &[1]);
        assert!(rt; none == Ok(()) || told != Ok(()));
        let nothing = check_between(alloc, &real, &[], &[0], &[], &[0]);
        assert!(rt; nothing == ABOVE);
    }
    Ok(())
}

/// The points of a contour of six corners.
fn six(alloc: Global, places: [(i16, i16); 6]) -> Result<Vec<Spot>, Fail> {
    let mut points = Vec::new(alloc);
    for place in places {
        points.push(spot(place))?;
    }
    points.push(spot(places[0]))?;
    Ok(points)
}

/// It as a piece, and capsules of some radius along so many of its edges.
fn outlined(
    alloc: Global,
    places: [(i16, i16); 6],
    r: u16,
    edges: usize,
) -> Result<Vec<Piece>, Fail> {
    let points = six(alloc, places)?;
    let mut pieces = Vec::new(alloc);
    if are_placed(&points) {
        pieces.push(on(1, Shape::Filled(Area::new(alloc, points)?)))?;
    }
    let ends = [
        places[1], places[2], places[3], places[4], places[5], places[0],
    ];
    for i in 0..edges.min(6) {
        pieces.push(on(1, capsule(places[i], ends[i], r)))?;
    }
    Ok(pieces)
}

/// An L that is turned by 30 degrees: the nearest spots with capsules of 1 u hold it, and a contour 2 u within lies in it, not
/// one u less. Other capsules, fewer and none do not.
#[test]
fn a_turned_outline(rt: HostRuntime) -> Result<(), Fail> {
    let alloc = rt.alloc();
    let mut real = Vec::new(alloc);
    real.push(Placed {
        shape: RealShape::Turned(TurnedFigure {
            contour: six(
                alloc,
                [
                    (0, 0),
                    (30_000, 0),
                    (30_000, 10_000),
                    (10_000, 10_000),
                    (10_000, 30_000),
                    (0, 30_000),
                ],
            )?,
            about: spot((0, 0)),
            angle: 300_000_000,
        }),
        top: 1,
        bottom: 1,
        origin: ORIGIN,
    })?;
    let near = [
        (0, 0),
        (25_981, 15_000),
        (20_981, 23_660),
        (3660, 13_660),
        (-6340, 30_981),
        (-15_000, 25_981),
    ];
    let within = [
        (1, 3),
        (25_978, 15_001),
        (20_980, 23_657),
        (3659, 13_657),
        (-6341, 30_978),
        (-14_997, 25_980),
    ];
    let beyond = [
        (0, 1),
        (25_980, 15_000),
        (20_981, 23_659),
        (3660, 13_659),
        (-6340, 30_980),
        (-14_999, 25_981),
    ];
    for (places, lower_count, r, edges, upper_count, told) in [
        (within, 1, 1, 6, 7, Ok(())),
        (within, 0, 1, 6, 7, Ok(())),
        (within, 1, 0, 6, 7, ABOVE),
        (within, 1, 1, 5, 6, ABOVE),
        (within, 1, 1, 0, 1, ABOVE),
        (beyond, 1, 1, 6, 7, BELOW),
        (near, 1, 1, 6, 7, BELOW),
    ] {
        let lower = outlined(alloc, places, 0, 0)?;
        let lower = if lower_count == 0 {
            Vec::new(alloc)
        } else {
            lower
        };
        let upper = outlined(alloc, near, r, edges)?;
        let found = check_between(alloc, &real, &lower, &[lower_count], &upper, &[upper_count]);
        assert!(rt; found == told, "with {edges} of {r}");
    }
    Ok(())
}

/// A disc of radius 3,000 u about (10000, 0), turned about 0.
fn turned_disc(alloc: Global, angle: u32) -> Result<Vec<RealPiece>, Fail> {
    let mut real = Vec::new(alloc);
    real.push(Placed {
        shape: RealShape::TurnedDisc(TurnedDisc {
            centre: spot((10_000, 0)),
            radius: 3000,
            about: spot((0, 0)),
            angle,
        }),
        top: 1,
        bottom: 1,
        origin: ORIGIN,
    })?;
    Ok(real)
}

fn only(alloc: Global, a: (i16, i16), b: (i16, i16), r: u16) -> Result<Vec<Piece>, Fail> {
    let mut pieces = Vec::new(alloc);
    pieces.push(on(1, capsule(a, b, r)))?;
    Ok(pieces)
}

const CLOSE: (i16, i16) = (8660, 5000);

/// The angle, ends and radius of a capsule below, the radius of a disc above, and what is told.
type Discs = (u32, ((i16, i16), (i16, i16), u16), u16, Told);

static DISCS: [Discs; 8] = [
    (300_000_000, (CLOSE, CLOSE, 2999), 3001, Ok(())),
    (300_000_000, (CLOSE, CLOSE, 3000), 3001, BELOW),
    (300_000_000, (CLOSE, CLOSE, 2999), 3000, ABOVE),
    (
        300_000_000,
        ((8660, 5001), (8660, 5001), 2998),
        3001,
        Ok(()),
    ),
    (300_000_000, ((8660, 5001), (8660, 5001), 2999), 3001, BELOW),
    (300_000_000, (CLOSE, (8660, 4999), 2000), 3001, BELOW),
    (299_000_000, (CLOSE, CLOSE, 2999), 3001, BELOW),
    (900_000_000, (CLOSE, CLOSE, 2999), 3001, BELOW),
];

/// Discs about spots near its centre at 30 degrees, as large as they may be, and one u more.
#[test]
fn a_turned_disc(rt: HostRuntime) -> Result<(), Fail> {
    let alloc = rt.alloc();
    for row in &DISCS {
        let (angle, (start, end, small), large, told) = *row;
        let real = turned_disc(alloc, angle)?;
        let lower = only(alloc, start, end, small)?;
        let upper = only(alloc, CLOSE, CLOSE, large)?;
        let found = check_between(alloc, &real, &lower, &[1], &upper, &[1]);
        assert!(rt; found == told, "at {angle}");
        let none = check_between(alloc, &real, &[], &[0], &upper, &[1]);
        assert!(rt; none == Ok(()) || told != Ok(()));
        let nothing = check_between(alloc, &real, &[], &[0], &[], &[0]);
        assert!(rt; nothing == ABOVE);
    }
    Ok(())
}

/// A piece of a fine figure.
fn fine(alloc: Global, figure: FineFigure) -> Result<Vec<RealPiece>, Fail> {
    let mut real = Vec::new(alloc);
    real.push(Placed {
        shape: RealShape::Fine(figure),
        top: 1,
        bottom: 1,
        origin: ORIGIN,
    })?;
    Ok(real)
}

/// The end of a capsule below, its radius, that of one above, and what is told.
type Obround = (i16, u16, u16, Told);

static OBROUNDS: [Obround; 5] = [
    (1000, 500, 501, Ok(())),
    (1000, 501, 501, BELOW),
    (1000, 500, 500, ABOVE),
    (1001, 500, 501, BELOW),
    (-1000, 500, 501, BELOW),
];

/// An obround of 3,001 by 1,001 u about 0, between the sizes that are 1 u off, and not others.
#[test]
fn odd_obrounds(rt: HostRuntime) -> Result<(), Fail> {
    let alloc = rt.alloc();
    let obround = FineStroke {
        a: spot((-2000, 0)),
        b: spot((2000, 0)),
        r: 1001,
    };
    let real = fine(alloc, FineFigure::Round(obround))?;
    for row in &OBROUNDS {
        let (end, small, large, told) = *row;
        let lower = only(alloc, (-1000, 0), (end, 0), small)?;
        let upper = only(alloc, (-1000, 0), (1000, 0), large)?;
        assert!(rt; check_between(alloc, &real, &lower, &[1], &upper, &[1]) == told);
        let none = check_between(alloc, &real, &[], &[0], &upper, &[1]);
        assert!(rt; none == if told == ABOVE { ABOVE } else { Ok(()) });
    }
    Ok(())
}

/// So a rectangle as large.
#[test]
fn odd_rectangles(rt: HostRuntime) -> Result<(), Fail> {
    let alloc = rt.alloc();
    let rectangle = FineFigure::Rectangle(Bounds {
        left: -3001,
        low: -1001,
        right: 3001,
        high: 1001,
    });
    let real = fine(alloc, rectangle)?;
    let within = polygon(
        alloc,
        [(-1500, -500), (1500, -500), (1500, 500), (-1500, 500)],
    )?;
    let round = polygon(
        alloc,
        [(-1501, -501), (1501, -501), (1501, 501), (-1501, 501)],
    )?;
    assert!(rt; check_between(alloc, &real, &within, &[1], &round, &[1]) == Ok(()));
    assert!(rt; check_between(alloc, &real, &round, &[1], &round, &[1]) == BELOW);
    assert!(rt; check_between(alloc, &real, &within, &[1], &within, &[1]) == ABOVE);
    assert!(rt; check_between(alloc, &real, &[], &[0], &[], &[0]) == ABOVE);
    Ok(())
}
