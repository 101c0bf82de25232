//! Areas with areas, capsules and spots. The answers were worked out by exact fractions: every cell of
//! the plane that the edges cut out was asked, by rays upwards.
ghost use Rattle.planar.specs.Plane.{IsPlaced, IsWithin};
ghost use Rattle.std.specs.Prelude.{pos, ◌<◌, ◌≡◌, ◌≤ℤ◌};

use Outline::*;
use area_contact::{Area, AreaFault, MOST_CONTOUR_EDGES, MOST_CONTOUR_POINTS};
use contact::{Capsule, Closed, Meets};
use planar::{Frame, METRE, Spot};
use std::alloc::{AllocError, Global};
use std::marker::Brand;
use std::sync::ledger::{Blank, Ledger};
use std::test::Fail;
use steps::Steps;

/// Contours of the tables.
#[derive(Clone, Copy)]
enum Outline {
    /// A bar across.
    Wide,
    /// A bar upright.
    High,
    /// A plate whose hole is cut in.
    Plate,
    /// A square twice round.
    Twice,
    /// Two triangles by one crossing.
    Bow,
    /// A contour on one line.
    Thread,
    /// A contour in one spot.
    Dot,
    /// A triangle.
    Wedge,
    /// A square.
    Square,
    /// A star, empty in the middle.
    Star,
    /// Two bars in an angle.
    Angle,
    /// Two squares that share a corner.
    Steps,
}

impl Outline {
    fn corners(self) -> &'static [(i16, i16)] {
        match self {
            Outline::Wide => &[(0, 3), (8, 3), (8, 5), (0, 5), (0, 3)],
            Outline::High => &[(3, 0), (5, 0), (5, 8), (3, 8), (3, 0)],
            Outline::Plate => &[
                (0, 0),
                (20, 0),
                (20, 20),
                (0, 20),
                (0, 10),
                (6, 10),
                (6, 14),
                (14, 14),
                (14, 6),
                (6, 6),
                (6, 10),
                (0, 10),
                (0, 0),
            ],
            Outline::Twice => &[
                (0, 0),
                (20, 0),
                (20, 20),
                (0, 20),
                (0, 0),
                (20, 0),
                (20, 20),
                (0, 20),
                (0, 0),
            ],
            Outline::Bow => &[(0, 0), (10, 10), (10, 0), (0, 10), (0, 0)],
            Outline::Thread => &[(0, 0), (10, 0), (5, 0), (0, 0)],
            Outline::Dot => &[(0, 0), (0, 0), (0, 0), (0, 0)],
            Outline::Wedge => &[(0, 0), (4, 0), (0, 3), (0, 0)],
            Outline::Square => &[(0, 0), (2, 0), (2, 2), (0, 2), (0, 0)],
            Outline::Star => &[(0, 10), (6, -8), (-10, 3), (10, 3), (-6, -8), (0, 10)],
            Outline::Angle => &[(0, 0), (10, 0), (10, 2), (2, 2), (2, 10), (0, 10), (0, 0)],
            Outline::Steps => &[
                (0, 0),
                (5, 0),
                (5, 5),
                (10, 5),
                (10, 10),
                (5, 10),
                (5, 5),
                (0, 5),
                (0, 0),
            ],
        }
    }
}

/// Two contours, how far the second is moved, and whether the areas share a point.
type Pair = (Outline, Outline, (i16, i16), bool);

static PAIRS: [Pair; 60] = [
    (Wide, High, (0, 0), true),
    (Wide, High, (5, 0), true),
    (Wide, High, (6, 0), false),
    (Wide, High, (5, 5), true),
    (Wide, High, (5, 6), false),
    (Wide, Wide, (0, 0), true),
    (Wide, Wide, (0, 2), true),
    (Wide, Wide, (0, 3), false),
    (Wide, Wide, (8, 2), true),
    (Wide, Wide, (9, 2), false),
    (Plate, Square, (9, 9), false),
    (Plate, Square, (7, 7), false),
    (Plate, Square, (6, 7), true),
    (Plate, Square, (12, 12), true),
    (Plate, Square, (11, 11), false),
    (Plate, Square, (1, 1), true),
    (Plate, Square, (1, 12), true),
    (Plate, Square, (20, 20), true),
    (Plate, Square, (21, 20), false),
    (Plate, Steps, (0, 0), true),
    (Plate, Dot, (10, 10), false),
    (Plate, Dot, (14, 6), true),
    (Plate, Dot, (3, 10), true),
    (Plate, Dot, (2, 2), true),
    (Plate, Thread, (7, 10), true),
    (Plate, Thread, (-4, 10), true),
    (Plate, Thread, (-11, 10), false),
    (Twice, Square, (9, 9), false),
    (Twice, Square, (18, 9), true),
    (Twice, Square, (17, 9), false),
    (Twice, Square, (20, 20), true),
    (Twice, Twice, (1, 1), true),
    (Twice, Plate, (0, 0), true),
    (Bow, Dot, (5, 5), true),
    (Bow, Dot, (8, 5), true),
    (Bow, Dot, (5, 8), false),
    (Bow, Square, (4, 8), false),
    (Bow, Square, (8, 4), true),
    (Bow, Wedge, (3, 0), true),
    (Thread, Thread, (10, 0), true),
    (Thread, Thread, (11, 0), false),
    (Thread, Thread, (0, 1), false),
    (Dot, Dot, (0, 0), true),
    (Dot, Dot, (0, 1), false),
    (Wedge, Wedge, (4, 3), false),
    (Wedge, Wedge, (2, 1), true),
    (Wedge, Dot, (2, 1), true),
    (Wedge, Dot, (2, 2), false),
    (Star, Dot, (0, 0), false),
    (Star, Dot, (0, 5), true),
    (Star, Square, (-1, -1), false),
    (Star, Square, (-1, 2), true),
    (Star, Star, (0, 0), true),
    (Angle, Square, (5, 5), false),
    (Angle, Square, (3, 3), false),
    (Angle, Square, (2, 2), true),
    (Angle, Steps, (3, 3), false),
    (Steps, Square, (6, 2), false),
    (Steps, Square, (5, 3), true),
    (Steps, Dot, (5, 5), true),
];

/// A contour, the ends and the radius of a capsule, and whether the two share a point.
type Round = (Outline, (i16, i16), (i16, i16), i16, bool);

static ROUNDS: [Round; 24] = [
    (Plate, (3, 16), (3, 16), 1, true),
    (Plate, (10, 10), (10, 10), 3, false),
    (Plate, (10, 10), (10, 10), 4, true),
    (Plate, (10, 10), (10, 12), 2, true),
    (Plate, (10, 10), (10, 12), 1, false),
    (Plate, (1, 1), (2, 2), 0, true),
    (Plate, (23, 24), (23, 24), 5, true),
    (Plate, (23, 24), (23, 24), 4, false),
    (Plate, (7, 7), (13, 13), 0, false),
    (Plate, (7, 7), (14, 14), 0, true),
    (Twice, (10, 10), (10, 10), 9, false),
    (Twice, (10, 10), (10, 10), 10, true),
    (Wedge, (5, 5), (5, 5), 3, false),
    (Wedge, (5, 5), (5, 5), 4, false),
    (Bow, (0, 5), (2, 5), 2, true),
    (Bow, (0, 5), (3, 5), 1, true),
    (Bow, (1, 5), (1, 5), 2, true),
    (Thread, (5, 3), (20, 3), 3, true),
    (Thread, (5, 3), (20, 3), 2, false),
    (Dot, (3, 4), (3, 4), 5, true),
    (Dot, (3, 4), (3, 4), 4, false),
    (Star, (0, 0), (0, 0), 1, false),
    (Star, (0, 0), (0, 0), 4, true),
    (Star, (-30, 0), (30, 0), 0, true),
];

/// A contour, a spot, and whether the spot lies in the area.
type Holding = (Outline, (i16, i16), bool);

static HOLDINGS: [Holding; 26] = [
    (Plate, (2, 2), true),
    (Plate, (3, 10), true),
    (Plate, (10, 10), false),
    (Plate, (6, 8), true),
    (Plate, (14, 14), true),
    (Plate, (15, 10), true),
    (Plate, (20, 20), true),
    (Plate, (21, 10), false),
    (Plate, (-1, 10), false),
    (Twice, (10, 10), false),
    (Twice, (0, 10), true),
    (Twice, (20, 20), true),
    (Bow, (5, 5), true),
    (Bow, (2, 5), true),
    (Bow, (8, 5), true),
    (Bow, (5, 3), false),
    (Bow, (10, 4), true),
    (Thread, (7, 0), true),
    (Thread, (7, 1), false),
    (Dot, (0, 0), true),
    (Dot, (1, 0), false),
    (Star, (0, 0), false),
    (Star, (0, 6), true),
    (Star, (8, -8), false),
    (Wedge, (2, 1), true),
    (Wedge, (2, 2), false),
];

const FRAME: Frame = Frame {
    left: -1_000_000,
    low: -1_000_000,
};

fn placed(x: i64, y: i64) -> Spot
    ensures { IsPlaced result }
{
    Spot {
        x: x.clamp(-(METRE as i64), METRE as i64),
        y: y.clamp(-(METRE as i64), METRE as i64),
    }
}

/// A spot well inside the frame.
#[derive(Clone, Copy)]
struct Corner {
    at: Spot,
    ghost across: { IsWithin 1_000_000 at.x },
    ghost up: { IsWithin 1_000_000 at.y },
}

/// How a figure is drawn: its edges cut into parts, all of them or the first alone, and the whole as
/// many times as large; and turned, five times as far out. No answer changes by that. Where only the
/// first is cut, others reach over many bands.
#[derive(Clone, Copy)]
struct View {
    parts: u8,
    all: bool,
    turn: bool,
}

static VIEWS: [View; 6] = [
    View {
        parts: 1,
        all: true,
        turn: false,
    },
    View {
        parts: 1,
        all: true,
        turn: true,
    },
    View {
        parts: 22,
        all: true,
        turn: false,
    },
    View {
        parts: 22,
        all: true,
        turn: true,
    },
    View {
        parts: 66,
        all: false,
        turn: false,
    },
    View {
        parts: 66,
        all: false,
        turn: true,
    },
];

/// The place after `k` parts of the way from a spot to another, both moved.
fn part(from: (i16, i16), to: (i16, i16), by: (i16, i16), k: u8, view: View) -> Corner {
    let (parts, k) = (view.parts as i64, k as i64);
    let across = (to.0 as i64).wrapping_sub(from.0 as i64).wrapping_mul(k);
    let up = (to.1 as i64).wrapping_sub(from.1 as i64).wrapping_mul(k);
    let x = (from.0 as i64 + by.0 as i64)
        .wrapping_mul(parts)
        .wrapping_add(across);
    let y = (from.1 as i64 + by.1 as i64)
        .wrapping_mul(parts)
        .wrapping_add(up);
    let (x, y) = if view.turn {
        (
            x.wrapping_mul(3).wrapping_sub(y.wrapping_mul(4)),
            y.wrapping_mul(3).wrapping_add(x.wrapping_mul(4)),
        )
    } else {
        (x, y)
    };
    Corner {
        at: Spot {
            x: x.clamp(-1_000_000, 1_000_000),
            y: y.clamp(-1_000_000, 1_000_000),
        },
    }
}

fn spot(at: (i16, i16), view: View) -> Corner {
    part(at, at, (0, 0), 0, view)
}

/// A capsule by its ends and its radius.
#[derive(Clone, Copy)]
struct Track {
    a: Corner,
    b: Corner,
    r: i64,
    ghost from_zero: { IsWithin 1_000_000 r × pos 0 ≤ℤ r },
}

fn track_of(a: (i16, i16), b: (i16, i16), r: i16, view: View) -> Track {
    let scale = if view.turn { 5_i64 } else { 1 };
    let r = (r as i64)
        .wrapping_mul(scale)
        .wrapping_mul(view.parts as i64);
    Track {
        a: spot(a, view),
        b: spot(b, view),
        r: r.clamp(0, 1_000_000),
    }
}

/// The corners of a contour, with those that the view puts between them.
fn corners_of(
    alloc: Global,
    outline: &[(i16, i16)],
    by: (i16, i16),
    view: View,
) -> Result<Vec<Corner>, AllocError> {
    let mut corners = Vec::new(alloc);
    let mut from = None;
    let mut cut = true;
    for to in outline {
        if let Some(from) = from {
            for k in 0..if cut { view.parts } else { 1 } {
                corners.push(part(from, *to, by, k, view))?;
            }
            cut = view.all;
        }
        from = Some(*to);
    }
    if let Some(last) = from {
        corners.push(part(last, last, by, 0, view))?;
    }
    Ok(corners)
}

fn area_of(alloc: Global, corners: &[Corner]) -> Result<Result<Area, AreaFault>, AllocError> {
    let mut points = Vec::new(alloc);
    for corner in corners {
        points.push(corner.at)?;
    }
    Ok(Area::new(alloc, points))
}

fn contour(
    alloc: Global,
    outline: &[(i16, i16)],
    by: (i16, i16),
    view: View,
) -> Result<Result<Area, AreaFault>, AllocError> {
    area_of(alloc, &corners_of(alloc, outline, by, view)?)
}

/// A contour of so many points, all one spot.
fn many(alloc: Global, count: usize) -> Result<Result<Area, AreaFault>, AllocError> {
    let mut corners = Vec::new(alloc);
    for _ in 0..count {
        corners.push(spot((7, 7), VIEWS[0]))?;
    }
    area_of(alloc, &corners)
}

/// Corner `i` of a strip of 10 by 64, whose right side goes up in 64 steps: 67 edges, the last of them
/// down the left side.
fn rung(i: u8) -> Spot
    ensures { IsPlaced result }
{
    match i {
        0 | 67 => placed(0, 0),
        66 => placed(0, 64),
        _ => placed(10, i.wrapping_sub(1) as i64),
    }
}

fn rungs(alloc: Global) -> Result<Result<Area, AreaFault>, AllocError> {
    let mut points = Vec::new(alloc);
    for i in 0..68 {
        points.push(rung(i))?;
    }
    Ok(Area::new(alloc, points))
}

/// The edges in the band of a height, or nothing where the box does not reach it.
fn banded(area: &Area, y: i64) -> Option<&[u32]> {
    let b = area.bounds();
    if b.low <= y && y <= b.high {
        Some(area.banded(y))
    } else {
        None
    }
}

/// Whether two solids share a point, asked through the bounds of the traits alone; nothing where they
/// do not lie in the frame.
fn share<S: Meets<T>, T: Closed, L: Ledger>(s: &S, t: &T, blank: Blank) -> Option<bool>
    requires name { blank.name ≡ L.name }
    requires parts { blank.parts ≡ L.parts }
    requires some { 0 < blank.parts }
{
    let mut tests = Steps::<L>::new(blank);
    if s.bounds().inside(FRAME) && t.bounds().inside(FRAME) {
        Some(s.meets(t, FRAME, &mut tests))
    } else {
        None
    }
}

fn areas_share(first: &Area, second: &Area) -> Option<bool> {
    share::<Area, Area, Brand>(first, second, Blank::new(1))
}

fn area_shares(area: &Area, track: Track) -> Option<bool> {
    let capsule = Capsule::new(track.a.at, track.b.at, track.r);
    share::<Area, Capsule, Brand>(area, &capsule, Blank::new(1))
}

fn capsule_shares(track: Track, area: &Area) -> Option<bool> {
    let capsule = Capsule::new(track.a.at, track.b.at, track.r);
    share::<Capsule, Area, Brand>(&capsule, area, Blank::new(1))
}

fn holds(area: &Area, p: Corner) -> Option<bool> {
    if area.bounds().inside(FRAME) {
        Some(area.has(p.at, FRAME))
    } else {
        None
    }
}

#[test]
fn pairs_of_areas(rt: HostRuntime) -> Result<(), Fail> {
    for row in &PAIRS {
        let (first, second, by, want) = *row;
        for view in &VIEWS {
            let first = contour(rt.alloc(), first.corners(), (0, 0), *view)?.expect(&rt, "first");
            let second = contour(rt.alloc(), second.corners(), by, *view)?.expect(&rt, "second");
            assert!(rt; areas_share(&first, &second) == Some(want));
            assert!(rt; areas_share(&second, &first) == Some(want));
        }
    }
    Ok(())
}

#[test]
fn areas_with_capsules_and_spots(rt: HostRuntime) -> Result<(), Fail> {
    for view in &VIEWS {
        for row in &ROUNDS {
            let (outline, a, b, r, want) = *row;
            let area = contour(rt.alloc(), outline.corners(), (0, 0), *view)?.expect(&rt, "area");
            let track = track_of(a, b, r, *view);
            assert!(rt; area_shares(&area, track) == Some(want));
            assert!(rt; capsule_shares(track, &area) == Some(want));
        }
        for row in &HOLDINGS {
            let (outline, p, want) = *row;
            let area = contour(rt.alloc(), outline.corners(), (0, 0), *view)?.expect(&rt, "area");
            assert!(rt; holds(&area, spot(p, *view)) == Some(want));
        }
    }
    Ok(())
}

fn fault_of(made: Result<Area, AreaFault>) -> Option<AreaFault> {
    match made {
        Ok(_) => None,
        Err(fault) => Some(fault),
    }
}

#[test]
fn faults(rt: HostRuntime) -> Result<(), Fail> {
    let rows: [(&[(i16, i16)], AreaFault); 4] = [
        (&[(0, 0), (1, 0), (1, 1), (0, 1)], AreaFault::Open),
        (&[(0, 0), (1, 0)], AreaFault::Open),
        (&[(0, 0), (1, 0), (0, 0)], AreaFault::Short),
        (&[], AreaFault::Short),
    ];
    for (corners, wanted) in rows {
        let made = contour(rt.alloc(), corners, (0, 0), VIEWS[0])?;
        assert!(rt; fault_of(made) == Some(wanted));
    }
    assert!(rt; fault_of(many(rt.alloc(), MOST_CONTOUR_POINTS + 1)?) == Some(AreaFault::TooLong));
    let full = many(rt.alloc(), MOST_CONTOUR_POINTS)?.expect(&rt, "full");
    assert_eq!(rt; full.edges(), MOST_CONTOUR_EDGES);
    Ok(())
}

#[test]
fn bands_of_few_edges(rt: HostRuntime) -> Result<(), Fail> {
    let plate = contour(rt.alloc(), Outline::Plate.corners(), (0, 0), VIEWS[0])?.expect(
        &rt, "plate",
    );
    assert!(rt; banded(&plate, 7) == Some([0, 1, 2, 3, 4, 5, 6, 7, 8, 9, 10, 11].as_slice()));
    assert!(rt; plate.tall().is_empty());
    Ok(())
}

#[test]
fn bands_of_many_edges(rt: HostRuntime) -> Result<(), Fail> {
    let plate = contour(rt.alloc(), Outline::Plate.corners(), (0, 0), VIEWS[4])?.expect(
        &rt, "plate",
    );
    assert!(rt; banded(&plate, 660) == Some([69, 75].as_slice()));
    assert!(rt; plate.tall() == [66, 68, 70, 72, 74, 76].as_slice());
    Ok(())
}

#[test]
fn bands_of_rungs(rt: HostRuntime) -> Result<(), Fail> {
    let area = rungs(rt.alloc())?.expect(&rt, "rungs");
    assert!(rt; banded(&area, 0) == Some([0, 1, 2].as_slice()));
    assert!(rt; banded(&area, 3) == Some([2, 3, 4].as_slice()));
    assert!(rt; banded(&area, 64) == Some([64, 65].as_slice()));
    assert!(rt; banded(&area, 65) == None);
    assert!(rt; area.tall() == [66].as_slice());
    Ok(())
}

#[test]
fn spots_and_capsules_by_rungs(rt: HostRuntime) -> Result<(), Fail> {
    let area = rungs(rt.alloc())?.expect(&rt, "rungs");
    for (p, want) in [
        ((5, 5), true),
        ((11, 5), false),
        ((10, 33), true),
        ((0, 40), true),
        ((-1, 40), false),
    ] {
        assert!(rt; holds(&area, spot(p, VIEWS[0])) == Some(want));
    }
    for (a, r, want) in [
        ((12, 33), 2, true),
        ((12, 33), 1, false),
        ((-3, 9), 3, true),
        ((-3, 9), 2, false),
        ((4, 30), 1, true),
    ] {
        assert!(rt; area_shares(&area, track_of(a, a, r, VIEWS[0])) == Some(want));
    }
    Ok(())
}

#[test]
fn squares_by_rungs(rt: HostRuntime) -> Result<(), Fail> {
    let area = rungs(rt.alloc())?.expect(&rt, "rungs");
    for (by, want) in [
        ((10, 20), true),
        ((11, 20), false),
        ((-2, 63), true),
        ((4, 30), true),
        ((4, 65), false),
    ] {
        let square = contour(rt.alloc(), Outline::Square.corners(), by, VIEWS[0])?.expect(
            &rt, "square",
        );
        assert!(rt; areas_share(&area, &square) == Some(want));
        assert!(rt; areas_share(&square, &area) == Some(want));
    }
    Ok(())
}
