//! Outlines that are not convex, of edges of some 10,000 u: the nearest spots to their turned corners, which
//! are at most 1 u off, and contours 2 u and 1 u within the polygons of these.
ghost use Rattle.std.specs.Prelude.{◌<◌, ◌≡◌};

use area_contact::Area;
use planar::{Frame, are_placed, is_placed};
use std::alloc::Global;
use std::marker::Brand;
use std::sync::ledger::{Blank, Ledger};
use std::test::Fail;
use steps::Steps;
use turned_outlines::{
    Spot, TurnedFigure, is_above_outline, is_below_outline, slack, turned_corners,
};

fn at(p: (i32, i32)) -> Spot {
    Spot {
        x: p.0 as i64,
        y: p.1 as i64,
    }
}

/// The spots, and the first again.
fn closed(alloc: Global, spots: &[(i32, i32)]) -> Result<Vec<Spot>, Fail> {
    let mut points = Vec::new(alloc);
    for spot in spots {
        points.push(at(*spot))?;
    }
    if let Some(first) = spots.first() {
        points.push(at(*first))?;
    }
    Ok(points)
}

fn lies_by<L: Ledger>(
    figure: &TurnedFigure,
    corners: &[Spot],
    r: u64,
    area: &Area,
    blank: Blank,
) -> bool
    requires name { blank.name ≡ L.name }
    requires parts { blank.parts ≡ L.parts }
    requires some { 0 < blank.parts }
{
    let mut tests = Steps::<L>::new(blank);
    let frame = Frame {
        left: -100_000,
        low: -100_000,
    };
    is_below_outline(figure, corners, r, area, frame, &mut tests)
}

/// Whether the contour is taken below the figure.
fn lies(
    alloc: Global,
    figure: &TurnedFigure,
    corners: &[Spot],
    r: u64,
    contour: &[(i32, i32)],
) -> Result<bool, Fail> {
    let points = closed(alloc, contour)?;
    if !are_placed(&points) {
        return Ok(false);
    }
    let area = Area::new(alloc, points)?;
    Ok(lies_by::<Brand>(figure, corners, r, &area, Blank::new(1)))
}

/// Whether the corners are the nearest, and are taken above the figure with capsules of 1 u and not of none, and the contour within
/// below and not that one beyond.
fn is_told(
    alloc: Global,
    turned: (&[(i32, i32)], (i32, i32), u32),
    corners: &[(i32, i32)],
    within: &[(i32, i32)],
    beyond: &[(i32, i32)],
) -> Result<bool, Fail> {
    let figure = TurnedFigure {
        contour: closed(alloc, turned.0)?,
        about: at(turned.1),
        angle: turned.2,
    };
    let corners = closed(alloc, corners)?;
    if !(is_placed(figure.about) && are_placed(&figure.contour)) {
        return Ok(false);
    }
    let near = turned_corners(alloc, &figure.contour, figure.about, figure.angle)?;
    let room = slack(&figure.contour, figure.about);
    if near != corners || !is_above_outline(&figure, &near, room) {
        return Ok(false);
    }
    let held = is_above_outline(&figure, &corners, 1) && !is_above_outline(&figure, &corners, 0);
    let inside = lies(alloc, &figure, &corners, 1, within)?;
    let outside = lies(alloc, &figure, &corners, 1, beyond)?;
    Ok(held && inside && !outside)
}

/// An L, by 45 degrees.
#[test]
fn an_angle(rt: HostRuntime) -> Result<(), Fail> {
    let turned: (&[(i32, i32)], (i32, i32), u32) = (
        &[
            (0, 0),
            (30_000, 0),
            (30_000, 10_000),
            (10_000, 10_000),
            (10_000, 30_000),
            (0, 30_000),
        ],
        (0, 0),
        450_000_000,
    );
    let corners = &[
        (0, 0),
        (21_213, 21_213),
        (14_142, 28_284),
        (0, 14_142),
        (-14_142, 28_284),
        (-21_213, 21_213),
    ];
    let within = &[
        (0, 3),
        (21_210, 21_213),
        (14_142, 28_281),
        (0, 14_139),
        (-14_142, 28_281),
        (-21_210, 21_213),
    ];
    let beyond = &[
        (0, 1),
        (21_212, 21_213),
        (14_142, 28_283),
        (0, 14_141),
        (-14_142, 28_283),
        (-21_212, 21_213),
    ];
    assert!(rt; is_told(rt.alloc(), turned, corners, within, beyond)?);
    Ok(())
}

/// An L the other way round, by 30 degrees, about a spot beside it.
#[test]
fn an_angle_clockwise(rt: HostRuntime) -> Result<(), Fail> {
    let turned: (&[(i32, i32)], (i32, i32), u32) = (
        &[
            (0, 0),
            (0, 30_000),
            (10_000, 30_000),
            (10_000, 10_000),
            (30_000, 10_000),
            (30_000, 0),
        ],
        (5000, -7000),
        300_000_000,
    );
    let corners = &[
        (-2830, -3438),
        (-17_830, 22_543),
        (-9170, 27_543),
        (830, 10_222),
        (18_151, 20_222),
        (23_151, 11_562),
    ];
    let within = &[
        (-2829, -3435),
        (-17_827, 22_542),
        (-9171, 27_540),
        (829, 10_219),
        (18_150, 20_219),
        (23_148, 11_563),
    ];
    let beyond = &[
        (-2830, -3437),
        (-17_829, 22_543),
        (-9170, 27_542),
        (830, 10_221),
        (18_151, 20_221),
        (23_150, 11_562),
    ];
    assert!(rt; is_told(rt.alloc(), turned, corners, within, beyond)?);
    Ok(())
}

/// A U, by 30 degrees.
#[test]
fn a_fork(rt: HostRuntime) -> Result<(), Fail> {
    let turned: (&[(i32, i32)], (i32, i32), u32) = (
        &[
            (0, 0),
            (30_000, 0),
            (30_000, 30_000),
            (20_000, 30_000),
            (20_000, 10_000),
            (10_000, 10_000),
            (10_000, 30_000),
            (0, 30_000),
        ],
        (0, 0),
        300_000_000,
    );
    let corners = &[
        (0, 0),
        (25_981, 15_000),
        (10_981, 40_981),
        (2321, 35_981),
        (12_321, 18_660),
        (3660, 13_660),
        (-6340, 30_981),
        (-15_000, 25_981),
    ];
    let within = &[
        (1, 3),
        (25_978, 15_001),
        (10_980, 40_978),
        (2324, 35_980),
        (12_324, 18_659),
        (3659, 13_657),
        (-6341, 30_978),
        (-14_997, 25_980),
    ];
    let beyond = &[
        (0, 1),
        (25_980, 15_000),
        (10_981, 40_980),
        (2322, 35_981),
        (12_322, 18_660),
        (3660, 13_659),
        (-6340, 30_980),
        (-14_999, 25_981),
    ];
    assert!(rt; is_told(rt.alloc(), turned, corners, within, beyond)?);
    Ok(())
}

/// A star of four rays, clockwise, by 45 degrees.
#[test]
fn a_star(rt: HostRuntime) -> Result<(), Fail> {
    let turned: (&[(i32, i32)], (i32, i32), u32) = (
        &[
            (0, 40_000),
            (10_000, 10_000),
            (40_000, 0),
            (10_000, -10_000),
            (0, -40_000),
            (-10_000, -10_000),
            (-40_000, 0),
            (-10_000, 10_000),
        ],
        (5000, -7000),
        450_000_000,
    );
    let corners = &[
        (-31_770, 22_698),
        (-3485, 8556),
        (24_799, 22_698),
        (10_657, -5586),
        (24_799, -33_870),
        (-3485, -19_728),
        (-31_770, -33_870),
        (-17_627, -5586),
    ];
    let within = &[
        (-31_766, 22_694),
        (-3485, 8554),
        (24_795, 22_694),
        (10_655, -5586),
        (24_795, -33_866),
        (-3485, -19_726),
        (-31_766, -33_866),
        (-17_625, -5586),
    ];
    let beyond = &[
        (-31_768, 22_696),
        (-3485, 8555),
        (24_797, 22_696),
        (10_656, -5586),
        (24_797, -33_868),
        (-3485, -19_727),
        (-31_768, -33_868),
        (-17_626, -5586),
    ];
    assert!(rt; is_told(rt.alloc(), turned, corners, within, beyond)?);
    Ok(())
}

/// An L by 30 degrees, with another number of corners, a corner in another place, an angle that is right or another, and
/// contours in its notch, across it and round it.
#[test]
fn what_is_refused(rt: HostRuntime) -> Result<(), Fail> {
    let alloc = rt.alloc();
    let spots: &[(i32, i32)] = &[
        (0, 0),
        (30_000, 0),
        (30_000, 10_000),
        (10_000, 10_000),
        (10_000, 30_000),
        (0, 30_000),
    ];
    let mut figure = TurnedFigure {
        contour: closed(alloc, spots)?,
        about: at((0, 0)),
        angle: 300_000_000,
    };
    let mut corners = closed(
        alloc,
        &[
            (0, 0),
            (25_981, 15_000),
            (20_981, 23_660),
            (3660, 13_660),
            (-6340, 30_981),
            (-15_000, 25_981),
        ],
    )?;
    assert!(rt; is_above_outline(&figure, &corners, 1));
    let inner: &[(i32, i32)] = &[(0, 3000), (5000, 8000), (-5000, 15_000)];
    assert!(rt; lies(alloc, &figure, &corners, 1, inner)?);
    assert!(rt; !lies(alloc, &figure, &corners, 3000, inner)?);
    for contour in [
        [(8000, 20_000), (12_000, 20_000), (10_000, 22_000)],
        [(0, 3000), (20_000, 18_000), (-8000, 25_000)],
        [(0, -50_000), (70_000, 60_000), (-70_000, 60_000)],
    ] {
        assert!(rt; !lies(alloc, &figure, &corners, 1, &contour)?);
    }
    figure.angle = 299_900_000;
    assert!(rt; !is_above_outline(&figure, &corners, 5));
    assert!(rt; is_above_outline(&figure, &corners, 6));
    figure.angle = 900_000_000;
    assert!(rt; !is_above_outline(&figure, &corners, 50_000));
    figure.angle = 300_000_000;
    let last = corners.pop();
    assert!(rt; !is_above_outline(&figure, &corners, 50_000));
    if let Some(first) = last {
        corners.push(first)?;
        corners.push(first)?;
    }
    assert!(rt; !is_above_outline(&figure, &corners, 50_000));
    Ok(())
}
