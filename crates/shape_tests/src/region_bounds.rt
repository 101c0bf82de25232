//! Regions whose contours have arcs, between polygons with chains and boxes, in u.
use crate::bounds::{ABOVE, BELOW, ORIGIN, Told, capsule, on, spot};
use arc_covers::check_between;
use arc_regions::{Bend, Part, Region};
use area_contact::Area;
use board_shapes::{Piece, Placed, Shape};
use planar::{Spot, are_placed};
use real_shapes::{RealPiece, RealShape};
use std::alloc::Global;
use std::test::Fail;

fn placed(region: Region) -> RealPiece {
    Placed {
        shape: RealShape::Region(region),
        top: 1,
        bottom: 1,
        origin: ORIGIN,
    }
}

/// Half a disc of radius 5,000 u about 0, of which the arc goes counterclockwise or back.
fn half_disc(alloc: Global, back: bool) -> Result<RealPiece, Fail> {
    let (first, last) = if back { (5000, -5000) } else { (-5000, 5000) };
    let bend = Bend {
        centre: spot((0, 0)),
        end: spot((0, last)),
        counterclockwise: !back,
    };
    let mut parts = Vec::new(alloc);
    parts.push(Part::Curved(bend))?;
    parts.push(Part::Straight(spot((0, first))))?;
    let start = spot((0, first));
    Ok(placed(Region { start, parts }))
}

/// The polygon of its chain, and the capsules of radius `r` along it, counterclockwise.
fn around(alloc: Global, back: bool, r: u16) -> Result<Vec<Piece>, Fail> {
    let chain = [
        (0, -5000),
        (3000, -4000),
        (4000, -3000),
        (5000, 0),
        (4000, 3000),
        (3000, 4000),
        (0, 5000),
    ];
    let mut points = Vec::new(alloc);
    for corner in chain {
        points.push(spot(corner))?;
    }
    if back {
        points.reverse();
    }
    points.push(if back {
        spot((0, 5000))
    } else {
        spot((0, -5000))
    })?;
    if !are_placed(&points) {
        return Ok(Vec::new(alloc));
    }
    let mut pieces = Vec::new(alloc);
    pieces.push(on(1, Shape::Filled(Area::new(alloc, points)?)))?;
    for i in 1..chain.len() {
        pieces.push(on(1, capsule(chain[i - 1], chain[i], r)))?;
    }
    Ok(pieces)
}

/// Whether the region goes back, whether the polygon above does, the radius of its capsules, and what is told.
type Halves = (bool, bool, u16, Told);

static HALVES: [Halves; 5] = [
    (false, false, 257, Ok(())),
    (true, true, 257, Ok(())),
    (false, false, 256, ABOVE),
    (true, false, 257, ABOVE),
    (false, true, 257, ABOVE),
];

/// A region: the chords leave its circle by less than 257 u, and by more than 256. Nothing lies below it.
#[test]
fn regions(rt: HostRuntime) -> Result<(), Fail> {
    let alloc = rt.alloc();
    for row in &HALVES {
        let (back, turned, r, told) = *row;
        let mut real = Vec::new(alloc);
        real.push(half_disc(alloc, back)?)?;
        let upper = around(alloc, turned, r)?;
        let found = check_between(alloc, &real, &[], &[0], &upper, &[7]);
        assert!(rt; found == told);
        assert!(rt; upper.len() == 7);
        let fewer = check_between(alloc, &real, &[], &[0], &upper[..6], &[6]);
        assert!(rt; fewer == ABOVE);
        let lower = check_between(alloc, &real, &upper[..1], &[1], &upper, &[7]);
        assert!(rt; lower == BELOW);
    }
    Ok(())
}

/// A box from `left` to `right`, 2,000 u high.
fn pane(alloc: Global, left: i16, right: i16) -> Result<Vec<Piece>, Fail> {
    let mut points = Vec::new(alloc);
    for corner in [
        (left, -1000),
        (right, -1000),
        (right, 1000),
        (left, 1000),
        (left, -1000),
    ] {
        points.push(spot(corner))?;
    }
    let mut pieces = Vec::new(alloc);
    if are_placed(&points) {
        pieces.push(on(1, Shape::Filled(Area::new(alloc, points)?)))?;
    }
    Ok(pieces)
}

/// Boxes below it: more than 424 u from the chords of its eighth turns, and off the straight part.
#[test]
fn boxes_below(rt: HostRuntime) -> Result<(), Fail> {
    let alloc = rt.alloc();
    for back in [false, true] {
        let upper = around(alloc, back, 257)?;
        let mut real = Vec::new(alloc);
        real.push(half_disc(alloc, back)?)?;
        for (left, right, told) in [
            (1, 4126, true),
            (1, 4127, false),
            (0, 1000, false),
            (-1000, 1000, false),
            (-1000, -1, false),
        ] {
            let lower = pane(alloc, left, right)?;
            let found = check_between(alloc, &real, &lower, &[1], &upper, &[7]);
            let lies = found == Ok(());
            assert!(rt; lies == told, "at {right}");
        }
    }
    Ok(())
}

/// A quarter of a disc of radius `r` about 0 and some more, as far as 9,000 u beyond the centre.
fn quarter_disc(alloc: Global, r: i64) -> Result<Region, Fail> {
    let start = Spot { x: r, y: 0 };
    let bend = Bend {
        centre: spot((0, 0)),
        end: Spot { x: 0, y: r },
        counterclockwise: true,
    };
    let mut parts = Vec::new(alloc);
    parts.push(Part::Curved(bend))?;
    parts.push(Part::Straight(spot((-9000, -9000))))?;
    parts.push(Part::Straight(start))?;
    Ok(Region { start, parts })
}

/// The widest arc that may have a contour below: its draws have the greatest radius that one may have. Nothing is above it, which
/// is told where the contour is taken.
#[test]
fn the_widest_arc(rt: HostRuntime) -> Result<(), Fail> {
    let alloc = rt.alloc();
    let lower = pane(alloc, 1, 1000)?;
    for (r, told) in [(2_999_999_915, true), (2_999_999_916, false)] {
        let mut real = Vec::new(alloc);
        real.push(placed(quarter_disc(alloc, r)?))?;
        let found = check_between(alloc, &real, &lower, &[1], &[], &[0]);
        assert!(rt; found == if told { ABOVE } else { BELOW });
    }
    Ok(())
}
