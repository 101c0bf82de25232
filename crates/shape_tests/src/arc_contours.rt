//! Contours of arcs with radius 5,000 u about whole spots, between spots of one circle, and straight
//! parts. Their longest chords leave the circle by less than 257 u, and by more than 256.
ghost use Rattle.std.specs.Prelude.{◌<◌, ◌≡◌};

use arc_regions::{Bend, Part, Spot, Stretch, is_above, is_below};
use area_contact::Area;
use planar::{Frame, are_placed};
use std::alloc::Global;
use std::marker::Brand;
use std::sync::ledger::{Blank, Ledger};
use std::test::Fail;
use steps::Steps;

fn at(p: (i32, i32)) -> Spot {
    Spot {
        x: p.0 as i64,
        y: p.1 as i64,
    }
}

/// Spot `k` of twelve, counterclockwise.
fn on_ring(k: u16) -> (i16, i16) {
    let (x, y) = match k % 3 {
        0 => (5000, 0),
        1 => (4000, 3000),
        _ => (3000, 4000),
    };
    match k / 3 % 4 {
        0 => (x, y),
        1 => (-y, x),
        2 => (-x, -y),
        _ => (y, -x),
    }
}

fn ring_spot(centre: (i16, i16), k: u16) -> Spot {
    let (x, y) = on_ring(k);
    at((centre.0 as i32 + x as i32, centre.1 as i32 + y as i32))
}

fn line(end: (i32, i32), alloc: Global) -> Stretch {
    Stretch {
        part: Part::Straight(at(end)),
        chain: Vec::new(alloc),
        radius: 0,
    }
}

/// An arc that runs from spot `k` of its circle over so many chords, or back, whose chain does too.
fn arc(
    alloc: Global,
    centre: (i16, i16),
    k: u8,
    links: u8,
    back: bool,
    radius: u64,
) -> Result<Stretch, Fail> {
    let mut chain = Vec::new(alloc);
    let first = k as u16;
    for i in 0..links as u16 + 1 {
        chain.push(ring_spot(centre, first.saturating_add(i)))?;
    }
    let last = first + links as u16;
    let end = if back { first } else { last };
    let bend = Bend {
        centre: at((centre.0 as i32, centre.1 as i32)),
        end: ring_spot(centre, end),
        counterclockwise: !back,
    };
    Ok(Stretch {
        part: Part::Curved(bend),
        chain,
        radius,
    })
}

/// Half a disc.
fn half_disc(alloc: Global, radius: u64) -> Result<(Spot, Vec<Stretch>), Fail> {
    let mut all = Vec::new(alloc);
    all.push(arc(alloc, (0, 0), 9, 6, false, radius)?)?;
    all.push(line((0, -5000), alloc))?;
    Ok((at((0, -5000)), all))
}

/// A whole circle, by so many chords.
fn disc(alloc: Global, links: u8, back: bool, radius: u64) -> Result<(Spot, Vec<Stretch>), Fail> {
    let mut all = Vec::new(alloc);
    all.push(arc(alloc, (0, 0), 0, links, back, radius)?)?;
    Ok((at((5000, 0)), all))
}

/// A square with half a disc cut out.
fn bite(alloc: Global, radius: u64) -> Result<(Spot, Vec<Stretch>), Fail> {
    let mut all = Vec::new(alloc);
    for end in [(9000, -9000), (9000, 9000), (5000, 9000)] {
        all.push(line(end, alloc))?;
    }
    all.push(arc(alloc, (0, 9000), 6, 6, true, radius)?)?;
    for end in [(-9000, 9000), (-9000, -9000)] {
        all.push(line(end, alloc))?;
    }
    Ok((at((-9000, -9000)), all))
}

/// A square with four round corners.
fn rounded(alloc: Global, radius: u64) -> Result<(Spot, Vec<Stretch>), Fail> {
    let mut all = Vec::new(alloc);
    for (centre, k, end) in [
        ((8000, -8000), 9, (13_000, 8000)),
        ((8000, 8000), 0, (-8000, 13_000)),
        ((-8000, 8000), 3, (-13_000, -8000)),
        ((-8000, -8000), 6, (8000, -13_000)),
    ] {
        all.push(arc(alloc, centre, k, 3, false, radius)?)?;
        all.push(line(end, alloc))?;
    }
    Ok((at((8000, -13_000)), all))
}

/// An arc whose end is 10 u further from the centre than the spot that it is on the ring, and the line back.
fn stretched(alloc: Global, k: u8, links: u8, radius: u64) -> Result<(Spot, Vec<Stretch>), Fail> {
    let (first, (x, y)) = (on_ring(k as u16), on_ring(k as u16 + links as u16));
    let end = at((x as i32 + x as i32 / 500, y as i32 + y as i32 / 500));
    let mut bent = arc(alloc, (0, 0), k, links, false, radius)?;
    let _last = bent.chain.pop();
    bent.chain.push(end)?;
    bent.part = Part::Curved(Bend {
        centre: at((0, 0)),
        end,
        counterclockwise: true,
    });
    let start = (first.0 as i32, first.1 as i32);
    let mut all = Vec::new(alloc);
    all.push(bent)?;
    all.push(line(start, alloc))?;
    Ok((at(start), all))
}

/// At the least radius, and one u less.
#[test]
fn chains_that_hold(rt: HostRuntime) -> Result<(), Fail> {
    let alloc = rt.alloc();
    for (radius, told) in [(257, true), (256, false)] {
        for (start, all) in [
            half_disc(alloc, radius)?,
            disc(alloc, 12, false, radius)?,
            disc(alloc, 12, true, radius)?,
            bite(alloc, radius)?,
            rounded(alloc, radius)?,
        ] {
            assert!(rt; is_above(start, &all) == told, "with {radius}");
        }
    }
    Ok(())
}

/// A contour that is not closed, a chain that goes round twice, one that stops short.
#[test]
fn chains_that_do_not(rt: HostRuntime) -> Result<(), Fail> {
    let alloc = rt.alloc();
    let (start, mut all) = half_disc(alloc, 257)?;
    let _last = all.pop();
    assert!(rt; !is_above(start, &all));
    let (start, all) = disc(alloc, 24, false, 257)?;
    assert!(rt; !is_above(start, &all));
    let (start, all) = disc(alloc, 11, false, 257)?;
    assert!(rt; !is_above(start, &all));
    let (_, all) = bite(alloc, 257)?;
    assert!(rt; !is_above(at((-9000, -9001)), &all));
    Ok(())
}

/// Ends at two distances: the radius is greater by as much. Ends in one direction are refused then.
#[test]
fn two_distances(rt: HostRuntime) -> Result<(), Fail> {
    let alloc = rt.alloc();
    for (k, links, radius, told) in [
        (9, 6, 267, true),
        (9, 6, 266, false),
        (0, 12, 267, false),
        (0, 24, 267, false),
    ] {
        let (start, all) = stretched(alloc, k, links, radius)?;
        assert!(rt; is_above(start, &all) == told);
    }
    Ok(())
}

fn lies_by<L: Ledger>(start: Spot, all: &[Stretch], area: &Area, blank: Blank) -> bool
    requires name { blank.name ≡ L.name }
    requires parts { blank.parts ≡ L.parts }
    requires some { 0 < blank.parts }
{
    let mut tests = Steps::<L>::new(blank);
    let frame = Frame {
        left: -20_000,
        low: -20_000,
    };
    is_below(start, all, area, frame, &mut tests)
}

/// Whether the box is taken below the region.
fn lies(
    alloc: Global,
    region: &(Spot, Vec<Stretch>),
    low: (i32, i32),
    high: (i32, i32),
) -> Result<bool, Fail> {
    let mut corners = Vec::new(alloc);
    for corner in [low, (high.0, low.1), high, (low.0, high.1), low] {
        corners.push(at(corner))?;
    }
    if !are_placed(&corners) {
        return Ok(false);
    }
    let area = Area::new(alloc, corners)?;
    Ok(lies_by::<Brand>(region.0, &region.1, &area, Blank::new(1)))
}

/// Boxes that lie in the regions, boxes that touch or cross the border, and boxes outside.
#[test]
fn boxes_within(rt: HostRuntime) -> Result<(), Fail> {
    let alloc = rt.alloc();
    let half = half_disc(alloc, 257)?;
    let whole = disc(alloc, 12, true, 257)?;
    let bitten = bite(alloc, 257)?;
    let round = rounded(alloc, 257)?;
    let uneven = stretched(alloc, 9, 6, 267)?;
    for (region, low, high, told) in [
        (&half, (1, -1000), (2000, 1000), true),
        (&half, (0, -1000), (2000, 1000), false),
        (&half, (-2000, -1000), (-1, 1000), false),
        (&half, (1, -1000), (4485, 1000), false),
        (&uneven, (1, -1000), (2000, 1000), true),
        (&uneven, (1, -1000), (4485, 1000), false),
        (&whole, (-3000, -3000), (3000, 3000), true),
        (&whole, (-3400, -3400), (3400, 3400), false),
        (&whole, (-9000, -9000), (9000, 9000), false),
        (&bitten, (-8999, -8999), (8999, 3000), true),
        (&bitten, (-1000, 5000), (1000, 8000), false),
        (&bitten, (-8999, -8999), (8999, 5000), false),
        (&bitten, (6000, 0), (8999, 8999), true),
        (&round, (-12_999, -7700), (12_999, 7700), true),
        (&round, (-12_999, -7700), (13_000, 7700), false),
    ] {
        assert!(rt; lies(alloc, region, low, high)? == told);
    }
    Ok(())
}
