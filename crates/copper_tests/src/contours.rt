// Contours of worked rows, in half millimetres.
ghost use Rattle.planar.specs.Plane.{IsPlaced};

use area_contact::{Area, MOST_CONTOUR_EDGES};
use contact::Closed;
use planar::{Frame, Spot};
use regions::{AddFault, CloseFault, Contour};
use std::alloc::Global;
use std::test::Fail;

const FRAME: Frame = Frame { left: 0, low: 0 };

fn spot(x: u8, y: u8) -> Spot
    ensures { IsPlaced result }
{
    Spot {
        x: x as i64 * 5_000_000,
        y: y as i64 * 5_000_000,
    }
}

/// The contour from (0, 0) through the ends of its edges.
fn drawn(alloc: Global, ends: &[(u8, u8)]) -> Result<Contour<()>, AddFault> {
    let mut contour = Contour::begin(alloc, spot(0, 0));
    for (x, y) in ends {
        contour.add(spot(*x, *y), ())?;
    }
    Ok(contour)
}

fn closed(alloc: Global, ends: &[(u8, u8)]) -> Result<Option<Area>, CloseFault> {
    match drawn(alloc, ends) {
        Ok(contour) => contour.close(alloc),
        Err(_) => Err(CloseFault::NoMemory),
    }
}

fn holds(area: &Area, x: u8, y: u8) -> bool {
    area.bounds().inside(FRAME) && area.has(spot(x, y), FRAME)
}

/// The ends of a plate's edges.
static PLATE: [(u8, u8); 12] = [
    (20, 0),
    (20, 20),
    (0, 20),
    (0, 10),
    (6, 10),
    (6, 14),
    (14, 14),
    (14, 6),
    (6, 6),
    (6, 10),
    (0, 10),
    (0, 0),
];

#[test]
fn a_plate_with_a_hole_by_a_cut_in(rt: HostRuntime) -> Result<(), Fail> {
    let contour = drawn(rt.alloc(), &PLATE).expect(&rt, "a contour");
    assert_eq!(rt; contour.edges(), 12);
    let plate = contour
        .close(rt.alloc())
        .expect(&rt, "an area")
        .expect(&rt, "an area");
    assert_eq!(rt; plate.edges(), 12);
    assert!(rt; holds(&plate, 3, 16) && holds(&plate, 3, 10) && !holds(&plate, 10, 10));
    Ok(())
}

/// The ends of the edges of contours that bound nothing, and why.
static BAD: [(&[(u8, u8)], CloseFault); 4] = [
    (&[(2, 0), (2, 2), (0, 2)], CloseFault::Open),
    (&[(2, 0)], CloseFault::Open),
    (&[(2, 0), (0, 0)], CloseFault::Short),
    (&[(0, 0)], CloseFault::Short),
];

#[test]
fn bad_contours(rt: HostRuntime) {
    let alloc = rt.alloc();
    assert!(rt; closed(alloc, &[]).is_ok_and(|area| area.is_none()));
    for (ends, wanted) in &BAD {
        assert!(rt; closed(alloc, *ends).is_err_and(|fault| fault == *wanted));
    }
}

#[test]
fn the_longest_contour(rt: HostRuntime) {
    let mut contour = Contour::begin(rt.alloc(), spot(0, 0));
    for _ in 1..MOST_CONTOUR_EDGES {
        assert!(rt; contour.add(spot(1, 1), ()).is_ok());
    }
    assert!(rt; contour.add(spot(0, 0), ()).is_ok());
    assert!(rt;
        contour
            .add(spot(0, 0), ())
            .is_err_and(|fault| fault == AddFault::TooLong)
    );
    assert_eq!(rt; contour.edges(), MOST_CONTOUR_EDGES);
    let area = contour.close(rt.alloc());
    assert!(rt; area.is_ok_and(|area| area.is_some_and(|area| area.edges() == MOST_CONTOUR_EDGES)));
}
