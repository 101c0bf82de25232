//! Octagons whose middle is turned by degrees.
use turned_polygons::{
    RegularPolygon, Spot, TurnedPolygon, is_above_turned_polygon, is_below_turned_polygon,
};

/// The spot that the middle is turned about, by how much, where a contour is, two numbers of its corners, and whether it is taken
/// below and above the octagon in a circle of 1,000 u, whose edges are across the axes.
type Row = ((i64, i64), u32, (i32, i32), (u16, u16), (bool, bool));

/// Where the middle comes.
const GOES: (i32, i32) = (8660, 5000);

static ROWS: [Row; 16] = [
    // the middle comes to 8660.254, 5000, which is at most 2 u from the spot: corners are at 461.9 by 191.3
    ((0, 0), 300_000_000, GOES, (464, 194), (false, true)),
    ((0, 0), 300_000_000, GOES, (464, 193), (false, false)),
    ((0, 0), 300_000_000, GOES, (463, 196), (false, false)),
    ((0, 0), 300_000_000, GOES, (458, 189), (true, false)),
    ((0, 0), 300_000_000, GOES, (459, 187), (false, false)),
    ((0, 0), 300_000_000, GOES, (458, 190), (false, false)),
    // it is not where it was, nor where half the turn, the turn back, or a little more leads
    ((0, 0), 300_000_000, (10_000, 0), (464, 194), (false, false)),
    ((0, 0), 150_000_000, GOES, (464, 194), (false, false)),
    (
        (0, 0),
        300_000_000,
        (8660, -5000),
        (464, 194),
        (false, false),
    ),
    ((0, 0), 300_050_000, GOES, (464, 194), (false, false)),
    // about another spot
    (
        (10_000, -10_000),
        300_000_000,
        (5000, -1340),
        (464, 194),
        (false, true),
    ),
    (
        (10_000, -10_000),
        300_000_000,
        (5000, -1340),
        (458, 189),
        (true, false),
    ),
    // about itself it stays
    (
        (10_000, 0),
        300_000_000,
        (10_000, 0),
        (462, 192),
        (false, true),
    ),
    (
        (10_000, 0),
        300_000_000,
        (10_000, 0),
        (460, 190),
        (true, false),
    ),
    // a right angle is none that is left, and a spot over a metre off is none
    ((0, 0), 900_000_000, (0, 10_000), (464, 194), (false, false)),
    (
        (10_000_000_001, 0),
        1,
        (10_000, 0),
        (464, 194),
        (false, false),
    ),
];

/// A spot that lies so from another.
fn spot(at: (i32, i32), x: i32, y: i32) -> Spot {
    Spot {
        x: at.0 as i64 + x as i64,
        y: at.1 as i64 + y as i64,
    }
}

/// An octagon about the spot, mirrored by both axes through it and by the line between these.
fn octagon(at: (i32, i32), size: (u16, u16)) -> [Spot; 9] {
    let (x, y) = (size.0 as i32, size.1 as i32);
    [
        spot(at, x, y),
        spot(at, y, x),
        spot(at, -y, x),
        spot(at, -x, y),
        spot(at, -x, -y),
        spot(at, -y, -x),
        spot(at, y, -x),
        spot(at, x, -y),
        spot(at, x, y),
    ]
}

/// Whether the checks answer as the row says.
fn is_told(row: &Row) -> bool {
    let (about, angle, at, size, answers) = *row;
    let turned = TurnedPolygon {
        polygon: RegularPolygon {
            centre: Spot { x: 10_000, y: 0 },
            corners: 8,
            diameter: 10_000_000,
            angle: 225_000_000,
        },
        about: Spot {
            x: about.0,
            y: about.1,
        },
        angle,
    };
    let points = octagon(at, size);
    is_below_turned_polygon(&turned, &points) == answers.0
        && is_above_turned_polygon(&turned, &points) == answers.1
}

#[test]
fn rows_are_told(rt: HostRuntime) {
    for row in &ROWS {
        assert!(rt; is_told(row));
    }
}
