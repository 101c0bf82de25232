use self::Outline::{Heptagon, Octagon, Standing, Triangle};
use super::*;

/// How many corners, the direction to the first, what is added to the middle's x, eight corners of a contour, and whether it is taken
/// below and above the polygon in a circle of 1,000 u.
type Row = (u32, u32, i64, Outline, (bool, bool));

/// Eight corners of a contour.
#[derive(Clone, Copy)]
enum Outline {
    /// Mirrored by both axes and by the line between these, by two numbers of them.
    Octagon(u32, u32),
    /// Four on the axes, and four between them.
    Standing(u32, u32),
    /// A corner on the x axis, and two behind it.
    Triangle(u32, u32, u32),
    /// A corner on the x axis, twice, and three on each side of it.
    Heptagon(u32, (u32, u32), (u32, u32), (u32, u32)),
}

fn octagon(x: u32, y: u32) -> [i64; 16] {
    let (x, y) = (x as i64, y as i64);
    [x, y, y, x, -y, x, -x, y, -x, -y, -y, -x, y, -x, x, -y]
}

fn standing(r: u32, s: u32) -> [i64; 16] {
    let (r, s) = (r as i64, s as i64);
    [r, 0, s, s, 0, r, -s, s, -r, 0, -s, -s, 0, -r, s, -s]
}

fn triangle(x: u32, back: u32, y: u32) -> [i64; 16] {
    let (x, back, y) = (x as i64, back as i64, y as i64);
    [
        x, 0, x, 0, -back, y, -back, y, -back, y, -back, -y, -back, -y, -back, -y,
    ]
}

fn heptagon(x: u32, first: (u32, u32), second: (u32, u32), third: (u32, u32)) -> [i64; 16] {
    let (x, p, q) = (x as i64, first.0 as i64, first.1 as i64);
    let (v, w) = (second.0 as i64, second.1 as i64);
    let (s, t) = (third.0 as i64, third.1 as i64);
    [x, 0, p, q, -v, w, -s, t, -s, -t, -v, -w, p, -q, x, 0]
}

fn places(outline: Outline) -> [i64; 16] {
    match outline {
        Octagon(x, y) => octagon(x, y),
        Standing(r, s) => standing(r, s),
        Triangle(x, back, y) => triangle(x, back, y),
        Heptagon(x, first, second, third) => heptagon(x, first, second, third),
    }
}

static ROWS: [Row; 27] = [
    // corners are on the axes: at 500, and 354 by 354; edges are 461 u off
    (8, 0, 0, Standing(501, 354), (false, true)),
    (8, 0, 0, Standing(500, 354), (false, false)),
    (8, 0, 0, Standing(501, 353), (false, false)),
    (8, 0, 0, Standing(498, 352), (true, false)),
    (8, 0, 0, Standing(499, 352), (false, false)),
    // edges are across the axes: corners at 461.9 by 191.3
    (8, 225_000_000, 0, Octagon(462, 192), (false, true)),
    (8, 225_000_000, 0, Octagon(461, 192), (false, false)),
    (8, 225_000_000, 0, Octagon(460, 190), (true, false)),
    (8, 225_000_000, 0, Octagon(461, 190), (false, false)),
    // so they are a quarter turn on, and not a bit from there
    (8, 1_125_000_000, 0, Octagon(462, 192), (false, true)),
    (8, 1_125_000_000, 0, Octagon(460, 190), (true, false)),
    (8, 1_135_000_000, 0, Octagon(462, 192), (false, false)),
    // edges of triangles are half as far off as corners: 250
    (3, 0, 0, Triangle(502, 251, 434), (false, true)),
    (3, 0, 0, Triangle(500, 250, 433), (false, false)),
    (3, 0, 0, Triangle(496, 248, 430), (true, false)),
    (3, 0, 0, Triangle(499, 248, 430), (false, false)),
    // of squares 353.6
    (4, 450_000_000, 0, Standing(354, 354), (false, true)),
    (4, 450_000_000, 0, Standing(353, 353), (false, false)),
    (4, 450_000_000, 0, Standing(352, 352), (true, false)),
    // corners of seven at 311.7 by 390.9, -111.3 by 487.5, -450.5 by 216.9
    (
        7,
        0,
        0,
        Heptagon(502, (313, 392), (112, 489), (452, 218)),
        (false, true),
    ),
    (
        7,
        0,
        0,
        Heptagon(500, (312, 391), (111, 487), (450, 217)),
        (false, false),
    ),
    (
        7,
        0,
        0,
        Heptagon(497, (310, 389), (111, 485), (448, 216)),
        (true, false),
    ),
    // the edges of eleven are 479.7 u off
    (11, 0, 0, Standing(542, 383), (false, true)),
    (11, 0, 0, Standing(478, 338), (true, false)),
    // too few corners, too many, or another middle
    (2, 0, 0, Standing(10, 10), (false, false)),
    (13, 0, 0, Standing(1000, 1000), (false, false)),
    (8, 0, 5, Standing(501, 354), (false, false)),
];

fn spot(x: i64, y: i64) -> Spot {
    Spot { x, y }
}

/// The corners and the first again.
fn contour(p: [i64; 16]) -> [Spot; 9] {
    let first = spot(p[0], p[1]);
    [
        first,
        spot(p[2], p[3]),
        spot(p[4], p[5]),
        spot(p[6], p[7]),
        spot(p[8], p[9]),
        spot(p[10], p[11]),
        spot(p[12], p[13]),
        spot(p[14], p[15]),
        first,
    ]
}

/// Whether the checks answer as the row says.
fn is_told(row: &Row) -> bool {
    let (corners, angle, x, outline, answers) = *row;
    let points = contour(places(outline));
    let polygon = RegularPolygon {
        centre: spot(x, 0),
        corners,
        diameter: 10_000_000,
        angle,
    };
    is_below_polygon(&polygon, &points) == answers.0
        && is_above_polygons(&[polygon], &points) == answers.1
}

#[test]
fn rows_are_told(rt: HostRuntime) {
    for row in &ROWS {
        assert!(rt; is_told(row));
    }
}
