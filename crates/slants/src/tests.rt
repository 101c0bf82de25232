//! Lines and polygons. The answers were reckoned by whole squares of any size. The polygons of the
//! script are the bounds of `tools/show_board`.
use super::cones::{RIGHT_ANGLE, place};
use super::*;

/// Start and end, the width, four corners, and whether the polygon is taken below and above.
type Row = ([i64; 4], u64, [i64; 8], (bool, bool));

static ROWS: [Row; 24] = [
    // along 3, 4, 5, with whole corners
    (
        [0, 0, 3000, 4000],
        1000,
        [400, -300, 3400, 3700, 2600, 4300, -400, 300],
        (true, true),
    ),
    // one u less in width
    (
        [0, 0, 3000, 4000],
        999,
        [400, -300, 3400, 3700, 2600, 4300, -400, 300],
        (false, true),
    ),
    // one u more
    (
        [0, 0, 3000, 4000],
        1001,
        [400, -300, 3400, 3700, 2600, 4300, -400, 300],
        (true, false),
    ),
    // the other way
    (
        [3000, 4000, 0, 0],
        1000,
        [400, -300, 3400, 3700, 2600, 4300, -400, 300],
        (true, true),
    ),
    // from another corner
    (
        [0, 0, 3000, 4000],
        1000,
        [3400, 3700, 2600, 4300, -400, 300, 400, -300],
        (true, true),
    ),
    // clockwise
    (
        [0, 0, 3000, 4000],
        1000,
        [400, -300, -400, 300, 2600, 4300, 3400, 3700],
        (true, true),
    ),
    // a corner one u too far
    (
        [0, 0, 3000, 4000],
        1000,
        [400, -300, 3400, 3700, 2601, 4300, -400, 300],
        (false, false),
    ),
    // a corner one u too near
    (
        [0, 0, 3000, 4000],
        1000,
        [400, -300, 3399, 3700, 2600, 4300, -400, 300],
        (true, false),
    ),
    // corners that cross
    (
        [0, 0, 3000, 4000],
        1000,
        [400, -300, 2600, 4300, 3400, 3700, -400, 300],
        (true, false),
    ),
    // a corner twice
    (
        [0, 0, 3000, 4000],
        1000,
        [400, -300, 3400, 3700, 3400, 3700, -400, 300],
        (true, false),
    ),
    // longer by one u
    (
        [0, 0, 3003, 4004],
        1000,
        [400, -300, 3400, 3700, 2600, 4300, -400, 300],
        (true, false),
    ),
    // a level line
    (
        [0, 0, 1000, 0],
        200,
        [0, -100, 1000, -100, 1000, 100, 0, 100],
        (true, true),
    ),
    // of an odd width
    (
        [0, 0, 1000, 0],
        201,
        [0, -100, 1000, -100, 1000, 100, 0, 100],
        (true, false),
    ),
    // and so held
    (
        [0, 0, 1000, 0],
        201,
        [0, -101, 1000, -101, 1000, 101, 0, 101],
        (false, true),
    ),
    // an upright line down
    (
        [7, 1000, 7, 0],
        200,
        [-93, 0, 107, 0, 107, 1000, -93, 1000],
        (true, true),
    ),
    // no way
    (
        [0, 0, 0, 0],
        1000,
        [400, -300, 3400, 3700, 2600, 4300, -400, 300],
        (false, true),
    ),
    // no way and no polygon
    ([0, 0, 0, 0], 1000, [0, 0, 0, 0, 0, 0, 0, 0], (false, false)),
    // a line of 1.2 mm, below, as the script makes it
    (
        [-2_540_000, 1_270_000, 8_140_001, -4_330_007],
        2_000_001,
        [
            -3_004_378, 384_363, 7_675_622, -5_215_643, 8_604_379, -3_444_370, -2_075_621,
            2_155_636,
        ],
        (true, false),
    ),
    // a line of 1.2 mm, above
    (
        [-2_540_000, 1_270_000, 8_140_001, -4_330_007],
        2_000_001,
        [
            -3_004_380, 384_363, 7_675_622, -5_215_645, 8_604_381, -3_444_370, -2_075_621,
            2_155_638,
        ],
        (false, true),
    ),
    // 0.7 m, below, as the script makes it
    (
        [-4_999_999_999, 13, 17, 4_999_999_998],
        9_999_999,
        [
            -4_996_464_465,
            -3_535_520,
            3_535_550,
            4_996_464_464,
            -3_535_517,
            5_003_535_531,
            -5_003_535_532,
            3_535_547,
        ],
        (true, false),
    ),
    // 0.7 m, above
    (
        [-4_999_999_999, 13, 17, 4_999_999_998],
        9_999_999,
        [
            -4_996_464_465,
            -3_535_522,
            3_535_552,
            4_996_464_464,
            -3_535_517,
            5_003_535_533,
            -5_003_535_534,
            3_535_547,
        ],
        (false, true),
    ),
    // short and wide, below, as the script makes it
    (
        [0, 0, 7, -5],
        3_000_001,
        [
            -871_857, -1_220_601, -871_851, -1_220_605, 871_864, 1_220_596, 871_858, 1_220_600,
        ],
        (true, false),
    ),
    // short and wide, above
    (
        [0, 0, 7, -5],
        3_000_001,
        [
            -871_859, -1_220_601, -871_851, -1_220_607, 871_866, 1_220_596, 871_858, 1_220_602,
        ],
        (false, true),
    ),
    // beyond a metre
    (
        [0, 0, 6_000_000_000, 8_000_000_000],
        10_000_000_000,
        [
            4_000_000_000,
            -3_000_000_000,
            10_000_000_000,
            5_000_000_000,
            2_000_000_000,
            11_000_000_000,
            -4_000_000_000,
            3_000_000_000,
        ],
        (false, false),
    ),
];

fn spot(x: i64, y: i64) -> Spot {
    Spot { x, y }
}

fn slant(line: [i64; 4], width: u64) -> Slant {
    Slant {
        start: spot(line[0], line[1]),
        end: spot(line[2], line[3]),
        width,
    }
}

/// The corners and the first again, or a spot beside it.
fn contour(p: [i64; 8], open: bool) -> [Spot; 5] {
    let first = spot(p[0], p[1]);
    let last = if open { spot(401, -300) } else { first };
    [
        first,
        spot(p[2], p[3]),
        spot(p[4], p[5]),
        spot(p[6], p[7]),
        last,
    ]
}

/// Whether the checks answer as the row says.
fn is_told(row: &Row) -> bool {
    let (line, width, p, answers) = *row;
    let slant = slant(line, width);
    let points = contour(p, false);
    is_below(&slant, &points) == answers.0 && is_above(&slant, &points) == answers.1
}

#[test]
fn rows_are_told(rt: HostRuntime) {
    for row in &ROWS {
        assert!(rt; is_told(row));
    }
}

/// A contour that does not end where it begins is none.
#[test]
fn open_contours_are_refused(rt: HostRuntime) {
    let slant = slant([0, 0, 3000, 4000], 1000);
    let points = contour([400, -300, 3400, 3700, 2600, 4300, -400, 300], true);
    assert!(rt; !is_below(&slant, &points) && !is_above(&slant, &points));
    assert!(rt; is_below(&slant, &points[..0]) && !is_above(&slant, &points[..4]));
}

/// Ways of two turns, the spot that they turn about and where it is moved to, two corners of a rectangle, four corners
/// of a polygon, and whether it is taken below and above.
type TurnedRow = ([i64; 4], [i64; 4], [i64; 4], [i64; 8], (bool, bool));

static TURNED_ROWS: [TurnedRow; 26] = [
    // a square by the turn of 3, 4, 5, with whole corners
    (
        [3, 1, 3, 1],
        [0, 0, 0, 0],
        [-500, -500, 500, 500],
        [-100, -700, 700, -100, 100, 700, -700, 100],
        (true, true),
    ),
    // the turn back
    (
        [3, -1, 3, -1],
        [0, 0, 0, 0],
        [-500, -500, 500, 500],
        [-700, -100, 100, -700, 700, 100, -100, 700],
        (true, true),
    ),
    // about a corner, which is moved
    (
        [3, 1, 3, 1],
        [-500, -500, 10, -20],
        [-500, -500, 500, 500],
        [10, -20, 810, 580, 210, 1_380, -590, 780],
        (true, true),
    ),
    // about another spot
    (
        [3, 1, 3, 1],
        [-500, -490, 10, -20],
        [-500, -500, 500, 500],
        [10, -20, 810, 580, 210, 1_380, -590, 780],
        (false, false),
    ),
    // a corner one u too far
    (
        [3, 1, 3, 1],
        [0, 0, 0, 0],
        [-500, -500, 500, 500],
        [-100, -700, 701, -100, 100, 700, -700, 100],
        (false, true),
    ),
    // a corner one u too near
    (
        [3, 1, 3, 1],
        [0, 0, 0, 0],
        [-500, -500, 500, 500],
        [-100, -700, 699, -100, 100, 700, -700, 100],
        (true, false),
    ),
    // clockwise
    (
        [3, 1, 3, 1],
        [0, 0, 0, 0],
        [-500, -500, 500, 500],
        [-100, -700, -700, 100, 100, 700, 700, -100],
        (true, true),
    ),
    // a quarter
    (
        [1, 1, 1, 1],
        [0, 0, 0, 0],
        [0, 0, 7, 3],
        [0, 0, 0, 7, -3, 7, -3, 0],
        (true, true),
    ),
    // a half
    (
        [0, 1, 0, 1],
        [0, 0, 0, 0],
        [0, 0, 7, 3],
        [-7, -3, 0, -3, 0, 0, -7, 0],
        (true, true),
    ),
    // a half, by ways against each other
    (
        [0, -1, 0, 1],
        [0, 0, 0, 0],
        [0, 0, 7, 3],
        [-7, -3, 0, -3, 0, 0, -7, 0],
        (false, false),
    ),
    // a figure without a place within
    (
        [1, 1, 1, 1],
        [0, 0, 0, 0],
        [0, 0, 7, 0],
        [0, 0, 0, 7, -3, 7, -3, 0],
        (false, true),
    ),
    // each turn from 0 to a quarter, below
    (
        [1, 0, 1, 1],
        [0, 0, 0, 0],
        [-500, -500, 500, 500],
        [-207, -207, 207, -207, 207, 207, -207, 207],
        (true, false),
    ),
    // each turn from 0 to a quarter, one u more
    (
        [1, 0, 1, 1],
        [0, 0, 0, 0],
        [-500, -500, 500, 500],
        [-251, -250, 250, -250, 250, 250, -251, 250],
        (false, false),
    ),
    // each turn from 0 to a quarter, above
    (
        [1, 0, 1, 1],
        [0, 0, 0, 0],
        [-500, -500, 500, 500],
        [-1_000, -1_000, 1_000, -1_000, 1_000, 1_000, -1_000, 1_000],
        (false, true),
    ),
    // each turn from 0 to a quarter, one u less
    (
        [1, 0, 1, 1],
        [0, 0, 0, 0],
        [-500, -500, 500, 500],
        [-999, -1_000, 1_000, -1_000, 1_000, 1_000, -999, 1_000],
        (false, false),
    ),
    // from 0 to a quarter and more
    (
        [1, 0, 100, 101],
        [0, 0, 0, 0],
        [-500, -500, 500, 500],
        [-1_000, -1_000, 1_000, -1_000, 1_000, 1_000, -1_000, 1_000],
        (false, false),
    ),
    // a thousandth of a degree about 30 degrees, below
    (
        [10_000_000, 2_679_445, 10_000_000, 2_679_540],
        [0, 0, 1_000_000, -2_000_000],
        [-12_345, -6_000, 12_345, 6_000],
        [
            992_309, -2_011_368, 1_013_690, -1_999_023, 1_007_691, -1_988_632, 986_310, -2_000_977,
        ],
        (true, false),
    ),
    // a thousandth of a degree about 30 degrees, above
    (
        [10_000_000, 2_679_445, 10_000_000, 2_679_540],
        [0, 0, 1_000_000, -2_000_000],
        [-12_345, -6_000, 12_345, 6_000],
        [
            992_309, -2_011_369, 1_013_692, -1_999_024, 1_007_691, -1_988_631, 986_308, -2_000_976,
        ],
        (false, true),
    ),
    // one u more
    (
        [10_000_000, 2_679_445, 10_000_000, 2_679_540],
        [0, 0, 1_000_000, -2_000_000],
        [-12_345, -6_000, 12_345, 6_000],
        [
            992_309, -2_011_369, 1_013_690, -1_999_023, 1_007_691, -1_988_632, 986_310, -2_000_977,
        ],
        (false, false),
    ),
    // one u less
    (
        [10_000_000, 2_679_445, 10_000_000, 2_679_540],
        [0, 0, 1_000_000, -2_000_000],
        [-12_345, -6_000, 12_345, 6_000],
        [
            992_309, -2_011_369, 1_013_691, -1_999_024, 1_007_691, -1_988_631, 986_308, -2_000_976,
        ],
        (false, false),
    ),
    // half a metre out, below
    (
        [100_000_000, 26_794_919, 100_000_000, 26_794_920],
        [0, 0, 5_000_000_000, -8_000_000_000],
        [-1_000_000_000, -700_000_000, 1_000_000_000, 700_000_000],
        [
            4_483_974_607,
            -9_106_217_766,
            6_216_025_385,
            -8_106_217_772,
            5_516_025_393,
            -6_893_782_234,
            3_783_974_615,
            -7_893_782_228,
        ],
        (true, false),
    ),
    // half a metre out, above
    (
        [100_000_000, 26_794_919, 100_000_000, 26_794_920],
        [0, 0, 5_000_000_000, -8_000_000_000],
        [-1_000_000_000, -700_000_000, 1_000_000_000, 700_000_000],
        [
            4_483_974_596,
            -9_106_217_804,
            6_216_025_423,
            -8_106_217_782,
            5_516_025_404,
            -6_893_782_196,
            3_783_974_577,
            -7_893_782_218,
        ],
        (false, true),
    ),
    // a part of a turn over the most
    (
        [100_000_001, 0, 100_000_001, 0],
        [0, 0, 0, 0],
        [-500, -500, 500, 500],
        [-500, -500, 500, -500, 500, 500, -500, 500],
        (false, false),
    ),
    // a part of a turn at the most
    (
        [100_000_000, 0, 100_000_000, 0],
        [0, 0, 0, 0],
        [-500, -500, 500, 500],
        [-500, -500, 500, -500, 500, 500, -500, 500],
        (true, true),
    ),
    // beyond a metre
    (
        [1, 0, 1, 0],
        [0, 0, 9_999_999_501, 0],
        [-500, -500, 500, 500],
        [
            9_999_999_001,
            -500,
            10_000_000_001,
            -500,
            10_000_000_001,
            500,
            9_999_999_001,
            500,
        ],
        (false, false),
    ),
    // to a metre
    (
        [1, 0, 1, 0],
        [0, 0, 9_999_999_500, 0],
        [-500, -500, 500, 500],
        [
            9_999_999_000,
            -500,
            10_000_000_000,
            -500,
            10_000_000_000,
            500,
            9_999_999_000,
            500,
        ],
        (true, true),
    ),
];

fn motions(turns: [i64; 4], spots: [i64; 4]) -> Motions {
    Motions {
        first: Turn {
            x: turns[0],
            y: turns[1],
        },
        last: Turn {
            x: turns[2],
            y: turns[3],
        },
        from: spot(spots[0], spots[1]),
        to: spot(spots[2], spots[3]),
    }
}

/// Whether the checks of turned figures answer as the row says.
fn is_turned(row: &TurnedRow) -> bool {
    let (turns, spots, r, p, answers) = *row;
    let m = motions(turns, spots);
    let figure = contour([r[0], r[1], r[2], r[1], r[2], r[3], r[0], r[3]], false);
    let points = contour(p, false);
    is_below_turned(&figure, &m, &points) == answers.0
        && is_above_turned(&figure, &m, &points) == answers.1
}

#[test]
fn turned_rows_are_told(rt: HostRuntime) {
    for row in &TURNED_ROWS {
        assert!(rt; is_turned(row));
    }
}

/// Six corners of a figure, six of a polygon, and whether that is taken below and above the figure by the turn of 3, 4, 5.
type OutlineRow = ([i64; 12], [i64; 12], (bool, bool));

static OUTLINE_ROWS: [OutlineRow; 9] = [
    // a hexagon, with whole corners
    (
        [
            1000, 0, 500, 800, -500, 800, -1000, 0, -500, -800, 500, -800,
        ],
        [
            800, 600, -80, 940, -880, 340, -800, -600, 80, -940, 880, -340,
        ],
        (true, true),
    ),
    // the other way round, from another corner
    (
        [
            500, 800, 1000, 0, 500, -800, -500, -800, -1000, 0, -500, 800,
        ],
        [
            800, 600, -80, 940, -880, 340, -800, -600, 80, -940, 880, -340,
        ],
        (true, true),
    ),
    // a corner one u too far
    (
        [
            1000, 0, 500, 800, -500, 800, -1000, 0, -500, -800, 500, -800,
        ],
        [
            801, 600, -80, 940, -880, 340, -800, -600, 80, -940, 880, -340,
        ],
        (false, true),
    ),
    // a corner one u too near
    (
        [
            1000, 0, 500, 800, -500, 800, -1000, 0, -500, -800, 500, -800,
        ],
        [
            799, 600, -80, 940, -880, 340, -800, -600, 80, -940, 880, -340,
        ],
        (true, false),
    ),
    // spots on straight ways
    (
        [
            1000, -500, 1000, 0, 1000, 500, -1000, 500, -1000, -500, 0, -500,
        ],
        [
            1100, 200, 800, 600, 500, 1000, -1100, -200, -500, -1000, 300, -400,
        ],
        (true, true),
    ),
    // one twice, on a side that rises
    (
        [
            1000, -500, 1000, 0, 1000, 0, 1000, 500, -1000, 500, -1000, -500,
        ],
        [
            1100, 200, 800, 600, 800, 600, 500, 1000, -1100, -200, -500, -1000,
        ],
        (true, true),
    ),
    // a triangle twice round has nothing inside
    (
        [
            0, 1000, -1000, -500, 1000, -500, 0, 1000, -1000, -500, 1000, -500,
        ],
        [80, 60, -8, 94, -88, 34, -80, -60, 8, -94, 88, -34],
        (false, false),
    ),
    // and is round nothing
    (
        [100, 0, 50, 80, -50, 80, -100, 0, -50, -80, 50, -80],
        [
            -600, 800, -500, -1000, 1100, 200, -600, 800, -500, -1000, 1100, 200,
        ],
        (false, false),
    ),
    // a line there and back, short of a spot on it
    (
        [300, 100, 300, 100, 300, 100, 300, 100, 300, 100, 300, 100],
        [0, 0, 90, 130, 0, 0, 90, 130, 90, 130, 90, 130],
        (false, false),
    ),
];

/// The corners and the first again.
fn outline(p: [i64; 12]) -> [Spot; 7] {
    let first = spot(p[0], p[1]);
    [
        first,
        spot(p[2], p[3]),
        spot(p[4], p[5]),
        spot(p[6], p[7]),
        spot(p[8], p[9]),
        spot(p[10], p[11]),
        first,
    ]
}

/// Whether the checks answer as the row says.
fn is_outlined(row: &OutlineRow) -> bool {
    let (figure, points, answers) = *row;
    let m = motions([3, 1, 3, 1], [0, 0, 0, 0]);
    is_below_turned(&outline(figure), &m, &outline(points)) == answers.0
        && is_above_turned(&outline(figure), &m, &outline(points)) == answers.1
}

#[test]
fn outline_rows_are_told(rt: HostRuntime) {
    for row in &OUTLINE_ROWS {
        assert!(rt; is_outlined(row));
    }
}

/// Angles, and what the ways of their turns are about: `tools/tests/test_cones.py` compares these numbers with cosines and
/// sines of half the angle.
static ANGLE_ROWS: [(u32, (u32, u32)); 13] = [
    (0, (99_999_999, 0)),
    (1, (99_999_999, 0)),
    (1_000_000, (99_999_961, 87_266)),
    (50_000_000, (99_904_821, 4_361_939)),
    (150_000_000, (99_144_485, 13_052_619)),
    (225_000_000, (98_078_527, 19_509_032)),
    (300_000_000, (96_592_582, 25_881_904)),
    (371_234_567, (94_798_124, 31_832_616)),
    (450_000_000, (92_387_952, 38_268_343)),
    (600_000_000, (86_602_540, 50_000_000)),
    (750_000_000, (79_335_333, 60_876_142)),
    (899_000_000, (70_772_357, 70_648_944)),
    (899_999_999, (70_710_677, 70_710_677)),
];

#[test]
fn angles_are_told(rt: HostRuntime) {
    for row in &ANGLE_ROWS {
        let (angle, told) = *row;
        assert!(rt; angle < RIGHT_ANGLE && place(angle) == told);
    }
}
