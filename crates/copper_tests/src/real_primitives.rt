// What primitives of macros flash in real copper. A rotated rectangle and a rotated outline are as KiCad and Altium write them.
use crate::macro_words::parameters;
use crate::real_files::shape_text;
use aperture_macros::{Copper, FigureFault, read_body};
use lengths::decimal::Unit;
use planar::{Spot, is_placed};
use real_copper::primitive_at;
use std::alloc::{AllocError, Global};
use std::test::Fail;

// A body word, the parameters in mm, and a spot with the shape there.
type Flash = (&'static str, &'static str, i64, i64, &'static str);

static TURNS: [Flash; 16] = [
    (
        "21,1,$1,$2,0,0,$3",
        "2X1X45.0",
        0,
        0,
        "turned 450000000 about 0 0, -10000000 -5000000, 10000000 -5000000, 10000000 5000000, -10000000 5000000, -10000000 -5000000",
    ),
    (
        "21,1,$1,$2,0,0,$3",
        "2X1X90",
        0,
        0,
        "an area, 5000000 -10000000, 5000000 10000000, -5000000 10000000, -5000000 -10000000, 5000000 -10000000",
    ),
    (
        "21,1,2,1,0,0,-30",
        "",
        0,
        0,
        "turned 600000000 about 0 0, -5000000 10000000, -5000000 -10000000, 5000000 -10000000, 5000000 10000000, -5000000 10000000",
    ),
    (
        "20,1,1.0,-1,0,1,0,0.0000001",
        "",
        7,
        9,
        "turned 1 about 7 9, -9999993 -4999991, 10000007 -4999991, 10000007 5000009, -9999993 5000009, -9999993 -4999991",
    ),
    (
        "4,1,4,$1,$2,$3,$4,$5,$6,$7,$8,$1,$2,$9",
        "-1X-0.5X1X-0.5X1X0.5X-1X0.5X89.9999999",
        0,
        0,
        "turned 899999999 about 0 0, -10000000 -5000000, 10000000 -5000000, 10000000 5000000, -10000000 5000000, -10000000 -5000000",
    ),
    // A turn leaves a disc about the origin what it is. Lines along no axis turn by quarters alone.
    ("1,1,1.0,0,0,45", "", 0, 0, "0 0, 0 0, 5000000"),
    (
        "1,1,1.0,1.0,0,450",
        "",
        0,
        0,
        "0 10000000, 0 10000000, 5000000",
    ),
    (
        "1,1,1.0,1.0,0,135",
        "",
        7,
        9,
        "disc 450000000 about 7 9, 7 10000009, 5000000",
    ),
    (
        "20,1,0.2,0,0,1.0,1.0,-270",
        "",
        0,
        0,
        "[0 0, -10000000 10000000] 2000000",
    ),
    ("20,1,0.2,0,0,1.0,1.0,45", "", 0, 0, "Turn"),
    // Terms are judged one by one, then the sum, behind the lengths.
    ("21,1,2,1,0,0,0.00000001", "", 0, 0, "OffGrid"),
    ("21,1,2,1,0,0,600+600", "", 0, 0, "OutOfRange"),
    ("21,1,2,1,0,1001,0.00000001", "", 0, 0, "OutOfRange"),
    ("1,1,1.0,1.0,0,45.00000001", "", 0, 0, "OffGrid"),
    ("21,1,0,1,0,0,45", "", 0, 0, "none"),
    // No spot but a corner or one that it is turned about is judged.
    (
        "21,1,2,1,-2,0,45",
        "",
        9_999_990_000,
        0,
        "turned 450000000 about 9999990000 0, 9969990000 -5000000, 9989990000 -5000000, 9989990000 5000000, 9969990000 5000000, 9969990000 -5000000",
    ),
];

fn flashed(alloc: Global, word: &str, text: &str, at: Spot) -> Result<String, AllocError> {
    let given = parameters(alloc, text)?;
    let primitive = match read_body(Copper::Real, word.as_bytes()) {
        Err(fault) => return format!(in alloc; "{fault:?}"),
        Ok(None) => return String::from_str(alloc, "comment"),
        Ok(Some(primitive)) => primitive,
    };
    if !is_placed(at) {
        return String::from_str(alloc, "no spot");
    }
    if let Err(fault) = primitive.judge(Copper::Real, &given, Unit::Mm) {
        return format!(in alloc; "{fault:?}");
    }
    match primitive_at(alloc, &primitive, &given, Unit::Mm, at) {
        Err(FigureFault::NoMemory) => String::from_str(alloc, "NoMemory"),
        Err(FigureFault::Macro(fault)) => format!(in alloc; "{fault:?}"),
        Ok(None) => String::from_str(alloc, "none"),
        Ok(Some(figure)) => shape_text(alloc, &figure.shape),
    }
}

#[test]
fn real_primitives_flash(rt: HostRuntime) -> Result<(), Fail> {
    for (word, text, x, y, expected) in &TURNS {
        let flash = flashed(rt.alloc(), *word, *text, Spot { x: *x, y: *y })?;
        assert_eq!(rt; flash.as_str(), *expected, "{word:?}");
    }
    Ok(())
}
