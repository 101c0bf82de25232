// Apertures as they are read, and what they flash.
use apertures::read_aperture;
use board_shapes::Shape;
use lengths::decimal::Unit;
use planar::{Spot, is_placed};
use std::alloc::{AllocError, Global};
use std::fmt::Write;
use std::test::Fail;

// Words with what they define.
type Word = (&'static str, Unit, &'static str);

static SIZES: [Word; 16] = [
    // Each aperture, and the grid.
    ("ADD10C,1.0", Unit::Mm, "Ok((10, Circle(10000000)))"),
    ("ADD010C,0", Unit::Mm, "Ok((10, Circle(0)))"),
    (
        "ADD999999999R,0.8X+0.4",
        Unit::Mm,
        "Ok((999999999, Rectangle(8000000, 4000000)))",
    ),
    (
        "ADD11O,2.0X1.0",
        Unit::Mm,
        "Ok((11, Obround(20000000, 10000000)))",
    ),
    ("ADD10C,0.066929", Unit::Inch, "Ok((10, Circle(16999966)))"),
    ("ADD10C,50.0", Unit::Mm, "Ok((10, Circle(500000000)))"),
    ("ADD10C,50.0000002", Unit::Mm, "Err(OutOfRange)"),
    ("ADD10C,50.0000001", Unit::Mm, "Err(OffGrid)"),
    ("ADD10C,1.968503", Unit::Inch, "Ok((10, Circle(499999762)))"),
    ("ADD10C,1.968504", Unit::Inch, "Err(OutOfRange)"),
    (
        "ADD10R,1000X1000",
        Unit::Mm,
        "Ok((10, Rectangle(10000000000, 10000000000)))",
    ),
    (
        "ADD10O,1000X50",
        Unit::Mm,
        "Ok((10, Obround(10000000000, 500000000)))",
    ),
    (
        "ADD10O,50X1000",
        Unit::Mm,
        "Ok((10, Obround(500000000, 10000000000)))",
    ),
    ("ADD10O,50.0000002X1000", Unit::Mm, "Err(OutOfRange)"),
    ("ADD10O,1000X50.0000002", Unit::Mm, "Err(OutOfRange)"),
    ("ADD10C,1.0000001", Unit::Mm, "Err(OffGrid)"),
];

static NAMES: [Word; 16] = [
    ("ADD10C,-0.2", Unit::Mm, "Err(OutOfRange)"),
    ("ADD10C,1000.0000002", Unit::Mm, "Err(OutOfRange)"),
    ("ADD10C,-0.0000001", Unit::Mm, "Err(OffGrid)"),
    // No `ADD`, no digit, no name.
    ("", Unit::Mm, "Err(BadText)"),
    ("AD10C,1", Unit::Mm, "Err(BadText)"),
    ("ADD", Unit::Mm, "Err(BadText)"),
    ("ADDC,1", Unit::Mm, "Err(BadText)"),
    ("ADD10", Unit::Mm, "Err(BadText)"),
    ("ADD10,1", Unit::Mm, "Err(BadText)"),
    // A name comes before the number, the number before the kind.
    ("ADD9,1", Unit::Mm, "Err(BadText)"),
    ("ADD9C,1", Unit::Mm, "Err(Number)"),
    ("ADD0000000010C,1", Unit::Mm, "Err(Number)"),
    ("ADD9THERMAL", Unit::Mm, "Err(Number)"),
    ("ADD9P,1X3", Unit::Mm, "Err(Number)"),
    // The kind comes before the parameters.
    ("ADD10THERMAL", Unit::Mm, "Err(Macro)"),
    ("ADD10THERMAL,xXx", Unit::Mm, "Err(Macro)"),
];

static PARAMETER_COUNTS: [Word; 16] = [
    ("ADD10 C,1", Unit::Mm, "Err(Macro)"),
    ("ADD10CX,1", Unit::Mm, "Err(Macro)"),
    ("ADD10c,1", Unit::Mm, "Err(Macro)"),
    ("ADD10P,1X3", Unit::Mm, "Err(Polygon)"),
    ("ADD10P", Unit::Mm, "Err(Polygon)"),
    // Too few parameters, and then too many.
    ("ADD10C", Unit::Mm, "Err(BadText)"),
    ("ADD10R", Unit::Mm, "Err(BadText)"),
    ("ADD10R,1", Unit::Mm, "Err(BadText)"),
    ("ADD10O,x", Unit::Mm, "Err(BadText)"),
    ("ADD10C,1X0.5", Unit::Mm, "Err(Hole)"),
    ("ADD10C,xX", Unit::Mm, "Err(Hole)"),
    ("ADD10R,1X1X0.5", Unit::Mm, "Err(Hole)"),
    ("ADD10O,xXxXx", Unit::Mm, "Err(Hole)"),
    // Then each parameter in turn.
    ("ADD10C,", Unit::Mm, "Err(BadText)"),
    ("ADD10C,1.0,2.0", Unit::Mm, "Err(BadText)"),
    ("ADD10C, 1.0", Unit::Mm, "Err(BadText)"),
];

static PARAMETERS: [Word; 13] = [
    ("ADD10R,1X", Unit::Mm, "Err(BadText)"),
    ("ADD10R,X1", Unit::Mm, "Err(BadText)"),
    ("ADD10R,xX0.0000001", Unit::Mm, "Err(BadText)"),
    ("ADD10R,0.0000001Xx", Unit::Mm, "Err(OffGrid)"),
    ("ADD10R,2000Xx", Unit::Mm, "Err(OutOfRange)"),
    ("ADD10R,0X0.0000001", Unit::Mm, "Err(OutOfRange)"),
    ("ADD10R,1X0", Unit::Mm, "Err(OutOfRange)"),
    ("ADD10O,0X1", Unit::Mm, "Err(OutOfRange)"),
    ("ADD10O,1X0.0000001", Unit::Mm, "Err(OffGrid)"),
    ("ADD10O,1X-1", Unit::Mm, "Err(OutOfRange)"),
    ("ADD10O,1Xx", Unit::Mm, "Err(BadText)"),
    ("ADD10O,1000Xx", Unit::Mm, "Err(BadText)"),
    ("ADD10O,1000X60.0000001", Unit::Mm, "Err(OffGrid)"),
];

// Whether each word defines what its row says.
fn all_define(alloc: Global, rows: &[Word]) -> Result<bool, AllocError> {
    for (word, unit, expected) in rows {
        let found = format!(in alloc; "{:?}", read_aperture(word.as_bytes(), *unit))?;
        if found.as_str() != *expected {
            return Ok(false);
        }
    }
    Ok(true)
}

#[test]
fn words_define_apertures(rt: HostRuntime) -> Result<(), Fail> {
    assert!(rt; all_define(rt.alloc(), &SIZES)?);
    assert!(rt; all_define(rt.alloc(), &NAMES)?);
    assert!(rt; all_define(rt.alloc(), &PARAMETER_COUNTS)?);
    assert!(rt; all_define(rt.alloc(), &PARAMETERS)?);
    Ok(())
}

/// Words in mm and spots with the shape there: a disc or a capsule by its ends and its radius, an
/// area by its corners, in u.
static FLASHES: [(&str, i64, i64, &str); 15] = [
    ("ADD11C,0", 5, 5, "none"),
    ("ADD10C,1.0", 7, -9, "7 -9, 7 -9, 5000000"),
    ("ADD10C,60", 0, 0, "no aperture"),
    (
        "ADD10C,50",
        10_000_000_000,
        0,
        "10000000000 0, 10000000000 0, 250000000",
    ),
    (
        "ADD10O,50X1000",
        0,
        0,
        "0 -4750000000, 0 4750000000, 250000000",
    ),
    // An obround lies where x is over y, and stands otherwise.
    ("ADD10O,2.0X1.0", 0, 0, "-5000000 0, 5000000 0, 5000000"),
    ("ADD10O,1.0X2.0", 3, 4, "3 -4999996, 3 5000004, 5000000"),
    ("ADD10O,1.0X1.0", 3, 4, "3 4, 3 4, 5000000"),
    (
        "ADD10O,2.0X1.0",
        9_995_000_000,
        0,
        "9990000000 0, 10000000000 0, 5000000",
    ),
    ("ADD10O,2.0X1.0", 9_995_000_001, 0, "OutOfRange"),
    ("ADD10O,1.0X2.0", 0, -9_995_000_001, "OutOfRange"),
    // Lower left, lower right, upper right, upper left.
    (
        "ADD10R,4.0X1.0",
        100,
        200,
        "[-19999900 -4999800][20000100 -4999800][20000100 5000200][-19999900 5000200]",
    ),
    (
        "ADD10R,0.8X0.8",
        9_996_000_000,
        0,
        "[9992000000 -4000000][10000000000 -4000000][10000000000 4000000][9992000000 4000000]",
    ),
    ("ADD10R,0.8X0.8", 9_996_000_001, 0, "OutOfRange"),
    ("ADD10R,0.8X0.8", 0, -9_996_000_001, "OutOfRange"),
];

fn shown(alloc: Global, shape: &Shape) -> Result<String, AllocError> {
    let mut line = String::new(alloc);
    match shape {
        Shape::Round(capsule) => {
            let (a, b, r) = capsule.parts();
            write!(line, "{} {}, {} {}, {r}", a.x, a.y, b.x, b.y)?;
        },
        Shape::Filled(area) => for i in 0..area.edges() {
            let corner = area.corner(i);
            write!(line, "[{} {}]", corner.x, corner.y)?;
        },
    }
    Ok(line)
}

fn flashed(alloc: Global, word: &str, at: Spot) -> Result<String, AllocError> {
    let Ok((_, aperture)) = read_aperture(word.as_bytes(), Unit::Mm) else {
        return String::from_str(alloc, "no aperture");
    };
    if !is_placed(at) {
        return String::from_str(alloc, "no spot");
    }
    match aperture.flash(alloc, at) {
        Err(fault) => format!(in alloc; "{fault:?}"),
        Ok(None) => String::from_str(alloc, "none"),
        Ok(Some(shape)) => shown(alloc, &shape),
    }
}

#[test]
fn apertures_flash(rt: HostRuntime) -> Result<(), Fail> {
    for (word, x, y, expected) in &FLASHES {
        let read = flashed(rt.alloc(), *word, Spot { x: *x, y: *y })?;
        assert_eq!(rt; read.as_str(), *expected, "{word:?}");
    }
    Ok(())
}
