// Apertures of real copper as they are read, and what they flash.
use crate::real_files::shape_text;
use lengths::decimal::Unit;
use planar::{Spot, is_placed};
use real_copper::{flash, read_real_aperture};
use std::alloc::{AllocError, Global};
use std::test::Fail;

// Words in mm: circles, rectangles and obrounds may have a round hole.
static HOLES: [(&str, &str); 38] = [
    (
        "ADD10C,1.0X0.5",
        "Ok((10, Ring(10000000, Hole { diameter: 5000000 })))",
    ),
    (
        "ADD010C,0.000001X.0000006",
        "Ok((10, Ring(10, Hole { diameter: 6 })))",
    ),
    ("ADD10C,1.0", "Ok((10, Exact(Circle(10000000))))"),
    ("ADD10C,1X0.5X0.5", "Err(Hole)"),
    (
        "ADD10R,2X1X0.5",
        "Ok((10, Frame(20000000, 10000000, Hole { diameter: 5000000 })))",
    ),
    (
        "ADD10R,2X1",
        "Ok((10, Exact(Rectangle(20000000, 10000000))))",
    ),
    ("ADD10R,2X1X0.5X0.5", "Err(Hole)"),
    (
        "ADD10O,1X2X0.5",
        "Ok((10, Pierced(Obround(10000000, 20000000), Hole { diameter: 5000000 })))",
    ),
    ("ADD10O,60X51X1", "Err(OutOfRange)"),
    ("ADD10O,1X2X1", "Err(Hole)"),
    ("ADD10O,1X2X.5X.5", "Err(Hole)"),
    // For each parameter in turn.
    ("ADD10C,xX0.0000001", "Err(BadText)"),
    ("ADD10C,0.00000001Xx", "Err(OffGrid)"),
    ("ADD10C,50.0000002Xx", "Err(BadText)"),
    ("ADD10C,1X", "Err(BadText)"),
    ("ADD10C,1X-0.5", "Err(OutOfRange)"),
    ("ADD10R,xX0Xx", "Err(BadText)"),
    ("ADD10R,0XxXx", "Err(OutOfRange)"),
    ("ADD10R,1X0Xx", "Err(OutOfRange)"),
    ("ADD10R,1X1X", "Err(BadText)"),
    ("ADD10R,60X60X50.0000002", "Err(OutOfRange)"),
    ("ADD10R,2X1X0", "Err(OutOfRange)"),
    ("ADD10R,2X1X1", "Err(Hole)"),
    ("ADD10R,1X2X1", "Err(Hole)"),
    // Then whether the hole leaves anything.
    ("ADD10C,1X0", "Err(OutOfRange)"),
    ("ADD10C,1X1", "Err(Hole)"),
    ("ADD10C,1X1.5", "Err(Hole)"),
    // Of a ring whose middle line is not on the grid, or of odd sizes.
    (
        "ADD10C,0.000001X.0000008",
        "Ok((10, Pierced(Circle(10), Hole { diameter: 8 })))",
    ),
    (
        "ADD10C,0.0000011X0.0000005",
        "Ok((10, Pierced(Circle(11), Hole { diameter: 5 })))",
    ),
    (
        "ADD10R,0.0000011X0.000001X0.0000007",
        "Ok((10, Pierced(Rectangle(11, 10), Hole { diameter: 7 })))",
    ),
    ("ADD10C,0.0000011X0.0000011", "Err(Hole)"),
    ("ADD10R,0.000001X0.0000011X0.000001", "Err(Hole)"),
    ("ADD10C,0.0000011X0.000001X0.1", "Err(Hole)"),
    ("ADD10C,0.0000011X0.00000001", "Err(OffGrid)"),
    ("ADD10C,50.0000001X1", "Err(OutOfRange)"),
    ("ADD10R,60X60.0000001X50.0000001", "Err(OutOfRange)"),
    (
        "ADD10R,1000X1X0.0000001",
        "Ok((10, Pierced(Rectangle(10000000000, 10000000), Hole { diameter: 1 })))",
    ),
    ("ADD10R,0.0000001XxX0", "Err(BadText)"),
];

#[test]
fn holes_are_read(rt: HostRuntime) -> Result<(), Fail> {
    for (word, expected) in &HOLES {
        let read = read_real_aperture(word.as_bytes(), Unit::Mm);
        let found = format!(in rt.alloc(); "{read:?}")?;
        assert_eq!(rt; found.as_str(), *expected, "{word:?}");
    }
    Ok(())
}

// Words whose sizes are whole, but not all even.
static ODD_SIZES: [(&str, Unit, &str); 18] = [
    (
        "ADD10C,1.0000001",
        Unit::Mm,
        "Ok((10, Odd(Circle(10000001))))",
    ),
    (
        "ADD10C,49.99999990",
        Unit::Mm,
        "Ok((10, Odd(Circle(499999999))))",
    ),
    (
        "ADD010R,1X.0000003",
        Unit::Mm,
        "Ok((10, Odd(Rectangle(10000000, 3))))",
    ),
    (
        "ADD10O,0.6000001X1.4",
        Unit::Mm,
        "Ok((10, Odd(Obround(6000001, 14000000))))",
    ),
    (
        "ADD10O,999.9999999X50",
        Unit::Mm,
        "Ok((10, Odd(Obround(9999999999, 500000000))))",
    ),
    ("ADD10C,0.0000005", Unit::Inch, "Ok((10, Odd(Circle(127))))"),
    (
        "ADD10C,0.000001",
        Unit::Inch,
        "Ok((10, Exact(Circle(254))))",
    ),
    // No whole number of u.
    ("ADD10C,1.00000001", Unit::Mm, "Err(OffGrid)"),
    ("ADD10C,0.0000001", Unit::Inch, "Err(OffGrid)"),
    ("ADD10R,0.0000001X0.00000005", Unit::Mm, "Err(OffGrid)"),
    // For each parameter in turn.
    ("ADD10R,0.0000001Xx", Unit::Mm, "Err(BadText)"),
    ("ADD10R,0.0000001X0", Unit::Mm, "Err(OutOfRange)"),
    ("ADD10C,-0.0000001", Unit::Mm, "Err(OutOfRange)"),
    (
        "ADD10R,1000X0.0000001",
        Unit::Mm,
        "Ok((10, Odd(Rectangle(10000000000, 1))))",
    ),
    ("ADD10C,50.0000001", Unit::Mm, "Err(OutOfRange)"),
    ("ADD10O,60X50.0000001", Unit::Mm, "Err(OutOfRange)"),
    // Other names are none.
    ("ADD10P,0.0000001X3", Unit::Mm, "Err(Polygon)"),
    ("ADD10THERMAL,0.0000001", Unit::Mm, "Err(Macro)"),
];

#[test]
fn odd_sizes_are_read(rt: HostRuntime) -> Result<(), Fail> {
    for (word, unit, expected) in &ODD_SIZES {
        let read = read_real_aperture(word.as_bytes(), *unit);
        let found = format!(in rt.alloc(); "{read:?}")?;
        assert_eq!(rt; found.as_str(), *expected, "{word:?}");
    }
    Ok(())
}

// Words in mm and spots with the shape there.
static FLASHES: [(&str, i64, i64, &str); 12] = [
    // A circle with a hole is a draw once round it.
    (
        "ADD10C,1.0X0.5",
        7,
        -9,
        "(7 -9) 3750007 -9, 3750007 -9, 2500000",
    ),
    (
        "ADD10C,1.0X0.5",
        9_996_250_000,
        0,
        "(9996250000 0) 10000000000 0, 10000000000 0, 2500000",
    ),
    ("ADD10C,1.0X0.5", 9_996_250_001, 0, "OutOfRange"),
    // A rectangle with one is a region with a cut-in.
    (
        "ADD10R,4.0X1.0X0.5",
        7,
        -9,
        "from 2500007 -9, (7 -9) false 2500007 -9, 20000007 -9, 20000007 4999991, -19999993 4999991, -19999993 -5000009, 20000007 -5000009, 20000007 -9, 2500007 -9",
    ),
    ("ADD10R,0.8X0.8X0.5", 0, -9_996_000_001, "OutOfRange"),
    // Odd sizes, in half u.
    (
        "ADD10R,.0000003X.0000004",
        7,
        -9,
        "in halves from 11 -22 to 17 -14",
    ),
    ("ADD10C,0.0000003", 7, -9, "in halves 14 -18, 14 -18, 3"),
    (
        "ADD10C,0.0000001",
        10_000_000_000,
        0,
        "in halves 20000000000 0, 20000000000 0, 1",
    ),
    (
        "ADD10C,0.0000001",
        -10_000_000_000,
        0,
        "in halves -20000000000 0, -20000000000 0, 1",
    ),
    (
        "ADD10C,.0000007X.0000003",
        7,
        -9,
        "in halves 14 -18, 14 -18, 7 without 3 at 7 -9",
    ),
    (
        "ADD10R,.0000007X.0000006X.0000002",
        7,
        -9,
        "in halves from 7 -24 to 21 -12 without 2 at 7 -9",
    ),
    (
        "ADD10C,.0000007X.0000003",
        -9_999_999_997,
        0,
        "in halves -19999999994 0, -19999999994 0, 7 without 3 at -9999999997 0",
    ),
];

fn flashed(alloc: Global, word: &str, at: Spot) -> Result<String, AllocError> {
    let Ok((_, aperture)) = read_real_aperture(word.as_bytes(), Unit::Mm) else {
        return String::from_str(alloc, "no aperture");
    };
    if !is_placed(at) {
        return String::from_str(alloc, "no spot");
    }
    match flash(alloc, aperture, at) {
        Err(fault) => format!(in alloc; "{fault:?}"),
        Ok(None) => String::from_str(alloc, "none"),
        Ok(Some(figure)) => shape_text(alloc, &figure.shape),
    }
}

#[test]
fn real_apertures_flash(rt: HostRuntime) -> Result<(), Fail> {
    for (word, x, y, expected) in &FLASHES {
        let read = flashed(rt.alloc(), *word, Spot { x: *x, y: *y })?;
        assert_eq!(rt; read.as_str(), *expected, "{word:?}");
    }
    Ok(())
}
