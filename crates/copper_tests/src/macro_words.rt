// Body words as they are read, and what primitives flash.
use aperture_macros::{Copper, FigureFault, Primitive, Turning, read_body};
use board_shapes::Shape;
use lengths::decimal::{Decimal, Unit, read_decimal};
use planar::{Spot, is_placed};
use std::alloc::{AllocError, Global};
use std::fmt::Write;
use std::test::Fail;

// A body word, and what it is.
type Word = (&'static str, &'static str);

// Comments, and each form.
static FORMS: [Word; 15] = [
    // Comments.
    ("0 Rounded rectangle", "comment"),
    ("0", "comment"),
    ("01,1,1,0,0", "comment"),
    // Each form.
    ("1,1,$1,0,0", "Circle Unturned"),
    ("1,1,$1+$1,$2,$3,90", "Circle Quarter"),
    ("1,+1.0,1,-0.5,.5,0.0", "Circle Unturned"),
    ("20,1,$1+$1,$2,$3,$4,$5,0", "VectorLine Unturned"),
    ("20,1,0.1,0,0,1,0,180", "VectorLine Half"),
    ("21,1,$1,$1-$2,0,0,270.0", "CentreLine ThreeQuarters"),
    ("21,1,$1+$1,$1,0,1.0,0", "CentreLine Unturned"),
    ("4,1,4,$1,$2,-$1,$2,-$1,-$2,$1,-$2,$1,$2,$3", "BadMacro"),
    (
        "4,1,4,$1,$2,-$1,$2,-$1,-$2,$1,-$2,$1,$2,0",
        "Outline(4) Unturned",
    ),
    ("4,1,3,0,0,1,0,1,1,0,0,90", "Outline(3) Quarter"),
    ("4,1,+3.0,0,0,1,0,1,1,0,0,90", "Outline(3) Quarter"),
    ("4,1,3,0,0,1,0,1,1,5,5,0", "Outline(3) Unturned"),
];

// Words with too many parts, or too few.
static PARTS: [Word; 13] = [
    ("", "BadMacro"),
    ("1", "BadMacro"),
    ("1,1,1,0", "BadMacro"),
    ("1,1,1,0,0,0,0", "BadMacro"),
    ("20,1,0.1,0,0,1,0", "BadMacro"),
    ("20,1,0.1,0,0,1,0,0,0", "BadMacro"),
    ("21,1,1,1,0,0", "BadMacro"),
    ("21,1,1,1,0,0,0,0", "BadMacro"),
    ("4,1,3,0,0,1,0,1,1,0,0", "BadMacro"),
    ("4,1,4,0,0,1,0,1,1,0,0,90", "BadMacro"),
    ("4,1,2,0,0,1,0,0,0,90", "BadMacro"),
    ("4,1,-3,0,0,1,0,1,1,0,0,90", "BadMacro"),
    ("4,1,$1,0,0,1,0,1,1,0,0,90", "BadMacro"),
];

// Other primitives, variables, and other ways to write.
static SPELLINGS: [Word; 16] = [
    ("5,1,8,0,0,1,0", "BadMacro"),
    ("7,0,0,1,0.5,0.1,0", "BadMacro"),
    ("2,1,0.1,0,0,1,0,0", "BadMacro"),
    ("22,1,1,1,0,0,0", "BadMacro"),
    ("$4=$1x0.5", "BadMacro"),
    ("+1,1,1,0,0", "BadMacro"),
    (" 1,1,1,0,0", "BadMacro"),
    ("1.0,1,1,0,0", "BadMacro"),
    ("1,1,$1x2,0,0", "BadMacro"),
    ("1,1,1/2,0,0", "BadMacro"),
    ("1,1,(1),0,0", "BadMacro"),
    ("1,1,,0,0", "BadMacro"),
    ("1,1,1+,0,0", "BadMacro"),
    ("1,1,--1,0,0", "BadMacro"),
    ("1,1,1+-1,0,0", "BadMacro"),
    ("1,1,1.2.3,0,0", "BadMacro"),
];

// Parameters from 1 to 999, and faults that stand together.
static ORDERS: [Word; 18] = [
    // Parameters from 1 to 999, by value and with 1 to 3 digits.
    ("1,1,$001,0,0", "Circle Unturned"),
    ("1,1,-$999,0,0", "Circle Unturned"),
    ("1,1,$0,0,0", "BadMacro"),
    ("1,1,$000,0,0", "BadMacro"),
    ("1,1,$0001,0,0", "BadMacro"),
    ("1,1,$,0,0", "BadMacro"),
    ("1,1,$a,0,0", "BadMacro"),
    ("1,1,$-1,0,0", "BadMacro"),
    // The form comes before the exposure, the exposure before the turn.
    ("1,0,1,0,0", "ExposureOff"),
    ("1,2,1,0,0", "ExposureOff"),
    ("1,-1,1,0,0", "ExposureOff"),
    ("1,$1,1,0,0", "BadMacro"),
    ("1,0,x,0,0", "BadMacro"),
    ("1,0,1,0,0,45", "ExposureOff"),
    ("1,1,1,0,0,45", "Turn"),
    ("20,1,1,0,0,0,1,-90", "Turn"),
    ("21,1,1,1,0,0,360", "Turn"),
    ("21,0,1,1,0,0,$1", "BadMacro"),
];

// Of real copper: a rotation is an expression, and each that is written a turn by degrees.
static DEGREES: [Word; 26] = [
    ("1,1,$1,0,0", "Circle Degrees"),
    ("1,1,$1,0,0,$2", "Circle Degrees"),
    ("21,1,$1,$2,0,0,$3", "CentreLine Degrees"),
    (
        "4,1,4,$1,$2,$3,$4,$5,$6,$7,$8,$1,$2,$9",
        "Outline(4) Degrees",
    ),
    ("20,1,1,0,0,0,1,-90", "VectorLine Degrees"),
    ("21,1,1,1,0,0,45-$1", "CentreLine Degrees"),
    ("21,1,1,1,0,0,45x2", "BadMacro"),
    ("21,1,1,1,0,0,", "BadMacro"),
    ("5,1,8,0,0,$1,22.5", "Polygon(8) Degrees"),
    ("5,1,12.0,$1,$2,$3,0", "Polygon(12) Degrees"),
    ("5,1,3,0,0,1,0", "Polygon(3) Degrees"),
    ("5,1,2,0,0,1,0", "BadMacro"),
    ("5,1,13,0,0,1,0", "BadMacro"),
    // The diameter of a polygon alone may be a product, of two factors without signs.
    ("5,1,8,0,0,1.08239X$1,22.5", "Polygon(8) Degrees"),
    ("5,1,8,0,0,1.08239x$1,22.5", "Polygon(8) Degrees"),
    ("5,1,8,0,0,$1x$2,22.5", "Polygon(8) Degrees"),
    ("5,1,8,0,0,$1X1.08239,22.5", "Polygon(8) Degrees"),
    ("5,1,8,0,0,-1.08239X$1,22.5", "BadMacro"),
    ("5,1,8,0,0,1.08239X-$1,22.5", "BadMacro"),
    ("5,1,8,0,0,1.08239X$1X2,22.5", "BadMacro"),
    ("5,1,8,0,0,1.08239X,22.5", "BadMacro"),
    ("5,1,8,0,0,X$1,22.5", "BadMacro"),
    ("5,1,8,$1X1,0,$1,22.5", "BadMacro"),
    ("1,1,1.08239X$1,0,0", "BadMacro"),
    ("21,0,1,1,0,0,45x2", "BadMacro"),
    ("21,0,1,1,0,0,$1", "ExposureOff"),
];

fn named(alloc: Global, copper: Copper, word: &str) -> Result<String, AllocError> {
    match read_body(copper, word.as_bytes()) {
        Err(fault) => format!(in alloc; "{fault:?}"),
        Ok(None) => String::from_str(alloc, "comment"),
        Ok(Some(primitive)) => match primitive.rotation {
            Turning::Quarters(rotation) => {
                format!(in alloc; "{:?} {:?}", primitive.form, rotation)
            },
            Turning::Degrees => format!(in alloc; "{:?} Degrees", primitive.form),
        },
    }
}

// Whether each word is what its row says.
fn all_read(alloc: Global, copper: Copper, rows: &[Word]) -> Result<bool, AllocError> {
    for (word, expected) in rows {
        let read = named(alloc, copper, *word)?;
        if read.as_str() != *expected {
            return Ok(false);
        }
    }
    Ok(true)
}

#[test]
fn body_words_are_read(rt: HostRuntime) -> Result<(), Fail> {
    assert!(rt; all_read(rt.alloc(), Copper::Exact, &FORMS)?);
    assert!(rt; all_read(rt.alloc(), Copper::Exact, &PARTS)?);
    assert!(rt; all_read(rt.alloc(), Copper::Exact, &SPELLINGS)?);
    assert!(rt; all_read(rt.alloc(), Copper::Exact, &ORDERS)?);
    assert!(rt; all_read(rt.alloc(), Copper::Real, &DEGREES)?);
    Ok(())
}

// Body words with parameters in mm, a spot, and the shape there: a disc by its centre and its radius,
// an area by its corners, in u.
type Flash = (&'static str, &'static str, i64, i64, &'static str);

// Discs.
static CIRCLES: [Flash; 21] = [
    // Circles.
    ("1,1,$1,0,0", "1.0", 0, 0, "0 0, 5000000"),
    (
        "1,1,$1+$1,$2,$3",
        "0.25X0.1X-0.2",
        10,
        20,
        "1000010 -1999980, 2500000",
    ),
    ("1,1,1.0,1.0,0,90", "", 0, 0, "0 10000000, 5000000"),
    (
        "1,1,1.0,1.0,0.5,180",
        "",
        0,
        0,
        "-10000000 -5000000, 5000000",
    ),
    (
        "1,1,1.0,1.0,0.5,270",
        "",
        0,
        0,
        "5000000 -10000000, 5000000",
    ),
    ("1,1,0,1.0,0", "", 0, 0, "none"),
    ("1,1,$4,1.0,0", "1", 0, 0, "none"),
    ("1,1,50,0,0", "", 0, 0, "0 0, 250000000"),
    ("1,1,50.0000002,0,0", "", 0, 0, "OutOfRange"),
    ("1,1,0.0000001,0,0", "", 0, 0, "OffGrid"),
    ("1,1,-0.0000001,0,0", "", 0, 0, "OffGrid"),
    ("1,1,-1,0,0", "", 0, 0, "OutOfRange"),
    ("1,1,0.00000001,0,0", "", 0, 0, "OffGrid"),
    ("1,1,$2-$1,0,0", "0.5X1.5", 0, 0, "0 0, 5000000"),
    ("1,1,-$1+$002,0,0", "0.5X1.5", 0, 0, "0 0, 5000000"),
    // A length is judged by its terms, then whole; the lengths in the order written.
    ("1,1,1,1001-1001,0", "", 0, 0, "OutOfRange"),
    ("1,1,1,1000+1000-1000,0", "", 0, 0, "10000000000 0, 5000000"),
    ("1,1,1,600+600,0", "", 0, 0, "OutOfRange"),
    ("1,1,1,0.00000001+1001,0", "", 0, 0, "OffGrid"),
    ("1,1,1,1001,0.00000001", "", 0, 0, "OutOfRange"),
    ("1,1,1,1000,0", "", 1, 0, "OutOfRange"),
];

// Centre lines and vector lines.
static LINES: [Flash; 16] = [
    // Centre lines.
    (
        "21,1,$1+$1,$1,0,1.0,0",
        "1.0",
        0,
        0,
        "[-10000000 5000000][10000000 5000000][10000000 15000000][-10000000 15000000]",
    ),
    (
        "21,1,2,1,0.5,0,90",
        "",
        0,
        0,
        "[5000000 -5000000][5000000 15000000][-5000000 15000000][-5000000 -5000000]",
    ),
    (
        "21,1,2,1,0.5,0,180",
        "",
        7,
        9,
        "[5000007 5000009][-14999993 5000009][-14999993 -4999991][5000007 -4999991]",
    ),
    ("21,1,0,1,0,0,0", "", 0, 0, "none"),
    ("21,1,1,0,0,0,0", "", 0, 0, "none"),
    ("21,1,1,-1,0,0,0", "", 0, 0, "OutOfRange"),
    ("21,1,1,0.0000001,0,0,0", "", 0, 0, "OffGrid"),
    ("21,1,2,1,999.5,0,0", "", 0, 0, "OutOfRange"),
    // Vector lines: flat ends, the first point where it likes.
    (
        "20,1,$1+$1,$2,$3,$4,$5,0",
        "0.5X1X0X-1X0",
        0,
        0,
        "[-10000000 -5000000][10000000 -5000000][10000000 5000000][-10000000 5000000]",
    ),
    (
        "20,1,1.0,0.5,-1,0.5,2,0",
        "",
        0,
        0,
        "[0 -10000000][10000000 -10000000][10000000 20000000][0 20000000]",
    ),
    (
        "20,1,1.0,0.5,-1,0.5,2,270",
        "",
        0,
        0,
        "[-10000000 0][-10000000 -10000000][20000000 -10000000][20000000 0]",
    ),
    ("20,1,1.0,0.5,2,0.5,2,0", "", 0, 0, "none"),
    ("20,1,0,0,0,0,2,0", "", 0, 0, "none"),
    ("20,1,0.2,0,0,1.0,1.0,0", "", 0, 0, "Slanted"),
    ("20,1,0,0,0,1.0,1.0,90", "", 0, 0, "Slanted"),
    ("20,1,0.2,0,0,1.0,1001,0", "", 0, 0, "OutOfRange"),
];

// Outlines, and pads as layout tools write them.
static OUTLINES: [Flash; 16] = [
    // Outlines.
    (
        "4,1,4,$1,$2,-$1,$2,-$1,-$2,$1,-$2,$1,$2,0",
        "1X0.5",
        1,
        2,
        "[10000001 5000002][-9999999 5000002][-9999999 -4999998][10000001 -4999998]",
    ),
    (
        "4,1,3,0,0,$1+$2,0,0,$2,0,0,90",
        "0.5X0.5",
        0,
        0,
        "[0 0][0 10000000][-5000000 0]",
    ),
    ("4,1,3,0,0,1,0,1,1,0,$1,0", "1", 0, 0, "BadMacro"),
    ("4,1,3,0,0,1,0,1,1,1,0,0", "", 0, 0, "BadMacro"),
    ("4,1,3,0,0,1,0,1,1001,1,0,0", "", 0, 0, "OutOfRange"),
    ("4,1,3,0,0,999,0,0,1,0,0,0", "", 10_000_001, 0, "OutOfRange"),
    // As layout tools write them: the rounded rectangle as an outline, circles and lines; the oval; a
    // chamfered and a rounded outline with sums, each also by quarter turns.
    (
        "4,1,4,$2,$3,$4,$5,$6,$7,$8,$9,$2,$3,0",
        "0.25X-0.5X0.5X-0.5X-0.5X0.5X-0.5X0.5X0.5",
        0,
        0,
        "[-5000000 5000000][-5000000 -5000000][5000000 -5000000][5000000 5000000]",
    ),
    (
        "1,1,$1+$1,$8,$9",
        "0.25X-0.5X0.5X-0.5X-0.5X0.5X-0.5X0.5X0.5",
        0,
        0,
        "5000000 5000000, 2500000",
    ),
    (
        "20,1,$1+$1,$2,$3,$4,$5,0",
        "0.25X-0.5X0.5X-0.5X-0.5X0.5X-0.5X0.5X0.5",
        0,
        0,
        "[-7500000 -5000000][-2500000 -5000000][-2500000 5000000][-7500000 5000000]",
    ),
    (
        "20,1,$1+$1,$4,$5,$6,$7,90",
        "0.25X-0.5X0.5X-0.5X-0.5X0.5X-0.5X0.5X0.5",
        0,
        0,
        "[7500000 -5000000][7500000 5000000][2500000 5000000][2500000 -5000000]",
    ),
    (
        "20,1,$1,$2,$3,$4,$5,0",
        "1X-0.3X0X0.3X0",
        0,
        0,
        "[-3000000 -5000000][3000000 -5000000][3000000 5000000][-3000000 5000000]",
    ),
    ("1,1,$1,$4,$5", "1X-0.3X0X0.3X0", 0, 0, "3000000 0, 5000000"),
    (
        "4,1,5,$1,$2+$3,-$1,$2+$3,-$1,-$2-$3,$1-$3,-$2-$3,$1,-$2,$1,$2+$3,0",
        "1X0.5X0.25",
        0,
        0,
        "[10000000 7500000][-10000000 7500000][-10000000 -7500000][7500000 -7500000][10000000 -5000000]",
    ),
    (
        "4,1,5,$1,$2+$3,-$1,$2+$3,-$1,-$2-$3,$1-$3,-$2-$3,$1,-$2,$1,$2+$3,180",
        "1X0.5X0.25",
        0,
        0,
        "[-10000000 -7500000][10000000 -7500000][10000000 7500000][-7500000 7500000][-10000000 5000000]",
    ),
    (
        "4,1,5,$1,$2+$3,-$1,$2+$3,-$1,-$2-$3,$1-$3,-$2-$3,$1,-$2,$1,$2+$3,45",
        "1X0.5X0.25",
        0,
        0,
        "Turn",
    ),
    (
        "20,1,$1,$2,$3,$4,$5,0",
        "0.5X-0.3X-0.3X0.3X0.3",
        0,
        0,
        "Slanted",
    ),
];

fn shown(alloc: Global, shape: &Shape) -> Result<String, AllocError> {
    let mut line = String::new(alloc);
    match shape {
        Shape::Round(capsule) => {
            let (a, _, r) = capsule.parts();
            write!(line, "{} {}, {r}", a.x, a.y)?;
        },
        Shape::Filled(area) => for i in 0..area.edges() {
            let corner = area.corner(i);
            write!(line, "[{} {}]", corner.x, corner.y)?;
        },
    }
    Ok(line)
}

/// The parameters that a text has, cut at `X`; none for no text.
pub fn parameters(alloc: Global, text: &str) -> Result<Vec<Decimal>, AllocError> {
    let mut found = Vec::new(alloc);
    for part in text.as_bytes().split(|b| *b == b'X') {
        if let Some(decimal) = read_decimal(part) {
            found.push(decimal)?;
        }
    }
    Ok(found)
}

fn flashed(alloc: Global, word: &str, text: &str, at: Spot) -> Result<String, AllocError> {
    let given = parameters(alloc, text)?;
    let primitive = match read_body(Copper::Exact, word.as_bytes()) {
        Err(fault) => return format!(in alloc; "{fault:?}"),
        Ok(None) => return String::from_str(alloc, "comment"),
        Ok(Some(primitive)) => primitive,
    };
    if !is_placed(at) {
        return String::from_str(alloc, "no spot");
    }
    let image = match primitive.has_image(Copper::Exact, &given, Unit::Mm) {
        Err(fault) => return format!(in alloc; "{fault:?}"),
        Ok(image) => image,
    };
    match primitive.figure(alloc, &given, Unit::Mm, at) {
        Err(FigureFault::NoMemory) => String::from_str(alloc, "NoMemory"),
        Err(FigureFault::Macro(fault)) => format!(in alloc; "{fault:?}"),
        Ok(None) => String::from_str(alloc, if image { "an image" } else { "none" }),
        Ok(Some(shape)) => if image {
            shown(alloc, &shape)
        } else {
            String::from_str(alloc, "no image")
        },
    }
}

// Whether each primitive flashes as its row says.
fn all_flash(alloc: Global, rows: &[Flash]) -> Result<bool, AllocError> {
    for (word, text, x, y, expected) in rows {
        let flash = flashed(alloc, *word, *text, Spot { x: *x, y: *y })?;
        if flash.as_str() != *expected {
            return Ok(false);
        }
    }
    Ok(true)
}

#[test]
fn primitives_flash(rt: HostRuntime) -> Result<(), Fail> {
    assert!(rt; all_flash(rt.alloc(), &CIRCLES)?);
    assert!(rt; all_flash(rt.alloc(), &LINES)?);
    assert!(rt; all_flash(rt.alloc(), &OUTLINES)?);
    Ok(())
}
