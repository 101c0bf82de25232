// Words as they are read, and blocks as they are copied.
ghost use Rattle.std.specs.Prelude.{All};
ghost use Rattle.planar.specs.Plane.{IsPlaced};

use area_contact::Area;
use board_shapes::{Origin, Piece, Placed, Room, Shape};
use contact::Capsule;
use lengths::decimal::Unit;
use planar::Spot;
use std::alloc::{AllocError, Global};
use std::fmt::Write;
use std::test::Fail;
use step_repeat::Repeat;

/// Words with what they say.
static WORDS: [(&str, Unit, &str); 38] = [
    ("SR", Unit::Mm, "none"),
    ("SRX3Y2I1.0J1.5", Unit::Mm, "3 2 10000000 15000000"),
    ("SRX3Y2I1.0J1.5", Unit::Inch, "3 2 254000000 381000000"),
    ("SRX1Y1I0J0", Unit::Mm, "1 1 0 0"),
    (
        "SRX000000003Y020I+1J-1",
        Unit::Mm,
        "3 20 10000000 -10000000",
    ),
    (
        "SRX999999999Y999999999I1000J-1000",
        Unit::Mm,
        "999999999 999999999 10000000000 -10000000000",
    ),
    // Another form.
    ("", Unit::Mm, "BadText"),
    ("S", Unit::Mm, "BadText"),
    ("SR ", Unit::Mm, "BadText"),
    ("SRX", Unit::Mm, "BadText"),
    ("srX3Y2I1J1", Unit::Mm, "BadText"),
    ("SRY2X3I1J1", Unit::Mm, "BadText"),
    ("SRX3", Unit::Mm, "BadText"),
    ("SRX3Y2", Unit::Mm, "BadText"),
    ("SRX3Y2I1", Unit::Mm, "BadText"),
    ("SRX3Y2I1J", Unit::Mm, "BadText"),
    ("SRX3Y2IJ1", Unit::Mm, "BadText"),
    ("SRX3YI1J1", Unit::Mm, "BadText"),
    ("SRXY2I1J1", Unit::Mm, "BadText"),
    ("SRX0Y2I1J1", Unit::Mm, "BadText"),
    ("SRX3Y000000000I1J1", Unit::Mm, "BadText"),
    ("SRX0000000003Y2I1J1", Unit::Mm, "BadText"),
    ("SRX+3Y2I1J1", Unit::Mm, "BadText"),
    ("SRX3Y2.0I1J1", Unit::Mm, "BadText"),
    ("SRX3Y2J1I1", Unit::Mm, "BadText"),
    ("SRX3Y2I1J1 ", Unit::Mm, "BadText"),
    ("SRX3Y2I1J1J1", Unit::Mm, "BadText"),
    // The form comes before the steps, and the step across before the step up.
    ("SRX3Y2I0.00000001Jx", Unit::Mm, "BadText"),
    ("SRX3Y2I2000J", Unit::Mm, "BadText"),
    ("SRX3Y2I0.00000001J1", Unit::Mm, "OffGrid"),
    ("SRX3Y2I1J0.00000001", Unit::Mm, "OffGrid"),
    ("SRX3Y2I0.00000001J2000", Unit::Mm, "OffGrid"),
    ("SRX3Y2I2000J0.00000001", Unit::Mm, "OutOfRange"),
    ("SRX3Y2I1000.0000001J1", Unit::Mm, "OutOfRange"),
    ("SRX3Y2I1J-1000.0000001", Unit::Mm, "OutOfRange"),
    ("SRX3Y2I2000.00000001J1", Unit::Mm, "OffGrid"),
    ("SRX3Y2I39.37J1", Unit::Inch, "3 2 9999980000 254000000"),
    ("SRX3Y2I39.371J1", Unit::Inch, "OutOfRange"),
];

fn said(alloc: Global, word: &str, unit: Unit) -> Result<String, AllocError> {
    match Repeat::read(word.as_bytes(), unit) {
        Ok(None) => String::from_str(alloc, "none"),
        Ok(Some(r)) => format!(in alloc; "{} {} {} {}", r.across, r.up, r.dx, r.dy),
        Err(fault) => format!(in alloc; "{fault:?}"),
    }
}

#[test]
fn words_are_read(rt: HostRuntime) -> Result<(), Fail> {
    for (word, unit, expected) in &WORDS {
        let read = said(rt.alloc(), *word, *unit)?;
        assert_eq!(rt; read.as_str(), *expected, "{word:?}");
    }
    Ok(())
}

/// A block of so many discs and so many triangles, a word in mm, the room, and the copies: each
/// copy's number with its first end or corner in mm.
static BLOCKS: [(u8, u8, &str, u32, u32, &str); 16] = [
    (
        1,
        0,
        "SRX3Y2I1.0J1.0",
        6,
        0,
        "0 0,0; 1 0,1; 2 1,0; 3 1,1; 4 2,0; 5 2,1; ",
    ),
    (1, 0, "SRX3Y2I1.0J1.0", 5, 0, "TooManyPieces"),
    (
        1,
        0,
        "SRX2Y3I1.0J-2.0",
        6,
        0,
        "0 0,0; 1 0,-2; 2 0,-4; 3 1,0; 4 1,-2; 5 1,-4; ",
    ),
    (1, 1, "SRX1Y2I9J1.0", 4, 6, "0 0,0; 0 3,4; 1 0,1; 1 3,5; "),
    (1, 1, "SRX1Y2I9J1.0", 4, 5, "TooManyEdges"),
    (1, 1, "SRX1Y2I9J1.0", 3, 5, "TooManyPieces"),
    (0, 2, "SRX2Y1I1J1.0", 4, 12, "0 3,4; 0 3,4; 1 4,4; 1 4,4; "),
    (0, 2, "SRX2Y1I1J1.0", 4, 11, "TooManyEdges"),
    // An empty block has no copies, whatever the counts.
    (0, 0, "SRX999999999Y999999999I1000J1000", 0, 0, ""),
    (
        1,
        0,
        "SRX999999999Y999999999I1000J1000",
        4_294_967_295,
        0,
        "TooManyPieces",
    ),
    // The room comes before the range.
    (1, 0, "SRX2Y1I1000J0", 2, 0, "0 0,0; 1 1000,0; "),
    (1, 0, "SRX3Y1I1000J0", 3, 0, "OutOfRange"),
    (1, 0, "SRX3Y1I1000J0", 2, 0, "TooManyPieces"),
    (
        1,
        1,
        "SRX1Y2I0J-1000",
        4,
        6,
        "0 0,0; 0 3,4; 1 0,-1000; 1 3,-996; ",
    ),
    (1, 1, "SRX1Y2I0J1000", 4, 6, "OutOfRange"),
    (1, 0, "SRX999999999Y1I-1000J0", 999_999_999, 0, "OutOfRange"),
];

const HERE: Origin = Origin {
    file: 0,
    command: 5,
    copy: 0,
};

fn disc() -> Piece {
    let at = Spot { x: 0, y: 0 };
    Placed {
        shape: Shape::Round(Capsule::new(at, at, 5_000_000)),
        top: 1,
        bottom: 1,
        origin: HERE,
    }
}

/// The spot at so many millimetres.
fn spot(x: u8, y: u8) -> Spot
    ensures { IsPlaced result }
{
    Spot {
        x: i64::from(x) * 10_000_000,
        y: i64::from(y) * 10_000_000,
    }
}

fn triangle(alloc: Global) -> Result<Option<Piece>, AllocError> {
    let points = vec![in alloc; spot(3, 4), spot(5, 4), spot(5, 6), spot(3, 4)]?;
    match Area::new(alloc, points) {
        Err(_) => Ok(None),
        Ok(area) => Ok(Some(Placed {
            shape: Shape::Filled(area),
            top: 1,
            bottom: 1,
            origin: HERE,
        })),
    }
}

fn block(alloc: Global, discs: u8, triangles: u8) -> Result<Vec<Piece>, AllocError> {
    let mut pieces = Vec::new(alloc);
    for _ in 0..discs {
        pieces.push(disc())?;
    }
    for _ in 0..triangles {
        if let Some(piece) = triangle(alloc)? {
            pieces.push(piece)?;
        }
    }
    Ok(pieces)
}

/// The first end or corner.
fn first(shape: &Shape) -> Spot {
    match shape {
        Shape::Round(capsule) => capsule.parts().0,
        Shape::Filled(area) => area.corner(0),
    }
}

fn listed(alloc: Global, copies: &[Piece]) -> Result<String, AllocError> {
    let mut line = String::new(alloc);
    for piece in copies {
        let at = first(&piece.shape);
        write!(
            line,
            "{} {},{}; ",
            piece.origin.copy,
            at.x / 10_000_000,
            at.y / 10_000_000
        )?;
    }
    Ok(line)
}

fn copied(alloc: Global, pieces: &[Piece], word: &str, room: Room) -> Result<String, AllocError> {
    let Ok(read) = Repeat::read(word.as_bytes(), Unit::Mm) else {
        return String::from_str(alloc, "no word");
    };
    let Some(repeat) = read else {
        return String::from_str(alloc, "no parameters");
    };
    match repeat.copies(alloc, pieces, room) {
        Ok(copies) => listed(alloc, &copies),
        Err(fault) => format!(in alloc; "{fault:?}"),
    }
}

#[test]
fn blocks_are_copied(rt: HostRuntime) -> Result<(), Fail> {
    for (discs, triangles, word, pieces, edges, expected) in &BLOCKS {
        let block = block(rt.alloc(), *discs, *triangles)?;
        let room = Room {
            pieces: *pieces,
            edges: *edges,
        };
        let copies = copied(rt.alloc(), &block, *word, room)?;
        assert_eq!(rt; copies.as_str(), *expected, "{word:?}");
    }
    Ok(())
}
