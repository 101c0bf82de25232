// Drill files, and what they are read as.
use board_shapes::{Origin, Piece, Room, Shape};
use planar::Spot;
use std::alloc::Global;
use std::test::Fail;
use texts::MOST_BYTES;
use xnc::{DrillFault, DrillKind, Span, read_drill};

// Reads a file of layers 2 to 3 with the number 4, where two pieces may come.
fn read(alloc: Global, file: &[u8]) -> Result<Vec<Piece>, DrillFault> {
    if file.len() > MOST_BYTES {
        return Err(DrillFault::NoMemory);
    }
    let room = Room {
        pieces: 2,
        edges: 0,
    };
    read_drill(alloc, file, Span { from: 2, to: 3 }, 4, room)
}

fn fault_of(alloc: Global, file: &[u8]) -> Option<DrillFault> {
    match read(alloc, file) {
        Ok(_) => None,
        Err(fault) => Some(fault),
    }
}

// The ends and the radius of a barrel.
fn stroke_of(piece: &Piece) -> Option<(Spot, Spot, i64)> {
    match &piece.shape {
        Shape::Round(barrel) => Some(barrel.parts()),
        Shape::Filled(_) => None,
    }
}

#[test]
fn barrels(rt: HostRuntime) -> Result<(), Fail> {
    let alloc = rt.alloc();
    let buried = read(alloc, b"M48\nMETRIC\nT1C0.4\n%\nT1\nX0.0Y0.0\nM30\n")?;
    let origin = Origin {
        file: 4,
        command: 6,
        copy: 0,
    };
    let here = Spot { x: 0, y: 0 };
    assert_eq!(rt; buried.len(), 1);
    assert_eq!(rt; (buried[0].top, buried[0].bottom), (2, 3));
    assert_eq!(rt; buried[0].origin, origin);
    assert_eq!(rt; stroke_of(&buried[0]), Some((here, here, 2_000_000)));
    let routs = read(
        alloc,
        b"M48\nMETRIC\nT1C0.5\n%\nT1\nG00X0.0Y0.0\nM15\nG01X5.0Y0.0\nM16\nG05\nM30\n",
    )?;
    let there = Spot {
        x: 50_000_000,
        y: 0,
    };
    assert_eq!(rt; routs.len(), 1);
    assert_eq!(rt; routs[0].origin.command, 8);
    assert_eq!(rt; stroke_of(&routs[0]), Some((here, there, 2_500_000)));
    let slot = read(
        alloc,
        b"\tM48 \r\n ; x\r\nFMAT,2\r\nINCH,LZ\r\nT7C.02\r\n%\r\nG90\r\nT0007\r\nX1.Y-1.0\r\nX2.0G85Y-.5 \r\nT0\r\nM30",
    )?;
    let from = Spot {
        x: 508_000_000,
        y: -254_000_000,
    };
    let to = Spot {
        x: 508_000_000,
        y: -127_000_000,
    };
    assert_eq!(rt; slot.len(), 2);
    assert_eq!(rt; slot[1].origin.command, 10);
    assert_eq!(rt; stroke_of(&slot[1]), Some((from, to, 2_540_000)));
    Ok(())
}

static REFUSALS: [(&'static [u8], DrillKind, u32, usize); 39] = [
    (b"METRIC\nM48", DrillKind::NoHeader, 1, 0),
    (b"; x\n\nMETRIC", DrillKind::NoHeader, 3, 5),
    (b"M48\nFOO", DrillKind::BadLine, 2, 4),
    (b"M48\nMETRIC\nINCH,TZ", DrillKind::BadLine, 3, 11),
    (b"M48\nMETRIC\nT1C0.4F5", DrillKind::BadLine, 3, 11),
    (b"M48\nMETRIC\nT0C0.4", DrillKind::BadLine, 3, 11),
    (b"M48\n%\nT000", DrillKind::BadLine, 3, 6),
    (b"M48\n%\nG00", DrillKind::BadLine, 3, 6),
    (b"M48\n%\nG00Y1.0X1.0", DrillKind::BadLine, 3, 6),
    (b"M48\n%\nM30\r;", DrillKind::BadLine, 3, 6),
    (b"; #@! TF.FileFunction,Other,1,2", DrillKind::BadLine, 1, 0),
    (b"M48\nT1C0.4", DrillKind::MissingUnit, 2, 4),
    (b"M48\n%\nG00X1", DrillKind::MissingUnit, 3, 6),
    (b"M48\nMETRIC\n%\nT1", DrillKind::NoTool, 4, 13),
    (b"M48\nMETRIC\n%\nX0.0", DrillKind::NoTool, 4, 13),
    (
        b"M48\nMETRIC\nT1C0.4\n%\nT1\nT00\nG00X0.0\nM15",
        DrillKind::NoTool,
        8,
        35,
    ),
    (b"M48\nMETRIC\nT1C0.4\nT01C0.4", DrillKind::ToolTwice, 4, 18),
    (
        b"M48\nMETRIC\nT1C0.4\nT1C4",
        DrillKind::ImpliedDecimals,
        4,
        18,
    ),
    (
        b"M48\nMETRIC\nT1C0.5\n%\nT1\nX0Y0",
        DrillKind::ImpliedDecimals,
        6,
        23,
    ),
    (b"M48\nMETRIC\nT1C0.0000001", DrillKind::OffGrid, 3, 11),
    (
        b"M48\nMETRIC\n%\nG00X0.00000001Y1",
        DrillKind::OffGrid,
        4,
        13,
    ),
    (b"M48\nMETRIC\nT1C-0.0", DrillKind::OutOfRange, 3, 11),
    (b"M48\nMETRIC\nT1C-0.2", DrillKind::OutOfRange, 3, 11),
    (
        b"M48\nMETRIC\nT1C50.0\nT2C50.0000002",
        DrillKind::OutOfRange,
        4,
        19,
    ),
    (
        b"M48\nINCH\nT1C1.968503\nT2C1.968504",
        DrillKind::OutOfRange,
        4,
        21,
    ),
    (
        b"M48\nMETRIC\n%\nG00Y1000.0000001",
        DrillKind::OutOfRange,
        4,
        13,
    ),
    (
        b"M48\nMETRIC\nT1C0.5\n%\nT1\nG00X0.0Y0.0\nM15\nG02X5.0Y0.0A2.5",
        DrillKind::ArcRout,
        8,
        39,
    ),
    (b"M48\n%\nM16", DrillKind::WrongMode, 3, 6),
    (b"M48\n%\nG01X0.0", DrillKind::WrongMode, 3, 6),
    (
        b"M48\nMETRIC\nT1C0.4\n%\nT1\nG00X0.0\nX1.0",
        DrillKind::WrongMode,
        7,
        31,
    ),
    (
        b"M48\nMETRIC\nT1C0.4\n%\nT1\nG00X0.0\nM15\nM30",
        DrillKind::WrongMode,
        8,
        35,
    ),
    (
        b"M48\nMETRIC\nT1C0.4\n%\nT1\nG00X0.0\nM15\nT0",
        DrillKind::WrongMode,
        8,
        35,
    ),
    (
        b"M48\nMETRIC\n%\nM30\n; #@! TF.FileFunction,Plated,2,3,PTH\n; #@! TF.FileFunction,Plated,2",
        DrillKind::WrongSpan,
        6,
        54,
    ),
    (
        b"; #@! TF.FileFunction,NonPlated,2,3,NPTH",
        DrillKind::NotPlated,
        1,
        0,
    ),
    (
        b"; #@! TF.FileFunction,MixedPlating,2,3",
        DrillKind::MixedPlating,
        1,
        0,
    ),
    (b"", DrillKind::NotEnded, 1, 0),
    (b"M48\n%\n", DrillKind::NotEnded, 3, 6),
    (b"M48\n%\nM30\n; end\n\nG90", DrillKind::AfterEnd, 6, 17),
    (
        b"M48\nMETRIC\nT1C0.4\n%\nT1\nX0.0\nX1.0Y0.0G85Y1.0\nY2.0",
        DrillKind::TooManyPieces,
        8,
        44,
    ),
];

#[test]
fn refusals(rt: HostRuntime) {
    let alloc = rt.alloc();
    for row in &REFUSALS {
        let (file, kind, line, at) = *row;
        let refused = DrillFault::Refused { kind, line, at };
        assert_eq!(rt; fault_of(alloc, file), Some(refused));
    }
}
