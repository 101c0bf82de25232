// Drill files as tools write them, and what they are read as.
use crate::read_forms;
use board_shapes::{Piece, Room, Shape};
use std::alloc::Global;
use std::test::Fail;
use texts::MOST_BYTES;
use xnc::{DrillFault, DrillKind, Span};

fn read(alloc: Global, file: &[u8]) -> Result<Vec<Piece>, DrillFault> {
    if file.len() > MOST_BYTES {
        return Err(DrillFault::NoMemory);
    }
    let room = Room {
        pieces: 9,
        edges: 0,
    };
    read_forms(alloc, file, Span { from: 1, to: 2 }, 4, room)
}

// How many barrels, the line, the first end and the radius of the last; or the kind and the line of the fault.
fn said(alloc: Global, file: &[u8]) -> (usize, u32, i64, i64, i64) {
    match read(alloc, file) {
        Ok(pieces) => match pieces.last() {
            None => (0, 0, 0, 0, 0),
            Some(piece) => match &piece.shape {
                Shape::Round(barrel) => {
                    let (a, _, r) = barrel.parts();
                    (pieces.len(), piece.origin.command, a.x, a.y, r)
                },
                Shape::Filled(_) => (99, 0, 0, 0, 0),
            },
        },
        Err(DrillFault::Refused { kind, line, at: _ }) => (100 + kind as usize, line, 0, 0, 0),
        Err(DrillFault::NoMemory) => (200, 0, 0, 0, 0),
    }
}

/// A file, and what it is read as.
struct Row {
    file: &'static [u8],
    said: (usize, u32, i64, i64, i64),
}

static ROWS: [Row; 30] = [
    // kicad-cli, one file of plated and unplated tools; a place that goes on from an unplated hole
    Row {
        file: b"M48\n; #@! TF.FileFunction,MixedPlating,1,2\nFMAT,2\nMETRIC\n; #@! TA.AperFunction,Plated,PTH,ViaDrill\nT1C0.400\n; #@! TA.AperFunction,NonPlated,NPTH,ComponentDrill\nT2C3.200\n%\nG90\nG05\nT1\nX1.0Y2.0\nT2\nX3.0Y4.0\nX5.0\nT1\nX7.0\nM30\n",
        said: (2, 18, 70_000_000, 40_000_000, 2_000_000),
    },
    // a tool of a mixed file of which nothing is said
    Row {
        file: b"M48\n; #@! TF.FileFunction,MixedPlating,1,2\nMETRIC\nT1C0.400\n%\nM30\n",
        said: (113, 4, 0, 0, 0),
    },
    // an attribute is of the next tool alone
    Row {
        file: b"M48\n; #@! TF.FileFunction,MixedPlating,1,2\nMETRIC\n; #@! TA.AperFunction,Plated,PTH\nT1C0.4\nT2C0.5\n%\nM30\n",
        said: (113, 6, 0, 0, 0),
    },
    // and ends with `TD`
    Row {
        file: b"M48\n; #@! TF.FileFunction,MixedPlating,1,2\nMETRIC\n; #@! TA.AperFunction,Plated,PTH\n; #@! TD\nT1C0.4\n%\nM30\n",
        said: (113, 6, 0, 0, 0),
    },
    // an unplated tool of a plated file
    Row {
        file: b"M48\n; #@! TF.FileFunction,Plated,1,2,PTH\nMETRIC\n; #@! TA.AperFunction,NonPlated,NPTH\nT1C0.400\n%\nM30\n",
        said: (113, 5, 0, 0, 0),
    },
    // the same without a function: one tool is told, an earlier one not
    Row {
        file: b"M48\nMETRIC\nT1C0.4\n;TYPE=NON_PLATED\nT2C0.5\n%\nM30\n",
        said: (113, 5, 0, 0, 0),
    },
    // unplated holes in the body
    Row {
        file: b"M48\nMETRIC\nT1C0.4\n%\n;TYPE=NON_PLATED\nT1\nX0.0Y0.0\nM30\n",
        said: (113, 5, 0, 0, 0),
    },
    // a mixed file of another span
    Row {
        file: b"M48\n; #@! TF.FileFunction,MixedPlating,1,4\nMETRIC\n%\nM30\n",
        said: (111, 2, 0, 0, 0),
    },
    // LibrePCB: `M71` in the body
    Row {
        file: b"M48\n; #@! TF.FileFunction,Plated,1,2,PTH\nFMAT,2\nMETRIC,TZ\n; #@! TA.AperFunction,ViaDrill\nT1C0.3\n%\nG90\nG05\nM71\nT1\nX3.0Y4.5\nT0\nM30\n",
        said: (1, 12, 30_000_000, 45_000_000, 1_500_000),
    },
    // a unit in the body that is another
    Row {
        file: b"M48\nMETRIC,TZ\nT1C0.3\n%\nM72\nM30\n",
        said: (102, 5, 0, 0, 0),
    },
    // a unit in the header by `M72`
    Row {
        file: b"M48\nM72\nT1C0.02\n%\nT1\nX1.0Y0.0\nM30\n",
        said: (1, 6, 254_000_000, 0, 2_540_000),
    },
    // Altium: layout, types, feeds, numbers without their last zeros; an unplated slot makes nothing
    Row {
        file: b"M48\n;FILE_FORMAT=4:4\nMETRIC,LZ\n;TYPE=PLATED\nT1F00S00C0.3000\n;TYPE=NON_PLATED\nT2F00S00C1.0\n%\nT01\nX00125Y0001\nT02\nX0Y0G85X0100Y0\nM30\n",
        said: (1, 10, 125_000_000, 10_000_000, 1_500_000),
    },
    // in inches: 2 digits before the point, 5 behind it
    Row {
        file: b"M48\n;FILE_FORMAT=2:5\nINCH,LZ\nT1C0.02\n%\nT1\nX01Y0025\nM30\n",
        said: (1, 7, 254_000_000, 63_500_000, 2_540_000),
    },
    // fewer digits than stand before the point, where the last zeros are left out
    Row {
        file: b"M48\n;FILE_FORMAT=2:5\nINCH,LZ\nT1C0.02\n%\nT1\nX1Y0025\nM30\n",
        said: (106, 7, 0, 0, 0),
    },
    // Eagle: layout behind the unit, numbers without their first zeros
    Row {
        file: b"M48\nICI,OFF\nMETRIC,TZ,000.000\nT1C0.3\n%\nG90\nM71\nT1\nX12500Y-500\nM30\n",
        said: (1, 9, 125_000_000, -5_000_000, 1_500_000),
    },
    // KiCad's comment on the digits; a slot and a rout
    Row {
        file: b"M48\n; FORMAT={3:3/ absolute / metric / suppress leading zeros}\nMETRIC,TZ\nT1C0.3\n%\nT1\nX1000Y2000G85X3000Y2000\nG00X0Y0\nM15\nG01X4000\nM16\nM30\n",
        said: (2, 10, 0, 0, 1_500_000),
    },
    // all 18 digits, and one more
    Row {
        file: b"M48\nMETRIC,TZ,000000000.000000000\nT1C0.3\n%\nT1\nX000000012500000000Y-12500000000\nM30\n",
        said: (1, 6, 125_000_000, -125_000_000, 1_500_000),
    },
    Row {
        file: b"M48\nMETRIC,TZ,000.000\nT1C0.3\n%\nT1\nX1250000\nM30\n",
        said: (106, 6, 0, 0, 0),
    },
    // a number without a point where the file does not say what it is
    Row {
        file: b"M48\nMETRIC,TZ\nT1C0.3\n%\nT1\nX12500Y-500\nM30\n",
        said: (106, 6, 0, 0, 0),
    },
    Row {
        file: b"M48\n;FILE_FORMAT=4:4\nMETRIC\nT1C0.3\n%\nT1\nX12500Y-500\nM30\n",
        said: (106, 7, 0, 0, 0),
    },
    // and where it says it in two ways
    Row {
        file: b"M48\n;FILE_FORMAT=4:4\nMETRIC,TZ,000.000\nT1C0.3\n%\nT1\nX12500Y-500\nM30\n",
        said: (106, 7, 0, 0, 0),
    },
    Row {
        file: b"M48\nMETRIC,LZ,000.000\nMETRIC,TZ\nT1C0.3\n%\nT1\nX12500Y-500\nM30\n",
        said: (106, 7, 0, 0, 0),
    },
    // numbers with points need no such word
    Row {
        file: b"M48\n;FILE_FORMAT=4:4\nMETRIC,TZ,000.000\nT1C0.3\n%\nT1\nX1.25\nM30\n",
        said: (1, 7, 12_500_000, 0, 1_500_000),
    },
    // pcb-rnd; `M95`, `M17`, feeds
    Row {
        file: b"M48\nMETRIC,000.000\nT5C1.000000F200S65\nM95\nT5\nG05\nX12.500Y7.250\nG00X0.0Y0.0\nM15\nG01X1.0\nM17\nF200\nM17\nM30\n",
        said: (2, 10, 0, 0, 5_000_000),
    },
    // two diameters of a tool, and none
    Row {
        file: b"M48\nMETRIC\nT1C1.0F2C2.0\n%\nM30\n",
        said: (102, 3, 0, 0, 0),
    },
    // `%` around the file, words on how the machine runs
    Row {
        file: b"%\nM48\nVER,1\nG40\nATC,ON\nDETECT,OFF\nG05\nMETRIC\nT1C1.0\n%\nFMAT,2\nS40\nT1\nX1.0Y1.0\nM30\n%\n",
        said: (1, 14, 10_000_000, 10_000_000, 5_000_000),
    },
    // repeats, patterns, steps from place to place, the end by `M00` stay refused
    Row {
        file: b"M48\nMETRIC\nT1C1.0\n%\nT1\nX1.0Y1.0\nR3X1.0\nM30\n",
        said: (102, 7, 0, 0, 0),
    },
    Row {
        file: b"M48\nMETRIC\nICI,ON\nM30\n",
        said: (102, 3, 0, 0, 0),
    },
    Row {
        file: b"M48\nMETRIC\nT1C1.0\n%\nG91\nM30\n",
        said: (102, 5, 0, 0, 0),
    },
    Row {
        file: b"M48\nMETRIC\n%\nM00\n",
        said: (102, 4, 0, 0, 0),
    },
];

#[test]
fn forms(rt: HostRuntime) -> Result<(), Fail> {
    for row in ROWS.iter() {
        assert_eq!(rt; said(rt.alloc(), row.file), row.said);
    }
    Ok(())
}
