// The command `check`: boards of one layer, and reports of version 2.
use crate::tests::{A_AT_0, APART, ENDS, Row, TIE, answers, one_layer, wants};
use std::test::Fail;

/// A plate with a hole by a cut-in, a disc on it, and a disc in the hole.
pub const PLATE: &[&str] = &[
    "G36*",
    "X0Y0D02*",
    "X10000000Y0D01*",
    "X10000000Y10000000D01*",
    "X0Y10000000D01*",
    "X0Y5000000D01*",
    "X3000000Y5000000D01*",
    "X3000000Y7000000D01*",
    "X7000000Y7000000D01*",
    "X7000000Y3000000D01*",
    "X3000000Y3000000D01*",
    "X3000000Y5000000D01*",
    "X0Y5000000D01*",
    "X0Y0D01*",
    "G37*",
    "%ADD10C,1.0*%",
    "D10*",
    "X1500000Y8000000D03*",
    "X5000000Y5000000D03*",
];

/// Discs in the far corners of a frame, which they fill.
pub const CORNERS: &[&str] = &[
    "%ADD10C,1.0*%",
    "D10*",
    "X500000Y500000D03*",
    "X999500000Y999500000D03*",
];

/// A short of three names, and what `check` prints of it.
pub const SHORTED: &[&str] = &[
    "%ADD10C,1.0*%",
    "D10*",
    "X0Y0D03*",
    "X1000000Y0D03*",
    "X2000000Y0D03*",
    "X1000000Y1000000D03*",
    "X2000000Y1000000D03*",
];

pub const THREE: &[&str] = &[
    A_AT_0,
    "327B                                  A01X+002000Y+000000",
    "327C                                  A01X+002000Y+001000",
];

pub const SHORT_REPORT: &[u8] =
    b"boardnet 1\npieces 5\nnets 1\nnet 0 0 1:0 2:1 3:1 4:2\nnames 3\nname 0 A\nname 1 B\nname 2 C\npoints 3\npoint 0 1 1 0 0\npoint 1 2 1 1 0\npoint 2 3 1 2 0\nopens 0\nshorts 1\nshort 0 3\nbranch 0 0 0\nbranch 1 1 2 1 0\nbranch 2 2 4 2\nmissing 0\ndiffers\n";

static BOARDS: [Row; 24] = [
    // the tie
    (
        TIE,
        ENDS,
        0,
        b"boardnet: agrees\n",
        b"boardnet 1\npieces 2\nnets 1\nnet 0 0 1:0\nnames 1\nname 0 A\npoints 2\npoint 0 1 1 0 0\npoint 1 2 1 0 0\nopens 0\nshorts 0\nmissing 0\nagrees\n",
    ),
    // apart by one nanometre
    (
        APART,
        ENDS,
        1,
        b"boardnet: differs, opens 1, shorts 0, missing 0\n",
        b"boardnet 1\npieces 2\nnets 2\nnet 0 0\nnet 1 1\nnames 1\nname 0 A\npoints 2\npoint 0 1 1 0 0\npoint 1 2 1 0 1\nopens 1\nopen 0 0 1 1\nshorts 0\nmissing 0\ndiffers\n",
    ),
    // a slanting tangent
    (
        &[
            "%ADD10C,10.0*%",
            "%ADD11C,20.0*%",
            "D10*",
            "X0Y0D03*",
            "D11*",
            "X9000000Y12000000D03*",
        ],
        &[
            A_AT_0,
            "327A                                  A01X+009000Y+012000",
        ],
        0,
        b"boardnet: agrees\n",
        b"nets 1\nnet 0 0 1:0\n",
    ),
    // no length and no width
    (
        &[
            "%ADD10C,1.0*%",
            "%ADD11C,0*%",
            "D10*",
            "X0Y0D02*",
            "X0Y0D01*",
            "D11*",
            "X5000000Y0D03*",
            "X9000000Y0D01*",
        ],
        &[
            A_AT_0,
            "327B                                  A01X+005000Y+000000",
        ],
        1,
        b"boardnet: differs, opens 0, shorts 0, missing 1\n",
        b"point 0 1 1 0 0\npoint 1 2 1 1 -\nopens 0\nshorts 0\nmissing 1\nbare 1\ndiffers\n",
    ),
    // a round end
    (
        &[
            "%ADD10O,2.0X1.0*%",
            "%ADD11C,0.2*%",
            "D10*",
            "X0Y0D03*",
            "D11*",
            "X3000000Y0D02*",
            "X1100000Y0D01*",
        ],
        &[
            A_AT_0,
            "327A                                  A01X+003000Y+000000",
        ],
        0,
        b"boardnet: agrees\n",
        b"nets 1\n",
    ),
    (
        &[
            "%ADD10O,2.0X1.0*%",
            "%ADD11C,0.2*%",
            "D10*",
            "X0Y0D03*",
            "D11*",
            "X3000000Y0D02*",
            "X1100001Y0D01*",
        ],
        &[
            A_AT_0,
            "327A                                  A01X+003000Y+000000",
        ],
        1,
        b"boardnet: differs, opens 1, shorts 0, missing 0\n",
        b"opens 1\nopen 0 0 1 1\n",
    ),
    // crossing bars
    (
        &[
            "%ADD10R,4.0X1.0*%",
            "%ADD11R,1.0X4.0*%",
            "D10*",
            "X0Y0D03*",
            "D11*",
            "X0Y0D03*",
        ],
        &[],
        0,
        b"boardnet: agrees\n",
        b"nets 1\nnet 0 0 1:0\n",
    ),
    // a plate with a hole by a cut-in
    (
        PLATE,
        &[
            "327G                                  A01X+001000Y+001000",
            "327G                                  A01X+001500Y+008000",
            "327G                                  A01X+005000Y+005000",
        ],
        1,
        b"boardnet: differs, opens 1, shorts 0, missing 0\n",
        b"net 0 0 1:0\nnet 1 2\nnames 1\nname 0 G\npoints 3\npoint 0 1 1 0 0\npoint 1 2 1 0 0\npoint 2 3 1 0 1\nopens 1\nopen 0 0 1 2\n",
    ),
    // twice round
    (
        &[
            "G36*",
            "X0Y0D02*",
            "X10000000Y0D01*",
            "X10000000Y10000000D01*",
            "X0Y10000000D01*",
            "X0Y0D01*",
            "X10000000Y0D01*",
            "X10000000Y10000000D01*",
            "X0Y10000000D01*",
            "X0Y0D01*",
            "G37*",
        ],
        &[
            "327A                                  A01X+005000Y+005000",
            "327B                                  A01X+000000Y+005000",
        ],
        1,
        b"boardnet: differs, opens 0, shorts 0, missing 1\n",
        b"point 0 1 1 0 -\npoint 1 2 1 1 0\nopens 0\nshorts 0\nmissing 1\nbare 0\n",
    ),
    // bad contours
    (
        &[
            "G36*",
            "X0Y0D02*",
            "X1000000Y0D01*",
            "X1000000Y1000000D01*",
            "X0Y1000000D01*",
            "G37*",
        ],
        &[],
        3,
        b"boardnet: t.gbr: Gerber 21 OpenContour at command 8, byte 87\n",
        b"",
    ),
    (
        &["G36*", "X0Y0D02*", "X1000000Y0D01*", "X0Y0D01*", "G37*"],
        &[],
        3,
        b"boardnet: t.gbr: Gerber 22 ShortContour at command 7, byte 60\n",
        b"",
    ),
    // step and repeat
    (
        &[
            "%ADD10C,1.0*%",
            "D10*",
            "%SRX3Y2I1.0J1.0*%",
            "X0Y0D03*",
            "%SR*%",
        ],
        &[],
        0,
        b"boardnet: agrees\n",
        b"pieces 6\nnets 1\nnet 0 0 1:0 2:0 3:1 4:2 5:3\n",
    ),
    (
        &[
            "%ADD10C,1.0*%",
            "D10*",
            "%SRX1000000Y1000000I1.0J1.0*%",
            "X0Y0D03*",
            "%SR*%",
        ],
        &[],
        3,
        b"boardnet: t.gbr: Gerber 27 TooManyPieces at command 7, byte 81\n",
        b"",
    ),
    // the grid
    (
        &["%ADD10C,1.0000001*%", "D10*", "X0Y0D03*"],
        &[],
        3,
        b"boardnet: t.gbr: Gerber 23 OffGrid at command 3, byte 23\n",
        b"",
    ),
    // points that are joined to nothing
    (
        &["%ADD10C,1.0*%", "D10*", "X0Y0D03*"],
        &[
            "327GND                                A01X+000000Y+000000",
            "327N/C                                A01X+000100Y+000000",
        ],
        1,
        b"boardnet: differs, opens 0, shorts 1, missing 0\n",
        b"name 0 GND\nname 1 N/C\npoints 2\npoint 0 1 1 0 0\npoint 1 2 1 1 0\nopens 0\nshorts 1\nshort 0 2\nbranch 0 0 0\nbranch 1 1 0\nmissing 0\ndiffers\n",
    ),
    (
        &["%ADD10C,1.0*%", "D10*", "X0Y0D03*"],
        &[
            "327N/C                                A01X+000000Y+000000",
            "327                                   A01X+000100Y+000000",
        ],
        0,
        b"boardnet: agrees\n",
        b"names 1\nname 0 N/C\n",
    ),
    // a short of three names
    (
        SHORTED,
        THREE,
        1,
        b"boardnet: differs, opens 0, shorts 1, missing 0\n",
        SHORT_REPORT,
    ),
    // order and truncation
    (
        &[
            "%ADD10C,1.0*%",
            "D10*",
            "X0Y0D03*",
            "X0Y0D02*",
            "G02*",
            "X1000000Y0D01*",
            "%LPC*%",
        ],
        &[],
        3,
        b"boardnet: t.gbr: Gerber 11 Arc at command 7, byte 59\n",
        b"",
    ),
    // the greatest pen
    (
        &["%ADD10C,50.0*%", "D10*", "X50000000Y50000000D03*"],
        &[],
        0,
        b"boardnet: agrees\n",
        b"nets 1\n",
    ),
    (
        &["%ADD10C,50.0000002*%"],
        &[],
        3,
        b"boardnet: t.gbr: Gerber 24 OutOfRange at command 3, byte 23\n",
        b"",
    ),
    // the frame
    (CORNERS, &[], 0, b"boardnet: agrees\n", b"nets 2\n"),
    (
        &[
            "%ADD10C,1.0*%",
            "D10*",
            "X500000Y500000D03*",
            "X999500001Y500000D03*",
        ],
        &[],
        3,
        b"boardnet: frame too large: 0 0 10000000010 10000000\n",
        b"",
    ),
    // netlist refusals
    (
        &[],
        &["327A                                  A02X+000000Y+000000"],
        3,
        b"boardnet: n.ipc: netlist 6 BadAccess at line 2\n",
        b"",
    ),
    (
        &[],
        &["017"],
        3,
        b"boardnet: n.ipc: netlist 2 Continuation at line 2\n",
        b"",
    ),
];

#[test]
fn worked_boards(rt: HostRuntime) -> Result<(), Fail> {
    let alloc = rt.alloc();
    for row in &BOARDS {
        let (lines, records, status, line, part) = *row;
        let mut package = one_layer(alloc, lines, records)?;
        assert!(rt; answers(alloc, &mut package, status, line, part)?);
    }
    Ok(())
}

/// The report on the tie, with its supplement.
pub const TIED: &str =
    "boardnet 2\npieces 2\nnets 1\nnet 0 0 1:0\nnames 1\nname 0 A\npoints 2\npoint 0 1 1 0 0\npoint 1 2 1 0 0\nopens 0\nshorts 0\nmissing 0\nspots 2\nspot 0 0 0\nspot 1 10000000 0\nsources 2\nsource 0 0 5 0 1 1\nsource 1 0 6 0 1 1\nagrees\n";

// A disc, then a block of two columns: its pieces are copies 0 and 1. The point lies left of and below 0.
const COPIES: &str =
    "boardnet 2\npieces 3\nnets 2\nnet 0 0\nnet 1 1 2:1\nnames 1\nname 0 A\npoints 1\npoint 0 1 1 0 0\nopens 0\nshorts 0\nmissing 0\nspots 1\nspot 0 -10000000 -50000\nsources 3\nsource 0 0 5 0 1 1\nsource 1 0 7 0 1 1\nsource 2 0 7 1 1 1\nagrees\n";

const STEPPED: &[&str] = &[
    "%ADD10C,1.0*%",
    "D10*",
    "X-1000000Y0D03*",
    "%SRX2Y1I1.0J0*%",
    "X5000000Y0D03*",
    "%SR*%",
];

const BESIDE: &[&str] = &["327A                                  A01X-001000Y-000005"];

#[test]
fn spots_and_sources(rt: HostRuntime) -> Result<(), Fail> {
    let alloc = rt.alloc();
    let rows = [(TIE, ENDS, TIED), (STEPPED, BESIDE, COPIES)];
    for (lines, records, report) in rows {
        let mut package = one_layer(alloc, lines, records)?;
        let line = "boardnet: agrees\n";
        wants(alloc, &["check", "m.json"], &mut package, 0, line, report)?;
    }
    Ok(())
}
