// Files, and what they are read as.
mod macros;
mod refusals;

use board_shapes::{MOST_LAYERS, Piece, Room, Shape};
use file_reading::RefusalKind;
use gerber_layer::read_layer;
use gerber_reading::{LayerFault, Place};
use std::alloc::{AllocError, Global};
use std::fmt::Write;
use std::test::Fail;
use texts::MOST_BYTES;

/// The place and the room of a row.
pub const PLACE: Place = Place {
    layer: 1,
    file: 0,
    room: Room {
        pieces: 6,
        edges: 16,
    },
};

/// Layers and files with their pieces in order, each on a line: a capsule by its ends and its radius
/// or an area by its corners, in u, its layer, and the command and the copy that it comes from.
static IMAGES: [(u8, &str, &str); 15] = [
    // Nothing at all.
    (1, "%FSLAX46Y46*%\n%MOMM*%\nM02*\n", ""),
    // A slanting tangent.
    (
        1,
        "%FSLAX46Y46*%\n%MOMM*%\n%ADD10C,10.0*%\n%ADD11C,20.0*%\nD10*\nX0Y0D03*\nD11*\nX9000000Y12000000D03*\nM02*\n",
        "0 0, 0 0, 50000000 on 1 by 6.0\n90000000 120000000, 90000000 120000000, 100000000 on 1 by 8.0",
    ),
    // No length and no width.
    (
        1,
        "%FSLAX46Y46*%\n%MOMM*%\n%ADD10C,1.0*%\n%ADD11C,0*%\nD10*\nX0Y0D02*\nX0Y0D01*\nD11*\nX5000000Y0D03*\nX9000000Y0D01*\nM02*\n",
        "0 0, 0 0, 5000000 on 1 by 7.0",
    ),
    // A round end.
    (
        1,
        "%FSLAX46Y46*%\n%MOMM*%\n%ADD10O,2.0X1.0*%\n%ADD11C,0.2*%\nD10*\nX0Y0D03*\nD11*\nX3000000Y0D02*\nX1100000Y0D01*\nM02*\n",
        "-5000000 0, 5000000 0, 5000000 on 1 by 6.0\n30000000 0, 11000000 0, 1000000 on 1 by 9.0",
    ),
    // Crossing bars.
    (
        1,
        "%FSLAX46Y46*%\n%MOMM*%\n%ADD10R,4.0X1.0*%\n%ADD11R,1.0X4.0*%\nD10*\nX0Y0D03*\nD11*\nX0Y0D03*\nM02*\n",
        "[-20000000 -5000000][20000000 -5000000][20000000 5000000][-20000000 5000000] on 1 by 6.0\n[-5000000 -20000000][5000000 -20000000][5000000 20000000][-5000000 20000000] on 1 by 8.0",
    ),
    // A plate with a hole by a cut-in.
    (
        1,
        "%FSLAX46Y46*%\n%MOMM*%\n%ADD10C,1.0*%\nD10*\nG36*\nX0Y0D02*\nX10000000Y0D01*\nX10000000Y10000000D01*\nX0Y10000000D01*\nX0Y5000000D01*\nX3000000Y5000000D01*\nX3000000Y7000000D01*\nX7000000Y7000000D01*\nX7000000Y3000000D01*\nX3000000Y3000000D01*\nX3000000Y5000000D01*\nX0Y5000000D01*\nX0Y0D01*\nG37*\nX1500000Y8000000D03*\nX5000000Y5000000D03*\nM02*\n",
        "[0 0][100000000 0][100000000 100000000][0 100000000][0 50000000][30000000 50000000][30000000 70000000][70000000 70000000][70000000 30000000][30000000 30000000][30000000 50000000][0 50000000] on 1 by 19.0\n15000000 80000000, 15000000 80000000, 5000000 on 1 by 20.0\n50000000 50000000, 50000000 50000000, 5000000 on 1 by 21.0",
    ),
    // Twice round.
    (
        1,
        "%FSLAX46Y46*%\n%MOMM*%\nG36*\nX0Y0D02*\nX10000000Y0D01*\nX10000000Y10000000D01*\nX0Y10000000D01*\nX0Y0D01*\nX10000000Y0D01*\nX10000000Y10000000D01*\nX0Y10000000D01*\nX0Y0D01*\nG37*\nM02*\n",
        "[0 0][100000000 0][100000000 100000000][0 100000000][0 0][100000000 0][100000000 100000000][0 100000000] on 1 by 13.0",
    ),
    // Contours closed by a move and by the end of a region.
    (
        1,
        "%FSLAX46Y46*%\n%MOMM*%\nX1000000Y1000000D02*\nG36*\nX2000000D01*\nY2000000*\nX1000000Y1000000*\nX5000000Y5000000D02*\nX6000000D02*\nY6000000D01*\nX5000000*\nX6000000Y5000000*\nG37*\nG36*\nX0Y0D02*\nG37*\nM02*\n",
        "[10000000 10000000][20000000 10000000][20000000 20000000] on 1 by 8.0\n[60000000 50000000][60000000 60000000][50000000 60000000] on 1 by 13.0",
    ),
    // Step and repeat.
    (
        1,
        "%FSLAX46Y46*%\n%MOMM*%\n%ADD10C,1.0*%\nD10*\n%SRX3Y2I1.0J1.0*%\nX0Y0D03*\n%SR*%\nM02*\n",
        "0 0, 0 0, 5000000 on 1 by 6.0\n0 10000000, 0 10000000, 5000000 on 1 by 6.1\n10000000 0, 10000000 0, 5000000 on 1 by 6.2\n10000000 10000000, 10000000 10000000, 5000000 on 1 by 6.3\n20000000 0, 20000000 0, 5000000 on 1 by 6.4\n20000000 10000000, 20000000 10000000, 5000000 on 1 by 6.5",
    ),
    // A block that the end of the file ends.
    (
        1,
        "%FSLAX46Y46*%\n%MOMM*%\n%ADD10C,1.0*%\nD10*\n%SRX3Y2I1.0J1.0*%\nX0Y0D03*\nM02*\n",
        "0 0, 0 0, 5000000 on 1 by 6.0\n0 10000000, 0 10000000, 5000000 on 1 by 6.1\n10000000 0, 10000000 0, 5000000 on 1 by 6.2\n10000000 10000000, 10000000 10000000, 5000000 on 1 by 6.3\n20000000 0, 20000000 0, 5000000 on 1 by 6.4\n20000000 10000000, 20000000 10000000, 5000000 on 1 by 6.5",
    ),
    // A block after a piece, a block after it, and the current point behind them.
    (
        1,
        "%FSLAX46Y46*%\n%MOMM*%\n%ADD10C,1.0*%\nD10*\nX0Y0D03*\n%SRX2Y1I1.0J0*%\nY1000000D03*\n%SRX1Y2I0J-1.0*%\nY5000000D03*\n%SR*%\nD03*\nM02*\n",
        "0 0, 0 0, 5000000 on 1 by 5.0\n0 10000000, 0 10000000, 5000000 on 1 by 7.0\n10000000 10000000, 10000000 10000000, 5000000 on 1 by 7.1\n0 50000000, 0 50000000, 5000000 on 1 by 9.0\n0 40000000, 0 40000000, 5000000 on 1 by 9.1\n0 50000000, 0 50000000, 5000000 on 1 by 11.0",
    ),
    // An empty block.
    (
        1,
        "%FSLAX46Y46*%\n%MOMM*%\n%SRX999999999Y999999999I1.0J1.0*%\n%SR*%\nM02*\n",
        "",
    ),
    // The grid in inches.
    (
        1,
        "%FSLAX24Y24*%%MOIN*%%ADD10C,0.066929*%D10*X10000Y-5000D03*M02*",
        "254000000 -127000000, 254000000 -127000000, 8499983 on 1 by 5.0",
    ),
    // Ordinary use, top.
    (
        1,
        "%TF.GenerationSoftware,KiCad,Pcbnew,7.0.1*%\n%TF.CreationDate,2024-03-01T10:00:00+01:00*%\n%TF.SameCoordinates,Original*%\n%TF.FileFunction,Copper,L1,Top*%\n%TF.FilePolarity,Positive*%\n%FSLAX46Y46*%\nG04 Gerber Fmt 4.6, Leading zero omitted, Abs format (unit mm)*\n%MOMM*%\n%LPD*%\nG01*\nG04 APERTURE LIST*\n%TA.AperFunction,ComponentPad*%\n%ADD10C,1.600000*%\n%ADD11R,1.600000X1.600000*%\n%TD*%\n%TA.AperFunction,SMDPad,CuDef*%\n%ADD12O,1.200000X0.600000*%\n%TD*%\n%TA.AperFunction,Conductor*%\n%ADD13C,0.250000*%\n%TD*%\nG04 APERTURE END LIST*\n%TO.P,J1,1*%\n%TO.N,GND*%\nD11*\nX100000000Y-50000000D03*\n%TO.P,J1,2*%\n%TO.N,/SIG*%\nD10*\nX102540000Y-50000000D03*\n%TO.P,R1,1*%\nD12*\nX106000000Y-50000000D03*\n%TO.P,R1,2*%\n%TO.N,VCC*%\nX108000000Y-50000000D03*\n%TD*%\n%TO.N,/SIG*%\nD13*\nX102540000Y-50000000D02*\nX106000000Y-50000000D01*\n%TD*%\nM02*\n",
        "[992000000 -508000000][1008000000 -508000000][1008000000 -492000000][992000000 -492000000] on 1 by 26.0\n1025400000 -500000000, 1025400000 -500000000, 8000000 on 1 by 30.0\n1057000000 -500000000, 1063000000 -500000000, 3000000 on 1 by 33.0\n1077000000 -500000000, 1083000000 -500000000, 3000000 on 1 by 36.0\n1025400000 -500000000, 1060000000 -500000000, 1250000 on 1 by 41.0",
    ),
    // Ordinary use, bottom.
    (
        2,
        "%TF.FileFunction,Copper,L2,Bot*%\n%TF.FilePolarity,Positive*%\n%FSLAX46Y46*%\n%MOMM*%\n%LPD*%\nG01*\n%ADD10C,1.600000*%\n%ADD11R,1.600000X1.600000*%\n%TO.N,GND*%\nG36*\nX95000000Y-55000000D02*\nX110000000Y-55000000D01*\nX110000000Y-50000000D01*\nX104040000Y-50000000D01*\nX104040000Y-51500000D01*\nX101040000Y-51500000D01*\nX101040000Y-48500000D01*\nX104040000Y-48500000D01*\nX104040000Y-50000000D01*\nX110000000Y-50000000D01*\nX110000000Y-45000000D01*\nX95000000Y-45000000D01*\nX95000000Y-55000000D01*\nG37*\nD11*\nX100000000Y-50000000D03*\nD10*\nX102540000Y-50000000D03*\nM02*\n",
        "[950000000 -550000000][1100000000 -550000000][1100000000 -500000000][1040400000 -500000000][1040400000 -515000000][1010400000 -515000000][1010400000 -485000000][1040400000 -485000000][1040400000 -500000000][1100000000 -500000000][1100000000 -450000000][950000000 -450000000] on 2 by 24.0\n[992000000 -508000000][1008000000 -508000000][1008000000 -492000000][992000000 -492000000] on 2 by 26.0\n1025400000 -500000000, 1025400000 -500000000, 8000000 on 2 by 28.0",
    ),
];

fn shown(alloc: Global, piece: &Piece) -> Result<String, AllocError> {
    let mut line = String::new(alloc);
    match &piece.shape {
        Shape::Round(capsule) => {
            let (a, b, r) = capsule.parts();
            write!(line, "{} {}, {} {}, {r}", a.x, a.y, b.x, b.y)?;
        },
        Shape::Filled(area) => for i in 0..area.edges() {
            let corner = area.corner(i);
            write!(line, "[{} {}]", corner.x, corner.y)?;
        },
    }
    write!(
        line,
        " on {} by {}.{}",
        piece.top, piece.origin.command, piece.origin.copy
    )?;
    Ok(line)
}

/// A line for each piece: its shape in u, its layer, its command and its copy.
pub fn image(alloc: Global, pieces: &[Piece]) -> Result<String, AllocError> {
    let mut lines = String::new(alloc);
    for piece in pieces {
        if !lines.is_empty() {
            lines.push('\n')?;
        }
        lines.push_str(shown(alloc, piece)?.as_str())?;
    }
    Ok(lines)
}

/// The image of a file on a layer, or its refusal.
pub fn told(alloc: Global, layer: u8, file: &[u8]) -> Result<String, AllocError> {
    if layer < 1 || layer > MOST_LAYERS || file.len() > MOST_BYTES {
        return String::from_str(alloc, "no layer");
    }
    match read_layer(alloc, file, layer, PLACE.file, PLACE.room) {
        Ok(pieces) => image(alloc, &pieces),
        Err(LayerFault::NoMemory) => String::from_str(alloc, "no memory"),
        Err(LayerFault::Refused { kind, command, at }) => {
            let (number, name) = (kind.number(), kind.name());
            format!(in alloc; "{number} {name} at command {command}, byte {at}")
        },
    }
}

#[test]
fn files_are_read(rt: HostRuntime) -> Result<(), Fail> {
    for (layer, file, expected) in &IMAGES {
        let read = told(rt.alloc(), *layer, file.as_bytes())?;
        assert_eq!(rt; read.as_str(), *expected);
    }
    Ok(())
}

#[test]
fn a_file_has_few_apertures(rt: HostRuntime) -> Result<(), Fail> {
    let mut file = String::new(rt.alloc());
    file.push_str("%MOMM*%")?;
    for n in 10..65_547 {
        write!(file, "%ADD{n}C,1*%")?;
    }
    let read = told(rt.alloc(), 1, file.as_bytes())?;
    assert_eq!(rt;
        read.as_str(),
        "30 TooManyApertures at command 65538, byte 906442"
    );
    Ok(())
}
