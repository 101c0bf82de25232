// Files in which draws may be arcs, and their copper. The rows without a comment are what the script of
// bounds, tools/show_board, makes of them.
use arc_regions::Part;
use arcs::Arc;
use board_shapes::{Room, Shape};
use fine_figures::FineFigure;
use gerber_reading::Place;
use planar::Spot;
use real_copper::{RealFault, RealPiece, RealShape, read_real};
use std::alloc::{AllocError, Global};
use std::fmt::Write;
use std::test::Fail;
use texts::MOST_BYTES;

const HEAD: &str = "%FSLAX46Y46*%%MOMM*%%ADD10C,1.0*%D10*";

fn push_spots(line: &mut String, spots: &[Spot]) -> Result<(), AllocError> {
    for spot in spots {
        write!(line, ", {} {}", spot.x, spot.y)?;
    }
    Ok(())
}

fn push_fine(line: &mut String, fine: &FineFigure) -> Result<(), AllocError> {
    match fine {
        FineFigure::Round(f) => {
            let (a, b, r) = (f.a, f.b, f.r);
            write!(line, "in halves {} {}, {} {}, {r}", a.x, a.y, b.x, b.y)?;
        },
        FineFigure::Rectangle(f) => {
            let (left, low, right, high) = (f.left, f.low, f.right, f.high);
            write!(line, "in halves from {left} {low} to {right} {high}")?;
        },
    }
    Ok(())
}

/// A shape as text.
pub fn shape_text(alloc: Global, shape: &RealShape) -> Result<String, AllocError> {
    let mut line = String::new(alloc);
    match shape {
        RealShape::Plain(Shape::Round(capsule)) => {
            let (a, b, r) = capsule.parts();
            write!(line, "{} {}, {} {}, {r}", a.x, a.y, b.x, b.y)?;
        },
        RealShape::Plain(Shape::Filled(area)) => {
            line.push_str("an area")?;
            push_spots(&mut line, &area.points)?;
        },
        RealShape::ArcDraw(arc) => {
            let Arc {
                centre: c,
                start: s,
                end: e,
                width,
            } = arc;
            write!(
                line,
                "({} {}) {} {}, {} {}, {width}",
                c.x, c.y, s.x, s.y, e.x, e.y
            )?;
        },
        RealShape::Slanted(slant) => {
            let (a, b) = (slant.start, slant.end);
            write!(line, "[{} {}, {} {}] {}", a.x, a.y, b.x, b.y, slant.width)?;
        },
        RealShape::Region(region) => {
            write!(line, "from {} {}", region.start.x, region.start.y)?;
            for part in &region.parts {
                match part {
                    Part::Straight(to) => write!(line, ", {} {}", to.x, to.y)?,
                    Part::Curved(bend) => {
                        let (c, to, turn) = (bend.centre, bend.end, bend.counterclockwise);
                        write!(line, ", ({} {}) {turn} {} {}", c.x, c.y, to.x, to.y)?;
                    },
                }
            }
        },
        RealShape::Turned(figure) => {
            let (about, angle) = (figure.about, figure.angle);
            write!(line, "turned {angle} about {} {}", about.x, about.y)?;
            push_spots(&mut line, &figure.contour)?;
        },
        RealShape::TurnedDisc(disc) => {
            let (about, centre) = (disc.about, disc.centre);
            write!(
                line,
                "disc {} about {} {}, {} {}, {}",
                disc.angle, about.x, about.y, centre.x, centre.y, disc.radius
            )?;
        },
        RealShape::Polygon(turned) => {
            let (g, about) = (turned.polygon, turned.about);
            let (c, n) = (g.centre, g.corners);
            write!(
                line,
                "{n} corners about {} {} by {} at {}",
                c.x, c.y, g.diameter, g.angle
            )?;
            if c.x != about.x || c.y != about.y {
                write!(
                    line,
                    ", turned {} about {} {}",
                    turned.angle, about.x, about.y
                )?;
            }
        },
        RealShape::Fine(f) => push_fine(&mut line, f)?,
        RealShape::Holed(h) => {
            push_fine(&mut line, &h.outline)?;
            write!(line, " without {} at {} {}", h.hole, h.centre.x, h.centre.y)?;
        },
    }
    Ok(line)
}

fn shown(alloc: Global, piece: &RealPiece) -> Result<String, AllocError> {
    let mut line = shape_text(alloc, &piece.shape)?;
    write!(line, " by {}.{}", piece.origin.command, piece.origin.copy)?;
    Ok(line)
}

fn copper(alloc: Global, pieces: &[RealPiece]) -> Result<String, AllocError> {
    let mut lines = String::new(alloc);
    for piece in pieces {
        if !lines.is_empty() {
            lines.push('\n')?;
        }
        lines.push_str(shown(alloc, piece)?.as_str())?;
    }
    Ok(lines)
}

fn told(alloc: Global, words: &str) -> Result<String, AllocError> {
    let mut file = String::new(alloc);
    if !words.starts_with("%FS") {
        file.push_str(HEAD)?;
    }
    file.push_str(words)?;
    if file.len() > MOST_BYTES {
        return String::from_str(alloc, "too long");
    }
    let room = Room {
        pieces: 6,
        edges: 16,
    };
    let place = Place {
        layer: 1,
        file: 0,
        room,
    };
    match read_real(alloc, file.as_bytes(), place) {
        Ok(pieces) => copper(alloc, &pieces),
        Err(RealFault::NoMemory) => String::from_str(alloc, "no memory"),
        Err(RealFault::Refused { kind, command, .. }) => {
            format!(in alloc; "{kind:?} at command {command}")
        },
    }
}

// Multi quadrant mode, and a block of this crate's own.
static ANY_ARCS: [(&str, &str); 8] = [
    (
        "G75*G02X1000000I500000J0D01*M02*",
        "(5000000 0) 10000000 0, 0 0, 10000000 by 6.0",
    ),
    (
        "G75*G03X1000000I500000J0D01*M02*",
        "(5000000 0) 0 0, 10000000 0, 10000000 by 6.0",
    ),
    (
        "G75*G02*I500000D01*M02*",
        "(5000000 0) 0 0, 0 0, 10000000 by 7.0",
    ),
    (
        "G75*G03X1000000Y1000000J1000000D01*M02*",
        "(0 10000000) 0 0, 10000000 10000000, 10000000 by 6.0",
    ),
    (
        "G75*G3X1000000Y900000J1000000D01*G01X5D01*X6D01*M02*",
        "(0 10000000) 0 0, 10000000 9000000, 10000000 by 6.0\n10000000 9000000, 50 9000000, 5000000 by 7.0\n50 9000000, 60 9000000, 5000000 by 8.0",
    ),
    (
        "G75*G03X1000000I-0J-300000D01*M02*",
        "(0 -3000000) 0 0, 10000000 0, 10000000 by 6.0",
    ),
    (
        "G75*G02X1000000J0D01*M02*",
        "(0 0) 10000000 0, 0 0, 10000000 by 6.0",
    ),
    (
        "%SRX2Y1I3.0J0*%G75*G02X1000000I500000D01*%SR*%M02*",
        "(5000000 0) 10000000 0, 0 0, 10000000 by 7.0\n(35000000 0) 40000000 0, 30000000 0, 10000000 by 7.1",
    ),
];

// Single quadrant mode, and inches.
static QUARTERS: [(&str, &str); 21] = [
    (
        "G74*G03X1000000Y1000000I0J1000000D01*M02*",
        "(0 10000000) 0 0, 10000000 10000000, 10000000 by 6.0",
    ),
    (
        "G74*G03X1000000Y1000000I1000000J0D01*M02*",
        "(-10000000 0) 0 0, 10000000 10000000, 10000000 by 6.0",
    ),
    (
        "G74*G02X1000000Y1000000I1000000J0D01*M02*",
        "(10000000 0) 10000000 10000000, 0 0, 10000000 by 6.0",
    ),
    (
        "G74*G02X1000000Y1000000I0J1000000D01*M02*",
        "(0 -10000000) 10000000 10000000, 0 0, 10000000 by 6.0",
    ),
    (
        "G74*G03X-1000000Y1000000I1000000J0D01*M02*",
        "(-10000000 0) 0 0, -10000000 10000000, 10000000 by 6.0",
    ),
    ("G74*G03I1000000J0D01*M02*", "0 0, 0 0, 5000000 by 6.0"),
    (
        "G74*G03X600000Y200000I0J1000000D01*M02*",
        "(0 10000000) 0 0, 6000000 2000000, 10000000 by 6.0",
    ),
    (
        "G74*G03X200000Y-600000I600000J800000D01*M02*",
        "(6000000 -8000000) 0 0, 2000000 -6000000, 10000000 by 6.0",
    ),
    (
        "G74*G03X1000001Y1000000I0J1000000D01*M02*",
        "(0 10000000) 0 0, 10000010 10000000, 10000000 by 6.0",
    ),
    (
        "G74*G03X1000003Y1000000I0J1000000D01*M02*",
        "(0 10000000) 0 0, 10000030 10000000, 10000000 by 6.0",
    ),
    (
        "G74*G03X1000000Y1000001I0J1000000D01*M02*",
        "(0 10000000) 0 0, 10000000 10000010, 10000000 by 6.0",
    ),
    (
        "G74*G03X1000000Y1000002I0J1000000D01*M02*",
        "(0 10000000) 0 0, 10000000 10000020, 10000000 by 6.0",
    ),
    (
        "G74*G03X2000000I1000000J1D01*M02*",
        "(-10000000 10) 0 0, 20000000 0, 10000000 by 6.0",
    ),
    (
        "G74*G03X2000000I1000000J0D01*M02*",
        "(-10000000 0) 0 0, 20000000 0, 10000000 by 6.0",
    ),
    (
        "G74*G03X0Y1000I0J0D01*M02*",
        "(0 0) 0 0, 0 10000, 10000000 by 6.0",
    ),
    (
        "G74*G03X10Y10I5J5D01*M02*",
        "(-50 50) 0 0, 100 100, 10000000 by 6.0",
    ),
    (
        "G74*G03X400001Y200000I100000J300000D01*M02*",
        "(1000000 3000000) 0 0, 4000010 2000000, 10000000 by 6.0",
    ),
    (
        "G74*G03X13Y13I1J13D01*M02*",
        "(-10 130) 0 0, 130 130, 10000000 by 6.0",
    ),
    (
        "G75*G02*X1000000I500000D01*G74*Y500000I500000D01*G01*X0D01*M02*",
        "(5000000 0) 10000000 0, 0 0, 10000000 by 7.0\n(15000000 0) 10000000 5000000, 10000000 0, 10000000 by 9.0\n10000000 5000000, 0 5000000, 5000000 by 11.0",
    ),
    (
        "%FSLAX27Y27*%%MOIN*%%ADD10C,0.1*%D10*G75*G02X10I5J0D01*M02*",
        "(127 0) 254 0, 0 0, 25400000 by 6.0",
    ),
    (
        "%FSLAX26Y26*%%MOIN*%%ADD10C,0.1*%D10*G74*G03X1000Y1000I0J1000D01*X0Y2002I1000J0D01*M02*",
        "(0 254000) 0 0, 254000 254000, 25400000 by 6.0\n(0 254000) 254000 254000, 0 508508, 25400000 by 7.0",
    ),
];

// Refusals; the last are of this crate's own.
static REFUSALS: [(&str, &str); 21] = [
    (
        "G74*G03X1000000Y1000003I0J1000000D01*M02*",
        "NoCentre at command 6",
    ),
    (
        "G74*G03X1000000Y1000020I0J1000000D01*M02*",
        "NoCentre at command 6",
    ),
    ("G74*G02X10Y10I10J10D01*M02*", "NoCentre at command 6"),
    ("G02X1000000I500000J0D01*M02*", "NoQuadrants at command 5"),
    ("G75*G02X1000000D01*M02*", "NoOffsets at command 6"),
    ("G75*G01X1000000I1J1D01*M02*", "OffsetsAmiss at command 6"),
    ("G75*G02X1000000I1J1D02*M02*", "OffsetsAmiss at command 6"),
    (
        "G75*G36*X1000000D01*X0D01*G37*M02*",
        "Copper(Gerber(ShortContour)) at command 9",
    ),
    (
        "G36*G74*G03I1000000J0D01*G37*M02*",
        "Copper(Gerber(ShortContour)) at command 8",
    ),
    (
        "G75*G02X1000000J500000I0D01*M02*",
        "OffsetsAmiss at command 6",
    ),
    ("G75*G02X1000000I1I2D01*M02*", "OffsetsAmiss at command 6"),
    (
        "%FSLAX27Y27*%%MOIN*%%ADD10C,0.1*%D10*G75*G02X10I1J0D01*M02*",
        "Copper(Gerber(OffGrid)) at command 6",
    ),
    (
        "%FSLAX27Y27*%%MOIN*%%ADD10C,0.1*%D10*G74*G03X1000Y1005I0J1000D01*M02*",
        "NoCentre at command 6",
    ),
    (
        "G75*G02X1I12000000000J0D01*M02*",
        "Copper(Gerber(OutOfRange)) at command 6",
    ),
    (
        "X1000000000D02*G75*G02X999999999I1J0D01*M02*",
        "Copper(Gerber(OutOfRange)) at command 7",
    ),
    (
        "X1000000000D02*G74*G03X999999988Y-12I1J13D01*M02*",
        "Copper(Gerber(OutOfRange)) at command 7",
    ),
    (
        "G74*G03X10Y10I5J5D01*I5J5*M02*",
        "Copper(Gerber(BadWord)) at command 7",
    ),
    (
        "G75*G02X1J0D01*G20*M02*",
        "Copper(Gerber(BadWord)) at command 7",
    ),
    ("G75*G02X1D01*G20*M02*", "NoOffsets at command 6"),
    (
        "D11*G75*G02X1D01*M02*",
        "Copper(Gerber(NoAperture)) at command 5",
    ),
    (
        "G36*G75*G02D03*G37*M02*",
        "Copper(Gerber(NotInRegion)) at command 7",
    ),
];

// Vector lines of macros, all of this crate's own: one that runs along no axis is slanted, and no draw is one.
static LINES: [(&str, &str); 7] = [
    (
        "%AMV*20,1,0.2,0,0,1.0,0.5,0*%%ADD11V*%D11*X0Y0D03*M02*",
        "[0 0, 10000000 5000000] 2000000 by 9.0",
    ),
    (
        "%AMV*20,1,0.2,0,0,1.0,0.5,90*%%ADD11V*%D11*X1000000Y0D03*M02*",
        "[10000000 0, 5000000 10000000] 2000000 by 9.0",
    ),
    (
        "%AMV*20,1,0.2,0,0,1.0,0,0*%%ADD11V*%D11*X0Y0D03*M02*",
        "an area, 0 -1000000, 10000000 -1000000, 10000000 1000000, 0 1000000, 0 -1000000 by 9.0",
    ),
    (
        "%AMV*20,1,$1,0,0,1.0,0.5,0*%%ADD11V,0.1*%D11*X0Y0D03*D10*X1000000Y1000000D01*M02*",
        "[0 0, 10000000 5000000] 1000000 by 9.0\n0 0, 10000000 10000000, 5000000 by 11.0",
    ),
    (
        "X1000000Y1000000D01*%AMV*1,1,1.0,0,0*%%ADD11V*%D11*X0Y0D03*M02*",
        "0 0, 10000000 10000000, 5000000 by 5.0\n0 0, 0 0, 5000000 by 10.0",
    ),
    (
        "%AMV*20,1,0.2,0,0,1.0,0.5,45*%%ADD11V*%D11*X0Y0D03*M02*",
        "Copper(Turn) at command 7",
    ),
    (
        "%AMV*20,1,0.2,0,0,1.0,0.5,0*%%ADD11V*%G75*D10*G03X1000000I500000J0D01*D11*G01*X0Y0D03*M02*",
        "(5000000 0) 0 0, 10000000 0, 10000000 by 10.0\n[0 0, 10000000 5000000] 2000000 by 13.0",
    ),
];

// Turned figures of macros, most as layout tools write them; all of this crate's own.
static TURNS: [(&str, &str); 22] = [
    (
        "%AMRotRect*21,1,$1,$2,0,0,$3*%%ADD11RotRect,1.0X0.5X30.0*%D11*X0Y0D03*M02*",
        "turned 300000000 about 0 0, -5000000 -2500000, 5000000 -2500000, 5000000 2500000, -5000000 2500000, -5000000 -2500000 by 9.0",
    ),
    (
        "%AMRotRect*21,1,$1,$2,0,0,$3*%%ADD11RotRect,1.0X0.5X90.0*%D11*X1000000Y0D03*M02*",
        "an area, 12500000 -5000000, 12500000 5000000, 7500000 5000000, 7500000 -5000000, 12500000 -5000000 by 9.0",
    ),
    (
        "%AMRotRect*21,1,$1,$2,0,0,$3*%%ADD11RotRect,1.0X0.5X-29.5*%D11*X1000000Y0D03*M02*",
        "turned 605000000 about 10000000 0, 7500000 5000000, 7500000 -5000000, 12500000 -5000000, 12500000 5000000, 7500000 5000000 by 9.0",
    ),
    (
        "%AMOutline4P*0 Free polygon*4,1,4,$1,$2,$3,$4,$5,$6,$7,$8,$1,$2,$9*%%ADD11Outline4P,-0.5X-0.25X0.5X-0.25X0.4X0.25X-0.4X0.25X45.0*%D11*X0Y1000000D03*M02*",
        "turned 450000000 about 0 10000000, -5000000 7500000, 5000000 7500000, 4000000 12500000, -4000000 12500000, -5000000 7500000 by 10.0",
    ),
    (
        "%AMT*4,1,3,0,0,1,0,0,1,0,0,0.0000001*%%ADD11T*%%SRX2Y1I3.0J0*%D11*X0Y0D03*%SR*%M02*",
        "turned 1 about 0 0, 0 0, 10000000 0, 0 10000000, 0 0 by 10.0\nturned 1 about 30000000 0, 30000000 0, 40000000 0, 30000000 10000000, 30000000 0 by 10.1",
    ),
    (
        "%AMV*20,1,0.2,0,0,1.0,0,89.9999999*%%ADD11V*%D11*X0Y0D03*M02*",
        "turned 899999999 about 0 0, 0 -1000000, 10000000 -1000000, 10000000 1000000, 0 1000000, 0 -1000000 by 9.0",
    ),
    (
        "%AMV*1,1,1.0,0,0,45*21,1,1,1,0,0,-45*%%ADD11V*%%ADD12R,1X2*%D11*X0Y0D03*D12*X0Y0D03*M02*",
        "0 0, 0 0, 5000000 by 11.0\nturned 450000000 about 0 0, -5000000 5000000, -5000000 -5000000, 5000000 -5000000, 5000000 5000000, -5000000 5000000 by 11.0\nan area, -5000000 -10000000, 5000000 -10000000, 5000000 10000000, -5000000 10000000, -5000000 -10000000 by 13.0",
    ),
    (
        "%AMOC8*5,1,8,0,0,$1,22.5*%%ADD11OC8,1.0*%D11*X1000000Y0D03*M02*",
        "8 corners about 10000000 0 by 100000000000 at 225000000 by 9.0",
    ),
    (
        "%AMOC8*5,1,8,0,0,1.08239X$1,22.5*%%ADD11OC8,1.6764*%D11*X1000000Y0D03*M02*",
        "8 corners about 10000000 0 by 181451859600 at 225000000 by 9.0",
    ),
    (
        "%FSLAX25Y25*%%MOIN*%%AMOC8*5,1,8,0,0,1.08239X$1,22.5*%%ADD11OC8,0.055*%D11*X0Y0D03*M02*",
        "8 corners about 0 0 by 151209883000 at 225000000 by 7.0",
    ),
    (
        "%AMOC8*5,1,8,0,0,$1x1.08239,112.5*%%ADD11OC8,0.000002*%D11*X0Y0D03*M02*",
        "8 corners about 0 0 by 216478 at 1125000000 by 9.0",
    ),
    (
        "%AMOC8*5,1,8,0,0,0.0000001X$1,180*%%ADD11OC8,0.1*%D11*X0Y0D03*M02*",
        "8 corners about 0 0 by 1000 at 1800000000 by 9.0",
    ),
    (
        "%AMQ*5,1,5,0,0,0.0000003,-90*%%ADD11Q*%D11*X0Y0D03*M02*",
        "5 corners about 0 0 by 30000 at 2700000000 by 9.0",
    ),
    (
        "%AMOC8*5,1,8,0,0,1.08239X$1,22.5*%%ADD11OC8,1.6764001*%D11*X1000000Y0D03*M02*",
        "Copper(Gerber(OffGrid)) at command 7",
    ),
    (
        "%AMOC8*5,1,8,0,0,1.08239X$1,22.5*%%ADD11OC8,-1*%D11*X1000000Y0D03*M02*",
        "Copper(Gerber(OutOfRange)) at command 7",
    ),
    (
        "%AMOC8*5,1,8,0,0,1.08239X$1,22.5*%%ADD11OC8,46.2*%D11*X1000000Y0D03*M02*",
        "Copper(Gerber(OutOfRange)) at command 7",
    ),
    (
        "%AMQ*5,1,5,0,0,0.5,-90*%%ADD11Q*%D11*X0Y0D03*M02*",
        "5 corners about 0 0 by 50000000000 at 2700000000 by 9.0",
    ),
    (
        "%AMQ*5,1,7,1,0,0.5,90*%%ADD11Q*%D11*X0Y0D03*M02*",
        "7 corners about 0 10000000 by 50000000000 at 900000000 by 9.0",
    ),
    (
        "%AMQ*5,1,5,1,0,0.5,45*%%ADD11Q*%D11*X0Y0D03*M02*",
        "5 corners about 10000000 0 by 50000000000 at 450000000, turned 450000000 about 0 0 by 9.0",
    ),
    (
        "%AMQ*5,1,3,1,0,0.5,-240*%%ADD11Q*%D11*X1000000Y0D03*M02*",
        "3 corners about 10000000 10000000 by 50000000000 at 1200000000, turned 300000000 about 10000000 0 by 9.0",
    ),
    (
        "%AMV*1,1,1.0,1,0,-240*%%ADD11V*%D11*X1000000Y0D03*M02*",
        "disc 300000000 about 10000000 0, 10000000 10000000, 5000000 by 9.0",
    ),
    (
        "%AMRotRect*21,1,$1,$2,0,0,$3*%%ADD11RotRect,1.0X0.5X30.0*%D11*X999999999Y0D03*M02*",
        "Copper(Gerber(OutOfRange)) at command 9",
    ),
];

// Apertures with a hole, all of this crate's own: draws once round the middle, regions, figures in half u, and no pens. A
// contour is none.
static HOLES: [(&str, &str); 12] = [
    (
        "%ADD11C,1.0X0.5*%D11*X1000000Y0D03*D10*D03*M02*",
        "(10000000 0) 13750000 0, 13750000 0, 2500000 by 7.0\n10000000 0, 10000000 0, 5000000 by 9.0",
    ),
    (
        "%ADD11C,1.0X0.5*%%SRX2Y1I3.0J0*%D11*X0Y0D03*%SR*%M02*",
        "(0 0) 3750000 0, 3750000 0, 2500000 by 8.0\n(30000000 0) 33750000 0, 33750000 0, 2500000 by 8.1",
    ),
    (
        "%ADD11C,1.0X0.5*%G36*X0Y0D02*X375000D01*X250000D01*X0D01*G37*D11*D03*M02*",
        "an area, 0 0, 3750000 0, 2500000 0, 0 0 by 11.0\n(0 0) 3750000 0, 3750000 0, 2500000 by 13.0",
    ),
    (
        "%ADD11C,1.0X0.5*%D11*X1000000D01*M02*",
        "Copper(Gerber(PenNotCircle)) at command 7",
    ),
    ("%ADD11C,1.0X1.0*%M02*", "Copper(Gerber(Hole)) at command 5"),
    (
        "%ADD11R,2.0X1.0X0.5*%%SRX2Y1I3.0J0*%D11*X0Y0D03*%SR*%M02*",
        "from 2500000 0, (0 0) false 2500000 0, 10000000 0, 10000000 5000000, -10000000 5000000, -10000000 -5000000, 10000000 -5000000, 10000000 0, 2500000 0 by 8.0\nfrom 32500000 0, (30000000 0) false 32500000 0, 40000000 0, 40000000 5000000, 20000000 5000000, 20000000 -5000000, 40000000 -5000000, 40000000 0, 32500000 0 by 8.1",
    ),
    // Of other sizes, figures in half u without the hole.
    (
        "%ADD11C,0.0000011X0.0000007*%%SRX2Y1I3.0J0*%D11*X1000000Y0D03*%SR*%M02*",
        "in halves 20000000 0, 20000000 0, 11 without 7 at 10000000 0 by 8.0\nin halves 80000000 0, 80000000 0, 11 without 7 at 40000000 0 by 8.1",
    ),
    (
        "%ADD11C,1.0X0.5000002*%D11*X0Y0D03*M02*",
        "in halves 0 0, 0 0, 10000000 without 5000002 at 0 0 by 7.0",
    ),
    (
        "%ADD11R,1.0X0.5000001X0.3*%D11*X0Y1000000D03*M02*",
        "in halves from -10000000 14999999 to 10000000 25000001 without 3000000 at 0 10000000 by 7.0",
    ),
    (
        "%ADD11O,0.5X0.3000001X0.2*%D11*X0Y0D03*M02*",
        "in halves -1999999 0, 1999999 0, 3000001 without 2000000 at 0 0 by 7.0",
    ),
    (
        "%ADD11O,0.5X0.3X0.2*%D11*X1000000D01*M02*",
        "Copper(Gerber(PenNotCircle)) at command 7",
    ),
    (
        "%ADD11O,1.0X1.0X1.0*%M02*",
        "Copper(Gerber(Hole)) at command 5",
    ),
];

// Flashes of odd sizes, all of this crate's own: in half u, also in copies; rectangles and obrounds are no pens.
static FINES: [(&str, &str); 8] = [
    (
        "%ADD11C,1.0000001*%D11*X1000000Y0D03*D10*D03*M02*",
        "in halves 20000000 0, 20000000 0, 10000001 by 7.0\n10000000 0, 10000000 0, 5000000 by 9.0",
    ),
    (
        "%ADD11R,1.0X0.5000001*%D11*X0Y1000000D03*M02*",
        "in halves from -10000000 14999999 to 10000000 25000001 by 7.0",
    ),
    (
        "%ADD11O,0.5X0.3000001*%%SRX2Y1I3.0J0*%D11*X0Y0D03*%SR*%M02*",
        "in halves -1999999 0, 1999999 0, 3000001 by 8.0\nin halves 58000001 0, 61999999 0, 3000001 by 8.1",
    ),
    (
        "%ADD11O,0.3000001X0.5*%D11*X0Y0D03*M02*",
        "in halves 0 -1999999, 0 1999999, 3000001 by 7.0",
    ),
    (
        "%FSLAX26Y26*%%MOIN*%%ADD11R,0.0000005X0.1*%D11*X0Y0D03*M02*",
        "in halves from -127 -25400000 to 127 25400000 by 5.0",
    ),
    // Behind such a definition other flashes are as they were.
    (
        "%ADD11C,1.0000001*%%ADD12R,2.0X1.0*%D12*X0Y0D03*M02*",
        "an area, -10000000 -5000000, 10000000 -5000000, 10000000 5000000, -10000000 5000000, -10000000 -5000000 by 8.0",
    ),
    (
        "%ADD11O,1.0000001X1.0000001*%D11*X1000000D01*M02*",
        "Copper(Gerber(PenNotCircle)) at command 7",
    ),
    (
        "%ADD11C,1.00000001*%M02*",
        "Copper(Gerber(OffGrid)) at command 5",
    ),
];

// Macros of odd sizes, all of this crate's own: discs and rectangles in half u, and lines, by quarter turns.
static FINE_MACROS: [(&str, &str); 15] = [
    (
        "%AMV*1,1,1.0000001,0.1,0*%%ADD11V*%D11*X0Y0D03*M02*",
        "in halves 2000000 0, 2000000 0, 10000001 by 9.0",
    ),
    (
        "%AMV*1,1,1.0000001,0.1,0,90*%%ADD11V*%%SRX2Y1I3.0J0*%D11*X1000000Y0D03*%SR*%M02*",
        "in halves 20000000 2000000, 20000000 2000000, 10000001 by 10.0\nin halves 80000000 2000000, 80000000 2000000, 10000001 by 10.1",
    ),
    (
        "%AMV*1,1,$1,0,0,45*%%ADD11V,1.0000001*%D11*X1000000Y0D03*M02*",
        "in halves 20000000 0, 20000000 0, 10000001 by 9.0",
    ),
    (
        "%AMV*21,1,$1,$2,0,0,0*%%ADD11V,1.0000001X0.5000001*%D11*X0Y1000000D03*M02*",
        "in halves from -10000001 14999999 to 10000001 25000001 by 9.0",
    ),
    (
        "%AMV*21,1,1.0000001,0.5000001,0,0,-90*%%ADD11V*%D11*X0Y1000000D03*M02*",
        "in halves from -5000001 9999999 to 5000001 30000001 by 9.0",
    ),
    (
        "%AMV*21,1,1.0,0.5000001,0.25,0,180*%%ADD11V*%D11*X0Y0D03*M02*",
        "in halves from -15000000 -5000001 to 5000000 5000001 by 9.0",
    ),
    (
        "%AMV*20,1,0.2000001,0,0,1.0,0,0*%%ADD11V*%D11*X0Y0D03*M02*",
        "[0 0, 10000000 0] 2000001 by 9.0",
    ),
    (
        "%AMV*20,1,0.2000001,0,0,1.0,0.5,270*%%ADD11V*%D11*X0Y0D03*M02*",
        "[0 0, 5000000 -10000000] 2000001 by 9.0",
    ),
    // Other turns are a disc's about the origin, and of what flashes nothing.
    (
        "%AMV*1,1,1.0000001,0.1,0,45*%%ADD11V*%D11*X0Y0D03*M02*",
        "Copper(Turn) at command 7",
    ),
    (
        "%AMV*21,1,1.0,0.5000001,0,0,30*%%ADD11V*%D11*X0Y0D03*M02*",
        "Copper(Turn) at command 7",
    ),
    (
        "%AMV*20,1,0.2000001,0,0,0,0,30*1,1,1.0,0,0*%%ADD11V*%D11*X0Y0D03*M02*",
        "0 0, 0 0, 5000000 by 10.0",
    ),
    (
        "%AMV*1,1,1.0000001,0.00000001,0*%%ADD11V*%M02*",
        "Copper(Gerber(OffGrid)) at command 7",
    ),
    (
        "%AMV*1,1,50.0000001,0,0*%%ADD11V*%M02*",
        "Copper(Gerber(OutOfRange)) at command 7",
    ),
    (
        "%AMV*21,1,-0.0000001,1,0,0,0*%%ADD11V*%M02*",
        "Copper(Gerber(OutOfRange)) at command 7",
    ),
    (
        "%AMV*21,1,1.0000001,1,0,0,0*%%ADD11V*%D11*X999999999Y0D03*M02*",
        "Copper(Gerber(OutOfRange)) at command 9",
    ),
];

// Draws with pens of odd sizes, all of this crate's own: straight ones in half u, arcs as wide as the pen.
static FINE_PENS: [(&str, &str); 8] = [
    (
        "%ADD11C,1.0000001*%D11*X1000000Y-2000000D01*D10*X0D01*M02*",
        "in halves 0 0, 20000000 -40000000, 10000001 by 7.0\n10000000 -20000000, 0 -20000000, 5000000 by 9.0",
    ),
    // Any word that selects it counts, and 0.1 nm is a pen.
    (
        "%ADD11C,0.0000001*%%SRX2Y1I3.0J0*%G54D11*D03*X1000000D01*%SR*%M02*",
        "in halves 0 0, 0 0, 1 by 8.0\nin halves 0 0, 20000000 0, 1 by 9.0\nin halves 60000000 0, 60000000 0, 1 by 8.1\nin halves 60000000 0, 80000000 0, 1 by 9.1",
    ),
    // Others draw as they did.
    (
        "%ADD11C,0.3*%%ADD12C,0.3000001*%D11*X1000000D01*D12*X0D01*D11*X1000000D01*M02*",
        "0 0, 10000000 0, 1500000 by 8.0\nin halves 20000000 0, 0 0, 3000001 by 10.0\n0 0, 10000000 0, 1500000 by 12.0",
    ),
    (
        "%ADD11C,0.1000001*%D11*G75*G02X1000000I500000J0D01*G01X0D01*M02*",
        "(5000000 0) 10000000 0, 0 0, 1000001 by 8.0\nin halves 20000000 0, 0 0, 1000001 by 9.0",
    ),
    (
        "%ADD11C,0.1000001*%D11*G74*G03X1000000Y1000000I0J1000000D01*D10*X0Y2000000I1000000J0D01*M02*",
        "(0 10000000) 0 0, 10000000 10000000, 1000001 by 8.0\n(0 10000000) 10000000 10000000, 0 20000000, 10000000 by 10.0",
    ),
    (
        "%FSLAX26Y26*%%MOIN*%%ADD11C,0.0000005*%D11*X1000000D01*M02*",
        "in halves 0 0, 508000000 0, 127 by 5.0",
    ),
    // In a region and by a move it draws nothing.
    (
        "%ADD11C,0.1000001*%D11*G36*X1000000D01*Y1000000D01*X0Y0D01*G37*X2000000D02*M02*",
        "an area, 0 0, 10000000 0, 10000000 10000000, 0 0 by 11.0",
    ),
    // What ends a metre from 0.
    (
        "%ADD11C,49.9999999*%D11*X1000000000D01*M02*",
        "in halves 0 0, 20000000000 0, 499999999 by 7.0",
    ),
];

// Contours with arcs, all of this crate's own; one without is an area.
static REGIONS: [(&str, &str); 9] = [
    (
        "G75*G36*X0Y0D02*G03I500000D01*G37*M02*",
        "from 0 0, (5000000 0) true 0 0 by 9.0",
    ),
    (
        "G75*G36*X0Y0D02*G03X1000000I500000D01*X0I-500000D01*G37*M02*",
        "from 0 0, (5000000 0) true 10000000 0, (5000000 0) true 0 0 by 10.0",
    ),
    (
        "G75*G36*G02X1000000I500000J0D01*G01*X0D01*G37*M02*",
        "from 0 0, (5000000 0) false 10000000 0, 0 0 by 10.0",
    ),
    (
        "X0Y0D02*G36*G01X1000000D01*G75*G03X0Y1000000I-1000000J0D01*G01X0Y0D01*G37*M02*",
        "from 0 0, 10000000 0, (0 0) true 0 10000000, 0 0 by 11.0",
    ),
    (
        "G36*X0Y0D02*G01Y1000000D01*G74*G02X1000000Y0I0J1000000D01*G01X0Y0D01*G37*M02*",
        "from 0 0, 0 10000000, (0 0) false 10000000 0, 0 0 by 11.0",
    ),
    (
        "G75*G36*X0Y0D02*G03X1000000I500000J0D01*X0I-500000D01*X0I-500000D01*X3000000Y0D02*G01X4000000D01*Y1000000D01*X3000000Y0D01*G37*M02*",
        "from 0 0, (5000000 0) true 10000000 0, (5000000 0) true 0 0, (-5000000 0) true 0 0 by 11.0\nan area, 30000000 0, 40000000 0, 40000000 10000000, 30000000 0 by 15.0",
    ),
    (
        "%SRX2Y1I3.0J0*%G75*G36*X0Y0D02*G01X1000000D01*Y1000000D01*G03X0Y0I-500000J-500000D01*G37*%SR*%M02*",
        "from 0 0, 10000000 0, 10000000 10000000, (5000000 5000000) true 0 0 by 12.0\nfrom 30000000 0, 40000000 0, 40000000 10000000, (35000000 5000000) true 30000000 0 by 12.1",
    ),
    (
        "G36*X0Y0D02*G02X1000000I500000J0D01*G01X0Y1000000D01*Y0D01*G37*M02*",
        "NoQuadrants at command 7",
    ),
    (
        "G75*G36*X0Y0D02*G02X1000000I500000J0D01*G01X0Y1000000D01*G37*M02*",
        "Copper(Gerber(OpenContour)) at command 10",
    ),
];

// The first row that is read otherwise than it says.
fn first_other(alloc: Global, rows: &[(&str, &str)]) -> Result<String, AllocError> {
    for (words, expected) in rows {
        let read = told(alloc, *words)?;
        if read.as_str() != *expected {
            return format!(in alloc; "{words:?}: {read}");
        }
    }
    Ok(String::new(alloc))
}

#[test]
fn arcs_are_read(rt: HostRuntime) -> Result<(), Fail> {
    assert_eq!(rt; first_other(rt.alloc(), &ANY_ARCS)?.as_str(), "");
    assert_eq!(rt; first_other(rt.alloc(), &REGIONS)?.as_str(), "");
    assert_eq!(rt; first_other(rt.alloc(), &QUARTERS)?.as_str(), "");
    assert_eq!(rt; first_other(rt.alloc(), &REFUSALS)?.as_str(), "");
    Ok(())
}

#[test]
fn macros_are_read(rt: HostRuntime) -> Result<(), Fail> {
    assert_eq!(rt; first_other(rt.alloc(), &LINES)?.as_str(), "");
    assert_eq!(rt; first_other(rt.alloc(), &TURNS)?.as_str(), "");
    Ok(())
}

#[test]
fn holes_and_odd_sizes_are_read(rt: HostRuntime) -> Result<(), Fail> {
    assert_eq!(rt; first_other(rt.alloc(), &HOLES)?.as_str(), "");
    assert_eq!(rt; first_other(rt.alloc(), &FINES)?.as_str(), "");
    assert_eq!(rt; first_other(rt.alloc(), &FINE_MACROS)?.as_str(), "");
    assert_eq!(rt; first_other(rt.alloc(), &FINE_PENS)?.as_str(), "");
    Ok(())
}
