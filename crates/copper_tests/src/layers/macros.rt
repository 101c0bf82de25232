// Files with macros, and what they are read as.
use crate::layers::image;
use file_reading::RefusalKind;
use gerber_layer::{FlattenFault, read_flat};
use std::alloc::{AllocError, Global};
use std::fmt::Write;
use std::test::Fail;
use texts::MOST_BYTES;

// Primitives, and what they flash.
static IMAGES: [(&str, &str); 13] = [
    (
        "%FSLAX46Y46*%\n%MOMM*%\n%AMTwo*\n1,1,$1,0,0*\n21,1,$1+$1,$1,0,1.0,0*%\n%ADD10Two,1.0*%\nD10*\nX0Y0D03*\nM02*\n",
        "0 0, 0 0, 5000000 on 1 by 8.0\n[-10000000 5000000][10000000 5000000][10000000 15000000][-10000000 15000000] on 1 by 8.0",
    ),
    (
        "%FSLAX46Y46*%%MOMM*%%AMA*21,1,2,1,1,0,90*%%ADD10A*%D10*X1000000Y0D03*M02*",
        "[15000000 0][15000000 20000000][5000000 20000000][5000000 0] on 1 by 7.0",
    ),
    (
        "%FSLAX46Y46*%%MOMM*%%AMA*20,1,0.2,0,0,1.0,0,0*%%ADD10A*%D10*X0Y0D03*M02*",
        "[0 -1000000][10000000 -1000000][10000000 1000000][0 1000000] on 1 by 7.0",
    ),
    (
        "%FSLAX46Y46*%%MOMM*%%AMA*4,1,3,0,0,$1+$1,0,0,1,0,0,180*%%ADD10A,0.5*%D10*X0Y0D03*M02*",
        "[0 0][-10000000 0][0 -10000000] on 1 by 7.0",
    ),
    // A parameter that is missing is 0, a diameter of 0 gives no piece, and a comment says nothing.
    (
        "%FSLAX46Y46*%%MOMM*%%AMA*0 comment*1,1,$2,$1,0*1,1,1.0,$3,0*%%ADD10A,2.0*%D10*X0Y0D03*M02*",
        "0 0, 0 0, 5000000 on 1 by 9.0",
    ),
    // A macro behind another word of its pair, a second one, and a standard aperture.
    (
        "%FSLAX46Y46*%%MOMM*AMA*1,1,1,0,0*%%AMa*1,1,2,$1,0*%%ADD10A*%%ADD11a,1*%%ADD12C,3*%D11*D03*D10*D03*D12*D03*M02*",
        "10000000 0, 10000000 0, 10000000 on 1 by 11.0\n0 0, 0 0, 5000000 on 1 by 13.0\n0 0, 0 0, 15000000 on 1 by 15.0",
    ),
    // A block of flashes.
    (
        "%FSLAX46Y46*%%MOMM*%%AMA*1,1,1,0,0*1,1,2,0,1*%%ADD10A*%D10*%SRX2Y1I1J0*%X0Y0D03*M02*",
        "0 0, 0 0, 5000000 on 1 by 9.0\n0 10000000, 0 10000000, 10000000 on 1 by 9.0\n10000000 0, 10000000 0, 5000000 on 1 by 9.1\n10000000 10000000, 10000000 10000000, 10000000 on 1 by 9.1",
    ),
    // Every primitive turned back by a quarter.
    (
        "%FSLAX46Y46*%%MOMM*%%AMA*1,1,1,$1,0,270*4,1,3,0,0,$1,0,0,1,0,0,270*20,1,0.2,0,0,$1,0,270*21,1,2,1,$1,0,270*%%ADD10A,1*%D10*D03*M02*",
        "0 -10000000, 0 -10000000, 5000000 on 1 by 10.0\n[0 0][0 -10000000][10000000 0] on 1 by 10.0\n[-1000000 0][-1000000 -10000000][1000000 -10000000][1000000 0] on 1 by 10.0\n[-5000000 0][-5000000 -20000000][5000000 -20000000][5000000 0] on 1 by 10.0",
    ),
    // A macro stands before the unit, its lengths are in the file's.
    (
        "%AMc*1,1,0.1,$1,0*%%FSLAX46Y46*%%MOIN*%%ADD10c,0.5*%D10*Y1000000D03*M02*",
        "127000000 254000000, 127000000 254000000, 12700000 on 1 by 7.0",
    ),
    // Vector lines of no length and of no width, and a centre line of no height.
    (
        "%FSLAX46Y46*%%MOMM*%%AMA*20,1,1,$1,0,0,0,0*20,1,$1,0,0,1,0,0*21,1,1,$1,0,0,0*20,1,1,0,0,0,1+$2,90*%%ADD10A*%D10*X0Y0D03*M02*",
        "[0 -5000000][0 5000000][-10000000 5000000][-10000000 -5000000] on 1 by 10.0",
    ),
    // Two apertures of one macro, of which each has one image.
    (
        "%FSLAX46Y46*%%MOMM*%%AMA*1,1,$1,0,0*1,1,$2,1,0*%%ADD10A,1X0*%%ADD11A,0X2*%D10*D03*D11*D03*M02*",
        "0 0, 0 0, 5000000 on 1 by 9.0\n10000000 0, 10000000 0, 10000000 on 1 by 11.0",
    ),
    ("%TF.FileFunction,Soldermask,Top*%M02*", ""),
    ("%AMA*%M02*", ""),
];

// Macros that are refused, and definitions.
static REFUSALS: [(&str, &str); 22] = [
    (
        "%FSLAX46Y46*%%MOMM*%%AM*%M02*",
        "31 BadMacro at command 3, byte 21",
    ),
    (
        "%FSLAX46Y46*%%MOMM*%%AMC*%M02*",
        "31 BadMacro at command 3, byte 21",
    ),
    (
        "%FSLAX46Y46*%%MOMM*%%AMA*%%AMA*%M02*",
        "32 MacroTwice at command 4, byte 27",
    ),
    (
        "%FSLAX46Y46*%%MOMM*%%ADD10A,x*%%AMA*%M02*",
        "33 NoMacro at command 3, byte 21",
    ),
    (
        "%FSLAX46Y46*%%MOMM*%%AMA*%%ADD10a*%M02*",
        "33 NoMacro at command 4, byte 27",
    ),
    (
        "%FSLAX46Y46*%%MOMM*%%AMA*1,0,1,0,0*%M02*",
        "34 ExposureOff at command 4, byte 25",
    ),
    (
        "%FSLAX46Y46*%%MOMM*%%AMA*21,1,1,1,0,0,45*%M02*",
        "35 Turn at command 4, byte 25",
    ),
    (
        "%FSLAX46Y46*%%MOMM*%%AMA*7,0,0,1,1,0.1,0*%M02*",
        "31 BadMacro at command 4, byte 25",
    ),
    (
        "%FSLAX46Y46*%%MOMM*%%AMA*$2=$1x2*%M02*",
        "31 BadMacro at command 4, byte 25",
    ),
    (
        "%FSLAX46Y46*%%MOMM*%%AMA*ADD10C,1*%M02*",
        "31 BadMacro at command 4, byte 25",
    ),
    (
        "%FSLAX46Y46*%\n%MOMM*%\n%AMV*\n20,1,0.2,0,0,1.0,1.0,0*%\n%ADD10V*%\nM02*\n",
        "36 Slanted at command 5, byte 54",
    ),
    (
        "%FSLAX46Y46*%%MOMM*%%AMA*%%ADD10A,1X*%M02*",
        "31 BadMacro at command 4, byte 27",
    ),
    (
        "%FSLAX46Y46*%%MOMM*%%AMA*%%ADD10A,*%M02*",
        "31 BadMacro at command 4, byte 27",
    ),
    (
        "%FSLAX46Y46*%%MOMM*%%AMA*%%ADD10A*%%ADD10A*%M02*",
        "18 ApertureTwice at command 5, byte 36",
    ),
    (
        "%FSLAX46Y46*%%MOMM*%%AMA*%%ADD10A*%%ADD10A,x*%M02*",
        "31 BadMacro at command 5, byte 36",
    ),
    (
        "%FSLAX46Y46*%%MOMM*%%AMA*1,1,$1,0,0*%%ADD10C,1*%%ADD10A,0.00000005*%M02*",
        "18 ApertureTwice at command 6, byte 49",
    ),
    (
        "%FSLAX46Y46*%%MOMM*%%AMA*1,1,$1,0,0*%%ADD11A,0.00000005*%M02*",
        "23 OffGrid at command 5, byte 38",
    ),
    (
        "%FSLAX46Y46*%%MOMM*%%AMA*1,1,$1,0,0*%%ADD11A,0.0000001*%M02*",
        "23 OffGrid at command 5, byte 38",
    ),
    (
        "%FSLAX46Y46*%%MOMM*%%AMA*1,1,$1,0,0*%%ADD11A,50.0000002*%M02*",
        "24 OutOfRange at command 5, byte 38",
    ),
    (
        "%FSLAX46Y46*%%MOMM*%%AMA*1,1,1,1000,0*%%ADD10A*%D10*X1D03*M02*",
        "24 OutOfRange at command 7, byte 52",
    ),
    (
        "%FSLAX46Y46*%%MOMM*%%AMA*%%ADD10A*%D10*X1D01*M02*",
        "19 PenNotCircle at command 6, byte 39",
    ),
    ("%AMA*%%ADD10A*%M02*", "6 MissingUnit at command 2, byte 7"),
];

// Second rows, and faults that stand together: the first in the order is told.
static ORDERS: [(&str, &str); 20] = [
    (
        "%FSLAX46Y46*%%MOMM*%%AMA*1,1,1,0,0*%%AMB*%%AMA*1,0,x*%M02*",
        "32 MacroTwice at command 6, byte 43",
    ),
    (
        "%FSLAX46Y46*%%MOMM*%%AMP*1,1,1,0,0*%M02*",
        "31 BadMacro at command 3, byte 21",
    ),
    (
        "%FSLAX46Y46*%%MOMM*%%AMA*1,0,x,0,0*%M02*",
        "31 BadMacro at command 4, byte 25",
    ),
    (
        "%FSLAX46Y46*%%MOMM*%%AMA*20,0,1,0,0,1,1,45*%M02*",
        "34 ExposureOff at command 4, byte 25",
    ),
    (
        "%FSLAX46Y46*%%MOMM*%%AMA*1,1,1,0,0*4,1,3,0,0,1,0,1,1,0,0,-90*%M02*",
        "35 Turn at command 5, byte 35",
    ),
    (
        "%FSLAX46Y46*%%MOMM*%%AMA*21,1,1,x,0,0,45*%M02*",
        "31 BadMacro at command 4, byte 25",
    ),
    ("%AMA*%%ADD9B*%M02*", "6 MissingUnit at command 2, byte 7"),
    (
        "%FSLAX46Y46*%%MOMM*%%AMA*%%ADD9B,x*%M02*",
        "1 BadWord at command 4, byte 27",
    ),
    (
        "%FSLAX46Y46*%%MOMM*%%AMA*20,1,1,0,0,1,1,0*1,1,0.0000001,0,0*%%ADD10A*%M02*",
        "36 Slanted at command 6, byte 62",
    ),
    (
        "%FSLAX46Y46*%%MOMM*%%AMA*20,1,0.0000001,0,0,1,1,0*%%ADD10A*%M02*",
        "23 OffGrid at command 5, byte 52",
    ),
    (
        "%FSLAX46Y46*%%MOMM*%%AMA*4,1,3,0,0,1,0,1,1,$1,0,0*20,1,1,0,0,1,1,0*%%ADD10A,1*%M02*",
        "31 BadMacro at command 6, byte 69",
    ),
    (
        "%FSLAX46Y46*%%MOMM*%%AMA*4,1,3,0,0,1,0,1,1001,1,0,0*%%ADD10A*%M02*",
        "24 OutOfRange at command 5, byte 54",
    ),
    (
        "%FSLAX46Y46*%%MOMM*%%AMA*1,1,1,0,0*%%ADD10A*%D10*X1000000001D01*M02*",
        "24 OutOfRange at command 7, byte 49",
    ),
    (
        "%FSLAX46Y46*%%MOMM*%%AMA*1,1,1,0,0*%%ADD10A*%D10*X5D02*D01*M02*",
        "19 PenNotCircle at command 8, byte 55",
    ),
    (
        "%MOMM*%%AMA*1,1,1,0,0*%%ADD10A*%D10*X1D03*M02*",
        "5 MissingFormat at command 6, byte 36",
    ),
    (
        "%FSLAX47Y47*%%MOIN*%%AMA*1,1,1,0,0*%%ADD10A*%D10*X1Y99999999999D03*M02*",
        "23 OffGrid at command 7, byte 49",
    ),
    (
        "%FSLAX47Y47*%%MOIN*%%AMA*1,1,1,0,0*%%ADD10A*%D10*Y1D03*M02*",
        "23 OffGrid at command 7, byte 49",
    ),
    (
        "%FSLAX46Y46*%%MOMM*%%AMA*1,1,1,0,0*%%ADD10A*%D10*G36*Y-1000000001D03*M02*",
        "24 OutOfRange at command 8, byte 53",
    ),
    (
        "%FSLAX46Y46*%%MOMM*%%AMA*1,1,1,0,0*%%ADD10A*%D10*G36*D03*M02*",
        "20 NotInRegion at command 8, byte 53",
    ),
    (
        "%FSLAX46Y46*%%MOMM*%%AMA*1,1,1,0,0*21,1,2,1,0,0,90*%%ADD10A*%D10*Y999000001D03*M02*",
        "24 OutOfRange at command 8, byte 65",
    ),
];

// Pads as KiCad 6 to 9 write them, up to the last part of the last body word.
const ROUNDED: &str =
    "%AMRoundRect*\n0 Rounded box: $1 is the radius, $2 to $9 are the corners of the inner box*\n4,1,4,$2,$3,$4,$5,$6,$7,$8,$9,$2,$3,0*\n1,1,$1+$1,$2,$3*\n1,1,$1+$1,$4,$5*\n1,1,$1+$1,$6,$7*\n1,1,$1+$1,$8,$9*\n20,1,$1+$1,$2,$3,$4,$5,0*\n20,1,$1+$1,$4,$5,$6,$7,0*\n20,1,$1+$1,$6,$7,$8,$9,0*\n20,1,$1+$1,$8,$9,$2,$3,0";

const OVAL: &str =
    "%AMHorizOval*\n0 A stroke: $1 is the width, $2 to $5 are its ends*\n20,1,$1,$2,$3,$4,$5,0*\n1,1,$1,$2,$3*\n1,1,$1,$4,$5";

const CHAMFERED: &str =
    "%AMOutline8P*\n0 Eight corners, $1 to $16*\n4,1,8,$1,$2,$3,$4,$5,$6,$7,$8,$9,$10,$11,$12,$13,$14,$15,$16,$1,$2";

const TRAPEZOID: &str =
    "%AMTrapezoid*\n0 $1 and $2 are half the sides, $3 is what one end is wider*\n4,1,4,-$1-$3,-$2,$1+$3,-$2,$1-$3,$2,-$1+$3,$2,-$1-$3,-$2";

const RECTANGLE: &str = "%AMRotRect*\n0 $1 is the length, $2 the width*\n21,1,$1,$2,0,0";

const POLYGON: &str =
    "%AMFreePoly0*\n4,1,6,0.5,-0.25,0.25,-0.5,-0.5,-0.5,-0.5,0.5,0.25,0.5,0.5,0.25,0.5,-0.25";

// How such a macro ends, what follows it, and what it is read as.
type Pad = (&'static str, &'static str, &'static str, &'static str);

// Pads as they are placed, turned by quarter turns and by 45 degrees.
static PADS: [Pad; 19] = [
    (
        ROUNDED,
        "",
        "%ADD10RoundRect,0.250000X-0.262500X-0.450000X0.262500X-0.450000X0.262500X0.450000X-0.262500X0.450000X0.000000*%\nD10*\nX100000000Y-50000000D03*\nM02*\n",
        "[997375000 -504500000][1002625000 -504500000][1002625000 -495500000][997375000 -495500000] on 1 by 16.0\n997375000 -504500000, 997375000 -504500000, 2500000 on 1 by 16.0\n1002625000 -504500000, 1002625000 -504500000, 2500000 on 1 by 16.0\n1002625000 -495500000, 1002625000 -495500000, 2500000 on 1 by 16.0\n997375000 -495500000, 997375000 -495500000, 2500000 on 1 by 16.0\n[997375000 -507000000][1002625000 -507000000][1002625000 -502000000][997375000 -502000000] on 1 by 16.0\n[1000125000 -504500000][1005125000 -504500000][1005125000 -495500000][1000125000 -495500000] on 1 by 16.0\n[997375000 -498000000][1002625000 -498000000][1002625000 -493000000][997375000 -493000000] on 1 by 16.0\n[994875000 -504500000][999875000 -504500000][999875000 -495500000][994875000 -495500000] on 1 by 16.0",
    ),
    (
        ROUNDED,
        "",
        "%ADD11RoundRect,0.25X0.45X-0.2625X0.45X0.2625X-0.45X0.2625X-0.45X-0.2625*%\nD11*\nX1000000Y2000000D03*\nM02*\n",
        "[14500000 17375000][14500000 22625000][5500000 22625000][5500000 17375000] on 1 by 16.0\n14500000 17375000, 14500000 17375000, 2500000 on 1 by 16.0\n14500000 22625000, 14500000 22625000, 2500000 on 1 by 16.0\n5500000 22625000, 5500000 22625000, 2500000 on 1 by 16.0\n5500000 17375000, 5500000 17375000, 2500000 on 1 by 16.0\n[12000000 17375000][17000000 17375000][17000000 22625000][12000000 22625000] on 1 by 16.0\n[5500000 20125000][14500000 20125000][14500000 25125000][5500000 25125000] on 1 by 16.0\n[3000000 17375000][8000000 17375000][8000000 22625000][3000000 22625000] on 1 by 16.0\n[5500000 14875000][14500000 14875000][14500000 19875000][5500000 19875000] on 1 by 16.0",
    ),
    (
        ROUNDED,
        "",
        "%ADD12RoundRect,0.1X0.282843X0X0X0.282843X-0.282843X0X0X-0.282843*%\nD12*\nX0Y0D03*\nM02*\n",
        "36 Slanted at command 14, byte 325",
    ),
    (
        OVAL,
        "",
        "%ADD10HorizOval,0.6X-0.3X0X0.3X0*%\n%ADD11HorizOval,0.6X0X0.3X0X-0.3X0*%\nD10*\nX0Y0D03*\nD11*\nX0Y5000000D03*\nM02*\n",
        "[-3000000 -3000000][3000000 -3000000][3000000 3000000][-3000000 3000000] on 1 by 11.0\n-3000000 0, -3000000 0, 3000000 on 1 by 11.0\n3000000 0, 3000000 0, 3000000 on 1 by 11.0\n[-3000000 47000000][3000000 47000000][3000000 53000000][-3000000 53000000] on 1 by 13.0\n0 53000000, 0 53000000, 3000000 on 1 by 13.0\n0 47000000, 0 47000000, 3000000 on 1 by 13.0",
    ),
    (
        OVAL,
        "",
        "%ADD12HorizOval,0.6X-0.212132X-0.212132X0.212132X0.212132*%\nD12*\nX0Y0D03*\nM02*\n",
        "36 Slanted at command 8, byte 141",
    ),
    (
        CHAMFERED,
        ",0",
        "%ADD10Outline8P,0.4X0.5X-0.4X0.5X-0.5X0.4X-0.5X-0.4X-0.4X-0.5X0.4X-0.5X0.5X-0.4X0.5X0.4*%\nD10*\nX1000000Y0D03*\nM02*\n",
        "[14000000 5000000][6000000 5000000][5000000 4000000][5000000 -4000000][6000000 -5000000][14000000 -5000000][15000000 -4000000][15000000 4000000] on 1 by 8.0",
    ),
    (
        CHAMFERED,
        ",90.0",
        "%ADD10Outline8P,0.3X0.5X-0.4X0.5X-0.5X0.4X-0.5X-0.4X-0.4X-0.5X0.4X-0.5X0.5X-0.4X0.5X0.4X0.0*%\nD10*\nX1000000Y0D03*\nM02*\n",
        "[5000000 3000000][5000000 -4000000][6000000 -5000000][14000000 -5000000][15000000 -4000000][15000000 4000000][14000000 5000000][6000000 5000000] on 1 by 8.0",
    ),
    (CHAMFERED, ",45", "M02*\n", "35 Turn at command 5, byte 64"),
    (
        CHAMFERED,
        ",$17",
        "M02*\n",
        "31 BadMacro at command 5, byte 64",
    ),
    (
        TRAPEZOID,
        ",0",
        "%ADD10Trapezoid,0.5X0.4X0.1*%\nD10*\nX0Y0D03*\nM02*\n",
        "[-6000000 -4000000][6000000 -4000000][4000000 4000000][-4000000 4000000] on 1 by 8.0",
    ),
    (
        TRAPEZOID,
        ",270",
        "%ADD10Trapezoid,0.5X0.4X-0.1*%\nD10*\nX0Y0D03*\nM02*\n",
        "[-4000000 4000000][-4000000 -4000000][4000000 -6000000][4000000 6000000] on 1 by 8.0",
    ),
    (TRAPEZOID, ",45", "M02*\n", "35 Turn at command 5, byte 97"),
    (
        RECTANGLE,
        ",90",
        "%ADD10RotRect,1.5X0.6*%\nD10*\nX0Y0D03*\nM02*\n",
        "[3000000 -7500000][3000000 7500000][-3000000 7500000][-3000000 -7500000] on 1 by 8.0",
    ),
    (
        RECTANGLE,
        ",180",
        "%ADD10RotRect,1.5X0.6*%\nD10*\nX0Y0D03*\nM02*\n",
        "[7500000 3000000][-7500000 3000000][-7500000 -3000000][7500000 -3000000] on 1 by 8.0",
    ),
    (
        RECTANGLE,
        ",45.0",
        "M02*\n",
        "35 Turn at command 5, byte 68",
    ),
    (
        RECTANGLE,
        ",$3",
        "M02*\n",
        "31 BadMacro at command 5, byte 68",
    ),
    (
        POLYGON,
        ",0",
        "%ADD10FreePoly0*%\nD10*\nX0Y0D03*\nM02*\n",
        "[5000000 -2500000][2500000 -5000000][-5000000 -5000000][-5000000 5000000][2500000 5000000][5000000 2500000] on 1 by 7.0",
    ),
    (
        POLYGON,
        ",270",
        "%ADD10FreePoly0,270*%\nD10*\nX0Y0D03*\nM02*\n",
        "[-2500000 -5000000][-5000000 -2500000][-5000000 5000000][5000000 5000000][5000000 -2500000][2500000 -5000000] on 1 by 7.0",
    ),
    (
        POLYGON,
        ",$1",
        "M02*\n",
        "31 BadMacro at command 4, byte 36",
    ),
];

fn refusal(alloc: Global, fault: FlattenFault) -> Result<String, AllocError> {
    match fault {
        FlattenFault::NoMemory => String::from_str(alloc, "no memory"),
        FlattenFault::Refused { kind, command, at } => {
            let (number, name) = (kind.number(), kind.name());
            format!(in alloc; "{number} {name} at command {command}, byte {at}")
        },
    }
}

fn told(alloc: Global, file: &[u8]) -> Result<String, AllocError> {
    if file.len() > MOST_BYTES {
        return String::from_str(alloc, "no file");
    }
    match read_flat(alloc, file) {
        Ok(pieces) => image(alloc, &pieces),
        Err(fault) => refusal(alloc, fault),
    }
}

// The first row that is read otherwise than it says.
fn first_other(alloc: Global, rows: &[(&str, &str)]) -> Result<String, AllocError> {
    for (file, expected) in rows {
        let read = told(alloc, file.as_bytes())?;
        if read.as_str() != *expected {
            return format!(in alloc; "{file:?}: {read}");
        }
    }
    Ok(String::new(alloc))
}

// The first pad that is read otherwise than it says.
fn first_other_pad(alloc: Global) -> Result<String, AllocError> {
    for (name, turn, rest, expected) in &PADS {
        let file = format!(in alloc; "%FSLAX46Y46*%\n%MOMM*%\n{name}{turn}*%\n{rest}")?;
        let read = told(alloc, file.as_bytes())?;
        if read.as_str() != *expected {
            return format!(in alloc; "{file:?}: {read}");
        }
    }
    Ok(String::new(alloc))
}

#[test]
fn macros_are_read(rt: HostRuntime) -> Result<(), Fail> {
    assert_eq!(rt; first_other(rt.alloc(), &IMAGES)?.as_str(), "");
    assert_eq!(rt; first_other(rt.alloc(), &REFUSALS)?.as_str(), "");
    assert_eq!(rt; first_other(rt.alloc(), &ORDERS)?.as_str(), "");
    assert_eq!(rt; first_other_pad(rt.alloc())?.as_str(), "");
    Ok(())
}

// What large files are read as: how many pieces, or the refusal.
fn counted(alloc: Global, file: &[u8]) -> Result<String, AllocError> {
    if file.len() > MOST_BYTES {
        return String::from_str(alloc, "no file");
    }
    match read_flat(alloc, file) {
        Ok(pieces) => {
            let n = pieces.len();
            format!(in alloc; "{n} pieces")
        },
        Err(fault) => refusal(alloc, fault),
    }
}

// The first ending that makes a file that is read otherwise than it says.
fn first_other_end(
    alloc: Global,
    begin: &str,
    ends: &[(&str, &str)],
) -> Result<String, AllocError> {
    for (end, expected) in ends {
        let mut file = String::from_str(alloc, begin)?;
        file.push_str(end)?;
        let read = counted(alloc, file.as_bytes())?;
        if read.as_str() != *expected {
            return format!(in alloc; "{end:?}: {read}");
        }
    }
    Ok(String::new(alloc))
}

// Macros of no, one and two pieces and of outlines with 1,000 and 999 edges, and an aperture of
// each.
fn shapes(alloc: Global) -> Result<String, AllocError> {
    let mut file = String::new(alloc);
    file.push_str(
        "%FSLAX46Y46*%%MOMM*%%AMOne*1,1,1,0,0*%%AMTwo*1,1,1,0,0*1,1,1,1,0*%%AMNone*1,1,0,0,0*%%AMBox*21,1,1,1,0,0,0*%%AMBoxes*21,1,1,1,0,0,0*20,1,1,0,0,1,0,0*%%AMMost*4,1,1000,0,0",
    )?;
    for _ in 0..999 {
        file.push_str(",1,1")?;
    }
    file.push_str(",0,0,0*%%AMMany*4,1,999,0,0")?;
    for _ in 0..998 {
        file.push_str(",1,1")?;
    }
    file.push_str(
        ",0,0,0*%%ADD10One*%%ADD11Two*%%ADD12None*%%ADD13Box*%%ADD14Boxes*%%ADD15Most*%%ADD16Many*%",
    )?;
    Ok(file)
}

// Flashes and blocks where the room for 200,000 pieces or for 1,000,000 edges is used up.
static ROOMS: [(&str, &str); 8] = [
    // A flash is judged as a whole.
    (
        "D10*%SRX199999Y1I0.001J0*%D03*%SR*%D11*D03*M02*",
        "27 TooManyPieces at command 31, byte 8314",
    ),
    (
        "D16*%SRX1000Y1I0J0*%D03*D13*%SRX249Y1I0J0*%D03*%SR*%D14*D03*M02*",
        "28 TooManyVertices at command 34, byte 8331",
    ),
    // What has no edge wants no room for edges, what has no piece no room at all; pieces come first.
    (
        "D15*%SRX1000Y1I0J0*%D03*%SR*%D11*D03*D12*D03*D13*D03*M02*",
        "28 TooManyVertices at command 35, byte 8324",
    ),
    (
        "D15*%SRX1000Y1I0J0*%D03*D10*%SRX199000Y1I0J0*%D03*%SR*%D12*D03*D13*D03*M02*",
        "27 TooManyPieces at command 36, byte 8342",
    ),
    // Corners come before both.
    (
        "D15*%SRX1000Y1I0J0*%D03*%SR*%D13*X1000000000D03*M02*",
        "24 OutOfRange at command 31, byte 8308",
    ),
    (
        "D10*%SRX200000Y1I0J0*%D03*%SR*%D13*X1000000000D03*M02*",
        "24 OutOfRange at command 31, byte 8310",
    ),
    // The block's end.
    (
        "D11*%SRX100001Y1I0.001J0*%D03*%SR*%M02*",
        "27 TooManyPieces at command 29, byte 8306",
    ),
    (
        "D15*%SRX1001Y1I0J0*%D03*M02*",
        "28 TooManyVertices at command 29, byte 8299",
    ),
];

#[test]
fn rooms_are_of_whole_flashes(rt: HostRuntime) -> Result<(), Fail> {
    let begin = shapes(rt.alloc())?;
    assert_eq!(rt;
        first_other_end(rt.alloc(), begin.as_str(), &ROOMS)?.as_str(),
        ""
    );
    Ok(())
}

// Circles of 65,536 radii: 256 in a macro, and 256 apertures.
fn circles(alloc: Global) -> Result<String, AllocError> {
    let mut file = String::new(alloc);
    file.push_str("%FSLAX46Y46*%%MOMM*%%AMA*")?;
    for n in 100..356 {
        write!(file, "1,1,$1+0.{n},0,0*")?;
    }
    file.push_str("%")?;
    for n in 100..357 {
        write!(file, "%ADD{n}A,0.000{n}*%")?;
    }
    file.push_str("%ADD400C,10*%%ADD401C,0.2001*%")?;
    for n in 100..356 {
        write!(file, "D{n}*D03*")?;
    }
    Ok(file)
}

// Endings of such a file.
static RADII: [(&str, &str); 5] = [
    // The end word's other conditions come before that on radii.
    (
        "D356*D03*G36*M02*",
        "20 NotInRegion at command 1034, byte 11608",
    ),
    (
        "D356*%SRX3Y1I1000J0*%D03*M02*",
        "24 OutOfRange at command 1034, byte 11620",
    ),
    ("D401*D03*D100*D03*M02*", "65793 pieces"),
    (
        "D400*D03*M2*",
        "37 TooManyRadii at command 1033, byte 11604",
    ),
    (
        "D356*D03*M02*",
        "37 TooManyRadii at command 1033, byte 11604",
    ),
];

#[test]
fn a_file_has_few_radii(rt: HostRuntime) -> Result<(), Fail> {
    let begin = circles(rt.alloc())?;
    assert_eq!(rt;
        first_other_end(rt.alloc(), begin.as_str(), &RADII)?.as_str(),
        ""
    );
    Ok(())
}

// A macro of 256 primitives.
fn full_macro(alloc: Global) -> Result<String, AllocError> {
    let mut file = String::new(alloc);
    file.push_str("%FSLAX46Y46*%%MOMM*%%AMA*")?;
    for _ in 0..256 {
        file.push_str("1,1,1,0,0*")?;
    }
    Ok(file)
}

// Endings of such a macro.
static FULL_MACROS: [(&str, &str); 4] = [
    ("%%ADD10A*%D10*D03*M02*", "256 pieces"),
    ("0*%M02*", "0 pieces"),
    ("1,1,1,0,0*%M02*", "31 BadMacro at command 260, byte 2585"),
    ("1,0,1,0,0*%M02*", "31 BadMacro at command 260, byte 2585"),
];

#[test]
fn a_macro_has_few_primitives(rt: HostRuntime) -> Result<(), Fail> {
    let begin = full_macro(rt.alloc())?;
    assert_eq!(rt;
        first_other_end(rt.alloc(), begin.as_str(), &FULL_MACROS)?.as_str(),
        ""
    );
    Ok(())
}

// A macro of long primitives of which one may have an image, and so many flashes of it that their
// text could not be read at each.
fn blank_macro(alloc: Global) -> Result<String, AllocError> {
    let mut file = String::new(alloc);
    file.push_str("%FSLAX46Y46*%%MOMM*%%AMA*")?;
    for _ in 0..255 {
        file.push_str("1,1,0")?;
        for _ in 0..63 {
            file.push_str("+0")?;
        }
        file.push_str(",0,0*")?;
    }
    file.push_str("1,1,$1,0,0*%%ADD10A*%%ADD11A,1*%D10*")?;
    for _ in 0..50_000 {
        file.push_str("D03*")?;
    }
    Ok(file)
}

#[test]
fn what_has_no_image_is_not_read_at_flashes(rt: HostRuntime) -> Result<(), Fail> {
    let begin = blank_macro(rt.alloc())?;
    let ends = [("M02*", "0 pieces"), ("D11*D03*M02*", "1 pieces")];
    assert_eq!(rt;
        first_other_end(rt.alloc(), begin.as_str(), &ends)?.as_str(),
        ""
    );
    Ok(())
}

// As many apertures as there may be.
fn apertures(alloc: Global) -> Result<String, AllocError> {
    let mut file = String::new(alloc);
    file.push_str("%MOMM*%%AMA*%%AMB*1,1,0.0000001,0,0*%")?;
    for n in 10..65_546 {
        write!(file, "%ADD{n}A*%")?;
    }
    Ok(file)
}

// What may come behind them: a number that is taken, then the room, and only then the primitives.
static MANY_APERTURES: [(&str, &str); 2] = [
    (
        "%ADD10B*%M02*",
        "18 ApertureTwice at command 65541, byte 775400",
    ),
    (
        "%ADD99999B*%M02*",
        "30 TooManyApertures at command 65541, byte 775400",
    ),
];

#[test]
fn macros_make_few_apertures(rt: HostRuntime) -> Result<(), Fail> {
    let begin = apertures(rt.alloc())?;
    assert_eq!(rt;
        first_other_end(rt.alloc(), begin.as_str(), &MANY_APERTURES)?.as_str(),
        ""
    );
    Ok(())
}
