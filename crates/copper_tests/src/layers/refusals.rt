// Files of layer 1 that are refused: the number and the name of the kind, the command, and its place.
use crate::layers::told;
use std::alloc::{AllocError, Global};
use std::test::Fail;

// Words that are none, the end, format and unit.
static WORDS_AND_SETTINGS: [(&str, &str); 18] = [
    (
        "%FSLAX46Y46*%%MOMM*%G99*M02*",
        "1 BadWord at command 3, byte 20",
    ),
    (
        "%FSLAX46Y46*%%MOMM*%%LPX*%M02*",
        "1 BadWord at command 3, byte 21",
    ),
    (
        "%FSLAX46Y46*%%MOMM*%X+-1D02*M02*",
        "1 BadWord at command 3, byte 20",
    ),
    (
        "%FSLAX46Y46*%%MOMM*%X12345678901234D02*M02*",
        "1 BadWord at command 3, byte 20",
    ),
    (
        "%FSLAX46Y46*%%MOMM*%I1J1*M02*",
        "1 BadWord at command 3, byte 20",
    ),
    (
        "%FSLAX46Y46*%%MOMM*%D09*M02*",
        "1 BadWord at command 3, byte 20",
    ),
    (
        "%FSLAX46Y46*%%MOMM*%%ADD9C,1*%M02*",
        "1 BadWord at command 3, byte 21",
    ),
    (
        "%FSLAX46Y46*%%MOMM*%%ADD10C*%M02*",
        "1 BadWord at command 3, byte 21",
    ),
    (
        "%FSLAX46Y46*%%MOMM*%%SRX3Y2I1.0*%M02*",
        "1 BadWord at command 3, byte 21",
    ),
    ("%%M02*", "1 BadWord at command 1, byte 1"),
    ("G0\n4*M02*", "2 LineBreakInWord at command 1, byte 0"),
    ("%LPD*", "3 NotEnded at command 2, byte 5"),
    (
        "%FSLAX46Y46*%%MOMM*%G04 no end*\n",
        "3 NotEnded at command 4, byte 32",
    ),
    (
        "%FSLAX46Y46*%%MOMM*%M02*G04*",
        "4 AfterEnd at command 4, byte 24",
    ),
    ("%MOMM*%D02*M02*", "5 MissingFormat at command 2, byte 7"),
    (
        "%FSLAX46Y46*%X0D02*M02*",
        "6 MissingUnit at command 2, byte 13",
    ),
    (
        "%FSLAX46Y46*%%ADD10C,1*%M02*",
        "6 MissingUnit at command 2, byte 14",
    ),
    (
        "%FSLAX46Y46*%%SRX1*%M02*",
        "6 MissingUnit at command 2, byte 14",
    ),
];

// Forms that the profile leaves out, and apertures.
static FORMS_LEFT_OUT: [(&str, &str); 18] = [
    ("%FSLAX46Y45*%M02*", "7 BadFormat at command 1, byte 1"),
    (
        "%FSLAX46Y46*%%FSLAX36Y36*%M02*",
        "7 BadFormat at command 2, byte 14",
    ),
    ("%MOMM*%G70*M02*", "8 UnitConflict at command 2, byte 7"),
    ("G91*M02*", "9 Incremental at command 1, byte 0"),
    ("%FSLIX46Y46*%M02*", "9 Incremental at command 1, byte 1"),
    ("%LPC*%M02*", "10 ClearPolarity at command 1, byte 1"),
    ("G2X1*M02*", "11 Arc at command 1, byte 0"),
    ("X1Y1J5I-5D01*M02*", "11 Arc at command 1, byte 0"),
    (
        "%FSLAX46Y46*%%MOMM*%%AMDISC*1,1,1*%M02*",
        "12 Macro at command 3, byte 21",
    ),
    (
        "%FSLAX46Y46*%%MOMM*%%ADD10DISC*%M02*",
        "12 Macro at command 3, byte 21",
    ),
    ("%ABD10*%M02*", "13 Block at command 1, byte 1"),
    (
        "%FSLAX46Y46*%%MOMM*%%ADD10P,1X3*%M02*",
        "14 Polygon at command 3, byte 21",
    ),
    (
        "%FSLAX46Y46*%%MOMM*%%ADD10C,1X0.5*%M02*",
        "15 Hole at command 3, byte 21",
    ),
    (
        "%LR0.0*LS1.0*LS2*%M02*",
        "16 Transform at command 3, byte 13",
    ),
    (
        "%FSLAX46Y46*%%MOMM*%X0Y0D03*M02*",
        "17 NoAperture at command 3, byte 20",
    ),
    (
        "%FSLAX46Y46*%%MOMM*%D10*M02*",
        "17 NoAperture at command 3, byte 20",
    ),
    (
        "%FSLAX46Y46*%%MOMM*%%ADD10C,1*%%ADD10R,1X1*%M02*",
        "18 ApertureTwice at command 4, byte 32",
    ),
    (
        "%FSLAX46Y46*%%MOMM*%%ADD10R,1X1*%D10*X1D01*M02*",
        "19 PenNotCircle at command 5, byte 37",
    ),
];

// Regions, the grid, the range and the layer.
static REGIONS_AND_RANGES: [(&str, &str); 18] = [
    (
        "%FSLAX46Y46*%%MOMM*%G36*G36*M02*",
        "20 NotInRegion at command 4, byte 24",
    ),
    (
        "%FSLAX46Y46*%%MOMM*%G37*M02*",
        "20 NotInRegion at command 3, byte 20",
    ),
    (
        "%FSLAX46Y46*%%MOMM*%%ADD10C,1*%D10*G36*X0Y0D03*M02*",
        "20 NotInRegion at command 6, byte 39",
    ),
    (
        "%FSLAX46Y46*%%MOMM*%G36*%SR*%M02*",
        "20 NotInRegion at command 4, byte 25",
    ),
    (
        "%FSLAX46Y46*%%MOMM*%G36*M02*",
        "20 NotInRegion at command 4, byte 24",
    ),
    (
        "%FSLAX46Y46*%%MOMM*%G36*X0Y0D02*X1D01*X1Y1D01*X0Y5D02*M02*",
        "21 OpenContour at command 7, byte 46",
    ),
    (
        "%FSLAX46Y46*%%MOMM*%G36*X0Y0D02*X1D01*X0D01*G37*M02*",
        "22 ShortContour at command 7, byte 44",
    ),
    (
        "%FSLAX46Y46*%%MOMM*%%ADD10C,1.0000001*%M02*",
        "23 OffGrid at command 3, byte 21",
    ),
    (
        "%FSLAX47Y47*%%MOIN*%X1Y9999999999999D02*M02*",
        "23 OffGrid at command 3, byte 20",
    ),
    (
        "%FSLAX46Y46*%%MOMM*%%SRX2Y1I0.00000001J0*%M02*",
        "23 OffGrid at command 3, byte 21",
    ),
    (
        "%FSLAX46Y46*%%MOMM*%X1000000001Y0D02*M02*",
        "24 OutOfRange at command 3, byte 20",
    ),
    (
        "%FSLAX46Y46*%%MOMM*%%ADD10O,2X1*%D10*X1000000000Y0D03*M02*",
        "24 OutOfRange at command 5, byte 37",
    ),
    (
        "%FSLAX46Y46*%%MOMM*%%ADD10C,1*%D10*%SRX2Y1I600J0*%X500000000D03*%SR*%M02*",
        "24 OutOfRange at command 7, byte 65",
    ),
    (
        "%TF.FileFunction,Copper,L1,Top*TF.FileFunction,Copper,L2,Bot*%M02*",
        "25 WrongLayer at command 2, byte 31",
    ),
    (
        "%TF.FileFunction,Copper,L01*%M02*",
        "25 WrongLayer at command 1, byte 1",
    ),
    (
        "%TF.FileFunction,Cu,L1*%M02*",
        "25 WrongLayer at command 1, byte 1",
    ),
    (
        "%TF.FileFunction*%M02*",
        "25 WrongLayer at command 1, byte 1",
    ),
    (
        "%TF.FilePolarity,Positive*TF.FilePolarity,Negative*%M02*",
        "26 NegativeFile at command 2, byte 26",
    ),
];

// Rooms that are used up, and files of several faults.
static ROOMS: [(&str, &str); 17] = [
    ("%IPNEG*%M02*", "26 NegativeFile at command 1, byte 1"),
    (
        "%FSLAX46Y46*%%MOMM*%%ADD10C,1*%D10*X0Y0D03*X0Y0D03*X0Y0D03*X0Y0D03*X0Y0D03*X0Y0D03*X0Y0D03*M02*",
        "27 TooManyPieces at command 11, byte 83",
    ),
    (
        "%FSLAX46Y46*%%MOMM*%%ADD10C,1*%D10*%SRX2Y2I0J0*%D03*D03*M02*",
        "27 TooManyPieces at command 8, byte 56",
    ),
    (
        "%FSLAX46Y46*%%MOMM*%%ADD10R,1X1*%D10*X0Y0D03*X0Y0D03*X0Y0D03*X0Y0D03*X0Y0D03*M02*",
        "28 TooManyVertices at command 9, byte 69",
    ),
    (
        "%FSLAX46Y46*%%MOMM*%%ADD10R,1X1*%D10*%SRX5Y1I0J0*%D03*%SR*%M02*",
        "28 TooManyVertices at command 7, byte 55",
    ),
    (
        "%FSLAX46Y46*%%MOMM*%G36*X0D02*X1D01*X1D01*X1D01*X1D01*X1D01*X1D01*X1D01*X1D01*X1D01*X1D01*X1D01*X1D01*X1D01*X1D01*X1D01*X1D01*X1D01*G37*M02*",
        "28 TooManyVertices at command 21, byte 126",
    ),
    (
        "%FSLAX46Y46*%%MOMM*%X0D02*X1*M02*",
        "29 NoOperation at command 4, byte 26",
    ),
    (
        "%FSLAX46Y46*%%MOMM*%%ADD10C,1*%G36*X0Y0D02*X1D01*X1000000001D02*M02*",
        "24 OutOfRange at command 7, byte 49",
    ),
    (
        "%FSLAX46Y46*%%MOMM*%%ADD10R,1X1*%D10*X1000000001D01*M02*",
        "24 OutOfRange at command 5, byte 37",
    ),
    (
        "%FSLAX46Y46*%\n%MOMM*%\nG36*\nX0Y0D02*\nX1000000Y0D01*\nX1000000Y1000000D01*\nX0Y1000000D01*\nG37*\nM02*\n",
        "21 OpenContour at command 8, byte 87",
    ),
    (
        "%FSLAX46Y46*%\n%MOMM*%\nG36*\nX0Y0D02*\nX1000000Y0D01*\nX0Y0D01*\nG37*\nM02*\n",
        "22 ShortContour at command 7, byte 60",
    ),
    (
        "%FSLAX46Y46*%\n%MOMM*%\n%ADD10C,1.0*%\nD10*\n%SRX1000000Y1000000I1.0J1.0*%\nX0Y0D03*\n%SR*%\nM02*\n",
        "27 TooManyPieces at command 7, byte 81",
    ),
    (
        "%FSLAX46Y46*%\n%MOMM*%\n%ADD10C,1.0000001*%\nD10*\nX0Y0D03*\nM02*\n",
        "23 OffGrid at command 3, byte 23",
    ),
    (
        "%FSLAX46Y46*%\n%MOMM*%\n%ADD10C,1.0*%\nD10*\nX0Y0D03*\nX0Y0D02*\nG02*\nX1000000Y0D01*\n%LPC*%\nM02*\n",
        "11 Arc at command 7, byte 59",
    ),
    (
        "%FSLAX46Y46*%\n%MOMM*%\n%ADD10C,1.0*%\nD10*\nX0Y0D03*\nX1000000Y0D0",
        "3 NotEnded at command 6, byte 50",
    ),
    (
        "%FSLAX46Y46*%\n%MOMM*%\n%ADD10C,1.0*%\nD10*\nX0Y0D03*\nX1000000Y0D03*\n",
        "3 NotEnded at command 7, byte 65",
    ),
    (
        "%FSLAX46Y46*%\n%MOMM*%\n%ADD10C,1.0*%\nD10*\nX0Y0D03*\nX1000000Y0D03*\nM02*\nG04*\n",
        "4 AfterEnd at command 8, byte 70",
    ),
];

// Whether each file is refused as its row says.
fn are_refused(alloc: Global, rows: &[(&str, &str)]) -> Result<bool, AllocError> {
    for (file, expected) in rows {
        let read = told(alloc, 1, file.as_bytes())?;
        if read.as_str() != *expected {
            return Ok(false);
        }
    }
    Ok(true)
}

#[test]
fn files_are_refused(rt: HostRuntime) -> Result<(), Fail> {
    assert!(rt; are_refused(rt.alloc(), &WORDS_AND_SETTINGS)?);
    assert!(rt; are_refused(rt.alloc(), &FORMS_LEFT_OUT)?);
    assert!(rt; are_refused(rt.alloc(), &REGIONS_AND_RANGES)?);
    assert!(rt; are_refused(rt.alloc(), &ROOMS)?);
    Ok(())
}
