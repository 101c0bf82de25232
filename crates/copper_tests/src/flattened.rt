// Copper files, and what they are flattened to.
use board_shapes::{MOST_PIECES, Room};
use gerber_layer::{MOST_FLAT_EDGES, read_layer};
use macro_flatten::write_flat;
use std::alloc::Global;
use std::test::Fail;
use texts::MOST_BYTES;

/// The room of every row.
const ROOM: Room = Room {
    pieces: MOST_PIECES,
    edges: MOST_FLAT_EDGES,
};

/// Copper files and their flattened texts.
static TEXTS: [(&str, &str); 5] = [
    // Nothing at all.
    (
        "%FSLAX46Y46*%\n%MOMM*%\nM02*\n",
        "%FSLAX47Y47*%\n%MOMM*%\nM02*\n",
    ),
    // A disc, and a rectangle about another place.
    (
        "%FSLAX46Y46*%\n%MOMM*%\n%ADD10C,1.0*%\n%ADD11R,2.0X1.0*%\nD10*\nX0Y0D03*\nD11*\nX0Y1000000D03*\nM02*\n",
        "%FSLAX47Y47*%\n%MOMM*%\n%ADD10C,1.0000000*%\nD10*\nX0Y0D02*\nX0Y0D01*\nG36*\nX-10000000Y5000000D02*\nX10000000Y5000000D01*\nX10000000Y15000000D01*\nX-10000000Y15000000D01*\nX-10000000Y5000000D01*\nG37*\nM02*\n",
    ),
    // Pens in order of first use, and a selection where it is another: an area stands between.
    (
        "%FSLAX46Y46*%\n%MOMM*%\n%ADD10C,1.0*%\n%ADD11C,0.25*%\n%ADD12C,0.5*%\n%ADD13R,2.0X1.0*%\nD11*\nX0Y0D03*\nD13*\nX0Y0D03*\nD11*\nX1000000Y0D03*\nD10*\nX0Y0D02*\nX-1Y5D01*\nD11*\nX0Y0D03*\nM02*\n",
        "%FSLAX47Y47*%\n%MOMM*%\n%ADD10C,0.2500000*%\n%ADD11C,1.0000000*%\nD10*\nX0Y0D02*\nX0Y0D01*\nG36*\nX-10000000Y-5000000D02*\nX10000000Y-5000000D01*\nX10000000Y5000000D01*\nX-10000000Y5000000D01*\nX-10000000Y-5000000D01*\nG37*\nX10000000Y0D02*\nX10000000Y0D01*\nD11*\nX0Y0D02*\nX-10Y50D01*\nD10*\nX0Y0D02*\nX0Y0D01*\nM02*\n",
    ),
    // No copper file.
    ("%FSLAX46Y47*%\n%MOMM*%\nM02*\n", "no copper"),
    // The least pen and the widest, at the ends of the range.
    (
        "%FSLAX47Y47*%\n%MOMM*%\n%ADD10C,0.0000002*%\n%ADD11C,50*%\nD10*\nX10000000000Y-10000000000D03*\nD11*\nX-10000000000Y10000000000D03*\nM02*\n",
        "%FSLAX47Y47*%\n%MOMM*%\n%ADD10C,0.0000002*%\n%ADD11C,50.0000000*%\nD10*\nX10000000000Y-10000000000D02*\nX10000000000Y-10000000000D01*\nD11*\nX-10000000000Y10000000000D02*\nX-10000000000Y10000000000D01*\nM02*\n",
    ),
];

// The flattened text of a copper file.
fn flattened(alloc: Global, file: &[u8]) -> Result<Vec<u8>, Fail> {
    if file.len() > MOST_BYTES {
        return Err("the file is too long".into());
    }
    match read_layer(alloc, file, 1, 0, ROOM) {
        Ok(pieces) => match write_flat(alloc, &pieces) {
            Ok(text) => Ok(text),
            Err(_) => Err("memory is wanted".into()),
        },
        Err(_) => Ok(Vec::from_slice(alloc, b"no copper")?),
    }
}

#[test]
fn files_are_flattened(rt: HostRuntime) -> Result<(), Fail> {
    for (file, text) in &TEXTS {
        let once = flattened(rt.alloc(), file.as_bytes())?;
        assert_eq!(rt; once.as_slice(), text.as_bytes());
    }
    Ok(())
}

#[test]
fn a_flattened_text_is_its_own(rt: HostRuntime) -> Result<(), Fail> {
    for (file, _) in &TEXTS {
        let once = flattened(rt.alloc(), file.as_bytes())?;
        let twice = flattened(rt.alloc(), &once)?;
        assert_eq!(rt; once.as_slice(), twice.as_slice());
    }
    Ok(())
}
