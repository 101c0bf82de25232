// The command `flatten`: copper files rewritten without macros, each text rewritten again and checked.
use crate::tests::{A_AT_0, MANIFEST, answer, files, shown, wants};
use std::test::Fail;

// A disc and a bar above it.
const MACRO: &[&str] = &[
    "%FSLAX46Y46*%",
    "%MOMM*%",
    "%AMTwo*",
    "1,1,$1,0,0*",
    "21,1,$1+$1,$1,0,1.0,0*%",
    "%ADD10Two,1.0*%",
    "D10*",
    "X0Y0D03*",
    "M02*",
];

// A line that is neither level nor upright.
const SLANTED: &[&str] = &[
    "%FSLAX46Y46*%",
    "%MOMM*%",
    "%AMV*",
    "20,1,0.2,0,0,1.0,1.0,0*%",
    "%ADD10V*%",
    "M02*",
];

const TEXT: &str =
    "%FSLAX47Y47*%\n%MOMM*%\n%ADD10C,1.0000000*%\nD10*\nX0Y0D02*\nX0Y0D01*\nG36*\nX-10000000Y5000000D02*\nX10000000Y5000000D01*\nX10000000Y15000000D01*\nX-10000000Y15000000D01*\nX-10000000Y5000000D01*\nG37*\nM02*\n";

// The words, the status, the line, and the text.
static ROWS: [(&'static [&'static str], u8, &'static str, &'static str); 4] = [
    (&["flatten", "v.gbr"], 0, "boardnet: flattened\n", TEXT),
    (&["flatten", "t.gbr"], 0, "boardnet: flattened\n", TEXT),
    (
        &["flatten", "w.gbr"],
        3,
        "boardnet: w.gbr: flatten 36 Slanted at command 5, byte 54\n",
        "",
    ),
    (&["flatten"], 2, "boardnet: words not understood\n", ""),
];

#[test]
fn flat_texts(rt: HostRuntime) -> Result<(), Fail> {
    let alloc = rt.alloc();
    let mut package = files(
        alloc,
        &[
            ("m.json", &[MANIFEST]),
            ("v.gbr", MACRO),
            ("w.gbr", SLANTED),
            ("n.ipc", &["P  UNITS CUST 1", A_AT_0, "999"]),
        ],
    )?;
    package.hold("t.gbr", TEXT.as_bytes())?;
    for row in &ROWS {
        let (given, status, line, text) = *row;
        wants(alloc, given, &mut package, status, line, text)?;
    }
    let (status, out, notes) = answer(alloc, &["check", "m.json"], &mut package)?;
    assert_eq!(rt; (status, shown(&notes)), (0, "boardnet: agrees\n"));
    assert!(rt; shown(&out).contains("pieces 2\nnets 1\nnet 0 0 1:0\n"));
    Ok(())
}
