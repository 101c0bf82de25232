// The command `gaps`: lists of the gaps of boards.
use crate::tests::commands::check::{CORNERS, PLATE};
use crate::tests::{APART, ENDS, one_layer, wants};
use std::test::Fail;

// The lines of a copper file, the nanometres, the status, the line, and the text.
type Row = (
    &'static [&'static str],
    &'static str,
    u8,
    &'static str,
    &'static str,
);

const NO_GAPS: &str = "boardnet: no gaps\n";

const NO_WORDS: &str = "boardnet: words not understood\n";

static ROWS: [Row; 9] = [
    (
        APART,
        "1",
        1,
        "boardnet: gaps 1\n",
        "gaps 1 1\ngap 1 0 1 0 1\n",
    ),
    (APART, "0", 0, NO_GAPS, "gaps 0 0\n"),
    (
        PLATE,
        "1500000",
        1,
        "boardnet: gaps 1\n",
        "gaps 1500000 1\ngap 1 0 1 0 2\n",
    ),
    (PLATE, "1499999", 0, NO_GAPS, "gaps 1499999 0\n"),
    (CORNERS, "0", 0, NO_GAPS, "gaps 0 0\n"),
    (
        CORNERS,
        "1",
        3,
        "boardnet: frame too large: -5 -5 10000000005 10000000005\n",
        "",
    ),
    (APART, "10000001", 2, NO_WORDS, ""),
    (APART, "01", 2, NO_WORDS, ""),
    (APART, "-1", 2, NO_WORDS, ""),
];

#[test]
fn gap_lists(rt: HostRuntime) -> Result<(), Fail> {
    let alloc = rt.alloc();
    for row in &ROWS {
        let (lines, nanometres, status, line, text) = *row;
        let mut package = one_layer(alloc, lines, ENDS)?;
        let words = ["gaps", "m.json", nanometres];
        wants(alloc, &words, &mut package, status, line, text)?;
    }
    Ok(())
}
