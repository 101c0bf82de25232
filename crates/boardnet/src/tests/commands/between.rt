// The command `between`: a pad over a quarter circle, between chains of capsules.
use crate::tests::{answer, gerber, netlist, shown, wants};
use board_io::MemoryPackage;
use lengths::rows::NoMemory;
use std::alloc::Global;
use std::test::Fail;

const BETWEEN: &[&str] = &["between", "r.json", "l.json", "u.json", "c.txt"];

const COUNTS: &str = "boardnet-bounds 1\n1 1\n6 6\n";

/// The points of the pad and of the start of the arc: of one name, and of two.
const ONE_NAME: &[&str] = &[
    "327A                                  A01X+000000Y+000007",
    "327A                                  A01X+000003Y+000004",
];

const TWO_NAMES: &[&str] = &[
    "327A                                  A01X+000000Y+000007",
    "327B                                  A01X+000003Y+000004",
];

/// The pad's aperture, the pens of the chains below and above, the points, the counts; the status and the line.
type Row = (
    &'static str,
    &'static str,
    &'static str,
    &'static [&'static str],
    &'static str,
    u8,
    &'static str,
);

const PAD: &str = "%ADD11C,0.0020*%";

const THIN: &str = "%ADD10C,0.00187*%";

const THICK: &str = "%ADD10C,0.00213*%";

const UNDECIDED: &str = "boardnet: undecided, opens 1, shorts 0, missing 0\n";

fn real(alloc: Global, pad: &str) -> Result<Vec<u8>, NoMemory> {
    gerber(
        alloc,
        &[
            "%ADD10C,0.002*%",
            pad,
            "D11*",
            "X0Y7000D03*",
            "D10*",
            "G75*",
            "X3000Y4000D02*",
            "G03*",
            "X-4000Y3000I-3000J-4000D01*",
        ],
    )
}

fn chain(alloc: Global, pad: &str, pen: &str) -> Result<Vec<u8>, NoMemory> {
    gerber(
        alloc,
        &[
            pen,
            pad,
            "D11*",
            "X0Y7000D03*",
            "D10*",
            "X3000Y4000D02*",
            "X1581Y4743D01*",
            "X0Y5000D01*",
            "X-1149Y4866D01*",
            "X-2236Y4472D01*",
            "X-3204Y3839D01*",
            "X-4000Y3000D01*",
        ],
    )
}

/// The three manifests.
fn manifests(alloc: Global) -> Result<MemoryPackage, NoMemory> {
    let mut package = MemoryPackage::new(alloc);
    for (name, manifest) in [
        (
            "r.json",
            "{\"copper\":[\"r.gbr\"],\"drills\":[],\"netlist\":\"n.ipc\"}",
        ),
        (
            "l.json",
            "{\"copper\":[\"l.gbr\"],\"drills\":[],\"netlist\":\"n.ipc\"}",
        ),
        (
            "u.json",
            "{\"copper\":[\"u.gbr\"],\"drills\":[],\"netlist\":\"n.ipc\"}",
        ),
    ] {
        package.hold(name, manifest.as_bytes())?;
    }
    Ok(package)
}

fn row_package(alloc: Global, row: &Row) -> Result<MemoryPackage, NoMemory> {
    let mut package = manifests(alloc)?;
    package.hold("r.gbr", real(alloc, row.0)?.as_slice())?;
    package.hold("l.gbr", chain(alloc, row.0, row.1)?.as_slice())?;
    package.hold("u.gbr", chain(alloc, row.0, row.2)?.as_slice())?;
    package.hold("n.ipc", netlist(alloc, row.3)?.as_slice())?;
    package.hold("c.txt", row.4.as_bytes())?;
    Ok(package)
}

static ROWS: [Row; 11] = [
    // touches in one point, and misses by one u
    (PAD, THIN, THICK, ONE_NAME, COUNTS, 1, UNDECIDED),
    (
        "%ADD11C,0.0019998*%",
        THIN,
        THICK,
        ONE_NAME,
        COUNTS,
        1,
        UNDECIDED,
    ),
    // touches the chain below, and misses the one above
    (
        "%ADD11C,0.0022*%",
        THIN,
        THICK,
        ONE_NAME,
        COUNTS,
        0,
        "boardnet: agrees\n",
    ),
    (
        "%ADD11C,0.0018*%",
        THIN,
        THICK,
        ONE_NAME,
        COUNTS,
        1,
        "boardnet: differs, opens 1, shorts 0, missing 0\n",
    ),
    // the same of two names
    (
        PAD,
        THIN,
        THICK,
        TWO_NAMES,
        COUNTS,
        1,
        "boardnet: undecided, opens 0, shorts 1, missing 0\n",
    ),
    (
        "%ADD11C,0.0022*%",
        THIN,
        THICK,
        TWO_NAMES,
        COUNTS,
        1,
        "boardnet: differs, opens 0, shorts 1, missing 0\n",
    ),
    (
        "%ADD11C,0.0018*%",
        THIN,
        THICK,
        TWO_NAMES,
        COUNTS,
        0,
        "boardnet: agrees\n",
    ),
    // a chain that is too thick, or too thin; counts
    (
        PAD,
        THICK,
        THICK,
        ONE_NAME,
        COUNTS,
        3,
        "boardnet: r.json: file 0, command 11, copy 0: not bounded below\n",
    ),
    (
        PAD,
        THIN,
        THIN,
        ONE_NAME,
        COUNTS,
        3,
        "boardnet: r.json: file 0, command 11, copy 0: not bounded above\n",
    ),
    (
        PAD,
        THIN,
        THICK,
        ONE_NAME,
        "boardnet-bounds 1\n1 1\n6 5\n",
        3,
        "boardnet: c.txt: counts above do not add up\n",
    ),
    (
        PAD,
        THIN,
        THICK,
        ONE_NAME,
        "boardnet-bounds 1\n1 1\n6\n",
        3,
        "boardnet: c.txt: not counts at line 3\n",
    ),
];

#[test]
fn a_quarter_circle_between_chains(rt: HostRuntime) -> Result<(), Fail> {
    let alloc = rt.alloc();
    for row in &ROWS {
        let mut package = row_package(alloc, row)?;
        let (status, out, notes) = answer(alloc, BETWEEN, &mut package)?;
        assert_eq!(rt; (status, shown(&notes)), (row.5, row.6));
        assert_eq!(rt; out.bytes().is_empty(), status == 3);
    }
    Ok(())
}

/// An aperture of an odd size, those below and above, the status and the line.
type OddRow = (&'static str, &'static str, &'static str, u8, &'static str);

const BELOW: &str = "boardnet: r.json: file 0, command 5, copy 0: not bounded below\n";

const ABOVE: &str = "boardnet: r.json: file 0, command 5, copy 0: not bounded above\n";

const AGREES: &str = "boardnet: agrees\n";

static ODD_ROWS: [OddRow; 7] = [
    (
        "%ADD11C,0.0020001*%",
        "%ADD11C,0.0020000*%",
        "%ADD11C,0.0020002*%",
        0,
        AGREES,
    ),
    (
        "%ADD11C,0.0020001*%",
        "%ADD11C,0.0020002*%",
        "%ADD11C,0.0020002*%",
        3,
        BELOW,
    ),
    (
        "%ADD11C,0.0020001*%",
        "%ADD11C,0.0020000*%",
        "%ADD11C,0.0020000*%",
        3,
        ABOVE,
    ),
    (
        "%ADD11R,0.0020001X0.001*%",
        "%ADD11R,0.0020000X0.001*%",
        "%ADD11R,0.0020002X0.001*%",
        0,
        AGREES,
    ),
    (
        "%ADD11R,0.0020001X0.001*%",
        "%ADD11R,0.0020000X0.0010002*%",
        "%ADD11R,0.0020002X0.001*%",
        3,
        BELOW,
    ),
    (
        "%ADD11O,0.001X0.0020001*%",
        "%ADD11O,0.0009998X0.0020000*%",
        "%ADD11O,0.0010002X0.0020002*%",
        0,
        AGREES,
    ),
    (
        "%ADD11O,0.001X0.0020001*%",
        "%ADD11O,0.0009998X0.0020000*%",
        "%ADD11O,0.0009998X0.0020002*%",
        3,
        ABOVE,
    ),
];

fn flash(alloc: Global, aperture: &str) -> Result<Vec<u8>, NoMemory> {
    gerber(alloc, &[aperture, "D11*", "X0Y7000D03*"])
}

#[test]
fn pads_of_odd_sizes(rt: HostRuntime) -> Result<(), Fail> {
    let alloc = rt.alloc();
    for row in &ODD_ROWS {
        let (real, lower, upper, status, line) = *row;
        let mut package = manifests(alloc)?;
        package.hold("r.gbr", flash(alloc, real)?.as_slice())?;
        package.hold("l.gbr", flash(alloc, lower)?.as_slice())?;
        package.hold("u.gbr", flash(alloc, upper)?.as_slice())?;
        package.hold("n.ipc", netlist(alloc, &ONE_NAME[..1])?.as_slice())?;
        package.hold("c.txt", b"boardnet-bounds 1\n1 1\n")?;
        let (told, _, notes) = answer(alloc, BETWEEN, &mut package)?;
        assert_eq!(rt; (told, shown(&notes)), (status, line));
    }
    Ok(())
}

const TEXT: &str =
    "boardnet-between 1\nreal 2\npoints 2\nlower 7 2 1 0 0\nupper 7 1 0 0 0\ncertain\nopens 0\nshorts 0\nmissing 0\nundecided\nopens 1\nopen 2 1 30000 40000 A\nshorts 0\nmissing 0\nundecided\n";

const OPEN: &str =
    "boardnet-between 1\nreal 2\npoints 2\nlower 7 2 1 0 0\nupper 7 2 1 0 0\ncertain\nopens 1\nopen 2 1 30000 40000 A\nshorts 0\nmissing 0\nundecided\nopens 0\nshorts 0\nmissing 0\ndiffers\n";

const SHORT: &str =
    "boardnet-between 1\nreal 2\npoints 2\nlower 7 1 0 1 0\nupper 7 1 0 1 0\ncertain\nopens 0\nshorts 1\nshort 2\npoint 1 1 0 70000 A\npoint 2 1 30000 40000 B\nmissing 0\nundecided\nopens 0\nshorts 0\nmissing 0\ndiffers\n";

// What both boards have is certain, and is not undecided besides.
#[test]
fn what_is_certain_is_not_undecided(rt: HostRuntime) -> Result<(), Fail> {
    let alloc = rt.alloc();
    for (pad, names, text) in [
        ("%ADD11C,0.0018*%", ONE_NAME, OPEN),
        ("%ADD11C,0.0022*%", TWO_NAMES, SHORT),
    ] {
        let row = (pad, THIN, THICK, names, COUNTS, 1, "");
        let mut package = row_package(alloc, &row)?;
        let (status, out, _) = answer(alloc, BETWEEN, &mut package)?;
        assert_eq!(rt; (status, shown(&out)), (1, text));
    }
    Ok(())
}

const WITHOUT_POINTS: &str =
    "boardnet-between 1\nreal 2\npoints 0\nlower 7 2 0 0 0\nupper 7 1 0 0 0\ncertain\nopens 0\nshorts 0\nmissing 0\nundecided\nopens 0\nshorts 0\nmissing 0\nagrees\n";

// Of no test point nothing is certain or undecided: the text says that there is none.
#[test]
fn without_test_points(rt: HostRuntime) -> Result<(), Fail> {
    let alloc = rt.alloc();
    let row = (PAD, THIN, THICK, &ONE_NAME[..0], COUNTS, 0, AGREES);
    let mut package = row_package(alloc, &row)?;
    wants(alloc, BETWEEN, &mut package, 0, AGREES, WITHOUT_POINTS)
}

// The text, and what is read in order: a manifest that is none, a file that is not there, other test points, a board over 1 m.
#[test]
fn the_text_and_the_order(rt: HostRuntime) -> Result<(), Fail> {
    let alloc = rt.alloc();
    let row = (PAD, THIN, THICK, ONE_NAME, COUNTS, 1, UNDECIDED);
    let mut package = row_package(alloc, &row)?;
    wants(alloc, BETWEEN, &mut package, 1, UNDECIDED, TEXT)?;
    let swapped = &["between", "r.json", "c.txt", "u.json", "x.txt"];
    let line = "boardnet: c.txt: not JSON\n";
    wants(alloc, swapped, &mut package, 3, line, "")?;
    let missing = &["between", "r.json", "l.json", "u.json", "x.txt"];
    let line = "boardnet: x.txt: cannot be read\n";
    wants(alloc, missing, &mut package, 4, line, "")?;
    let other = "{\"copper\":[\"l.gbr\"],\"drills\":[],\"netlist\":\"o.ipc\"}";
    package.hold("o.json", other.as_bytes())?;
    package.hold("o.ipc", netlist(alloc, TWO_NAMES)?.as_slice())?;
    let renamed = &["between", "r.json", "o.json", "u.json", "c.txt"];
    let line = "boardnet: r.json: lower board has other test points, names or layers\n";
    wants(alloc, renamed, &mut package, 3, line, "")?;
    let wide = "{\"copper\":[\"w.gbr\"],\"drills\":[],\"netlist\":\"n.ipc\"}";
    package.hold("w.json", wide.as_bytes())?;
    let far = &[PAD, "D11*", "X0Y0D03*", "X1000000000Y0D03*"];
    package.hold("w.gbr", gerber(alloc, far)?.as_slice())?;
    let wider = &["between", "r.json", "w.json", "u.json", "c.txt"];
    let line = "boardnet: w.json: frame too large: -10000 -10000 10000010000 10000\n";
    wants(alloc, wider, &mut package, 3, line, "")
}
