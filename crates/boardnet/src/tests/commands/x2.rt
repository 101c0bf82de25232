// The command `x2`: checks by the net names in the copper files.
use crate::tests::packages::{BARREL, DISC, KICAD_BOTTOM, kicad};
use crate::tests::{MANIFEST, answer, files, gerber, has, package, shown};
use lengths::rows::NoMemory;
use std::alloc::Global;
use std::test::Fail;

const X2: &[&str] = &["x2", "m.json"];

// The lines of the report on the example of KiCad that tell its findings.
static PARTS: [&'static [u8]; 6] = [
    b"points 8\n",
    b"\npoint 7 8 2 0 1\n",
    b"\nopen 0 0 1 7\n",
    b"\nshort 1 2\nbranch 0 7 7 9 1\nbranch 1 1 1\n",
    b"\nspots 8\n",
    b"\nmissing 0\n",
];

// Lines of a file with another before the first that is this one.
fn with_line<'t>(
    alloc: Global,
    lines: &[&'t str],
    before: &str,
    line: &'t str,
) -> Result<Vec<&'t str>, NoMemory> {
    let mut all = Vec::new(alloc);
    let mut put = false;
    for given in lines {
        if *given == before && !put {
            all.push(line)?;
            put = true;
        }
        all.push(*given)?;
    }
    Ok(all)
}

// The netlist is neither held nor taken.
#[test]
fn the_example_by_its_labels(rt: HostRuntime) -> Result<(), Fail> {
    let alloc = rt.alloc();
    let mut package = kicad(alloc, KICAD_BOTTOM)?;
    let (status, out, notes) = answer(alloc, X2, &mut package)?;
    assert_eq!(rt;
        (status, shown(&notes)),
        (1, "boardnet: differs, opens 1, shorts 1, missing 0\n")
    );
    assert!(rt; out.bytes().starts_with(b"boardnet 2\n"));
    for (i, part) in PARTS.iter().enumerate() {
        assert!(rt; has(out.bytes(), *part), "part {i}");
    }
    assert_eq!(rt; package.calls(), 4);
    let mended = with_line(alloc, KICAD_BOTTOM, "D10*", "%TO.N,/SIG*%")?;
    let mut package = kicad(alloc, mended.as_slice())?;
    let (status, _, notes) = answer(alloc, X2, &mut package)?;
    assert_eq!(rt; (status, shown(&notes)), (0, "boardnet: agrees\n"));
    Ok(())
}

// A word that gives so long a name.
fn long_name(alloc: Global, len: usize) -> Result<String, Fail> {
    let mut word = String::from_str(alloc, "%TO.N,")?;
    for _ in 0..len {
        word.push_str("A")?;
    }
    word.push_str("*%")?;
    Ok(word)
}

#[test]
fn names_of_200_bytes(rt: HostRuntime) -> Result<(), Fail> {
    let alloc = rt.alloc();
    for (len, want, line) in [
        (200, 0, "boardnet: agrees\n"),
        (201, 3, "boardnet: t.gbr: label at command 3, byte 23\n"),
    ] {
        let word = long_name(alloc, len)?;
        let copper = gerber(alloc, &[word.as_str()])?;
        let mut package = package(alloc, copper.as_slice(), b"")?;
        let (status, out, notes) = answer(alloc, X2, &mut package)?;
        assert_eq!(rt; (status, shown(&notes)), (want, line));
        assert_eq!(rt; has(out.bytes(), b"\npoints 0\n"), want == 0);
    }
    Ok(())
}

// Two tracks on their nets, as a layout tool draws them, and the same with one name spoilt.
#[test]
fn ordinary_use(rt: HostRuntime) -> Result<(), Fail> {
    let alloc = rt.alloc();
    for (name, want, line) in [
        ("%TO.N,A*%", 0, "boardnet: agrees\n"),
        (
            "%TO.N,B*%",
            1,
            "boardnet: differs, opens 1, shorts 1, missing 0\n",
        ),
        (
            "%TO.N,\u{1}*%",
            3,
            "boardnet: t.gbr: label at command 7, byte 61\n",
        ),
        ("%TD.P*%", 0, "boardnet: agrees\n"),
        ("%TD*%", 0, "boardnet: agrees\n"),
        (
            "%TO.N,*%",
            1,
            "boardnet: differs, opens 0, shorts 1, missing 0\n",
        ),
    ] {
        let copper = gerber(
            alloc,
            &[
                "%ADD10C,1.0*%",
                "%TO.N,A*%",
                "D10*",
                "X0Y0D03*",
                name,
                "X5000000Y0D01*",
                "%TO.N,B*%",
                "X0Y5000000D03*",
                "X5000000Y5000000D01*",
            ],
        )?;
        let mut package = package(alloc, copper.as_slice(), b"")?;
        let (status, _, notes) = answer(alloc, X2, &mut package)?;
        assert_eq!(rt; (status, shown(&notes)), (want, line), "{name}");
    }
    Ok(())
}

/// The manifest of two copper files and a drill file.
pub const TWO_LAYERS: &str =
    "{\"copper\":[\"t.gbr\",\"b.gbr\"],\"drills\":[{\"file\":\"d.drl\",\"from\":1,\"to\":2}],\"netlist\":\"n.ipc\"}";

const AMISS: &[&str] = &["%TO.N,\u{7}*%", "M02*"];

const BROKEN: &[&str] = &["%TO.N,\u{7}*%", "X*", "M02*"];

// Files, the status of `x2` on them, its line, and how often it asks the package.
type Stop = (
    &'static [(&'static str, &'static [&'static str])],
    u8,
    &'static str,
    u64,
);

// The stops come in their order: the file's own refusal, then its label, then the next file.
static STOPS: [Stop; 6] = [
    (
        &[("m.json", &[MANIFEST]), ("t.gbr", DISC)],
        0,
        "boardnet: agrees\n",
        2,
    ),
    (
        &[("m.json", &[TWO_LAYERS]), ("t.gbr", AMISS)],
        3,
        "boardnet: t.gbr: label at command 1, byte 1\n",
        2,
    ),
    (
        &[("m.json", &[TWO_LAYERS]), ("t.gbr", BROKEN)],
        3,
        "boardnet: t.gbr: Gerber 1 BadWord at command 2, byte 10\n",
        2,
    ),
    (
        &[("m.json", &[TWO_LAYERS]), ("t.gbr", DISC)],
        4,
        "boardnet: b.gbr: cannot be read\n",
        3,
    ),
    (
        &[("m.json", &[TWO_LAYERS]), ("t.gbr", DISC), ("b.gbr", DISC)],
        4,
        "boardnet: d.drl: cannot be read\n",
        4,
    ),
    (
        &[
            ("m.json", &[TWO_LAYERS]),
            ("t.gbr", DISC),
            ("b.gbr", DISC),
            ("d.drl", BARREL),
        ],
        0,
        "boardnet: agrees\n",
        4,
    ),
];

#[test]
fn stops_by_labels(rt: HostRuntime) -> Result<(), Fail> {
    let alloc = rt.alloc();
    for row in &STOPS {
        let (given, wanted, line, calls) = *row;
        let mut package = files(alloc, given)?;
        let (status, _, notes) = answer(alloc, X2, &mut package)?;
        assert_eq!(rt;
            (status, shown(&notes), package.calls()),
            (wanted, line, calls)
        );
    }
    Ok(())
}
