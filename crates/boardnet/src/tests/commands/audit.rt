// The command `audit`: reports of a short of three names with one change each, of ordinary use, and of reports that cannot be taken.
use crate::tests::commands::check::{SHORT_REPORT, SHORTED, THREE, TIED};
use crate::tests::packages::{KICAD_BOTTOM, KICAD_NETLIST, KICAD_REPORT, kicad};
use crate::tests::{AUDIT, ENDS, MANIFEST, Ruling, TIE, files, one_layer, rules, text, wants};
use board_io::MemoryPackage;
use std::alloc::Global;
use std::test::Fail;

// The shorts of the report on a short of three names.
const SHORTS: &[u8] = b"shorts 1\nshort 0 3\nbranch 0 0 0\nbranch 1 1 2 1 0\nbranch 2 2 4 2\n";

// Where the part first stands in the text, or the text's end.
fn place_of(text: &[u8], part: &[u8]) -> usize {
    for i in 0..text.len() {
        if text[i..].starts_with(part) {
            return i;
        }
    }
    text.len()
}

// A text with the first place of a part replaced.
fn replaced(alloc: Global, text: &[u8], part: &[u8], by: &[u8]) -> Result<Vec<u8>, Fail> {
    let at = place_of(text, part);
    let mut changed = Vec::new(alloc);
    for (i, byte) in text.iter().enumerate() {
        if i == at {
            changed.extend_from_slice(by)?;
        }
        if i < at || i.saturating_sub(at) >= part.len() {
            changed.push(*byte)?;
        }
    }
    Ok(changed)
}

// A part of the report, and what stands in its place.
type Swap = (&'static [u8], &'static [u8]);

// A change of the report, two parts with what stands in the place of each, and what the audit says then.
type Change = ((Swap, Swap), Ruling);

const NOTHING: Swap = (b"boardnet 1", b"boardnet 1");

fn audits(alloc: Global, changes: &[Change]) -> Result<(), Fail> {
    for (parts, ruling) in changes {
        let (first, second) = *parts;
        let once = replaced(alloc, SHORT_REPORT, first.0, first.1)?;
        let report = replaced(alloc, once.as_slice(), second.0, second.1)?;
        let mut package = one_layer(alloc, SHORTED, THREE)?;
        rules(alloc, &mut package, report.as_slice(), *ruling)?;
    }
    Ok(())
}

static CHANGES: [Change; 14] = [
    ((NOTHING, NOTHING), Ruling::True),
    (
        ((b"4:2", b"4:3"), (b"branch 2 2 4 2", b"branch 2 2 4 3 1")),
        Ruling::True,
    ),
    (((b"4:2", b"4:0"), NOTHING), Ruling::Untrue(1)),
    (((b" 4:2", b""), NOTHING), Ruling::Untrue(2)),
    (
        ((b"nets 1", b"nets 2"), (b" 4:2", b"\nnet 1 4")),
        Ruling::Untrue(3),
    ),
    (
        ((b"point 0 1 1 0 0", b"point 0 1 1 0 -"), NOTHING),
        Ruling::Untrue(4),
    ),
    (
        ((b"opens 0", b"opens 1\nopen 0 0 0 0"), NOTHING),
        Ruling::Untrue(5),
    ),
    (
        ((SHORTS, b"shorts 0\n"), (b"differs", b"agrees")),
        Ruling::Untrue(6),
    ),
    (((SHORTS, b"shorts 0\n"), NOTHING), Ruling::NoReport),
    (
        ((b"branch 2 2 4 2", b"branch 2 2 4 3 1"), NOTHING),
        Ruling::Untrue(7),
    ),
    (
        ((b"missing 0", b"missing 1\nbare 0"), NOTHING),
        Ruling::Untrue(8),
    ),
    (((b"name 0 A", b"name 0 Z"), NOTHING), Ruling::Untrue(9)),
    (((b"differs\n", b"differs"), NOTHING), Ruling::NoReport),
    (((b"boardnet 1", b"boardnet 2"), NOTHING), Ruling::NoReport),
];

#[test]
fn audits_of_a_report(rt: HostRuntime) -> Result<(), Fail> {
    audits(rt.alloc(), &CHANGES)
}

// Reports that only a hostile hand writes.
static HOSTILE: [Change; 8] = [
    (((b" 1:0", b" 1:2"), NOTHING), Ruling::Untrue(1)),
    (((b"4:2", b"4294967295:2"), NOTHING), Ruling::Untrue(1)),
    (((b"4:2", b"4:4"), NOTHING), Ruling::Untrue(1)),
    (
        ((b"nets 1\nnet 0", b"nets 2\nnet 0\nnet 1"), NOTHING),
        Ruling::Untrue(1),
    ),
    (((b" 1:0", b" 1:0 1:0"), NOTHING), Ruling::Untrue(2)),
    (
        ((b"point 0 1 1 0 0", b"point 0 1 1 0 7"), NOTHING),
        Ruling::Untrue(4),
    ),
    (((b"short 0 3", b"short 5 3"), NOTHING), Ruling::Untrue(6)),
    (
        ((b"branch 2 2 4 2", b"branch 2 9 4 2"), NOTHING),
        Ruling::Untrue(7),
    ),
];

#[test]
fn audits_of_hostile_reports(rt: HostRuntime) -> Result<(), Fail> {
    audits(rt.alloc(), &HOSTILE)
}

// The report of ordinary use is that of a right verdict.
#[test]
fn the_report_of_ordinary_use(rt: HostRuntime) -> Result<(), Fail> {
    let alloc = rt.alloc();
    let mut ordinary = kicad(alloc, KICAD_BOTTOM)?;
    ordinary.hold("n.d356", text(alloc, KICAD_NETLIST)?.as_slice())?;
    rules(alloc, &mut ordinary, KICAD_REPORT, Ruling::True)?;
    assert_eq!(rt; ordinary.calls(), 6);
    Ok(())
}

// Wants of an audit this status and this line, nothing put, and so many takes.
fn stops(
    alloc: Global,
    package: &mut MemoryPackage,
    status: u8,
    line: &str,
    calls: u64,
) -> Result<(), Fail> {
    wants(alloc, AUDIT, package, status, line, "")?;
    let found = package.calls();
    if found != calls {
        return Err(Fail::new(format_args!("{found} takes, {line}")));
    }
    Ok(())
}

// A report is taken last, and only for a package that fits.
#[test]
fn reports_that_are_not_taken(rt: HostRuntime) -> Result<(), Fail> {
    let alloc = rt.alloc();
    let mut missing = one_layer(alloc, SHORTED, THREE)?;
    stops(
        alloc,
        &mut missing,
        4,
        "boardnet: r.txt: cannot be read\n",
        4,
    )?;
    let mut refused = files(
        alloc,
        &[("m.json", &[MANIFEST]), ("t.gbr", &["M02*", "G04*"])],
    )?;
    refused.hold("r.txt", SHORT_REPORT)?;
    let line = "boardnet: t.gbr: Gerber 4 AfterEnd at command 2, byte 5\n";
    stops(alloc, &mut refused, 3, line, 2)
}

#[test]
fn a_report_that_is_too_long(rt: HostRuntime) -> Result<(), Fail> {
    let alloc = rt.alloc();
    let mut long = one_layer(alloc, SHORTED, THREE)?;
    let bytes = vec![in alloc; b'0'; 67_108_865]?;
    long.hold("r.txt", bytes.as_slice())?;
    let line = "boardnet: r.txt: longer than 67108864 bytes\n";
    stops(alloc, &mut long, 3, line, 4)
}

// A part of the report, what stands in its place, and what the audit says then.
static SUPPLEMENT_CHANGES: [(&'static str, &'static str, Ruling); 12] = [
    ("boardnet 2", "boardnet 2", Ruling::True),
    ("spot 1 10000000 0", "spot 1 10000010 0", Ruling::Untrue(10)),
    (
        "spot 1 10000000 0",
        "spot 1 10000000 -1",
        Ruling::Untrue(10),
    ),
    (
        "spots 2\nspot 0 0 0\nspot 1 10000000 0\n",
        "spots 1\nspot 0 0 0\n",
        Ruling::Untrue(10),
    ),
    (
        "spots 2\nspot 0 0 0\nspot 1 10000000 0\nsources 2\nsource 0 0 5 0",
        "spots 0\nsources 2\nsource 0 0 6 0",
        Ruling::Untrue(10),
    ),
    (
        "source 1 0 6 0 1 1",
        "source 1 0 7 0 1 1",
        Ruling::Untrue(11),
    ),
    (
        "source 1 0 6 0 1 1",
        "source 1 0 6 1 1 1",
        Ruling::Untrue(11),
    ),
    (
        "source 1 0 6 0 1 1",
        "source 1 0 6 0 1 2",
        Ruling::Untrue(11),
    ),
    ("name 0 A", "name 0 Z", Ruling::Untrue(9)),
    ("boardnet 2", "boardnet 1", Ruling::NoReport),
    ("spot 0 0 0", "spot 0 -0 0", Ruling::NoReport),
    ("spots 2", "spots 3", Ruling::NoReport),
];

#[test]
fn audits_of_supplements(rt: HostRuntime) -> Result<(), Fail> {
    let alloc = rt.alloc();
    for row in &SUPPLEMENT_CHANGES {
        let (part, by, ruling) = *row;
        let mut package = one_layer(alloc, TIE, ENDS)?;
        let report = TIED.replace(alloc, part, by)?;
        rules(alloc, &mut package, report.as_bytes(), ruling)?;
    }
    Ok(())
}
