// Calls of `run` over memory: worked boards and packages, audits of their reports, made boards, and words and faults.
mod certificates;
mod commands;
mod cut;
mod failing;
mod faults;
mod made;
mod packages;

use crate::run::run;
use board_io::{MemoryPackage, MemorySink};
use lengths::rows::NoMemory;
use std::alloc::Global;
use std::test::Fail;

pub const MANIFEST: &str = "{\"copper\":[\"t.gbr\"],\"drills\":[],\"netlist\":\"n.ipc\"}";

pub const AUDIT: &[&str] = &["audit", "m.json", "r.txt"];

/// Lines as a file.
pub fn text(alloc: Global, lines: &[&str]) -> Result<Vec<u8>, NoMemory> {
    let mut bytes = Vec::new(alloc);
    for line in lines {
        bytes.extend_from_slice(line.as_bytes())?;
        bytes.push(b'\n')?;
    }
    Ok(bytes)
}

/// A copper file in millimetres of these lines.
pub fn gerber(alloc: Global, lines: &[&str]) -> Result<Vec<u8>, NoMemory> {
    let mut bytes = text(alloc, &["%FSLAX46Y46*%", "%MOMM*%"])?;
    bytes.append(&mut text(alloc, lines)?)?;
    bytes.append(&mut text(alloc, &["M02*"])?)?;
    Ok(bytes)
}

/// A netlist in 0.001 mm of these records.
pub fn netlist(alloc: Global, records: &[&str]) -> Result<Vec<u8>, NoMemory> {
    let mut bytes = text(alloc, &["P  UNITS CUST 1"])?;
    bytes.append(&mut text(alloc, records)?)?;
    bytes.append(&mut text(alloc, &["999"])?)?;
    Ok(bytes)
}

/// A package of one layer without drills.
pub fn package(alloc: Global, copper: &[u8], points: &[u8]) -> Result<MemoryPackage, NoMemory> {
    let mut package = MemoryPackage::new(alloc);
    package.hold("m.json", MANIFEST.as_bytes())?;
    package.hold("t.gbr", copper)?;
    package.hold("n.ipc", points)?;
    Ok(package)
}

/// The same of the lines of its copper file and the records of its netlist.
pub fn one_layer(
    alloc: Global,
    lines: &[&str],
    records: &[&str],
) -> Result<MemoryPackage, NoMemory> {
    let copper = gerber(alloc, lines)?;
    let points = netlist(alloc, records)?;
    package(alloc, copper.as_slice(), points.as_slice())
}

/// A package of these files under these names.
pub fn files(alloc: Global, files: &[(&str, &[&str])]) -> Result<MemoryPackage, NoMemory> {
    let mut package = MemoryPackage::new(alloc);
    for (name, lines) in files {
        package.hold(*name, text(alloc, *lines)?.as_slice())?;
    }
    Ok(package)
}

/// The words of a call as strings.
pub fn words(alloc: Global, given: &[&str]) -> Result<Vec<String>, Fail> {
    let mut words = Vec::new(alloc);
    for word in given {
        words.push(String::from_str(alloc, *word)?)?;
    }
    Ok(words)
}

/// The status of a call of `run`. It has no clause, so that the goals of a test see none of those of `run`.
pub fn called(
    alloc: Global,
    words: &[String],
    package: &mut MemoryPackage,
    out: &mut MemorySink,
    notes: &mut MemorySink,
) -> u8 {
    run(alloc, words, package, out, notes)
}

/// The status, what was put and the line of a call.
pub fn answer(
    alloc: Global,
    given: &[&str],
    package: &mut MemoryPackage,
) -> Result<(u8, MemorySink, MemorySink), Fail> {
    let mut out = MemorySink::new(alloc, 1_048_576)?;
    let mut notes = MemorySink::new(alloc, 1_048_576)?;
    let words = words(alloc, given)?;
    let status = called(alloc, words.as_slice(), package, &mut out, &mut notes);
    Ok((status, out, notes))
}

/// What a sink got, as a text.
pub fn shown(sink: &MemorySink) -> &str {
    str::from_utf8(sink.bytes()).unwrap_or("no text")
}

/// Wants of the words this status, this line and exactly this text.
pub fn wants(
    alloc: Global,
    given: &[&str],
    package: &mut MemoryPackage,
    status: u8,
    line: &str,
    text: &str,
) -> Result<(), Fail> {
    let (found, out, notes) = answer(alloc, given, package)?;
    let said = shown(&notes);
    let put = shown(&out);
    if found != status || said != line || put != text {
        return Err(Fail::new(format_args!("status {found}, {said}{put}")));
    }
    Ok(())
}

/// What an audit says of a report: it is right, not so at a clause, or none.
#[derive(Clone, Copy)]
pub enum Ruling {
    True,
    Untrue(u8),
    NoReport,
}

/// Wants this of the audit of a report on a package.
pub fn rules(
    alloc: Global,
    package: &mut MemoryPackage,
    report: &[u8],
    ruling: Ruling,
) -> Result<(), Fail> {
    package.hold("r.txt", report)?;
    match ruling {
        Ruling::True => {
            wants(
                alloc,
                AUDIT,
                package,
                0,
                "boardnet: audit true\n",
                "audit true\n",
            )
        }
        Ruling::Untrue(clause) => {
            let line = format!(in alloc; "boardnet: audit untrue {clause}\n")?;
            let text = format!(in alloc; "audit untrue {clause}\n")?;
            wants(alloc, AUDIT, package, 1, line.as_str(), text.as_str())
        }
        Ruling::NoReport => wants(
            alloc,
            AUDIT,
            package,
            3,
            "boardnet: r.txt: not a report\n",
            "",
        ),
    }
}

/// A board of one layer: the lines of its copper file and the records of its netlist, without what begins and ends both; the
/// status of a check, the line, and a part of the report.
pub type Row = (
    &'static [&'static str],
    &'static [&'static str],
    u8,
    &'static [u8],
    &'static [u8],
);

/// A package of files by their lines, the status of a check, the line, and a part of the report.
pub type Files = (
    &'static [(&'static str, &'static [&'static str])],
    u8,
    &'static [u8],
    &'static [u8],
);

/// Whether the bytes have this part.
pub fn has(bytes: &[u8], part: &[u8]) -> bool {
    part.is_empty() || bytes.windows(part.len()).any(|window| window == part)
}

// A text without its last line.
fn without_last_line(text: &str) -> &str {
    match text.trim_ascii_end().rfind('\n') {
        Some(at) => &text[..at + 1],
        None => "",
    }
}

// Whether the second text is the first with another number in its first line, and lines of spots and sources before its last line.
fn is_supplemented(plain: &str, full: &str) -> bool {
    let (Some(plain_rest), Some(full_rest)) = (
        plain.strip_prefix("boardnet 1\n"),
        full.strip_prefix("boardnet 2\n"),
    ) else {
        return plain.is_empty() && full.is_empty();
    };
    let front = without_last_line(plain_rest);
    let Some(last) = plain_rest.strip_prefix(front) else {
        return false;
    };
    let Some(more) = full_rest.strip_prefix(front) else {
        return false;
    };
    more.starts_with("spots ") && more.contains("\nsources ") && more.ends_with(last)
}

/// Whether `check` over this package gives the status, the line, and a report of version 1 with this part, or none where it
/// is empty; and without its third word the same with a supplement.
pub fn answers(
    alloc: Global,
    package: &mut MemoryPackage,
    status: u8,
    line: &[u8],
    part: &[u8],
) -> Result<bool, Fail> {
    let (found, out, notes) = answer(alloc, &["check", "m.json", "1"], package)?;
    let silent = out.bytes().is_empty() == part.is_empty();
    let (other, more, said) = answer(alloc, &["check", "m.json"], package)?;
    let same = other == found && said.bytes() == notes.bytes();
    let right = found == status && notes.bytes() == line && has(out.bytes(), part) && silent;
    Ok(right && same && is_supplemented(shown(&out), shown(&more)))
}

/// A test record of A at (0, 0) on layer 1.
pub const A_AT_0: &str = "327A                                  A01X+000000Y+000000";

/// The same at (1 mm, 0).
pub const A_AT_1: &str = "327A                                  A01X+001000Y+000000";

/// The two ends of a track of 1 mm.
pub const ENDS: &[&str] = &[A_AT_0, A_AT_1];

/// Two discs that touch, and two that are a nanometre apart.
pub const TIE: &[&str] = &["%ADD10C,1.0*%", "D10*", "X0Y0D03*", "X1000000Y0D03*"];

pub const APART: &[&str] = &["%ADD10C,1.0*%", "D10*", "X0Y0D03*", "X1000001Y0D03*"];
