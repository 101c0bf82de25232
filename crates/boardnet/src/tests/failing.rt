// Every read, every write and every piece of the line that can fail, on a buried barrel.
use crate::tests::packages::{BURIED, BURIED_FILES, BURIED_REPORT, DISC};
use crate::tests::{AUDIT, answer, called, files, shown, wants, words};
use board_io::{MemoryPackage, MemorySink};
use std::alloc::Global;
use std::test::Fail;

const CHECK: &[&str] = &["check", "m.json", "1"];

const CHECK_2: &[&str] = &["check", "m.json"];

// The files in the order in which they are taken.
const ORDER: &[&str] = &[
    "m.json", "l1.gbr", "l2.gbr", "l3.gbr", "l4.gbr", "d.drl", "n.ipc", "r.txt",
];

const DIFFERS: &[u8] = b"boardnet: differs, opens 1, shorts 0, missing 0\n";

// The package, with its report.
fn buried(alloc: Global) -> Result<MemoryPackage, Fail> {
    let mut package = files(alloc, BURIED_FILES)?;
    package.hold("r.txt", BURIED_REPORT)?;
    Ok(package)
}

// Whether each of so many takes, failed in turn, gives status 4 with the line of its file, no output, and no take behind it.
fn takes_fail(alloc: Global, given: &[&str], count: usize) -> Result<bool, Fail> {
    for k in 0..count {
        let mut package = buried(alloc)?;
        package.fail_at(k as u64)?;
        let (status, out, notes) = answer(alloc, given, &mut package)?;
        let Some(line) = shown(&notes).strip_prefix("boardnet: ") else {
            return Ok(false);
        };
        let is_named = ORDER.get(k).is_some_and(|name| line.starts_with(*name));
        let calls = package.calls();
        if status != 4 || !is_named || !line.ends_with(": cannot be read\n") {
            return Ok(false);
        }
        if !out.bytes().is_empty() || calls != k as u64 + 1 {
            return Ok(false);
        }
    }
    Ok(true)
}

// Whether each front of the text, from so many bytes on, that a write leaves when it fails is a front of the text, with status 5.
fn fronts_are_written(alloc: Global, given: &[&str], least: usize) -> Result<bool, Fail> {
    let words = words(alloc, given)?;
    let mut package = buried(alloc)?;
    let (_status, whole, _notes) = answer(alloc, given, &mut package)?;
    for passed in least..whole.bytes().len() {
        let mut out = MemorySink::new(alloc, 1_048_576)?;
        out.fail_at(0, passed)?;
        let mut notes = MemorySink::new(alloc, 1_048_576)?;
        let mut package = buried(alloc)?;
        let found = called(alloc, words.as_slice(), &mut package, &mut out, &mut notes);
        let is_front = out.bytes().len() == passed && whole.bytes().starts_with(out.bytes());
        if found != 5 || !is_front || shown(&notes) != "boardnet: output cannot be written\n" {
            return Ok(false);
        }
    }
    Ok(true)
}

// Whether a fault of any of the first pieces of the line leaves status and text, and a front of the line.
fn notes_fail(alloc: Global, given: &[&str]) -> Result<bool, Fail> {
    let words = words(alloc, given)?;
    let mut package = buried(alloc)?;
    let (wanted, whole, line) = answer(alloc, given, &mut package)?;
    for k in 0..10 {
        let mut out = MemorySink::new(alloc, 1_048_576)?;
        let mut notes = MemorySink::new(alloc, 1_048_576)?;
        notes.fail_at(k, 2)?;
        let mut package = buried(alloc)?;
        let found = called(alloc, words.as_slice(), &mut package, &mut out, &mut notes);
        if found != wanted
            || out.bytes() != whole.bytes()
            || !line.bytes().starts_with(notes.bytes())
        {
            return Ok(false);
        }
    }
    Ok(true)
}

#[test]
fn all_that_can_fail(rt: HostRuntime) -> Result<(), Fail> {
    let alloc = rt.alloc();
    assert!(rt; takes_fail(alloc, CHECK, 7)?, "takes of check");
    assert!(rt; takes_fail(alloc, AUDIT, 8)?, "takes of audit");
    let mut package = buried(alloc)?;
    package.fail_at(7)?;
    let (status, _out, notes) = answer(alloc, CHECK, &mut package)?;
    assert_eq!(rt; status, 1);
    assert_eq!(rt; notes.bytes(), DIFFERS);
    for given in [CHECK, AUDIT, &["trial", "1", "9"]] {
        assert!(rt; fronts_are_written(alloc, given, 0)?, "fronts");
        assert!(rt; notes_fail(alloc, given)?, "notes");
    }
    Ok(())
}

// The supplement stands behind 157 bytes, those of a report of version 1 but for its number and its last line.
#[test]
fn all_that_can_fail_with_a_supplement(rt: HostRuntime) -> Result<(), Fail> {
    let alloc = rt.alloc();
    assert!(rt; takes_fail(alloc, CHECK_2, 7)?, "takes");
    assert!(rt; fronts_are_written(alloc, CHECK_2, 157)?, "fronts");
    assert!(rt; notes_fail(alloc, CHECK_2)?, "notes");
    Ok(())
}

// What comes first stops the package: a missing file before a broken one, and a cut one before a missing one.
#[test]
fn the_first_stop_counts(rt: HostRuntime) -> Result<(), Fail> {
    let alloc = rt.alloc();
    let rows: [(&[(&str, &[&str])], u8, &str); 2] = [
        (
            &[("m.json", &[BURIED]), ("l1.gbr", DISC), ("l3.gbr", &["X"])],
            4,
            "boardnet: l2.gbr: cannot be read\n",
        ),
        (
            &[("m.json", &[BURIED]), ("l1.gbr", DISC), ("l2.gbr", &[])],
            3,
            "boardnet: l2.gbr: Gerber 3 NotEnded at command 1, byte 0\n",
        ),
    ];
    for (held, status, line) in rows {
        let mut package = files(alloc, held)?;
        wants(alloc, CHECK, &mut package, status, line, "")?;
    }
    Ok(())
}
