// Words that are no command, and faults of reading and writing.
use crate::tests::{ENDS, TIE, called, one_layer, shown, wants, words};
use board_io::MemorySink;
use std::alloc::Global;
use std::test::Fail;

// Words that are no command.
static WRONG: [&'static [&'static str]; 19] = [
    &[],
    &["check"],
    &["check", "m.json", "x"],
    &["check", "m.json", "2"],
    &["check", "m.json", "01"],
    &["check", "m.json", "+1"],
    &["check", "m.json", "1 "],
    &["check", "m.json", ""],
    &["check", "", "1"],
    &["check", "m.json", "1", "1"],
    &["trial", "01", "5"],
    &["trial", "1"],
    &["trial", "+1", "5"],
    &["trial", "1", "05"],
    &["check", ""],
    &["audit"],
    &["audit", "m.json"],
    &["audit", "m.json", ""],
    &["audit", "m.json", "r.txt", "x"],
];

#[test]
fn words_that_are_no_command(rt: HostRuntime) -> Result<(), Fail> {
    let alloc = rt.alloc();
    for given in &WRONG {
        let mut package = one_layer(alloc, TIE, ENDS)?;
        let line = "boardnet: words not understood\n";
        wants(alloc, *given, &mut package, 2, line, "")?;
        assert_eq!(rt; package.calls(), 0);
    }
    Ok(())
}

// The status of a check of the tie, with the output and the notes.
fn tied(alloc: Global, out: &mut MemorySink, notes: &mut MemorySink) -> Result<u8, Fail> {
    let words = words(alloc, &["check", "m.json"])?;
    let mut package = one_layer(alloc, TIE, ENDS)?;
    Ok(called(alloc, words.as_slice(), &mut package, out, notes))
}

// The output fails at its first put, after seven bytes; or it has room for seven bytes.
#[test]
fn outputs_that_fail(rt: HostRuntime) -> Result<(), Fail> {
    let alloc = rt.alloc();
    for room in [1_048_576, 7] {
        let mut out = MemorySink::new(alloc, room)?;
        if room > 7 {
            out.fail_at(0, 7)?;
        }
        let mut notes = MemorySink::new(alloc, 1_048_576)?;
        assert_eq!(rt; tied(alloc, &mut out, &mut notes)?, 5);
        assert_eq!(rt; shown(&out), "boardne");
        assert_eq!(rt; shown(&notes), "boardnet: output cannot be written\n");
    }
    Ok(())
}

// A fault of the notes ends the line and leaves the status as it is.
#[test]
fn notes_that_fail(rt: HostRuntime) -> Result<(), Fail> {
    let alloc = rt.alloc();
    let mut out = MemorySink::new(alloc, 1_048_576)?;
    let mut notes = MemorySink::new(alloc, 1_048_576)?;
    notes.fail_at(0, 4)?;
    assert_eq!(rt; tied(alloc, &mut out, &mut notes)?, 0);
    assert_eq!(rt; shown(&notes), "boar");
    assert!(rt; shown(&out).ends_with("agrees\n"));
    Ok(())
}
