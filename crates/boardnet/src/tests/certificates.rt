// A check and the audit of its report, in one call.
use crate::certified::{Certified, certify};
use crate::tests::{APART, AUDIT, ENDS, one_layer, shown, words};
use board_io::MemorySink;
use std::test::Fail;

#[test]
fn reports_are_certified(rt: HostRuntime) -> Result<(), Fail> {
    let alloc = rt.alloc();
    let checking = words(alloc, &["check", "m.json"])?;
    let auditing = words(alloc, AUDIT)?;
    let rows: [(&[&str], Certified, &str); 2] = [
        (APART, Certified::Audited(0), "audit true\n"),
        (&["D10*"], Certified::Unreported(3), ""),
    ];
    for (lines, wanted, ruled) in rows {
        let mut package = one_layer(alloc, lines, ENDS)?;
        let mut out = MemorySink::new(alloc, 1_048_576)?;
        let mut ruling = MemorySink::new(alloc, 64)?;
        let mut notes = MemorySink::new(alloc, 1_048_576)?;
        let found = certify(
            alloc,
            checking.as_slice(),
            auditing.as_slice(),
            "r.txt",
            &mut package,
            &mut out,
            &mut ruling,
            &mut notes,
        );
        assert!(rt; found == wanted);
        assert_eq!(rt; shown(&ruling), ruled);
    }
    Ok(())
}
