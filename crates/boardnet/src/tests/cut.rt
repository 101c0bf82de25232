// Files that were cut off, and files made to harm.
use crate::tests::{
    ENDS, Row, Ruling, TIE, answer, answers, gerber, netlist, one_layer, package, rules, shown,
};
use std::test::Fail;

// The tie's copper file cut to each length: refused, of kind 3, up to the star of its end word.
#[test]
fn cut_files_are_refused(rt: HostRuntime) -> Result<(), Fail> {
    let alloc = rt.alloc();
    let tie = gerber(alloc, TIE)?;
    let points = netlist(alloc, ENDS)?;
    assert_eq!(rt; tie.len(), 70);
    for len in 0..71 {
        let mut package = package(alloc, &tie[..len], points.as_slice())?;
        let (status, out, notes) = answer(alloc, &["check", "m.json"], &mut package)?;
        if len < 69 {
            assert_eq!(rt; status, 3);
            assert!(rt; shown(&notes).starts_with("boardnet: t.gbr: Gerber 3 NotEnded at "));
            assert!(rt; out.bytes().is_empty());
        } else {
            assert_eq!(rt; status, 0);
        }
    }
    Ok(())
}

#[test]
fn counts_drive_no_loop(rt: HostRuntime) -> Result<(), Fail> {
    let alloc = rt.alloc();
    let rows: [Row; 2] = [
        // an empty block, however often
        (
            &["%SRX999999999Y999999999I0J0*%", "%SR*%"],
            &[],
            0,
            b"boardnet: agrees\n",
            b"boardnet 1\npieces 0\n",
        ),
        // a block of one piece
        (
            &[
                "%ADD10C,1.0*%",
                "D10*",
                "%SRX999999999Y999999999I0J0*%",
                "X0Y0D03*",
                "%SR*%",
            ],
            &[],
            3,
            b"boardnet: t.gbr: Gerber 27 TooManyPieces at command 7, byte 81\n",
            b"",
        ),
    ];
    for (lines, records, status, line, part) in rows {
        let mut package = one_layer(alloc, lines, records)?;
        assert!(rt; answers(alloc, &mut package, status, line, part)?);
    }
    // a report whose counts are larger than it is
    let mut empty = one_layer(alloc, &[], &[])?;
    rules(
        alloc,
        &mut empty,
        b"boardnet 1\npieces 0\nnets 4294967295\n",
        Ruling::NoReport,
    )
}
