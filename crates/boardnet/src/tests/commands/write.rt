// The command `write`: netlists of the copper, each followed by a check against it.
use crate::tests::packages::BURIED_FILES;
use crate::tests::{APART, ENDS, answer, files, one_layer, shown, wants};
use board_io::MemoryPackage;
use std::alloc::Global;
use std::test::Fail;

// The text of the buried barrel, and that of a place off the steps of a record.
const BARREL_TEXT: &str =
    "C boardnet\nP  UNITS CUST 1\n327NET0                               A01X+000000Y+000000\n327NET1                               A02X+000000Y+000000\n327NET1                               A03X+000000Y+000000\n327NET2                               A04X+000000Y+000000\n317NET1                               A02X+000000Y+000000\n999\n";

const DISC_TEXT: &str =
    "C boardnet\nP  UNITS CUST 1\n327NET0                               A01X+000000Y+000000\nC piece 1\n999\n";

// Wants of `write` this text, and of `check` with it as the netlist that it agrees and has this part.
fn written(
    alloc: Global,
    package: &mut MemoryPackage,
    text: &str,
    part: &str,
) -> Result<bool, Fail> {
    wants(
        alloc,
        &["write", "m.json"],
        package,
        0,
        "boardnet: netlist written\n",
        text,
    )?;
    package.hold("n.ipc", text.as_bytes())?;
    let (status, out, notes) = answer(alloc, &["check", "m.json"], package)?;
    Ok(status == 0 && shown(&notes) == "boardnet: agrees\n" && shown(&out).contains(part))
}

#[test]
fn netlists(rt: HostRuntime) -> Result<(), Fail> {
    let alloc = rt.alloc();
    let mut barrel = files(alloc, BURIED_FILES)?;
    assert!(rt; written(alloc, &mut barrel, BARREL_TEXT, "points 5\n")?);
    let mut apart = one_layer(alloc, APART, ENDS)?;
    assert!(rt; written(alloc, &mut apart, DISC_TEXT, "points 1\n")?);
    Ok(())
}
