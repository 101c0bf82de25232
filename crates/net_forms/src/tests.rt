// Netlists as tools write them.
use crate::read_forms;
use ipc356_records::RecordFault;
use std::alloc::Global;
use std::test::Fail;
use texts::MOST_BYTES;

// How many probes and names, with the place and the layer of the last; or the kind and the line of the fault.
fn said(alloc: Global, file: &[u8]) -> (usize, usize, i64, u32) {
    if file.len() > MOST_BYTES {
        return (0, 0, 0, 0);
    }
    match read_forms(alloc, file, 4) {
        Ok(netlist) => match netlist.probes.as_slice().last() {
            None => (0, 0, 0, 0),
            Some(probe) => (
                netlist.probes.as_slice().len(),
                netlist.names.as_slice().len(),
                probe.at.x,
                u32::from(probe.layer),
            ),
        },
        Err(RecordFault::Refused { kind, line }) => (100 + kind as usize, 0, 0, line),
        Err(RecordFault::NoMemory) => (200, 0, 0, 0),
    }
}

#[test]
fn forms(rt: HostRuntime) -> Result<(), Fail> {
    let alloc = rt.alloc();
    let via =
        b"P  UNITS SI\n307NETA             VIA        MD0250PA01X+002000Y+003000                       \n999\n";
    assert_eq!(rt; said(alloc, via), (1, 1, 20_000_000, 1));
    // no layer
    let place =
        b"P  UNITS SI\n307NETA             VIA        MD0250P   X+004000Y+003000                       \n999\n";
    assert_eq!(rt; said(alloc, place), (106, 0, 0, 2));
    let other =
        b"P  UNITS CUST 1\n307NETA             VIA        MD0250PA64X+005000Y+003000                       \n999\n";
    assert_eq!(rt; said(alloc, other), (106, 0, 0, 2));
    let none =
        b"307NETA             VIA        MD0250PA01X+005000Y+003000                       \n999\n";
    assert_eq!(rt; said(alloc, none), (103, 0, 0, 1));
    assert_eq!(rt; said(alloc, b"P  UNITS CUST 2\n999\n"), (105, 0, 0, 1));
    Ok(())
}
