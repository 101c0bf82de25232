// Files, and what they are read as.
use board_shapes::{MOST_LAYERS, Probe};
use file_reading::RefusalKind;
use ipc356_records::{RecordFault, RecordKind, Records, read_netlist};
use planar::Spot;
use std::alloc::Global;
use std::test::Fail;
use texts::MOST_BYTES;

fn fault_of(alloc: Global, file: &[u8], layers: u8) -> Option<RecordFault> {
    if file.len() > MOST_BYTES || layers == 0 || layers > MOST_LAYERS {
        return None;
    }
    match read_netlist(alloc, file, layers) {
        Ok(_) => None,
        Err(fault) => Some(fault),
    }
}

static REFUSALS: [(&'static [u8], RecordKind, u32); 16] = [
    (
        b"327A                                  A01X+000000Y+000000\n999\n",
        RecordKind::MissingUnits,
        1,
    ),
    (
        b"P  UNITS CUST 1\n327A                                  A02X+000000Y+000000\n999\n",
        RecordKind::BadAccess,
        2,
    ),
    (
        b"P  UNITS CUST 1\n017 more\n999\n",
        RecordKind::Continuation,
        2,
    ),
    (b"P  UNITS CUST 1\n", RecordKind::NotEnded, 2),
    (
        b"P  UNITS CUST 1\nC a comment\n\n320A\n999\n",
        RecordKind::UnknownCode,
        4,
    ),
    (
        b"P  UNITS CUST 1\nP  UNITS CUST 0\n999\n",
        RecordKind::UnitsTwice,
        2,
    ),
    (b"P  UNITS CUST 2\n999\n", RecordKind::BadUnits, 1),
    (
        b"P  UNITS CUST 1\n327A                                  B00X+000000Y+000000\n999\n",
        RecordKind::BadAccess,
        2,
    ),
    (
        b"P  UNITS CUST 1\n327A                                  A1 X+000000Y+000000\n999\n",
        RecordKind::BadAccess,
        2,
    ),
    (
        b"P  UNITS CUST 1\n327A                                  A01X+0000 0Y+000000\n999\n",
        RecordKind::BadNumber,
        2,
    ),
    (
        b"P  UNITS CUST 1\n327A                                  A01X+000000Y+00000\n999\n",
        RecordKind::BadNumber,
        2,
    ),
    (
        b"P  UNITS CUST 1\n317A B                                A00X+000000Y+000000\n999\n",
        RecordKind::BadName,
        2,
    ),
    (
        b"P  UNITS CUST 0\n317A                                  A00X+000000Y-393701\n999\n",
        RecordKind::OutOfRange,
        2,
    ),
    (b"P  UNITS CUST 1\n999\n\nC\n", RecordKind::AfterEnd, 4),
    (b"327A               X\n999\n", RecordKind::MissingUnits, 1),
    (
        b"P  UNITS CUST 1\n327A               X\n999\n",
        RecordKind::BadAccess,
        2,
    ),
];

#[test]
fn the_least_faulty_line(rt: HostRuntime) {
    for row in &REFUSALS {
        let (file, kind, line) = *row;
        let fault = RecordFault::Refused { kind, line };
        assert_eq!(rt; fault_of(rt.alloc(), file, 1), Some(fault));
    }
}

static FILES: [&'static [u8]; 3] = [
    b"P  UNITS CUST 1\n317GND                                A00X+001000Y-000020\n327                                   A01X-000005Y+000000\n327N/C                                A02X+000007Y+000007\n327GND                                A02X+000000Y+000000\n999\n",
    b"P  UNITS CUST 1\n317GND              U1   -7    D0350PAA00X+001000Y-000020\n327              VIA   U1   -7    D035A01X-000005Y+000000\n327N/C           xxxxxxxxxxxxxxxxxxxxxA02X+000007Y+000007\n327GND                                A02X+000000Y+000000\n999\n",
    b"C                   \nP  JOB x\nP  UNITS CUST 1  \n317 GND                               A00X+001000Y-000020S0                     \n367yyyyyyyyyyyyyyyyy\n\t \n327                                   A01X-000005Y+000000z\n327N/C                                A02X      7Y     07\n327GND                                A 2X+000000Y+000000\n999\n\n\n",
];

#[test]
fn probes_and_names(rt: HostRuntime) -> Result<(), Fail> {
    let probe = |number, x, y, layer, name| Probe {
        number,
        at: Spot { x, y },
        layer,
        name,
    };
    let wanted = [
        probe(1, 10_000_000, -200_000, 1, 0),
        probe(1, 10_000_000, -200_000, 2, 0),
        probe(2, -50_000, 0, 1, 1),
        probe(3, 70_000, 70_000, 2, 1),
        probe(4, 0, 0, 2, 0),
    ];
    for file in &FILES {
        if file.len() > MOST_BYTES {
            return Ok(());
        }
        let netlist = read_netlist(rt.alloc(), *file, 2)?;
        assert_eq!(rt; netlist.probes.as_slice(), wanted.as_slice());
        let names = netlist.names.as_slice();
        assert_eq!(rt; names.len(), 2);
        assert_eq!(rt; names[0].as_bytes(), b"GND".as_slice());
        assert_eq!(rt; names[1].as_bytes(), b"N/C".as_slice());
    }
    let nothing = read_netlist(rt.alloc(), b"999\n", 1)?;
    assert_eq!(rt; nothing.probes.as_slice().len(), 0);
    assert_eq!(rt; nothing.names.as_slice().len(), 0);
    let inches = read_netlist(
        rt.alloc(),
        b"P  UNITS CUST 0\n317A                                  A00X+393700Y-393700\n999\n",
        1,
    )?;
    let wanted = [probe(1, 9_999_980_000, -9_999_980_000, 1, 0)];
    assert_eq!(rt; inches.probes.as_slice(), wanted.as_slice());
    Ok(())
}

#[test]
fn fields(rt: HostRuntime) {
    let mut records = Records::new(
        b"327 NET             U12   - 7         A01X+000000Y+000000\r\n327A\n\n999",
    );
    let record = records.next_record().expect(&rt, "a first line");
    assert_eq!(rt; record.line, 1);
    assert_eq!(rt; record.text.len(), 57);
    assert_eq!(rt; record.net(), b"NET".as_slice());
    assert_eq!(rt; record.component(), b"U12".as_slice());
    assert_eq!(rt; record.pin(), b"7".as_slice());
    assert_eq!(rt; record.columns(39, 41), b"A01".as_slice());
    assert_eq!(rt; record.columns(50, 90), b"Y+000000".as_slice());
    let record = records.next_record().expect(&rt, "a second line");
    assert_eq!(rt; record.line, 2);
    assert_eq!(rt; record.columns(3, 8), b"7A".as_slice());
    assert_eq!(rt; record.pin(), b"".as_slice());
    let record = records.next_record().expect(&rt, "a third line");
    assert!(rt; record.text.is_empty());
    let record = records.next_record().expect(&rt, "a fourth line");
    assert_eq!(rt; record.text, b"999".as_slice());
    assert!(rt; records.next_record().is_none());
    assert_eq!(rt; records.line(), 5);
    assert_eq!(rt; RecordKind::TooManyRecords.number(), 12);
    assert_eq!(rt; RecordKind::BadAccess.name(), "BadAccess");
}
