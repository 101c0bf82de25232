//! Made boards against files that another program wrote.
use board_io::{MemoryPackage, Package, Take};
use board_maker::{MakeFault, make};
use lengths::MOST_NAME_BYTES;
use std::alloc::Global;
use std::test::Fail;
use texts::MOST_BYTES;

// A board, and the length and the Adler-32 sum of each of its files as `benches/made_board.py` writes them.
#[derive(Clone, Copy)]
struct Row {
    seed: u64,
    size: u32,
    files: [(usize, u32); 5],
}

static NAMES: [&str; 5] = ["m.json", "top.gbr", "bot.gbr", "pth.drl", "n.ipc"];

const TOP_OF_TWO: &[u8] =
    b"%FSLAX46Y46*%\n%MOMM*%\n%ADD10C,1.0*%\n%ADD11R,0.8X0.8*%\n%ADD12C,0.2*%\nD10*\nX0Y0D03*\nD11*\nX1200000Y0D03*\nD12*\nX0Y0D02*\nX1200000Y0D01*\nD10*\nX2500000Y0D03*\nD11*\nX3700000Y0D03*\nD12*\nX2500000Y0D02*\nX3700000Y0D01*\nM02*\n";

const NETLIST_OF_ONE: &[u8] =
    b"P  UNITS CUST 1\n317N0                                 A00X+000000Y+000000\n327N0                                 A01X+001200Y+000000\n999\n";

static ROWS: [Row; 7] = [
    Row {
        seed: 1,
        size: 0,
        files: [
            (97, 276_307_705),
            (73, 1_043_140_283),
            (55, 1_270_418_192),
            (27, 1_397_949_806),
            (20, 873_464_979),
        ],
    },
    Row {
        seed: 1,
        size: 1,
        files: [
            (97, 276_307_705),
            (136, 2_015_173_436),
            (69, 4_259_384_789),
            (36, 2_406_352_709),
            (136, 1_459_361_518),
        ],
    },
    Row {
        seed: 1,
        size: 2,
        files: [
            (97, 276_307_705),
            (211, 2_976_786_969),
            (89, 1_053_757_889),
            (45, 3_697_412_387),
            (252, 3_468_962_137),
        ],
    },
    Row {
        seed: 1,
        size: 99,
        files: [
            (97, 276_307_705),
            (7_640, 3_513_444_673),
            (2_637, 1_615_988_548),
            (1_072, 3_068_451_993),
            (11_504, 1_303_001_213),
        ],
    },
    Row {
        seed: 1,
        size: 100,
        files: [
            (97, 276_307_705),
            (7_723, 926_349_770),
            (2_659, 898_239_387),
            (1_083, 1_114_431_202),
            (11_620, 359_549_760),
        ],
    },
    Row {
        seed: 1,
        size: 101,
        files: [
            (97, 276_307_705),
            (7_769, 4_157_539_029),
            (2_679, 1_254_690_695),
            (1_092, 608_297_152),
            (11_736, 1_488_346_603),
        ],
    },
    Row {
        seed: 18_446_744_073_709_551_615,
        size: 101,
        files: [
            (97, 276_307_705),
            (7_812, 2_492_140_370),
            (2_720, 2_318_145_461),
            (1_092, 608_297_152),
            (11_736, 1_488_346_603),
        ],
    },
];

fn file(alloc: Global, package: &mut MemoryPackage, name: &str) -> Result<Vec<u8>, Fail> {
    if name.is_empty() || name.len() > MOST_NAME_BYTES {
        return Err(Fail::new(format_args!("{name} is no name")));
    }
    let mut bytes = Vec::new(alloc);
    if package.take(name, MOST_BYTES, &mut bytes) != Take::Whole {
        return Err(Fail::new(format_args!("{name} is not held")));
    }
    Ok(bytes)
}

// The Adler-32 sum of RFC 1950.
fn sum(bytes: &[u8]) -> u32 {
    let mut low: u32 = 1;
    let mut high: u32 = 0;
    for byte in bytes {
        low = low.wrapping_add(u32::from(*byte)) % 65_521;
        high = high.wrapping_add(low) % 65_521;
    }
    high.wrapping_mul(65_536).wrapping_add(low)
}

fn is_row(alloc: Global, row: &Row) -> Result<(), Fail> {
    let mut package = make(alloc, row.seed, row.size)?;
    for (name, want) in NAMES.iter().zip(row.files.iter()) {
        let bytes = file(alloc, &mut package, *name)?;
        if (bytes.len(), sum(&bytes)) != *want {
            return Err(Fail::new(format_args!("{name} of seed {}, size {}", row.seed, row.size)));
        }
    }
    Ok(())
}

#[test]
fn made_files_are_those_of_another_program(rt: HostRuntime) -> Result<(), Fail> {
    let alloc = rt.alloc();
    let rows = ROWS;
    for row in &rows {
        is_row(alloc, row)?;
    }
    let mut two = make(alloc, 1, 2)?;
    assert_eq!(rt; file(alloc, &mut two, "top.gbr")?.as_slice(), TOP_OF_TWO);
    let mut one = make(alloc, 1, 1)?;
    assert_eq!(rt; file(alloc, &mut one, "n.ipc")?.as_slice(), NETLIST_OF_ONE);
    assert_eq!(rt; make(alloc, 1, 10_001).err(), Some(MakeFault::SizeTooLarge));
    Ok(())
}
