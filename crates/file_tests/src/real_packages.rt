// Packages whose copper has arcs, and slanted lines of macros.
use board_io::MemoryPackage;
use board_package::build;
use file_reading::RefusalKind;
use lengths::text::Text;
use real_package::{RealBuildFault, RealPiece, build_real, has_its_netlist};
use real_shapes::RealShape;
use std::alloc::Global;
use std::test::Fail;

const MANIFEST: &[u8] =
    b"{\"copper\":[\"t.gbr\",\"b.gbr\"],\"drills\":[{\"file\":\"d.drl\",\"from\":1,\"to\":2}],\"netlist\":\"n.ipc\"}";

const BARRELS: &[u8] = b"M48\nMETRIC\nT1C0.4\n%\nT1\nX0.0Y0.0\nM30\n";

const NETLIST: &[u8] =
    b"P  UNITS CUST 1\n317A                                  A00X+000000Y+000000\n999\n";

// Two copper layers, the upper of these words behind the definition of an aperture and the lower of one flash, under a
// barrel.
fn package_of(alloc: Global, words: &str, barrels: &[u8]) -> Result<MemoryPackage, Fail> {
    let mut package = MemoryPackage::new(alloc);
    package.hold("m.json", MANIFEST)?;
    let top = format!(in alloc; "%FSLAX46Y46*%%MOMM*%%ADD10C,1.0*%D10*{words}M02*")?;
    package.hold("t.gbr", top.as_bytes())?;
    package.hold(
        "b.gbr",
        b"%FSLAX46Y46*%%MOMM*%%ADD10C,1.0*%D10*X0Y0D03*M02*",
    )?;
    package.hold("d.drl", barrels)?;
    package.hold("n.ipc", NETLIST)?;
    Ok(package)
}

// What comes of a package: how many pieces, arcs, slanted lines and probes, or the fault; and how often a file was taken.
fn outcome(alloc: Global, package: &mut MemoryPackage) -> Result<String, Fail> {
    let manifest = Text::new(alloc, b"m.json")?;
    let given = match build_real(alloc, &manifest, package) {
        Ok(real) => {
            let bent = |piece: &&RealPiece| matches!(piece.shape, RealShape::ArcDraw(_));
            let arcs = real.pieces.iter().filter(bent).count();
            let slanted = |piece: &&RealPiece| matches!(piece.shape, RealShape::Slanted(_));
            let lines = real.pieces.iter().filter(slanted).count();
            let probes = real.probes.as_slice().len();
            format!(in alloc;
                "layers {} pieces {} arcs {arcs} lines {lines} probes {probes}",
                real.layers,
                real.pieces.len()
            )?
        }
        Err(RealBuildFault::Build(fault)) => format!(in alloc; "{fault:?}")?,
        Err(
            RealBuildFault::Arc {
                file,
                kind,
                command,
                at,
            },
        ) => {
            format!(in alloc;
                "{} {} {} {command} {at}",
                file.as_str(),
                kind.number(),
                kind.name()
            )?
        }
    };
    Ok(format!(in alloc; "{given}, {} files", package.calls())?)
}

static PACKAGES: [(&'static str, &'static [u8], &'static str); 9] = [
    (
        "%AMV*20,1,0.2,0,0,1.0,0.5,0*%%ADD11V*%D11*X0Y0D03*",
        BARRELS,
        "layers 2 pieces 3 arcs 0 lines 1 probes 2, 5 files",
    ),
    (
        "%AMV*20,1,0.2,0,0,1.0,0.5,45*%%ADD11V*%",
        b"",
        "t.gbr 35 Turn 7 68, 2 files",
    ),
    (
        "G75*G02X1000000I500000J0D01*G01X0D01*",
        BARRELS,
        "layers 2 pieces 4 arcs 1 lines 0 probes 2, 5 files",
    ),
    (
        "G75*G02X1000000I500000J0D01*",
        b"M48\nMETRIC\nT1C0.4\n%\nT2\n",
        "Drill { file: Text { text: \"d.drl\" }, kind: NoTool, line: 5, at: 20 }, 4 files",
    ),
    (
        "G75*G02X1000000D01*",
        b"",
        "t.gbr 38 NoOffsets 6 41, 2 files",
    ),
    (
        "G75*G01X1000000I1J1D01*",
        b"",
        "t.gbr 39 OffsetsAmiss 6 41, 2 files",
    ),
    (
        "G02X1000000I5J0D01*",
        b"",
        "t.gbr 40 NoQuadrants 5 37, 2 files",
    ),
    (
        "G74*G02X10Y10I10J10D01*",
        b"",
        "t.gbr 41 NoCentre 6 41, 2 files",
    ),
    (
        "D11*G75*G02X1D01*",
        b"",
        "Layer { file: Text { text: \"t.gbr\" }, kind: NoAperture, command: 5, at: 37 }, 2 files",
    ),
];

#[test]
fn real_packages(rt: HostRuntime) -> Result<(), Fail> {
    let alloc = rt.alloc();
    for (i, (words, barrels, want)) in PACKAGES.iter().enumerate() {
        let mut package = package_of(alloc, *words, *barrels)?;
        assert_eq!(rt; outcome(alloc, &mut package)?.as_str(), *want, "row {i}");
    }
    Ok(())
}

// Whether a board of figures alone with this netlist has that of a real one.
fn agrees(alloc: Global, netlist: &[u8]) -> Result<bool, Fail> {
    let manifest = Text::new(alloc, b"m.json")?;
    let mut bent = package_of(alloc, "G75*G02X1000000I500000J0D01*", BARRELS)?;
    let mut straight = package_of(alloc, "X1000000D01*", BARRELS)?;
    straight.hold("n.ipc", netlist)?;
    let Ok(real) = build_real(alloc, &manifest, &mut bent) else {
        return Err(Fail::new("no real board"));
    };
    let Ok(board) = build(alloc, &manifest, &mut straight) else {
        return Err(Fail::new("no board"));
    };
    Ok(has_its_netlist(&real, &board))
}

static OTHERS: [&'static [u8]; 3] = [
    b"P  UNITS CUST 1\n317B                                  A00X+000000Y+000000\n999\n",
    b"P  UNITS CUST 1\n317A                                  A00X+000001Y+000000\n999\n",
    b"P  UNITS CUST 1\n317A                                  A01X+000000Y+000000\n999\n",
];

#[test]
fn netlists_agree(rt: HostRuntime) -> Result<(), Fail> {
    let alloc = rt.alloc();
    assert!(rt; agrees(alloc, NETLIST)?);
    for (i, netlist) in OTHERS.iter().enumerate() {
        assert!(rt; !agrees(alloc, *netlist)?, "row {i}");
    }
    Ok(())
}
