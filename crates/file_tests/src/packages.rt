// Manifests, and packages of files.
ghost use Rattle.std.specs.Prelude.{◌≤◌, length};

use board_io::MemoryPackage;
use board_package::{
    BuildFault, LabelledFault, ManifestFault, Role, build, build_labelled, read_manifest,
};
use file_reading::RefusalKind;
use lengths::text::Text;
use std::alloc::{AllocError, Global};
use std::fmt::Write;
use std::test::Fail;

const COPPER: &[u8] = b"%FSLAX46Y46*%\n%MOMM*%\n%ADD10C,1.0*%\nD10*\nX0Y0D03*\nM02*\n";

const BARRELS: &[u8] = b"M48\nMETRIC\nT1C0.4\n%\nT1\nX0.0Y0.0\nM30\n";

const NETLIST: &[u8] =
    b"P  UNITS CUST 1\n317A                                  A00X+000000Y+000000\n999\n";

fn manifest_fault(alloc: Global, bytes: &[u8]) -> Option<ManifestFault> {
    read_manifest(alloc, bytes).err()
}

// A manifest of one copper file whose name has so many bytes.
fn named(alloc: Global, len: usize) -> Result<Vec<u8>, AllocError> {
    let mut bytes = vec![in alloc; b'n'; len]?;
    let mut text = Vec::from_slice(alloc, b"{\"copper\":[\"")?;
    text.append(&mut bytes)?;
    text.extend_from_slice(b"\"],\"drills\":[],\"netlist\":\"n.ipc\"}")?;
    Ok(text)
}

static REFUSED: [(&'static [u8], ManifestFault); 14] = [
    (b"", ManifestFault::NotJson),
    (b"{\"copper\":[\"t.gbr\"]", ManifestFault::NotJson),
    (
        b"{\"copper\":[\"\xff\"],\"drills\":[],\"netlist\":\"n\"}",
        ManifestFault::NotJson,
    ),
    (b"[]", ManifestFault::BadManifest),
    (
        b"{\"copper\":[],\"drills\":[],\"netlist\":\"n\"}",
        ManifestFault::BadManifest,
    ),
    (
        b"{\"copper\":[\"\"],\"drills\":[],\"netlist\":\"n\"}",
        ManifestFault::BadManifest,
    ),
    (
        b"{\"copper\":[\"t\"],\"drills\":[],\"netlist\":1}",
        ManifestFault::BadManifest,
    ),
    (
        b"{\"copper\":[\"t\"],\"drills\":[]}",
        ManifestFault::BadManifest,
    ),
    (
        b"{\"copper\":[\"t\"],\"drills\":[],\"netlist\":\"n\",\"more\":1}",
        ManifestFault::BadManifest,
    ),
    (
        b"{\"copper\":[\"t\"],\"drills\":[{\"file\":\"d\",\"from\":1.0,\"to\":1}],\"netlist\":\"n\"}",
        ManifestFault::BadManifest,
    ),
    (
        b"{\"copper\":[\"t\"],\"drills\":[{\"file\":\"d\",\"from\":1,\"to\":1e0}],\"netlist\":\"n\"}",
        ManifestFault::BadManifest,
    ),
    (
        b"{\"copper\":[\"t\"],\"drills\":[{\"file\":\"d\",\"from\":0,\"to\":1}],\"netlist\":\"n\"}",
        ManifestFault::BadManifest,
    ),
    (
        b"{\"copper\":[\"t\",\"b\"],\"drills\":[{\"file\":\"d\",\"from\":2,\"to\":1}],\"netlist\":\"n\"}",
        ManifestFault::BadManifest,
    ),
    (
        b"{\"copper\":[\"t\"],\"drills\":[{\"file\":\"d\",\"from\":1,\"to\":2}],\"netlist\":\"n\"}",
        ManifestFault::BadManifest,
    ),
];

#[test]
fn manifests(rt: HostRuntime) -> Result<(), Fail> {
    let alloc = rt.alloc();
    for (i, (bytes, want)) in REFUSED.iter().enumerate() {
        assert_eq!(rt; manifest_fault(alloc, *bytes), Some(*want), "row {i}");
    }
    let mut deep = vec![in alloc; b'['; 200]?;
    deep.append(&mut vec![in alloc; b']'; 200]?)?;
    assert_eq!(rt;
        manifest_fault(alloc, deep.as_slice()),
        Some(ManifestFault::NotJson)
    );
    assert_eq!(rt; manifest_fault(alloc, named(alloc, 200)?.as_slice()), None);
    assert_eq!(rt;
        manifest_fault(alloc, named(alloc, 201)?.as_slice()),
        Some(ManifestFault::BadManifest)
    );

    let twice =
        b"{\"copper\":[],\"drills\":[{\"file\":\"d\",\"to\":2,\"from\":1}],\"netlist\":\"n\",\"copper\":[\"t\",\"b\"]}";
    let listed = read_manifest(alloc, twice)?;
    let roles = [
        ("t", Role::Copper { layer: 1 }),
        ("b", Role::Copper { layer: 2 }),
        ("d", Role::Drill { from: 1, to: 2 }),
        ("n", Role::Netlist),
    ];
    assert_eq!(rt;
        (listed.layers, listed.files.as_slice().len()),
        (2, roles.len())
    );
    for (i, (file, (name, role))) in listed.files.as_slice().iter().zip(&roles).enumerate() {
        assert_eq!(rt; file.name.as_str(), *name);
        assert_eq!(rt; (file.number as usize, file.role), (i, *role));
    }
    Ok(())
}

// Four copper layers under a barrel from the second to the third, without the copper files named.
fn buried(alloc: Global, without: &str) -> Result<MemoryPackage, Fail> {
    let mut package = MemoryPackage::new(alloc);
    let manifest =
        b"{\"copper\":[\"l1.gbr\",\"l2.gbr\",\"l3.gbr\",\"l4.gbr\"],\"drills\":[{\"file\":\"d.drl\",\"from\":2,\"to\":3}],\"netlist\":\"n.ipc\"}";
    package.hold("m.json", manifest)?;
    for name in ["l1.gbr", "l2.gbr", "l3.gbr", "l4.gbr"] {
        if name != without {
            package.hold(name, COPPER)?;
        }
    }
    package.hold("d.drl", BARRELS)?;
    package.hold("n.ipc", NETLIST)?;
    Ok(package)
}

// The text of what comes of a package under `m.json`.
fn outcome(alloc: Global, package: &mut MemoryPackage) -> Result<String, Fail> {
    let manifest = Text::new(alloc, b"m.json")?;
    Ok(match build(alloc, &manifest, package) {
        Ok(board) => format!(in alloc;
            "layers {} pieces {} probes {}",
            board.layers(),
            board.pieces().len(),
            board.probes().len()
        )?,
        Err(fault) => format!(in alloc; "{fault:?}")?,
    })
}

#[test]
fn packages(rt: HostRuntime) -> Result<(), Fail> {
    let alloc = rt.alloc();
    let mut package = buried(alloc, "")?;
    assert_eq!(rt;
        outcome(alloc, &mut package)?.as_str(),
        "layers 4 pieces 5 probes 2"
    );
    assert_eq!(rt; package.calls(), 7);
    package.hold("m.json", widest(alloc)?.as_slice())?;
    assert_eq!(rt;
        outcome(alloc, &mut package)?.as_str(),
        "layers 32 pieces 96 probes 2"
    );
    let mut package = buried(alloc, "l2.gbr")?;
    let manifest = Text::new(alloc, b"m.json")?;
    match build(alloc, &manifest, &mut package) {
        Err(BuildFault::CannotRead(name)) => assert_eq!(rt; name.as_str(), "l2.gbr"),
        _ => return Err(Fail::new("another answer")),
    }
    assert_eq!(rt; package.calls(), 3);
    package.hold("l2.gbr", b"M02*X*")?;
    match build(alloc, &manifest, &mut package) {
        Err(
            BuildFault::Layer {
                file,
                kind,
                command,
                at,
            },
        ) => {
            assert_eq!(rt; file.as_str(), "l2.gbr");
            assert_eq!(rt; (kind.number(), command, at), (4, 2, 4));
        }
        _ => return Err(Fail::new("another answer")),
    }
    Ok(())
}

// A manifest of 32 copper layers and 64 drill files through all of them, each the same file.
fn widest(alloc: Global) -> Result<Vec<u8>, AllocError> {
    let mut text = Vec::from_slice(alloc, b"{\"copper\":[\"l1.gbr\"")?;
    for _ in 1..32 {
        text.extend_from_slice(b",\"l1.gbr\"")?;
    }
    text.extend_from_slice(b"],\"drills\":[{\"file\":\"d.drl\",\"from\":1,\"to\":32}")?;
    for _ in 1..64 {
        text.extend_from_slice(b",{\"file\":\"d.drl\",\"from\":1,\"to\":32}")?;
    }
    text.extend_from_slice(b"],\"netlist\":\"n.ipc\"}")?;
    Ok(text)
}

// One copper layer with these words behind the definition of an aperture, under a barrel; no netlist is held.
fn with_labels(alloc: Global, words: &[u8]) -> Result<MemoryPackage, Fail> {
    let mut package = MemoryPackage::new(alloc);
    package.hold(
        "m.json",
        b"{\"copper\":[\"t.gbr\"],\"drills\":[{\"file\":\"d.drl\",\"from\":1,\"to\":1}],\"netlist\":\"n.ipc\"}",
    )?;
    let mut file = Vec::from_slice(alloc, b"%FSLAX46Y46*%%MOMM*%%ADD10C,1.0*%D10*")?;
    file.extend_from_slice(words)?;
    file.extend_from_slice(b"M02*")?;
    package.hold("t.gbr", file.as_slice())?;
    package.hold("d.drl", BARRELS)?;
    Ok(package)
}

// The probes of what comes of a package by its labels: record, place in micrometres and name of each.
fn labelled(alloc: Global, package: &mut MemoryPackage) -> Result<String, Fail> {
    let manifest = Text::new(alloc, b"m.json")?;
    let board = match build_labelled(alloc, &manifest, package) {
        Ok(board) => board,
        Err(LabelledFault::Label { file, command, at }) => {
            return Ok(format!(in alloc; "{} {command} {at}", file.as_str())?);
        }
        Err(LabelledFault::Build(fault)) => return Ok(format!(in alloc; "{fault:?}")?),
    };
    let mut text = format!(in alloc; "pieces {}", board.pieces().len())?;
    for probe in board.probes() {
        let name = match board.names().get(probe.name as usize) {
            Some(name) => name.as_str(),
            None => "?",
        };
        write!(
            text,
            ", {} {} {} {} {}",
            probe.number,
            probe.at.x / 10_000,
            probe.at.y / 10_000,
            probe.layer,
            name
        )?;
    }
    Ok(text)
}

static LABELLED: [(&'static [u8], &'static str); 9] = [
    (b"X0Y0D03*%TO.N,A*%", "pieces 2"),
    (
        b"%TO.N,A*%X0Y0D03*%TD*%X2000000Y0D03*%TO.N,*%X4000000Y0D03*",
        "pieces 4, 1 0 0 1 A, 3 4000 0 1 N/C",
    ),
    (
        b"%TO.N,B*%X0Y0D03*%TO.N,A*%X2000000Y0D03*%TO.N,B*%X4000000Y1000000D01*",
        "pieces 4, 1 0 0 1 B, 2 2000 0 1 A, 3 2000 0 1 B",
    ),
    (
        b"%TO.N,A*%G36*X1000000Y0D02*X2000000D01*Y1000000D01*%TO.N,B*%X1000000Y0D01*%TO.N,C*%G37*",
        "pieces 2, 1 1000 0 1 C",
    ),
    (
        b"%TO.N,A*%%SRX2Y1I3.0J0*%X0Y0D03*%TO.N,B*%X0Y2000000D03*%SR*%X0Y9000000D03*",
        "pieces 6, 1 0 0 1 A, 2 0 2000 1 B, 3 3000 0 1 A, 4 3000 2000 1 B, 5 0 9000 1 B",
    ),
    (
        b"%TO.N,A*%X0Y0D03*%TD.P*%X2000000Y0D03*",
        "pieces 3, 1 0 0 1 A, 2 2000 0 1 A",
    ),
    (b"%TO.N,\x7f*%X0Y0D03*", "t.gbr 5 38"),
    (
        b"%TO.N,\x7f*%X0Y0D04*",
        "Layer { file: Text { text: \"t.gbr\" }, kind: BadWord, command: 6, at: 46 }",
    ),
    (
        b"%TO.N,A*%X0Y0D03*M02*%TO.N,\x7f*%",
        "Layer { file: Text { text: \"t.gbr\" }, kind: AfterEnd, command: 8, at: 59 }",
    ),
];

#[test]
fn labels_of_pieces(rt: HostRuntime) -> Result<(), Fail> {
    let alloc = rt.alloc();
    for (i, (words, want)) in LABELLED.iter().enumerate() {
        let mut package = with_labels(alloc, *words)?;
        assert_eq!(rt; labelled(alloc, &mut package)?.as_str(), *want, "row {i}");
    }
    // the manifest, the copper file and the drill file are taken; behind a label that is amiss nothing is
    let mut package = with_labels(alloc, b"")?;
    labelled(alloc, &mut package)?;
    assert_eq!(rt; package.calls(), 3);
    let mut package = with_labels(alloc, b"%TO.N,\x7f*%")?;
    labelled(alloc, &mut package)?;
    assert_eq!(rt; package.calls(), 2);
    Ok(())
}
