// Packages of several files.
use crate::tests::{Files, MANIFEST, answers, files};
use board_io::MemoryPackage;
use lengths::rows::NoMemory;
use std::alloc::Global;
use std::test::Fail;

pub const BURIED: &str =
    "{\"copper\":[\"l1.gbr\",\"l2.gbr\",\"l3.gbr\",\"l4.gbr\"],\"drills\":[{\"file\":\"d.drl\",\"from\":2,\"to\":3}],\"netlist\":\"n.ipc\"}";

pub const ROUTED: &str =
    "{\"copper\":[\"t.gbr\"],\"drills\":[{\"file\":\"d.drl\",\"from\":1,\"to\":1}],\"netlist\":\"n.ipc\"}";

pub const DISC: &[&str] = &[
    "%FSLAX46Y46*%",
    "%MOMM*%",
    "%ADD10C,1.0*%",
    "D10*",
    "X0Y0D03*",
    "M02*",
];

pub const TWO_DISCS: &[&str] = &[
    "%FSLAX46Y46*%",
    "%MOMM*%",
    "%ADD10C,1.0*%",
    "D10*",
    "X0Y0D03*",
    "X5000000Y0D03*",
    "M02*",
];

pub const BARREL: &[&str] = &["M48", "METRIC", "T1C0.4", "%", "T1", "X0.0Y0.0", "M30"];

pub const NO_POINTS: &[&str] = &["P  UNITS CUST 1", "999"];

pub const THROUGH_POINT: &[&str] = &[
    "P  UNITS CUST 1",
    "317A                                  A00X+000000Y+000000",
    "999",
];

const KICAD_MANIFEST: &[&str] = &[
    "{\"copper\":[\"F_Cu.gbr\",\"B_Cu.gbr\"],\"drills\":[{\"file\":\"PTH.drl\",\"from\":1,\"to\":2}],\"netlist\":\"n.d356\"}",
];

const KICAD_TOP: &[&str] = &[
    "%TF.GenerationSoftware,KiCad,Pcbnew,7.0.1*%",
    "%TF.CreationDate,2024-03-01T10:00:00+01:00*%",
    "%TF.SameCoordinates,Original*%",
    "%TF.FileFunction,Copper,L1,Top*%",
    "%TF.FilePolarity,Positive*%",
    "%FSLAX46Y46*%",
    "G04 Gerber Fmt 4.6, Leading zero omitted, Abs format (unit mm)*",
    "%MOMM*%",
    "%LPD*%",
    "G01*",
    "G04 APERTURE LIST*",
    "%TA.AperFunction,ComponentPad*%",
    "%ADD10C,1.600000*%",
    "%ADD11R,1.600000X1.600000*%",
    "%TD*%",
    "%TA.AperFunction,SMDPad,CuDef*%",
    "%ADD12O,1.200000X0.600000*%",
    "%TD*%",
    "%TA.AperFunction,Conductor*%",
    "%ADD13C,0.250000*%",
    "%TD*%",
    "G04 APERTURE END LIST*",
    "%TO.P,J1,1*%",
    "%TO.N,GND*%",
    "D11*",
    "X100000000Y-50000000D03*",
    "%TO.P,J1,2*%",
    "%TO.N,/SIG*%",
    "D10*",
    "X102540000Y-50000000D03*",
    "%TO.P,R1,1*%",
    "D12*",
    "X106000000Y-50000000D03*",
    "%TO.P,R1,2*%",
    "%TO.N,VCC*%",
    "X108000000Y-50000000D03*",
    "%TD*%",
    "%TO.N,/SIG*%",
    "D13*",
    "X102540000Y-50000000D02*",
    "X106000000Y-50000000D01*",
    "%TD*%",
    "M02*",
];

pub const KICAD_BOTTOM: &[&str] = &[
    "%TF.FileFunction,Copper,L2,Bot*%",
    "%TF.FilePolarity,Positive*%",
    "%FSLAX46Y46*%",
    "%MOMM*%",
    "%LPD*%",
    "G01*",
    "%ADD10C,1.600000*%",
    "%ADD11R,1.600000X1.600000*%",
    "%TO.N,GND*%",
    "G36*",
    "X95000000Y-55000000D02*",
    "X110000000Y-55000000D01*",
    "X110000000Y-50000000D01*",
    "X104040000Y-50000000D01*",
    "X104040000Y-51500000D01*",
    "X101040000Y-51500000D01*",
    "X101040000Y-48500000D01*",
    "X104040000Y-48500000D01*",
    "X104040000Y-50000000D01*",
    "X110000000Y-50000000D01*",
    "X110000000Y-45000000D01*",
    "X95000000Y-45000000D01*",
    "X95000000Y-55000000D01*",
    "G37*",
    "D11*",
    "X100000000Y-50000000D03*",
    "D10*",
    "X102540000Y-50000000D03*",
    "M02*",
];

const KICAD_DRILL: &[&str] = &[
    "M48",
    "; DRILL file {KiCad 7.0.1} date 2024-03-01T10:00:00",
    "; FORMAT={-:-/ absolute / metric / decimal}",
    "; #@! TF.FileFunction,Plated,1,2,PTH",
    "FMAT,2",
    "METRIC",
    "; #@! TA.AperFunction,Plated,PTH,ComponentDrill",
    "T1C1.000",
    "%",
    "G90",
    "G05",
    "T1",
    "X100.0Y-50.0",
    "X102.54Y-50.0",
    "T0",
    "M30",
];

pub const KICAD_NETLIST: &[&str] = &[
    "P  CODE 00",
    "P  UNITS CUST 0",
    "317GND                                A00X+039370Y-019685",
    "317/SIG                               A00X+040370Y-019685",
    "327/SIG                               A01X+041732Y-019685",
    "327VCC                                A01X+042520Y-019685",
    "999",
];

pub const KICAD_REPORT: &[u8] =
    b"boardnet 1\npieces 10\nnets 3\nnet 0 0 8:0 5:8 6:8\nnet 1 1 4:1 9:1 2:4 7:9\nnet 2 3\nnames 3\nname 0 GND\nname 1 /SIG\nname 2 VCC\npoints 6\npoint 0 1 1 0 0\npoint 1 1 2 0 0\npoint 2 2 1 1 1\npoint 3 2 2 1 1\npoint 4 3 1 1 1\npoint 5 4 1 2 2\nopens 0\nshorts 0\nmissing 0\nagrees\n";

pub const BURIED_FILES: &[(&str, &[&str])] = &[
    ("m.json", &[BURIED]),
    ("l1.gbr", DISC),
    ("l2.gbr", DISC),
    ("l3.gbr", DISC),
    ("l4.gbr", DISC),
    ("d.drl", BARREL),
    ("n.ipc", THROUGH_POINT),
];

pub const BURIED_REPORT: &[u8] =
    b"boardnet 1\npieces 5\nnets 3\nnet 0 0\nnet 1 1 4:1 2:4\nnet 2 3\nnames 1\nname 0 A\npoints 2\npoint 0 1 1 0 0\npoint 1 1 4 0 2\nopens 1\nopen 0 0 2 1\nshorts 0\nmissing 0\ndiffers\n";

static PACKAGES: [Files; 9] = [
    // a buried barrel
    (
        BURIED_FILES,
        1,
        b"boardnet: differs, opens 1, shorts 0, missing 0\n",
        BURIED_REPORT,
    ),
    // a file that is not held
    (
        &[
            ("m.json", &[BURIED]),
            ("l1.gbr", DISC),
            ("l3.gbr", DISC),
            ("l4.gbr", DISC),
            ("d.drl", BARREL),
            ("n.ipc", THROUGH_POINT),
        ],
        4,
        b"boardnet: l2.gbr: cannot be read\n",
        b"",
    ),
    // routs
    (
        &[
            ("m.json", &[ROUTED]),
            ("t.gbr", TWO_DISCS),
            (
                "d.drl",
                &[
                    "M48",
                    "METRIC",
                    "T1C0.5",
                    "%",
                    "T1",
                    "G00X0.0Y0.0",
                    "M15",
                    "G01X5.0Y0.0",
                    "M16",
                    "G05",
                    "M30",
                ],
            ),
            ("n.ipc", NO_POINTS),
        ],
        0,
        b"boardnet: agrees\n",
        b"nets 1\nnet 0 0 2:0 1:2\n",
    ),
    (
        &[
            ("m.json", &[ROUTED]),
            ("t.gbr", TWO_DISCS),
            (
                "d.drl",
                &[
                    "M48",
                    "METRIC",
                    "T1C0.5",
                    "%",
                    "T1",
                    "G00X0.0Y0.0",
                    "M15",
                    "G02X5.0Y0.0A2.5",
                    "M16",
                    "G05",
                    "M30",
                ],
            ),
            ("n.ipc", NO_POINTS),
        ],
        3,
        b"boardnet: d.drl: drill 9 ArcRout at line 8, byte 39\n",
        b"",
    ),
    (
        &[
            ("m.json", &[ROUTED]),
            ("t.gbr", TWO_DISCS),
            (
                "d.drl",
                &["M48", "METRIC", "T1C0.5", "%", "T1", "X0Y0", "M30"],
            ),
            ("n.ipc", NO_POINTS),
        ],
        3,
        b"boardnet: d.drl: drill 6 ImpliedDecimals at line 6, byte 23\n",
        b"",
    ),
    // nothing at all
    (
        &[
            ("m.json", &[MANIFEST]),
            ("t.gbr", &["%FSLAX46Y46*%", "%MOMM*%", "M02*"]),
            ("n.ipc", &["999"]),
        ],
        0,
        b"boardnet: agrees\n",
        b"boardnet 1\npieces 0\nnets 0\nnames 0\npoints 0\nopens 0\nshorts 0\nmissing 0\nagrees\n",
    ),
    // manifests that are none
    (
        &[("m.json", &["{\"copper\":[\"t.gbr\"]"])],
        3,
        b"boardnet: m.json: not JSON\n",
        b"",
    ),
    (
        &[(
            "m.json",
            &["{\"copper\":[],\"drills\":[],\"netlist\":\"n.ipc\"}"],
        )],
        3,
        b"boardnet: m.json: not a manifest\n",
        b"",
    ),
    // ordinary use
    (
        &[
            ("m.json", KICAD_MANIFEST),
            ("F_Cu.gbr", KICAD_TOP),
            ("B_Cu.gbr", KICAD_BOTTOM),
            ("PTH.drl", KICAD_DRILL),
            ("n.d356", KICAD_NETLIST),
        ],
        0,
        b"boardnet: agrees\n",
        KICAD_REPORT,
    ),
];

/// The example of KiCad with these lines of its lower layer, and without its netlist.
pub fn kicad(alloc: Global, bottom: &[&str]) -> Result<MemoryPackage, NoMemory> {
    files(
        alloc,
        &[
            ("m.json", KICAD_MANIFEST),
            ("F_Cu.gbr", KICAD_TOP),
            ("B_Cu.gbr", bottom),
            ("PTH.drl", KICAD_DRILL),
        ],
    )
}

#[test]
fn worked_packages(rt: HostRuntime) -> Result<(), Fail> {
    let alloc = rt.alloc();
    for row in &PACKAGES {
        let (given, status, line, part) = *row;
        let mut package = files(alloc, given)?;
        assert!(rt; answers(alloc, &mut package, status, line, part)?);
    }
    Ok(())
}
