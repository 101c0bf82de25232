// A hundred made boards. `audit` takes the report that `check` puts on each, in both versions, also with its nets listed in
// another lawful order.
use crate::tests::commands::x2::TWO_LAYERS;
use crate::tests::packages::BARREL;
use crate::tests::{AUDIT, MANIFEST, TIE, answer, gerber, has, shown, text};
use board_io::MemoryPackage;
use lengths::rows::{NoMemory, Rows};
use std::alloc::Global;
use std::test::Fail;
use verdict::{Tree, Trees, Twig, read_report, write_report};

fn has_two_layers(k: u8) -> bool {
    k % 4 == 3
}

// Two discs that stand one millimetre apart touch where both are wide. Whether disc i of board k is wide is told by two
// bits of a number that each board has for itself: on odd boards about every second is, on even ones three of four.
fn is_wide(k: u8, i: u8) -> bool {
    let number = u32::from(k) * 37 % 256;
    let bits = match i {
        0 => number,
        1 => number / 2,
        2 => number / 4,
        3 => number / 8,
        4 => number / 16,
        5 => number / 32,
        _ => number / 64,
    };
    bits % 4 > u32::from(k % 2)
}

// Disc i, three in a row.
fn disc(i: u8) -> &'static str {
    match i {
        0 => "X0Y0D03*",
        1 => "X1000000Y0D03*",
        2 => "X2000000Y0D03*",
        3 => "X0Y1000000D03*",
        4 => "X1000000Y1000000D03*",
        5 => "X2000000Y1000000D03*",
        _ => "X0Y2000000D03*",
    }
}

// The first layer of board k: 3 to 7 discs.
fn first(alloc: Global, k: u8) -> Result<Vec<u8>, NoMemory> {
    let mut bytes = text(
        alloc,
        &["%FSLAX46Y46*%", "%MOMM*%", "%ADD10C,1.0*%", "%ADD11C,0.5*%"],
    )?;
    for i in 0..3 + k / 20 {
        let width = if is_wide(k, i) { "D10*" } else { "D11*" };
        bytes.append(&mut text(alloc, &[width, disc(i)])?)?;
    }
    bytes.append(&mut text(alloc, &["M02*"])?)?;
    Ok(bytes)
}

// The record of point m of board k up to its place.
fn name(k: u8, m: u8) -> &'static [u8] {
    let m = u32::from(m);
    let steps = match k % 3 {
        0 => m,
        1 => 2 * m,
        _ => 3 * m,
    };
    match (steps + u32::from(k / 4)) % 4 {
        0 => b"327A                                  ",
        1 => b"327B                                  ",
        2 => b"327C                                  ",
        _ => b"327N/C                                ",
    }
}

// The place of point m of board k: that of a disc, which may not be there, or on the second layer.
fn place(k: u8, m: u8) -> &'static [u8] {
    if has_two_layers(k) && m == 1 {
        return b"A02X+001000Y+000000\n";
    }
    match (u32::from(k) + 2 * u32::from(m)) % 7 {
        0 => b"A01X+000000Y+000000\n",
        1 => b"A01X+001000Y+000000\n",
        2 => b"A01X+002000Y+000000\n",
        3 => b"A01X+000000Y+001000\n",
        4 => b"A01X+001000Y+001000\n",
        5 => b"A01X+002000Y+001000\n",
        _ => b"A01X+000000Y+002000\n",
    }
}

// The netlist of board k: 2 to 6 points.
fn points(alloc: Global, k: u8) -> Result<Vec<u8>, NoMemory> {
    let mut bytes = text(alloc, &["P  UNITS CUST 1"])?;
    for m in 0..2 + k % 5 {
        bytes.extend_from_slice(name(k, m))?;
        bytes.extend_from_slice(place(k, m))?;
    }
    bytes.append(&mut text(alloc, &["999"])?)?;
    Ok(bytes)
}

fn board(alloc: Global, k: u8) -> Result<MemoryPackage, NoMemory> {
    let mut package = MemoryPackage::new(alloc);
    let manifest = if has_two_layers(k) {
        TWO_LAYERS
    } else {
        MANIFEST
    };
    package.hold("m.json", manifest.as_bytes())?;
    package.hold("t.gbr", first(alloc, k)?.as_slice())?;
    package.hold("b.gbr", gerber(alloc, TIE)?.as_slice())?;
    package.hold("d.drl", text(alloc, BARREL)?.as_slice())?;
    package.hold("n.ipc", points(alloc, k)?.as_slice())?;
    Ok(package)
}

// The report on board k.
fn report(alloc: Global, k: u8) -> Result<Vec<u8>, Fail> {
    put(alloc, k, &["check", "m.json"])
}

// The reports on all boards.
fn reports(alloc: Global) -> Result<Vec<Vec<u8>>, Fail> {
    let mut reports = Vec::new(alloc);
    for k in 0..100 {
        reports.push(report(alloc, k)?)?;
    }
    Ok(reports)
}

// The report on board k, or nothing.
fn report_at(reports: &[Vec<u8>], k: u8) -> &[u8] {
    match reports.get(usize::from(k)) {
        Some(report) => report.as_slice(),
        None => b"",
    }
}

// What the words put for board k.
fn put(alloc: Global, k: u8, words: &[&str]) -> Result<Vec<u8>, Fail> {
    let mut package = board(alloc, k)?;
    let (_status, out, _notes) = answer(alloc, words, &mut package)?;
    Ok(Vec::from_slice(alloc, out.bytes())?)
}

// Wants of a report on board k that all clauses hold.
fn audit(alloc: Global, k: u8, report: &[u8]) -> Result<(), Fail> {
    let mut package = board(alloc, k)?;
    package.hold("r.txt", report)?;
    let (status, out, _notes) = answer(alloc, AUDIT, &mut package)?;
    if status != 0 || shown(&out) != "audit true\n" {
        return Err(Fail::new(format_args!("board {k}, status {status}")));
    }
    Ok(())
}

// On how many boards the report has this part.
fn having(reports: &[Vec<u8>], part: &[u8]) -> u32 {
    let mut boards: u32 = 0;
    for report in reports {
        if has(report.as_slice(), part) {
            boards = boards.saturating_add(1);
        }
    }
    boards
}

// On how many boards a net is short of so many names.
fn shorted(alloc: Global, reports: &[Vec<u8>], names: usize) -> Result<u32, Fail> {
    let mut boards: u32 = 0;
    for report in reports {
        let verdict = read_report(alloc, report.as_slice())?;
        let mut shorts = verdict.shorts.as_slice().iter();
        if shorts.any(|short| short.branches.as_slice().len() == names) {
            boards = boards.saturating_add(1);
        }
    }
    Ok(boards)
}

// Whether a twig may stand before the one that is held back, or before any but the first.
fn may_pass(held: Option<Twig>, twig: Twig) -> bool {
    match held {
        Some(late) => twig.parent != Some(late.piece),
        None => twig.parent.is_none(),
    }
}

// A net in another order: a twig is held back until one comes that hangs on it, and that one is held back next.
fn reordered(alloc: Global, net: &[Twig]) -> Result<Tree, NoMemory> {
    let mut tree = Rows::new(alloc);
    let mut held: Option<Twig> = None;
    for twig in net {
        if may_pass(held, *twig) {
            tree.push(*twig)?;
        } else {
            if let Some(late) = held {
                tree.push(late)?;
            }
            held = Some(*twig);
        }
    }
    if let Some(late) = held {
        tree.push(late)?;
    }
    Ok(tree)
}

fn in_another_order(alloc: Global, nets: &[Tree]) -> Result<Trees, NoMemory> {
    let mut trees = Rows::new(alloc);
    for net in nets {
        trees.push(reordered(alloc, net.as_slice())?)?;
    }
    Ok(trees)
}

// On how many boards another order than the report's was taken.
fn taken_in_another_order(alloc: Global, reports: &[Vec<u8>]) -> Result<u32, Fail> {
    let mut boards: u32 = 0;
    for k in 0..100 {
        let report = report_at(reports, k);
        let mut verdict = read_report(alloc, report)?;
        verdict.nets = in_another_order(alloc, verdict.nets.as_slice())?;
        let other = write_report(alloc, &verdict)?;
        audit(alloc, k, other.as_slice())?;
        if other.as_slice() != report {
            boards = boards.saturating_add(1);
        }
    }
    Ok(boards)
}

#[test]
fn made_boards_are_taken(rt: HostRuntime) -> Result<(), Fail> {
    let alloc = rt.alloc();
    let reports = reports(alloc)?;
    for k in 0..100 {
        audit(alloc, k, report_at(&reports, k))?;
        let plain = put(alloc, k, &["check", "m.json", "1"])?;
        audit(alloc, k, plain.as_slice())?;
    }
    assert!(rt; taken_in_another_order(alloc, &reports)? >= 30);

    // opens, bare points, names of points that are to be joined to nothing, and nothing amiss
    let parts: [&[u8]; 4] = [b"\nopen ", b"\nbare ", b" N/C\n", b"\nagrees\n"];
    for part in parts {
        assert!(rt; having(&reports, part) >= 10);
    }
    assert!(rt; shorted(alloc, &reports, 2)? >= 10);
    assert!(rt; shorted(alloc, &reports, 3)? >= 10);
    Ok(())
}
