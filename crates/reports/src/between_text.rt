//! The text of `between`, and what is decided by two verdicts of a board between theirs.
ghost use Rattle.reports.specs.BetweenText as spec;
ghost use Rattle.reports.specs.BetweenText.{findings_part, list_part, point_line, probe_text};
ghost use Rattle.std.specs.List.{flat_map};
ghost use Rattle.std.specs.Prelude.{IfOk, OnOk, Some, [], length, map, slice_index_or, ◌++◌, ◌≡◌};
ghost use Rattle.verdict.specs.ReportText.{count_line, signed_word};

use crate::findings::Findings;
use board_shapes::Probe;
use lengths::rows::NoMemory;
use lengths::text::Text;
use planar::Spot;
use std::alloc::{AllocError, Global};
use texts::{put, put_blank_number, put_signed};
use verdict::Verdict;

fn name_at(names: &[Text], name: u32) -> &[u8]
    ensures { result.now ≡ slice_index_or names.now name [] }
{
    match names.get(name as usize) {
        Some(name) => name.as_bytes(),
        None => b"",
    }
}

// A title and a count.
fn push_count(out: &mut Vec<u8>, title: &[u8], count: usize) -> Result<(), AllocError>
    ensures { OnOk result (out.new.items ≡ out.old.items ++ count_line title.now count) }
{
    put(out, title)?;
    put_blank_number(out, count as u64)?;
    put(out, b"\n")
}

// A blank and a signed number.
fn push_signed(out: &mut Vec<u8>, z: i64) -> Result<(), AllocError>
    ensures { OnOk result (out.new.items ≡ out.old.items ++ signed_word z) }
{
    put(out, b" ")?;
    put_signed(out, z)
}

// A place.
fn push_place(out: &mut Vec<u8>, at: Spot) -> Result<(), AllocError>
    ensures { OnOk result (out.new.items ≡ out.old.items ++ spec.place_text at) }
{
    push_signed(out, at.x)?;
    push_signed(out, at.y)
}

// A blank and a name.
fn push_name(out: &mut Vec<u8>, names: &[Text], name: u32) -> Result<(), AllocError>
    ensures { OnOk result (out.new.items ≡ out.old.items ++ spec.name_text names.now name) }
{
    put(out, b" ")?;
    put(out, name_at(names, name))
}

// A test point.
fn push_probe(out: &mut Vec<u8>, names: &[Text], probe: &Probe) -> Result<(), AllocError>
    ensures { OnOk result (out.new.items ≡ out.old.items ++ probe_text names.now (Some probe.now)) }
{
    put_blank_number(out, u64::from(probe.number))?;
    put_blank_number(out, u64::from(probe.layer))?;
    push_place(out, probe.at)?;
    push_name(out, names, probe.name)
}

// A title and the test point of that number.
fn push_point(
    out: &mut Vec<u8>,
    title: &[u8],
    probes: &[Probe],
    names: &[Text],
    number: u32,
) -> Result<(), AllocError>
    ensures { OnOk result (out.new.items ≡ out.old.items ++ point_line title.now probes.now names.now number) }
{
    put(out, title)?;
    if let Some(probe) = probes.get(number as usize) {
        push_probe(out, names, probe)?;
    }
    put(out, b"\n")
}

// A count, and a line for each of these test points.
fn push_list(
    out: &mut Vec<u8>,
    title: &[u8],
    item: &[u8],
    probes: &[Probe],
    names: &[Text],
    points: &[u32],
) -> Result<(), AllocError>
    ensures { OnOk result (out.new.items ≡ out.old.items ++ list_part title.now item.now probes.now names.now points.now) }
{
    push_count(out, title, points.len())?;
    push_points(out, item, probes, names, points)
}

fn push_points(
    out: &mut Vec<u8>,
    item: &[u8],
    probes: &[Probe],
    names: &[Text],
    points: &[u32],
) -> Result<(), AllocError>
    ensures { OnOk result (out.new.items ≡ out.old.items ++ flat_map (point_line item.now probes.now names.now) points.now) }
{
    for number in points {
        push_point(out, item, probes, names, *number)?;
    }
    Ok(())
}

fn push_shorts(
    out: &mut Vec<u8>,
    probes: &[Probe],
    names: &[Text],
    shorts: &[Vec<u32>],
) -> Result<(), AllocError>
    ensures { OnOk result (out.new.items ≡ out.old.items ++ spec.shorts_part probes.now names.now (map (λ points. points.items) shorts.now)) }
{
    push_count(out, b"shorts", shorts.len())?;
    each_short(out, probes, names, shorts)
}

fn each_short(
    out: &mut Vec<u8>,
    probes: &[Probe],
    names: &[Text],
    shorts: &[Vec<u32>],
) -> Result<(), AllocError>
    ensures { OnOk result (out.new.items ≡ out.old.items ++ flat_map (λ short. spec.short_part probes.now names.now short.items) shorts.now) }
{
    for short in shorts {
        push_list(out, b"short", b"point", probes, names, short.as_slice())?;
    }
    Ok(())
}

// A title, and what is found.
fn push_findings(
    out: &mut Vec<u8>,
    title: &[u8],
    probes: &[Probe],
    names: &[Text],
    found: &Findings,
) -> Result<(), AllocError>
    ensures { OnOk result (out.new.items ≡ out.old.items ++ (title.now ++ findings_part probes.now names.now found.now)) }
{
    put(out, title)?;
    push_list(out, b"opens", b"open", probes, names, found.opens())?;
    push_shorts(out, probes, names, found.shorts())?;
    push_list(out, b"missing", b"bare", probes, names, found.missing())
}

fn push_board(out: &mut Vec<u8>, title: &[u8], v: &Verdict) -> Result<(), AllocError>
    ensures { OnOk result (out.new.items ≡ out.old.items ++ spec.board_line title.now v.now) }
{
    put(out, title)?;
    put_blank_number(out, u64::from(v.pieces))?;
    put_blank_number(out, v.nets.as_slice().len() as u64)?;
    put_blank_number(out, v.opens.as_slice().len() as u64)?;
    put_blank_number(out, v.shorts.as_slice().len() as u64)?;
    put_blank_number(out, v.bare.as_slice().len() as u64)?;
    put(out, b"\n")
}

fn push_boards(
    out: &mut Vec<u8>,
    pieces: usize,
    points: usize,
    below: &Verdict,
    above: &Verdict,
) -> Result<(), AllocError>
    ensures { OnOk result (out.new.items ≡ out.old.items ++ spec.boards_part pieces points below.now above.now) }
{
    put(out, b"boardnet-between 1\n")?;
    push_count(out, b"real", pieces)?;
    push_count(out, b"points", points)?;
    push_board(out, b"lower", below)?;
    push_board(out, b"upper", above)
}

// What is decided.
fn last(sure: &Findings, unsure: &Findings) -> &'static [u8]
    ensures { result.now ≡ spec.last_part sure.now unsure.now }
{
    if !sure.are_none() {
        return b"differs\n";
    }
    if unsure.are_none() {
        b"agrees\n"
    } else {
        b"undecided\n"
    }
}

// What is certain, what is undecided, and what is decided.
fn push_decision(
    out: &mut Vec<u8>,
    probes: &[Probe],
    names: &[Text],
    sure: &Findings,
    unsure: &Findings,
) -> Result<(), AllocError>
    ensures { OnOk result (out.new.items ≡ out.old.items ++ spec.decision_part probes.now names.now sure.now unsure.now) }
{
    push_findings(out, b"certain\n", probes, names, sure)?;
    push_findings(out, b"undecided\n", probes, names, unsure)?;
    put(out, last(sure, unsure))
}

/// The text of what is certain and of what is undecided of a real board of so many pieces, with these test points and names, between boards with these
/// verdicts.
pub fn write_between(
    alloc: Global,
    count: usize,
    probes: &[Probe],
    names: &[Text],
    below: &Verdict,
    above: &Verdict,
    sure: &Findings,
    unsure: &Findings,
) -> Result<Vec<u8>, NoMemory>
    ensures { IfOk result (λ text. text.items ≡ spec.boards_part count (length probes.now) below.now above.now ++ spec.decision_part probes.now names.now sure.now unsure.now) }
{
    let mut out = Vec::new(alloc);
    push_boards(&mut out, count, probes.len(), below, above)?;
    push_decision(&mut out, probes, names, sure, unsure)?;
    Ok(out)
}
