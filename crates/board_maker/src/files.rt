//! The five files of a made board, written cell by cell.
ghost use Rattle.board_maker.specs.declared.TheConstants.{MOST_CELLS};
ghost use Rattle.std.specs.Prelude.{◌≡◌, ◌++◌, ◌<◌, ◌≤◌, length, drop, IfOk, OnOk};
ghost use Rattle.std.specs.List.{flat_map};
ghost use Rattle.board_maker.specs.MadeBoard as spec;

use crate::cell::{column, is_bridged, is_broken, row};
use lengths::rows::NoMemory;
use std::alloc::Global;
use texts::Numeral;

// Appends the pieces of a text.
fn append(out: &mut Vec<u8>, pieces: &[&[u8]]) -> Result<(), NoMemory>
    ensures { OnOk result (out.new.items ≡ out.old.items ++ flat_map (λ piece. piece.now) pieces.now) }
{
    for piece in pieces {
        out.extend_from_slice(*piece)?;
    }
    Ok(())
}

// ---- Copper

fn push_operation(out: &mut Vec<u8>, x: u32, y: u32, code: &[u8]) -> Result<(), NoMemory>
    ensures { OnOk result (out.new.items ≡ out.old.items ++ spec.operation x y code.now) }
{
    append(
        out,
        &[
            b"X",
            Numeral::of(u64::from(x)).as_bytes(),
            b"Y",
            Numeral::of(u64::from(y)).as_bytes(),
            code,
            b"*\n",
        ],
    )
}

fn push_flash(out: &mut Vec<u8>, aperture: &[u8], x: u32, y: u32) -> Result<(), NoMemory>
    ensures { OnOk result (out.new.items ≡ out.old.items ++ spec.flash aperture.now x y) }
{
    append(out, &[aperture, b"*\n"])?;
    push_operation(out, x, y, b"D03")
}

fn push_track(out: &mut Vec<u8>, aperture: &[u8], x: u32, y: u32, to_x: u32) -> Result<(), NoMemory>
    ensures { OnOk result (out.new.items ≡ out.old.items ++ spec.track aperture.now x y to_x) }
{
    append(out, &[aperture, b"*\n"])?;
    push_operation(out, x, y, b"D02")?;
    push_operation(out, to_x, y, b"D01")
}

fn push_top_cell(out: &mut Vec<u8>, seed: u64, i: u32) -> Result<(), NoMemory>
    requires { i < MOST_CELLS }
    ensures { OnOk result (out.new.items ≡ out.old.items ++ spec.top_cell seed i) }
{
    let x = 2_500_000 * column(i);
    let y = 2_500_000 * row(i);
    push_flash(out, b"D10", x, y)?;
    push_flash(out, b"D11", x + 1_200_000, y)?;
    if is_broken(seed, i) {
        return Ok(());
    }
    push_track(out, b"D12", x, y, x + 1_200_000)
}

fn push_bottom_cell(out: &mut Vec<u8>, seed: u64, size: u32, i: u32) -> Result<(), NoMemory>
    requires { i < MOST_CELLS }
    ensures { OnOk result (out.new.items ≡ out.old.items ++ spec.bottom_cell seed size i) }
{
    let x = 2_500_000 * column(i);
    let y = 2_500_000 * row(i);
    push_flash(out, b"D10", x, y)?;
    if !is_bridged(seed, size, i) {
        return Ok(());
    }
    push_track(out, b"D12", x, y, x + 2_500_000)
}

// ---- Holes

fn push_tenths(out: &mut Vec<u8>, n: u32) -> Result<(), NoMemory>
    ensures { OnOk result (out.new.items ≡ out.old.items ++ spec.tenths n) }
{
    append(
        out,
        &[
            Numeral::of(u64::from(n / 10)).as_bytes(),
            b".",
            Numeral::of(u64::from(n % 10)).as_bytes(),
        ],
    )
}

fn push_hit(out: &mut Vec<u8>, i: u32) -> Result<(), NoMemory>
    requires { i < MOST_CELLS }
    ensures { OnOk result (out.new.items ≡ out.old.items ++ spec.hit i) }
{
    append(out, &[b"X"])?;
    push_tenths(out, 25 * column(i))?;
    append(out, &[b"Y"])?;
    push_tenths(out, 25 * row(i))?;
    append(out, &[b"\n"])
}

// ---- Test points

// What is left of a filling behind so many bytes.
fn left_of(filling: &[u8], len: usize) -> &[u8]
    ensures { result.now ≡ drop len filling.now }
{
    if len < filling.len() {
        &filling[len..]
    } else {
        &[]
    }
}

#[tactic(auto, unfolding(crate::specs::MadeBoard::six))]
fn push_six(out: &mut Vec<u8>, n: u32) -> Result<(), NoMemory>
    ensures { OnOk result (out.new.items ≡ out.old.items ++ spec.six n) }
{
    let digits = Numeral::of(u64::from(n));
    let zeros = left_of(b"000000", digits.as_bytes().len());
    append(out, &[zeros, digits.as_bytes()])
}

#[tactic(auto, unfolding(crate::specs::MadeBoard::name))]
fn push_name(out: &mut Vec<u8>, i: u32) -> Result<(), NoMemory>
    ensures { OnOk result (out.new.items ≡ out.old.items ++ spec.name i) }
{
    let digits = Numeral::of(u64::from(i));
    let blanks = left_of(
        b"                                  ",
        digits.as_bytes().len(),
    );
    append(out, &[b"N", digits.as_bytes(), blanks])
}

fn push_place(out: &mut Vec<u8>, x: u32, y: u32) -> Result<(), NoMemory>
    ensures { OnOk result (out.new.items ≡ out.old.items ++ spec.place x y) }
{
    append(out, &[b"X+"])?;
    push_six(out, x)?;
    append(out, &[b"Y+"])?;
    push_six(out, y)?;
    append(out, &[b"\n"])
}

fn push_record(
    out: &mut Vec<u8>,
    code: &[u8],
    i: u32,
    access: &[u8],
    x: u32,
    y: u32,
) -> Result<(), NoMemory>
    ensures { OnOk result (out.new.items ≡ out.old.items ++ spec.test_record code.now i access.now x y) }
{
    append(out, &[code])?;
    push_name(out, i)?;
    append(out, &[access])?;
    push_place(out, x, y)
}

fn push_records(out: &mut Vec<u8>, i: u32) -> Result<(), NoMemory>
    requires { i < MOST_CELLS }
    ensures { OnOk result (out.new.items ≡ out.old.items ++ spec.test_records i) }
{
    let x = 2_500 * column(i);
    let y = 2_500 * row(i);
    push_record(out, b"317", i, b"A00", x, y)?;
    push_record(out, b"327", i, b"A01", x + 1_200, y)
}

// ---- The files

/// A file that is written cell by cell.
#[derive(Clone, Copy)]
pub enum Part {
    /// The copper of the top layer.
    Top,
    /// The copper of the bottom layer.
    Bottom,
    /// The plated holes.
    Holes,
    /// The netlist.
    Points,
}

fn head_of(part: Part) -> &'static [u8]
    ensures { result.now ≡ spec.head_of part }
{
    match part {
        Part::Top => {
            b"%FSLAX46Y46*%\n%MOMM*%\n%ADD10C,1.0*%\n%ADD11R,0.8X0.8*%\n%ADD12C,0.2*%\n"
        }
        Part::Bottom => b"%FSLAX46Y46*%\n%MOMM*%\n%ADD10C,1.0*%\n%ADD12C,0.2*%\n",
        Part::Holes => b"M48\nMETRIC\nT1C0.4\n%\nT1\n",
        Part::Points => b"P  UNITS CUST 1\n",
    }
}

fn end_of(part: Part) -> &'static [u8]
    ensures { result.now ≡ spec.end_of part }
{
    match part {
        Part::Top | Part::Bottom => b"M02*\n",
        Part::Holes => b"M30\n",
        Part::Points => b"999\n",
    }
}

fn push_cell(out: &mut Vec<u8>, part: Part, seed: u64, size: u32, i: u32) -> Result<(), NoMemory>
    requires { i < MOST_CELLS }
    ensures { OnOk result (out.new.items ≡ out.old.items ++ spec.cell_of part seed size i) }
{
    match part {
        Part::Top => push_top_cell(out, seed, i),
        Part::Bottom => push_bottom_cell(out, seed, size, i),
        Part::Holes => push_hit(out, i),
        Part::Points => push_records(out, i),
    }
}

/// The text of a file.
#[tactic(auto, using(crate::proofs::Cells::cells_none, crate::proofs::Cells::cells_turn))]
pub fn text(alloc: Global, part: Part, seed: u64, size: u32) -> Result<Vec<u8>, NoMemory>
    requires { size ≤ MOST_CELLS }
    ensures { IfOk result (λ text. text.items ≡ spec.part_text part seed size) }
{
    let mut out = Vec::new(alloc);
    append(&mut out, &[head_of(part)])?;
    for i in 0..size {
        push_cell(&mut out, part, seed, size, i)?;
    }
    append(&mut out, &[end_of(part)])?;
    Ok(out)
}
