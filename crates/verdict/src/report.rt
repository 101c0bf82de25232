//! The text of a verdict.
ghost use Rattle.std.specs.Prelude.{◌≡◌, [], ◌++◌, OnOk, IfOk, IfSome};
ghost use Rattle.std.specs.List.{AllByRecursion};
ghost use Rattle.lengths.specs.Text.{IsText};
ghost use Rattle.verdict.specs.Lawful.{IsNumber, IsOpen, IsPointLine, IsShort, IsSupplement, IsTwig, IsVerdict};
ghost use Rattle.verdict.specs.ReportText as spec;

use crate::lines::{write_count, write_section};
use crate::verdict::{Supplement, Verdict};
use lengths::rows::NoMemory;
use std::alloc::{AllocError, Global};
use texts::put;

// About how many bytes a piece or a point makes, with its line of the supplement.
const BYTES_OF_AN_ITEM: usize = 64;

// No text, with room for about as much as the report has, where memory serves: a text that grows is copied each time.
fn with_room(alloc: Global, v: &Verdict) -> Vec<u8>
    ensures { result.items ≡ [] }
{
    let items = (v.pieces as usize).saturating_add(v.points.as_slice().len());
    match Vec::with_capacity(alloc, items.saturating_mul(BYTES_OF_AN_ITEM)) {
        Ok(text) => text,
        Err(_) => Vec::new(alloc),
    }
}

// Writes the first line: it tells whether there is a supplement.
fn write_first(out: &mut Vec<u8>, more: &Option<Supplement>) -> Result<(), AllocError>
    ensures { OnOk result (out.new.items ≡ out.old.items ++ spec.first_line more.now) }
{
    match more {
        None => put(out, b"boardnet 1\n"),
        Some(_) => put(out, b"boardnet 2\n"),
    }
}

// Writes the supplement, where there is one.
fn write_more(out: &mut Vec<u8>, more: &Option<Supplement>) -> Result<(), AllocError>
    ensures text { OnOk result (out.new.items ≡ out.old.items ++ spec.more_text more.now) }
    ensures lawful { OnOk result (IfSome more.now IsSupplement) }
{
    match more {
        None => Ok(()),
        Some(more) => {
            write_section(out, b"spots", more.spots.as_slice())?;
            write_section(out, b"sources", more.sources.as_slice())
        }
    }
}

fn write_last(out: &mut Vec<u8>, v: &Verdict) -> Result<(), AllocError>
    ensures { OnOk result (out.new.items ≡ out.old.items ++ spec.last_line v.now.opens v.now.shorts v.now.bare) }
{
    if v.agrees() {
        put(out, b"agrees\n")
    } else {
        put(out, b"differs\n")
    }
}

// Writes the parts up to the points.
fn write_tables(out: &mut Vec<u8>, v: &Verdict) -> Result<(), AllocError>
    ensures text { OnOk result (out.new.items ≡ out.old.items ++ spec.tables_text v.now) }
    ensures pieces { OnOk result (IsNumber v.now.pieces) }
    ensures nets { OnOk result (AllByRecursion (AllByRecursion IsTwig) v.now.nets) }
    ensures names { OnOk result (AllByRecursion IsText v.now.names) }
    ensures points { OnOk result (AllByRecursion IsPointLine v.now.points) }
{
    let pieces = v.pieces;
    write_count(out, b"pieces", u64::from(pieces))?;
    write_section(out, b"nets", v.nets.as_slice())?;
    write_section(out, b"names", v.names.as_slice())?;
    write_section(out, b"points", v.points.as_slice())
}

// Writes the parts behind the points.
fn write_findings(out: &mut Vec<u8>, v: &Verdict) -> Result<(), AllocError>
    ensures text { OnOk result (out.new.items ≡ out.old.items ++ spec.findings_text v.now) }
    ensures opens { OnOk result (AllByRecursion IsOpen v.now.opens) }
    ensures shorts { OnOk result (AllByRecursion IsShort v.now.shorts) }
    ensures bare { OnOk result (AllByRecursion IsNumber v.now.bare) }
{
    write_section(out, b"opens", v.opens.as_slice())?;
    write_section(out, b"shorts", v.shorts.as_slice())?;
    write_section(out, b"missing", v.bare.as_slice())
}

/// The text of a verdict, which is lawful where there is one: its numbers are in the ranges of their types, its names are
/// texts. `NoMemory` where memory is wanted.
pub fn write_report(alloc: Global, v: &Verdict) -> Result<Vec<u8>, NoMemory>
    ensures text { IfOk result (λ text. text.items ≡ spec.report_text v.now) }
    ensures lawful { IfOk result (λ text. IsVerdict v.now) }
{
    let mut out = with_room(alloc, v);
    write_first(&mut out, &v.more)?;
    write_tables(&mut out, v)?;
    write_findings(&mut out, v)?;
    write_more(&mut out, &v.more)?;
    write_last(&mut out, v)?;
    Ok(out)
}
