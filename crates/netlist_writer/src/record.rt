//! A test record: each field laid into the line at its columns.
ghost use Rattle.std.specs.Prelude.{◌≡◌, ◌≤◌, ◌++◌, OnOk};
ghost use Rattle.ipc356_records.specs.Columns.{filled, laid, access_at, name_from};
ghost use Rattle.netlist_writer.specs.TestLine as spec;
ghost use Rattle.netlist_writer.specs.WrittenNetlist.{spelled};

use planar::Spot;
use std::alloc::AllocError;
use texts::{put, put_last_digits, put_number};

// Where the fields begin.
const NAME_FROM: usize = 4;

const ACCESS_AT: usize = 39;

const X_AT: usize = 42;

const Y_AT: usize = 50;

/// Appends a line.
pub fn push_line(out: &mut Vec<u8>, line: &[u8]) -> Result<(), AllocError>
    ensures { OnOk result (out.new.items ≡ out.old.items ++ spelled line.now) }
{
    put(out, line)?;
    put(out, b"\n")
}

// Fills a line with blanks up to a width.
fn fill(line: &mut Vec<u8>, width: usize) -> Result<(), AllocError>
    ensures { OnOk result (line.new.items ≡ filled width line.old.items) }
{
    while line.len() < width {
        line.push(b' ')?;
    }
    Ok(())
}

// Lays a text into a line from a column on.
fn lay(line: &mut Vec<u8>, first: usize, text: &[u8]) -> Result<(), AllocError>
    requires { 1 ≤ first }
    ensures { OnOk result (line.new.items ≡ laid first text.now line.old.items) }
{
    fill(line, first - 1)?;
    put(line, text)
}

fn sign_of(z: i64) -> u8
    ensures { result ≡ spec.sign_of z }
{
    if z < 0 { b'-' } else { b'+' }
}

// Lays a letter, a sign and six digits of a coordinate.
fn lay_coordinate(line: &mut Vec<u8>, first: usize, letter: u8, z: i64) -> Result<(), AllocError>
    requires { 1 ≤ first }
    ensures { OnOk result (line.new.items ≡ laid first (spec.coordinate letter z) line.old.items) }
{
    lay(line, first, &[letter, sign_of(z)])?;
    put_last_digits(line, 6, z.unsigned_abs() / 10_000)
}

// Lays the name of a net.
fn lay_name(line: &mut Vec<u8>, net: u32) -> Result<(), AllocError>
    ensures { OnOk result (line.new.items ≡ laid name_from (spec.net_name net) line.old.items) }
{
    lay(line, NAME_FROM, b"NET")?;
    put_number(line, u64::from(net))
}

// Lays an access code.
fn lay_access(line: &mut Vec<u8>, access: u8) -> Result<(), AllocError>
    ensures { OnOk result (line.new.items ≡ laid access_at (spec.access_text access) line.old.items) }
{
    lay(line, ACCESS_AT, b"A")?;
    put_last_digits(line, 2, u64::from(access))
}

/// Makes a line a test record.
pub fn set_record(
    line: &mut Vec<u8>,
    code: &[u8],
    net: u32,
    access: u8,
    at: Spot,
) -> Result<(), AllocError>
    ensures { OnOk result (line.new.items ≡ spec.test_line code.now (spec.net_name net) access at) }
{
    line.clear();
    put(line, code)?;
    lay_name(line, net)?;
    lay_access(line, access)?;
    lay_coordinate(line, X_AT, b'X', at.x)?;
    lay_coordinate(line, Y_AT, b'Y', at.y)
}
