//! Which pieces are test places, and their lines.
ghost use Rattle.std.specs.Prelude.{◌≡◌, ◌++◌, None, OnOk};
ghost use Rattle.board_shapes.specs.Figures.{capsule_figure, figure_of};
ghost use Rattle.board_shapes.specs.Pieces.{plain_piece};
ghost use Rattle.netlist_writer.specs.TestLine as line_spec;
ghost use Rattle.netlist_writer.specs.WrittenNetlist as spec;

use crate::record::{push_line, set_record};
use board_shapes::{Piece, Shape};
use contact::Capsule;
use planar::{Spot, is_same};
use std::alloc::AllocError;
use texts::{put, put_number};

// Whether a coordinate is a whole number of steps of at most six digits.
fn in_steps(z: i64) -> bool
    ensures { result ≡ line_spec.in_steps z }
{
    let amount = z.unsigned_abs();
    amount % 10_000 == 0 && amount <= 9_999_990_000
}

fn is_written(spot: Spot) -> bool
    ensures { result ≡ spec.is_written spot }
{
    in_steps(spot.x) && in_steps(spot.y)
}

// The centre of a disc, if it can be written.
fn centre_of(capsule: &Capsule) -> Option<Spot>
    ensures { result ≡ spec.spot_of (capsule_figure capsule.now) }
{
    if is_same(capsule.a, capsule.b) && is_written(capsule.a) {
        Some(capsule.a)
    } else {
        None
    }
}

// The test place of a shape.
fn spot_of(shape: &Shape) -> Option<Spot>
    ensures { result ≡ spec.spot_of (figure_of shape.now) }
{
    match shape {
        Shape::Round(capsule) => centre_of(capsule),
        Shape::Filled(_) => None,
    }
}

fn code_of(piece: &Piece) -> &'static [u8]
    ensures { result.now ≡ spec.code_of (plain_piece piece.now) }
{
    if piece.top == piece.bottom {
        b"327"
    } else {
        b"317"
    }
}

fn access_of(layers: u8, piece: &Piece) -> u8
    ensures { result ≡ spec.access_of layers (plain_piece piece.now) }
{
    if piece.top == 1 && piece.bottom == layers && layers != 1 {
        0
    } else {
        piece.top
    }
}

// Appends the comment on a piece that is no test place.
fn push_comment(out: &mut Vec<u8>, p: u32) -> Result<(), AllocError>
    ensures { OnOk result (out.new.items ≡ out.old.items ++ spec.spelled (spec.place_line p None)) }
{
    put(out, b"C piece ")?;
    put_number(out, u64::from(p))?;
    put(out, b"\n")
}

/// Appends the line of piece p, which is of this net. The other line is room for a record.
pub fn push_place(
    out: &mut Vec<u8>,
    line: &mut Vec<u8>,
    layers: u8,
    p: u32,
    net: u32,
    piece: &Piece,
) -> Result<(), AllocError>
    ensures { OnOk result (out.new.items ≡ out.old.items ++ spec.spelled (spec.place_line p (spec.place_of layers net (plain_piece piece.now)))) }
{
    match spot_of(&piece.shape) {
        None => push_comment(out, p),
        Some(at) => {
            set_record(line, code_of(piece), net, access_of(layers, piece), at)?;
            push_line(out, line)
        }
    }
}
