//! The text of the pieces of a layer.
ghost use Rattle.std.specs.Prelude.{◌≡◌, ◌++◌, ◌+◌, List, ℕ, Option, None, map, IfOk, OnOk};
ghost use Rattle.std.specs.List.{flat_map};
ghost use Rattle.board_shapes.specs.Figures.{figure_of};
ghost use Rattle.board_shapes.specs.Pieces.{plain_pieces};
ghost use Rattle.macro_flatten.specs.FlatText as spec;
ghost use Rattle.macro_flatten.specs.Pens.{pens_in};

use crate::lines::{push_circle, push_draw, push_extended, push_move, push_selection, push_word};
use crate::pens::{Pens, pen_of};
use board_shapes::{Piece, Shape};
use contact::Capsule;
use lengths::rows::NoMemory;
use planar::Spot;
use std::alloc::{AllocError, Global};

// Appends the definition of each pen.
fn push_circles(out: &mut Vec<u8>, pens: &[u64]) -> Result<(), AllocError>
    ensures { OnOk result (out.new.items ≡ out.old.items ++ flat_map spec.spelled (spec.circles 10 pens.now)) }
{
    let mut number: u64 = 10;
    for pen in pens {
        push_circle(out, number, *pen)?;
        number += 1;
    }
    Ok(())
}

// Appends the selection of an aperture, where the last selection is another.
fn push_selected(out: &mut Vec<u8>, last: Option<u64>, number: u64) -> Result<(), AllocError>
    ensures { OnOk result (out.new.items ≡ out.old.items ++ flat_map spec.spelled (spec.selection last number)) }
{
    match last {
        Some(selected) if selected == number => Ok(()),
        _ => push_selection(out, number),
    }
}

// Appends the lines of a stroke.
fn push_stroke(
    out: &mut Vec<u8>,
    last: Option<u64>,
    number: u64,
    capsule: &Capsule,
) -> Result<(), AllocError>
    ensures { OnOk result (out.new.items ≡ out.old.items ++ flat_map spec.spelled (spec.drawn_by last number capsule.now.a capsule.now.b)) }
{
    push_selected(out, last, number)?;
    push_move(out, capsule.a)?;
    push_draw(out, capsule.b)
}

// Appends draws to spots.
fn push_draws(out: &mut Vec<u8>, spots: &[Spot]) -> Result<(), AllocError>
    ensures { OnOk result (out.new.items ≡ out.old.items ++ flat_map spec.spelled (map spec.draw spots.now)) }
{
    for spot in spots {
        push_draw(out, *spot)?;
    }
    Ok(())
}

// Appends the lines of a contour.
fn push_contour(out: &mut Vec<u8>, points: &[Spot]) -> Result<(), AllocError>
    ensures { OnOk result (out.new.items ≡ out.old.items ++ flat_map spec.spelled (spec.contour_lines points.now)) }
{
    match points {
        [] => Ok(()),
        [first, rest @ ..] => {
            push_move(out, *first)?;
            push_draws(out, rest)
        }
    }
}

// Appends the lines of an area.
fn push_area(out: &mut Vec<u8>, points: &[Spot]) -> Result<(), AllocError>
    ensures { OnOk result (out.new.items ≡ out.old.items ++ flat_map spec.spelled (spec.area_lines points.now)) }
{
    push_word(out, b"G36")?;
    push_contour(out, points)?;
    push_word(out, b"G37")
}

// Appends the lines of a shape, and answers the last selection behind them.
fn push_figure(
    out: &mut Vec<u8>,
    pens: &Pens,
    last: Option<u64>,
    shape: &Shape,
) -> Result<Option<u64>, AllocError>
    ensures lines { OnOk result (out.new.items ≡ out.old.items ++ flat_map spec.spelled (spec.figure_lines (pens_in pens.now) last (figure_of shape.now))) }
    ensures selected { IfOk result (λ next. next ≡ spec.selected_after (pens_in pens.now) last (figure_of shape.now)) }
{
    match shape {
        Shape::Round(capsule) => {
            let number = pens.number(pen_of(capsule));
            push_stroke(out, last, number, capsule)?;
            Ok(Some(number))
        }
        Shape::Filled(area) => {
            push_area(out, &area.points)?;
            Ok(last)
        }
    }
}

// Appends the lines of all pieces, and the end.
fn push_figures(out: &mut Vec<u8>, pens: &Pens, pieces: &[Piece]) -> Result<(), AllocError>
    ensures { OnOk result (out.new.items ≡ out.old.items ++ flat_map spec.spelled (spec.figures_lines (pens_in pens.now) None (spec.figures_in (plain_pieces pieces.now)))) }
{
    let mut last = None;
    for piece in pieces {
        last = push_figure(out, pens, last, &piece.shape)?;
    }
    push_word(out, b"M02")
}

// Appends the head: the numbers, the unit, and the pens.
fn push_head(out: &mut Vec<u8>, pens: &Pens) -> Result<(), AllocError>
    ensures { OnOk result (out.new.items ≡ out.old.items ++ flat_map spec.spelled (spec.head_lines (pens_in pens.now))) }
{
    push_extended(out, b"FSLAX47Y47")?;
    push_extended(out, b"MOMM")?;
    push_circles(out, pens.as_slice())
}

/// The flattened text of these pieces. It reads as exactly their figures, in order, where these are flat: radii over 0,
/// and no more pens, pieces and edges than a file may have (`laws::flat_text_reads`). `NoMemory` where memory is
/// wanted.
pub fn write_flat(alloc: Global, pieces: &[Piece]) -> Result<Vec<u8>, NoMemory>
    ensures text { IfOk result (λ text. text.items ≡ spec.flat_text_of (spec.figures_in (plain_pieces pieces.now))) }
{
    let pens = Pens::of(alloc, pieces)?;
    let mut out = Vec::new(alloc);
    push_head(&mut out, &pens)?;
    push_figures(&mut out, &pens, pieces)?;
    Ok(out)
}
