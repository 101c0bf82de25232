//! Whether pieces are taken for a turned figure of any outline.
ghost use Rattle.arc_covers.specs.Bounds.{figures_of};
ghost use Rattle.arc_covers.specs.Eighths.{frame_about};
ghost use Rattle.arc_covers.specs.Outlines.{CapsulesStand, IsReached, OutlineLies};
ghost use Rattle.arc_covers.specs.Taken.{IsTurnedTaken, TurnedTaken};
ghost use Rattle.arc_covers.specs.declared.side.Side.TheVariants.{Above, Below};
ghost use Rattle.board_shapes.specs.Figures.{area_figure};
ghost use Rattle.board_shapes.specs.Pieces.{plain_pieces};
ghost use Rattle.planar.specs.Plane.{IsPlaced};
ghost use Rattle.std.specs.Prelude.{IfOk, IsTrue, length, ◌≡◌, ◌<◌, ◌≤◌, ◌↔◌, ◌∷◌, ◌⊎◌};
ghost use Rattle.turned_outlines.specs.Taken.{OutlineBelow};

use crate::eighths;
use crate::regions::{are_capsules, radius_of};
use crate::side::{Side, is_turned_taken};
use arcs::Spot;
use area_contact::Area;
use board_shapes::{Piece, Shape};
use lengths::rows::NoMemory;
use planar::{are_placed, is_placed};
use slants::TurnedFigure;
use std::alloc::Global;
use std::marker::Brand;
use std::sync::ledger::{Blank, Ledger};
use steps::Steps;
use turned_outlines::{is_above_outline, is_below_outline, slack, turned_corners};

/// Whether the pieces are the capsules of one radius along the corners, and both are taken above the
/// figure.
fn are_along(figure: &TurnedFigure, corners: &[Spot], pieces: &[Piece]) -> bool
    requires { 4 ≤ length corners.now }
    ensures { IsTrue result ↔ CapsulesStand figure.now.contour.items figure.now.about figure.now.angle corners.now (figures_of (plain_pieces pieces.now)) }
{
    match radius_of(pieces) {
        Some(r) => are_capsules(pieces, corners, r) && is_above_outline(figure, corners, r),
        None => false,
    }
}

/// Whether the contour alone is taken above the figure, or together with the pieces.
fn holds(figure: &TurnedFigure, area: &Area, pieces: &[Piece]) -> bool
    ensures { IsTrue result ↔ TurnedTaken Above figure.now.contour.items figure.now.about figure.now.angle (area_figure area.now ∷ figures_of (plain_pieces pieces.now)) }
{
    if pieces.is_empty() {
        is_turned_taken(Side::Above, figure, &area.points)
    } else {
        are_along(figure, &area.points, pieces)
    }
}

/// Whether the pieces are taken above the figure: a contour, or a polygon and the capsules along it.
fn is_above(figure: &TurnedFigure, pieces: &[Piece]) -> bool
    ensures { IsTrue result ↔ TurnedTaken Above figure.now.contour.items figure.now.about figure.now.angle (figures_of (plain_pieces pieces.now)) }
{
    match pieces {
        [] => false,
        [first, rest @ ..] => match &first.shape {
            Shape::Round(_) => false,
            Shape::Filled(area) => holds(figure, area, rest),
        },
    }
}

/// Whether the figure, and what it is turned about, lie within a metre.
fn is_reached(figure: &TurnedFigure) -> bool
    ensures { IsTrue result ↔ IsReached figure.now.contour.items figure.now.about }
{
    is_placed(figure.about) && are_placed(&figure.contour)
}

/// Whether `turned_outlines` takes the area below the figure, by the corners.
fn is_within<L: Ledger>(
    figure: &TurnedFigure,
    corners: &[Spot],
    r: u64,
    area: &Area,
    blank: Blank,
) -> bool
    requires about_placed { IsPlaced figure.now.about }
    requires name { blank.name ≡ L.name }
    requires parts { blank.parts ≡ L.parts }
    requires some { 0 < blank.parts }
    ensures { IsTrue result ↔ OutlineBelow (frame_about figure.now.about) figure.now.contour.items figure.now.about figure.now.angle corners.now r area.now.points.items }
{
    let mut tests = Steps::<L>::new(blank);
    is_below_outline(
        figure,
        corners,
        r,
        area,
        eighths::frame_about(figure.about),
        &mut tests,
    )
}

/// Whether it does, by the nearest spots to the turned corners.
fn lies(alloc: Global, figure: &TurnedFigure, area: &Area) -> Result<bool, NoMemory>
    ensures { IfOk result (λ yes. IsTrue yes ↔ OutlineLies figure.now.contour.items figure.now.about figure.now.angle area.now.points.items) }
{
    if !is_reached(figure) {
        return Ok(false);
    }
    let corners = turned_corners(alloc, &figure.contour, figure.about, figure.angle)?;
    let r = slack(&figure.contour, figure.about);
    Ok(is_within::<Brand>(figure, &corners, r, area, Blank::new(1)))
}

/// Whether the contour is taken below the figure, by `slants` or so.
fn is_contour(alloc: Global, figure: &TurnedFigure, area: &Area) -> Result<bool, NoMemory>
    ensures { IfOk result (λ yes. IsTrue yes ↔ (IsTurnedTaken Below figure.now.contour.items figure.now.about figure.now.angle area.now.points.items ⊎ OutlineLies figure.now.contour.items figure.now.about figure.now.angle area.now.points.items)) }
{
    if is_turned_taken(Side::Below, figure, &area.points) {
        return Ok(true);
    }
    lies(alloc, figure, area)
}

/// Whether the pieces are one contour that is taken below the figure, or none.
fn is_below(alloc: Global, figure: &TurnedFigure, pieces: &[Piece]) -> Result<bool, NoMemory>
    ensures { IfOk result (λ yes. IsTrue yes ↔ TurnedTaken Below figure.now.contour.items figure.now.about figure.now.angle (figures_of (plain_pieces pieces.now))) }
{
    match pieces {
        [] => Ok(true),
        [only] => match &only.shape {
            Shape::Filled(area) => is_contour(alloc, figure, area),
            Shape::Round(_) => Ok(false),
        },
        _ => Ok(false),
    }
}

/// Whether the pieces are taken for the turned figure. `NoMemory` where memory is wanted.
pub fn is_turned(
    alloc: Global,
    side: Side,
    figure: &TurnedFigure,
    pieces: &[Piece],
) -> Result<bool, NoMemory>
    ensures { IfOk result (λ yes. IsTrue yes ↔ TurnedTaken side figure.now.contour.items figure.now.about figure.now.angle (figures_of (plain_pieces pieces.now))) }
{
    match side {
        Side::Below => is_below(alloc, figure, pieces),
        Side::Above => Ok(is_above(figure, pieces)),
    }
}
