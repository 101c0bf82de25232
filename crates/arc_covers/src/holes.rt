//! Whether pieces are taken for a fine figure with a round hole.
ghost use Rattle.arc_covers.specs.Bounds.{OneFigure, figures_of};
ghost use Rattle.arc_covers.specs.Eighths as spec;
ghost use Rattle.arc_covers.specs.Taken.{HoledTaken};
ghost use Rattle.board_shapes.specs.Figures.{figure_of};
ghost use Rattle.board_shapes.specs.Pieces.{plain_pieces};
ghost use Rattle.fine_figures.specs.Holes.{HoledAbove, HoledBelow};
ghost use Rattle.planar.specs.Plane.{IsPlaced};
ghost use Rattle.std.specs.Prelude.{All, IsTrue, ◌≡◌, ◌<◌, ◌↔◌};

use crate::eighths::frame_about;
use crate::side::Side;
use board_shapes::{Piece, Shape};
use fine_figures::{HoledFigure, is_holed_above, is_holed_below};
use planar::is_placed;
use std::marker::Brand;
use std::sync::ledger::{Blank, Ledger};
use steps::Steps;

fn is_within<L: Ledger>(holed: &HoledFigure, shape: &Shape, blank: Blank) -> bool
    requires placed { IsPlaced holed.now.centre }
    requires name { blank.name ≡ L.name }
    requires parts { blank.parts ≡ L.parts }
    requires some { 0 < blank.parts }
    ensures { IsTrue result ↔ HoledBelow (spec.frame_about holed.now.centre) holed.now (figure_of shape.now) }
{
    let mut tests = Steps::<L>::new(blank);
    is_holed_below(holed, shape, frame_about(holed.centre), &mut tests)
}

/// Whether the piece is taken below the figure.
fn lies(holed: &HoledFigure, piece: &Piece) -> bool
    ensures { IsTrue result ↔ HoledBelow (spec.frame_about holed.now.centre) holed.now (figure_of piece.now.shape) }
{
    if is_placed(holed.centre) {
        is_within::<Brand>(holed, &piece.shape, Blank::new(1))
    } else {
        false
    }
}

/// Whether each of the pieces is.
fn are_within(holed: &HoledFigure, pieces: &[Piece]) -> bool
    ensures { IsTrue result ↔ All (λ piece. HoledBelow (spec.frame_about holed.now.centre) holed.now (figure_of piece.shape)) pieces.now }
{
    pieces.iter().all(|piece| lies(holed, piece))
}

/// Whether there is one piece, and it is taken above the figure.
fn is_around(holed: &HoledFigure, pieces: &[Piece]) -> bool
    ensures { IsTrue result ↔ OneFigure (HoledAbove holed.now) (figures_of (plain_pieces pieces.now)) }
{
    match pieces {
        [only] => is_holed_above(holed, &only.shape),
        _ => false,
    }
}

/// Whether the pieces are taken for the figure with a hole.
pub fn is_holed(side: Side, holed: &HoledFigure, pieces: &[Piece]) -> bool
    ensures { IsTrue result ↔ HoledTaken side holed.now (figures_of (plain_pieces pieces.now)) }
{
    match side {
        Side::Below => are_within(holed, pieces),
        Side::Above => is_around(holed, pieces),
    }
}
