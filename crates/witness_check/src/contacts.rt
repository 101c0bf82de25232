//! Pieces of a board that touch.
ghost use Rattle.area_contact.specs.Contour.{InArea, area_box, edges_of};
ghost use Rattle.board_shapes.specs.Plain.{plain_board};
ghost use Rattle.board_shapes.specs.Shapes.{InShape, shape_box};
ghost use Rattle.board_shapes.specs.Spans.{CommonLayer};
ghost use Rattle.board_shapes.specs.Tables.{IsNear};
ghost use Rattle.contact.specs.Solid.{IsInside, SharePoint};
ghost use Rattle.planar.specs.Plane.{InCapsule};
ghost use Rattle.std.specs.Prelude.{◌≡◌, ◌+◌, ◌<◌, ◌≤◌, ◌↔◌, IsTrue, length};

use area_contact::Area;
use board_shapes::{Board, Piece, Shape};
use contact::{Capsule, Closed, Meets};
use planar::{Frame, is_same};
use std::sync::ledger::Ledger;
use steps::Steps;

/// Whether two pieces are two and touch, by at most one contact test.
pub fn are_near<L: Ledger>(board: &Board, p: usize, q: usize, tests: &mut Steps<L>) -> bool
    requires first { p < length (plain_board board.now).pieces }
    requires second { q < length (plain_board board.now).pieces }
    ensures near { IsTrue result ↔ IsNear (plain_board board.now) p q }
    ensures tests { tests.new ≤ tests.old + 1 }
{
    if q == p {
        return false;
    }
    let pieces = board.pieces();
    pieces[p].touches(&pieces[q], board.frame(), tests)
}

/// The same of pieces that mostly touch: their boxes are not compared first.
pub fn are_joined<L: Ledger>(board: &Board, p: usize, q: usize, tests: &mut Steps<L>) -> bool
    requires first { p < length (plain_board board.now).pieces }
    requires second { q < length (plain_board board.now).pieces }
    ensures near { IsTrue result ↔ IsNear (plain_board board.now) p q }
    ensures tests { tests.new ≤ tests.old + 1 }
{
    if q == p {
        return false;
    }
    let pieces = board.pieces();
    are_joined_pieces(&pieces[p], &pieces[q], board.frame(), tests)
}

// Whether the spans have a common layer and the solids share a point.
fn are_joined_pieces<L: Ledger>(
    one: &Piece,
    two: &Piece,
    frame: Frame,
    tests: &mut Steps<L>,
) -> bool
    requires one_inside { IsInside (shape_box one.now.shape) frame }
    requires two_inside { IsInside (shape_box two.now.shape) frame }
    ensures touch { IsTrue result ↔ (CommonLayer one.now.top one.now.bottom two.now.top two.now.bottom × SharePoint (InShape one.now.shape) (InShape two.now.shape)) }
    ensures tests { tests.new ≤ tests.old + 1 }
{
    if one.top.max(two.top) > one.bottom.min(two.bottom) {
        return false;
    }
    share_an_end(&one.shape, &two.shape, frame) || one.shape.meets(&two.shape, frame, tests)
}

// A quick test, which most pairs that are joined pass and which is not counted: two capsules begin at one spot, or one ends in an area.
fn share_an_end(one: &Shape, two: &Shape, frame: Frame) -> bool
    requires one_inside { IsInside (shape_box one.now) frame }
    requires two_inside { IsInside (shape_box two.now) frame }
    ensures { IsTrue result → SharePoint (InShape one.now) (InShape two.now) }
{
    match (one, two) {
        (Shape::Round(first), Shape::Round(second)) => begin_together(first, second),
        (Shape::Round(capsule), Shape::Filled(area)) => ends_in(capsule, area, frame),
        (Shape::Filled(area), Shape::Round(capsule)) => ends_in(capsule, area, frame),
        (Shape::Filled(_), Shape::Filled(_)) => false,
    }
}

// Whether two capsules begin at one spot.
fn begin_together(first: &Capsule, second: &Capsule) -> bool
    ensures { IsTrue result → SharePoint (InCapsule first.now.a first.now.b first.now.r) (InCapsule second.now.a second.now.b second.now.r) }
{
    is_same(first.a, second.a)
}

// Whether the end of the capsule lies in the area.
fn ends_in(capsule: &Capsule, area: &Area, frame: Frame) -> bool
    requires { IsInside (area_box area.now.points.items) frame }
    ensures { IsTrue result → SharePoint (InCapsule capsule.now.a capsule.now.b capsule.now.r) (InArea (edges_of area.now.points.items)) }
{
    area.has(capsule.b, frame)
}
