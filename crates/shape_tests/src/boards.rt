//! Worked rows of pieces, boards and shifts.
ghost use Rattle.board_shapes.specs.Lawful.{IsOnLayers};
ghost use Rattle.contact.specs.Round.{IsCapsuleRadius};
ghost use Rattle.planar.specs.Plane.{IsPlaced};
ghost use Rattle.std.specs.Prelude.{All, IfOk, length, ◌<◌, ◌≡◌, ◌≤◌};

use area_contact::{Area, AreaFault};
use board_shapes::{Board, BoardFault, MoveFault, Origin, Piece, Placed, Shape};
use contact::{Bounds, Capsule, Closed, Meets};
use lengths::rows::Rows;
use planar::{Frame, Spot};
use std::alloc::{AllocError, Global};
use std::marker::Brand;
use std::sync::ledger::{Blank, Ledger};
use std::test::Fail;
use steps::Steps;

const FRAME: Frame = Frame { left: 0, low: 0 };

const ORIGIN: Origin = Origin {
    file: 0,
    command: 1,
    copy: 0,
};

fn disc(at: Spot, r: i64, top: u8, bottom: u8) -> Piece
    requires placed { IsPlaced at }
    requires radius { IsCapsuleRadius r }
    requires span { (1 ≤ top) × (top ≤ bottom) }
    ensures top { result.top ≡ top }
    ensures bottom { result.bottom ≡ bottom }
{
    Placed {
        shape: Shape::Round(Capsule::new(at, at, r)),
        top,
        bottom,
        origin: ORIGIN,
    }
}

/// Whether two placed solids touch, and the first is under a place on a layer, asked of any type of
/// solids.
fn touch_and_under<S: Meets<S>, L: Ledger>(
    first: &Placed<S>,
    second: &Placed<S>,
    layer: u8,
    blank: Blank,
) -> (bool, bool)
    requires name { blank.name ≡ L.name }
    requires parts { blank.parts ≡ L.parts }
    requires some { 0 < blank.parts }
{
    let mut tests = Steps::<L>::new(blank);
    let at = Spot {
        x: 5_000_000,
        y: 5_000_000,
    };
    if !first.shape.bounds().inside(FRAME) || !second.shape.bounds().inside(FRAME) {
        return (false, false);
    }
    (
        first.touches(second, FRAME, &mut tests),
        first.under(at, layer, FRAME),
    )
}

/// Two spans of layers, a layer, whether the solids touch, and whether the first is under the place on that layer.
type Span = (u8, u8, u8, u8, u8, bool, bool);

static SPANS: [Span; 7] = [
    (1, 1, 1, 1, 1, true, true),
    (1, 1, 2, 2, 2, false, false),
    (1, 2, 2, 3, 3, true, false),
    (1, 2, 3, 4, 0, false, false),
    (1, 4, 2, 3, 3, true, true),
    (2, 3, 1, 4, 1, true, false),
    (3, 4, 1, 2, 4, false, true),
];

#[test]
fn spans(rt: HostRuntime) {
    let at = Spot {
        x: 5_000_000,
        y: 5_000_000,
    };
    for row in &SPANS {
        let (top, bottom, other_top, other_bottom, layer, touch, under) = *row;
        assert!(rt; 1 <= top && top <= bottom, "a span");
        assert!(rt; 1 <= other_top && other_top <= other_bottom, "a span");
        let first = disc(at, 5_000_000, top, bottom);
        let second = disc(at, 1_000_000, other_top, other_bottom);
        let asked = touch_and_under::<Shape, Brand>(&first, &second, layer, Blank::new(1));
        assert!(rt;
            asked == (touch, under),
            "at {top} {bottom} {other_top} {other_bottom} {layer}"
        );
    }
}

fn pair(alloc: Global, first: Piece, second: Piece) -> Result<Vec<Piece>, AllocError>
    requires first { IsOnLayers 1 first }
    requires second { IsOnLayers 1 second }
    ensures many { IfOk result (λ pieces. length pieces.items ≡ 2) }
    ensures spans { IfOk result (λ pieces. All (IsOnLayers 1) pieces.items) }
{
    let mut pieces = Vec::new(alloc);
    pieces.push(first)?;
    pieces.push(second)?;
    Ok(pieces)
}

fn board_of(
    alloc: Global,
    first: Spot,
    second: Spot,
) -> Result<Result<Board, BoardFault>, AllocError>
    requires first { IsPlaced first }
    requires second { IsPlaced second }
{
    let pieces = pair(
        alloc,
        disc(first, 5_000_000, 1, 1),
        disc(second, 5_000_000, 1, 1),
    )?;
    Ok(Board::new(pieces, Rows::new(alloc), Rows::new(alloc), 1))
}

#[test]
fn the_frame(rt: HostRuntime) -> Result<(), Fail> {
    let near = Spot {
        x: 5_000_000,
        y: 5_000_000,
    };
    let fits = Spot {
        x: 9_995_000_000,
        y: 9_995_000_000,
    };
    let board = board_of(rt.alloc(), fits, near)?.expect(&rt, "a board that fits");
    assert!(rt; board.frame() == FRAME && board.pieces().len() == 2 && board.layers() == 1);
    assert!(rt; board.probes().is_empty() && board.names().is_empty());
    let far = Spot {
        x: 9_995_000_010,
        y: 5_000_000,
    };
    let large = Bounds {
        left: 0,
        low: 0,
        right: 10_000_000_010,
        high: 10_000_000,
    };
    let refused = board_of(rt.alloc(), near, far)?;
    assert!(rt; refused.is_err_and(|fault| fault == BoardFault::FrameTooLarge(large)));
    let none = Board::new(
        Vec::new(rt.alloc()),
        Rows::new(rt.alloc()),
        Rows::new(rt.alloc()),
        1,
    );
    assert!(rt; none.is_ok_and(|board| board.frame() == FRAME && board.pieces().is_empty()));
    Ok(())
}

/// The triangle from (0, 0) through (9,999,999,999, 0) and (0, 5).
fn triangle(alloc: Global) -> Result<Result<Area, AreaFault>, AllocError> {
    let mut points = Vec::new(alloc);
    points.push(Spot { x: 0, y: 0 })?;
    points.push(Spot {
        x: 9_999_999_999,
        y: 0,
    })?;
    points.push(Spot { x: 0, y: 5 })?;
    points.push(Spot { x: 0, y: 0 })?;
    Ok(Area::new(alloc, points))
}

/// Whether the piece was shifted, with its left side there, as copy 7.
fn is_moved(moved: Result<Piece, MoveFault>, left: i64) -> bool {
    moved.is_ok_and(|piece| piece.shape.bounds().left == left && piece.origin.copy == 7)
}

fn is_out(moved: Result<Piece, MoveFault>) -> bool {
    moved.is_err_and(|fault| fault == MoveFault::OutOfRange)
}

#[test]
fn moved_at_the_limits(rt: HostRuntime) -> Result<(), Fail> {
    let alloc = rt.alloc();
    let at = Spot {
        x: 9_999_999_999,
        y: 0,
    };
    let round = disc(at, 10, 1, 2);
    assert_eq!(rt; round.shape.edges(), 0);
    assert!(rt; is_moved(round.moved(alloc, 1, 0, 7), 9_999_999_990));
    assert!(rt; is_out(round.moved(alloc, 2, 0, 7)));
    assert!(rt; is_moved(round.moved(alloc, -19_999_999_999, 0, 7), -10_000_000_010));
    assert!(rt; is_out(round.moved(alloc, -20_000_000_000, 0, 7)));
    assert!(rt; is_moved(round.moved(alloc, 0, -10_000_000_000, 7), 9_999_999_989));
    assert!(rt; is_out(round.moved(alloc, 0, 10_000_000_001, 7)));
    let filled = Placed {
        shape: Shape::Filled(triangle(alloc)?.expect(&rt, "a triangle")),
        top: 1,
        bottom: 1,
        origin: ORIGIN,
    };
    assert_eq!(rt; filled.shape.edges(), 3);
    assert!(rt; is_moved(filled.moved(alloc, 1, 0, 7), 1));
    assert!(rt; is_out(filled.moved(alloc, 2, 0, 7)));
    assert!(rt;
        is_moved(
            filled.moved(alloc, -10_000_000_000, 9_999_999_995, 7),
            -10_000_000_000
        )
    );
    assert!(rt; is_out(filled.moved(alloc, 0, 9_999_999_996, 7)));
    Ok(())
}
