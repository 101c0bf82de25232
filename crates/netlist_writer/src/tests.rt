// Lines of pieces, written out.
ghost use Rattle.std.specs.Prelude.{◌≡◌, ◌≤◌};
ghost use Rattle.contact.specs.Round.{IsCapsuleRadius};
ghost use Rattle.planar.specs.Plane.{IsPlaced};

use crate::places::push_place;
use board_shapes::{Origin, Piece, Placed, Shape};
use contact::Capsule;
use lengths::rows::NoMemory;
use planar::Spot;
use std::alloc::Global;
use std::test::Fail;

const ORIGIN: Origin = Origin {
    file: 0,
    command: 1,
    copy: 0,
};

fn stroke(a: Spot, b: Spot, top: u8, bottom: u8) -> Piece
    requires start { IsPlaced a }
    requires end { IsPlaced b }
    requires span { (1 ≤ top) × (top ≤ bottom) }
{
    Placed {
        shape: Shape::Round(Capsule::new(a, b, 5_000_000)),
        top,
        bottom,
        origin: ORIGIN,
    }
}

fn disc(at: Spot, top: u8, bottom: u8) -> Piece
    requires place { IsPlaced at }
    requires span { (1 ≤ top) × (top ≤ bottom) }
{
    stroke(at, at, top, bottom)
}

// The line of a piece with number 7 on net 12 of a board of four layers.
fn line_of(alloc: Global, piece: &Piece) -> Result<Vec<u8>, NoMemory> {
    let mut out = Vec::new(alloc);
    let mut line = Vec::new(alloc);
    push_place(&mut out, &mut line, 4, 7, 12, piece)?;
    Ok(out)
}

// Pads, barrels and signs; what is no disc on a whole number of steps is told as a comment.
#[test]
fn lines_of_pieces(rt: HostRuntime) -> Result<(), Fail> {
    let zero = Spot { x: 0, y: 0 };
    let far = Spot {
        x: 9_999_990_000,
        y: -9_999_990_000,
    };
    let over = Spot {
        x: 10_000_000_000,
        y: 0,
    };
    let off = Spot {
        x: 10_000_010,
        y: 0,
    };
    let mils = Spot {
        x: 10_000_000,
        y: -10_000,
    };
    let table: [(Piece, &[u8]); 8] = [
        (
            disc(zero, 1, 1),
            b"327NET12                              A01X+000000Y+000000\n",
        ),
        (
            disc(mils, 4, 4),
            b"327NET12                              A04X+001000Y-000001\n",
        ),
        (
            disc(zero, 2, 3),
            b"317NET12                              A02X+000000Y+000000\n",
        ),
        (
            disc(far, 1, 4),
            b"317NET12                              A00X+999999Y-999999\n",
        ),
        (
            disc(zero, 1, 3),
            b"317NET12                              A01X+000000Y+000000\n",
        ),
        (disc(over, 1, 1), b"C piece 7\n"),
        (disc(off, 1, 1), b"C piece 7\n"),
        (stroke(zero, mils, 1, 1), b"C piece 7\n"),
    ];
    for (piece, expected) in &table {
        let line = line_of(rt.alloc(), piece)?;
        assert_eq!(rt; line.as_slice(), *expected);
    }
    Ok(())
}
