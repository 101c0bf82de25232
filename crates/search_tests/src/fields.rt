// Discs on layers: who touches whom, and who is under a place.
ghost use Rattle.contact.specs.Round.{IsLawful, box_of};
ghost use Rattle.contact.specs.RoundLaws.{boxed, boxes_share, not_empty, shared_by_itself};
ghost use Rattle.contact.specs.Solid.{IsInside};
ghost use Rattle.planar.specs.Plane.{InCapsule, IsPlaced};
ghost use Rattle.std.specs.Prelude.{◌≡◌, ◌<◌, ◌≤◌, ◌↔◌, All, IfOk, IfSome, IsTrue};

use board_shapes::{Origin, Placed};
use cell_index::{AllPairs, Cells, Field};
use contact::{Bounds, Capsule, Closed, Meets};
use lengths::rows::NoMemory;
use planar::{Frame, SIDE, Spot};
use std::alloc::Global;
use std::cell::Cell;
use std::marker::Brand;
use std::sync::ledger::{Blank, Ledger};
use std::test::Fail;
use steps::Steps;

const FRAME: Frame = Frame {
    left: -100_000_000,
    low: -100_000_000,
};

// The spot at so many half millimetres.
fn spot(x: u8, y: u8) -> Spot
    ensures { IsPlaced result }
{
    Spot {
        x: x as i64 * 5_000_000,
        y: y as i64 * 5_000_000,
    }
}

// A disc of 1 mm.
fn disc(x: u8, y: u8, top: u8, bottom: u8) -> Placed<Capsule>
    requires { (1 ≤ top) × (top ≤ bottom) }
{
    Placed {
        shape: Capsule::new(spot(x, y), spot(x, y), 5_000_000),
        top,
        bottom,
        origin: Origin {
            file: 0,
            command: 1,
            copy: 0,
        },
    }
}

fn fit<S: Meets<S>>(items: &[Placed<S>], frame: Frame) -> bool
    ensures { IsTrue result ↔ All (λ p. IsInside (S.extent p.shape) frame) items.now }
{
    items.iter().all(|p| p.shape.bounds().inside(frame))
}

fn is_on<S>(item: &Placed<S>, layers: u8) -> bool
    ensures { IsTrue result ↔ ((1 ≤ item.now.top) × (item.now.top ≤ item.now.bottom) × (item.now.bottom ≤ layers)) }
{
    if item.top == 0 || item.bottom < item.top {
        return false;
    }
    item.bottom <= layers
}

fn are_on<S>(items: &[Placed<S>], layers: u8) -> bool
    ensures { IsTrue result ↔ All (λ p. (1 ≤ p.top) × (p.top ≤ p.bottom) × (p.bottom ≤ layers)) items.now }
{
    items.iter().all(|p| is_on(p, layers))
}

fn pairs_of<S: Meets<S>>(items: &[Placed<S>], frame: Frame) -> Option<AllPairs<'_, S>> {
    if items.len() < 100 && fit(items, frame) {
        Some(AllPairs::new(items, frame))
    } else {
        None
    }
}

// Cells of the items, or none where an item lies outside the frame or the layers.
fn cells_of<'a, S: Meets<S>>(
    alloc: Global,
    items: &'a [Placed<S>],
    frame: Frame,
    layers: u8,
) -> Result<Option<Cells<'a, S>>, NoMemory>
    ensures frame { IfOk result (λ o. IfSome o (λ c. c.frame ≡ frame)) }
    ensures layers { IfOk result (λ o. IfSome o (λ c. c.layers ≡ layers)) }
{
    if items.len() < 100_000 && fit(items, frame) && are_on(items, layers) {
        let cells = Cells::new(alloc, items, frame, layers)?;
        return Ok(Some(cells));
    }
    Ok(None)
}

// Whether these are the neighbours of each piece, and these the least pieces under spots on layers.
fn answers<F: Field, L: Ledger>(
    alloc: Global,
    field: &F,
    near: &[&[u32]],
    under: &[(u8, u8, u8, Option<u32>)],
    blank: Blank,
) -> Result<bool, NoMemory>
    requires name { blank.name ≡ L.name }
    requires parts { blank.parts ≡ L.parts }
    requires some { 0 < blank.parts }
{
    let mut tests = Steps::<L>::new(blank);
    let mut row = Vec::new(alloc);
    for i in 0..field.count() {
        field.neighbours(i, &mut row, &mut tests)?;
        if near.get(i) != Some(&row.as_slice()) {
            return Ok(false);
        }
    }
    for (x, y, layer, least) in under {
        if field.least_at(spot(*x, *y), *layer) != *least {
            return Ok(false);
        }
    }
    Ok(near.len() == field.count())
}

// Three by two copies of a disc.
fn copies() -> [Placed<Capsule>; 6] {
    [
        disc(0, 0, 1, 1),
        disc(0, 2, 1, 1),
        disc(2, 0, 1, 1),
        disc(2, 2, 1, 1),
        disc(4, 0, 1, 1),
        disc(4, 2, 1, 1),
    ]
}

// Discs that touch at one point, a barrel through two layers of four, and copies of a disc.
#[test]
fn both_fields_find_what_touches(rt: HostRuntime) -> Result<(), Fail> {
    let five = [
        disc(0, 0, 1, 1),
        disc(2, 0, 1, 1),
        disc(4, 0, 1, 1),
        disc(2, 2, 1, 1),
        disc(4, 2, 1, 1),
    ];
    let barrel = [
        disc(0, 0, 1, 1),
        disc(0, 0, 2, 2),
        disc(0, 0, 3, 3),
        disc(0, 0, 4, 4),
        disc(0, 0, 2, 3),
    ];
    let copies = copies();
    let table: [(&[Placed<Capsule>], &[&[u32]], &[(u8, u8, u8, Option<u32>)]); 3] = [
        (
            &five,
            &[&[1], &[0, 2, 3], &[1, 4], &[1, 4], &[2, 3]],
            &[
                (3, 0, 1, Some(1)),
                (4, 1, 1, Some(2)),
                (6, 0, 1, None),
                (3, 0, 2, None),
            ],
        ),
        (
            &barrel,
            &[&[], &[4], &[4], &[], &[1, 2]],
            &[(0, 0, 3, Some(2)), (0, 0, 5, None), (0, 0, 0, None)],
        ),
        (
            &copies,
            &[&[1, 2], &[0, 3], &[0, 3, 4], &[1, 2, 5], &[2, 5], &[3, 4]],
            &[(4, 1, 1, Some(4)), (1, 1, 1, None)],
        ),
    ];
    for (items, near, under) in table {
        let pairs = pairs_of(items, FRAME).expect(&rt, "in the frame");
        assert!(rt;
            answers::<AllPairs<Capsule>, Brand>(rt.alloc(), &pairs, near, under, Blank::new(1))?
        );
        let cells = cells_of(rt.alloc(), items, FRAME, 4)?.expect(&rt, "in the frame");
        assert!(rt;
            answers::<Cells<Capsule>, Brand>(rt.alloc(), &cells, near, under, Blank::new(1))?
        );
    }
    Ok(())
}

// The copies stand in the first cell, which ends at 73,125,000, and one more disc reaches over its end.
#[test]
fn a_piece_stands_in_each_cell_that_it_meets(rt: HostRuntime) -> Result<(), Fail> {
    let items = copies();
    let corner = Frame {
        left: -5_000_000,
        low: -5_000_000,
    };
    let cells = cells_of(rt.alloc(), &items, corner, 1)?.expect(&rt, "in the frame");
    let all: &[u32] = &[0, 1, 2, 3, 4, 5];
    let none: &[u32] = &[];
    assert_eq!(rt; cells.cell(1, 0, 0), all);
    assert_eq!(rt; cells.cell(1, 1, 0), none);
    assert_eq!(rt; cells.wide(1), none);
    let two = [disc(0, 0, 1, 1), disc(14, 0, 1, 1)];
    let cells = cells_of(rt.alloc(), &two, corner, 1)?.expect(&rt, "in the frame");
    let both: &[u32] = &[0, 1];
    let last: &[u32] = &[1];
    assert_eq!(rt; cells.cell(1, 0, 0), both);
    assert_eq!(rt; cells.cell(1, 1, 0), last);
    Ok(())
}

// The side of a cell, of which a frame has 128 by 128.
const WHOLE: i64 = SIDE as i64 / 128;

const HALF: i64 = WHOLE / 2;

// A capsule that counts what it is asked.
#[derive(Drop)]
struct Counted<'a> {
    round: Capsule,
    calls: &'a Cell<u32>,
}

impl Counted<'_> {
    fn count(&self) {
        self.calls.set(self.calls.get().wrapping_add(1));
    }
}

impl<'a> Closed for Counted<'a> {
    ghost holds = { λ c p. InCapsule c.round.a c.round.b c.round.r p };

    ghost extent = { λ c. box_of c.round.a c.round.b c.round.r };

    ghost is_lawful = { λ c. IsLawful c.round.a c.round.b c.round.r };

    fn bounds(&self) -> Bounds {
        self.count();
        self.round.bounds()
    }

    fn has(&self, p: Spot, frame: Frame) -> bool {
        self.count();
        self.round.has(p, frame)
    }

    ghost not_empty = { λ c h. not_empty c.round.a c.round.b c.round.r h };

    ghost boxed = { λ c p h k. boxed c.round.a c.round.b c.round.r p h k };
}

impl<'a> Meets<Counted<'a>> for Counted<'a> {
    fn meets<L: Ledger>(&self, other: &Counted<'a>, frame: Frame, tests: &mut Steps<L>) -> bool {
        self.round.meets(&other.round, frame, tests)
    }

    ghost reflexive = { λ s h. shared_by_itself s.round.a s.round.b s.round.r h };

    ghost within_boxes = { λ s t h k m. boxes_share s.round.a s.round.b s.round.r t.round.a t.round.b t.round.r h k m };
}

const CORNER: Frame = Frame { left: 0, low: 0 };

// The middle of a cell of the frame, of the last where there is none.
fn middle(across: u8, up: u8) -> Spot
    ensures { IsPlaced result }
{
    Spot {
        x: across.min(127) as i64 * WHOLE + HALF,
        y: up.min(127) as i64 * WHOLE + HALF,
    }
}

// A small disc in the middle of each cell.
fn middles<'a>(alloc: Global, calls: &'a Cell<u32>) -> Result<Vec<Placed<Counted<'a>>>, NoMemory> {
    let mut items = Vec::new(alloc);
    for k in 0..16_384u32 {
        let at = middle((k % 128) as u8, (k / 128) as u8);
        items.push(Placed {
            shape: Counted {
                round: Capsule::new(at, at, 1_000),
                calls,
            },
            top: 1,
            bottom: 1,
            origin: Origin {
                file: 0,
                command: 1,
                copy: 0,
            },
        })?;
    }
    Ok(items)
}

// Whether each disc stands alone, and is the one under the middle of its cell.
fn alone<F: Field, L: Ledger>(alloc: Global, field: &F, blank: Blank) -> Result<bool, NoMemory>
    requires name { blank.name ≡ L.name }
    requires parts { blank.parts ≡ L.parts }
    requires some { 0 < blank.parts }
{
    let mut tests = Steps::<L>::new(blank);
    let mut row = Vec::new(alloc);
    for i in 0..field.count() {
        field.neighbours(i, &mut row, &mut tests)?;
        let least = field.least_at(middle((i % 128) as u8, (i / 128 % 128) as u8), 1);
        if !row.is_empty() || least != Some(i as u32) {
            return Ok(false);
        }
    }
    Ok(true)
}

// Over one disc a cell, two questions a disc ask for no more than 64 boxes and spots a disc.
#[test]
fn cells_look_locally(rt: HostRuntime) -> Result<(), Fail> {
    let calls = Cell::new(0);
    let items = middles(rt.alloc(), &calls)?;
    let field = cells_of(rt.alloc(), items.as_slice(), CORNER, 1)?.expect(&rt, "in the frame");
    assert!(rt; alone::<Cells<Counted>, Brand>(rt.alloc(), &field, Blank::new(1))?);
    assert!(rt; calls.get() <= 1_048_576);
    Ok(())
}
