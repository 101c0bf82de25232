// A field without geometry: a list of pairs, searched against a plain slow search. And the same graphs in copper.
ghost use Rattle.contact.specs.Solid.{IsInside};
ghost use Rattle.contact.specs.declared.Bounds.{Bounds};
ghost use Rattle.search_tests.specs.declared.nets.TheConstants.{FRAME};
ghost use Rattle.planar.specs.Plane.{IsPlaced, IsWithin};
ghost use Rattle.planar.specs.declared.Spot.{Spot};
ghost use Rattle.std.proofs.Common.{inl, inr};
ghost use Rattle.std.specs.List.{list_any};
ghost use Rattle.std.specs.Prelude.{◌≡◌, ◌⊎◌, ◌==◌, ◌&&◌, ◌↔◌, ℕ, ◌<◌, ◌≤◌, All, IsTrue, pos};

use board_shapes::{Origin, Placed, Probe};
use cell_index::{Cells, Field};
use contact::{Capsule, Closed, Meets};
use flood::{flood, homes};
use lengths::rows::NoMemory;
use planar::{Frame, Spot};
use std::alloc::Global;
use std::marker::Brand;
use std::sync::ledger::{Blank, Ledger};
use std::test::Fail;
use steps::Steps;
use verdict::{Trees, Twig};

// So many pieces, of which the listed pairs touch. On layer k the pieces from k on are under every place.
#[derive(Clone, Copy)]
struct Pairs<'a> {
    count: u32,
    pairs: &'a [(u32, u32)],
}

impl Pairs<'_> {
    fn linked(&self, p: u32, q: u32) -> bool
        ensures { IsTrue result ↔ (IsTrue (list_any (λ e. e.0 == p && e.1 == q) self.now.pairs.now) ⊎ IsTrue (list_any (λ e. e.0 == q && e.1 == p) self.now.pairs.now)) }
    {
        if self.pairs.contains(&(p, q)) {
            return true;
        }
        self.pairs.contains(&(q, p))
    }
}

impl Field for Pairs<'_> {
    ghost size = { λ f. f.count };

    ghost extent = { λ f p. record { left = pos 0; low = pos 0; right = pos 0; high = pos 0 } };

    ghost top = { λ f p. 1 };

    ghost bottom = { λ f p. 1 };

    ghost touch = { λ f p q. IsTrue (list_any (λ e. e.0 == p && e.1 == q) f.pairs.now) ⊎ IsTrue (list_any (λ e. e.0 == q && e.1 == p) f.pairs.now) };

    ghost beneath = { λ f at layer p. (layer ≤ p) × (p < f.count) };

    ghost is_lawful = { λ f. Unit {0} };

    ghost symmetric = { λ f p q lawful t. elim t [ inl a ↦ inr a | inr a ↦ inl a ] };

    fn count(&self) -> usize {
        self.count as usize
    }

    fn neighbours<L: Ledger>(
        &self,
        i: usize,
        into: &mut Vec<u32>,
        _tests: &mut Steps<L>,
    ) -> Result<(), NoMemory> {
        into.clear();
        for q in 0..self.count {
            if q as usize == i {
                continue;
            }
            if self.linked(i as u32, q) {
                if let Err(_) = into.push(q) {
                    into.clear();
                    return Err(NoMemory);
                }
            }
        }
        Ok(())
    }

    fn least_at(&self, _at: Spot, layer: u8) -> Option<u32> {
        if (layer as u32) < self.count {
            Some(layer as u32)
        } else {
            None
        }
    }
}

fn search<F: Field, L: Ledger>(alloc: Global, field: &F, blank: Blank) -> Result<Trees, NoMemory>
    requires name { blank.name ≡ L.name }
    requires parts { blank.parts ≡ L.parts }
    requires some { 0 < blank.parts }
{
    let mut tests = Steps::<L>::new(blank);
    flood(alloc, field, &mut tests)
}

// The twigs of all nets, one after the other.
fn twigs(alloc: Global, trees: &Trees) -> Result<Vec<(u32, Option<u32>)>, NoMemory> {
    let mut all = Vec::new(alloc);
    add_twigs(&mut all, trees, 0)?;
    Ok(all)
}

fn lower(least: &mut [u32], p: u32, to: u32) {
    if let Some(slot) = least.get_mut(p as usize) {
        *slot = to;
    }
}

fn at(least: &[u32], p: u32) -> u32 {
    match least.get(p as usize) {
        Some(found) => *found,
        None => u32::MAX,
    }
}

// The least piece that a chain joins to each: the pairs are gone through as often as there are pieces.
fn least_joined(alloc: Global, count: u32, pairs: &[(u32, u32)]) -> Result<Vec<u32>, NoMemory> {
    let mut least = Vec::new(alloc);
    for p in 0..count {
        least.push(p)?;
    }
    let slots = least.as_mut_slice();
    for _ in 0..count {
        for (a, b) in pairs {
            let to = at(slots, *a).min(at(slots, *b));
            lower(slots, *a, to);
            lower(slots, *b, to);
        }
    }
    Ok(least)
}

// Whether the net has the pieces that are joined to its first, and each twig hangs on one of them.
fn is_joined(net: &[Twig], least: &[u32], field: &Pairs) -> bool {
    let Some(first) = net.first() else {
        return false;
    };
    for twig in net {
        let hangs = match twig.parent {
            Some(parent) => field.linked(parent, twig.piece),
            None => twig.piece == first.piece,
        };
        if !hangs || at(least, twig.piece) != first.piece {
            return false;
        }
    }
    true
}

// The pairs of five pieces, in order, that the bits of the number name.
fn made(alloc: Global, number: u32) -> Result<Vec<(u32, u32)>, NoMemory> {
    let mut pairs = Vec::new(alloc);
    let mut bits = number;
    for q in 0..5u32 {
        for p in 0..q {
            if bits % 2 == 1 {
                pairs.push((p, q))?;
            }
            bits /= 2;
        }
    }
    Ok(pairs)
}

// Whether the nets are those of the graph.
fn are_nets(alloc: Global, trees: &Trees, graph: &Pairs) -> Result<bool, NoMemory> {
    let least = least_joined(alloc, graph.count, graph.pairs)?;
    for net in trees.as_slice() {
        if !is_joined(net.as_slice(), least.as_slice(), graph) {
            return Ok(false);
        }
    }
    Ok(twigs(alloc, trees)?.len() == graph.count as usize)
}

// All graphs of five pieces.
#[test]
fn nets_are_what_chains_join(rt: HostRuntime) -> Result<(), Fail> {
    for number in 0..1024 {
        let pairs = made(rt.alloc(), number)?;
        let field = Pairs {
            count: 5,
            pairs: pairs.as_slice(),
        };
        let trees = search::<Pairs, Brand>(rt.alloc(), &field, Blank::new(1))?;
        assert!(rt; are_nets(rt.alloc(), &trees, &field)?, "at {number}");
    }
    Ok(())
}

// A corner of a pentagon of 2 mm about 0.
fn point(k: u32) -> Spot
    ensures { IsWithin 10000000 result.x × IsWithin 10000000 result.y }
{
    match k {
        0 => Spot {
            x: 0,
            y: 10_000_000,
        },
        1 => Spot {
            x: 9_510_565,
            y: 3_090_170,
        },
        2 => Spot {
            x: 5_877_853,
            y: -8_090_170,
        },
        3 => Spot {
            x: -5_877_853,
            y: -8_090_170,
        },
        _ => Spot {
            x: -9_510_565,
            y: 3_090_170,
        },
    }
}

// The same of one of 32 by 32 pentagons that stand side by side.
fn corner(number: u32, k: u32) -> Spot
    ensures { IsPlaced result }
{
    let at = point(k);
    Spot {
        x: at.x + (number % 32) as i64 * 30_000_000,
        y: at.y + (number / 32 % 32) as i64 * 30_000_000,
    }
}

// A barrel of five layers at each corner, and a track for each pair. Tracks of one layer are parallel, so each touches its
// two barrels alone.
fn add_pentagon(
    items: &mut Vec<Placed<Capsule>>,
    number: u32,
    pairs: &[(u32, u32)],
) -> Result<(), NoMemory> {
    for k in 0..5 {
        let barrel = Capsule::new(corner(number, k), corner(number, k), 2_000_000);
        items.push(placed(barrel, 1, 5))?;
    }
    for (p, q) in pairs {
        let layer = ((*p % 5 + *q % 5) % 5) as u8 + 1;
        let track = Capsule::new(corner(number, *p), corner(number, *q), 500_000);
        items.push(placed(track, layer, layer))?;
    }
    Ok(())
}

// A pentagon for each graph of five pieces.
fn pentagons(alloc: Global) -> Result<Vec<Placed<Capsule>>, NoMemory> {
    let mut items = Vec::new(alloc);
    for number in 0..1024 {
        let pairs = made(alloc, number)?;
        add_pentagon(&mut items, number, pairs.as_slice())?;
    }
    Ok(items)
}

fn placed(shape: Capsule, top: u8, bottom: u8) -> Placed<Capsule>
    requires { (1 ≤ top) × (top ≤ bottom) }
{
    Placed {
        shape,
        top,
        bottom,
        origin: Origin {
            file: 0,
            command: 1,
            copy: 0,
        },
    }
}

// The pairs of a barrel and a track that ends there.
fn ends(alloc: Global, pairs: &[(u32, u32)]) -> Result<Vec<(u32, u32)>, NoMemory> {
    let mut all = Vec::new(alloc);
    let mut track = 5u32;
    for (p, q) in pairs {
        all.push((*p, track))?;
        all.push((*q, track))?;
        track = track.wrapping_add(1);
    }
    Ok(all)
}

const FRAME: Frame = Frame {
    left: -100_000_000,
    low: -100_000_000,
};

fn is_on<S>(item: &Placed<S>, layers: u8) -> bool
    ensures { IsTrue result ↔ ((1 ≤ item.now.top) × (item.now.top ≤ item.now.bottom) × (item.now.bottom ≤ layers)) }
{
    if item.top == 0 || item.bottom < item.top {
        return false;
    }
    item.bottom <= layers
}

fn are_on<S>(items: &[Placed<S>], layers: u8) -> bool
    ensures { IsTrue result ↔ All (λ p. (1 ≤ p.top) × (p.top ≤ p.bottom) × (p.bottom ≤ layers)) items.now }
{
    items.iter().all(|p| is_on(p, layers))
}

fn fit<S: Meets<S>>(items: &[Placed<S>]) -> bool
    ensures { IsTrue result ↔ All (λ p. IsInside (S.extent p.shape) FRAME) items.now }
{
    items.iter().all(|p| p.shape.bounds().inside(FRAME))
}

fn cells_of<'a, S: Meets<S>>(
    alloc: Global,
    items: &'a [Placed<S>],
) -> Result<Option<Cells<'a, S>>, NoMemory> {
    if items.len() < 100_000 && fit(items) && are_on(items, 5) {
        let cells = Cells::new(alloc, items, FRAME, 5)?;
        return Ok(Some(cells));
    }
    Ok(None)
}

// Adds the twigs of all nets, with so much more for the number of each piece.
fn add_twigs(into: &mut Vec<(u32, Option<u32>)>, trees: &Trees, more: u32) -> Result<(), NoMemory> {
    for net in trees.as_slice() {
        for twig in net.as_slice() {
            let parent = match twig.parent {
                Some(parent) => Some(parent.wrapping_add(more)),
                None => None,
            };
            into.push((twig.piece.wrapping_add(more), parent))?;
        }
    }
    Ok(())
}

// All graphs of five barrels that are joined by tracks, side by side on one board of cells: its nets are theirs in turn.
#[test]
fn nets_over_cells(rt: HostRuntime) -> Result<(), Fail> {
    let items = pentagons(rt.alloc())?;
    let cells = cells_of(rt.alloc(), items.as_slice())?.expect(&rt, "in the frame");
    let trees = search::<Cells<Capsule>, Brand>(rt.alloc(), &cells, Blank::new(1))?;
    let mut want = Vec::new(rt.alloc());
    let mut before = 0u32;
    for number in 0..1024 {
        let pairs = made(rt.alloc(), number)?;
        let joins = ends(rt.alloc(), pairs.as_slice())?;
        let graph = Pairs {
            count: pairs.len().min(10) as u32 + 5,
            pairs: joins.as_slice(),
        };
        let nets = search::<Pairs, Brand>(rt.alloc(), &graph, Blank::new(1))?;
        assert!(rt; are_nets(rt.alloc(), &nets, &graph)?, "at {number}");
        add_twigs(&mut want, &nets, before)?;
        before = before.wrapping_add(graph.count);
    }
    assert_eq!(rt; before, 10_240);
    assert!(rt; twigs(rt.alloc(), &trees)?.as_slice() == want.as_slice());
    Ok(())
}

static GRAPHS: [(u32, &'static [(u32, u32)], &'static [(u32, Option<u32>)]); 7] = [
    (0, &[], &[]),
    (1, &[], &[(0, None)]),
    (3, &[], &[(0, None), (1, None), (2, None)]),
    (
        4,
        &[(2, 3), (1, 2), (0, 1)],
        &[(0, None), (1, Some(0)), (2, Some(1)), (3, Some(2))],
    ),
    (
        4,
        &[(2, 0), (2, 1), (2, 3)],
        &[(0, None), (2, Some(0)), (1, Some(2)), (3, Some(2))],
    ),
    (
        4,
        &[(0, 1), (1, 2), (2, 3), (3, 0)],
        &[(0, None), (1, Some(0)), (3, Some(0)), (2, Some(1))],
    ),
    (
        5,
        &[(0, 1), (1, 2), (1, 3), (2, 4), (3, 4)],
        &[
            (0, None),
            (1, Some(0)),
            (2, Some(1)),
            (3, Some(1)),
            (4, Some(2)),
        ],
    ),
];

// Nets by rising least piece, each breadth first, neighbours rising.
#[test]
fn the_order_of_nets(rt: HostRuntime) -> Result<(), Fail> {
    for row in &GRAPHS {
        let (count, pairs, want) = *row;
        let trees = search::<Pairs, Brand>(rt.alloc(), &Pairs { count, pairs }, Blank::new(1))?;
        assert!(rt; twigs(rt.alloc(), &trees)?.as_slice() == want);
    }
    Ok(())
}

fn probe(layer: u8) -> Probe
    ensures { IsPlaced result.at }
{
    Probe {
        number: 1,
        at: Spot { x: 0, y: 0 },
        layer,
        name: 0,
    }
}

#[test]
fn homes_are_least_pieces(rt: HostRuntime) -> Result<(), Fail> {
    let field = Pairs {
        count: 3,
        pairs: &[],
    };
    let rows = homes(rt.alloc(), &field, &[probe(0), probe(3), probe(2)])?;
    assert!(rt; rows.as_slice() == [Some(0), None, Some(2)].as_slice());
    Ok(())
}
