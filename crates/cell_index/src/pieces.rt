//! What is asked of two pieces, of a list of them, and of a piece and a spot, whatever the field.
ghost use Rattle.cell_index.specs.Among.{TouchAmong, UnderAmong, bottom_in, extent_in, top_in};
ghost use Rattle.cell_index.specs.Field.{IsNear, is_rival, rivals_of};
ghost use Rattle.contact.specs.Solid.{IsInside};
ghost use Rattle.planar.specs.Plane.{IsPlaced};
ghost use Rattle.std.specs.List.Sorted.{IsStrictlyIncreasing};
ghost use Rattle.std.specs.Prelude.{◌+◌, ◌<◌, ◌≤◌, ◌↔◌, if◌then◌else◌, IsTrue, All, Contains, length};
ghost use Rattle.tables.specs.Lists.{Lists};

use board_shapes::Placed;
use contact::{Closed, Meets};
use planar::{Frame, Spot};
use std::sync::ledger::Ledger;
use steps::Steps;

/// Whether q is another piece than p, and touches it.
pub fn is_near<S: Meets<S>, L: Ledger>(
    items: &[Placed<S>],
    frame: Frame,
    p: usize,
    q: usize,
    tests: &mut Steps<L>,
) -> bool
    requires inside { All (λ p. IsInside (S.extent p.shape) frame) items.now }
    requires first { p < length items.now }
    requires second { q < length items.now }
    ensures near { IsTrue result ↔ IsNear (length items.now) (TouchAmong S.holds items.now) p q }
    ensures ticks { tests.new ≤ tests.old + (if is_rival (extent_in S.extent items.now) (top_in items.now) (bottom_in items.now) p q then 1 else 0) }
{
    if q == p {
        return false;
    }
    items[p].touches(&items[q], frame, tests)
}

/// Keeps, of the pieces in the rising list, those other than i that touch it. One tick of `tests` is one contact test.
pub fn keep_near<S: Meets<S>, L: Ledger>(
    items: &[Placed<S>],
    frame: Frame,
    i: usize,
    into: &mut Vec<u32>,
    tests: &mut Steps<L>,
)
    requires inside { All (λ p. IsInside (S.extent p.shape) frame) items.now }
    requires piece { i < length items.now }
    requires known { All (λ q. q < length items.now) into.old.items }
    requires rising { IsStrictlyIncreasing into.old.items }
    ensures near { Lists (λ q. IsNear (length items.now) (TouchAmong S.holds items.now) i q × Contains into.old.items q) into.new.items }
    ensures ticks { tests.new ≤ tests.old + rivals_of (length items.now) (extent_in S.extent items.now) (top_in items.now) (bottom_in items.now) i }
{
    let mut kept = 0;
    for k in 0..into.len() {
        let q = into[k];
        if is_near(items, frame, i, q as usize, tests) {
            into[kept] = q;
            kept += 1;
        }
    }
    into.truncate(kept);
}

/// Whether piece p is under the spot on the layer.
pub fn is_under<S: Closed>(
    items: &[Placed<S>],
    frame: Frame,
    p: usize,
    spot: Spot,
    layer: u8,
) -> bool
    requires inside { All (λ p. IsInside (S.extent p.shape) frame) items.now }
    requires piece { p < length items.now }
    requires placed { IsPlaced spot }
    ensures { IsTrue result ↔ UnderAmong S.holds items.now spot layer p }
{
    items[p].under(spot, layer, frame)
}
