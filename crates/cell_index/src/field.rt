//! What a search of nets asks of pieces, with no word of shapes.
ghost use Rattle.cell_index.specs.Field.{IsNear, ListsWanted, rivals_of};
ghost use Rattle.contact.specs.declared.Bounds.{Bounds};
ghost use Rattle.planar.specs.Plane.{IsPlaced};
ghost use Rattle.planar.specs.declared.Spot.{Spot};
ghost use Rattle.std.specs.Prelude.{◌≡◌, ℕ, ◌+◌, ◌<◌, ◌≤◌, ◌^◌, [], OnErr, OnOk, IfSome};
ghost use Rattle.tables.specs.Lists.{Lists, IsLeast};

use crate::wanted::Wanted;
use lengths::rows::NoMemory;
use planar::Spot;
use std::sync::ledger::Ledger;
use steps::Steps;

/// Pieces by their numbers, from 0.
pub trait Field {
    /// How many pieces there are.
    ghost size: { Self → ℕ };

    /// The box of each piece.
    ghost extent: { Self → ℕ → Bounds };

    /// The first layer of each piece.
    ghost top: { Self → ℕ → ℕ };

    /// The last layer of each piece.
    ghost bottom: { Self → ℕ → ℕ };

    /// The two pieces touch.
    ghost touch: { Self → ℕ → ℕ → Type 0 };

    /// The last is a piece under the spot on the layer.
    ghost beneath: { Self → Spot → ℕ → ℕ → Type 0 };

    /// The field keeps the invariant of its type.
    ghost is_lawful: { Self → Type 0 };

    /// How many pieces there are, which is below 2^32. The field is lawful.
    fn count(&self) -> usize
        ensures value { result ≡ size self.now }
        ensures few { size self.now < 2 ^ 32 }
        ensures lawful { is_lawful self.now };

    /// Puts into `into` the numbers of the other pieces that touch piece i, once each, rising. After a refusal `into` is
    /// empty, and nothing was tested. One tick of `tests` is one contact test: there is at most one for each other piece
    /// whose box meets that of i and whose span has a common layer with that of i.
    fn neighbours<L: Ledger>(
        &self,
        i: usize,
        into: &mut Vec<u32>,
        tests: &mut Steps<L>,
    ) -> Result<(), NoMemory>
        requires { i < size self.now }
        ensures near { OnOk result (Lists (IsNear (size self.now) (touch self.now) i) into.new.items) }
        ensures ticks { tests.new ≤ tests.old + rivals_of (size self.now) (extent self.now) (top self.now) (bottom self.now) i }
        ensures refused { OnErr result ((into.new.items ≡ []) × (tests.new ≡ tests.old)) };

    /// Puts into `into`, rising, other pieces that touch piece i, among which are all that are wanted. After a refusal `into`
    /// is empty, and nothing was tested. It makes no more contact tests than `neighbours` may.
    fn wanted_neighbours<W: Wanted, L: Ledger>(
        &self,
        i: usize,
        _wanted: &W,
        into: &mut Vec<u32>,
        tests: &mut Steps<L>,
    ) -> Result<(), NoMemory>
        requires { i < size self.now }
        ensures near { OnOk result (ListsWanted (IsNear (size self.now) (touch self.now) i) (W.wanted _wanted.now) into.new.items) }
        ensures ticks { tests.new ≤ tests.old + rivals_of (size self.now) (extent self.now) (top self.now) (bottom self.now) i }
        ensures refused { OnErr result ((into.new.items ≡ []) × (tests.new ≡ tests.old)) }
    {
        self.neighbours(i, into, tests)
    }

    /// The least piece under a spot on a layer, or none where there is none. The spot lies within 1 m. No memory.
    fn least_at(&self, at: Spot, layer: u8) -> Option<u32>
        requires { IsPlaced at }
        ensures least { IsLeast (beneath self.now at layer) result }
        ensures piece { IfSome result (λ p. p < size self.now) };

    /// A lawful field's touching is symmetric.
    ghost symmetric: { (field : Self) (p q : ℕ) → is_lawful field → touch field p q → touch field q p };
}
