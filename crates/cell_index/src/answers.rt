//! What a field of cells answers.
ghost use Rattle.cell_index.specs.Among.{TouchAmong, UnderAmong, bottom_in, extent_in, top_in, turned};
ghost use Rattle.cell_index.specs.Field.{IsNear, is_rival};
ghost use Rattle.cell_index.specs.Finding.{IsLesser};
ghost use Rattle.cell_index.specs.Stretched.{spot_over};
ghost use Rattle.contact.specs.Solid.{IsInside};
ghost use Rattle.planar.specs.Plane.{IsPlaced};
ghost use Rattle.planar.specs.declared.Spot.{Spot};
ghost use Rattle.std.specs.List.Sorted.{IsStrictlyIncreasing};
ghost use Rattle.std.specs.Prelude.{◌≡◌, ℕ, ◌+◌, ◌<◌, ◌≤◌, ◌^◌, ◌↔◌, if◌then◌else◌, IsTrue, [], All, Contains, IfSome, OnErr, OnOk, length};
ghost use Rattle.tables.specs.Lists.{IsLeast};

use crate::cells::Cells;
use crate::field::Field;
use crate::pieces::{is_near, is_under, keep_near};
use crate::wanted::{Every, Wanted};
use board_shapes::Placed;
use contact::{Closed, Meets};
use lengths::rows::NoMemory;
use planar::Spot;
use std::sync::ledger::Ledger;
use steps::Steps;

impl<'a, S: Meets<S>> Cells<'a, S> {
    /// Puts into `into`, rising, pieces among which are all that touch piece i, of those that are wanted. No contact test is
    /// made. After a refusal `into` is empty.
    pub fn candidates<W: Wanted>(
        &self,
        i: usize,
        wanted: &W,
        into: &mut Vec<u32>,
    ) -> Result<(), NoMemory>
        requires piece { i < length self.now.items.now }
        ensures known { OnOk result (All (λ q. q < length self.now.items.now) into.new.items) }
        ensures rising { OnOk result (IsStrictlyIncreasing into.new.items) }
        ensures near { OnOk result ((q : ℕ) → W.wanted wanted.now q → IsNear (length self.now.items.now) (TouchAmong S.holds self.now.items.now) i q → Contains into.new.items q) }
        ensures refused { OnErr result (into.new.items ≡ []) }
    {
        if let Err(_) = self.finer.met(i, wanted, into) {
            into.clear();
            return Err(NoMemory);
        }
        Ok(())
    }

    /// Whether q is another piece than p, and touches it. One tick of `tests` is one contact test: there is at most one, and
    /// none where the boxes do not meet or the spans have no common layer.
    pub fn touches<L: Ledger>(&self, p: usize, q: usize, tests: &mut Steps<L>) -> bool
        requires first { p < length self.now.items.now }
        requires second { q < length self.now.items.now }
        ensures near { IsTrue result ↔ IsNear (length self.now.items.now) (TouchAmong S.holds self.now.items.now) p q }
        ensures ticks { tests.new ≤ tests.old + (if is_rival (extent_in S.extent self.now.items.now) (top_in self.now.items.now) (bottom_in self.now.items.now) p q then 1 else 0) }
    {
        is_near(self.items, self.frame, p, q, tests)
    }

    // Whether piece p is under the spot, which is stretched to this place. Its copy is looked at first.
    fn is_held(&self, p: usize, at: Spot, place: Spot, layer: u8) -> bool
        requires piece { p < length self.now.items.now }
        requires placed { IsPlaced at }
        requires place { place ≡ spot_over self.now.finer.stretch at }
        ensures { IsTrue result ↔ UnderAmong S.holds self.now.items.now at layer p }
    {
        if !self.finer.copies[p].shape.bounds.holds(place) {
            return false;
        }
        is_under(self.items, self.frame, p, at, layer)
    }

    // The first of a rising list that is under the spot.
    fn first_under(&self, list: &[u32], at: Spot, place: Spot, layer: u8) -> Option<u32>
        requires list { All (λ q. q < length self.now.items.now) list.now }
        requires rising { IsStrictlyIncreasing list.now }
        requires placed { IsPlaced at }
        requires place { place ≡ spot_over self.now.finer.stretch at }
        ensures least { IsLeast (λ q. UnderAmong S.holds self.now.items.now at layer q × Contains list.now q) result }
        ensures piece { IfSome result (λ q. q < length self.now.items.now) }
    {
        for k in 0..list.len() {
            let q = list[k];
            if self.is_held(q as usize, at, place, layer) {
                return Some(q);
            }
        }
        None
    }
}

// The lesser of two numbers that may be missing.
fn lesser(a: Option<u32>, b: Option<u32>) -> Option<u32>
    ensures { IsLesser a b result }
{
    match a {
        None => b,
        Some(x) => match b {
            None => a,
            Some(y) => Some(x.min(y)),
        },
    }
}

impl<'a, S: Meets<S>> Field for Cells<'a, S> {
    ghost size = { λ f. length f.items.now };

    ghost extent = { λ f. extent_in S.extent f.items.now };

    ghost top = { λ f. top_in f.items.now };

    ghost bottom = { λ f. bottom_in f.items.now };

    ghost touch = { λ f. TouchAmong S.holds f.items.now };

    ghost beneath = { λ f. UnderAmong S.holds f.items.now };

    ghost is_lawful = { λ f. (length f.items.now < 2 ^ 32) × All (λ p. IsInside (S.extent p.shape) f.frame) f.items.now };

    ghost symmetric = { λ f p q lawful t. turned S.holds f.items.now p q t };

    fn count(&self) -> usize {
        self.items.len()
    }

    fn neighbours<L: Ledger>(
        &self,
        i: usize,
        into: &mut Vec<u32>,
        tests: &mut Steps<L>,
    ) -> Result<(), NoMemory> {
        self.wanted_neighbours(i, &Every, into, tests)?;
        Ok(())
    }

    fn wanted_neighbours<W: Wanted, L: Ledger>(
        &self,
        i: usize,
        wanted: &W,
        into: &mut Vec<u32>,
        tests: &mut Steps<L>,
    ) -> Result<(), NoMemory> {
        self.candidates(i, wanted, into)?;
        keep_near(self.items, self.frame, i, into, tests);
        Ok(())
    }

    fn least_at(&self, at: Spot, layer: u8) -> Option<u32> {
        let place = self.finer.stretch.spot(at);
        let in_cell = self.first_under(self.finer.around(place), at, place, layer);
        let in_wide = self.first_under(self.finer.wide(), at, place, layer);
        lesser(in_cell, in_wide)
    }
}
