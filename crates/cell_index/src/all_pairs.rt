//! A field that looks at every piece.
ghost use Rattle.cell_index.specs.Among.{TouchAmong, UnderAmong, bottom_in, extent_in, top_in, turned};
ghost use Rattle.contact.specs.Solid.{IsInside};
ghost use Rattle.planar.specs.declared.Spot.{Spot};
ghost use Rattle.std.specs.Prelude.{◌≡◌, ◌<◌, ◌^◌, All, length};

use crate::field::Field;
use crate::pieces::{is_under, keep_near};
use board_shapes::Placed;
use contact::{Closed, Meets};
use lengths::rows::NoMemory;
use planar::{Frame, Spot};
use std::sync::ledger::Ledger;
use steps::Steps;

/// Placed solids, each of which is looked at for each answer. Their numbers are their places in the list.
#[derive(Drop)]
pub struct AllPairs<'a, S: Meets<S>> {
    pub items: &'a [Placed<S>],
    pub frame: Frame,
    ghost few: { length items.now < 2 ^ 32 },
    ghost inside: { All (λ p. IsInside (S.extent p.shape) frame) items.now },
}

impl<'a, S: Meets<S>> AllPairs<'a, S> {
    /// A field of the items, of which there are fewer than 2^32, with their bounds inside the frame. No memory.
    pub fn new(items: &'a [Placed<S>], frame: Frame) -> AllPairs<'a, S>
        requires few { length items.now < 2 ^ 32 }
        requires inside { All (λ p. IsInside (S.extent p.shape) frame) items.now }
        ensures items { result.items.now ≡ items.now }
        ensures frame { result.frame ≡ frame }
    {
        AllPairs { items, frame }
    }
}

impl<'a, S: Meets<S>> Field for AllPairs<'a, S> {
    ghost size = { λ f. length f.items.now };

    ghost extent = { λ f. extent_in S.extent f.items.now };

    ghost top = { λ f. top_in f.items.now };

    ghost bottom = { λ f. bottom_in f.items.now };

    ghost touch = { λ f. TouchAmong S.holds f.items.now };

    ghost beneath = { λ f. UnderAmong S.holds f.items.now };

    ghost is_lawful = { λ f. (length f.items.now < 2 ^ 32) × All (λ p. IsInside (S.extent p.shape) f.frame) f.items.now };

    ghost symmetric = { λ f p q lawful t. turned S.holds f.items.now p q t };

    fn count(&self) -> usize {
        self.items.len()
    }

    fn neighbours<L: Ledger>(
        &self,
        i: usize,
        into: &mut Vec<u32>,
        tests: &mut Steps<L>,
    ) -> Result<(), NoMemory> {
        into.clear();
        for q in 0..self.items.len() {
            if let Err(_) = into.push(q as u32) {
                into.clear();
                return Err(NoMemory);
            }
        }
        keep_near(self.items, self.frame, i, into, tests);
        Ok(())
    }

    fn least_at(&self, at: Spot, layer: u8) -> Option<u32> {
        for p in 0..self.items.len() {
            if is_under(self.items, self.frame, p, at, layer) {
                return Some(p as u32);
            }
        }
        None
    }
}
