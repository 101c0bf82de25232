//! The pieces of a layer, filed under its cells.
ghost use Rattle.cell_index.specs.Bins.{pieces_in};
ghost use Rattle.cell_index.specs.Rows.{Files, IsSheet, in_patch, in_row, in_run, row_of};
ghost use Rattle.cell_index.specs.declared.bins.Bins.{Bins};
ghost use Rattle.contact.specs.Solid.{IsInside};
ghost use Rattle.std.specs.Prelude.{◌≡◌, ℕ, ◌+◌, ◌<◌, ◌≤◌, ◌^◌, All, IfOk, OnOk, Some, length, slice_get};

use crate::bins::{Bins, Filing};
use crate::patch::{CELLS, Patch};
use board_shapes::Placed;
use contact::Closed;
use lengths::rows::NoMemory;
use planar::Frame;
use std::alloc::Global;

/// How many rows a layer has: its cells and its wide list.
pub const ROWS: u32 = 16_385;

/// The row of the wide list.
pub const WIDE: u32 = 16_384;

/// Placed solids that are to be filed under the cells of the frame.
#[derive(Drop)]
pub struct Plan<'a, S: Closed> {
    pub items: &'a [Placed<S>],
    pub frame: Frame,
    ghost few: { length items.now < 2 ^ 32 },
    ghost inside: { All (λ p. IsInside (S.extent p.shape) frame) items.now },
    ghost spans: { All (λ p. p.top ≤ p.bottom) items.now },
}

impl<'a, S: Closed> Plan<'a, S> {
    /// The rows of each layer.
    pub fn sheets(&self, alloc: Global, layers: u8) -> Result<Vec<Bins>, NoMemory>
        ensures many { IfOk result (λ v. length v.items ≡ layers) }
        ensures each { IfOk result (λ v. (k : ℕ) (b : Bins) → slice_get v.items k ≡ Some b → IsSheet S.extent self.now.frame self.now.items.now (k + 1) b) }
    {
        let mut sheets = Vec::new(alloc);
        for layer in 0..layers {
            let next = self.sheet(alloc, layer + 1)?;
            sheets.push(next)?;
        }
        Ok(sheets)
    }

    /// The rows of a layer, whose pieces are filed one after the other.
    pub fn sheet(&self, alloc: Global, layer: u8) -> Result<Bins, NoMemory>
        ensures { IfOk result (IsSheet S.extent self.now.frame self.now.items.now layer) }
    {
        match self.filings(alloc, layer) {
            Ok(filings) => Bins::new(alloc, ROWS as usize, filings.as_slice()),
            Err(_) => Err(NoMemory),
        }
    }

    // The pieces of a layer, each filed under its rows.
    fn filings(&self, alloc: Global, layer: u8) -> Result<Vec<Filing>, NoMemory>
        ensures rows { IfOk result (λ v. All (λ f. f.row < 16385) v.items) }
        ensures each { IfOk result (λ v. (row : ℕ) → row < 16385 → pieces_in row v.items ≡ row_of S.extent self.now.frame self.now.items.now layer row) }
    {
        let items = self.items;
        let mut filings = Vec::with_capacity(alloc, items.len())?;
        for p in 0..items.len() {
            let item = &items[p];
            if item.top <= layer && layer <= item.bottom {
                file(item, p as u32, self.frame, &mut filings)?;
            }
        }
        Ok(filings)
    }
}

// Files the piece under its cells, or as a wide one.
fn file<S: Closed>(
    item: &Placed<S>,
    piece: u32,
    frame: Frame,
    into: &mut Vec<Filing>,
) -> Result<(), NoMemory>
    requires inside { IsInside (S.extent item.now.shape) frame }
    requires span { item.now.top ≤ item.now.bottom }
    requires rows { All (λ f. f.row < 16385) into.old.items }
    ensures rows { OnOk result (All (λ f. f.row < 16385) into.new.items) }
    ensures files { OnOk result (Files (in_row frame (S.extent item.now.shape) item.now.top item.now.bottom) piece into.old.items into.new.items) }
{
    let patch = Patch::of(item.shape.bounds(), frame);
    if patch.is_over(item.top, item.bottom) {
        into.push(Filing { row: WIDE, piece })?;
        return Ok(());
    }
    file_patch(&patch, piece, into)
}

// Files the piece under the cells of the patch.
fn file_patch(patch: &Patch, piece: u32, into: &mut Vec<Filing>) -> Result<(), NoMemory>
    requires across { (patch.now.left ≤ patch.now.right) × (patch.now.right < 128) }
    requires up { (patch.now.low ≤ patch.now.high) × (patch.now.high < 128) }
    requires rows { All (λ f. f.row < 16385) into.old.items }
    ensures rows { OnOk result (All (λ f. f.row < 16385) into.new.items) }
    ensures files { OnOk result (Files (in_patch patch.now.left patch.now.right patch.now.low (patch.now.high + 1)) piece into.old.items into.new.items) }
{
    for up in patch.low..patch.high + 1 {
        let row = up * CELLS;
        file_run(row + patch.left, row + patch.right + 1, piece, into)?;
    }
    Ok(())
}

// Files the piece under the rows from the one up to the other.
fn file_run(from: u32, to: u32, piece: u32, into: &mut Vec<Filing>) -> Result<(), NoMemory>
    requires order { from ≤ to }
    requires cells { to ≤ 16384 }
    requires rows { All (λ f. f.row < 16385) into.old.items }
    ensures rows { OnOk result (All (λ f. f.row < 16385) into.new.items) }
    ensures files { OnOk result (Files (in_run from to) piece into.old.items into.new.items) }
{
    for row in from..to {
        into.push(Filing { row, piece })?;
    }
    Ok(())
}
