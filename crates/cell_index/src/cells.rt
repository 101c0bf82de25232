//! A field that looks only at the pieces whose copies, stretched over the frame, stand in the same cells or are wide.
ghost use Rattle.cell_index.specs.Among.{TouchAmong, UnderAmong};
ghost use Rattle.cell_index.specs.Bins.{bin_of};
ghost use Rattle.cell_index.specs.Cells.{cell_of, wide_of};
ghost use Rattle.cell_index.specs.Field.{boxes_meet};
ghost use Rattle.cell_index.specs.Rows.{row_of};
ghost use Rattle.cell_index.specs.Stretched.{copy_in, spot_over};
ghost use Rattle.cell_index.specs.declared.bins.Bins.{Bins};
ghost use Rattle.contact.specs.Solid.{InBox, IsInside};
ghost use Rattle.planar.specs.Plane.{at as point_at};
ghost use Rattle.planar.specs.declared.Spot.{Spot};
ghost use Rattle.std.specs.Prelude.{◌≡◌, ℕ, ◌+◌, ◌*◌, ◌<◌, ◌≤◌, ◌^◌, true, Some, slice_get, All, IfOk, length};

use crate::bins::Bins;
use crate::filing::{Plan, WIDE};
use crate::finer::Finer;
use crate::patch::CELLS;
use board_shapes::Placed;
use contact::{Closed, Meets};
use lengths::rows::NoMemory;
use planar::{Frame, Spot};
use std::alloc::Global;

/// Placed solids. Their numbers are their places in the list. Searches look at the finer cells of a copy of their boxes. Those
/// of `new` are filed once more, layer by layer, under the cells of the frame in which they stand.
#[derive(Drop)]
pub struct Cells<'a, S: Meets<S>> {
    pub items: &'a [Placed<S>],
    pub frame: Frame,
    pub layers: u8,
    sheets: Vec<Bins>,
    pub(crate) finer: Finer,
    ghost few: { length items.now < 2 ^ 32 },
    ghost inside: { All (λ p. IsInside (S.extent p.shape) frame) items.now },
    ghost met: { (p q : ℕ) → TouchAmong S.holds items.now p q → boxes_meet (copy_in finer.copies.items p) (copy_in finer.copies.items q) ≡ true },
    ghost held: { (spot : Spot) (layer p : ℕ) → UnderAmong S.holds items.now spot layer p → InBox (copy_in finer.copies.items p) (point_at (spot_over finer.stretch spot)) },
    ghost copied: { length finer.copies.items ≡ length items.now },
    ghost many: { length sheets.items ≡ layers },
    ghost long: { All (λ b. length b.starts.items ≡ 16386) sheets.items },
    ghost filed: { (k row : ℕ) (b : Bins) → slice_get sheets.items k ≡ Some b → row < 16385 → bin_of b.starts.items b.entries.items row ≡ row_of S.extent frame items.now (k + 1) row },
}

impl<'a, S: Meets<S>> Cells<'a, S> {
    /// A field of the items, of which there are fewer than 2^32, with their bounds inside the frame and their spans within
    /// the layers. Only tests call it, `cell` and `wide`; programs call `for_search`.
    pub fn new(
        alloc: Global,
        items: &'a [Placed<S>],
        frame: Frame,
        layers: u8,
    ) -> Result<Cells<'a, S>, NoMemory>
        requires few { length items.now < 2 ^ 32 }
        requires inside { All (λ p. IsInside (S.extent p.shape) frame) items.now }
        requires spans { All (λ p. (1 ≤ p.top) × (p.top ≤ p.bottom) × (p.bottom ≤ layers)) items.now }
        ensures items { IfOk result (λ c. c.items.now ≡ items.now) }
        ensures frame { IfOk result (λ c. c.frame ≡ frame) }
        ensures layers { IfOk result (λ c. c.layers ≡ layers) }
    {
        let sheets = Plan { items, frame }.sheets(alloc, layers)?;
        let search = Cells::for_search(alloc, items, frame)?;
        Ok(Cells {
            items: search.items,
            frame: search.frame,
            layers,
            sheets,
            finer: search.finer,
        })
    }

    /// A field of the items, of which there are fewer than 2^32, with their bounds inside the frame. It answers searches alone, and
    /// lends the cells of no layer: filing these takes longer than filing the copies.
    pub fn for_search(
        alloc: Global,
        items: &'a [Placed<S>],
        frame: Frame,
    ) -> Result<Cells<'a, S>, NoMemory>
        requires few { length items.now < 2 ^ 32 }
        requires inside { All (λ p. IsInside (S.extent p.shape) frame) items.now }
        ensures items { IfOk result (λ c. c.items.now ≡ items.now) }
        ensures frame { IfOk result (λ c. c.frame ≡ frame) }
        ensures layers { IfOk result (λ c. c.layers ≡ 0) }
    {
        let sheets = Vec::new(alloc);
        let finer = Finer::new(alloc, items)?;
        Ok(Cells {
            items,
            frame,
            layers: 0,
            sheets,
            finer,
        })
    }

    /// The pieces that stand in the cell on the layer, rising. The layers count from 1, the cells from 0 to 127 across
    /// and up. No memory.
    pub fn cell(&self, layer: u8, across: u8, up: u8) -> &[u32]
        requires layer { (1 ≤ layer) × (layer ≤ self.now.layers) }
        requires across { across < 128 }
        requires up { up < 128 }
        ensures { result.now ≡ cell_of S.extent self.now.frame self.now.items.now layer across up }
    {
        self.row(layer, up as u32 * CELLS + across as u32)
    }

    /// The wide pieces of the layer, rising. No memory.
    pub fn wide(&self, layer: u8) -> &[u32]
        requires layer { (1 ≤ layer) × (layer ≤ self.now.layers) }
        ensures { result.now ≡ wide_of S.extent self.now.frame self.now.items.now layer }
    {
        self.row(layer, WIDE)
    }

    // A row of the layer.
    fn row(&self, layer: u8, row: u32) -> &[u32]
        requires layer { (1 ≤ layer) × (layer ≤ self.now.layers) }
        requires row { row < 16385 }
        ensures { result.now ≡ row_of S.extent self.now.frame self.now.items.now layer row }
    {
        let sheet = &self.sheets[layer as usize - 1];
        sheet.row(row as usize)
    }
}
