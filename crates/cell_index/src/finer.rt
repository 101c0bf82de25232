//! The boxes of the pieces once more, stretched over a whole frame and filed under its cells.
ghost use Rattle.cell_index.specs.Bins.{bin_of};
ghost use Rattle.cell_index.specs.Cells.{cell_of, wide_of};
ghost use Rattle.cell_index.specs.Field.{boxes_meet};
ghost use Rattle.cell_index.specs.Finding.{Begins, Finds, Grows, IsMet};
ghost use Rattle.cell_index.specs.Rows.{row_of};
ghost use Rattle.cell_index.specs.Stretched.{AreCopies, box_over, copy_in, corner};
ghost use Rattle.contact.specs.Solid.{InBox, IsBetween, IsInside};
ghost use Rattle.planar.specs.Plane.{at as point_at};
ghost use Rattle.planar.specs.declared.TheConstants.{SIDE};
ghost use Rattle.std.specs.List.Sorted.{IsStrictlyIncreasing};
ghost use Rattle.std.specs.Prelude.{◌≡◌, ◌⊎◌, ℕ, ◌+◌, ◌*◌, ◌<◌, ◌≤◌, ◌≤ℤ◌, ◌^◌, ◌↔◌, IsTrue, pos, true, All, Contains, IfOk, OnOk, length};

use crate::bins::Bins;
use crate::filing::{Plan, WIDE};
use crate::patch::{CELL, CELLS, Patch};
use crate::plate::Plate;
use crate::stretch::Stretch;
use crate::wanted::Wanted;
use board_shapes::Placed;
use contact::{Bounds, Closed, NO_BOX};
use lengths::rows::NoMemory;
use planar::{Frame, Spot};
use std::alloc::Global;

/// The frame over which the copies are stretched.
const CORNER: Frame = Frame { left: 0, low: 0 };

/// A copy of the box of each piece, stretched, all on one layer; and the rows of that layer. Where solids share a point,
/// their copies meet.
#[derive(Drop)]
pub struct Finer {
    pub stretch: Stretch,
    pub copies: Vec<Placed<Plate>>,
    rows: Bins,
    ghost few: { length copies.items < 2 ^ 32 },
    ghost flat: { All (λ c. (c.top ≡ 1) × (c.bottom ≡ 1)) copies.items },
    ghost inside: { All (λ c. IsInside c.shape.bounds corner) copies.items },
    ghost long: { length rows.starts.items ≡ 16386 },
    ghost filed: { (row : ℕ) → row < 16385 → bin_of rows.starts.items rows.entries.items row ≡ row_of (λ s. s.bounds) corner copies.items 1 row },
}

impl Finer {
    /// The copies of these items.
    pub fn new<S: Closed>(alloc: Global, items: &[Placed<S>]) -> Result<Finer, NoMemory>
        requires few { length items.now < 2 ^ 32 }
        ensures copies { IfOk result (λ f. AreCopies S.extent f.stretch items.now (length items.now) f.copies.items) }
        ensures lawful { IfOk result (λ f. All (λ p. S.is_lawful p.shape) items.now) }
    {
        let stretch = Stretch::over(common_box(items));
        let copies = copies_of(alloc, items, stretch)?;
        let plan = Plan {
            items: copies.as_slice(),
            frame: CORNER,
        };
        let rows = plan.sheet(alloc, 1)?;
        Ok(Finer {
            stretch,
            copies,
            rows,
        })
    }

    /// Puts into `into`, rising, pieces among which are all whose copies meet the copy of piece i, of those that are wanted.
    /// No clause says what `into` holds after a refusal: `Cells::candidates` empties it then (`refused`).
    pub fn met<W: Wanted>(&self, i: usize, wanted: &W, into: &mut Vec<u32>) -> Result<(), NoMemory>
        requires piece { i < length self.now.copies.items }
        ensures known { OnOk result (All (λ q. q < length self.now.copies.items) into.new.items) }
        ensures rising { OnOk result (IsStrictlyIncreasing into.new.items) }
        ensures met { OnOk result ((q : ℕ) → q < length self.now.copies.items → W.wanted wanted.now q → boxes_meet (copy_in self.now.copies.items i) (copy_in self.now.copies.items q) ≡ true → Contains into.new.items q) }
    {
        into.clear();
        let bounds = self.copies[i].shape.bounds();
        let patch = Patch::of(bounds, CORNER);
        self.gather(
            self.wide(),
            wanted,
            bounds,
            &patch,
            patch.left,
            patch.low,
            into,
        )?;
        self.in_patch(wanted, bounds, &patch, into)?;
        put_in_order(into);
        Ok(())
    }

    // Those that begin in the cells of the patch, or before them.
    fn in_patch<W: Wanted>(
        &self,
        wanted: &W,
        bounds: Bounds,
        patch: &Patch,
        into: &mut Vec<u32>,
    ) -> Result<(), NoMemory>
        requires across { (patch.now.left ≤ patch.now.right) × (patch.now.right < 128) }
        requires up { (patch.now.low ≤ patch.now.high) × (patch.now.high < 128) }
        requires known { All (λ q. q < length self.now.copies.items) into.old.items }
        ensures grows { OnOk result (Grows (length self.now.copies.items) into.old.items into.new.items) }
        ensures cells { OnOk result ((across up : ℕ) → patch.now.left ≤ across → across ≤ patch.now.right → patch.now.low ≤ up → up ≤ patch.now.high → Finds (W.wanted wanted.now) self.now.copies.items bounds patch.now across up (cell_of (λ s. s.bounds) corner self.now.copies.items 1 across up) into.new.items) }
    {
        for up in patch.low..patch.high + 1 {
            self.in_line(wanted, up, bounds, patch, into)?;
        }
        Ok(())
    }

    // The same in one line of cells.
    fn in_line<W: Wanted>(
        &self,
        wanted: &W,
        up: u32,
        bounds: Bounds,
        patch: &Patch,
        into: &mut Vec<u32>,
    ) -> Result<(), NoMemory>
        requires across { (patch.now.left ≤ patch.now.right) × (patch.now.right < 128) }
        requires up { up < 128 }
        requires known { All (λ q. q < length self.now.copies.items) into.old.items }
        ensures grows { OnOk result (Grows (length self.now.copies.items) into.old.items into.new.items) }
        ensures cells { OnOk result ((across : ℕ) → patch.now.left ≤ across → across ≤ patch.now.right → Finds (W.wanted wanted.now) self.now.copies.items bounds patch.now across up (cell_of (λ s. s.bounds) corner self.now.copies.items 1 across up) into.new.items) }
    {
        for across in patch.left..patch.right + 1 {
            self.gather(
                self.cell(across, up),
                wanted,
                bounds,
                patch,
                across,
                up,
                into,
            )?;
        }
        Ok(())
    }

    // Puts those of the list into `into` that are wanted and are met in this cell.
    fn gather<W: Wanted>(
        &self,
        list: &[u32],
        wanted: &W,
        bounds: Bounds,
        patch: &Patch,
        across: u32,
        up: u32,
        into: &mut Vec<u32>,
    ) -> Result<(), NoMemory>
        requires across { across < 128 }
        requires up { up < 128 }
        requires list { All (λ q. q < length self.now.copies.items) list.now }
        requires known { All (λ q. q < length self.now.copies.items) into.old.items }
        ensures grows { OnOk result (Grows (length self.now.copies.items) into.old.items into.new.items) }
        ensures finds { OnOk result (Finds (W.wanted wanted.now) self.now.copies.items bounds patch.now across up list.now into.new.items) }
    {
        for k in 0..list.len() {
            let q = list[k];
            if !wanted.wants(q) {
                continue;
            }
            let copy = &self.copies[q as usize].shape.bounds;
            if is_met(copy, bounds, patch, across, up) {
                into.push(q)?;
            }
        }
        Ok(())
    }

    /// The wide ones among the copies, rising. No memory.
    pub fn wide(&self) -> &[u32]
        ensures wide { result.now ≡ wide_of (λ s. s.bounds) corner self.now.copies.items 1 }
        ensures known { All (λ q. q < length self.now.copies.items) result.now }
        ensures rising { IsStrictlyIncreasing result.now }
    {
        self.row(WIDE)
    }

    /// The copies in the cell in which the place stands, rising. No memory.
    pub fn around(&self, place: Spot) -> &[u32]
        requires across { IsBetween (pos 0) SIDE place.x }
        requires up { IsBetween (pos 0) SIDE place.y }
        ensures known { All (λ q. q < length self.now.copies.items) result.now }
        ensures rising { IsStrictlyIncreasing result.now }
        ensures held { (q : ℕ) → q < length self.now.copies.items → InBox (copy_in self.now.copies.items q) (point_at place) → Contains result.now q ⊎ Contains (wide_of (λ s. s.bounds) corner self.now.copies.items 1) q }
    {
        self.cell(cell_at(place.x as u64), cell_at(place.y as u64))
    }

    // The copies in a cell.
    fn cell(&self, across: u32, up: u32) -> &[u32]
        requires across { across < 128 }
        requires up { up < 128 }
        ensures cell { result.now ≡ cell_of (λ s. s.bounds) corner self.now.copies.items 1 across up }
        ensures known { All (λ q. q < length self.now.copies.items) result.now }
        ensures rising { IsStrictlyIncreasing result.now }
    {
        self.row(up * CELLS + across)
    }

    // A row of the layer.
    fn row(&self, row: u32) -> &[u32]
        requires row { row < 16385 }
        ensures { result.now ≡ row_of (λ s. s.bounds) corner self.now.copies.items 1 row }
    {
        self.rows.row(row as usize)
    }
}

// A box about all pieces. It decides how fine the cells are, and nothing else.
fn common_box<S: Closed>(items: &[Placed<S>]) -> Bounds {
    let mut all = NO_BOX;
    for item in items {
        all = all.joined_with(&item.shape.bounds());
    }
    all
}

// The copies, piece by piece.
fn copies_of<S: Closed>(
    alloc: Global,
    items: &[Placed<S>],
    stretch: Stretch,
) -> Result<Vec<Placed<Plate>>, NoMemory>
    ensures copies { IfOk result (λ v. AreCopies S.extent stretch items.now (length items.now) v.items) }
    ensures lawful { IfOk result (λ v. All (λ p. S.is_lawful p.shape) items.now) }
{
    let mut copies = Vec::with_capacity(alloc, items.len())?;
    for p in 0..items.len() {
        let copy = copy_of(&items[p], stretch);
        copies.push(copy)?;
    }
    Ok(copies)
}

// The copy of a piece.
fn copy_of<S: Closed>(item: &Placed<S>, stretch: Stretch) -> Placed<Plate>
    ensures lawful { S.is_lawful item.now.shape }
    ensures bounds { result.shape.bounds ≡ box_over stretch (S.extent item.now.shape) }
    ensures flat { (result.top ≡ 1) × (result.bottom ≡ 1) }
{
    let bounds = item.shape.bounds();
    Placed {
        shape: Plate {
            bounds: stretch.bounds(bounds),
        },
        top: 1,
        bottom: 1,
        origin: item.origin,
    }
}

// Whether the copy meets the box, and this is the first cell that both meet, so that a pair is met once. The clause says only that
// none is lost. In crowded cells most do not meet.
fn is_met(copy: &Bounds, bounds: Bounds, patch: &Patch, across: u32, up: u32) -> bool
    requires across { across < 128 }
    requires up { up < 128 }
    ensures { IsMet copy.now bounds patch.now across up → IsTrue result }
{
    if !bounds.meet(copy) {
        return false;
    }
    if !begins_across(copy, patch.left, across) {
        return false;
    }
    begins_up(copy, patch.low, up)
}

// Whether cell k is the first that the copy or the patch meets across.
fn begins_across(copy: &Bounds, first: u32, k: u32) -> bool
    requires cell { k < 128 }
    ensures { Begins first k copy.now.left → IsTrue result }
{
    k == first || k as i64 * (CELL as i64) < copy.left
}

// The same upwards.
fn begins_up(copy: &Bounds, first: u32, k: u32) -> bool
    requires cell { k < 128 }
    ensures { Begins first k copy.now.low → IsTrue result }
{
    k == first || k as i64 * (CELL as i64) < copy.low
}

// Puts the numbers in rising order, each once.
fn put_in_order(into: &mut Vec<u32>)
    ensures rising { IsStrictlyIncreasing into.new.items }
    ensures same { (q : ℕ) → Contains into.new.items q ↔ Contains into.old.items q }
{
    if into.len() < 2 {
        return;
    }
    into.sort_unstable();
    into.dedup();
}

// The cell of a side in which a place stands that is so far from its beginning.
fn cell_at(along: u64) -> u32
    requires inside { pos along ≤ℤ SIDE }
    ensures begun { CELL * result ≤ along }
    ensures reached { along ≤ CELL * (result + 1) }
    ensures cell { result < 128 }
{
    (along / CELL).min(127) as u32
}
