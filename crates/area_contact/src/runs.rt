//! All edges of a contour in runs of 16 that stand near one another, and boxes about each run and each group of 64 runs, so
//! that a search passes by what is far away.
//!
//! They stand by their middles along a curve that fills the contour's box. In what order, no clause says: a search finds
//! the same in any.
ghost use Rattle.area_contact.specs.Bands.{AreAllEdges, AreEdges, AreRuns, IsAbout, all_numbers};
ghost use Rattle.planar.specs.Plane.{IsPlaced};
ghost use Rattle.std.specs.List.Sorted.{IsPermutation};
ghost use Rattle.std.specs.Prelude.{All, IfOk, drop, length, take, ◌*◌, ◌≤◌, ◌<◌, ◌≡◌};

use super::lines::segment_box;
use crate::MOST_CONTOUR_POINTS;
use contact::{Bounds, NO_BOX};
use planar::Spot;
use std::alloc::{AllocError, Global};

/// The numbers of all edges, a box about each run of them, and one about each group of runs.
#[derive(Drop)]
pub struct Runs {
    pub numbers: Vec<u32>,
    pub boxes: Vec<Bounds>,
    pub groups: Vec<Bounds>,
}

/// The runs of the contour through the points, whose box is `extent`.
pub fn make_runs(alloc: Global, points: &[Spot], extent: Bounds) -> Result<Runs, AllocError>
    requires some { 1 ≤ length points.now }
    requires few { length points.now ≤ MOST_CONTOUR_POINTS }
    requires placed { All IsPlaced points.now }
    ensures edges { IfOk result (λ r. AreEdges points.now r.numbers.items) }
    ensures each { IfOk result (λ r. AreAllEdges points.now r.numbers.items) }
    ensures few { IfOk result (λ r. length r.numbers.items ≤ MOST_CONTOUR_POINTS) }
    ensures runs { IfOk result (λ r. AreRuns 16 points.now r.numbers.items r.boxes.items) }
    ensures groups { IfOk result (λ r. AreRuns 1_024 points.now r.numbers.items r.groups.items) }
{
    let mut numbers = numbers_of(alloc, points)?;
    put_near(&mut numbers, points, extent);
    let edges = numbers.len();
    let boxes = run_boxes(alloc, points, &numbers, 16, (edges + 15) / 16)?;
    let groups = run_boxes(alloc, points, &numbers, 1_024, (edges + 1_023) / 1_024)?;
    Ok(Runs {
        numbers,
        boxes,
        groups,
    })
}

/// The numbers of all edges, rising.
fn numbers_of(alloc: Global, points: &[Spot]) -> Result<Vec<u32>, AllocError>
    requires some { 1 ≤ length points.now }
    requires few { length points.now ≤ MOST_CONTOUR_POINTS }
    ensures { IfOk result (λ v. v.items ≡ all_numbers points.now) }
{
    let mut numbers = Vec::new(alloc);
    for i in 0..points.len() - 1 {
        numbers.push(i as u32)?;
    }
    Ok(numbers)
}

/// Puts edges that stand near one another side by side.
fn put_near(numbers: &mut Vec<u32>, points: &[Spot], extent: Bounds)
    ensures { IsPermutation numbers.old.items numbers.new.items }
{
    numbers.sort_unstable_by_key(|number| place_on_curve(points, extent, *number as usize));
}

/// How far along the curve the middle of the edge stands.
fn place_on_curve(points: &[Spot], extent: Bounds, number: usize) -> u64 {
    let (Some(start), Some(end)) = (points.get(number), points.get(number.wrapping_add(1))) else {
        return 0;
    };
    let across = part_of(start.x, end.x, extent.left, extent.right);
    let up = part_of(start.y, end.y, extent.low, extent.high);
    spread(across) | spread(up) << 1
}

/// Which of the 2^16 parts of the side from `low` to `high` has the middle of `a` and `b`.
fn part_of(a: i64, b: i64, low: i64, high: i64) -> u64 {
    let twice = a.abs_diff(low).wrapping_add(b.abs_diff(low));
    let part = (high.abs_diff(low) >> 15).wrapping_add(1);
    (twice / part).min(65_535)
}

/// The bits of a number below 2^16, each with a 0 before it.
fn spread(bits: u64) -> u64 {
    let bits = (bits | bits << 8) & 0x00FF_00FF;
    let bits = (bits | bits << 4) & 0x0F0F_0F0F;
    let bits = (bits | bits << 2) & 0x3333_3333;
    (bits | bits << 1) & 0x5555_5555
}

/// A box about each of `count` runs of `size` of the edges with these numbers.
fn run_boxes(
    alloc: Global,
    points: &[Spot],
    numbers: &[u32],
    size: usize,
    count: usize,
) -> Result<Vec<Bounds>, AllocError>
    requires placed { All IsPlaced points.now }
    requires edges { AreEdges points.now numbers.now }
    requires few { length numbers.now ≤ MOST_CONTOUR_POINTS }
    requires small { size ≤ 1_024 }
    requires all { length numbers.now ≤ size * count }
    requires few_boxes { count ≤ MOST_CONTOUR_POINTS }
    ensures { IfOk result (λ v. AreRuns size points.now numbers.now v.items) }
{
    let mut boxes = Vec::new(alloc);
    for k in 0..count {
        boxes.push(run_box(points, part(numbers, size, k)))?;
    }
    Ok(boxes)
}

/// Part `k` of the items, in parts of `size`.
pub fn part<T>(items: &[T], size: usize, k: usize) -> &[T]
    requires few { length items.now ≤ MOST_CONTOUR_POINTS }
    requires known { k ≤ MOST_CONTOUR_POINTS }
    requires small { size ≤ 1_024 }
    ensures { result.now ≡ take size (drop (size * k) items.now) }
{
    let from = (size * k).min(items.len());
    let to = (from + size).min(items.len());
    &items[from..to]
}

/// A box about the edges with these numbers.
fn run_box(points: &[Spot], numbers: &[u32]) -> Bounds
    requires placed { All IsPlaced points.now }
    requires edges { AreEdges points.now numbers.now }
    ensures { IsAbout points.now result numbers.now }
{
    let mut all = NO_BOX;
    for number in numbers {
        let i = *number as usize;
        all = all.joined_with(&segment_box(points[i], points[i + 1]));
    }
    all
}
