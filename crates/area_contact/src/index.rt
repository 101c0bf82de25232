//! What a contour of 64 edges or more is searched by. The others have no index, so that an area of few edges is small.
ghost use Rattle.area_contact.specs.Contour.{area_box};
ghost use Rattle.area_contact.specs.Indexes.{IsIndexed};
ghost use Rattle.planar.specs.Plane.{IsPlaced};
ghost use Rattle.std.specs.Prelude.{All, IfErr, IfOk, IfSome, MatchOption, length, ◌≡◌, ◌<◌, ◌≤◌};

use super::bands::{Ladder, Table, make_ladder, make_table, tall_ones};
use super::runs::{Runs, make_runs};
use crate::MOST_CONTOUR_POINTS;
use contact::Bounds;
use planar::Spot;
use std::alloc::{AllocError, Global};

/// The bands of a contour, the edges in them and the tall ones, and all edges in runs.
#[derive(Drop)]
pub struct Index {
    pub ladder: Ladder,
    pub table: Table,
    pub tall: Vec<u32>,
    pub runs: Runs,
}

/// The index of the contour through the points, whose box is `extent`; none where there are fewer than 64 edges.
pub fn make_index(
    alloc: Global,
    points: &[Spot],
    extent: Bounds,
) -> Result<Option<Box<Index>>, AllocError>
    requires some { 1 ≤ length points.now }
    requires few { length points.now ≤ MOST_CONTOUR_POINTS }
    requires placed { All IsPlaced points.now }
    requires extent { extent ≡ area_box points.now }
    ensures indexed { IfOk result (λ index. MatchOption index (length points.now ≤ 64) (λ b. IsIndexed points.now b.value)) }
    ensures many { IfOk result (λ index. IfSome index (λ _. 64 < length points.now)) }
    ensures fault { IfErr result (λ _. 64 < length points.now) }
{
    if points.len() <= 64 {
        return Ok(None);
    }
    let index = full_index(alloc, points, extent)?;
    Ok(Some(Box::new(alloc, index)?))
}

// The same of any contour.
fn full_index(alloc: Global, points: &[Spot], extent: Bounds) -> Result<Index, AllocError>
    requires some { 1 ≤ length points.now }
    requires few { length points.now ≤ MOST_CONTOUR_POINTS }
    requires placed { All IsPlaced points.now }
    requires extent { extent ≡ area_box points.now }
    ensures { IfOk result (IsIndexed points.now) }
{
    let ladder = make_ladder(points, &extent);
    let tall = tall_ones(alloc, points, ladder)?;
    let table = make_table(alloc, points, ladder)?;
    let runs = make_runs(alloc, points, extent)?;
    Ok(Index {
        ladder,
        table,
        tall,
        runs,
    })
}
