//! Edges of a contour that come into a capsule, looked for by their numbers. Edge `i` goes from point `i` to the next.
//!
//! The box of an edge is compared before any product is computed, the box about a run before its edges, and the box about a
//! group before its runs.
ghost use Rattle.area_contact.specs.Bands.{AreEdges, AreRuns, IsAbout, edges_at};
ghost use Rattle.area_contact.specs.Contour.{Reaches, SomeEdge};
ghost use Rattle.contact.specs.Round.{box_of};
ghost use Rattle.contact.specs.Solid.{IsInside};
ghost use Rattle.planar.specs.Framed.{AreFramed};
ghost use Rattle.planar.specs.Plane.{IsInFrame, IsPlaced, Share};
ghost use Rattle.std.proofs.Props.{props};
ghost use Rattle.std.specs.Prelude.{All, IsTrue, drop, length, pos, take, ◌+◌, ◌*◌, ◌<◌, ◌≡◌, ◌≤◌, ◌↔◌};
ghost use lib.IntN.{ℤ_set};

use super::lines::segment_box;
use super::runs::part;
use crate::MOST_CONTOUR_POINTS;
use contact::{Bounds, Capsule};
use planar::{Frame, Spot, segments_meet, segments_within};

/// A contour, and the capsule that its edges may come into, whose box is `around`.
#[derive(Clone, Copy)]
pub struct Search<'a> {
    pub points: &'a [Spot],
    pub capsule: &'a Capsule,
    pub around: Bounds,
    pub frame: Frame,
    ghost placed: { All IsPlaced points.now },
    ghost in_frame: { All (IsInFrame frame) points.now },
    ghost inside: { IsInside (box_of capsule.now.a capsule.now.b capsule.now.r) frame },
    ghost bounds: { around ≡ box_of capsule.now.a capsule.now.b capsule.now.r } by { Prim.hlevel (ℤ_set) },
}

impl<'a> Search<'a> {
    /// Whether the edge from `start` to `end` comes into the capsule.
    fn enters(&self, start: Spot, end: Spot) -> bool
        requires { AreFramed self.now.frame start end }
        ensures { IsTrue result ↔ Share start end (pos 0) self.now.capsule.now.a self.now.capsule.now.b self.now.capsule.now.r }
    {
        let (a, b, r) = self.capsule.parts();
        if r == 0 {
            segments_meet(start, end, a, b)
        } else {
            segments_within(start, end, a, b, r, self.frame)
        }
    }

    /// The same, with the boxes compared first.
    fn reaches(&self, start: Spot, end: Spot) -> bool
        requires { AreFramed self.now.frame start end }
        ensures { IsTrue result ↔ Share start end (pos 0) self.now.capsule.now.a self.now.capsule.now.b self.now.capsule.now.r }
    {
        if segment_box(start, end).meet(&self.around) {
            self.enters(start, end)
        } else {
            false
        }
    }

    /// Whether one of the edges with these numbers comes into the capsule.
    pub fn among(&self, numbers: &[u32]) -> bool
        requires { AreEdges self.now.points.now numbers.now }
        ensures { IsTrue result ↔ SomeEdge (Reaches self.now.capsule.now.a self.now.capsule.now.b self.now.capsule.now.r) (edges_at self.now.points.now numbers.now) }
    {
        for number in numbers {
            let i = *number as usize;
            if self.reaches(self.points[i], self.points[i + 1]) {
                return true;
            }
        }
        false
    }

    /// The same of run `k` of the edges with these numbers, about which the box is.
    fn in_run(&self, numbers: &[u32], k: usize, about: &Bounds) -> bool
        requires edges { AreEdges self.now.points.now numbers.now }
        requires few { length numbers.now ≤ MOST_CONTOUR_POINTS }
        requires known { k ≤ MOST_CONTOUR_POINTS }
        requires about { IsAbout self.now.points.now about.now (take 16 (drop (16 * k) numbers.now)) }
        ensures { IsTrue result ↔ SomeEdge (Reaches self.now.capsule.now.a self.now.capsule.now.b self.now.capsule.now.r) (edges_at self.now.points.now (take 16 (drop (16 * k) numbers.now))) }
    {
        if about.meet(&self.around) {
            self.among(part(numbers, 16, k))
        } else {
            false
        }
    }

    /// The same run by run, where the boxes are about the runs.
    fn in_runs(&self, numbers: &[u32], boxes: &[Bounds]) -> bool
        requires edges { AreEdges self.now.points.now numbers.now }
        requires few { length numbers.now ≤ MOST_CONTOUR_POINTS }
        requires runs { AreRuns 16 self.now.points.now numbers.now boxes.now }
        ensures { IsTrue result ↔ SomeEdge (Reaches self.now.capsule.now.a self.now.capsule.now.b self.now.capsule.now.r) (edges_at self.now.points.now numbers.now) }
    {
        for k in 0..boxes.len() {
            if self.in_run(numbers, k, &boxes[k]) {
                return true;
            }
        }
        false
    }

    /// The same of a group of runs, about which the box is.
    fn in_group(&self, numbers: &[u32], boxes: &[Bounds], about: &Bounds) -> bool
        requires edges { AreEdges self.now.points.now numbers.now }
        requires few { length numbers.now ≤ MOST_CONTOUR_POINTS }
        requires runs { AreRuns 16 self.now.points.now numbers.now boxes.now }
        requires about { IsAbout self.now.points.now about.now numbers.now }
        ensures { IsTrue result ↔ SomeEdge (Reaches self.now.capsule.now.a self.now.capsule.now.b self.now.capsule.now.r) (edges_at self.now.points.now numbers.now) }
    {
        if about.meet(&self.around) {
            self.in_runs(numbers, boxes)
        } else {
            false
        }
    }

    /// The same group by group, where boxes are about the runs and about the groups.
    pub fn in_groups(&self, numbers: &[u32], boxes: &[Bounds], groups: &[Bounds]) -> bool
        requires edges { AreEdges self.now.points.now numbers.now }
        requires few { length numbers.now ≤ MOST_CONTOUR_POINTS }
        requires runs { AreRuns 16 self.now.points.now numbers.now boxes.now }
        requires groups { AreRuns 1_024 self.now.points.now numbers.now groups.now }
        ensures { IsTrue result ↔ SomeEdge (Reaches self.now.capsule.now.a self.now.capsule.now.b self.now.capsule.now.r) (edges_at self.now.points.now numbers.now) }
    {
        for k in 0..groups.len() {
            let (edges, runs) = (part(numbers, 1_024, k), part(boxes, 64, k));
            if self.in_group(edges, runs, &groups[k]) {
                return true;
            }
        }
        false
    }
}
