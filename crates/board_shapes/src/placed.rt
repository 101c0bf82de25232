//! A solid on a span of layers.
ghost use Rattle.board_shapes.specs.Spans.{CommonLayer, InSpan};
ghost use Rattle.contact.specs.Solid.{InBox, IsInside, SharePoint};
ghost use Rattle.planar.specs.Plane.{IsPlaced, at as point_at};
ghost use Rattle.std.specs.Prelude.{IsTrue, ◌+◌, ◌≡◌, ◌≤◌, ◌↔◌};

use crate::shape::Shape;
use contact::{Closed, Meets};
use planar::{Frame, Spot};
use std::sync::ledger::Ledger;
use steps::Steps;

/// What made a piece: a command of a file, and which copy of a block it is.
#[derive(Clone, Copy, Debug, PartialEq, Eq)]
pub struct Origin {
    /// The number of the file, from 0 through the copper files and then the drill files.
    pub file: u32,
    /// The command or line that made the piece, from 1; for a contour the one that closed it.
    pub command: u32,
    /// Which copy of a block it is, from 0; 0 outside blocks.
    pub copy: u32,
}

/// A solid with its span of layers, from its top layer to its bottom one: 1 <= top <= bottom.
#[derive(Drop)]
pub struct Placed<S> {
    pub shape: S,
    pub top: u8,
    pub bottom: u8,
    pub origin: Origin,
    ghost span: { (1 ≤ top) × (top ≤ bottom) },
}

/// A piece of copper or a plated barrel.
pub type Piece = Placed<Shape>;

/// How many pieces, and edges of filled contours, may still come.
#[derive(Clone, Copy)]
pub struct Room {
    pub pieces: u32,
    pub edges: u32,
}

impl<S: Closed> Placed<S> {
    /// Whether the piece is under a place on a layer: the layer is in its span, and the place in
    /// its solid. The place is within 1 m, and the solid's box inside the frame.
    pub fn under(&self, at: Spot, layer: u8, frame: Frame) -> bool
        requires inside { IsInside (S.extent self.now.shape) frame }
        requires placed { IsPlaced at }
        ensures under { IsTrue result ↔ (InSpan self.now.top self.now.bottom layer × S.holds self.now.shape (point_at at)) }
    {
        if layer < self.top || self.bottom < layer {
            return false;
        }
        self.shape.has(at, frame)
    }
}

impl<S: Meets<S>> Placed<S> {
    /// Whether the spans have a common layer and the solids share a point, by at most one contact test. The boxes of both
    /// are inside the frame. It is inlined into the loops over pairs, of which many have no common layer.
    #[inline(always)]
    pub fn touches<L: Ledger>(&self, other: &Placed<S>, frame: Frame, tests: &mut Steps<L>) -> bool
        requires self_inside { IsInside (S.extent self.now.shape) frame }
        requires other_inside { IsInside (S.extent other.now.shape) frame }
        ensures touch { IsTrue result ↔ (CommonLayer self.now.top self.now.bottom other.now.top other.now.bottom × SharePoint (S.holds self.now.shape) (S.holds other.now.shape)) }
        ensures one_test { tests.new ≤ tests.old + 1 }
        ensures none_apart { ¬ (CommonLayer self.now.top self.now.bottom other.now.top other.now.bottom) → tests.new ≡ tests.old }
        ensures none_away { ¬ (SharePoint (InBox (S.extent self.now.shape)) (InBox (S.extent other.now.shape))) → tests.new ≡ tests.old }
    {
        if self.top.max(other.top) > self.bottom.min(other.bottom) {
            return false;
        }
        if !self.shape.bounds().meet(&other.shape.bounds()) {
            return false;
        }
        self.shape.meets(&other.shape, frame, tests)
    }
}
