//! What is asked of boxes, and the box of two.
ghost use Rattle.contact.specs.Solid.{InBox, IsBetween, IsInside, LiesIn, Overlap, SharePoint, joined};
ghost use Rattle.planar.specs.Plane.{at};
ghost use Rattle.std.specs.Prelude.{IsTrue, ◌≡◌, ◌↔◌};

use super::Bounds;
use planar::{Frame, SIDE, Spot};

impl Bounds {
    /// Whether the closed boxes share a point. A box whose left side is right of its right side, or
    /// whose low side is above its high side, holds no point.
    pub fn meet(&self, other: &Bounds) -> bool
        ensures { IsTrue result ↔ SharePoint (InBox self.now) (InBox other.now) }
    {
        self.meet_across(other) && self.meet_up(other)
    }

    fn meet_across(&self, other: &Bounds) -> bool
        ensures { IsTrue result ↔ Overlap self.now.left self.now.right other.now.left other.now.right }
    {
        self.left.max(other.left) <= self.right.min(other.right)
    }

    fn meet_up(&self, other: &Bounds) -> bool
        ensures { IsTrue result ↔ Overlap self.now.low self.now.high other.now.low other.now.high }
    {
        self.low.max(other.low) <= self.high.min(other.high)
    }

    /// The least box with both boxes in it.
    pub fn joined_with(&self, other: &Bounds) -> Bounds
        ensures { result ≡ joined self.now other.now }
    {
        Bounds {
            left: self.left.min(other.left),
            low: self.low.min(other.low),
            right: self.right.max(other.right),
            high: self.high.max(other.high),
        }
    }

    /// Whether the box lies in the frame, wherever the frame's corner is.
    pub fn inside(&self, frame: Frame) -> bool
        ensures { IsTrue result ↔ IsInside self.now frame }
    {
        self.inside_across(frame) && self.inside_up(frame)
    }

    fn inside_across(&self, frame: Frame) -> bool
        ensures { IsTrue result ↔ LiesIn frame.left self.now.left self.now.right }
    {
        frame.left <= self.left && self.right as i128 <= frame.left as i128 + SIDE as i128
    }

    fn inside_up(&self, frame: Frame) -> bool
        ensures { IsTrue result ↔ LiesIn frame.low self.now.low self.now.high }
    {
        frame.low <= self.low && self.high as i128 <= frame.low as i128 + SIDE as i128
    }

    /// Whether the spot lies in the closed box.
    pub fn holds(&self, p: Spot) -> bool
        ensures { IsTrue result ↔ InBox self.now (at p) }
    {
        self.holds_across(p) && self.holds_up(p)
    }

    fn holds_across(&self, p: Spot) -> bool
        ensures { IsTrue result ↔ IsBetween self.now.left self.now.right p.x }
    {
        self.left <= p.x && p.x <= self.right
    }

    fn holds_up(&self, p: Spot) -> bool
        ensures { IsTrue result ↔ IsBetween self.now.low self.now.high p.y }
    {
        self.low <= p.y && p.y <= self.high
    }
}
