//! Solids that are told by their points, and whether two of them share one.
//!
//! All coordinates and radii are in u, a tenth of a nanometre. A solid is any type that says which
//! rational points lie in it; the traits carry the laws that the crates above rest on, whatever the
//! solid. No call takes memory or refuses.
//!
//! - `extents`: whether boxes share a point, lie in a frame, hold a spot; the box of two.
//! - `round`: the segment with a radius as a solid.
//! - `laws`: laws over the definitions alone.
#![tactic(auto)]

ghost use Rattle.contact.specs.Round.{IsCapsuleRadius};
ghost use Rattle.contact.specs.Solid.{InBox, IsInside, SharePoint};
ghost use Rattle.contact.specs.declared.Bounds.{Bounds};
ghost use Rattle.planar.specs.Plane.{IsPlaced, Point, at};
ghost use Rattle.planar.specs.declared.Frame.{Frame};
ghost use Rattle.planar.specs.declared.Spot.{Spot};
ghost use Rattle.std.specs.Prelude.{IsTrue, ◌+◌, ◌≡◌, ◌↔◌};

mod extents;
pub mod laws;
mod round;

pub use planar::{Frame, METRE, SIDE, Spot};
use std::sync::ledger::Ledger;
use steps::Steps;

/// A closed box: from `left` to `right` and from `low` to `high`, in u.
#[derive(Clone, Copy, Debug, PartialEq, Eq)]
pub struct Bounds {
    pub left: i64,
    pub low: i64,
    pub right: i64,
    pub high: i64,
}

/// The box of nothing.
pub const NO_BOX: Bounds = Bounds {
    left: i64::MAX,
    low: i64::MAX,
    right: i64::MIN,
    high: i64::MIN,
};

/// A solid: a closed set of points. A point (x, y, n) with n at least 1 means (x/n, y/n).
pub trait Closed {
    /// Which points lie in the solid.
    ghost holds: { Self → Point → Type 0 };

    /// The box of the solid.
    ghost extent: { Self → Bounds };

    /// The solid keeps the invariant of its type.
    ghost is_lawful: { Self → Type 0 };

    /// The box, in u. A caller also learns that the solid in hand is lawful.
    fn bounds(&self) -> Bounds
        ensures value { result ≡ extent self.now }
        ensures lawful { is_lawful self.now };

    /// Whether `p` lies in the solid. The box lies in the frame, and `p` is within one metre of 0 in x
    /// and y.
    fn has(&self, p: Spot, frame: Frame) -> bool
        requires inside { IsInside (extent self.now) frame }
        requires placed { IsPlaced p }
        ensures { IsTrue result ↔ holds self.now (at p) };

    /// Some point lies in a lawful solid.
    ghost not_empty: { (s : Self) → is_lawful s → (p : Point) × holds s p };

    /// Every point of a lawful solid lies in its box.
    ghost boxed: { (s : Self) (p : Point) → is_lawful s → holds s p → InBox (extent s) p };
}

/// A solid that may share a point with a solid of the type `T`.
pub trait Meets<T: Closed>: Closed {
    /// Whether some point lies in both solids. Both boxes lie in the frame. It is one contact test.
    fn meets<L: Ledger>(&self, other: &T, frame: Frame, tests: &mut Steps<L>) -> bool
        requires self_inside { IsInside (Self.extent self.now) frame }
        requires other_inside { IsInside (T.extent other.now) frame }
        ensures share { IsTrue result ↔ SharePoint (Self.holds self.now) (T.holds other.now) }
        ensures one_test { tests.new ≡ tests.old + 1 };

    /// Sharing is symmetric.
    ghost symmetric: { (s : Self) (t : T) → Self.is_lawful s → T.is_lawful t → SharePoint (Self.holds s) (T.holds t) → SharePoint (T.holds t) (Self.holds s) } = { λ s t h k m. record { point = m.point; in_first = m.in_second; in_second = m.in_first } };

    /// A solid shares a point with itself.
    ghost reflexive: { (s : Self) → Self.is_lawful s → SharePoint (Self.holds s) (Self.holds s) };

    /// Where solids share a point, their boxes do.
    ghost within_boxes: { (s : Self) (t : T) → Self.is_lawful s → T.is_lawful t → SharePoint (Self.holds s) (T.holds t) → SharePoint (InBox (Self.extent s)) (InBox (T.extent t)) };
}

/// The greatest radius of a capsule, in u: 25 mm. Two such are less than what `segments_within` takes.
pub const MOST_RADIUS: i64 = 250_000_000;

/// The greatest diameter of a circle or a tool, and the greatest lesser side of an obround, in u:
/// 50 mm, twice `MOST_RADIUS`.
pub const MOST_DIAMETER: u64 = 2 * MOST_RADIUS as u64;

/// The places that are at most `r` away from the segment from `a` to `b`, all in u.
#[derive(Clone, Copy)]
pub struct Capsule {
    pub a: Spot,
    pub b: Spot,
    pub r: i64,
    ghost start: { IsPlaced a },
    ghost end: { IsPlaced b },
    ghost radius: { IsCapsuleRadius r },
}
