//! The capsule as a solid.
ghost use Rattle.contact.specs.Round.{IsCapsuleRadius, IsLawful, box_of};
ghost use Rattle.contact.specs.RoundLaws.{boxed, boxes_share, not_empty, shared_by_itself};
ghost use Rattle.contact.specs.Solid.{IsInside, SharePoint};
ghost use Rattle.planar.specs.Plane.{InCapsule, IsPlaced};
ghost use Rattle.std.specs.Int.{int_max, int_min};
ghost use Rattle.std.specs.Prelude.{IsTrue, ◌+ℤ◌, ◌-ℤ◌, ◌≡◌, ◌↔◌};

use super::{Bounds, Capsule, Closed, Meets};
use planar::{Frame, Spot, segments_within};
use std::sync::ledger::Ledger;
use steps::Steps;

impl Capsule {
    /// The capsule of the places at most `r` away from the segment from `a` to `b`. With equal ends it
    /// is a disc. Both ends are within one metre of 0 in x and y, and `r` is from 0 to `MOST_RADIUS`.
    pub fn new(a: Spot, b: Spot, r: i64) -> Capsule
        requires a_placed { IsPlaced a }
        requires b_placed { IsPlaced b }
        requires radius { IsCapsuleRadius r }
        ensures start { result.a ≡ a }
        ensures end { result.b ≡ b }
        ensures radius { result.r ≡ r }
    {
        Capsule { a, b, r }
    }

    /// Both ends and the radius.
    pub fn parts(&self) -> (Spot, Spot, i64)
        ensures start { result.0 ≡ self.now.a }
        ensures end { result.1 ≡ self.now.b }
        ensures radius { result.2 ≡ self.now.r }
    {
        (self.a, self.b, self.r)
    }
}

impl Capsule {
    fn left(&self) -> i64
        ensures { result ≡ int_min self.now.a.x self.now.b.x -ℤ self.now.r }
    {
        self.a.x.min(self.b.x) - self.r
    }

    fn low(&self) -> i64
        ensures { result ≡ int_min self.now.a.y self.now.b.y -ℤ self.now.r }
    {
        self.a.y.min(self.b.y) - self.r
    }

    fn right(&self) -> i64
        ensures { result ≡ int_max self.now.a.x self.now.b.x +ℤ self.now.r }
    {
        self.a.x.max(self.b.x) + self.r
    }

    fn high(&self) -> i64
        ensures { result ≡ int_max self.now.a.y self.now.b.y +ℤ self.now.r }
    {
        self.a.y.max(self.b.y) + self.r
    }
}

impl Closed for Capsule {
    ghost holds = { λ c p. InCapsule c.a c.b c.r p };

    ghost extent = { λ c. box_of c.a c.b c.r };

    ghost is_lawful = { λ c. IsLawful c.a c.b c.r };

    fn bounds(&self) -> Bounds {
        Bounds {
            left: self.left(),
            low: self.low(),
            right: self.right(),
            high: self.high(),
        }
    }

    fn has(&self, p: Spot, frame: Frame) -> bool {
        self.bounds().holds(p) && segments_within(self.a, self.b, p, p, self.r, frame)
    }

    ghost not_empty = { λ c h. not_empty c.a c.b c.r h };

    ghost boxed = { λ c p h k. boxed c.a c.b c.r p h k };
}

/// Whether some point lies in both capsules.
fn capsules_share(first: &Capsule, second: &Capsule, frame: Frame) -> bool
    requires first_inside { IsInside (box_of first.now.a first.now.b first.now.r) frame }
    requires second_inside { IsInside (box_of second.now.a second.now.b second.now.r) frame }
    ensures { IsTrue result ↔ SharePoint (InCapsule first.now.a first.now.b first.now.r) (InCapsule second.now.a second.now.b second.now.r) }
{
    let reach = first.r + second.r;
    segments_within(first.a, first.b, second.a, second.b, reach, frame)
}

impl Meets<Capsule> for Capsule {
    fn meets<L: Ledger>(&self, other: &Capsule, frame: Frame, tests: &mut Steps<L>) -> bool {
        tests.tick();
        capsules_share(self, other, frame)
    }

    ghost reflexive = { λ s h. shared_by_itself s.a s.b s.r h };

    ghost within_boxes = { λ s t h k m. boxes_share s.a s.b s.r t.a t.b t.r h k m };
}
