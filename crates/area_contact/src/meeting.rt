//! Whether areas share a point with capsules and with areas.
//!
//! The boxes are compared before any loop over edges, so shapes far apart cost nothing.
ghost use Rattle.area_contact.specs.AreaLaws.{boxed, shared_by_itself};
ghost use Rattle.area_contact.specs.Contour.{InArea, area_box, edges_of};
ghost use Rattle.contact.specs.Round.{box_of};
ghost use Rattle.contact.specs.RoundLaws.{boxed as round_boxed, shared_by_itself as round_shared};
ghost use Rattle.contact.specs.Solid.{IsInside, SharePoint};
ghost use Rattle.planar.specs.Plane.{InCapsule};
ghost use Rattle.std.specs.Prelude.{IsTrue, ◌↔◌};

use super::Area;
use contact::{Capsule, Closed, Meets};
use planar::Frame;
use std::sync::ledger::Ledger;
use steps::Steps;

/// Whether an edge comes into the capsule, or the capsule's first end has an odd number of edges to
/// its right.
fn touches_capsule(area: &Area, capsule: &Capsule, frame: Frame) -> bool
    requires area_inside { IsInside (area_box area.now.points.items) frame }
    requires capsule_inside { IsInside (box_of capsule.now.a capsule.now.b capsule.now.r) frame }
    ensures { IsTrue result ↔ SharePoint (InArea (edges_of area.now.points.items)) (InCapsule capsule.now.a capsule.now.b capsule.now.r) }
{
    area.reaches(capsule, frame) || area.is_crossed(capsule.parts().0)
}

/// Whether some point lies in the area and in the capsule.
fn area_and_capsule(area: &Area, capsule: &Capsule, frame: Frame) -> bool
    requires area_inside { IsInside (area_box area.now.points.items) frame }
    requires capsule_inside { IsInside (box_of capsule.now.a capsule.now.b capsule.now.r) frame }
    ensures { IsTrue result ↔ SharePoint (InArea (edges_of area.now.points.items)) (InCapsule capsule.now.a capsule.now.b capsule.now.r) }
{
    if area.bounds().meet(&capsule.bounds()) {
        touches_capsule(area, capsule, frame)
    } else {
        false
    }
}

/// Whether edges of the areas share a point, or the first corner of one has an odd number of edges of
/// the other to its right.
fn touches_area(first: &Area, second: &Area, frame: Frame) -> bool
    requires first_inside { IsInside (area_box first.now.points.items) frame }
    requires second_inside { IsInside (area_box second.now.points.items) frame }
    ensures { IsTrue result ↔ SharePoint (InArea (edges_of first.now.points.items)) (InArea (edges_of second.now.points.items)) }
{
    first.meets_edges(second, frame) || first.is_around(second)
}

/// Whether some point lies in both areas.
fn area_and_area(first: &Area, second: &Area, frame: Frame) -> bool
    requires first_inside { IsInside (area_box first.now.points.items) frame }
    requires second_inside { IsInside (area_box second.now.points.items) frame }
    ensures { IsTrue result ↔ SharePoint (InArea (edges_of first.now.points.items)) (InArea (edges_of second.now.points.items)) }
{
    if first.bounds().meet(&second.bounds()) {
        touches_area(first, second, frame)
    } else {
        false
    }
}

impl Meets<Capsule> for Area {
    fn meets<L: Ledger>(&self, other: &Capsule, frame: Frame, tests: &mut Steps<L>) -> bool {
        tests.tick();
        area_and_capsule(self, other, frame)
    }

    ghost reflexive = { λ s h. shared_by_itself s.points.items h };

    ghost within_boxes = { λ s t h k m. record { point = m.point; in_first = boxed s.points.items m.point h m.in_first; in_second = round_boxed t.a t.b t.r m.point k m.in_second } };
}

impl Meets<Area> for Capsule {
    fn meets<L: Ledger>(&self, other: &Area, frame: Frame, tests: &mut Steps<L>) -> bool {
        tests.tick();
        area_and_capsule(other, self, frame)
    }

    ghost reflexive = { λ s h. round_shared s.a s.b s.r h };

    ghost within_boxes = { λ s t h k m. record { point = m.point; in_first = round_boxed s.a s.b s.r m.point h m.in_first; in_second = boxed t.points.items m.point k m.in_second } };
}

impl Meets<Area> for Area {
    fn meets<L: Ledger>(&self, other: &Area, frame: Frame, tests: &mut Steps<L>) -> bool {
        tests.tick();
        area_and_area(self, other, frame)
    }

    ghost reflexive = { λ s h. shared_by_itself s.points.items h };

    ghost within_boxes = { λ s t h k m. record { point = m.point; in_first = boxed s.points.items m.point h m.in_first; in_second = boxed t.points.items m.point k m.in_second } };
}
