//! What a contour bounds (Gerber Layer Format Specification, 4.10).
ghost use Rattle.regions.specs.Contours.{leg_of, outline_of};
ghost use Rattle.real_copper.specs.Contours as spec;
ghost use Rattle.real_copper.specs.Contours.{IsClosedOutline};
ghost use Rattle.real_copper.specs.Draws.{IsNearBend};
ghost use Rattle.real_copper.specs.Shapes.{real_figure};
ghost use Rattle.std.specs.List.{list_all};
ghost use Rattle.std.specs.Prelude.{All, IfOk, is_none, map, true, ◌∷◌, ◌≡◌};

use crate::anchored::Anchored;
use crate::draw::Bend;
use crate::flashes::plain;
use arc_regions::{Bend as Curve, Part, Region};
use board_shapes::Shape;
use lengths::rows::NoMemory;
use planar::Spot;
use real_shapes::RealShape;
use regions::{Contour, Leg};
use std::alloc::Global;

/// An edge: where it ends, with its bend or straight.
pub type Edge = Leg<Option<Bend>>;

fn part_of(edge: &Edge) -> Part
    ensures { result ≡ spec.part_of (leg_of edge.now) }
{
    match edge.bend {
        None => Part::Straight(edge.to),
        Some(bend) => Part::Curved(Curve {
            centre: bend.centre,
            end: edge.to,
            counterclockwise: !bend.clockwise,
        }),
    }
}

fn parts_of(alloc: Global, edges: &[Edge]) -> Result<Vec<Part>, NoMemory>
    ensures { IfOk result (λ parts. parts.items ≡ map spec.part_of (map leg_of edges.now)) }
{
    let Ok(mut parts) = Vec::with_capacity(alloc, edges.len()) else {
        return Err(NoMemory);
    };
    for edge in edges {
        if let Err(_) = parts.push(part_of(edge)) {
            return Err(NoMemory);
        }
    }
    Ok(parts)
}

// Where a contour begins, and where each edge ends.
fn points_of(alloc: Global, first: Spot, edges: &[Edge]) -> Result<Vec<Spot>, NoMemory>
    ensures { IfOk result (λ points. points.items ≡ first ∷ map spec.end_of_edge (map leg_of edges.now)) }
{
    let mut points = Vec::new(alloc);
    if let Err(_) = points.push(first) {
        return Err(NoMemory);
    }
    for edge in edges {
        if let Err(_) = points.push(edge.to) {
            return Err(NoMemory);
        }
    }
    Ok(points)
}

fn are_straight(edges: &[Edge]) -> bool
    ensures { result ≡ list_all (λ e. is_none e.bend) edges.now }
{
    edges.iter().all(|edge| edge.bend.is_none())
}

fn is_straight(edges: &[Edge]) -> bool
    ensures { result ≡ spec.is_straight (map leg_of edges.now) }
{
    are_straight(edges)
}

/// Whether a contour has one or two edges that are straight: these bound nothing.
pub fn is_too_short(contour: &Contour<Option<Bend>>) -> bool
    ensures { result ≡ spec.is_too_short (outline_of contour.now) }
{
    contour.legs.len() < 3 && is_straight(&contour.legs)
}

// What straight edges bound.
fn straight_area(alloc: Global, contour: &Contour<Option<Bend>>) -> Result<Anchored, NoMemory>
    requires straight { spec.is_straight (outline_of contour.now).legs ≡ true }
    requires closed { IsClosedOutline (outline_of contour.now) }
    ensures { IfOk result (λ made. real_figure made.shape ≡ spec.straight_area (outline_of contour.now)) }
{
    let points = points_of(alloc, contour.first, &contour.legs)?;
    Ok(plain(Shape::area_of(alloc, points)?))
}

// What edges bound of which some are arcs.
fn curved_area(alloc: Global, contour: &Contour<Option<Bend>>) -> Result<Anchored, NoMemory>
    requires bends { All (λ leg. IsNearBend leg.bend) (outline_of contour.now).legs }
    ensures { IfOk result (λ made. real_figure made.shape ≡ spec.curved_area (outline_of contour.now)) }
{
    let parts = parts_of(alloc, &contour.legs)?;
    Ok(Anchored {
        shape: RealShape::Region(Region {
            start: contour.first,
            parts,
        }),
    })
}

/// What a closed contour bounds, by even and odd.
pub fn area_of(alloc: Global, contour: &Contour<Option<Bend>>) -> Result<Anchored, NoMemory>
    requires closed { IsClosedOutline (outline_of contour.now) }
    requires bends { All (λ leg. IsNearBend leg.bend) (outline_of contour.now).legs }
    ensures { IfOk result (λ made. real_figure made.shape ≡ spec.area_of (outline_of contour.now)) }
{
    if is_straight(&contour.legs) {
        straight_area(alloc, contour)
    } else {
        curved_area(alloc, contour)
    }
}
