//! Figures moved by step and repeat (Gerber Layer Format Specification, 4.12).
ghost use Rattle.board_shapes.specs.Figures.{figure_of};
ghost use Rattle.board_shapes.specs.Moved.{IsShift, corners, shifted, shifted_figure};
ghost use Rattle.planar.specs.Plane.{IsPlaced, IsReachable, is_placed as has_place};
ghost use Rattle.real_copper.specs.Figures as spec;
ghost use Rattle.real_copper.specs.Figures.{RealFigure, arc, exact, holed, is_half_placed, is_odd_placed, is_part_placed, is_real_placed, line, odd, polygon, real_edges, real_handling, region, shifted_odd, shifted_part, shifted_real, turned, turned_disc};
ghost use Rattle.real_copper.specs.Moving.{anchored_few, anchored_leaves};
ghost use Rattle.real_copper.specs.Shapes.{real_figure};
ghost use Rattle.std.specs.List.{list_all};
ghost use Rattle.std.specs.Prelude.{All, IfErr, IfOk, false, length, map, pos, true, ◌≡◌, ◌<◌, ◌^◌, ◌*ℤ◌};

use crate::anchored::Anchored;
use arc_regions::{Bend, Part, Region};
use arcs::Arc;
use board_shapes::{MoveFault, Shape};
use contact::Bounds;
use fine_figures::{FineFigure, FineStroke, HoledFigure};
use planar::{Spot, TWO_METRES, are_placed, is_placed};
use real_shapes::RealShape;
use slants::{Slant, TurnedDisc, TurnedFigure};
use std::alloc::Global;
use step_repeat::Figure;
use turned_polygons::TurnedPolygon;

/// A way in u, at most 2 m across and up.
#[derive(Clone, Copy)]
struct Way {
    x: i64,
    y: i64,
    ghost across: { IsShift x },
    ghost up: { IsShift y },
}

fn moved(p: Spot, by: Way) -> Spot
    requires placed { IsPlaced p }
    ensures { result ≡ shifted by.x by.y p }
{
    Spot {
        x: p.x + by.x,
        y: p.y + by.y,
    }
}

// A spot in half u.
fn moved_half(p: Spot, by: Way) -> Spot
    requires placed { IsReachable p }
    ensures { result ≡ shifted (pos 2 *ℤ by.x) (pos 2 *ℤ by.y) p }
{
    Spot {
        x: p.x + 2 * by.x,
        y: p.y + 2 * by.y,
    }
}

fn moved_arc(a: &Arc, by: Way) -> Arc
    requires near { is_real_placed (arc a.now) ≡ true }
    ensures { arc result ≡ shifted_real by.x by.y (arc a.now) }
{
    Arc {
        centre: moved(a.centre, by),
        start: moved(a.start, by),
        end: moved(a.end, by),
        width: a.width,
    }
}

fn moved_line(a: &Slant, by: Way) -> Slant
    requires near { is_real_placed (line a.now) ≡ true }
    ensures { line result ≡ shifted_real by.x by.y (line a.now) }
{
    Slant {
        start: moved(a.start, by),
        end: moved(a.end, by),
        width: a.width,
    }
}

fn moved_part(part: &Part, by: Way) -> Part
    requires near { is_part_placed part.now ≡ true }
    ensures { result ≡ shifted_part by.x by.y part.now }
{
    match part {
        Part::Straight(to) => Part::Straight(moved(*to, by)),
        Part::Curved(bend) => Part::Curved(Bend {
            centre: moved(bend.centre, by),
            end: moved(bend.end, by),
            counterclockwise: bend.counterclockwise,
        }),
    }
}

fn moved_parts(alloc: Global, parts: &[Part], by: Way) -> Result<Vec<Part>, MoveFault>
    requires near { list_all is_part_placed parts.now ≡ true }
    ensures value { IfOk result (λ made. made.items ≡ map (shifted_part by.x by.y) parts.now) }
    ensures fault { IfErr result (λ why. why ≡ MoveFault.NoMemory) }
{
    let Ok(mut made) = Vec::with_capacity(alloc, parts.len()) else {
        return Err(MoveFault::NoMemory);
    };
    for part in parts {
        if let Err(_) = made.push(moved_part(part, by)) {
            return Err(MoveFault::NoMemory);
        }
    }
    Ok(made)
}

fn moved_region(alloc: Global, area: &Region, by: Way) -> Result<Region, MoveFault>
    requires near { is_real_placed (region area.now.start area.now.parts.items) ≡ true }
    ensures value { IfOk result (λ made. region made.start made.parts.items ≡ shifted_real by.x by.y (region area.now.start area.now.parts.items)) }
    ensures fault { IfErr result (λ why. why ≡ MoveFault.NoMemory) }
{
    let parts = moved_parts(alloc, &area.parts, by)?;
    Ok(Region {
        start: moved(area.start, by),
        parts,
    })
}

fn moved_spots(alloc: Global, spots: &[Spot], by: Way) -> Result<Vec<Spot>, MoveFault>
    requires near { All IsPlaced spots.now }
    ensures value { IfOk result (λ made. made.items ≡ map (shifted by.x by.y) spots.now) }
    ensures fault { IfErr result (λ why. why ≡ MoveFault.NoMemory) }
{
    let Ok(mut made) = Vec::with_capacity(alloc, spots.len()) else {
        return Err(MoveFault::NoMemory);
    };
    for spot in spots {
        if let Err(_) = made.push(moved(*spot, by)) {
            return Err(MoveFault::NoMemory);
        }
    }
    Ok(made)
}

fn moved_turned(alloc: Global, t: &TurnedFigure, by: Way) -> Result<TurnedFigure, MoveFault>
    requires near { is_real_placed (turned t.now.contour.items t.now.about t.now.angle) ≡ true }
    ensures value { IfOk result (λ made. turned made.contour.items made.about made.angle ≡ shifted_real by.x by.y (turned t.now.contour.items t.now.about t.now.angle)) }
    ensures fault { IfErr result (λ why. why ≡ MoveFault.NoMemory) }
{
    let contour = moved_spots(alloc, &t.contour, by)?;
    Ok(TurnedFigure {
        contour,
        about: moved(t.about, by),
        angle: t.angle,
    })
}

fn moved_disc(d: &TurnedDisc, by: Way) -> TurnedDisc
    requires near { is_real_placed (turned_disc d.now) ≡ true }
    ensures { turned_disc result ≡ shifted_real by.x by.y (turned_disc d.now) }
{
    TurnedDisc {
        centre: moved(d.centre, by),
        radius: d.radius,
        about: moved(d.about, by),
        angle: d.angle,
    }
}

fn moved_polygon(g: &TurnedPolygon, by: Way) -> TurnedPolygon
    requires near { is_real_placed (polygon g.now) ≡ true }
    ensures { polygon result ≡ shifted_real by.x by.y (polygon g.now) }
{
    let mut polygon = g.polygon;
    polygon.centre = moved(g.polygon.centre, by);
    TurnedPolygon {
        polygon,
        about: moved(g.about, by),
        angle: g.angle,
    }
}

fn moved_odd(f: &FineFigure, by: Way) -> FineFigure
    requires near { is_odd_placed f.now ≡ true }
    ensures { result ≡ shifted_odd by.x by.y f.now }
{
    match f {
        FineFigure::Round(s) => FineFigure::Round(FineStroke {
            a: moved_half(s.a, by),
            b: moved_half(s.b, by),
            r: s.r,
        }),
        FineFigure::Rectangle(b) => FineFigure::Rectangle(moved_sides(b, by)),
    }
}

fn moved_sides(b: &Bounds, by: Way) -> Bounds
    requires near { is_odd_placed (FineFigure.Rectangle b.now) ≡ true }
    ensures { FineFigure.Rectangle result ≡ shifted_odd by.x by.y (FineFigure.Rectangle b.now) }
{
    let low = moved_half(
        Spot {
            x: b.left,
            y: b.low,
        },
        by,
    );
    let high = moved_half(
        Spot {
            x: b.right,
            y: b.high,
        },
        by,
    );
    Bounds {
        left: low.x,
        low: low.y,
        right: high.x,
        high: high.y,
    }
}

fn moved_holed(h: &HoledFigure, by: Way) -> HoledFigure
    requires near { is_real_placed (holed h.now) ≡ true }
    ensures { holed result ≡ shifted_real by.x by.y (holed h.now) }
{
    HoledFigure {
        outline: moved_odd(&h.outline, by),
        centre: moved(h.centre, by),
        hole: h.hole,
    }
}

fn moved_plain(alloc: Global, shape: &Shape, by: Way) -> Result<Shape, MoveFault>
    ensures value { IfOk result (λ made. figure_of made ≡ shifted_figure by.x by.y (figure_of shape.now)) }
    ensures fault { IfErr result (λ why. why ≡ MoveFault.OutOfRange → is_real_placed (shifted_real by.x by.y (exact (figure_of shape.now))) ≡ false) }
{
    shape.moved(alloc, by.x, by.y)
}

// The shape moved, wherever that is; of one that is taken exactly `OutOfRange` where it is over 1 m from 0.
fn moved_shape(alloc: Global, f: &Anchored, by: Way) -> Result<RealShape, MoveFault>
    ensures value { IfOk result (λ made. real_figure made ≡ shifted_real by.x by.y (real_figure f.now.shape)) }
    ensures fault { IfErr result (λ why. why ≡ MoveFault.OutOfRange → is_real_placed (shifted_real by.x by.y (real_figure f.now.shape)) ≡ false) }
{
    match &f.shape {
        RealShape::Plain(shape) => match moved_plain(alloc, shape, by) {
            Ok(shape) => Ok(RealShape::Plain(shape)),
            Err(fault) => Err(fault),
        },
        RealShape::ArcDraw(a) => Ok(RealShape::ArcDraw(moved_arc(a, by))),
        RealShape::Slanted(a) => Ok(RealShape::Slanted(moved_line(a, by))),
        RealShape::Region(area) => Ok(RealShape::Region(moved_region(alloc, area, by)?)),
        RealShape::Turned(t) => Ok(RealShape::Turned(moved_turned(alloc, t, by)?)),
        RealShape::TurnedDisc(d) => Ok(RealShape::TurnedDisc(moved_disc(d, by))),
        RealShape::Polygon(g) => Ok(RealShape::Polygon(moved_polygon(g, by))),
        RealShape::Fine(odd) => Ok(RealShape::Fine(moved_odd(odd, by))),
        RealShape::Holed(h) => Ok(RealShape::Holed(moved_holed(h, by))),
    }
}

fn is_half_placed(p: Spot) -> bool
    ensures { result ≡ spec.is_half_placed p }
{
    p.x.unsigned_abs() <= TWO_METRES && p.y.unsigned_abs() <= TWO_METRES
}

fn is_part_placed(part: &Part) -> bool
    ensures { result ≡ spec.is_part_placed part.now }
{
    match part {
        Part::Straight(to) => is_placed(*to),
        Part::Curved(bend) => is_placed(bend.centre) && is_placed(bend.end),
    }
}

fn are_parts_placed(parts: &[Part]) -> bool
    ensures { result ≡ list_all spec.is_part_placed parts.now }
{
    parts.iter().all(|part| is_part_placed(part))
}

fn is_odd_placed(f: &FineFigure) -> bool
    ensures { result ≡ spec.is_odd_placed f.now }
{
    match f {
        FineFigure::Round(s) => is_half_placed(s.a) && is_half_placed(s.b),
        FineFigure::Rectangle(b) => are_corners_placed(b),
    }
}

fn are_corners_placed(b: &Bounds) -> bool
    ensures { result ≡ spec.is_odd_placed (FineFigure.Rectangle b.now) }
{
    is_half_placed(Spot {
        x: b.left,
        y: b.low,
    }) && is_half_placed(Spot {
        x: b.right,
        y: b.high,
    })
}

/// Whether each end, corner, centre and spot that it is turned about is at most 1 m from 0 in x and y.
pub fn is_anchored(shape: &RealShape) -> bool
    ensures { result ≡ is_real_placed (real_figure shape.now) }
{
    match shape {
        RealShape::Plain(shape) => is_plain_placed(shape),
        RealShape::ArcDraw(a) => is_placed(a.centre) && (is_placed(a.start) && is_placed(a.end)),
        RealShape::Slanted(a) => is_placed(a.start) && is_placed(a.end),
        RealShape::Region(area) => is_placed(area.start) && are_parts_placed(&area.parts),
        RealShape::Turned(t) => is_placed(t.about) && are_placed(&t.contour),
        RealShape::TurnedDisc(d) => is_placed(d.centre) && is_placed(d.about),
        RealShape::Polygon(g) => is_placed(g.polygon.centre) && is_placed(g.about),
        RealShape::Fine(f) => is_odd_placed(f),
        RealShape::Holed(h) => is_odd_placed(&h.outline) && is_placed(h.centre),
    }
}

// A shape that is taken exactly is always: its ends and corners are within 1 m.
fn is_plain_placed(shape: &Shape) -> bool
    ensures { result ≡ list_all has_place (corners (figure_of shape.now)) }
{
    match shape {
        Shape::Round(capsule) => {
            let (a, b, _) = capsule.parts();
            is_placed(a) && is_placed(b)
        },
        Shape::Filled(area) => are_placed(&area.points),
    }
}

fn odd_edges(f: &FineFigure) -> u32
    ensures { result ≡ spec.odd_edges f.now }
{
    match f {
        FineFigure::Round(_) => 0,
        FineFigure::Rectangle(_) => 4,
    }
}

/// How many edges a shape counts for the room: those of its border that are straight or arcs of a contour.
pub fn edges_of(shape: &RealShape) -> u64
    ensures { result ≡ real_edges (real_figure shape.now) }
{
    match shape {
        RealShape::Plain(shape) => u64::from(shape.edges()),
        RealShape::Slanted(_) => 4,
        RealShape::Region(area) => area.parts.len() as u64,
        RealShape::Turned(t) => t.contour.len().saturating_sub(1) as u64,
        RealShape::Polygon(g) => u64::from(g.polygon.corners),
        RealShape::Fine(f) => u64::from(odd_edges(f)),
        RealShape::Holed(h) => u64::from(odd_edges(&h.outline)),
        _ => 0,
    }
}

impl Figure for Anchored {
    ghost Plain = { RealFigure };

    ghost plain = { λ f. real_figure f.shape };

    ghost handling = { real_handling };

    fn edges(&self) -> u32 {
        edges_of(&self.shape) as u32
    }

    fn shifted(&self, alloc: Global, dx: i64, dy: i64) -> Result<Anchored, MoveFault> {
        let shape = moved_shape(alloc, self, Way { x: dx, y: dy })?;
        if is_anchored(&shape) {
            Ok(Anchored { shape })
        } else {
            Err(MoveFault::OutOfRange)
        }
    }

    ghost leaves = { anchored_leaves };

    ghost few = { anchored_few };
}
