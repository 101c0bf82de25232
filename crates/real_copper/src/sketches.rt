//! What primitives of macros flash (Gerber Layer Format Specification, 4.5.1).
ghost use Rattle.aperture_macros.specs.Fine.{IsNearFine};
ghost use Rattle.aperture_macros.specs.Images.{set_down};
ghost use Rattle.aperture_macros.specs.Seen.{plain as plain_primitive};
ghost use Rattle.aperture_macros.specs.Sized.{IsSized};
ghost use Rattle.aperture_macros.specs.Sketches.{IsNear};
ghost use Rattle.area_contact.specs.Contour.{IsClosed};
ghost use Rattle.area_contact.specs.declared.TheConstants.{MOST_CONTOUR_POINTS};
ghost use Rattle.board_shapes.specs.Figures.{filled};
ghost use Rattle.board_shapes.specs.Rectangles.{rectangle as rectangle_of};
ghost use Rattle.contact.specs.declared.TheConstants.{MOST_DIAMETER};
ghost use Rattle.planar.specs.Plane.{IsPlaced, IsReachable};
ghost use Rattle.planar.specs.declared.TheConstants.{METRE};
ghost use Rattle.real_copper.specs.Figures.{exact, real_edges};
ghost use Rattle.real_copper.specs.Flashed.{Makes};
ghost use Rattle.real_copper.specs.Flashes.{IsAbout};
ghost use Rattle.real_copper.specs.Primitives as spec;
ghost use Rattle.real_copper.specs.Shapes.{real_figure};
ghost use Rattle.real_shapes.specs.Settled.{is_settled};
ghost use Rattle.std.specs.Prelude.{Some, length, map, true, unsigned_abs, ◌≡◌, ◌<◌, ◌≤◌, ◌*◌, ◌^◌, ◌-ℤ◌};

use crate::anchored::Anchored;
use crate::flashes::{plain, sides_about, stroke_about};
use crate::moving::is_anchored;
use aperture_macros::{
    FigureFault, FineKind, FineSketch, Form, MacroFault, Placing, Primitive, Rotation, Sketch, Turn,
};
use apertures::half;
use board_shapes::{Shape, rectangle};
use contact::{Bounds, Capsule};
use fine_figures::FineFigure;
use lengths::decimal::{Decimal, Unit};
use planar::{Spot, are_placed, is_placed, is_same};
use real_shapes::RealShape;
use slants::{RIGHT_ANGLE, RegularPolygon, Slant, TurnedDisc, TurnedFigure};
use std::alloc::Global;
use turned_polygons::TurnedPolygon;

// The figure, where it is within 1 m of 0.
fn within(shape: RealShape) -> Result<Option<Anchored>, FigureFault>
    requires few { real_edges (real_figure shape) ≤ 4294967295 }
    requires settled { is_settled shape ≡ true }
    ensures { Makes result (spec.within (real_figure shape)) }
{
    if is_anchored(&shape) {
        Ok(Some(Anchored { shape }))
    } else {
        Err(FigureFault::Macro(MacroFault::OutOfRange))
    }
}

// What a contour bounds that has nothing left to turn.
fn unturned(alloc: Global, contour: Vec<Spot>) -> Result<Option<Anchored>, FigureFault>
    requires closed { IsClosed contour.items }
    requires enough { 4 ≤ length contour.items }
    requires few { length contour.items ≤ MOST_CONTOUR_POINTS }
    ensures { Makes result (spec.within (exact (filled contour.items))) }
{
    if !are_placed(&contour) {
        return Err(FigureFault::Macro(MacroFault::OutOfRange));
    }
    match Shape::area_of(alloc, contour) {
        Ok(shape) => Ok(Some(plain(shape))),
        Err(_) => Err(FigureFault::NoMemory),
    }
}

// A contour that is turned about a spot by what is left of its turn, if anything is.
fn contour_turned(
    alloc: Global,
    about: Spot,
    rest: u32,
    contour: Vec<Spot>,
) -> Result<Option<Anchored>, FigureFault>
    requires closed { IsClosed contour.items }
    requires enough { 4 ≤ length contour.items }
    requires few { length contour.items ≤ MOST_CONTOUR_POINTS }
    requires below { rest < RIGHT_ANGLE }
    ensures { Makes result (spec.within (spec.contour_turned about rest contour.items)) }
{
    if rest == 0 {
        return unturned(alloc, contour);
    }
    within(RealShape::Turned(TurnedFigure {
        contour,
        about,
        angle: rest,
    }))
}

// A disc, which nothing turns.
fn disc(p: Spot, d: u64) -> Result<Option<Anchored>, FigureFault>
    requires narrow { d ≤ MOST_DIAMETER }
    ensures { Makes result (spec.within (spec.disc p d)) }
{
    if is_placed(p) {
        Ok(Some(plain(Shape::Round(Capsule::new(p, p, half(d))))))
    } else {
        Err(FigureFault::Macro(MacroFault::OutOfRange))
    }
}

// A disc that is turned about a spot: one about that spot stays as it is.
fn disc_turned(about: Spot, rest: u32, p: Spot, d: u64) -> Result<Option<Anchored>, FigureFault>
    requires narrow { d ≤ MOST_DIAMETER }
    requires below { rest < RIGHT_ANGLE }
    ensures { Makes result (spec.within (spec.disc_turned about rest p d)) }
{
    if rest == 0 || is_same(p, about) {
        return disc(p, d);
    }
    within(RealShape::TurnedDisc(TurnedDisc {
        centre: p,
        radius: d / 2,
        about,
        angle: rest,
    }))
}

fn quarters_of(rotation: Rotation) -> u32
    ensures value { result ≡ spec.quarters_of rotation }
    ensures few { result ≤ 3 }
{
    match rotation {
        Rotation::Unturned => 0,
        Rotation::Quarter => 1,
        Rotation::Half => 2,
        Rotation::ThreeQuarters => 3,
    }
}

// A polygon by its middle, the diameter of its circle in parts of a u, and its corners.
fn polygon_turned(
    turn: Turn,
    about: Spot,
    p: Spot,
    d: u64,
    n: u32,
) -> Result<Option<Anchored>, FigureFault>
    requires below { turn.rest < RIGHT_ANGLE }
    requires three { 3 ≤ n }
    requires twelve { n ≤ 12 }
    ensures { Makes result (spec.within (spec.polygon_turned turn about p d n)) }
{
    let polygon = RegularPolygon {
        centre: p,
        corners: n,
        diameter: d,
        angle: quarters_of(turn.quarters) * RIGHT_ANGLE + turn.rest,
    };
    within(RealShape::Polygon(TurnedPolygon {
        polygon,
        about: if turn.rest == 0 { p } else { about },
        angle: turn.rest,
    }))
}

// The corners of a rectangle, each set down.
fn corners(by: Placing, low: Spot, high: Spot) -> [Spot; 5]
    requires low { IsReachable low }
    requires high { IsReachable high }
    ensures value { result ≡ map (set_down by.rotation by.at) (rectangle_of low high) }
    ensures closed { IsClosed result }
    ensures five { length result ≡ 5 }
{
    let [first, second, third, fourth, _] = rectangle(low, high);
    let start = by.moved(first);
    [
        start,
        by.moved(second),
        by.moved(third),
        by.moved(fourth),
        start,
    ]
}

// A rectangle, set down and turned by what is left.
fn rectangle_turned(
    alloc: Global,
    by: Placing,
    rest: u32,
    low: Spot,
    high: Spot,
) -> Result<Option<Anchored>, FigureFault>
    requires low { IsReachable low }
    requires high { IsReachable high }
    requires below { rest < RIGHT_ANGLE }
    ensures { Makes result (spec.within (spec.contour_turned by.at rest (map (set_down by.rotation by.at) (rectangle_of low high)))) }
{
    match corners(by, low, high).as_slice().to_vec(alloc) {
        Ok(contour) => contour_turned(alloc, by.at, rest, contour),
        Err(_) => Err(FigureFault::NoMemory),
    }
}

// A figure about the origin, set down at a spot and turned by what is left about it.
fn sketched(
    alloc: Global,
    turn: Turn,
    at: Spot,
    sketch: Sketch,
) -> Result<Option<Anchored>, FigureFault>
    requires placed { IsPlaced at }
    requires below { turn.rest < RIGHT_ANGLE }
    requires near { IsNear (Some sketch) }
    ensures { Makes result (spec.within (spec.sketch_at turn at sketch)) }
{
    let by = Placing {
        rotation: turn.quarters,
        at,
    };
    match sketch {
        Sketch::Disc(p, d) => disc_turned(at, turn.rest, by.moved(p), d),
        Sketch::Rectangle(low, high) => rectangle_turned(alloc, by, turn.rest, low, high),
        Sketch::Stroke(p, q, width) => within(RealShape::Slanted(Slant {
            start: by.moved(p),
            end: by.moved(q),
            width,
        })),
        Sketch::Regular(p, d, n) => polygon_turned(turn, at, by.moved(p), d, n),
    }
}

// The sides of a rectangle, which change places at a quarter turn.
fn sides_turned(rotation: Rotation, m: Spot, w: u64, h: u64) -> Bounds
    requires about { IsAbout m }
    requires w { w ≤ 4 * METRE }
    requires h { h ≤ 4 * METRE }
    ensures { result ≡ spec.sides_turned rotation m w h }
{
    match rotation {
        Rotation::Unturned => sides_about(m, w, h),
        Rotation::Quarter => sides_about(m, h, w),
        Rotation::Half => sides_about(m, w, h),
        Rotation::ThreeQuarters => sides_about(m, h, w),
    }
}

// How far a spot is from another across, and how far up.
fn across(p: Spot, q: Spot) -> u64
    requires p { IsReachable p }
    requires q { IsReachable q }
    ensures value { result ≡ unsigned_abs (q.x -ℤ p.x) }
    ensures short { result ≤ 4 * METRE }
{
    q.x.abs_diff(p.x)
}

fn up(p: Spot, q: Spot) -> u64
    requires p { IsReachable p }
    requires q { IsReachable q }
    ensures value { result ≡ unsigned_abs (q.y -ℤ p.y) }
    ensures short { result ≤ 4 * METRE }
{
    q.y.abs_diff(p.y)
}

// A figure of an odd size whose first spot comes to lie at `p`.
fn odd_shape(kind: FineKind, by: Placing, p: Spot, fine: FineSketch) -> RealShape
    requires near { IsNearFine (Some fine) }
    requires about { IsAbout p }
    ensures value { real_figure result ≡ spec.odd_kind kind by.rotation by.at p fine }
    ensures few { real_edges (real_figure result) ≤ 4 }
    ensures settled { is_settled result ≡ true }
{
    match kind {
        FineKind::Disc => {
            let wide = across(fine.start, fine.end);
            RealShape::Fine(FineFigure::Round(stroke_about(p, wide, wide)))
        },
        FineKind::Rectangle => {
            let wide = across(fine.start, fine.end);
            let high = up(fine.start, fine.side);
            RealShape::Fine(FineFigure::Rectangle(sides_turned(by.rotation, p, wide, high)))
        },
        FineKind::Line => RealShape::Slanted(Slant {
            start: p,
            end: by.moved(fine.end),
            width: across(fine.start, fine.side),
        }),
    }
}

// One of an odd size, set down by quarter turns.
fn odd_sketched(
    rotation: Rotation,
    at: Spot,
    fine: FineSketch,
) -> Result<Option<Anchored>, FigureFault>
    requires at_placed { IsPlaced at }
    requires near { IsNearFine (Some fine) }
    ensures { Makes result (spec.within (spec.odd_sketch_at rotation at fine)) }
{
    let by = Placing { rotation, at };
    let p = by.moved(fine.start);
    within(odd_shape(fine.kind, by, p, fine))
}

// One of an odd size, if it has an image.
fn odd_figure(
    primitive: &Primitive,
    parameters: &[Decimal],
    unit: Unit,
    turn: Turn,
    at: Spot,
) -> Result<Option<Anchored>, FigureFault>
    requires placed { IsPlaced at }
    ensures { Makes result (spec.odd_primitive turn primitive.now.form primitive.now.lengths.now parameters.now unit at) }
{
    match primitive.fine(parameters, unit) {
        Ok(Some(fine)) => odd_sketched(turn.quarters, at, fine),
        Ok(None) => Ok(None),
        Err(fault) => Err(FigureFault::Macro(fault)),
    }
}

// What the points of an outline bound.
fn outline_figure(
    alloc: Global,
    primitive: &Primitive,
    edges: u32,
    parameters: &[Decimal],
    unit: Unit,
    turn: Turn,
    at: Spot,
) -> Result<Option<Anchored>, FigureFault>
    requires placed { IsPlaced at }
    requires sized { IsSized (Form.Outline edges) }
    requires below { turn.rest < RIGHT_ANGLE }
    ensures { Makes result (spec.outline_figure turn edges primitive.now.lengths.now parameters.now unit at) }
{
    let by = Placing {
        rotation: turn.quarters,
        at,
    };
    match primitive.points(alloc, edges, parameters, unit, by) {
        Ok(points) => contour_turned(alloc, at, turn.rest, points),
        Err(fault) => Err(fault),
    }
}

// One of even sizes, if it has an image.
fn even_figure(
    alloc: Global,
    primitive: &Primitive,
    parameters: &[Decimal],
    unit: Unit,
    turn: Turn,
    at: Spot,
) -> Result<Option<Anchored>, FigureFault>
    requires placed { IsPlaced at }
    requires below { turn.rest < RIGHT_ANGLE }
    ensures { Makes result (spec.even_figure turn primitive.now.form primitive.now.lengths.now parameters.now unit at) }
{
    if let Form::Outline(edges) = primitive.form {
        return outline_figure(alloc, primitive, edges, parameters, unit, turn, at);
    }
    match primitive.sketch(parameters, unit) {
        Ok(Some(sketch)) => sketched(alloc, turn, at, sketch),
        Ok(None) => Ok(None),
        Err(fault) => Err(FigureFault::Macro(fault)),
    }
}

/// What a primitive of a macro flashes at a spot within 1 m of 0, with the parameters of an aperture in their unit: its figure about the
/// origin of the macro, turned counterclockwise about it and moved to the spot. `None` where it has no image.
///
/// The fault of its rotation comes first, then that of its lengths, then `OutOfRange`, where an end, a corner or a middle is over 1 m from 0
/// in x or y before the turn that quarter turns leave.
#[tactic(auto, unfolding(crate::specs::Primitives::primitive_figure))]
pub fn primitive_at(
    alloc: Global,
    primitive: &Primitive,
    parameters: &[Decimal],
    unit: Unit,
    at: Spot,
) -> Result<Option<Anchored>, FigureFault>
    requires placed { IsPlaced at }
    ensures { Makes result (spec.primitive_figure (plain_primitive primitive.now) parameters.now unit at) }
{
    let turn = match primitive.turned(parameters) {
        Ok(turn) => turn,
        Err(fault) => return Err(FigureFault::Macro(fault)),
    };
    if primitive.is_fine(parameters, unit) {
        odd_figure(primitive, parameters, unit, turn, at)
    } else {
        even_figure(alloc, primitive, parameters, unit, turn, at)
    }
}
