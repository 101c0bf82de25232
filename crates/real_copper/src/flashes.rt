//! What an aperture of real copper flashes (Gerber Layer Format Specification, 4.4).
ghost use Rattle.apertures.specs.Flash.{IsLawful as IsExact, flash_of};
ghost use Rattle.board_shapes.specs.Figures.{figure_of};
ghost use Rattle.planar.specs.Plane.{IsPlaced};
ghost use Rattle.planar.specs.declared.TheConstants.{METRE};
ghost use Rattle.real_copper.specs.Apertures.{AreSizes, IsLawful};
ghost use Rattle.real_copper.specs.Figures.{exact, real_edges};
ghost use Rattle.real_copper.specs.Flashed.{Flashes};
ghost use Rattle.real_copper.specs.Flashes as spec;
ghost use Rattle.real_copper.specs.Flashes.{IsAbout};
ghost use Rattle.real_copper.specs.Shapes.{real_figure};
ghost use Rattle.real_shapes.specs.Settled.{is_settled};
ghost use Rattle.std.specs.Prelude.{true, IfOk, IfErr, pos, ◌≡◌, ◌≤◌, ◌<◌, ◌^◌, ◌*◌};

use crate::anchored::Anchored;
use crate::aperture::{OddForm, RealAperture};
use crate::moving::is_anchored;
use apertures::{Aperture, FlashFault};
use arc_regions::{Bend, Part, Region};
use arcs::Arc;
use board_shapes::{Shape, corners_around};
use contact::Bounds;
use fine_figures::{FineFigure, FineStroke, HoledFigure};
use planar::Spot;
use real_shapes::RealShape;
use std::alloc::Global;

/// A shape that is taken exactly.
pub fn plain(shape: Shape) -> Anchored
    ensures { real_figure result.shape ≡ exact (figure_of shape) }
{
    Anchored {
        shape: RealShape::Plain(shape),
    }
}

fn way(n: u64) -> i64
    requires { n ≤ 4 * METRE }
    ensures { result ≡ pos n }
{
    n as i64
}

// In half u, the spots so far to the left of and below a spot, and to the right of and above it.
fn around(middle: Spot, w: u64, h: u64) -> (Spot, Spot)
    requires about { IsAbout middle }
    requires w { w ≤ 4 * METRE }
    requires h { h ≤ 4 * METRE }
    ensures low { result.0 ≡ spec.half_below middle w h }
    ensures high { result.1 ≡ spec.half_above middle w h }
{
    let across = way(w);
    let up = way(h);
    let low = Spot {
        x: middle.x + middle.x - across,
        y: middle.y + middle.y - up,
    };
    let high = Spot {
        x: middle.x + middle.x + across,
        y: middle.y + middle.y + up,
    };
    (low, high)
}

/// A rectangle about its middle.
pub fn sides_about(middle: Spot, w: u64, h: u64) -> Bounds
    requires about { IsAbout middle }
    requires w { w ≤ 4 * METRE }
    requires h { h ≤ 4 * METRE }
    ensures { result ≡ spec.sides_about middle w h }
{
    let (low, high) = around(middle, w, h);
    Bounds {
        left: low.x,
        low: low.y,
        right: high.x,
        high: high.y,
    }
}

/// An obround, or with equal sizes a circle.
pub fn stroke_about(middle: Spot, w: u64, h: u64) -> FineStroke
    requires about { IsAbout middle }
    requires w { w ≤ 4 * METRE }
    requires h { h ≤ 4 * METRE }
    ensures { result ≡ spec.stroke_about middle w h }
{
    if w > h {
        let (a, b) = around(middle, w - h, 0);
        FineStroke { a, b, r: h }
    } else {
        let (a, b) = around(middle, 0, h - w);
        FineStroke { a, b, r: w }
    }
}

fn odd_at(form: OddForm, at: Spot) -> FineFigure
    requires sizes { AreSizes form }
    requires placed { IsPlaced at }
    ensures { result ≡ spec.odd_at form at }
{
    match form {
        OddForm::Circle(d) => FineFigure::Round(stroke_about(at, d, d)),
        OddForm::Rectangle(x, y) => FineFigure::Rectangle(sides_about(at, x, y)),
        OddForm::Obround(x, y) => FineFigure::Round(stroke_about(at, x, y)),
    }
}

// The draw once round a circle with a hole.
fn ring_at(d: u64, hole: u64, at: Spot) -> RealShape
    requires narrow { d ≤ METRE }
    requires hole { hole < d }
    requires placed { IsPlaced at }
    ensures { real_figure result ≡ spec.ring_at d hole at }
{
    let (_, start) = corners_around(at, at, (d + hole) / 2, 0);
    RealShape::ArcDraw(Arc {
        centre: at,
        start,
        end: start,
        width: (d - hole) / 2,
    })
}

// The contour of a rectangle with a hole, from the hole's border on.
fn cut_in(centre: Spot, border: Spot, low: Spot, high: Spot) -> [Part; 8]
    ensures { result ≡ spec.cut_in centre border low high }
{
    let right = Spot {
        x: high.x,
        y: border.y,
    };
    [
        Part::Curved(Bend {
            centre,
            end: border,
            counterclockwise: false,
        }),
        Part::Straight(right),
        Part::Straight(high),
        Part::Straight(Spot {
            x: low.x,
            y: high.y,
        }),
        Part::Straight(low),
        Part::Straight(Spot {
            x: high.x,
            y: low.y,
        }),
        Part::Straight(right),
        Part::Straight(border),
    ]
}

fn frame_at(alloc: Global, x: u64, y: u64, hole: u64, at: Spot) -> Result<RealShape, FlashFault>
    requires width { x ≤ METRE }
    requires height { y ≤ METRE }
    requires hole { hole ≤ METRE }
    requires placed { IsPlaced at }
    ensures value { IfOk result (λ made. real_figure made ≡ spec.frame_at x y hole at) }
    ensures fault { IfErr result (λ why. why ≡ FlashFault.NoMemory) }
{
    let (low, high) = corners_around(at, at, x, y);
    let (_, border) = corners_around(at, at, hole, 0);
    match cut_in(at, border, low, high).as_slice().to_vec(alloc) {
        Ok(parts) => Ok(RealShape::Region(Region {
            start: border,
            parts,
        })),
        Err(_) => Err(FlashFault::NoMemory),
    }
}

fn pierced_at(form: OddForm, hole: u64, at: Spot) -> RealShape
    requires sizes { AreSizes form }
    requires placed { IsPlaced at }
    ensures { real_figure result ≡ spec.pierced_at form hole at }
{
    RealShape::Holed(HoledFigure {
        outline: odd_at(form, at),
        centre: at,
        hole,
    })
}

// The figure, where it is within 1 m of 0.
fn within(shape: RealShape) -> Result<Option<Anchored>, FlashFault>
    requires few { real_edges (real_figure shape) ≤ 4294967295 }
    requires settled { is_settled shape ≡ true }
    ensures { Flashes result (spec.within (real_figure shape)) }
{
    if is_anchored(&shape) {
        Ok(Some(Anchored { shape }))
    } else {
        Err(FlashFault::OutOfRange)
    }
}

fn exact_flash(alloc: Global, aperture: Aperture, at: Spot) -> Result<Option<Anchored>, FlashFault>
    requires lawful { IsExact aperture }
    requires placed { IsPlaced at }
    ensures { Flashes result (spec.as_real (flash_of aperture at)) }
{
    match aperture.flash(alloc, at) {
        Ok(Some(shape)) => Ok(Some(plain(shape))),
        Ok(None) => Ok(None),
        Err(fault) => Err(fault),
    }
}

/// What an aperture flashes at a spot within 1 m of 0; `None` for a circle of diameter 0.
///
/// `OutOfRange` comes exactly where an end, a corner, a middle or the spot at which a ring is begun is over 1 m from 0 in x or y.
pub fn flash(
    alloc: Global,
    aperture: RealAperture,
    at: Spot,
) -> Result<Option<Anchored>, FlashFault>
    requires lawful { IsLawful aperture }
    requires placed { IsPlaced at }
    ensures { Flashes result (spec.real_flash aperture at) }
{
    match aperture {
        RealAperture::Exact(aperture) => exact_flash(alloc, aperture, at),
        RealAperture::Ring(d, hole) => within(ring_at(d, hole.diameter, at)),
        RealAperture::Frame(x, y, hole) => within(frame_at(alloc, x, y, hole.diameter, at)?),
        RealAperture::Odd(form) => within(RealShape::Fine(odd_at(form, at))),
        RealAperture::Pierced(form, hole) => within(pierced_at(form, hole.diameter, at)),
    }
}
