//! Figures about the origin of the macro, before they are turned.
ghost use Rattle.std.specs.Prelude.{◌≡◌, ◌==◌, ◌≤◌, if◌then◌else◌, IfOk, None, Ok, Some, true};
ghost use Rattle.planar.specs.Plane.{IsPlaced};
ghost use Rattle.planar.specs.declared.TheConstants.{METRE};
ghost use Rattle.aperture_macros.specs.Images as spec;
ghost use Rattle.aperture_macros.specs.Sketches.{IsNear, is_disc};

use crate::body_word::{part, past};
use crate::fault::MacroFault;
use crate::primitive::Copper;
use crate::values::{across, diameter, point, size};
use board_shapes::corners_around;
use contact::MOST_DIAMETER;
use lengths::decimal::{Decimal, Unit};
use planar::{Spot, is_same};

/// A figure about the origin, in u: a disc by its centre and its diameter, a rectangle by its lower left
/// and its upper right corner, the stroke of a slanted line by its ends and its width, at most `MOST_DIAMETER`, or a
/// regular polygon by its middle, the diameter of the circle through its corners, in parts of which a u has `PARTS`, and
/// their number.
#[derive(Clone, Copy)]
pub enum Sketch {
    Disc(Spot, u64),
    Rectangle(Spot, Spot),
    Stroke(Spot, Spot, u64),
    Regular(Spot, u64, u32),
}

/// The disc of `d,x,y`.
#[tactic(auto, unfolding(crate::specs::Images::circle_at))]
pub fn circle(text: &[u8], parameters: &[Decimal], unit: Unit) -> Result<Option<Sketch>, MacroFault>
    ensures value { result ≡ spec.circle_at text.now parameters.now unit }
    ensures near { IfOk result IsNear }
    ensures disc { IfOk result (λ sketch. is_disc sketch ≡ true) }
{
    let d = diameter(part(0, text), parameters, unit)?;
    let p = point(past(1, text), parameters, unit)?;
    Ok(if d == 0 {
        None
    } else {
        Some(Sketch::Disc(p, d))
    })
}

/// The rectangle of `w,x,y,x,y`, or the stroke of a slanted line, in either copper.
#[tactic(auto, unfolding(crate::specs::Images::line_at))]
pub fn line(
    copper: Copper,
    text: &[u8],
    parameters: &[Decimal],
    unit: Unit,
) -> Result<Option<Sketch>, MacroFault>
    ensures value { result ≡ spec.line_at copper text.now parameters.now unit }
    ensures any { IfOk result (λ sketch. spec.line_at Copper.Real text.now parameters.now unit ≡ Ok sketch) }
    ensures near { IfOk result IsNear }
{
    let w = size(part(0, text), parameters, unit)?;
    let p = point(past(1, text), parameters, unit)?;
    let q = point(past(3, text), parameters, unit)?;
    line_between(copper, w, p, q)
}

// The same between two points.
#[tactic(auto, unfolding(crate::specs::Images::line_between))]
fn line_between(copper: Copper, w: u64, p: Spot, q: Spot) -> Result<Option<Sketch>, MacroFault>
    requires width { w ≤ METRE }
    requires start { IsPlaced p }
    requires end { IsPlaced q }
    ensures value { result ≡ spec.line_between copper w p q }
    ensures near { IfOk result IsNear }
{
    if p.x == q.x {
        Ok(strip(w, p, q, w, 0))
    } else if p.y == q.y {
        Ok(strip(w, p, q, 0, w))
    } else {
        slanted(copper, w, p, q)
    }
}

// What a line along no axis is.
fn slanted(copper: Copper, w: u64, p: Spot, q: Spot) -> Result<Option<Sketch>, MacroFault>
    requires start { IsPlaced p }
    requires end { IsPlaced q }
    ensures value { result ≡ spec.slanted copper w p q }
    ensures near { IfOk result IsNear }
{
    match copper {
        Copper::Exact => Err(MacroFault::Slanted),
        Copper::Real => if w > MOST_DIAMETER {
            Err(MacroFault::OutOfRange)
        } else {
            Ok(stroke(w, p, q))
        },
    }
}

fn stroke(w: u64, p: Spot, q: Spot) -> Option<Sketch>
    requires width { w ≤ MOST_DIAMETER }
    requires start { IsPlaced p }
    requires end { IsPlaced q }
    ensures value { result ≡ (if w == 0 then None else Some (Sketch.Stroke p q w)) }
    ensures near { IsNear result }
{
    if w == 0 {
        None
    } else {
        Some(Sketch::Stroke(p, q, w))
    }
}

/// The rectangle of `w,h,x,y`.
#[tactic(auto, unfolding(crate::specs::Images::centre_at))]
pub fn centre_line(
    text: &[u8],
    parameters: &[Decimal],
    unit: Unit,
) -> Result<Option<Sketch>, MacroFault>
    ensures value { result ≡ spec.centre_at text.now parameters.now unit }
    ensures near { IfOk result IsNear }
{
    let w = size(part(0, text), parameters, unit)?;
    let h = size(part(1, text), parameters, unit)?;
    let p = point(past(2, text), parameters, unit)?;
    Ok(centred(w, h, p))
}

/// The polygon of `x,y,d`, of so many corners.
#[tactic(auto, unfolding(crate::specs::Images::polygon_at))]
pub fn polygon(
    corners: u32,
    text: &[u8],
    parameters: &[Decimal],
    unit: Unit,
) -> Result<Option<Sketch>, MacroFault>
    requires three { 3 ≤ corners }
    requires twelve { corners ≤ 12 }
    ensures value { result ≡ spec.polygon_at corners text.now parameters.now unit }
    ensures near { IfOk result IsNear }
{
    let p = point(text, parameters, unit)?;
    let d = across(part(2, text), parameters, unit)?;
    Ok(if d == 0 {
        None
    } else {
        Some(Sketch::Regular(p, d, corners))
    })
}

// Whether the one end of a line along an axis is to the left of the other, or below it.
fn is_first(p: Spot, q: Spot) -> bool
    ensures { result ≡ spec.is_first p q }
{
    p.x < q.x || p.y < q.y
}

// What a line along an axis is between its ends: half its width, across or up, is to each side.
fn strip(w: u64, p: Spot, q: Spot, across: u64, up: u64) -> Option<Sketch>
    requires across { across ≤ METRE }
    requires up { up ≤ METRE }
    requires start { IsPlaced p }
    requires end { IsPlaced q }
    ensures value { result ≡ spec.strip w p q across up }
    ensures near { IsNear result }
{
    if w == 0 || is_same(p, q) {
        return None;
    }
    if is_first(p, q) {
        Some(between(p, q, across, up))
    } else {
        Some(between(q, p, across, up))
    }
}

fn centred(w: u64, h: u64, p: Spot) -> Option<Sketch>
    requires width { w ≤ METRE }
    requires height { h ≤ METRE }
    requires placed { IsPlaced p }
    ensures value { result ≡ spec.centred w h p }
    ensures near { IsNear result }
{
    if w == 0 || h == 0 {
        None
    } else {
        Some(between(p, p, w, h))
    }
}

// The rectangle from a lower left spot to an upper right one, with so much more, by halves.
fn between(p: Spot, q: Spot, w: u64, h: u64) -> Sketch
    requires width { w ≤ METRE }
    requires height { h ≤ METRE }
    requires start { IsPlaced p }
    requires end { IsPlaced q }
    ensures value { result ≡ spec.between p q w h }
    ensures near { IsNear (Some result) }
{
    let (low, high) = corners_around(p, q, w, h);
    Sketch::Rectangle(low, high)
}
