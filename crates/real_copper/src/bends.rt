//! The bend of a draw, by what is in force (Gerber Layer Format Specification, 4.7 and 4.8).
ghost use Rattle.gerber_reading.specs.Command.{bending_of};
ghost use Rattle.gerber_reading.specs.CommandEffects as effects;
ghost use Rattle.gerber_reading.specs.Lawful.{AreLawfulSettings, IsWhole};
ghost use Rattle.planar.specs.Plane.{IsPlaced, IsReached};
ghost use Rattle.real_copper.specs.Arcs as spec;
ghost use Rattle.real_copper.specs.Centres.{IsLawfulDraw};
ghost use Rattle.real_copper.specs.Draws.{IsNearBend};
ghost use Rattle.std.specs.Option.{option_copied};
ghost use Rattle.std.specs.Prelude.{◌≡◌, ◌≤◌, pos, IfOk, Some};

use crate::centres::{Draw, moved};
use crate::draw::Bend;
use crate::kind::{RealKind, gerber};
use gerber_layer::is_number_if;
use gerber_reading::{Bending, Curve, Format, GerberKind, Here, Quadrants, Settings, coordinate};
use lengths::decimal::Unit;
use planar::{Spot, is_placed, is_same};

fn offset(format: Format, unit: Unit, digits: Option<&[u8]>) -> Result<i64, RealKind>
    requires decimals { format.decimals ≤ 7 }
    requires whole { IsWhole (option_copied digits) }
    ensures value { result ≡ spec.as_real (effects.coordinate format unit (pos 0) (option_copied digits.entry)) }
    ensures reached { IfOk result IsReached }
{
    match coordinate(format, unit, Here { u: 0 }, digits) {
        Ok(u) => Ok(u),
        Err(kind) => Err(gerber(kind)),
    }
}

/// The way that the offsets of a word say, in u; one that is missing is 0.
#[tactic(auto, unfolding(crate::specs::Arcs::way_of))]
fn way_of(format: Format, unit: Unit, offsets: &Bending) -> Result<Spot, RealKind>
    requires decimals { format.decimals ≤ 7 }
    requires i { IsWhole (bending_of offsets.now).i }
    requires j { IsWhole (bending_of offsets.now).j }
    ensures value { result ≡ spec.way_of format unit (bending_of offsets.now) }
    ensures placed { IfOk result IsPlaced }
{
    let x = offset(format, unit, offsets.i)?;
    let y = offset(format, unit, offsets.j)?;
    Ok(Spot { x, y })
}

// With the centre this way from the start.
fn bend_to(draw: &Draw, way: Spot) -> Result<Option<Bend>, RealKind>
    requires lawful { IsLawfulDraw draw.now }
    requires way { IsPlaced way }
    ensures value { result ≡ spec.bend_to draw.now way }
    ensures near { IfOk result IsNearBend }
{
    let centre = moved(draw.start, way);
    if is_placed(centre) {
        Ok(Some(Bend {
            clockwise: draw.clockwise,
            centre,
        }))
    } else {
        Err(gerber(GerberKind::OutOfRange))
    }
}

fn quarter_bend(draw: &Draw, way: Spot) -> Result<Option<Bend>, RealKind>
    requires lawful { IsLawfulDraw draw.now }
    requires way { IsPlaced way }
    ensures value { result ≡ spec.bend_in Quadrants.Single draw.now way }
    ensures near { IfOk result IsNearBend }
{
    if is_same(draw.start, draw.end) {
        return Ok(None);
    }
    match draw.choice(way) {
        Some(way) => bend_to(draw, way),
        None => Err(RealKind::NoCentre),
    }
}

fn bend_in(quadrants: Quadrants, draw: &Draw, way: Spot) -> Result<Option<Bend>, RealKind>
    requires lawful { IsLawfulDraw draw.now }
    requires way { IsPlaced way }
    ensures value { result ≡ spec.bend_in quadrants draw.now way }
    ensures near { IfOk result IsNearBend }
{
    match quadrants {
        Quadrants::Multi => bend_to(draw, way),
        Quadrants::Single => quarter_bend(draw, way),
    }
}

/// Whether the offsets of a word are numbers, where there are some.
fn are_numbers(offsets: &Bending) -> bool
    ensures { result ≡ spec.are_numbers (bending_of offsets.now) }
{
    is_number_if(offsets.i) && is_number_if(offsets.j)
}

/// The bend of an arc.
#[tactic(auto, unfolding(crate::specs::Arcs::arc_to))]
fn arc_to(
    settings: &Settings,
    offsets: &Bending,
    clockwise: bool,
    to: Spot,
) -> Result<Option<Bend>, RealKind>
    requires lawful { AreLawfulSettings settings.now }
    requires to { IsPlaced to }
    ensures value { result ≡ spec.arc_to settings.now (bending_of offsets.now) clockwise to }
    ensures near { IfOk result IsNearBend }
{
    if offsets.more || !are_numbers(offsets) {
        return Err(RealKind::OffsetsAmiss);
    }
    if offsets.i.is_none() && offsets.j.is_none() {
        return Err(RealKind::NoOffsets);
    }
    let Some(quadrants) = settings.quadrants else {
        return Err(RealKind::NoQuadrants);
    };
    let Some(format) = settings.format else {
        return Err(gerber(GerberKind::MissingFormat));
    };
    let Some(unit) = settings.unit else {
        return Err(gerber(GerberKind::MissingUnit));
    };
    let way = way_of(format, unit, offsets)?;
    let draw = Draw {
        clockwise,
        start: settings.at,
        end: to,
        decimals: format.decimals,
        unit,
    };
    bend_in(quadrants, &draw, way)
}

/// None, where an operation that is no arc has no offsets.
pub fn no_arc(offsets: &Bending) -> Result<Option<Bend>, RealKind>
    ensures value { result ≡ spec.no_arc (bending_of offsets.now) }
    ensures near { IfOk result IsNearBend }
{
    if offsets.i.is_some() || offsets.j.is_some() || offsets.more {
        Err(RealKind::OffsetsAmiss)
    } else {
        Ok(None)
    }
}

fn bend_by(
    curve: Curve,
    settings: &Settings,
    offsets: &Bending,
    to: Spot,
) -> Result<Option<Bend>, RealKind>
    requires lawful { AreLawfulSettings settings.now }
    requires to { IsPlaced to }
    ensures value { result ≡ spec.bend_by curve settings.now (bending_of offsets.now) to }
    ensures near { IfOk result IsNearBend }
{
    match curve {
        Curve::Line => no_arc(offsets),
        Curve::Clockwise => arc_to(settings, offsets, true, to),
        Curve::Counterclockwise => arc_to(settings, offsets, false, to),
    }
}

/// The bend of a draw that leads to a spot, if it has one, or why it is refused: its own curve counts, or the one in force.
pub fn bend_of(settings: &Settings, offsets: &Bending, to: Spot) -> Result<Option<Bend>, RealKind>
    requires lawful { AreLawfulSettings settings.now }
    requires to { IsPlaced to }
    ensures value { result ≡ spec.bend_of settings.now (bending_of offsets.now) to }
    ensures near { IfOk result IsNearBend }
{
    let curve = match offsets.curve {
        Some(curve) => curve,
        None => settings.curve,
    };
    bend_by(curve, settings, offsets, to)
}
