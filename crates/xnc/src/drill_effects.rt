//! The table of lines: what each does, or its fault. The rows themselves are calls of the reader.
ghost use Rattle.std.specs.Prelude.{◌≡◌, ◌==◌, ◌+◌, ◌/◌, ◌^◌, ◌<◌, ◌≤◌, true, false, pos, IfOk, IfSome};
ghost use Rattle.planar.specs.Plane.{IsPlaced, IsReached};
ghost use Rattle.contact.specs.Round.{IsCapsuleRadius};
ghost use Rattle.contact.specs.declared.TheConstants.{MOST_DIAMETER};
ghost use Rattle.lengths.specs.Grid.{position_of, size_of};
ghost use Rattle.xnc.specs.Reader.{shown};
ghost use Rattle.xnc.specs.DrillEffects as spec;

use crate::effect::Effect;
use crate::kind::DrillKind;
use crate::line::{Coordinates, DrillLine};
use crate::settings::{Mode, Settings, Stage};
use contact::MOST_DIAMETER;
use lengths::decimal::{Decimal, Len, Unit};
use planar::Spot;

/// Whether places are drilled.
pub fn is_drilling(mode: Mode) -> bool
    ensures { result ≡ spec.is_drilling mode }
{
    matches!(mode, Mode::Drill)
}

/// Whether the line is `M48`.
pub fn is_start(form: &DrillLine) -> bool
    ensures { result ≡ spec.is_start form.now }
{
    matches!(form, DrillLine::Start)
}

/// Whether the line stands behind `M30`.
pub fn is_ended(stage: Stage) -> bool
    ensures { result ≡ spec.is_ended stage }
{
    matches!(stage, Stage::Ended)
}

fn position(d: Decimal, unit: Unit) -> Result<Len, DrillKind>
    ensures { result ≡ spec.gridded (position_of d unit) }
{
    let len = d.position(unit)?;
    Ok(len)
}

fn size(d: Decimal, unit: Unit) -> Result<Len, DrillKind>
    ensures { result ≡ spec.gridded (size_of d unit) }
{
    let len = d.size(unit)?;
    Ok(len)
}

// A diameter that is not 0 and at most `MOST_DIAMETER`.
fn in_range(size: Len) -> Result<u64, DrillKind>
    ensures value { result ≡ spec.in_range size }
    ensures bound { IfOk result (λ d. d ≤ MOST_DIAMETER) }
{
    let amount = size.u().unsigned_abs();
    if amount == 0 || amount > MOST_DIAMETER {
        return Err(DrillKind::OutOfRange);
    }
    Ok(amount)
}

/// The diameter of a tool, in u: even, above 0 and at most 50 mm; or its fault.
#[tactic(auto, unfolding(crate::specs::DrillEffects::diameter_of))]
pub fn diameter(unit: Option<Unit>, d: Decimal) -> Result<u64, DrillKind>
    ensures value { result ≡ spec.diameter_of unit d }
    ensures bound { IfOk result (λ d. d ≤ MOST_DIAMETER) }
{
    let Some(unit) = unit else {
        return Err(DrillKind::MissingUnit);
    };
    if !d.pointed() {
        return Err(DrillKind::ImpliedDecimals);
    }
    let size = size(d, unit)?;
    in_range(size)
}

// The value of a coordinate.
#[tactic(auto, unfolding(crate::specs::DrillEffects::value_of))]
fn value(unit: Unit, d: Decimal) -> Result<i64, DrillKind>
    ensures value { result ≡ spec.value_of unit d }
    ensures reached { IfOk result IsReached }
{
    if d.pointed() {
        let len = position(d, unit)?;
        Ok(len.u())
    } else {
        Err(DrillKind::ImpliedDecimals)
    }
}

/// Where a coordinate that is not named stays, in u: that of the current point, or of a slot's first place. A
/// struct, since a signed number by itself comes wrapped into the clauses of a call.
#[derive(Clone, Copy)]
struct Here {
    u: i64,
}

// Where a coordinate leads.
fn coordinate(unit: Unit, here: Here, to: Option<Decimal>) -> Result<i64, DrillKind>
    requires { IsReached here.u }
    ensures value { result ≡ spec.coordinate unit here.u to }
    ensures reached { IfOk result IsReached }
{
    match to {
        None => Ok(here.u),
        Some(d) => value(unit, d),
    }
}

/// Where a place leads, in u: a coordinate that is not named stays at that of `here`; or its fault.
#[tactic(auto, unfolding(crate::specs::DrillEffects::target))]
pub fn target(unit: Option<Unit>, here: Spot, to: Coordinates) -> Result<Spot, DrillKind>
    requires { IsPlaced here }
    ensures value { result ≡ spec.target unit here to }
    ensures placed { IfOk result IsPlaced }
{
    let Some(unit) = unit else {
        return Err(DrillKind::MissingUnit);
    };
    let x = coordinate(unit, Here { u: here.x }, to.x)?;
    let y = coordinate(unit, Here { u: here.y }, to.y)?;
    Ok(Spot { x, y })
}

/// Half a diameter, in u; 0 where there is none.
pub fn half(diameter: Option<u64>) -> i64
    requires { IfSome diameter (λ d. d ≤ MOST_DIAMETER) }
    ensures value { result ≡ spec.half diameter }
    ensures radius { IsCapsuleRadius result }
{
    match diameter {
        None => 0,
        Some(d) => (d / 2) as i64,
    }
}

// Where an effect leads.
fn gone(here: Spot, effect: &Effect) -> Spot
    ensures { result ≡ spec.gone here (shown effect.now) }
{
    match effect {
        Effect::Moves(to) => *to,
        Effect::Drills(to, _) => *to,
        _ => here,
    }
}

/// The settings behind a line that has no fault.
pub fn after(settings: Settings, form: &DrillLine, effect: &Effect) -> Settings
    ensures { result ≡ spec.after settings form.now (shown effect.now) }
{
    let at = gone(settings.at, effect);
    match *form {
        DrillLine::Start => settings.in_stage(Stage::Header),
        DrillLine::HeaderEnd => settings.in_stage(Stage::Body),
        DrillLine::End => settings.in_stage(Stage::Ended),
        DrillLine::Unit(unit) => Settings {
            unit: Some(unit),
            ..settings
        },
        DrillLine::NoTool => settings.with_tool(None),
        DrillLine::Select(n) => settings.with_tool(Some(n)),
        DrillLine::Lower => settings.with_down(true),
        DrillLine::Raise => settings.with_down(false),
        DrillLine::Drill => Settings {
            mode: Mode::Drill,
            ..settings
        },
        DrillLine::Rout(_) => Settings {
            mode: Mode::Rout,
            down: false,
            at,
            ..settings
        },
        DrillLine::Straight(_) | DrillLine::Hit(_) | DrillLine::Slot(_, _) => Settings {
            at,
            ..settings
        },
        _ => settings,
    }
}
