//! The table of lines: what each does, or its fault. The rows themselves are calls of the reader.
ghost use Rattle.std.specs.Prelude.{◌≡◌, IfOk, Option};
ghost use Rattle.planar.specs.Plane.{IsReached};
ghost use Rattle.ipc356_records.specs.Line.{view};
ghost use Rattle.ipc356_records.specs.Reader.{IsFit, shown, showing};
ghost use Rattle.ipc356_records.specs.declared.reader.Reader.{Reader};
ghost use Rattle.ipc356_records.specs.RecordEffects as spec;
ghost use Rattle.ipc356_records.specs.RecordEffects.{stays};

use crate::effect::Effect;
use crate::kind::RecordKind;
use crate::line::{Coordinate, RecordLine, TestFields};
use crate::reader::Reader;
use lengths::decimal::Unit;
use planar::{METRE, Spot};

fn step_of(unit: Unit) -> u64
    ensures { result ≡ spec.step_of unit }
{
    match unit {
        Unit::Mm => 10_000,
        Unit::Inch => 25_400,
    }
}

/// The place of a coordinate, in u: a step is 10,000 u (0.001 mm) or 25,400 u (0.0001 inch). `OutOfRange` where it is
/// over 1 m from 0.
#[tactic(auto, unfolding(crate::specs::RecordEffects::placed))]
pub fn placed(unit: Unit, coordinate: Coordinate) -> Result<i64, RecordKind>
    ensures value { result ≡ spec.placed unit coordinate }
    ensures reached { IfOk result IsReached }
{
    let amount = u64::from(coordinate.steps) * step_of(unit);
    if amount > METRE {
        return Err(RecordKind::OutOfRange);
    }
    let amount = amount as i64;
    Ok(if coordinate.negative { -amount } else { amount })
}

/// An access code from 0 to the number of layers.
pub fn within(layers: u8, access: Option<u32>) -> Option<u32>
    ensures value { result ≡ spec.within layers access }
{
    let access = access?;
    if access <= u32::from(layers) {
        Some(access)
    } else {
        None
    }
}

/// The value of a field, or its fault where it is amiss.
pub fn needed<T>(why: RecordKind, value: Option<T>) -> Result<T, RecordKind>
    ensures { result ≡ spec.needed why value }
{
    match value {
        None => Err(why),
        Some(value) => Ok(value),
    }
}

/// What the parameter `UNITS` does, by the unit before it: `BadUnits` where its words are amiss, `UnitsTwice` where
/// there was one.
#[tactic(auto, unfolding(crate::specs::RecordEffects::set_unit))]
pub fn set_unit<'a>(before: Option<Unit>, unit: Option<Unit>) -> Result<Effect<'a>, RecordKind>
    ensures value { showing result ≡ spec.set_unit before unit }
    ensures fit { (r : Reader) → IfOk result (λ e. IsFit r (shown e)) }
{
    match unit {
        None => Err(RecordKind::BadUnits),
        Some(unit) => match before {
            None => Ok(Effect::Sets(unit)),
            Some(_) => Err(RecordKind::UnitsTwice),
        },
    }
}

/// Behind the end code only blank lines and the file's end may stand.
pub fn behind<'a>(form: &RecordLine) -> Result<Effect<'a>, RecordKind>
    ensures value { showing result ≡ spec.behind (view form.now) }
    ensures still { IfOk result (λ e. shown e ≡ stays) }
{
    match form {
        RecordLine::Blank | RecordLine::Finish => Ok(Effect::Stays),
        _ => Err(RecordKind::AfterEnd),
    }
}
