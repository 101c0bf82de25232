//! What a line means in `check`'s dialect.
ghost use Rattle.std.specs.Prelude.{◌≡◌};
ghost use Rattle.drill_forms.specs.Meaning as spec;
ghost use Rattle.xnc.specs.declared.line.DrillLine.TheVariants as line;
ghost use Rattle.xnc.specs.declared.settings.Stage.TheVariants.{Header};

use crate::form::{Along, FormLine, Layout, Zeros};
use crate::notes::{Words, told};
use crate::number::Number;
use lengths::decimal::{Decimal, Unit};
use xnc::DrillKind;
use xnc::line::{Coordinates, DrillLine};
use xnc::settings::{Settings, Stage};

fn is_amiss(mixed: Option<bool>, told: Option<bool>, words: Words) -> bool
    ensures { result ≡ spec.is_amiss mixed told words }
{
    match (mixed, told) {
        (Some(false), Some(plated)) => !plated,
        (Some(true), None) => true,
        (None, Some(false)) => words.has_untold,
        (None, None) => words.has_bare,
        _ => false,
    }
}

fn function_amiss(mixed: bool, words: Words) -> bool
    ensures { result ≡ spec.function_amiss mixed words }
{
    if mixed {
        words.has_untold
    } else {
        words.has_bare
    }
}

fn is_zero(d: Decimal) -> bool
    ensures { result ≡ spec.is_zero d }
{
    d.equals(0)
}

fn in_layout(layout: Layout, digits: usize) -> bool
    ensures { result ≡ spec.in_layout layout digits }
{
    if layout.whole > 18 || layout.places > 18 {
        return false;
    }
    digits <= layout.whole + layout.places && layout.whole + layout.places <= 18
}

fn fits(zeros: Zeros, layout: Layout, digits: usize, zero: bool) -> bool
    ensures { result ≡ spec.fits zeros layout digits zero }
{
    match zeros {
        Zeros::Leading => (layout.whole <= digits || zero) && in_layout(layout, digits),
        Zeros::Trailing => in_layout(layout, digits),
    }
}

// How many digits stand behind the point.
fn places_of(zeros: Zeros, layout: Layout, digits: usize) -> usize
    ensures { result ≡ spec.places_of zeros layout digits }
{
    match zeros {
        Zeros::Leading => digits.saturating_sub(layout.whole),
        Zeros::Trailing => layout.places,
    }
}

fn laid_out(zeros: Zeros, layout: Layout, number: Number) -> Decimal
    ensures { result ≡ spec.laid_out zeros layout number.value number.digits }
{
    let d = number.value();
    let digits = number.digits();
    let zero = is_zero(d);
    if fits(zeros, layout, digits, zero) {
        number.with_places(places_of(zeros, layout, digits))
    } else {
        d
    }
}

fn implied(zeros: Option<Zeros>, layout: Option<Layout>, number: Number) -> Decimal
    ensures { result ≡ spec.implied zeros layout number.value number.digits }
{
    match zeros {
        None => number.value(),
        Some(zeros) => match layout {
            None => number.value(),
            Some(layout) => laid_out(zeros, layout, number),
        },
    }
}

fn meant(words: Words, number: Number) -> Decimal
    ensures { result ≡ spec.meant words number }
{
    let d = number.value();
    if d.pointed() || words.two_ways {
        d
    } else {
        implied(words.zeros, words.layout, number)
    }
}

fn meant_if(words: Words, number: Option<Number>) -> Option<Decimal>
    ensures { result ≡ spec.meant_if words number }
{
    match number {
        None => None,
        Some(number) => Some(meant(words, number)),
    }
}

fn place_of(words: Words, along: Along) -> Coordinates
    ensures { result ≡ spec.place_of words along }
{
    Coordinates {
        x: meant_if(words, along.x),
        y: meant_if(words, along.y),
    }
}

fn is_unit(set: Option<Unit>, unit: Unit) -> bool
    ensures { result ≡ spec.is_unit set unit }
{
    match set {
        None => false,
        Some(set) => set == unit,
    }
}

fn is_body(stage: Stage) -> bool
    ensures { result ≡ spec.is_body stage }
{
    matches!(stage, Stage::Body)
}

fn is_header(stage: Stage) -> bool
    ensures { result ≡ spec.is_header stage }
{
    matches!(stage, Stage::Header)
}

fn is_outside(stage: Stage) -> bool
    ensures { result ≡ spec.is_outside stage }
{
    matches!(stage, Stage::Opening | Stage::Ended)
}

fn idle(stage: Stage) -> DrillLine
    ensures { result ≡ spec.idle stage }
{
    match stage {
        Stage::Body => DrillLine::Blank,
        _ => DrillLine::Format,
    }
}

fn unit_in(settings: Settings, unit: Unit) -> DrillLine
    ensures { result ≡ spec.unit_in settings unit }
{
    if !is_body(settings.stage) {
        return DrillLine::Unit(unit);
    }
    if is_unit(settings.unit, unit) {
        DrillLine::Blank
    } else {
        DrillLine::Unknown
    }
}

fn tool_in(words: Words, n: u32, d: Decimal) -> DrillLine
    ensures { result ≡ spec.said_in Header words (line.Tool n d) }
{
    if is_amiss(words.mixed, told(words), words) {
        DrillLine::Misfit(DrillKind::MixedPlating)
    } else {
        DrillLine::Tool(n, d)
    }
}

fn said_in(stage: Stage, words: Words, said: &DrillLine) -> DrillLine
    ensures { result ≡ spec.said_in stage words said.now }
{
    match *said {
        DrillLine::Tool(n, d) => tool_in(words, n, d),
        DrillLine::HeaderEnd if is_outside(stage) => DrillLine::Blank,
        DrillLine::Drill if is_header(stage) => DrillLine::Format,
        DrillLine::Format => idle(stage),
        _ => *said,
    }
}

fn type_in(stage: Stage, plated: bool) -> DrillLine
    ensures { result ≡ spec.type_in stage plated }
{
    if is_body(stage) && !plated {
        DrillLine::Misfit(DrillKind::MixedPlating)
    } else {
        DrillLine::Blank
    }
}

/// What a line means, by the settings and the words in force.
#[tactic(auto, unfolding(crate::specs::Meaning::line_in))]
pub fn line_in(settings: Settings, words: Words, form: &FormLine) -> DrillLine
    ensures { result ≡ spec.line_in settings words form.now }
{
    match *form {
        FormLine::Says(said) => said_in(settings.stage, words, &said),
        FormLine::Rout(a) => DrillLine::Rout(place_of(words, a)),
        FormLine::Straight(a) => DrillLine::Straight(place_of(words, a)),
        FormLine::Hit(a) => DrillLine::Hit(place_of(words, a)),
        FormLine::Slot(a, b) => DrillLine::Slot(place_of(words, a), place_of(words, b)),
        FormLine::Units(unit, _, _) => unit_in(settings, unit),
        FormLine::Counts(_) | FormLine::Untold => DrillLine::Blank,
        FormLine::Lasting(plated) => type_in(settings.stage, plated),
        FormLine::Next(plated) => type_in(settings.stage, plated),
        FormLine::Function(mixed) if function_amiss(mixed, words) => DrillLine::Misfit(
            DrillKind::MixedPlating,
        ),
        FormLine::Function(_) => DrillLine::Blank,
        FormLine::Idle => idle(settings.stage),
        FormLine::Ends => DrillLine::HeaderEnd,
        FormLine::Lift if settings.down => DrillLine::Raise,
        FormLine::Lift => idle(settings.stage),
    }
}
