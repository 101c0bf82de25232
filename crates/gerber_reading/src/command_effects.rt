//! What the tables of all dialects share: conditions of their rows, and what is in force behind a command.
ghost use Rattle.std.specs.Prelude.{◌≡◌, ◌≤◌, true, IfOk, IfSome, Option, Some, None};
ghost use Rattle.planar.specs.Plane.{IsPlaced, IsReached};
ghost use Rattle.lengths.specs.Decimal.{is_whole, over_power};
ghost use Rattle.lengths.specs.Grid.{position_of};
ghost use Rattle.std.specs.Option.{option_copied};
ghost use Rattle.step_repeat.specs.Repeats.{IsLawful as IsLawfulRepeat};
ghost use Rattle.file_reading.specs.LookingBack.{keep_first};
ghost use Rattle.gerber_reading.specs.After.{after};
ghost use Rattle.gerber_reading.specs.Command.{bending_of, operates, view};
ghost use Rattle.gerber_reading.specs.CommandEffects as spec;
ghost use Rattle.gerber_reading.specs.Lawful.{AreLawfulSettings, IsWhole};
ghost use Rattle.gerber_reading.specs.Reader.{halt_of_copy, halt_of_flash};

use crate::command::{Bending, Code, Command, Format};
use crate::kind::GerberKind;
use crate::settings::Settings;
use apertures::FlashFault;
use board_shapes::MOST_LAYERS;
use file_reading::Halt;
use gerber_words::is_field;
use lengths::decimal::{Len, Unit, whole_position};
use planar::Spot;
use step_repeat::{CopyFault, Repeat};
use texts::is_word;

/// Whether a format is another than the first, if there was one.
pub fn other_format(first: Option<Format>, format: Format) -> bool
    ensures { result ≡ spec.other_format first format }
{
    match first {
        None => false,
        Some(first) => !(first.integers == format.integers && first.decimals == format.decimals),
    }
}

/// Whether the last operation was a draw.
pub fn is_drawing(last: Option<Code>) -> bool
    ensures { result ≡ spec.is_drawing last }
{
    matches!(last, Some(Code::Draw))
}

/// The operation of coordinates: a draw where no code is given.
pub fn code_of(code: Option<Code>) -> Code
    ensures { result ≡ spec.code_of code }
{
    match code {
        None => Code::Draw,
        Some(code) => code,
    }
}

/// Whether the command is the file's proper end.
pub fn is_finish(command: &Command) -> bool
    ensures { result ≡ spec.is_finish (view command.now) }
{
    matches!(command, Command::Finish)
}

/// The block that a step and repeat word opens, or none where the word is `SR` alone; or its fault.
#[tactic(auto, unfolding(crate::specs::CommandEffects::next_block))]
pub fn next_block(unit: Option<Unit>, text: &[u8]) -> Result<Option<Repeat>, GerberKind>
    ensures value { result ≡ spec.next_block unit text.now }
    ensures lawful { IfOk result (λ next. IfSome next IsLawfulRepeat) }
{
    if is_word(text, b"SR") {
        return Ok(None);
    }
    let Some(unit) = unit else {
        return Err(GerberKind::MissingUnit);
    };
    let next = Repeat::read(text, unit)?;
    Ok(next)
}

/// Whether the fields of a file's function name this layer of copper.
pub fn is_of_layer(function: Option<&[u8]>, field: Option<&[u8]>, layer: u8) -> bool
    requires { layer ≤ MOST_LAYERS }
    ensures { result ≡ spec.is_of_layer (option_copied function.entry) (option_copied field.entry) layer }
{
    if !is_field(function, b"Copper") {
        return false;
    }
    if layer < 10 {
        is_field(field, &[b'L', b'0' + layer])
    } else {
        is_field(field, &[b'L', b'0' + layer / 10, b'0' + layer % 10])
    }
}

// Where a coordinate leads. It is inlined into its callers, and they into the operation, so that settings and numbers are not copied.
#[inline(always)]
fn position(format: Format, unit: Unit, digits: &[u8]) -> Result<Len, GerberKind>
    requires decimals { format.decimals ≤ 7 }
    requires whole { is_whole digits.now ≡ true }
    ensures { result ≡ spec.gridded (position_of (over_power digits.now format.decimals) unit) }
{
    match whole_position(digits, format.decimals, unit) {
        Ok(len) => Ok(len),
        Err(fault) => Err(fault.choose(GerberKind::OffGrid, GerberKind::OutOfRange)),
    }
}

/// The current point in x or in y, in u.
#[derive(Clone, Copy)]
pub struct Here {
    pub u: i64,
}

/// Where a coordinate leads, in u, and here where none is named; or its fault.
#[inline(always)]
#[tactic(auto, unfolding(crate::specs::CommandEffects::coordinate))]
pub fn coordinate(
    format: Format,
    unit: Unit,
    here: Here,
    digits: Option<&[u8]>,
) -> Result<i64, GerberKind>
    requires decimals { format.decimals ≤ 7 }
    requires whole { IsWhole (option_copied digits) }
    requires here { IsReached here.u }
    ensures value { result ≡ spec.coordinate format unit here.u (option_copied digits.entry) }
    ensures reached { IfOk result IsReached }
{
    match digits {
        None => Ok(here.u),
        Some(digits) => {
            let len = position(format, unit, digits)?;
            Ok(len.u())
        },
    }
}

/// Where an operation leads, in u, by the current point for a coordinate that is not named; or its
/// fault.
#[inline(always)]
#[tactic(auto, unfolding(crate::specs::CommandEffects::target))]
pub fn target(settings: Settings, x: Option<&[u8]>, y: Option<&[u8]>) -> Result<Spot, GerberKind>
    requires lawful { AreLawfulSettings settings }
    requires x_whole { IsWhole (option_copied x) }
    requires y_whole { IsWhole (option_copied y) }
    ensures value { result ≡ spec.target settings (option_copied x.entry) (option_copied y.entry) }
    ensures placed { IfOk result IsPlaced }
{
    let Some(format) = settings.format else {
        return Err(GerberKind::MissingFormat);
    };
    let Some(unit) = settings.unit else {
        return Err(GerberKind::MissingUnit);
    };
    let x = coordinate(format, unit, Here { u: settings.at.x }, x)?;
    let y = coordinate(format, unit, Here { u: settings.at.y }, y)?;
    Ok(Spot { x, y })
}

// What was set first.
fn keep_first<T: Copy>(first: Option<T>, set: T) -> Option<T>
    ensures { result ≡ keep_first (Some set) first }
{
    match first {
        None => Some(set),
        Some(first) => Some(first),
    }
}

/// Takes the settings on past a command that has no fault, by where it leads and the block that it opens. Only what the command
/// sets is written.
pub fn go_behind(settings: &mut Settings, command: &Command, to: Option<Spot>, next: Option<Repeat>)
    ensures { settings.new ≡ after settings.old (view command.now) to next }
{
    match *command {
        Command::Format(format) => settings.format = keep_first(settings.format, format),
        Command::Unit(unit) => settings.unit = keep_first(settings.unit, unit),
        Command::Select(n) => settings.selected = Some(n),
        Command::Repeat(_) => settings.block = next,
        Command::OpenRegion => settings.region = true,
        Command::CloseRegion => settings.region = false,
        Command::Operate(_, _, code, bending) => perform(settings, code, bending, to),
        Command::Curve(curve) => settings.curve = curve,
        Command::Quadrants(quadrants) => settings.quadrants = Some(quadrants),
        Command::End => settings.ended = true,
        _ => (),
    }
}

fn perform(settings: &mut Settings, code: Option<Code>, bending: Bending, to: Option<Spot>)
    ensures { settings.new ≡ after settings.old (operates None None code (bending_of bending.entry)) to None }
{
    if let Some(to) = to {
        settings.at = to;
        settings.last = Some(code_of(code));
        if let Some(curve) = bending.curve {
            settings.curve = curve;
        }
    }
}

/// What stops the reader where a flash fails.
pub fn halt_of_flash(fault: FlashFault) -> Halt<GerberKind>
    ensures { result ≡ halt_of_flash fault }
{
    match fault {
        FlashFault::OutOfRange => Halt::Fault(GerberKind::OutOfRange),
        FlashFault::NoMemory => Halt::NoMemory,
    }
}

/// What stops the reader where the copies of a block fail.
pub fn halt_of_copy(fault: CopyFault) -> Halt<GerberKind>
    ensures { result ≡ halt_of_copy fault }
{
    match fault {
        CopyFault::TooManyPieces => Halt::Fault(GerberKind::TooManyPieces),
        CopyFault::TooManyEdges => Halt::Fault(GerberKind::TooManyVertices),
        CopyFault::OutOfRange => Halt::Fault(GerberKind::OutOfRange),
        CopyFault::NoMemory => Halt::NoMemory,
    }
}
