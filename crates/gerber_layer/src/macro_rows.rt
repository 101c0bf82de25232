//! The rows of the table of commands where a file may have macros.
ghost use Rattle.std.specs.Prelude.{◌≡◌, true, false, IfErr, IfOk, Ok, Some};
ghost use Rattle.board_shapes.specs.Pieces.{plain_pieces};
ghost use Rattle.gerber_reading.specs.Command.{view};
ghost use Rattle.gerber_reading.specs.Lawful.{IsLawfulCommand};
ghost use Rattle.gerber_layer.specs.MacroReader.{showing_any};
ghost use Rattle.gerber_layer.specs.MacroTable as spec;
ghost use Rattle.apertures.specs.Definition.{aperture_at};
ghost use Rattle.gerber_layer.specs.MacroTable.{as_macro, gerber};
ghost use Rattle.gerber_layer.specs.Reader.{AreBlank, IsFit, IsLawfulReader, Stops, body_of, known_of, macros_in, shown};
ghost use Rattle.gerber_layer.specs.Tools.{macro_named};
ghost use Rattle.gerber_layer.specs.CommandEffects.{concludes, row, stays};

use crate::effect::Effect;
use crate::macro_kind::FlattenKind;
use crate::radii::Radii;
use crate::reader::{PlainReader, define, effect};
use aperture_macros::{Copper, Primitive, read_body};
use apertures::{ApertureFault, name_text, number, read_aperture};
use file_reading::Halt;
use gerber_reading::{Command, GerberKind, MOST_APERTURES, Tool, is_finish, read_parameters};
use lengths::decimal::{Decimal, Unit};
use std::alloc::Global;
use texts::{before_byte, is_word};

/// What a command does where the file may have macros, or what stops the reader there.
pub type MacroRow<'a> = Result<Effect<'a>, Halt<FlattenKind>>;

// A name that is none, or that of a standard aperture.
fn is_reserved(name: &[u8]) -> bool
    ensures { result ≡ spec.is_reserved name.now }
{
    if name.is_empty() {
        return true;
    }
    is_word(name, b"C") || is_word(name, b"R") || is_word(name, b"O") || is_word(name, b"P")
}

// Whether the name of an `AD` word is none of a standard aperture.
fn is_of_macro(text: &[u8], unit: Unit) -> bool
    ensures { result ≡ spec.is_of_macro (aperture_at text.now unit) }
{
    matches!(read_aperture(text, unit), Err(ApertureFault::Macro))
}

// Judges the primitives of a macro with parameters, and marks those that have no image with them.
#[tactic(auto, unfolding(crate::specs::MacroTable::all_judged))]
fn judge(
    alloc: Global,
    body: &[Primitive],
    parameters: &[Decimal],
    unit: Unit,
) -> Result<Vec<bool>, Halt<FlattenKind>>
    ensures ok { IfOk result (λ marks. spec.all_judged (body_of body.now) parameters.now unit ≡ Ok tt) }
    ensures blank { IfOk result (λ marks. AreBlank (body_of body.now) parameters.now unit marks.items) }
    ensures halt { IfErr result (Stops (as_macro (spec.all_judged (body_of body.now) parameters.now unit))) }
{
    let mut marks = Vec::new(alloc);
    for primitive in body {
        let has_image = match primitive.has_image(Copper::Exact, parameters, unit) {
            Ok(has_image) => has_image,
            Err(fault) => return Err(Halt::Fault(FlattenKind::from(fault))),
        };
        if let Err(_) = marks.push(!has_image) {
            return Err(Halt::NoMemory);
        }
    }
    Ok(marks)
}

// What a command behind the end of the file does.
fn behind_end<'a>(command: &Command<'a>) -> MacroRow<'a>
    ensures ok { IfOk result (λ e. (e ≡ Effect.Stays) × (spec.behind_end (view command.now) ≡ Ok stays)) }
    ensures halt { IfErr result (Stops (spec.behind_end (view command.now))) }
{
    if is_finish(command) {
        Ok(Effect::Stays)
    } else {
        Err(Halt::Fault(FlattenKind::Gerber(GerberKind::AfterEnd)))
    }
}

// Whether a word is of the file's function.
fn is_function(command: &Command) -> bool
    ensures { result ≡ spec.is_function (view command.now) }
{
    matches!(command, Command::Function(_, _))
}

// `AM`.
#[tactic(auto, unfolding(crate::specs::MacroTable::name_macro))]
fn name_macro<'a>(reader: &PlainReader<'a>, name: &'a [u8]) -> Result<Effect<'a>, FlattenKind>
    ensures value { showing_any (known_of reader.now) result ≡ spec.name_macro (known_of reader.now) name.now }
    ensures fit { IfOk result (IsFit reader.now.dictionary) }
{
    if is_reserved(name) {
        return Err(FlattenKind::BadMacro);
    }
    if reader.dictionary.has_macro(name) {
        return Err(FlattenKind::MacroTwice);
    }
    Ok(Effect::Begins(name))
}

// A word of a macro's body.
#[tactic(auto, unfolding(crate::specs::MacroTable::fill_macro))]
fn fill_macro<'a>(reader: &PlainReader<'a>, text: &'a [u8]) -> Result<Effect<'a>, FlattenKind>
    ensures value { showing_any (known_of reader.now) result ≡ spec.fill_macro (known_of reader.now) text.now }
    ensures fit { IfOk result (IsFit reader.now.dictionary) }
{
    let room = reader.dictionary.has_room();
    match read_body(Copper::Exact, text) {
        Ok(None) => Ok(Effect::Stays),
        Ok(Some(primitive)) => if room {
            Ok(Effect::Fills(primitive))
        } else {
            Err(FlattenKind::BadMacro)
        },
        Err(fault) => if room {
            Err(FlattenKind::from(fault))
        } else {
            Err(FlattenKind::BadMacro)
        },
    }
}

// An aperture of a macro.
#[tactic(auto, unfolding(crate::specs::MacroTable::compose))]
fn compose<'a>(reader: &PlainReader<'a>, alloc: Global, text: &'a [u8], unit: Unit) -> MacroRow<'a>
    requires { spec.is_of_macro (aperture_at text.now unit) ≡ true }
    ensures ok { IfOk result (λ e. gerber (shown (known_of reader.now) e) ≡ spec.compose (known_of reader.now) text.now unit) }
    ensures fit { IfOk result (IsFit reader.now.dictionary) }
    ensures halt { IfErr result (Stops (spec.compose (known_of reader.now) text.now unit)) }
{
    let word = name_text(text);
    let name = before_byte(word, b',');
    let Some(body) = reader.dictionary.body(name) else {
        return Err(Halt::Fault(FlattenKind::NoMacro));
    };
    let Ok(parameters) = read_parameters(alloc, word) else {
        return Err(Halt::NoMemory);
    };
    let Some(parameters) = parameters else {
        return Err(Halt::Fault(FlattenKind::BadMacro));
    };
    compose_as(reader, alloc, number(text), name, body, parameters, unit)
}

// An aperture of the macro of this name and body.
#[tactic(auto, unfolding(crate::specs::MacroTable::compose_as))]
fn compose_as<'a>(
    reader: &PlainReader<'a>,
    alloc: Global,
    n: u32,
    name: &'a [u8],
    body: &[Primitive],
    parameters: Vec<Decimal>,
    unit: Unit,
) -> MacroRow<'a>
    requires found { macro_named (macros_in reader.now.dictionary) name.now ≡ Some (body_of body.now) }
    ensures ok { IfOk result (λ e. gerber (shown (known_of reader.now) e) ≡ spec.compose_as (known_of reader.now) n name.now (body_of body.now) parameters.items unit) }
    ensures fit { IfOk result (IsFit reader.now.dictionary) }
    ensures halt { IfErr result (Stops (spec.compose_as (known_of reader.now) n name.now (body_of body.now) parameters.items unit)) }
{
    if let Err(kind) = reader.judge_number(n) {
        return Err(Halt::Fault(FlattenKind::Gerber(kind)));
    }
    let marks = judge(alloc, body, &parameters, unit)?;
    Ok(Effect::Makes(n, Tool::Composed(name, parameters, unit, marks)))
}

// `AD`.
#[tactic(auto, unfolding(crate::specs::MacroTable::define_any))]
fn define_any<'a>(reader: &PlainReader<'a>, alloc: Global, text: &'a [u8]) -> MacroRow<'a>
    ensures ok { IfOk result (λ e. gerber (shown (known_of reader.now) e) ≡ spec.define_any (known_of reader.now) text.now) }
    ensures fit { IfOk result (IsFit reader.now.dictionary) }
    ensures halt { IfErr result (Stops (spec.define_any (known_of reader.now) text.now)) }
{
    let Some(unit) = reader.settings.unit else {
        return Err(Halt::Fault(FlattenKind::Gerber(GerberKind::MissingUnit)));
    };
    if is_of_macro(text, unit) {
        return compose(reader, alloc, text, unit);
    }
    define(reader, text).map_err(|kind| Halt::Fault(FlattenKind::Gerber(kind)))
}

// A row that is the same without macros.
#[tactic(auto, unfolding(crate::specs::CommandEffects::effect))]
fn standard_row<'a>(reader: &PlainReader<'a>, command: &Command<'a>) -> MacroRow<'a>
    requires lawful { IsLawfulReader reader.now }
    requires command { IsLawfulCommand (view command.now) }
    requires before_end { reader.now.settings.ended ≡ false }
    ensures ok { IfOk result (λ e. gerber (shown (known_of reader.now) e) ≡ gerber (row (known_of reader.now) (view command.now))) }
    ensures fit { IfOk result (IsFit reader.now.dictionary) }
    ensures halt { IfErr result (Stops (gerber (row (known_of reader.now) (view command.now)))) }
{
    effect(reader, command).map_err(|kind| Halt::Fault(FlattenKind::Gerber(kind)))
}

// The row of a command where the file may have macros.
#[tactic(auto, unfolding(crate::specs::MacroTable::macro_row))]
fn macro_row<'a>(reader: &PlainReader<'a>, alloc: Global, command: &Command<'a>) -> MacroRow<'a>
    requires lawful { IsLawfulReader reader.now }
    requires command { IsLawfulCommand (view command.now) }
    requires before_end { reader.now.settings.ended ≡ false }
    ensures ok { IfOk result (λ e. gerber (shown (known_of reader.now) e) ≡ spec.macro_row (known_of reader.now) (view command.now)) }
    ensures fit { IfOk result (IsFit reader.now.dictionary) }
    ensures halt { IfErr result (Stops (spec.macro_row (known_of reader.now) (view command.now))) }
{
    match *command {
        Command::Macro(name) => name_macro(reader, name).map_err(Halt::Fault),
        Command::Body(text) => fill_macro(reader, text).map_err(Halt::Fault),
        Command::Define(text) => define_any(reader, alloc, text),
        _ => standard_row(reader, command),
    }
}

/// What a command does where the file may have macros and is flattened, or its fault.
#[tactic(auto, unfolding(crate::specs::MacroTable::effect_with_macros, crate::specs::MacroTable::row_with_macros))]
pub fn effect_with_macros<'a>(
    reader: &PlainReader<'a>,
    alloc: Global,
    command: &Command<'a>,
) -> MacroRow<'a>
    requires lawful { IsLawfulReader reader.now }
    requires command { IsLawfulCommand (view command.now) }
    ensures ok { IfOk result (λ e. spec.with_few_radii (gerber (shown (known_of reader.now) e)) ≡ spec.effect_with_macros (known_of reader.now) (view command.now)) }
    ensures fit { IfOk result (IsFit reader.now.dictionary) }
    ensures halt { IfErr result (Stops (spec.effect_with_macros (known_of reader.now) (view command.now))) }
{
    if reader.settings.ended {
        return behind_end(command);
    }
    if is_function(command) {
        return Ok(Effect::Stays);
    }
    macro_row(reader, alloc, command)
}

/// The pieces have at most `MOST_APERTURES` radii.
pub fn has_few_radii<'a>(reader: &PlainReader<'a>, alloc: Global) -> Result<(), Halt<FlattenKind>>
    ensures ok { IfOk result (λ _. spec.few_radii (concludes (plain_pieces reader.now.pieces.items)) ≡ Ok (concludes (plain_pieces reader.now.pieces.items))) }
    ensures halt { IfErr result (Stops (spec.few_radii (concludes (plain_pieces reader.now.pieces.items)))) }
{
    let Ok(radii) = Radii::of(alloc, &reader.pieces) else {
        return Err(Halt::NoMemory);
    };
    if radii.len() > MOST_APERTURES {
        return Err(Halt::Fault(FlattenKind::TooManyRadii));
    }
    Ok(())
}
