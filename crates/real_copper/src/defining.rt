//! Definitions of apertures and macros (Gerber Layer Format Specification, 4.3 and 4.5).
ghost use Rattle.gerber_layer.specs.MacroTable.{is_reserved};
ghost use Rattle.gerber_reading.specs.CommandEffects.{makes};
ghost use Rattle.gerber_reading.specs.Reader.{Stops, body_of, defined_in, macros_in, tool_of};
ghost use Rattle.gerber_reading.specs.Tools.{macro_named};
ghost use Rattle.real_copper.specs.Apertures.{real_aperture_at};
ghost use Rattle.real_copper.specs.RealReader.{HasObeyed, IsLawful, IsRight, Seen, known};
ghost use Rattle.real_copper.specs.Table as spec;
ghost use Rattle.real_copper.specs.Table.{fits};
ghost use Rattle.std.specs.Prelude.{Err, IfErr, IfOk, None, Ok, OnOk, ◌≡◌};

use crate::aperture::RealAperture;
use crate::definitions::read_real_aperture;
use crate::drawing::RealReader;
use crate::kind::{RealKind, gerber};
use aperture_macros::{Copper, Primitive, read_body};
use apertures::{ApertureFault, name_text, number};
use file_reading::Halt;
use gerber_layer::FlattenKind;
use gerber_reading::{GerberKind, Tool, read_parameters};
use lengths::decimal::{Decimal, Unit};
use std::alloc::Global;
use texts::{before_byte, is_word};

// A name that is none, or that of a standard aperture.
fn is_reserved(name: &[u8]) -> bool
    ensures { result ≡ is_reserved name.now }
{
    if name.is_empty() {
        return true;
    }
    is_word(name, b"C") || is_word(name, b"R") || is_word(name, b"O") || is_word(name, b"P")
}

fn flattened(kind: FlattenKind) -> Halt<RealKind>
    ensures { result ≡ Halt.Fault (RealKind.Copper kind) }
{
    Halt::Fault(RealKind::Copper(kind))
}

/// `AM`.
#[tactic(auto, unfolding(crate::specs::Table::name_macro))]
pub fn name_macro<'a>(
    reader: &mut RealReader<'a>,
    alloc: Global,
    name: &'a [u8],
) -> Result<(), Halt<RealKind>>
    requires lawful { IsLawful reader.old }
    ensures ok { OnOk result (HasObeyed reader.old (spec.name_macro (known reader.old) name.now) None None reader.new) }
    ensures right { OnOk result (IsRight reader.new) }
    ensures halt { IfErr result (Stops (spec.name_macro (known reader.old) name.now)) }
{
    if is_reserved(name) {
        return Err(flattened(FlattenKind::BadMacro));
    }
    if reader.dictionary.has_macro(name) {
        return Err(flattened(FlattenKind::MacroTwice));
    }
    match reader.dictionary.begin(alloc, name) {
        Ok(()) => Ok(()),
        Err(_) => Err(Halt::NoMemory),
    }
}

/// A word of a macro's body.
#[tactic(auto, unfolding(crate::specs::Table::fill_macro))]
pub fn fill_macro<'a>(reader: &mut RealReader<'a>, text: &'a [u8]) -> Result<(), Halt<RealKind>>
    requires lawful { IsLawful reader.old }
    ensures ok { OnOk result (HasObeyed reader.old (spec.fill_macro (known reader.old) text.now) None None reader.new) }
    ensures right { OnOk result (IsRight reader.new) }
    ensures halt { IfErr result (Stops (spec.fill_macro (known reader.old) text.now)) }
{
    let room = reader.dictionary.has_room();
    match read_body(Copper::Real, text) {
        Ok(None) => Ok(()),
        Ok(Some(primitive)) => if room {
            match reader.dictionary.fill(primitive) {
                Ok(()) => Ok(()),
                Err(_) => Err(Halt::NoMemory),
            }
        } else {
            Err(flattened(FlattenKind::BadMacro))
        },
        Err(fault) => if room {
            Err(flattened(FlattenKind::from(fault)))
        } else {
            Err(flattened(FlattenKind::BadMacro))
        },
    }
}

// Judges the primitives of a macro with parameters.
#[tactic(auto, unfolding(crate::specs::Table::all_judged))]
fn judge(body: &[Primitive], parameters: &[Decimal], unit: Unit) -> Result<(), RealKind>
    ensures { result ≡ spec.as_macro (spec.all_judged (body_of body.now) parameters.now unit) }
{
    for primitive in body {
        if let Err(fault) = primitive.judge(Copper::Real, parameters, unit) {
            return Err(RealKind::Copper(FlattenKind::from(fault)));
        }
    }
    Ok(())
}

/// A number and the aperture that it is of.
pub type Numbered<'a> = (u32, Tool<'a, RealAperture>);

// An aperture of the macro of this name and body.
#[tactic(auto, unfolding(crate::specs::Table::compose_as))]
fn compose_as<'a>(
    reader: &RealReader<'a>,
    alloc: Global,
    n: u32,
    name: &'a [u8],
    body: &[Primitive],
    parameters: Vec<Decimal>,
    unit: Unit,
) -> Result<Numbered<'a>, Halt<RealKind>>
    ensures ok { IfOk result (λ made. spec.compose_as (known reader.now) n name.now (body_of body.now) parameters.items unit ≡ Ok (makes made.0 (tool_of made.1))) }
    ensures new { IfOk result (λ made. defined_in reader.now.dictionary made.0 ≡ None) }
    ensures fit { IfOk result (λ made. fits (macros_in reader.now.dictionary) made.1) }
    ensures halt { IfErr result (Stops (spec.compose_as (known reader.now) n name.now (body_of body.now) parameters.items unit)) }
{
    if let Err(kind) = reader.judge_number(n) {
        return Err(Halt::Fault(gerber(kind)));
    }
    match judge(body, &parameters, unit) {
        Ok(()) => Ok((n, Tool::Composed(name, parameters, unit, Vec::new(alloc)))),
        Err(kind) => Err(Halt::Fault(kind)),
    }
}

// An aperture of a macro.
#[tactic(auto, unfolding(crate::specs::Table::compose))]
fn compose<'a>(
    reader: &RealReader<'a>,
    alloc: Global,
    text: &'a [u8],
    unit: Unit,
) -> Result<Numbered<'a>, Halt<RealKind>>
    requires of_macro { real_aperture_at text.now unit ≡ Err ApertureFault.Macro }
    ensures ok { IfOk result (λ made. spec.compose (known reader.now) text.now unit ≡ Ok (makes made.0 (tool_of made.1))) }
    ensures new { IfOk result (λ made. defined_in reader.now.dictionary made.0 ≡ None) }
    ensures fit { IfOk result (λ made. fits (macros_in reader.now.dictionary) made.1) }
    ensures halt { IfErr result (Stops (spec.compose (known reader.now) text.now unit)) }
{
    let word = name_text(text);
    let name = before_byte(word, b',');
    let Some(body) = reader.dictionary.body(name) else {
        return Err(flattened(FlattenKind::NoMacro));
    };
    let Ok(given) = read_parameters(alloc, word) else {
        return Err(Halt::NoMemory);
    };
    let Some(given) = given else {
        return Err(flattened(FlattenKind::BadMacro));
    };
    compose_as(reader, alloc, number(text), name, body, given, unit)
}

// What an `AD` word defines.
#[tactic(auto, unfolding(crate::specs::Table::define))]
fn defined<'a>(
    reader: &RealReader<'a>,
    alloc: Global,
    text: &'a [u8],
) -> Result<Numbered<'a>, Halt<RealKind>>
    ensures ok { IfOk result (λ made. spec.define (known reader.now) text.now ≡ Ok (makes made.0 (tool_of made.1))) }
    ensures new { IfOk result (λ made. defined_in reader.now.dictionary made.0 ≡ None) }
    ensures fit { IfOk result (λ made. fits (macros_in reader.now.dictionary) made.1) }
    ensures halt { IfErr result (Stops (spec.define (known reader.now) text.now)) }
{
    let Some(unit) = reader.settings.unit else {
        return Err(Halt::Fault(gerber(GerberKind::MissingUnit)));
    };
    match read_real_aperture(text, unit) {
        Ok((n, aperture)) => match reader.judge_number(n) {
            Ok(()) => Ok((n, Tool::Standard(aperture))),
            Err(kind) => Err(Halt::Fault(gerber(kind))),
        },
        Err(ApertureFault::Macro) => compose(reader, alloc, text, unit),
        Err(fault) => Err(Halt::Fault(gerber(GerberKind::from(fault)))),
    }
}

/// `AD`.
pub fn define<'a>(
    reader: &mut RealReader<'a>,
    alloc: Global,
    text: &'a [u8],
) -> Result<(), Halt<RealKind>>
    requires lawful { IsLawful reader.old }
    ensures ok { OnOk result (HasObeyed reader.old (spec.define (known reader.old) text.now) None None reader.new) }
    ensures right { OnOk result (IsRight reader.new) }
    ensures halt { IfErr result (Stops (spec.define (known reader.old) text.now)) }
{
    let (n, tool) = defined(reader, alloc, text)?;
    match reader.dictionary.add(n, tool) {
        Ok(()) => Ok(()),
        Err(_) => Err(Halt::NoMemory),
    }
}
