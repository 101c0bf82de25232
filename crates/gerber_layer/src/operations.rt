//! Selections, and operations outside a region. Most commands are such, so they are obeyed at once, with no effect that is stored to
//! be read again.
ghost use Rattle.std.specs.Prelude.{◌≡◌, ◌+◌, ◌^◌, ◌<◌, false, IfErr, OnOk};
ghost use Rattle.std.specs.Option.{option_copied};
ghost use Rattle.planar.specs.Plane.{IsPlaced};
ghost use Rattle.gerber_reading.specs.Command.{bending_of, operates, selects, view};
ghost use Rattle.gerber_layer.specs.CommandEffects as spec;
ghost use Rattle.gerber_reading.specs.Lawful.{IsLawfulCommand, IsWhole};
ghost use Rattle.gerber_layer.specs.Reader.{AreCounted, CarriesOut, IsLawfulReader, Obeys, Stops, known_of};

use crate::reader::{PlainReader, effect, flash, go_on, stroke};
use board_shapes::Shape;
use file_reading::Halt;
use gerber_reading::{Bending, Code, Command, GerberKind, code_of, target};
use planar::Spot;
use std::alloc::Global;

// Draws to a spot.
fn draw_at_once<'a>(reader: &mut PlainReader<'a>, to: Spot) -> Result<(), Halt<GerberKind>>
    requires few { reader.old.commands + 1 < 2 ^ 32 }
    requires lawful { IsLawfulReader reader.old }
    requires placed { IsPlaced to }
    ensures ok { OnOk result (CarriesOut reader.old (spec.draw (known_of reader.old) to) reader.new) }
    ensures dictionary { OnOk result (reader.new.dictionary ≡ reader.old.dictionary) }
    ensures counted { OnOk result (AreCounted reader.new) }
    ensures halt { IfErr result (Stops (spec.draw (known_of reader.old) to)) }
{
    match stroke(reader, to) {
        Ok(Some(stroke)) => reader.add_piece_in_room(Shape::Round(stroke)),
        Ok(None) => Ok(()),
        Err(kind) => Err(Halt::Fault(kind)),
    }
}

// Performs an operation.
#[inline(always)]
#[tactic(auto, unfolding(crate::specs::CommandEffects::perform))]
fn perform_at_once<'a>(
    reader: &mut PlainReader<'a>,
    alloc: Global,
    code: Code,
    to: Spot,
) -> Result<(), Halt<GerberKind>>
    requires few { reader.old.commands + 1 < 2 ^ 32 }
    requires lawful { IsLawfulReader reader.old }
    requires placed { IsPlaced to }
    ensures ok { OnOk result (CarriesOut reader.old (spec.perform (known_of reader.old) code to) reader.new) }
    ensures dictionary { OnOk result (reader.new.dictionary ≡ reader.old.dictionary) }
    ensures counted { OnOk result (AreCounted reader.new) }
    ensures halt { IfErr result (Stops (spec.perform (known_of reader.old) code to)) }
{
    match code {
        Code::Draw => draw_at_once(reader, to),
        Code::Move => Ok(()),
        Code::Flash => flash(reader, alloc, to),
    }
}

// Obeys an operation outside a region. It is inlined into the loop over words, as a selection is.
#[inline(always)]
#[tactic(auto, unfolding(crate::specs::CommandEffects::operate))]
fn operate_at_once<'a>(
    reader: &mut PlainReader<'a>,
    alloc: Global,
    x: Option<&[u8]>,
    y: Option<&[u8]>,
    code: Option<Code>,
    bending: Bending,
) -> Result<(), Halt<GerberKind>>
    requires few { reader.old.commands + 1 < 2 ^ 32 }
    requires lawful { IsLawfulReader reader.old }
    requires outside { reader.old.settings.region ≡ false }
    requires x_whole { IsWhole (option_copied x) }
    requires y_whole { IsWhole (option_copied y) }
    ensures ok { OnOk result (Obeys reader.old (operates (option_copied x.entry) (option_copied y.entry) code (bending_of bending.entry)) (spec.operate (known_of reader.old) (option_copied x.entry) (option_copied y.entry) code) reader.new) }
    ensures lawful { OnOk result (IsLawfulReader reader.new) }
    ensures halt { IfErr result (Stops (spec.operate (known_of reader.old) (option_copied x.entry) (option_copied y.entry) code)) }
{
    if reader.lacks_code(code) {
        return Err(Halt::Fault(GerberKind::NoOperation));
    }
    let to = match target(reader.settings, x, y) {
        Ok(to) => to,
        Err(kind) => return Err(Halt::Fault(kind)),
    };
    let code = code_of(code);
    perform_at_once(reader, alloc, code, to)?;
    reader.settings.at = to;
    reader.settings.last = Some(code);
    reader.settings.curve = bending.curve.unwrap_or(reader.settings.curve);
    reader.commands += 1;
    Ok(())
}

// Obeys a selection.
#[inline(always)]
#[tactic(auto, unfolding(crate::specs::CommandEffects::row))]
fn select<'a>(reader: &mut PlainReader<'a>, n: u32) -> Result<(), Halt<GerberKind>>
    requires few { reader.old.commands + 1 < 2 ^ 32 }
    requires lawful { IsLawfulReader reader.old }
    ensures ok { OnOk result (Obeys reader.old (selects n) (spec.row (known_of reader.old) (selects n)) reader.new) }
    ensures lawful { OnOk result (IsLawfulReader reader.new) }
    ensures halt { IfErr result (Stops (spec.row (known_of reader.old) (selects n))) }
{
    if !reader.dictionary.defines(n) {
        return Err(Halt::Fault(GerberKind::NoAperture));
    }
    reader.settings.selected = Some(n);
    reader.commands += 1;
    Ok(())
}

/// Obeys a command in a file without macros. An `Err` leaves a reader that is of no more use.
#[inline(always)]
#[tactic(auto, unfolding(crate::specs::CommandEffects::effect, crate::specs::CommandEffects::row))]
pub fn obey<'a>(
    reader: &mut PlainReader<'a>,
    alloc: Global,
    command: &Command<'a>,
) -> Result<(), Halt<GerberKind>>
    requires lawful { IsLawfulReader reader.old }
    requires command { IsLawfulCommand (view command.now) }
    requires few { reader.old.commands + 1 < 2 ^ 32 }
    ensures ok { OnOk result (Obeys reader.old (view command.now) (spec.effect (known_of reader.old) (view command.now)) reader.new) }
    ensures lawful { OnOk result (IsLawfulReader reader.new) }
    ensures halt { IfErr result (Stops (spec.effect (known_of reader.old) (view command.now))) }
{
    // What is called is lent a copy, so that the command itself need not lie in memory.
    if reader.settings.ended {
        let copy = *command;
        return obey_by_effect(reader, alloc, &copy);
    }
    if reader.settings.region {
        let copy = *command;
        return obey_by_effect(reader, alloc, &copy);
    }
    match *command {
        Command::Select(n) => select(reader, n),
        Command::Operate(x, y, code, bending) => operate_at_once(
            reader, alloc, x, y, code, bending,
        ),
        _ => {
            let copy = *command;
            obey_by_effect(reader, alloc, &copy)
        },
    }
}

// Obeys any command, by its effect. It is a call, so that other commands make no room for its values.
#[inline(never)]
fn obey_by_effect<'a>(
    reader: &mut PlainReader<'a>,
    alloc: Global,
    command: &Command<'a>,
) -> Result<(), Halt<GerberKind>>
    requires lawful { IsLawfulReader reader.old }
    requires command { IsLawfulCommand (view command.now) }
    requires few { reader.old.commands + 1 < 2 ^ 32 }
    ensures ok { OnOk result (Obeys reader.old (view command.now) (spec.effect (known_of reader.old) (view command.now)) reader.new) }
    ensures lawful { OnOk result (IsLawfulReader reader.new) }
    ensures halt { IfErr result (Stops (spec.effect (known_of reader.old) (view command.now))) }
{
    let effect = effect(reader, command)?;
    go_on(reader, alloc, command, effect)
}
