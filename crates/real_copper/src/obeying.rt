//! What the commands of real copper do.
ghost use Rattle.gerber_reading.specs.Command.{bending_of, view};
ghost use Rattle.gerber_reading.specs.Lawful.{IsLawfulCommand, IsWhole};
ghost use Rattle.gerber_reading.specs.Reader.{EndsBlock, Obeys, Stops};
ghost use Rattle.planar.specs.Plane.{IsPlaced};
ghost use Rattle.real_copper.specs.Arcs.{as_real};
ghost use Rattle.real_copper.specs.Figures.{real_handling};
ghost use Rattle.real_copper.specs.Kinds;
ghost use Rattle.real_copper.specs.RealReader.{AreLawfulLeads, HasObeyed, IsCounted, IsLawful, IsRight, known, plain};
ghost use Rattle.real_copper.specs.Rows as rows;
ghost use Rattle.real_copper.specs.Table as spec;
ghost use Rattle.gerber_reading.specs.CommandEffects.{ended_block_by};
ghost use Rattle.std.specs.Option.{option_copied};
ghost use Rattle.std.specs.Prelude.{IfErr, IfOk, IfSome, None, OnOk, Some, ◌≡◌, ◌+◌, ◌<◌, ◌^◌};
ghost use Rattle.step_repeat.specs.Repeats.{IsLawful as IsLawfulRepeat};

use crate::closing::{close, perform_in_region};
use crate::defining::{define, fill_macro, name_macro};
use crate::drawing::{RealReader, halted, perform};
use crate::kind::{RealKind, gerber};
use crate::leads::{Leads, leading_to, nowhere, opening};
use file_reading::Halt;
use gerber_reading::{
    Bending, Code, Command, GerberKind, code_of, go_behind, is_finish, is_of_layer, next_block,
    other_format, target,
};
use lengths::decimal::other_unit;
use planar::Spot;
use std::alloc::Global;
use step_repeat::Repeat;

fn refused(kind: GerberKind) -> Halt<RealKind>
    ensures { result ≡ Halt.Fault (Kinds.gerber kind) }
{
    Halt::Fault(gerber(kind))
}

// Performs an operation that leads to this spot.
fn operate_at(
    reader: &mut RealReader,
    alloc: Global,
    code: Code,
    bending: &Bending,
    to: Spot,
) -> Result<(), Halt<RealKind>>
    requires few { reader.old.commands + 1 < 2 ^ 32 }
    requires lawful { IsLawful reader.old }
    requires placed { IsPlaced to }
    ensures ok { OnOk result (HasObeyed reader.old (rows.operate_at (known reader.old) code (bending_of bending.now) to) (Some to) None reader.new) }
    ensures right { OnOk result (IsRight reader.new) }
    ensures halt { IfErr result (Stops (rows.operate_at (known reader.old) code (bending_of bending.now) to)) }
{
    if reader.settings.region {
        perform_in_region(reader, alloc, code, bending, to)
    } else {
        perform(reader, alloc, code, bending, to)
    }
}

// Where an operation leads that was performed.
#[tactic(auto, unfolding(crate::specs::Rows::operate))]
fn operate(
    reader: &mut RealReader,
    alloc: Global,
    x: Option<&[u8]>,
    y: Option<&[u8]>,
    code: Option<Code>,
    bending: &Bending,
) -> Result<Spot, Halt<RealKind>>
    requires few { reader.old.commands + 1 < 2 ^ 32 }
    requires lawful { IsLawful reader.old }
    requires x_whole { IsWhole (option_copied x) }
    requires y_whole { IsWhole (option_copied y) }
    ensures ok { IfOk result (λ to. HasObeyed reader.old (rows.operate (known reader.old) (option_copied x.entry) (option_copied y.entry) code (bending_of bending.now)) (Some to) None reader.new) }
    ensures placed { IfOk result IsPlaced }
    ensures right { OnOk result (IsRight reader.new) }
    ensures halt { IfErr result (Stops (rows.operate (known reader.old) (option_copied x.entry) (option_copied y.entry) code (bending_of bending.now))) }
{
    if reader.lacks_code(code) {
        return Err(refused(GerberKind::NoOperation));
    }
    let to = match target(reader.settings, x, y) {
        Ok(to) => to,
        Err(kind) => return Err(refused(kind)),
    };
    match operate_at(reader, alloc, code_of(code), bending, to) {
        Ok(()) => Ok(to),
        Err(halt) => Err(halt),
    }
}

// `G36`.
fn open_region(reader: &mut RealReader) -> Result<(), Halt<RealKind>>
    requires lawful { IsLawful reader.old }
    ensures ok { OnOk result (HasObeyed reader.old (rows.enter (known reader.old)) None None reader.new) }
    ensures right { OnOk result (IsRight reader.new) }
    ensures halt { IfErr result (Stops (rows.enter (known reader.old))) }
{
    if reader.settings.region {
        return Err(refused(GerberKind::NotInRegion));
    }
    reader.contour = None;
    Ok(())
}

// `G37`.
#[tactic(auto, unfolding(crate::specs::Rows::leave))]
fn leave_region(reader: &mut RealReader, alloc: Global) -> Result<(), Halt<RealKind>>
    requires few { reader.old.commands + 1 < 2 ^ 32 }
    requires lawful { IsLawful reader.old }
    ensures ok { OnOk result (HasObeyed reader.old (rows.leave (known reader.old)) None None reader.new) }
    ensures right { OnOk result (IsRight reader.new) }
    ensures halt { IfErr result (Stops (rows.leave (known reader.old))) }
{
    if !reader.settings.region {
        return Err(refused(GerberKind::NotInRegion));
    }
    close(reader, alloc)
}

// Ends the open block.
fn end_block(reader: &mut RealReader, alloc: Global) -> Result<(), Halt<RealKind>>
    requires lawful { IsLawful reader.old }
    ensures ok { OnOk result (EndsBlock plain real_handling reader.old reader.new) }
    ensures right { OnOk result (IsRight reader.new) }
    ensures halt { IfErr result (Stops (as_real (ended_block_by real_handling (known reader.old)))) }
{
    match reader.end_block(alloc) {
        Ok(()) => Ok(()),
        Err(halt) => Err(halted(halt)),
    }
}

// A step and repeat word, and the block that it opens.
#[tactic(auto, unfolding(crate::specs::Rows::repeat))]
fn repeat(
    reader: &mut RealReader,
    alloc: Global,
    text: &[u8],
) -> Result<Option<Repeat>, Halt<RealKind>>
    requires lawful { IsLawful reader.old }
    ensures ok { IfOk result (λ next. HasObeyed reader.old (rows.repeat (known reader.old) text.now) None next reader.new) }
    ensures block { IfOk result (λ next. IfSome next IsLawfulRepeat) }
    ensures right { OnOk result (IsRight reader.new) }
    ensures halt { IfErr result (Stops (rows.repeat (known reader.old) text.now)) }
{
    if reader.settings.region {
        return Err(refused(GerberKind::NotInRegion));
    }
    let next = match next_block(reader.settings.unit, text) {
        Ok(next) => next,
        Err(kind) => return Err(refused(kind)),
    };
    match end_block(reader, alloc) {
        Ok(()) => {
            reader.start = reader.pieces.len();
            Ok(next)
        },
        Err(halt) => Err(halt),
    }
}

// The end of the file.
#[tactic(auto, unfolding(crate::specs::Rows::end))]
fn end(reader: &mut RealReader, alloc: Global) -> Result<(), Halt<RealKind>>
    requires lawful { IsLawful reader.old }
    ensures ok { OnOk result (HasObeyed reader.old (rows.end (known reader.old)) None None reader.new) }
    ensures right { OnOk result (IsRight reader.new) }
    ensures halt { IfErr result (Stops (rows.end (known reader.old))) }
{
    if reader.settings.region {
        return Err(refused(GerberKind::NotInRegion));
    }
    end_block(reader, alloc)
}

// Carries out a command before the end of the file, by its row.
#[tactic(auto, unfolding(crate::specs::Table::row))]
fn carry_out<'a>(
    reader: &mut RealReader<'a>,
    alloc: Global,
    command: &Command<'a>,
) -> Result<Leads, Halt<RealKind>>
    requires few { reader.old.commands + 1 < 2 ^ 32 }
    requires lawful { IsLawful reader.old }
    requires command { IsLawfulCommand (view command.now) }
    ensures ok { IfOk result (λ leads. HasObeyed reader.old (spec.row (known reader.old) (view command.now)) leads.to leads.next reader.new) }
    ensures leads { IfOk result AreLawfulLeads }
    ensures right { OnOk result (IsRight reader.new) }
    ensures halt { IfErr result (Stops (spec.row (known reader.old) (view command.now))) }
{
    match *command {
        Command::Nothing => Ok(nowhere()),
        Command::Refused(kind) => Err(refused(kind)),
        Command::Unit(unit) => if other_unit(reader.settings.unit, unit) {
            Err(refused(GerberKind::UnitConflict))
        } else {
            Ok(nowhere())
        },
        Command::Format(format) => if other_format(reader.settings.format, format) {
            Err(refused(GerberKind::BadFormat))
        } else {
            Ok(nowhere())
        },
        Command::Define(text) => match define(reader, alloc, text) {
            Ok(()) => Ok(nowhere()),
            Err(halt) => Err(halt),
        },
        Command::Macro(name) => match name_macro(reader, alloc, name) {
            Ok(()) => Ok(nowhere()),
            Err(halt) => Err(halt),
        },
        Command::Body(text) => match fill_macro(reader, text) {
            Ok(()) => Ok(nowhere()),
            Err(halt) => Err(halt),
        },
        Command::Select(n) => if reader.dictionary.defines(n) {
            Ok(nowhere())
        } else {
            Err(refused(GerberKind::NoAperture))
        },
        Command::Curve(_) => Ok(nowhere()),
        Command::Quadrants(_) => Ok(nowhere()),
        Command::Operate(x, y, code, bending) => {
            match operate(reader, alloc, x, y, code, &bending) {
                Ok(to) => Ok(leading_to(to)),
                Err(halt) => Err(halt),
            }
        },
        Command::OpenRegion => match open_region(reader) {
            Ok(()) => Ok(nowhere()),
            Err(halt) => Err(halt),
        },
        Command::CloseRegion => match leave_region(reader, alloc) {
            Ok(()) => Ok(nowhere()),
            Err(halt) => Err(halt),
        },
        Command::Repeat(text) => match repeat(reader, alloc, text) {
            Ok(next) => Ok(opening(next)),
            Err(halt) => Err(halt),
        },
        Command::End => match end(reader, alloc) {
            Ok(()) => Ok(nowhere()),
            Err(halt) => Err(halt),
        },
        Command::Broken(fault) => Err(refused(GerberKind::from(fault))),
        Command::Finish => Err(refused(GerberKind::NotEnded)),
        Command::Function(function, layer) => if is_of_layer(function, layer, reader.layer) {
            Ok(nowhere())
        } else {
            Err(refused(GerberKind::WrongLayer))
        },
    }
}

// Carries out a command: behind the end of the file nothing may stand but its end.
#[tactic(auto, unfolding(crate::specs::Table::effect))]
fn carry_out_any<'a>(
    reader: &mut RealReader<'a>,
    alloc: Global,
    command: &Command<'a>,
) -> Result<Leads, Halt<RealKind>>
    requires few { reader.old.commands + 1 < 2 ^ 32 }
    requires lawful { IsLawful reader.old }
    requires command { IsLawfulCommand (view command.now) }
    ensures ok { IfOk result (λ leads. HasObeyed reader.old (spec.effect (known reader.old) (view command.now)) leads.to leads.next reader.new) }
    ensures leads { IfOk result AreLawfulLeads }
    ensures right { OnOk result (IsRight reader.new) }
    ensures halt { IfErr result (Stops (spec.effect (known reader.old) (view command.now))) }
{
    if !reader.settings.ended {
        return carry_out(reader, alloc, command);
    }
    if is_finish(command) {
        Ok(nowhere())
    } else {
        Err(refused(GerberKind::AfterEnd))
    }
}

/// Obeys a command. An `Err` leaves a reader that is of no more use.
pub fn obey<'a>(
    reader: &mut RealReader<'a>,
    alloc: Global,
    command: &Command<'a>,
) -> Result<(), Halt<RealKind>>
    requires lawful { IsLawful reader.old }
    requires command { IsLawfulCommand (view command.now) }
    requires few { reader.old.commands + 1 < 2 ^ 32 }
    ensures ok { OnOk result (Obeys plain reader.old (view command.now) (spec.effect (known reader.old) (view command.now)) reader.new) }
    ensures lawful { OnOk result (IsLawful reader.new) }
    ensures halt { IfErr result (Stops (spec.effect (known reader.old) (view command.now))) }
{
    let leads = match carry_out_any(reader, alloc, command) {
        Ok(leads) => leads,
        Err(halt) => return Err(halt),
    };
    go_behind(&mut reader.settings, command, leads.to, leads.next);
    reader.commands += 1;
    Ok(())
}
