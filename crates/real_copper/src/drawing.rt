//! Draws and flashes outside regions (Gerber Layer Format Specification, 4.4, 4.5 and 4.8).
ghost use Rattle.apertures.specs.Flash.{IsNarrow};
ghost use Rattle.gerber_reading.specs.Command.{bending_of};
ghost use Rattle.gerber_reading.specs.CommandEffects.{listed};
ghost use Rattle.gerber_reading.specs.Image.{made};
ghost use Rattle.gerber_reading.specs.Reader.{Stops, body_of, macros_in, place_of};
ghost use Rattle.gerber_reading.specs.Tools.{macro_named, standard};
ghost use Rattle.step_repeat.specs.Copies.{pieces_by};
ghost use Rattle.planar.specs.Plane.{IsPlaced};
ghost use Rattle.real_copper.specs.Apertures.{IsLawful as IsLawfulAperture};
ghost use Rattle.real_copper.specs.Arcs as spec_arcs;
ghost use Rattle.real_copper.specs.Flashed.{option_figure};
ghost use Rattle.real_copper.specs.RealReader.{Flashed, HasObeyed, IsCounted, IsFlashed, IsLawful, IsRight, KeepsRest, figure_halt, halt_of, known, plain, seen_stroke};
ghost use Rattle.real_copper.specs.Rows as spec;
ghost use Rattle.std.specs.Prelude.{IfErr, IfOk, IfSome, None, Ok, OnOk, Some, length, ◌≡◌, ◌+◌, ◌++◌, ◌<◌, ◌^◌};

use crate::anchored::Anchored;
use crate::aperture::RealAperture;
use crate::bends::{bend_of, no_arc};
use crate::draw::Bend;
use crate::flashes::flash;
use crate::kind::{RealKind, gerber};
use crate::sketches::primitive_at;
use crate::strokes::draw_of;
use aperture_macros::{FigureFault, Primitive};
use apertures::FlashFault;
use board_shapes::{Origin, Placed};
use file_reading::Halt;
use gerber_reading::{Bending, Code, GerberKind, Reader, Tool};
use lengths::decimal::{Decimal, Unit};
use planar::Spot;
use std::alloc::Global;
use step_repeat::Figure;

/// The reader of a file of real copper.
pub type RealReader<'a> = Reader<'a, Anchored, Option<Bend>, RealAperture>;

/// What stops the reader where a row without arcs and macros does.
pub fn halted(halt: Halt<GerberKind>) -> Halt<RealKind>
    ensures { result ≡ halt_of halt }
{
    match halt {
        Halt::Fault(kind) => Halt::Fault(gerber(kind)),
        Halt::NoMemory => Halt::NoMemory,
    }
}

// The pen that is selected.
fn pen(reader: &RealReader) -> Result<u64, RealKind>
    requires lawful { IsLawful reader.now }
    ensures value { result ≡ spec.pen_selected (known reader.now) }
    ensures narrow { IfOk result IsNarrow }
{
    let Some(tool) = reader.selected() else {
        return Err(gerber(GerberKind::NoAperture));
    };
    let pen = match tool {
        Tool::Standard(aperture) => aperture.pen(),
        Tool::Composed(_, _, _, _) => None,
    };
    match pen {
        Some(pen) => Ok(pen),
        None => Err(gerber(GerberKind::PenNotCircle)),
    }
}

// The stroke of a draw, or none for a pen of diameter 0; or its fault.
#[tactic(auto, unfolding(crate::specs::Rows::stroke))]
fn stroke(reader: &RealReader, bending: &Bending, to: Spot) -> Result<Option<Anchored>, RealKind>
    requires lawful { IsLawful reader.now }
    requires placed { IsPlaced to }
    ensures value { seen_stroke result ≡ spec.stroke (known reader.now) (bending_of bending.now) to }
    ensures room { IfOk result (λ figure. IfSome figure (λ f. length reader.now.pieces.items < reader.now.room.pieces)) }
{
    let pen = pen(reader)?;
    if pen > 0 && reader.is_full() {
        return Err(gerber(GerberKind::TooManyPieces));
    }
    let bend = bend_of(&reader.settings, bending, to)?;
    if pen == 0 {
        return Ok(None);
    }
    Ok(Some(draw_of(bend, reader.settings.at, to, pen)))
}

fn draw(reader: &mut RealReader, bending: &Bending, to: Spot) -> Result<(), Halt<RealKind>>
    requires few { reader.old.commands + 1 < 2 ^ 32 }
    requires lawful { IsLawful reader.old }
    requires placed { IsPlaced to }
    ensures ok { OnOk result (HasObeyed reader.old (spec.draw (known reader.old) (bending_of bending.now) to) (Some to) None reader.new) }
    ensures keeps { OnOk result (KeepsRest reader.old reader.new) }
    ensures halt { IfErr result (Stops (spec.draw (known reader.old) (bending_of bending.now) to)) }
{
    match stroke(reader, bending, to) {
        Ok(Some(figure)) => match reader.add_piece(figure) {
            Ok(()) => Ok(()),
            Err(halt) => Err(halted(halt)),
        },
        Ok(None) => Ok(()),
        Err(kind) => Err(Halt::Fault(kind)),
    }
}

// Takes the figure of a flash on, if there is room for one piece more and for its edges.
#[tactic(auto, unfolding(gerber_reading::specs::CommandEffects::room_for, gerber_reading::specs::CommandEffects::edges_for))]
fn add_flash(reader: &mut RealReader, figure: Anchored) -> Result<(), Halt<RealKind>>
    requires few { reader.old.commands + 1 < 2 ^ 32 }
    requires counted { IsCounted reader.old }
    ensures ok { OnOk result (Flashed reader.old (spec.flash_in_room (known reader.old) (Some (plain figure))) reader.new) }
    ensures keeps { OnOk result (KeepsRest reader.old reader.new) }
    ensures halt { IfErr result (Stops (spec.flash_in_room (known reader.old) (Some (plain figure)))) }
{
    if reader.is_full() {
        return Err(Halt::Fault(gerber(GerberKind::TooManyPieces)));
    }
    if reader.exceeds(figure.edges()) {
        return Err(Halt::Fault(gerber(GerberKind::TooManyVertices)));
    }
    match reader.add_piece(figure) {
        Ok(()) => Ok(()),
        Err(halt) => Err(halted(halt)),
    }
}

// A flash of a standard aperture.
#[tactic(auto, unfolding(crate::specs::Rows::flash_with, gerber_reading::specs::CommandEffects::room_for, gerber_reading::specs::CommandEffects::edges_for))]
fn flash_standard(
    reader: &mut RealReader,
    alloc: Global,
    aperture: RealAperture,
    to: Spot,
) -> Result<(), Halt<RealKind>>
    requires few { reader.old.commands + 1 < 2 ^ 32 }
    requires counted { IsCounted reader.old }
    requires lawful { IsLawfulAperture aperture }
    requires placed { IsPlaced to }
    ensures ok { OnOk result (Flashed reader.old (spec.flash_with (known reader.old) (standard aperture) to) reader.new) }
    ensures keeps { OnOk result (KeepsRest reader.old reader.new) }
    ensures halt { IfErr result (Stops (spec.flash_with (known reader.old) (standard aperture) to)) }
{
    match flash(alloc, aperture, to) {
        Ok(Some(figure)) => add_flash(reader, figure),
        Ok(None) => Ok(()),
        Err(FlashFault::OutOfRange) => Err(Halt::Fault(gerber(GerberKind::OutOfRange))),
        Err(FlashFault::NoMemory) => Err(Halt::NoMemory),
    }
}

// What stops the reader where a primitive has no figure: its lengths were judged before.
fn halt_of_figure(fault: FigureFault) -> Halt<RealKind>
    ensures { result ≡ figure_halt fault }
{
    match fault {
        FigureFault::Macro(_) => Halt::Fault(gerber(GerberKind::OutOfRange)),
        FigureFault::NoMemory => Halt::NoMemory,
    }
}

// A piece of the next command more, if there is a figure.
fn push_figure(
    reader: &RealReader,
    figure: Option<Anchored>,
    pieces: &mut Vec<Placed<Anchored>>,
) -> Result<(), Halt<RealKind>>
    requires few { reader.now.commands + 1 < 2 ^ 32 }
    ensures ok { OnOk result (pieces_by plain pieces.new.items ≡ pieces_by plain pieces.old.items ++ made (place_of reader.now) (reader.now.commands + 1) (listed (option_figure figure))) }
    ensures halt { IfErr result (λ h. h ≡ Halt.NoMemory) }
{
    let Some(shape) = figure else {
        return Ok(());
    };
    let origin = Origin {
        file: reader.file,
        command: reader.commands + 1,
        copy: 0,
    };
    let piece = Placed {
        shape,
        top: reader.layer,
        bottom: reader.layer,
        origin,
    };
    match pieces.push(piece) {
        Ok(()) => Ok(()),
        Err(_) => Err(Halt::NoMemory),
    }
}

// The pieces that the primitives of a macro flash, in order.
fn macro_pieces(
    reader: &RealReader,
    alloc: Global,
    body: &[Primitive],
    parameters: &[Decimal],
    unit: Unit,
    to: Spot,
) -> Result<Vec<Placed<Anchored>>, Halt<RealKind>>
    requires few { reader.now.commands + 1 < 2 ^ 32 }
    requires placed { IsPlaced to }
    ensures ok { IfOk result (λ pieces. IsFlashed reader.now (spec.all_flashed (spec.figures_of (body_of body.now) parameters.now unit to)) pieces.items) }
    ensures halt { IfErr result (Stops (spec.all_flashed (spec.figures_of (body_of body.now) parameters.now unit to))) }
{
    let mut pieces = Vec::new(alloc);
    for primitive in body {
        let figure = match primitive_at(alloc, primitive, parameters, unit, to) {
            Ok(figure) => figure,
            Err(fault) => return Err(halt_of_figure(fault)),
        };
        push_figure(reader, figure, &mut pieces)?;
    }
    Ok(pieces)
}

// Those of the macro of a name.
fn composed_pieces(
    reader: &RealReader,
    alloc: Global,
    name: &[u8],
    parameters: &[Decimal],
    unit: Unit,
    to: Spot,
) -> Result<Vec<Placed<Anchored>>, Halt<RealKind>>
    requires few { reader.now.commands + 1 < 2 ^ 32 }
    requires placed { IsPlaced to }
    ensures ok { IfOk result (λ pieces. IsFlashed reader.now (spec.all_flashed (spec.macro_figures (macro_named (macros_in reader.now.dictionary) name.now) parameters.now unit to)) pieces.items) }
    ensures halt { IfErr result (Stops (spec.all_flashed (spec.macro_figures (macro_named (macros_in reader.now.dictionary) name.now) parameters.now unit to))) }
{
    match reader.dictionary.body(name) {
        None => Ok(Vec::new(alloc)),
        Some(body) => macro_pieces(reader, alloc, body, parameters, unit, to),
    }
}

// The figures of a flash of the selected aperture.
#[tactic(auto, unfolding(crate::specs::Rows::flashed, crate::specs::Rows::flash_with))]
fn flash_at(reader: &mut RealReader, alloc: Global, to: Spot) -> Result<(), Halt<RealKind>>
    requires few { reader.old.commands + 1 < 2 ^ 32 }
    requires lawful { IsLawful reader.old }
    requires placed { IsPlaced to }
    ensures ok { OnOk result (Flashed reader.old (spec.flashed (known reader.old) to) reader.new) }
    ensures keeps { OnOk result (KeepsRest reader.old reader.new) }
    ensures halt { IfErr result (Stops (spec.flashed (known reader.old) to)) }
{
    match reader.selected() {
        None => Err(Halt::Fault(gerber(GerberKind::NoAperture))),
        Some(Tool::Standard(aperture)) => {
            let aperture = *aperture;
            flash_standard(reader, alloc, aperture, to)
        },
        Some(Tool::Composed(name, parameters, unit, _)) => {
            match composed_pieces(reader, alloc, name, parameters, *unit, to) {
                Ok(pieces) => match reader.take_on(pieces) {
                    Ok(()) => Ok(()),
                    Err(halt) => Err(halted(halt)),
                },
                Err(halt) => Err(halt),
            }
        },
    }
}

/// None, where an operation that is no draw has no offsets: they are judged behind all else.
pub fn without_offsets(bending: &Bending) -> Result<(), Halt<RealKind>>
    ensures ok { OnOk result (spec_arcs.no_arc (bending_of bending.now) ≡ Ok None) }
    ensures halt { IfErr result (Stops (spec_arcs.no_arc (bending_of bending.now))) }
{
    match no_arc(bending) {
        Ok(_) => Ok(()),
        Err(kind) => Err(Halt::Fault(kind)),
    }
}

// Flashes the selected aperture.
fn flash_without_offsets(
    reader: &mut RealReader,
    alloc: Global,
    bending: &Bending,
    to: Spot,
) -> Result<(), Halt<RealKind>>
    requires few { reader.old.commands + 1 < 2 ^ 32 }
    requires lawful { IsLawful reader.old }
    requires placed { IsPlaced to }
    ensures ok { OnOk result (HasObeyed reader.old (spec.flash (known reader.old) (bending_of bending.now) to) (Some to) None reader.new) }
    ensures keeps { OnOk result (KeepsRest reader.old reader.new) }
    ensures halt { IfErr result (Stops (spec.flash (known reader.old) (bending_of bending.now) to)) }
{
    match flash_at(reader, alloc, to) {
        Ok(()) => without_offsets(bending),
        Err(halt) => Err(halt),
    }
}

/// Performs an operation outside a region.
#[tactic(auto, unfolding(crate::specs::Rows::perform))]
pub fn perform(
    reader: &mut RealReader,
    alloc: Global,
    code: Code,
    bending: &Bending,
    to: Spot,
) -> Result<(), Halt<RealKind>>
    requires few { reader.old.commands + 1 < 2 ^ 32 }
    requires lawful { IsLawful reader.old }
    requires placed { IsPlaced to }
    ensures ok { OnOk result (HasObeyed reader.old (spec.perform (known reader.old) code (bending_of bending.now) to) (Some to) None reader.new) }
    ensures right { OnOk result (IsRight reader.new) }
    ensures halt { IfErr result (Stops (spec.perform (known reader.old) code (bending_of bending.now) to)) }
{
    match code {
        Code::Draw => draw(reader, bending, to),
        Code::Move => without_offsets(bending),
        Code::Flash => flash_without_offsets(reader, alloc, bending, to),
    }
}
