//! What a macro flashes.
ghost use Rattle.std.specs.Prelude.{◌≡◌, ◌++◌, ◌≤◌, false, get_or, true, IfErr, IfOk, OnOk};
ghost use Rattle.aperture_macros.specs.Flashes.{IsBlank, figure_at};
ghost use Rattle.aperture_macros.specs.Seen.{Makes, plain};
ghost use Rattle.board_shapes.specs.Figures.{seen_shape};
ghost use Rattle.board_shapes.specs.Pieces.{plain_pieces};
ghost use Rattle.gerber_layer.specs.Image.{made};
ghost use Rattle.planar.specs.Plane.{IsPlaced};
ghost use Rattle.gerber_layer.specs.Reader.{AreBlank, FlashesAll, Stops, body_of, halt_of_figure, origin_place};
ghost use Rattle.gerber_layer.specs.CommandEffects.{all_flashed, figures_of, listed};

use aperture_macros::{FigureFault, Primitive};
use board_shapes::{Origin, Piece, Placed, Shape};
use file_reading::Halt;
use gerber_reading::GerberKind;
use lengths::decimal::{Decimal, Unit};
use planar::Spot;
use std::alloc::Global;

/// The pieces that the primitives of a macro flash, in order, on a layer and of this origin. A primitive
/// that is marked has no image with these parameters: its lengths are not read again.
pub fn pieces_of(
    alloc: Global,
    body: &[Primitive],
    parameters: &[Decimal],
    unit: Unit,
    blanks: &[bool],
    to: Spot,
    layer: u8,
    origin: Origin,
) -> Result<Vec<Piece>, Halt<GerberKind>>
    requires blank { AreBlank (body_of body.now) parameters.now unit blanks.now }
    requires placed { IsPlaced to }
    requires first { origin.copy ≡ 0 }
    requires from_first { 1 ≤ layer }
    ensures ok { IfOk result (λ pieces. FlashesAll (all_flashed (figures_of (body_of body.now) parameters.now unit to)) (origin_place layer origin) origin.command pieces.items) }
    ensures halt { IfErr result (Stops (all_flashed (figures_of (body_of body.now) parameters.now unit to))) }
{
    let mut pieces = Vec::new(alloc);
    for (i, primitive) in body.iter().enumerate() {
        let blank = is_marked(blanks, i);
        let shape = match figure_unless(alloc, blank, primitive, parameters, unit, to) {
            Ok(shape) => shape,
            Err(fault) => return Err(halt_of_figure(fault)),
        };
        push_shape(shape, layer, origin, &mut pieces)?;
    }
    Ok(pieces)
}

// Whether the primitive of this number is marked: where there are fewer marks, it is not.
fn is_marked(marks: &[bool], i: usize) -> bool
    ensures { result ≡ get_or marks.now i false }
{
    match marks.get(i) {
        Some(mark) => *mark,
        None => false,
    }
}

// What a primitive flashes, which is nothing where it has no image.
fn figure_unless(
    alloc: Global,
    blank: bool,
    primitive: &Primitive,
    parameters: &[Decimal],
    unit: Unit,
    to: Spot,
) -> Result<Option<Shape>, FigureFault>
    requires blank { blank ≡ true → IsBlank (plain primitive.now) parameters.now unit }
    requires placed { IsPlaced to }
    ensures { Makes result (figure_at (plain primitive.now) parameters.now unit to) }
{
    if blank {
        return Ok(None);
    }
    primitive.figure(alloc, parameters, unit, to)
}

// A piece more, if there is a shape.
fn push_shape(
    shape: Option<Shape>,
    layer: u8,
    origin: Origin,
    pieces: &mut Vec<Piece>,
) -> Result<(), Halt<GerberKind>>
    requires first { origin.copy ≡ 0 }
    requires from_first { 1 ≤ layer }
    ensures ok { OnOk result (plain_pieces pieces.new.items ≡ plain_pieces pieces.old.items ++ made (origin_place layer origin) origin.command (listed (seen_shape shape))) }
    ensures halt { IfErr result (λ h. h ≡ Halt.NoMemory) }
{
    let Some(shape) = shape else {
        return Ok(());
    };
    let piece = Placed {
        shape,
        top: layer,
        bottom: layer,
        origin,
    };
    match pieces.push(piece) {
        Ok(()) => Ok(()),
        Err(_) => Err(Halt::NoMemory),
    }
}

// What stops the reader where a primitive has no figure: its lengths were judged before.
fn halt_of_figure(fault: FigureFault) -> Halt<GerberKind>
    ensures { result ≡ halt_of_figure fault }
{
    match fault {
        FigureFault::Macro(_) => Halt::Fault(GerberKind::OutOfRange),
        FigureFault::NoMemory => Halt::NoMemory,
    }
}
