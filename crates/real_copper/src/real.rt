//! Reads real copper.
ghost use Rattle.file_reading.specs.declared.fault.FileFault.{FileFault};
ghost use Rattle.real_copper.specs.Draws.{IsNearBend};
ghost use Rattle.real_copper.specs.Figures.{RealFigure, real_handling};
ghost use Rattle.real_copper.specs.RealReader.{plain};
ghost use Rattle.real_copper.specs.Shapes.{plain_reals};
ghost use Rattle.real_copper.specs.Table.{IsRealCopper, IsRealFault, fits, real};
ghost use Rattle.real_shapes.specs.Settled.{is_settled};
ghost use Rattle.step_repeat.specs.Copies.{pieces_by};
ghost use Rattle.std.specs.Prelude.{All, IfErr, IfOk, length, true, ◌≡◌, ◌≤◌};

use crate::anchored::Anchored;
use crate::aperture::RealAperture;
use crate::draw::Bend;
use crate::kind::{RealFault, RealKind};
use crate::obeying::obey;
use crate::words::read_real_command;
use board_shapes::{MOST_LAYERS, Placed};
use file_reading::Halt;
use gerber_reading::{Command, Dialect, Place, Reader, read_by};
use gerber_words::Word;
use real_shapes::RealPiece;
use std::alloc::Global;
use texts::MOST_BYTES;

/// Real copper.
pub struct RealCopper;

impl Dialect for RealCopper {
    type Kind = RealKind;

    type Figure = Anchored;

    type Edge = Option<Bend>;

    type Aperture = RealAperture;

    ghost Plain = { RealFigure };

    ghost plain = { plain };

    ghost handling = { real_handling };

    ghost Fits = { fits };

    ghost Keeps = { IsNearBend };

    ghost dialect = { real };

    fn is_lawful() {}

    fn read<'a>(word: Word<'a>) -> Command<'a> {
        read_real_command(word)
    }

    fn obey<'a>(
        reader: &mut Reader<'a, Anchored, Option<Bend>, RealAperture>,
        alloc: Global,
        command: &Command<'a>,
    ) -> Result<(), Halt<RealKind>> {
        obey(reader, alloc, command)
    }
}

// The shapes of the pieces, which need not be kept near any more.
fn shapes_of(alloc: Global, pieces: Vec<Placed<Anchored>>) -> Result<Vec<RealPiece>, RealFault>
    ensures are { IfOk result (λ reals. plain_reals reals.items ≡ pieces_by plain pieces.items) }
    ensures fault { IfErr result (λ why. why ≡ FileFault.NoMemory) }
{
    let Ok(mut reals) = Vec::with_capacity(alloc, pieces.len()) else {
        return Err(RealFault::NoMemory);
    };
    for piece in pieces {
        let Anchored { shape } = piece.shape;
        let real = Placed {
            shape,
            top: piece.top,
            bottom: piece.bottom,
            origin: piece.origin,
        };
        if let Err(_) = reals.push(real) {
            return Err(RealFault::NoMemory);
        }
    }
    Ok(reals)
}

/// The real copper of a layer, in the order of the commands that make it; all lengths are in u, a tenth of a nanometre: what
/// draws, flashes and contours make, and the copies of blocks.
///
/// `Refused` is the first command with a fault, and the first condition of its row that holds; want of memory is
/// `NoMemory`. The file has at most `MOST_BYTES` bytes.
pub fn read_real(alloc: Global, file: &[u8], place: Place) -> Result<Vec<RealPiece>, RealFault>
    requires layer { (1 ≤ place.layer) × (place.layer ≤ MOST_LAYERS) }
    requires size { length file.now ≤ MOST_BYTES }
    ensures ok { IfOk result (λ pieces. IsRealCopper file.now place (plain_reals pieces.items)) }
    ensures few { IfOk result (λ pieces. length pieces.items ≤ place.room.pieces) }
    ensures layers { IfOk result (λ pieces. All (λ piece. (piece.top ≡ place.layer) × (piece.bottom ≡ place.layer)) pieces.items) }
    ensures settled { IfOk result (λ pieces. All (λ piece. is_settled piece.shape ≡ true) pieces.items) }
    ensures fault { IfErr result (IsRealFault file.now place) }
{
    let pieces = read_by::<RealCopper>(alloc, file, place)?;
    shapes_of(alloc, pieces)
}
