//! The dialects of copper whose pieces are shapes: by the standard apertures alone, and with macros.
ghost use Rattle.std.specs.Prelude.{◌≡◌};
ghost use Rattle.board_shapes.specs.Figures.{Figure, figure_of};
ghost use Rattle.step_repeat.specs.Figures.{shape_handling};
ghost use Rattle.gerber_layer.specs.Layer.{standard};
ghost use Rattle.gerber_layer.specs.MacroLayer.{with_macros};
ghost use Rattle.gerber_layer.specs.MacroReader.{any_halt};
ghost use Rattle.gerber_layer.specs.Reader.{Fits, KeepsStraight};

use crate::macro_kind::FlattenKind;
use crate::macro_rows::{effect_with_macros, has_few_radii};
use crate::operations::obey;
use crate::reader::{PlainReader, go_on};
use crate::word_commands::{read_command, read_macro_command};
use apertures::Aperture;
use board_shapes::Shape;
use file_reading::Halt;
use gerber_reading::{Command, Dialect, GerberKind};
use gerber_words::Word;
use std::alloc::Global;

/// The standard apertures alone.
pub struct Plain;

impl Dialect for Plain {
    type Kind = GerberKind;

    type Figure = Shape;

    type Edge = ();

    type Aperture = Aperture;

    ghost Plain = { Figure };

    ghost plain = { figure_of };

    ghost handling = { shape_handling };

    ghost Fits = { Fits };

    ghost Keeps = { KeepsStraight };

    ghost dialect = { standard };

    fn is_lawful() {}

    fn read<'a>(word: Word<'a>) -> Command<'a> {
        read_command(word)
    }

    #[inline(always)]
    fn obey<'a>(
        reader: &mut PlainReader<'a>,
        alloc: Global,
        command: &Command<'a>,
    ) -> Result<(), Halt<GerberKind>> {
        obey(reader, alloc, command)
    }
}

/// Aperture macros too (Gerber Layer Format Specification, 4.5).
pub struct WithMacros;

impl Dialect for WithMacros {
    type Kind = FlattenKind;

    type Figure = Shape;

    type Edge = ();

    type Aperture = Aperture;

    ghost Plain = { Figure };

    ghost plain = { figure_of };

    ghost handling = { shape_handling };

    ghost Fits = { Fits };

    ghost Keeps = { KeepsStraight };

    ghost dialect = { with_macros };

    fn is_lawful() {}

    fn read<'a>(word: Word<'a>) -> Command<'a> {
        read_macro_command(word)
    }

    fn obey<'a>(
        reader: &mut PlainReader<'a>,
        alloc: Global,
        command: &Command<'a>,
    ) -> Result<(), Halt<FlattenKind>> {
        let effect = effect_with_macros(reader, alloc, command)?;
        let ends = effect.is_end();
        if let Err(halt) = go_on(reader, alloc, command, effect) {
            return Err(any_halt(halt));
        }
        if ends {
            has_few_radii(reader, alloc)
        } else {
            Ok(())
        }
    }
}

// What stops the reader at a row that is the same without macros.
fn any_halt(halt: Halt<GerberKind>) -> Halt<FlattenKind>
    ensures { result ≡ any_halt halt }
{
    match halt {
        Halt::Fault(kind) => Halt::Fault(FlattenKind::Gerber(kind)),
        Halt::NoMemory => Halt::NoMemory,
    }
}
