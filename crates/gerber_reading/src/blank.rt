//! A dialect without copper: each word says nothing. It shows what a dialect gives.
ghost use Rattle.board_shapes.specs.Figures.{Figure, figure_of};
ghost use Rattle.step_repeat.specs.Figures.{shape_handling};
ghost use Rattle.gerber_reading.specs.Blank.{FitsBlank, KeepsBlank, blank};

use crate::command::Command;
use crate::dialect::Dialect;
use crate::kind::GerberKind;
use crate::reader::Reader;
use board_shapes::Shape;
use file_reading::Halt;
use gerber_words::Word;
use std::alloc::Global;

/// Each word says nothing, so that no file has an end.
pub struct Blank;

impl Dialect for Blank {
    type Kind = GerberKind;

    type Figure = Shape;

    type Edge = ();

    type Aperture = ();

    ghost Plain = { Figure };

    ghost plain = { figure_of };

    ghost handling = { shape_handling };

    ghost Fits = { FitsBlank };

    ghost Keeps = { KeepsBlank };

    ghost dialect = { blank };

    fn is_lawful() {}

    fn read<'a>(_word: Word<'a>) -> Command<'a> {
        Command::Nothing
    }

    fn obey<'a>(
        reader: &mut Reader<'a, Shape, (), ()>,
        _alloc: Global,
        command: &Command<'a>,
    ) -> Result<(), Halt<GerberKind>> {
        match *command {
            Command::Nothing => {
                reader.commands += 1;
                Ok(())
            },
            _ => Err(Halt::Fault(GerberKind::NotEnded)),
        }
    }
}
