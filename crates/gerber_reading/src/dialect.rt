//! The dialects of copper files.
ghost use Rattle.std.specs.Prelude.{◌≡◌, ◌+◌, ◌^◌, ◌<◌, IfErr, OnOk};
ghost use Rattle.gerber_words.specs.Stepping.{entry_of};
ghost use Rattle.gerber_reading.specs.Command.{view};
ghost use Rattle.gerber_reading.specs.Dialect as spec;
ghost use Rattle.gerber_reading.specs.Lawful.{IsLawfulCommand};
ghost use Rattle.step_repeat.specs.Figures.{Handling};
ghost use Rattle.gerber_reading.specs.Outcomes.{HasOutcomes, KeepsLayer};
ghost use Rattle.gerber_reading.specs.Reader.{IsLawfulReader, Obeys, Stops, known_of};
ghost use Rattle.gerber_reading.specs.Tools.{Macros};
ghost use Rattle.gerber_reading.specs.declared.tool.Tool.{Tool};

use crate::command::Command;
use crate::reader::Reader;
use file_reading::Halt;
use gerber_words::Word;
use std::alloc::Global;

/// A dialect: what a word says, what a command does, and what the pieces are made of that it makes.
pub trait Dialect {
    /// Why a command is refused.
    type Kind: Copy;

    /// What a flash, a stroke and a contour make.
    type Figure: Drop;

    /// What it keeps of an edge of a contour beside its end: its bend, or nothing.
    type Edge: Copy + Drop;

    /// A standard aperture.
    type Aperture: Copy + Drop;

    /// A figure as plain data, and what is done with such.
    ghost Plain: { Type 0 };

    ghost plain: { Self.Figure → Plain };

    ghost handling: { Handling Plain };

    /// What is right of an aperture that is defined, where a file has these macros.
    ghost Fits: { Macros → Tool Self.Aperture → Type 0 };

    /// What is right of an edge of a contour.
    ghost Keeps: { Self.Edge → Type 0 };

    /// What a word says, and what a command does.
    ghost dialect: { spec.Dialect Plain Self.Edge Self.Aperture Self.Kind };

    /// What an effect says of its command, and that pieces stay on their layer.
    fn is_lawful()
        ensures outcomes { HasOutcomes dialect.table }
        ensures layers { KeepsLayer dialect.table };

    /// What a word says.
    fn read<'a>(word: Word<'a>) -> Command<'a>
        ensures value { view result ≡ dialect.command (entry_of word.entry) }
        ensures lawful { IsLawfulCommand (view result) };

    /// Obeys a command. An `Err` leaves a reader that is of no more use.
    fn obey<'a>(
        reader: &mut Reader<'a, Self::Figure, Self::Edge, Self::Aperture>,
        alloc: Global,
        command: &Command<'a>,
    ) -> Result<(), Halt<Self::Kind>>
        requires lawful { IsLawfulReader plain handling Fits Keeps reader.old }
        requires command { IsLawfulCommand (view command.now) }
        requires few { reader.old.commands + 1 < 2 ^ 32 }
        ensures ok { OnOk result (Obeys plain reader.old (view command.now) (dialect.table.does (known_of plain reader.old) (view command.now)) reader.new) }
        ensures lawful { OnOk result (IsLawfulReader plain handling Fits Keeps reader.new) }
        ensures halt { IfErr result (Stops (dialect.table.does (known_of plain reader.old) (view command.now))) };
}
