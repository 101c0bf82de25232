//! Reads a copper file by a dialect.
ghost use Rattle.std.specs.Prelude.{◌≡◌, ◌+◌, ◌^◌, ◌<◌, ◌≤◌, length, All, IfErr, IfOk, OnOk};
ghost use Rattle.step_repeat.specs.Copies.{pieces_by};
ghost use Rattle.gerber_reading.specs.Command.{view};
ghost use Rattle.gerber_reading.specs.Dialect.{IsFaultBy, IsReadBy};
ghost use Rattle.gerber_reading.specs.Lawful.{IsLawfulCommand};
ghost use Rattle.gerber_reading.specs.Reader.{IsLawfulReader, Leaves, Obeys, StopsAt, known_of};

use crate::command::Command;
use crate::dialect::Dialect;
use crate::place::Place;
use crate::reader::Reader;
use board_shapes::{MOST_LAYERS, Placed};
use file_reading::FileFault;
use gerber_words::laws::words_lie_ahead;
use gerber_words::{Step, Words};
use std::alloc::Global;
use texts::MOST_BYTES;

// Obeys a command that stands at a place.
#[inline(always)]
fn obey_at<'a, D: Dialect>(
    alloc: Global,
    reader: &mut Reader<'a, D::Figure, D::Edge, D::Aperture>,
    command: &Command<'a>,
    at: usize,
) -> Result<(), FileFault<D::Kind>>
    requires lawful { IsLawfulReader D.plain D.handling D.Fits D.Keeps reader.old }
    requires command { IsLawfulCommand (view command.now) }
    requires few { reader.old.commands + 1 < 2 ^ 32 }
    ensures ok { OnOk result (Obeys D.plain reader.old (view command.now) (D.dialect.table.does (known_of D.plain reader.old) (view command.now)) reader.new) }
    ensures lawful { OnOk result (IsLawfulReader D.plain D.handling D.Fits D.Keeps reader.new) }
    ensures stops { IfErr result (StopsAt D.plain D.dialect.table reader.old (view command.now) at) }
{
    let command_number = reader.commands + 1;
    match D::obey(reader, alloc, command) {
        Ok(()) => Ok(()),
        Err(halt) => Err(halt.fault_at(command_number, at)),
    }
}

// Obeys the last command, and gives the pieces.
fn finished<'a, D: Dialect>(
    alloc: Global,
    mut reader: Reader<'a, D::Figure, D::Edge, D::Aperture>,
    command: Command<'a>,
    at: usize,
) -> Result<Vec<Placed<D::Figure>>, FileFault<D::Kind>>
    requires lawful { IsLawfulReader D.plain D.handling D.Fits D.Keeps reader }
    requires command { IsLawfulCommand (view command) }
    requires few { reader.commands + 1 < 2 ^ 32 }
    ensures ok { IfOk result (λ pieces. Leaves D.plain D.dialect.table reader.entry (view command.entry) pieces.items) }
    ensures few { IfOk result (λ pieces. length pieces.items ≤ reader.entry.room.pieces) }
    ensures stops { IfErr result (StopsAt D.plain D.dialect.table reader.entry (view command.entry) at) }
{
    obey_at::<D>(alloc, &mut reader, &command, at)?;
    Ok(reader.into_pieces())
}

/// The pieces of a layer's copper by a dialect, in the order of the commands that make them; all lengths are in u,
/// a tenth of a nanometre.
///
/// `Refused` is the first command with a fault, and the first condition of its row that holds; want of memory is
/// `NoMemory`. The file has at most `MOST_BYTES` bytes.
pub fn read_by<D: Dialect>(
    alloc: Global,
    file: &[u8],
    place: Place,
) -> Result<Vec<Placed<D::Figure>>, FileFault<D::Kind>>
    requires layer { (1 ≤ place.layer) × (place.layer ≤ MOST_LAYERS) }
    requires size { length file.now ≤ MOST_BYTES }
    ensures ok { IfOk result (λ pieces. IsReadBy D.dialect file.now place (pieces_by D.plain pieces.items)) }
    ensures few { IfOk result (λ pieces. length pieces.items ≤ place.room.pieces) }
    ensures layers { IfOk result (λ pieces. All (λ piece. (piece.top ≡ place.layer) × (piece.bottom ≡ place.layer)) pieces.items) }
    ensures fault { IfErr result (IsFaultBy D.dialect file.now place) }
{
    words_lie_ahead();
    D::is_lawful();
    let mut words = Words::new(file);
    let mut reader = Reader::new(alloc, file.len(), place);
    loop {
        match words.next_word() {
            Step::Word(word) => obey_at::<D>(alloc, &mut reader, &D::read(word), word.at)?,
            Step::End => return finished::<D>(alloc, reader, Command::Finish, file.len()),
            Step::Broken(fault, at) => return finished::<D>(
                alloc,
                reader,
                Command::Broken(fault),
                at,
            ),
        }
    }
}
