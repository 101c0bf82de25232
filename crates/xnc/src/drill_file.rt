//! Reads a drill file.
ghost use Rattle.std.specs.Prelude.{◌≡◌, ◌+◌, ◌^◌, ◌<◌, ◌≤◌, length, All, IfOk, IfErr, OnOk};
ghost use Rattle.board_shapes.specs.Plain.{plain_pieces};
ghost use Rattle.xnc.specs.DrillFile.{IsFault, IsRead};
ghost use Rattle.xnc.specs.declared.line.DrillLine.TheVariants as form;
ghost use Rattle.xnc.specs.Reader.{Faults, IsLawfulReader, Leaves, Obeys, fault_at};

use crate::drill_lines::read_line;
use crate::kind::{DrillFault, DrillKind};
use crate::line::DrillLine;
use crate::reader::Reader;
use crate::span::Span;
use board_shapes::{Piece, Room};
use file_reading::Halt;
use std::alloc::Global;
use texts::{Lines, MOST_BYTES};

fn fault_at(halt: Halt<DrillKind>, line: u32, at: usize) -> DrillFault
    ensures { result ≡ fault_at halt line at }
{
    match halt {
        Halt::Fault(kind) => DrillFault::Refused { kind, line, at },
        Halt::NoMemory => DrillFault::NoMemory,
    }
}

// Obeys a line that stands at a place. It is inlined into the loop over lines, so that a form is not copied on the way.
#[inline(always)]
fn obey_at(reader: &mut Reader, form: &DrillLine, at: usize) -> Result<(), DrillFault>
    requires lawful { IsLawfulReader reader.old }
    requires few { reader.old.lines + 1 < 2 ^ 32 }
    ensures ok { OnOk result (Obeys reader.old form.now reader.new) }
    ensures lawful { OnOk result (IsLawfulReader reader.new) }
    ensures fault { IfErr result (Faults reader.old form.now at) }
{
    let number = reader.lines + 1;
    reader.obey(form).map_err(|halt| fault_at(halt, number, at))
}

// Obeys the file's end, and gives the pieces. It is a call, since it comes once.
#[inline(never)]
fn finished(mut reader: Reader, at: usize) -> Result<Vec<Piece>, DrillFault>
    requires lawful { IsLawfulReader reader }
    requires few { reader.lines + 1 < 2 ^ 32 }
    ensures ok { IfOk result (λ pieces. Leaves reader form.Finish pieces.items) }
    ensures fault { IfErr result (Faults reader form.Finish at) }
{
    obey_at(&mut reader, &DrillLine::Finish, at)?;
    Ok(reader.into_pieces())
}

/// The barrels of a drill file: one for each hit, slot and straight rout, in the order of the
/// lines, with half the tool's diameter as radius, on the layers of the span. The file has at most
/// `MOST_BYTES` bytes, `file_number` counts from 0, and `room.pieces` is how many pieces may come.
///
/// `Refused` gives the first line with a fault, its number from 1, the offset of its first byte,
/// and the first condition that it breaks; a file without `M30` is refused at the next line number,
/// at its length. `NoMemory` may come at any file.
pub fn read_drill(
    alloc: Global,
    file: &[u8],
    span: Span,
    file_number: u32,
    room: Room,
) -> Result<Vec<Piece>, DrillFault>
    requires { length file.now ≤ MOST_BYTES }
    ensures ok { IfOk result (λ pieces. IsRead file.now (record { from = span.from; to = span.to; file = file_number; room = room.pieces }) (plain_pieces pieces.items)) }
    ensures few { IfOk result (λ pieces. length pieces.items ≤ room.pieces) }
    ensures layers { IfOk result (λ pieces. All (λ piece. (piece.top ≡ span.from) × (piece.bottom ≡ span.to)) pieces.items) }
    ensures fault { IfErr result (IsFault file.now (record { from = span.from; to = span.to; file = file_number; room = room.pieces })) }
{
    let mut lines = Lines::new(file);
    let mut reader = Reader::new(alloc, file.len(), span, file_number, room.pieces);
    loop {
        match lines.next_line() {
            None => return finished(reader, file.len()),
            Some(line) => obey_at(&mut reader, &read_line(span, line.text), line.at)?,
        }
    }
}
