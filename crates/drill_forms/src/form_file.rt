//! Reads a drill file as tools write it.
ghost use Rattle.std.specs.Prelude.{◌≡◌, ◌+◌, ◌^◌, ◌<◌, ◌≤◌, length, All, IfOk, IfErr, OnOk};
ghost use Rattle.board_shapes.specs.Plain.{plain_pieces};
ghost use Rattle.drill_forms.specs.FormFile.{IsFault, IsRead};
ghost use Rattle.drill_forms.specs.Reader.{Faults, Leaves, Obeys};
ghost use Rattle.drill_forms.specs.declared.form.FormLine.TheVariants as form;
ghost use Rattle.xnc.specs.Reader.{IsLawfulReader, fault_at};
ghost use Rattle.xnc.specs.declared.line.DrillLine.TheVariants as line;

use crate::form::FormLine;
use crate::form_lines::read_form;
use crate::form_reader::FormReader;
use board_shapes::{Piece, Room};
use file_reading::Halt;
use std::alloc::Global;
use texts::{Lines, MOST_BYTES};
use xnc::line::DrillLine;
use xnc::{DrillFault, DrillKind, Span};

fn fault_at(halt: Halt<DrillKind>, line: u32, at: usize) -> DrillFault
    ensures { result ≡ fault_at halt line at }
{
    match halt {
        Halt::Fault(kind) => DrillFault::Refused { kind, line, at },
        Halt::NoMemory => DrillFault::NoMemory,
    }
}

// Obeys a line that stands at a place.
fn obey_at(reader: &mut FormReader, form: &FormLine, at: usize) -> Result<(), DrillFault>
    requires lawful { IsLawfulReader reader.old.reader }
    requires few { reader.old.reader.lines + 1 < 2 ^ 32 }
    ensures ok { OnOk result (Obeys reader.old form.now reader.new) }
    ensures lawful { OnOk result (IsLawfulReader reader.new.reader) }
    ensures fault { IfErr result (Faults reader.old form.now at) }
{
    let number = reader.reader.lines + 1;
    reader.obey(form).map_err(|halt| fault_at(halt, number, at))
}

// Obeys the file's end, and gives the pieces.
fn finished(mut reader: FormReader, at: usize) -> Result<Vec<Piece>, DrillFault>
    requires lawful { IsLawfulReader reader.reader }
    requires few { reader.reader.lines + 1 < 2 ^ 32 }
    ensures ok { IfOk result (λ pieces. Leaves reader (form.Says line.Finish) pieces.items) }
    ensures fault { IfErr result (Faults reader (form.Says line.Finish) at) }
{
    obey_at(&mut reader, &FormLine::Says(DrillLine::Finish), at)?;
    Ok(reader.into_pieces())
}

/// The barrels of a drill file as tools write it: as `xnc::read_drill`, with the further forms of specs/FormLines.antt. Unplated
/// tools make no barrels.
pub fn read_forms(
    alloc: Global,
    file: &[u8],
    span: Span,
    file_number: u32,
    room: Room,
) -> Result<Vec<Piece>, DrillFault>
    requires { length file.now ≤ MOST_BYTES }
    ensures ok { IfOk result (λ pieces. IsRead file.now (record { from = span.from; to = span.to; file = file_number; room = room.pieces }) (plain_pieces pieces.items)) }
    ensures few { IfOk result (λ pieces. length pieces.items ≤ room.pieces) }
    ensures layers { IfOk result (λ pieces. All (λ piece. (piece.top ≡ span.from) × (piece.bottom ≡ span.to)) pieces.items) }
    ensures fault { IfErr result (IsFault file.now (record { from = span.from; to = span.to; file = file_number; room = room.pieces })) }
{
    let mut lines = Lines::new(file);
    let mut reader = FormReader::new(alloc, file.len(), span, file_number, room.pieces);
    loop {
        match lines.next_line() {
            None => return finished(reader, file.len()),
            Some(line) => obey_at(&mut reader, &read_form(span, line.text), line.at)?,
        }
    }
}
