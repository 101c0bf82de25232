//! Reads a netlist.
ghost use Rattle.std.specs.Prelude.{◌≡◌, ◌≤◌, length, IfOk, IfErr, OnOk};
ghost use Rattle.ipc356_records.specs.Lawful.{IsLawfulForm};
ghost use Rattle.ipc356_records.specs.Line.{finishes, view};
ghost use Rattle.ipc356_records.specs.NetlistFile.{FitsBoard, IsFault, IsRead};
ghost use Rattle.ipc356_records.specs.Reader.{Faults, IsLawfulReader, Leaves, Obeys, fault_at};

use crate::kind::{RecordFault, RecordKind};
use crate::line::RecordLine;
use crate::reader::Reader;
use crate::record::Records;
use crate::record_lines::read_form;
use board_shapes::{MOST_LAYERS, Probe};
use file_reading::Halt;
use lengths::rows::Rows;
use lengths::text::Text;
use std::alloc::Global;
use texts::MOST_BYTES;

/// What a netlist holds: the probes of its test records in order, and the distinct names of its nets in first-seen order.
#[derive(Drop)]
pub struct Netlist {
    pub probes: Rows<Probe>,
    pub names: Rows<Text>,
}

fn fault_at(halt: Halt<RecordKind>, line: u32) -> RecordFault
    ensures { result ≡ fault_at halt line }
{
    match halt {
        Halt::Fault(kind) => RecordFault::Refused { kind, line },
        Halt::NoMemory => RecordFault::NoMemory,
    }
}

/// Obeys a line of this number.
pub fn obey_at<'a>(
    reader: &mut Reader<'a>,
    form: &RecordLine<'a>,
    line: u32,
) -> Result<(), RecordFault>
    requires lawful { IsLawfulReader reader.old }
    requires form { IsLawfulForm (view form.now) }
    ensures ok { OnOk result (Obeys reader.old (view form.now) reader.new) }
    ensures lawful { OnOk result (IsLawfulReader reader.new) }
    ensures fault { IfErr result (Faults reader.old (view form.now) line) }
{
    reader.obey(form).map_err(|halt| fault_at(halt, line))
}

/// Obeys the file's end, and gives the netlist.
pub fn finished(alloc: Global, mut reader: Reader, line: u32) -> Result<Netlist, RecordFault>
    requires lawful { IsLawfulReader reader }
    ensures ok { IfOk result (λ n. Leaves reader.entry finishes n.probes n.names) }
    ensures fault { IfErr result (Faults reader.entry finishes line) }
{
    obey_at(&mut reader, &RecordLine::Finish, line)?;
    reader
        .into_netlist(alloc)
        .map_err(|_| RecordFault::NoMemory)
}

/// The probes of a netlist in record order and the distinct names of its nets, or the first faulty line. The board has
/// 1 to `MOST_LAYERS` layers, the file at most `MOST_BYTES` bytes.
///
/// `Refused` gives the first line with a fault, from 1, and the first condition that it breaks; a file without `999` is
/// refused at the next line number. `NoMemory` may come at any file.
pub fn read_netlist(alloc: Global, file: &[u8], layers: u8) -> Result<Netlist, RecordFault>
    requires some_layer { 1 ≤ layers }
    requires few_layers { layers ≤ MOST_LAYERS }
    requires size { length file.now ≤ MOST_BYTES }
    ensures ok { IfOk result (λ n. IsRead file.now layers n.probes n.names) }
    ensures fits { IfOk result (λ n. FitsBoard layers n.probes n.names) }
    ensures fault { IfErr result (IsFault file.now layers) }
{
    let mut records = Records::new(file);
    let mut reader = Reader::new(alloc, layers);
    while let Some(record) = records.next_record() {
        obey_at(&mut reader, &read_form(&record), record.line)?;
    }
    finished(alloc, reader, records.line())
}
