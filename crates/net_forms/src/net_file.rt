//! Reads a netlist as tools write it.
ghost use Rattle.std.specs.Prelude.{◌≤◌, length, IfOk, IfErr};
ghost use Rattle.ipc356_records.specs.NetlistFile.{FitsBoard};
ghost use Rattle.net_forms.specs.NetFile.{IsFault, IsRead};

use crate::net_lines::read_form;
use board_shapes::MOST_LAYERS;
use ipc356_records::netlist::{finished, obey_at};
use ipc356_records::reader::Reader;
use ipc356_records::{Netlist, RecordFault, Records};
use std::alloc::Global;
use texts::MOST_BYTES;

/// The probes of a netlist in record order and the distinct names of its nets, or the first faulty line: as
/// `ipc356_records::read_netlist`, with the further forms.
pub fn read_forms(alloc: Global, file: &[u8], layers: u8) -> Result<Netlist, RecordFault>
    requires some_layer { 1 ≤ layers }
    requires few_layers { layers ≤ MOST_LAYERS }
    requires size { length file.now ≤ MOST_BYTES }
    ensures ok { IfOk result (λ n. IsRead file.now layers n.probes n.names) }
    ensures fits { IfOk result (λ n. FitsBoard layers n.probes n.names) }
    ensures fault { IfErr result (IsFault file.now layers) }
{
    let mut records = Records::new(file);
    let mut reader = Reader::new(alloc, layers);
    while let Some(record) = records.next_record() {
        obey_at(&mut reader, &read_form(&record), record.line)?;
    }
    finished(alloc, reader, records.line())
}
