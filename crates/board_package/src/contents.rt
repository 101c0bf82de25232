//! What the files of a package are read as.
ghost use Rattle.std.specs.Prelude.{◌≡◌, ◌≤◌, length, OnOk, IfErr};
ghost use Rattle.board_package.specs.Causes.{Halts};
ghost use Rattle.board_package.specs.Manifest.{IsOnBoard};
ghost use Rattle.board_package.specs.Parts.{board_so_far, IsLawfulParts};
ghost use Rattle.board_package.specs.Contents.{Reads};

use crate::entry::{Entry, Role};
use crate::fault::{BuildFault, refused};
use crate::parts::{Parts, room_left};
use board_shapes::Shape;
use file_reading::RefusalKind;
use gerber_layer::read_layer;
use gerber_reading::{GerberKind, LayerFault};
use ipc356_records::{RecordFault, RecordKind, read_netlist};
use std::alloc::Global;
use texts::MOST_BYTES;
use xnc::{DrillFault, DrillKind, Span, read_drill};

/// Why a file is refused: the first faulty command of a copper file, or line of another, by its kind, its number, from 1, and
/// the place of its first byte, from 0; that of a netlist has no place.
#[derive(Clone, Copy, Debug)]
pub enum Refusal {
    Layer {
        kind: GerberKind,
        command: u32,
        at: usize,
    },
    Drill {
        kind: DrillKind,
        line: u32,
        at: usize,
    },
    Netlist {
        kind: RecordKind,
        line: u32,
    },
}

impl Refusal {
    ghost use Rattle.board_package.specs.Refusals.{refusal_row};

    /// The number of its kind, from 1.
    pub fn number(self) -> u32
        ensures { result ≡ (refusal_row self).number }
    {
        match self {
            Refusal::Layer { kind, .. } => kind.number(),
            Refusal::Drill { kind, .. } => kind.number(),
            Refusal::Netlist { kind, .. } => kind.number(),
        }
    }

    /// The name of its kind.
    pub fn name(self) -> &'static str
        ensures { result.now ≡ (refusal_row self).name }
    {
        match self {
            Refusal::Layer { kind, .. } => kind.name(),
            Refusal::Drill { kind, .. } => kind.name(),
            Refusal::Netlist { kind, .. } => kind.name(),
        }
    }
}

/// Reads the file of an entry, and adds what it gives.
pub fn read_file(
    alloc: Global,
    entry: &Entry,
    file: &[u8],
    parts: &mut Parts<Shape>,
) -> Result<(), BuildFault>
    requires short { length file.now ≤ MOST_BYTES }
    requires lawful { IsLawfulParts parts.old }
    requires role { IsOnBoard parts.old.layers entry.now.role }
    ensures ok { OnOk result (Reads entry.now.role entry.now.number file.now (board_so_far parts.old) (board_so_far parts.new)) }
    ensures lawful { OnOk result (IsLawfulParts parts.new) }
    ensures layers { OnOk result (parts.new.layers ≡ parts.old.layers) }
    ensures fault { IfErr result (Halts entry.now file.now (board_so_far parts.old)) }
{
    let room = room_left(parts.pieces.as_slice());
    match entry.role {
        Role::Copper { layer } => match read_layer(alloc, file, layer, entry.number, room) {
            Ok(pieces) => parts.add(pieces),
            Err(LayerFault::Refused { kind, command, at }) => {
                Err(refused(&entry.name, Refusal::Layer { kind, command, at }))
            }
            Err(LayerFault::NoMemory) => Err(BuildFault::NoMemory),
        },
        Role::Drill { from, to } => {
            match read_drill(alloc, file, Span { from, to }, entry.number, room) {
                Ok(pieces) => parts.add(pieces),
                Err(DrillFault::Refused { kind, line, at }) => {
                    Err(refused(&entry.name, Refusal::Drill { kind, line, at }))
                }
                Err(DrillFault::NoMemory) => Err(BuildFault::NoMemory),
            }
        }
        Role::Netlist => match read_netlist(alloc, file, parts.layers) {
            Ok(netlist) => {
                parts.probes = netlist.probes;
                parts.names = netlist.names;
                Ok(())
            }
            Err(RecordFault::Refused { kind, line }) => {
                Err(refused(&entry.name, Refusal::Netlist { kind, line }))
            }
            Err(RecordFault::NoMemory) => Err(BuildFault::NoMemory),
        },
    }
}
