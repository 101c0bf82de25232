//! What the files of a package are read as.
ghost use Rattle.std.specs.Prelude.{◌≡◌, ◌⊎◌, ◌≤◌, length, OnOk, IfErr};
ghost use Rattle.board_package.specs.Manifest.{IsOnBoard};
ghost use Rattle.board_package.specs.declared.fault.BuildFault.TheVariants as build;
ghost use Rattle.board_package.specs.Parts.{IsLawfulParts};
ghost use Rattle.real_package.specs.RealBoards.{plain_real_board};
ghost use Rattle.real_package.specs.RealCauses.{HaltsReal, IsCopperFault, IsCopperRefusal, IsDrillFault, IsNetlistFault};
ghost use Rattle.real_package.specs.RealFiles.{ReadsReal};
ghost use Rattle.real_package.specs.declared.fault.RealBuildFault.TheVariants as fault;

use crate::board::{RealBoard, as_real_pieces, room_left};
use crate::fault::RealBuildFault;
use board_package::{BuildFault, Entry, Refusal, Role, refused};
use gerber_layer::FlattenKind;
use gerber_reading::Place;
use ipc356_records::RecordFault;
use lengths::text::Text;
use real_copper::{RealFault, RealKind, read_real};
use std::alloc::Global;
use texts::MOST_BYTES;
use xnc::{DrillFault, Span};

/// The fault of a copper file that is not read.
fn copper_fault(name: &Text, why: RealFault) -> RealBuildFault
    ensures { IsCopperFault name.now why result }
{
    match why {
        RealFault::Refused { kind, command, at } => refused_copper(name, kind, command, at),
        RealFault::NoMemory => RealBuildFault::Build(BuildFault::NoMemory),
    }
}

/// The fault of a copper file that is refused, or want of memory for its name.
fn refused_copper(name: &Text, kind: RealKind, command: u32, at: usize) -> RealBuildFault
    ensures { IsCopperRefusal name.now kind command at result }
{
    match kind {
        RealKind::Copper(kind) => match kind {
            FlattenKind::Gerber(kind) => {
                let why = refused(name, Refusal::Layer { kind, command, at });
                RealBuildFault::Build(why)
            }
            of_macro => refused_arc(name, RealKind::Copper(of_macro), command, at),
        },
        of_arc => refused_arc(name, of_arc, command, at),
    }
}

/// The fault of one that is refused for an arc or a macro.
fn refused_arc(name: &Text, kind: RealKind, command: u32, at: usize) -> RealBuildFault
    ensures { (result ≡ fault.Arc name.now kind command at) ⊎ (result ≡ fault.Build build.NoMemory) }
{
    let Ok(file) = name.clone() else {
        return RealBuildFault::Build(BuildFault::NoMemory);
    };
    RealBuildFault::Arc {
        file,
        kind,
        command,
        at,
    }
}

/// The fault of a drill file that is not read.
fn drill_fault(name: &Text, why: DrillFault) -> RealBuildFault
    ensures { IsDrillFault name.now why result }
{
    match why {
        DrillFault::Refused { kind, line, at } => {
            let own = refused(name, Refusal::Drill { kind, line, at });
            RealBuildFault::Build(own)
        }
        DrillFault::NoMemory => RealBuildFault::Build(BuildFault::NoMemory),
    }
}

/// The fault of a netlist that is not read.
fn netlist_fault(name: &Text, why: RecordFault) -> RealBuildFault
    ensures { IsNetlistFault name.now why result }
{
    match why {
        RecordFault::Refused { kind, line } => {
            let own = refused(name, Refusal::Netlist { kind, line });
            RealBuildFault::Build(own)
        }
        RecordFault::NoMemory => RealBuildFault::Build(BuildFault::NoMemory),
    }
}

/// Reads the file of an entry, and adds what it gives.
pub fn read_file(
    alloc: Global,
    entry: &Entry,
    bytes: &[u8],
    board: &mut RealBoard,
) -> Result<(), RealBuildFault>
    requires short { length bytes.now ≤ MOST_BYTES }
    requires lawful { IsLawfulParts board.old }
    requires role { IsOnBoard board.old.layers entry.now.role }
    ensures ok { OnOk result (ReadsReal entry.now.role entry.now.number bytes.now (plain_real_board board.old) (plain_real_board board.new)) }
    ensures lawful { OnOk result (IsLawfulParts board.new) }
    ensures layers { OnOk result (board.new.layers ≡ board.old.layers) }
    ensures fault { IfErr result (HaltsReal entry.now bytes.now (plain_real_board board.old)) }
{
    let room = room_left(board.pieces.as_slice());
    let file = entry.number;
    match entry.role {
        Role::Copper { layer } => match read_real(alloc, bytes, Place { layer, file, room }) {
            Ok(pieces) => Ok(board.add(pieces)?),
            Err(why) => Err(copper_fault(&entry.name, why)),
        },
        Role::Drill { from, to } => match drill_forms::read_forms(
            alloc,
            bytes,
            Span { from, to },
            file,
            room,
        ) {
            Ok(pieces) => match as_real_pieces(alloc, pieces) {
                Ok(barrels) => Ok(board.add(barrels)?),
                Err(_) => Err(RealBuildFault::Build(BuildFault::NoMemory)),
            },
            Err(why) => Err(drill_fault(&entry.name, why)),
        },
        Role::Netlist => match net_forms::read_forms(alloc, bytes, board.layers) {
            Ok(netlist) => {
                board.probes = netlist.probes;
                board.names = netlist.names;
                Ok(())
            }
            Err(why) => Err(netlist_fault(&entry.name, why)),
        },
    }
}
