//! The real board of a package.
ghost use Rattle.std.specs.Prelude.{◌≡◌, All, IfSome, IfOk, IfErr, OnOk, MatchResult};
ghost use Rattle.board_package.specs.Causes.{HandedCauseBy, HasCauseBy, KeepsFaultsBy, Leaves, Spares};
ghost use Rattle.board_package.specs.HandedBoard.{ComesAlongHanded, ComesNext, GoesHanded, StopsAmongHanded, StopsAtHanded, course};
ghost use Rattle.board_package.specs.Manifest.{IsOnBoard};
ghost use Rattle.board_package.specs.PackageBoard.{WalksBy};
ghost use Rattle.real_package.specs.HandedReal.{IsRealBoardHanded, IsFirstRealStopHanded, RealComesHanded, as_real_board};
ghost use Rattle.board_package.specs.Parts.{IsLawfulParts};
ghost use Rattle.real_package.specs.RealBoards.{plain_real_board};
ghost use Rattle.real_package.specs.RealCauses.{real_faults};
ghost use Rattle.real_package.specs.RealPackage.{IsFirstRealStop, IsRealBoardOf, RealComes};

use crate::board::RealBoard;
use crate::contents::read_file;
use crate::fault::RealBuildFault;
use board_io::Package;
use board_package::{Entry, take_file, take_manifest};
use lengths::text::Text;
use std::alloc::Global;

/// The real board of a package under the name of its manifest: the pieces of its copper files, as real copper, and then its
/// drill files', the probes and names of its netlist, and as many layers as copper files.
///
/// It takes the manifest, each copper file, each drill file and the netlist, in this order. Each is judged before the
/// next is taken, and after a refusal nothing more is taken. No frame is judged.
pub fn build_real<P: Package>(
    alloc: Global,
    manifest: &Text,
    package: &mut P,
) -> Result<RealBoard, RealBuildFault>
    ensures leaves { Leaves P.held P.handed P.faults «package».old «package».new }
    ensures spared { Spares (KeepsFaultsBy real_faults) P.faults P.lost «package».old «package».new result }
    ensures told { MatchResult result (λ board. IfSome (P.held «package».old) (λ files. IsRealBoardOf files manifest.now (plain_real_board board))) (HasCauseBy real_faults (P.held «package».old) (λ files stop. IsFirstRealStop files manifest.now stop) (λ files name. RealComes files manifest.now name) (P.faults «package».old) (P.faults «package».new) (P.lost «package».new)) }
    ensures handed { MatchResult result (λ board. IsRealBoardHanded (P.handed «package».old) (P.handed «package».new) manifest.now (plain_real_board board)) (HandedCauseBy real_faults (λ stop. IsFirstRealStopHanded (P.handed «package».old) (P.handed «package».new) manifest.now stop) (λ name. RealComesHanded (P.handed «package».old) (P.handed «package».new) manifest.now name) (P.faults «package».old) (P.faults «package».new) (P.lost «package».new)) }
    ensures limits { IfOk result (λ board. IsLawfulParts board) }
{
    let listed = take_manifest(alloc, manifest, package)?;
    let mut board = RealBoard::new(alloc, listed.layers);
    take_files(alloc, package, listed.files.as_slice(), &mut board)?;
    Ok(board)
}

/// Takes the files of the order, and adds what they give.
fn take_files<P: Package>(
    alloc: Global,
    package: &mut P,
    entries: &[Entry],
    board: &mut RealBoard,
) -> Result<(), RealBuildFault>
    requires lawful { IsLawfulParts board.old }
    requires roles { All (λ e. IsOnBoard board.old.layers e.role) entries.now }
    ensures leaves { Leaves P.held P.handed P.faults «package».old «package».new }
    ensures spared { Spares (KeepsFaultsBy real_faults) P.faults P.lost «package».old «package».new result }
    ensures handed { OnOk result (WalksBy (GoesHanded as_real_board) entries.now (course (P.handed «package».old) (plain_real_board board.old)) (course (P.handed «package».new) (plain_real_board board.new))) }
    ensures lawful { OnOk result (IsLawfulParts board.new) }
    ensures handed_cause { IfErr result (HandedCauseBy real_faults (λ stop. StopsAmongHanded as_real_board entries.now (course (P.handed «package».old) (plain_real_board board.old)) (P.handed «package».new) stop) (λ name. ComesAlongHanded as_real_board entries.now (course (P.handed «package».old) (plain_real_board board.old)) (P.handed «package».new) name) (P.faults «package».old) (P.faults «package».new) (P.lost «package».new)) }
{
    let mut file = Vec::new(alloc);
    for entry in entries {
        take_entry(alloc, package, entry, board, &mut file)?;
    }
    Ok(())
}

/// Takes one file of the order into `file`, and adds what it gives.
fn take_entry<P: Package>(
    alloc: Global,
    package: &mut P,
    entry: &Entry,
    board: &mut RealBoard,
    file: &mut Vec<u8>,
) -> Result<(), RealBuildFault>
    requires lawful { IsLawfulParts board.old }
    requires role { IsOnBoard board.old.layers entry.now.role }
    ensures leaves { Leaves P.held P.handed P.faults «package».old «package».new }
    ensures spared { Spares (KeepsFaultsBy real_faults) P.faults P.lost «package».old «package».new result }
    ensures handed { OnOk result (GoesHanded as_real_board entry.now (course (P.handed «package».old) (plain_real_board board.old)) (course (P.handed «package».new) (plain_real_board board.new))) }
    ensures lawful { OnOk result (IsLawfulParts board.new) }
    ensures layers { OnOk result (board.new.layers ≡ board.old.layers) }
    ensures handed_cause { IfErr result (HandedCauseBy real_faults (λ stop. StopsAtHanded as_real_board entry.now (course (P.handed «package».old) (plain_real_board board.old)) (P.handed «package».new) stop) (λ name. ComesNext (P.handed «package».old) (P.handed «package».new) entry.now.name name) (P.faults «package».old) (P.faults «package».new) (P.lost «package».new)) }
{
    take_file(alloc, &entry.name, package, file)?;
    read_file(alloc, entry, file.as_slice(), board)
}
