//! The board of a package.
ghost use Rattle.board_package.specs.Causes.{Builds, BuildsHanded, KeepsFaults, Leaves, Spares};
ghost use Rattle.board_package.specs.PackageBoard.{IsWithinLimits};
ghost use Rattle.board_shapes.specs.Plain.{plain_board};
ghost use Rattle.lengths.specs.Text.{IsText};
ghost use Rattle.std.specs.Prelude.{IfOk};

use crate::refusing::name_of;
use board_io::Package;
use board_package::{BuildFault, build};
use board_shapes::Board;
use std::alloc::Global;

/// The board of the package of a manifest.
pub fn board_of<P: Package>(
    alloc: Global,
    manifest: &str,
    package: &mut P,
) -> Result<Board, BuildFault>
    requires { IsText manifest.now }
    ensures leaves { Leaves P.held P.handed P.faults «package».old «package».new }
    ensures spared { Spares KeepsFaults P.faults P.lost «package».old «package».new result }
    ensures told { Builds P.held P.faults P.lost manifest.now «package».old «package».new result }
    ensures handed { BuildsHanded P.handed P.faults P.lost manifest.now «package».old «package».new result }
    ensures limits { IfOk result (λ board. IsWithinLimits (plain_board board)) }
{
    match name_of(alloc, manifest) {
        Ok(name) => build(alloc, &name, package),
        Err(_) => Err(BuildFault::NoMemory),
    }
}
