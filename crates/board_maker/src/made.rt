//! The package of a made board.
ghost use Rattle.board_maker.specs.declared.TheConstants.{MOST_CELLS};
ghost use Rattle.std.specs.Prelude.{◌≡◌, ◌<◌, ◌≤◌, ◌↔◌, IfOk, IsErrOf};
ghost use Rattle.board_maker.specs.MadePackage.{IsMade};

use crate::MOST_CELLS;
use crate::files::{Part, text};
use board_io::MemoryPackage;
use lengths::rows::NoMemory;
use std::alloc::Global;
use thiserror::Error;

/// Why no board is made.
#[derive(Clone, Copy, Debug, PartialEq, Eq, Error)]
pub enum MakeFault {
    /// The size is over `MOST_CELLS`.
    #[error("the size is over 10000")]
    SizeTooLarge = 1,
    #[error("memory is wanted")]
    NoMemory = 2,
}

impl From<NoMemory> for MakeFault {
    ghost use Rattle.board_maker.specs.declared.made.MakeFault.TheVariants as fault;

    ghost from_gives = { λ _ e. e ≡ fault.NoMemory };

    fn from(_: NoMemory) -> MakeFault {
        MakeFault::NoMemory
    }
}

/// The package of the board that the seed makes with so many cells: a manifest `m.json`, two copper files `top.gbr` and
/// `bot.gbr`, a drill file `pth.drl` and a netlist `n.ipc`. `SizeTooLarge` comes exactly where the size is over `MOST_CELLS`.
pub fn make(alloc: Global, seed: u64, size: u32) -> Result<MemoryPackage, MakeFault>
    ensures ok { IfOk result (IsMade seed size) }
    ensures too_large { IsErrOf result MakeFault.SizeTooLarge ↔ (MOST_CELLS < size) }
{
    if size > MOST_CELLS {
        return Err(MakeFault::SizeTooLarge);
    }
    Ok(package(alloc, seed, size)?)
}

const MANIFEST: &[u8] =
    b"{\"copper\":[\"top.gbr\",\"bot.gbr\"],\"drills\":[{\"file\":\"pth.drl\",\"from\":1,\"to\":2}],\"netlist\":\"n.ipc\"}\n";

// The package of the five files.
fn package(alloc: Global, seed: u64, size: u32) -> Result<MemoryPackage, NoMemory>
    requires { size ≤ MOST_CELLS }
    ensures { IfOk result (IsMade seed size) }
{
    let mut package = MemoryPackage::new(alloc);
    package.hold("n.ipc", text(alloc, Part::Points, seed, size)?.as_slice())?;
    package.hold("pth.drl", text(alloc, Part::Holes, seed, size)?.as_slice())?;
    package.hold("bot.gbr", text(alloc, Part::Bottom, seed, size)?.as_slice())?;
    package.hold("top.gbr", text(alloc, Part::Top, seed, size)?.as_slice())?;
    package.hold("m.json", MANIFEST)?;
    Ok(package)
}
