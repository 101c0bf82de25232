//! Why a reader stops.
ghost use Rattle.std.specs.Prelude.{◌≡◌};
ghost use Rattle.file_reading.specs.Faults.{stopped_at};

use crate::fault::FileFault;

/// What stops a reader at an item: the item's fault, or want of memory.
#[derive(Clone, Copy, Debug, Drop)]
pub enum Halt<W> {
    /// The fault of the item.
    Fault(W),
    /// Memory is wanted.
    NoMemory,
}

impl<W> Halt<W> {
    /// Why the file is not read that stops at the command of this number, from 1, at this place.
    pub fn fault_at(self, command: u32, at: usize) -> FileFault<W>
        ensures { result ≡ stopped_at command at self }
    {
        match self {
            Halt::Fault(kind) => FileFault::Refused { kind, command, at },
            Halt::NoMemory => FileFault::NoMemory,
        }
    }
}

/// So a fault climbs by `?`.
impl<W> From<W> for Halt<W> {
    ghost use Rattle.file_reading.specs.declared.halt.Halt.TheVariants.{Fault};

    ghost from_gives = { λ fault halt. halt ≡ Fault fault };

    fn from(fault: W) -> Halt<W> {
        Halt::Fault(fault)
    }
}
