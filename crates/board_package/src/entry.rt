//! The files that a manifest lists.
ghost use Rattle.std.specs.Prelude.{◌≡◌};

use lengths::text::Text;

/// What a file is read as.
#[derive(Clone, Copy, Debug, PartialEq, Eq)]
pub enum Role {
    /// The copper of a layer, counted from 1.
    Copper { layer: u8 },
    /// Barrels that join the layers from one to another.
    Drill { from: u8, to: u8 },
    /// The test points and the names of their nets.
    Netlist,
}

/// Where the names of the nets come from.
#[derive(Clone, Copy)]
pub enum Naming {
    /// The netlist, which is taken last.
    ByNetlist,
    /// The labels in the copper files, so that the netlist is not taken.
    ByLabels,
}

impl Naming {
    ghost use Rattle.board_package.specs.LabelledBoard.{is_taken};

    /// Whether a file of this role is taken.
    pub fn takes(self, role: Role) -> bool
        ensures { result ≡ is_taken self role }
    {
        match self {
            Naming::ByNetlist => true,
            Naming::ByLabels => !matches!(role, Role::Netlist),
        }
    }
}

/// A file of a package.
#[derive(Drop)]
pub struct Entry {
    pub name: Text,
    /// Its number, from 0 through the copper files, then the drill files, and then the netlist.
    pub number: u32,
    pub role: Role,
}
