//! The parts of a board, as files give them.
ghost use Rattle.std.specs.Prelude.{◌≡◌, ◌≤◌, ◌+◌, ◌++◌, [], length, All, IfErr, OnOk};
ghost use Rattle.board_shapes.specs.Plain.{plain_pieces};
ghost use Rattle.board_package.specs.Parts as spec;
ghost use Rattle.board_package.specs.Parts.{Has, IsLawfulParts, StandsOn};
ghost use Rattle.board_package.specs.declared.fault.BuildFault.TheVariants as fault;

use crate::fault::BuildFault;
use board_shapes::{MOST_LAYERS, MOST_PIECES, Piece, Placed, Probe, Room, edges_in};
use lengths::rows::Rows;
use lengths::text::Text;
use std::alloc::Global;

/// The most edges that the contours of a board have together.
pub const MOST_EDGES: u64 = 2_000_000;

/// What the files so far give: pieces of shapes `S`, test points, names and layers.
#[derive(Drop)]
pub struct Parts<S> {
    pub pieces: Vec<Placed<S>>,
    pub probes: Rows<Probe>,
    pub names: Rows<Text>,
    pub layers: u8,
}

impl<S: Drop> Parts<S> {
    /// Nothing yet, on 1 to `MOST_LAYERS` layers.
    pub fn new(alloc: Global, layers: u8) -> Parts<S>
        requires some { 1 ≤ layers }
        requires few { layers ≤ MOST_LAYERS }
        ensures empty { Has result [] [] [] layers }
        ensures lawful { IsLawfulParts result }
    {
        Parts {
            pieces: Vec::new(alloc),
            probes: Rows::new(alloc),
            names: Rows::new(alloc),
            layers,
        }
    }

    /// Adds the pieces of a file, for which there is room. `NoMemory` is its only fault, changes nothing, and drops the pieces.
    /// Where there were none yet, these stay where they are.
    pub fn add(&mut self, mut pieces: Vec<Placed<S>>) -> Result<(), BuildFault>
        requires lawful { IsLawfulParts self.old }
        requires few { length self.old.pieces.items + length pieces.items ≤ MOST_PIECES }
        requires spans { All (StandsOn self.old.layers) pieces.items }
        ensures ok { OnOk result (Has self.new (self.old.pieces.items ++ pieces.items) self.old.probes self.old.names self.old.layers) }
        ensures lawful { OnOk result (IsLawfulParts self.new) }
        ensures fault { IfErr result (λ why. why ≡ fault.NoMemory) }
        ensures kept { IfErr result (λ why. Has self.new self.old.pieces.items self.old.probes self.old.names self.old.layers) }
    {
        if self.pieces.is_empty() {
            self.pieces = pieces;
            return Ok(());
        }
        Ok(self.pieces.append(&mut pieces)?)
    }
}

/// The pieces and edges that may still come behind so many: a board has at most `MOST_PIECES` pieces and `MOST_EDGES` edges.
pub fn room_for(pieces: usize, edges: u64) -> Room
    requires { pieces ≤ MOST_PIECES }
    ensures { result ≡ spec.room_for pieces edges }
{
    Room {
        pieces: MOST_PIECES - pieces as u32,
        edges: MOST_EDGES.saturating_sub(edges) as u32,
    }
}

/// Those that may still come behind these pieces.
pub fn room_left(pieces: &[Piece]) -> Room
    requires { length pieces.now ≤ MOST_PIECES }
    ensures { result ≡ spec.room_left (plain_pieces pieces.now) }
{
    room_for(pieces.len(), edges_in(pieces))
}
