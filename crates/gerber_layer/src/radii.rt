//! The radii of the capsules among pieces.
use board_shapes::{Piece, Shape};
use indexmap::IndexSet;
use lengths::rows::NoMemory;
use std::alloc::Global;

/// Radii in u, each once, in order of first use.
#[derive(Drop)]
pub struct Radii {
    radii: IndexSet<u64>,
}

impl Radii {
    ghost use Rattle.std.specs.Prelude.{◌≡◌, [], length, IfOk, OnOk};
    ghost use Rattle.board_shapes.specs.Figures.{figure_of};
    ghost use Rattle.board_shapes.specs.Pieces.{plain_pieces};
    ghost use Rattle.gerber_layer.specs.Radii.{radii_of, with_radius_of};
    ghost use Rattle.gerber_layer.specs.MacroReader.{radii_in};

    fn new(alloc: Global) -> Radii
        ensures { radii_in result ≡ [] }
    {
        Radii {
            radii: IndexSet::new(alloc),
        }
    }

    // Keeps the radius of a shape, if it is a capsule, where it is new.
    fn add(&mut self, shape: &Shape) -> Result<(), NoMemory>
        ensures { OnOk result (radii_in self.new ≡ with_radius_of (radii_in self.old) (figure_of shape.now)) }
    {
        match shape {
            Shape::Round(capsule) => match self.radii.insert_full(capsule.r.unsigned_abs()) {
                Ok(_) => Ok(()),
                Err(_) => Err(NoMemory),
            },
            Shape::Filled(_) => Ok(()),
        }
    }

    /// The radii of pieces.
    pub fn of(alloc: Global, pieces: &[Piece]) -> Result<Radii, NoMemory>
        ensures { IfOk result (λ radii. radii_in radii ≡ radii_of (plain_pieces pieces.now)) }
    {
        let mut radii = Radii::new(alloc);
        for piece in pieces {
            radii.add(&piece.shape)?;
        }
        Ok(radii)
    }

    /// How many there are.
    pub fn len(&self) -> usize
        ensures { result ≡ length (radii_in self.now) }
    {
        self.radii.len()
    }
}
