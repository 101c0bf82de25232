//! Which pieces a search is asked for.
ghost use Rattle.std.specs.Prelude.{ℕ, IsTrue};

/// A test of pieces, by their numbers, that a search makes before it looks at their boxes.
pub trait Wanted {
    /// The piece is asked for.
    ghost wanted: { Self → ℕ → Type 0 };

    /// Whether the piece may be asked for: true of each that is.
    fn wants(&self, piece: u32) -> bool
        ensures { wanted self.now piece → IsTrue result };
}

/// Every piece.
#[derive(Clone, Copy)]
pub struct Every;

impl Wanted for Every {
    ghost wanted = { λ every piece. Unit {0} };

    fn wants(&self, _piece: u32) -> bool {
        true
    }
}
