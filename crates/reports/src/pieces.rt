//! Texts from pieces.
ghost use Rattle.std.specs.List.{flat_map};
ghost use Rattle.std.specs.Prelude.{IfOk, ◌≡◌};

use lengths::rows::NoMemory;
use std::alloc::Global;

/// The pieces of a text, one behind another.
pub fn joined(alloc: Global, pieces: &[&[u8]]) -> Result<Vec<u8>, NoMemory>
    ensures { IfOk result (λ text. text.items ≡ flat_map (λ piece. piece.now) pieces.now) }
{
    let mut text = Vec::new(alloc);
    for piece in pieces {
        text.extend_from_slice(*piece)?;
    }
    Ok(text)
}
