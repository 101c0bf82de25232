//! The number of pieces and the names.
ghost use Rattle.std.specs.Prelude.{◌≡◌, ◌↔◌, IsTrue};

use lengths::text::Text;

/// Whether the number of pieces and the names are those of the board.
pub fn counts_hold(pieces: usize, names: &[Text], count: u32, texts: &[Text]) -> bool
    ensures { IsTrue result ↔ ((count ≡ pieces) × (texts.now ≡ names.now)) }
{
    count as usize == pieces && same_texts(texts, names)
}

fn same_texts(a: &[Text], b: &[Text]) -> bool
    ensures { IsTrue result ↔ (a.now ≡ b.now) }
{
    a == b
}
