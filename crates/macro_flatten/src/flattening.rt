//! A copper file that may have macros, rewritten without them.
ghost use Rattle.gerber_layer.specs.MacroLayer.{IsMacroFault};
ghost use Rattle.macro_flatten.specs.Flattened.{IsFlattened, IsReadBack};
ghost use Rattle.std.specs.Prelude.{IfErr, IfOk, length, ◌≤◌};

use crate::flat_text::write_flat;
use crate::laws::{flat_text_reads, flat_texts_are_short, macro_images_are_flat};
use gerber_layer::{FlattenFault, read_flat};
use lengths::rows::NoMemory;
use std::alloc::Global;
use texts::MOST_BYTES;

/// The text of the image of a copper file that may have aperture macros: a copper file without macros that every layer with
/// room for `MOST_FLAT_EDGES` edges reads as exactly the same shapes, in order; it has at most `MOST_BYTES` bytes. Its
/// attributes are dropped.
///
/// `Refused` is the file's first command with a fault; want of memory is `NoMemory`. The file has at most `MOST_BYTES` bytes.
pub fn flatten(alloc: Global, file: &[u8]) -> Result<Vec<u8>, FlattenFault>
    requires size { length file.now ≤ MOST_BYTES }
    ensures text { IfOk result (λ text. IsFlattened file.now text.items) }
    ensures reads { IfOk result (λ text. IsReadBack file.now text.items) }
    ensures short { IfOk result (λ text. length text.items ≤ MOST_BYTES) }
    ensures fault { IfErr result (IsMacroFault file.now) }
{
    flat_text_reads();
    flat_texts_are_short();
    macro_images_are_flat();
    let pieces = read_flat(alloc, file)?;
    match write_flat(alloc, &pieces) {
        Ok(text) => Ok(text),
        Err(NoMemory) => Err(FlattenFault::NoMemory),
    }
}
