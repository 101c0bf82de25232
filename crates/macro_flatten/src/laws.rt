//! Laws over the definitions alone.
ghost use Rattle.macro_flatten.specs.Laws.{CutIsRefusedOrTheSame, FlatTextReads, FlatTextsAreShort, ImagesAreFlat, MacroImagesAreFlat};

use gerber_layer::laws::{macro_prefix_makes_the_same, one_answer, one_macro_answer};

/// The reader of copper files reads a flattened text without a refusal, as pieces with exactly its figures, in order.
pub fn flat_text_reads()
    ensures { FlatTextReads }
{
    one_answer();
}

/// And every image of a copper file that is read in a room of `MOST_FLAT_EDGES` edges can be flattened, unless more pens draw
/// it than a file can define.
pub fn images_are_flat()
    ensures { ImagesAreFlat }
{}

/// Every image of a copper file with macros can be flattened: one that more pens draw is refused.
pub fn macro_images_are_flat()
    ensures { MacroImagesAreFlat }
{}

/// A flattened text is no longer than a copper file may be.
pub fn flat_texts_are_short()
    ensures { FlatTextsAreShort }
{}

/// A copper file with macros that is cut off anywhere is refused, or has the same image.
pub fn cut_is_refused_or_the_same()
    ensures { CutIsRefusedOrTheSame }
{
    one_macro_answer();
    macro_prefix_makes_the_same();
}
