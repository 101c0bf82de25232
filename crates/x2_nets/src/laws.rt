//! Laws over the definitions alone.
ghost use Rattle.std.specs.Prelude.{ℕ, List};
ghost use Rattle.x2_nets.specs.Laws.{HasOneAnswer, LooksBack};

/// The name that the list of labels gives at a command is the one that looking back over the words finds.
pub fn labels_look_back()
    ensures { LooksBack }
{}

/// Each file has one answer: its labels, or the first name that is amiss.
pub fn one_answer()
    ensures { (file : List ℕ) → HasOneAnswer file }
{
    gerber_words::laws::words_lie_ahead();
}
