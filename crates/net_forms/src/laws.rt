//! Laws over the definitions alone.
ghost use Rattle.std.specs.Prelude.{◌≡◌, ℕ, List, take};
ghost use Rattle.board_shapes.specs.declared.probe.Probe.{Probe};
ghost use Rattle.net_forms.specs.Laws.{PrefixIsRefused, TakesTheSame};
ghost use Rattle.net_forms.specs.NetFile.{HasOneAnswer, IsRead};

/// Each file has one answer: its probes and names, or its first fault.
pub fn one_answer()
    ensures { (file : List ℕ) (layers : ℕ) → HasOneAnswer file layers }
{}

/// What `check` reads means the same here.
pub fn takes_the_same()
    ensures { (file : List ℕ) (layers : ℕ) → TakesTheSame file layers }
{}

/// A netlist that is read has a line `999`, and each prefix of it without the three bytes of that code is refused.
pub fn prefix_is_refused()
    ensures { (file : List ℕ) (layers : ℕ) → PrefixIsRefused file layers }
{}

/// A prefix of a netlist that is read is refused, or makes the same.
pub fn prefix_makes_the_same()
    ensures { (file : List ℕ) (layers : ℕ) (probes others : List Probe) (names words : List (List ℕ)) (n : ℕ) → IsRead file layers probes names → IsRead (take n file) layers others words → (others ≡ probes) × (words ≡ names) }
{}
