//! Laws over the definitions alone.
ghost use Rattle.std.specs.Prelude.{◌≡◌, ℕ, List, take};
ghost use Rattle.board_shapes.specs.declared.probe.Probe.{Probe};
ghost use Rattle.ipc356_records.specs.NetlistFile.{HasOneAnswer, IsRead};
ghost use Rattle.ipc356_records.specs.Laws.{KindsHaveOwnNumbers, PrefixIsRefused};

/// Each file has one answer.
pub fn one_answer()
    ensures { (file : List ℕ) (layers : ℕ) → HasOneAnswer file layers }
{}

/// A netlist that is read has a line with the code `999`, and each prefix of it without the three bytes of that code is
/// refused.
pub fn prefix_is_refused()
    ensures { (file : List ℕ) (layers : ℕ) → PrefixIsRefused file layers }
{}

/// A prefix of a netlist that is read is refused, or has the same probes and names.
pub fn prefix_makes_the_same()
    ensures { (file : List ℕ) (layers : ℕ) (probes others : List Probe) (names words : List (List ℕ)) (n : ℕ) → IsRead file layers probes names → IsRead (take n file) layers others words → (others ≡ probes) × (words ≡ names) }
{}

/// Each kind of refusal has a number of its own.
pub fn kinds_have_own_numbers()
    ensures { KindsHaveOwnNumbers }
{}
