//! The number of the net of each piece of a board, from the trees of its nets.
#![tactic(auto)]

ghost use Rattle.std.specs.Prelude.{◌≡◌, ℕ, ◌<◌, ◌^◌, length, Contains, slice_index_or, IfOk};
ghost use Rattle.verdict.specs.Forest.{Holds, pieces_of};

use lengths::rows::NoMemory;
use std::alloc::Global;
use verdict::{Tree, Twig};

/// For each of `count` pieces the number of its net; that of a piece in no tree is any. The trees hold pieces below `count`,
/// none in two of them, and there are fewer than 2^32 trees. `NoMemory` where memory is wanted.
pub fn numbers_of(alloc: Global, nets: &[Tree], count: usize) -> Result<Vec<u32>, NoMemory>
    requires few { length nets.now < 2 ^ 32 }
    requires known { (i piece : ℕ) → Holds nets.now i piece → piece < count }
    requires one_net { (i j piece : ℕ) → Holds nets.now i piece → Holds nets.now j piece → i ≡ j }
    ensures long { IfOk result (λ numbers. length numbers.items ≡ count) }
    ensures numbers { IfOk result (λ numbers. (i piece : ℕ) → Holds nets.now i piece → slice_index_or numbers.items piece 0 ≡ i) }
{
    let mut numbers = vec![in alloc; 0; count]?;
    number_nets(nets, numbers.as_mut_slice());
    Ok(numbers)
}

// Gives the pieces of all nets their numbers.
fn number_nets(nets: &[Tree], numbers: &mut [u32])
    requires few { length nets.now < 2 ^ 32 }
    requires known { (i piece : ℕ) → Holds nets.now i piece → piece < length numbers.old }
    requires one_net { (i j piece : ℕ) → Holds nets.now i piece → Holds nets.now j piece → i ≡ j }
    ensures { (i piece : ℕ) → Holds nets.now i piece → slice_index_or numbers.new piece 0 ≡ i }
{
    for i in 0..nets.len() {
        number_net(nets[i].as_slice(), i as u32, numbers);
    }
}

// Gives the pieces of a net their number.
fn number_net(net: &[Twig], number: u32, numbers: &mut [u32])
    requires { (piece : ℕ) → Contains (pieces_of net.now) piece → piece < length numbers.old }
    ensures inside { (piece : ℕ) → Contains (pieces_of net.now) piece → slice_index_or numbers.new piece 0 ≡ number }
    ensures outside { (piece : ℕ) → (Contains (pieces_of net.now) piece → ⊥) → slice_index_or numbers.new piece 0 ≡ slice_index_or numbers.old piece 0 }
{
    for twig in net {
        numbers[twig.piece as usize] = number;
    }
}
