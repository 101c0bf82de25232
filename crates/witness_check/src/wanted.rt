//! The probes of which the least piece is wanted: those at which branches begin.
ghost use Rattle.std.specs.Prelude.{◌≡◌, ℕ, All, IfOk, length, false, slice_index_or, true};
ghost use Rattle.witness_check.specs.Homes.{AreWanted, IsWanted};

use lengths::rows::NoMemory;
use std::alloc::Global;
use verdict::{Branch, Short};

/// A mark for each of so many probes: it is set where a branch of the shorts begins.
pub fn wanted_probes(alloc: Global, count: usize, shorts: &[Short]) -> Result<Vec<bool>, NoMemory>
    ensures long { IfOk result (λ wanted. length wanted.items ≡ count) }
    ensures wanted { IfOk result (λ wanted. AreWanted wanted.items shorts.now) }
{
    let mut wanted = vec![in alloc; false; count]?;
    want_all(shorts, wanted.as_mut_slice());
    Ok(wanted)
}

// Sets the marks of all branches of the shorts.
fn want_all(shorts: &[Short], wanted: &mut [bool])
    ensures long { length wanted.new ≡ length wanted.old }
    ensures wanted { AreWanted wanted.new shorts.now }
{
    for short in shorts {
        want(short.branches.as_slice(), wanted);
    }
}

// Sets the marks of branches.
fn want(branches: &[Branch], wanted: &mut [bool])
    ensures long { length wanted.new ≡ length wanted.old }
    ensures wanted { All (IsWanted wanted.new) branches.now }
    ensures kept { (k : ℕ) → slice_index_or wanted.old k false ≡ true → slice_index_or wanted.new k false ≡ true }
{
    for branch in branches {
        let k = branch.probe as usize;
        if k < wanted.len() {
            wanted[k] = true;
        }
    }
}

/// Whether the least piece under probe k is wanted.
pub fn is_wanted(wanted: &[bool], k: usize) -> bool
    ensures { result ≡ slice_index_or wanted.now k false }
{
    match wanted.get(k) {
        Some(mark) => *mark,
        None => false,
    }
}
