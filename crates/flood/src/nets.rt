//! Nets, each breadth first from its least piece.
ghost use Rattle.std.specs.Prelude.{◌≡◌, ◌⊎◌, ℕ, ◌+◌, ◌*◌, ◌<◌, ◌≤◌, ◌^◌, Bool, List, [], ◌∷◌, ◌++◌, length, Contains, OnOk, IfOk};
ghost use Rattle.cell_index.specs.Field.{IsNear, pairs_of, rivals_of, sum_below};
ghost use Rattle.verdict.specs.Forest.{IsForest, pieces_of};
ghost use Rattle.verdict.specs.declared.verdict.Twig.{Twig};
ghost use Rattle.flood.specs.Flood.{IsSeen, unseen, weight, IsGrown, IsWhole};

use cell_index::laws::rivals_are_twice_the_pairs;
use cell_index::{Field, Wanted};
use lengths::rows::{NoMemory, Rows};
use std::alloc::Global;
use std::sync::ledger::Ledger;
use steps::Steps;
use verdict::{Tree, Trees, Twig};

/// The nets as trees: by rising least piece, each breadth first. Each piece is asked for its neighbours once, so there are
/// at most two contact tests for each pair of pieces whose boxes meet and whose spans have a common layer. `NoMemory` where
/// memory is wanted.
pub fn flood<F: Field, L: Ledger>(
    alloc: Global,
    field: &F,
    tests: &mut Steps<L>,
) -> Result<Trees, NoMemory>
    ensures nets { IfOk result (IsForest (F.size field.now) (IsNear (F.size field.now) (F.touch field.now))) }
    ensures ticks { tests.new ≤ tests.old + sum_below (rivals_of (F.size field.now) (F.extent field.now) (F.top field.now) (F.bottom field.now)) (F.size field.now) }
    ensures pairs { tests.new ≤ tests.old + 2 * pairs_of (F.size field.now) (F.extent field.now) (F.top field.now) (F.bottom field.now) }
{
    rivals_are_twice_the_pairs();
    let count = field.count();
    let mut flags = vec![in alloc; false; count]?;
    let seen = flags.as_mut_slice();
    let mut row = Vec::new(alloc);
    let mut nets = Rows::new(alloc);
    for first in 0..count {
        if !seen[first] {
            let net = net_from(alloc, field, first, seen, &mut row, tests)?;
            nets.push(net)?;
        }
    }
    Ok(nets)
}

// The pieces that were not seen.
#[derive(Clone, Copy)]
struct Unseen<'a> {
    seen: &'a [bool],
}

impl Wanted for Unseen<'_> {
    ghost wanted = { λ unseen q. IsSeen unseen.seen.now q → ⊥ };

    fn wants(&self, piece: u32) -> bool {
        match self.seen.get(piece as usize) {
            None => true,
            Some(seen) => !*seen,
        }
    }
}

// Most nets have at most so many pieces: their list takes memory once.
const USUAL_PIECES: usize = 8;

// The net whose least piece is the first.
fn net_from<F: Field, L: Ledger>(
    alloc: Global,
    field: &F,
    first: usize,
    seen: &mut [bool],
    row: &mut Vec<u32>,
    tests: &mut Steps<L>,
) -> Result<Tree, NoMemory>
    requires few { F.size field.now < 2 ^ 32 }
    requires flags { length seen.old ≡ F.size field.now }
    requires first { first < F.size field.now }
    requires fresh { IsSeen seen.old first → ⊥ }
    requires below { (q : ℕ) → q < first → IsSeen seen.old q }
    ensures whole { IfOk result (λ net. IsWhole (IsNear (F.size field.now) (F.touch field.now)) seen.old first net seen.new) }
    ensures kept { IfOk result (λ net. (w : ℕ → ℕ) → unseen w 0 seen.new + weight w net ≡ unseen w 0 seen.old) }
    ensures ticks { tests.new + unseen (rivals_of (F.size field.now) (F.extent field.now) (F.top field.now) (F.bottom field.now)) 0 seen.new ≤ tests.old + unseen (rivals_of (F.size field.now) (F.extent field.now) (F.top field.now) (F.bottom field.now)) 0 seen.old }
{
    let mut net = Rows::with_capacity(alloc, USUAL_PIECES)?;
    seen[first] = true;
    net.push(Twig {
        piece: first as u32,
        parent: None,
    })?;
    let mut at = 0;
    while at < net.as_slice().len() {
        let piece = net.as_slice()[at].piece;
        spread(field, piece, &mut net, seen, row, tests)?;
        at += 1;
    }
    Ok(net)
}

// Adds to a net the pieces that are near one of its pieces and were not seen.
fn spread<F: Field, L: Ledger>(
    field: &F,
    piece: u32,
    net: &mut Tree,
    seen: &mut [bool],
    row: &mut Vec<u32>,
    tests: &mut Steps<L>,
) -> Result<(), NoMemory>
    requires flags { length seen.old ≡ F.size field.now }
    requires piece { piece < F.size field.now }
    requires inside { Contains (pieces_of net.old) piece }
    ensures grown { OnOk result ((base : List Bool) (first : ℕ) → IsGrown (IsNear (F.size field.now) (F.touch field.now)) base first net.old seen.old → IsGrown (IsNear (F.size field.now) (F.touch field.now)) base first net.new seen.new) }
    ensures more { OnOk result ((more : List Twig) × (net.new ≡ net.old ++ more)) }
    ensures stays { OnOk result ((q : ℕ) → IsSeen seen.old q → IsSeen seen.new q) }
    ensures all { OnOk result ((q : ℕ) → IsNear (F.size field.now) (F.touch field.now) piece q → IsSeen seen.new q) }
    ensures kept { OnOk result ((w : ℕ → ℕ) → unseen w 0 seen.new + weight w net.new ≡ unseen w 0 seen.old + weight w net.old) }
    ensures fewer { (w : ℕ → ℕ) → unseen w 0 seen.new ≤ unseen w 0 seen.old }
    ensures ticks { tests.new ≤ tests.old + rivals_of (F.size field.now) (F.extent field.now) (F.top field.now) (F.bottom field.now) piece }
{
    let unseen = Unseen { seen };
    field.wanted_neighbours(piece as usize, &unseen, row, tests)?;
    for &other in row.as_slice() {
        if !seen[other as usize] {
            seen[other as usize] = true;
            net.push(Twig {
                piece: other,
                parent: Some(piece),
            })?;
        }
    }
    Ok(())
}
