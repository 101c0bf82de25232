//! Nets with points of several names.
ghost use Rattle.std.specs.Prelude.{◌≡◌, ◌≢◌, ℕ, ◌+◌, ◌<◌, ◌≤◌, ◌^◌, length, map, List, Option, Some, None, [], ◌∷◌, ◌++◌, All, AllPairs, Contains, slice_index_or, slice_get, IfOk, OnOk};
ghost use Rattle.verdict.specs.Forest.{Holds, net_at, pieces_of, first_piece};
ghost use Rattle.verdict.specs.Right.{outline, short_of, all_shorts, AreBranches, HasBranches, BeginsAtHome};
ghost use Rattle.verdict.specs.declared.verdict.PointLine.{PointLine};
ghost use Rattle.verdict.specs.declared.verdict.Twig.{Twig};
ghost use Rattle.judge.specs.Judged.{HangAbove, HasHome};
ghost use Rattle.verdict.specs.Places.{HasPlaces};
ghost use Rattle.verdict.specs.Seats.{AreFirst, AreNamed, IsFirst, mark_name, marks_at, branch_name};

use crate::paths::{flag_path, path_of};
use crate::places::place_net;
use lengths::rows::{NoMemory, Rows};
use std::alloc::Global;
use verdict::{Branch, Mark, Short, SmallRows, Tree, Twig};

/// The shorts of all nets, from the names on each net.
pub fn shorts_of(
    alloc: Global,
    nets: &[Tree],
    marks: &[SmallRows<Mark>],
    count: usize,
    homes: &[Option<u32>],
) -> Result<Rows<Short>, NoMemory>
    requires few_nets { length nets.now < 2 ^ 32 }
    requires long { length marks.now ≡ length nets.now }
    requires known { (i piece : ℕ) → Holds nets.now i piece → piece < count }
    requires once { All (λ net. AllPairs (λ p q. p ≢ q) (pieces_of net)) nets.now }
    requires some { All (λ net. 0 < length net) nets.now }
    requires hang { All HangAbove nets.now }
    requires homes { (number : ℕ) → number < length nets.now → All (HasHome (net_at nets.now number) homes.now) (marks_at marks.now number) }
    ensures outlines { IfOk result (λ shorts. (names : List (List ℕ)) (lines : List PointLine) → AreNamed names lines marks.now → map outline shorts ≡ all_shorts 0 nets.now names lines) }
    ensures branches { IfOk result (λ shorts. (lines : List PointLine) → AreFirst lines marks.now → All (HasBranches nets.now (BeginsAtHome homes.now) lines) shorts) }
{
    let mut table = vec![in alloc; 0; count]?;
    let places = table.as_mut_slice();
    let mut shorts = Rows::new(alloc);
    for n in 0..nets.len() {
        let net = nets[n].as_slice();
        let names = marks[n].as_slice();
        if names.len() > 1 {
            push_short(alloc, n as u32, net, names, homes, places, &mut shorts)?;
        }
    }
    Ok(shorts)
}

// Adds the short of a net.
fn push_short(
    alloc: Global,
    number: u32,
    net: &[Twig],
    marks: &[Mark],
    homes: &[Option<u32>],
    places: &mut [usize],
    shorts: &mut Rows<Short>,
) -> Result<(), NoMemory>
    requires several { 2 ≤ length marks.now }
    requires some { 0 < length net.now }
    requires known { (piece : ℕ) → Contains (pieces_of net.now) piece → piece < length places.old }
    requires once { AllPairs (λ p q. p ≢ q) (pieces_of net.now) }
    requires hang { HangAbove net.now }
    requires homes { All (HasHome net.now homes.now) marks.now }
    ensures outlines { OnOk result (map outline shorts.new ≡ map outline shorts.old ++ short_of number (map mark_name marks.now)) }
    ensures branches { OnOk result ((nets : List (List Twig)) (lines : List PointLine) → slice_get nets number ≡ Some net.now → All (IsFirst number lines) marks.now
        → All (HasBranches nets (BeginsAtHome homes.now) lines) shorts.old → All (HasBranches nets (BeginsAtHome homes.now) lines) shorts.new) }
{
    place_net(net, places);
    let branches = branches_of(alloc, net, places, homes, marks)?;
    shorts.push(Short {
        net: number,
        branches,
    })?;
    Ok(())
}

// The branches of a short.
fn branches_of(
    alloc: Global,
    net: &[Twig],
    places: &[usize],
    homes: &[Option<u32>],
    marks: &[Mark],
) -> Result<Rows<Branch>, NoMemory>
    requires some { 0 < length net.now }
    requires hang { HangAbove net.now }
    requires places { HasPlaces net.now places.now }
    requires homes { All (HasHome net.now homes.now) marks.now }
    ensures names { IfOk result (λ branches. map branch_name branches ≡ map mark_name marks.now) }
    ensures branches { IfOk result (λ branches. (number : ℕ) (lines : List PointLine) → All (IsFirst number lines) marks.now
        → AreBranches net.now (BeginsAtHome homes.now) lines number (first_piece net.now ∷ []) branches) }
{
    let mut ends = vec![in alloc; false; net.len()]?;
    let flags = ends.as_mut_slice();
    flags[0] = true;
    let mut branches = Rows::new(alloc);
    for mark in marks {
        let pieces = path_of(alloc, net, places, home_of(homes, mark.probe), flags)?;
        flag_path(net, places, pieces.as_slice(), flags);
        branches.push(Branch {
            name: mark.name,
            probe: mark.probe,
            pieces,
        })?;
    }
    Ok(branches)
}

// The home of a point that has one.
fn home_of(homes: &[Option<u32>], probe: u32) -> u32
    requires within { probe < length homes.now }
    requires some { (piece : ℕ) × (slice_index_or homes.now probe None ≡ Some piece) }
    ensures { slice_index_or homes.now probe None ≡ Some result }
{
    match homes[probe as usize] {
        Some(piece) => piece,
        None => unreachable!(),
    }
}
