//! What two verdicts find of a board between theirs: what is certain, and what is undecided.
ghost use Rattle.reports.specs.Findings as spec;
ghost use Rattle.reports.specs.Findings.{NoneFound, short_points};
ghost use Rattle.std.specs.Prelude.{IfOk, IsTrue, map, ◌≡◌, ◌↔◌};

use lengths::rows::NoMemory;
use std::alloc::{AllocError, Global};
use std::collections::BTreeSet;
use std::marker::Model;
use verdict::{Short, Verdict};

/// Findings by the numbers of their test points, from 0. Contracts see lists.
#[derive(Drop)]
pub struct Findings {
    opens: Vec<u32>,
    shorts: Vec<Vec<u32>>,
    missing: Vec<u32>,
}

impl Model for Findings {
    ghost use Rattle.reports.specs.Findings.{Findings as Found};
    ghost use Rattle.std.specs.Prelude.{map};

    ghost Value = { Found };

    ghost view = { λ f. record { opens = f.opens.items; shorts = map (λ points. points.items) f.shorts.items; missing = f.missing.items } };
}

impl Findings {
    /// Of each open the first point on its further net.
    pub fn opens(&self) -> &[u32]
        ensures { result.now ≡ self.now.opens }
    {
        self.opens.as_slice()
    }

    /// Of each short the first point of each name on its net.
    pub fn shorts(&self) -> &[Vec<u32>]
        ensures { map (λ points. points.items) result.now ≡ self.now.shorts }
    {
        self.shorts.as_slice()
    }

    /// The points without copper.
    pub fn missing(&self) -> &[u32]
        ensures { result.now ≡ self.now.missing }
    {
        self.missing.as_slice()
    }

    /// Whether there is none.
    pub fn are_none(&self) -> bool
        ensures { IsTrue result ↔ NoneFound self.now }
    {
        self.opens.is_empty() && self.shorts.is_empty() && self.missing.is_empty()
    }

    // Those that have not the same points as one of the others.
    fn without(self, alloc: Global, theirs: Findings) -> Result<Findings, AllocError>
        ensures { IfOk result (λ rest. rest ≡ spec.without self theirs) }
    {
        let opens = besides(alloc, self.opens, theirs.opens)?;
        let shorts = besides(alloc, self.shorts, theirs.shorts)?;
        let missing = besides(alloc, self.missing, theirs.missing)?;
        Ok(Findings {
            opens,
            shorts,
            missing,
        })
    }
}

/// What is certain of a board between those of the verdicts.
pub fn certain(alloc: Global, below: &Verdict, above: &Verdict) -> Result<Findings, AllocError>
    ensures { IfOk result (λ found. found ≡ spec.certain below.now above.now) }
{
    let opens = above.opens.as_slice();
    Ok(Findings {
        opens: opens.iter().map(|entry| entry.probe).collect(alloc)?,
        shorts: points_of(alloc, below.shorts.as_slice())?,
        missing: above.bare.as_slice().iter().copied().collect(alloc)?,
    })
}

/// What is undecided of it.
pub fn undecided(alloc: Global, below: &Verdict, above: &Verdict) -> Result<Findings, AllocError>
    ensures { IfOk result (λ found. found ≡ spec.undecided below.now above.now) }
{
    let possible = certain(alloc, above, below)?;
    possible.without(alloc, certain(alloc, below, above)?)
}

// The points of each short.
fn points_of(alloc: Global, shorts: &[Short]) -> Result<Vec<Vec<u32>>, AllocError>
    ensures { IfOk result (λ all. map (λ points. points.items) all.items ≡ map short_points shorts.now) }
{
    let mut all = Vec::new(alloc);
    for short in shorts {
        let branches = short.branches.as_slice();
        let points = branches.iter().map(|branch| branch.probe).collect(alloc)?;
        all.push(points)?;
    }
    Ok(all)
}

// What the one list has and the other has not, in order.
fn besides<K: Ord + Drop>(
    alloc: Global,
    mut ours: Vec<K>,
    theirs: Vec<K>,
) -> Result<Vec<K>, AllocError>
    ensures { IfOk result (λ rest. rest.items ≡ spec.besides K.cmp ours.items theirs.items) }
{
    let known: BTreeSet<K> = theirs.into_iter().collect(alloc)?;
    ours.retain(|item| !known.contains(item));
    Ok(ours)
}
