//! The lines that were found, and where a line of a layer and two nets stands among them.
ghost use Rattle.gaps.specs.Firsts.{AreFirsts};
ghost use Rattle.gaps.specs.Meetings.{Covered, GainsLines, IsLineOf};
ghost use Rattle.gaps.specs.declared.gap.Gap.{Gap};
ghost use Rattle.std.specs.Prelude.{Contains, IfOk, IsTrue, OnOk, length, max, min, [], ◌+◌, ◌-◌, ◌*◌, ◌^◌, ◌++◌, ◌<◌, ◌≤◌, ◌≡◌, ◌∷◌};

use super::gap::{Gap, keep_firsts};
use lengths::rows::NoMemory;
use std::alloc::Global;

/// How many lines stand at least before they are thinned.
const FEW: usize = 65_536;

/// The most entries, a power of two.
const MOST_ENTRIES: usize = 4_294_967_296;

/// Two pieces, the lower net and the higher, and the layers of both spans: from `top` to `bottom`.
#[derive(Clone, Copy)]
pub struct Pair {
    pub low: u32,
    pub high: u32,
    pub first: u32,
    pub second: u32,
    pub top: u8,
    pub bottom: u8,
}

impl Pair {
    /// The line of the pair on a layer.
    fn line(&self, layer: u8) -> Gap
        ensures layer { result.layer ≡ layer }
        ensures low { result.low ≡ self.now.low }
        ensures high { result.high ≡ self.now.high }
        ensures first { result.first ≡ self.now.first }
        ensures second { result.second ≡ self.now.second }
    {
        Gap {
            layer,
            low: self.low,
            high: self.high,
            first: self.first,
            second: self.second,
        }
    }
}

/// Lines, and for a layer and two nets the place of the last line of theirs. Several may share an entry, and places change
/// when lines are thinned: so an entry is a guess, and the line that stands at the place is compared. The entries are a
/// power of two, and `last` is one less, so that none is found by a division.
#[derive(Drop)]
pub struct Found {
    pub lines: Vec<Gap>,
    pub entries: Vec<usize>,
    pub last: usize,
    ghost inside: { last < length entries.items },
}

impl Found {
    /// No lines yet, with two to four entries a piece.
    pub fn new(alloc: Global, pieces: usize) -> Result<Found, NoMemory>
        ensures { IfOk result (λ found. found.lines.items ≡ []) }
    {
        let many = pieces.saturating_mul(2).max(1).min(MOST_ENTRIES);
        let many = many.next_power_of_two();
        let entries = vec![in alloc; 0; many]?;
        let lines = Vec::new(alloc);
        Ok(Found {
            lines,
            entries,
            last: many - 1,
        })
    }

    /// The entry of the line's layer and nets.
    #[tactic(auto, using(crate::proofs::Collecting::entry_within))]
    fn entry(&self, line: &Gap) -> usize
        ensures { result < length self.now.entries.items }
    {
        let mixed = line.low as u64 * 1_000_003 + line.high as u64 * 64 + line.layer as u64;
        mixed as usize & self.last
    }

    /// Whether a line of the same layer and nets that has no greater pieces was looked up. One may stand that was not: an
    /// entry is a guess.
    fn covers(&self, line: &Gap) -> bool
        ensures { IsTrue result → Covered self.now.lines.items line.now }
    {
        let place = self.entries[self.entry(line)];
        match self.lines.get(place) {
            Some(found) => found.speaks_for(line),
            None => false,
        }
    }

    /// Whether this is so for each line of the pair.
    pub fn covers_all(&self, pair: &Pair) -> bool
        ensures { IsTrue result → (gap : Gap) → IsLineOf pair.now.low pair.now.high pair.now.first pair.now.second pair.now.top (pair.now.bottom + 1) gap → Covered self.now.lines.items gap }
    {
        let past = pair.bottom as u16 + 1;
        let mut layer = pair.top as u16;
        while layer < past {
            if !self.covers(&pair.line(layer as u8)) {
                return false;
            }
            layer += 1;
        }
        true
    }

    /// Adds a line.
    fn push(&mut self, line: Gap) -> Result<(), NoMemory>
        ensures { OnOk result (self.new.lines.items ≡ self.old.lines.items ++ line ∷ []) }
    {
        let entry = self.entry(&line);
        self.entries[entry] = self.lines.len();
        self.lines.push(line)?;
        Ok(())
    }

    /// Adds the lines of the pair: one for each layer.
    pub fn add(&mut self, pair: &Pair) -> Result<(), NoMemory>
        ensures { OnOk result (GainsLines (IsLineOf pair.now.low pair.now.high pair.now.first pair.now.second pair.now.top (pair.now.bottom + 1)) self.old.lines.items self.new.lines.items) }
    {
        let past = pair.bottom as u16 + 1;
        let mut layer = pair.top as u16;
        while layer < past {
            self.push(pair.line(layer as u8))?;
            layer += 1;
        }
        Ok(())
    }

    /// Where there are as many lines as `most` and as `FEW`, keeps of each layer and two nets the least, else all; how many
    /// lines may stand from then on: twice those that are kept, else `most`.
    pub fn thin(&mut self, most: usize) -> usize
        ensures few { length self.old.lines.items < max most FEW → (self.new.lines.items ≡ self.old.lines.items) × (result ≡ most) }
        ensures many { max most FEW ≤ length self.old.lines.items → AreFirsts (Contains self.old.lines.items) self.new.lines.items × (result ≡ min (2 * length self.new.lines.items) (2 ^ 64 - 1)) }
    {
        if self.lines.len() < most.max(FEW) {
            return most;
        }
        keep_firsts(&mut self.lines);
        self.lines.len().saturating_mul(2)
    }

    /// The least of each layer and two nets, in order.
    pub fn firsts(self) -> Vec<Gap>
        ensures { AreFirsts (Contains self.lines.items) result.items }
    {
        let mut lines = self.lines;
        keep_firsts(&mut lines);
        lines
    }
}
