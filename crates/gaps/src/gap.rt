//! A line of two nets that come too close, and lines in order.
ghost use Rattle.gaps.specs.Firsts.{AreFirsts, IsBeside, IsWithLess, beside};
ghost use Rattle.std.specs.Prelude.{Contains, IsTrue, ◌≡◌, ◌↔◌};

/// Two nets come too close on a layer: the lower and the higher net, and a piece of each. Layers
/// count from 1, nets and pieces from 0.
#[derive(Clone, Copy, PartialEq, Eq, PartialOrd, Ord)]
pub struct Gap {
    pub layer: u8,
    pub low: u32,
    pub high: u32,
    pub first: u32,
    pub second: u32,
}

impl Gap {
    /// Whether both lines are of one layer and of the same nets.
    fn is_beside(&self, other: &Gap) -> bool
        ensures { result ≡ beside self.now other.now }
    {
        self.layer == other.layer && self.low == other.low && self.high == other.high
    }

    /// Whether the pieces are no greater: by that of the lower net, then by that of the higher.
    fn is_with_less(&self, other: &Gap) -> bool
        ensures { IsTrue result ↔ IsWithLess self.now other.now }
    {
        self.first < other.first || self.first == other.first && self.second <= other.second
    }

    /// Whether the line is beside the other, and has no greater pieces.
    pub fn speaks_for(&self, other: &Gap) -> bool
        ensures { IsTrue result ↔ IsBeside other.now self.now × IsWithLess self.now other.now }
    {
        self.is_beside(other) && self.is_with_less(other)
    }
}

/// Keeps the lines in order, of each layer and two nets the least.
pub fn keep_firsts(lines: &mut Vec<Gap>)
    ensures { AreFirsts (Contains lines.old.items) lines.new.items }
{
    lines.sort_unstable();
    lines.dedup_by(|later, kept| later.is_beside(kept));
}
