//! The faults of a package or a sink, and what was handed over or put, which only clauses read: a `Log` takes no memory, and
//! its methods do nothing when the program runs.
ghost use Rattle.std.specs.Prelude.{◌≡◌, ◌≤◌, ◌+◌, ◌-◌, ◌^◌, min, ℕ, List, [], ◌∷◌, ◌++◌};
ghost use Rattle.std.specs.Borrow.{ftrue};
ghost use Rattle.board_io.specs.Causes.{Rose};
ghost use Rattle.board_io.specs.Handed.{Note, note_of};

use std::marker::{Model, PhantomData};

/// What was noted, in order.
#[derive(Drop)]
pub struct Log {
    marker: PhantomData<u8>,
    pub ghost notes: { List Note },
}

impl Model for Log {
    ghost also_owns = { λ _. ftrue };
}

impl Log {
    /// Nothing was noted.
    pub(crate) fn new() -> Log
        ensures { result.notes ≡ [] }
    {
        Log {
            marker: PhantomData,
        }
    }

    /// Notes two texts, and a number if the last slice has one.
    pub(crate) fn note(&mut self, _name: &[u8], _bytes: &[u8], _most: &[u64])
        ensures { self.new.notes ≡ self.old.notes ++ note_of _name.now _bytes.now _most.now ∷ [] }
    {}
}

/// The past of a package or a sink: how many of its calls failed, and what was noted.
#[derive(Drop)]
pub struct History {
    /// At 2^64 - 1 it stands still.
    pub faults: u64,
    pub log: Log,
}

impl History {
    /// No faults, and nothing was noted.
    pub(crate) fn new() -> History
        ensures faults { result.faults ≡ 0 }
        ensures notes { result.log.notes ≡ [] }
    {
        History {
            faults: 0,
            log: Log::new(),
        }
    }

    /// One fault more.
    pub(crate) fn fail(&mut self)
        ensures count { self.new.faults ≡ min (self.old.faults + 1) (2 ^ 64 - 1) }
        ensures rose { Rose self.old.faults self.new.faults }
        ensures later { self.old.faults ≤ self.new.faults }
        ensures notes { self.new.log.notes ≡ self.old.log.notes }
    {
        self.faults = self.faults.saturating_add(1);
    }
}
