//! The tools that a file has defined.
use lengths::rows::NoMemory;
use std::alloc::Global;
use std::collections::HashMap;

/// Each tool's diameter in u, by its number.
#[derive(Drop)]
pub struct Tools {
    diameters: HashMap<u32, u64>,
}

impl Tools {
    ghost use Rattle.std.specs.Prelude.{◌≡◌, ◌+◌, OnOk, OnErr, IfSome, Option, Some, None, ℕ};
    ghost use Rattle.xnc.specs.Reader.{Adds, defined_in, count_of};

    /// No tools.
    pub fn new(alloc: Global) -> Tools
        ensures empty { (n : ℕ) → defined_in result n ≡ None }
        ensures size { count_of result ≡ 0 }
    {
        Tools {
            diameters: HashMap::new(alloc),
        }
    }

    /// How many are defined.
    pub fn len(&self) -> usize
        ensures { result ≡ count_of self.now }
    {
        self.diameters.len()
    }

    /// The diameter of the tool of a number.
    pub fn find(&self, n: u32) -> Option<u64>
        ensures { result ≡ defined_in self.now n }
    {
        self.diameters.get(&n).copied()
    }

    /// Defines a number that was not defined before. An `Err` leaves all definitions as they were.
    pub fn add(&mut self, n: u32, diameter: u64) -> Result<(), NoMemory>
        requires { defined_in self.old n ≡ None }
        ensures ok { OnOk result (Adds self.old self.new n diameter) }
        ensures err { OnErr result ((m : ℕ) → defined_in self.new m ≡ defined_in self.old m) }
    {
        match self.diameters.insert(n, diameter) {
            Ok(_) => Ok(()),
            Err(_) => Err(NoMemory),
        }
    }
}
