//! The distinct names of a netlist.
use indexmap::IndexSet;
use lengths::rows::{NoMemory, Rows};
use lengths::text::{Text, TextFault};
use std::alloc::Global;
use texts::is_word;

/// Names in first-seen order, each a slice of the file, numbered from 0.
#[derive(Drop)]
pub struct NameTable<'a> {
    names: IndexSet<&'a [u8]>,
}

impl<'a> NameTable<'a> {
    ghost use Rattle.std.specs.Prelude.{◌≡◌, ◌+◌, ◌<◌, ◌^◌, [], length, All, IfOk, IfSome, OnErr, OnOk};
    ghost use Rattle.lengths.specs.Text.{IsText};
    ghost use Rattle.ipc356_records.specs.Names.{index_of, with_name};
    ghost use Rattle.ipc356_records.specs.NameTable.{names_in};

    /// No names.
    pub fn new(alloc: Global) -> NameTable<'a>
        ensures { names_in result ≡ [] }
    {
        NameTable {
            names: IndexSet::new(alloc),
        }
    }

    /// The number of a name, which is kept where it is new. An `Err` leaves the names as they were.
    pub fn number(&mut self, name: &'a [u8]) -> Result<u32, NoMemory>
        requires few { length (names_in self.old) + 1 < 2 ^ 32 }
        ensures index { IfOk result (λ n. n ≡ index_of name.now (names_in self.old)) }
        ensures kept { OnOk result (names_in self.new ≡ with_name name.now (names_in self.old)) }
        ensures err { OnErr result (names_in self.new ≡ names_in self.old) }
    {
        if let Some(number) = self.number_of_last(name) {
            return Ok(number);
        }
        match self.names.insert_full(name) {
            Ok((index, _)) => Ok(index as u32),
            Err(_) => Err(NoMemory),
        }
    }

    // The number of the name that was kept last, where it is this one: mostly the records of a net follow one another.
    fn number_of_last(&self, name: &[u8]) -> Option<u32>
        requires few { length (names_in self.now) < 2 ^ 32 }
        ensures index { IfSome result (λ n. n ≡ index_of name.now (names_in self.now)) }
        ensures kept { IfSome result (λ _. names_in self.now ≡ with_name name.now (names_in self.now)) }
    {
        let (last, before) = self.names.as_slice().split_last()?;
        if is_word(name, last) {
            Some(before.len() as u32)
        } else {
            None
        }
    }

    /// The names as texts of their own.
    pub fn texts(&self, alloc: Global) -> Result<Rows<Text>, NoMemory>
        requires lawful { All IsText (names_in self.now) }
        ensures same { IfOk result (λ rows. rows ≡ names_in self.now) }
    {
        let names = self.names.as_slice();
        let mut rows = Rows::with_capacity(alloc, names.len())?;
        for name in names {
            match Text::new(alloc, name) {
                Ok(text) => rows.push(text)?,
                Err(TextFault::BadText) => unreachable!(),
                Err(TextFault::NoMemory) => return Err(NoMemory),
            }
        }
        Ok(rows)
    }
}
