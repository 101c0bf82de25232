//! Lists most of which have one item at most.
ghost use Rattle.std.specs.Mem.{FitsInMemory};
ghost use Rattle.std.specs.Prelude.{◌≡◌, ◌≢◌, ◌<◌, true, List, [], ◌∷◌, ◌++◌, length, All, IfOk, OnOk, OnErr};
ghost use Rattle.verdict.specs.Stored.{is_many, stored_items};

use lengths::rows::{NoMemory, Rows};
use std::alloc::Global;
use std::marker::Model;
use std::slice;

// What a list has: its one item stands in it.
#[derive(Drop)]
enum Stored<T> {
    Nothing,
    One(T),
    Many(Rows<T>),
}

/// A list that takes memory from its second item on. Contracts see it as the list of its items.
#[derive(Drop)]
pub struct SmallRows<T> {
    stored: Stored<T>,
    ghost some: { is_many stored ≡ true → 0 < length (stored_items stored) },
}

impl<T> Model for SmallRows<T> {
    ghost use Rattle.std.specs.Prelude.{List};
    ghost use Rattle.verdict.specs.Stored.{stored_items};

    ghost Value = { List T };

    ghost view = { λ r. stored_items r.stored };
}

impl<T> SmallRows<T> {
    /// An empty list.
    pub fn new() -> SmallRows<T>
        ensures { result ≡ [] }
    {
        SmallRows {
            stored: Stored::Nothing,
        }
    }

    /// The items in order.
    pub fn as_slice(&self) -> &[T]
        requires { FitsInMemory T.row }
        ensures { result.now ≡ self.now }
    {
        match &self.stored {
            Stored::Nothing => &[],
            Stored::One(item) => slice::from_ref(item),
            Stored::Many(items) => items.as_slice(),
        }
    }
}

impl<T: Copy> SmallRows<T> {
    /// Appends an item. Where memory is wanted, never for the first item, the list stays as it was.
    pub fn push(&mut self, alloc: Global, item: T) -> Result<(), NoMemory>
        ensures ok { OnOk result (self.new ≡ self.old ++ item ∷ []) }
        ensures err { OnErr result (self.new ≡ self.old) }
        ensures first { OnErr result (self.old ≢ []) }
    {
        match &mut self.stored {
            Stored::Nothing => {
                self.stored = Stored::One(item);
                Ok(())
            }
            Stored::One(first) => {
                self.stored = Stored::Many(pair(alloc, *first, item)?);
                Ok(())
            }
            Stored::Many(items) => items.push(item),
        }
    }
}

// A list of two.
fn pair<T: Copy>(alloc: Global, first: T, second: T) -> Result<Rows<T>, NoMemory>
    ensures { IfOk result (λ rows. rows ≡ first ∷ second ∷ []) }
{
    let mut rows = Rows::new(alloc);
    rows.push(first)?;
    rows.push(second)?;
    Ok(rows)
}

/// So many empty lists. `NoMemory` where memory is wanted.
pub fn empty_small_rows<T: Copy>(alloc: Global, count: usize) -> Result<Vec<SmallRows<T>>, NoMemory>
    ensures long { IfOk result (λ rows. length rows.items ≡ count) }
    ensures empty { IfOk result (λ rows. All (λ row. row ≡ []) rows.items) }
{
    let mut rows = Vec::with_capacity(alloc, count)?;
    for _ in 0..count {
        rows.push(SmallRows::new())?;
    }
    Ok(rows)
}
