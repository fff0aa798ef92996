//! A list of fewer than 2^32 items, of which parts are lent.

ghost use Rattle.std.specs.Prelude.{◌≡◌, ◌≤◌, ◌<◌, ◌^◌, [], ◌∷◌, ◌++◌, length, OnOk, OnErr, take};
ghost use Rattle.mv_log.specs.Parts.{part, Fits};

use crate::head::Range;
use mv_values::memory::NoMemory;
use std::alloc::Global;
use std::marker::Model;

/// Items in order, fewer than 2^32. Contracts see only the items.
#[derive(Drop)]
pub struct Flat<T> {
    items: Vec<T>,
}

impl<T> Model for Flat<T> {
    ghost use Rattle.std.specs.Prelude.{List as Seq, ◌<◌, ◌^◌, length};
    ghost use Rattle.std.specs.Coded.{coded_list};

    ghost Value = { Seq T };

    ghost coded = { coded_list T.code };

    ghost view = { λ l. l.items.items };

    ghost invariant = { λ l. length l.items.items < 2 ^ 32 };
}

impl<T> Flat<T> {
    /// Returns an empty list. It allocates nothing.
    pub fn new(alloc: Global) -> Flat<T>
        ensures { result ≡ [] }
    {
        Flat {
            items: Vec::new(alloc),
        }
    }

    /// Returns the number of items.
    pub fn len(&self) -> u32
        ensures { result ≡ length self.now }
    {
        self.items.len() as u32
    }

    /// Borrows the items.
    pub fn as_slice(&self) -> &[T]
        ensures { result.now ≡ self.now }
    {
        self.items.as_slice()
    }

    /// Borrows the first items, so many.
    pub fn first(&self, len: u32) -> &[T]
        requires { len ≤ length self.now }
        ensures { result.now ≡ take len self.now }
    {
        &self.items.as_slice()[..len as usize]
    }

    /// Borrows a part.
    #[tactic(auto, using(crate::proofs::Parts::range_part))]
    pub fn part(&self, range: Range) -> &[T]
        requires { Fits (length self.now) range }
        ensures { result.now ≡ part range self.now }
    {
        &self.items.as_slice()[range.from as usize..range.to as usize]
    }
}

impl<T: Drop> Flat<T> {
    /// Appends an item. Fails if memory runs out, and then leaves the list unchanged.
    pub fn push(&mut self, item: T) -> Result<(), NoMemory>
        ensures ok { OnOk result (self.new ≡ self.old ++ item ∷ []) }
        ensures err { OnErr result (self.new ≡ self.old) }
    {
        if self.items.len() >= 4_294_967_295 {
            return Err(NoMemory);
        }
        self.items.push(item)?;
        Ok(())
    }

    /// Keeps the first `len` items, and the room of all.
    pub fn truncate(&mut self, len: u32)
        ensures { self.new ≡ take len self.old }
    {
        self.items.truncate(len as usize);
    }
}

impl<T: Copy> Flat<T> {
    /// Appends copies. Fails if memory runs out, and then leaves the list unchanged.
    pub fn append(&mut self, more: &[T]) -> Result<(), NoMemory>
        ensures ok { OnOk result (self.new ≡ self.old ++ more.now) }
        ensures err { OnErr result (self.new ≡ self.old) }
    {
        if more.len() > 4_294_967_295 || self.items.len() > 4_294_967_295 - more.len() {
            return Err(NoMemory);
        }
        self.items.extend_from_slice(more)?;
        Ok(())
    }
}
