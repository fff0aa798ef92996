//! A list with reserved room.

ghost use Rattle.std.specs.Prelude.{◌≡◌, ◌++◌, ◌∷◌, ◌+◌, ◌<◌, ◌≤◌, ◌^◌, [], length, OnOk};
ghost use Rattle.mv_lawful.specs.Rounds.{numbered, last_number};

use mv_journal::outcome::Round;
use mv_values::memory::NoMemory;
use std::alloc::Global;
use std::marker::Model;

/// Items in order. Contracts see the items, and the room for more.
#[derive(Drop)]
pub(crate) struct Roomy<T> {
    items: Vec<T>,
}

impl<T> Model for Roomy<T> {
    ghost use Rattle.std.specs.Prelude.{◌-◌, length};
    ghost use Rattle.std.specs.Vec.{vec_capacity};
    ghost use Rattle.mv_core.specs.Rooms.{Filled};

    ghost Value = { Filled T };

    ghost view = { λ r. record { items = r.items.items; room = vec_capacity r.items - length r.items.items } };
}

impl<T> Roomy<T> {
    /// Returns a list without items and room. It allocates no memory.
    pub(crate) fn new(alloc: Global) -> Roomy<T>
        ensures { result.items ≡ [] }
    {
        Roomy {
            items: Vec::new(alloc),
        }
    }

    /// Returns the number of items.
    pub(crate) fn len(&self) -> usize
        ensures { result ≡ length self.now.items }
    {
        self.items.len()
    }

    /// Returns the items.
    pub(crate) fn as_slice(&self) -> &[T]
        ensures { result.now ≡ self.now.items }
    {
        self.items.as_slice()
    }
}

impl<T: Drop> Roomy<T> {
    /// Makes room for this many more items.
    pub(crate) fn reserve(&mut self, more: usize) -> Result<(), NoMemory>
        ensures items { self.new.items ≡ self.old.items }
        ensures room { OnOk result (more ≤ self.new.room) }
        ensures kept { self.old.room ≤ self.new.room }
    {
        self.items.reserve(more)?;
        Ok(())
    }

    /// Appends an item. It allocates no memory.
    pub(crate) fn put(&mut self, item: T)
        requires { 0 < self.old.room }
        ensures items { self.new.items ≡ self.old.items ++ item ∷ [] }
        ensures room { self.old.room ≤ self.new.room + 1 }
        ensures few { length self.old.items + 1 < 2 ^ 64 }
    {
        if let Err(_) = self.items.push(item) {
            unreachable!();
        }
    }
}

impl Roomy<Round> {
    /// Sets the number of the last round, or clears it.
    pub(crate) fn number_last(&mut self, count: Option<usize>)
        ensures items { self.new.items ≡ numbered count self.old.items }
        ensures room { self.new.room ≡ self.old.room }
    {
        if let Some(at) = self.items.len().checked_sub(1) {
            self.items[at].count = count;
        }
    }
}

/// Returns the number of the last of these rounds, if it is known.
pub(crate) fn last_number(rounds: &[Round]) -> Option<usize>
    ensures { result ≡ last_number rounds.now }
{
    match rounds {
        [] => None,
        [.., last] => last.count,
    }
}
