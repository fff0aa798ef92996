//! The items in scope, by name. An inner scope adds items at the end, and they are removed when it ends.

ghost use Rattle.std.specs.Prelude.{◌≡◌, ◌↔◌, ◌<◌, ◌∷◌, ◌++◌, [], OnOk, OnErr, IsSome, length, take, option_to_list, slice_get};
ghost use Rattle.std.specs.Option.{option_copied};
ghost use Rattle.mv_names.specs.Named.{is_named, first_named};
ghost use Rattle.mv_names.specs.Index.{place_in};

use crate::index::item_at;
use crate::named::Named;
use indexmap::IndexMap;
use mv_values::list::List;
use mv_values::memory::NoMemory;
use mv_values::txt::Txt;
use std::alloc::Global;
use std::marker::Model;

/// Items in scope, with the place of the first of each name. Contracts see the items.
#[derive(Drop)]
pub struct Scope<'a, T: Named> {
    items: List<T>,
    places: IndexMap<&'a [u8], usize>,
}

impl<'a, T: Named> Model for Scope<'a, T> {
    ghost use Rattle.std.specs.Prelude.{List as Seq};
    ghost use Rattle.mv_names.specs.Index.{Places};

    ghost Value = { Seq T };

    ghost view = { λ s. s.items };

    ghost invariant = { λ s. Places T.name_of s.items s.places };
}

impl<'a, T: Named + Drop> Scope<'a, T> {
    /// Returns a scope without items. It allocates nothing.
    pub fn new(alloc: Global) -> Scope<'a, T>
        ensures { result ≡ [] }
    {
        Scope {
            items: List::new(alloc),
            places: IndexMap::new(alloc),
        }
    }

    /// Returns the number of items.
    pub fn len(&self) -> usize
        ensures { result ≡ length self.now }
    {
        self.items.len()
    }

    /// Returns the place of the first item with the name. Costs a hash of the name.
    fn seek(&self, name: &[u8]) -> Option<usize>
        ensures { result ≡ place_in T.name_of self.now name.now }
    {
        self.places.get(name).copied()
    }

    /// Returns the item at a place.
    fn at(&self, place: usize) -> Option<&T>
        ensures { option_copied result ≡ slice_get self.now place }
    {
        item_at(self.items.as_slice(), place)
    }

    /// Whether an item has the name. Costs a hash of the name.
    pub fn has(&self, name: &Txt) -> bool
        ensures { result ≡ is_named T.name_of self.now name.now }
    {
        self.seek(name.as_slice()).is_some()
    }

    /// Returns the first item with the name. Costs a hash of the name.
    pub fn find(&self, name: &Txt) -> Option<&T>
        ensures { option_copied result ≡ first_named T.name_of self.now name.now }
    {
        match self.seek(name.as_slice()) {
            Some(place) => self.at(place),
            None => None,
        }
    }

    /// Adds an item with this name. Costs a hash of the name, or two if it is new. Fails if memory runs out, and then
    /// leaves the scope unchanged.
    pub fn push(&mut self, name: &'a [u8], item: T) -> Result<(), NoMemory>
        requires { name.now ≡ T.name_of item }
        ensures ok { OnOk result (self.new ≡ self.old ++ item ∷ []) }
        ensures err { OnErr result (self.new ≡ self.old) }
    {
        let place = self.items.len();
        self.places.reserve(1)?;
        self.items.push(item)?;
        if self.places.get(name).is_none() {
            self.places.insert(name, place).unwrap();
        }
        Ok(())
    }

    /// Removes the last item and returns it. Returns `None` if there is none. Costs a hash of its name, or two if the
    /// item is the first of its name.
    fn pop(&mut self) -> Option<T>
        ensures items { self.old ≡ self.new ++ option_to_list result }
        ensures found { IsSome result ↔ (0 < length self.old) }
    {
        match self.items.pop() {
            None => None,
            Some(item) => {
                let name = item.name().as_slice();
                if let Some(place) = self.places.get(name).copied() {
                    if place == self.items.len() {
                        self.places.swap_remove(name);
                    }
                }
                Some(item)
            }
        }
    }

    /// Keeps the first `len` items and drops the others. Costs a hash of the name of each item dropped, or two if the
    /// item is the first of its name.
    pub fn truncate(&mut self, len: usize)
        ensures { self.new ≡ take len self.old }
    {
        while self.len() > len {
            self.pop();
        }
    }
}
