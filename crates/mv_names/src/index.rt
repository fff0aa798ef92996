//! Items by name. If several items share a name, the first is found.

ghost use Rattle.std.specs.Prelude.{◌≡◌, [], slice_get, IfOk};
ghost use Rattle.std.specs.Option.{option_copied};
ghost use Rattle.mv_names.specs.Named.{is_named, first_named, place_named};
ghost use Rattle.mv_names.specs.Index.{place_in};

use crate::named::Named;
use indexmap::IndexMap;
use mv_values::memory::NoMemory;
use mv_values::txt::Txt;
use std::alloc::Global;
use std::marker::Model;

/// Items, with the place of the first of each name. Contracts see the items.
#[derive(Drop)]
pub struct Index<'a, T: Named> {
    items: &'a [T],
    /// The place of the first item of each name. `None` only if there are no items.
    places: Option<IndexMap<&'a [u8], usize>>,
}

impl<'a, T: Named> Model for Index<'a, T> {
    ghost use Rattle.std.specs.Prelude.{List as Seq};
    ghost use Rattle.mv_names.specs.Index.{HasPlaces};

    ghost Value = { Seq T };

    ghost view = { λ x. x.items.now };

    ghost invariant = { λ x. HasPlaces T.name_of x.items.now x.places };
}

impl<'a, T: Named> Index<'a, T> {
    /// Returns the index of these items. Costs a hash of each name. Fails if memory runs out.
    pub fn of(alloc: Global, items: &'a [T]) -> Result<Index<'a, T>, NoMemory>
        ensures { IfOk result (λ index. index ≡ items.now) }
    {
        let mut places = IndexMap::new(alloc);
        for i in 0..items.len() {
            let name = items[i].name().as_slice();
            if places.get(name).is_some() {
                continue;
            }
            places.insert(name, i)?;
        }
        let places = Some(places);
        Ok(Index { items, places })
    }

    /// Returns the index of no items. Needs no memory.
    pub fn none() -> Index<'a, T>
        ensures { result ≡ [] }
    {
        Index {
            items: &[],
            places: None,
        }
    }

    /// Returns the place of the first item with the name. Costs a hash of the name.
    fn seek(&self, name: &Txt) -> Option<usize>
        ensures { result ≡ place_in T.name_of self.now name.now }
    {
        match &self.places {
            None => None,
            Some(places) => places.get(name.as_slice()).copied(),
        }
    }

    /// Whether an item has the name. Costs a hash of the name.
    pub fn has(&self, name: &Txt) -> bool
        ensures { result ≡ is_named T.name_of self.now name.now }
    {
        self.seek(name).is_some()
    }

    /// Returns the place of the first item with the name, or the number of items if none has it. Costs a hash of the
    /// name.
    pub fn place(&self, name: &Txt) -> usize
        ensures { result ≡ place_named T.name_of self.now name.now }
    {
        match self.seek(name) {
            Some(place) => place,
            None => self.items.len(),
        }
    }

    /// Returns the first item with the name. Costs a hash of the name.
    pub fn find(&self, name: &Txt) -> Option<&'a T>
        ensures { option_copied result ≡ first_named T.name_of self.now name.now }
    {
        match self.seek(name) {
            Some(place) => self.at(place),
            None => None,
        }
    }

    /// Returns the item at a place.
    pub fn at(&self, place: usize) -> Option<&'a T>
        ensures { option_copied result ≡ slice_get self.now place }
    {
        item_at(self.items, place)
    }
}

/// Returns the item at a place.
pub(crate) fn item_at<T>(items: &[T], place: usize) -> Option<&T>
    ensures { option_copied result ≡ slice_get items.now place }
{
    items.get(place)
}
