//! A map by key, in key order.

ghost use Rattle.std.specs.Prelude.{◌≡◌, [], length, None, Some, OnOk, OnErr, IfOk, IfErr, IfSome, List, Option, if◌then◌else◌};
ghost use Rattle.std.specs.Borrow.{sem};
ghost use Rattle.std.specs.List.{filter};
ghost use Rattle.std.specs.Option.{option_copied, option_copied_mut, option_map};
ghost use Rattle.std.specs.Ordering.{is_eq};
ghost use Rattle.mv_values.specs.declared.value.Value.{Value};
ghost use Rattle.mv_values.specs.Order.{key_order};
ghost use Rattle.mv_table.specs.Entries.{item_of, with_item, KeysRise};
ghost use Rattle.mv_table.specs.Spans.{is_within, IsForward};

use crate::span::Span;
use mv_values::memory::NoMemory;
use mv_values::value::Key;
use std::alloc::Global;
use std::collections::BTreeMap;
use std::collections::btree_map::{IntoIter, Iter, Range};
use std::marker::Model;
use std::mem;
use std::ops::Bound;

/// Items by key. Contracts see the entries in key order.
#[derive(Drop)]
pub struct KeyMap<T> {
    entries: BTreeMap<Key, T>,
}

impl<T> Model for KeyMap<T> {
    ghost use Rattle.std.specs.Prelude.{List as Seq};
    ghost use Rattle.mv_values.specs.declared.value.Value.{Value as Val};

    ghost Value = { Seq (Seq Val × T) };

    ghost view = { λ m. m.entries.entries };
}

impl<T> KeyMap<T> {
    /// Returns a map without items. It allocates no memory.
    pub fn new(alloc: Global) -> KeyMap<T>
        ensures { result ≡ [] }
    {
        KeyMap {
            entries: BTreeMap::new(alloc),
        }
    }

    /// Returns the number of items.
    pub fn len(&self) -> usize
        ensures len { result ≡ length self.now }
        ensures rising { KeysRise self.now }
    {
        self.entries.len()
    }

    /// Returns the item under a key. Takes time logarithmic in the number of items.
    pub fn get(&self, key: &Key) -> Option<&T>
        ensures { option_copied result ≡ item_of self.now key.now }
    {
        self.entries.get(key)
    }

    /// Returns the entry of a key. Takes time logarithmic in the number of items.
    pub fn get_key_value(&self, key: &Key) -> Option<(&Key, &T)>
        ensures key { IfSome result (λ e. e.0.now ≡ key.now) }
        ensures item { option_map (λ e. e.1.now) result ≡ item_of self.now key.now }
    {
        self.entries.get_key_value(key)
    }

    /// Iterates over the entries, in key order.
    pub fn iter(&self) -> Iter<'_, Key, T>
        ensures items { result ≡ self.now }
        ensures rising { KeysRise self.now }
    {
        self.entries.iter()
    }

    /// Iterates over the entries whose keys are in the span, in key order. It finds the first one in time logarithmic
    /// in the number of items.
    pub fn range(&self, span: &Span) -> Range<'_, Key, T>
        requires { IsForward span.now }
        ensures items { result ≡ filter (λ e. is_within span.now e.0) self.now }
        ensures rising { KeysRise self.now }
    {
        let low = Bound::Included(&span.low);
        match &span.high {
            Some(high) => self.entries.range((low, Bound::Excluded(high))),
            None => self.entries.range((low, Bound::Unbounded)),
        }
    }
}

impl<T> KeyMap<T> {
    ghost use Rattle.mv_table.specs.Lending.{LendsItem};

    /// Returns a mutable reference to the item under a key. Takes time logarithmic in the number of items, and
    /// allocates no memory.
    pub fn get_mut(&mut self, key: &Key) -> Option<&mut T>
        ensures* lends { sem 𝓛 (LendsItem T.row self.entry key.now result) }
        ensures item { option_copied_mut result ≡ item_of self.old key.now }
    {
        self.entries.get_mut(key)
    }

    /// Replaces the item under a key, and returns the old one. If there is none, the map is unchanged and the given
    /// item is returned as the error. Takes time logarithmic in the number of items, and allocates no memory.
    pub fn replace(&mut self, key: &Key, item: T) -> Result<T, T>
        ensures items { OnOk result (self.new ≡ with_item key.now (Some item) self.old) }
        ensures at { OnOk result ((other : List Value) → item_of self.new other ≡ (if is_eq (key_order key.now other) then Some item else item_of self.old other)) }
        ensures was { IfOk result (λ was. item_of self.old key.now ≡ Some was) }
        ensures none { IfErr result (λ back. (back ≡ item) × (item_of self.old key.now ≡ None)) }
        ensures same { OnErr result (self.new ≡ self.old) }
    {
        let Some(place) = self.entries.get_mut(key) else {
            return Err(item);
        };
        Ok(mem::replace(place, item))
    }
}

impl<T: Drop> KeyMap<T> {
    /// Puts an item under a key, and returns the old one if there was one. Takes time logarithmic in the number of
    /// items. If memory runs out, the map is unchanged.
    pub fn put(&mut self, key: Key, item: T) -> Result<Option<T>, NoMemory>
        ensures ok { OnOk result (self.new ≡ with_item key (Some item) self.old) }
        ensures at { OnOk result ((other : List Value) → item_of self.new other ≡ (if is_eq (key_order key other) then Some item else item_of self.old other)) }
        ensures was { IfOk result (λ was. was ≡ item_of self.old key) }
        ensures rising { KeysRise self.new }
        ensures err { OnErr result (self.new ≡ self.old) }
    {
        let was = self.entries.insert(key, item)?;
        Ok(was)
    }

    /// Removes the item under a key and returns it. Takes time logarithmic in the number of items, and allocates no
    /// memory.
    pub fn take(&mut self, key: &Key) -> Option<T>
        ensures items { self.new ≡ with_item key.now None self.old }
        ensures at { (other : List Value) → item_of self.new other ≡ (if is_eq (key_order key.now other) then None else item_of self.old other) }
        ensures was { result ≡ item_of self.old key.now }
    {
        let _len = self.entries.len();
        self.entries.remove(key)
    }

    /// Turns the map into an iterator over its entries, in key order.
    pub fn into_entries(self) -> IntoIter<Key, T, Global>
        ensures items { result ≡ self }
        ensures rising { KeysRise self }
    {
        self.entries.into_iter()
    }
}
