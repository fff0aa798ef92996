//! An index of the writes of a running call, which its log has.

ghost use Rattle.std.specs.Prelude.{◌≡◌, ◌<◌, ◌≤◌, ◌++◌, ◌∷◌, [], All, OnOk, OnErr, drop, length, nat_lt, take};
ghost use Rattle.mv_undo.specs.Owned.{owned_by, places_before};
ghost use Rattle.mv_undo.specs.Owning.{undo_of};
ghost use Rattle.mv_undo.specs.Indexed.{no_index, IsIndexOf};

use crate::index::{count_up_to, found_at, renew};
use crate::items::{Items, write_at};
use crate::links::{Link, go_back, link_to};
use crate::place::Place;
use crate::state::patch_with;
use mv_values::memory::NoMemory;
use mv_values::patch::{Patch, Write};
use std::alloc::Global;
use std::marker::Model;

/// Where the writes of a running call are among those of its log, in the order of `push`. `order` has the number of the
/// last write to each key, by table and key. `links` has for each write where the earlier writes to its key are.
/// `composed` has for each write the patch that does what the writes to its key do up to it, or `None` where its own patch
/// does.
pub struct OwnIndex {
    alloc: Global,
    places: Vec<Place>,
    composed: Vec<Option<Patch>>,
    links: Vec<Link>,
    order: Vec<usize>,
}

impl Drop for OwnIndex {
    /// Drops the lists. A drop of its own is one step for who drops an index; a derived one is a step for each list.
    fn drop(self) {
        let OwnIndex {
            alloc: _,
            places: _,
            composed: _,
            links: _,
            order: _,
        } = self;
    }
}

impl Model for OwnIndex {
    ghost use Rattle.mv_undo.specs.Indexed.{Indexed};

    ghost Value = { Indexed };

    ghost view = { λ i. record { places = i.places.items; composed = i.composed.items; links = i.links.items; order = i.order.items } };
}

impl OwnIndex {
    /// Returns an index without writes. Allocates nothing.
    pub fn new(alloc: Global) -> OwnIndex
        ensures { result ≡ no_index }
    {
        OwnIndex {
            alloc,
            places: Vec::new(alloc),
            composed: Vec::new(alloc),
            links: Vec::new(alloc),
            order: Vec::new(alloc),
        }
    }

    /// Borrows the places of the writes.
    pub fn places(&self) -> &[Place]
        ensures { result.now ≡ self.now.places }
    {
        self.places.as_slice()
    }

    /// Borrows the patches that are kept for the writes.
    pub(crate) fn composed(&self) -> &[Option<Patch>]
        ensures { result.now ≡ self.now.composed }
    {
        self.composed.as_slice()
    }

    /// Borrows the links of the writes.
    pub(crate) fn links(&self) -> &[Link]
        ensures { result.now ≡ self.now.links }
    {
        self.links.as_slice()
    }

    /// Borrows the numbers of the last writes to keys, by table and key.
    pub(crate) fn order(&self) -> &[usize]
        ensures { result.now ≡ self.now.order }
    {
        self.order.as_slice()
    }

    /// Appends the write at a place of these, which the record with this number made. `number` may not be below that of the
    /// last write. Fails if memory runs out; nothing is then added. Costs the logarithm of the number of written keys. The
    /// first write to a key also moves one number for each greater key. A `Patch::Set` after another write to its key also
    /// costs the size of the row.
    pub fn push(&mut self, number: u32, at: u32, writes: &[Write]) -> Result<(), NoMemory>
        requires index { IsIndexOf self.old writes.now }
        requires within { at < length writes.now }
        requires last { All (λ p. p.number ≤ number) self.old.places }
        ensures places { OnOk result (self.new.places ≡ self.old.places ++ record { number = number; at = at } ∷ []) }
        ensures index { OnOk result (IsIndexOf self.new writes.now) }
        ensures err { OnErr result (self.new ≡ self.old) }
    {
        let write = write_at(writes, at as usize);
        let places = self.places.as_slice();
        let items = Items::of(places, writes);
        let order = self.order.as_slice();
        let under = count_up_to(&items, order, write.table as u16, &write.key);
        let before = found_at(&items, order, under, write.table, &write.key);
        let composed = self.composed.as_slice();
        let patch = patch_with(self.alloc, &items, composed, before, write)?;
        let links = self.links.as_slice();
        let link = link_to(&items, links, before);
        let last = self.places.len();
        self.places.reserve(1)?;
        self.composed.reserve(1)?;
        self.links.reserve(1)?;
        renew(&mut self.order, under, before, last)?;
        self.composed.push(patch)?;
        self.links.push(link)?;
        self.places.push(Place { number, at })?;
        Ok(())
    }

    /// Appends the writes of a record: those of these from place `from` up to `to`. All others are of records with smaller
    /// numbers. Fails if memory runs out; nothing is then added. Costs what `push` costs for each of them.
    pub fn push_all(
        &mut self,
        number: u32,
        from: u32,
        to: u32,
        writes: &[Write],
    ) -> Result<(), NoMemory>
        requires index { IsIndexOf self.old writes.now }
        requires order { from ≤ to }
        requires within { to ≤ length writes.now }
        requires last { All (λ p. p.number < number) self.old.places }
        ensures index { IsIndexOf self.new writes.now }
        ensures ok { OnOk result (owned_by self.new.places writes.now ≡ owned_by self.old.places writes.now ++ undo_of number (drop from (take to writes.now))) }
        ensures err { OnErr result (self.new.places ≡ self.old.places) }
    {
        for at in from..to {
            if let Err(error) = self.push(number, at, writes) {
                self.drop_from(number as usize, writes);
                return Err(error);
            }
        }
        Ok(())
    }

    /// Removes the writes of the record with this number and of later ones. Allocates nothing. Costs the number of written
    /// keys and of removed writes.
    pub fn drop_from(&mut self, number: usize, writes: &[Write])
        requires { IsIndexOf self.old writes.now }
        ensures places { self.new.places ≡ places_before number self.old.places }
        ensures index { IsIndexOf self.new writes.now }
    {
        let places = self.places.as_slice();
        let len = places.partition_point(
            |place: &Place| -> bool
                ensures { result ≡ nat_lt place.now.number number }
            { (place.number as usize) < number },
        );
        let items = Items::of(places, writes);
        let links = self.links.as_slice();
        go_back(&items, links, &mut self.order, number);
        self.places.truncate(len);
        self.composed.truncate(len);
        self.links.truncate(len);
        self.order.retain(
            |place: &usize| -> bool
                ensures { result ≡ nat_lt place.now len }
            { *place < len },
        );
    }

    /// Removes all writes. All room is kept.
    pub fn clear(&mut self)
        ensures { self.new ≡ no_index }
    {
        self.places.truncate(0);
        self.composed.truncate(0);
        self.links.truncate(0);
        self.order.truncate(0);
    }
}
