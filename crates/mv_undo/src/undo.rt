//! The writes of a running call, in order.

ghost use Rattle.std.specs.Prelude.{◌≡◌, ◌==◌, IfOk, length};
ghost use Rattle.std.specs.Option.{option_copied};
ghost use Rattle.mv_record.specs.Writes.{writes_on, patched_by};
ghost use Rattle.mv_undo.specs.Owned.{owned_by};
ghost use Rattle.mv_undo.specs.Owning.{before, earlier, is_fixed, touches, AreSought};
ghost use Rattle.mv_undo.specs.Indexed.{IsIndexOf};
ghost use Rattle.mv_undo.specs.Indexing.{DoesAll, IsLastOn};

use crate::ends::SoughtKeys;
use crate::index::{last_on, places_in};
use crate::items::Items;
use crate::links::last_before;
use crate::lookup::copy_of;
use crate::own_index::OwnIndex;
use crate::state::{is_whole, patch_up_to};
use mv_record::applying::patch_row;
use mv_table::scan::Direction;
use mv_table::span::Span;
use mv_values::copied::Copied;
use mv_values::list::List;
use mv_values::memory::NoMemory;
use mv_values::patch::{Patch, Write};
use mv_values::pred_ref::PredRef;
use mv_values::value::{Key, Row};
use std::alloc::Global;
use std::marker::Model;

/// The writes of a running call, each with the number of its record. The log of the call has the writes, and an index
/// finds them. Contracts see them in the order of the index.
#[derive(Drop)]
pub struct Undo<'u> {
    index: &'u OwnIndex,
    writes: &'u [Write],
}

impl<'u> Model for Undo<'u> {
    ghost use Rattle.std.specs.Prelude.{List as Seq};
    ghost use Rattle.mv_undo.specs.Owned.{owned_by, Owned};
    ghost use Rattle.mv_undo.specs.Indexed.{IsIndexOf};

    ghost Value = { Seq Owned };

    ghost view = { λ u. owned_by u.index.now.places u.writes.now };

    ghost invariant = { λ u. IsIndexOf u.index.now u.writes.now };
}

impl<'u> Undo<'u> {
    /// Returns the writes of an index. These are the writes of its log.
    pub fn of(index: &'u OwnIndex, writes: &'u [Write]) -> Undo<'u>
        requires { IsIndexOf index.now writes.now }
        ensures { result ≡ owned_by index.now.places writes.now }
    {
        Undo { index, writes }
    }

    /// Whether there are none.
    pub fn is_empty(&self) -> bool
        ensures { result ≡ (length self.now == 0) }
    {
        self.index.places().is_empty()
    }

    /// Lends the writes in their order.
    fn items(&self) -> Items<'u>
        ensures { result ≡ self.now }
    {
        Items::of(self.index.places(), self.writes)
    }

    /// Returns the place of the last write to a key by a record below `number`, if there is one. Costs the logarithm of
    /// the number of writes.
    fn last_earlier(&self, number: usize, table: u8, key: &Key) -> Option<usize>
        ensures { IsLastOn (before number self.now) table key.now result }
    {
        let items = self.items();
        let last = last_on(&items, self.index.order(), table, key);
        last_before(&items, self.index.links(), last, number)
    }

    /// Whether a record below `number` wrote the key. Allocates nothing. Costs the logarithm of the number of writes.
    pub fn touched(&self, number: usize, table: u8, key: &Key) -> bool
        ensures { result ≡ touches table key.now (earlier number self.now) }
    {
        self.last_earlier(number, table, key).is_some()
    }

    /// Returns the keys of the predicate's table that records below `number` wrote and that the predicate admits, each
    /// once, in order. Fails if memory runs out. Costs a step for each written key in the span that the predicate's
    /// tests leave, and the logarithm of the number of writes to it.
    pub fn keys(
        &self,
        alloc: Global,
        number: usize,
        pred: &PredRef<'_>,
    ) -> Result<List<Key>, NoMemory>
        ensures { IfOk result (λ keys. AreSought pred.now (earlier number self.now) keys) }
    {
        let mut sought = self.sought_keys(alloc, number, pred)?;
        let mut keys = List::new(alloc);
        while let Some(key) = sought.take_next(Direction::Forward) {
            keys.push(key.copy(alloc)?)?;
        }
        Ok(keys)
    }

    /// Returns the keys of the predicate's table that records below `number` wrote and that the predicate admits, to be
    /// taken from either end. Fails if memory runs out. Costs the logarithm of the number of written keys.
    pub fn sought_keys<'a>(
        &'a self,
        alloc: Global,
        number: usize,
        pred: &'a PredRef<'a>,
    ) -> Result<SoughtKeys<'a>, NoMemory>
        ensures { IfOk result (λ keys. AreSought pred.now (earlier number self.now) keys) }
    {
        let span = Span::of(alloc, pred.tests())?;
        let items = self.items();
        let places = places_in(&items, self.index.order(), pred.table(), &span);
        let links = self.index.links();
        Ok(SoughtKeys::new(items, links, places, number, pred))
    }

    /// Returns the patch that does what the writes to a key by records below `number` do, or `None` if none did any.
    fn patch_on(&self, number: usize, table: u8, key: &Key) -> Option<&Patch>
        ensures { DoesAll (option_copied result) (writes_on table key.now (earlier number self.now)) }
    {
        let last = self.last_earlier(number, table, key);
        patch_up_to(&self.items(), self.index.composed(), last)
    }

    /// Whether the writes to a key by records below `number` leave the same row, whatever row was there before them. They
    /// do exactly if one of them is a whole row or a deletion. Allocates nothing. Costs as much as `touched`.
    pub fn fixes(&self, number: usize, table: u8, key: &Key) -> bool
        ensures { result ≡ is_fixed (writes_on table key.now (earlier number self.now)) }
    {
        match self.patch_on(number, table, key) {
            Some(patch) => is_whole(patch),
            None => false,
        }
    }

    /// Returns the row after the writes to a key by records below `number`, given the row before them, if any. Where
    /// `fixes` holds, any row may be given, or none. Fails if memory runs out. Costs as much as `touched`, and the
    /// size of the row.
    pub fn row_behind(
        &self,
        alloc: Global,
        number: usize,
        table: u8,
        key: &Key,
        was: Option<&Row>,
    ) -> Result<Option<Row>, NoMemory>
        ensures { IfOk result (λ row. row ≡ patched_by (writes_on table key.now (earlier number self.now)) (option_copied was.entry)) }
    {
        match self.patch_on(number, table, key) {
            Some(patch) => patch_row(alloc, patch, was),
            None => copy_of(alloc, was),
        }
    }
}
