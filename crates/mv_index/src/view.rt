//! A view that looks rows up through an index.

ghost use Rattle.std.specs.Prelude.{◌≡◌, IfOk};
ghost use Rattle.mv_values.specs.Patching.{found_by, row_of};
ghost use Rattle.mv_values.specs.Preds.{matched};
ghost use Rattle.mv_values.specs.Tables.{rows_at};
ghost use Rattle.mv_table.specs.Scans.{foremost};
ghost use Rattle.mv_record.specs.Admitting.{Admitted};
ghost use Rattle.mv_record.specs.Writes.{AreRising};
ghost use Rattle.mv_view.specs.Narrowing.{outside};
ghost use Rattle.mv_view.specs.Viewing.{with_rows_call, with_row_call, answered, MayAnswer};
ghost use Rattle.mv_index.specs.Indexing.{Covers};
ghost use Rattle.mv_index.specs.Asking.{sight_of, AskedAtMost, PassesOn, LooksUp};

use crate::index::Index;
use crate::indexable::{Indexable, Sighted};
use crate::look::{find, find_foremost, match_at};
use mv_table::found::Found;
use mv_table::found_rows::FoundRows;
use mv_table::scan::Direction;
use mv_values::lent::Lent;
use mv_values::pred_ref::PredRef;
use mv_values::value::Key;
use mv_view::key_set::KeySet;
use mv_view::view::{Refused, View};
use std::alloc::Global;
use std::marker::Model;

/// A view of the database of another view, which it asks for rows by their keys where an index tells these.
#[derive(Drop)]
pub struct IndexView<'s, 'a, V: Sighted> {
    index: &'s Index,
    inner: &'a mut V,
    rows_calls: u64,
    row_calls: u64,
}

impl<'s, 'a, V: Sighted> Model for IndexView<'s, 'a, V> {
    ghost use Rattle.mv_record.specs.Writes.{AreRising};
    ghost use Rattle.mv_index.specs.Indexing.{Covers};
    ghost use Rattle.mv_index.specs.Asking.{Indexed};

    ghost Value = { Indexed };

    ghost view = { λ v. record { index = v.index.now; inner = V.seen v.inner.now; rows_calls = v.rows_calls; row_calls = v.row_calls } };

    ghost invariant = { λ v. Covers v.index.now (V.seen v.inner.now).database × AreRising (V.seen v.inner.now).database };
}

impl<'s, 'a, V: Indexable<'s>> IndexView<'s, 'a, V> {
    /// Returns a view of the inner view's database, which the index must cover, with no calls counted. It allocates no
    /// memory.
    pub fn new(index: &'s Index, inner: &'a mut V) -> IndexView<'s, 'a, V>
        requires covers { Covers index.now (V.sight inner.old).database }
        requires rising { AreRising (V.sight inner.old).database }
        ensures { result ≡ record { index = index.now; inner = V.sight inner.old; rows_calls = 0; row_calls = 0 } }
    {
        IndexView {
            index,
            inner,
            rows_calls: 0,
            row_calls: 0,
        }
    }
}

impl<'s, 'a, V: Indexable<'s>> View<'s> for IndexView<'s, 'a, V> {
    ghost sight = { sight_of };

    /// Returns the rows that the predicate matches. Where `=` tests give every key column, it asks the inner view for
    /// one row at most. Else it asks for the row under each key of the test that has the fewest, if there is a test of
    /// an indexed column by `=`. It asks nothing of a table that has had no row.
    fn rows(&mut self, alloc: Global, pred: &PredRef<'_>) -> Result<FoundRows<'s>, Refused>
        requires { Admitted pred.now (rows_at self.old.inner.database pred.now.table) }
        ensures found { IfOk result (λ rows. rows ≡ found_by pred.now self.old.inner.database) }
        ensures counts { sight_of self.new ≡ answered result (with_rows_call (sight_of self.old)) }
        ensures stale { MayAnswer (sight_of self.old) (sight_of self.new) result }
        ensures index { self.new.index ≡ self.old.index }
        ensures looks { LooksUp self.old.index pred.now self.old.inner self.new.inner result }
    {
        self.rows_calls = self.rows_calls.saturating_add(1);
        find(alloc, self.index, pred, &mut *self.inner)
    }

    fn foremost<K: KeySet>(
        &mut self,
        alloc: Global,
        pred: &PredRef<'_>,
        direction: Direction,
        passed: &K,
    ) -> Result<Option<Found<'s>>, Refused>
        requires { Admitted pred.now (rows_at self.old.inner.database pred.now.table) }
        ensures found { IfOk result (λ row. row ≡ foremost direction (outside (K.has passed.now) (found_by pred.now self.old.inner.database))) }
        ensures counts { sight_of self.new ≡ answered result (with_rows_call (sight_of self.old)) }
        ensures stale { MayAnswer (sight_of self.old) (sight_of self.new) result }
        ensures index { self.new.index ≡ self.old.index }
        ensures looks { LooksUp self.old.index pred.now self.old.inner self.new.inner result }
    {
        self.rows_calls = self.rows_calls.saturating_add(1);
        find_foremost(alloc, self.index, pred, direction, passed, &mut *self.inner)
    }

    fn match_under(
        &mut self,
        alloc: Global,
        pred: &PredRef<'_>,
        key: &Key,
    ) -> Result<Option<Lent<'s>>, Refused>
        ensures found { IfOk result (λ row. row ≡ matched pred.now (row_of (rows_at self.old.inner.database pred.now.table) key.now)) }
        ensures counts { sight_of self.new ≡ answered result (with_rows_call (sight_of self.old)) }
        ensures stale { MayAnswer (sight_of self.old) (sight_of self.new) result }
        ensures index { self.new.index ≡ self.old.index }
        ensures asks { AskedAtMost 0 1 self.old.inner self.new.inner }
        ensures passes_on { PassesOn self.old.inner self.new.inner result }
    {
        self.rows_calls = self.rows_calls.saturating_add(1);
        match_at(alloc, pred, key, &mut *self.inner)
    }

    fn row(&mut self, alloc: Global, table: u8, key: &Key) -> Result<Option<Lent<'s>>, Refused>
        ensures found { IfOk result (λ row. row ≡ row_of (rows_at self.old.inner.database table) key.now) }
        ensures counts { sight_of self.new ≡ answered result (with_row_call (sight_of self.old)) }
        ensures stale { MayAnswer (sight_of self.old) (sight_of self.new) result }
        ensures index { self.new.index ≡ self.old.index }
        ensures asks { AskedAtMost 0 1 self.old.inner self.new.inner }
        ensures passes_on { PassesOn self.old.inner self.new.inner result }
    {
        self.row_calls = self.row_calls.saturating_add(1);
        self.inner.row(alloc, table, key)
    }
}
