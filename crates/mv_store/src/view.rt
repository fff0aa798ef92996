//! A view of a store.

ghost use Rattle.std.specs.Prelude.{◌≡◌, ◌<◌, ◌^◌, IfOk, nat_lt, true, Err, List as Seq, Option as Opt};
ghost use Rattle.std.specs.Result.{is_err};
ghost use Rattle.mv_values.specs.declared.value.Value.{Value};
ghost use Rattle.mv_values.specs.declared.rows.Keyed.{Keyed};
ghost use Rattle.mv_values.specs.Patching.{found_by, row_of};
ghost use Rattle.mv_values.specs.Preds.{matched};
ghost use Rattle.mv_values.specs.Tables.{rows_at};
ghost use Rattle.mv_table.specs.Scans.{foremost};
ghost use Rattle.mv_record.specs.Admitting.{Admitted};
ghost use Rattle.mv_view.specs.Narrowing.{outside};
ghost use Rattle.mv_view.specs.Viewing.{Sight, with_rows_call, with_row_call, answered, MayAnswer};
ghost use Rattle.mv_store.specs.Stored.{database_at};

use crate::store::Store;
use mv_table::found::Found;
use mv_table::found_rows::FoundRows;
use mv_table::scan::Direction;
use mv_values::lent::Lent;
use mv_values::pred_ref::PredRef;
use mv_values::value::Key;
use mv_view::key_set::KeySet;
use mv_view::view::{Refused, View};
use std::alloc::Global;
use std::marker::Model;

/// A view of the tables of a store after a commit. It returns `Stale` exactly if the number of the commit is below the
/// store's low.
#[derive(Drop)]
pub struct StoreView<'a> {
    store: &'a Store,
    start: u32,
    stale_answers: u64,
    last_low: u32,
    rows_calls: u64,
    row_calls: u64,
}

impl<'a> Model for StoreView<'a> {
    ghost use Rattle.std.specs.Prelude.{nat_lt};
    ghost use Rattle.mv_view.specs.Viewing.{Sight};
    ghost use Rattle.mv_store.specs.Stored.{database_at};

    ghost Value = { Sight };

    ghost view = { λ v. record { database = database_at v.store.now v.start; start = v.start; may_be_stale = nat_lt v.start v.store.now.low; stale_answers = v.stale_answers; last_low = v.last_low; rows_calls = v.rows_calls; row_calls = v.row_calls } };
}

impl<'a> StoreView<'a> {
    /// Returns a view of the tables after commit n, before any query. It allocates no memory.
    pub fn new(store: &'a Store, n: u32) -> StoreView<'a>
        ensures { result ≡ record { database = database_at store.now n; start = n; may_be_stale = nat_lt n store.now.low; stale_answers = 0; last_low = 0; rows_calls = 0; row_calls = 0 } }
    {
        StoreView {
            store,
            start: n,
            stale_answers: 0,
            last_low: 0,
            rows_calls: 0,
            row_calls: 0,
        }
    }

    /// Counts an error that is `Stale`, and keeps its low.
    fn count(&mut self, refused: Refused)
        ensures rows { self.new ≡ answered {A = Seq Keyed} (Err refused) self.old }
        ensures foremost { self.new ≡ answered {A = Opt Keyed} (Err refused) self.old }
        ensures row { self.new ≡ answered {A = Opt (Seq Value)} (Err refused) self.old }
        ensures fits { self.old.stale_answers < 2 ^ 64 }
    {
        let answers = self.stale_answers;
        if let Refused::Stale { low, .. } = refused {
            self.stale_answers = answers.saturating_add(1);
            self.last_low = low;
        }
    }
}

impl<'a> View<'a> for StoreView<'a> {
    ghost sight = { λ v. v };

    fn rows(&mut self, alloc: Global, pred: &PredRef<'_>) -> Result<FoundRows<'a>, Refused>
        requires { Admitted pred.now (rows_at self.old.database pred.now.table) }
        ensures found { IfOk result (λ rows. rows ≡ found_by pred.now self.old.database) }
        ensures counts { self.new ≡ answered result (with_rows_call self.old) }
        ensures stale { MayAnswer self.old self.new result }
        ensures late { self.old.may_be_stale ≡ true → is_err result ≡ true }
    {
        self.rows_calls = self.rows_calls.saturating_add(1);
        match self.store.rows_at(alloc, self.start, pred) {
            Ok(rows) => Ok(rows),
            Err(refused) => {
                self.count(refused);
                Err(refused)
            }
        }
    }

    fn foremost<K: KeySet>(
        &mut self,
        alloc: Global,
        pred: &PredRef<'_>,
        direction: Direction,
        passed: &K,
    ) -> Result<Option<Found<'a>>, Refused>
        requires { Admitted pred.now (rows_at self.old.database pred.now.table) }
        ensures found { IfOk result (λ row. row ≡ foremost direction (outside (K.has passed.now) (found_by pred.now self.old.database))) }
        ensures counts { self.new ≡ answered result (with_rows_call self.old) }
        ensures stale { MayAnswer self.old self.new result }
        ensures late { self.old.may_be_stale ≡ true → is_err result ≡ true }
    {
        self.rows_calls = self.rows_calls.saturating_add(1);
        match self
            .store
            .foremost_at(alloc, self.start, pred, direction, passed)
        {
            Ok(row) => Ok(row),
            Err(refused) => {
                self.count(refused);
                Err(refused)
            }
        }
    }

    fn match_under(
        &mut self,
        alloc: Global,
        pred: &PredRef<'_>,
        key: &Key,
    ) -> Result<Option<Lent<'a>>, Refused>
        ensures found { IfOk result (λ row. row ≡ matched pred.now (row_of (rows_at self.old.database pred.now.table) key.now)) }
        ensures counts { self.new ≡ answered result (with_rows_call self.old) }
        ensures stale { MayAnswer self.old self.new result }
        ensures late { self.old.may_be_stale ≡ true → is_err result ≡ true }
    {
        self.rows_calls = self.rows_calls.saturating_add(1);
        match self.store.match_at(alloc, self.start, pred, key) {
            Ok(row) => Ok(row),
            Err(refused) => {
                self.count(refused);
                Err(refused)
            }
        }
    }

    fn row(&mut self, alloc: Global, table: u8, key: &Key) -> Result<Option<Lent<'a>>, Refused>
        ensures found { IfOk result (λ row. row ≡ row_of (rows_at self.old.database table) key.now) }
        ensures counts { self.new ≡ answered result (with_row_call self.old) }
        ensures stale { MayAnswer self.old self.new result }
        ensures late { self.old.may_be_stale ≡ true → is_err result ≡ true }
    {
        self.row_calls = self.row_calls.saturating_add(1);
        match self.store.row_at(alloc, self.start, table, key) {
            Ok(row) => Ok(row),
            Err(refused) => {
                self.count(refused);
                Err(refused)
            }
        }
    }
}
