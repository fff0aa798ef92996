//! A view of tables in versions, for an index to look into.

ghost use Rattle.std.specs.Prelude.{◌≡◌, map, false, refl, IfOk};
ghost use Rattle.mv_values.specs.Patching.{found_by, row_of};
ghost use Rattle.mv_values.specs.Preds.{matched};
ghost use Rattle.mv_values.specs.Tables.{rows_at};
ghost use Rattle.mv_table.specs.Scans.{foremost};
ghost use Rattle.mv_record.specs.Admitting.{Admitted};
ghost use Rattle.mv_view.specs.Narrowing.{outside};
ghost use Rattle.mv_view.specs.Viewing.{with_rows_call, with_row_call, answered, MayAnswer};
ghost use Rattle.mv_store.specs.Stored.{table_at};
ghost use Rattle.mv_store.specs.Kept.{AllRise};

use crate::find::{find, find_foremost, find_match, find_row};
use mv_chain::chain::Chain;
use mv_index::indexable::{Indexable, Sighted};
use mv_table::found::Found;
use mv_table::found_rows::FoundRows;
use mv_table::key_map::KeyMap;
use mv_table::scan::Direction;
use mv_values::lent::Lent;
use mv_values::memory::NoMemory;
use mv_values::pred_ref::PredRef;
use mv_values::value::Key;
use mv_view::key_set::KeySet;
use mv_view::view::{Refused, View};
use std::alloc::Global;
use std::marker::Model;

/// A view of the tables after a commit. All rows after that commit are still kept, so it is never stale.
#[derive(Drop)]
pub(crate) struct TablesView<'a> {
    tables: &'a [KeyMap<Chain>],
    n: u32,
    rows_calls: u64,
    row_calls: u64,
}

impl<'a> Model for TablesView<'a> {
    ghost use Rattle.std.specs.Prelude.{map, false};
    ghost use Rattle.mv_view.specs.Viewing.{Sight};
    ghost use Rattle.mv_store.specs.Stored.{table_at};
    ghost use Rattle.mv_store.specs.Kept.{AllRise};

    ghost Value = { Sight };

    ghost view = { λ v. record { database = map (table_at v.n) v.tables.now; start = v.n; may_be_stale = false; stale_answers = 0; last_low = 0; rows_calls = v.rows_calls; row_calls = v.row_calls } };

    ghost invariant = { λ v. AllRise v.tables.now };
}

impl<'a> TablesView<'a> {
    /// Returns a view of the tables after commit n, before any query. It allocates no memory.
    pub(crate) fn new(tables: &'a [KeyMap<Chain>], n: u32) -> TablesView<'a>
        requires { AllRise tables.now }
        ensures { result ≡ record { database = map (table_at n) tables.now; start = n; may_be_stale = false; stale_answers = 0; last_low = 0; rows_calls = 0; row_calls = 0 } }
    {
        TablesView {
            tables,
            n,
            rows_calls: 0,
            row_calls: 0,
        }
    }

    fn find(&self, alloc: Global, pred: &PredRef<'_>) -> Result<FoundRows<'a>, NoMemory>
        requires { Admitted pred.now (rows_at self.now.database pred.now.table) }
        ensures { IfOk result (λ rows. rows ≡ found_by pred.now self.now.database) }
    {
        match self.tables.get(pred.table() as usize) {
            Some(table) => find(alloc, table, self.n, pred),
            None => Ok(FoundRows::new(alloc)),
        }
    }

    fn find_foremost<K: KeySet>(
        &self,
        alloc: Global,
        pred: &PredRef<'_>,
        direction: Direction,
        passed: &K,
    ) -> Result<Option<Found<'a>>, NoMemory>
        requires { Admitted pred.now (rows_at self.now.database pred.now.table) }
        ensures { IfOk result (λ row. row ≡ foremost direction (outside (K.has passed.now) (found_by pred.now self.now.database))) }
    {
        match self.tables.get(pred.table() as usize) {
            Some(table) => find_foremost(alloc, table, self.n, pred, direction, passed),
            None => Ok(None),
        }
    }

    fn find_match(
        &self,
        alloc: Global,
        pred: &PredRef<'_>,
        key: &Key,
    ) -> Result<Option<Lent<'a>>, NoMemory>
        ensures { IfOk result (λ row. row ≡ matched pred.now (row_of (rows_at self.now.database pred.now.table) key.now)) }
    {
        match self.tables.get(pred.table() as usize) {
            Some(table) => find_match(alloc, table, self.n, pred, key),
            None => Ok(None),
        }
    }

    fn find_row(&self, alloc: Global, table: u8, key: &Key) -> Result<Option<Lent<'a>>, NoMemory>
        ensures { IfOk result (λ row. row ≡ row_of (rows_at self.now.database table) key.now) }
    {
        match self.tables.get(table as usize) {
            Some(table) => find_row(alloc, table, self.n, key),
            None => Ok(None),
        }
    }
}

impl<'a> View<'a> for TablesView<'a> {
    ghost sight = { λ v. v };

    fn rows(&mut self, alloc: Global, pred: &PredRef<'_>) -> Result<FoundRows<'a>, Refused> {
        self.rows_calls = self.rows_calls.saturating_add(1);
        match self.find(alloc, pred) {
            Ok(rows) => Ok(rows),
            Err(_) => Err(Refused::NoMemory),
        }
    }

    fn foremost<K: KeySet>(
        &mut self,
        alloc: Global,
        pred: &PredRef<'_>,
        direction: Direction,
        passed: &K,
    ) -> Result<Option<Found<'a>>, Refused> {
        self.rows_calls = self.rows_calls.saturating_add(1);
        match self.find_foremost(alloc, pred, direction, passed) {
            Ok(row) => Ok(row),
            Err(_) => Err(Refused::NoMemory),
        }
    }

    fn match_under(
        &mut self,
        alloc: Global,
        pred: &PredRef<'_>,
        key: &Key,
    ) -> Result<Option<Lent<'a>>, Refused> {
        self.rows_calls = self.rows_calls.saturating_add(1);
        match self.find_match(alloc, pred, key) {
            Ok(row) => Ok(row),
            Err(_) => Err(Refused::NoMemory),
        }
    }

    fn row(&mut self, alloc: Global, table: u8, key: &Key) -> Result<Option<Lent<'a>>, Refused> {
        self.row_calls = self.row_calls.saturating_add(1);
        match self.find_row(alloc, table, key) {
            Ok(row) => Ok(row),
            Err(_) => Err(Refused::NoMemory),
        }
    }
}

impl<'a> Sighted for TablesView<'a> {
    ghost seen = { λ view. view };
}

impl<'a> Indexable<'a> for TablesView<'a> {
    ghost alike = { λ view. refl };
}
