//! A database with its versions.

ghost use Rattle.std.specs.Prelude.{◌≡◌, ◌<◌, ◌≤◌, ◌^◌, ◌-◌, min, ℕ, [], ◌∷◌, IfOk, IfErr, OnOk, OnErr, Err};
ghost use Rattle.mv_values.specs.Patching.{found_by, row_of};
ghost use Rattle.mv_values.specs.Preds.{matched};
ghost use Rattle.mv_values.specs.Tables.{rows_at};
ghost use Rattle.mv_table.specs.Scans.{foremost};
ghost use Rattle.mv_record.specs.Admitting.{Admitted};
ghost use Rattle.mv_view.specs.Narrowing.{outside};
ghost use Rattle.mv_view.specs.declared.view.Refused.TheVariants.{Stale, NoMemory as Wanting};
ghost use Rattle.mv_store.specs.Stored.{database_at, old_versions, own_writes, IsLike};
ghost use Rattle.mv_store.specs.Changes.{IsAsBefore, HasPut, HasDropped, HasStamped, HasRaised};

use crate::change::{Fate, finish_noted};
use crate::close::close_all;
use crate::collect::collect_all;
use crate::count::count_all;
use crate::entries::ValueIndex;
use crate::open::open_all;
use crate::tables::TablesView;
use crate::write::put_write;
use crate::written_keys::WrittenKeys;
use mv_chain::chain::Chain;
use mv_index::view::IndexView;
use mv_table::found::Found;
use mv_table::found_rows::FoundRows;
use mv_table::key_map::KeyMap;
use mv_table::scan::Direction;
use mv_values::lent::Lent;
use mv_values::list::List;
use mv_values::memory::NoMemory;
use mv_values::patch::Write;
use mv_values::pred_ref::PredRef;
use mv_values::rows::Database;
use mv_values::tested::Tested;
use mv_values::value::Key;
use mv_view::key_set::KeySet;
use mv_view::view::{Refused, View};
use std::alloc::Global;
use std::marker::Model;

/// The tables of a database after each commit from `low` on, and the uncommitted writes of calls.
#[derive(Drop)]
pub struct Store {
    tables: Vec<KeyMap<Chain>>,
    index: ValueIndex,
    table_keys: WrittenKeys,
    last: u32,
    low: u32,
}

impl Model for Store {
    ghost use Rattle.mv_store.specs.Stored.{Versioned};
    ghost use Rattle.mv_store.specs.Kept.{AreKeptVersions};
    ghost use Rattle.mv_store.specs.Indexed.{IsIndexOf};

    ghost Value = { Versioned };

    ghost view = { λ s. record { tables = s.tables.items; last = s.last; low = s.low } };

    ghost invariant = { λ s. AreKeptVersions s.tables.items s.table_keys s.last × IsIndexOf s.tables.items s.index };
}

impl Store {
    /// Returns a store of this database, before any commit, with an index of these columns. It copies the rows.
    pub fn new(alloc: Global, opening: &Database, columns: &List<Tested>) -> Result<Store, NoMemory>
        ensures database { IfOk result (λ store. (n : ℕ) → database_at store n ≡ opening.now) }
        ensures own { IfOk result (λ store. (call : ℕ) → own_writes store call ≡ []) }
        ensures last { IfOk result (λ store. store.last ≡ 0) }
        ensures low { IfOk result (λ store. store.low ≡ 0) }
    {
        let tables = open_all(alloc, opening)?;
        let index = ValueIndex::new(alloc, columns, opening)?;
        Ok(Store {
            tables,
            index,
            table_keys: WrittenKeys::new(alloc),
            last: 0,
            low: 0,
        })
    }

    /// Returns how many versions are kept beside the newest ones: for each row one for each commit that has changed it
    /// since the last collection. Stops at `u64::MAX`. Takes time linear in the number of keys.
    pub fn old_versions(&self) -> u64
        ensures { result ≡ min (old_versions self.now.tables) (2 ^ 64 - 1) }
    {
        count_all(self.tables.as_slice())
    }

    /// Returns the number of the last commit.
    pub fn last(&self) -> u32
        ensures last { result ≡ self.now.last }
        ensures like { (n : ℕ) → IsLike self.now (database_at self.now n) }
    {
        self.last
    }

    /// Returns the least number at which the tables can be read.
    pub fn low(&self) -> u32
        ensures { result ≡ self.now.low }
    {
        self.low
    }

    /// Returns the rows that the predicate matches after commit n, in key order. Each such row must be under
    /// a key that the predicate admits. Fails with `Stale` exactly if n is below the store's low, and with `NoMemory`
    /// if memory runs out. It visits only the keys in the span of the predicate's tests, and copies only the rows that
    /// match.
    pub fn rows_at(
        &self,
        alloc: Global,
        n: u32,
        pred: &PredRef<'_>,
    ) -> Result<FoundRows<'_>, Refused>
        requires { Admitted pred.now (rows_at (database_at self.now n) pred.now.table) }
        ensures found { IfOk result (λ rows. rows ≡ found_by pred.now (database_at self.now n)) }
        ensures stale { n < self.now.low → result ≡ Err (Stale n self.now.low) }
        ensures fresh { self.now.low ≤ n → IfErr result (λ e. e ≡ Wanting) }
    {
        self.check_fresh(n)?;
        self.find(alloc, n, pred)
    }

    /// Returns the first row in this direction that the predicate matches after commit n and whose key isn't
    /// in `passed`, if there is one. Each row that the predicate matches must be under a key that it admits. Fails with
    /// `Stale` exactly if n is below the store's low, and with `NoMemory` if memory runs out. Of the keys in the span of
    /// the predicate's tests it visits those up to that row.
    pub fn foremost_at<K: KeySet>(
        &self,
        alloc: Global,
        n: u32,
        pred: &PredRef<'_>,
        direction: Direction,
        passed: &K,
    ) -> Result<Option<Found<'_>>, Refused>
        requires { Admitted pred.now (rows_at (database_at self.now n) pred.now.table) }
        ensures found { IfOk result (λ row. row ≡ foremost direction (outside (K.has passed.now) (found_by pred.now (database_at self.now n)))) }
        ensures stale { n < self.now.low → result ≡ Err (Stale n self.now.low) }
        ensures fresh { self.now.low ≤ n → IfErr result (λ e. e ≡ Wanting) }
    {
        self.check_fresh(n)?;
        self.find_foremost(alloc, n, pred, direction, passed)
    }

    /// Returns the row under a key of the predicate's table after commit n, if there is one and the predicate
    /// matches it. Fails with `Stale` exactly if n is below the store's low, and with `NoMemory` if memory runs out. Takes
    /// as long as `row_at`, and copies only a row that matches.
    pub fn match_at(
        &self,
        alloc: Global,
        n: u32,
        pred: &PredRef<'_>,
        key: &Key,
    ) -> Result<Option<Lent<'_>>, Refused>
        ensures found { IfOk result (λ row. row ≡ matched pred.now (row_of (rows_at (database_at self.now n) pred.now.table) key.now)) }
        ensures stale { n < self.now.low → result ≡ Err (Stale n self.now.low) }
        ensures fresh { self.now.low ≤ n → IfErr result (λ e. e ≡ Wanting) }
    {
        self.check_fresh(n)?;
        self.find_match(alloc, n, pred, key)
    }

    /// Returns the row under a key of a table after commit n, if there is one. Fails with `Stale` exactly if
    /// n is below the store's low, and with `NoMemory` if memory runs out. Takes time logarithmic in the number of
    /// rows, and linear in the size of the row and of its later patches.
    pub fn row_at(
        &self,
        alloc: Global,
        n: u32,
        table: u8,
        key: &Key,
    ) -> Result<Option<Lent<'_>>, Refused>
        ensures found { IfOk result (λ row. row ≡ row_of (rows_at (database_at self.now n) table) key.now) }
        ensures stale { n < self.now.low → result ≡ Err (Stale n self.now.low) }
        ensures fresh { self.now.low ≤ n → IfErr result (λ e. e ≡ Wanting) }
    {
        self.check_fresh(n)?;
        self.find_row(alloc, n, table, key)
    }

    /// Moves all tables after commit n out, which may not be below the store's low. Fails with `NoMemory` if memory runs
    /// out. Takes time linear in the number of rows and of their later patches.
    pub fn into_tables_at(self, alloc: Global, n: u32) -> Result<Database, NoMemory>
        requires { self.low ≤ n }
        ensures { IfOk result (λ tables. tables ≡ database_at self n) }
    {
        let Store { tables, .. } = self;
        close_all(alloc, tables, n)
    }

    /// Fails with `Stale` exactly if n is below low.
    fn check_fresh(&self, n: u32) -> Result<(), Refused>
        ensures ok { OnOk result (self.now.low ≤ n) }
        ensures stale { IfErr result (λ e. (n < self.now.low) × (e ≡ Stale n self.now.low)) }
    {
        if n < self.low {
            return Err(Refused::Stale {
                start: n,
                low: self.low,
            });
        }
        Ok(())
    }

    fn find(&self, alloc: Global, n: u32, pred: &PredRef<'_>) -> Result<FoundRows<'_>, Refused>
        requires { Admitted pred.now (rows_at (database_at self.now n) pred.now.table) }
        ensures found { IfOk result (λ rows. rows ≡ found_by pred.now (database_at self.now n)) }
        ensures memory { IfErr result (λ e. e ≡ Wanting) }
    {
        let mut tables = TablesView::new(self.tables.as_slice(), n);
        let mut view = IndexView::new(self.index.entries(), &mut tables);
        view.rows(alloc, pred)
    }

    fn find_foremost<K: KeySet>(
        &self,
        alloc: Global,
        n: u32,
        pred: &PredRef<'_>,
        direction: Direction,
        passed: &K,
    ) -> Result<Option<Found<'_>>, Refused>
        requires { Admitted pred.now (rows_at (database_at self.now n) pred.now.table) }
        ensures found { IfOk result (λ row. row ≡ foremost direction (outside (K.has passed.now) (found_by pred.now (database_at self.now n)))) }
        ensures memory { IfErr result (λ e. e ≡ Wanting) }
    {
        let mut tables = TablesView::new(self.tables.as_slice(), n);
        let mut view = IndexView::new(self.index.entries(), &mut tables);
        view.foremost(alloc, pred, direction, passed)
    }

    fn find_match(
        &self,
        alloc: Global,
        n: u32,
        pred: &PredRef<'_>,
        key: &Key,
    ) -> Result<Option<Lent<'_>>, Refused>
        ensures found { IfOk result (λ row. row ≡ matched pred.now (row_of (rows_at (database_at self.now n) pred.now.table) key.now)) }
        ensures memory { IfErr result (λ e. e ≡ Wanting) }
    {
        let mut tables = TablesView::new(self.tables.as_slice(), n);
        tables.match_under(alloc, pred, key)
    }

    fn find_row(
        &self,
        alloc: Global,
        n: u32,
        table: u8,
        key: &Key,
    ) -> Result<Option<Lent<'_>>, Refused>
        ensures found { IfOk result (λ row. row ≡ row_of (rows_at (database_at self.now n) table) key.now) }
        ensures memory { IfErr result (λ e. e ≡ Wanting) }
    {
        let mut tables = TablesView::new(self.tables.as_slice(), n);
        tables.row(alloc, table, key)
    }

    /// Adds a write of a call, after the call's earlier ones. No read sees it until it is stamped. A write to a table
    /// that doesn't exist is ignored. If memory runs out, the store is unchanged. Takes time logarithmic in the number
    /// of rows.
    pub fn put(&mut self, alloc: Global, call: u32, write: &Write) -> Result<(), NoMemory>
        ensures ok { OnOk result (HasPut call (write.now ∷ []) self.old self.new) }
        ensures err { OnErr result (IsAsBefore self.old self.new) }
    {
        let at = write.table as usize;
        if at >= self.tables.len() {
            return Ok(());
        }
        put_write(
            alloc,
            &mut self.tables[at],
            &mut self.index,
            &mut self.table_keys,
            call,
            write,
        )
    }

    /// Adds writes of a call, in order, after the call's earlier ones. If memory runs out, all writes of the call are
    /// dropped, and everything else is unchanged.
    pub fn put_all(&mut self, alloc: Global, call: u32, writes: &[Write]) -> Result<(), NoMemory>
        ensures ok { OnOk result (HasPut call writes.now self.old self.new) }
        ensures err { OnErr result (HasDropped call self.old self.new) }
    {
        for write in writes {
            if self.put(alloc, call, write).is_err() {
                self.drop_of(call);
                return Err(NoMemory);
            }
        }
        Ok(())
    }

    /// Turns the writes of a call into commit n. The number n must be above that of the last commit. It allocates no
    /// memory. Takes time logarithmic in the number of rows for each key that the call has written.
    pub fn stamp(&mut self, call: u32, n: u32)
        requires { self.old.last < n }
        ensures { HasStamped call n self.old self.new }
    {
        let noted = self.table_keys.of_call(call);
        let fate = Fate::Commit(n);
        finish_noted(&mut self.tables, &mut self.index, noted, call, fate);
        self.table_keys.commit(call, n);
        self.last = n;
    }

    /// Drops the uncommitted writes of a call. It allocates no memory, and takes as long as `stamp`.
    pub fn drop_of(&mut self, call: u32)
        ensures { HasDropped call self.old self.new }
    {
        let noted = self.table_keys.of_call(call);
        finish_noted(&mut self.tables, &mut self.index, noted, call, Fate::Gone);
        self.table_keys.forget(call);
    }

    /// Drops the tables before commit `low`. The number must not be below that of an earlier call. Of each key it keeps
    /// one base and the later commits. A key without a row, later commits and uncommitted writes goes away. Reads from
    /// `low` on and uncommitted writes are unaffected. It allocates no memory. Takes time linear in the number of writes
    /// of the commits that it drops, and logarithmic in the number of rows for each.
    pub fn raise(&mut self, low: u32)
        requires { self.old.low ≤ low }
        ensures { HasRaised low self.old self.new }
    {
        collect_all(&mut self.tables, &mut self.index, &mut self.table_keys, low);
        self.low = low;
    }
}
