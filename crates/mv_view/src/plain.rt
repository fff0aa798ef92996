//! A view of a database in memory.

ghost use Rattle.std.specs.Prelude.{◌≡◌, false, IfOk};
ghost use Rattle.mv_values.specs.Keys.{IsRising};
ghost use Rattle.mv_values.specs.Patching.{found_by, row_of};
ghost use Rattle.mv_values.specs.Preds.{matched};
ghost use Rattle.mv_values.specs.Tables.{rows_at};
ghost use Rattle.mv_table.specs.Scans.{foremost};

use crate::key_set::KeySet;
use crate::narrow::{find, find_foremost};
use crate::view::{Refused, View};
use mv_record::applying::find_row;
use mv_table::found::{self, Found};
use mv_table::found_rows::FoundRows;
use mv_table::scan::Direction;
use mv_values::copied::Copied;
use mv_values::lent::{self, Lent};
use mv_values::memory::NoMemory;
use mv_values::pred_ref::PredRef;
use mv_values::rows::{Database, Keyed};
use mv_values::value::{Key, Row};
use std::alloc::Global;
use std::marker::Model;

/// A view of a database in memory. It never returns `Stale`.
#[derive(Drop)]
pub struct Plain<'a> {
    tables: &'a Database,
    pub(crate) rows_calls: u64,
    pub(crate) row_calls: u64,
}

impl<'a> Model for Plain<'a> {
    ghost use Rattle.std.specs.Prelude.{false};
    ghost use Rattle.mv_view.specs.Viewing.{Sight};

    ghost Value = { Sight };

    ghost view = { λ p. record { database = p.tables.now; start = 0; may_be_stale = false; stale_answers = 0; last_low = 0; rows_calls = p.rows_calls; row_calls = p.row_calls } };
}

impl<'a> Plain<'a> {
    /// Returns a view of the database, with no calls counted. Allocates nothing.
    pub fn new(tables: &'a Database) -> Plain<'a>
        ensures { result ≡ record { database = tables.now; start = 0; may_be_stale = false; stale_answers = 0; last_low = 0; rows_calls = 0; row_calls = 0 } }
    {
        Plain {
            tables,
            rows_calls: 0,
            row_calls: 0,
        }
    }
}

/// Returns the rows of a table; empty if there is no such table.
fn rows_in(tables: &Database, table: u8) -> &[Keyed]
    ensures items { result.now ≡ rows_at tables.now table }
    ensures rising { IsRising (rows_at tables.now table) }
{
    match tables.as_slice().get(table as usize) {
        Some(rows) => rows.as_slice(),
        None => &[],
    }
}

/// Returns a copy of the row of a table with the key.
fn copy_row(alloc: Global, tables: &Database, table: u8, key: &Key) -> Result<Option<Row>, NoMemory>
    ensures { IfOk result (λ row. row ≡ row_of (rows_at tables.now table) key.now) }
{
    let Some(rows) = tables.as_slice().get(table as usize) else {
        return Ok(None);
    };
    match find_row(rows, key) {
        Some(row) => Ok(Some(row.copy(alloc)?)),
        None => Ok(None),
    }
}

/// Returns a copy of the row with the key, if the predicate matches it.
fn copy_match(
    alloc: Global,
    tables: &Database,
    pred: &PredRef<'_>,
    key: &Key,
) -> Result<Option<Row>, NoMemory>
    ensures { IfOk result (λ row. row ≡ matched pred.now (row_of (rows_at tables.now pred.now.table) key.now)) }
{
    let Some(rows) = tables.as_slice().get(pred.table() as usize) else {
        return Ok(None);
    };
    match find_row(rows, key) {
        Some(row) if pred.matches(row) => Ok(Some(row.copy(alloc)?)),
        _ => Ok(None),
    }
}

impl<'a> View<'a> for Plain<'a> {
    ghost sight = { λ p. p };

    fn rows(&mut self, alloc: Global, pred: &PredRef<'_>) -> Result<FoundRows<'a>, Refused> {
        self.rows_calls = self.rows_calls.saturating_add(1);
        let found = find(alloc, pred, rows_in(self.tables, pred.table()))?;
        Ok(FoundRows::made(alloc, found)?)
    }

    fn foremost<K: KeySet>(
        &mut self,
        alloc: Global,
        pred: &PredRef<'_>,
        direction: Direction,
        passed: &K,
    ) -> Result<Option<Found<'a>>, Refused> {
        self.rows_calls = self.rows_calls.saturating_add(1);
        let rows = rows_in(self.tables, pred.table());
        let row = find_foremost(alloc, pred, rows, direction, passed)?;
        Ok(found::made(row))
    }

    fn match_under(
        &mut self,
        alloc: Global,
        pred: &PredRef<'_>,
        key: &Key,
    ) -> Result<Option<Lent<'a>>, Refused> {
        self.rows_calls = self.rows_calls.saturating_add(1);
        let row = copy_match(alloc, self.tables, pred, key)?;
        Ok(lent::made(row))
    }

    fn row(&mut self, alloc: Global, table: u8, key: &Key) -> Result<Option<Lent<'a>>, Refused> {
        self.row_calls = self.row_calls.saturating_add(1);
        let row = copy_row(alloc, self.tables, table, key)?;
        Ok(lent::made(row))
    }
}
