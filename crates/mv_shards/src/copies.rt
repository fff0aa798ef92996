//! Copies what a store lends, for readers that hold its lock no longer.

ghost use Rattle.std.specs.Prelude.{◌≡◌, ◌≤◌, IfOk, IfErr};
ghost use Rattle.mv_values.specs.Patching.{found_by, row_of};
ghost use Rattle.mv_values.specs.Preds.{matched};
ghost use Rattle.mv_values.specs.Tables.{rows_at};
ghost use Rattle.mv_table.specs.Scans.{foremost};
ghost use Rattle.mv_record.specs.Admitting.{Admitted};
ghost use Rattle.mv_view.specs.Narrowing.{outside};
ghost use Rattle.mv_view.specs.declared.view.Refused.TheVariants.{NoMemory as Wanting};
ghost use Rattle.mv_store.specs.Stored.{database_at};

use mv_store::store::Store;
use mv_table::found;
use mv_table::scan::Direction;
use mv_values::lent;
use mv_values::pred_ref::PredRef;
use mv_values::rows::{Keyed, Rows};
use mv_values::value::{Key, Row};
use mv_view::key_set::KeySet;
use mv_view::view::Refused;
use std::alloc::Global;

/// Returns copies of the rows that the predicate matches after commit n.
pub(crate) fn copied_rows(
    alloc: Global,
    store: &Store,
    n: u32,
    pred: &PredRef<'_>,
) -> Result<Rows, Refused>
    requires { Admitted pred.now (rows_at (database_at store.now n) pred.now.table) }
    ensures found { IfOk result (λ rows. rows ≡ found_by pred.now (database_at store.now n)) }
    ensures fresh { store.now.low ≤ n → IfErr result (λ e. e ≡ Wanting) }
{
    match store.rows_at(alloc, n, pred) {
        Ok(rows) => match rows.into_rows(alloc) {
            Ok(rows) => Ok(rows),
            Err(_) => Err(Refused::NoMemory),
        },
        Err(refused) => Err(refused),
    }
}

/// Returns a copy of the first row in this direction that the predicate matches after commit n and whose key isn't in
/// `passed`.
pub(crate) fn copied_foremost<K: KeySet>(
    alloc: Global,
    store: &Store,
    n: u32,
    pred: &PredRef<'_>,
    direction: Direction,
    passed: &K,
) -> Result<Option<Keyed>, Refused>
    requires { Admitted pred.now (rows_at (database_at store.now n) pred.now.table) }
    ensures found { IfOk result (λ row. row ≡ foremost direction (outside (K.has passed.now) (found_by pred.now (database_at store.now n)))) }
    ensures fresh { store.now.low ≤ n → IfErr result (λ e. e ≡ Wanting) }
{
    match store.foremost_at(alloc, n, pred, direction, passed) {
        Ok(row) => match found::own(alloc, row) {
            Ok(row) => Ok(row),
            Err(_) => Err(Refused::NoMemory),
        },
        Err(refused) => Err(refused),
    }
}

/// Returns a copy of the row under a key of the predicate's table after commit n, if there is one and the predicate
/// matches it.
pub(crate) fn copied_match(
    alloc: Global,
    store: &Store,
    n: u32,
    pred: &PredRef<'_>,
    key: &Key,
) -> Result<Option<Row>, Refused>
    ensures found { IfOk result (λ row. row ≡ matched pred.now (row_of (rows_at (database_at store.now n) pred.now.table) key.now)) }
    ensures fresh { store.now.low ≤ n → IfErr result (λ e. e ≡ Wanting) }
{
    match store.match_at(alloc, n, pred, key) {
        Ok(row) => match lent::own(alloc, row) {
            Ok(row) => Ok(row),
            Err(_) => Err(Refused::NoMemory),
        },
        Err(refused) => Err(refused),
    }
}

/// Returns a copy of the row under a key of a table after commit n, if there is one.
pub(crate) fn copied_row(
    alloc: Global,
    store: &Store,
    n: u32,
    table: u8,
    key: &Key,
) -> Result<Option<Row>, Refused>
    ensures found { IfOk result (λ row. row ≡ row_of (rows_at (database_at store.now n) table) key.now) }
    ensures fresh { store.now.low ≤ n → IfErr result (λ e. e ≡ Wanting) }
{
    match store.row_at(alloc, n, table, key) {
        Ok(row) => match lent::own(alloc, row) {
            Ok(row) => Ok(row),
            Err(_) => Err(Refused::NoMemory),
        },
        Err(refused) => Err(refused),
    }
}
