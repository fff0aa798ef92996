//! Whether rows that DELETE removes have children that stay.

ghost use Rattle.std.specs.Prelude.{◌≡◌, ◌≤◌, ◌∷◌, [], All, IfOk, length, map};
ghost use Rattle.std.specs.List.{filter, list_any};
ghost use Rattle.mv_values.specs.References.{reference, references_from, references_to};
ghost use Rattle.mv_values.specs.Tables.{rows_at, KeysStand};
ghost use Rattle.mv_table.specs.Entries.{seen};
ghost use Rattle.mv_catalog.specs.Text.{IsTable};
ghost use Rattle.mv_eval.specs.FirstRows.{AdmitMatches};
ghost use Rattle.mv_eval.specs.References.{holds_key, left_in};
ghost use Rattle.mv_serial.specs.Removing.{stays, to_table, have_children};

use mv_eval::find::{key_in, matches_in, tests_of_key};
use mv_table::table::{Entry, Tables};
use mv_values::memory::NoMemory;
use mv_values::pred::{Test, meets};
use mv_values::schema::{Column, TableInfo};
use mv_values::value::{Key, Value};
use std::alloc::Global;

/// The rows that a DELETE removes: those of a table that match.
#[derive(Drop)]
pub(crate) struct Removed<'a> {
    pub(crate) table: u16,
    pub(crate) tests: &'a [Test],
}

/// Whether a row of a table isn't removed.
fn stays(removed: &Removed<'_>, table: u16, row: &[Value]) -> bool
    ensures { result ≡ stays removed.now.table removed.now.tests.now table row.now }
{
    table != removed.table || !meets(removed.tests, row)
}

/// Whether one of these rows of a table isn't removed.
fn one_stays(removed: &Removed<'_>, table: u16, rows: &[Entry<'_>]) -> bool
    ensures { result ≡ list_any (λ item. stays removed.now.table removed.now.tests.now table item.row) (map seen rows.now) }
{
    for entry in rows {
        if stays(removed, table, entry.row.as_slice()) {
            return true;
        }
    }
    false
}

/// Borrows the rows of a table that hold the key in this column. Visits the rows in the span of keys that the value
/// leaves: all of them, unless the column is the first key column.
fn holders<'a>(
    alloc: Global,
    infos: &[TableInfo],
    tables: &'a Tables,
    table: u16,
    column: u8,
    key: &Key,
) -> Result<Vec<Entry<'a>>, NoMemory>
    requires keys { KeysStand infos.now tables.now }
    requires each { All IsTable infos.now }
    ensures { IfOk result (λ found. map seen found.items ≡ filter (holds_key column key.now) (rows_at tables.now table)) }
{
    let tests = tests_of_key(alloc, key_in(infos, table), column, key)?;
    matches_in(alloc, tables, table, tests.as_slice())
}

/// Whether a row of a table that isn't removed holds the key in this column.
#[tactic(auto, using(crate::proofs::Leaving::any_left))]
fn has_child(
    alloc: Global,
    infos: &[TableInfo],
    tables: &Tables,
    removed: &Removed<'_>,
    table: u16,
    column: u8,
    key: &Key,
) -> Result<bool, NoMemory>
    requires keys { KeysStand infos.now tables.now }
    requires each { All IsTable infos.now }
    ensures { IfOk result (λ b. b ≡ list_any (holds_key column key.now) (left_in removed.now.table removed.now.tests.now tables.now table)) }
{
    let found = holders(alloc, infos, tables, table, column, key)?;
    Ok(one_stays(removed, table, found.as_slice()))
}

/// Whether one of these rows has a child that stays, by this column of a table.
fn one_has_child(
    alloc: Global,
    infos: &[TableInfo],
    tables: &Tables,
    removed: &Removed<'_>,
    table: u16,
    column: u8,
    rows: &[Entry<'_>],
) -> Result<bool, NoMemory>
    requires keys { KeysStand infos.now tables.now }
    requires each { All IsTable infos.now }
    ensures { IfOk result (λ b. b ≡ list_any (λ item. list_any (holds_key column item.key) (left_in removed.now.table removed.now.tests.now tables.now table)) (map seen rows.now)) }
{
    for entry in rows {
        if has_child(alloc, infos, tables, removed, table, column, entry.key)? {
            return Ok(true);
        }
    }
    Ok(false)
}

/// Whether one of the removed rows has a child that stays, by this column of a table.
fn removed_have_child(
    alloc: Global,
    infos: &[TableInfo],
    tables: &Tables,
    removed: &Removed<'_>,
    table: u16,
    column: u8,
) -> Result<bool, NoMemory>
    requires keys { KeysStand infos.now tables.now }
    requires each { All IsTable infos.now }
    requires admit { AdmitMatches removed.now.tests.now (rows_at tables.now removed.now.table) }
    ensures { IfOk result (λ b. b ≡ have_children (record { table = table; column = column; parent = removed.now.table } ∷ []) removed.now.table removed.now.tests.now tables.now) }
{
    let rows = matches_in(alloc, tables, removed.table, removed.tests)?;
    one_has_child(
        alloc,
        infos,
        tables,
        removed,
        table,
        column,
        rows.as_slice(),
    )
}

/// The same for a column that may refer to another table or to none.
fn column_has_children(
    alloc: Global,
    infos: &[TableInfo],
    tables: &Tables,
    removed: &Removed<'_>,
    table: u16,
    at: u8,
    column: &Column,
) -> Result<bool, NoMemory>
    requires keys { KeysStand infos.now tables.now }
    requires each { All IsTable infos.now }
    requires admit { AdmitMatches removed.now.tests.now (rows_at tables.now removed.now.table) }
    ensures { IfOk result (λ b. b ≡ have_children (to_table removed.now.table (reference table at column.now.refers)) removed.now.table removed.now.tests.now tables.now) }
{
    let Some(parent) = column.refers else {
        return Ok(false);
    };
    if parent as u16 == removed.table {
        removed_have_child(alloc, infos, tables, removed, table, at)
    } else {
        Ok(false)
    }
}

/// The same for these columns of a table, which are its first ones.
fn columns_have_children(
    alloc: Global,
    infos: &[TableInfo],
    tables: &Tables,
    removed: &Removed<'_>,
    table: u16,
    columns: &[Column],
) -> Result<bool, NoMemory>
    requires keys { KeysStand infos.now tables.now }
    requires each { All IsTable infos.now }
    requires admit { AdmitMatches removed.now.tests.now (rows_at tables.now removed.now.table) }
    requires narrow { length columns.now ≤ 256 }
    ensures { IfOk result (λ b. b ≡ have_children (to_table removed.now.table (references_from table 0 columns.now)) removed.now.table removed.now.tests.now tables.now) }
{
    for (at, column) in columns.iter().enumerate() {
        if column_has_children(alloc, infos, tables, removed, table, at as u8, column)? {
            return Ok(true);
        }
    }
    Ok(false)
}

/// Whether one of the removed rows has a child that stays. For each column with REFERENCES to their table it visits the
/// rows in the span that the tests leave, and for each removed row the rows that `holders` does.
pub(crate) fn have_children(
    alloc: Global,
    infos: &[TableInfo],
    tables: &Tables,
    removed: &Removed<'_>,
) -> Result<bool, NoMemory>
    requires keys { KeysStand infos.now tables.now }
    requires each { All IsTable infos.now }
    requires few { length infos.now ≤ 64 }
    requires admit { AdmitMatches removed.now.tests.now (rows_at tables.now removed.now.table) }
    ensures { IfOk result (λ b. b ≡ have_children (references_to infos.now removed.now.table) removed.now.table removed.now.tests.now tables.now) }
{
    for (at, info) in infos.iter().enumerate() {
        let columns = info.columns.as_slice();
        if columns_have_children(alloc, infos, tables, removed, at as u16, columns)? {
            return Ok(true);
        }
    }
    Ok(false)
}
