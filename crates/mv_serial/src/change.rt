//! Changes of rows, and how to undo them.

ghost use Rattle.std.specs.Prelude.{◌≡◌, [], Some, slice_set, IfOk, OnOk};
ghost use Rattle.mv_values.specs.Keys.{IsRising};
ghost use Rattle.mv_values.specs.Patching.{row_of, placed};
ghost use Rattle.mv_values.specs.Tables.{rows_at};
ghost use Rattle.mv_serial.specs.Changing.{changed_in, changed_by, KeepsUndo};

use mv_table::table::{Table, Tables};
use mv_values::copied::Copied;
use mv_values::list::List;
use mv_values::memory::NoMemory;
use mv_values::rows::Keyed;
use mv_values::value::{Key, Row};
use std::alloc::Global;

/// A change of a table: the row that is put under a key, or none to remove the row there.
#[derive(Drop)]
pub(crate) struct RowChange {
    pub table: u16,
    pub key: Key,
    pub row: Option<Row>,
}

/// Takes a table out, and leaves an empty one.
fn take_table(alloc: Global, tables: &mut Tables, table: u16) -> Table
    ensures rows { result ≡ rows_at tables.old table }
    ensures left { tables.new ≡ slice_set tables.old table [] }
{
    if (table as usize) < tables.len() {
        tables.replace(table as usize, Table::new(alloc))
    } else {
        Table::new(alloc)
    }
}

/// Puts a table back.
fn put_table(tables: &mut Tables, table: u16, rows: Table)
    ensures { tables.new ≡ slice_set tables.old table rows }
{
    if (table as usize) < tables.len() {
        tables.set(table as usize, rows);
    }
}

/// Puts a row under a key, and returns the one that was there. Copies the key only if there was none.
fn put_row(alloc: Global, rows: &mut Table, key: &Key, row: Row) -> Result<Option<Row>, NoMemory>
    ensures rows { OnOk result (rows.new ≡ placed key.now (Some row) rows.old) }
    ensures was { IfOk result (λ was. was ≡ row_of rows.old key.now) }
{
    match rows.replace(key, row) {
        Ok(was) => Ok(Some(was)),
        Err(row) => {
            let key = key.copy(alloc)?;
            rows.put(key, row)
        }
    }
}

/// Puts a row under a key, or removes the one there, and returns what was there.
fn set_row(
    alloc: Global,
    rows: &mut Table,
    key: &Key,
    row: Option<Row>,
) -> Result<Option<Row>, NoMemory>
    ensures rising { IsRising rows.old }
    ensures rows { OnOk result (rows.new ≡ placed key.now row rows.old) }
    ensures was { IfOk result (λ was. was ≡ row_of rows.old key.now) }
{
    let _len = rows.len();
    match row {
        Some(row) => put_row(alloc, rows, key, row),
        None => Ok(rows.take(key)),
    }
}

/// Makes a change, and returns the one that undoes it. Takes logarithmic time.
fn make(alloc: Global, tables: &mut Tables, change: RowChange) -> Result<RowChange, NoMemory>
    ensures tables { OnOk result (tables.new ≡ changed_in change tables.old) }
    ensures back { IfOk result (λ back. changed_in back tables.new ≡ tables.old) }
{
    let RowChange { table, key, row } = change;
    let mut rows = take_table(alloc, tables, table);
    let row = set_row(alloc, &mut rows, &key, row)?;
    put_table(tables, table, rows);
    Ok(RowChange { table, key, row })
}

/// Puts a row under its key, and returns the change that undoes this, which has the row that was there. Takes
/// logarithmic time.
pub(crate) fn add(
    alloc: Global,
    tables: &mut Tables,
    table: u16,
    item: Keyed,
) -> Result<RowChange, NoMemory>
    ensures rising { IsRising (rows_at tables.old table) }
    ensures tables { OnOk result (tables.new ≡ slice_set tables.old table (placed item.key (Some item.row) (rows_at tables.old table))) }
    ensures was { IfOk result (λ back. back.row ≡ row_of (rows_at tables.old table) item.key) }
    ensures back { IfOk result (λ back. changed_in back tables.new ≡ tables.old) }
{
    let Keyed { key, row } = item;
    let mut rows = take_table(alloc, tables, table);
    let _len = rows.len();
    let row = rows.put(key.copy(alloc)?, row)?;
    put_table(tables, table, rows);
    Ok(RowChange { table, key, row })
}

/// Makes all changes, from the last to the first, and remembers how to undo each.
pub(crate) fn make_all(
    alloc: Global,
    tables: &mut Tables,
    undo: &mut List<RowChange>,
    changes: List<RowChange>,
) -> Result<(), NoMemory>
    ensures tables { OnOk result (tables.new ≡ changed_by changes tables.old) }
    ensures undo { OnOk result (KeepsUndo undo.old tables.old undo.new tables.new) }
{
    let mut changes = changes;
    while let Some(change) = changes.pop() {
        let back = make(alloc, tables, change)?;
        undo.push(back)?;
    }
    Ok(())
}

/// Undoes all changes, from the last to the first.
pub(crate) fn undo_all(
    alloc: Global,
    tables: &mut Tables,
    undo: &mut List<RowChange>,
) -> Result<(), NoMemory>
    ensures { OnOk result (tables.new ≡ changed_by undo.old tables.old) }
{
    while let Some(change) = undo.pop() {
        let _back = make(alloc, tables, change)?;
    }
    Ok(())
}
