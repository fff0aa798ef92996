//! Makes writes in tables, and takes them back.

ghost use Rattle.std.specs.Prelude.{◌≡◌, [], Some, slice_set, IfOk, OnOk};
ghost use Rattle.mv_values.specs.Keys.{IsRising};
ghost use Rattle.mv_values.specs.Patching.{row_of, placed, written, applied};
ghost use Rattle.mv_values.specs.Tables.{rows_at};
ghost use Rattle.mv_recorder.specs.Undoing.{put_back, all_back, KeepsBack};

use mv_record::applying::patch_row;
use mv_table::table::{Table, Tables};
use mv_values::copied::Copied;
use mv_values::list::List;
use mv_values::memory::NoMemory;
use mv_values::patch::Write;
use mv_values::value::{Key, Row};
use std::alloc::Global;

/// The row that was under a key of a table, or none.
#[derive(Drop)]
pub(crate) struct Was {
    pub table: u8,
    pub key: Key,
    pub row: Option<Row>,
}

/// Takes a table out, and leaves an empty one.
fn take_table(alloc: Global, tables: &mut Tables, table: u8) -> Table
    ensures rows { result ≡ rows_at tables.old table }
    ensures left { tables.new ≡ slice_set tables.old table [] }
{
    if (table as usize) < tables.len() {
        tables.replace(table as usize, Table::new(alloc))
    } else {
        Table::new(alloc)
    }
}

/// Puts a table in.
fn put_table(tables: &mut Tables, table: u8, rows: Table)
    ensures { tables.new ≡ slice_set tables.old table rows }
{
    if (table as usize) < tables.len() {
        tables.set(table as usize, rows);
    }
}

/// Puts a row under a key, or removes the one there, and returns what was there.
fn set_row(rows: &mut Table, key: Key, row: Option<Row>) -> Result<Option<Row>, NoMemory>
    ensures rows { OnOk result (rows.new ≡ placed key row rows.old) }
    ensures was { IfOk result (λ was. was ≡ row_of rows.old key) }
{
    match row {
        Some(row) => rows.put(key, row),
        None => Ok(rows.take(&key)),
    }
}

/// Makes a write, and returns what was under its key. Takes logarithmic time.
fn write(alloc: Global, tables: &mut Tables, write: &Write) -> Result<Was, NoMemory>
    ensures tables { OnOk result (tables.new ≡ written write.now tables.old) }
    ensures back { IfOk result (λ was. put_back was tables.new ≡ tables.old) }
{
    let mut rows = take_table(alloc, tables, write.table);
    let _len = rows.len();
    let patched = patch_row(alloc, &write.patch, rows.get(&write.key))?;
    let row = set_row(&mut rows, write.key.copy(alloc)?, patched)?;
    put_table(tables, write.table, rows);
    let key = write.key.copy(alloc)?;
    Ok(Was {
        table: write.table,
        key,
        row,
    })
}

/// Makes writes in order, and remembers what was under their keys.
pub(crate) fn write_all(
    alloc: Global,
    tables: &mut Tables,
    undo: &mut List<Was>,
    writes: &[Write],
) -> Result<(), NoMemory>
    ensures tables { OnOk result (tables.new ≡ applied writes.now tables.old) }
    ensures undo { OnOk result (KeepsBack undo.old tables.old undo.new tables.new) }
{
    for one in writes {
        let was = write(alloc, tables, one)?;
        undo.push(was)?;
    }
    Ok(())
}

/// Puts a row back as it was.
fn put_one_back(alloc: Global, tables: &mut Tables, was: Was) -> Result<(), NoMemory>
    ensures { OnOk result (tables.new ≡ put_back was tables.old) }
{
    let Was { table, key, row } = was;
    let mut rows = take_table(alloc, tables, table);
    let _before = set_row(&mut rows, key, row)?;
    put_table(tables, table, rows);
    Ok(())
}

/// Puts all rows back, from the last to the first.
pub(crate) fn put_all_back(
    alloc: Global,
    tables: &mut Tables,
    undo: &mut List<Was>,
) -> Result<(), NoMemory>
    ensures { OnOk result (tables.new ≡ all_back undo.old tables.old) }
{
    while let Some(was) = undo.pop() {
        put_one_back(alloc, tables, was)?;
    }
    Ok(())
}
