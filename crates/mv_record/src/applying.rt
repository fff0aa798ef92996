//! Applies writes to a database.

ghost use Rattle.std.specs.Prelude.{◌≡◌, ◌<◌, ◌≤◌, length, [], List, IfOk, OnOk, OnErr, MatchResult, slice_set};
ghost use Rattle.std.specs.Option.{option_copied};
ghost use Rattle.mv_values.specs.declared.value.Value.{Value};
ghost use Rattle.mv_values.specs.Keys.{IsRising, IsPlaceOf, IsGapFor};
ghost use Rattle.mv_values.specs.Patching.{row_of, with_columns, patched, placed, patched_rows, written};
ghost use Rattle.mv_values.specs.Tables.{rows_at};

use mv_values::copied::Copied;
use mv_values::memory::NoMemory;
use mv_values::patch::{Assign, Patch, Write};
use mv_values::rows::{Database, Keyed, Rows};
use mv_values::value::{Key, Row};
use std::alloc::Global;

/// Returns the row with columns set, in order. Skips columns that the row doesn't have.
pub(crate) fn set_columns(alloc: Global, row: &Row, items: &[Assign]) -> Result<Row, NoMemory>
    ensures { IfOk result (λ new. new ≡ with_columns items.now row.now) }
{
    let mut new = row.copy(alloc)?;
    for item in items {
        if (item.column as usize) < new.len() {
            new.set(item.column as usize, item.value.copy(alloc)?);
        }
    }
    Ok(new)
}

/// Returns the row after a patch, given the row before it, if any. Returns `None` after a delete, and after setting
/// columns of no row. Fails if memory runs out. Costs the size of the row.
pub fn patch_row(alloc: Global, patch: &Patch, was: Option<&Row>) -> Result<Option<Row>, NoMemory>
    ensures { IfOk result (λ row. row ≡ patched patch.now (option_copied was.entry)) }
{
    match patch {
        Patch::Insert(row) => Ok(Some(row.copy(alloc)?)),
        Patch::Set(items) => match was {
            Some(row) => Ok(Some(set_columns(alloc, row, items.as_slice())?)),
            None => Ok(None),
        },
        Patch::Delete => Ok(None),
    }
}

/// Returns the row at the place of a key.
fn row_at(rows: &Rows, place: Result<usize, usize>) -> Option<&Row>
    requires { MatchResult place (λ at. at < length rows.now) (λ at. at ≤ length rows.now) }
    ensures { (key : List Value) → MatchResult place (IsPlaceOf rows.now key) (IsGapFor rows.now key) → option_copied result ≡ row_of rows.now key }
{
    match place {
        Ok(at) => Some(&rows.as_slice()[at].row),
        Err(_) => None,
    }
}

/// Returns the row with the key. Costs the logarithm of the number of rows.
pub fn find_row<'a>(rows: &'a Rows, key: &Key) -> Option<&'a Row>
    ensures { option_copied result ≡ row_of rows.now key.now }
{
    row_at(rows, rows.place_of(key))
}

/// Stores or removes a row under a key whose place is known.
fn put_at(
    alloc: Global,
    rows: &mut Rows,
    key: &Key,
    place: Result<usize, usize>,
    row: Option<Row>,
) -> Result<(), NoMemory>
    requires rising { IsRising rows.old }
    requires place { MatchResult place (IsPlaceOf rows.old key.now) (IsGapFor rows.old key.now) }
    ensures ok { OnOk result (rows.new ≡ placed key.now row rows.old) }
    ensures err { OnErr result (rows.new ≡ rows.old) }
{
    match (place, row) {
        (Ok(at), Some(row)) => {
            rows.set_row(at, row);
            Ok(())
        }
        (Ok(at), None) => {
            rows.remove(at);
            Ok(())
        }
        (Err(at), Some(row)) => {
            let key = key.copy(alloc)?;
            rows.insert(at, Keyed { key, row })
        }
        (Err(_), None) => Ok(()),
    }
}

/// Stores a row under a key, or removes the row with that key if `row` is `None`. Fails if memory runs out; the rows
/// are then unchanged. Costs the logarithm of the number of rows; an insertion or removal also moves the rows after it.
pub fn put_row(alloc: Global, rows: &mut Rows, key: &Key, row: Option<Row>) -> Result<(), NoMemory>
    ensures ok { OnOk result (rows.new ≡ placed key.now row rows.old) }
    ensures err { OnErr result (rows.new ≡ rows.old) }
{
    let place = rows.place_of(key);
    put_at(alloc, rows, key, place, row)
}

/// Patches the row with the key.
fn patch_rows(alloc: Global, rows: &mut Rows, key: &Key, patch: &Patch) -> Result<(), NoMemory>
    ensures ok { OnOk result (rows.new ≡ patched_rows key.now patch.now rows.old) }
    ensures err { OnErr result (rows.new ≡ rows.old) }
{
    let place = rows.place_of(key);
    let row = patch_row(alloc, patch, row_at(rows, place))?;
    put_at(alloc, rows, key, place, row)
}

/// Applies a write. Has no effect if the database lacks the write's table. Fails if memory runs out; the database is
/// then unchanged. Searches for the key once; an insertion or removal also moves the rows after it.
pub fn apply(alloc: Global, database: &mut Database, write: &Write) -> Result<(), NoMemory>
    ensures ok { OnOk result (database.new ≡ written write.now database.old) }
    ensures err { OnErr result (database.new ≡ database.old) }
{
    let table = write.table as usize;
    if table >= database.len() {
        return Ok(());
    }
    let mut rows = database.replace(table, Rows::new(alloc));
    let done = patch_rows(alloc, &mut rows, &write.key, &write.patch);
    database.set(table, rows);
    done
}
