//! Whether the parents of rows are there.

ghost use Rattle.std.specs.Prelude.{◌≡◌, ◌∷◌, [], IfOk};
ghost use Rattle.std.specs.List.{AllByRecursion};
ghost use Rattle.std.specs.Option.{is_some};
ghost use Rattle.mv_values.specs.Patching.{row_of};
ghost use Rattle.mv_values.specs.References.{Reference, reference, references, references_from, is_there, HaveOneKey, ParentsHaveOneKey};
ghost use Rattle.mv_values.specs.Tables.{rows_at};
ghost use Rattle.mv_eval.specs.Results.{Gives};
ghost use Rattle.mv_eval.specs.References.{has_parents, with_parent, fit_in};
ghost use Rattle.mv_serial.specs.Referring.{IsOneKeyed};

use mv_eval::find::{columns_in, is_under, parent_in};
use mv_eval::made::fit_at;
use mv_eval::state::Stop;
use mv_table::table::{Tables, row_at};
use mv_values::calls::End;
use mv_values::columns::value_at;
use mv_values::copied::Copied;
use mv_values::memory::NoMemory;
use mv_values::rows::Keyed;
use mv_values::schema::{Column, TableInfo};
use mv_values::value::{Key, Value};
use std::alloc::Global;

/// Whether a table has a row with this key. Costs one look-up.
fn is_in(tables: &Tables, table: u8, key: &Key) -> bool
    ensures { result ≡ is_some (row_of (rows_at tables.now table) key.now) }
{
    row_at(tables, table, key).is_some()
}

/// Whether a table whose keys have one column has a row with this value as its key. Costs one look-up.
#[tactic(auto, using(mv_values::proofs::There::found))]
fn is_there(alloc: Global, tables: &Tables, table: u8, value: &Value) -> Result<bool, NoMemory>
    requires { HaveOneKey (rows_at tables.now table) }
    ensures { IfOk result (λ b. b ≡ is_there value.now (rows_at tables.now table)) }
{
    let key = Key::of(alloc, value.copy(alloc)?)?;
    Ok(is_in(tables, table, &key))
}

// INSERT

/// Whether a column of a new row of a table has its parent. The row counts as its own.
fn has_parent(
    alloc: Global,
    tables: &Tables,
    table: u16,
    item: &Keyed,
    column: usize,
    parent: u8,
) -> Result<bool, NoMemory>
    requires { HaveOneKey (rows_at tables.now parent) }
    ensures { IfOk result (λ b. b ≡ has_parents (record { table = table; column = column; parent = parent } ∷ []) item.now tables.now) }
{
    let value = value_at(alloc, item.row.as_slice(), column)?;
    if parent as u16 == table && is_under(item, &value) {
        return Ok(true);
    }
    is_there(alloc, tables, parent, &value)
}

/// The same for a column that may have no REFERENCES.
fn column_has_parent(
    alloc: Global,
    tables: &Tables,
    table: u16,
    item: &Keyed,
    at: usize,
    column: &Column,
) -> Result<bool, NoMemory>
    requires { AllByRecursion (λ (r : Reference). HaveOneKey (rows_at tables.now r.parent)) (reference table at column.now.refers) }
    ensures { IfOk result (λ b. b ≡ has_parents (reference table at column.now.refers) item.now tables.now) }
{
    match column.refers {
        Some(parent) => has_parent(alloc, tables, table, item, at, parent),
        None => Ok(true),
    }
}

/// The same for these columns of a table, which are its first ones.
fn columns_have_parents(
    alloc: Global,
    columns: &[Column],
    tables: &Tables,
    table: u16,
    item: &Keyed,
) -> Result<bool, NoMemory>
    requires { AllByRecursion (λ (r : Reference). HaveOneKey (rows_at tables.now r.parent)) (references_from table 0 columns.now) }
    ensures { IfOk result (λ b. b ≡ has_parents (references_from table 0 columns.now) item.now tables.now) }
{
    for (at, column) in columns.iter().enumerate() {
        if !column_has_parent(alloc, tables, table, item, at, column)? {
            return Ok(false);
        }
    }
    Ok(true)
}

/// Whether each column with REFERENCES of a new row of a table has its parent. The row counts as its own. Costs one
/// look-up for each such column.
pub(crate) fn has_parents(
    alloc: Global,
    infos: &[TableInfo],
    tables: &Tables,
    table: u16,
    item: &Keyed,
) -> Result<bool, NoMemory>
    requires { ParentsHaveOneKey infos.now tables.now }
    ensures { IfOk result (λ b. b ≡ has_parents (references infos.now table) item.now tables.now) }
{
    columns_have_parents(alloc, columns_in(infos, table), tables, table, item)
}

// UPDATE

/// Returns the value if its parent is there, and ends the call with `MissingParent` otherwise. Costs one look-up, if
/// there is a parent table.
fn with_parent(alloc: Global, tables: &Tables, parent: Option<u8>, v: Value) -> Result<Value, Stop>
    requires { IsOneKeyed parent tables.now }
    ensures { Gives result (with_parent parent tables.now v) }
{
    let Some(table) = parent else {
        return Ok(v);
    };
    if is_there(alloc, tables, table, &v)? {
        Ok(v)
    } else {
        Err(Stop::Ended(End::MissingParent))
    }
}

/// Returns the value if the column of the table can hold it and its parent is there. Ends the call with `TooLong` or
/// `MissingParent` otherwise.
pub(crate) fn fit_in(
    alloc: Global,
    infos: &[TableInfo],
    tables: &Tables,
    table: u16,
    column: u16,
    v: Value,
) -> Result<Value, Stop>
    requires { ParentsHaveOneKey infos.now tables.now }
    ensures { Gives result (fit_in infos.now table tables.now column v) }
{
    let columns = columns_in(infos, table);
    let v = fit_at(columns, column, v)?;
    with_parent(alloc, tables, parent_in(columns, column), v)
}
