//! Whether each row that the calls begin with has its parents.

ghost use Rattle.std.specs.Prelude.{◌≡◌, ◌∷◌, [], ◌+◌, IfOk};
ghost use Rattle.std.specs.List.{AllByRecursion, list_any};
ghost use Rattle.std.specs.Option.{is_some};
ghost use Rattle.mv_values.specs.Patching.{row_of};
ghost use Rattle.mv_values.specs.References.{Reference, reference, references, references_from, is_there, HaveOneKey, ParentsHaveOneKey, orphans_in, orphans_of, orphans};
ghost use Rattle.mv_values.specs.Tables.{columns_at, rows_at};
ghost use Rattle.mv_opening.specs.Parents.{TellsOrphan, TellsOrphans};

use crate::fault::ParentFault;
use mv_record::applying::find_row;
use mv_values::columns::value_at;
use mv_values::copied::Copied;
use mv_values::list::List;
use mv_values::memory::NoMemory;
use mv_values::rows::{Database, Keyed, Rows};
use mv_values::schema::{Column, TableInfo};
use mv_values::value::{Key, Value};
use std::alloc::Global;

/// Checks that each row of the database has its parents. The keys of parent tables have one column. Costs one look-up
/// for each value with REFERENCES, and nothing for a table without.
///
/// # Errors
/// `Missing` with the first value whose parent isn't there: at the first table in the order of the script, then at the
/// first row in key order, then at the first column.
pub fn parents(
    alloc: Global,
    tables: &List<TableInfo>,
    opening: &Database,
) -> Result<(), ParentFault>
    requires { ParentsHaveOneKey tables.now opening.now }
    ensures { TellsOrphans (orphans tables.now opening.now) result }
{
    for table in 0..opening.len() {
        check_table_at(alloc, tables, opening, table)?;
    }
    Ok(())
}

/// Checks the rows of the table with this number.
fn check_table_at(
    alloc: Global,
    tables: &List<TableInfo>,
    opening: &Database,
    table: usize,
) -> Result<(), ParentFault>
    requires { ParentsHaveOneKey tables.now opening.now }
    ensures { TellsOrphans (orphans_of opening.now (references tables.now table) 1 (rows_at opening.now table)) result }
{
    let columns = columns_of(tables, table);
    match opening.as_slice().get(table) {
        Some(rows) => check_table(alloc, opening, columns, table, rows.as_slice()),
        None => Ok(()),
    }
}

/// Borrows the columns of a table; none if there is no such table.
fn columns_of(tables: &List<TableInfo>, table: usize) -> &[Column]
    ensures { result.now ≡ columns_at tables.now table }
{
    match tables.as_slice().get(table) {
        Some(info) => info.columns.as_slice(),
        None => &[],
    }
}

/// Whether one of the columns has REFERENCES.
fn refer(columns: &[Column]) -> bool
    ensures { result ≡ list_any (λ column. is_some column.refers) columns.now }
{
    columns.iter().any(|column| column.refers.is_some())
}

/// Checks the rows of a table with these columns.
#[tactic(auto, using(crate::proofs::Orphans::none_without))]
fn check_table(
    alloc: Global,
    opening: &Database,
    columns: &[Column],
    table: usize,
    rows: &[Keyed],
) -> Result<(), ParentFault>
    requires { AllByRecursion (λ (r : Reference). HaveOneKey (rows_at opening.now r.parent)) (references_from table 0 columns.now) }
    ensures { TellsOrphans (orphans_of opening.now (references_from table 0 columns.now) 1 rows.now) result }
{
    if refer(columns) {
        check_rows(alloc, opening, columns, table, rows)
    } else {
        Ok(())
    }
}

/// Checks each row.
fn check_rows(
    alloc: Global,
    opening: &Database,
    columns: &[Column],
    table: usize,
    rows: &[Keyed],
) -> Result<(), ParentFault>
    requires { AllByRecursion (λ (r : Reference). HaveOneKey (rows_at opening.now r.parent)) (references_from table 0 columns.now) }
    ensures { TellsOrphans (orphans_of opening.now (references_from table 0 columns.now) 1 rows.now) result }
{
    for (place, item) in rows.iter().enumerate() {
        check_row(alloc, opening, columns, table, place + 1, item)?;
    }
    Ok(())
}

/// Checks each column of the row with this number.
fn check_row(
    alloc: Global,
    opening: &Database,
    columns: &[Column],
    table: usize,
    number: usize,
    item: &Keyed,
) -> Result<(), ParentFault>
    requires { AllByRecursion (λ (r : Reference). HaveOneKey (rows_at opening.now r.parent)) (references_from table 0 columns.now) }
    ensures { TellsOrphans (orphans_in opening.now (references_from table 0 columns.now) number item.now) result }
{
    for (at, column) in columns.iter().enumerate() {
        check_column(alloc, opening, column, table, number, at, item)?;
    }
    Ok(())
}

/// Checks a column that may have no REFERENCES.
fn check_column(
    alloc: Global,
    opening: &Database,
    column: &Column,
    table: usize,
    number: usize,
    at: usize,
    item: &Keyed,
) -> Result<(), ParentFault>
    requires { AllByRecursion (λ (r : Reference). HaveOneKey (rows_at opening.now r.parent)) (reference table at column.now.refers) }
    ensures { TellsOrphans (orphans_in opening.now (reference table at column.now.refers) number item.now) result }
{
    match column.refers {
        Some(parent) => check_value(alloc, opening, parent, table, number, at, item),
        None => Ok(()),
    }
}

/// Checks the value of a column with REFERENCES to this parent table.
fn check_value(
    alloc: Global,
    opening: &Database,
    parent: u8,
    table: usize,
    number: usize,
    at: usize,
    item: &Keyed,
) -> Result<(), ParentFault>
    requires { HaveOneKey (rows_at opening.now parent) }
    ensures { TellsOrphans (orphans_in opening.now (record { table = table; column = at; parent = parent } ∷ []) number item.now) result }
{
    let value = value_at(alloc, item.row.as_slice(), at)?;
    if is_there(alloc, opening, parent, &value)? {
        Ok(())
    } else {
        Err(missing(table, number, at))
    }
}

/// Whether a table whose keys have one column has a row with this value as its key. Costs one look-up.
#[tactic(auto, using(mv_values::proofs::There::found))]
fn is_there(alloc: Global, opening: &Database, table: u8, value: &Value) -> Result<bool, NoMemory>
    requires { HaveOneKey (rows_at opening.now table) }
    ensures { IfOk result (λ b. b ≡ is_there value.now (rows_at opening.now table)) }
{
    let key = Key::of(alloc, value.copy(alloc)?)?;
    Ok(is_in(opening, table, &key))
}

/// Whether a table has a row with this key. Costs one look-up.
fn is_in(opening: &Database, table: u8, key: &Key) -> bool
    ensures { result ≡ is_some (row_of (rows_at opening.now table) key.now) }
{
    match opening.as_slice().get(table as usize) {
        Some(rows) => has_row(rows, key),
        None => false,
    }
}

fn has_row(rows: &Rows, key: &Key) -> bool
    ensures { result ≡ is_some (row_of rows.now key.now) }
{
    find_row(rows, key).is_some()
}

/// The greatest number of 32 bits.
const MOST: usize = 4_294_967_295;

/// Returns the fault of a value whose parent isn't there. The column is numbered from 0. If a number has more than 32
/// bits, the fault is as if memory ran out.
fn missing(table: usize, row: usize, column: usize) -> ParentFault
    ensures { TellsOrphan (record { table = table; row = row; column = column + 1 } ∷ []) result }
{
    if table > MOST || row > MOST || column >= MOST {
        return ParentFault::NoMemory;
    }
    ParentFault::Missing {
        table: table as u32,
        row: row as u32,
        column: column as u32 + 1,
    }
}
