//! What INSERT and UPDATE check: that a key is new, that values have no fault, and that parents are there.

ghost use Rattle.std.specs.Prelude.{◌≡◌, ◌<◌, ◌≤◌, ◌==◌, ◌∷◌, ◌++◌, ◌&&◌, [], All, IfOk, OnOk, length, map};
ghost use Rattle.std.specs.List.{flat_map, list_any};
ghost use Rattle.std.specs.Option.{is_some};
ghost use Rattle.mv_values.specs.declared.op.Op.TheVariants.{Eq};
ghost use Rattle.mv_values.specs.declared.calls.End.TheVariants.{MissingParent};
ghost use Rattle.mv_values.specs.References.{has_key, parent_of, reference, references, references_from};
ghost use Rattle.mv_values.specs.Tables.{key_columns};
ghost use Rattle.mv_catalog.specs.Text.{IsTable};
ghost use Rattle.mv_eval.specs.Results.{Gives, then_do};
ghost use Rattle.mv_eval.specs.Rows.{fit, test_on};
ghost use Rattle.mv_eval.specs.Value.{value_of};
ghost use Rattle.mv_recorded.specs.Asking.{parent_pred, item_checks, pred_of, same_key};
ghost use Rattle.mv_checks.specs.declared.check.Check.TheVariants.{Needs};
ghost use Rattle.mv_checks.specs.Checking.{meant, parent_checks, row_checks};

use crate::check::Check;
use mv_catalog::resolved::{RSetItem, Update};
use mv_eval::env::column_value;
use mv_eval::expr::value;
use mv_eval::find::{columns_in, is_under, key_in, parent_in, test_on};
use mv_eval::made::fit_at;
use mv_eval::state::{Env, Stop};
use mv_values::calls::End;
use mv_values::copied::Copied;
use mv_values::list::List;
use mv_values::memory::NoMemory;
use mv_values::op::Op;
use mv_values::pred::{Pred, Test};
use mv_values::rows::Keyed;
use mv_values::schema::{Column, TableInfo};
use mv_values::value::Value;
use std::alloc::Global;

// Parents

/// Returns the tests that each of these key columns equals the value.
fn parent_tests(alloc: Global, keys: &[u8], value: &Value) -> Result<List<Test>, NoMemory>
    requires { length keys.now ≤ 256 }
    ensures { IfOk result (λ tests. tests ≡ map (λ c. test_on keys.now c Eq value.now) keys.now) }
{
    let mut tests = List::with_room(alloc, keys.len())?;
    for column in keys {
        tests.push(test_on(keys, *column, Op::Eq, value.copy(alloc)?))?;
    }
    Ok(tests)
}

/// Returns the predicate for the row of a parent table whose key is the value. It selects no columns.
fn parent_pred(
    alloc: Global,
    tables: &[TableInfo],
    parent: u8,
    value: &Value,
) -> Result<Pred, NoMemory>
    requires { All IsTable tables.now }
    ensures { IfOk result (λ pred. pred ≡ parent_pred tables.now parent value.now) }
{
    let tests = parent_tests(alloc, key_in(tables, parent as u16), value)?;
    Ok(Pred {
        table: parent,
        tests,
        columns: List::new(alloc),
    })
}

/// Adds the check that the parent table has a row whose key is the value.
fn push_parent(
    alloc: Global,
    tables: &[TableInfo],
    parent: u8,
    value: &Value,
    checks: &mut List<Check>,
) -> Result<(), NoMemory>
    requires { All IsTable tables.now }
    ensures { OnOk result (checks.new ≡ checks.old ++ Needs (parent_pred tables.now parent value.now) MissingParent ∷ []) }
{
    let pred = parent_pred(alloc, tables, parent, value)?;
    checks.push(Check::Needs(pred, End::MissingParent))
}

// INSERT

/// Returns the tests that each key column equals that of the row.
fn key_tests(alloc: Global, keys: &[u8], row: &[Value]) -> Result<List<Test>, NoMemory>
    requires { length keys.now ≤ 256 }
    ensures { IfOk result (λ tests. tests ≡ same_key keys.now row.now) }
{
    let mut tests = List::with_room(alloc, keys.len())?;
    for column in keys {
        let value = column_value(alloc, row, *column as u16)?;
        tests.push(test_on(keys, *column, Op::Eq, value))?;
    }
    Ok(tests)
}

/// Returns the predicate for the rows of a table with the same key as a row. It selects no columns.
fn key_pred(
    alloc: Global,
    tables: &[TableInfo],
    table: u16,
    row: &[Value],
) -> Result<Pred, NoMemory>
    requires each { All IsTable tables.now }
    requires table { table < 256 }
    ensures { IfOk result (λ pred. pred ≡ pred_of table (same_key (key_columns tables.now table) row.now) []) }
{
    let tests = key_tests(alloc, key_in(tables, table), row)?;
    Ok(Pred {
        table: table as u8,
        tests,
        columns: List::new(alloc),
    })
}

/// Whether the row is a new one of the parent table, and its key is the value.
fn is_own_parent(table: u16, parent: u8, value: &Value, item: &Keyed) -> bool
    ensures { result ≡ ((parent == table) && has_key value.now item.now) }
{
    parent as u16 == table && is_under(item, value)
}

/// Adds what INSERT of a row checks of the parent of a column, which may have none.
#[tactic(auto, using(crate::proofs::Referring::parent_none, crate::proofs::Referring::parent_own, crate::proofs::Referring::parent_needed))]
fn push_column(
    alloc: Global,
    tables: &[TableInfo],
    table: u16,
    item: &Keyed,
    at: u16,
    column: &Column,
    checks: &mut List<Check>,
) -> Result<(), NoMemory>
    requires { All IsTable tables.now }
    ensures { OnOk result (map (meant []) checks.new ≡ map (meant []) checks.old ++ parent_checks tables.now item.now (reference table at column.now.refers)) }
{
    let Some(parent) = column.refers else {
        return Ok(());
    };
    let value = column_value(alloc, item.row.as_slice(), at)?;
    if is_own_parent(table, parent, &value, item) {
        return Ok(());
    }
    push_parent(alloc, tables, parent, &value, checks)
}

/// The same for these columns of the table, which are its first ones.
fn push_columns(
    alloc: Global,
    tables: &[TableInfo],
    table: u16,
    item: &Keyed,
    columns: &[Column],
    checks: &mut List<Check>,
) -> Result<(), NoMemory>
    requires each { All IsTable tables.now }
    requires narrow { length columns.now ≤ 256 }
    ensures { OnOk result (map (meant []) checks.new ≡ map (meant []) checks.old ++ parent_checks tables.now item.now (references_from table 0 columns.now)) }
{
    for (at, column) in columns.iter().enumerate() {
        push_column(alloc, tables, table, item, at as u16, column, checks)?;
    }
    Ok(())
}

/// Returns what INSERT of a row under its key checks of parents: that the parent of each column with REFERENCES is there,
/// but for a row that is its own parent. It takes no memory where no column has REFERENCES. Fails if memory runs out.
pub fn parent_checks(
    alloc: Global,
    tables: &[TableInfo],
    table: u16,
    item: &Keyed,
) -> Result<List<Check>, NoMemory>
    requires { All IsTable tables.now }
    ensures { IfOk result (λ checks. map (meant []) checks ≡ parent_checks tables.now item.now (references tables.now table)) }
{
    let mut parents = List::new(alloc);
    let columns = columns_in(tables, table);
    push_columns(alloc, tables, table, item, columns, &mut parents)?;
    Ok(parents)
}

/// Returns what INSERT of a row under its key checks: that no row has its key, and then the parent of each column with
/// REFERENCES. Fails if memory runs out.
pub fn row_checks(
    alloc: Global,
    tables: &[TableInfo],
    table: u16,
    item: &Keyed,
) -> Result<List<Check>, NoMemory>
    requires few { length tables.now ≤ 64 }
    requires each { All IsTable tables.now }
    requires table { table < length tables.now }
    ensures { IfOk result (λ checks. map (meant []) checks ≡ row_checks tables.now table item.now) }
{
    let pred = key_pred(alloc, tables, table, item.row.as_slice())?;
    let mut checks = List::of(alloc, Check::Forbids(pred, false, End::Duplicate))?;
    let columns = columns_in(tables, table);
    push_columns(alloc, tables, table, item, columns, &mut checks)?;
    Ok(checks)
}

// UPDATE

/// Whether the column of a table has REFERENCES.
fn has_parent(tables: &[TableInfo], table: u16, column: u16) -> bool
    ensures { result ≡ is_some (parent_of tables.now table column) }
{
    parent_in(columns_in(tables, table), column).is_some()
}

/// Whether SET sets a column with REFERENCES.
pub fn sets_reference(tables: &[TableInfo], table: u16, items: &[RSetItem]) -> bool
    ensures { result ≡ list_any (λ i. is_some (parent_of tables.now table i.column)) items.now }
{
    items
        .iter()
        .any(|item| has_parent(tables, table, item.column))
}

/// Returns the value that an item of SET gives to a row. Fails if it is stopped, or doesn't fit its column.
fn new_value(
    alloc: Global,
    columns: &[Column],
    env: &Env,
    row: &[Value],
    item: &RSetItem,
) -> Result<Value, Stop>
    ensures { Gives result (then_do (value_of item.now.right env.now row.now) (fit columns.now item.now.column)) }
{
    let v = value(alloc, &item.right, env, row)?;
    fit_at(columns, item.column, v)
}

/// Adds what UPDATE checks of the value that an item of SET gives to a row.
#[tactic(auto, using(crate::proofs::Referring::value_faults, crate::proofs::Referring::value_free, crate::proofs::Referring::value_needs))]
fn push_item(
    alloc: Global,
    tables: &[TableInfo],
    table: u16,
    env: &Env,
    row: &[Value],
    item: &RSetItem,
    checks: &mut List<Check>,
) -> Result<(), NoMemory>
    requires { All IsTable tables.now }
    ensures { OnOk result (map (meant []) checks.new ≡ map (meant []) checks.old ++ item_checks tables.now table env.now row.now item.now) }
{
    let columns = columns_in(tables, table);
    let value = match new_value(alloc, columns, env, row, item) {
        Ok(value) => value,
        Err(Stop::Memory) => return Err(NoMemory),
        Err(Stop::Ended(end)) => return checks.push(Check::Faults(end)),
    };
    match parent_in(columns, item.column) {
        None => Ok(()),
        Some(parent) => push_parent(alloc, tables, parent, &value, checks),
    }
}

/// Adds what UPDATE checks of the values that SET gives to a row: that each has no fault, and that its parent is there if
/// its column has REFERENCES.
pub fn push_items(
    alloc: Global,
    tables: &[TableInfo],
    env: &Env,
    update: &Update<'_>,
    row: &[Value],
    checks: &mut List<Check>,
) -> Result<(), NoMemory>
    requires { All IsTable tables.now }
    ensures { OnOk result (map (meant []) checks.new ≡ map (meant []) checks.old ++ flat_map (item_checks tables.now update.now.table env.now row.now) update.now.items.now) }
{
    for item in update.items {
        push_item(alloc, tables, update.table, env, row, item, checks)?;
    }
    Ok(())
}
