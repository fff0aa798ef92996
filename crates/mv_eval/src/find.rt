//! Finds the rows of a table that match.

ghost use Rattle.std.specs.Prelude.{◌≡◌, ◌<◌, ◌≤◌, ◌==◌, List, All, map, length, option_to_list, slice_get, IfOk, IfSome};
ghost use Rattle.std.specs.List.{position};
ghost use Rattle.std.specs.Option.{option_map};
ghost use Rattle.mv_values.specs.declared.op.Op.TheVariants.{Eq};
ghost use Rattle.mv_values.specs.Preds.{meets};
ghost use Rattle.mv_values.specs.References.{has_key, parent_in};
ghost use Rattle.mv_values.specs.Order.{value_order};
ghost use Rattle.mv_values.specs.Columns.{column_of};
ghost use Rattle.mv_values.specs.Keys.{IsRising};
ghost use Rattle.mv_values.specs.Patching.{row_of, standing};
ghost use Rattle.mv_values.specs.Tables.{rows_at, columns_at, key_columns, KeysStand};
ghost use Rattle.mv_table.specs.Entries.{seen};
ghost use Rattle.mv_catalog.specs.Text.{IsTable};
ghost use Rattle.mv_eval.specs.Results.{Gives};
ghost use Rattle.mv_eval.specs.Rows.{test_on, tests_of, IsPlaced, matching};
ghost use Rattle.mv_eval.specs.FirstRows.{AdmitMatches, MatchesOnly};

use crate::expr::value;
use crate::state::{Env, Stop};
use mv_catalog::resolved::RCond;
use mv_table::span::{Span, whole_key};
use mv_table::table::{Entry, Table, Tables};
use mv_values::copied::Copied;
use mv_values::list::List;
use mv_values::memory::NoMemory;
use mv_values::op::Op;
use mv_values::pred::{Test, meets};
use mv_values::rows::Keyed;
use mv_values::schema::{Column, TableInfo};
use mv_values::value::{Key, Value};
use std::alloc::Global;
use std::cmp::Ordering;

/// Borrows the columns of a table; empty if there is no such table.
pub fn columns_in(tables: &[TableInfo], table: u16) -> &[Column]
    ensures { result.now ≡ columns_at tables.now table }
{
    match tables.get(table as usize) {
        Some(info) => info.columns.as_slice(),
        None => &[],
    }
}

/// Borrows the numbers of the key columns of a table; empty if there is no such table.
pub fn key_in(tables: &[TableInfo], table: u16) -> &[u8]
    ensures { result.now ≡ key_columns tables.now table }
{
    match tables.get(table as usize) {
        Some(info) => info.key.as_slice(),
        None => &[],
    }
}

/// Returns the number of the parent table of a column, if it has REFERENCES.
pub fn parent_in(columns: &[Column], column: u16) -> Option<u8>
    ensures { result ≡ parent_in (slice_get columns.now column) }
{
    match columns.get(column as usize) {
        Some(column) => column.refers,
        None => None,
    }
}

/// Whether the row's key is the value.
#[tactic(auto, using(mv_values::proofs::Parts::left_from))]
pub fn is_under(item: &Keyed, value: &Value) -> bool
    ensures { result ≡ has_key value.now item.now }
{
    for at in 0..item.key.len() {
        if item.key.part(at).order(value).is_ne() {
            return false;
        }
    }
    true
}

/// Compares the value of a column with another value.
pub(crate) fn order_of(row: &[Value], c: u16, other: &Value) -> Ordering
    ensures { result ≡ value_order (column_of row.now c) other.now }
{
    match row.get(c as usize) {
        Some(v) => v.order(other),
        None => Value::Int(0).order(other),
    }
}

/// Returns the place of a column in the key, if it is a key column.
pub(crate) fn place_in_key(keys: &[u8], column: u16) -> Option<usize>
    ensures place { result ≡ position (λ k. k == column) keys.now }
    ensures within { IfSome result (λ place. place < length keys.now) }
{
    keys.iter().position(|key| *key as u16 == column)
}

/// Returns the same in one byte. A key has no more than 256 columns.
fn key_place(keys: &[u8], column: u8) -> Option<u8>
    requires { length keys.now ≤ 256 }
    ensures { result ≡ position (λ k. k == column) keys.now }
{
    match place_in_key(keys, column as u16) {
        Some(place) => Some(place as u8),
        None => None,
    }
}

/// Returns a test of a column of a table with these key columns.
pub fn test_on(keys: &[u8], column: u8, op: Op, value: Value) -> Test
    requires { length keys.now ≤ 256 }
    ensures { result ≡ test_on keys.now column op value }
{
    Test {
        column,
        key_place: key_place(keys, column),
        op,
        value,
    }
}

/// Returns the tests that a column of a table with these key columns holds a key.
#[tactic(auto, using(mv_values::proofs::Parts::left_from))]
pub fn tests_of_key(
    alloc: Global,
    keys: &[u8],
    column: u8,
    key: &Key,
) -> Result<List<Test>, NoMemory>
    requires { length keys.now ≤ 256 }
    ensures { IfOk result (λ tests. tests ≡ map (λ v. test_on keys.now column Eq v) key.now) }
{
    let mut tests = List::with_room(alloc, key.len())?;
    for at in 0..key.len() {
        let value = key.part(at).copy(alloc)?;
        tests.push(test_on(keys, column, Op::Eq, value))?;
    }
    Ok(tests)
}

/// Returns the tests of WHERE over a table with these key columns, with their right sides evaluated, in order, up to
/// the first fault.
fn tests_by(alloc: Global, keys: &[u8], conds: &[RCond], env: &Env) -> Result<List<Test>, Stop>
    requires { length keys.now ≤ 256 }
    ensures { Gives result (tests_of keys.now conds.now env.now) }
{
    let mut tests = List::with_room(alloc, conds.len())?;
    for cond in conds {
        let value = value(alloc, &cond.right, env, &[])?;
        tests.push(test_on(keys, cond.column, cond.op, value))?;
    }
    Ok(tests)
}

/// Returns the tests of WHERE over a table, with their right sides evaluated, in order, up to the first fault.
pub fn tests_from(
    alloc: Global,
    infos: &[TableInfo],
    table: u16,
    conds: &[RCond],
    env: &Env,
) -> Result<List<Test>, Stop>
    requires { All IsTable infos.now }
    ensures tests { Gives result (tests_of (key_columns infos.now table) conds.now env.now) }
    ensures places { IfOk result (All (IsPlaced (key_columns infos.now table))) }
{
    tests_by(alloc, key_in(infos, table), conds, env)
}

/// Borrows the rows of a table that match, in the span of keys that the tests leave.
fn matches_of<'a>(
    alloc: Global,
    table: &'a Table,
    tests: &[Test],
) -> Result<Vec<Entry<'a>>, NoMemory>
    requires { AdmitMatches tests.now table.now }
    ensures rows { IfOk result (λ found. map seen found.items ≡ matching tests.now table.now) }
    ensures rising { IfOk result (λ found. IsRising (map seen found.items)) }
    ensures all { IfOk result (λ found. IsRising table.now) }
{
    let span = Span::of(alloc, tests)?;
    let mut found = table.part(alloc, &span)?;
    found.retain(
        |entry: &Entry<'_>| -> bool
            ensures { result ≡ meets tests.entry.now (seen entry.now).row }
        { meets(tests, entry.row.as_slice()) },
    );
    Ok(found)
}

/// Borrows the rows of a table that match, in key order; none if there is no such table. The tests must admit the key
/// of each row that matches. Visits only the rows in the span of keys that the tests leave, which it finds in
/// logarithmic time, and copies no row. Fails if memory runs out.
pub fn matches_in<'a>(
    alloc: Global,
    tables: &'a Tables,
    table: u16,
    tests: &[Test],
) -> Result<Vec<Entry<'a>>, NoMemory>
    requires { AdmitMatches tests.now (rows_at tables.now table) }
    ensures rows { IfOk result (λ found. map seen found.items ≡ matching tests.now (rows_at tables.now table)) }
    ensures rising { IfOk result (λ found. IsRising (map seen found.items)) }
    ensures all { IfOk result (λ found. IsRising (rows_at tables.now table)) }
{
    match tables.as_slice().get(table as usize) {
        Some(rows) => matches_of(alloc, rows, tests),
        None => Ok(Vec::new(alloc)),
    }
}

/// Borrows the row under a key of a table, if it matches.
fn match_under<'a>(table: &'a Table, key: &Key, tests: &[Test]) -> Option<Entry<'a>>
    ensures row { option_to_list (option_map seen result) ≡ matching tests.now (standing key.now (row_of table.now key.now)) }
    ensures rising { IsRising table.now }
{
    let _len = table.len();
    match table.entry(key) {
        Some(entry) if meets(tests, entry.row.as_slice()) => Some(entry),
        _ => None,
    }
}

/// Borrows the row of a table that matches, if there is one and such a table. Each row that matches must have this key.
/// Takes time logarithmic in the number of rows.
pub(crate) fn match_in<'a>(
    tables: &'a Tables,
    table: u16,
    key: &Key,
    tests: &[Test],
) -> Option<Entry<'a>>
    requires { MatchesOnly tests.now key.now (rows_at tables.now table) }
    ensures row { option_to_list (option_map seen result) ≡ matching tests.now (rows_at tables.now table) }
    ensures rising { IsRising (rows_at tables.now table) }
{
    match tables.as_slice().get(table as usize) {
        Some(rows) => match_under(rows, key, tests),
        None => None,
    }
}

/// Returns a list of the row, if there is one.
fn list_of<'a>(alloc: Global, row: Option<Entry<'a>>) -> Result<Vec<Entry<'a>>, NoMemory>
    ensures { IfOk result (λ list. list.items ≡ option_to_list row.entry) }
{
    let mut list = Vec::new(alloc);
    if let Some(entry) = row {
        list.push(entry)?;
    }
    Ok(list)
}

/// Does what `matches_in` does. Where `=` gives each value of the key, it looks for no other key.
pub fn found_in<'a>(
    alloc: Global,
    infos: &[TableInfo],
    tables: &'a Tables,
    table: u16,
    tests: &[Test],
) -> Result<Vec<Entry<'a>>, NoMemory>
    requires keys { KeysStand infos.now tables.now }
    requires places { All (IsPlaced (key_columns infos.now table)) tests.now }
    ensures rows { IfOk result (λ found. map seen found.items ≡ matching tests.now (rows_at tables.now table)) }
    ensures rising { IfOk result (λ found. IsRising (map seen found.items)) }
    ensures all { IfOk result (λ found. IsRising (rows_at tables.now table)) }
{
    match whole_key(alloc, tests, key_in(infos, table).len())? {
        Some(key) => {
            let found = list_of(alloc, match_in(tables, table, &key, tests))?;
            Ok(found)
        }
        None => matches_in(alloc, tables, table, tests),
    }
}
