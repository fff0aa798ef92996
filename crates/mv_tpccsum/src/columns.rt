//! The numbers of tables that are found by name.

ghost use Rattle.std.specs.Prelude.{◌≡◌, ◌≤ℤ◌, ◌+ℤ◌, ◌^◌, ◌-◌, neg_ℤ, pos, IfOk, map};
ghost use Rattle.mv_values.specs.Columns.{column_of, columns_of, number};
ghost use Rattle.mv_tpccsum.specs.Tables.{table_place, found_columns, found_rows, rows_of, is_int, column_place, column_places, entries, column, sum_of};
ghost use Rattle.mv_tpccsum.specs.Grouping.{entries_of};

use mv_values::columns::value_at;
use mv_values::list::List;
use mv_values::memory::NoMemory;
use mv_values::rows::{Keyed, Rows};
use mv_values::schema::{ColType, Column, TableInfo};
use mv_values::value::{Key, Value};
use std::alloc::Global;

/// Tables and their rows.
#[derive(Clone, Copy)]
pub(crate) struct Tables<'a> {
    pub(crate) infos: &'a [TableInfo],
    pub(crate) database: &'a [Rows],
}

/// The numbers of a column in key order, with the columns by which they are grouped.
#[derive(Drop)]
pub(crate) struct Numbers<'a> {
    pub(crate) rows: &'a [Keyed],
    pub(crate) key: List<usize>,
    pub(crate) place: usize,
}

/// Returns the place of the table with a name.
fn table_place(tables: &[TableInfo], name: &str) -> Option<usize>
    ensures { result ≡ table_place tables.now name.now }
{
    tables
        .iter()
        .position(|table| table.name.as_slice() == name.as_bytes())
}

/// Returns the columns of a table that was found, and none otherwise.
fn found_columns(tables: &[TableInfo], place: Option<usize>) -> &[Column]
    ensures { result.now ≡ found_columns tables.now place }
{
    let Some(place) = place else {
        return &[];
    };
    match tables.get(place) {
        Some(table) => table.columns.as_slice(),
        None => &[],
    }
}

/// Returns the rows of a table that was found, and none otherwise.
fn found_rows(database: &[Rows], place: Option<usize>) -> &[Keyed]
    ensures { result.now ≡ found_rows database.now place }
{
    let Some(place) = place else {
        return &[];
    };
    match database.get(place) {
        Some(rows) => rows.as_slice(),
        None => &[],
    }
}

fn is_int(kind: ColType) -> bool
    ensures { result ≡ is_int kind }
{
    matches!(kind, ColType::Int)
}

/// Returns the place of the INT column with a name.
fn column_place(columns: &[Column], name: &str) -> Option<usize>
    ensures { result ≡ column_place columns.now name.now }
{
    columns.iter().position(|column| is_int(column.kind)
        && column.name.as_slice() == name.as_bytes())
}

/// Returns the places of INT columns, or none if one of them isn't there.
fn column_places(
    alloc: Global,
    columns: &[Column],
    names: &[&str],
) -> Result<Option<List<usize>>, NoMemory>
    ensures { IfOk result (λ places. places ≡ column_places columns.now (map (λ n. n.now) names.now)) }
{
    let mut places = List::new(alloc);
    for name in names {
        let Some(place) = column_place(columns, name) else {
            return Ok(None);
        };
        places.push(place)?;
    }
    Ok(Some(places))
}

impl<'a> Tables<'a> {
    /// Returns the rows of a table.
    pub(crate) fn rows(&self, table: &str) -> &'a [Keyed]
        ensures { result.now ≡ rows_of self.now.infos.now self.now.database.now table.now }
    {
        found_rows(self.database, table_place(self.infos, table))
    }

    /// Returns the numbers of a column of a table, grouped by other columns.
    #[tactic(auto, unfolding(crate::specs::Tables::entries))]
    pub(crate) fn numbers(
        &self,
        alloc: Global,
        table: &str,
        key: &[&str],
        column: &str,
    ) -> Result<Numbers<'a>, NoMemory>
        ensures { IfOk result (λ n. entries_of n ≡ entries self.now.infos.now self.now.database.now table.now (map (λ k. k.now) key.now) column.now) }
    {
        let columns = found_columns(self.infos, table_place(self.infos, table));
        let key = column_places(alloc, columns, key)?;
        match (key, column_place(columns, column)) {
            (Some(key), Some(column)) => Ok(Numbers {
                rows: self.rows(table),
                key,
                place: column,
            }),
            _ => Ok(Numbers {
                rows: &[],
                key: List::new(alloc),
                place: 0,
            }),
        }
    }

    /// Returns the sum of a column.
    pub(crate) fn sum(&self, alloc: Global, table: &str, name: &str) -> Result<i128, NoMemory>
        ensures { IfOk result (λ sum. sum ≡ sum_of (column self.now.infos.now self.now.database.now table.now name.now)) }
    {
        let numbers = self.numbers(alloc, table, &[], name)?;
        Ok(numbers.sum())
    }
}

impl Numbers<'_> {
    /// Returns the sum of the numbers.
    fn sum(&self) -> i128
        ensures { result ≡ sum_of (map (λ e. e.1) (entries_of self.now)) }
    {
        let mut sum = 0_i128;
        for item in self.rows {
            sum = plus(sum, number_at(item.row.as_slice(), self.place));
        }
        sum
    }
}

/// Returns the exact sum.
pub(crate) fn plus(sum: i128, n: i64) -> i128
    requires low { neg_ℤ (pos (2 ^ 127 - 2 ^ 64)) ≤ℤ sum }
    requires high { sum ≤ℤ pos (2 ^ 127 - 2 ^ 64) }
    ensures { result ≡ sum +ℤ n }
{
    sum + n as i128
}

/// Returns the number of a column, or 0 if the row has none there.
pub(crate) fn number_at(row: &[Value], column: usize) -> i64
    ensures { result ≡ number (column_of row.now column) }
{
    match row.get(column) {
        Some(Value::Int(number)) => *number,
        _ => 0,
    }
}

/// Returns copies of the values of columns.
pub(crate) fn key_at(alloc: Global, row: &[Value], columns: &[usize]) -> Result<Key, NoMemory>
    ensures { IfOk result (λ key. key ≡ columns_of row.now columns.now) }
{
    let mut key = Key::new();
    for column in columns {
        key.push(alloc, value_at(alloc, row, *column)?)?;
    }
    Ok(key)
}
