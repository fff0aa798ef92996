//! Chooses the row at an index in ORDER BY order. The first one may be the first or the last in key order.

ghost use Rattle.std.specs.Prelude.{◌≡◌, ◌∷◌, [], All, IfOk, IfSome};
ghost use Rattle.std.specs.Option.{option_map};
ghost use Rattle.mv_values.specs.Tables.{rows_at, key_columns, KeysStand};
ghost use Rattle.mv_table.specs.Entries.{seen};
ghost use Rattle.mv_eval.specs.Rows.{IsPlaced, item_at, matching, ordered};
ghost use Rattle.mv_eval.specs.FirstRows.{Leads, sort_direction, order_direction};

use crate::find::{found_in, key_in};
use crate::foremost::{foremost_in, never_falls, rises};
use crate::order::chosen_row;
use mv_catalog::resolved::RSort;
use mv_table::scan::Direction;
use mv_table::table::{Entry, Tables};
use mv_values::memory::NoMemory;
use mv_values::pred::Test;
use mv_values::schema::TableInfo;
use std::alloc::Global;

/// Does what `order_direction` does, for ORDER BY one column.
fn sort_direction(sort: RSort, keys: &[u8], tests: &[Test]) -> Option<Direction>
    ensures is { result ≡ sort_direction sort keys.now tests.now }
    ensures leads { IfSome result (Leads (sort ∷ []) keys.now tests.now) }
{
    if sort.descending {
        rises(keys, tests, sort.column).then_some(Direction::Backward)
    } else {
        never_falls(keys, tests, sort.column).then_some(Direction::Forward)
    }
}

/// Returns the direction in which the first row that the tests admit is the first in ORDER BY order too. Returns none
/// if more rows may be needed. Takes time linear in the number of key columns times that of tests.
pub fn order_direction(sorts: &[RSort], keys: &[u8], tests: &[Test]) -> Option<Direction>
    ensures is { result ≡ order_direction sorts.now keys.now tests.now }
    ensures leads { IfSome result (Leads sorts.now keys.now tests.now) }
{
    let Some((sort, others)) = sorts.split_first() else {
        return Some(Direction::Forward);
    };
    if !others.is_empty() {
        return None;
    }
    sort_direction(*sort, keys, tests)
}

/// Borrows the row at an index in ORDER BY order, of all rows that match.
fn chosen_of_all<'a>(
    alloc: Global,
    infos: &[TableInfo],
    tables: &'a Tables,
    table: u16,
    tests: &[Test],
    sorts: &[RSort],
    at: i64,
) -> Result<Option<Entry<'a>>, NoMemory>
    requires keys { KeysStand infos.now tables.now }
    requires places { All (IsPlaced (key_columns infos.now table)) tests.now }
    ensures { IfOk result (λ row. option_map seen row ≡ item_at (ordered sorts.now (matching tests.now (rows_at tables.now table))) at) }
{
    let found = found_in(alloc, infos, tables, table, tests)?;
    Ok(chosen_row(alloc, sorts, found.as_slice(), at)?.copied())
}

/// Borrows the row at an index in ORDER BY order, of the rows of a table that match. Rows that tie are in key order.
/// Returns none if the index is negative or past the end. The first row in key order, or in the order of a key column
/// with `=` for all key columns before it, is found from its end of the table. Otherwise it visits all rows in the span
/// of keys that the tests leave, and sorts those that match. Fails if memory runs out.
pub fn chosen_in<'a>(
    alloc: Global,
    infos: &[TableInfo],
    tables: &'a Tables,
    table: u16,
    tests: &[Test],
    sorts: &[RSort],
    at: i64,
) -> Result<Option<Entry<'a>>, NoMemory>
    requires keys { KeysStand infos.now tables.now }
    requires places { All (IsPlaced (key_columns infos.now table)) tests.now }
    ensures { IfOk result (λ row. option_map seen row ≡ item_at (ordered sorts.now (matching tests.now (rows_at tables.now table))) at) }
{
    let keys = key_in(infos, table);
    if at == 0 {
        if let Some(direction) = order_direction(sorts, keys, tests) {
            return foremost_in(alloc, infos, tables, table, tests, direction);
        }
    }
    chosen_of_all(alloc, infos, tables, table, tests, sorts, at)
}
