//! Finds the first row that matches, from either end of a table.

ghost use Rattle.std.specs.Prelude.{◌≡◌, true, All, IfOk};
ghost use Rattle.std.specs.Option.{option_map};
ghost use Rattle.mv_values.specs.Keys.{IsRising, stored};
ghost use Rattle.mv_values.specs.Tables.{rows_at, key_columns, KeysStand};
ghost use Rattle.mv_table.specs.Entries.{seen};
ghost use Rattle.mv_table.specs.Scans.{foremost};
ghost use Rattle.mv_eval.specs.Rows.{matching, IsPlaced};
ghost use Rattle.mv_eval.specs.FirstRows.{NeverFalls, Rises, AdmitMatches, does_order, does_rank};

use crate::find::{key_in, match_in, place_in_key};
use mv_table::scan::Direction;
use mv_table::span::{Span, is_fixed_before, whole_key};
use mv_table::table::{Entry, Table, Tables};
use mv_values::memory::NoMemory;
use mv_values::pred::{Test, meets};
use mv_values::schema::TableInfo;
use mv_values::value::{Key, Row};
use std::alloc::Global;
use std::collections::btree_map::Range;

/// Whether a column is a key column, and `=` fixes all key columns before it. Then its value never falls from a row
/// that the tests admit to a later one.
pub(crate) fn never_falls(keys: &[u8], tests: &[Test], column: u16) -> bool
    ensures is { result ≡ does_order keys.now tests.now column }
    ensures order { result ≡ true → NeverFalls keys.now tests.now column }
{
    match place_in_key(keys, column) {
        Some(place) => is_fixed_before(tests, place),
        None => false,
    }
}

/// Whether a column is the last key column, and `=` fixes all others. Then its value rises from each row that the tests
/// admit to the next.
pub(crate) fn rises(keys: &[u8], tests: &[Test], column: u16) -> bool
    ensures is { result ≡ does_rank keys.now tests.now column }
    ensures order { result ≡ true → Rises keys.now tests.now column }
{
    match place_in_key(keys, column) {
        Some(place) => place + 1 == keys.len() && is_fixed_before(tests, place),
        None => false,
    }
}

/// Borrows the first of these rows in this direction that matches.
fn foremost_match<'a>(
    rows: Range<'a, Key, Row>,
    tests: &[Test],
    direction: Direction,
) -> Option<Entry<'a>>
    ensures { option_map seen result ≡ foremost direction (matching tests.now (stored rows.entry)) }
{
    let mut left = rows;
    while let Some((key, row)) = direction.take_next(&mut left) {
        if meets(tests, row.as_slice()) {
            return Some(Entry { key, row });
        }
    }
    None
}

/// Borrows the first row of a table in this direction that matches. Of the rows in the span of keys that the tests
/// leave it visits those up to that row. The tests must admit the key of each row that matches.
fn foremost_of<'a>(
    alloc: Global,
    table: &'a Table,
    tests: &[Test],
    direction: Direction,
) -> Result<Option<Entry<'a>>, NoMemory>
    requires { AdmitMatches tests.now table.now }
    ensures row { IfOk result (λ row. option_map seen row ≡ foremost direction (matching tests.now table.now)) }
    ensures rising { IfOk result (λ row. IsRising table.now) }
{
    let span = Span::of(alloc, tests)?;
    Ok(foremost_match(table.range(&span), tests, direction))
}

/// Does the same by the number of the table. Borrows none if there is no such table.
fn foremost_within<'a>(
    alloc: Global,
    tables: &'a Tables,
    table: u16,
    tests: &[Test],
    direction: Direction,
) -> Result<Option<Entry<'a>>, NoMemory>
    requires { AdmitMatches tests.now (rows_at tables.now table) }
    ensures row { IfOk result (λ row. option_map seen row ≡ foremost direction (matching tests.now (rows_at tables.now table))) }
    ensures rising { IfOk result (λ row. IsRising (rows_at tables.now table)) }
{
    match tables.as_slice().get(table as usize) {
        Some(rows) => foremost_of(alloc, rows, tests, direction),
        None => Ok(None),
    }
}

/// Borrows the first row of a table in this direction that matches; none if there is no such table. Where `=` gives each
/// value of the key, it looks for no other key.
pub(crate) fn foremost_in<'a>(
    alloc: Global,
    infos: &[TableInfo],
    tables: &'a Tables,
    table: u16,
    tests: &[Test],
    direction: Direction,
) -> Result<Option<Entry<'a>>, NoMemory>
    requires keys { KeysStand infos.now tables.now }
    requires places { All (IsPlaced (key_columns infos.now table)) tests.now }
    ensures row { IfOk result (λ row. option_map seen row ≡ foremost direction (matching tests.now (rows_at tables.now table))) }
    ensures rising { IfOk result (λ row. IsRising (rows_at tables.now table)) }
{
    match whole_key(alloc, tests, key_in(infos, table).len())? {
        Some(key) => Ok(match_in(tables, table, &key, tests)),
        None => foremost_within(alloc, tables, table, tests, direction),
    }
}
