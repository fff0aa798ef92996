//! Evaluates aggregates over the rows of a table that match. MIN or MAX of a key column needs only one of them.

ghost use Rattle.std.specs.Prelude.{◌≡◌, All, IfSome};
ghost use Rattle.std.specs.Bool.{then_some};
ghost use Rattle.mv_values.specs.Tables.{rows_at, key_columns, KeysStand};
ghost use Rattle.mv_eval.specs.Results.{Gives};
ghost use Rattle.mv_eval.specs.Rows.{IsPlaced, matching};
ghost use Rattle.mv_eval.specs.FirstRows.{NeverFalls, IsFromEnd, does_order, aggregate_direction, total_found};

use crate::find::{found_in, key_in};
use crate::foremost::{foremost_in, never_falls};
use crate::state::Stop;
use crate::totals::{aggregate_of, value_in};
use mv_catalog::resolved::RAgg;
use mv_table::scan::Direction;
use mv_table::table::Tables;
use mv_values::pred::Test;
use mv_values::schema::TableInfo;
use mv_values::value::Value;
use std::alloc::Global;

/// Returns this column and direction if the value of the column never falls from a row that the tests admit to a later
/// one.
fn told_by(
    keys: &[u8],
    tests: &[Test],
    column: u16,
    direction: Direction,
) -> Option<(u16, Direction)>
    ensures is { result ≡ then_some (does_order keys.now tests.now column) (column, direction) }
    ensures order { IfSome result (λ t. (t.0 ≡ column) × (t.1 ≡ direction) × NeverFalls keys.now tests.now column) }
{
    never_falls(keys, tests, column).then_some((column, direction))
}

/// Returns the column of MIN or MAX, and the direction in which the first row that the tests admit tells its value.
/// Returns none if more rows may be needed. Takes time linear in the number of key columns times that of tests.
pub fn aggregate_direction(agg: RAgg, keys: &[u8], tests: &[Test]) -> Option<(u16, Direction)>
    ensures is { result ≡ aggregate_direction agg keys.now tests.now }
    ensures tells { IfSome result (λ t. IsFromEnd agg keys.now tests.now t.0 t.1) }
{
    match agg {
        RAgg::Min(column) => told_by(keys, tests, column, Direction::Forward),
        RAgg::Max(column) => told_by(keys, tests, column, Direction::Backward),
        RAgg::CountAll | RAgg::CountDistinct(_) | RAgg::Sum(_) => None,
    }
}

/// Returns the value of an aggregate over all rows that match, and whether there are any.
fn total_of_all(
    alloc: Global,
    infos: &[TableInfo],
    tables: &Tables,
    agg: RAgg,
    table: u16,
    tests: &[Test],
) -> Result<(Option<Value>, bool), Stop>
    requires keys { KeysStand infos.now tables.now }
    requires places { All (IsPlaced (key_columns infos.now table)) tests.now }
    ensures { Gives result (total_found agg (matching tests.now (rows_at tables.now table))) }
{
    let found = found_in(alloc, infos, tables, table, tests)?;
    let rows = found.as_slice();
    let value = aggregate_of(alloc, agg, rows)?;
    Ok((value, !rows.is_empty()))
}

/// Returns the value of an aggregate over the rows of a table that match, and whether there are any. MIN and MAX of a
/// key column visit the rows up to the first one that matches from their end, if `=` fixes all key columns before it.
/// Otherwise it visits all rows in the span of keys that the tests leave. Fails as `aggregate_of`.
pub fn total_of(
    alloc: Global,
    infos: &[TableInfo],
    tables: &Tables,
    agg: RAgg,
    table: u16,
    tests: &[Test],
) -> Result<(Option<Value>, bool), Stop>
    requires keys { KeysStand infos.now tables.now }
    requires places { All (IsPlaced (key_columns infos.now table)) tests.now }
    ensures { Gives result (total_found agg (matching tests.now (rows_at tables.now table))) }
{
    let keys = key_in(infos, table);
    let Some((column, direction)) = aggregate_direction(agg, keys, tests) else {
        return total_of_all(alloc, infos, tables, agg, table, tests);
    };
    let row = foremost_in(alloc, infos, tables, table, tests, direction)?;
    let value = value_in(alloc, column, row.as_ref())?;
    Ok((value, row.is_some()))
}
