//! Fixes the rows of a loop over a table, before its first turn.

ghost use Rattle.std.specs.Prelude.{◌≡◌, None, map, not, IfOk};
ghost use Rattle.std.specs.Option.{option_copied, option_map};
ghost use Rattle.mv_values.specs.Order.{key_order};
ghost use Rattle.mv_values.specs.Keys.{IsRising};
ghost use Rattle.mv_values.specs.Columns.{columns_of};
ghost use Rattle.mv_eval.specs.Rows.{ordered, sorted, projected, distinct};
ghost use Rattle.mv_eval.specs.Once.{is_same, once_each};
ghost use Rattle.mv_eval.specs.Alone.{fixed};

use crate::env::column_value;
use crate::find::order_of;
use crate::order::{ordered_in, references};
use mv_catalog::resolved::RSort;
use mv_table::table::Stored;
use mv_values::list::List;
use mv_values::memory::NoMemory;
use mv_values::value::{Row, Value};
use std::alloc::Global;
use std::cmp::Ordering;

/// Returns copies of these columns of a row.
fn projection(alloc: Global, row: &[Value], columns: &[u16]) -> Result<Row, NoMemory>
    ensures { IfOk result (λ r. r ≡ columns_of row.now columns.now) }
{
    let mut values = List::with_room(alloc, columns.len())?;
    for c in columns {
        values.push(column_value(alloc, row, *c)?)?;
    }
    Ok(values)
}

/// Returns these columns of the rows, in ORDER BY order.
fn rows_in_order<R: Stored>(
    alloc: Global,
    columns: &[u16],
    sorts: &[RSort],
    rows: &[R],
) -> Result<List<Row>, NoMemory>
    requires { IsRising (map R.keyed rows.now) }
    ensures { IfOk result (λ v. v ≡ projected columns.now (ordered sorts.now (map R.keyed rows.now))) }
{
    let found = ordered_in(alloc, sorts, rows)?;
    projections(alloc, columns, found.as_slice())
}

/// Returns these columns of the rows.
fn projections<R: Stored>(
    alloc: Global,
    columns: &[u16],
    items: &[&R],
) -> Result<List<Row>, NoMemory>
    ensures { IfOk result (λ v. v ≡ projected columns.now (map (λ r. R.keyed r.now) items.now)) }
{
    let mut all = List::with_room(alloc, items.len())?;
    for item in items {
        all.push(projection(alloc, item.row().as_slice(), columns)?)?;
    }
    Ok(all)
}

/// Compares two rows by these columns.
fn compare_columns(columns: &[u16], a: &[Value], b: &[Value]) -> Ordering
    ensures { result ≡ key_order (columns_of a.now columns.now) (columns_of b.now columns.now) }
{
    for c in columns {
        let order = match b.get(*c as usize) {
            Some(v) => order_of(a, *c, v),
            None => order_of(a, *c, &Value::Int(0)),
        };
        if order.is_ne() {
            return order;
        }
    }
    Ordering::Equal
}

/// Borrows the rows in the order of these columns.
fn in_column_order<'a, R: Stored>(
    alloc: Global,
    columns: &[u16],
    rows: &'a [R],
) -> Result<Vec<&'a R>, NoMemory>
    ensures { IfOk result (λ v. projected columns.now (map (λ r. R.keyed r.now) v.items) ≡ sorted key_order (projected columns.now (map R.keyed rows.now))) }
{
    let mut all = references(alloc, rows)?;
    all.sort_by(
        |a: &&R, b: &&R| -> Ordering
            ensures { result ≡ key_order (columns_of (R.keyed a.now.now).row columns.entry.now) (columns_of (R.keyed b.now.now).row columns.entry.now) }
        { compare_columns(columns, a.row().as_slice(), b.row().as_slice()) },
    )?;
    Ok(all)
}

/// Whether a row differs from the one before it in one of these columns.
fn is_new<R: Stored>(columns: &[u16], before: Option<&R>, item: &R) -> bool
    ensures { result ≡ not (is_same (option_map (λ i. columns_of (R.keyed i).row columns.now) (option_copied before.entry)) (columns_of (R.keyed item.now).row columns.now)) }
{
    match before {
        None => true,
        Some(other) => {
            compare_columns(columns, other.row().as_slice(), item.row().as_slice()).is_ne()
        }
    }
}

/// Returns these columns of the rows, and leaves out each row that equals the one before it.
fn without_repeats<R: Stored>(
    alloc: Global,
    columns: &[u16],
    items: &[&R],
) -> Result<List<Row>, NoMemory>
    ensures { IfOk result (λ v. v ≡ once_each None (projected columns.now (map (λ r. R.keyed r.now) items.now))) }
{
    let mut all = List::new(alloc);
    let mut before: Option<&R> = None;
    for item in items {
        if is_new(columns, before, *item) {
            all.push(projection(alloc, item.row().as_slice(), columns)?)?;
        }
        before = Some(*item);
    }
    Ok(all)
}

/// Returns these columns of the rows, each row once, in the order of their values.
pub(crate) fn distinct_rows<R: Stored>(
    alloc: Global,
    columns: &[u16],
    rows: &[R],
) -> Result<List<Row>, NoMemory>
    ensures { IfOk result (λ v. v ≡ distinct (projected columns.now (map R.keyed rows.now))) }
{
    let found = in_column_order(alloc, columns, rows)?;
    without_repeats(alloc, columns, found.as_slice())
}

/// Returns the rows of a loop over these rows, which are in key order. These are copies of the columns, in ORDER BY
/// order with ties by key. For DISTINCT they are each row once, in the order of their values. Sorts the rows unless key
/// order is wanted. Fails if memory runs out.
pub fn fixed_rows<R: Stored>(
    alloc: Global,
    once: bool,
    columns: &[u16],
    sorts: &[RSort],
    rows: &[R],
) -> Result<List<Row>, NoMemory>
    requires { IsRising (map R.keyed rows.now) }
    ensures { IfOk result (λ v. v ≡ fixed once columns.now sorts.now (map R.keyed rows.now)) }
{
    if once {
        return distinct_rows(alloc, columns, rows);
    }
    rows_in_order(alloc, columns, sorts, rows)
}
