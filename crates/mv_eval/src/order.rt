//! Puts rows in order.

ghost use Rattle.std.specs.Prelude.{◌≡◌, map, slice_get, IfOk, if◌then◌else◌};
ghost use Rattle.std.specs.Option.{option_copied, option_map};
ghost use Rattle.mv_values.specs.Keys.{IsRising};
ghost use Rattle.std.specs.Ordering.{ordering_reverse};
ghost use Rattle.mv_values.specs.Order.{value_order};
ghost use Rattle.mv_values.specs.Columns.{column_of};
ghost use Rattle.mv_eval.specs.Rows.{sort_order, ordered, item_at};

use crate::find::order_of;
use mv_catalog::resolved::RSort;
use mv_table::table::Stored;
use mv_values::memory::NoMemory;
use mv_values::value::Value;
use std::alloc::Global;
use std::cmp::Ordering;

/// Compares two rows by a column.
pub(crate) fn compare_by(sort: RSort, a: &[Value], b: &[Value]) -> Ordering
    ensures { result ≡ (let up = value_order (column_of a.now sort.column) (column_of b.now sort.column) in if sort.descending then ordering_reverse up else up) }
{
    let up = match b.get(sort.column as usize) {
        Some(v) => order_of(a, sort.column, v),
        None => order_of(a, sort.column, &Value::Int(0)),
    };
    if sort.descending { up.reverse() } else { up }
}

/// Compares two rows by ORDER BY, and rows that tie by key.
fn compare<R: Stored>(sorts: &[RSort], a: &R, b: &R) -> Ordering
    ensures { result ≡ sort_order sorts.now (R.keyed a.now) (R.keyed b.now) }
{
    for sort in sorts {
        let order = compare_by(*sort, a.row().as_slice(), b.row().as_slice());
        if order.is_ne() {
            return order;
        }
    }
    a.key().order(b.key())
}

/// Borrows each of the rows.
pub(crate) fn references<'a, R: Stored>(
    alloc: Global,
    rows: &'a [R],
) -> Result<Vec<&'a R>, NoMemory>
    ensures { IfOk result (λ v. map (λ r. R.keyed r.now) v.items ≡ map R.keyed rows.now) }
{
    let mut all = Vec::new(alloc);
    for row in rows {
        all.push(row)?;
    }
    Ok(all)
}

/// Borrows the rows in ORDER BY order.
fn sorted_in<'a, R: Stored>(
    alloc: Global,
    sorts: &[RSort],
    rows: &'a [R],
) -> Result<Vec<&'a R>, NoMemory>
    ensures { IfOk result (λ v. map (λ r. R.keyed r.now) v.items ≡ ordered sorts.now (map R.keyed rows.now)) }
{
    let mut all = references(alloc, rows)?;
    all.sort_by(
        |a: &&R, b: &&R| -> Ordering
            ensures { result ≡ sort_order sorts.entry.now (R.keyed a.now.now) (R.keyed b.now.now) }
        { compare(sorts, *a, *b) },
    )?;
    Ok(all)
}

/// Borrows rows that are in key order, in ORDER BY order.
pub(crate) fn ordered_in<'a, R: Stored>(
    alloc: Global,
    sorts: &[RSort],
    rows: &'a [R],
) -> Result<Vec<&'a R>, NoMemory>
    requires { IsRising (map R.keyed rows.now) }
    ensures { IfOk result (λ v. map (λ r. R.keyed r.now) v.items ≡ ordered sorts.now (map R.keyed rows.now)) }
{
    if sorts.is_empty() {
        references(alloc, rows)
    } else {
        sorted_in(alloc, sorts, rows)
    }
}

/// Borrows the row at an index in ORDER BY order, from rows that are in key order. Rows that tie are in key order.
/// Returns none if the index is negative or past the end. Without ORDER BY it takes constant time and no memory; else
/// it sorts the rows, and fails if memory runs out.
pub fn chosen_row<'a, R: Stored>(
    alloc: Global,
    sorts: &[RSort],
    rows: &'a [R],
    at: i64,
) -> Result<Option<&'a R>, NoMemory>
    requires { IsRising (map R.keyed rows.now) }
    ensures { IfOk result (λ r. option_map R.keyed (option_copied r) ≡ item_at (ordered sorts.now (map R.keyed rows.now)) at) }
{
    if at < 0 {
        return Ok(None);
    }
    if sorts.is_empty() {
        return Ok(row_at(rows, at as u64));
    }
    let found = sorted_in(alloc, sorts, rows)?;
    Ok(place_in(found.as_slice(), at as u64))
}

/// Borrows the row at an index.
fn row_at<'a, R: Stored>(rows: &'a [R], at: u64) -> Option<&'a R>
    ensures { option_map R.keyed (option_copied result) ≡ slice_get (map R.keyed rows.now) at }
{
    match rows.get(at as usize) {
        Some(row) => Some(row),
        None => None,
    }
}

/// Borrows the row at an index, from rows that are borrowed.
fn place_in<'a, R: Stored>(rows: &[&'a R], at: u64) -> Option<&'a R>
    ensures { option_map R.keyed (option_copied result) ≡ slice_get (map (λ r. R.keyed r.now) rows.now) at }
{
    match rows.get(at as usize) {
        Some(item) => Some(*item),
        None => None,
    }
}
