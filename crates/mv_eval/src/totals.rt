//! Evaluates aggregates.

ghost use Rattle.std.specs.Prelude.{◌≡◌, ◌≤ℤ◌, ◌+ℤ◌, ◌^◌, ◌-◌, neg_ℤ, pos, map, IfOk, if◌then◌else◌};
ghost use Rattle.std.specs.Option.{option_copied, option_map};
ghost use Rattle.mv_values.specs.Columns.{column_of};
ghost use Rattle.mv_eval.specs.Results.{Gives};
ghost use Rattle.mv_eval.specs.Rows.{column, sum_of, lesser, greater, least, greatest, total, aggregate};

use crate::env::column_value;
use crate::expr::number_at;
use crate::fixing::distinct_rows;
use crate::order::compare_by;
use crate::state::Stop;
use mv_catalog::resolved::{RAgg, RSort};
use mv_table::table::Stored;
use mv_values::calls::End;
use mv_values::memory::NoMemory;
use mv_values::value::Value;
use std::alloc::Global;

/// Returns the exact sum.
fn plus(sum: i128, n: i64) -> i128
    requires low { neg_ℤ (pos (2 ^ 127 - 2 ^ 64)) ≤ℤ sum }
    requires high { sum ≤ℤ pos (2 ^ 127 - 2 ^ 64) }
    ensures { result ≡ sum +ℤ n }
{
    sum + n as i128
}

/// Returns the exact sum of a column of the rows.
fn sum_in<R: Stored>(c: u16, rows: &[R]) -> i128
    ensures { result ≡ sum_of (column c (map R.keyed rows.now)) }
{
    let mut sum = 0_i128;
    for item in rows {
        sum = plus(sum, number_at(item.row().as_slice(), c));
    }
    sum
}

/// Returns a number as a total, and ends the call with `Overflow` if it doesn't fit in 64 bits.
fn total_from(n: i128) -> Result<Option<Value>, Stop>
    ensures { Gives result (total n) }
{
    if n < -9_223_372_036_854_775_808 || 9_223_372_036_854_775_807 < n {
        return Err(Stop::Ended(End::Overflow));
    }
    Ok(Some(Value::Int(n as i64)))
}

/// Borrows of two rows the one with the greater value in a column, or with the lesser. The second one is the best of
/// the rows after the first, if there is any.
fn better<'a, R: Stored>(highest: bool, c: u16, item: &'a R, best: Option<&'a R>) -> &'a R
    ensures { column_of (R.keyed result.now).row c ≡ (let other = option_map (λ i. column_of (R.keyed i).row c) (option_copied best.entry) in if highest then greater (column_of (R.keyed item.now).row c) other else lesser (column_of (R.keyed item.now).row c) other) }
{
    let Some(other) = best else {
        return item;
    };
    let sort = RSort {
        column: c,
        descending: false,
    };
    let order = compare_by(sort, item.row().as_slice(), other.row().as_slice());
    if order.is_le() == highest {
        other
    } else {
        item
    }
}

/// Borrows a row with the greatest value in a column, or with the least.
fn best_in<'a, R: Stored>(highest: bool, c: u16, rows: &'a [R]) -> Option<&'a R>
    ensures { option_map (λ i. column_of (R.keyed i).row c) (option_copied result) ≡ (if highest then greatest (column c (map R.keyed rows.now)) else least (column c (map R.keyed rows.now))) }
{
    let mut best: Option<&'a R> = None;
    let mut left = rows.len();
    while 0 < left {
        left -= 1;
        best = Some(better(highest, c, &rows[left], best));
    }
    best
}

/// Returns a copy of the value of a column, if there is a row.
pub fn value_in<R: Stored>(
    alloc: Global,
    c: u16,
    item: Option<&R>,
) -> Result<Option<Value>, NoMemory>
    ensures { IfOk result (λ v. v ≡ option_map (λ i. column_of (R.keyed i).row c) (option_copied item.entry)) }
{
    match item {
        None => Ok(None),
        Some(item) => Ok(Some(column_value(alloc, item.row().as_slice(), c)?)),
    }
}

/// Evaluates an aggregate over the rows. MIN and MAX of no rows return none. Ends the call with `Overflow` if the exact
/// sum doesn't fit in 64 bits, and fails with `Memory` if memory runs out. COUNT(*) takes constant time,
/// COUNT(DISTINCT) sorts the rows, and the others take linear time.
pub fn aggregate_of<R: Stored>(alloc: Global, agg: RAgg, rows: &[R]) -> Result<Option<Value>, Stop>
    ensures { Gives result (aggregate agg (map R.keyed rows.now)) }
{
    match agg {
        RAgg::CountAll => total_from(rows.len() as i128),
        RAgg::CountDistinct(c) => {
            let values = distinct_rows(alloc, &[c], rows)?;
            total_from(values.len() as i128)
        }
        RAgg::Sum(c) => total_from(sum_in(c, rows)),
        RAgg::Min(c) => Ok(value_in(alloc, c, best_in(false, c, rows))?),
        RAgg::Max(c) => Ok(value_in(alloc, c, best_in(true, c, rows))?),
    }
}
