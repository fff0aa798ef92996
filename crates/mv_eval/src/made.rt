//! Makes the rows of UPDATE and INSERT.

ghost use Rattle.std.specs.Prelude.{◌≡◌, IfOk, ◌==◌};
ghost use Rattle.std.specs.List.{list_any};
ghost use Rattle.mv_eval.specs.Results.{Gives};
ghost use Rattle.mv_eval.specs.Rows.{fits_kind, fit_kind, fit};
ghost use Rattle.mv_eval.specs.Changes.{with_column, set_row, new_row, keyed};

use crate::expr::value;
use crate::state::{Env, Stop};
use mv_catalog::resolved::{RExpr, RSetItem};
use mv_values::calls::End;
use mv_values::copied::Copied;
use mv_values::key::key_of;
use mv_values::list::List;
use mv_values::memory::NoMemory;
use mv_values::rows::Keyed;
use mv_values::schema::{ColType, Column};
use mv_values::value::{Row, Value};
use std::alloc::Global;

/// Returns the value if a column of this type can hold it, and ends the call with `TooLong` otherwise.
fn fit_to(kind: ColType, v: Value) -> Result<Value, Stop>
    ensures { Gives result (fit_kind kind v) }
{
    if is_fit(kind, &v) {
        Ok(v)
    } else {
        Err(Stop::Ended(End::TooLong))
    }
}

fn is_fit(kind: ColType, v: &Value) -> bool
    ensures { result ≡ fits_kind kind v.now }
{
    match (kind, v) {
        (ColType::Text(most), Value::Text(t)) => t.len() <= most as usize,
        _ => true,
    }
}

/// Returns the value if the column can hold it, and ends the call with `TooLong` otherwise.
pub fn fit_at(columns: &[Column], c: u16, v: Value) -> Result<Value, Stop>
    ensures { Gives result (fit columns.now c v) }
{
    match columns.get(c as usize) {
        Some(column) => fit_to(column.kind, v),
        None => Ok(v),
    }
}

/// Whether the column is a key column.
fn has_key(keys: &[u8], c: u16) -> bool
    ensures { result ≡ list_any (λ k. k == c) keys.now }
{
    keys.iter().any(|k| *k as u16 == c)
}

/// Sets a column, but never a key column.
pub fn set_column(keys: &[u8], row: &mut Row, c: u16, v: Value)
    ensures { row.new ≡ with_column keys.now c v row.old }
{
    if !has_key(keys, c) && (c as usize) < row.len() {
        row.set(c as usize, v);
    }
}

/// Returns the row after the items of SET. All right sides see the row as it was, and key columns don't change. Ends
/// the call with the first fault of a right side, or with `TooLong` if a text doesn't fit its column. Fails with
/// `Memory` if memory runs out.
pub fn row_after_set(
    alloc: Global,
    columns: &[Column],
    keys: &[u8],
    env: &Env,
    row: &Row,
    items: &[RSetItem],
) -> Result<Row, Stop>
    ensures { Gives result (set_row columns.now keys.now env.now row.now items.now row.now) }
{
    let mut new = row.copy(alloc)?;
    for item in items {
        let v = value(alloc, &item.right, env, row.as_slice())?;
        let v = fit_at(columns, item.column, v)?;
        set_column(keys, &mut new, item.column, v);
    }
    Ok(new)
}

/// Returns the row that INSERT makes, with a value for each column in order. Ends the call with the first fault of an
/// expression, or with `TooLong` if a text doesn't fit its column. Fails with `Memory` if memory runs out.
pub fn made_row(alloc: Global, columns: &[Column], exprs: &[RExpr], env: &Env) -> Result<Row, Stop>
    ensures { Gives result (new_row columns.now exprs.now env.now) }
{
    let mut row = List::with_room(alloc, columns.len())?;
    for (i, column) in columns.iter().enumerate() {
        let Some(expr) = exprs.get(i) else {
            return Ok(row);
        };
        let v = value(alloc, expr, env, &[])?;
        row.push(fit_to(column.kind, v)?)?;
    }
    Ok(row)
}

/// Returns the row with its key, which is a copy of its key columns. Fails if memory runs out.
pub fn under_key(alloc: Global, keys: &[u8], row: Row) -> Result<Keyed, NoMemory>
    ensures { IfOk result (λ item. item ≡ keyed keys.now row) }
{
    let key = key_of(alloc, row.as_slice(), keys)?;
    Ok(Keyed { key, row })
}
