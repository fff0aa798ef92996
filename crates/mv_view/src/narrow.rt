//! Finds the rows that a predicate matches.

ghost use Rattle.std.specs.Prelude.{◌≡◌, IfOk};
ghost use Rattle.std.specs.Option.{option_copied};
ghost use Rattle.mv_values.specs.Keys.{IsRising};
ghost use Rattle.mv_table.specs.Scans.{foremost};
ghost use Rattle.mv_record.specs.Admitting.{Admitted};
ghost use Rattle.mv_view.specs.Narrowing.{matching, outside};

use crate::key_set::KeySet;
use mv_table::scan::Direction;
use mv_table::span::Span;
use mv_values::copied::Copied;
use mv_values::memory::NoMemory;
use mv_values::pred_ref::PredRef;
use mv_values::rows::{Keyed, Rows};
use std::alloc::Global;

/// Returns copies of the rows that the predicate matches.
fn copy_matches(alloc: Global, pred: &PredRef<'_>, rows: &[Keyed]) -> Result<Rows, NoMemory>
    requires { IsRising rows.now }
    ensures { IfOk result (λ found. found ≡ matching pred.now rows.now) }
{
    let mut found = Rows::new(alloc);
    for item in rows {
        if pred.matches(&item.row) {
            found.push(item.copy(alloc)?)?;
        }
    }
    Ok(found)
}

/// Returns copies of the rows of a table that the predicate matches. Scans the rows in the span of keys that the
/// predicate's tests leave. Finding the span costs the logarithm of the number of rows.
pub(crate) fn find(alloc: Global, pred: &PredRef<'_>, rows: &[Keyed]) -> Result<Rows, NoMemory>
    requires rising { IsRising rows.now }
    requires admitted { Admitted pred.now rows.now }
    ensures { IfOk result (λ found. found ≡ matching pred.now rows.now) }
{
    let span = Span::of(alloc, pred.tests())?;
    copy_matches(alloc, pred, span.part(rows))
}

/// Borrows the first row in this direction that the predicate matches and whose key isn't in `passed`.
fn foremost_match<'a, K: KeySet>(
    pred: &PredRef<'_>,
    rows: &'a [Keyed],
    direction: Direction,
    passed: &K,
) -> Option<&'a Keyed>
    ensures { option_copied result ≡ foremost direction (outside (K.has passed.now) (matching pred.now rows.now)) }
{
    let mut left = rows;
    while let Some((item, others)) = direction.split(left) {
        if !passed.contains(&item.key) && pred.matches(&item.row) {
            return Some(item);
        }
        left = others;
    }
    None
}

/// Returns a copy of the first row of a table in this direction that the predicate matches and whose key isn't in
/// `passed`. Scans the rows in the span of keys that the predicate's tests leave, up to that row. Finding the span costs
/// the logarithm of the number of rows.
pub(crate) fn find_foremost<K: KeySet>(
    alloc: Global,
    pred: &PredRef<'_>,
    rows: &[Keyed],
    direction: Direction,
    passed: &K,
) -> Result<Option<Keyed>, NoMemory>
    requires rising { IsRising rows.now }
    requires admitted { Admitted pred.now rows.now }
    ensures { IfOk result (λ row. row ≡ foremost direction (outside (K.has passed.now) (matching pred.now rows.now))) }
{
    let span = Span::of(alloc, pred.tests())?;
    match foremost_match(pred, span.part(rows), direction, passed) {
        Some(item) => Ok(Some(item.copy(alloc)?)),
        None => Ok(None),
    }
}
