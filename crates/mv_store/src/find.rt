//! Finds rows as of a commit.

ghost use Rattle.std.specs.Prelude.{◌≡◌, ◌++◌, All, IfOk, OnOk, OnSome};
ghost use Rattle.mv_values.specs.Keys.{IsBelow, stored};
ghost use Rattle.mv_values.specs.Patching.{row_of};
ghost use Rattle.mv_values.specs.Preds.{matched};
ghost use Rattle.mv_table.specs.Entries.{alone_at, picked, KeysRise};
ghost use Rattle.mv_table.specs.Scans.{foremost};
ghost use Rattle.mv_table.specs.Spans.{CoversAdmitted, IsForward};
ghost use Rattle.mv_record.specs.Admitting.{Admitted};
ghost use Rattle.mv_chain.specs.Versions.{row_at};
ghost use Rattle.mv_view.specs.Narrowing.{matching, outside};
ghost use Rattle.mv_store.specs.Stored.{table_at};

use mv_chain::chain::Chain;
use mv_table::found::Found;
use mv_table::found_rows::FoundRows;
use mv_table::key_map::KeyMap;
use mv_table::scan::Direction;
use mv_table::span::Span;
use mv_values::lent::Lent;
use mv_values::memory::NoMemory;
use mv_values::pred_ref::PredRef;
use mv_values::value::Key;
use mv_view::key_set::KeySet;
use std::alloc::Global;
use std::collections::btree_map::Range;

/// Returns the rows of a table that the predicate matches after commit n. It visits only the keys in the span
/// of the tests, and finds the first one in time logarithmic in the number of rows.
pub(crate) fn find<'a>(
    alloc: Global,
    table: &'a KeyMap<Chain>,
    n: u32,
    pred: &PredRef<'_>,
) -> Result<FoundRows<'a>, NoMemory>
    requires { Admitted pred.now (table_at n table.now) }
    ensures { IfOk result (λ rows. rows ≡ matching pred.now (table_at n table.now)) }
{
    let span = Span::of(alloc, pred.tests())?;
    find_within(alloc, table, &span, n, pred)
}

/// Returns the rows that the predicate matches, given the span of its tests.
fn find_within<'a>(
    alloc: Global,
    table: &'a KeyMap<Chain>,
    span: &Span,
    n: u32,
    pred: &PredRef<'_>,
) -> Result<FoundRows<'a>, NoMemory>
    requires forward { IsForward span.now }
    requires covers { CoversAdmitted pred.now.tests span.now }
    requires admitted { Admitted pred.now (table_at n table.now) }
    ensures { IfOk result (λ rows. rows ≡ matching pred.now (table_at n table.now)) }
{
    let mut rows = FoundRows::new(alloc);
    for (key, chain) in table.range(span) {
        let row = chain.found_at(alloc, n, pred)?;
        add_row(&mut rows, key, row)?;
    }
    Ok(rows)
}

/// Appends a row, if there is one, under its key. The key must then be greater than all others.
fn add_row<'a>(
    rows: &mut FoundRows<'a>,
    key: &'a Key,
    row: Option<Lent<'a>>,
) -> Result<(), NoMemory>
    requires { OnSome row (All (IsBelow key.now) rows.old) }
    ensures { OnOk result (rows.new ≡ rows.old ++ stored (alone_at key.now row.entry)) }
{
    let Some(row) = row else {
        return Ok(());
    };
    rows.push(Found::lent(key, row))
}

/// Returns the first row in this direction that the predicate matches after commit n and whose key isn't in
/// `passed`. Of the keys in the span of the tests it visits those up to that row, and it finds the first of them in time
/// logarithmic in the number of rows.
pub(crate) fn find_foremost<'a, K: KeySet>(
    alloc: Global,
    table: &'a KeyMap<Chain>,
    n: u32,
    pred: &PredRef<'_>,
    direction: Direction,
    passed: &K,
) -> Result<Option<Found<'a>>, NoMemory>
    requires { Admitted pred.now (table_at n table.now) }
    ensures { IfOk result (λ row. row ≡ foremost direction (outside (K.has passed.now) (matching pred.now (table_at n table.now)))) }
{
    let span = Span::of(alloc, pred.tests())?;
    foremost_match(alloc, table.range(&span), n, pred, direction, passed)
}

/// Returns the first row in this direction that the predicate matches after commit n and whose key isn't in
/// `passed`, of rows in their versions. It looks at no row whose key is in `passed`.
fn foremost_match<'a, K: KeySet>(
    alloc: Global,
    entries: Range<'a, Key, Chain>,
    n: u32,
    pred: &PredRef<'_>,
    direction: Direction,
    passed: &K,
) -> Result<Option<Found<'a>>, NoMemory>
    ensures { IfOk result (λ row. row ≡ foremost direction (outside (K.has passed.now) (stored (picked (λ v. matched pred.now (row_at v n)) entries.entry)))) }
{
    let mut left = entries;
    while let Some((key, chain)) = direction.take_next(&mut left) {
        if passed.contains(key) {
            continue;
        }
        if let Some(row) = chain.found_at(alloc, n, pred)? {
            return Ok(Some(Found::lent(key, row)));
        }
    }
    Ok(None)
}

/// Returns the row under the key after commit n, if there is one and the predicate matches it. Takes time
/// logarithmic in the number of rows, and the time of the chain's look-up.
pub(crate) fn find_match<'a>(
    alloc: Global,
    table: &'a KeyMap<Chain>,
    n: u32,
    pred: &PredRef<'_>,
    key: &Key,
) -> Result<Option<Lent<'a>>, NoMemory>
    requires { KeysRise table.now }
    ensures { IfOk result (λ row. row ≡ matched pred.now (row_of (table_at n table.now) key.now)) }
{
    let Some(chain) = table.get(key) else {
        return Ok(None);
    };
    chain.found_at(alloc, n, pred)
}

/// Returns the row under the key after commit n, if there is one. Takes time logarithmic in the number of
/// rows, and the time of the chain's look-up.
pub(crate) fn find_row<'a>(
    alloc: Global,
    table: &'a KeyMap<Chain>,
    n: u32,
    key: &Key,
) -> Result<Option<Lent<'a>>, NoMemory>
    requires { KeysRise table.now }
    ensures { IfOk result (λ row. row ≡ row_of (table_at n table.now) key.now) }
{
    match table.get(key) {
        Some(chain) => chain.row_at(alloc, n),
        None => Ok(None),
    }
}
