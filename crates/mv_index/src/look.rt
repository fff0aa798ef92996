//! Look-ups through keys.

ghost use Rattle.std.specs.Prelude.{◌≡◌, ◌++◌, true, All, length, IfOk, OnOk, OnSome};
ghost use Rattle.std.specs.Option.{is_some};
ghost use Rattle.mv_values.specs.Keys.{IsRising, IsBelow};
ghost use Rattle.mv_values.specs.Patching.{row_of, found_by, standing};
ghost use Rattle.mv_values.specs.Preds.{matches, matched};
ghost use Rattle.mv_values.specs.Tables.{rows_at};
ghost use Rattle.mv_table.specs.Entries.{KeysRise};
ghost use Rattle.mv_table.specs.declared.scan.Direction.{Direction as Way};
ghost use Rattle.mv_table.specs.Scans.{foremost};
ghost use Rattle.mv_record.specs.Admitting.{Admitted};
ghost use Rattle.mv_record.specs.Writes.{AreRising};
ghost use Rattle.mv_view.specs.Narrowing.{outside};
ghost use Rattle.mv_view.specs.Viewing.{with_row_call, answered, MayAnswer};
ghost use Rattle.mv_index.specs.Forms.{several};
ghost use Rattle.mv_index.specs.Indexing.{Covers, HaveKeys, IsOnlyKey};
ghost use Rattle.mv_index.specs.Asking.{AskedAtMost, PassesOn, LooksUp};

use crate::index::Index;
use crate::keys::{Keys, LentKeys, Several};
use mv_table::found::Found;
use mv_table::found_rows::FoundRows;
use mv_table::scan::Direction;
use mv_table::span::Span;
use mv_values::copied::Copied;
use mv_values::lent::Lent;
use mv_values::memory::NoMemory;
use mv_values::pred_ref::PredRef;
use mv_values::value::Key;
use mv_view::key_set::KeySet;
use mv_view::view::{Refused, View};
use std::alloc::Global;

/// Returns the row, if there is one and the predicate matches it.
fn only_match<'s>(pred: &PredRef<'_>, row: Option<Lent<'s>>) -> Option<Lent<'s>>
    ensures { result ≡ matched pred.now row.entry }
{
    match row {
        Some(row) if pred.matches(row.get()) => Some(row),
        _ => None,
    }
}

/// Returns the row under a key of the predicate's table. Asks the view for it.
fn row_of<'s, V: View<'s>>(
    alloc: Global,
    pred: &PredRef<'_>,
    key: &Key,
    view: &mut V,
) -> Result<Option<Lent<'s>>, Refused>
    ensures found { IfOk result (λ row. row ≡ row_of (rows_at (V.sight view.old).database pred.now.table) key.now) }
    ensures counts { V.sight view.new ≡ answered result (with_row_call (V.sight view.old)) }
    ensures stale { MayAnswer (V.sight view.old) (V.sight view.new) result }
{
    view.row(alloc, pred.table(), key)
}

/// Returns the row under a key, if the predicate matches it. Asks the view for the row.
pub(crate) fn match_at<'s, V: View<'s>>(
    alloc: Global,
    pred: &PredRef<'_>,
    key: &Key,
    view: &mut V,
) -> Result<Option<Lent<'s>>, Refused>
    ensures found { IfOk result (λ row. row ≡ matched pred.now (row_of (rows_at (V.sight view.old).database pred.now.table) key.now)) }
    ensures asked { AskedAtMost 0 1 (V.sight view.old) (V.sight view.new) }
    ensures passes_on { PassesOn (V.sight view.old) (V.sight view.new) result }
{
    let row = row_of(alloc, pred, key, view)?;
    Ok(only_match(pred, row))
}

/// Appends a row, if there is one, under a copy of its key. The key must then be greater than all others.
fn add_row<'s>(
    alloc: Global,
    rows: &mut FoundRows<'s>,
    key: &Key,
    row: Option<Lent<'s>>,
) -> Result<(), NoMemory>
    requires { OnSome row (All (IsBelow key.now) rows.old) }
    ensures { OnOk result (rows.new ≡ rows.old ++ standing key.now row.entry) }
{
    let Some(row) = row else {
        return Ok(());
    };
    let key = key.copy(alloc)?;
    rows.push(Found::under(key, row))
}

/// Returns the row under a key as the only row, if the predicate matches it.
fn rows_alone<'s, V: View<'s>>(
    alloc: Global,
    pred: &PredRef<'_>,
    key: &Key,
    view: &mut V,
) -> Result<FoundRows<'s>, Refused>
    requires rising { AreRising (V.sight view.old).database }
    requires only { IsOnlyKey pred.now key.now (rows_at (V.sight view.old).database pred.now.table) }
    ensures found { IfOk result (λ rows. rows ≡ found_by pred.now (V.sight view.old).database) }
    ensures asked { AskedAtMost 0 1 (V.sight view.old) (V.sight view.new) }
    ensures passes_on { PassesOn (V.sight view.old) (V.sight view.new) result }
{
    let row = match_at(alloc, pred, key, view)?;
    let mut rows = FoundRows::new(alloc);
    add_row(alloc, &mut rows, key, row)?;
    Ok(rows)
}

/// Returns the rows under these keys that the predicate matches. Asks the view for each row whose key is in the span
/// that the predicate's tests leave.
fn rows_among<'s, V: View<'s>>(
    alloc: Global,
    pred: &PredRef<'_>,
    keys: Several<'_>,
    view: &mut V,
) -> Result<FoundRows<'s>, Refused>
    requires rising { AreRising (V.sight view.old).database }
    requires admitted { Admitted pred.now (rows_at (V.sight view.old).database pred.now.table) }
    requires all { HaveKeys pred.now (several keys) (rows_at (V.sight view.old).database pred.now.table) }
    ensures found { IfOk result (λ rows. rows ≡ found_by pred.now (V.sight view.old).database) }
    ensures asked { AskedAtMost 0 (length (several keys.entry)) (V.sight view.old) (V.sight view.new) }
    ensures passes_on { PassesOn (V.sight view.old) (V.sight view.new) result }
{
    let span = Span::of(alloc, pred.tests())?;
    let mut rows = FoundRows::new(alloc);
    let mut left = keys.within(&span);
    while let Some(key) = left.take_next(Direction::Forward) {
        let row = match_at(alloc, pred, key, view)?;
        add_row(alloc, &mut rows, key, row)?;
    }
    Ok(rows)
}

/// Returns the rows under these keys that the predicate matches. Asks the view for the row of each key at most once.
fn rows_under<'s, V: View<'s>>(
    alloc: Global,
    pred: &PredRef<'_>,
    keys: &Keys,
    view: &mut V,
) -> Result<FoundRows<'s>, Refused>
    requires rising { AreRising (V.sight view.old).database }
    requires admitted { Admitted pred.now (rows_at (V.sight view.old).database pred.now.table) }
    requires all { HaveKeys pred.now keys.now (rows_at (V.sight view.old).database pred.now.table) }
    ensures found { IfOk result (λ rows. rows ≡ found_by pred.now (V.sight view.old).database) }
    ensures asked { AskedAtMost 0 (length keys.now) (V.sight view.old) (V.sight view.new) }
    ensures passes_on { PassesOn (V.sight view.old) (V.sight view.new) result }
{
    match keys.lend() {
        LentKeys::None => Ok(FoundRows::new(alloc)),
        LentKeys::One(key) => rows_alone(alloc, pred, key, view),
        LentKeys::Several(keys) => rows_among(alloc, pred, keys, view),
    }
}

/// Returns the row under a key, if the predicate matches it and the key isn't in `passed`.
fn foremost_alone<'s, V: View<'s>, K: KeySet>(
    alloc: Global,
    pred: &PredRef<'_>,
    key: &Key,
    passed: &K,
    view: &mut V,
) -> Result<Option<Found<'s>>, Refused>
    requires rising { AreRising (V.sight view.old).database }
    requires only { IsOnlyKey pred.now key.now (rows_at (V.sight view.old).database pred.now.table) }
    ensures found { IfOk result (λ row. (d : Way) → row ≡ foremost d (outside (K.has passed.now) (found_by pred.now (V.sight view.old).database))) }
    ensures asked { AskedAtMost 0 1 (V.sight view.old) (V.sight view.new) }
    ensures passes_on { PassesOn (V.sight view.old) (V.sight view.new) result }
{
    if passed.contains(key) {
        return Ok(None);
    }
    let row = match_at(alloc, pred, key, view)?;
    match row {
        Some(row) => {
            let key = key.copy(alloc)?;
            Ok(Some(Found::under(key, row)))
        }
        None => Ok(None),
    }
}

/// Returns the first row in this direction that stands under one of these keys, that the predicate matches, and whose key
/// isn't in `passed`. Of the keys in the span that the predicate's tests leave, it asks the view for the rows up to
/// that one.
fn foremost_among<'s, V: View<'s>, K: KeySet>(
    alloc: Global,
    pred: &PredRef<'_>,
    keys: Several<'_>,
    direction: Direction,
    passed: &K,
    view: &mut V,
) -> Result<Option<Found<'s>>, Refused>
    requires rising { AreRising (V.sight view.old).database }
    requires admitted { Admitted pred.now (rows_at (V.sight view.old).database pred.now.table) }
    requires all { HaveKeys pred.now (several keys) (rows_at (V.sight view.old).database pred.now.table) }
    ensures found { IfOk result (λ row. row ≡ foremost direction (outside (K.has passed.now) (found_by pred.now (V.sight view.old).database))) }
    ensures asked { AskedAtMost 0 (length (several keys.entry)) (V.sight view.old) (V.sight view.new) }
    ensures passes_on { PassesOn (V.sight view.old) (V.sight view.new) result }
{
    let span = Span::of(alloc, pred.tests())?;
    let mut left = keys.within(&span);
    while let Some(key) = left.take_next(direction) {
        if passed.contains(key) {
            continue;
        }
        if let Some(row) = match_at(alloc, pred, key, view)? {
            let key = key.copy(alloc)?;
            return Ok(Some(Found::under(key, row)));
        }
    }
    Ok(None)
}

/// Returns the first row in this direction that stands under one of these keys, that the predicate matches, and whose key
/// isn't in `passed`. Asks the view for the row of each key at most once.
fn foremost_under<'s, V: View<'s>, K: KeySet>(
    alloc: Global,
    pred: &PredRef<'_>,
    keys: &Keys,
    direction: Direction,
    passed: &K,
    view: &mut V,
) -> Result<Option<Found<'s>>, Refused>
    requires rising { AreRising (V.sight view.old).database }
    requires admitted { Admitted pred.now (rows_at (V.sight view.old).database pred.now.table) }
    requires all { HaveKeys pred.now keys.now (rows_at (V.sight view.old).database pred.now.table) }
    ensures found { IfOk result (λ row. row ≡ foremost direction (outside (K.has passed.now) (found_by pred.now (V.sight view.old).database))) }
    ensures asked { AskedAtMost 0 (length keys.now) (V.sight view.old) (V.sight view.new) }
    ensures passes_on { PassesOn (V.sight view.old) (V.sight view.new) result }
{
    match keys.lend() {
        LentKeys::None => Ok(None),
        LentKeys::One(key) => foremost_alone(alloc, pred, key, passed, view),
        LentKeys::Several(keys) => foremost_among(alloc, pred, keys, direction, passed, view),
    }
}

/// Returns the rows that the predicate matches.
pub(crate) fn find<'s, V: View<'s>>(
    alloc: Global,
    index: &Index,
    pred: &PredRef<'_>,
    view: &mut V,
) -> Result<FoundRows<'s>, Refused>
    requires covers { Covers index.now (V.sight view.old).database }
    requires rising { AreRising (V.sight view.old).database }
    requires admitted { Admitted pred.now (rows_at (V.sight view.old).database pred.now.table) }
    ensures found { IfOk result (λ rows. rows ≡ found_by pred.now (V.sight view.old).database) }
    ensures looks { LooksUp index.now pred.now (V.sight view.old) (V.sight view.new) result }
{
    if !index.has_had_row_of(pred) {
        return Ok(FoundRows::new(alloc));
    }
    if let Some(key) = index.whole_key(alloc, pred)? {
        return rows_alone(alloc, pred, &key, view);
    }
    match index.fewest(pred) {
        Some(keys) => rows_under(alloc, pred, keys, view),
        None => view.rows(alloc, pred),
    }
}

/// Returns the first row in this direction that the predicate matches and whose key isn't in `passed`.
pub(crate) fn find_foremost<'s, V: View<'s>, K: KeySet>(
    alloc: Global,
    index: &Index,
    pred: &PredRef<'_>,
    direction: Direction,
    passed: &K,
    view: &mut V,
) -> Result<Option<Found<'s>>, Refused>
    requires covers { Covers index.now (V.sight view.old).database }
    requires rising { AreRising (V.sight view.old).database }
    requires admitted { Admitted pred.now (rows_at (V.sight view.old).database pred.now.table) }
    ensures found { IfOk result (λ row. row ≡ foremost direction (outside (K.has passed.now) (found_by pred.now (V.sight view.old).database))) }
    ensures looks { LooksUp index.now pred.now (V.sight view.old) (V.sight view.new) result }
{
    if !index.has_had_row_of(pred) {
        return Ok(None);
    }
    if let Some(key) = index.whole_key(alloc, pred)? {
        return foremost_alone(alloc, pred, &key, passed, view);
    }
    match index.fewest(pred) {
        Some(keys) => foremost_under(alloc, pred, keys, direction, passed, view),
        None => view.foremost(alloc, pred, direction, passed),
    }
}
