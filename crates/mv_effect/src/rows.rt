//! The rows that a statement sees: those of a view, after the call's own writes.

ghost use Rattle.std.specs.Prelude.{◌≡◌, ◌<◌, true, false, IfOk, IfSome, OnOk, length, option_to_list, List};
ghost use Rattle.mv_values.specs.declared.rows.Keyed.{Keyed};
ghost use Rattle.mv_values.specs.declared.value.Value.{Value};
ghost use Rattle.std.specs.Option.{option_copied};
ghost use Rattle.mv_values.specs.Patching.{row_of, placed, standing, applied, found_by};
ghost use Rattle.mv_values.specs.Preds.{matched};
ghost use Rattle.mv_values.specs.Tables.{rows_at, key_columns};
ghost use Rattle.mv_table.specs.Scans.{foremost};
ghost use Rattle.mv_table.specs.Spans.{AdmitsOnly};
ghost use Rattle.mv_eval.specs.Rows.{is_some_row};
ghost use Rattle.mv_record.specs.Admitting.{Admitted};
ghost use Rattle.mv_record.specs.Writes.{writes_on, AreRising};
ghost use Rattle.mv_undo.specs.Overlaying.{IsSeen};
ghost use Rattle.mv_undo.specs.Owning.{earlier, is_among, is_fixed, is_sought, touches, AreSought};
ghost use Rattle.mv_view.specs.Viewing.{MayAnswer, answered, with_row_call};
ghost use Rattle.mv_effect.specs.Asking.{asked, AsksOne};
ghost use Rattle.mv_effect.specs.Looking.{different, AreSoundTables, OnlyAsks, AskedAtMost};
ghost use Rattle.mv_effect.specs.Seeing.{own_seen};
ghost use Rattle.mv_effect.specs.Firsts.{is_met_before, IsFirstOf};
ghost use Rattle.mv_recorded.specs.Asking.{KnowsKey};

use crate::asking::asked_pred;
use crate::context::Context;
use mv_eval::find::key_in;
use mv_log::log::Log;
use mv_record::applying::put_row;
use mv_table::found::Found;
use mv_table::found_rows::FoundRows;
use mv_table::scan::Direction;
use mv_table::span::whole_key;
use mv_table::table::Stored;
use mv_undo::undo::Undo;
use mv_values::copied::Copied;
use mv_values::lent::{self, Lent};
use mv_values::list::List;
use mv_values::memory::NoMemory;
use mv_values::pred_ref::PredRef;
use mv_values::rows::Rows;
use mv_values::schema::TableInfo;
use mv_values::value::{Key, Row};
use mv_view::key_set::KeySet;
use mv_view::view::{Refused, View};
use std::alloc::Global;

/// Puts a row that was found under a key, or none.
fn put_found(
    alloc: Global,
    rows: &mut Rows,
    key: &Key,
    row: Option<Lent<'_>>,
) -> Result<(), NoMemory>
    ensures { OnOk result (rows.new ≡ placed key.now row.entry rows.old) }
{
    let row = lent::own(alloc, row)?;
    put_row(alloc, rows, key, row)
}

/// Adds the view's row under a key of a table to other rows. Asks the view for it once.
fn add_row<'s, V: View<'s>>(
    alloc: Global,
    table: u8,
    key: &Key,
    own: &mut Rows,
    view: &mut V,
) -> Result<(), Refused>
    ensures found { OnOk result (own.new ≡ placed key.now (row_of (rows_at (V.sight view.old).database table) key.now) own.old) }
    ensures counts { V.sight view.new ≡ answered result (with_row_call (V.sight view.old)) }
    ensures stale { MayAnswer (V.sight view.old) (V.sight view.new) result }
{
    let row = view.row(alloc, table, key)?;
    put_found(alloc, own, key, row)?;
    Ok(())
}

/// Returns the view's rows under those of these keys of a table whose rows the own writes of records with smaller numbers
/// don't fix. Asks the view once for each of them.
fn rows_under<'s, V: View<'s>>(
    alloc: Global,
    undo: &Undo<'_>,
    number: usize,
    table: u8,
    keys: &[Key],
    view: &mut V,
) -> Result<Rows, Refused>
    ensures found { IfOk result (λ own. (key : List Value) → is_among keys.now key ≡ true → is_fixed (writes_on table key (earlier number undo.now)) ≡ false → row_of own key ≡ row_of (rows_at (V.sight view.old).database table) key) }
    ensures view { OnlyAsks (V.sight view.old) (V.sight view.new) result }
    ensures looks { AskedAtMost 0 (length keys.now) (V.sight view.old) (V.sight view.new) }
{
    let mut own = Rows::new(alloc);
    for key in keys {
        if undo.fixes(number, table, key) {
            continue;
        }
        add_row(alloc, table, key, &mut own, view)?;
    }
    Ok(own)
}

/// Returns the keys that records with smaller numbers wrote and the predicate admits, each once, in order.
#[tactic(auto, using(crate::proofs::Unwritten::nothing_sought))]
fn written_keys(
    alloc: Global,
    pred: &PredRef<'_>,
    undo: &Undo<'_>,
    number: usize,
) -> Result<List<Key>, NoMemory>
    ensures { IfOk result (λ keys. AreSought pred.now (earlier number undo.now) keys) }
{
    if undo.is_empty() {
        return Ok(List::new(alloc));
    }
    undo.keys(alloc, number, pred)
}

/// Returns the rows that `Undo::overlay` makes of rows that were found.
fn overlaid<'s>(
    alloc: Global,
    pred: &PredRef<'_>,
    undo: &Undo<'_>,
    number: usize,
    keys: &[Key],
    rows: FoundRows<'s>,
    own: Rows,
) -> Result<FoundRows<'s>, NoMemory>
    requires { AreSought pred.now (earlier number undo.now) keys.now }
    ensures { IfOk result (λ after. (db : List (List Keyed)) → IsSeen pred.now (earlier number undo.now) rows.entry own db → after ≡ found_by pred.now (applied (earlier number undo.now) db)) }
{
    let rows = rows.into_rows(alloc)?;
    let after = undo.overlay(alloc, number, pred, keys, rows, own)?;
    FoundRows::made(alloc, after)
}

/// Returns the predicate's rows after the own writes of records with smaller numbers, in key order. Asks the view once
/// for its rows, and once for each key that these records wrote and the predicate admits, where they don't fix its row.
fn look<'s, V: View<'s>>(
    alloc: Global,
    pred: &PredRef<'_>,
    undo: &Undo<'_>,
    number: usize,
    view: &mut V,
) -> Result<FoundRows<'s>, Refused>
    requires rising { AreRising (V.sight view.old).database }
    requires table { pred.now.table < length (V.sight view.old).database }
    requires before { Admitted pred.now (rows_at (V.sight view.old).database pred.now.table) }
    requires behind { Admitted pred.now (rows_at (applied (earlier number undo.now) (V.sight view.old).database) pred.now.table) }
    ensures found { IfOk result (λ rows. rows ≡ found_by pred.now (applied (earlier number undo.now) (V.sight view.old).database)) }
    ensures view { OnlyAsks (V.sight view.old) (V.sight view.new) result }
    ensures looks { AskedAtMost 1 (different (earlier number undo.now)) (V.sight view.old) (V.sight view.new) }
{
    let rows = view.rows(alloc, pred)?;
    let keys = written_keys(alloc, pred, undo, number)?;
    if keys.as_slice().is_empty() {
        return Ok(rows);
    }
    let keys = keys.as_slice();
    let own = rows_under(alloc, undo, number, pred.table(), keys, view)?;
    let rows = overlaid(alloc, pred, undo, number, keys, rows, own)?;
    Ok(rows)
}

/// The keys of a table that the own writes of records with smaller numbers are on.
#[derive(Drop)]
struct OwnKeys<'a> {
    undo: &'a Undo<'a>,
    number: usize,
    table: u8,
}

impl<'a> KeySet for OwnKeys<'a> {
    ghost has = { λ o key. touches o.table key (earlier o.number o.undo.now) };

    fn contains(&self, key: &Key) -> bool {
        self.undo.touched(self.number, self.table, key)
    }
}

/// Whether a scan in this direction meets the key before the row, if there is one.
fn is_met_before(direction: Direction, key: &Key, other: Option<&Found<'_>>) -> bool
    ensures { result ≡ is_met_before direction key.now (option_copied other.entry) }
{
    let Some(item) = other else {
        return true;
    };
    match direction {
        Direction::Forward => key.order(item.key()).is_lt(),
        Direction::Backward => item.key().order(key).is_lt(),
    }
}

/// Returns the row if the predicate matches it.
fn matched(pred: &PredRef<'_>, row: Option<Row>) -> Option<Row>
    ensures { result ≡ matched pred.now row }
{
    match row {
        Some(row) if pred.matches(&row) => Some(row),
        _ => None,
    }
}

/// Returns the view's row under a key of a table, or `None` where the own writes of records with smaller numbers fix the
/// row. Then it doesn't ask the view, else once.
fn row_before<'s, V: View<'s>>(
    alloc: Global,
    undo: &Undo<'_>,
    number: usize,
    table: u8,
    key: &Key,
    view: &mut V,
) -> Result<Option<Lent<'s>>, Refused>
    ensures found { IfOk result (λ row. is_fixed (writes_on table key.now (earlier number undo.now)) ≡ false → row ≡ row_of (rows_at (V.sight view.old).database table) key.now) }
    ensures view { OnlyAsks (V.sight view.old) (V.sight view.new) result }
    ensures looks { AskedAtMost 0 1 (V.sight view.old) (V.sight view.new) }
{
    if undo.fixes(number, table, key) {
        return Ok(None);
    }
    let was = view.row(alloc, table, key)?;
    Ok(was)
}

/// Borrows a row, if there is one.
fn borrowed<'a>(row: &'a Option<Lent<'_>>) -> Option<&'a Row>
    ensures { option_copied result ≡ row.now }
{
    match row {
        Some(row) => Some(row.get()),
        None => None,
    }
}

/// Returns the row under a key after the own writes of records with smaller numbers, if the predicate matches it. Asks
/// the view for the row before them, where they don't fix the row.
fn own_row<'s, V: View<'s>>(
    alloc: Global,
    pred: &PredRef<'_>,
    undo: &Undo<'_>,
    number: usize,
    key: &Key,
    view: &mut V,
) -> Result<Option<Lent<'s>>, Refused>
    requires rising { AreRising (V.sight view.old).database }
    requires table { pred.now.table < length (V.sight view.old).database }
    ensures found { IfOk result (λ row. row ≡ row_of (found_by pred.now (applied (earlier number undo.now) (V.sight view.old).database)) key.now) }
    ensures view { OnlyAsks (V.sight view.old) (V.sight view.new) result }
    ensures looks { AskedAtMost 0 1 (V.sight view.old) (V.sight view.new) }
{
    let table = pred.table();
    let was = row_before(alloc, undo, number, table, key, view)?;
    let row = undo.row_behind(alloc, number, table, key, borrowed(&was))?;
    Ok(lent::made(matched(pred, row)))
}

/// Returns the first row in this direction, of those that the predicate matches after the own writes of records with
/// smaller numbers and whose keys these writes are on, if a scan meets it before another row. Asks the view for the row
/// under each such key that the scan meets until then, where these writes don't fix the row.
fn first_own<'s, V: View<'s>>(
    alloc: Global,
    pred: &PredRef<'_>,
    undo: &Undo<'_>,
    number: usize,
    direction: Direction,
    other: Option<&Found<'s>>,
    view: &mut V,
) -> Result<Option<Found<'s>>, Refused>
    requires rising { AreRising (V.sight view.old).database }
    requires table { pred.now.table < length (V.sight view.old).database }
    ensures found { IfOk result (IsFirstOf direction (is_sought pred.now (earlier number undo.now)) (found_by pred.now (applied (earlier number undo.now) (V.sight view.old).database)) (option_copied other.entry)) }
    ensures view { OnlyAsks (V.sight view.old) (V.sight view.new) result }
    ensures looks { AskedAtMost 0 (different (earlier number undo.now)) (V.sight view.old) (V.sight view.new) }
{
    if undo.is_empty() {
        return Ok(None);
    }
    let mut keys = undo.sought_keys(alloc, number, pred)?;
    while let Some(key) = keys.take_next(direction) {
        if !is_met_before(direction, key, other) {
            return Ok(None);
        }
        if let Some(row) = own_row(alloc, pred, undo, number, key, view)? {
            let key = key.copy(alloc)?;
            return Ok(Some(Found::under(key, row)));
        }
    }
    Ok(None)
}

/// Returns the first row in this direction of those that the predicate matches after the own writes of records with
/// smaller numbers. Asks the view once for its first row under a key that these writes aren't on, and then for the row
/// under each of their keys that a scan meets before that one, until it has met a row. It doesn't ask for a row that
/// these writes fix.
fn first_after<'s, V: View<'s>>(
    alloc: Global,
    pred: &PredRef<'_>,
    undo: &Undo<'_>,
    number: usize,
    direction: Direction,
    view: &mut V,
) -> Result<Option<Found<'s>>, Refused>
    requires rising { AreRising (V.sight view.old).database }
    requires table { pred.now.table < length (V.sight view.old).database }
    requires before { Admitted pred.now (rows_at (V.sight view.old).database pred.now.table) }
    requires behind { Admitted pred.now (rows_at (applied (earlier number undo.now) (V.sight view.old).database) pred.now.table) }
    ensures found { IfOk result (λ row. row ≡ foremost direction (found_by pred.now (applied (earlier number undo.now) (V.sight view.old).database))) }
    ensures view { OnlyAsks (V.sight view.old) (V.sight view.new) result }
    ensures looks { AskedAtMost 1 (different (earlier number undo.now)) (V.sight view.old) (V.sight view.new) }
{
    let table = pred.table();
    let own_keys = OwnKeys {
        undo,
        number,
        table,
    };
    let other = view.foremost(alloc, pred, direction, &own_keys)?;
    let own = first_own(alloc, pred, undo, number, direction, other.as_ref(), view)?;
    Ok(own.or(other))
}

/// Returns the key that the predicate's tests give whole, if they do: rows that it matches stand under no other one.
fn only_key(
    alloc: Global,
    tables: &[TableInfo],
    pred: &PredRef<'_>,
) -> Result<Option<Key>, NoMemory>
    ensures { IfOk result (λ key. IfSome key (AdmitsOnly pred.now.tests (length (key_columns tables.now pred.now.table)))) }
{
    let keys = key_in(tables, pred.table() as u16);
    whole_key(alloc, pred.tests(), keys.len())
}

/// Returns the row under a key after the own writes of records with smaller numbers, if the predicate matches it. Asks
/// the view once: for the row if it matches, or for the row before these writes where they are on the key. It doesn't
/// ask for a row that they fix.
fn row_under<'s, V: View<'s>>(
    alloc: Global,
    pred: &PredRef<'_>,
    undo: &Undo<'_>,
    number: usize,
    key: &Key,
    view: &mut V,
) -> Result<Option<Lent<'s>>, Refused>
    requires rising { AreRising (V.sight view.old).database }
    requires table { pred.now.table < length (V.sight view.old).database }
    ensures found { IfOk result (λ row. row ≡ row_of (found_by pred.now (applied (earlier number undo.now) (V.sight view.old).database)) key.now) }
    ensures view { OnlyAsks (V.sight view.old) (V.sight view.new) result }
    ensures looks { AskedAtMost 1 (different (earlier number undo.now)) (V.sight view.old) (V.sight view.new) }
{
    if undo.touched(number, pred.table(), key) {
        return own_row(alloc, pred, undo, number, key, view);
    }
    let row = view.match_under(alloc, pred, key)?;
    Ok(row)
}

/// Returns the row with its key, if there is one.
fn keyed<'s>(key: Key, row: Option<Lent<'s>>) -> Option<Found<'s>>
    ensures { option_to_list result ≡ standing key row.entry }
{
    match row {
        Some(row) => Some(Found::under(key, row)),
        None => None,
    }
}

/// Returns the only row that the predicate matches after the own writes that the statement sees, if there is one. Its
/// tests admit no other key.
fn only_row<'s, V: View<'s>>(
    alloc: Global,
    context: &Context<'_>,
    undo: &Undo<'_>,
    pred: &PredRef<'_>,
    key: Key,
    view: &mut V,
) -> Result<Option<Found<'s>>, Refused>
    requires stands { AreSoundTables context.now.tables.now (earlier context.now.number undo.now) (V.sight view.old).database }
    requires knows { KnowsKey context.now.tables.now pred.now }
    requires only { AdmitsOnly pred.now.tests (length (key_columns context.now.tables.now pred.now.table)) key }
    ensures found { IfOk result (λ row. option_to_list row ≡ found_by pred.now (applied (earlier context.now.number undo.now) (V.sight view.old).database)) }
    ensures view { OnlyAsks (V.sight view.old) (V.sight view.new) result }
    ensures looks { AskedAtMost 1 (different (earlier context.now.number undo.now)) (V.sight view.old) (V.sight view.new) }
{
    let row = row_under(alloc, pred, undo, context.number, &key, view)?;
    Ok(keyed(key, row))
}

/// Returns the rows that the predicate matches after the own writes that the statement sees. Its tests admit no other key
/// than this one.
fn only_rows<'s, V: View<'s>>(
    alloc: Global,
    context: &Context<'_>,
    undo: &Undo<'_>,
    pred: &PredRef<'_>,
    key: Key,
    view: &mut V,
) -> Result<FoundRows<'s>, Refused>
    requires stands { AreSoundTables context.now.tables.now (earlier context.now.number undo.now) (V.sight view.old).database }
    requires knows { KnowsKey context.now.tables.now pred.now }
    requires only { AdmitsOnly pred.now.tests (length (key_columns context.now.tables.now pred.now.table)) key }
    ensures found { IfOk result (λ rows. rows ≡ found_by pred.now (applied (earlier context.now.number undo.now) (V.sight view.old).database)) }
    ensures view { OnlyAsks (V.sight view.old) (V.sight view.new) result }
    ensures looks { AskedAtMost 1 (different (earlier context.now.number undo.now)) (V.sight view.old) (V.sight view.new) }
{
    let item = only_row(alloc, context, undo, pred, key, view)?;
    Ok(FoundRows::one(alloc, item))
}

/// Returns the predicate's rows after these own writes, so far as the statement sees them, as `visible_rows` does.
fn rows_with<'s, V: View<'s>>(
    alloc: Global,
    context: &Context<'_>,
    undo: &Undo<'_>,
    pred: &PredRef<'_>,
    view: &mut V,
) -> Result<FoundRows<'s>, Refused>
    requires stands { AreSoundTables context.now.tables.now (earlier context.now.number undo.now) (V.sight view.old).database }
    requires knows { KnowsKey context.now.tables.now pred.now }
    ensures found { IfOk result (λ rows. rows ≡ found_by pred.now (applied (earlier context.now.number undo.now) (V.sight view.old).database)) }
    ensures view { OnlyAsks (V.sight view.old) (V.sight view.new) result }
    ensures looks { AskedAtMost 1 (different (earlier context.now.number undo.now)) (V.sight view.old) (V.sight view.new) }
{
    match only_key(alloc, context.tables, pred)? {
        Some(key) => only_rows(alloc, context, undo, pred, key, view),
        None => look(alloc, pred, undo, context.number, view),
    }
}

/// Returns the first row of those that `rows_with` returns, as `first_visible` does.
fn first_with<'s, V: View<'s>>(
    alloc: Global,
    context: &Context<'_>,
    undo: &Undo<'_>,
    pred: &PredRef<'_>,
    direction: Direction,
    view: &mut V,
) -> Result<Option<Found<'s>>, Refused>
    requires stands { AreSoundTables context.now.tables.now (earlier context.now.number undo.now) (V.sight view.old).database }
    requires knows { KnowsKey context.now.tables.now pred.now }
    ensures found { IfOk result (λ row. row ≡ foremost direction (found_by pred.now (applied (earlier context.now.number undo.now) (V.sight view.old).database))) }
    ensures view { OnlyAsks (V.sight view.old) (V.sight view.new) result }
    ensures looks { AskedAtMost 1 (different (earlier context.now.number undo.now)) (V.sight view.old) (V.sight view.new) }
{
    match only_key(alloc, context.tables, pred)? {
        Some(key) => only_row(alloc, context, undo, pred, key, view),
        None => first_after(alloc, pred, undo, context.number, direction, view),
    }
}

/// Returns the predicate's rows after the call's own writes that the statement sees, in key order. Asks the view once
/// for its rows, and once for each key that these writes are on and the predicate admits, where they don't fix its row.
/// Where the predicate's tests give the key whole, it asks for the row under that key alone.
pub(crate) fn visible_rows<'s, V: View<'s>>(
    alloc: Global,
    context: &Context<'_>,
    log: &Log,
    pred: &PredRef<'_>,
    view: &mut V,
) -> Result<FoundRows<'s>, Refused>
    requires stands { AreSoundTables context.now.tables.now (own_seen context.now log.now) (V.sight view.old).database }
    requires knows { KnowsKey context.now.tables.now pred.now }
    ensures found { IfOk result (λ rows. rows ≡ found_by pred.now (applied (own_seen context.now log.now) (V.sight view.old).database)) }
    ensures view { OnlyAsks (V.sight view.old) (V.sight view.new) result }
    ensures looks { AskedAtMost 1 (different (own_seen context.now log.now)) (V.sight view.old) (V.sight view.new) }
{
    rows_with(alloc, context, &log.undo(), pred, view)
}

/// Returns the first row in this direction of those that `visible_rows` returns. Asks the view once for its first row
/// under a key that the call's own writes aren't on. Then it asks for the row under each of their keys that a scan meets
/// before that one, until it has met a row. It doesn't ask for a row that these writes fix. Where the predicate's tests
/// give the key whole, it asks for the row under that key alone.
pub(crate) fn first_visible<'s, V: View<'s>>(
    alloc: Global,
    context: &Context<'_>,
    log: &Log,
    pred: &PredRef<'_>,
    direction: Direction,
    view: &mut V,
) -> Result<Option<Found<'s>>, Refused>
    requires stands { AreSoundTables context.now.tables.now (own_seen context.now log.now) (V.sight view.old).database }
    requires knows { KnowsKey context.now.tables.now pred.now }
    ensures found { IfOk result (λ row. row ≡ foremost direction (found_by pred.now (applied (own_seen context.now log.now) (V.sight view.old).database))) }
    ensures view { OnlyAsks (V.sight view.old) (V.sight view.new) result }
    ensures looks { AskedAtMost 1 (different (own_seen context.now log.now)) (V.sight view.old) (V.sight view.new) }
{
    first_with(alloc, context, &log.undo(), pred, direction, view)
}

/// Returns the rows that `visible_rows` returns for what the open effect asks.
pub(crate) fn rows_asked<'s, V: View<'s>>(
    alloc: Global,
    context: &Context<'_>,
    log: &Log,
    view: &mut V,
) -> Result<FoundRows<'s>, Refused>
    requires one { AsksOne log.now }
    requires stands { AreSoundTables context.now.tables.now (own_seen context.now log.now) (V.sight view.old).database }
    requires knows { KnowsKey context.now.tables.now (asked log.now) }
    ensures found { IfOk result (λ rows. rows ≡ found_by (asked log.now) (applied (own_seen context.now log.now) (V.sight view.old).database)) }
    ensures view { OnlyAsks (V.sight view.old) (V.sight view.new) result }
    ensures looks { AskedAtMost 1 (different (own_seen context.now log.now)) (V.sight view.old) (V.sight view.new) }
{
    visible_rows(alloc, context, log, &asked_pred(log), view)
}

/// Returns the row that `first_visible` returns for what the open effect asks.
pub(crate) fn first_asked<'s, V: View<'s>>(
    alloc: Global,
    context: &Context<'_>,
    log: &Log,
    direction: Direction,
    view: &mut V,
) -> Result<Option<Found<'s>>, Refused>
    requires one { AsksOne log.now }
    requires stands { AreSoundTables context.now.tables.now (own_seen context.now log.now) (V.sight view.old).database }
    requires knows { KnowsKey context.now.tables.now (asked log.now) }
    ensures found { IfOk result (λ row. row ≡ foremost direction (found_by (asked log.now) (applied (own_seen context.now log.now) (V.sight view.old).database))) }
    ensures view { OnlyAsks (V.sight view.old) (V.sight view.new) result }
    ensures looks { AskedAtMost 1 (different (own_seen context.now log.now)) (V.sight view.old) (V.sight view.new) }
{
    first_visible(alloc, context, log, &asked_pred(log), direction, view)
}

/// Whether there are any rows.
pub(crate) fn is_any(rows: &FoundRows<'_>) -> bool
    ensures { result ≡ is_some_row rows.now }
{
    match rows.as_slice().first() {
        None => false,
        Some(_) => true,
    }
}
