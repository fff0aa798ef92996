//! The effects of statements that change the rows of a table.

ghost use Rattle.std.specs.Prelude.{◌≡◌, ◌<◌, ◌^◌, ◌∷◌, ◌++◌, [], true, Ok, IfOk, OnOk, All, map, length};
ghost use Rattle.mv_values.specs.declared.patch.Patch.TheVariants as patch;
ghost use Rattle.mv_values.specs.Keys.{keys};
ghost use Rattle.mv_catalog.specs.declared.resolved.RSetItem.{RSetItem};
ghost use Rattle.mv_catalog.specs.declared.resolved.RStmt.TheOpen as layer;
ghost use Rattle.mv_catalog.specs.Text.{IsTable};
ghost use Rattle.mv_eval.specs.Results.{Gives, then_do};
ghost use Rattle.mv_recorded.specs.Asking.{first_fault, preds_up_to, delete_checks, update_checks};
ghost use Rattle.mv_recorded.specs.Doing.{set_patch, write};
ghost use Rattle.mv_recorded.specs.Effects.{IsEffect, changes, effect_of_writes, effect_unless, new_of};
ghost use Rattle.mv_checks.specs.Checking.{meant, row_checks};
ghost use Rattle.mv_recorded.specs.Naming.{Tests, Sets};
ghost use Rattle.mv_recorder.specs.Scenes.{IsSound, Finds};
ghost use Rattle.mv_table.specs.Entries.{seen};

use crate::asked::{ended_after, is_any, nothing, rows_for};
use crate::checks::run_checks;
use crate::numbers::narrow;
use crate::predicates::{pred_from, update_pred};
use crate::scene::Scene;
use crate::slots::found_slots;
use mv_catalog::resolved::{RCond, RExpr, RSetItem, Update};
use mv_checks::check::Check;
use mv_checks::children::{children_of, delete_checks};
use mv_checks::parents::{push_items, row_checks};
use mv_eval::env::column_value;
use mv_eval::find::{columns_in, key_in};
use mv_eval::made::{made_row, row_after_set, under_key};
use mv_eval::state::{Env, Stop};
use mv_record::effect::Effect;
use mv_table::table::Entry;
use mv_values::calls::End;
use mv_values::copied::Copied;
use mv_values::list::List;
use mv_values::memory::NoMemory;
use mv_values::patch::{Assign, Patch, Write};
use mv_values::pred::Pred;
use mv_values::rows::Keyed;
use mv_values::value::{Key, Row, Value};
use std::alloc::Global;

/// Returns the effect of a statement that asked these and makes these writes. `found` is whether it found a row.
fn changed(
    alloc: Global,
    env: &Env,
    preds: List<Pred>,
    found: bool,
    writes: List<Write>,
) -> Result<Effect, NoMemory>
    requires { env.now.found < 2 ^ 16 }
    ensures { IfOk result (λ e. e ≡ effect_of_writes preds found writes env.now) }
{
    let mut effect = nothing(alloc);
    effect.sets = found_slots(alloc, env, found)?;
    effect.preds = preds;
    effect.writes = writes;
    Ok(effect)
}

/// The same, unless a check failed.
fn checked(
    alloc: Global,
    env: &Env,
    fault: Option<End>,
    preds: List<Pred>,
    found: bool,
    writes: List<Write>,
) -> Result<Effect, NoMemory>
    requires { env.now.found < 2 ^ 16 }
    ensures { IfOk result (λ e. e ≡ effect_unless fault preds found writes env.now) }
{
    match fault {
        Some(end) => Ok(ended_after(alloc, preds, end)),
        None => changed(alloc, env, preds, found, writes),
    }
}

/// Returns the write that inserts a row under its key.
fn insertion(table: u8, item: Keyed) -> Write
    ensures { result ≡ write table item.key (patch.Insert item.row) }
{
    Write {
        table,
        key: item.key,
        patch: Patch::Insert(item.row),
    }
}

/// Returns the effect of an INSERT of this row under its key.
fn inserted(alloc: Global, scene: &Scene<'_>, table: u16, item: Keyed) -> Result<Effect, NoMemory>
    requires sound { IsSound scene.now.infos.now scene.now.env.now scene.now.tables.now }
    requires table { table < length scene.now.infos.now }
    ensures { IfOk result (λ e. e ≡ effect_unless (first_fault (row_checks scene.now.infos.now table item) scene.now.tables.now) (preds_up_to (row_checks scene.now.infos.now table item) scene.now.tables.now) true (write table item.key (patch.Insert item.row) ∷ []) scene.now.env.now) }
{
    let checks = row_checks(alloc, scene.infos, table, &item)?;
    let mut preds = List::new(alloc);
    let fault = run_checks(alloc, scene, &[], checks.as_slice(), &mut preds)?;
    let writes = List::of(alloc, insertion(narrow(table), item))?;
    checked(alloc, scene.env, fault, preds, true, writes)
}

/// Returns the effect of INSERT. It asks for a row with the same key by a test of each key column, and then for the parent
/// of each column with REFERENCES.
pub(crate) fn insert(
    alloc: Global,
    scene: &Scene<'_>,
    table: u16,
    exprs: &[RExpr],
) -> Result<Effect, Stop>
    requires sound { IsSound scene.now.infos.now scene.now.env.now scene.now.tables.now }
    requires table { table < length scene.now.infos.now }
    ensures { Finds result (IsEffect scene.now.infos.now (layer.Insert table exprs.now) scene.now.env.now scene.now.tables.now) }
{
    let row = made_row(alloc, columns_in(scene.infos, table), exprs, scene.env)?;
    let item = under_key(alloc, key_in(scene.infos, table), row)?;
    Ok(inserted(alloc, scene, table, item)?)
}

/// Returns the writes that delete these rows.
fn deletes(alloc: Global, table: u8, rows: &[Entry<'_>]) -> Result<List<Write>, NoMemory>
    ensures { IfOk result (λ writes. writes ≡ map (λ item. write table item.key patch.Delete) (map seen rows.now)) }
{
    let mut writes = List::with_room(alloc, rows.len())?;
    for entry in rows {
        writes.push(Write {
            table,
            key: entry.key.copy(alloc)?,
            patch: Patch::Delete,
        })?;
    }
    Ok(writes)
}

/// Returns the keys of these rows.
fn keys_of(alloc: Global, rows: &[Entry<'_>]) -> Result<List<Key>, NoMemory>
    ensures { IfOk result (λ all. all ≡ keys (map seen rows.now)) }
{
    let mut all = List::with_room(alloc, rows.len())?;
    for entry in rows {
        all.push(entry.key.copy(alloc)?)?;
    }
    Ok(all)
}

/// Runs what DELETE of these rows checks, and adds the predicates. Returns the end if a check fails.
fn check_deletion(
    alloc: Global,
    scene: &Scene<'_>,
    table: u16,
    rows: &[Entry<'_>],
    preds: &mut List<Pred>,
) -> Result<Option<End>, NoMemory>
    requires { IsSound scene.now.infos.now scene.now.env.now scene.now.tables.now }
    ensures fault { IfOk result (λ o. o ≡ first_fault (delete_checks scene.now.infos.now table (map seen rows.now)) scene.now.tables.now) }
    ensures preds { OnOk result (preds.new ≡ preds.old ++ preds_up_to (delete_checks scene.now.infos.now table (map seen rows.now)) scene.now.tables.now) }
{
    let children = children_of(alloc, scene.infos, table)?;
    let own = keys_of(alloc, rows)?;
    let own = own.as_slice();
    let checks = delete_checks(alloc, scene.infos, table, own, children.as_slice())?;
    let checks = checks.as_slice();
    run_checks(alloc, scene, own, checks, preds)
}

/// Returns the effect of DELETE. For each column with REFERENCES to the table and each row that matches, it asks for rows
/// that hold its key.
pub(crate) fn delete(
    alloc: Global,
    scene: &Scene<'_>,
    table: u16,
    conds: &[RCond],
) -> Result<Effect, Stop>
    requires sound { IsSound scene.now.infos.now scene.now.env.now scene.now.tables.now }
    requires tests { Tests scene.now.infos.now table conds.now }
    ensures { Finds result (IsEffect scene.now.infos.now (layer.Delete table conds.now) scene.now.env.now scene.now.tables.now) }
{
    let pred = pred_from(alloc, scene.infos, table, conds, &[], scene.env)?;
    let found = rows_for(alloc, scene, &pred)?;
    let items = found.as_slice();
    let writes = deletes(alloc, narrow(table), items)?;
    let mut preds = List::of(alloc, pred)?;
    let fault = check_deletion(alloc, scene, table, items, &mut preds)?;
    Ok(checked(alloc, scene.env, fault, preds, is_any(items), writes)?)
}

/// Returns the columns of SET, with their values in the row after it.
fn assigns(alloc: Global, items: &[RSetItem], row: &[Value]) -> Result<List<Assign>, NoMemory>
    requires { All (λ (i : RSetItem). i.column < 256) items.now }
    ensures { IfOk result (λ all. patch.Set all ≡ set_patch items.now row.now) }
{
    let mut all = List::with_room(alloc, items.len())?;
    for item in items {
        all.push(Assign {
            column: narrow(item.column),
            value: column_value(alloc, row, item.column)?,
        })?;
    }
    Ok(all)
}

/// Returns what SET writes under a key, given the row after it.
fn set_write(
    alloc: Global,
    table: u8,
    key: &Key,
    items: &[RSetItem],
    row: &[Value],
) -> Result<Write, NoMemory>
    requires { All (λ (i : RSetItem). i.column < 256) items.now }
    ensures { IfOk result (λ w. w ≡ write table key.now (set_patch items.now row.now)) }
{
    let patch = Patch::Set(assigns(alloc, items, row)?);
    Ok(Write {
        table,
        key: key.copy(alloc)?,
        patch,
    })
}

/// Returns what SET writes to a row. Fails if the new row is stopped.
fn write_for(
    alloc: Global,
    scene: &Scene<'_>,
    update: &Update<'_>,
    item: &Entry<'_>,
) -> Result<Write, Stop>
    requires table { update.now.table < 256 }
    requires columns { All (λ (i : RSetItem). i.column < 256) update.now.items.now }
    ensures { Gives result (then_do (new_of scene.now.infos.now update.now.table scene.now.env.now update.now.items.now (seen item.now).row) (λ row. Ok (write update.now.table (seen item.now).key (set_patch update.now.items.now row)))) }
{
    let columns = columns_in(scene.infos, update.table);
    let keys = key_in(scene.infos, update.table);
    let row = row_after_set(alloc, columns, keys, scene.env, item.row, update.items)?;
    Ok(set_write(
        alloc,
        narrow(update.table),
        item.key,
        update.items,
        row.as_slice(),
    )?)
}

/// Returns what SET writes to these rows, up to the first new row that is stopped.
fn writes_for(
    alloc: Global,
    scene: &Scene<'_>,
    update: &Update<'_>,
    rows: &[Entry<'_>],
) -> Result<List<Write>, Stop>
    requires table { update.now.table < 256 }
    requires columns { All (λ (i : RSetItem). i.column < 256) update.now.items.now }
    ensures { Gives result (changes update.now.table update.now.items.now (new_of scene.now.infos.now update.now.table scene.now.env.now update.now.items.now) (map seen rows.now)) }
{
    let mut writes = List::with_room(alloc, rows.len())?;
    for item in rows {
        writes.push(write_for(alloc, scene, update, item)?)?;
    }
    Ok(writes)
}

/// Returns what UPDATE of these rows checks.
fn update_checks(
    alloc: Global,
    scene: &Scene<'_>,
    update: &Update<'_>,
    rows: &[Entry<'_>],
) -> Result<List<Check>, NoMemory>
    requires { All IsTable scene.now.infos.now }
    ensures { IfOk result (λ checks. map (meant []) checks ≡ update_checks scene.now.infos.now update.now.table update.now.items.now scene.now.env.now (map seen rows.now)) }
{
    let mut checks = List::new(alloc);
    for entry in rows {
        let row = entry.row.as_slice();
        push_items(alloc, scene.infos, scene.env, update, row, &mut checks)?;
    }
    Ok(checks)
}

/// Runs what UPDATE of these rows checks, and adds the predicates. Returns the end if a check fails.
fn check_update(
    alloc: Global,
    scene: &Scene<'_>,
    update: &Update<'_>,
    rows: &[Entry<'_>],
    preds: &mut List<Pred>,
) -> Result<Option<End>, NoMemory>
    requires { IsSound scene.now.infos.now scene.now.env.now scene.now.tables.now }
    ensures fault { IfOk result (λ o. o ≡ first_fault (update_checks scene.now.infos.now update.now.table update.now.items.now scene.now.env.now (map seen rows.now)) scene.now.tables.now) }
    ensures preds { OnOk result (preds.new ≡ preds.old ++ preds_up_to (update_checks scene.now.infos.now update.now.table update.now.items.now scene.now.env.now (map seen rows.now)) scene.now.tables.now) }
{
    let checks = update_checks(alloc, scene, update, rows)?;
    run_checks(alloc, scene, &[], checks.as_slice(), preds)
}

/// Returns the effect of UPDATE. For each new value of a column with REFERENCES it asks for the parent.
pub(crate) fn update(alloc: Global, scene: &Scene<'_>, update: &Update<'_>) -> Result<Effect, Stop>
    requires sound { IsSound scene.now.infos.now scene.now.env.now scene.now.tables.now }
    requires tests { Tests scene.now.infos.now update.now.table update.now.conds.now }
    requires sets { Sets scene.now.infos.now update.now.table update.now.items.now }
    ensures { Finds result (IsEffect scene.now.infos.now (layer.Update update.now.table update.now.items.now update.now.conds.now) scene.now.env.now scene.now.tables.now) }
{
    let pred = update_pred(alloc, scene.infos, update, scene.env)?;
    let found = rows_for(alloc, scene, &pred)?;
    let items = found.as_slice();
    let mut preds = List::of(alloc, pred)?;
    if let Some(end) = check_update(alloc, scene, update, items, &mut preds)? {
        return Ok(ended_after(alloc, preds, end));
    }
    match writes_for(alloc, scene, update, items) {
        Ok(writes) => Ok(changed(alloc, scene.env, preds, is_any(items), writes)?),
        Err(stop) => Err(stop),
    }
}
