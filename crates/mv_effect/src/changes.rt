//! Statements that change the rows of a table.

ghost use Rattle.std.specs.Prelude.{◌≡◌, ◌<◌, ◌≤◌, ◌^◌, ◌∷◌, ◌++◌, [], ℕ, true, IfOk, OnOk, OnErr, Ok, All, map, length};
ghost use Rattle.mv_values.specs.declared.patch.Patch.TheVariants as patch;
ghost use Rattle.mv_values.specs.Keys.{keys};
ghost use Rattle.mv_values.specs.Patching.{applied};
ghost use Rattle.mv_catalog.specs.declared.resolved.RSetItem.{RSetItem};
ghost use Rattle.mv_catalog.specs.declared.resolved.RStmt.TheOpen as layer;
ghost use Rattle.mv_catalog.specs.Text.{IsTable};
ghost use Rattle.mv_eval.specs.Env.{with_found};
ghost use Rattle.mv_eval.specs.Results.{Gives, then_do};
ghost use Rattle.mv_eval.specs.Rows.{is_some_row};
ghost use Rattle.mv_recorded.specs.Asking.{on, first_fault, preds_up_to, update_checks, delete_checks};
ghost use Rattle.mv_recorded.specs.Doing.{set_patch, write};
ghost use Rattle.mv_recorded.specs.Effects.{IsEffect, effect_after, effect_unless, changes, new_of, effect_of_writes, slots_behind};
ghost use Rattle.mv_checks.specs.Checking.{meant, row_checks, HasValue};
ghost use Rattle.mv_effect.specs.Asking.{asked, AsksOne};
ghost use Rattle.mv_effect.specs.Logging.{BeginsPred, IsBlank, without_effect, with_preds, with_sets, with_writes};
ghost use Rattle.mv_effect.specs.Stops.{leaving};
ghost use Rattle.mv_effect.specs.Looking.{AreSoundTables, OnlyAsks, AskedBy, AskedFor};
ghost use Rattle.mv_effect.specs.Seeing.{own_seen};
ghost use Rattle.mv_recorded.specs.Naming.{Tests, Sets};

use crate::asking::{end, stop, stop_after, stop_unasked};
use crate::checks::run_checks;
use crate::context::Context;
use crate::numbers::narrow;
use crate::predicates::{ask_update, ask_where};
use crate::rows::{is_any, rows_asked};
use crate::slots::push_found;
use mv_catalog::resolved::{RCond, RExpr, RSetItem, Update};
use mv_checks::check::Check;
use mv_checks::children::{children_of, delete_checks};
use mv_checks::parents::{push_items, row_checks, sets_reference};
use mv_eval::env::column_value;
use mv_eval::find::{columns_in, key_in};
use mv_eval::made::{made_row, row_after_set, under_key};
use mv_eval::state::{Env, Stop};
use mv_log::log::Log;
use mv_table::found::Found;
use mv_table::found_rows::FoundRows;
use mv_table::table::Stored;
use mv_values::calls::End;
use mv_values::copied::Copied;
use mv_values::list::List;
use mv_values::memory::NoMemory;
use mv_values::patch::{Assign, Patch, Write};
use mv_values::rows::Keyed;
use mv_values::schema::TableInfo;
use mv_values::value::{Key, Value};
use mv_view::view::{Refused, View};
use std::alloc::Global;

/// Adds the write that inserts a row under its key to the open effect, which has none yet, and sets `:found`.
fn push_insertion(env: &Env, table: u16, item: Keyed, log: &mut Log) -> Result<(), NoMemory>
    requires table { table < 256 }
    requires found { env.now.found < 2 ^ 16 }
    requires writes { log.old.effect.writes ≡ [] }
    requires sets { log.old.effect.sets ≡ [] }
    ensures ok { OnOk result (log.new ≡ with_sets (with_writes log.old (write table item.key (patch.Insert item.row) ∷ [])) (slots_behind (with_found env.now true) (env.now.found ∷ []))) }
    ensures err { OnErr result (without_effect log.new ≡ without_effect log.old) }
{
    log.push_write(Write {
        table: narrow(table),
        key: item.key,
        patch: Patch::Insert(item.row),
    })?;
    push_found(env, true, log)
}

/// Runs what INSERT of a row under its key checks, and adds the predicates to the open effect. Returns the end if a check
/// fails.
fn check_row<'s, V: View<'s>>(
    alloc: Global,
    context: &Context<'_>,
    table: u16,
    item: &Keyed,
    log: &mut Log,
    view: &mut V,
) -> Result<Option<End>, Refused>
    requires stands { AreSoundTables context.now.tables.now (own_seen context.now log.old) (V.sight view.old).database }
    requires table { table < length context.now.tables.now }
    requires begins { BeginsPred log.old }
    ensures fault { IfOk result (λ o. o ≡ first_fault (row_checks context.now.tables.now table item.now) (applied (own_seen context.now log.old) (V.sight view.old).database)) }
    ensures asked { OnOk result (log.new ≡ with_preds log.old (log.old.effect.preds ++ preds_up_to (row_checks context.now.tables.now table item.now) (applied (own_seen context.now log.old) (V.sight view.old).database))) }
    ensures err { OnErr result (without_effect log.new ≡ without_effect log.old) }
    ensures view { OnlyAsks (V.sight view.old) (V.sight view.new) result }
    ensures looks { AskedFor (preds_up_to (row_checks context.now.tables.now table item.now) (applied (own_seen context.now log.old) (V.sight view.old).database)) (own_seen context.now log.old) (V.sight view.old) (V.sight view.new) }
{
    let checks = row_checks(alloc, context.tables, table, item)?;
    run_checks(alloc, context, &[], checks.as_slice(), log, view)
}

/// Writes the effect of an INSERT of this row under its key.
fn insert_row<'s, V: View<'s>>(
    alloc: Global,
    context: &Context<'_>,
    table: u16,
    item: Keyed,
    log: &mut Log,
    view: &mut V,
) -> Result<(), Refused>
    requires stands { AreSoundTables context.now.tables.now (own_seen context.now log.old) (V.sight view.old).database }
    requires found { context.now.env.now.found < 2 ^ 16 }
    requires table { table < length context.now.tables.now }
    requires blank { IsBlank log.old }
    ensures ok { OnOk result (log.new ≡ record log.old { effect = effect_unless (first_fault (row_checks context.now.tables.now table item) (applied (own_seen context.now log.old) (V.sight view.old).database)) (preds_up_to (row_checks context.now.tables.now table item) (applied (own_seen context.now log.old) (V.sight view.old).database)) true (write table item.key (patch.Insert item.row) ∷ []) context.now.env.now }) }
    ensures err { OnErr result (without_effect log.new ≡ without_effect log.old) }
    ensures view { OnlyAsks (V.sight view.old) (V.sight view.new) result }
    ensures looks { AskedFor (preds_up_to (row_checks context.now.tables.now table item) (applied (own_seen context.now log.old) (V.sight view.old).database)) (own_seen context.now log.old) (V.sight view.old) (V.sight view.new) }
{
    if let Some(fault) = check_row(alloc, context, table, &item, log, view)? {
        end(log, fault)?;
        return Ok(());
    }
    push_insertion(context.env, table, item, log)?;
    Ok(())
}

/// Writes the effect of INSERT: it writes its row, and sets `:found`. It asks for rows with the same key by a test of
/// each key column, and then for the parent of each column with REFERENCES. The call ends if a value is stopped, if there
/// is a row with the key, or if a parent isn't there.
pub(crate) fn insert<'s, V: View<'s>>(
    alloc: Global,
    context: &Context<'_>,
    table: u16,
    exprs: &[RExpr],
    log: &mut Log,
    view: &mut V,
) -> Result<(), Refused>
    requires stands { AreSoundTables context.now.tables.now (own_seen context.now log.old) (V.sight view.old).database }
    requires found { context.now.env.now.found < 2 ^ 16 }
    requires table { table < length context.now.tables.now }
    requires blank { IsBlank log.old }
    ensures effect { OnOk result (IsEffect context.now.tables.now (layer.Insert table exprs.now) context.now.env.now (applied (own_seen context.now log.old) (V.sight view.old).database) log.new.effect) }
    ensures rest { OnOk result (log.new ≡ record log.old { effect = log.new.effect }) }
    ensures err { OnErr result (without_effect log.new ≡ without_effect log.old) }
    ensures view { OnlyAsks (V.sight view.old) (V.sight view.new) result }
    ensures looks { AskedBy context.now.tables.now (layer.Insert table exprs.now) context.now.env.now (own_seen context.now log.old) (V.sight view.old) (V.sight view.new) }
{
    let row = match made_row(alloc, columns_in(context.tables, table), exprs, context.env) {
        Ok(row) => row,
        Err(reason) => return stop_unasked(log, reason),
    };
    let item = under_key(alloc, key_in(context.tables, table), row)?;
    insert_row(alloc, context, table, item, log, view)
}

/// Adds the writes that delete these rows to the open effect, which has none yet.
fn push_deletes(alloc: Global, table: u8, rows: &[Found<'_>], log: &mut Log) -> Result<(), NoMemory>
    requires { log.old.effect.writes ≡ [] }
    ensures ok { OnOk result (log.new ≡ with_writes log.old (map (λ item. write table item.key patch.Delete) rows.now)) }
    ensures err { OnErr result (without_effect log.new ≡ without_effect log.old) }
{
    for item in rows {
        let key = item.key().copy(alloc)?;
        log.push_write(Write {
            table,
            key,
            patch: Patch::Delete,
        })?;
    }
    Ok(())
}

/// Adds the writes that delete these rows to the open effect, which has none yet, and sets `:found`.
fn push_deletion(
    alloc: Global,
    env: &Env,
    table: u16,
    rows: &FoundRows<'_>,
    log: &mut Log,
) -> Result<(), NoMemory>
    requires table { table < 256 }
    requires found { env.now.found < 2 ^ 16 }
    requires writes { log.old.effect.writes ≡ [] }
    requires sets { log.old.effect.sets ≡ [] }
    ensures ok { OnOk result (log.new ≡ with_sets (with_writes log.old (map (λ item. write table item.key patch.Delete) rows.now)) (slots_behind (with_found env.now (is_some_row rows.now)) (env.now.found ∷ []))) }
    ensures err { OnErr result (without_effect log.new ≡ without_effect log.old) }
{
    push_deletes(alloc, narrow(table), rows.as_slice(), log)?;
    push_found(env, is_any(rows), log)
}

/// Returns the keys of these rows.
fn keys_of(alloc: Global, rows: &[Found<'_>]) -> Result<List<Key>, NoMemory>
    ensures { IfOk result (λ all. all ≡ keys rows.now) }
{
    let mut all = List::with_room(alloc, rows.len())?;
    for item in rows {
        all.push(item.key().copy(alloc)?)?;
    }
    Ok(all)
}

/// Runs what DELETE of these rows checks, and adds the predicates to the open effect. Returns the end if a check fails.
fn check_deletion<'s, V: View<'s>>(
    alloc: Global,
    context: &Context<'_>,
    table: u16,
    rows: &FoundRows<'_>,
    log: &mut Log,
    view: &mut V,
) -> Result<Option<End>, Refused>
    requires stands { AreSoundTables context.now.tables.now (own_seen context.now log.old) (V.sight view.old).database }
    requires begins { BeginsPred log.old }
    ensures fault { IfOk result (λ o. o ≡ first_fault (delete_checks context.now.tables.now table rows.now) (applied (own_seen context.now log.old) (V.sight view.old).database)) }
    ensures asked { OnOk result (log.new ≡ with_preds log.old (log.old.effect.preds ++ preds_up_to (delete_checks context.now.tables.now table rows.now) (applied (own_seen context.now log.old) (V.sight view.old).database))) }
    ensures err { OnErr result (without_effect log.new ≡ without_effect log.old) }
    ensures view { OnlyAsks (V.sight view.old) (V.sight view.new) result }
    ensures looks { AskedFor (preds_up_to (delete_checks context.now.tables.now table rows.now) (applied (own_seen context.now log.old) (V.sight view.old).database)) (own_seen context.now log.old) (V.sight view.old) (V.sight view.new) }
{
    let children = children_of(alloc, context.tables, table)?;
    let children = children.as_slice();
    if children.is_empty() {
        return Ok(None);
    }
    let own = keys_of(alloc, rows.as_slice())?;
    let own = own.as_slice();
    let checks = delete_checks(alloc, context.tables, table, own, children)?;
    let checks = checks.as_slice();
    run_checks(alloc, context, own, checks, log, view)
}

/// Writes the rest of the effect of a DELETE that asked and found these rows.
fn delete_rows<'s, V: View<'s>>(
    alloc: Global,
    context: &Context<'_>,
    table: u16,
    rows: &FoundRows<'_>,
    log: &mut Log,
    view: &mut V,
) -> Result<(), Refused>
    requires stands { AreSoundTables context.now.tables.now (own_seen context.now log.old) (V.sight view.old).database }
    requires found { context.now.env.now.found < 2 ^ 16 }
    requires table { table < 256 }
    requires one { AsksOne log.old }
    ensures ok { OnOk result (log.new ≡ record log.old { effect = effect_unless (first_fault (delete_checks context.now.tables.now table rows.now) (applied (own_seen context.now log.old) (V.sight view.old).database)) (asked log.old ∷ preds_up_to (delete_checks context.now.tables.now table rows.now) (applied (own_seen context.now log.old) (V.sight view.old).database)) (is_some_row rows.now) (map (λ item. write table item.key patch.Delete) rows.now) context.now.env.now }) }
    ensures err { OnErr result (without_effect log.new ≡ without_effect log.old) }
    ensures view { OnlyAsks (V.sight view.old) (V.sight view.new) result }
    ensures looks { AskedFor (preds_up_to (delete_checks context.now.tables.now table rows.now) (applied (own_seen context.now log.old) (V.sight view.old).database)) (own_seen context.now log.old) (V.sight view.old) (V.sight view.new) }
{
    if let Some(fault) = check_deletion(alloc, context, table, rows, log, view)? {
        end(log, fault)?;
        return Ok(());
    }
    push_deletion(alloc, context.env, table, rows, log)?;
    Ok(())
}

/// Writes the effect of DELETE: it deletes the rows that match, and sets `:found`. For each column with REFERENCES to
/// their table and each of the rows, it asks for rows that hold its key. The call ends if a right side of WHERE is
/// stopped, or if one of these rows stays.
pub(crate) fn delete<'s, V: View<'s>>(
    alloc: Global,
    context: &Context<'_>,
    table: u16,
    conds: &[RCond],
    log: &mut Log,
    view: &mut V,
) -> Result<(), Refused>
    requires stands { AreSoundTables context.now.tables.now (own_seen context.now log.old) (V.sight view.old).database }
    requires found { context.now.env.now.found < 2 ^ 16 }
    requires tests { Tests context.now.tables.now table conds.now }
    requires blank { IsBlank log.old }
    ensures effect { OnOk result (IsEffect context.now.tables.now (layer.Delete table conds.now) context.now.env.now (applied (own_seen context.now log.old) (V.sight view.old).database) log.new.effect) }
    ensures rest { OnOk result (log.new ≡ record log.old { effect = log.new.effect }) }
    ensures err { OnErr result (without_effect log.new ≡ without_effect log.old) }
    ensures view { OnlyAsks (V.sight view.old) (V.sight view.new) result }
    ensures looks { AskedBy context.now.tables.now (layer.Delete table conds.now) context.now.env.now (own_seen context.now log.old) (V.sight view.old) (V.sight view.new) }
{
    match ask_where(alloc, context.tables, table, conds, context.env, log) {
        Ok(()) => {}
        Err(reason) => return stop_after(log, reason),
    }
    let rows = rows_asked(alloc, context, log, view)?;
    delete_rows(alloc, context, table, &rows, log, view)
}

/// Returns the columns of SET, with their values in the row after it.
fn assigns(alloc: Global, items: &[RSetItem], row: &[Value]) -> Result<List<Assign>, NoMemory>
    requires { All (λ (i : RSetItem). i.column < 256) items.now }
    ensures { IfOk result (λ all. patch.Set all ≡ set_patch items.now row.now) }
{
    let mut all = List::with_room(alloc, items.len())?;
    for item in items {
        all.push(Assign {
            column: narrow(item.column),
            value: column_value(alloc, row, item.column)?,
        })?;
    }
    Ok(all)
}

/// Returns what SET writes under a key, given the row after it.
fn set_write(
    alloc: Global,
    table: u8,
    key: &Key,
    items: &[RSetItem],
    row: &[Value],
) -> Result<Write, NoMemory>
    requires { All (λ (i : RSetItem). i.column < 256) items.now }
    ensures { IfOk result (λ w. w ≡ write table key.now (set_patch items.now row.now)) }
{
    let patch = Patch::Set(assigns(alloc, items, row)?);
    Ok(Write {
        table,
        key: key.copy(alloc)?,
        patch,
    })
}

/// Returns what SET writes to a row. Fails if the new row is stopped.
fn write_for(
    alloc: Global,
    tables: &[TableInfo],
    env: &Env,
    update: &Update<'_>,
    item: &Found<'_>,
) -> Result<Write, Stop>
    requires table { update.now.table < 256 }
    requires columns { All (λ (i : RSetItem). i.column < 256) update.now.items.now }
    ensures { Gives result (then_do (new_of tables.now update.now.table env.now update.now.items.now item.now.row) (λ row. Ok (write update.now.table item.now.key (set_patch update.now.items.now row)))) }
{
    let columns = columns_in(tables, update.table);
    let keys = key_in(tables, update.table);
    let row = row_after_set(alloc, columns, keys, env, item.row(), update.items)?;
    Ok(set_write(
        alloc,
        narrow(update.table),
        item.key(),
        update.items,
        row.as_slice(),
    )?)
}

/// Adds what SET writes to the rows to the open effect, which has no writes yet. Fails with the first new row that is
/// stopped.
fn push_sets(
    alloc: Global,
    context: &Context<'_>,
    update: &Update<'_>,
    rows: &[Found<'_>],
    log: &mut Log,
) -> Result<(), Stop>
    requires table { update.now.table < 256 }
    requires columns { All (λ (i : RSetItem). i.column < 256) update.now.items.now }
    requires none { log.old.effect.writes ≡ [] }
    ensures writes { Gives (leaving result log.new.effect.writes) (changes update.now.table update.now.items.now (new_of context.now.tables.now update.now.table context.now.env.now update.now.items.now) rows.now) }
    ensures rest { log.new ≡ with_writes log.old log.new.effect.writes }
{
    for item in rows {
        let write = write_for(alloc, context.tables, context.env, update, item)?;
        log.push_write(write)?;
    }
    Ok(())
}

/// Writes the rest of the effect of an UPDATE that asked and found these rows. It sets no column with REFERENCES.
fn set_rows(
    alloc: Global,
    context: &Context<'_>,
    update: &Update<'_>,
    rows: &FoundRows<'_>,
    log: &mut Log,
) -> Result<(), NoMemory>
    requires table { update.now.table < 256 }
    requires columns { All (λ (i : RSetItem). i.column < 256) update.now.items.now }
    requires found { context.now.env.now.found < 2 ^ 16 }
    requires one { AsksOne log.old }
    ensures ok { OnOk result (log.new ≡ record log.old { effect = effect_after (asked log.old) (changes update.now.table update.now.items.now (new_of context.now.tables.now update.now.table context.now.env.now update.now.items.now) rows.now) (λ ws. effect_of_writes (asked log.old ∷ []) (is_some_row rows.now) ws context.now.env.now) }) }
    ensures err { OnErr result (without_effect log.new ≡ without_effect log.old) }
{
    match push_sets(alloc, context, update, rows.as_slice(), log) {
        Ok(()) => push_found(context.env, is_any(rows), log),
        Err(reason) => stop(log, reason),
    }
}

/// Adds what SET writes to these rows to the open effect, which has no writes yet, and sets `:found`. No new row is
/// stopped.
fn push_update(
    alloc: Global,
    context: &Context<'_>,
    update: &Update<'_>,
    rows: &FoundRows<'_>,
    log: &mut Log,
) -> Result<(), NoMemory>
    requires table { update.now.table < 256 }
    requires columns { All (λ (i : RSetItem). i.column < 256) update.now.items.now }
    requires found { context.now.env.now.found < 2 ^ 16 }
    requires goes { HasValue (changes update.now.table update.now.items.now (new_of context.now.tables.now update.now.table context.now.env.now update.now.items.now) rows.now) }
    requires writes { log.old.effect.writes ≡ [] }
    requires sets { log.old.effect.sets ≡ [] }
    ensures ok { OnOk result (log.new ≡ with_sets (with_writes log.old (on (changes update.now.table update.now.items.now (new_of context.now.tables.now update.now.table context.now.env.now update.now.items.now) rows.now) (λ ws. ws))) (slots_behind (with_found context.now.env.now (is_some_row rows.now)) (context.now.env.now.found ∷ []))) }
    ensures err { OnErr result (without_effect log.new ≡ without_effect log.old) }
{
    match push_sets(alloc, context, update, rows.as_slice(), log) {
        Ok(()) => push_found(context.env, is_any(rows), log),
        Err(_stop) => Err(NoMemory),
    }
}

/// Returns what UPDATE of these rows checks.
fn update_checks(
    alloc: Global,
    context: &Context<'_>,
    update: &Update<'_>,
    rows: &[Found<'_>],
) -> Result<List<Check>, NoMemory>
    requires { All IsTable context.now.tables.now }
    ensures { IfOk result (λ checks. map (meant []) checks ≡ update_checks context.now.tables.now update.now.table update.now.items.now context.now.env.now rows.now) }
{
    let mut checks = List::new(alloc);
    for item in rows {
        let row = item.row().as_slice();
        push_items(alloc, context.tables, context.env, update, row, &mut checks)?;
    }
    Ok(checks)
}

/// Runs what UPDATE of these rows checks, and adds the predicates to the open effect. Returns the end if a check fails.
fn check_update<'s, V: View<'s>>(
    alloc: Global,
    context: &Context<'_>,
    update: &Update<'_>,
    rows: &FoundRows<'_>,
    log: &mut Log,
    view: &mut V,
) -> Result<Option<End>, Refused>
    requires stands { AreSoundTables context.now.tables.now (own_seen context.now log.old) (V.sight view.old).database }
    requires begins { BeginsPred log.old }
    ensures fault { IfOk result (λ o. o ≡ first_fault (update_checks context.now.tables.now update.now.table update.now.items.now context.now.env.now rows.now) (applied (own_seen context.now log.old) (V.sight view.old).database)) }
    ensures asked { OnOk result (log.new ≡ with_preds log.old (log.old.effect.preds ++ preds_up_to (update_checks context.now.tables.now update.now.table update.now.items.now context.now.env.now rows.now) (applied (own_seen context.now log.old) (V.sight view.old).database))) }
    ensures err { OnErr result (without_effect log.new ≡ without_effect log.old) }
    ensures view { OnlyAsks (V.sight view.old) (V.sight view.new) result }
    ensures looks { AskedFor (preds_up_to (update_checks context.now.tables.now update.now.table update.now.items.now context.now.env.now rows.now) (applied (own_seen context.now log.old) (V.sight view.old).database)) (own_seen context.now log.old) (V.sight view.old) (V.sight view.new) }
{
    let checks = update_checks(alloc, context, update, rows.as_slice())?;
    run_checks(alloc, context, &[], checks.as_slice(), log, view)
}

/// Writes the rest of the effect of an UPDATE that asked and found these rows.
fn update_rows<'s, V: View<'s>>(
    alloc: Global,
    context: &Context<'_>,
    update: &Update<'_>,
    rows: &FoundRows<'_>,
    log: &mut Log,
    view: &mut V,
) -> Result<(), Refused>
    requires stands { AreSoundTables context.now.tables.now (own_seen context.now log.old) (V.sight view.old).database }
    requires table { update.now.table < 256 }
    requires columns { All (λ (i : RSetItem). i.column < 256) update.now.items.now }
    requires found { context.now.env.now.found < 2 ^ 16 }
    requires one { AsksOne log.old }
    ensures ok { OnOk result (log.new ≡ record log.old { effect = effect_unless (first_fault (update_checks context.now.tables.now update.now.table update.now.items.now context.now.env.now rows.now) (applied (own_seen context.now log.old) (V.sight view.old).database)) (asked log.old ∷ preds_up_to (update_checks context.now.tables.now update.now.table update.now.items.now context.now.env.now rows.now) (applied (own_seen context.now log.old) (V.sight view.old).database)) (is_some_row rows.now) (on (changes update.now.table update.now.items.now (new_of context.now.tables.now update.now.table context.now.env.now update.now.items.now) rows.now) (λ ws. ws)) context.now.env.now }) }
    ensures err { OnErr result (without_effect log.new ≡ without_effect log.old) }
    ensures view { OnlyAsks (V.sight view.old) (V.sight view.new) result }
    ensures looks { AskedFor (preds_up_to (update_checks context.now.tables.now update.now.table update.now.items.now context.now.env.now rows.now) (applied (own_seen context.now log.old) (V.sight view.old).database)) (own_seen context.now log.old) (V.sight view.old) (V.sight view.new) }
{
    if let Some(fault) = check_update(alloc, context, update, rows, log, view)? {
        end(log, fault)?;
        return Ok(());
    }
    push_update(alloc, context, update, rows, log)?;
    Ok(())
}

/// Writes the effect of UPDATE: it writes a new version of each row that matches, and sets `:found`. For each new value
/// of a column with REFERENCES it asks for the parent. The call ends if a right side of WHERE or of SET is stopped, if
/// a text is longer than its column allows, or if a parent isn't there.
pub(crate) fn update<'s, V: View<'s>>(
    alloc: Global,
    context: &Context<'_>,
    update: &Update<'_>,
    log: &mut Log,
    view: &mut V,
) -> Result<(), Refused>
    requires stands { AreSoundTables context.now.tables.now (own_seen context.now log.old) (V.sight view.old).database }
    requires found { context.now.env.now.found < 2 ^ 16 }
    requires tests { Tests context.now.tables.now update.now.table update.now.conds.now }
    requires sets { Sets context.now.tables.now update.now.table update.now.items.now }
    requires blank { IsBlank log.old }
    ensures effect { OnOk result (IsEffect context.now.tables.now (layer.Update update.now.table update.now.items.now update.now.conds.now) context.now.env.now (applied (own_seen context.now log.old) (V.sight view.old).database) log.new.effect) }
    ensures rest { OnOk result (log.new ≡ record log.old { effect = log.new.effect }) }
    ensures err { OnErr result (without_effect log.new ≡ without_effect log.old) }
    ensures view { OnlyAsks (V.sight view.old) (V.sight view.new) result }
    ensures looks { AskedBy context.now.tables.now (layer.Update update.now.table update.now.items.now update.now.conds.now) context.now.env.now (own_seen context.now log.old) (V.sight view.old) (V.sight view.new) }
{
    match ask_update(alloc, context.tables, update, context.env, log) {
        Ok(()) => {}
        Err(reason) => return stop_after(log, reason),
    }
    let rows = rows_asked(alloc, context, log, view)?;
    if sets_reference(context.tables, update.table, update.items) {
        return update_rows(alloc, context, update, &rows, log, view);
    }
    set_rows(alloc, context, update, &rows, log)?;
    Ok(())
}
