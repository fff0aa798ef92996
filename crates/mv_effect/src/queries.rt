//! Statements that read a table and change none.

ghost use Rattle.std.specs.Prelude.{◌≡◌, ◌<◌, ◌≤◌, ◌^◌, ℕ, pos, Ok, IfOk, IfSome, OnOk, OnErr, List, [], All, length};
ghost use Rattle.std.specs.Option.{is_some, option_map, option_copied};
ghost use Rattle.mv_values.specs.Keys.{IsRising};
ghost use Rattle.mv_values.specs.Columns.{column_of};
ghost use Rattle.mv_values.specs.Patching.{applied, found_by};
ghost use Rattle.mv_values.specs.Tables.{key_columns};
ghost use Rattle.mv_catalog.specs.declared.resolved.RStmt.{RStmt};
ghost use Rattle.mv_catalog.specs.declared.resolved.RStmt.TheOpen as layer;
ghost use Rattle.mv_catalog.specs.Text.{IsTable};
ghost use Rattle.mv_eval.specs.Alone.{fixed};
ghost use Rattle.mv_eval.specs.FirstRows.{Leads, IsFromEnd};
ghost use Rattle.mv_eval.specs.Rows.{aggregate, is_some_row, item_at, matching, ordered};
ghost use Rattle.mv_recorded.specs.Asking.{column_in, with_sorts, KnowsKey};
ghost use Rattle.mv_recorded.specs.Effects.{IsEffect, asks, pred_with, effect_after, row_number, effect_of_loop, effect_of_select, effect_of_aggregate};
ghost use Rattle.mv_effect.specs.Asking.{asked, asked_with, AsksOne};
ghost use Rattle.mv_effect.specs.Logging.{IsBlank, without_effect};
ghost use Rattle.mv_effect.specs.Stops.{GivesOrEnds};
ghost use Rattle.mv_effect.specs.Looking.{AreSoundTables, OnlyAsks, different, AskedAtMost, AskedBy};
ghost use Rattle.mv_effect.specs.Seeing.{own_seen};
ghost use Rattle.mv_recorded.specs.Naming.{Tests, AreColumns};
ghost use Rattle.mv_effect.specs.Totalling.{total_asked};

use crate::asking::{asked_pred, stop, stop_after};
use crate::context::Context;
use crate::predicates::{ask_select, ask_total};
use crate::rows::{first_asked, rows_asked};
use crate::slots::{push_found, push_selected, push_total};
use crate::tableless::{has_turn, push_turns};
use mv_catalog::resolved::{Query, RAgg, RCond, RExpr, RSort};
use mv_eval::chosen::order_direction;
use mv_eval::expr::{number_in, offset};
use mv_eval::extremes::aggregate_direction;
use mv_eval::find::key_in;
use mv_eval::fixing::fixed_rows;
use mv_eval::order::chosen_row;
use mv_eval::state::{Env, Stop};
use mv_eval::totals::{aggregate_of, value_in};
use mv_log::log::Log;
use mv_table::found::Found;
use mv_table::scan::Direction;
use mv_values::list::List;
use mv_values::memory::NoMemory;
use mv_values::pred_ref::PredRef;
use mv_values::value::Row;
use mv_view::view::{Refused, View};
use std::alloc::Global;

/// Asks what a SELECT asks, and returns the number of its row. Fails if a right side of WHERE or OFFSET is stopped.
#[tactic(auto, using(crate::proofs::Ends::unasked, crate::proofs::Ends::row_unasked))]
fn row_query(
    alloc: Global,
    context: &Context<'_>,
    query: &Query<'_>,
    at: &Option<RExpr>,
    log: &mut Log,
) -> Result<i64, Stop>
    requires few { length context.now.tables.now ≤ 64 }
    requires each { All IsTable context.now.tables.now }
    requires tests { Tests context.now.tables.now query.now.table query.now.conds.now }
    requires columns { AreColumns context.now.tables.now query.now.table (with_sorts query.now.columns.now query.now.sorts.now) }
    requires blank { IsBlank log.old }
    ensures asks { GivesOrEnds (asked_with result (asked log.new)) (pred_with (asks context.now.tables.now query.now.table query.now.conds.now (with_sorts query.now.columns.now query.now.sorts.now) context.now.env.now) (row_number at.now context.now.env.now)) }
    ensures one { OnOk result (AsksOne log.new) }
    ensures rest { OnOk result (log.new ≡ (let was = log.old in record was { effect = log.new.effect })) }
    ensures err { OnErr result (without_effect log.new ≡ without_effect log.old) }
    ensures knows { OnOk result (KnowsKey context.now.tables.now (asked log.new)) }
{
    ask_select(alloc, context.tables, query, context.env, log)?;
    let at = offset(alloc, at, context.env)?;
    Ok(number_in(&at))
}

/// Writes the rest of the effect of a SELECT that asked, takes the row with this number and found these rows.
fn select_at(
    alloc: Global,
    env: &Env,
    query: &Query<'_>,
    to: &[u16],
    at: i64,
    rows: &[Found<'_>],
    log: &mut Log,
) -> Result<(), NoMemory>
    requires rising { IsRising rows.now }
    requires found { env.now.found < 2 ^ 16 }
    requires one { AsksOne log.old }
    ensures ok { OnOk result (log.new ≡ record log.old { effect = effect_of_select (asked log.old) query.now.columns.now to.now (item_at (ordered query.now.sorts.now (matching [] rows.now)) at) env.now }) }
    ensures err { OnErr result (without_effect log.new ≡ without_effect log.old) }
{
    let item = chosen_row(alloc, query.sorts, rows, at)?;
    select_row(alloc, env, query.columns, to, item, log)
}

/// Writes the rest of the effect of a SELECT that asked and takes this row.
fn select_row(
    alloc: Global,
    env: &Env,
    columns: &[u16],
    to: &[u16],
    row: Option<&Found<'_>>,
    log: &mut Log,
) -> Result<(), NoMemory>
    requires found { env.now.found < 2 ^ 16 }
    requires one { AsksOne log.old }
    ensures ok { OnOk result (log.new ≡ record log.old { effect = effect_of_select (asked log.old) columns.now to.now (option_copied row.entry) env.now }) }
    ensures err { OnErr result (without_effect log.new ≡ without_effect log.old) }
{
    push_selected(alloc, env, columns, to, row, log)
}

/// Writes the rest of the effect of a SELECT that asked and takes this row.
fn select_found(
    alloc: Global,
    env: &Env,
    columns: &[u16],
    to: &[u16],
    row: Option<Found<'_>>,
    log: &mut Log,
) -> Result<(), NoMemory>
    requires found { env.now.found < 2 ^ 16 }
    requires one { AsksOne log.old }
    ensures ok { OnOk result (log.new ≡ record log.old { effect = effect_of_select (asked log.old) columns.now to.now row.entry env.now }) }
    ensures err { OnErr result (without_effect log.new ≡ without_effect log.old) }
{
    select_row(alloc, env, columns, to, row.as_ref(), log)
}

/// Returns the direction in which the first row that the predicate finds is the one with this number in ORDER BY order.
/// Returns none if more rows may be needed.
fn leading_at(
    context: &Context<'_>,
    sorts: &[RSort],
    pred: &PredRef<'_>,
    at: i64,
) -> Option<Direction>
    ensures first { IfSome result (λ d. at ≡ pos 0) }
    ensures leads { IfSome result (Leads sorts.now (key_columns context.now.tables.now pred.now.table) pred.now.tests) }
{
    if at != 0 {
        return None;
    }
    let keys = key_in(context.tables, pred.table() as u16);
    order_direction(sorts, keys, pred.tests())
}

/// Returns what `leading_at` returns for what the open effect asks.
fn leading_asked(context: &Context<'_>, sorts: &[RSort], log: &Log, at: i64) -> Option<Direction>
    requires { AsksOne log.now }
    ensures first { IfSome result (λ d. at ≡ pos 0) }
    ensures leads { IfSome result (Leads sorts.now (key_columns context.now.tables.now (asked log.now).table) (asked log.now).tests) }
{
    leading_at(context, sorts, &asked_pred(log), at)
}

/// Writes the rest of the effect of a SELECT that asked and takes the row with this number. It asks the view for one
/// row, where that is the first or the last in key order and none of the call's own writes matters.
fn select_asked<'s, V: View<'s>>(
    alloc: Global,
    context: &Context<'_>,
    query: &Query<'_>,
    to: &[u16],
    at: i64,
    log: &mut Log,
    view: &mut V,
) -> Result<(), Refused>
    requires stands { AreSoundTables context.now.tables.now (own_seen context.now log.old) (V.sight view.old).database }
    requires found { context.now.env.now.found < 2 ^ 16 }
    requires one { AsksOne log.old }
    requires knows { KnowsKey context.now.tables.now (asked log.old) }
    ensures effect { OnOk result (log.new ≡ record log.old { effect = effect_of_select (asked log.old) query.now.columns.now to.now (item_at (ordered query.now.sorts.now (found_by (asked log.old) (applied (own_seen context.now log.old) (V.sight view.old).database))) at) context.now.env.now }) }
    ensures err { OnErr result (without_effect log.new ≡ without_effect log.old) }
    ensures view { OnlyAsks (V.sight view.old) (V.sight view.new) result }
    ensures looks { AskedAtMost 1 (different (own_seen context.now log.old)) (V.sight view.old) (V.sight view.new) }
{
    if let Some(direction) = leading_asked(context, query.sorts, log, at) {
        let row = first_asked(alloc, context, log, direction, view)?;
        select_found(alloc, context.env, query.columns, to, row, log)?;
        return Ok(());
    }
    let rows = rows_asked(alloc, context, log, view)?;
    select_at(alloc, context.env, query, to, at, rows.as_slice(), log)?;
    Ok(())
}

/// Writes the effect of SELECT INTO: it sets its targets to the columns of the chosen row, if there is one, and sets
/// `:found`. The call ends if a right side of WHERE or OFFSET is stopped.
pub(crate) fn select<'s, V: View<'s>>(
    alloc: Global,
    context: &Context<'_>,
    query: &Query<'_>,
    to: &[u16],
    at: &Option<RExpr>,
    log: &mut Log,
    view: &mut V,
) -> Result<(), Refused>
    requires stands { AreSoundTables context.now.tables.now (own_seen context.now log.old) (V.sight view.old).database }
    requires found { context.now.env.now.found < 2 ^ 16 }
    requires tests { Tests context.now.tables.now query.now.table query.now.conds.now }
    requires columns { AreColumns context.now.tables.now query.now.table (with_sorts query.now.columns.now query.now.sorts.now) }
    requires blank { IsBlank log.old }
    ensures effect { OnOk result (IsEffect context.now.tables.now (layer.Select query.now.columns.now to.now query.now.table query.now.conds.now query.now.sorts.now at.now) context.now.env.now (applied (own_seen context.now log.old) (V.sight view.old).database) log.new.effect) }
    ensures rest { OnOk result (log.new ≡ record log.old { effect = log.new.effect }) }
    ensures err { OnErr result (without_effect log.new ≡ without_effect log.old) }
    ensures view { OnlyAsks (V.sight view.old) (V.sight view.new) result }
    ensures looks { AskedBy context.now.tables.now (layer.Select query.now.columns.now to.now query.now.table query.now.conds.now query.now.sorts.now at.now) context.now.env.now (own_seen context.now log.old) (V.sight view.old) (V.sight view.new) }
{
    let at = match row_query(alloc, context, query, at, log) {
        Ok(at) => at,
        Err(reason) => return stop_after(log, reason),
    };
    select_asked(alloc, context, query, to, at, log, view)
}

/// Writes the rest of the effect of an aggregate that asked and found these rows.
fn total_rows(
    alloc: Global,
    env: &Env,
    agg: RAgg,
    to: u16,
    rows: &[Found<'_>],
    log: &mut Log,
) -> Result<(), NoMemory>
    requires found { env.now.found < 2 ^ 16 }
    requires one { AsksOne log.old }
    ensures ok { OnOk result (log.new ≡ record log.old { effect = effect_after (asked log.old) (aggregate agg (matching [] rows.now)) (λ total. effect_of_aggregate (asked log.old) to total (is_some_row (matching [] rows.now)) env.now) }) }
    ensures err { OnErr result (without_effect log.new ≡ without_effect log.old) }
{
    match aggregate_of(alloc, agg, rows) {
        Ok(total) => push_total(env, to, total, !rows.is_empty(), log),
        Err(reason) => stop(log, reason),
    }
}

/// Writes the rest of the effect of MIN or MAX that asked, where this row tells its value.
fn total_row(
    alloc: Global,
    env: &Env,
    column: u16,
    to: u16,
    row: Option<Found<'_>>,
    log: &mut Log,
) -> Result<(), NoMemory>
    requires found { env.now.found < 2 ^ 16 }
    requires one { AsksOne log.old }
    ensures ok { OnOk result (log.new ≡ record log.old { effect = effect_of_aggregate (asked log.old) to (option_map (λ item. column_of item.row column) row.entry) (is_some row.entry) env.now }) }
    ensures err { OnErr result (without_effect log.new ≡ without_effect log.old) }
{
    let total = value_in(alloc, column, row.as_ref())?;
    push_total(env, to, total, row.is_some(), log)
}

/// Returns the column and the direction of `aggregate_direction` for what the open effect asks.
fn told_by(context: &Context<'_>, agg: RAgg, log: &Log) -> Option<(u16, Direction)>
    requires { AsksOne log.now }
    ensures { IfSome result (λ t. IsFromEnd agg (key_columns context.now.tables.now (asked log.now).table) (asked log.now).tests t.0 t.1) }
{
    let pred = asked_pred(log);
    let keys = key_in(context.tables, pred.table() as u16);
    aggregate_direction(agg, keys, pred.tests())
}

/// Writes the rest of the effect of an aggregate that asked. MIN and MAX of a key column ask the view for one row,
/// where `=` fixes all key columns before it and none of the call's own writes matters.
fn total_asked<'s, V: View<'s>>(
    alloc: Global,
    context: &Context<'_>,
    agg: RAgg,
    to: u16,
    log: &mut Log,
    view: &mut V,
) -> Result<(), Refused>
    requires stands { AreSoundTables context.now.tables.now (own_seen context.now log.old) (V.sight view.old).database }
    requires found { context.now.env.now.found < 2 ^ 16 }
    requires one { AsksOne log.old }
    requires knows { KnowsKey context.now.tables.now (asked log.old) }
    ensures effect { OnOk result (log.new ≡ record log.old { effect = total_asked agg to (asked log.old) (found_by (asked log.old) (applied (own_seen context.now log.old) (V.sight view.old).database)) context.now.env.now }) }
    ensures err { OnErr result (without_effect log.new ≡ without_effect log.old) }
    ensures view { OnlyAsks (V.sight view.old) (V.sight view.new) result }
    ensures looks { AskedAtMost 1 (different (own_seen context.now log.old)) (V.sight view.old) (V.sight view.new) }
{
    if let Some((column, direction)) = told_by(context, agg, log) {
        let row = first_asked(alloc, context, log, direction, view)?;
        total_row(alloc, context.env, column, to, row, log)?;
        return Ok(());
    }
    let rows = rows_asked(alloc, context, log, view)?;
    total_rows(alloc, context.env, agg, to, rows.as_slice(), log)?;
    Ok(())
}

/// Writes the effect of SELECT with an aggregate: it sets its target, if there is a total, and sets `:found`. The call
/// ends if a right side of WHERE is stopped, or if a sum is out of range.
pub(crate) fn total<'s, V: View<'s>>(
    alloc: Global,
    context: &Context<'_>,
    agg: RAgg,
    to: u16,
    table: u16,
    conds: &[RCond],
    log: &mut Log,
    view: &mut V,
) -> Result<(), Refused>
    requires stands { AreSoundTables context.now.tables.now (own_seen context.now log.old) (V.sight view.old).database }
    requires found { context.now.env.now.found < 2 ^ 16 }
    requires tests { Tests context.now.tables.now table conds.now }
    requires columns { AreColumns context.now.tables.now table (column_in agg) }
    requires blank { IsBlank log.old }
    ensures effect { OnOk result (IsEffect context.now.tables.now (layer.Total agg to table conds.now) context.now.env.now (applied (own_seen context.now log.old) (V.sight view.old).database) log.new.effect) }
    ensures rest { OnOk result (log.new ≡ record log.old { effect = log.new.effect }) }
    ensures err { OnErr result (without_effect log.new ≡ without_effect log.old) }
    ensures view { OnlyAsks (V.sight view.old) (V.sight view.new) result }
    ensures looks { AskedBy context.now.tables.now (layer.Total agg to table conds.now) context.now.env.now (own_seen context.now log.old) (V.sight view.old) (V.sight view.new) }
{
    match ask_total(alloc, context.tables, agg, table, conds, context.env, log) {
        Ok(()) => {}
        Err(reason) => return stop_after(log, reason),
    }
    total_asked(alloc, context, agg, to, log, view)
}

/// Writes the rest of the effect of a FOR that asked and has these turns.
fn loop_turns(alloc: Global, env: &Env, turns: List<Row>, log: &mut Log) -> Result<(), NoMemory>
    requires found { env.now.found < 2 ^ 16 }
    requires one { AsksOne log.old }
    ensures ok { OnOk result (log.new ≡ record log.old { effect = effect_of_loop (asked log.old) turns env.now }) }
    ensures err { OnErr result (without_effect log.new ≡ without_effect log.old) }
{
    push_found(env, has_turn(&turns), log)?;
    push_turns(alloc, turns, log)
}

/// Writes the rest of the effect of a FOR that asked and found these rows.
fn loop_rows(
    alloc: Global,
    env: &Env,
    once: bool,
    query: &Query<'_>,
    rows: &[Found<'_>],
    log: &mut Log,
) -> Result<(), NoMemory>
    requires rising { IsRising rows.now }
    requires found { env.now.found < 2 ^ 16 }
    requires one { AsksOne log.old }
    ensures ok { OnOk result (log.new ≡ record log.old { effect = effect_of_loop (asked log.old) (fixed once query.now.columns.now query.now.sorts.now (matching [] rows.now)) env.now }) }
    ensures err { OnErr result (without_effect log.new ≡ without_effect log.old) }
{
    let turns = fixed_rows(alloc, once, query.columns, query.sorts, rows)?;
    loop_turns(alloc, env, turns, log)
}

/// Writes the effect of FOR over SELECT: it fixes its rows, and sets `:found` to whether there are any. The call ends
/// if a right side of WHERE is stopped.
pub(crate) fn for_select<'s, V: View<'s>>(
    alloc: Global,
    context: &Context<'_>,
    once: bool,
    query: &Query<'_>,
    log: &mut Log,
    view: &mut V,
) -> Result<(), Refused>
    requires stands { AreSoundTables context.now.tables.now (own_seen context.now log.old) (V.sight view.old).database }
    requires found { context.now.env.now.found < 2 ^ 16 }
    requires tests { Tests context.now.tables.now query.now.table query.now.conds.now }
    requires columns { AreColumns context.now.tables.now query.now.table (with_sorts query.now.columns.now query.now.sorts.now) }
    requires blank { IsBlank log.old }
    ensures effect { OnOk result ((row : ℕ) (body : List RStmt) → IsEffect context.now.tables.now (layer.ForSelect row once query.now.columns.now query.now.table query.now.conds.now query.now.sorts.now body) context.now.env.now (applied (own_seen context.now log.old) (V.sight view.old).database) log.new.effect) }
    ensures rest { OnOk result (log.new ≡ record log.old { effect = log.new.effect }) }
    ensures err { OnErr result (without_effect log.new ≡ without_effect log.old) }
    ensures view { OnlyAsks (V.sight view.old) (V.sight view.new) result }
    ensures looks { (row : ℕ) (body : List RStmt) → AskedBy context.now.tables.now (layer.ForSelect row once query.now.columns.now query.now.table query.now.conds.now query.now.sorts.now body) context.now.env.now (own_seen context.now log.old) (V.sight view.old) (V.sight view.new) }
{
    match ask_select(alloc, context.tables, query, context.env, log) {
        Ok(()) => {}
        Err(reason) => return stop_after(log, reason),
    }
    let rows = rows_asked(alloc, context, log, view)?;
    loop_rows(alloc, context.env, once, query, rows.as_slice(), log)?;
    Ok(())
}
