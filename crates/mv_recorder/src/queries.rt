//! The effects of statements that read a table and change none.

ghost use Rattle.std.specs.Prelude.{◌≡◌, ◌<◌, ◌^◌, ℕ, List as Seq, IfOk};
ghost use Rattle.std.specs.Option.{option_copied, option_map};
ghost use Rattle.mv_catalog.specs.declared.resolved.RStmt.{RStmt};
ghost use Rattle.mv_catalog.specs.declared.resolved.RStmt.TheOpen as layer;
ghost use Rattle.mv_eval.specs.Alone.{is_turn};
ghost use Rattle.mv_recorded.specs.Asking.{column_in, with_sorts};
ghost use Rattle.mv_recorded.specs.Effects.{IsEffect, effect_of_select, effect_of_aggregate, effect_of_loop};
ghost use Rattle.mv_recorded.specs.Naming.{Tests, AreColumns};
ghost use Rattle.mv_recorder.specs.Scenes.{IsSound, Finds};
ghost use Rattle.mv_table.specs.Entries.{seen};

use crate::asked::{asking, is_any, rows_for, stopped_after};
use crate::predicates::{aggregate_pred, select_pred};
use crate::scene::Scene;
use crate::slots::{found_slots, selected_slots, total_slots};
use mv_catalog::resolved::{Query, RAgg, RCond, RExpr};
use mv_eval::expr::{number_in, offset};
use mv_eval::fixing::fixed_rows;
use mv_eval::order::chosen_row;
use mv_eval::state::{Env, Stop};
use mv_eval::totals::aggregate_of;
use mv_record::effect::Effect;
use mv_table::table::Entry;
use mv_values::list::List;
use mv_values::memory::NoMemory;
use mv_values::pred::Pred;
use mv_values::value::{Row, Value};
use std::alloc::Global;

/// Returns the effect of a SELECT that asked this and takes this row.
fn selected(
    alloc: Global,
    env: &Env,
    columns: &[u16],
    to: &[u16],
    pred: Pred,
    item: Option<&Entry<'_>>,
) -> Result<Effect, NoMemory>
    requires { env.now.found < 2 ^ 16 }
    ensures { IfOk result (λ e. e ≡ effect_of_select pred columns.now to.now (option_map seen (option_copied item.entry)) env.now) }
{
    let sets = selected_slots(alloc, env, columns, to, item)?;
    asking(alloc, pred, sets)
}

/// Returns the effect of SELECT INTO.
pub(crate) fn select(
    alloc: Global,
    scene: &Scene<'_>,
    query: &Query<'_>,
    to: &[u16],
    at: &Option<RExpr>,
) -> Result<Effect, Stop>
    requires sound { IsSound scene.now.infos.now scene.now.env.now scene.now.tables.now }
    requires tests { Tests scene.now.infos.now query.now.table query.now.conds.now }
    requires columns { AreColumns scene.now.infos.now query.now.table (with_sorts query.now.columns.now query.now.sorts.now) }
    ensures { Finds result (IsEffect scene.now.infos.now (layer.Select query.now.columns.now to.now query.now.table query.now.conds.now query.now.sorts.now at.now) scene.now.env.now scene.now.tables.now) }
{
    let pred = select_pred(alloc, scene.infos, query, scene.env)?;
    let place = offset(alloc, at, scene.env)?;
    let found = rows_for(alloc, scene, &pred)?;
    let items = found.as_slice();
    let item = chosen_row(alloc, query.sorts, items, number_in(&place))?;
    Ok(selected(alloc, scene.env, query.columns, to, pred, item)?)
}

/// Returns the effect of an aggregate that asked this and has this value. `found` is whether there are rows.
fn summed(
    alloc: Global,
    env: &Env,
    to: u16,
    pred: Pred,
    total: Option<Value>,
    found: bool,
) -> Result<Effect, NoMemory>
    requires { env.now.found < 2 ^ 16 }
    ensures { IfOk result (λ e. e ≡ effect_of_aggregate pred to total found env.now) }
{
    let sets = total_slots(alloc, env, to, total, found)?;
    asking(alloc, pred, sets)
}

/// Returns the effect of SELECT with an aggregate.
pub(crate) fn total(
    alloc: Global,
    scene: &Scene<'_>,
    agg: RAgg,
    to: u16,
    table: u16,
    conds: &[RCond],
) -> Result<Effect, Stop>
    requires sound { IsSound scene.now.infos.now scene.now.env.now scene.now.tables.now }
    requires tests { Tests scene.now.infos.now table conds.now }
    requires columns { AreColumns scene.now.infos.now table (column_in agg) }
    ensures { Finds result (IsEffect scene.now.infos.now (layer.Total agg to table conds.now) scene.now.env.now scene.now.tables.now) }
{
    let pred = aggregate_pred(alloc, scene.infos, agg, table, conds, scene.env)?;
    let found = rows_for(alloc, scene, &pred)?;
    let items = found.as_slice();
    match aggregate_of(alloc, agg, items) {
        Ok(total) => Ok(summed(alloc, scene.env, to, pred, total, is_any(items))?),
        Err(stop) => Ok(stopped_after(alloc, pred, stop)?),
    }
}

/// Whether a loop over these rows has a turn.
pub(crate) fn has_turn(rows: &List<Row>) -> bool
    ensures { result ≡ is_turn rows.now }
{
    match rows.as_slice().first() {
        None => false,
        Some(_) => true,
    }
}

/// Returns the effect of a FOR that asked this and fixed these rows.
fn looped(alloc: Global, env: &Env, pred: Pred, rows: List<Row>) -> Result<Effect, NoMemory>
    requires { env.now.found < 2 ^ 16 }
    ensures { IfOk result (λ e. e ≡ effect_of_loop pred rows env.now) }
{
    let sets = found_slots(alloc, env, has_turn(&rows))?;
    let mut effect = asking(alloc, pred, sets)?;
    effect.rows = rows;
    Ok(effect)
}

/// Returns the effect of FOR over SELECT, which fixes its rows.
pub(crate) fn for_select(
    alloc: Global,
    scene: &Scene<'_>,
    once: bool,
    query: &Query<'_>,
) -> Result<Effect, Stop>
    requires sound { IsSound scene.now.infos.now scene.now.env.now scene.now.tables.now }
    requires tests { Tests scene.now.infos.now query.now.table query.now.conds.now }
    requires columns { AreColumns scene.now.infos.now query.now.table (with_sorts query.now.columns.now query.now.sorts.now) }
    ensures { Finds result (λ effect. (row : ℕ) (body : Seq RStmt) → IsEffect scene.now.infos.now (layer.ForSelect row once query.now.columns.now query.now.table query.now.conds.now query.now.sorts.now body) scene.now.env.now scene.now.tables.now effect) }
{
    let pred = select_pred(alloc, scene.infos, query, scene.env)?;
    let found = rows_for(alloc, scene, &pred)?;
    let items = found.as_slice();
    let rows = fixed_rows(alloc, once, query.columns, query.sorts, items)?;
    Ok(looped(alloc, scene.env, pred, rows)?)
}
