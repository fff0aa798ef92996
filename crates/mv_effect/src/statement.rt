//! The effect of one statement.

ghost use Rattle.std.specs.Prelude.{◌≡◌, IfOk, OnOk, OnErr};
ghost use Rattle.mv_values.specs.Patching.{applied};
ghost use Rattle.mv_catalog.specs.declared.resolved.RStmt.{out-RStmt};
ghost use Rattle.mv_undo.specs.Owning.{earlier};
ghost use Rattle.mv_log.specs.Logged.{owned};
ghost use Rattle.mv_recorded.specs.Effects.{IsEffect};
ghost use Rattle.mv_effect.specs.Choosing.{Chooses};
ghost use Rattle.mv_effect.specs.Logging.{IsBlank, without_effect};
ghost use Rattle.mv_effect.specs.Looking.{IsExecutable, OnlyAsks, AskedBy};

use crate::changes::{delete, insert, update};
use crate::context::Context;
use crate::queries::{for_select, select, total};
use crate::tableless::{assign, branch, decide, for_rows, print, rollback};
use mv_catalog::resolved::{Query, RStmt, Update};
use mv_eval::state::Env;
use mv_log::log::Log;
use mv_values::schema::TableInfo;
use mv_view::view::{Refused, View};
use std::alloc::Global;

/// Writes the effect of a statement into the open record of a log. On an error the open effect may be begun.
fn write_effect<'s, V: View<'s>>(
    alloc: Global,
    tables: &[TableInfo],
    statement: &RStmt,
    env: &Env,
    number: usize,
    log: &mut Log,
    view: &mut V,
) -> Result<(), Refused>
    requires executable { IsExecutable tables.now statement.now env.now (earlier number (owned log.old)) (V.sight view.old).database }
    requires blank { IsBlank log.old }
    ensures effect { OnOk result (IsEffect tables.now (out-RStmt statement.now) env.now (applied (earlier number (owned log.old)) (V.sight view.old).database) log.new.effect) }
    ensures rest { OnOk result (log.new ≡ record log.old { effect = log.new.effect }) }
    ensures err { OnErr result (without_effect log.new ≡ without_effect log.old) }
    ensures view { OnlyAsks (V.sight view.old) (V.sight view.new) result }
    ensures looks { AskedBy tables.now (out-RStmt statement.now) env.now (earlier number (owned log.old)) (V.sight view.old) (V.sight view.new) }
{
    let context = Context {
        tables,
        env,
        number,
    };
    match statement {
        RStmt::Assign { to, right } => assign(alloc, *to, right, env, log),
        RStmt::Select {
            columns,
            to,
            table,
            conds,
            sorts,
            offset,
        } => {
            let query = Query {
                table: *table,
                columns: columns.as_slice(),
                conds: conds.as_slice(),
                sorts: sorts.as_slice(),
            };
            select(alloc, &context, &query, to.as_slice(), offset, log, view)
        }
        RStmt::Total {
            agg,
            to,
            table,
            conds,
        } => total(
            alloc,
            &context,
            *agg,
            *to,
            *table,
            conds.as_slice(),
            log,
            view,
        ),
        RStmt::ForSelect {
            distinct,
            columns,
            table,
            conds,
            sorts,
            ..
        } => {
            let query = Query {
                table: *table,
                columns: columns.as_slice(),
                conds: conds.as_slice(),
                sorts: sorts.as_slice(),
            };
            for_select(alloc, &context, *distinct, &query, log, view)
        }
        RStmt::ForRows { rows, .. } => for_rows(alloc, *rows, env, log),
        RStmt::Branch { test, .. } => branch(alloc, test, env, log),
        RStmt::Insert { table, values } => insert(
            alloc,
            &context,
            *table,
            values.as_slice(),
            log,
            view,
        ),
        RStmt::Update {
            table,
            items,
            conds,
        } => {
            let parts = Update {
                table: *table,
                items: items.as_slice(),
                conds: conds.as_slice(),
            };
            update(alloc, &context, &parts, log, view)
        }
        RStmt::Delete { table, conds } => delete(
            alloc,
            &context,
            *table,
            conds.as_slice(),
            log,
            view,
        ),
        RStmt::Print { values } => print(alloc, values.as_slice(), env, log),
        RStmt::Rollback { reason } => rollback(alloc, reason, log),
    }
}

/// Writes the effect of a statement into the open record of a log. Returns whether the condition of an IF holds, and
/// `false` for any other statement. On an error the open effect may be begun.
fn write_choice<'s, V: View<'s>>(
    alloc: Global,
    tables: &[TableInfo],
    statement: &RStmt,
    env: &Env,
    number: usize,
    log: &mut Log,
    view: &mut V,
) -> Result<bool, Refused>
    requires executable { IsExecutable tables.now statement.now env.now (earlier number (owned log.old)) (V.sight view.old).database }
    requires blank { IsBlank log.old }
    ensures effect { OnOk result (IsEffect tables.now (out-RStmt statement.now) env.now (applied (earlier number (owned log.old)) (V.sight view.old).database) log.new.effect) }
    ensures rest { OnOk result (log.new ≡ record log.old { effect = log.new.effect }) }
    ensures branch { IfOk result (λ holds. Chooses env.now holds (out-RStmt statement.now)) }
    ensures err { OnErr result (without_effect log.new ≡ without_effect log.old) }
    ensures view { OnlyAsks (V.sight view.old) (V.sight view.new) result }
    ensures looks { AskedBy tables.now (out-RStmt statement.now) env.now (earlier number (owned log.old)) (V.sight view.old) (V.sight view.new) }
{
    if let RStmt::Branch { test, .. } = statement {
        return decide(alloc, test, env, log);
    }
    write_effect(alloc, tables, statement, env, number, log, view)?;
    Ok(false)
}

/// Writes the effect of a statement into the open record of a log, whose effect has nothing yet. Returns whether the
/// condition of an IF holds, and `false` for any other statement. The variables are those before the statement, and it
/// sees the view and the own writes of records with smaller numbers. An IF only evaluates its condition, once, and a FOR
/// only fixes its rows.
///
/// For each predicate of the statement the view is asked at most once for its rows, or for the first of them, and at most
/// once for the row under each key that these writes are on.
///
/// Fails with `NoMemory` if memory runs out, and with `Stale` if the view answers `Stale`. The log is then unchanged.
#[tactic(auto, using(crate::proofs::Ends::taken_back))]
pub fn effect<'s, V: View<'s>>(
    alloc: Global,
    tables: &[TableInfo],
    statement: &RStmt,
    env: &Env,
    number: usize,
    log: &mut Log,
    view: &mut V,
) -> Result<bool, Refused>
    requires executable { IsExecutable tables.now statement.now env.now (earlier number (owned log.old)) (V.sight view.old).database }
    requires blank { IsBlank log.old }
    ensures effect { OnOk result (IsEffect tables.now (out-RStmt statement.now) env.now (applied (earlier number (owned log.old)) (V.sight view.old).database) log.new.effect) }
    ensures rest { OnOk result (log.new ≡ record log.old { effect = log.new.effect }) }
    ensures branch { IfOk result (λ holds. Chooses env.now holds (out-RStmt statement.now)) }
    ensures err { OnErr result (log.new ≡ log.old) }
    ensures view { OnlyAsks (V.sight view.old) (V.sight view.new) result }
    ensures looks { AskedBy tables.now (out-RStmt statement.now) env.now (earlier number (owned log.old)) (V.sight view.old) (V.sight view.new) }
{
    match write_choice(alloc, tables, statement, env, number, log, view) {
        Ok(holds) => Ok(holds),
        Err(refused) => {
            log.drop_effect();
            Err(refused)
        }
    }
}
