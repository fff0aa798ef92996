//! The effect of one statement.

ghost use Rattle.std.specs.Prelude.{IfOk};
ghost use Rattle.mv_catalog.specs.declared.resolved.RStmt.{out-RStmt};
ghost use Rattle.mv_recorded.specs.Effects.{IsEffect};
ghost use Rattle.mv_recorded.specs.Naming.{NamesColumns};
ghost use Rattle.mv_recorder.specs.Scenes.{IsSound, Finds};

use crate::asked::ended;
use crate::changes::{delete, insert, update};
use crate::queries::{for_select, select, total};
use crate::scene::Scene;
use crate::simple::{assign, branch, for_rows, print, rollback};
use mv_catalog::resolved::{Query, RStmt, Update};
use mv_eval::state::Stop;
use mv_record::effect::Effect;
use mv_values::memory::NoMemory;
use std::alloc::Global;

/// Returns the effect of a statement. Fails with its end if it ends before it asks anything.
fn attempt(alloc: Global, scene: &Scene<'_>, statement: &RStmt) -> Result<Effect, Stop>
    requires sound { IsSound scene.now.infos.now scene.now.env.now scene.now.tables.now }
    requires names { NamesColumns scene.now.infos.now (out-RStmt statement.now) }
    ensures { Finds result (IsEffect scene.now.infos.now (out-RStmt statement.now) scene.now.env.now scene.now.tables.now) }
{
    match statement {
        RStmt::Assign { to, right } => assign(alloc, scene, *to, right),
        RStmt::Select {
            columns,
            to,
            table,
            conds,
            sorts,
            offset,
        } => {
            let query = Query {
                table: *table,
                columns: columns.as_slice(),
                conds: conds.as_slice(),
                sorts: sorts.as_slice(),
            };
            select(alloc, scene, &query, to.as_slice(), offset)
        }
        RStmt::Total {
            agg,
            to,
            table,
            conds,
        } => total(alloc, scene, *agg, *to, *table, conds.as_slice()),
        RStmt::ForSelect {
            distinct,
            columns,
            table,
            conds,
            sorts,
            ..
        } => {
            let query = Query {
                table: *table,
                columns: columns.as_slice(),
                conds: conds.as_slice(),
                sorts: sorts.as_slice(),
            };
            for_select(alloc, scene, *distinct, &query)
        }
        RStmt::ForRows { rows, .. } => for_rows(alloc, scene, *rows),
        RStmt::Branch { test, .. } => branch(alloc, scene, test),
        RStmt::Insert { table, values } => insert(alloc, scene, *table, values.as_slice()),
        RStmt::Update {
            table,
            items,
            conds,
        } => {
            let parts = Update {
                table: *table,
                items: items.as_slice(),
                conds: conds.as_slice(),
            };
            update(alloc, scene, &parts)
        }
        RStmt::Delete { table, conds } => delete(alloc, scene, *table, conds.as_slice()),
        RStmt::Print { values } => print(alloc, scene, values.as_slice()),
        RStmt::Rollback { reason } => rollback(alloc, scene, reason),
    }
}

/// Returns the effect of a statement, executed with these variables on this database. An IF only evaluates its
/// condition, and a FOR only fixes its rows.
pub(crate) fn effect(
    alloc: Global,
    scene: &Scene<'_>,
    statement: &RStmt,
) -> Result<Effect, NoMemory>
    requires sound { IsSound scene.now.infos.now scene.now.env.now scene.now.tables.now }
    requires names { NamesColumns scene.now.infos.now (out-RStmt statement.now) }
    ensures { IfOk result (IsEffect scene.now.infos.now (out-RStmt statement.now) scene.now.env.now scene.now.tables.now) }
{
    match attempt(alloc, scene, statement) {
        Ok(effect) => Ok(effect),
        Err(Stop::Memory) => Err(NoMemory),
        Err(Stop::Ended(end)) => Ok(ended(alloc, end)),
    }
}
