//! Executes the next statement of a running call.

ghost use Rattle.std.specs.Prelude.{◌≡◌, ◌<◌, ◌≤◌, ◌+◌, ◌^◌, Some, false, length, IfOk, OnOk, OnErr};
ghost use Rattle.mv_values.specs.Patching.{applied};
ghost use Rattle.mv_values.specs.Tables.{KeysStand};
ghost use Rattle.mv_record.specs.Databases.{IsDatabaseOf};
ghost use Rattle.mv_record.specs.Runs.{writes_in};
ghost use Rattle.mv_graph.specs.Nodes.{IsSound};
ghost use Rattle.mv_effect.specs.Logging.{IsBlank};
ghost use Rattle.mv_effect.specs.Looking.{AskedFor, OnlyAsks};
ghost use Rattle.mv_exec.specs.Ahead.{PeeksLeft};
ghost use Rattle.mv_exec.specs.Frames.{IsAtStep};
ghost use Rattle.mv_exec.specs.Recording.{IsAtRest, peeked};
ghost use Rattle.mv_exec.specs.Running.{preds_ahead, stepped};
ghost use Rattle.mv_exec.specs.Steps.{HasExecuted};
ghost use Rattle.mv_exec.specs.Tasks.{frames_of, IsTask, StandsAsBefore};

use crate::add::add;
use crate::ahead::advance;
use crate::position::Position;
use crate::recording::{OpenStatement, Origin};
use crate::step::Stepped;
use crate::task::Task;
use mv_effect::statement::effect;
use mv_graph::graph::Graph;
use mv_view::view::{Refused, View};
use std::alloc::Global;

/// Executes the open statement of a call, which is its next one, and adds its record. Returns whether the call has ended.
/// On an error only the open statement may have changed.
fn execute<'s, V: View<'s>>(
    alloc: Global,
    graph: &Graph,
    task: &mut Task,
    at: OpenStatement,
    position: Position<'_>,
    view: &mut V,
) -> Result<Stepped, Refused>
    requires sound { IsSound graph.now }
    requires task { IsTask graph.now.procedure task.old }
    requires live { task.old.ended ≡ false }
    requires blank { IsBlank task.old.log }
    requires at { IsAtStep graph.now.procedure (frames_of task.old) position.frame position.step.now }
    requires next { PeeksLeft graph.now.procedure task.old (Some (peeked task.old.log at)) }
    requires found { task.old.variables.env.found < 2 ^ 16 }
    requires database { IsDatabaseOf graph.now.tables (V.sight view.old).database }
    requires keys { KeysStand graph.now.tables (applied (writes_in task.old.log.records) (V.sight view.old).database) }
    ensures task { IsTask graph.now.procedure task.new }
    ensures executed { OnOk result (HasExecuted graph.now.tables graph.now.procedure task.old task.new (V.sight view.old) (V.sight view.new)) }
    ensures counted { OnOk result (task.new.executed ≡ task.old.executed + 1) }
    ensures tells { IfOk result (λ s. s ≡ stepped task.new.ended) }
    ensures found { task.new.variables.env.found ≡ task.old.variables.env.found }
    ensures rest { OnOk result (IsAtRest task.new.log) }
    ensures past { task.new.log.past ≡ task.old.log.past }
    ensures kept { task.new.log.kept ≡ task.old.log.kept }
    ensures err { OnErr result (StandsAsBefore graph.now.procedure task.old task.new) }
    ensures view { OnlyAsks (V.sight view.old) (V.sight view.new) result }
    ensures bounded { AskedFor (preds_ahead graph.now (V.sight view.old).database task.old) (writes_in task.old.log.records) (V.sight view.old) (V.sight view.new) }
{
    let number = task.log.len();
    let holds = effect(
        alloc,
        graph.tables.as_slice(),
        &position.step.statement,
        task.variables.env(),
        number as usize,
        &mut task.log,
        view,
    )?;
    let stepped = add(alloc, graph, task, at, Origin::Executed, position, holds)?;
    task.executed += (task.log.len() - number) as usize;
    Ok(stepped)
}

/// Executes the next statement of a call, and adds its record. Returns whether the call has ended. On an error only the
/// open statement may have changed.
pub(crate) fn execute_next<'s, V: View<'s>>(
    alloc: Global,
    graph: &Graph,
    task: &mut Task,
    view: &mut V,
) -> Result<Stepped, Refused>
    requires sound { IsSound graph.now }
    requires task { IsTask graph.now.procedure task.old }
    requires params { task.old.parameters ≡ length graph.now.procedure.params }
    requires live { task.old.ended ≡ false }
    requires rest { IsAtRest task.old.log }
    requires found { task.old.variables.env.found < 2 ^ 16 }
    requires database { IsDatabaseOf graph.now.tables (V.sight view.old).database }
    requires keys { KeysStand graph.now.tables (applied (writes_in task.old.log.records) (V.sight view.old).database) }
    ensures task { IsTask graph.now.procedure task.new }
    ensures executed { OnOk result (HasExecuted graph.now.tables graph.now.procedure task.old task.new (V.sight view.old) (V.sight view.new)) }
    ensures counted { OnOk result (task.new.executed ≡ task.old.executed + 1) }
    ensures tells { IfOk result (λ s. s ≡ stepped task.new.ended) }
    ensures found { task.new.variables.env.found ≡ task.old.variables.env.found }
    ensures rest { OnOk result (IsAtRest task.new.log) }
    ensures past { task.new.log.past ≡ task.old.log.past }
    ensures kept { task.new.log.kept ≡ task.old.log.kept }
    ensures err { OnErr result (StandsAsBefore graph.now.procedure task.old task.new) }
    ensures view { OnlyAsks (V.sight view.old) (V.sight view.new) result }
    ensures bounded { AskedFor (preds_ahead graph.now (V.sight view.old).database task.old) (writes_in task.old.log.records) (V.sight view.old) (V.sight view.new) }
{
    let (at, position) = advance(alloc, graph, task)?;
    execute(alloc, graph, task, at, position, view)
}
