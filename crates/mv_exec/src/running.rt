//! Running calls of a graph: one statement at a time over a view, or to the end.

ghost use Rattle.std.specs.Prelude.{◌≡◌, ◌↔◌, ◌<◌, ◌≤◌, ◌+◌, [], None, false, true, length, slice_get, IfOk, OnOk, OnErr, Some};
ghost use Rattle.mv_values.specs.declared.calls.Call.{Call};
ghost use Rattle.mv_values.specs.Tables.{Tables};
ghost use Rattle.mv_record.specs.declared.record.Record.{Record};
ghost use Rattle.mv_record.specs.Databases.{IsDatabaseOf};
ghost use Rattle.mv_record.specs.Runs.{writes_in};
ghost use Rattle.mv_log.specs.Logged.{empty as no_records};
ghost use Rattle.mv_graph.specs.Nodes.{IsSound, meaning_of};
ghost use Rattle.mv_effect.specs.Looking.{AskedFor, OnlyAsks};
ghost use Rattle.mv_exec.specs.Recording.{IsAtRest};
ghost use Rattle.mv_exec.specs.Running.{IsRunning, IsRunningOn, IsSameCall, IsSameCallOn, IsTaskOf, IsTaskOn, IsUnchanged, IsAhead, GoesOnWith, HasAdopted, HasRun, HasRunTo, if_refused, preds_ahead, stepped, EndsExactly};
ghost use Rattle.mv_exec.specs.Steps.{HasAddedNext};
ghost use Rattle.mv_exec.specs.Tasks.{IsTask, StandsAsBefore};

use crate::add::add;
use crate::ahead::{Ahead, advance, peek_next};
use crate::execute::execute_next;
use crate::moves::branch;
use crate::recording::Origin;
use crate::step::Stepped;
use crate::task::Task;
use mv_graph::graph::Graph;
use mv_log::log::Log;
use mv_values::calls::Call;
use mv_values::memory::NoMemory;
use mv_view::view::{Refused, View};
use std::alloc::Global;

impl Task {
    /// Returns a call before its first statement, whose records go into this log. It copies the arguments.
    pub fn new(alloc: Global, graph: &Graph, call: &Call, log: Log) -> Result<Task, NoMemory>
        requires sound { IsSound graph.now }
        requires arguments { length call.now.arguments ≡ length graph.now.procedure.params }
        requires log { log ≡ no_records }
        ensures call { IfOk result (IsTaskOf graph.now call.now) }
        ensures begins { IfOk result (λ task. (db : Tables) → IsTaskOn graph.now call.now db task) }
        ensures records { IfOk result (λ task. task.log.records ≡ []) }
        ensures executed { IfOk result (λ task. task.executed ≡ 0) }
        ensures running { IfOk result (λ task. (db : Tables) → IsRunningOn graph.now db task) }
    {
        let task = Task::of(alloc, &graph.procedure, call, log)?;
        Ok(task)
    }
}

/// Returns the place, controller and definers of the next record, or none exactly if no statement is left. Allocates
/// nothing.
pub fn peek<'a>(graph: &'a Graph, task: &'a Task) -> Option<Ahead<'a>>
    requires sound { IsSound graph.now }
    requires running { IsRunning graph.now task.now }
    ensures next { IsAhead graph.now task.now result }
    ensures ended { (task.now.ended ≡ true) ↔ (result ≡ None) }
{
    peek_next(graph, task)
}

/// Adds a record of the run before the repair as the record of the next statement. On `NoMemory` only the open statement
/// may have changed.
fn adopt_next(alloc: Global, graph: &Graph, task: &mut Task, old: u32) -> Result<Stepped, NoMemory>
    requires sound { IsSound graph.now }
    requires task { IsTask graph.now.procedure task.old }
    requires params { task.old.parameters ≡ length graph.now.procedure.params }
    requires live { task.old.ended ≡ false }
    requires rest { IsAtRest task.old.log }
    requires there { old < length task.old.log.past }
    requires rises { task.old.log.kept ≤ old }
    ensures task { IsTask graph.now.procedure task.new }
    ensures added { OnOk result ((given : Record) → slice_get task.old.log.past old ≡ Some given → HasAddedNext graph.now.procedure task.old given task.new) }
    ensures executed { OnOk result (task.new.executed ≡ task.old.executed) }
    ensures tells { IfOk result (λ s. s ≡ stepped task.new.ended) }
    ensures found { task.new.variables.env.found ≡ task.old.variables.env.found }
    ensures rest { OnOk result (IsAtRest task.new.log) }
    ensures past { task.new.log.past ≡ task.old.log.past }
    ensures kept { OnOk result (task.new.log.kept ≡ old + 1) }
    ensures err { OnErr result (StandsAsBefore graph.now.procedure task.old task.new) }
{
    let (at, position) = advance(alloc, graph, task)?;
    let yes = branch(alloc, &position.step.statement, task.variables.env())?;
    add(alloc, graph, task, at, Origin::Kept(old), position, yes)
}

/// Keeps a record of the run before the repair as the record of the next statement, without executing that. The record
/// gets the statement's place, controller and definers, and is otherwise the old one. Its items aren't moved or copied,
/// but for its own writes and the variables. Old records are kept in their order. Returns whether the call has ended. On
/// `NoMemory` the call is unchanged, but the old record can't be kept any more.
pub fn adopt(alloc: Global, graph: &Graph, task: &mut Task, old: u32) -> Result<Stepped, NoMemory>
    requires sound { IsSound graph.now }
    requires running { IsRunning graph.now task.old }
    requires live { task.old.ended ≡ false }
    requires there { old < length task.old.log.past }
    requires rises { task.old.log.kept ≤ old }
    ensures running { IsRunning graph.now task.new }
    ensures call { IsSameCall graph.now task.old task.new }
    ensures adopted { OnOk result ((given : Record) → slice_get task.old.log.past old ≡ Some given → HasAdopted graph.now task.old given task.new) }
    ensures goes_on { OnOk result ((given : Record) → slice_get task.old.log.past old ≡ Some given → GoesOnWith graph.now task.old given task.new) }
    ensures tells { IfOk result (λ it. it ≡ stepped task.new.ended) }
    ensures past { task.new.log.past ≡ task.old.log.past }
    ensures kept { OnOk result (task.new.log.kept ≡ old + 1) }
    ensures err { OnErr result (IsUnchanged task.old task.new) }
{
    let number = task.log.len();
    match adopt_next(alloc, graph, task, old) {
        Ok(stepped) => Ok(stepped),
        Err(error) => {
            task.log.truncate(number);
            Err(error)
        }
    }
}

/// Executes the next statement over the view and the call's own writes, and adds its record. An IF only evaluates its
/// condition, and a FOR only fixes its rows. The statements inside them come next. Returns whether the call has ended.
/// A call that had already ended is unchanged, and doesn't query the view. On an error the call is unchanged, and the view
/// was queried for no more than the predicates of the record that was tried.
///
/// Fails with `NoMemory` if memory runs out, and with `Stale` if the view reports it.
pub fn next<'s, V: View<'s>>(
    alloc: Global,
    graph: &Graph,
    task: &mut Task,
    view: &mut V,
) -> Result<Stepped, Refused>
    requires sound { IsSound graph.now }
    requires database { IsDatabaseOf graph.now.tables (V.sight view.old).database }
    requires running { IsRunningOn graph.now (V.sight view.old).database task.old }
    ensures running { IsRunningOn graph.now (V.sight view.old).database task.new }
    ensures call { IsSameCall graph.now task.old task.new }
    ensures goes_on { IsSameCallOn graph.now (V.sight view.old).database task.old task.new }
    ensures ran { OnOk result (task.old.ended ≡ false → HasRun task.old task.new (V.sight view.old) (V.sight view.new)) }
    ensures past { task.new.log.past ≡ task.old.log.past }
    ensures kept { task.new.log.kept ≡ task.old.log.kept }
    ensures rests { task.old.ended ≡ true → IsUnchanged task.old task.new }
    ensures idle { task.old.ended ≡ true → V.sight view.new ≡ V.sight view.old }
    ensures tells { IfOk result (λ it. it ≡ stepped task.new.ended) }
    ensures err { OnErr result (IsUnchanged task.old task.new) }
    ensures view { OnlyAsks (V.sight view.old) (V.sight view.new) result }
    ensures tried { OnErr result (AskedFor (preds_ahead graph.now (V.sight view.old).database task.new) (writes_in task.new.log.records) (V.sight view.old) (V.sight view.new)) }
{
    if task.ended {
        return Ok(Stepped::Ended);
    }
    let number = task.log.len();
    match execute_next(alloc, graph, task, view) {
        Ok(stepped) => Ok(stepped),
        Err(refused) => {
            task.log.truncate(number);
            Err(refused)
        }
    }
}

/// Executes the rest of a call over a view. On an error the call keeps the records added so far. `finish` can then
/// continue it, and `restart` and `begin_repair` can begin it again.
///
/// Fails with `NoMemory` if memory runs out, and with `Stale` if the view reports it.
pub fn finish<'s, V: View<'s>>(
    alloc: Global,
    graph: &Graph,
    task: &mut Task,
    view: &mut V,
) -> Result<(), Refused>
    requires sound { IsSound graph.now }
    requires database { IsDatabaseOf graph.now.tables (V.sight view.old).database }
    requires running { IsRunningOn graph.now (V.sight view.old).database task.old }
    ensures running { IsRunningOn graph.now (V.sight view.old).database task.new }
    ensures call { IsSameCall graph.now task.old task.new }
    ensures goes_on { IsSameCallOn graph.now (V.sight view.old).database task.old task.new }
    ensures records { OnOk result ((call : Call) → IsTaskOf graph.now call task.old → task.new.log.records ≡ (meaning_of graph.now call (V.sight view.old).database).records) }
    ensures ended { OnOk result (task.new.ended ≡ true) }
    ensures ran { HasRunTo task.old task.new (if_refused result (preds_ahead graph.now (V.sight view.old).database task.new)) (V.sight view.old) (V.sight view.new) }
    ensures view { OnlyAsks (V.sight view.old) (V.sight view.new) result }
{
    while !task.ended() {
        next(alloc, graph, task, view)?;
    }
    Ok(())
}

/// A call has ended exactly if no more records are left of it.
#[tactic(auto, using(crate::proofs::Fronts::ends_exactly))]
pub fn calls_end_exactly()
    ensures { EndsExactly }
{}
