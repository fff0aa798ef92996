//! The running calls of a script.

ghost use Rattle.std.specs.Prelude.{◌≡◌, ◌<◌, ◌≤◌, [], ℕ, List, nat_lt, false, true, length, slice_get, IfOk, OnOk, OnErr};
ghost use Rattle.std.specs.Option.{option_copied};
ghost use Rattle.mv_values.specs.declared.calls.Call.{Call};
ghost use Rattle.mv_values.specs.Tables.{Tables};
ghost use Rattle.mv_record.specs.declared.record.Record.{Record};
ghost use Rattle.mv_record.specs.Writes.{AreRising};
ghost use Rattle.mv_effect.specs.Looking.{OnlyAsks};
ghost use Rattle.mv_graph.specs.declared.graph.Graph.{Graph};
ghost use Rattle.mv_graph.specs.Nodes.{meaning_of};
ghost use Rattle.mv_exec.specs.Running.{IsTaskOf, IsUnchanged, HasLeft};
ghost use Rattle.mv_script.specs.Scripts.{IsCompiledScript, IsCallOf, batch_of};
ghost use Rattle.mv_history.specs.Kept.{executions};
ghost use Rattle.mv_repair.specs.Repairing.{changes_since};
ghost use Rattle.mv_core.specs.Cores.{RunsOn, IsTaskFor, IsDatabaseIn, CanRepair, HasRunOne, CountsAll};

use mv_changes::recent::Committed;
use mv_exec::running::{finish, next};
use mv_exec::step::Stepped;
use mv_exec::task::Task;
use mv_graph::graph::Graph;
use mv_repair::repair::repair;
use mv_script::script::CompiledScript;
use mv_values::calls::Call;
use mv_view::view::{Refused, View};
use std::alloc::Global;

/// Returns the call of a number.
fn call_at(script: &CompiledScript, number: u32) -> Option<&Call>
    ensures { option_copied result ≡ slice_get script.now.calls number }
{
    script.calls.as_slice().get(number as usize)
}

/// Returns the graph of the procedure that a call names.
fn graph_for<'g>(script: &'g CompiledScript, call: &Call) -> Option<&'g Graph>
    ensures { option_copied result ≡ slice_get script.now.graphs call.now.procedure }
{
    script.graphs.as_slice().get(call.procedure as usize)
}

/// A call of a script, and the graph of its procedure.
#[derive(Drop)]
pub(crate) struct Called<'s> {
    pub(crate) call: &'s Call,
    pub(crate) graph: &'s Graph,
}

/// Returns the call of a number with its graph.
pub(crate) fn find_call(script: &CompiledScript, number: u32) -> Called<'_>
    requires script { IsCompiledScript script.now }
    requires number { number < length script.now.calls }
    ensures { IsCallOf script.now number result.call.now result.graph.now }
{
    let Some(call) = call_at(script, number) else {
        unreachable!();
    };
    let Some(graph) = graph_for(script, call) else {
        unreachable!();
    };
    Called { call, graph }
}

/// Whether a call is of a READ ONLY procedure.
pub fn is_read_only(script: &CompiledScript, number: u32) -> bool
    requires script { IsCompiledScript script.now }
    requires number { number < length script.now.calls }
    ensures { result ≡ (batch_of script.now).read_only number }
{
    find_call(script, number).graph.read_only()
}

/// Executes the next statement of a call of the script over a view. Fails with `NoMemory` if memory runs out, and with
/// `Stale` if the view reports it.
pub fn run_next<'s, V: View<'s>>(
    alloc: Global,
    script: &CompiledScript,
    number: u32,
    task: &mut Task,
    view: &mut V,
) -> Result<Stepped, Refused>
    requires script { IsCompiledScript script.now }
    requires number { number < length script.now.calls }
    requires database { IsDatabaseIn script.now number (V.sight view.old).database }
    requires runs { RunsOn script.now number (V.sight view.old).database task.old }
    ensures runs { RunsOn script.now number (V.sight view.old).database task.new }
    ensures ran { OnOk result (task.old.ended ≡ false → HasRunOne task.old task.new) }
    ensures err { OnErr result (IsUnchanged task.old task.new) }
    ensures view { OnlyAsks (V.sight view.old) (V.sight view.new) result }
{
    let at = find_call(script, number);
    next(alloc, at.graph, task, view)
}

/// Executes the rest of a call of the script over a view. Fails with `NoMemory` if memory runs out, and with `Stale` if
/// the view reports it. Then the call keeps the records added so far.
pub fn run_all<'s, V: View<'s>>(
    alloc: Global,
    script: &CompiledScript,
    number: u32,
    task: &mut Task,
    view: &mut V,
) -> Result<(), Refused>
    requires script { IsCompiledScript script.now }
    requires number { number < length script.now.calls }
    requires database { IsDatabaseIn script.now number (V.sight view.old).database }
    requires runs { RunsOn script.now number (V.sight view.old).database task.old }
    ensures runs { RunsOn script.now number (V.sight view.old).database task.new }
    ensures records { OnOk result (task.new.log.records ≡ ((batch_of script.now).run number (V.sight view.old).database).records) }
    ensures ended { OnOk result (task.new.ended ≡ true) }
    ensures counts { CountsAll task.old task.new }
    ensures view { OnlyAsks (V.sight view.old) (V.sight view.new) result }
{
    let at = find_call(script, number);
    finish(alloc, at.graph, task, view)
}

/// Repairs a call of the script that has run whole: runs it again over a view, to which the changes of the commits lead.
/// Executes only what depends on them, and returns the number of executed records. Fails with `NoMemory` if memory runs
/// out, and with `Stale` if the view reports it. Then its records are of no use.
pub fn repair_over<'s, V: View<'s>>(
    alloc: Global,
    script: &CompiledScript,
    number: u32,
    task: &mut Task,
    since: &[Committed],
    view: &mut V,
) -> Result<usize, Refused>
    requires script { IsCompiledScript script.now }
    requires number { number < length script.now.calls }
    requires call { IsTaskFor script.now number task.old }
    requires leads { CanRepair script.now number task.old (changes_since since.now) (V.sight view.old).database }
    ensures call { IsTaskFor script.now number task.new }
    ensures runs { OnOk result (RunsOn script.now number (V.sight view.old).database task.new) }
    ensures records { OnOk result (task.new.log.records ≡ ((batch_of script.now).run number (V.sight view.old).database).records) }
    ensures executed { OnOk result (task.new.executed ≡ executions task.old.log.records task.new.log.records (changes_since since.now)) }
    ensures answer { IfOk result (λ count. count ≡ task.new.executed) }
    ensures view { OnlyAsks (V.sight view.old) (V.sight view.new) result }
{
    let at = find_call(script, number);
    repair(alloc, at.graph, task, since, view)
}

/// Whether a full run of the call has more records than this many. The call must have executed so many.
pub(crate) fn has_more(task: &Task, steps: usize) -> bool
    requires { steps ≤ length task.now.log.records }
    ensures { (g : Graph) (call : Call) (db : Tables) (rest : List Record) → IsTaskOf g call task.now → AreRising db → HasLeft g call db task.now rest → result ≡ nat_lt steps (length (meaning_of g call db).records) }
{
    steps < task.records().len() || !task.ended()
}
