//! A walk through a call that adopts some of its records and executes the others.

ghost use Rattle.std.specs.Prelude.{◌≡◌, ◌<◌, ◌≤◌, ◌+◌, IfOk, OnOk, false, true, length};
ghost use Rattle.mv_values.specs.Tables.{Tables};
ghost use Rattle.mv_record.specs.Writes.{AreRising};
ghost use Rattle.mv_graph.specs.Nodes.{IsSound, meaning_of};
ghost use Rattle.mv_record.specs.Databases.{IsDatabaseOf};
ghost use Rattle.mv_effect.specs.Looking.{IsSameView};
ghost use Rattle.mv_exec.specs.Running.{IsTaskOf, IsTaskOn};

use mv_exec::running::{adopt, calls_end_exactly, finish, next};
use mv_exec::task::Task;
use mv_graph::graph::Graph;
use mv_log::log::Log;
use mv_values::calls::Call;
use mv_values::memory::NoMemory;
use mv_values::rows::Database;
use mv_view::plain::Plain;
use mv_view::view::{Refused, View};
use std::alloc::Global;

/// Whether a walk adopts the record with this number: it adopts so many first ones, and then every other one.
pub(crate) fn is_adopted(number: usize, first: usize) -> bool {
    number < first || number % 2 == 1
}

/// Returns the number of the next record.
pub(crate) fn next_number(task: &Task) -> Result<u32, NoMemory>
    ensures { IfOk result (λ n. n ≡ length task.now.log.records) }
{
    let Ok(number) = u32::try_from(task.records().len()) else {
        return Err(NoMemory);
    };
    Ok(number)
}

/// Adopts the record of the run before the repair that has the next number.
fn adopt_next(alloc: Global, graph: &Graph, call: &Call, task: &mut Task) -> Result<(), NoMemory>
    requires sound { IsSound graph.now }
    requires call { IsTaskOf graph.now call.now task.old }
    requires live { task.old.ended ≡ false }
    requires within { length task.old.log.records < length task.old.log.past }
    requires rises { task.old.log.kept ≤ length task.old.log.records }
    ensures on { OnOk result ((db : Tables) → AreRising db → IsTaskOn graph.now call.now db task.old → task.old.log.past ≡ (meaning_of graph.now call.now db).records → IsTaskOn graph.now call.now db task.new) }
    ensures longer { OnOk result (length task.new.log.records ≡ length task.old.log.records + 1) }
    ensures past { task.new.log.past ≡ task.old.log.past }
    ensures rises { OnOk result (task.new.log.kept ≤ length task.new.log.records) }
{
    let number = next_number(task)?;
    adopt(alloc, graph, task, number)?;
    Ok(())
}

/// Adopts the next record of the run before the repair, or executes the next statement.
fn step<'s, V: View<'s>>(
    alloc: Global,
    graph: &Graph,
    call: &Call,
    task: &mut Task,
    first: usize,
    view: &mut V,
) -> Result<(), Refused>
    requires sound { IsSound graph.now }
    requires database { IsDatabaseOf graph.now.tables (V.sight view.old).database }
    requires on { IsTaskOn graph.now call.now (V.sight view.old).database task.old }
    requires live { task.old.ended ≡ false }
    requires past { task.old.log.past ≡ (meaning_of graph.now call.now (V.sight view.old).database).records }
    requires rises { task.old.log.kept ≤ length task.old.log.records }
    ensures on { OnOk result (IsTaskOn graph.now call.now (V.sight view.old).database task.new) }
    ensures same { IsSameView (V.sight view.old) (V.sight view.new) }
    ensures longer { OnOk result (length task.new.log.records ≡ length task.old.log.records + 1) }
    ensures past { OnOk result (task.new.log.past ≡ task.old.log.past) }
    ensures rises { OnOk result (task.new.log.kept ≤ length task.new.log.records) }
{
    if is_adopted(task.records().len(), first) {
        calls_end_exactly();
        adopt_next(alloc, graph, call, task)?;
        return Ok(());
    }
    next(alloc, graph, task, view)?;
    Ok(())
}

/// Walks a call to its end by `adopt` and `next` in turns. The records that it adopts are those of the run before the
/// repair, which was one on the view's database. They aren't checked.
fn walk<'s, V: View<'s>>(
    alloc: Global,
    graph: &Graph,
    call: &Call,
    task: &mut Task,
    first: usize,
    view: &mut V,
) -> Result<(), Refused>
    requires sound { IsSound graph.now }
    requires database { IsDatabaseOf graph.now.tables (V.sight view.old).database }
    requires on { IsTaskOn graph.now call.now (V.sight view.old).database task.old }
    requires past { task.old.log.past ≡ (meaning_of graph.now call.now (V.sight view.old).database).records }
    requires rises { task.old.log.kept ≤ length task.old.log.records }
    ensures records { OnOk result (task.new.log.records ≡ (meaning_of graph.now call.now (V.sight view.old).database).records) }
    ensures ended { OnOk result (task.new.ended ≡ true) }
{
    while !task.ended() {
        step(alloc, graph, call, task, first, view)?;
    }
    calls_end_exactly();
    Ok(())
}

/// Returns a call that has run to its end.
pub(crate) fn run(
    alloc: Global,
    graph: &Graph,
    call: &Call,
    database: &Database,
) -> Result<Task, Refused>
    requires sound { IsSound graph.now }
    requires arguments { length call.now.arguments ≡ length graph.now.procedure.params }
    requires database { IsDatabaseOf graph.now.tables database.now }
    ensures call { IfOk result (IsTaskOf graph.now call.now) }
    ensures records { IfOk result (λ task. task.log.records ≡ (meaning_of graph.now call.now database.now).records) }
{
    let mut task = Task::new(alloc, graph, call, Log::new(alloc))?;
    let mut view = Plain::new(database);
    finish(alloc, graph, &mut task, &mut view)?;
    Ok(task)
}

/// Runs a call to its end, begins a repair, and walks through it with the records of the first run.
pub(crate) fn run_and_walk(
    alloc: Global,
    graph: &Graph,
    call: &Call,
    database: &Database,
    first: usize,
) -> Result<Task, Refused>
    requires sound { IsSound graph.now }
    requires arguments { length call.now.arguments ≡ length graph.now.procedure.params }
    requires database { IsDatabaseOf graph.now.tables database.now }
    ensures records { IfOk result (λ task. task.log.records ≡ (meaning_of graph.now call.now database.now).records) }
    ensures ended { IfOk result (λ task. task.ended ≡ true) }
{
    let mut task = run(alloc, graph, call, database)?;
    task.begin_repair();
    let mut view = Plain::new(database);
    walk(alloc, graph, call, &mut task, first, &mut view)?;
    Ok(task)
}
