//! Repairs of running calls.

ghost use Rattle.std.specs.Prelude.{◌≡◌, ◌<◌, ◌≤◌, false, true, length, slice_get, IfOk, OnOk, OnErr};
ghost use Rattle.mv_values.specs.declared.calls.Call.{Call};
ghost use Rattle.mv_record.specs.Runs.{writes_in};
ghost use Rattle.mv_record.specs.Databases.{IsDatabaseOf};
ghost use Rattle.mv_effect.specs.Looking.{AskedFor, OnlyAsks};
ghost use Rattle.mv_graph.specs.Nodes.{IsSound, meaning_of};
ghost use Rattle.mv_exec.specs.Running.{IsRunning, IsRunningOn, IsSameCall, IsSameCallOn, IsTaskOf, IsTaskOn, IsUnchanged, HasRun, if_refused, preds_ahead};
ghost use Rattle.mv_history.specs.Kept.{executions};
ghost use Rattle.mv_repair.specs.Repairing.{changes_since, IsRepairable, HasQueried};
ghost use Rattle.mv_repair.specs.Walking.{any_write, writes_of, renewed, HasKept};
ghost use Rattle.mv_repair.specs.Stepping.{HasStepped, IsOnWay};

use crate::hits::hits_of;
use crate::keys::Keys;
use crate::touch::has_writes;
use crate::walk::{NewRun, OldRun, stays};
use mv_changes::recent::Committed;
use mv_exec::running::{adopt, next, peek};
use mv_exec::task::Task;
use mv_graph::graph::Graph;
use mv_values::list::List;
use mv_values::memory::NoMemory;
use mv_view::view::{Refused, View};
use std::alloc::Global;

/// Returns a record's number in four bytes. Fails with `NoMemory` if it has no room there; no log has so many records.
fn narrow(number: usize) -> Result<u32, NoMemory>
    ensures { IfOk result (λ narrow. narrow ≡ number) }
{
    if number > 4_294_967_295 {
        return Err(NoMemory);
    }
    Ok(number as u32)
}

/// Keeps the next record of the old run as the next one of the new run.
fn keep(
    alloc: Global,
    graph: &Graph,
    task: &mut Task,
    old: &mut OldRun,
    new: &mut NewRun,
) -> Result<(), NoMemory>
    requires sound { IsSound graph.now }
    requires running { IsRunning graph.now task.old }
    requires live { task.old.ended ≡ false }
    requires there { old.old.at < length task.old.log.past }
    requires rises { task.old.log.kept ≤ old.old.at }
    ensures call { IsSameCall graph.now task.old task.new }
    ensures kept { OnOk result (HasKept graph.now task.old old.old new.old task.new old.new new.new) }
    ensures err { OnErr result (IsUnchanged task.old task.new) }
{
    let number = narrow(old.at)?;
    new.add(Some(number))?;
    adopt(alloc, graph, task, number)?;
    old.at += 1;
    Ok(())
}

/// Executes the next record of the new run.
fn renew<'s, V: View<'s>>(
    alloc: Global,
    graph: &Graph,
    task: &mut Task,
    new: &mut NewRun,
    view: &mut V,
) -> Result<(), Refused>
    requires sound { IsSound graph.now }
    requires database { IsDatabaseOf graph.now.tables (V.sight view.old).database }
    requires running { IsRunningOn graph.now (V.sight view.old).database task.old }
    requires live { task.old.ended ≡ false }
    ensures call { IsSameCall graph.now task.old task.new }
    ensures goes_on { IsSameCallOn graph.now (V.sight view.old).database task.old task.new }
    ensures ran { OnOk result (HasRun task.old task.new (V.sight view.old) (V.sight view.new)) }
    ensures new { OnOk result (new.new ≡ renewed (length task.old.log.records) (any_write (writes_of (slice_get task.new.log.records (length task.old.log.records)))) new.old) }
    ensures past { task.new.log.past ≡ task.old.log.past }
    ensures kept { task.new.log.kept ≡ task.old.log.kept }
    ensures err { OnErr result (IsUnchanged task.old task.new) }
    ensures view { OnlyAsks (V.sight view.old) (V.sight view.new) result }
    ensures tried { OnErr result (AskedFor (preds_ahead graph.now (V.sight view.old).database task.new) (writes_in task.new.log.records) (V.sight view.old) (V.sight view.new)) }
{
    let number = task.records().len();
    new.add_executed(number)?;
    next(alloc, graph, task, view)?;
    new.retain_last(has_writes(&task.records(), number));
    Ok(())
}

/// Adds the next record of the new run: the old one in its place if that stays, or else one that is executed.
fn step<'s, V: View<'s>>(
    alloc: Global,
    graph: &Graph,
    task: &mut Task,
    old: &mut OldRun,
    new: &mut NewRun,
    view: &mut V,
) -> Result<(), Refused>
    requires sound { IsSound graph.now }
    requires live { task.old.ended ≡ false }
    requires on_way { IsOnWay graph.now (V.sight view.old).database task.old old.old new.old }
    ensures call { IsSameCall graph.now task.old task.new }
    ensures stepped { OnOk result (HasStepped graph.now (V.sight view.old).database task.old old.old new.old task.new old.new new.new (V.sight view.old) (V.sight view.new)) }
    ensures err { OnErr result (IsUnchanged task.old task.new) }
    ensures view { OnlyAsks (V.sight view.old) (V.sight view.new) result }
    ensures tried { OnErr result (AskedFor (preds_ahead graph.now (V.sight view.old).database task.new) (writes_in task.new.log.records) (V.sight view.old) (V.sight view.new)) }
{
    let Some(ahead) = peek(graph, task) else {
        unreachable!();
    };
    let is_there = old.pass(alloc, task, &ahead)?;
    new.catch_up(alloc, &task.records())?;
    let keeps = stays(alloc, task, old, new, &ahead, is_there)?;
    if keeps {
        keep(alloc, graph, task, old, new)?;
        return Ok(());
    }
    old.leave(&task.past(), is_there)?;
    renew(alloc, graph, task, new, view)
}

/// Repairs a call that has ended: runs it again on the view's database, to which the changes of the commits lead. The
/// records that stay are kept, and only the others are executed. Returns the number of executed records.
///
/// A record of the new run stays if the old run has a record with its path, and four things hold. Its controller stays,
/// or it has none. Each variable that it reads has the same definer in both runs, which stays, or in both its default.
/// No change hits the old record. No write of an earlier record of either run that doesn't stay touches the old record.
///
/// Fails with `NoMemory` if memory runs out, and with `Stale` if the view reports it. The call's records are then of no
/// use, and it must begin again.
///
/// No item of a kept record is moved, and only its own writes and the variables that it sets are copied. The records of
/// the run before the repair stay in the log. `past` lends them until the call begins again.
///
/// Each record costs a comparison of places, and one of its definers. Where the runs diverge it costs the paths of some
/// records, a step for each statement around them. A record with a predicate also costs what `validate` does for the
/// commits. If few earlier records with writes don't stay, it costs a trial of the predicate on each of their writes.
/// Else it costs a search for their keys, and the trials only if the predicate admits one of the keys.
pub fn repair<'s, V: View<'s>>(
    alloc: Global,
    graph: &Graph,
    task: &mut Task,
    since: &[Committed],
    view: &mut V,
) -> Result<usize, Refused>
    requires sound { IsSound graph.now }
    requires leads { IsRepairable graph.now task.old (changes_since since.now) (V.sight view.old).database }
    ensures call { IsSameCall graph.now task.old task.new }
    ensures on { OnOk result ((call : Call) → IsTaskOf graph.now call task.old → IsTaskOn graph.now call (V.sight view.old).database task.new) }
    ensures records { OnOk result ((call : Call) → IsTaskOf graph.now call task.old → task.new.log.records ≡ (meaning_of graph.now call (V.sight view.old).database).records) }
    ensures past { OnOk result (task.new.log.past ≡ task.old.log.records) }
    ensures ended { OnOk result (task.new.ended ≡ true) }
    ensures executed { OnOk result (task.new.executed ≡ executions task.old.log.records task.new.log.records (changes_since since.now)) }
    ensures answer { IfOk result (λ count. count ≡ task.new.executed) }
    ensures queried { HasQueried task.old.log.records task.new.log.records (changes_since since.now) (if_refused result (preds_ahead graph.now (V.sight view.old).database task.new)) (V.sight view.old) (V.sight view.new) }
    ensures view { OnlyAsks (V.sight view.old) (V.sight view.new) result }
{
    let hits = hits_of(alloc, &task.records(), &task.undo(), since)?;
    task.begin_repair();
    let mut old = OldRun {
        hits,
        at: 0,
        others: List::new(alloc),
        keys: Keys::new(alloc),
        known: 0,
    };
    let mut new = NewRun {
        kept: List::new(alloc),
        others: List::new(alloc),
        keys: Keys::new(alloc),
        known: 0,
    };
    while !task.ended() {
        step(alloc, graph, task, &mut old, &mut new, view)?;
    }
    Ok(task.executed())
}
