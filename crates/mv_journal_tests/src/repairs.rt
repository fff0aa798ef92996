//! The repairs of a journal, made by the core, with their causes.

ghost use Rattle.std.specs.Prelude.{◌≡◌, length, IfOk, OnOk};
ghost use Rattle.mv_lawful.specs.Batch.{records_at};
ghost use Rattle.mv_script.specs.Scripts.{IsCompiledScript};
ghost use Rattle.mv_core.specs.Books.{Booked, batch_in, Made};
ghost use Rattle.mv_core.specs.Cores.{HasRunWhole};
ghost use Rattle.mv_explain.specs.Explained.{AreBefore, IsRepair};

use mv_changes::recent::Committed;
use mv_core::engine::Core;
use mv_exec::task::Task;
use mv_journal::event::Event;
use mv_journal::outcome::{HistoryLine, Round};
use mv_log::records::Records;
use mv_script::script::CompiledScript;
use mv_values::copied::Copied;
use mv_values::list::List;
use mv_values::memory::NoMemory;
use mv_why::cause::Cause;
use mv_why::causes::causes;
use std::alloc::Global;
use std::test::Fail;

/// A repair of a call: the commits before its old start and before its new one, and the causes that are told of it.
#[derive(Drop)]
pub(crate) struct Repair {
    pub(crate) call: u32,
    pub(crate) from: u32,
    pub(crate) to: u32,
    pub(crate) causes: List<Cause>,
}

/// A live call before its repair: its start, its full run, and the commits after that start.
#[derive(Drop)]
struct Before {
    start: u32,
    task: Task,
    since: List<Committed>,
}

/// Returns copies of commits.
fn copies(alloc: Global, commits: &[Committed]) -> Result<List<Committed>, NoMemory>
    ensures { IfOk result (λ copies. copies ≡ commits.now) }
{
    let mut copies = List::new(alloc);
    for commit in commits {
        copies.push(commit.copy(alloc)?)?;
    }
    Ok(copies)
}

/// Returns the start of the last round.
fn last_start(rounds: &[Round]) -> u32 {
    match rounds.last() {
        Some(round) => round.start,
        None => 0,
    }
}

/// Returns a call before its repair.
fn before_repair(alloc: Global, core: &Core, call: u32) -> Result<Before, Fail>
    ensures { IfOk result (λ b. AreBefore core.now.book call b.task.log.records b.since) }
{
    let Some(rounds) = core.rounds(call) else {
        return Err("no live call".into());
    };
    let start = last_start(rounds);
    let Ok(task) = core.run_whole(alloc, call) else {
        return Err("no run".into());
    };
    let since = copies(alloc, core.since(call))?;
    Ok(Before { start, task, since })
}

/// Lends the records of a call that this event has repaired.
fn records_after<'c>(core: &'c Core, event: &Event, call: u32) -> Records<'c>
    requires made { (old : Booked) × Made event.now old core.now.book }
    requires repair { IsRepair event.now call }
    requires whole { HasRunWhole event.now core.now }
    ensures { (old : Booked) → Made event.now old core.now.book → result ≡ records_at (batch_in old) old.schedule.order (length old.schedule.order) call }
{
    match event {
        Event::X(_) => core.last_records(),
        _ => core.records(call),
    }
}

/// Makes an event that repairs a call, and returns the repair.
fn make_repair(alloc: Global, core: &mut Core, event: &Event, call: u32) -> Result<Repair, Fail>
    requires script { IsCompiledScript core.old.book.script }
    requires repair { IsRepair event.now call }
    ensures { OnOk result (IsCompiledScript core.new.book.script) }
{
    let before = before_repair(alloc, core, call)?;
    let to = core.commits();
    let Ok(()) = core.event(alloc, event, 0) else {
        return Err("a repair is refused".into());
    };
    let fresh = records_after(core, event, call);
    let old = before.task.records();
    let causes = causes(alloc, &old, &fresh, before.since.as_slice())?;
    Ok(Repair {
        call,
        from: before.start,
        to,
        causes,
    })
}

/// Makes another event.
fn make_other(alloc: Global, core: &mut Core, event: &Event) -> Result<(), Fail>
    requires { IsCompiledScript core.old.book.script }
    ensures { OnOk result (IsCompiledScript core.new.book.script) }
{
    let Ok(()) = core.event(alloc, event, 0) else {
        return Err("an event is refused".into());
    };
    Ok(())
}

/// Makes an event, and notes the repair if it is one.
fn note(
    alloc: Global,
    core: &mut Core,
    event: &Event,
    repairs: &mut List<Repair>,
) -> Result<(), Fail>
    requires { IsCompiledScript core.old.book.script }
    ensures { OnOk result (IsCompiledScript core.new.book.script) }
{
    match event {
        Event::A(call) | Event::X(call) => {
            repairs.push(make_repair(alloc, core, event, *call)?)?;
            Ok(())
        }
        _ => make_other(alloc, core, event),
    }
}

/// What a journal comes to: its repairs, in order, and its history.
#[derive(Drop)]
pub(crate) struct Repaired {
    pub(crate) repairs: List<Repair>,
    pub(crate) history: List<HistoryLine>,
}

/// Makes the events of a lawful journal.
pub(crate) fn make_events(
    alloc: Global,
    script: CompiledScript,
    events: &[Event],
) -> Result<Repaired, Fail>
    requires { IsCompiledScript script }
{
    let mut core = Core::new(alloc, script)?;
    let mut repairs = List::new(alloc);
    for event in events {
        note(alloc, &mut core, event, &mut repairs)?;
    }
    if core.open_call().is_some() {
        return Err("a call stays open".into());
    }
    let history = core.outcome(alloc)?.history;
    Ok(Repaired { repairs, history })
}
