//! Running calls over a history and views of its tables: their statements, repairs, and what their commits tell.

ghost use Rattle.std.specs.Prelude.{◌≡◌, ◌<◌, ◌≤◌, ◌+◌, ℕ, List, [], None, Some, nat_lt, length, true, IfOk, IfSome, IfNone, OnOk, OnErr};
ghost use Rattle.mv_values.specs.declared.calls.Call.{Call};
ghost use Rattle.mv_values.specs.Tables.{Tables};
ghost use Rattle.mv_record.specs.declared.record.Record.{Record};
ghost use Rattle.mv_record.specs.Writes.{AreRising};
ghost use Rattle.mv_view.specs.Viewing.{MayAnswer};
ghost use Rattle.mv_effect.specs.Looking.{OnlyAsks};
ghost use Rattle.mv_graph.specs.declared.graph.Graph.{Graph};
ghost use Rattle.mv_graph.specs.Nodes.{meaning_of};
ghost use Rattle.mv_exec.specs.Running.{IsTaskOf, IsTaskOn, IsUnchanged, HasLeft};
ghost use Rattle.mv_journal.specs.declared.event.Event.TheVariants.{A, M};
ghost use Rattle.mv_lawful.specs.Lawful.{Live, has_step, refusal};
ghost use Rattle.mv_core.specs.declared.book.Check.TheVariants.{Free as IsFree, Hit as IsHit};
ghost use Rattle.mv_script.specs.Scripts.{IsCompiledScript, batch_of};
ghost use Rattle.mv_core.specs.Calls.{IsLive, IsLiveCall, due_number};
ghost use Rattle.mv_core.specs.Books.{batch_in, last_tables, last_run, last_changes, Made, IsSame, IsSettled, IsMissing, IsNotStale, IsAlone, IsReader, IsNoReader, AreRecordsOf, AreLastOf, IsAnswer, HasAnswered};
ghost use Rattle.mv_core.specs.Output.{reply_told};
ghost use Rattle.mv_core.specs.Cores.{RunsOn, IsDatabaseIn, IsTaskIn, IsRunningIn, HasRunOn, HasRunOne, IsLiveTask, IsRepaired, HasStep, ShowsStart, ShowsLast, count_or};

use crate::book::{Book, Check};
use crate::output::{changes_told, reply_of};
use crate::running::{find_call, has_more, repair_over, run_all, run_next};
use crate::spare::Spare;
use mv_changes::changes::Changes;
use mv_exec::task::Task;
use mv_journal::outcome::Mark;
use mv_log::records::Records;
use mv_script::script::CompiledScript;
use mv_values::calls::Reply;
use mv_values::memory::NoMemory;
use mv_view::view::{Refused, View};
use std::alloc::Global;

/// A live call that runs over the tables of a history.
#[derive(Drop)]
pub struct Running {
    /// The call at some point of its run.
    pub task: Task,
    /// The number of its last round. Without one it is that of the records of the whole run.
    pub count: Option<usize>,
}

impl Running {
    /// Returns the number of the last round of a call that has run whole.
    pub fn number(&self) -> usize
        ensures { result ≡ count_or self.now.count (length self.now.task.log.records) }
    {
        match self.count {
            Some(count) => count,
            None => self.task.records().len(),
        }
    }

    /// Drops the records of a call, whose last round has this number. It runs again from its first statement. It
    /// allocates no memory.
    pub fn spend(&mut self, number: usize)
        ensures count { self.new.count ≡ Some number }
        ensures executed { self.new.task.executed ≡ length self.new.task.log.records }
        ensures begins { (g : Graph) (call : Call) (db : Tables) → IsTaskOf g call self.old.task → IsTaskOn g call db self.new.task }
    {
        self.task.restart();
        self.count = Some(number);
    }

    /// Whether a full run of the call has more records than this many. The call is in its first round.
    pub fn has_more(&self, steps: usize) -> bool
        requires { self.now.count ≡ None → steps ≤ length self.now.task.log.records }
        ensures known { (k : ℕ) → self.now.count ≡ Some k → result ≡ nat_lt steps k }
        ensures unknown { self.now.count ≡ None → (g : Graph) (call : Call) (db : Tables) (rest : List Record) → IsTaskOf g call self.now.task → AreRising db → HasLeft g call db self.now.task rest → result ≡ nat_lt steps (length (meaning_of g call db).records) }
    {
        match self.count {
            Some(count) => steps < count,
            None => has_more(&self.task, steps),
        }
    }
}

/// Returns a call of the script before its first statement, with the spare log. It copies the arguments. Fails with
/// `NoMemory` if memory runs out.
pub fn new_task(
    alloc: Global,
    script: &CompiledScript,
    number: u32,
    spare: &mut Spare,
) -> Result<Task, NoMemory>
    requires script { IsCompiledScript script.now }
    requires number { number < length script.now.calls }
    ensures runs { IfOk result (λ task. (db : Tables) → RunsOn script.now number db task) }
    ensures records { IfOk result (λ task. task.log.records ≡ []) }
    ensures executed { IfOk result (λ task. task.executed ≡ 0) }
{
    let at = find_call(script, number);
    let log = spare.take(alloc);
    Task::new(alloc, at.graph, at.call, log)
}

/// Whether a live call is in its first round, which has a statement left.
pub fn has_step(book: &Book, call: u32, running: &Running) -> bool
    requires script { IsCompiledScript book.now.script }
    requires live { IsLiveCall book.now.schedule call }
    requires number { call < length book.now.script.calls }
    requires task { IsTaskIn book.now call running.now }
    ensures { (l : Live) → IsLive book.now.schedule call l → result ≡ has_step (batch_in book.now) book.now.schedule call l }
{
    let Some(rounds) = book.rounds(call) else {
        unreachable!();
    };
    rounds.len() == 1 && running.has_more(book.steps(call))
}

/// Runs the next statement of a live call at its start, unless its task has run more statements than the journal names.
/// The view shows the tables there, and a statement must be left. The journal names that statement next. A task that has
/// run no more statements than the journal names runs exactly one more. Any other runs none. Fails with `NoMemory` if
/// memory runs out, and with `Stale` if the view reports it. Then the task has run none.
pub fn step_task<'s, V: View<'s>>(
    alloc: Global,
    book: &Book,
    view: &mut V,
    call: u32,
    running: &mut Running,
) -> Result<(), Refused>
    requires call { IsRunningIn book.now call running.old }
    requires shows { ShowsStart book.now call (V.sight view.old) }
    requires left { HasStep book.now call }
    ensures ok { OnOk result ((l : Live) → IsLive book.now.schedule call l → IsLiveTask book.now.script book.now.schedule.order call (record l { steps = l.steps + 1 }) running.new) }
    ensures one { OnOk result ((l : Live) → IsLive book.now.schedule call l → length running.old.task.log.records ≤ l.steps → HasRunOne running.old.task running.new.task) }
    ensures named { OnOk result ((l : Live) → IsLive book.now.schedule call l → l.steps < length running.old.task.log.records → running.new ≡ running.old) }
    ensures err { OnErr result (IsUnchanged running.old.task running.new.task) }
    ensures task { IsTaskIn book.now call running.new }
    ensures ran { HasRunOn running.old running.new }
    ensures view { OnlyAsks (V.sight view.old) (V.sight view.new) result }
{
    if running.task.records().len() <= book.steps(call) {
        run_next(alloc, book.script(), call, &mut running.task, view)?;
    }
    Ok(())
}

/// Runs the rest of a live call at its start, over a view that shows the tables there. Executes nothing else. Fails with
/// `NoMemory` if memory runs out, and with `Stale` if the view reports it. Then the task is still that of the call.
pub fn finish_task<'s, V: View<'s>>(
    alloc: Global,
    book: &Book,
    view: &mut V,
    call: u32,
    running: &mut Running,
) -> Result<(), Refused>
    requires call { IsRunningIn book.now call running.old }
    requires shows { ShowsStart book.now call (V.sight view.old) }
    ensures ok { OnOk result (AreRecordsOf book.now call running.new.task.log.records) }
    ensures ended { OnOk result (running.new.task.ended ≡ true) }
    ensures task { IsTaskIn book.now call running.new }
    ensures ran { HasRunOn running.old running.new }
    ensures view { OnlyAsks (V.sight view.old) (V.sight view.new) result }
{
    run_all(alloc, book.script(), call, &mut running.task, view)
}

/// Validates a live call that isn't read only. First it runs the rest of the call at its start, unless that is below
/// low. The view shows the tables there, or need not if the start is below low. Fails with `NoMemory` if memory runs
/// out, and with `Stale` if the view reports it, but only if the start isn't below low.
pub fn validate_task<'s, V: View<'s>>(
    alloc: Global,
    book: &Book,
    view: &mut V,
    call: u32,
    running: &mut Running,
) -> Result<Check, Refused>
    requires call { IsRunningIn book.now call running.old }
    requires kind { IsNoReader book.now call }
    requires shows { IsNotStale book.now call → ShowsStart book.now call (V.sight view.old) }
    ensures answer { IfOk result (λ check. (l : Live) → IsLive book.now.schedule call l → IsAnswer check (batch_in book.now) book.now.schedule call l) }
    ensures records { IfOk result (λ check. check ≡ IsFree → AreRecordsOf book.now call running.new.task.log.records) }
    ensures hit { IfOk result (λ check. (number commit : ℕ) → check ≡ IsHit number commit → AreRecordsOf book.now call running.new.task.log.records) }
    ensures fresh { OnErr result (IsNotStale book.now call) }
    ensures task { IsTaskIn book.now call running.new }
    ensures view { OnlyAsks (V.sight view.old) (V.sight view.new) result }
{
    let start = book.start(call);
    let low = book.low();
    if start < low {
        return Ok(Check::Stale { start, low });
    }
    finish_task(alloc, book, view, call, running)?;
    Ok(book.check(call, &running.task))
}

/// Repairs a live call that has run whole at its start, which isn't below low: runs it again over a view that shows the
/// tables after all commits. Fails with `NoMemory` if memory runs out, and with `Stale` if the view reports it. Then the
/// call has lost its records, and is still the one that starts there.
pub fn repair_task<'s, V: View<'s>>(
    alloc: Global,
    book: &Book,
    view: &mut V,
    call: u32,
    running: &mut Running,
) -> Result<(), Refused>
    requires call { IsRunningIn book.now call running.old }
    requires shows { ShowsLast book.now (V.sight view.old) }
    requires fresh { IsNotStale book.now call }
    requires whole { AreRecordsOf book.now call running.old.task.log.records }
    requires ended { running.old.task.ended ≡ true }
    ensures ok { OnOk result ((l : Live) → IsLive book.now.schedule call l → IsRepaired book.now.script book.now.schedule.order call l running.new) }
    ensures err { OnErr result (IsTaskIn book.now call running.new) }
    ensures view { OnlyAsks (V.sight view.old) (V.sight view.new) result }
{
    let number = running.number();
    let since = book.since(call);
    if let Err(refused) = repair_over(alloc, book.script(), call, &mut running.task, since, view) {
        running.spend(number);
        return Err(refused);
    }
    running.count = Some(running.task.executed());
    Ok(())
}

/// Event A of a live call that has run whole at its start, which isn't below low: repairs it over a view that shows the
/// tables after all commits. Returns the number of executed records. Fails with `NoMemory` if memory runs out, and with
/// `Stale` if the view reports it. Then no event was made, and the call may have lost its records.
pub fn rerun_task<'s, V: View<'s>>(
    alloc: Global,
    book: &mut Book,
    view: &mut V,
    call: u32,
    running: &mut Running,
) -> Result<usize, Refused>
    requires call { IsRunningIn book.old call running.old }
    requires shows { ShowsLast book.old (V.sight view.old) }
    requires missing { IsMissing running.old.task.executed book.old call }
    requires fresh { IsNotStale book.old call }
    requires whole { AreRecordsOf book.old call running.old.task.log.records }
    requires ended { running.old.task.ended ≡ true }
    requires allowed { refusal (batch_in book.old) book.old.schedule (A call) ≡ None }
    ensures made { IfOk result (λ n. Made (A call) book.old book.new × (due_number (batch_in book.new) book.new.schedule call ≡ Some n)) }
    ensures settled { OnOk result (IsSettled book.new call) }
    ensures repaired { OnOk result ((l : Live) → IsLive book.old.schedule call l → IsRepaired book.old.script book.old.schedule.order call l running.new) }
    ensures same { OnErr result (IsSame book.old book.new) }
    ensures task { OnErr result (IsTaskIn book.old call running.new) }
    ensures view { OnlyAsks (V.sight view.old) (V.sight view.new) result }
{
    book.settle(call, &running.task);
    book.reserve(call)?;
    repair_task(alloc, book, view, call, running)?;
    book.restart(call, Mark::Plain);
    book.settle(call, &running.task);
    Ok(running.task.executed())
}

/// Runs a call of the script whole over a view. Returns its task, which has the spare log. Fails with `NoMemory` if
/// memory runs out, and with `Stale` if the view reports it.
pub fn whole_task<'s, V: View<'s>>(
    alloc: Global,
    script: &CompiledScript,
    number: u32,
    view: &mut V,
    spare: &mut Spare,
) -> Result<Task, Refused>
    requires script { IsCompiledScript script.now }
    requires number { number < length script.now.calls }
    requires database { IsDatabaseIn script.now number (V.sight view.old).database }
    ensures runs { IfOk result (λ task. RunsOn script.now number (V.sight view.old).database task) }
    ensures records { IfOk result (λ task. task.log.records ≡ ((batch_of script.now).run number (V.sight view.old).database).records) }
    ensures executed { IfOk result (λ task. task.executed ≡ length task.log.records) }
    ensures view { OnlyAsks (V.sight view.old) (V.sight view.new) result }
{
    let mut task = new_task(alloc, script, number, spare)?;
    run_all(alloc, script, number, &mut task, view)?;
    Ok(task)
}

/// Event M of a live call: it starts anew after all commits, and is run whole over a view that shows the tables there.
/// Returns its task, which has the spare log. Fails with `NoMemory` if memory runs out, and with `Stale` if the view
/// reports it. Then the call hasn't moved.
pub fn move_task<'s, V: View<'s>>(
    alloc: Global,
    book: &mut Book,
    view: &mut V,
    call: u32,
    spare: &mut Spare,
) -> Result<Task, Refused>
    requires script { IsCompiledScript book.old.script }
    requires shows { ShowsLast book.old (V.sight view.old) }
    requires live { IsLiveCall book.old.schedule call }
    requires number { call < length book.old.script.calls }
    ensures made { OnOk result (Made (M call) book.old book.new) }
    ensures settled { OnOk result (IsSettled book.new call) }
    ensures runs { IfOk result (λ task. RunsOn book.old.script call (last_tables book.old) task) }
    ensures records { IfOk result (λ task. AreLastOf book.old call task.log.records) }
    ensures executed { IfOk result (λ task. task.executed ≡ length task.log.records) }
    ensures same { OnErr result (IsSame book.old book.new) }
    ensures view { OnlyAsks (V.sight view.old) (V.sight view.new) result }
{
    let task = whole_task(alloc, book.script(), call, view, spare)?;
    book.reserve(call)?;
    book.restart(call, Mark::Moved);
    book.settle(call, &task);
    Ok(task)
}

/// Event R of a live read only call that has run whole at its start, and tells this reply. Returns the start. Fails with
/// `Stale` exactly if the start is below low, and with `NoMemory` if memory runs out. Then the call isn't answered.
pub fn answer_told(book: &mut Book, call: u32, task: &Task, reply: Reply) -> Result<u32, Refused>
    requires script { IsCompiledScript book.old.script }
    requires live { IsLiveCall book.old.schedule call }
    requires number { call < length book.old.script.calls }
    requires kind { IsReader book.old call }
    requires missing { IsMissing task.now.executed book.old call }
    requires whole { AreRecordsOf book.old call task.now.log.records }
    requires reply { reply ≡ reply_told task.now.log.records }
    ensures { HasAnswered call result book.old book.new }
{
    book.reserve(call)?;
    book.settle(call, task);
    book.answer_read(call, reply)
}

/// The same, with the reply that the task tells. It copies that.
pub fn answer_task(alloc: Global, book: &mut Book, call: u32, task: &Task) -> Result<u32, Refused>
    requires script { IsCompiledScript book.old.script }
    requires live { IsLiveCall book.old.schedule call }
    requires number { call < length book.old.script.calls }
    requires kind { IsReader book.old call }
    requires missing { IsMissing task.now.executed book.old call }
    requires whole { AreRecordsOf book.old call task.now.log.records }
    ensures { HasAnswered call result book.old book.new }
{
    let reply = reply_of(alloc, &task.records())?;
    answer_told(book, call, task, reply)
}

/// Returns the changes that a call with these records makes to the tables after all commits, which the view shows. Fails
/// with `NoMemory` if memory runs out, and with `Stale` if the view reports it.
pub fn changes_made<'s, V: View<'s>>(
    alloc: Global,
    book: &Book,
    view: &mut V,
    records: &Records<'_>,
) -> Result<Changes, Refused>
    requires script { IsCompiledScript book.now.script }
    requires shows { ShowsLast book.now (V.sight view.old) }
    ensures made { (call : ℕ) → call < length book.now.script.calls → AreLastOf book.now call records.now → IfOk result (λ changes. changes ≡ last_changes book.now call) }
    ensures view { MayAnswer (V.sight view.old) (V.sight view.new) result }
{
    changes_told(alloc, book.script().opening.len(), records, view)
}

/// The output of a commit.
#[derive(Drop)]
pub struct CommitOutput {
    pub reply: Reply,
    /// The changes to the tables after all earlier commits. They may be left out if no other call is live.
    pub changes: Option<Changes>,
}

/// Returns what the commit of a call tells. The records are those of its full run on the tables after all commits, which
/// the view shows. Leaves out the changes if no other call is live. Fails with `NoMemory` if memory runs out, and with
/// `Stale` if the view reports it.
pub fn tell<'s, V: View<'s>>(
    alloc: Global,
    book: &Book,
    view: &mut V,
    call: u32,
    records: &Records<'_>,
) -> Result<CommitOutput, Refused>
    requires script { IsCompiledScript book.now.script }
    requires shows { ShowsLast book.now (V.sight view.old) }
    requires number { call < length book.now.script.calls }
    requires whole { AreLastOf book.now call records.now }
    ensures reply { IfOk result (λ output. output.reply ≡ (last_run book.now call).reply) }
    ensures changes { IfOk result (λ output. IfSome output.changes (λ changes. changes ≡ last_changes book.now call)) }
    ensures alone { IfOk result (λ output. IfNone output.changes (IsAlone book.now call)) }
    ensures view { MayAnswer (V.sight view.old) (V.sight view.new) result }
{
    let reply = reply_of(alloc, records)?;
    if book.is_alone(call) {
        return Ok(CommitOutput {
            reply,
            changes: None,
        });
    }
    let changes = changes_made(alloc, book, view, records)?;
    Ok(CommitOutput {
        reply,
        changes: Some(changes),
    })
}
