//! Commits of calls into a store, and what a history with its tables comes to.

ghost use Rattle.std.specs.Prelude.{◌≡◌, ◌<◌, ℕ, None, true, length, IfOk, IfSome, IfNone, OnOk, OnErr};
ghost use Rattle.std.specs.Option.{option_copied};
ghost use Rattle.mv_journal.specs.declared.event.Event.TheVariants.{C, M, X};
ghost use Rattle.mv_lawful.specs.Outcomes.{outcome_of};
ghost use Rattle.mv_lawful.specs.Lawful.{Live, Lawful, open_call, refusal};
ghost use Rattle.mv_store.specs.Changes.{HasRaised};
ghost use Rattle.mv_store.specs.Stored.{IsLike};
ghost use Rattle.mv_core.specs.declared.book.Check.TheVariants.{Free as IsFree, Hit as IsHit};
ghost use Rattle.mv_core.specs.Calls.{IsLive, IsLiveCall};
ghost use Rattle.mv_core.specs.Books.{batch_in, last_tables, last_run, last_changes, commit_event, own_number, Made, IsSame, IsSettled, IsMissing, IsNotStale, IsAlone, IsNoReader, IsOwnNumber, AreRecordsOf, AreLastOf, IsAnswer};
ghost use Rattle.mv_core.specs.Cores.{RunsOn, IsStoreOf, IsTaskIn, IsRunningIn, IsRepaired, IsPrepared, HasCommitted, HasMovedAndCommitted, HasCollected};

use crate::book::{Book, Check};
use crate::fresh::no_memory;
use crate::output::put_told;
use crate::spare::Spare;
use crate::tasks::{
    CommitOutput, Running, move_task, repair_task, tell, validate_task, whole_task,
};
use mv_exec::task::Task;
use mv_journal::outcome::{Mark, Outcome};
use mv_log::records::Records;
use mv_store::store::Store;
use mv_store::view::StoreView;
use mv_values::memory::NoMemory;
use std::alloc::Global;

/// Validates a live call that isn't read only over the tables of the store. First it runs the rest of the call at its
/// start, unless that is below low. Fails with `NoMemory` if memory runs out.
pub(crate) fn check_task(
    alloc: Global,
    book: &Book,
    store: &Store,
    call: u32,
    running: &mut Running,
) -> Result<Check, NoMemory>
    requires stored { IsStoreOf book.now store.now }
    requires call { IsRunningIn book.now call running.old }
    requires kind { IsNoReader book.now call }
    ensures answer { IfOk result (λ check. (l : Live) → IsLive book.now.schedule call l → IsAnswer check (batch_in book.now) book.now.schedule call l) }
    ensures records { IfOk result (λ check. check ≡ IsFree → AreRecordsOf book.now call running.new.task.log.records) }
    ensures hit { IfOk result (λ check. (number commit : ℕ) → check ≡ IsHit number commit → AreRecordsOf book.now call running.new.task.log.records) }
    ensures task { IsTaskIn book.now call running.new }
{
    let mut view = StoreView::new(store, book.start(call));
    match validate_task(alloc, book, &mut view, call, running) {
        Ok(check) => Ok(check),
        Err(why) => Err(no_memory(why)),
    }
}

/// Runs a call whole on the last tables of the store. Returns its task, which has the spare log. Fails with `NoMemory` if
/// memory runs out.
fn run_last(
    alloc: Global,
    book: &Book,
    store: &Store,
    call: u32,
    spare: &mut Spare,
) -> Result<Task, NoMemory>
    requires stored { IsStoreOf book.now store.now }
    requires number { call < length book.now.script.calls }
    ensures records { IfOk result (λ task. AreLastOf book.now call task.log.records) }
    ensures executed { IfOk result (λ task. task.executed ≡ length task.log.records) }
{
    let mut view = StoreView::new(store, book.commits());
    match whole_task(alloc, book.script(), call, &mut view, spare) {
        Ok(task) => Ok(task),
        Err(why) => Err(no_memory(why)),
    }
}

/// Event M of a live call: it starts anew after all commits, and is run whole on the last tables of the store. Returns its
/// task, which has the spare log. If memory runs out, the call hasn't moved.
pub fn move_last(
    alloc: Global,
    book: &mut Book,
    store: &Store,
    call: u32,
    spare: &mut Spare,
) -> Result<Task, NoMemory>
    requires stored { IsStoreOf book.old store.now }
    requires live { IsLiveCall book.old.schedule call }
    requires number { call < length book.old.script.calls }
    ensures made { OnOk result (Made (M call) book.old book.new) }
    ensures settled { OnOk result (IsSettled book.new call) }
    ensures runs { IfOk result (λ task. RunsOn book.old.script call (last_tables book.old) task) }
    ensures records { IfOk result (λ task. AreLastOf book.old call task.log.records) }
    ensures executed { IfOk result (λ task. task.executed ≡ length task.log.records) }
    ensures same { OnErr result (IsSame book.old book.new) }
{
    let mut view = StoreView::new(store, book.commits());
    match move_task(alloc, book, &mut view, call, spare) {
        Ok(task) => Ok(task),
        Err(why) => Err(no_memory(why)),
    }
}

/// Repairs a live call that has run whole at its start, which isn't below low: runs it again on the last tables of the
/// store. If memory runs out, the call has lost its records, and is still the one that starts there.
fn repair_last(
    alloc: Global,
    book: &Book,
    store: &Store,
    call: u32,
    running: &mut Running,
) -> Result<(), NoMemory>
    requires stored { IsStoreOf book.now store.now }
    requires call { IsRunningIn book.now call running.old }
    requires fresh { IsNotStale book.now call }
    requires whole { AreRecordsOf book.now call running.old.task.log.records }
    requires ended { running.old.task.ended ≡ true }
    ensures ok { OnOk result ((l : Live) → IsLive book.now.schedule call l → IsRepaired book.now.script book.now.schedule.order call l running.new) }
    ensures err { OnErr result (IsTaskIn book.now call running.new) }
{
    let mut view = StoreView::new(store, book.commits());
    match repair_task(alloc, book, &mut view, call, running) {
        Ok(()) => Ok(()),
        Err(why) => Err(no_memory(why)),
    }
}

/// Returns what the commit of a call with these records tells. They are those of a full run on the last tables of the
/// store. Leaves out the changes if no other call is live. Fails with `NoMemory` if memory runs out.
fn tell_last(
    alloc: Global,
    book: &Book,
    store: &Store,
    call: u32,
    records: &Records<'_>,
) -> Result<CommitOutput, NoMemory>
    requires stored { IsStoreOf book.now store.now }
    requires number { call < length book.now.script.calls }
    requires whole { AreLastOf book.now call records.now }
    ensures reply { IfOk result (λ output. output.reply ≡ (last_run book.now call).reply) }
    ensures changes { IfOk result (λ output. IfSome output.changes (λ changes. changes ≡ last_changes book.now call)) }
    ensures alone { IfOk result (λ output. IfNone output.changes (IsAlone book.now call)) }
    ensures like { IsLike store.now (last_tables book.now) }
{
    let mut view = StoreView::new(store, store.last());
    match tell(alloc, book, &mut view, call, records) {
        Ok(output) => Ok(output),
        Err(why) => Err(no_memory(why)),
    }
}

/// Prepares the commit of a call with these records, which are those of a full run on the last tables: puts its writes,
/// and returns what the commit tells. If memory runs out, the call has no writes.
fn prepare(
    alloc: Global,
    book: &Book,
    store: &mut Store,
    call: u32,
    records: &Records<'_>,
) -> Result<CommitOutput, NoMemory>
    requires stored { IsStoreOf book.now store.old }
    requires number { call < length book.now.script.calls }
    requires whole { AreLastOf book.now call records.now }
    ensures reply { IfOk result (λ output. output.reply ≡ (last_run book.now call).reply) }
    ensures changes { IfOk result (λ output. IfSome output.changes (λ changes. changes ≡ last_changes book.now call)) }
    ensures alone { IfOk result (λ output. IfNone output.changes (IsAlone book.now call)) }
    ensures ok { OnOk result (IsPrepared book.now call store.new) }
    ensures err { OnErr result (IsStoreOf book.now store.new) }
{
    let output = tell_last(alloc, book, store, call, records)?;
    put_told(alloc, store, call, records)?;
    Ok(output)
}

/// Commits a live call, whose last round has its number. The records of its task are those of a full run on the last
/// tables. If a second task is given, the call was repaired in the same step, in a round of its own. Returns the number
/// of the commit. If memory runs out, the call hasn't committed.
pub fn commit_task(
    alloc: Global,
    book: &mut Book,
    store: &mut Store,
    call: u32,
    task: &Task,
    exclusive: Option<&Task>,
) -> Result<u32, NoMemory>
    requires stored { IsStoreOf book.old store.old }
    requires live { IsLiveCall book.old.schedule call }
    requires number { call < length book.old.script.calls }
    requires allowed { refusal (batch_in book.old) book.old.schedule (commit_event (own_number (option_copied exclusive)) call) ≡ None }
    requires whole { AreLastOf book.old call task.now.log.records }
    requires settled { IsSettled book.old call }
    requires own { IsOwnNumber (own_number (option_copied exclusive)) book.old call }
    ensures made { HasCommitted (commit_event (own_number (option_copied exclusive.entry)) call) result book.old book.new }
    ensures stored { IsStoreOf book.new store.new }
{
    book.reserve(call)?;
    let output = prepare(alloc, book, store, call, &task.records())?;
    let commit = book.commit(call, output.reply, output.changes, exclusive);
    store.stamp(call, commit);
    Ok(commit)
}

/// Event C of a live call that has run whole at its start, and that no commit after its start hits. Returns the number of
/// the commit. If memory runs out, the call hasn't committed.
pub fn settle_and_commit(
    alloc: Global,
    book: &mut Book,
    store: &mut Store,
    call: u32,
    task: &Task,
) -> Result<u32, NoMemory>
    requires stored { IsStoreOf book.old store.old }
    requires live { IsLiveCall book.old.schedule call }
    requires number { call < length book.old.script.calls }
    requires missing { IsMissing task.now.executed book.old call }
    requires whole { AreRecordsOf book.old call task.now.log.records }
    requires allowed { refusal (batch_in book.old) book.old.schedule (C call) ≡ None }
    ensures made { HasCommitted (C call) result book.old book.new }
    ensures stored { IsStoreOf book.new store.new }
{
    book.settle(call, task);
    commit_task(alloc, book, store, call, task, None)
}

/// Moves a live call, and commits it in the same step. It runs the call whole on the tables after all commits, with the
/// spare log, and keeps that log. Returns the number of the commit. If memory runs out, the call has neither moved nor
/// committed.
pub fn move_and_commit(
    alloc: Global,
    book: &mut Book,
    store: &mut Store,
    call: u32,
    spare: &mut Spare,
) -> Result<u32, NoMemory>
    requires stored { IsStoreOf book.old store.old }
    requires live { IsLiveCall book.old.schedule call }
    requires kind { IsNoReader book.old call }
    requires number { call < length book.old.script.calls }
    ensures made { HasMovedAndCommitted call result book.old book.new }
    ensures stored { IsStoreOf book.new store.new }
{
    let task = run_last(alloc, book, store, call, spare)?;
    book.reserve(call)?;
    let output = prepare(alloc, book, store, call, &task.records())?;
    book.restart(call, Mark::Moved);
    book.settle(call, &task);
    let commit = book.commit(call, output.reply, output.changes, None);
    store.stamp(call, commit);
    spare.keep(task);
    Ok(commit)
}

/// Event X of a live call that has run whole at its start, which isn't below low: repairs it, and commits it in the same
/// step. Returns the number of the commit. If memory runs out, the call hasn't committed, and may have lost its records.
pub fn decide_task(
    alloc: Global,
    book: &mut Book,
    store: &mut Store,
    call: u32,
    running: &mut Running,
) -> Result<u32, NoMemory>
    requires stored { IsStoreOf book.old store.old }
    requires call { IsRunningIn book.old call running.old }
    requires missing { IsMissing running.old.task.executed book.old call }
    requires fresh { IsNotStale book.old call }
    requires whole { AreRecordsOf book.old call running.old.task.log.records }
    requires ended { running.old.task.ended ≡ true }
    requires allowed { refusal (batch_in book.old) book.old.schedule (X call) ≡ None }
    ensures made { HasCommitted (X call) result book.old book.new }
    ensures stored { IsStoreOf book.new store.new }
    ensures whole { OnOk result (AreLastOf book.old call running.new.task.log.records) }
    ensures task { OnErr result (IsTaskIn book.old call running.new) }
{
    book.settle(call, &running.task);
    let number = running.number();
    repair_last(alloc, book, store, call, running)?;
    let task = &running.task;
    let committed = commit_task(alloc, book, store, call, task, Some(task));
    if committed.is_err() {
        running.spend(number);
    }
    committed
}

/// Event G. Collects the versions of the tables before the new low, and the changes of the commits up to it. Fails with
/// `NoMemory` if memory runs out, and then nothing is collected.
pub fn collect_versions(book: &mut Book, store: &mut Store) -> Result<(), NoMemory>
    requires { IsStoreOf book.old store.old }
    ensures made { HasCollected result book.old book.new }
    ensures raised { OnOk result (HasRaised book.new.schedule.low store.old store.new) }
    ensures same { OnErr result (store.new ≡ store.old) }
    ensures stored { IsStoreOf book.new store.new }
{
    book.reserve_event()?;
    let low = book.collect();
    store.raise(low);
    Ok(())
}

/// Turns a history and its tables into the outcome of the run: the replies by call, the calls in their order with their
/// rounds, the events, and the tables after all commits. Each call must have committed or been answered. It copies the
/// events. Fails with `NoMemory` if memory runs out.
pub fn outcome_of(alloc: Global, book: Book, store: Store) -> Result<Outcome, NoMemory>
    requires stored { IsStoreOf book store }
    requires ended { open_call (batch_in book) book.schedule ≡ None }
    ensures outcome { IfOk result (λ outcome. outcome ≡ outcome_of (batch_in book) book.journal) }
    ensures lawful { OnOk result (Lawful (batch_in book) book.journal) }
{
    let last = store.last();
    let tables = store.into_tables_at(alloc, last)?;
    book.outcome(alloc, tables)
}
