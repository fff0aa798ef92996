//! A history with its tables and its running calls.

ghost use Rattle.std.specs.Prelude.{◌≡◌, ◌<◌, ◌≤◌, [], ◌==◌, ◌&&◌, not, nat_lt, ◌+◌, length, slice_get, slice_set, Some, None, IfOk, IfErr, IfSome, IfNone, OnOk};
ghost use Rattle.mv_journal.specs.declared.event.Event.TheVariants.{A, X};
ghost use Rattle.mv_lawful.specs.Lawful.{Live, Lawful, beginning, schedule_of, has_step, has_round, open_call, AllAllowed};
ghost use Rattle.mv_lawful.specs.Outcomes.{outcome_of};
ghost use Rattle.mv_exec.specs.Running.{stepped};
ghost use Rattle.mv_changes.specs.Commits.{changes_in, AreNumbered};
ghost use Rattle.mv_lawful.specs.Batch.{since};
ghost use Rattle.mv_lawful.specs.Rounds.{last_number};
ghost use Rattle.mv_core.specs.Calls.{IsLive, IsLiveCall, due_number};
ghost use Rattle.mv_script.specs.Scripts.{IsCompiledScript};
ghost use Rattle.mv_core.specs.Books.{batch_in, HasRounds, IsSame, IsNotStale, IsReader, IsNoReader, IsAnswer, AreRecordsOf, HasAnswered};
ghost use Rattle.mv_core.specs.Cores.{HasStep, HasEnded, MayStep, IsAllowedIfFresh, HasRefused, HasBegunCall, HasStepped, HasTried, HasRepaired, HasDecided, HasMovedUp, HasCollected, AreFirstOf, AreOfLast, HasAllRecords, KeepsOtherTasks, BeginsTask, RunsOne, RunsWhole, records_in};

use crate::block::Block;
use crate::book::{Book, Check};
use crate::commits::{
    check_task, collect_versions, decide_task, move_last, outcome_of, settle_and_commit,
};
use crate::running::is_read_only;
use crate::shared::SharedScript;
use crate::spare::Spare;
use crate::tasks::{
    Running, answer_task, finish_task, has_step, new_task, rerun_task, step_task, whole_task,
};
use mv_changes::recent::Committed;
use mv_exec::step::Stepped;
use mv_exec::task::Task;
use mv_journal::event::Event;
use mv_journal::outcome::{Outcome, Round};
use mv_log::records::Records;
use mv_script::columns::indexed_columns;
use mv_script::script::CompiledScript;
use mv_store::store::Store;
use mv_store::view::StoreView;
use mv_values::list::List;
use mv_values::memory::NoMemory;
use mv_view::view::Refused;
use std::alloc::Global;
use std::marker::Model;
use std::mem;

/// What a call's attempt to commit comes to.
#[derive(Clone, Copy)]
pub enum Attempt {
    /// The call has committed. This is the number of the commit.
    Committed(u32),
    /// The record of this number is hit, and this is the first commit that hits it.
    Hit { number: usize, commit: u32 },
    /// The call's start is below low.
    Stale { start: u32, low: u32 },
}

/// A history, its tables after each commit from low on, and its running calls. Contracts see the history and the running
/// calls.
#[derive(Drop)]
pub struct Core {
    book: Book,
    store: Store,
    /// The tasks of the calls that have begun, by number. A call that is done has none.
    tasks: Vec<Option<Block<Running>>>,
    spare: Spare,
    /// The task of the latest commit, with its records.
    last: Option<Block<Running>>,
    /// The block of a call that was done before, for the next call. It has the task of that call until then.
    block: Option<Block<Running>>,
}

impl Model for Core {
    ghost use Rattle.std.specs.Coded.{codes};
    ghost use Rattle.mv_catalog.specs.contracts.resolved.RStmt as statement;
    ghost use Rattle.mv_core.specs.Cores.{Cored, IsCore, KeepsLast};

    ghost Value = { Cored };

    ghost coded = { Prim.hlevel (codes, statement.the_row.coded) };

    ghost view = { λ c. record { book = c.book; tasks = c.tasks.items } };

    ghost invariant = { λ c. IsCore c.book c.store c.tasks.items × KeepsLast c.book c.last };
}

impl Core {
    /// Returns a core without events. It copies the opening database. Fails with `NoMemory` if memory runs out.
    pub fn new(alloc: Global, script: CompiledScript) -> Result<Core, NoMemory>
        requires { IsCompiledScript script }
        ensures script { IfOk result (λ core. core.book.script ≡ script) }
        ensures schedule { IfOk result (λ core. core.book.schedule ≡ beginning) }
        ensures journal { IfOk result (λ core. core.book.journal ≡ []) }
        ensures tasks { IfOk result (λ core. core.tasks ≡ []) }
    {
        let columns = indexed_columns(alloc, &script)?;
        let store = Store::new(alloc, &script.opening, &columns)?;
        let script = SharedScript::new(alloc, script)?;
        Ok(Core {
            book: Book::new(alloc, script),
            store,
            tasks: Vec::new(alloc),
            spare: Spare::new(),
            last: None,
            block: None,
        })
    }

    /// Begins the next call, after all commits. Returns `None` exactly if each call has begun. Fails with `NoMemory` if
    /// memory runs out.
    pub fn begin(&mut self, alloc: Global) -> Result<Option<u32>, NoMemory>
        ensures made { HasBegunCall result self.old.book self.new.book }
        ensures task { BeginsTask result self.old self.new }
    {
        let Some(call) = self.book.next_call() else {
            return Ok(None);
        };
        let task = new_task(alloc, self.book.script(), call, &mut self.spare)?;
        let running = Running { task, count: None };
        let block = block_for(alloc, running, &mut self.block, &mut self.spare)?;
        self.tasks.push(Some(block))?;
        match self.book.begin(alloc) {
            Ok(Some(begun)) => Ok(Some(begun.call)),
            Ok(None) => unreachable!(),
            Err(error) => {
                self.tasks.truncate(call as usize);
                Err(error)
            }
        }
    }

    /// Fails with `Stale` if the start of a live call is below low.
    fn refuse_stale(&self, call: u32) -> Result<(), Refused>
        requires { IsLiveCall self.now.book.schedule call }
        ensures fresh { OnOk result (IsNotStale self.now.book call) }
        ensures refused { IfErr result (λ why. HasRefused call why self.now.book self.now.book) }
    {
        let start = self.book.start(call);
        let low = self.book.low();
        if start < low {
            return Err(Refused::Stale { start, low });
        }
        Ok(())
    }

    /// Executes the next statement of a live call, and no other. It reads the tables at the call's start. The call's first
    /// run must have a statement left. Returns `Ended` exactly if it then has none. If an attempt to commit has executed
    /// the statement before, nothing is executed. Fails with `Stale` exactly if the start is below low, and with
    /// `NoMemory` if memory runs out. On an error all is as before.
    pub fn step(&mut self, alloc: Global, call: u32) -> Result<Stepped, Refused>
        requires live { IsLiveCall self.old.book.schedule call }
        requires left { HasStep self.old.book call }
        ensures made { HasStepped call result self.old.book self.new.book }
        ensures one { OnOk result (RunsOne call self.old self.new) }
        ensures others { KeepsOtherTasks call self.old self.new }
    {
        self.refuse_stale(call)?;
        self.book.reserve(call)?;
        let Some(block) = &mut self.tasks[call as usize] else {
            unreachable!();
        };
        let running = block.get_mut();
        let mut view = StoreView::new(&self.store, self.book.start(call));
        step_task(alloc, &self.book, &mut view, call, running)?;
        self.book.ran(call);
        Ok(stepped_of(running.has_more(self.book.steps(call))))
    }

    /// Answers a live read only call at its start: event R. First it runs the rest of the call there. Returns the
    /// start. Fails with `Stale` exactly if the start is below low, and with `NoMemory` if memory runs out. Then the
    /// call isn't answered.
    pub fn answer_read(&mut self, alloc: Global, call: u32) -> Result<u32, Refused>
        requires live { IsLiveCall self.old.book.schedule call }
        requires kind { IsReader self.old.book call }
        ensures answered { HasAnswered call result self.old.book self.new.book }
        ensures others { KeepsOtherTasks call self.old self.new }
    {
        self.refuse_stale(call)?;
        let Some(block) = &mut self.tasks[call as usize] else {
            unreachable!();
        };
        let running = block.get_mut();
        let mut view = StoreView::new(&self.store, self.book.start(call));
        finish_task(alloc, &self.book, &mut view, call, running)?;
        let start = answer_task(alloc, &mut self.book, call, &running.task)?;
        drop_task(&mut self.tasks, call, &mut self.block);
        Ok(start)
    }

    /// Tries to commit a live call that isn't read only. First it runs the rest of the call at its start. Returns `Hit`
    /// exactly if a commit after the start hits a record of the call, and `Stale` exactly if the start is below low.
    /// Then nothing is committed, as after `NoMemory`, which comes if memory runs out.
    pub fn attempt(&mut self, alloc: Global, call: u32) -> Result<Attempt, NoMemory>
        requires live { IsLiveCall self.old.book.schedule call }
        requires kind { IsNoReader self.old.book call }
        ensures made { HasTried call result self.old.book self.new.book }
        ensures whole { IfOk result (λ attempt. RunsWhole call attempt self.new) }
        ensures others { KeepsOtherTasks call self.old self.new }
    {
        let Some(block) = &mut self.tasks[call as usize] else {
            unreachable!();
        };
        let running = block.get_mut();
        match check_task(alloc, &self.book, &self.store, call, running)? {
            Check::Free => {
                let task = &running.task;
                let commit = settle_and_commit(alloc, &mut self.book, &mut self.store, call, task)?;
                end_task(&mut self.tasks, call, &mut self.last, &mut self.block);
                Ok(Attempt::Committed(commit))
            }
            Check::Hit { number, commit } => Ok(Attempt::Hit { number, commit }),
            Check::Stale { start, low } => Ok(Attempt::Stale { start, low }),
        }
    }

    /// Validates a live call that isn't read only. First it runs the rest of the call at its start, unless that is
    /// below low.
    pub(crate) fn validate(&mut self, alloc: Global, call: u32) -> Result<Check, NoMemory>
        requires live { IsLiveCall self.old.book.schedule call }
        requires kind { IsNoReader self.old.book call }
        ensures answer { IfOk result (λ check. (l : Live) → IsLive self.old.book.schedule call l → IsAnswer check (batch_in self.old.book) self.old.book.schedule call l) }
        ensures same { IsSame self.old.book self.new.book }
    {
        let Some(block) = &mut self.tasks[call as usize] else {
            unreachable!();
        };
        let running = block.get_mut();
        check_task(alloc, &self.book, &self.store, call, running)
    }

    /// Repairs a live call that a commit after its start hits: runs it again, after all commits. First it runs the rest
    /// of the call at its start. Executes only what depends on the changes since that start, and returns the number of
    /// executed records. Fails with `Stale` exactly if the start is below low, and with `NoMemory` if memory runs out. On
    /// an error all is as before, but the call may have lost its records. It then runs again from its first statement.
    pub fn again(&mut self, alloc: Global, call: u32) -> Result<usize, Refused>
        requires live { IsLiveCall self.old.book.schedule call }
        requires allowed { IsAllowedIfFresh self.old.book (A call) }
        ensures made { HasRepaired call result self.old.book self.new.book }
        ensures whole { OnOk result (HasAllRecords self.new call) }
        ensures others { KeepsOtherTasks call self.old self.new }
    {
        self.refuse_stale(call)?;
        let Some(block) = &mut self.tasks[call as usize] else {
            unreachable!();
        };
        let running = block.get_mut();
        let mut view = StoreView::new(&self.store, self.book.start(call));
        finish_task(alloc, &self.book, &mut view, call, running)?;
        let mut last = StoreView::new(&self.store, self.book.commits());
        let executed = rerun_task(alloc, &mut self.book, &mut last, call, running)?;
        Ok(executed)
    }

    /// Repairs a live call that a commit after its start hits, and commits it in the same step. The call must have used
    /// all its rounds. First it runs the rest of the call at its start. Returns the number of the commit. Fails as
    /// `again` does.
    pub fn exclusive(&mut self, alloc: Global, call: u32) -> Result<u32, Refused>
        requires live { IsLiveCall self.old.book.schedule call }
        requires allowed { IsAllowedIfFresh self.old.book (X call) }
        ensures made { HasDecided call result self.old.book self.new.book }
        ensures others { KeepsOtherTasks call self.old self.new }
    {
        self.refuse_stale(call)?;
        let Some(block) = &mut self.tasks[call as usize] else {
            unreachable!();
        };
        let running = block.get_mut();
        let mut view = StoreView::new(&self.store, self.book.start(call));
        finish_task(alloc, &self.book, &mut view, call, running)?;
        let commit = decide_task(alloc, &mut self.book, &mut self.store, call, running)?;
        end_task(&mut self.tasks, call, &mut self.last, &mut self.block);
        Ok(commit)
    }

    /// Moves a live call: it starts anew after all commits, and is run whole. Returns the number of its records. Fails
    /// with `NoMemory` if memory runs out, and then the call hasn't moved.
    pub fn move_up(&mut self, alloc: Global, call: u32) -> Result<usize, NoMemory>
        requires { IsLiveCall self.old.book.schedule call }
        ensures made { HasMovedUp call result self.old.book self.new.book }
        ensures whole { OnOk result (HasAllRecords self.new call) }
        ensures others { KeepsOtherTasks call self.old self.new }
    {
        let task = move_last(alloc, &mut self.book, &self.store, call, &mut self.spare)?;
        let executed = task.executed();
        let Some(block) = &mut self.tasks[call as usize] else {
            unreachable!();
        };
        let running = Running { task, count: None };
        replace_task(block.get_mut(), running, &mut self.spare);
        Ok(executed)
    }

    /// Collects old versions. Tables that no live call reads may no longer be read. With a horizon, this makes calls
    /// with older starts stale. Fails with `NoMemory` if memory runs out, and then nothing is collected. Takes time
    /// linear in the number of live calls and of the keys that the commits up to low have written.
    pub fn collect(&mut self) -> Result<(), NoMemory>
        ensures made { HasCollected result self.old.book self.new.book }
        ensures tasks { self.new.tasks ≡ self.old.tasks }
    {
        collect_versions(&mut self.book, &mut self.store)
    }

    /// Returns the events. The law of journals allows each of them after those before it.
    pub fn journal(&self) -> &[Event]
        ensures events { result.now ≡ self.now.book.journal }
        ensures allowed { AllAllowed (batch_in self.now.book) beginning self.now.book.journal }
        ensures reaches { self.now.book.schedule ≡ schedule_of (batch_in self.now.book) self.now.book.journal }
    {
        self.book.journal()
    }

    /// Returns the rounds of a live call. Returns `None` for a call that hasn't begun or is done. The last round has
    /// the call's start. Only a first round may not have its number yet.
    pub fn rounds(&self, call: u32) -> Option<&[Round]>
        ensures live { IfSome result (λ rounds. HasRounds self.now.book call rounds.now) }
        ensures numbers { IfSome result (λ rounds. last_number rounds.now ≡ None → length rounds.now ≡ 1) }
        ensures none { IfNone result (IsLiveCall self.now.book.schedule call → ⊥) }
    {
        self.book.rounds(call)
    }

    /// Whether the statements of a live call have run: it isn't in its first round, or no statement of that is left.
    pub fn ended(&self, call: u32) -> bool
        requires { IsLiveCall self.now.book.schedule call }
        ensures { (l : Live) → IsLive self.now.book.schedule call l → result ≡ not (has_step (batch_in self.now.book) self.now.book.schedule call l) }
    {
        !self.may_step(call)
    }

    /// Returns the records of a live call, as far as it has run. They are the first ones of its full run on the tables at
    /// its start.
    pub fn records(&self, call: u32) -> Records<'_>
        requires { IsLiveCall self.now.book.schedule call }
        ensures told { result ≡ records_in self.now call }
        ensures first { AreFirstOf self.now.book call result }
    {
        let Some(block) = &self.tasks[call as usize] else {
            unreachable!();
        };
        block.get().task.records()
    }

    /// Returns the records of the latest commit: those of a full run of its call on the tables before it. A call must have
    /// committed.
    pub fn last_records(&self) -> Records<'_>
        requires { 0 < length self.now.book.schedule.order }
        ensures { AreOfLast self.now.book result }
    {
        let Some(block) = &self.last else {
            unreachable!();
        };
        block.get().task.records()
    }

    /// Returns the commits after the start of a live call, with their changes. The call's start may not be below low.
    pub fn since(&self, call: u32) -> &[Committed]
        requires live { IsLiveCall self.now.book.schedule call }
        requires fresh { IsNotStale self.now.book call }
        ensures changes { (l : Live) → IsLive self.now.book.schedule call l → changes_in result.now ≡ since (batch_in self.now.book) self.now.book.schedule.order l.start }
        ensures numbers { (l : Live) → IsLive self.now.book.schedule call l → AreNumbered (l.start + 1) result.now }
    {
        self.book.since(call)
    }

    /// Copies the commits after the start of a live call, with their changes. The call's start may not be below low. Fails
    /// with `NoMemory` if memory runs out.
    pub fn copy_since(&self, alloc: Global, call: u32) -> Result<List<Committed>, NoMemory>
        requires live { IsLiveCall self.now.book.schedule call }
        requires fresh { IsNotStale self.now.book call }
        ensures changes { IfOk result (λ commits. (l : Live) → IsLive self.now.book.schedule call l → changes_in commits ≡ since (batch_in self.now.book) self.now.book.schedule.order l.start) }
        ensures numbers { IfOk result (λ commits. (l : Live) → IsLive self.now.book.schedule call l → AreNumbered (l.start + 1) commits) }
    {
        self.book.copy_since(alloc, call)
    }

    /// Runs a live call whole at its start, beside its own task. Fails with `Stale` exactly if the start is below low, and
    /// with `NoMemory` if memory runs out.
    pub fn run_whole(&self, alloc: Global, call: u32) -> Result<Task, Refused>
        requires { IsLiveCall self.now.book.schedule call }
        ensures records { IfOk result (λ task. AreRecordsOf self.now.book call task.log.records) }
        ensures number { OnOk result (call < length self.now.book.script.calls) }
        ensures fresh { OnOk result (IsNotStale self.now.book call) }
        ensures refused { IfErr result (λ why. HasRefused call why self.now.book self.now.book) }
    {
        self.refuse_stale(call)?;
        let mut view = StoreView::new(&self.store, self.book.start(call));
        let mut spare = Spare::new();
        let task = whole_task(alloc, self.book.script(), call, &mut view, &mut spare)?;
        Ok(task)
    }

    /// Returns the number of records that the last round of a live call executed. The call's statements must have run.
    pub fn executed(&self, call: u32) -> usize
        requires live { IsLiveCall self.now.book.schedule call }
        requires ended { HasEnded self.now.book call }
        ensures { due_number (batch_in self.now.book) self.now.book.schedule call ≡ Some result }
    {
        let Some(block) = &self.tasks[call as usize] else {
            unreachable!();
        };
        let running = block.get();
        match running.count {
            Some(count) => count,
            None => self.book.number(call, &running.task),
        }
    }

    /// Returns the number of commits.
    pub fn commits(&self) -> u32
        ensures { result ≡ length self.now.book.schedule.order }
    {
        self.book.commits()
    }

    /// Returns the number of calls that have begun.
    pub fn begun(&self) -> u32
        ensures begun { result ≡ length self.now.book.schedule.calls }
        ensures within { result ≤ length self.now.book.script.calls }
    {
        self.tasks.len() as u32
    }

    /// Returns the call that begins next, or none if each has begun.
    pub fn next_call(&self) -> Option<u32>
        ensures next { IfSome result (λ call. (call ≡ length self.now.book.schedule.calls) × (call < length self.now.book.script.calls)) }
        ensures none { IfNone result (length self.now.book.schedule.calls ≡ length self.now.book.script.calls) }
    {
        self.book.next_call()
    }

    /// Whether a live call is of a READ ONLY procedure.
    pub fn is_read_only(&self, call: u32) -> bool
        requires { IsLiveCall self.now.book.schedule call }
        ensures { result ≡ (batch_in self.now.book).read_only call }
    {
        is_read_only(self.book.script(), call)
    }

    /// Whether this call begins next.
    pub(crate) fn is_next(&self, call: u32) -> bool
        ensures { result ≡ ((call == length self.now.book.schedule.calls) && nat_lt call (length self.now.book.script.calls)) }
    {
        match self.next_call() {
            Some(next) => next == call,
            None => false,
        }
    }

    /// Whether the call is live and in its first round, which has a statement left.
    pub(crate) fn may_step(&self, call: u32) -> bool
        ensures { MayStep result self.now.book call }
    {
        let Some(_) = self.book.rounds(call) else {
            return false;
        };
        let Some(block) = &self.tasks[call as usize] else {
            unreachable!();
        };
        let running = block.get();
        has_step(&self.book, call, running)
    }

    /// Whether a live call was repaired and moved less often than there are rounds. Then it may be repaired once more
    /// before it is decided in one step.
    pub(crate) fn has_round(&self, call: u32) -> bool
        requires { IsLiveCall self.now.book.schedule call }
        ensures { (l : Live) → IsLive self.now.book.schedule call l → result ≡ has_round (batch_in self.now.book) l }
    {
        self.book.has_round(call)
    }

    /// Returns the least call that has neither committed nor been answered. Takes time linear in the number of calls
    /// that have begun.
    pub fn open_call(&self) -> Option<u32>
        ensures { result ≡ open_call (batch_in self.now.book) self.now.book.schedule }
    {
        for call in 0..self.begun() {
            if self.rounds(call).is_some() {
                return Some(call);
            }
        }
        self.next_call()
    }

    /// Turns the core into the outcome of its run: the replies by call, the calls in their order with their rounds, the
    /// events, and the tables after all commits. Each call must have committed or been answered. Fails with `NoMemory`
    /// if memory runs out.
    pub fn outcome(self, alloc: Global) -> Result<Outcome, NoMemory>
        requires { open_call (batch_in self.book) self.book.schedule ≡ None }
        ensures outcome { IfOk result (λ outcome. outcome ≡ outcome_of (batch_in self.book) self.book.journal) }
        ensures lawful { OnOk result (Lawful (batch_in self.book) self.book.journal) }
    {
        let Core { book, store, .. } = self;
        outcome_of(alloc, book, store)
    }
}

/// Returns `Ran` if a statement is left.
fn stepped_of(more: bool) -> Stepped
    ensures { result ≡ stepped (not more) }
{
    if more { Stepped::Ran } else { Stepped::Ended }
}

/// Puts a running call in place of another, whose log becomes the spare one.
fn replace_task(running: &mut Running, next: Running, spare: &mut Spare)
    ensures { running.new ≡ next }
{
    let before = mem::replace(running, next);
    spare.keep(before.task);
}

/// Returns a block with this running call. It is the kept one, and the log of the task in it becomes the spare one. If no
/// block is kept, it is a new one. Fails with `NoMemory` if memory runs out.
fn block_for(
    alloc: Global,
    running: Running,
    kept: &mut Option<Block<Running>>,
    spare: &mut Spare,
) -> Result<Block<Running>, NoMemory>
    ensures { IfOk result (λ block. block ≡ running) }
{
    let Some(mut block) = kept.take() else {
        return Block::new(alloc, running);
    };
    replace_task(block.get_mut(), running, spare);
    Ok(block)
}

/// Ends the task of a call, which is then the last one, and keeps the block of the one before.
fn end_task(
    tasks: &mut Vec<Option<Block<Running>>>,
    call: u32,
    last: &mut Option<Block<Running>>,
    kept: &mut Option<Block<Running>>,
)
    requires { call < length tasks.old.items }
    ensures tasks { tasks.new.items ≡ slice_set tasks.old.items call None }
    ensures last { slice_get tasks.old.items call ≡ Some last.new }
{
    *kept = mem::replace(last, tasks[call as usize].take());
}

/// Ends the task of a call that was answered, and keeps its block.
fn drop_task(tasks: &mut Vec<Option<Block<Running>>>, call: u32, kept: &mut Option<Block<Running>>)
    requires { call < length tasks.old.items }
    ensures { tasks.new.items ≡ slice_set tasks.old.items call None }
{
    *kept = tasks[call as usize].take();
}
