//! The events of live calls: A, C, M, R and X.

ghost use Rattle.std.specs.Prelude.{◌≡◌, None, Ok, true, IfOk, OnOk, OnErr, length};
ghost use Rattle.mv_seats.specs.Knowing.{Plain};
ghost use Rattle.mv_lawful.specs.Lawful.{Live, refusal};
ghost use Rattle.mv_journal.specs.declared.event.Event.TheVariants.{A, M, C, X};
ghost use Rattle.mv_shards.specs.Leaves.{IsLeave, start_shown};
ghost use Rattle.mv_core.specs.Calls.{IsLive};
ghost use Rattle.mv_core.specs.Books.{batch_in, Made, IsSame, IsNotStale, IsReader, IsNoReader, HasAnswered};
ghost use Rattle.mv_core.specs.Output.{reply_told, writes_told};
ghost use Rattle.mv_core.specs.Cores.{HasCommitted, HasMovedAndCommitted};
ghost use Rattle.mv_gate.specs.Gates.{IsWhole, MayMove, HasRound, StartsLast, HasMovedAndAnswered};

use super::{Scheduler, next_start};
use crate::beside::Beside;
use crate::held::{Begun, Repair};
use crate::installing::{install, install_task};
use crate::latest::{repair_last, run_last};
use crate::output::CallOutput;
use mv_core::output::reply_of;
use mv_core::spare::Spare;
use mv_core::tasks::answer_told;
use mv_exec::task::Task;
use mv_grace::grace::Naming;
use mv_grace::pin::Pin;
use mv_journal::outcome::Mark;
use mv_seats::board::{Board, Making};
use mv_seats::pass::Pass;
use mv_shards::start::Start;
use mv_values::calls::Reply;
use mv_values::list::List;
use mv_values::memory::NoMemory;
use mv_values::patch::Write;
use mv_view::view::Refused;
use std::alloc::Global;
use std::sync::Wait;

impl<N: Making + Naming> Scheduler<N> {
    /// Event C of a call whose task has run whole.
    pub(super) fn commit<R: Wait>(
        &mut self,
        alloc: Global,
        beside: &Beside<'_, N, R>,
        last: &mut Option<Pin<N>>,
        call: u32,
        task: &Task,
        reply: Reply,
        writes: &List<Write>,
    ) -> Result<u32, NoMemory>
        requires whole { IsWhole self.old call task.now }
        requires reply { reply ≡ reply_told task.now.log.records }
        requires writes { writes.now ≡ writes_told task.now.log.records }
        requires allowed { refusal (batch_in self.old) self.old.schedule (C call) ≡ None }
        requires last { IsLeave N.script N.word (start_shown last.old) (length self.old.schedule.order) }
        ensures made { HasCommitted (C call) result self.old self.new }
        ensures last { IsLeave N.script N.word (start_shown last.new) (length self.old.schedule.order) }
    {
        let _events = self.book.journal();
        self.book.settle(call, task);
        self.book.reserve(call)?;
        let installed = install(
            alloc,
            beside,
            &mut self.ledger,
            last,
            call,
            task,
            reply,
            writes,
        )?;
        let changes = Some(installed.changes);
        let commit = self.book.commit(call, installed.reply, changes, None);
        self.starts[call as usize] = None;
        Ok(commit)
    }

    /// Event C of a call whose task has run whole. It copies what the task tells.
    pub(super) fn commit_unheld<R: Wait>(
        &mut self,
        alloc: Global,
        beside: &Beside<'_, N, R>,
        last: &mut Option<Pin<N>>,
        call: u32,
        task: &Task,
    ) -> Result<u32, NoMemory>
        requires whole { IsWhole self.old call task.now }
        requires allowed { refusal (batch_in self.old) self.old.schedule (C call) ≡ None }
        requires last { IsLeave N.script N.word (start_shown last.old) (length self.old.schedule.order) }
        ensures made { HasCommitted (C call) result self.old self.new }
        ensures last { IsLeave N.script N.word (start_shown last.new) (length self.old.schedule.order) }
    {
        let output = CallOutput::new(alloc, task)?;
        let CallOutput { reply, writes } = output;
        self.commit(alloc, beside, last, call, task, reply, &writes)
    }

    /// Event X of a call whose task has run whole.
    pub(super) fn exclusive<R: Wait>(
        &mut self,
        alloc: Global,
        beside: &Beside<'_, N, R>,
        last: &mut Option<Pin<N>>,
        call: u32,
        task: &mut Task,
    ) -> Result<u32, NoMemory>
        requires whole { IsWhole self.old call task.old }
        requires fresh { IsNotStale self.old call }
        requires allowed { refusal (batch_in self.old) self.old.schedule (X call) ≡ None }
        requires last { IsLeave N.script N.word (start_shown last.old) (length self.old.schedule.order) }
        ensures made { HasCommitted (X call) result self.old self.new }
        ensures last { IsLeave N.script N.word (start_shown last.new) (length self.old.schedule.order) }
    {
        let _events = self.book.journal();
        self.book.settle(call, task);
        self.book.reserve(call)?;
        repair_last(
            alloc,
            beside,
            &self.book,
            &mut self.ledger,
            last,
            call,
            task,
        )?;
        let installed = install_task(alloc, beside, &mut self.ledger, last, call, task)?;
        let changes = Some(installed.changes);
        let commit = self
            .book
            .commit(call, installed.reply, changes, Some(&*task));
        self.starts[call as usize] = None;
        Ok(commit)
    }

    /// Event R of a read only call whose task has run whole, and tells this reply. Returns its start. Fails with `NoMemory`
    /// if memory runs out. Then the call isn't answered.
    pub(super) fn answer(&mut self, call: u32, task: &Task, reply: Reply) -> Result<u32, NoMemory>
        requires whole { IsWhole self.old call task.now }
        requires reply { reply ≡ reply_told task.now.log.records }
        requires kind { IsReader self.old call }
        requires fresh { IsNotStale self.old call }
        ensures ok { IfOk result (λ start. HasAnswered call (Ok start) self.old self.new) }
        ensures err { OnErr result (IsSame self.old self.new) }
    {
        let _events = self.book.journal();
        match answer_told(&mut self.book, call, task, reply) {
            Ok(start) => {
                self.starts[call as usize] = None;
                Ok(start)
            }
            Err(Refused::NoMemory) => Err(NoMemory),
            Err(Refused::Stale { .. }) => unreachable!(),
        }
    }

    /// Events M and R of a read only call whose start lies further back than the horizon. All memory is taken before the
    /// first event.
    pub(super) fn move_and_answer<R: Wait>(
        &mut self,
        alloc: Global,
        beside: &Beside<'_, N, R>,
        last: &mut Option<Pin<N>>,
        call: u32,
        spare: &mut Spare,
    ) -> Result<u32, NoMemory>
        requires may { MayMove self.old call }
        requires kind { IsReader self.old call }
        requires last { IsLeave N.script N.word (start_shown last.old) (length self.old.schedule.order) }
        ensures made { HasMovedAndAnswered call result self.old self.new }
        ensures last { IsLeave N.script N.word (start_shown last.new) (length self.old.schedule.order) }
    {
        let _events = self.book.journal();
        let task = run_last(alloc, beside, &mut self.ledger, last, call, spare)?;
        let reply = reply_of(alloc, &task.records())?;
        self.book.reserve(call)?;
        self.book.restart(call, Mark::Moved);
        self.book.settle(call, &task);
        let Ok(start) = self.book.answer_read(call, reply) else {
            unreachable!();
        };
        self.starts[call as usize] = None;
        spare.keep(task);
        Ok(start)
    }

    /// Events M and C of a call whose start lies further back than the horizon. All memory is taken before the first
    /// event. So no call is left that has moved here and hasn't committed.
    pub(super) fn move_and_commit<R: Wait>(
        &mut self,
        alloc: Global,
        beside: &Beside<'_, N, R>,
        last: &mut Option<Pin<N>>,
        call: u32,
        spare: &mut Spare,
    ) -> Result<u32, NoMemory>
        requires may { MayMove self.old call }
        requires kind { IsNoReader self.old call }
        requires last { IsLeave N.script N.word (start_shown last.old) (length self.old.schedule.order) }
        ensures made { HasMovedAndCommitted call result self.old self.new }
        ensures last { IsLeave N.script N.word (start_shown last.new) (length self.old.schedule.order) }
    {
        let _events = self.book.journal();
        let task = run_last(alloc, beside, &mut self.ledger, last, call, spare)?;
        self.book.reserve(call)?;
        let installed = install_task(alloc, beside, &mut self.ledger, last, call, &task)?;
        self.book.restart(call, Mark::Moved);
        self.book.settle(call, &task);
        let changes = Some(installed.changes);
        let commit = self.book.commit(call, installed.reply, changes, None);
        self.starts[call as usize] = None;
        Ok(commit)
    }

    /// Event A of a call whose task has run whole. It has still to be repaired at its new start.
    pub(super) fn again(
        &mut self,
        alloc: Global,
        board: &Board<N>,
        call: u32,
        mut start: Start<N>,
        task: Task,
    ) -> Result<Repair<N>, NoMemory>
        requires whole { IsWhole self.old call task }
        requires start { (l : Live) → IsLive self.old.schedule call l → l.start ≡ start.number }
        requires fresh { IsNotStale self.old call }
        requires allowed { refusal (batch_in self.old) self.old.schedule (A call) ≡ None }
        ensures ok { OnOk result (Made (A call) self.old self.new) }
        ensures call { IfOk result (λ repair. repair.call ≡ call) }
        ensures from { IfOk result (λ repair. repair.from ≡ start.number) }
        ensures last { IfOk result (λ repair. StartsLast repair.start self.new) }
        ensures err { OnErr result (IsSame self.old self.new) }
    {
        let _events = self.book.journal();
        let from = start.number();
        self.book.settle(call, &task);
        self.book.reserve(call)?;
        let since = self.book.copy_since(alloc, call)?;
        let mut seen = start.pass_for(board);
        let (next, touched) = next_start(alloc, board, &mut self.ledger, &mut seen)?;
        self.book.restart(call, Mark::Plain);
        self.starts[call as usize] = Some(touched);
        Ok(Repair {
            call,
            start: next,
            from,
            task,
            since,
        })
    }

    /// Event M of a call whose start lies further back than the horizon. It has still to run at its new start.
    pub(super) fn move_up(
        &mut self,
        alloc: Global,
        board: &Board<N>,
        call: u32,
        seen: &mut Pass<N>,
    ) -> Result<Begun<N>, NoMemory>
        requires call { MayMove self.old call }
        requires left { HasRound true self.old call }
        requires plain { seen.old.role ≡ Plain }
        ensures ok { OnOk result (Made (M call) self.old self.new) }
        ensures call { IfOk result (λ begun. begun.call ≡ call) }
        ensures last { IfOk result (λ begun. StartsLast begun.start self.new) }
        ensures err { OnErr result (IsSame self.old self.new) }
    {
        let _events = self.book.journal();
        self.book.reserve(call)?;
        let (start, touched) = next_start(alloc, board, &mut self.ledger, seen)?;
        self.book.restart(call, Mark::Moved);
        self.starts[call as usize] = Some(touched);
        Ok(Begun { call, start })
    }

    /// Event A of a live call that no worker holds any more, with its repair.
    pub(super) fn rerun<R: Wait>(
        &mut self,
        alloc: Global,
        beside: &Beside<'_, N, R>,
        last: &mut Option<Pin<N>>,
        call: u32,
        task: &mut Task,
    ) -> Result<(), NoMemory>
        requires whole { IsWhole self.old call task.old }
        requires fresh { IsNotStale self.old call }
        requires allowed { refusal (batch_in self.old) self.old.schedule (A call) ≡ None }
        requires last { IsLeave N.script N.word (start_shown last.old) (length self.old.schedule.order) }
        ensures ok { OnOk result (Made (A call) self.old self.new) }
        ensures whole { OnOk result (IsWhole self.new call task.new) }
        ensures free { OnOk result (refusal (batch_in self.new) self.new.schedule (C call) ≡ None) }
        ensures err { OnErr result (IsSame self.old self.new) }
        ensures last { IsLeave N.script N.word (start_shown last.new) (length self.old.schedule.order) }
    {
        let _events = self.book.journal();
        self.book.settle(call, task);
        self.book.reserve(call)?;
        let mut seen = self.ledger.pass_for(beside.board);
        let (_start, touched) = next_start(alloc, beside.board, &mut self.ledger, &mut seen)?;
        repair_last(
            alloc,
            beside,
            &self.book,
            &mut self.ledger,
            last,
            call,
            task,
        )?;
        self.book.restart(call, Mark::Plain);
        self.starts[call as usize] = Some(touched);
        Ok(())
    }
}
