//! The calls that the workers left. Each is brought to its end.

ghost use Rattle.std.specs.Prelude.{◌≡◌, ◌<◌, Some, false, IfOk, IfSome, IfNone, OnOk, length};
ghost use Rattle.mv_lawful.specs.Lawful.{Live, refusal};
ghost use Rattle.mv_journal.specs.declared.event.Event.TheVariants.{C};
ghost use Rattle.mv_shards.specs.Leaves.{IsLeave, start_shown};
ghost use Rattle.mv_core.specs.Calls.{IsLive, IsLiveCall};
ghost use Rattle.mv_core.specs.Books.{batch_in, IsNotStale, IsReader};
ghost use Rattle.mv_lawful.specs.declared.fault.EventFault.TheVariants.{Conflict};
ghost use Rattle.mv_gate.specs.Gates.{IsWhole, IsPastIn, MayMove, IsSettledOrWhole, IsDone, Brings, GoesOn};

use super::Scheduler;
use crate::beside::Beside;
use crate::rounds::{has_number, repaired_from};
use mv_core::book::Check;
use mv_core::output::reply_of;
use mv_core::running::run_all;
use mv_core::spare::Spare;
use mv_core::tasks::new_task;
use mv_exec::task::Task;
use mv_grace::grace::Naming;
use mv_grace::pin::Pin;
use mv_seats::board::{Board, Making};
use mv_shards::start::Start;
use mv_values::copied::Copied;
use mv_values::memory::NoMemory;
use std::alloc::Global;
use std::sync::Wait;

impl<N: Making + Naming> Scheduler<N> {
    /// Returns the number of calls of the script.
    pub(crate) fn calls(&self) -> u32
        ensures { result ≡ length self.now.script.calls }
    {
        self.book.script().calls.len() as u32
    }

    /// Whether the last round of a live call is a repair that has no number yet.
    fn is_unrepaired(&self, call: u32) -> bool
        requires { IsLiveCall self.now.schedule call }
        ensures { result ≡ false → IsSettledOrWhole self.now call }
    {
        let Some(rounds) = self.book.rounds(call) else {
            unreachable!();
        };
        if has_number(rounds) {
            return false;
        }
        repaired_from(rounds).is_some()
    }

    /// Returns the start of a live call.
    fn start_of(&mut self, alloc: Global, board: &Board<N>, call: u32) -> Result<Start<N>, NoMemory>
        requires { IsLiveCall self.old.schedule call }
        ensures same { self.new ≡ self.old }
        ensures number { IfOk result (λ start. (l : Live) → IsLive self.old.schedule call l → start.number ≡ l.start) }
        ensures seen { IfOk result (λ start. start.knows.seen ≡ self.old.schedule.order) }
    {
        let number = self.book.start(call);
        let Some(touched) = &self.starts[call as usize] else {
            unreachable!();
        };
        let touched = touched.copy(alloc)?;
        Ok(self.ledger.start_at(board, number, touched))
    }

    /// Runs a live call whole anew, at its start. Returns `None` only if the start lies further back than the horizon. Fails
    /// with `NoMemory` if memory runs out, and if the call's last round is a repair that has no number.
    fn renew<R: Wait>(
        &mut self,
        alloc: Global,
        beside: &Beside<'_, N, R>,
        own: &mut Option<Pin<N>>,
        call: u32,
        spare: &mut Spare,
    ) -> Result<Option<Task>, NoMemory>
        requires live { IsLiveCall self.old.schedule call }
        requires number { call < length self.old.script.calls }
        requires own { (l : Live) → IsLive self.old.schedule call l → IsLeave N.script N.word (start_shown own.old) l.start }
        ensures same { self.new ≡ self.old }
        ensures whole { IfOk result (λ task. IfSome task (IsWhole self.old call)) }
        ensures past { IfOk result (λ task. IfNone task (IsPastIn self.old call)) }
    {
        if self.is_unrepaired(call) {
            return Err(NoMemory);
        }
        let mut start = self.start_of(alloc, beside.board, call)?;
        let number = start.number();
        let _book = &self.book;
        let mut task = new_task(alloc, beside.script, call, spare)?;
        let mut view = beside.view(&mut start, own.take());
        match run_all(alloc, beside.script, call, &mut task, &mut view) {
            Ok(()) => {
                let (_seen, pin) = view.into_parts();
                *own = pin;
                Ok(Some(task))
            }
            Err(why) => {
                let (seen, pin) = view.into_parts();
                *own = pin;
                self.ledger.refused(beside.board, seen, number, why)?;
                Ok(None)
            }
        }
    }

    /// Ends a live call whose task has run whole: by C, by A and C, or by X; a read only one by R.
    fn finish_left<R: Wait>(
        &mut self,
        alloc: Global,
        beside: &Beside<'_, N, R>,
        last: &mut Option<Pin<N>>,
        call: u32,
        task: Task,
        spare: &mut Spare,
    ) -> Result<(), NoMemory>
        requires whole { IsWhole self.old call task }
        requires fresh { IsNotStale self.old call }
        requires last { IsLeave N.script N.word (start_shown last.old) (length self.old.schedule.order) }
        ensures done { OnOk result (IsDone self.new.schedule call) }
        ensures brings { OnOk result (Brings call self.old self.new) }
        ensures kept { GoesOn self.old self.new }
        ensures last { IsLeave N.script N.word (start_shown last.new) (length self.old.schedule.order) }
    {
        if self.is_read_only(call) {
            return self.answer_left(alloc, call, task, spare);
        }
        match self.book.check(call, &task) {
            Check::Free => {
                self.commit_unheld(alloc, beside, last, call, &task)?;
                spare.keep(task);
                Ok(())
            }
            Check::Hit { .. } => self.repair_left(alloc, beside, last, call, task, spare),
            Check::Stale { .. } => unreachable!(),
        }
    }

    /// Answers a live read only call whose task has run whole.
    fn answer_left(
        &mut self,
        alloc: Global,
        call: u32,
        task: Task,
        spare: &mut Spare,
    ) -> Result<(), NoMemory>
        requires whole { IsWhole self.old call task }
        requires kind { IsReader self.old call }
        requires fresh { IsNotStale self.old call }
        ensures done { OnOk result (IsDone self.new.schedule call) }
        ensures brings { OnOk result (Brings call self.old self.new) }
        ensures kept { GoesOn self.old self.new }
    {
        let reply = reply_of(alloc, &task.records())?;
        self.answer(call, &task, reply)?;
        spare.keep(task);
        Ok(())
    }

    /// Commits a live call that is hit, by A and C, or by X.
    fn repair_left<R: Wait>(
        &mut self,
        alloc: Global,
        beside: &Beside<'_, N, R>,
        last: &mut Option<Pin<N>>,
        call: u32,
        mut task: Task,
        spare: &mut Spare,
    ) -> Result<(), NoMemory>
        requires whole { IsWhole self.old call task }
        requires hit { refusal (batch_in self.old) self.old.schedule (C call) ≡ Some Conflict }
        requires last { IsLeave N.script N.word (start_shown last.old) (length self.old.schedule.order) }
        ensures done { OnOk result (IsDone self.new.schedule call) }
        ensures brings { OnOk result (Brings call self.old self.new) }
        ensures kept { GoesOn self.old self.new }
        ensures last { IsLeave N.script N.word (start_shown last.new) (length self.old.schedule.order) }
    {
        if self.book.has_round(call) {
            self.rerun(alloc, beside, last, call, &mut task)?;
            self.commit_unheld(alloc, beside, last, call, &task)?;
            spare.keep(task);
            return Ok(());
        }
        self.exclusive(alloc, beside, last, call, &mut task)?;
        spare.keep(task);
        Ok(())
    }

    /// Moves a live call that no worker holds any more, and ends it in the same step.
    fn move_left<R: Wait>(
        &mut self,
        alloc: Global,
        beside: &Beside<'_, N, R>,
        last: &mut Option<Pin<N>>,
        call: u32,
        spare: &mut Spare,
    ) -> Result<(), NoMemory>
        requires may { MayMove self.old call }
        requires last { IsLeave N.script N.word (start_shown last.old) (length self.old.schedule.order) }
        ensures done { OnOk result (IsDone self.new.schedule call) }
        ensures brings { OnOk result (Brings call self.old self.new) }
        ensures kept { GoesOn self.old self.new }
        ensures last { IsLeave N.script N.word (start_shown last.new) (length self.old.schedule.order) }
    {
        if self.is_read_only(call) {
            self.move_and_answer(alloc, beside, last, call, spare)?;
            return Ok(());
        }
        self.move_and_commit(alloc, beside, last, call, spare)?;
        Ok(())
    }

    /// Ends a live call that no worker holds any more. If its start lies further back than the horizon, it moves first.
    pub(crate) fn commit_left<R: Wait>(
        &mut self,
        alloc: Global,
        beside: &Beside<'_, N, R>,
        own: &mut Option<Pin<N>>,
        last: &mut Option<Pin<N>>,
        call: u32,
        spare: &mut Spare,
    ) -> Result<(), NoMemory>
        requires live { IsLiveCall self.old.schedule call }
        requires number { call < length self.old.script.calls }
        requires last { IsLeave N.script N.word (start_shown last.old) (length self.old.schedule.order) }
        requires own { (l : Live) → IsLive self.old.schedule call l → IsLeave N.script N.word (start_shown own.old) l.start }
        ensures done { OnOk result (IsDone self.new.schedule call) }
        ensures brings { OnOk result (Brings call self.old self.new) }
        ensures kept { GoesOn self.old self.new }
        ensures last { IsLeave N.script N.word (start_shown last.new) (length self.old.schedule.order) }
    {
        let _events = self.book.journal();
        if self.book.is_stale(call) {
            return self.move_left(alloc, beside, last, call, spare);
        }
        let Some(task) = self.renew(alloc, beside, own, call, spare)? else {
            return self.move_left(alloc, beside, last, call, spare);
        };
        self.finish_left(alloc, beside, last, call, task, spare)
    }
}
