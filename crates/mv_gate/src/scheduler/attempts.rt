//! The attempts to commit, answer or move a worker's call, each in one hold.

ghost use Rattle.std.specs.Prelude.{◌≡◌, ◌↔◌, Some, true, ℕ, IsTrue, IfOk, OnErr, length};
ghost use mathlib.Core.List.{IsPrefix};
ghost use Rattle.mv_seats.specs.Knowing.{Plain};
ghost use Rattle.mv_lawful.specs.Lawful.{Live, refusal};
ghost use Rattle.mv_journal.specs.declared.event.Event.TheVariants.{C};
ghost use Rattle.mv_shards.specs.Scripts.{script_in};
ghost use Rattle.mv_shards.specs.Leaves.{IsLeave, start_shown};
ghost use Rattle.mv_core.specs.Calls.{IsLive};
ghost use Rattle.mv_core.specs.Books.{batch_in, IsSame, IsReader};
ghost use Rattle.mv_gate.specs.declared.answers.Answer.TheVariants as Answer;
ghost use Rattle.mv_lawful.specs.declared.fault.EventFault.TheVariants.{Conflict};
ghost use Rattle.mv_gate.specs.Gates.{IsWhole, MayMove, StartsAt, IsKnown, Tells, Tries, GivesRepair, GivesMoved};

use super::Scheduler;
use crate::answers::Answer;
use crate::beside::Beside;
use crate::held::{Held, Late, Ready};
use crate::output::CallOutput;
use crate::rounds::repaired_from;
use crate::tried::Tried;
use mv_core::book::Check;
use mv_core::spare::Spare;
use mv_exec::task::Task;
use mv_grace::grace::Naming;
use mv_grace::pin::Pin;
use mv_seats::board::{Board, Making};
use mv_seats::pass::Pass;
use mv_shards::start::Start;
use mv_values::memory::NoMemory;
use std::alloc::Global;
use std::sync::Wait;

impl<N: Making + Naming> Scheduler<N> {
    /// Whether the history has a live call with this start.
    fn finds(&self, call: u32, start: u32) -> bool
        ensures { IsTrue result ↔ StartsAt self.now call start }
    {
        let Some(_rounds) = self.book.rounds(call) else {
            return false;
        };
        self.book.start(call) == start
    }

    /// Whether the history has the call as its holder knows it: live, with the same start and the same repair.
    fn has(&self, held: &Held<N>) -> bool
        requires { IsPrefix held.now.start.knows.seen self.now.schedule.order }
        ensures known { IsTrue result ↔ IsKnown self.now held.now }
        ensures whole { IsTrue result → held.now.task.ended ≡ true → IsWhole self.now held.now.call held.now.task }
    {
        let Some(rounds) = self.book.rounds(held.call) else {
            return false;
        };
        let start = self.book.start(held.call);
        if start != held.start.number() {
            return false;
        }
        repaired_from(rounds) == held.from
    }

    /// Event A or X of a call whose task has run whole.
    fn meet_hit<R: Wait>(
        &mut self,
        alloc: Global,
        beside: &Beside<'_, N, R>,
        last: &mut Option<Pin<N>>,
        call: u32,
        start: Start<N>,
        mut task: Task,
    ) -> Result<Tried<N>, NoMemory>
        requires whole { IsWhole self.old call task }
        requires start { (l : Live) → IsLive self.old.schedule call l → l.start ≡ start.number }
        requires hit { refusal (batch_in self.old) self.old.schedule (C call) ≡ Some Conflict }
        requires last { IsLeave N.script N.word (start_shown last.old) (length self.old.schedule.order) }
        ensures ok { IfOk result (λ tried. Tries call tried.answer self.old self.new) }
        ensures err { OnErr result (IsSame self.old self.new) }
        ensures stays { IfOk result (λ tried. tried.answer ≡ Answer.Lost → ⊥) }
        ensures repair { IfOk result (λ tried. GivesRepair call start.number tried.answer tried.repair self.new) }
        ensures moved { IfOk result (λ tried. GivesMoved call tried.answer tried.moved self.new) }
        ensures last { IsLeave N.script N.word (start_shown last.new) (length self.old.schedule.order) }
    {
        if self.book.has_round(call) {
            let repair = self.again(alloc, beside.board, call, start, task)?;
            return Ok(Tried {
                answer: Answer::Repaired,
                repair: Some(repair),
                moved: None,
                done: None,
                writes: None,
            });
        }
        let commit = self.exclusive(alloc, beside, last, call, &mut task)?;
        Ok(Tried {
            answer: Answer::Committed(commit),
            repair: None,
            moved: None,
            done: Some(task),
            writes: None,
        })
    }

    /// Event M of a call whose start lies further back than the horizon. If it has used its rounds, it also commits or is
    /// answered: M and C, or M and R.
    fn meet_late<R: Wait>(
        &mut self,
        alloc: Global,
        beside: &Beside<'_, N, R>,
        last: &mut Option<Pin<N>>,
        call: u32,
        seen: &mut Pass<N>,
        spare: &mut Spare,
    ) -> Result<Tried<N>, NoMemory>
        requires call { MayMove self.old call }
        requires plain { seen.old.role ≡ Plain }
        requires last { IsLeave N.script N.word (start_shown last.old) (length self.old.schedule.order) }
        ensures ok { IfOk result (λ tried. Tries call tried.answer self.old self.new) }
        ensures err { OnErr result (IsSame self.old self.new) }
        ensures stays { IfOk result (λ tried. tried.answer ≡ Answer.Lost → ⊥) }
        ensures repair { (from : ℕ) → IfOk result (λ tried. GivesRepair call from tried.answer tried.repair self.new) }
        ensures moved { IfOk result (λ tried. GivesMoved call tried.answer tried.moved self.new) }
        ensures last { IsLeave N.script N.word (start_shown last.new) (length self.old.schedule.order) }
    {
        if self.book.has_round(call) {
            let moved = self.move_up(alloc, beside.board, call, seen)?;
            return Ok(Tried {
                answer: Answer::Moved,
                repair: None,
                moved: Some(moved),
                done: None,
                writes: None,
            });
        }
        if self.is_read_only(call) {
            let start = self.move_and_answer(alloc, beside, last, call, spare)?;
            return Ok(Tried {
                answer: Answer::Answered(start),
                repair: None,
                moved: None,
                done: None,
                writes: None,
            });
        }
        let commit = self.move_and_commit(alloc, beside, last, call, spare)?;
        Ok(Tried {
            answer: Answer::Committed(commit),
            repair: None,
            moved: None,
            done: None,
            writes: None,
        })
    }

    /// Event R or M of a read only call whose task has run whole, or M and R.
    fn decide_read<R: Wait>(
        &mut self,
        alloc: Global,
        beside: &Beside<'_, N, R>,
        last: &mut Option<Pin<N>>,
        call: u32,
        mut start: Start<N>,
        task: Task,
        output: CallOutput,
        spare: &mut Spare,
    ) -> Result<Tried<N>, NoMemory>
        requires whole { IsWhole self.old call task }
        requires tells { Tells task.log.records output }
        requires kind { IsReader self.old call }
        requires last { IsLeave N.script N.word (start_shown last.old) (length self.old.schedule.order) }
        ensures ok { IfOk result (λ tried. Tries call tried.answer self.old self.new) }
        ensures err { OnErr result (IsSame self.old self.new) }
        ensures stays { IfOk result (λ tried. tried.answer ≡ Answer.Lost → ⊥) }
        ensures repair { (from : ℕ) → IfOk result (λ tried. GivesRepair call from tried.answer tried.repair self.new) }
        ensures moved { IfOk result (λ tried. GivesMoved call tried.answer tried.moved self.new) }
        ensures last { IsLeave N.script N.word (start_shown last.new) (length self.old.schedule.order) }
    {
        let _events = self.book.journal();
        if self.book.is_stale(call) {
            let mut seen = start.pass_for(beside.board);
            let mut tried = self.meet_late(alloc, beside, last, call, &mut seen, spare)?;
            tried.done = Some(task);
            tried.writes = Some(output.writes);
            return Ok(tried);
        }
        let CallOutput { reply, writes } = output;
        let number = self.answer(call, &task, reply)?;
        Ok(Tried {
            answer: Answer::Answered(number),
            repair: None,
            moved: None,
            done: Some(task),
            writes: Some(writes),
        })
    }

    /// Event C, A, X or M of a call whose task has run whole, or M and C; R or M of a read only one, or M and R.
    fn decide<R: Wait>(
        &mut self,
        alloc: Global,
        beside: &Beside<'_, N, R>,
        last: &mut Option<Pin<N>>,
        call: u32,
        mut start: Start<N>,
        task: Task,
        output: CallOutput,
        spare: &mut Spare,
    ) -> Result<Tried<N>, NoMemory>
        requires whole { IsWhole self.old call task }
        requires tells { Tells task.log.records output }
        requires start { (l : Live) → IsLive self.old.schedule call l → l.start ≡ start.number }
        requires last { IsLeave N.script N.word (start_shown last.old) (length self.old.schedule.order) }
        ensures ok { IfOk result (λ tried. Tries call tried.answer self.old self.new) }
        ensures err { OnErr result (IsSame self.old self.new) }
        ensures stays { IfOk result (λ tried. tried.answer ≡ Answer.Lost → ⊥) }
        ensures repair { IfOk result (λ tried. GivesRepair call start.number tried.answer tried.repair self.new) }
        ensures moved { IfOk result (λ tried. GivesMoved call tried.answer tried.moved self.new) }
        ensures last { IsLeave N.script N.word (start_shown last.new) (length self.old.schedule.order) }
    {
        if self.is_read_only(call) {
            return self.decide_read(alloc, beside, last, call, start, task, output, spare);
        }
        let _events = self.book.journal();
        match self.book.check(call, &task) {
            Check::Free => {
                let CallOutput { reply, writes } = output;
                let commit = self.commit(alloc, beside, last, call, &task, reply, &writes)?;
                Ok(Tried {
                    answer: Answer::Committed(commit),
                    repair: None,
                    moved: None,
                    done: Some(task),
                    writes: Some(writes),
                })
            }
            Check::Hit { .. } => {
                let mut tried = self.meet_hit(alloc, beside, last, call, start, task)?;
                tried.writes = Some(output.writes);
                Ok(tried)
            }
            Check::Stale { .. } => {
                let mut seen = start.pass_for(beside.board);
                let mut tried = self.meet_late(alloc, beside, last, call, &mut seen, spare)?;
                tried.done = Some(task);
                tried.writes = Some(output.writes);
                Ok(tried)
            }
        }
    }

    /// Tries to commit a call that has run whole and that its holder gives up, by one event: C, A, X or M; or by M and C,
    /// if its start is below low and it has used its rounds. A read only call is answered by R, where others commit. A
    /// call that is to be repaired, or that has moved, is given back with a start after all commits. Gives back the task of
    /// a call that needs it no more, too. Returns `Lost`, and does nothing, only if the history doesn't have the call as
    /// its holder knows it. Fails with `NoMemory` if memory runs out. Then no event was made, and the call is left to
    /// `commit_all_left`.
    pub fn attempt<R: Wait>(
        &mut self,
        alloc: Global,
        beside: &Beside<'_, N, R>,
        last: &mut Option<Pin<N>>,
        ready: Ready<N>,
        spare: &mut Spare,
    ) -> Result<Tried<N>, NoMemory>
        requires last { IsLeave N.script N.word (start_shown last.old) (length self.old.schedule.order) }
        ensures ok { IfOk result (λ tried. Tries ready.held.call tried.answer self.old self.new) }
        ensures err { OnErr result (IsSame self.old self.new) }
        ensures lost { IfOk result (λ tried. tried.answer ≡ Answer.Lost → IsKnown self.old ready.held → ⊥) }
        ensures repair { IfOk result (λ tried. GivesRepair ready.held.call ready.held.start.number tried.answer tried.repair self.new) }
        ensures moved { IfOk result (λ tried. GivesMoved ready.held.call tried.answer tried.moved self.new) }
        ensures last { IsLeave N.script N.word (start_shown last.new) (length self.old.schedule.order) }
    {
        let Ready { mut held, output } = ready;
        let seen = held.pass_for(beside.board);
        self.learn(beside.board, seen);
        if !self.has(&held) {
            return Ok(Tried {
                answer: Answer::Lost,
                repair: None,
                moved: None,
                done: None,
                writes: None,
            });
        }
        let Held {
            call,
            start,
            task,
            ..
        } = held;
        self.decide(alloc, beside, last, call, start, task, output, spare)
    }

    /// Learns that what a plain pass has seen begins the history.
    fn learn(&mut self, board: &Board<N>, other: Pass<N>)
        requires { other.role ≡ Plain }
        ensures same { self.new ≡ self.old }
        ensures seen { IsPrefix other.seen self.old.schedule.order }
        ensures script { self.old.script ≡ script_in N.script }
    {
        self.ledger.meet(board, other);
    }

    /// Event M of a call whose holder found that its start lies further back than the horizon. If it has used its rounds,
    /// it also commits or is answered: M and C, or M and R. Returns `Lost`, and does nothing, only if the history doesn't
    /// have the call with this start. Fails with `NoMemory` if memory runs out. Then no event was made, and the call is left
    /// to `commit_all_left`.
    pub fn move_late<R: Wait>(
        &mut self,
        alloc: Global,
        beside: &Beside<'_, N, R>,
        last: &mut Option<Pin<N>>,
        late: Late<N>,
        spare: &mut Spare,
    ) -> Result<Tried<N>, NoMemory>
        requires last { IsLeave N.script N.word (start_shown last.old) (length self.old.schedule.order) }
        ensures ok { IfOk result (λ tried. Tries late.call tried.answer self.old self.new) }
        ensures err { OnErr result (IsSame self.old self.new) }
        ensures lost { IfOk result (λ tried. tried.answer ≡ Answer.Lost → StartsAt self.old late.call late.start.number → ⊥) }
        ensures repair { (from : ℕ) → IfOk result (λ tried. GivesRepair late.call from tried.answer tried.repair self.new) }
        ensures moved { IfOk result (λ tried. GivesMoved late.call tried.answer tried.moved self.new) }
        ensures last { IsLeave N.script N.word (start_shown last.new) (length self.old.schedule.order) }
    {
        let Late { call, mut start } = late;
        let seen = start.pass_for(beside.board);
        self.learn(beside.board, seen);
        let number = start.number();
        if !self.finds(call, number) {
            return Ok(Tried {
                answer: Answer::Lost,
                repair: None,
                moved: None,
                done: None,
                writes: None,
            });
        }
        let mut seen = start.pass_for(beside.board);
        self.meet_late(alloc, beside, last, call, &mut seen, spare)
    }
}
