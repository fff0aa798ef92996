//! Calls outside of the lock, with the pins of their starts. If a horizon is given, there are no pins.

ghost use Rattle.std.specs.Prelude.{◌≡◌, true, false, IfOk, OnErr, length};
ghost use mathlib.Core.List.{IsPrefix};
ghost use Rattle.mv_seats.specs.Knowing.{Plain};
ghost use Rattle.mv_lawful.specs.Rounds.{IsPast};
ghost use Rattle.mv_exec.specs.Running.{IsUnchanged};
ghost use Rattle.mv_shards.specs.Leaves.{IsLeave, start_shown};
ghost use Rattle.mv_core.specs.Cores.{HasRunOne};

use crate::answers::Answer;
use crate::beside::Beside;
use crate::held::{Begun, Held, Late, Ready, Repair};
use mv_core::running::{repair_over, run_all};
use mv_core::spare::Spare;
use mv_core::tasks::new_task;
use mv_exec::task::Task;
use mv_grace::grace::Naming;
use mv_grace::pin::Pin;
use mv_seats::board::{Board, Making};
use mv_seats::pass::Pass;
use mv_values::list::List;
use mv_values::memory::NoMemory;
use mv_values::patch::Write;
use std::alloc::Global;
use std::sync::Wait;

/// A call that has begun or moved, with the pin of its start, if readers need one.
#[derive(Drop)]
pub struct PinnedBegun<N: Making + Naming> {
    pub(crate) begun: Begun<N>,
    pub(crate) pin: Option<Pin<N>>,
    ghost leave: { IsLeave N.script N.word (start_shown pin) begun.start.number },
}

/// A call that has to move, with the pin of its start, if readers need one.
#[derive(Drop)]
pub struct PinnedLate<N: Making + Naming> {
    pub(crate) late: Late<N>,
    pub(crate) pin: Option<Pin<N>>,
    ghost leave: { IsLeave N.script N.word (start_shown pin) late.start.number },
}

/// A call that a worker runs, with the pin of its start, if readers need one.
#[derive(Drop)]
pub struct PinnedHeld<N: Making + Naming> {
    pub(crate) held: Held<N>,
    pub(crate) pin: Option<Pin<N>>,
    ghost leave: { IsLeave N.script N.word (start_shown pin) held.start.number },
}

/// A call that is to be repaired, with the pin of its new start, if readers need one.
#[derive(Drop)]
pub struct PinnedRepair<N: Making + Naming> {
    pub(crate) repair: Repair<N>,
    pub(crate) pin: Option<Pin<N>>,
    ghost leave: { IsLeave N.script N.word (start_shown pin) repair.start.number },
}

/// A call that has run whole at its start, with the pin of its start, if readers need one.
#[derive(Drop)]
pub struct PinnedReady<N: Making + Naming> {
    pub(crate) ready: Ready<N>,
    pub(crate) pin: Option<Pin<N>>,
    ghost leave: { IsLeave N.script N.word (start_shown pin) ready.held.start.number },
}

/// How far a call has come outside of the lock.
#[derive(Drop)]
pub enum Reached<N: Making + Naming> {
    /// It has run whole.
    Ready(PinnedReady<N>),
    /// It has to move.
    Late(PinnedLate<N>),
}

/// The answer of an attempt, and the call that it gives back, as `Tried`.
#[derive(Drop)]
pub struct PinnedTried<N: Making + Naming> {
    pub answer: Answer,
    pub repair: Option<PinnedRepair<N>>,
    pub moved: Option<PinnedBegun<N>>,
    pub done: Option<Task>,
    pub writes: Option<List<Write>>,
}

impl<N: Making + Naming> PinnedBegun<N> {
    /// Returns a call with the pin of its start.
    pub(crate) fn of(begun: Begun<N>, pin: Option<Pin<N>>) -> PinnedBegun<N>
        requires { IsLeave N.script N.word (start_shown pin) begun.start.number }
        ensures { result.begun ≡ begun }
    {
        PinnedBegun { begun, pin }
    }

    /// Returns the number of the call.
    pub fn call(&self) -> u32
        ensures { result ≡ self.now.begun.call }
    {
        self.begun.call()
    }

    /// Splits off a plain pass that has seen as much.
    pub fn pass_for(&mut self, board: &Board<N>) -> Pass<N>
        ensures role { result.role ≡ Plain }
    {
        self.begun.pass_for(board)
    }

    /// Returns the call before its first statement, with the spare log. It copies the arguments. Fails with `NoMemory` if
    /// memory runs out.
    pub fn hold<R: Wait>(
        self,
        alloc: Global,
        beside: &Beside<'_, N, R>,
        spare: &mut Spare,
    ) -> Result<PinnedHeld<N>, NoMemory> {
        let PinnedBegun { begun, pin } = self;
        let held = Held::new(alloc, beside, begun, spare)?;
        Ok(PinnedHeld { held, pin })
    }

    /// Runs the call whole at its start, with the spare log, without the gate's lock. Fails with `NoMemory` if memory runs
    /// out.
    pub fn run_whole<R: Wait>(
        self,
        alloc: Global,
        beside: &Beside<'_, N, R>,
        spare: &mut Spare,
    ) -> Result<Reached<N>, NoMemory> {
        let PinnedBegun { begun, pin } = self;
        let Begun { call, mut start } = begun;
        let mut task = new_task(alloc, beside.script, call, spare)?;
        let mut view = beside.view(&mut start, pin);
        match run_all(alloc, beside.script, call, &mut task, &mut view) {
            Ok(()) => {
                let (_seen, pin) = view.into_parts();
                let _number = start.number();
                let held = Held {
                    call,
                    start,
                    from: None,
                    task,
                };
                let ready = Ready::new(alloc, held)?;
                Ok(Reached::Ready(PinnedReady::of(ready, pin)))
            }
            Err(why) => {
                let (seen, pin) = view.into_parts();
                start.refused(beside.board, seen, why)?;
                Ok(Reached::Late(PinnedLate::of(Late { call, start }, pin)))
            }
        }
    }
}

impl<N: Making + Naming> PinnedLate<N> {
    /// Returns a call that has to move, with the pin of its start.
    fn of(late: Late<N>, pin: Option<Pin<N>>) -> PinnedLate<N>
        requires { IsLeave N.script N.word (start_shown pin) late.start.number }
        ensures { result.late ≡ late }
    {
        PinnedLate { late, pin }
    }
}

impl<N: Making + Naming> PinnedReady<N> {
    /// Returns a call that has run whole, with the pin of its start.
    fn of(ready: Ready<N>, pin: Option<Pin<N>>) -> PinnedReady<N>
        requires { IsLeave N.script N.word (start_shown pin) ready.held.start.number }
        ensures { result.ready ≡ ready }
    {
        PinnedReady { ready, pin }
    }
}

impl<N: Making + Naming> PinnedHeld<N> {
    /// Returns the number of the call.
    pub fn call(&self) -> u32
        ensures { result ≡ self.now.held.call }
    {
        self.held.call()
    }

    /// Whether no statement of the call is left.
    pub fn ended(&self) -> bool
        ensures { result ≡ self.now.held.task.ended }
    {
        self.held.ended()
    }

    /// Executes the next statement of the call, without the gate's lock. Returns false, and executes none, only if a shard
    /// no longer has the rows there: then more commits than the horizon were made after the start. Fails with `NoMemory`
    /// if memory runs out, and then none was executed.
    pub fn step<R: Wait>(
        &mut self,
        alloc: Global,
        beside: &Beside<'_, N, R>,
    ) -> Result<bool, NoMemory>
        requires { self.old.held.task.ended ≡ false }
        ensures one { IfOk result (λ ran. ran ≡ true → HasRunOne self.old.held.task self.new.held.task) }
        ensures none { IfOk result (λ ran. ran ≡ false → IsUnchanged self.old.held.task self.new.held.task) }
        ensures past { IfOk result (λ ran. ran ≡ false → IsPast N.script.options.horizon self.new.held.start.number (length self.new.held.start.knows.seen)) }
        ensures err { OnErr result (IsUnchanged self.old.held.task self.new.held.task) }
        ensures call { self.new.held.call ≡ self.old.held.call }
        ensures from { self.new.held.from ≡ self.old.held.from }
        ensures number { self.new.held.start.number ≡ self.old.held.start.number }
        ensures seen { IsPrefix self.old.held.start.knows.seen self.new.held.start.knows.seen }
    {
        self.held.step(alloc, beside, &mut self.pin)
    }

    /// Returns the call as one that has run whole, with copies of what it tells. Fails with `NoMemory` if memory runs out.
    pub(crate) fn into_ready(self, alloc: Global) -> Result<PinnedReady<N>, NoMemory>
        requires { self.held.task.ended ≡ true }
    {
        let PinnedHeld { held, pin } = self;
        let ready = Ready::new(alloc, held)?;
        Ok(PinnedReady::of(ready, pin))
    }

    /// Returns the call as one that has to move. More commits than the horizon must have been made after its start.
    pub(crate) fn into_late(self) -> PinnedLate<N>
        requires { IsPast N.script.options.horizon self.held.start.number (length self.held.start.knows.seen) }
    {
        let PinnedHeld { held, pin } = self;
        PinnedLate::of(held.into_late(), pin)
    }
}

impl<N: Making + Naming> PinnedRepair<N> {
    /// Returns a call that is to be repaired, with the pin of its new start.
    pub(crate) fn of(repair: Repair<N>, pin: Option<Pin<N>>) -> PinnedRepair<N>
        requires { IsLeave N.script N.word (start_shown pin) repair.start.number }
        ensures { result.repair ≡ repair }
    {
        PinnedRepair { repair, pin }
    }

    /// Repairs the call at its new start, without the gate's lock. It executes only what depends on the commits. Fails
    /// with `NoMemory` if memory runs out. Then the call's last round has no number.
    pub fn run<R: Wait>(
        self,
        alloc: Global,
        beside: &Beside<'_, N, R>,
    ) -> Result<Reached<N>, NoMemory> {
        let PinnedRepair { repair, pin } = self;
        let Repair {
            call,
            mut start,
            from,
            mut task,
            since,
        } = repair;
        let mut view = beside.view(&mut start, pin);
        let commits = since.as_slice();
        match repair_over(alloc, beside.script, call, &mut task, commits, &mut view) {
            Ok(_) => {
                let (_seen, pin) = view.into_parts();
                let held = Held {
                    call,
                    start,
                    from: Some(from),
                    task,
                };
                let ready = Ready::new(alloc, held)?;
                Ok(Reached::Ready(PinnedReady::of(ready, pin)))
            }
            Err(why) => {
                let (seen, pin) = view.into_parts();
                start.refused(beside.board, seen, why)?;
                Ok(Reached::Late(PinnedLate::of(Late { call, start }, pin)))
            }
        }
    }
}
