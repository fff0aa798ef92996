//! Calls outside of the lock: each is one worker's own.

ghost use Rattle.std.specs.Prelude.{◌≡◌, [], None, true, false, IfOk, OnErr, length};
ghost use mathlib.Core.List.{IsPrefix};
ghost use Rattle.mv_seats.specs.Knowing.{Plain};
ghost use Rattle.mv_lawful.specs.Rounds.{IsPast};
ghost use Rattle.mv_exec.specs.Running.{IsUnchanged};
ghost use Rattle.mv_shards.specs.Leaves.{IsLeave, start_shown};
ghost use Rattle.mv_core.specs.Cores.{HasRunOne};
ghost use Rattle.mv_gate.specs.Gates.{Tells};

use crate::beside::Beside;
use crate::output::CallOutput;
use mv_changes::recent::Committed;
use mv_core::running::run_next;
use mv_core::spare::Spare;
use mv_core::tasks::new_task;
use mv_exec::task::Task;
use mv_grace::grace::Naming;
use mv_grace::pin::Pin;
use mv_seats::board::{Board, Making};
use mv_seats::pass::Pass;
use mv_shards::start::Start;
use mv_values::list::List;
use mv_values::memory::NoMemory;
use std::alloc::Global;
use std::marker::Model;
use std::sync::Wait;

/// A call that has begun or moved, and has still to run at its start.
#[derive(Drop)]
pub struct Begun<N: Making> {
    pub(crate) call: u32,
    pub(crate) start: Start<N>,
}

impl<N: Making> Model for Begun<N> {
    ghost use Rattle.mv_gate.specs.Gates.{Waiting, IsWaiting};

    ghost Value = { Waiting };

    ghost view = { λ b. record { call = b.call; start = b.start } };

    ghost invariant = { λ b. IsWaiting N.script (record { call = b.call; start = b.start }) };
}

/// A call whose start lies further back than the horizon: a shard no longer has all rows there. It has to move.
#[derive(Drop)]
pub struct Late<N: Making> {
    pub(crate) call: u32,
    pub(crate) start: Start<N>,
}

impl<N: Making> Model for Late<N> {
    ghost use Rattle.mv_gate.specs.Gates.{Waiting, IsLate};

    ghost Value = { Waiting };

    ghost view = { λ l. record { call = l.call; start = l.start } };

    ghost invariant = { λ l. IsLate N.script (record { call = l.call; start = l.start }) };
}

/// A call that a worker runs. Its task has run over the tables at its start, of a history that its pass has seen.
#[derive(Drop)]
pub struct Held<N: Making> {
    pub(crate) call: u32,
    pub(crate) start: Start<N>,
    /// The start from which it was last repaired. There is none after a whole run.
    pub(crate) from: Option<u32>,
    pub(crate) task: Task,
}

impl<N: Making> Model for Held<N> {
    ghost use Rattle.std.specs.Coded.{codes};
    ghost use Rattle.mv_catalog.specs.contracts.resolved.RStmt as statement;
    ghost use Rattle.mv_gate.specs.Gates.{Holding, IsHeld};

    ghost Value = { Holding };

    ghost coded = { Prim.hlevel (codes, statement.the_row.coded) };

    ghost view = { λ h. record { call = h.call; start = h.start; from = h.from; task = h.task } };

    ghost invariant = { λ h. IsHeld N.script (record { call = h.call; start = h.start; from = h.from; task = h.task }) };
}

/// A call that a commit has hit, with the commits after its old start. Its task has run whole there. It has still to be
/// repaired at its new start.
#[derive(Drop)]
pub struct Repair<N: Making> {
    pub(crate) call: u32,
    pub(crate) start: Start<N>,
    pub(crate) from: u32,
    pub(crate) task: Task,
    pub(crate) since: List<Committed>,
}

impl<N: Making> Model for Repair<N> {
    ghost use Rattle.std.specs.Coded.{codes};
    ghost use Rattle.mv_catalog.specs.contracts.resolved.RStmt as statement;
    ghost use Rattle.mv_gate.specs.Gates.{Repairing, IsRepairing};

    ghost Value = { Repairing };

    ghost coded = { Prim.hlevel (codes, statement.the_row.coded) };

    ghost view = { λ r. record { call = r.call; start = r.start; from = r.from; task = r.task; since = r.since } };

    ghost invariant = { λ r. IsRepairing N.script (record { call = r.call; start = r.start; from = r.from; task = r.task; since = r.since }) };
}

/// A call that has run whole at its start, and its output.
#[derive(Drop)]
pub struct Ready<N: Making> {
    pub(crate) held: Held<N>,
    pub(crate) output: CallOutput,
    ghost ended: { held.task.ended ≡ true },
    ghost tells: { Tells held.task.log.records output },
}

impl<N: Making> Begun<N> {
    /// Returns the number of the call.
    pub fn call(&self) -> u32
        ensures { result ≡ self.now.call }
    {
        self.call
    }

    /// Splits off a plain pass that has seen as much.
    pub fn pass_for(&mut self, board: &Board<N>) -> Pass<N>
        ensures same { self.new ≡ self.old }
        ensures role { result.role ≡ Plain }
        ensures seen { result.seen ≡ self.old.start.knows.seen }
    {
        self.start.pass_for(board)
    }
}

impl<N: Making> Late<N> {
    /// Returns the number of the call.
    pub fn call(&self) -> u32
        ensures { result ≡ self.now.call }
    {
        self.call
    }
}

impl<N: Making> Ready<N> {
    /// Returns a call that has run whole, with copies of what it tells. Fails with `NoMemory` if memory runs out.
    pub(crate) fn new(alloc: Global, held: Held<N>) -> Result<Ready<N>, NoMemory>
        requires { held.task.ended ≡ true }
        ensures { IfOk result (λ ready. ready.held ≡ held) }
    {
        let output = CallOutput::new(alloc, &held.task)?;
        Ok(Ready { held, output })
    }
}

impl<N: Making + Naming> Held<N> {
    /// Returns a call before its first statement, with the spare log. It copies the arguments. Fails with `NoMemory` if
    /// memory runs out.
    pub fn new<R: Wait>(
        alloc: Global,
        beside: &Beside<'_, N, R>,
        begun: Begun<N>,
        spare: &mut Spare,
    ) -> Result<Held<N>, NoMemory>
        ensures call { IfOk result (λ held. held.call ≡ begun.call) }
        ensures start { IfOk result (λ held. held.start ≡ begun.start) }
        ensures from { IfOk result (λ held. held.from ≡ None) }
        ensures records { IfOk result (λ held. held.task.log.records ≡ []) }
    {
        let Begun { call, start } = begun;
        let _number = start.number();
        let task = new_task(alloc, beside.script, call, spare)?;
        Ok(Held {
            call,
            start,
            from: None,
            task,
        })
    }

    /// Returns the number of the call.
    pub fn call(&self) -> u32
        ensures { result ≡ self.now.call }
    {
        self.call
    }

    /// Splits off a plain pass that has seen as much.
    pub fn pass_for(&mut self, board: &Board<N>) -> Pass<N>
        ensures same { self.new ≡ self.old }
        ensures role { result.role ≡ Plain }
        ensures seen { result.seen ≡ self.old.start.knows.seen }
    {
        self.start.pass_for(board)
    }

    /// Whether no statement of the call is left.
    pub fn ended(&self) -> bool
        ensures { result ≡ self.now.task.ended }
    {
        self.task.ended()
    }

    /// Executes the next statement of the call, over the tables at its start, under its pin, without the gate's lock.
    /// Returns false, and executes none, only if a shard no longer has the rows there: then more commits than the horizon
    /// were made after the start. Fails with `NoMemory` if memory runs out, and then none was executed.
    pub fn step<R: Wait>(
        &mut self,
        alloc: Global,
        beside: &Beside<'_, N, R>,
        pin: &mut Option<Pin<N>>,
    ) -> Result<bool, NoMemory>
        requires more { self.old.task.ended ≡ false }
        requires leave { IsLeave N.script N.word (start_shown pin.old) self.old.start.number }
        ensures one { IfOk result (λ ran. ran ≡ true → HasRunOne self.old.task self.new.task) }
        ensures none { IfOk result (λ ran. ran ≡ false → IsUnchanged self.old.task self.new.task) }
        ensures past { IfOk result (λ ran. ran ≡ false → IsPast N.script.options.horizon self.new.start.number (length self.new.start.knows.seen)) }
        ensures err { OnErr result (IsUnchanged self.old.task self.new.task) }
        ensures call { self.new.call ≡ self.old.call }
        ensures from { self.new.from ≡ self.old.from }
        ensures number { self.new.start.number ≡ self.old.start.number }
        ensures seen { IsPrefix self.old.start.knows.seen self.new.start.knows.seen }
        ensures leave { IsLeave N.script N.word (start_shown pin.new) self.new.start.number }
    {
        let mut view = beside.view(&mut self.start, pin.take());
        match run_next(alloc, beside.script, self.call, &mut self.task, &mut view) {
            Ok(_) => {
                let (_seen, leave) = view.into_parts();
                *pin = leave;
                Ok(true)
            }
            Err(why) => {
                let (seen, leave) = view.into_parts();
                *pin = leave;
                self.start.refused(beside.board, seen, why)?;
                Ok(false)
            }
        }
    }

    /// Returns the call as one that has to move. More commits than the horizon must have been made after its start.
    pub(crate) fn into_late(self) -> Late<N>
        requires { IsPast N.script.options.horizon self.start.number (length self.start.knows.seen) }
        ensures call { result.call ≡ self.call }
        ensures start { result.start ≡ self.start }
    {
        let Held { call, start, .. } = self;
        Late { call, start }
    }
}
