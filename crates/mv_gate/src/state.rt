//! What the gate's lock guards: a scheduler, the readers of its shards, and whether a worker has found no memory.

ghost use Rattle.std.specs.Prelude.{◌≡◌, Ok, None, Some, true, false, IfOk, IfSome, IfNone, OnErr};
ghost use mathlib.Core.List.{IsPrefix};
ghost use Rattle.mv_seats.specs.Knowing.{Plain};
ghost use Rattle.mv_lawful.specs.Batch.{ReadersKeepTables};
ghost use Rattle.mv_shards.specs.Scripts.{batch};
ghost use Rattle.mv_core.specs.Books.{IsSame};
ghost use Rattle.mv_gate.specs.declared.answers.Answer.TheVariants as Answer;
ghost use Rattle.mv_gate.specs.Gates.{StartsAt, StartsLast, IsKnown, HandsOut, Tries, Collects, IsOutcome, marked};
ghost use Rattle.mv_gate.specs.Readers.{AreReaders};

use crate::beside::Beside;
use crate::pinned::{PinnedBegun, PinnedLate, PinnedReady, PinnedTried};
use crate::reader_pins::ReaderPins;
use crate::scheduler::Scheduler;
use mv_core::spare::Spare;
use mv_grace::grace::{Grace, Naming};
use mv_grace::note::FloorNote;
use mv_journal::outcome::Outcome;
use mv_seats::board::{Board, Making};
use mv_seats::pass::Pass;
use mv_shards::start::Start;
use mv_values::memory::NoMemory;
use std::alloc::Global;
use std::sync::Wait;

/// A scheduler, the readers of its shards, and whether a worker has found no memory. From then on no worker begins a call, and
/// nothing is collected.
#[derive(Drop)]
pub(crate) struct GateState<N: Making + Naming> {
    scheduler: Scheduler<N>,
    reader_pins: ReaderPins<N>,
    wants_memory: bool,
    ghost readers: { AreReaders N.script N.word reader_pins.readers reader_pins.pins.items scheduler.schedule },
}

impl<N: Making + Naming> GateState<N> {
    /// Returns what guards this scheduler before any hold.
    pub(crate) fn new(scheduler: Scheduler<N>, reader_pins: ReaderPins<N>) -> GateState<N>
        requires { AreReaders N.script N.word reader_pins.readers reader_pins.pins.items scheduler.schedule }
        ensures scheduler { result.scheduler ≡ scheduler }
        ensures mark { result.wants_memory ≡ false }
    {
        GateState {
            scheduler,
            reader_pins,
            wants_memory: false,
        }
    }

    /// `ReaderPins::begin`. Returns `None` too once a worker has found no memory.
    pub(crate) fn begin(
        &mut self,
        alloc: Global,
        board: &Board<N>,
        grace: &Grace<N>,
        other: &mut Pass<N>,
    ) -> Result<Option<PinnedBegun<N>>, NoMemory>
        requires { other.old.role ≡ Plain }
        ensures begun { IfOk result (λ begun. IfSome begun (λ it. HandsOut (Ok (Some it.begun)) self.old.scheduler self.new.scheduler)) }
        ensures none { self.old.wants_memory ≡ false → IfOk result (λ begun. IfNone begun (HandsOut (Ok None) self.old.scheduler self.new.scheduler)) }
        ensures err { OnErr result (IsSame self.old.scheduler self.new.scheduler) }
        ensures over { self.old.wants_memory ≡ true → IfOk result (λ begun. begun ≡ None) × (self.new.scheduler ≡ self.old.scheduler) }
        ensures mark { self.new.wants_memory ≡ marked result self.old.wants_memory }
        ensures same { other.new ≡ other.old }
    {
        if self.wants_memory {
            return Ok(None);
        }
        let begun = self
            .reader_pins
            .begin(alloc, board, grace, &mut self.scheduler, other);
        self.wants_memory = begun.is_err();
        begun
    }

    /// `ReaderPins::attempt`.
    pub(crate) fn attempt<R: Wait>(
        &mut self,
        alloc: Global,
        beside: &Beside<'_, N, R>,
        pinned: PinnedReady<N>,
        spare: &mut Spare,
    ) -> Result<PinnedTried<N>, NoMemory>
        ensures ok { IfOk result (λ tried. Tries pinned.ready.held.call tried.answer self.old.scheduler self.new.scheduler) }
        ensures err { OnErr result (IsSame self.old.scheduler self.new.scheduler) }
        ensures lost { IfOk result (λ tried. tried.answer ≡ Answer.Lost → IsKnown self.old.scheduler pinned.ready.held → ⊥) }
        ensures mark { self.new.wants_memory ≡ marked result self.old.wants_memory }
    {
        let tried = self
            .reader_pins
            .attempt(alloc, beside, &mut self.scheduler, pinned, spare);
        self.wants_memory = self.wants_memory || tried.is_err();
        tried
    }

    /// `ReaderPins::move_late`.
    pub(crate) fn move_late<R: Wait>(
        &mut self,
        alloc: Global,
        beside: &Beside<'_, N, R>,
        pinned: PinnedLate<N>,
        spare: &mut Spare,
    ) -> Result<PinnedTried<N>, NoMemory>
        ensures ok { IfOk result (λ tried. Tries pinned.late.call tried.answer self.old.scheduler self.new.scheduler) }
        ensures err { OnErr result (IsSame self.old.scheduler self.new.scheduler) }
        ensures lost { IfOk result (λ tried. tried.answer ≡ Answer.Lost → StartsAt self.old.scheduler pinned.late.call pinned.late.start.number → ⊥) }
        ensures mark { self.new.wants_memory ≡ marked result self.old.wants_memory }
    {
        let tried = self
            .reader_pins
            .move_late(alloc, beside, &mut self.scheduler, pinned, spare);
        self.wants_memory = self.wants_memory || tried.is_err();
        tried
    }

    /// `Scheduler::snapshot`.
    pub(crate) fn snapshot(
        &mut self,
        alloc: Global,
        board: &Board<N>,
        other: &mut Pass<N>,
    ) -> Result<Start<N>, NoMemory>
        requires { other.old.role ≡ Plain }
        ensures kept { self.new.scheduler ≡ self.old.scheduler }
        ensures same { other.new ≡ other.old }
        ensures last { IfOk result (λ start. StartsLast start self.old.scheduler) }
        ensures seen { IfOk result (λ start. IsPrefix other.old.seen start.knows.seen) }
        ensures mark { self.new.wants_memory ≡ marked result self.old.wants_memory }
    {
        let start = self.scheduler.snapshot(alloc, board, other);
        self.wants_memory = self.wants_memory || start.is_err();
        start
    }

    /// `Scheduler::collect`. Does nothing once a worker has found no memory.
    pub(crate) fn collect(&mut self) -> Result<Option<u32>, NoMemory>
        ensures collected { self.old.wants_memory ≡ false → Collects result self.old.scheduler self.new.scheduler }
        ensures over { self.old.wants_memory ≡ true → (result ≡ Ok None) × (self.new.scheduler ≡ self.old.scheduler) }
        ensures mark { self.new.wants_memory ≡ marked result self.old.wants_memory }
    {
        if self.wants_memory {
            return Ok(None);
        }
        let collected = self.scheduler.collect();
        self.wants_memory = collected.is_err();
        collected
    }

    /// `ReaderPins::sweep`. Does nothing once a worker has found no memory. It is no event.
    pub(crate) fn sweep(&mut self, grace: &Grace<N>) -> Option<FloorNote<N>>
        ensures none { IfSome result (λ _. N.script.options.horizon ≡ None) }
        ensures scheduler { self.new.scheduler ≡ self.old.scheduler }
        ensures mark { self.new.wants_memory ≡ self.old.wants_memory }
    {
        if self.wants_memory {
            return None;
        }
        let commits = self.scheduler.commits();
        self.reader_pins.sweep(grace, commits)
    }

    /// Notes that a worker has found no memory outside of the lock.
    pub(crate) fn give_up(&mut self)
        ensures scheduler { self.new.scheduler ≡ self.old.scheduler }
        ensures mark { self.new.wants_memory ≡ true }
    {
        self.wants_memory = true;
    }

    /// Ends the calls that the workers left, and turns the history into the outcome of its events. Fails with `NoMemory` if
    /// memory runs out, and if the last round of a call is a repair that has no number.
    pub(crate) fn finish<R: Wait>(
        self,
        alloc: Global,
        beside: &Beside<'_, N, R>,
    ) -> Result<Outcome, NoMemory>
        ensures outcome { IfOk result (IsOutcome (batch N.script)) }
        ensures readers { IfOk result (λ outcome. ReadersKeepTables (batch N.script)) }
    {
        let GateState {
            mut scheduler,
            mut reader_pins,
            ..
        } = self;
        reader_pins.commit_all_left(alloc, beside, &mut scheduler)?;
        reader_pins.outcome(alloc, beside, scheduler)
    }
}
