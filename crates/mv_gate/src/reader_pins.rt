//! The scheduler's holds, with the pins that they admit and release.

ghost use Rattle.std.specs.Prelude.{◌≡◌, ◌<◌, ◌≤◌, ◌+◌, [], Ok, None, Some, IfOk, IfSome, IfNone, OnOk, OnErr, length, slice_set};
ghost use mathlib.Core.List.{IsPrefix};
ghost use Rattle.mv_seats.specs.Knowing.{Plain};
ghost use Rattle.mv_lawful.specs.Batch.{ReadersKeepTables};
ghost use Rattle.mv_lawful.specs.Lawful.{open_call};
ghost use Rattle.mv_grace.specs.Epochs.{opened, out_of};
ghost use Rattle.mv_shards.specs.Scripts.{batch};
ghost use Rattle.mv_shards.specs.Leaves.{IsLeave, start_shown};
ghost use Rattle.mv_core.specs.Books.{batch_in, IsSame};
ghost use Rattle.mv_gate.specs.declared.answers.Answer.TheVariants as Answer;
ghost use Rattle.mv_gate.specs.Gates.{StartsAt, IsKnown, HandsOut, Tries, IsOutcome, IsDone, GoesOn};
ghost use Rattle.mv_gate.specs.Readers.{AreReaders, count, second_at, pins_after, seconds_gone, firsts_gone};

use crate::answers::Answer;
use crate::beside::Beside;
use crate::pinned::{PinnedBegun, PinnedLate, PinnedReady, PinnedRepair, PinnedTried};
use crate::readers::Readers;
use crate::scheduler::Scheduler;
use crate::tried::Tried;
use mv_core::spare::Spare;
use mv_grace::grace::{Grace, Naming};
use mv_grace::note::FloorNote;
use mv_grace::pin::Pin;
use mv_grace::turner::Turner;
use mv_journal::outcome::Outcome;
use mv_seats::board::{Board, Making};
use mv_seats::pass::Pass;
use mv_values::memory::NoMemory;
use std::alloc::Global;
use std::mem;
use std::sync::Wait;

/// The readers of the shards. Each live call has two pins of its start, if readers need any: its worker has one, and the
/// other is here. The caller reads under that one what a worker has left.
#[derive(Drop)]
pub struct ReaderPins<N: Making + Naming> {
    pub(crate) readers: Readers<N>,
    /// For each call that has begun its second pin. A call that is done has none.
    pub(crate) pins: Vec<Option<Pin<N>>>,
}

impl<N: Making + Naming> ReaderPins<N> {
    /// Returns the readers before any event. The turner must be as `GraceBlank::open` gives it.
    pub(crate) fn new(alloc: Global, turner: Turner<N>, horizon: Option<u32>) -> ReaderPins<N>
        requires turner { turner ≡ opened }
        requires horizon { horizon ≡ N.script.options.horizon }
        ensures readers { result.readers ≡ opened }
        ensures pins { result.pins.items ≡ [] }
    {
        ReaderPins {
            readers: Readers::new(turner, horizon),
            pins: Vec::new(alloc),
        }
    }

    /// Puts a call's second pin in the place of the old one, whose reader goes.
    fn put_second(&mut self, grace: &Grace<N>, call: u32, pin: Option<Pin<N>>)
        requires { call < length self.old.pins.items }
        ensures pins { self.new.pins.items ≡ slice_set self.old.pins.items call pin }
        ensures base { self.new.readers.current.base ≡ self.old.readers.current.base }
        ensures out { out_of self.new.readers + second_at self.old.pins.items call ≡ out_of self.old.readers }
    {
        let old = mem::replace(&mut self.pins[call as usize], pin);
        self.readers.release(grace, old);
    }

    /// `Scheduler::begin`. Two readers are admitted before the event. If no call begins, they go.
    pub(crate) fn begin(
        &mut self,
        alloc: Global,
        board: &Board<N>,
        grace: &Grace<N>,
        scheduler: &mut Scheduler<N>,
        other: &mut Pass<N>,
    ) -> Result<Option<PinnedBegun<N>>, NoMemory>
        requires plain { other.old.role ≡ Plain }
        requires readers { AreReaders N.script N.word self.old.readers self.old.pins.items scheduler.old.schedule }
        ensures readers { AreReaders N.script N.word self.new.readers self.new.pins.items scheduler.new.schedule }
        ensures begun { IfOk result (λ begun. IfSome begun (λ it. HandsOut (Ok (Some it.begun)) scheduler.old scheduler.new)) }
        ensures none { IfOk result (λ begun. IfNone begun (HandsOut (Ok None) scheduler.old scheduler.new)) }
        ensures err { OnErr result (IsSame scheduler.old scheduler.new) }
        ensures same { other.new ≡ other.old }
    {
        let Some(_next) = scheduler.next_call() else {
            return Ok(None);
        };
        self.pins.reserve(1)?;
        let start = scheduler.commits();
        let pin = self.readers.admit(grace, start);
        let second = self.readers.admit(grace, start);
        match scheduler.begin(alloc, board, other) {
            Ok(Some(begun)) => {
                if self.pins.push(second).is_err() {
                    unreachable!();
                }
                Ok(Some(PinnedBegun::of(begun, pin)))
            }
            Ok(None) => unreachable!(),
            Err(error) => {
                self.readers.release(grace, pin);
                self.readers.release(grace, second);
                Err(error)
            }
        }
    }

    /// Puts the second pin of a call's new start in its place, if the call goes on from there. The reader of the old one
    /// goes, unless the call goes on from its old start. So does that of the new one, if it isn't needed.
    fn replace_second(
        &mut self,
        grace: &Grace<N>,
        call: u32,
        answer: Answer,
        second: Option<Pin<N>>,
    )
        requires { (answer ≡ Answer.Lost → ⊥) → call < length self.old.pins.items }
        ensures pins { self.new.pins.items ≡ pins_after answer call second self.old.pins.items }
        ensures base { self.new.readers.current.base ≡ self.old.readers.current.base }
        ensures out { out_of self.new.readers + seconds_gone answer (second_at self.old.pins.items call) (count (start_shown second)) ≡ out_of self.old.readers }
    {
        match answer {
            Answer::Committed(_) | Answer::Answered(_) => {
                self.put_second(grace, call, None);
                self.readers.release(grace, second);
            }
            Answer::Repaired | Answer::Moved => self.put_second(grace, call, second),
            Answer::Lost => self.readers.release(grace, second),
        }
    }

    /// Gives the call that an attempt gives back the pin of its new start. Without one, the reader goes.
    fn give(&mut self, grace: &Grace<N>, tried: Tried<N>, last: Option<Pin<N>>) -> PinnedTried<N>
        requires repair { tried.answer ≡ Answer.Repaired → IfSome tried.repair (λ repair. IsLeave N.script N.word (start_shown last) repair.start.number) }
        requires moved { tried.answer ≡ Answer.Moved → IfSome tried.moved (λ begun. IsLeave N.script N.word (start_shown last) begun.start.number) }
        ensures answer { result.answer ≡ tried.answer }
        ensures pins { self.new.pins ≡ self.old.pins }
        ensures base { self.new.readers.current.base ≡ self.old.readers.current.base }
        ensures out { out_of self.new.readers + firsts_gone tried.answer (count (start_shown last)) ≡ out_of self.old.readers }
    {
        let Tried {
            answer,
            repair,
            moved,
            done,
            writes,
        } = tried;
        match answer {
            Answer::Repaired => PinnedTried {
                answer,
                repair: match repair {
                    Some(repair) => Some(PinnedRepair::of(repair, last)),
                    None => None,
                },
                moved: None,
                done,
                writes,
            },
            Answer::Moved => PinnedTried {
                answer,
                repair: None,
                moved: match moved {
                    Some(begun) => Some(PinnedBegun::of(begun, last)),
                    None => None,
                },
                done,
                writes,
            },
            Answer::Committed(_) | Answer::Answered(_) | Answer::Lost => {
                self.readers.release(grace, last);
                PinnedTried {
                    answer,
                    repair: None,
                    moved: None,
                    done,
                    writes,
                }
            }
        }
    }

    /// Ends a hold for a call that its worker had given up. Two readers had come for the hold: `last`, under whose pin the
    /// scheduler read, and `second`. They stay if the call goes on from a new start. The reader of its old start, who has `own`,
    /// goes. If no event was made, all three go.
    fn after(
        &mut self,
        grace: &Grace<N>,
        call: u32,
        tried: Result<Tried<N>, NoMemory>,
        own: Option<Pin<N>>,
        last: Option<Pin<N>>,
        second: Option<Pin<N>>,
    ) -> Result<PinnedTried<N>, NoMemory>
        requires there { IfOk tried (λ it. (it.answer ≡ Answer.Lost → ⊥) → call < length self.old.pins.items) }
        requires repair { IfOk tried (λ it. it.answer ≡ Answer.Repaired → IfSome it.repair (λ repair. IsLeave N.script N.word (start_shown last) repair.start.number)) }
        requires moved { IfOk tried (λ it. it.answer ≡ Answer.Moved → IfSome it.moved (λ begun. IsLeave N.script N.word (start_shown last) begun.start.number)) }
        ensures answer { IfOk tried (λ it. IfOk result (λ given. given.answer ≡ it.answer) × OnErr result ⊥) }
        ensures failed { OnErr tried (OnOk result ⊥) }
        ensures pins { IfOk result (λ it. self.new.pins.items ≡ pins_after it.answer call second self.old.pins.items) }
        ensures kept { OnErr result (self.new.pins.items ≡ self.old.pins.items) }
        ensures base { self.new.readers.current.base ≡ self.old.readers.current.base }
        ensures out { IfOk result (λ it. out_of self.new.readers + firsts_gone it.answer (count (start_shown last)) + count (start_shown own) + seconds_gone it.answer (second_at self.old.pins.items call) (count (start_shown second)) ≡ out_of self.old.readers) }
        ensures err { OnErr result (out_of self.new.readers + count (start_shown own) + count (start_shown second) + count (start_shown last) ≡ out_of self.old.readers) }
    {
        match tried {
            Ok(tried) => {
                self.replace_second(grace, call, tried.answer, second);
                self.readers.release(grace, own);
                Ok(self.give(grace, tried, last))
            }
            Err(error) => {
                self.readers.release(grace, last);
                self.readers.release(grace, second);
                self.readers.release(grace, own);
                Err(error)
            }
        }
    }

    /// `Scheduler::attempt`. Two readers are admitted before the event, and the scheduler reads under one of them.
    pub(crate) fn attempt<R: Wait>(
        &mut self,
        alloc: Global,
        beside: &Beside<'_, N, R>,
        scheduler: &mut Scheduler<N>,
        pinned: PinnedReady<N>,
        spare: &mut Spare,
    ) -> Result<PinnedTried<N>, NoMemory>
        requires { AreReaders N.script N.word self.old.readers self.old.pins.items scheduler.old.schedule }
        ensures readers { AreReaders N.script N.word self.new.readers self.new.pins.items scheduler.new.schedule }
        ensures ok { IfOk result (λ tried. Tries pinned.ready.held.call tried.answer scheduler.old scheduler.new) }
        ensures err { OnErr result (IsSame scheduler.old scheduler.new) }
        ensures lost { IfOk result (λ tried. tried.answer ≡ Answer.Lost → IsKnown scheduler.old pinned.ready.held → ⊥) }
    {
        let PinnedReady { ready, pin } = pinned;
        let call = ready.held.call();
        let start = scheduler.commits();
        let mut last = self.readers.admit(beside.grace, start);
        let second = self.readers.admit(beside.grace, start);
        let tried = scheduler.attempt(alloc, beside, &mut last, ready, spare);
        self.after(beside.grace, call, tried, pin, last, second)
    }

    /// `Scheduler::move_late`, with pins as in `attempt`.
    pub(crate) fn move_late<R: Wait>(
        &mut self,
        alloc: Global,
        beside: &Beside<'_, N, R>,
        scheduler: &mut Scheduler<N>,
        pinned: PinnedLate<N>,
        spare: &mut Spare,
    ) -> Result<PinnedTried<N>, NoMemory>
        requires { AreReaders N.script N.word self.old.readers self.old.pins.items scheduler.old.schedule }
        ensures readers { AreReaders N.script N.word self.new.readers self.new.pins.items scheduler.new.schedule }
        ensures ok { IfOk result (λ tried. Tries pinned.late.call tried.answer scheduler.old scheduler.new) }
        ensures err { OnErr result (IsSame scheduler.old scheduler.new) }
        ensures lost { IfOk result (λ tried. tried.answer ≡ Answer.Lost → StartsAt scheduler.old pinned.late.call pinned.late.start.number → ⊥) }
    {
        let PinnedLate { late, pin } = pinned;
        let call = late.call();
        let start = scheduler.commits();
        let mut last = self.readers.admit(beside.grace, start);
        let second = self.readers.admit(beside.grace, start);
        let tried = scheduler.move_late(alloc, beside, &mut last, late, spare);
        self.after(beside.grace, call, tried, pin, last, second)
    }

    /// Turns the epochs, if the other one has no reader, and returns a note of the floor. Returns none if a horizon is
    /// given.
    pub(crate) fn sweep(&mut self, grace: &Grace<N>, commits: u32) -> Option<FloorNote<N>>
        requires { self.old.readers.current.base ≤ commits }
        ensures none { IfSome result (λ _. N.script.options.horizon ≡ None) }
        ensures base { self.new.readers.current.base ≤ commits }
        ensures out { out_of self.new.readers ≡ out_of self.old.readers }
        ensures pins { self.new.pins.items ≡ self.old.pins.items }
    {
        self.readers.sweep(grace, commits)
    }

    /// Begins a call, if it is the next one. No worker has it, so its first reader goes.
    fn begin_left(
        &mut self,
        alloc: Global,
        board: &Board<N>,
        grace: &Grace<N>,
        scheduler: &mut Scheduler<N>,
        call: u32,
    ) -> Result<(), NoMemory>
        requires begun { call ≤ length scheduler.old.schedule.calls }
        requires there { call < length scheduler.old.script.calls }
        requires readers { AreReaders N.script N.word self.old.readers self.old.pins.items scheduler.old.schedule }
        ensures readers { AreReaders N.script N.word self.new.readers self.new.pins.items scheduler.new.schedule }
        ensures begun { OnOk result (call < length scheduler.new.schedule.calls) }
        ensures kept { GoesOn scheduler.old scheduler.new }
    {
        let Some(next) = scheduler.next_call() else {
            return Ok(());
        };
        if next != call {
            return Ok(());
        }
        let mut seen = scheduler.pass_for(board);
        let Some(begun) = self.begin(alloc, board, grace, scheduler, &mut seen)? else {
            return Ok(());
        };
        let PinnedBegun { pin, .. } = begun;
        self.readers.release(grace, pin);
        Ok(())
    }

    /// Brings a call to its end, if it isn't done. All calls before it have begun. The caller reads under the
    /// call's second pin at its start, and under another one after all commits.
    fn bring<R: Wait>(
        &mut self,
        alloc: Global,
        beside: &Beside<'_, N, R>,
        scheduler: &mut Scheduler<N>,
        call: u32,
        spare: &mut Spare,
    ) -> Result<(), NoMemory>
        requires begun { call ≤ length scheduler.old.schedule.calls }
        requires there { call < length scheduler.old.script.calls }
        requires readers { AreReaders N.script N.word self.old.readers self.old.pins.items scheduler.old.schedule }
        ensures readers { OnOk result (AreReaders N.script N.word self.new.readers self.new.pins.items scheduler.new.schedule) }
        ensures begun { OnOk result (call < length scheduler.new.schedule.calls) }
        ensures done { OnOk result (IsDone scheduler.new.schedule call) }
        ensures kept { GoesOn scheduler.old scheduler.new }
    {
        self.begin_left(alloc, beside.board, beside.grace, scheduler, call)?;
        if !scheduler.is_live(call) {
            return Ok(());
        }
        let commits = scheduler.commits();
        let mut own = self.pins[call as usize].take();
        let mut last = self.readers.admit(beside.grace, commits);
        let done = scheduler.commit_left(alloc, beside, &mut own, &mut last, call, spare);
        self.readers.release(beside.grace, last);
        self.readers.release(beside.grace, own);
        done
    }

    /// Begins the calls that haven't begun, and ends those that aren't done, one after another. Fails with
    /// `NoMemory` if memory runs out, and if the last round of such a call is a repair that has no number.
    pub(crate) fn commit_all_left<R: Wait>(
        &mut self,
        alloc: Global,
        beside: &Beside<'_, N, R>,
        scheduler: &mut Scheduler<N>,
    ) -> Result<(), NoMemory>
        requires { AreReaders N.script N.word self.old.readers self.old.pins.items scheduler.old.schedule }
        ensures readers { OnOk result (AreReaders N.script N.word self.new.readers self.new.pins.items scheduler.new.schedule) }
        ensures ended { OnOk result (open_call (batch_in scheduler.new) scheduler.new.schedule ≡ None) }
        ensures events { IsPrefix scheduler.old.journal scheduler.new.journal }
    {
        let mut spare = Spare::new();
        for call in 0..scheduler.calls() {
            self.bring(alloc, beside, scheduler, call, &mut spare)?;
        }
        Ok(())
    }

    /// `Scheduler::outcome`. It reads under a pin.
    pub(crate) fn outcome<R: Wait>(
        &mut self,
        alloc: Global,
        beside: &Beside<'_, N, R>,
        scheduler: Scheduler<N>,
    ) -> Result<Outcome, NoMemory>
        requires ended { open_call (batch_in scheduler) scheduler.schedule ≡ None }
        requires readers { AreReaders N.script N.word self.old.readers self.old.pins.items scheduler.schedule }
        ensures outcome { IfOk result (IsOutcome (batch N.script)) }
        ensures journal { IfOk result (λ outcome. outcome.journal ≡ scheduler.journal) }
        ensures readers { IfOk result (λ outcome. ReadersKeepTables (batch N.script)) }
    {
        let commits = scheduler.commits();
        let mut last = self.readers.admit(beside.grace, commits);
        scheduler.outcome(alloc, beside, &mut last)
    }
}
