//! The history of a run, in which events are made.

ghost use Rattle.std.specs.Prelude.{◌≡◌, ◌↔◌, ◌<◌, [], None, IsTrue, IfOk, IfSome, IfNone, length};
ghost use mathlib.Core.List.{IsPrefix};
ghost use Rattle.mv_seats.specs.Knowing.{Plain, Gate};
ghost use Rattle.mv_lawful.specs.Batch.{ReadersKeepTables};
ghost use Rattle.mv_lawful.specs.Lawful.{beginning, open_call};
ghost use Rattle.mv_script.specs.Scripts.{IsCompiledScript};
ghost use Rattle.mv_shards.specs.Scripts.{script_in, batch};
ghost use Rattle.mv_shards.specs.Ledgers.{AreLastChanges};
ghost use Rattle.mv_shards.specs.Leaves.{IsLeave, start_shown};
ghost use Rattle.mv_core.specs.Calls.{IsLiveCall};
ghost use Rattle.mv_core.specs.Books.{batch_in};
ghost use Rattle.mv_gate.specs.Gates.{StartsLast, HandsOut, Collects, IsOutcome};

mod attempts;
mod events;
mod left_calls;

use crate::beside::Beside;
use crate::held::Begun;
use crate::latest::last_tables;
use mv_core::book::Book;
use mv_core::running::is_read_only;
use mv_core::shared::SharedScript;
use mv_grace::grace::Naming;
use mv_grace::pin::Pin;
use mv_journal::outcome::Outcome;
use mv_seats::board::{Board, Making};
use mv_seats::pass::Pass;
use mv_shards::ledger::Ledger;
use mv_shards::start::Start;
use mv_values::copied::Copied;
use mv_values::list::List;
use mv_values::memory::NoMemory;
use std::alloc::Global;
use std::marker::Model;
use std::sync::Wait;

/// The history of a run, and what the gate keeps of the shards. Contracts see the history.
#[derive(Drop)]
pub struct Scheduler<N: Making + Naming> {
    book: Book,
    ledger: Ledger<N>,
    /// For each call that has begun, the last change of each shard up to its start. A call that is done has none.
    starts: Vec<Option<List<u32>>>,
}

impl<N: Making + Naming> Model for Scheduler<N> {
    ghost use Rattle.std.specs.Coded.{codes};
    ghost use Rattle.mv_catalog.specs.contracts.resolved.RStmt as statement;
    ghost use Rattle.mv_core.specs.Books.{Booked};
    ghost use Rattle.mv_gate.specs.Gates.{IsScheduler};

    ghost Value = { Booked };

    ghost coded = { Prim.hlevel (codes, statement.the_row.coded) };

    ghost view = { λ d. d.book };

    ghost invariant = { λ d. IsScheduler N.script d.book d.ledger d.starts.items };
}

/// Returns the start after all commits, and once more for each shard its last change up to there. The start's pass has
/// seen what the other pass had seen.
fn next_start<N: Making + Naming>(
    alloc: Global,
    board: &Board<N>,
    ledger: &mut Ledger<N>,
    other: &mut Pass<N>,
) -> Result<(Start<N>, List<u32>), NoMemory>
    requires { other.old.role ≡ Plain }
    ensures same { other.new ≡ other.old }
    ensures commits { ledger.new.commits ≡ ledger.old.commits }
    ensures kept { ledger.new.knows.seen ≡ ledger.old.knows.seen }
    ensures number { IfOk result (λ both. both.0.number ≡ ledger.old.commits) }
    ensures whole { IfOk result (λ both. both.0.knows.seen ≡ ledger.old.knows.seen) }
    ensures touched { IfOk result (λ both. AreLastChanges N.script ledger.old.knows.seen ledger.old.commits both.1) }
    ensures seen { IfOk result (λ both. IsPrefix other.old.seen both.0.knows.seen) }
{
    let start = ledger.start(alloc, board, other)?;
    let touched = start.touched().copy(alloc)?;
    Ok((start, touched))
}

impl<N: Making + Naming> Scheduler<N> {
    /// Returns a scheduler before any event. The pass must be the gate's, as `Shards::new` leaves it. Fails with `NoMemory` if
    /// memory runs out.
    pub fn new(alloc: Global, script: SharedScript, pass: Pass<N>) -> Result<Scheduler<N>, NoMemory>
        requires sound { IsCompiledScript script }
        requires script { script ≡ script_in N.script }
        requires role { pass.role ≡ Gate }
        requires seen { pass.seen ≡ [] }
        ensures script { IfOk result (λ scheduler. scheduler.script ≡ script) }
        ensures schedule { IfOk result (λ scheduler. scheduler.schedule ≡ beginning) }
        ensures journal { IfOk result (λ scheduler. scheduler.journal ≡ []) }
    {
        let ledger = Ledger::new(alloc, pass)?;
        let book = Book::new(alloc, script);
        Ok(Scheduler {
            book,
            ledger,
            starts: Vec::new(alloc),
        })
    }

    /// Event B. Begins the next call, after all commits, and hands it out. Its pass has seen what the other pass had seen.
    /// Returns `None` exactly if each call has begun. Fails with `NoMemory` if memory runs out. Then the call hasn't begun.
    pub fn begin(
        &mut self,
        alloc: Global,
        board: &Board<N>,
        other: &mut Pass<N>,
    ) -> Result<Option<Begun<N>>, NoMemory>
        requires { other.old.role ≡ Plain }
        ensures begun { HandsOut result self.old self.new }
        ensures same { other.new ≡ other.old }
    {
        let Some(_next) = self.book.next_call() else {
            return Ok(None);
        };
        let (start, touched) = next_start(alloc, board, &mut self.ledger, other)?;
        self.starts.reserve(1)?;
        let Some(begun) = self.book.begin(alloc)? else {
            unreachable!();
        };
        if self.starts.push(Some(touched)).is_err() {
            unreachable!();
        }
        let call = begun.call;
        Ok(Some(Begun { call, start }))
    }

    /// Returns the start after all commits. It is no event. The start's pass has seen what the other pass had seen. Fails
    /// with `NoMemory` if memory runs out.
    pub fn snapshot(
        &mut self,
        alloc: Global,
        board: &Board<N>,
        other: &mut Pass<N>,
    ) -> Result<Start<N>, NoMemory>
        requires { other.old.role ≡ Plain }
        ensures kept { self.new ≡ self.old }
        ensures same { other.new ≡ other.old }
        ensures last { IfOk result (λ start. StartsLast start self.old) }
        ensures seen { IfOk result (λ start. IsPrefix other.old.seen start.knows.seen) }
    {
        self.ledger.start(alloc, board, other)
    }

    /// Splits off a plain pass that has seen all commits.
    pub fn pass_for(&mut self, board: &Board<N>) -> Pass<N>
        ensures same { self.new ≡ self.old }
        ensures role { result.role ≡ Plain }
        ensures seen { result.seen ≡ self.old.schedule.order }
    {
        self.ledger.pass_for(board)
    }

    /// Returns the number of commits.
    pub(crate) fn commits(&self) -> u32
        ensures commits { result ≡ length self.now.schedule.order }
        ensures script { self.now.script ≡ script_in N.script }
    {
        self.book.commits()
    }

    /// Returns the next call that hasn't begun, if there is one.
    pub(crate) fn next_call(&self) -> Option<u32>
        ensures next { IfSome result (λ call. (call ≡ length self.now.schedule.calls) × (call < length self.now.script.calls)) }
        ensures none { IfNone result (length self.now.schedule.calls ≡ length self.now.script.calls) }
    {
        self.book.next_call()
    }

    /// Whether a call is live.
    pub(crate) fn is_live(&self, call: u32) -> bool
        ensures { IsTrue result ↔ IsLiveCall self.now.schedule call }
    {
        self.book.rounds(call).is_some()
    }

    /// Whether a call of the script is read only.
    fn is_read_only(&self, call: u32) -> bool
        requires { call < length self.now.script.calls }
        ensures { result ≡ (batch_in self.now).read_only call }
    {
        is_read_only(self.book.script(), call)
    }

    /// Event G, if a horizon is given. This makes calls with older starts stale. Returns the new low, up to which the
    /// shards may be collected. Fails with `NoMemory` if memory runs out, and then nothing is collected.
    pub fn collect(&mut self) -> Result<Option<u32>, NoMemory>
        ensures { Collects result self.old self.new }
    {
        if self.book.script().options.horizon.is_none() {
            return Ok(None);
        }
        self.book.reserve_event()?;
        Ok(Some(self.book.collect()))
    }

    /// Turns the history into the outcome of its events. Each call must be done. It copies the rows of the shards,
    /// and the events. Fails with `NoMemory` if memory runs out.
    pub fn outcome<R: Wait>(
        self,
        alloc: Global,
        beside: &Beside<'_, N, R>,
        last: &mut Option<Pin<N>>,
    ) -> Result<Outcome, NoMemory>
        requires ended { open_call (batch_in self) self.schedule ≡ None }
        requires last { IsLeave N.script N.word (start_shown last.old) (length self.schedule.order) }
        ensures outcome { IfOk result (IsOutcome (batch N.script)) }
        ensures journal { IfOk result (λ outcome. outcome.journal ≡ self.journal) }
        ensures readers { IfOk result (λ outcome. ReadersKeepTables (batch N.script)) }
    {
        let _events = self.book.journal();
        let Scheduler {
            book,
            mut ledger,
            ..
        } = self;
        let tables = last_tables(alloc, beside, &mut ledger, last)?;
        book.outcome(alloc, tables)
    }
}
