//! Threads that share a board: a lock that holds a pass, a value that leaves the lock with one, and a shard's pass.

ghost use Rattle.std.specs.Prelude.{◌≡◌, ◌<◌, ◌≤◌, IfOk, [], length, take, slice_index};
ghost use mathlib.Core.List.{IsPrefix};
ghost use Rattle.mv_seats.specs.Knowing.{Plain, Gate, Shard, gate_pass, plain};

use mv_seats::board::{Blank, Board, Making};
use mv_seats::pass::Pass;
use mv_values::calls::{Call, Options};
use mv_values::list::List;
use mv_values::memory::NoMemory;
use std::alloc::Global;
use std::marker::{Brand, Model};
use std::sync::{Mutex, Wait};
use std::test::*;
use std::thread::{Threads, join};

/// A start, with what its holder has seen. It leaves the lock.
#[derive(Drop)]
struct Held<N: Making> {
    start: u32,
    pass: Pass<N>,
}

/// Contracts see the calls of the commits up to the start.
impl<N: Making> Model for Held<N> {
    ghost use Rattle.std.specs.Prelude.{◌≡◌, ◌≤◌, List, ℕ, length, take};
    ghost use Rattle.mv_seats.specs.Knowing.{Plain};

    ghost Value = { List ℕ };

    ghost view = { λ h. take h.start h.pass.seen };

    ghost invariant = { λ h. (h.pass.role ≡ Plain) × (h.start ≤ length h.pass.seen) };
}

/// The gate's pass, which appends the calls in their order. It is behind a lock.
#[derive(Drop)]
struct Scheduler<N: Making> {
    pass: Pass<N>,
    next: u32,
    calls: u32,
}

impl<N: Making> Model for Scheduler<N> {
    ghost use Rattle.std.specs.Prelude.{◌≡◌, ◌≤◌, ◌<◌, List, ℕ, length, true};
    ghost use Rattle.std.specs.List.{list_any};
    ghost use lib.Dec.{eqb};
    ghost use Rattle.mv_seats.specs.Knowing.{Gate};

    ghost Value = { List ℕ };

    ghost view = { λ d. d.pass.seen };

    ghost invariant = { λ d. (d.pass.role ≡ Gate) × (d.next ≡ length d.pass.seen) × ((call : ℕ) → list_any (eqb call) d.pass.seen ≡ true → call < d.next) × (d.calls ≡ length N.script.calls) × (d.next ≤ d.calls) };
}

/// Splits off a plain pass, which takes no memory.
fn note<N: Making>(pass: &mut Pass<N>, board: &Board<N>) -> Pass<N>
    ensures same { pass.new ≡ pass.old }
    ensures note { result ≡ plain pass.old }
{
    let Ok(note) = pass.note(board) else {
        unreachable!();
    };
    note
}

impl<N: Making> Held<N> {
    /// Sees what another pass has seen.
    fn meet(&mut self, board: &Board<N>, other: Pass<N>)
        requires { other.role ≡ Plain }
        ensures { self.new ≡ self.old }
    {
        self.pass.meet(board, other);
    }
}

impl<N: Making> Scheduler<N> {
    fn new(pass: Pass<N>, calls: u32) -> Scheduler<N>
        requires pass { pass ≡ gate_pass }
        requires calls { calls ≡ length N.script.calls }
        ensures { result ≡ [] }
    {
        Scheduler {
            pass,
            next: 0,
            calls,
        }
    }

    /// Gives a start at the newest commit.
    fn start(&mut self, board: &Board<N>) -> Held<N>
        ensures same { self.new ≡ self.old }
        ensures held { result ≡ self.old }
    {
        let pass = note(&mut self.pass, board);
        Held {
            start: self.next,
            pass,
        }
    }

    /// Appends the next call, if one is left, and shows the history to the holder.
    fn append(&mut self, board: &Board<N>, held: &mut Held<N>)
        ensures { held.new ≡ held.old }
    {
        if self.next == self.calls {
            return;
        }
        self.pass.append(board, self.next);
        self.next += 1;
        let note = note(&mut self.pass, board);
        held.meet(board, note);
    }

    fn count(&mut self, board: &Board<N>) -> u32
        ensures { result ≡ length self.old }
    {
        self.pass.count(board)
    }
}

/// Appends this many calls, or those that are left. Its start still means what it meant.
fn work<N: Making, R: Wait>(
    rt: &R,
    board: &Board<N>,
    scheduler: &Mutex<Scheduler<N>>,
    held: &mut Held<N>,
    calls: u32,
)
    ensures { held.new ≡ held.old }
{
    for _ in 0..calls {
        scheduler.lock(rt).append(board, held);
    }
}

/// Two threads append the calls of one board between them. Returns the count of commits.
fn append_all<N: Making + Send + Sync, R: Threads + Wait + Sync>(
    rt: &R,
    blank: Blank,
    calls: u32,
) -> u32
    requires board { blank.board ≡ N.board }
    requires script { blank.script ≡ N.script }
    requires calls { calls ≡ length N.script.calls }
{
    let (board, pass) = blank.open::<N>();
    let mut scheduler = Scheduler::new(pass, calls);
    let mut first = scheduler.start(&board);
    let mut second = scheduler.start(&board);
    let scheduler = Mutex::new(scheduler);
    join(
        rt,
        || work(rt, &board, &scheduler, &mut first, calls),
        || work(rt, &board, &scheduler, &mut second, calls),
    );
    scheduler.into_inner().count(&board)
}

/// Returns calls without arguments.
fn bare_calls(alloc: Global, count: u32) -> Result<List<Call>, NoMemory>
    ensures { IfOk result (λ calls. length calls ≡ count) }
{
    let mut calls = List::new(alloc);
    for _ in 0..count {
        calls.push(Call {
            procedure: 0,
            arguments: List::new(alloc),
        })?;
    }
    Ok(calls)
}

/// Returns a board for calls without arguments.
fn blank_of(alloc: Global, count: u32, shards: u32) -> Result<Blank, NoMemory>
    requires calls { count ≤ 1000000 }
    requires shards { (1 ≤ shards) × (shards ≤ 64) }
    ensures { IfOk result (λ blank. (length blank.script.calls ≡ count) × (blank.script.shards ≡ shards)) }
{
    let calls = bare_calls(alloc, count)?;
    let options = Options {
        rounds: 3,
        horizon: None,
    };
    Blank::new(
        alloc,
        &List::new(alloc),
        &calls,
        &List::new(alloc),
        &options,
        shards,
    )
}

#[test]
fn each_call_is_appended_once(rt: HostRuntime) -> Result<(), Fail> {
    let blank = blank_of(rt.alloc(), 1000, 1)?;
    assert_eq!(rt; append_all::<Brand, _>(&rt, blank, 1000), 1000);
    Ok(())
}

/// The pass of shard `Q`, whose chains hold `upto` commits. It is behind a lock.
#[derive(Drop)]
struct Store<N: Making, const Q: u32> {
    pass: Pass<N>,
    upto: u32,
}

impl<N: Making, const Q: u32> Model for Store<N, Q> {
    ghost use Rattle.std.specs.Prelude.{◌≡◌, ◌≤◌, ◌<◌, ℕ, length, slice_index};
    ghost use Rattle.mv_seats.specs.Knowing.{Shard};

    ghost Value = { ℕ };

    ghost view = { λ s. s.upto };

    ghost invariant = { λ s. (s.pass.role ≡ Shard Q) × (Q < N.script.shards) × (s.upto ≡ slice_index s.pass.marks Q) × (s.upto ≤ length s.pass.seen) };
}

impl<N: Making, const Q: u32> Store<N, Q> {
    fn new(pass: Pass<N>) -> Store<N, Q>
        requires pass { (pass.role ≡ Shard Q) × (slice_index pass.marks Q ≡ 0) }
        requires there { Q < N.script.shards }
        ensures { result ≡ 0 }
    {
        Store { pass, upto: 0 }
    }

    /// Returns how many commits the chains hold. They are among those that the reader then has seen, and no fewer than the
    /// mark that it knew.
    #[tactic(auto, using(mv_seats::proofs::Roles::own_kept, mv_seats::proofs::Prefixes::prefix_length))]
    fn read(&mut self, board: &Board<N>, reader: &mut Pass<N>) -> u32
        requires { reader.old.role ≡ Plain }
        ensures same { self.new ≡ self.old }
        ensures mark { (result ≡ self.old) × (slice_index reader.old.marks Q ≤ result) }
        ensures seen { result ≤ length reader.new.seen }
        ensures longer { IsPrefix reader.old.seen reader.new.seen }
    {
        self.pass.meet(board, note(reader, board));
        self.pass.installed(board, Q);
        reader.meet(board, note(&mut self.pass, board));
        self.upto
    }

    /// Installs all that the gate's pass has seen, which then knows the mark.
    #[tactic(auto, using(mv_seats::proofs::Roles::own_kept, mv_seats::proofs::Roles::shard_has, mv_seats::proofs::Prefixes::prefix_length, mv_seats::proofs::Meeting::at_greater))]
    fn install(&mut self, board: &Board<N>, gate: &mut Pass<N>, count: u32)
        requires gate { gate.old.role ≡ Gate }
        requires count { count ≡ length gate.old.seen }
        requires rises { self.old ≤ count }
        ensures gate { (gate.new.role ≡ Gate) × (gate.new.seen ≡ gate.old.seen) }
        ensures mark { (self.new ≡ count) × (count ≤ slice_index gate.new.marks Q) }
    {
        self.pass.meet(board, note(gate, board));
        self.pass.installed(board, Q);
        self.pass.install(board, Q, count);
        self.upto = count;
        gate.meet(board, note(&mut self.pass, board));
    }
}

/// A shard installs what the gate's pass has seen, and a reader meets it. Returns the mark that the reader loads, the
/// commits that the chains hold, and the count of commits.
fn install_one<N: Making>(blank: Blank) -> [u32; 3]
    requires board { blank.board ≡ N.board }
    requires script { blank.script ≡ N.script }
    requires calls { 0 < length N.script.calls }
    requires shards { N.script.shards ≡ 2 }
{
    let (board, mut gate) = blank.open::<N>();
    let mut reader = note(&mut gate, &board);
    let mut store = Store::<N, 1>::new(gate.hand(&board, 1));
    gate.append(&board, 0);
    store.install(&board, &mut gate, 1);
    let mark = reader.installed(&board, 1);
    let upto = store.read(&board, &mut reader);
    [mark, upto, reader.count(&board)]
}

#[test]
fn mark_is_raised(rt: HostRuntime) -> Result<(), Fail> {
    let blank = blank_of(rt.alloc(), 1, 2)?;
    assert_eq!(rt; install_one::<Brand>(blank), [1, 1, 1]);
    Ok(())
}
