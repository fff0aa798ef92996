//! The gate, its workers, and whole runs by any number of them.

ghost use Rattle.std.specs.Prelude.{◌≡◌, ◌≢◌, ◌<◌, ◌≤◌, [], None, IfOk, IfSome, length};
ghost use mathlib.Core.List.{IsPrefix};
ghost use Rattle.mv_seats.specs.Knowing.{Plain};
ghost use Rattle.mv_lawful.specs.Serializable.{IsSerializable};
ghost use Rattle.mv_script.specs.Scripts.{IsCompiledScript, batch_of};
ghost use Rattle.mv_shards.specs.Scripts.{script_in, batch};
ghost use Rattle.mv_gate.specs.Gates.{IsOutcome};

use crate::answers::Answer;
use crate::beside::Beside;
use crate::notes::note;
use crate::pinned::{PinnedBegun, PinnedHeld, PinnedTried, Reached};
use crate::reader_pins::ReaderPins;
use crate::scheduler::Scheduler;
use crate::state::GateState;
use mv_core::shared::SharedScript;
use mv_core::spare::Spare;
use mv_edge::pace::{Moment, Pace, Point};
use mv_grace::grace::{Grace, GraceBlank, Naming};
use mv_grace::note::FloorNote;
use mv_journal::outcome::Outcome;
use mv_script::columns::indexed_columns;
use mv_script::script::CompiledScript;
use mv_seats::board::{Blank, Board, Making};
use mv_seats::pass::Pass;
use mv_shards::parts::SHARDS;
use mv_shards::shards::Shards;
use mv_shards::start::Start;
use mv_values::memory::NoMemory;
use std::alloc::Global;
use std::hint::spin_loop;
use std::marker::Brand;
use std::sync::{Mutex, MutexGuard, Wait};
use std::thread;
use std::thread::Threads;

/// How often a worker tries the lock before it sleeps.
const TRIES: u32 = 200;

/// How long it waits between two tries, in steps of the processor's own wait.
const STEPS: u32 = 20;

/// The number of commits from one collection of old versions to the next.
const COLLECTION_INTERVAL: u32 = 64;

/// A lock round the history of a run. The rows, in their shards, the board, the word that counts readers and the script lie
/// beside the lock. All workers share them. A begin, an attempt to commit, a move and a collection are one hold of the lock
/// each. A statement, a repair and a whole run after a move read the shards without the lock. An attempt holds it for the
/// validation, and then for the commit into the shards, or for a new start. Once a call has used its rounds, its repair or
/// its whole run is in the same hold as its commit.
#[derive(Drop)]
pub struct Gate<N: Making + Naming> {
    board: Board<N>,
    shards: Shards<N>,
    grace: Grace<N>,
    script: SharedScript,
    state: Mutex<GateState<N>>,
    ghost named: { script ≡ script_in N.script },
}

/// The post of a worker: its pass and its number.
#[derive(Drop)]
struct Post<N: Making + Naming> {
    pass: Pass<N>,
    number: u32,
    ghost plain: { pass.role ≡ Plain },
}

impl<N: Making + Naming> Gate<N> {
    /// Returns the gate of a script before any event, and a plain pass that has seen no commit. `N` names the blanks and
    /// the script, which has eight shards. It copies the opening database twice. Fails with `NoMemory` if memory runs out.
    pub fn new(
        alloc: Global,
        blank: Blank,
        grace: GraceBlank,
        script: CompiledScript,
    ) -> Result<(Gate<N>, Pass<N>), NoMemory>
        requires word { grace ≡ N.word }
        requires board { blank.board ≡ N.board }
        requires named { blank.script ≡ N.script }
        requires shards { N.script.shards ≡ 8 }
        requires script { script ≡ script_in N.script }
        requires sound { IsCompiledScript script }
        ensures role { IfOk result (λ made. made.1.role ≡ Plain) }
        ensures seen { IfOk result (λ made. made.1.seen ≡ []) }
    {
        let (board, mut pass) = blank.open::<N>();
        let horizon = script.options.horizon;
        let columns = indexed_columns(alloc, &script)?;
        let shards = Shards::new(alloc, &script.opening, horizon, &board, &mut pass, &columns)?;
        let (grace, turner) = grace.open::<N>();
        let script = SharedScript::new(alloc, script)?;
        let mut scheduler = Scheduler::new(alloc, script.share()?, pass)?;
        let pass = scheduler.pass_for(&board);
        let reader_pins = ReaderPins::new(alloc, turner, horizon);
        let state = GateState::new(scheduler, reader_pins);
        Ok((
            Gate {
                board,
                shards,
                grace,
                script,
                state: Mutex::new(state),
            },
            pass,
        ))
    }

    /// Returns the rows in their shards. Callers may read them beside the workers. A horizon must be given.
    pub fn shards(&self) -> &Shards<N>
        requires { N.script.options.horizon ≢ None }
    {
        &self.shards
    }

    /// Returns how many versions the shards keep beside the newest ones (`Shards::old_versions`).
    pub fn old_versions<R: Wait>(&self, rt: &R) -> u64 {
        self.shards.old_versions(rt)
    }

    /// Returns the board.
    pub fn board(&self) -> &Board<N> {
        &self.board
    }

    /// Returns the start after all commits, as one hold and no event. The start's pass has seen what the caller's pass,
    /// which must be plain, had seen. A horizon must be given. Fails with `NoMemory` if memory runs out.
    pub fn snapshot<R: Wait>(
        &self,
        rt: &R,
        alloc: Global,
        pass: &mut Pass<N>,
    ) -> Result<Start<N>, NoMemory>
        requires plain { pass.old.role ≡ Plain }
        requires horizon { N.script.options.horizon ≢ None }
        ensures same { pass.new ≡ pass.old }
        ensures number { IfOk result (λ start. start.number ≡ length start.knows.seen) }
        ensures seen { IfOk result (λ start. IsPrefix pass.old.seen start.knows.seen) }
        ensures past { IfOk result (λ start. length pass.old.seen ≤ start.number) }
    {
        let mut state = self.enter(rt);
        state.snapshot(alloc, &self.board, pass)
    }

    /// Returns what lies beside the lock.
    fn beside<'a, R: Wait>(&'a self, rt: &'a R) -> Beside<'a, N, R> {
        Beside::new(
            rt,
            self.script.get(),
            &self.shards,
            &self.board,
            &self.grace,
        )
    }

    /// Takes the lock. It tries for a while before it sleeps, since most holds are shorter than it takes to wake a thread.
    fn enter<'a, R: Wait>(&'a self, rt: &R) -> MutexGuard<'a, GateState<N>> {
        for _ in 0..TRIES {
            if let Some(state) = self.state.try_lock() {
                return state;
            }
            stay();
        }
        self.state.lock(rt)
    }

    /// Event B, as one hold. Returns `None` too once a worker has found no memory.
    fn begin<R: Wait>(
        &self,
        rt: &R,
        alloc: Global,
        pass: &mut Pass<N>,
    ) -> Result<Option<PinnedBegun<N>>, NoMemory>
        requires { pass.old.role ≡ Plain }
        ensures { pass.new ≡ pass.old }
    {
        let mut state = self.enter(rt);
        state.begin(alloc, &self.board, &self.grace, pass)
    }

    /// Event C, A, X, R or M, or M and C, or M and R, as one hold.
    fn attempt<R: Wait>(
        &self,
        rt: &R,
        alloc: Global,
        reached: Reached<N>,
        spare: &mut Spare,
    ) -> Result<PinnedTried<N>, NoMemory> {
        let beside = self.beside(rt);
        let mut state = self.enter(rt);
        match reached {
            Reached::Ready(ready) => state.attempt(alloc, &beside, ready, spare),
            Reached::Late(late) => state.move_late(alloc, &beside, late, spare),
        }
    }

    /// Repairs a call that was hit, or runs one that has moved, without the lock. Returns `None` if no call is given back.
    /// Keeps the log of a call that needs it no more.
    fn run_again<R: Wait>(
        &self,
        rt: &R,
        alloc: Global,
        tried: PinnedTried<N>,
        spare: &mut Spare,
    ) -> Result<Option<Reached<N>>, NoMemory> {
        let beside = self.beside(rt);
        let PinnedTried {
            answer: _,
            repair,
            moved,
            done,
            writes: _,
        } = tried;
        if let Some(task) = done {
            spare.keep(task);
        }
        if let Some(repair) = repair {
            return Ok(Some(repair.run(alloc, &beside)?));
        }
        let Some(begun) = moved else {
            return Ok(None);
        };
        Ok(Some(begun.run_whole(alloc, &beside, spare)?))
    }

    /// Event G, as one hold, if a horizon is given and no worker has found no memory. Returns the new low.
    fn raise_low<R: Wait>(&self, rt: &R) -> Option<u32> {
        let mut state = self.enter(rt);
        match state.collect() {
            Ok(low) => low,
            Err(_) => None,
        }
    }

    /// Turns the epochs of readers, as one hold, if no horizon is given and no worker has found no memory. Returns a note
    /// of the floor.
    fn sweep<R: Wait>(&self, rt: &R) -> Option<FloorNote<N>>
        ensures { IfSome result (λ _. N.script.options.horizon ≡ None) }
    {
        let mut state = self.enter(rt);
        state.sweep(&self.grace)
    }

    /// Collects old versions after each commit whose number is a multiple of `COLLECTION_INTERVAL`: one hold says how far,
    /// and then the shards are collected without the lock. With a horizon the hold is event G.
    fn collect<R: Wait>(&self, rt: &R, commit: u32) {
        if commit % COLLECTION_INTERVAL != 0 {
            return;
        }
        if self.script.get().options.horizon.is_some() {
            if let Some(low) = self.raise_low(rt) {
                self.shards.collect(rt, low);
            }
            return;
        }
        if let Some(mut note) = self.sweep(rt) {
            self.shards.collect_to(rt, &self.grace, &mut note);
        }
    }

    /// Notes that a worker has found no memory, as one hold.
    fn give_up<R: Wait>(&self, rt: &R) {
        let mut state = self.enter(rt);
        state.give_up();
    }
}

/// Waits for a moment.
fn stay() {
    for _ in 0..STEPS {
        spin_loop();
    }
}

/// Tells the pace what a worker has reached.
fn tell<R: Wait, P: Pace>(rt: &R, pace: &P, worker: u32, call: u32, moment: Moment) {
    pace.at(
        rt,
        Point {
            worker,
            call,
            moment,
        },
    );
}

/// Runs the statements of a call that has begun, without the lock.
fn run_statements<N: Making + Naming, R: Threads + Wait + Sync, P: Pace>(
    rt: &R,
    alloc: Global,
    gate: &Gate<N>,
    mut held: PinnedHeld<N>,
    number: u32,
    pace: &P,
) -> Result<Reached<N>, NoMemory> {
    let beside = gate.beside(rt);
    for _ in rt.forever() {
        if held.ended() {
            return Ok(Reached::Ready(held.into_ready(alloc)?));
        }
        if !held.step(alloc, &beside)? {
            return Ok(Reached::Late(held.into_late()));
        }
        tell(rt, pace, number, held.call(), Moment::Ran);
    }
    unreachable!()
}

/// Runs the statements of a call that has begun, and tries to commit or to answer it, until it is done. Gives the call up
/// if the history doesn't have it as it is held.
fn run_call<N: Making + Naming, R: Threads + Wait + Sync, P: Pace>(
    rt: &R,
    alloc: Global,
    gate: &Gate<N>,
    begun: PinnedBegun<N>,
    spare: &mut Spare,
    number: u32,
    pace: &P,
) -> Result<(), NoMemory> {
    let call = begun.call();
    tell(rt, pace, number, call, Moment::Begun);
    let held = begun.hold(alloc, &gate.beside(rt), spare)?;
    let mut reached = run_statements(rt, alloc, gate, held, number, pace)?;
    for _ in rt.forever() {
        tell(rt, pace, number, call, Moment::Before);
        let tried = gate.attempt(rt, alloc, reached, spare)?;
        match tried.answer {
            Answer::Committed(commit) => {
                tell(rt, pace, number, call, Moment::Answered);
                gate.collect(rt, commit);
            }
            Answer::Answered(_) => tell(rt, pace, number, call, Moment::Answered),
            Answer::Repaired | Answer::Moved | Answer::Lost => {}
        }
        match gate.run_again(rt, alloc, tried, spare)? {
            Some(again) => reached = again,
            None => return Ok(()),
        }
    }
    unreachable!()
}

/// Begins calls and tries to commit each, until none is left to begin, or some worker has found no memory. Calls the pace
/// after each begin, each statement and each commit, and before each attempt to commit, while it doesn't hold the lock.
/// Fails with `NoMemory` if it finds no memory. Then its last call may not have committed.
pub fn worker<N: Making + Naming, R: Threads + Wait + Sync, P: Pace>(
    rt: &R,
    alloc: Global,
    gate: &Gate<N>,
    pass: &mut Pass<N>,
    number: u32,
    pace: &P,
) -> Result<(), NoMemory>
    requires { pass.old.role ≡ Plain }
    ensures role { pass.new.role ≡ pass.old.role }
    ensures seen { IsPrefix pass.old.seen pass.new.seen }
{
    let mut spare = Spare::new();
    for _ in rt.forever() {
        let Some(mut begun) = gate.begin(rt, alloc, pass)? else {
            return Ok(());
        };
        pass.meet(&gate.board, begun.pass_for(&gate.board));
        if let Err(error) = run_call(rt, alloc, gate, begun, &mut spare, number, pace) {
            gate.give_up(rt);
            return Err(error);
        }
    }
    unreachable!()
}

/// Returns a post with this pass and this number.
fn new_post<N: Making + Naming>(pass: Pass<N>, number: u32) -> Post<N>
    requires { pass.role ≡ Plain }
{
    Post { pass, number }
}

/// Begins calls and tries to commit each, as a worker at this post. Calls may be left that haven't committed.
fn work_at<N: Making + Naming, R: Threads + Wait + Sync, P: Pace>(
    rt: &R,
    alloc: Global,
    gate: &Gate<N>,
    post: &mut Post<N>,
    pace: &P,
) {
    let number = post.number;
    let _left = worker(rt, alloc, gate, &mut post.pass, number, pace);
}

/// Works at each of these posts, by this many threads.
fn run_workers<N: Making + Naming + Send + Sync, R: Threads + Wait + Sync, P: Pace>(
    rt: &R,
    alloc: Global,
    gate: &Gate<N>,
    posts: &mut [Post<N>],
    workers: u32,
    pace: &P,
)
    requires { 0 < workers }
{
    thread::for_each_mut(
        rt,
        posts,
        workers as usize,
        &|_, post: &mut Post<N>| work_at(rt, alloc, gate, post, pace),
    );
}

/// Runs the calls of a gate's script by 1 to 64 workers, and then those that they have left. Returns the outcome of a
/// lawful and bounded journal, in which each call is done. So the calls are serializable by the outcome. Fails with
/// `NoMemory` if memory runs out.
pub fn run_all<N: Making + Naming + Send + Sync, R: Threads + Wait + Sync, P: Pace>(
    rt: &R,
    alloc: Global,
    gate: Gate<N>,
    mut pass: Pass<N>,
    workers: u32,
    pace: &P,
) -> Result<Outcome, NoMemory>
    requires workers { (0 < workers) × (workers ≤ 64) }
    requires pass { pass.role ≡ Plain }
    ensures outcome { IfOk result (IsOutcome (batch N.script)) }
    ensures serializable { IfOk result (IsSerializable (batch N.script)) }
{
    let mut posts = Vec::new(alloc);
    for number in 0..workers {
        let mine = note(&mut pass, &gate.board);
        let post = new_post(mine, number);
        posts.push(post)?;
    }
    run_workers(rt, alloc, &gate, posts.as_mut_slice(), workers, pace);
    let Gate {
        board,
        shards,
        grace,
        script,
        state,
    } = gate;
    let state = state.into_inner();
    let beside = Beside::new(rt, script.get(), &shards, &board, &grace);
    state.finish(alloc, &beside)
}

/// Runs the calls of a script by 1 to 64 workers. Returns the outcome of a lawful and bounded journal, in which each call
/// is done. Fails with `NoMemory` if memory runs out.
pub fn run<R: Threads + Wait + Sync, P: Pace>(
    rt: &R,
    alloc: Global,
    script: CompiledScript,
    workers: u32,
    pace: &P,
) -> Result<Outcome, NoMemory>
    requires sound { IsCompiledScript script }
    requires calls { length script.calls ≤ 1000000 }
    requires workers { (0 < workers) × (workers ≤ 64) }
    ensures { IfOk result (IsOutcome (batch_of script)) }
{
    let blank = Blank::new(
        alloc,
        &script.graphs,
        &script.calls,
        &script.opening,
        &script.options,
        SHARDS,
    )?;
    let grace = GraceBlank::new(alloc)?;
    run_named::<Brand, R, P>(rt, alloc, blank, grace, script, workers, pace)
}

/// Runs the calls of the script that `N` names.
fn run_named<N: Making + Naming + Send + Sync, R: Threads + Wait + Sync, P: Pace>(
    rt: &R,
    alloc: Global,
    blank: Blank,
    grace: GraceBlank,
    script: CompiledScript,
    workers: u32,
    pace: &P,
) -> Result<Outcome, NoMemory>
    requires board { blank.board ≡ N.board }
    requires word { grace ≡ N.word }
    requires named { blank.script ≡ N.script }
    requires shards { N.script.shards ≡ 8 }
    requires script { script ≡ script_in N.script }
    requires sound { IsCompiledScript script }
    requires workers { (0 < workers) × (workers ≤ 64) }
    ensures { IfOk result (IsOutcome (batch_of script)) }
{
    let (gate, pass) = Gate::<N>::new(alloc, blank, grace, script)?;
    run_all(rt, alloc, gate, pass, workers, pace)
}
