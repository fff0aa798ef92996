//! What a long reader holds back, and what is left once it is gone.

ghost use Rattle.std.specs.Prelude.{◌≡◌};
ghost use Rattle.mv_seats.specs.Knowing.{Plain};
ghost use Rattle.mv_script.specs.Scripts.{IsCompiledScript};
ghost use Rattle.mv_shards.specs.Scripts.{script_in};

use crate::pins::script_of;
use crate::scripts::prepared;
use crate::starts::blank_of;
use mv_cases::ensure::ensure;
use mv_edge::pace::{Moment, Pace, Point};
use mv_gate::gate::{Gate, worker};
use mv_grace::grace::{GraceBlank, Naming};
use mv_script::script::CompiledScript;
use mv_seats::board::{Blank, Making};
use mv_seats::pass::Pass;
use mv_top::script::CompiledProgram;
use mv_values::calls::Options;
use std::alloc::Global;
use std::hint::spin_loop;
use std::marker::Brand;
use std::sync::Wait;
use std::sync::atomic::{AtomicU64, Ordering};
use std::test::*;
use std::thread;
use std::thread::Threads;

/// How many calls are answered while the reader is held.
const BESIDE: u64 = 10_000;

/// How many calls are left then.
const AFTER: u64 = 1_000;

/// The number of workers. One of them executes the reader.
const WORKERS: u32 = 4;

/// The number of the others.
const OTHER_WORKERS: u64 = 3;

/// How many of those calls commit after the reader's start, at least.
const SINCE: u64 = BESIDE - OTHER_WORKERS;

/// How often a thread looks whether it may go on.
const LOOKS: u64 = 10_000_000_000;

/// Looks until a number is at least this, or for so many looks.
fn wait_for(number: &AtomicU64, least: u64) {
    for _ in 0..LOOKS {
        if number.load(Ordering::SeqCst) >= least {
            return;
        }
        spin_loop();
    }
}

/// Holds the reader, call 0, until so many other calls were answered and the old versions were counted. Then the other
/// workers wait, and the reader's worker executes what is left alone. Each of the other workers answers at most one call
/// before the reader has run.
#[derive(Drop)]
struct Held {
    /// 1 once the reader has run.
    ran: AtomicU64,
    /// How many other calls were answered.
    answered: AtomicU64,
    /// How many old versions the shards keep beside the reader.
    kept: AtomicU64,
    /// 1 once they are counted.
    counted: AtomicU64,
    /// How many workers wait for the end.
    waiting: AtomicU64,
}

impl Held {
    fn new() -> Held {
        Held {
            ran: AtomicU64::new(0),
            answered: AtomicU64::new(0),
            kept: AtomicU64::new(0),
            counted: AtomicU64::new(0),
            waiting: AtomicU64::new(0),
        }
    }

    /// Counts the old versions beside the reader, and lets it go.
    fn count<N: Making + Naming, R: Wait>(&self, rt: &R, gate: &Gate<N>) {
        wait_for(&self.answered, BESIDE);
        self.kept.store(gate.old_versions(rt), Ordering::SeqCst);
        self.counted.store(1, Ordering::SeqCst);
    }

    /// Notes that the reader has run, and holds it until the old versions were counted.
    fn hold(&self) {
        self.ran.store(1, Ordering::SeqCst);
        wait_for(&self.counted, 1);
    }

    /// Notes that another call was answered. Once they are enough, its worker waits for the end, if it isn't the last one.
    fn answer(&self) {
        wait_for(&self.ran, 1);
        let before = self.answered.fetch_add(1, Ordering::SeqCst);
        if before >= BESIDE && self.waiting.load(Ordering::SeqCst) < OTHER_WORKERS {
            let _before = self.waiting.fetch_add(1, Ordering::SeqCst);
            wait_for(&self.answered, BESIDE + AFTER);
        }
    }

    fn kept(&self) -> u64 {
        self.kept.load(Ordering::SeqCst)
    }
}

impl Pace for Held {
    fn at<R: Wait>(&self, _rt: &R, point: Point) {
        match (point.call, point.moment) {
            (0, Moment::Ran) => self.hold(),
            (0, Moment::Answered) => wait_for(&self.waiting, OTHER_WORKERS),
            (_, Moment::Answered) => self.answer(),
            _ => {}
        }
    }
}

/// The post of a worker, or of the thread that counts: its pass and its number.
#[derive(Drop)]
struct Post<N: Making> {
    pass: Pass<N>,
    number: u32,
    ghost plain: { pass.role ≡ Plain },
}

fn post_of<N: Making>(pass: Pass<N>, number: u32) -> Post<N>
    requires { pass.role ≡ Plain }
{
    Post { pass, number }
}

/// Works at a post, as a worker or as the thread that counts.
fn work_at<N: Making + Naming, R: Threads + Wait + Sync>(
    rt: &R,
    alloc: Global,
    gate: &Gate<N>,
    post: &mut Post<N>,
    held: &Held,
) {
    let number = post.number;
    if number == WORKERS {
        held.count(rt, gate);
        return;
    }
    let _left = worker(rt, alloc, gate, &mut post.pass, number, held);
}

/// Works at each post, beside each other. The last post is that of the thread that counts.
fn work_at_each<N: Making + Naming + Send + Sync, R: Threads + Wait + Sync>(
    rt: &R,
    alloc: Global,
    gate: &Gate<N>,
    posts: &mut [Post<N>],
    held: &Held,
) {
    thread::for_each_mut(
        rt,
        posts,
        WORKERS as usize + 1,
        &|_, post: &mut Post<N>| work_at(rt, alloc, gate, post, held),
    );
}

/// Runs a script whose call 0 is held. Returns how many old versions the shards kept while it was live, and at the end.
fn counts<N: Making + Naming + Send + Sync, R: Threads + Wait + Sync>(
    rt: &R,
    alloc: Global,
    blank: Blank,
    grace: GraceBlank,
    script: CompiledScript,
) -> Result<(u64, u64), Fail>
    requires board { blank.board ≡ N.board }
    requires word { grace ≡ N.word }
    requires named { blank.script ≡ N.script }
    requires shards { N.script.shards ≡ 8 }
    requires script { script ≡ script_in N.script }
    requires sound { IsCompiledScript script }
{
    let (gate, mut pass) = Gate::<N>::new(alloc, blank, grace, script)?;
    let mut posts = Vec::new(alloc);
    for number in 0..=WORKERS {
        let mine = pass.note(gate.board())?;
        posts.push(post_of(mine, number))?;
    }
    let held = Held::new();
    work_at_each(rt, alloc, &gate, posts.as_mut_slice(), &held);
    Ok((held.kept(), gate.old_versions(rt)))
}

#[test]
fn a_reader_holds_versions_back_until_it_is_gone(rt: HostRuntime) -> Result<(), Fail> {
    let alloc = rt.alloc();
    let text = script_of(alloc, "CALL look(3);", BESIDE + AFTER)?;
    let options = Options {
        rounds: 3,
        horizon: None,
    };
    let CompiledProgram { script, .. } = prepared(alloc, text.as_str(), options)?;
    let blank = blank_of(alloc, &script)?;
    let grace = GraceBlank::new(alloc)?;
    let (kept, left) = counts::<Brand, _>(&rt, alloc, blank, grace, script)?;
    ensure(
        alloc,
        kept >= SINCE,
        "the versions since its start are kept",
    )?;
    ensure(alloc, left < AFTER / 2, "they go once it is gone")
}
