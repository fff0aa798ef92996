//! What the gate's shards show beside its workers, and what a call does whose rows they have dropped.

ghost use Rattle.std.specs.Prelude.{◌≡◌, ◌≢◌, ◌≤◌, None, Some, length, IfOk};
ghost use Rattle.mv_accept.specs.Accepting.{most_calls};
ghost use Rattle.mv_seats.specs.Knowing.{Plain};
ghost use Rattle.mv_script.specs.Scripts.{IsCompiledScript};
ghost use Rattle.mv_shards.specs.Scripts.{script_in};

use crate::scripts::prepared;
use crate::watched::readings_beside;
use mv_cases::accounts::{ADD, OTHERS};
use mv_cases::ensure::ensure;
use mv_edge::pace::{Moment, NoPace, Pace, Point};
use mv_gate::gate::{Gate, run_all, worker};
use mv_grace::grace::{GraceBlank, Naming};
use mv_journal::event::Event;
use mv_script::script::CompiledScript;
use mv_seats::board::{Blank, Making};
use mv_seats::pass::Pass;
use mv_shards::start::Start;
use mv_shards::view::ShardsView;
use mv_top::script::CompiledProgram;
use mv_values::calls::Options;
use mv_values::list::List;
use mv_values::memory::NoMemory;
use mv_values::value::{Key, Value};
use mv_view::view::{Refused, View};
use std::alloc::Global;
use std::hint::spin_loop;
use std::marker::Brand;
use std::sync::Wait;
use std::sync::atomic::{AtomicU64, Ordering};
use std::test::*;
use std::thread;
use std::thread::Threads;

/// Returns a script of the accounts with these calls, and this horizon.
fn script_of(alloc: Global, calls: &str, horizon: u32) -> Result<CompiledScript, Fail>
    ensures sound { IfOk result IsCompiledScript }
    ensures few { IfOk result (λ script. length script.calls ≤ most_calls) }
    ensures horizon { IfOk result (λ script. script.options.horizon ≡ Some horizon) }
{
    let mut text = String::from_str(alloc, ADD)?;
    text.push_str(OTHERS)?;
    text.push_str(calls)?;
    let options = Options {
        rounds: 3,
        horizon: Some(horizon),
    };
    let CompiledProgram { script, .. } = prepared(alloc, text.as_str(), options)?;
    Ok(script)
}

/// Returns a blank of eight shards for a script.
pub(crate) fn blank_of(alloc: Global, script: &CompiledScript) -> Result<Blank, NoMemory>
    requires { length script.now.calls ≤ most_calls }
    ensures script { IfOk result (λ blank. script_in blank.script ≡ script.now) }
    ensures shards { IfOk result (λ blank. blank.script.shards ≡ 8) }
{
    Blank::new(
        alloc,
        &script.graphs,
        &script.calls,
        &script.opening,
        &script.options,
        8,
    )
}

/// Returns the key of this number.
fn key_of(alloc: Global, number: i64) -> Result<Key, NoMemory> {
    let mut key = Key::new();
    key.push(alloc, Value::Int(number))?;
    Ok(key)
}

/// Writes the balance of account 1 at a start, or that its rows may be gone.
fn write_balance<N: Making + Naming, R: Wait>(
    rt: &R,
    alloc: Global,
    gate: &Gate<N>,
    start: &mut Start<N>,
    text: &mut String,
) -> Result<(), Fail>
    requires { N.script.options.horizon ≢ None }
{
    let key = key_of(alloc, 1)?;
    let mut view = ShardsView::new(rt, gate.shards(), gate.board(), start);
    let found = view.row(alloc, 0, &key);
    match found {
        Ok(Some(row)) => match row.as_slice().get(1) {
            Some(Value::Int(balance)) => write!(text, " {balance}")?,
            _ => text.push_str(" no balance")?,
        },
        Ok(None) => text.push_str(" no row")?,
        Err(Refused::NoMemory) => return Err("no memory".into()),
        Err(Refused::Stale { start, low }) => write!(text, " stale({start}, {low})")?,
    }
    Ok(())
}

/// Writes the number of a start and the balance of account 1 there.
fn write_start<N: Making + Naming, R: Wait>(
    rt: &R,
    alloc: Global,
    gate: &Gate<N>,
    start: &mut Start<N>,
    text: &mut String,
) -> Result<(), Fail>
    requires { N.script.options.horizon ≢ None }
{
    write!(text, " {}:", start.number())?;
    write_balance(rt, alloc, gate, start, text)
}

/// Runs two calls by one worker, and tells what the shards show of account 1: before all commits, after the first and after
/// the second, and again once the shards were collected up to commit 1.
fn shown<N: Making + Naming + Send + Sync, R: Threads + Wait + Sync>(
    rt: &R,
    alloc: Global,
    blank: Blank,
    grace: GraceBlank,
    script: CompiledScript,
) -> Result<String, Fail>
    requires board { blank.board ≡ N.board }
    requires word { grace ≡ N.word }
    requires named { blank.script ≡ N.script }
    requires shards { N.script.shards ≡ 8 }
    requires script { script ≡ script_in N.script }
    requires horizon { N.script.options.horizon ≢ None }
    requires sound { IsCompiledScript script }
{
    let (gate, mut pass) = Gate::<N>::new(alloc, blank, grace, script)?;
    let mut first = gate.snapshot(rt, alloc, &mut pass)?;
    let mut readings = readings_beside(rt, alloc, &gate, pass, 1)?;
    let mut text = String::new(alloc);
    for times in 0..2 {
        if times == 1 {
            gate.shards().collect(rt, 1);
            text.push_str(";")?;
        }
        write_start(rt, alloc, &gate, &mut first, &mut text)?;
        for reading in readings.iter_mut() {
            write_start(rt, alloc, &gate, &mut reading.start, &mut text)?;
        }
    }
    Ok(text)
}

/// Runs two calls on account 1 by one worker.
fn shown_of<R: Threads + Wait + Sync>(
    rt: &R,
    alloc: Global,
    calls: &str,
    horizon: u32,
) -> Result<String, Fail> {
    let script = script_of(alloc, calls, horizon)?;
    let blank = blank_of(alloc, &script)?;
    let grace = GraceBlank::new(alloc)?;
    shown::<Brand, R>(rt, alloc, blank, grace, script)
}

/// Two calls, a horizon, and what the shards show.
const LOOKED: &[(&str, u32, &str)] = &[
    (
        "CALL add(1, 5); CALL add(1, 5);",
        1,
        " 0: 100 1: 105 2: 110; 0: stale(0, 1) 1: 105 2: 110",
    ),
    (
        "CALL add(1, 5); CALL add(1, 7);",
        5,
        " 0: 100 1: 105 2: 112; 0: 100 1: 105 2: 112",
    ),
];

#[test]
fn shards_show_each_start_as_far_as_the_horizon_keeps_it(rt: HostRuntime) -> Result<(), Fail> {
    for (calls, horizon, want) in LOOKED {
        let found = shown_of(&rt, rt.alloc(), calls, *horizon)?;
        assert_eq!(rt; found.as_str(), *want);
    }
    Ok(())
}

/// How often a held call looks whether it may go on.
const LOOKS: u64 = 100_000_000;

/// Holds call 0 after its first statement, until it is freed.
#[derive(Drop)]
struct Held {
    freed: AtomicU64,
}

impl Held {
    fn new() -> Held {
        Held {
            freed: AtomicU64::new(0),
        }
    }

    /// Waits until the call is freed, or for so many looks.
    fn hold(&self) {
        for _ in 0..LOOKS {
            if self.freed.load(Ordering::SeqCst) > 0 {
                return;
            }
            spin_loop();
        }
    }

    fn free(&self) {
        self.freed.store(1, Ordering::SeqCst);
    }
}

impl Pace for Held {
    fn at<R: Wait>(&self, _rt: &R, point: Point) {
        match (point.call, point.moment) {
            (0, Moment::Ran) => self.hold(),
            _ => {}
        }
    }
}

/// The post of a worker: its pass and its number. A horizon is given.
#[derive(Drop)]
struct Post<N: Making> {
    pass: Pass<N>,
    number: u32,
    ghost plain: { pass.role ≡ Plain },
    ghost horizon: { N.script.options.horizon ≢ None },
}

fn post_of<N: Making>(pass: Pass<N>, number: u32) -> Post<N>
    requires plain { pass.role ≡ Plain }
    requires horizon { N.script.options.horizon ≢ None }
{
    Post { pass, number }
}

/// Works at a post. At the end, the shards drop what the horizon doesn't keep, and call 0 is freed.
fn drop_after_work<N: Making + Naming, R: Threads + Wait + Sync>(
    rt: &R,
    alloc: Global,
    gate: &Gate<N>,
    post: &mut Post<N>,
    held: &Held,
) {
    let number = post.number;
    let _left = worker(rt, alloc, gate, &mut post.pass, number, held);
    gate.shards().collect(rt, 3);
    held.free();
}

/// Works at each post, beside each other. The worker that doesn't have call 0 ends first.
fn drop_after_each<N: Making + Naming + Send + Sync, R: Threads + Wait + Sync>(
    rt: &R,
    alloc: Global,
    gate: &Gate<N>,
    posts: &mut [Post<N>],
) {
    let held = &Held::new();
    thread::for_each_mut(
        rt,
        posts,
        2,
        &|_, post: &mut Post<N>| drop_after_work(rt, alloc, gate, post, held),
    );
}

/// Runs calls by two workers, of which one drops rows that call 0 has still to read. Returns the events of the whole run.
fn dropped<N: Making + Naming + Send + Sync, R: Threads + Wait + Sync>(
    rt: &R,
    alloc: Global,
    blank: Blank,
    grace: GraceBlank,
    script: CompiledScript,
) -> Result<List<Event>, Fail>
    requires board { blank.board ≡ N.board }
    requires word { grace ≡ N.word }
    requires named { blank.script ≡ N.script }
    requires shards { N.script.shards ≡ 8 }
    requires script { script ≡ script_in N.script }
    requires horizon { N.script.options.horizon ≢ None }
    requires sound { IsCompiledScript script }
{
    let (gate, mut pass) = Gate::<N>::new(alloc, blank, grace, script)?;
    let first = pass.note(gate.board())?;
    let second = pass.note(gate.board())?;
    let mut posts = vec![in alloc; post_of(first, 0), post_of(second, 1)]?;
    drop_after_each(rt, alloc, &gate, posts.as_mut_slice());
    let outcome = run_all(rt, alloc, gate, pass, 1, &NoPace)?;
    Ok(outcome.journal)
}

const OVERTAKEN: &str = "CALL transfer(1, 2, 10); CALL add(1, 1); CALL add(1, 1); CALL add(1, 1);";

#[test]
fn a_call_whose_rows_were_dropped_moves(rt: HostRuntime) -> Result<(), Fail> {
    let alloc = rt.alloc();
    let script = script_of(alloc, OVERTAKEN, 1)?;
    let blank = blank_of(alloc, &script)?;
    let grace = GraceBlank::new(alloc)?;
    let events = dropped::<Brand, _>(&rt, alloc, blank, grace, script)?;
    let moved = events
        .as_slice()
        .iter()
        .any(|event| matches!(event, Event::M(0)));
    ensure(alloc, moved, "call 0 has to move")
}
