//! Runs by one worker, by more workers than calls, and by two workers of which one overtakes the other.

ghost use Rattle.std.specs.Prelude.{◌<◌, ◌≤◌};

use crate::records::{Overtaking, Record, are_in_turn, are_points_of, letters_of};
use crate::scripts::{CASES, Case, run_by, run_plainly, script_of};
use mv_cases::accounts::TRANSFERS;
use mv_cases::ensure::ensure;
use std::alloc::Global;
use std::sync::Wait;
use std::test::Fail;
use std::thread::Threads;

/// Checks that one worker leaves the text that the calls leave without a gate, and tells the pace of each call in turn. A
/// worker that gave its calls up would leave the same text, since the gate ends what is left. The pace would miss it.
fn one_worker<R: Threads + Wait + Sync>(rt: &R, alloc: Global, case: &Case) -> Result<(), Fail> {
    let script = script_of(alloc, case)?;
    let want = run_plainly(alloc, script.as_str())?;
    let record = Record::new(alloc);
    let left = run_by(rt, alloc, script.as_str(), 1, &record)?;
    ensure(alloc, left.text.as_slice() == want.text.as_slice(), case.0)?;
    let points = record.into_points();
    ensure(alloc, are_in_turn(points.as_slice()), case.0)?;
    let told = are_points_of(alloc, points.as_slice(), &left.outcome)?;
    ensure(alloc, told, case.0)
}

#[test]
fn one_worker_ends_each_call_in_turn(rt: HostRuntime) -> Result<(), Fail> {
    for case in CASES {
        one_worker(&rt, rt.alloc(), case)?;
    }
    Ok(())
}

/// Checks that so many workers end each call, and tell the pace of each what its rounds say, with one answer.
fn many_workers<R: Threads + Wait + Sync>(
    rt: &R,
    alloc: Global,
    workers: u32,
    case: &Case,
) -> Result<(), Fail>
    requires { (0 < workers) × (workers ≤ 64) }
{
    let script = script_of(alloc, case)?;
    let want = run_plainly(alloc, script.as_str())?;
    let record = Record::new(alloc);
    let left = run_by(rt, alloc, script.as_str(), workers, &record)?;
    let ended = left.outcome.history.len();
    ensure(alloc, ended == want.outcome.history.len(), case.0)?;
    let points = record.into_points();
    let told = are_points_of(alloc, points.as_slice(), &left.outcome)?;
    ensure(alloc, told, case.0)
}

#[test]
fn more_workers_than_calls_end_each_call_once(rt: HostRuntime) -> Result<(), Fail> {
    for case in CASES {
        many_workers(&rt, rt.alloc(), 64, case)?;
    }
    Ok(())
}

#[test]
fn two_workers_end_each_call_once(rt: HostRuntime) -> Result<(), Fail> {
    for case in CASES {
        many_workers(&rt, rt.alloc(), 2, case)?;
    }
    Ok(())
}

/// Two calls with a common row, and their letters when call 1 overtakes call 0, which is then repaired.
const OVERTAKEN: (Case, &str, &str) = (
    ("an overtaken call", TRANSFERS, 1),
    "BRRRRRTTA",
    "BRRRRRTA",
);

#[test]
fn an_overtaken_call_is_tried_twice_and_answered_once(rt: HostRuntime) -> Result<(), Fail> {
    let alloc = rt.alloc();
    let (case, first, second) = OVERTAKEN;
    let script = script_of(alloc, &case)?;
    let pace = Overtaking::new(alloc);
    let left = run_by(&rt, alloc, script.as_str(), 2, &pace)?;
    let points = pace.into_points();
    let told = are_points_of(alloc, points.as_slice(), &left.outcome)?;
    ensure(alloc, told, case.0)?;
    let letters = letters_of(alloc, points.as_slice(), 0)?;
    assert_eq!(rt; letters.as_str(), first);
    let letters = letters_of(alloc, points.as_slice(), 1)?;
    assert_eq!(rt; letters.as_str(), second);
    Ok(())
}
