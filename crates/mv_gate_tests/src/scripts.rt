//! Scripts of accounts, and their runs.

ghost use Rattle.std.specs.Prelude.{◌≡◌, ◌<◌, ◌≤◌, length, IfOk};
ghost use Rattle.mv_accept.specs.Accepting.{most_calls};
ghost use Rattle.mv_script.specs.Scripts.{IsCompiledScript};

use mv_accept::accept::accept;
use mv_cases::accounts::{ADD, OTHERS, SEE};
use mv_core::runs::run_in_turn;
use mv_edge::pace::Pace;
use mv_gate::gate;
use mv_journal::outcome::Outcome;
use mv_report::render::render;
use mv_top::script::{CompiledProgram, compile_program};
use mv_values::calls::Options;
use mv_values::list::List;
use std::alloc::Global;
use std::sync::Wait;
use std::test::Fail;
use std::thread::Threads;

/// A procedure without statements.
const REST: &str = "CREATE PROCEDURE rest () BEGIN END;\n";

/// What a case shows, a text of calls, and how often it is repeated.
pub(crate) type Case = (&'static str, &'static str, u32);

/// More than 64 commits have a collection between them.
pub(crate) const CASES: &[Case] = &[
    ("no call", "", 0),
    ("one call", "CALL add(1, 5);", 1),
    ("calls on one row", "CALL add(1, 5); CALL add(1, 7);", 1),
    ("a call without statements", "CALL rest();", 1),
    (
        "calls without statements among others",
        "CALL rest(); CALL add(1, 5); CALL rest(); CALL rest(); CALL add(1, 7);",
        1,
    ),
    (
        "a rollback",
        "CALL transfer(1, 2, 150); CALL add(1, 60); CALL transfer(1, 2, 150);",
        1,
    ),
    (
        "an overflow",
        "CALL add(1, 9223372036854775807); CALL rest();",
        1,
    ),
    ("rows of one key", "CALL put(7, 1); CALL put(7, 2);", 1),
    (
        "a row that a count tests",
        "CALL put(7, 100); CALL rich();",
        1,
    ),
    (
        "three calls that write a common row",
        "CALL transfer(1, 2, 10); CALL transfer(3, 4, 10); CALL transfer(2, 3, 10);",
        1,
    ),
    ("read only calls", "CALL see(1); CALL see(2);", 1),
    (
        "read only calls among others",
        "CALL see(1); CALL add(1, 5); CALL see(1); CALL see(2); CALL add(1, 7);",
        1,
    ),
    (
        "a collection among read only calls",
        "CALL add(1, 1); CALL see(1);",
        65,
    ),
    ("a collection before the last call", "CALL add(1, 1);", 65),
    ("a collection after the last call", "CALL add(1, 1);", 64),
    (
        "two collections among rollbacks",
        "CALL transfer(1, 2, 90); CALL put(7, 1); CALL rest();",
        44,
    ),
];

/// Returns the script of a case.
pub(crate) fn script_of(alloc: Global, case: &Case) -> Result<String, Fail> {
    let (_, calls, times) = *case;
    let mut script = String::from_str(alloc, ADD)?;
    script.push_str(OTHERS)?;
    script.push_str(SEE)?;
    script.push_str(REST)?;
    for _ in 0..times {
        script.push_str(calls)?;
    }
    Ok(script)
}

const OPTIONS: Options = Options {
    rounds: 3,
    horizon: None,
};

/// Returns what a run needs of a script.
pub(crate) fn prepared(
    alloc: Global,
    script: &str,
    options: Options,
) -> Result<CompiledProgram, Fail>
    ensures sound { IfOk result (λ p. IsCompiledScript p.script) }
    ensures few { IfOk result (λ p. length p.script.calls ≤ most_calls) }
    ensures options { IfOk result (λ p. p.script.options ≡ options) }
{
    let Ok(program) = accept(alloc, script.as_bytes()) else {
        return Err("no program".into());
    };
    Ok(compile_program(alloc, program, options)?)
}

/// What a run leaves: its outcome, and the text of it.
#[derive(Drop)]
pub(crate) struct Left {
    pub(crate) outcome: Outcome,
    pub(crate) text: List<u8>,
}

/// Runs the calls of a script one after another, without a gate.
pub(crate) fn run_plainly(alloc: Global, script: &str) -> Result<Left, Fail> {
    let CompiledProgram { script, tables } = prepared(alloc, script, OPTIONS)?;
    let outcome = run_in_turn(alloc, script)?;
    let text = render(alloc, &tables, &outcome)?;
    Ok(Left { outcome, text })
}

/// Runs the calls of a script by so many workers of a gate, which call this pace.
pub(crate) fn run_by<R: Threads + Wait + Sync, P: Pace>(
    rt: &R,
    alloc: Global,
    script: &str,
    workers: u32,
    pace: &P,
) -> Result<Left, Fail>
    requires { (0 < workers) × (workers ≤ 64) }
{
    let CompiledProgram { script, tables } = prepared(alloc, script, OPTIONS)?;
    let outcome = gate::run(rt, alloc, script, workers, pace)?;
    let text = render(alloc, &tables, &outcome)?;
    Ok(Left { outcome, text })
}
