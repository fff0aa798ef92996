//! Runs by workers.

ghost use Rattle.std.specs.Prelude.{◌≤◌, length, IfOk};
ghost use Rattle.mv_accept.specs.Accepting.{most_calls};
ghost use Rattle.mv_record.specs.Databases.{IsProgram};
ghost use Rattle.mv_script.specs.Scripts.{IsCompiledScript, batch_of};
ghost use Rattle.mv_top.specs.Workers.{IsLeftBy};
ghost use Rattle.mv_top.specs.Answers.{IsTextOfWorkers};

use crate::script::{CompiledProgram, compile_program};
use mv_catalog::resolved::Program;
use mv_core::runs::run_in_turn;
use mv_edge::pace::Pace;
use mv_gate::gate;
use mv_journal::outcome::Outcome;
use mv_report::render::render;
use mv_script::script::CompiledScript;
use mv_values::calls::Options;
use mv_values::list::List;
use mv_values::memory::NoMemory;
use std::alloc::Global;
use std::sync::Wait;
use std::thread::Threads;

/// The most workers of a run.
const MOST_WORKERS: u32 = 64;

/// The workers of a run, and its options. 0 workers count as 1, and more than 64 as 64.
#[derive(Clone, Copy)]
pub(crate) struct Crew {
    pub(crate) threads: u32,
    pub(crate) options: Options,
}

/// Runs the calls of a script by workers. One worker makes the events of each call before it begins the next, and waits
/// for no other thread.
pub(crate) fn run_calls<R: Threads + Wait + Sync, P: Pace>(
    rt: &R,
    alloc: Global,
    threads: u32,
    script: CompiledScript,
    pace: &P,
) -> Result<Outcome, NoMemory>
    requires script { IsCompiledScript script }
    requires few { length script.calls ≤ most_calls }
    ensures { IfOk result (IsLeftBy threads (batch_of script) (length script.calls)) }
{
    if threads > 1 {
        gate::run(rt, alloc, script, threads.min(MOST_WORKERS), pace)
    } else {
        run_in_turn(alloc, script)
    }
}

/// Returns the text of a run of a program's calls. Costs the work of the calls.
pub(crate) fn run_text<R: Threads + Wait + Sync, P: Pace>(
    rt: &R,
    alloc: Global,
    crew: Crew,
    program: Program,
    pace: &P,
) -> Result<List<u8>, NoMemory>
    requires whole { IsProgram program }
    requires few { length program.resolved.calls ≤ most_calls }
    ensures { IfOk result (IsTextOfWorkers crew.threads crew.options program) }
{
    let CompiledProgram { script, tables } = compile_program(alloc, program, crew.options)?;
    let outcome = run_calls(rt, alloc, crew.threads, script, pace)?;
    render(alloc, &tables, &outcome)
}
