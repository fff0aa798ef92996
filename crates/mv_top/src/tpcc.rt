//! The summary of the run of a generated script.

ghost use Rattle.std.specs.Prelude.{◌≤◌, length, IfOk};
ghost use Rattle.mv_accept.specs.Accepting.{most_calls};
ghost use Rattle.mv_record.specs.Databases.{IsProgram};
ghost use Rattle.mv_top.specs.Tpcc.{IsSummary};

use crate::script::script_of;
use crate::workers::{Crew, run_calls};
use mv_catalog::resolved::Program;
use mv_edge::pace::Pace;
use mv_tpccgen::load::Load;
use mv_tpccsum::summary::summary;
use mv_values::list::List;
use mv_values::memory::NoMemory;
use std::alloc::Global;
use std::sync::Wait;
use std::thread::Threads;

/// Runs a program's calls by several workers or by one, and returns the summary of the run. Costs the work of the calls.
pub(crate) fn summary_text<R: Threads + Wait + Sync, P: Pace>(
    rt: &R,
    alloc: Global,
    load: &Load,
    crew: Crew,
    program: Program,
    pace: &P,
) -> Result<List<u8>, NoMemory>
    requires whole { IsProgram program }
    requires few { length program.resolved.calls ≤ most_calls }
    ensures { IfOk result (IsSummary load.now program crew.options) }
{
    let Program { resolved, opening } = program;
    let script = script_of(alloc, &resolved, opening, crew.options)?;
    let outcome = run_calls(rt, alloc, crew.threads, script, pace)?;
    summary(alloc, load, &resolved, &outcome)
}
