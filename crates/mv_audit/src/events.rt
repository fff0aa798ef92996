//! Makes events.

ghost use Rattle.std.specs.Prelude.{◌≡◌, ◌<◌, ◌^◌, None, IfOk, length};
ghost use Rattle.mv_eval.specs.TableAfter.{result_of, reply_in};
ghost use Rattle.mv_record.specs.Databases.{IsDatabaseOf, IsProgram};
ghost use Rattle.mv_recorded.specs.Recorded.{records};
ghost use Rattle.mv_journal.specs.declared.event.Event.TheVariants as an;
ghost use Rattle.mv_lawful.specs.Lawful.{refusal, after};
ghost use Rattle.mv_audit.specs.Schedules.{audited, schedule_of, round_event, commit_event, IsLiveCall, IsSchedule};

use crate::schedule::Schedule;
use crate::steps::{with_answer, with_call, with_commit, with_round};
use crate::trimming::trimmed;
use mv_catalog::resolved::Program;
use mv_record::record::Record;
use mv_recorder::calls::run_call;
use mv_recorder::recorder::Recording;
use mv_values::calls::Reply;
use mv_values::list::List;
use mv_values::memory::NoMemory;
use std::alloc::Global;

/// A call that was run: its records, its reply, and the state, which is as before.
#[derive(Drop)]
struct Ran {
    schedule: Schedule,
    records: List<Record>,
    reply: Reply,
}

/// Runs a call of the program on the tables, which stay.
fn run(alloc: Global, program: &Program, schedule: Schedule, call: u32) -> Result<Ran, NoMemory>
    requires whole { IsProgram program.now }
    requires database { IsDatabaseOf program.now.resolved.tables schedule.tables }
    ensures schedule { IfOk result (λ r. r.schedule ≡ schedule) }
    ensures records { IfOk result (λ r. r.records ≡ records program.now call schedule.tables) }
    ensures reply { IfOk result (λ r. r.reply ≡ reply_in (result_of program.now call schedule.tables)) }
{
    let Schedule {
        order,
        answered,
        commits,
        calls,
        tables,
        low,
        due,
    } = schedule;
    let ran = run_call(alloc, program, call, tables)?;
    let Recording {
        records,
        reply,
        tables,
    } = ran;
    let schedule = Schedule {
        order,
        answered,
        commits,
        calls,
        tables,
        low,
        due,
    };
    Ok(Ran {
        schedule,
        records,
        reply,
    })
}

/// Begins the next call.
pub(crate) fn begin(
    alloc: Global,
    program: &Program,
    rounds: u32,
    schedule: Schedule,
) -> Result<Schedule, NoMemory>
    requires whole { IsProgram program.now }
    requires schedule { IsSchedule program.now.resolved.tables (audited program.now rounds) schedule }
    requires allowed { refusal (audited program.now rounds) (schedule_of schedule) (an.B (length schedule.calls)) ≡ None }
    requires few { length schedule.order < 2 ^ 32 }
    requires calls { length schedule.calls < 2 ^ 32 }
    ensures after { IfOk result (λ next. schedule_of next ≡ after (audited program.now rounds) (schedule_of schedule) (an.B (length schedule.calls))) }
    ensures schedule { IfOk result (IsSchedule program.now.resolved.tables (audited program.now rounds)) }
{
    let call = schedule.calls.len() as u32;
    let ran = run(alloc, program, schedule, call)?;
    let Ran {
        schedule,
        records,
        reply,
    } = ran;
    with_call(alloc, schedule, records, reply)
}

/// Repairs a live call, or moves it.
pub(crate) fn again(
    alloc: Global,
    program: &Program,
    rounds: u32,
    schedule: Schedule,
    call: u32,
    moved: bool,
) -> Result<Schedule, NoMemory>
    requires whole { IsProgram program.now }
    requires schedule { IsSchedule program.now.resolved.tables (audited program.now rounds) schedule }
    requires allowed { refusal (audited program.now rounds) (schedule_of schedule) (round_event moved call) ≡ None }
    requires live { IsLiveCall schedule call }
    requires few { length schedule.order < 2 ^ 32 }
    ensures after { IfOk result (λ next. schedule_of next ≡ after (audited program.now rounds) (schedule_of schedule) (round_event moved call)) }
    ensures schedule { IfOk result (IsSchedule program.now.resolved.tables (audited program.now rounds)) }
{
    let ran = run(alloc, program, schedule, call)?;
    let Ran {
        schedule,
        records,
        reply,
    } = ran;
    with_round(alloc, schedule, call, moved, records, reply)
}

/// Commits a live call. With `own` it is repaired in the same step.
fn commit_call(
    alloc: Global,
    program: &Program,
    rounds: u32,
    schedule: Schedule,
    call: u32,
    own: bool,
) -> Result<Schedule, NoMemory>
    requires whole { IsProgram program.now }
    requires schedule { IsSchedule program.now.resolved.tables (audited program.now rounds) schedule }
    requires allowed { refusal (audited program.now rounds) (schedule_of schedule) (commit_event own call) ≡ None }
    requires live { IsLiveCall schedule call }
    requires few { length schedule.order < 2 ^ 32 }
    ensures after { IfOk result (λ next. schedule_of next ≡ after (audited program.now rounds) (schedule_of schedule) (commit_event own call)) }
    ensures schedule { IfOk result (IsSchedule program.now.resolved.tables (audited program.now rounds)) }
{
    let ran = run(alloc, program, schedule, call)?;
    let Ran {
        schedule,
        records,
        reply,
    } = ran;
    with_commit(alloc, schedule, call, own, records.as_slice(), reply)
}

/// Commits a live call, and drops what is needed no more. With `own` it is repaired in the same step.
pub(crate) fn commit(
    alloc: Global,
    program: &Program,
    rounds: u32,
    schedule: Schedule,
    call: u32,
    own: bool,
) -> Result<Schedule, NoMemory>
    requires whole { IsProgram program.now }
    requires schedule { IsSchedule program.now.resolved.tables (audited program.now rounds) schedule }
    requires allowed { refusal (audited program.now rounds) (schedule_of schedule) (commit_event own call) ≡ None }
    requires live { IsLiveCall schedule call }
    requires few { length schedule.order < 2 ^ 32 }
    ensures after { IfOk result (λ next. schedule_of next ≡ after (audited program.now rounds) (schedule_of schedule) (commit_event own call)) }
    ensures schedule { IfOk result (IsSchedule program.now.resolved.tables (audited program.now rounds)) }
{
    let schedule = commit_call(alloc, program, rounds, schedule, call, own)?;
    Ok(trimmed(alloc, schedule))
}

/// Answers a live call.
pub(crate) fn answer(
    alloc: Global,
    program: &Program,
    rounds: u32,
    schedule: Schedule,
    call: u32,
) -> Result<Schedule, NoMemory>
    requires whole { IsProgram program.now }
    requires schedule { IsSchedule program.now.resolved.tables (audited program.now rounds) schedule }
    requires allowed { refusal (audited program.now rounds) (schedule_of schedule) (an.R call) ≡ None }
    requires live { IsLiveCall schedule call }
    ensures after { IfOk result (λ next. schedule_of next ≡ after (audited program.now rounds) (schedule_of schedule) (an.R call)) }
    ensures schedule { IfOk result (IsSchedule program.now.resolved.tables (audited program.now rounds)) }
{
    with_answer(alloc, schedule, call)
}
