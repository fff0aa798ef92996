//! What events leave of the state.

ghost use Rattle.std.specs.Prelude.{◌≡◌, ◌≤◌, ◌<◌, ◌^◌, Some, IfOk, length, slice_get};
ghost use Rattle.mv_record.specs.Paths.{PathsRise};
ghost use Rattle.mv_record.specs.Writes.{AreRising};
ghost use Rattle.mv_audit.specs.declared.schedule.Live.{Live as Kept};
ghost use Rattle.mv_audit.specs.Schedules.{mark_of, begun_state, again_state, committed_state, answered_state, left_by};

use crate::committing::{Left, apply_commit};
use crate::rounds::{answered, finished, fresh, no_reply, restarted};
use crate::schedule::{Live, Schedule};
use mv_journal::outcome::Mark;
use mv_record::record::Record;
use mv_values::calls::Reply;
use mv_values::list::List;
use mv_values::memory::NoMemory;
use std::alloc::Global;

/// Adds a call that begins after all commits. Its full run leaves these records and this reply.
pub(crate) fn with_call(
    alloc: Global,
    schedule: Schedule,
    records: List<Record>,
    reply: Reply,
) -> Result<Schedule, NoMemory>
    requires { length schedule.order < 2 ^ 32 }
    ensures { IfOk result (λ next. next ≡ begun_state schedule records reply) }
{
    let mut schedule = schedule;
    let live = fresh(alloc, schedule.order.len() as u32, records, reply)?;
    schedule.calls.push(live)?;
    Ok(schedule)
}

/// Returns a call without a round.
fn blank(alloc: Global) -> Live {
    Live {
        start: 0,
        records: List::new(alloc),
        given: no_reply(alloc),
        rounds: List::new(alloc),
        reply: None,
    }
}

/// Adds a round to a call. Its full run leaves these records and this reply.
pub(crate) fn with_round(
    alloc: Global,
    schedule: Schedule,
    call: u32,
    moved: bool,
    records: List<Record>,
    reply: Reply,
) -> Result<Schedule, NoMemory>
    requires within { call < length schedule.calls }
    requires past { (l : Kept) → slice_get schedule.calls call ≡ Some l → l.start ≤ length schedule.commits }
    requires few { length schedule.commits < 2 ^ 32 }
    requires old { (l : Kept) → slice_get schedule.calls call ≡ Some l → PathsRise l.records }
    requires new { PathsRise records }
    ensures { IfOk result (λ next. (l : Kept) → slice_get schedule.calls call ≡ Some l → next ≡ again_state schedule call l (mark_of moved) records reply) }
{
    let mut schedule = schedule;
    let old = schedule.calls.replace(call as usize, blank(alloc));
    let mark = mark_of(moved);
    let live = restarted(
        alloc,
        old,
        mark,
        records,
        reply,
        schedule.commits.as_slice(),
    )?;
    schedule.calls.set(call as usize, live);
    Ok(schedule)
}

/// Returns the mark of a round that repairs or moves a call.
fn mark_of(moved: bool) -> Mark
    ensures { result ≡ mark_of moved }
{
    if moved { Mark::Moved } else { Mark::Plain }
}

/// Commits a call with these records and this reply. With `own` it does so in a round of its own.
pub(crate) fn with_commit(
    alloc: Global,
    schedule: Schedule,
    call: u32,
    own: bool,
    records: &[Record],
    reply: Reply,
) -> Result<Schedule, NoMemory>
    requires within { call < length schedule.calls }
    requires past { (l : Kept) → slice_get schedule.calls call ≡ Some l → l.start ≤ length schedule.commits }
    requires few { length schedule.commits < 2 ^ 32 }
    requires old { (l : Kept) → slice_get schedule.calls call ≡ Some l → PathsRise l.records }
    requires new { PathsRise records.now }
    requires rising { AreRising schedule.tables }
    ensures { IfOk result (λ next. (l : Kept) → slice_get schedule.calls call ≡ Some l → next ≡ committed_state schedule call l own records.now reply (left_by records.now reply.end schedule.tables)) }
{
    let Schedule {
        order,
        answered,
        commits,
        calls,
        tables,
        low,
        due,
    } = schedule;
    let left = apply_commit(alloc, tables, records, &reply.end)?;
    let Left { tables, changes } = left;
    let (mut order, mut commits, mut calls) = (order, commits, calls);
    let old = calls.replace(call as usize, blank(alloc));
    let live = finished(alloc, own, old, records, commits.as_slice(), reply)?;
    calls.set(call as usize, live);
    order.push(call)?;
    commits.push(changes)?;
    Ok(Schedule {
        order,
        answered,
        commits,
        calls,
        tables,
        low,
        due,
    })
}

/// Answers a call with the reply of its full run.
pub(crate) fn with_answer(
    alloc: Global,
    schedule: Schedule,
    call: u32,
) -> Result<Schedule, NoMemory>
    requires { call < length schedule.calls }
    ensures { IfOk result (λ next. (l : Kept) → slice_get schedule.calls call ≡ Some l → next ≡ answered_state schedule call l) }
{
    let mut schedule = schedule;
    let old = schedule.calls.replace(call as usize, blank(alloc));
    schedule.calls.set(call as usize, answered(alloc, old));
    schedule.answered.push(call)?;
    Ok(schedule)
}
