//! Judges journals.

ghost use Rattle.std.specs.Prelude.{◌≡◌, ◌≤◌, ◌<◌, ◌+◌, ◌^◌, true, None, Some, All, IfOk, map, length, slice_get};
ghost use Rattle.std.specs.Option.{is_some};
ghost use Rattle.mv_journal.specs.declared.event.Event.{Event as AnEvent};
ghost use Rattle.mv_record.specs.Databases.{IsProgram};
ghost use Rattle.mv_lawful.specs.Lawful.{refusal, after, beginning, first_open, open_call, schedule_of as reached};
ghost use Rattle.mv_lawful.specs.Outcomes.{has_line, outcome_of};
ghost use Rattle.mv_lawful.specs.declared.places.Place.{Place as APlace};
ghost use Rattle.mv_audit.specs.declared.schedule.Live.{Live as Kept};
ghost use Rattle.mv_audit.specs.Schedules.{audited, schedule_of, line_of, live_of, replies_in, IsSchedule, IsJudgement, IsWithin};

use crate::events::{again, answer, begin, commit};
use crate::schedule::{Live, Schedule, allows};
use mv_catalog::resolved::Program;
use mv_journal::event::Event;
use mv_journal::outcome::{HistoryLine, Outcome, Round};
use mv_lawful::places::{Place, places_of};
use mv_table::databases::{database_of, tables_of};
use mv_values::calls::Reply;
use mv_values::copied::Copied;
use mv_values::list::List;
use mv_values::memory::NoMemory;
use std::alloc::Global;

/// What a journal comes to.
#[derive(Drop)]
pub(crate) enum Judged {
    /// The event with this number, counted from 1, is refused.
    Refused { n: u32 },
    /// A call stays open.
    Open,
    /// It is lawful, and this is its outcome.
    Lawful(Outcome),
}

/// Returns the state before any event.
fn opening(alloc: Global, program: &Program, rounds: u32) -> Result<Schedule, NoMemory>
    requires { IsProgram program.now }
    ensures schedule { IfOk result (λ schedule. schedule_of schedule ≡ beginning) }
    ensures kept { IfOk result (IsSchedule program.now.resolved.tables (audited program.now rounds)) }
{
    let tables = tables_of(alloc, &program.opening)?;
    Ok(Schedule {
        order: List::new(alloc),
        answered: List::new(alloc),
        commits: List::new(alloc),
        calls: List::new(alloc),
        tables,
        low: 0,
        due: 0,
    })
}

/// Makes an event that is allowed and has a line.
fn advance(
    alloc: Global,
    program: &Program,
    rounds: u32,
    schedule: Schedule,
    event: Event,
) -> Result<Schedule, NoMemory>
    requires whole { IsProgram program.now }
    requires schedule { IsSchedule program.now.resolved.tables (audited program.now rounds) schedule }
    requires line { has_line event ≡ true }
    requires allowed { refusal (audited program.now rounds) (schedule_of schedule) event ≡ None }
    requires few { length schedule.order < 2 ^ 32 }
    requires calls { length schedule.calls < 2 ^ 32 }
    ensures after { IfOk result (λ next. schedule_of next ≡ after (audited program.now rounds) (schedule_of schedule) event) }
    ensures kept { IfOk result (IsSchedule program.now.resolved.tables (audited program.now rounds)) }
    ensures order { IfOk result (λ next. length next.order ≤ length schedule.order + 1) }
    ensures more { IfOk result (λ next. length next.calls ≤ length schedule.calls + 1) }
{
    match event {
        Event::B(_) => begin(alloc, program, rounds, schedule),
        Event::A(call) => again(alloc, program, rounds, schedule, call, false),
        Event::M(call) => again(alloc, program, rounds, schedule, call, true),
        Event::C(call) => commit(alloc, program, rounds, schedule, call, false),
        Event::X(call) => commit(alloc, program, rounds, schedule, call, true),
        Event::R(call) => answer(alloc, program, rounds, schedule, call),
        Event::S(_) | Event::G => Ok(schedule),
    }
}

/// Whether a call isn't done.
fn is_open(program: &Program, rounds: u32, schedule: &Schedule) -> bool
    ensures { result ≡ is_some (open_call (audited program.now rounds) (schedule_of schedule.now)) }
{
    first_open(schedule.calls.as_slice()) < program.resolved.calls.len()
}

/// Returns the number of the first call that isn't done.
fn first_open(calls: &[Live]) -> usize
    ensures { result ≡ first_open 0 (map live_of calls.now) }
{
    for call in 0..calls.len() {
        if calls[call].reply.is_none() {
            return call;
        }
    }
    calls.len()
}

/// Returns copies of rounds.
fn copy_rounds(alloc: Global, rounds: &[Round]) -> Result<List<Round>, NoMemory>
    ensures { IfOk result (λ all. all ≡ rounds.now) }
{
    let mut all = List::new(alloc);
    all.append(rounds)?;
    Ok(all)
}

/// Returns the start of each call.
fn starts_of(alloc: Global, calls: &[Live]) -> Result<List<u32>, NoMemory>
    ensures { IfOk result (λ starts. starts ≡ map (λ (l : Kept). l.start) calls.now) }
{
    let mut starts = List::new(alloc);
    for call in calls {
        starts.push(call.start)?;
    }
    Ok(starts)
}

/// Returns the lines of calls in their places.
fn history_of(
    alloc: Global,
    calls: &[Live],
    places: &[Place],
) -> Result<List<HistoryLine>, NoMemory>
    requires { All (λ (p : APlace). p.call < length calls.now) places.now }
    ensures { IfOk result (λ history. history ≡ map (line_of calls.now) places.now) }
{
    let mut history = List::new(alloc);
    for place in places {
        let rounds = copy_rounds(alloc, calls[place.call as usize].rounds.as_slice())?;
        history.push(HistoryLine {
            commit: place.commit,
            call: place.call,
            rounds,
        })?;
    }
    Ok(history)
}

/// Returns a copy of a reply.
fn copy_reply(alloc: Global, reply: &Reply) -> Result<Reply, NoMemory>
    ensures { IfOk result (λ copy. copy ≡ reply.now) }
{
    let lines = reply.lines.copy(alloc)?;
    let end = match &reply.end {
        None => None,
        Some(end) => Some(end.copy(alloc)?),
    };
    Ok(Reply { lines, end })
}

/// Returns the replies of the calls that are done.
fn replies_of(alloc: Global, calls: &[Live]) -> Result<List<Reply>, NoMemory>
    ensures { IfOk result (λ replies. replies ≡ replies_in calls.now) }
{
    let mut replies = List::new(alloc);
    for call in calls {
        if let Some(reply) = &call.reply {
            replies.push(copy_reply(alloc, reply)?)?;
        }
    }
    Ok(replies)
}

/// Returns the outcome of a lawful journal.
fn outcome_of(
    alloc: Global,
    program: &Program,
    rounds: u32,
    schedule: Schedule,
    events: &[Event],
) -> Result<Outcome, NoMemory>
    requires schedule { IsSchedule program.now.resolved.tables (audited program.now rounds) schedule }
    requires events { schedule_of schedule ≡ reached (audited program.now rounds) events.now }
    requires shut { open_call (audited program.now rounds) (schedule_of schedule) ≡ None }
    requires few { length schedule.order < 2 ^ 32 }
    ensures { IfOk result (λ o. o ≡ outcome_of (audited program.now rounds) events.now) }
{
    let Schedule {
        order,
        answered,
        commits: _,
        calls,
        tables,
        low: _,
        due: _,
    } = schedule;
    let starts = starts_of(alloc, calls.as_slice())?;
    let places = places_of(
        alloc,
        order.as_slice(),
        starts.as_slice(),
        answered.as_slice(),
    )?;
    let history = history_of(alloc, calls.as_slice(), places.as_slice())?;
    let replies = replies_of(alloc, calls.as_slice())?;
    let mut journal = List::new(alloc);
    journal.append(events)?;
    let tables = database_of(alloc, tables)?;
    Ok(Outcome {
        replies,
        history,
        journal,
        tables,
    })
}

/// Returns the event at an index.
fn event_at(events: &[Event], i: usize) -> Event
    requires { i < length events.now }
    ensures { slice_get events.now i ≡ Some result }
{
    events[i]
}

/// Judges a journal whose events all have lines. Returns its outcome if it is lawful.
pub(crate) fn judge(
    alloc: Global,
    program: &Program,
    rounds: u32,
    events: &[Event],
) -> Result<Judged, NoMemory>
    requires whole { IsProgram program.now }
    requires lines { All (λ (e : AnEvent). has_line e ≡ true) events.now }
    requires few { length events.now < 2 ^ 31 }
    ensures comes { IfOk result (IsJudgement (audited program.now rounds) events.now) }
    ensures few { IfOk result (IsWithin (length events.now)) }
{
    let mut schedule = opening(alloc, program, rounds)?;
    for i in 0..events.len() {
        let event = event_at(events, i);
        if !allows(program, rounds, &schedule, event) {
            return Ok(Judged::Refused { n: i as u32 + 1 });
        }
        let next = advance(alloc, program, rounds, schedule, event)?;
        schedule = next;
    }
    if is_open(program, rounds, &schedule) {
        return Ok(Judged::Open);
    }
    let outcome = outcome_of(alloc, program, rounds, schedule, events)?;
    Ok(Judged::Lawful(outcome))
}
