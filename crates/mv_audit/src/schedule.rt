//! The state of a journal under audit, and which events it allows.

ghost use Rattle.std.specs.Prelude.{◌≡◌, ◌==◌, ◌-◌, ◌≤◌, ◌&&◌, ℕ, not, nat_lt, [], true, false, IfSome, IfNone, length, drop, slice_get};
ghost use Rattle.std.specs.Option.{is_some};
ghost use Rattle.mv_journal.specs.declared.event.Event.TheVariants as an;
ghost use Rattle.mv_history.specs.Hits.{first_hit};
ghost use Rattle.mv_lawful.specs.Lawful.{refusal};
ghost use Rattle.mv_lawful.specs.Outcomes.{has_line};
ghost use Rattle.mv_report.specs.History.{is_read_only, reads_by};
ghost use Rattle.mv_audit.specs.declared.schedule.Live.{Live as Kept};
ghost use Rattle.mv_audit.specs.Schedules.{audited, schedule_of, IsLive, IsSchedule};

use crate::hit::is_hit;
use mv_catalog::resolved::Program;
use mv_history::change::Change;
use mv_journal::event::Event;
use mv_journal::outcome::Round;
use mv_record::record::Record;
use mv_table::table::Tables;
use mv_values::calls::Reply;
use mv_values::list::List;

/// A call that has begun.
#[derive(Drop)]
pub(crate) struct Live {
    /// The number of commits before its last round.
    pub start: u32,
    /// The records of its full run at its start, until it is done.
    pub records: List<Record>,
    /// The reply of this run, until it is done.
    pub given: Reply,
    pub rounds: List<Round>,
    /// Its reply, after it has committed or was answered.
    pub reply: Option<Reply>,
}

/// What is kept of the events so far.
#[derive(Drop)]
pub(crate) struct Schedule {
    /// The calls that have committed, in order.
    pub order: List<u32>,
    /// The calls that were answered, in order.
    pub answered: List<u32>,
    /// The changes of each commit. Those of the first `low` commits are gone.
    pub commits: List<List<Change>>,
    /// The calls that have begun, by number.
    pub calls: List<Live>,
    /// The tables after all commits.
    pub tables: Tables,
    /// No live call starts before so many commits.
    pub low: usize,
    /// After so many commits old changes are dropped again.
    pub due: usize,
}

// Which events are allowed

/// Returns the call with this number, if it is live.
fn live_at(schedule: &Schedule, call: u32) -> Option<&Live>
    ensures found { IfSome result (λ l. IsLive schedule.now call l.now) }
    ensures none { IfNone result ((l : Kept) → IsLive schedule.now call l → ⊥) }
{
    match schedule.calls.as_slice().get(call as usize) {
        Some(live) => match live.reply {
            None => Some(live),
            Some(_) => None,
        },
        None => None,
    }
}

/// Whether a commit after its start hits a record of the call.
fn is_hit_by(schedule: &Schedule, live: &Live) -> bool
    requires { live.now.start ≤ length schedule.now.commits }
    ensures { (n : ℕ) → result ≡ is_some (first_hit n (drop live.now.start schedule.now.commits) [] live.now.records) }
{
    is_hit(
        &schedule.commits.as_slice()[live.start as usize..],
        live.records.as_slice(),
    )
}

/// Whether the call may be repaired or moved once more.
fn has_round(live: &Live, rounds: u32) -> bool
    ensures { result ≡ nat_lt (length live.now.rounds - 1) rounds }
{
    live.rounds.len().saturating_sub(1) < rounds as usize
}

/// Whether both hold.
fn both(a: bool, b: bool) -> bool
    ensures { result ≡ (a && b) }
{
    a && b
}

/// Whether this is the next call that begins.
fn is_next(program: &Program, schedule: &Schedule, call: u32) -> bool
    ensures { result ≡ ((call == length schedule.now.calls) && nat_lt call (length program.now.resolved.calls)) }
{
    let calls = schedule.calls.len();
    let all = program.resolved.calls.len();
    both(call as usize == calls, (call as usize) < all)
}

/// Whether a call is of a READ ONLY procedure.
fn is_read_only(program: &Program, call: u32) -> bool
    ensures { result ≡ is_read_only program.now call }
{
    match program.resolved.calls.as_slice().get(call as usize) {
        None => false,
        Some(call) => reads_only(program, call.procedure),
    }
}

/// Whether the procedure with this number is READ ONLY.
fn reads_only(program: &Program, procedure: u16) -> bool
    ensures { result ≡ reads_by (slice_get program.now.resolved.procedures procedure) }
{
    match program
        .resolved
        .procedures
        .as_slice()
        .get(procedure as usize)
    {
        None => false,
        Some(procedure) => procedure.read_only,
    }
}

/// Returns the call with this number, if it is live and not read only.
fn writer_at<'a>(program: &Program, schedule: &'a Schedule, call: u32) -> Option<&'a Live>
    ensures found { IfSome result (λ l. IsLive schedule.now call l.now) }
    ensures writes { IfSome result (λ l. is_read_only program.now call ≡ false) }
    ensures none { IfNone result ((l : Kept) → IsLive schedule.now call l → is_read_only program.now call ≡ false → ⊥) }
{
    if is_read_only(program, call) {
        return None;
    }
    live_at(schedule, call)
}

/// Whether a call may be repaired.
fn may_repair(program: &Program, rounds: u32, schedule: &Schedule, call: u32) -> bool
    requires { IsSchedule program.now.resolved.tables (audited program.now rounds) schedule.now }
    ensures { result ≡ not (is_some (refusal (audited program.now rounds) (schedule_of schedule.now) (an.A call))) }
{
    match writer_at(program, schedule, call) {
        None => false,
        Some(live) => both(is_hit_by(schedule, live), has_round(live, rounds)),
    }
}

/// Whether a call may be moved.
fn may_move(program: &Program, rounds: u32, schedule: &Schedule, call: u32) -> bool
    requires { IsSchedule program.now.resolved.tables (audited program.now rounds) schedule.now }
    ensures { result ≡ not (is_some (refusal (audited program.now rounds) (schedule_of schedule.now) (an.M call))) }
{
    match live_at(schedule, call) {
        None => false,
        Some(_) => true,
    }
}

/// Whether a call may commit.
fn may_commit(program: &Program, rounds: u32, schedule: &Schedule, call: u32) -> bool
    requires { IsSchedule program.now.resolved.tables (audited program.now rounds) schedule.now }
    ensures { result ≡ not (is_some (refusal (audited program.now rounds) (schedule_of schedule.now) (an.C call))) }
{
    match writer_at(program, schedule, call) {
        None => false,
        Some(live) => !is_hit_by(schedule, live),
    }
}

/// Whether a call may be repaired and commit in one step.
fn may_decide(program: &Program, rounds: u32, schedule: &Schedule, call: u32) -> bool
    requires { IsSchedule program.now.resolved.tables (audited program.now rounds) schedule.now }
    ensures { result ≡ not (is_some (refusal (audited program.now rounds) (schedule_of schedule.now) (an.X call))) }
{
    match writer_at(program, schedule, call) {
        None => false,
        Some(live) => both(is_hit_by(schedule, live), !has_round(live, rounds)),
    }
}

/// Whether a call may be answered.
fn may_answer(program: &Program, rounds: u32, schedule: &Schedule, call: u32) -> bool
    requires { IsSchedule program.now.resolved.tables (audited program.now rounds) schedule.now }
    ensures { result ≡ not (is_some (refusal (audited program.now rounds) (schedule_of schedule.now) (an.R call))) }
{
    match live_at(schedule, call) {
        None => false,
        Some(_) => is_read_only(program, call),
    }
}

/// Whether the law of journals allows an event that has a line.
pub(crate) fn allows(program: &Program, rounds: u32, schedule: &Schedule, event: Event) -> bool
    requires schedule { IsSchedule program.now.resolved.tables (audited program.now rounds) schedule.now }
    requires line { has_line event ≡ true }
    ensures { result ≡ not (is_some (refusal (audited program.now rounds) (schedule_of schedule.now) event)) }
{
    match event {
        Event::B(call) => is_next(program, schedule, call),
        Event::A(call) => may_repair(program, rounds, schedule, call),
        Event::M(call) => may_move(program, rounds, schedule, call),
        Event::C(call) => may_commit(program, rounds, schedule, call),
        Event::X(call) => may_decide(program, rounds, schedule, call),
        Event::R(call) => may_answer(program, rounds, schedule, call),
        Event::S(_) | Event::G => false,
    }
}
