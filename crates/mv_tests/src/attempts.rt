//! A call after the commit of another one: which record is hit, by which commit, and what its rounds execute.

use crate::whole::joined;
use mv_accept::accept::accept;
use mv_cases::accounts::{ADD, OTHERS, TRANSFERS};
use mv_cases::ensure::ensure;
use mv_core::drive::{DriveFault, drive};
use mv_core::engine::{Attempt, Core};
use mv_journal::event::Event;
use mv_top::script::{CompiledProgram, compile_program};
use mv_values::calls::Options;
use mv_values::list::List;
use mv_values::memory::NoMemory;
use std::alloc::Global;
use std::test::Fail;

/// A table of two marks.
const MARKS: &str = "CREATE TABLE m (k INT, d INT, e INT, PRIMARY KEY (k)) VALUES (1, 0, 0);
";

/// Procedures that set a mark each. The second counts the rows that have both.
const MARKING: &str = "CREATE PROCEDURE se () BEGIN UPDATE m SET e = 1 WHERE k = 1; END;
CREATE PROCEDURE sd () DECLARE :n = 0; BEGIN
  UPDATE m SET d = 1 WHERE k = 1;
  SELECT COUNT(*) INTO :n FROM m WHERE d = 1 AND e = 1;
  PRINT :n;  END;
";

/// The first events of a journal, the number of statements of call 1 after them, and the last events.
type Steps = (&'static [Event], u32, &'static [Event]);

/// Returns the events of a journal.
fn listed(alloc: Global, steps: &Steps) -> Result<List<Event>, NoMemory> {
    let (first, count, last) = *steps;
    let mut events = List::new(alloc);
    events.append(first)?;
    for _ in 0..count {
        events.push(Event::S(1))?;
    }
    events.append(last)?;
    Ok(events)
}

/// Both calls begin, and call 0 commits.
const OVERTAKEN: &[Event] = &[Event::B(0), Event::B(1), Event::C(0)];

/// Both calls begin, and call 1 executes a statement before call 0 commits.
const OVERTAKEN_LATER: &[Event] = &[Event::B(0), Event::B(1), Event::S(1), Event::C(0)];

/// What a case shows, the procedures and the calls of its script, the events before the attempt, and the record of call 1
/// that commit 1 hits.
type Case = (&'static str, [&'static str; 3], Steps, usize);

const CASES: &[Case] = &[
    (
        "a row that was read has changed",
        [ADD, OTHERS, "CALL add(1, 5); CALL add(1, 7);"],
        (OVERTAKEN, 4, &[]),
        0,
    ),
    (
        "a new row passes the test of a count",
        [ADD, OTHERS, "CALL put(7, 100); CALL rich();"],
        (OVERTAKEN_LATER, 1, &[]),
        0,
    ),
    (
        "the call's own write makes a changed row count",
        [MARKS, MARKING, "CALL se(); CALL sd();"],
        (OVERTAKEN, 2, &[]),
        1,
    ),
];

/// Returns a core after these events of the script. Returns `None` if one is refused, or if call 1 isn't the first open
/// call.
fn core_after(alloc: Global, script: &str, events: &[Event]) -> Result<Option<Core>, NoMemory> {
    let Ok(program) = accept(alloc, script.as_bytes()) else {
        return Ok(None);
    };
    let options = Options {
        rounds: 3,
        horizon: None,
    };
    let CompiledProgram { script, .. } = compile_program(alloc, program, options)?;
    let mut core = Core::new(alloc, script)?;
    if events.len() > 100 {
        return Ok(None);
    }
    let Err(DriveFault::Open { call: 1 }) = drive(alloc, &mut core, events) else {
        return Ok(None);
    };
    Ok(Some(core))
}

/// Returns what an attempt to commit call 1 of the script says after these events. Returns `None` if there is no such
/// attempt, or if the call is read only.
fn attempt_after(
    alloc: Global,
    script: &str,
    events: &[Event],
) -> Result<Option<Attempt>, NoMemory> {
    let Some(mut core) = core_after(alloc, script, events)? else {
        return Ok(None);
    };
    let Some(_rounds) = core.rounds(1) else {
        return Ok(None);
    };
    if core.is_read_only(1) {
        return Ok(None);
    }
    Ok(Some(core.attempt(alloc, 1)?))
}

fn hits(alloc: Global, parts: &[&str], steps: &Steps, record: usize) -> Result<bool, Fail> {
    let script = joined(alloc, parts)?;
    let events = listed(alloc, steps)?;
    match attempt_after(alloc, script.as_str(), events.as_slice())? {
        Some(Attempt::Hit { number, commit }) => Ok(number == record && commit == 1),
        _ => Ok(false),
    }
}

#[test]
fn an_attempt_names_the_first_record_that_is_hit(rt: HostRuntime) -> Result<(), Fail> {
    let alloc = rt.alloc();
    for (what, parts, steps, record) in CASES {
        let holds = hits(alloc, parts, steps, *record)?;
        ensure(alloc, holds, what)?;
    }
    Ok(())
}

/// What a case shows, the events of two transfers that share one account, and the number of records that the last round
/// of call 1 has executed. There is none while a statement of the call is left.
type Round = (&'static str, Steps, Option<usize>);

const ROUNDS: &[Round] = &[
    ("no statement has run", (OVERTAKEN, 0, &[]), None),
    ("statements are left", (OVERTAKEN, 4, &[]), None),
    ("all statements have run", (OVERTAKEN, 5, &[]), Some(5)),
    (
        "a repair executes what depends on the commit",
        (OVERTAKEN, 5, &[Event::A(1)]),
        Some(1),
    ),
    (
        "a repair executes the rest of the call first",
        (OVERTAKEN, 0, &[Event::A(1)]),
        Some(1),
    ),
    (
        "a move executes all statements",
        (OVERTAKEN, 0, &[Event::M(1)]),
        Some(5),
    ),
];

/// Returns the number of records that the last round of call 1 of the script has executed after these events. Returns
/// `None` if a statement of the call is left.
fn executed_after(
    alloc: Global,
    script: &str,
    events: &[Event],
) -> Result<Option<usize>, NoMemory> {
    let Some(core) = core_after(alloc, script, events)? else {
        return Ok(None);
    };
    let Some(_rounds) = core.rounds(1) else {
        return Ok(None);
    };
    if core.ended(1) {
        return Ok(Some(core.executed(1)));
    }
    Ok(None)
}

#[test]
fn a_round_has_its_number_once_its_statements_have_run(rt: HostRuntime) -> Result<(), Fail> {
    let alloc = rt.alloc();
    let script = joined(alloc, &[ADD, OTHERS, TRANSFERS])?;
    for (what, steps, executed) in ROUNDS {
        let events = listed(alloc, steps)?;
        let holds = executed_after(alloc, script.as_str(), events.as_slice())? == *executed;
        ensure(alloc, holds, what)?;
    }
    Ok(())
}
