//! The causes of the repairs of random journals.

use crate::alone::run_commits;
use crate::hits::{Point, records_at};
use crate::journals::any_case;
use crate::kept::TwoRuns;
use crate::reasons::are_causes;
use crate::repairs::{Repair, Repaired, make_events};
use mv_accept::accept::accept;
use mv_journal::outcome::{HistoryLine, Mark, Round};
use mv_top::script::compile_program;
use mv_values::list::List;
use mv_values::memory::NoMemory;
use mv_why::cause::{Cause, Reason};
use std::alloc::Global;
use std::str;
use std::test::Fail;

/// Whether two full runs of the call on plain tables give the causes of a repair.
fn is_plain(alloc: Global, points: &[Point], repair: &Repair) -> Result<bool, NoMemory> {
    let old = records_at(points, repair.from, repair.call);
    let Some(new) = records_at(points, repair.to, repair.call) else {
        return Ok(false);
    };
    let runs = TwoRuns {
        old,
        new,
        points,
        from: repair.from,
        to: repair.to,
    };
    are_causes(alloc, &runs, repair.causes.as_slice())
}

/// Whether the round of a repair has no number, or there are so many causes.
fn has_count(rounds: &[Round], repair: &Repair) -> bool {
    for round in rounds {
        if round.start == repair.to && !matches!(round.mark, Mark::Moved) {
            return match round.count {
                Some(count) => count == repair.causes.len(),
                None => true,
            };
        }
    }
    false
}

/// Whether the history says so of a repair.
fn is_counted(history: &[HistoryLine], repair: &Repair) -> bool {
    for line in history {
        if line.call == repair.call {
            return has_count(line.rounds.as_slice(), repair);
        }
    }
    false
}

/// Returns a letter for the kind of a reason.
fn letter(cause: &Cause) -> u8 {
    match cause.reason {
        Reason::New => b'n',
        Reason::Controller { .. } => b'c',
        Reason::Reads { .. } => b'r',
        Reason::Hit { .. } => b'h',
        Reason::Touched { .. } => b't',
    }
}

/// Whether a repair has the causes that plain runs give, and as many as the history says.
fn is_right(
    alloc: Global,
    points: &[Point],
    history: &[HistoryLine],
    repair: &Repair,
) -> Result<bool, NoMemory> {
    Ok(is_counted(history, repair) && is_plain(alloc, points, repair)?)
}

/// Checks the causes of these repairs of a script, and adds the letter of each.
fn check(
    alloc: Global,
    script: &[u8],
    points: &[Point],
    repaired: &Repaired,
    letters: &mut List<u8>,
) -> Result<(), Fail> {
    for repair in repaired.repairs.as_slice() {
        if !is_right(alloc, points, repaired.history.as_slice(), repair)? {
            let script = str::from_utf8(script).or(Err("no text"))?;
            let (call, start) = (repair.call, repair.to);
            return Err(format!(in alloc; "call {call} at start {start} of\n{script}")?.into());
        }
        for cause in repair.causes.as_slice() {
            letters.push(letter(cause))?;
        }
    }
    Ok(())
}

/// Checks the causes of the repairs of a random journal, and adds the letter of each.
fn goes_right(alloc: Global, seed: u64, letters: &mut List<u8>) -> Result<(), Fail> {
    let case = any_case(alloc, seed)?;
    let (script, events) = (case.script.as_slice(), case.events.as_slice());
    let mut program = accept(alloc, script).or(Err("refused"))?;
    let alone = run_commits(alloc, &mut program, events)?;
    let program = accept(alloc, script).or(Err("refused"))?;
    let prepared = compile_program(alloc, program, case.options)?;
    let repaired = make_events(alloc, prepared.script, events)?;
    check(alloc, script, alone.points.as_slice(), &repaired, letters)
}

#[test]
fn causes_are_those_of_plain_runs(rt: HostRuntime) -> Result<(), Fail> {
    let mut letters = List::new(rt.alloc());
    for seed in 0..200 {
        goes_right(rt.alloc(), seed, &mut letters)?;
    }
    for letter in b"ncrht" {
        if !letters.as_slice().contains(letter) {
            return Err("a kind of cause is missing".into());
        }
    }
    Ok(())
}
