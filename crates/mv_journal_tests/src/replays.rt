//! The texts of random journals.

use crate::alone::run_commits;
use crate::journals::{Case, any_case};
use crate::rounds::history_of;
use mv_accept::accept::accept;
use mv_journal::event::{Event, write_event};
use mv_journal::outcome::Outcome;
use mv_report::render::render;
use mv_top::answer::replay;
use mv_values::calls::Options;
use mv_values::list::List;
use mv_values::memory::NoMemory;
use std::alloc::Global;
use std::str;
use std::test::Fail;

/// Returns the text of a script and its journal, put together from calls that run alone.
fn plain_text(alloc: Global, script: &[u8], events: List<Event>) -> Result<List<u8>, Fail> {
    let mut program = accept(alloc, script).or(Err("refused"))?;
    let alone = run_commits(alloc, &mut program, events.as_slice())?;
    let history = history_of(alloc, alone.points.as_slice(), events.as_slice())?;
    let outcome = Outcome {
        replies: alone.replies,
        history,
        journal: events,
        tables: program.opening,
    };
    Ok(render(alloc, &program.resolved.tables, &outcome)?)
}

/// Returns the lines of events.
fn lines_of(alloc: Global, events: &[Event]) -> Result<List<u8>, NoMemory> {
    let mut lines = List::new(alloc);
    for event in events {
        write_event(*event, &mut lines)?;
        lines.push(b'\n')?;
    }
    Ok(lines)
}

/// Joins texts.
fn joined(alloc: Global, parts: &[&[u8]]) -> Result<List<u8>, NoMemory> {
    let mut text = List::new(alloc);
    for part in parts {
        text.append(part)?;
    }
    Ok(text)
}

/// Checks that `replay` makes this text of an input.
fn replays(alloc: Global, options: Options, input: &[u8], want: &[u8]) -> Result<(), Fail> {
    let got = replay(alloc, options.rounds, options.horizon, input).or(Err("refused"))?;
    if got.as_slice() == want {
        return Ok(());
    }
    let case = joined(alloc, &[input, got.as_slice(), b"in place of\n", want])?;
    let case = str::from_utf8(case.as_slice()).or(Err("no text"))?;
    Err(String::from_str(alloc, case)?.into())
}

/// Checks a random journal of a random script, and returns its lines.
fn goes_right(alloc: Global, seed: u64) -> Result<List<u8>, Fail> {
    let Case {
        script,
        options,
        events,
    } = any_case(alloc, seed)?;
    let script = script.as_slice();
    let lines = lines_of(alloc, events.as_slice())?;
    let want = plain_text(alloc, script, events)?;
    let input = joined(alloc, &[script, b"JOURNAL <<\n", lines.as_slice(), b">>\n"])?;
    replays(alloc, options, input.as_slice(), want.as_slice())?;
    Ok(lines)
}

#[test]
fn random_journals_give_the_text_of_calls_alone(rt: HostRuntime) -> Result<(), Fail> {
    let mut lines = List::new(rt.alloc());
    for seed in 0..200 {
        lines.append(goes_right(rt.alloc(), seed)?.as_slice())?;
    }
    for letter in b"BSAMCXRG" {
        if !lines.as_slice().contains(letter) {
            return Err("a kind of event is missing".into());
        }
    }
    Ok(())
}
