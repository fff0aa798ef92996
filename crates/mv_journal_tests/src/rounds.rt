//! The rounds of calls, with the numbers of records that full runs give them.

use crate::hits::{Point, records_at};
use crate::kept::{TwoRuns, executed, twins_of};
use mv_journal::event::Event;
use mv_journal::outcome::{HistoryLine, Mark, Round};
use mv_values::list::List;
use mv_values::memory::NoMemory;
use std::alloc::Global;

/// A call, and its rounds up to an event. So many calls have committed up to it.
#[derive(Drop)]
struct Story<'p> {
    points: &'p [Point],
    call: u32,
    commits: u32,
    rounds: List<Round>,
}

/// Adds a round after all commits. It begins with the records of the run after so many commits, or with none.
fn add_round(
    alloc: Global,
    story: &mut Story<'_>,
    from: Option<u32>,
    mark: Mark,
) -> Result<(), NoMemory> {
    let (points, call, start) = (story.points, story.call, story.commits);
    let Some(new) = records_at(points, start, call) else {
        return Ok(());
    };
    let old = match from {
        Some(from) => records_at(points, from, call),
        None => None,
    };
    let runs = TwoRuns {
        old,
        new,
        points,
        from: from.unwrap_or(start),
        to: start,
    };
    let twins = twins_of(alloc, &runs)?;
    let count = Some(executed(alloc, twins.as_slice())?.len());
    story.rounds.push(Round { start, count, mark })
}

/// Returns the start of the last round.
fn last_start(story: &Story<'_>) -> Option<u32> {
    let last = story.rounds.as_slice().last()?;
    Some(last.start)
}

/// Adds a full execution. The round before it has no number.
fn add_move(alloc: Global, story: &mut Story<'_>) -> Result<(), NoMemory> {
    if let Some(last) = story.rounds.pop() {
        story.rounds.push(Round {
            count: None,
            ..last
        })?;
    }
    add_round(alloc, story, None, Mark::Moved)
}

/// Adds what an event of the call means for its rounds.
fn add_event(alloc: Global, story: &mut Story<'_>, event: Event) -> Result<(), NoMemory> {
    let start = last_start(story);
    match event {
        Event::B(call) if call == story.call => add_round(alloc, story, None, Mark::Plain),
        Event::A(call) if call == story.call => add_round(alloc, story, start, Mark::Plain),
        Event::X(call) if call == story.call => add_round(alloc, story, start, Mark::Exclusive),
        Event::M(call) if call == story.call => add_move(alloc, story),
        _ => Ok(()),
    }
}

/// Returns the rounds of a call.
fn rounds_of(
    alloc: Global,
    points: &[Point],
    events: &[Event],
    call: u32,
) -> Result<List<Round>, NoMemory> {
    let mut story = Story {
        points,
        call,
        commits: 0,
        rounds: List::new(alloc),
    };
    for event in events {
        add_event(alloc, &mut story, *event)?;
        if let Event::C(_) | Event::X(_) = event {
            story.commits = story.commits.saturating_add(1);
        }
    }
    Ok(story.rounds)
}

/// Whether the last of these rounds has this start.
fn is_answered_at(rounds: &[Round], start: u32) -> bool {
    match rounds.last() {
        Some(round) => round.start == start,
        None => false,
    }
}

/// Adds the calls that were answered at this start, in the order of their answers.
fn add_answered(
    alloc: Global,
    points: &[Point],
    events: &[Event],
    start: u32,
    history: &mut List<HistoryLine>,
) -> Result<(), NoMemory> {
    for event in events {
        if let Event::R(call) = event {
            let rounds = rounds_of(alloc, points, events, *call)?;
            if is_answered_at(rounds.as_slice(), start) {
                history.push(HistoryLine {
                    commit: None,
                    call: *call,
                    rounds,
                })?;
            }
        }
    }
    Ok(())
}

/// Returns the calls of events in their places, with their rounds: the commits in order, and after each commit the calls
/// that were answered at it.
pub(crate) fn history_of(
    alloc: Global,
    points: &[Point],
    events: &[Event],
) -> Result<List<HistoryLine>, NoMemory> {
    let mut history = List::new(alloc);
    let mut commits = 0u32;
    add_answered(alloc, points, events, commits, &mut history)?;
    for event in events {
        if let Event::C(call) | Event::X(call) = event {
            let rounds = rounds_of(alloc, points, events, *call)?;
            commits = commits.saturating_add(1);
            history.push(HistoryLine {
                commit: Some(commits),
                call: *call,
                rounds,
            })?;
            add_answered(alloc, points, events, commits, &mut history)?;
        }
    }
    Ok(history)
}
