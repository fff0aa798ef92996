//! The lines of a history.

use mv_journal::outcome::{HistoryLine, Mark, Round};
use mv_values::list::List;
use mv_values::memory::NoMemory;
use std::alloc::Global;
use std::str;

/// Reads the line of a call: `<place> <call> starts <start>,.. runs <count>+..`. The place is the number of the call's
/// commit, or `r` and its last start. Returns none if the line is another.
pub(crate) fn line_in(alloc: Global, line: &[u8]) -> Result<Option<HistoryLine>, NoMemory> {
    let Some(parts) = parts_of(line) else {
        return Ok(None);
    };
    let rounds = rounds_in(alloc, parts.starts, parts.counts)?;
    if rounds.len() != parts.starts.split(',').count() {
        return Ok(None);
    }
    Ok(Some(HistoryLine {
        commit: parts.commit,
        call: parts.call,
        rounds,
    }))
}

/// The parts of the line of a call.
#[derive(Clone, Copy)]
struct Parts<'a> {
    commit: Option<u32>,
    call: u32,
    starts: &'a str,
    counts: &'a str,
}

fn parts_of(line: &[u8]) -> Option<Parts<'_>> {
    let line = str::from_utf8(line).ok()?;
    let (place, rest) = line.split_once(' ')?;
    let (call, rest) = rest.split_once(" starts ")?;
    let (starts, counts) = rest.split_once(" runs ")?;
    let call = call.parse::<u32>().ok()?;
    let commit = if place.starts_with('r') {
        None
    } else {
        Some(place.parse::<u32>().ok()?)
    };
    Some(Parts {
        commit,
        call,
        starts,
        counts,
    })
}

/// Reads rounds, up to the first that isn't one.
fn rounds_in(alloc: Global, starts: &str, counts: &str) -> Result<List<Round>, NoMemory> {
    let mut rounds = List::new(alloc);
    for (start, count) in starts.split(',').zip(counts.split('+')) {
        match round_in(start, count) {
            Some(round) => rounds.push(round)?,
            None => return Ok(rounds),
        }
    }
    Ok(rounds)
}

fn round_in(start: &str, count: &str) -> Option<Round> {
    let start = start.parse::<u32>().ok()?;
    if count == "-" {
        return Some(Round {
            start,
            count: None,
            mark: Mark::Plain,
        });
    }
    let (digits, mark) = if let Some(digits) = count.strip_suffix('x') {
        (digits, Mark::Exclusive)
    } else if let Some(digits) = count.strip_suffix('m') {
        (digits, Mark::Moved)
    } else {
        (count, Mark::Plain)
    };
    let count = digits.parse::<usize>().ok()?;
    Some(Round {
        start,
        count: Some(count),
        mark,
    })
}
