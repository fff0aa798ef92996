//! All that is known of each call of a run.

ghost use Rattle.std.specs.Prelude.{◌≡◌, map, IfOk, OnOk};

use crate::bars::Bar;
use crate::costs::{Cost, cost_of};
use crate::fault::TextFault;
use crate::run::{End, Run};
use mv_journal::outcome::{HistoryLine, Round};
use mv_values::list::List;
use std::alloc::Global;

/// A call of a run.
#[derive(Clone, Copy)]
pub struct Call<'a> {
    pub bar: Bar,
    pub end: End<'a>,
    /// Its procedure. It's empty where no script tells it.
    pub name: &'a [u8],
    /// The number of its commit, from 1. An answered call has none.
    pub commit: Option<u32>,
    /// The number of commits before its last round.
    pub start: u32,
    pub cost: Cost,
}

impl Call<'_> {
    /// Whether it was repaired or moved.
    pub fn is_again(&self) -> bool {
        self.bar.repairs > 0 || self.bar.moves > 0
    }

    pub fn is_undone(&self) -> bool {
        matches!(self.end, End::RolledBack(_))
    }
}

/// Returns the calls of a run, by their numbers, each with its bar. Fails if the parts of the text or the script speak of
/// different calls.
pub(crate) fn calls_of<'a>(
    alloc: Global,
    run: &Run<'a>,
    bars: &[Bar],
    names: Option<&List<&'a [u8]>>,
) -> Result<List<Call<'a>>, TextFault>
    ensures { IfOk result (λ calls. map (λ call. call.bar) calls ≡ bars.now) }
{
    if run.ends.len() != bars.len() {
        return Err(TextFault::Line(run.history_at));
    }
    if run.history.len() != bars.len() {
        return Err(TextFault::Line(run.journal_at));
    }
    let mut calls = List::new(alloc);
    for number in 0..bars.len() {
        let end = run.ends.as_slice()[number];
        calls.push(begun(&bars[number], end, name_at(names, number)))?;
    }
    for (before, line) in run.history.as_slice().iter().enumerate() {
        let place = run.history_at.saturating_add(before).saturating_add(1);
        note_line(&mut calls, place, line)?;
    }
    Ok(calls)
}

/// Returns a call before its line is known.
fn begun<'a>(bar: &Bar, end: End<'a>, name: &'a [u8]) -> Call<'a>
    ensures { result.bar ≡ bar.now }
{
    Call {
        bar: *bar,
        end,
        name,
        commit: None,
        start: 0,
        cost: Cost::NONE,
    }
}

/// Returns the name of the procedure of a call. It's empty where no script tells it.
fn name_at<'a>(names: Option<&List<&'a [u8]>>, number: usize) -> &'a [u8] {
    let Some(names) = names else {
        return b"";
    };
    match names.as_slice().get(number) {
        Some(name) => *name,
        None => b"",
    }
}

/// Returns the start of the last of these rounds.
fn last_start(rounds: &[Round]) -> u32 {
    match rounds.last() {
        Some(round) => round.start,
        None => 0,
    }
}

/// Notes a line of the history, and its cost, at its call. The line is at this place.
fn note_line(calls: &mut List<Call>, place: usize, line: &HistoryLine) -> Result<(), TextFault>
    ensures { OnOk result (map (λ call. call.bar) calls.new ≡ map (λ call. call.bar) calls.old) }
{
    let at = line.call as usize;
    let Some(call) = calls.as_slice().get(at) else {
        return Err(TextFault::Line(place));
    };
    let call = *call;
    if call.cost.rounds != 0 {
        return Err(TextFault::Line(place));
    }
    let noted = Call {
        commit: line.commit,
        start: last_start(line.rounds.as_slice()),
        cost: cost_of(line.rounds.as_slice()),
        ..call
    };
    calls.set(at, noted);
    Ok(())
}
