//! The calls of a run in the order of the history.

ghost use Rattle.std.specs.Prelude.{◌≡◌, ◌<◌, ◌≤◌, ◌^◌, All, IfOk, length, map};
ghost use Rattle.mv_lawful.specs.Places.{start_in, places};
ghost use Rattle.mv_core.specs.declared.progress.Progress.{Progress as Kept};
ghost use Rattle.mv_core.specs.Calls.{live_of, line_of, schedule_with};

use crate::progress::Progress;
use mv_journal::outcome::HistoryLine;
use mv_lawful::places::{Place, places_of};
use mv_values::list::List;
use mv_values::memory::NoMemory;
use std::alloc::Global;

/// Returns the start of each call.
fn starts_of(alloc: Global, calls: &[Progress]) -> Result<List<u32>, NoMemory>
    ensures { IfOk result (λ starts. starts ≡ map (λ (p : Kept). p.start) calls.now) }
{
    let mut starts = List::new(alloc);
    for call in calls {
        starts.push(call.start)?;
    }
    Ok(starts)
}

/// Returns the line of a call in its place.
fn line_of(alloc: Global, calls: &[Progress], place: Place) -> Result<HistoryLine, NoMemory>
    requires { place.call < length calls.now }
    ensures { IfOk result (λ line. line ≡ line_of calls.now place) }
{
    let rounds = calls[place.call as usize].copy_rounds(alloc)?;
    Ok(HistoryLine {
        commit: place.commit,
        call: place.call,
        rounds,
    })
}

/// Returns the calls that have committed or were answered, in the order of the history.
pub(crate) fn history_of(
    alloc: Global,
    calls: &[Progress],
    order: &[u32],
    answered: &[u32],
) -> Result<List<HistoryLine>, NoMemory>
    requires few { length order.now < 2 ^ 32 }
    requires order { All (λ c. c < length calls.now) order.now }
    requires answered { All (λ c. c < length calls.now) answered.now }
    requires past { All (λ c. start_in (map live_of calls.now) c ≤ length order.now) answered.now }
    ensures { IfOk result (λ history. history ≡ map (line_of calls.now) (places (schedule_with calls.now order.now answered.now))) }
{
    let starts = starts_of(alloc, calls)?;
    let places = places_of(alloc, order, starts.as_slice(), answered)?;
    let mut history = List::new(alloc);
    for place in places.as_slice() {
        history.push(line_of(alloc, calls, *place)?)?;
    }
    Ok(history)
}
