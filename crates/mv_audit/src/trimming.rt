//! Drops changes of old commits.

ghost use Rattle.std.specs.Prelude.{◌≡◌, ◌≤◌, ℕ, None, Some, length, drop, slice_get};
ghost use Rattle.mv_audit.specs.declared.schedule.Live.{Live as Kept};
ghost use Rattle.mv_audit.specs.Schedules.{IsTrimmed};

use crate::schedule::{Live, Schedule};
use mv_history::change::Change;
use mv_values::list::List;
use std::alloc::Global;

/// Returns the start of a live call if it is less than this number.
fn lesser(live: &Live, least: usize) -> usize
    ensures within { result ≤ least }
    ensures live { live.now.reply ≡ None → result ≤ live.now.start }
{
    match live.reply {
        Some(_) => least,
        None => {
            if (live.start as usize) < least {
                live.start as usize
            } else {
                least
            }
        }
    }
}

/// Returns the least start of the live calls, or the number of commits if no call is live.
fn oldest_start(calls: &[Live], made: usize) -> usize
    ensures within { result ≤ made }
    ensures least { (c : ℕ) (l : Kept) → slice_get calls.now c ≡ Some l → l.reply ≡ None → result ≤ l.start }
{
    let mut least = made;
    for live in calls {
        least = lesser(live, least);
    }
    least
}

/// Drops the changes of these commits.
fn forget(alloc: Global, commits: &mut List<List<Change>>, from: usize, to: usize)
    requires { to ≤ length commits.old }
    ensures many { length commits.new ≡ length commits.old }
    ensures later { drop to commits.new ≡ drop to commits.old }
{
    for at in from..to {
        commits.set(at, List::new(alloc));
    }
}

/// Drops the changes of commits that no live call needs, from time to time.
pub(crate) fn trimmed(alloc: Global, schedule: Schedule) -> Schedule
    ensures { IsTrimmed schedule result }
{
    let mut schedule = schedule;
    let made = schedule.commits.len();
    if made < schedule.due {
        return schedule;
    }
    let least = oldest_start(schedule.calls.as_slice(), made);
    if least < schedule.low {
        return schedule;
    }
    forget(alloc, &mut schedule.commits, schedule.low, least);
    schedule.low = least;
    schedule.due = made.saturating_add(64 + schedule.calls.len() / 16);
    schedule
}
