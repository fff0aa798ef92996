//! The rounds of calls.

ghost use Rattle.std.specs.Prelude.{◌≡◌, ◌≤◌, ◌<◌, ◌^◌, None, IfOk, length};
ghost use Rattle.mv_record.specs.Paths.{PathsRise};
ghost use Rattle.mv_lawful.specs.Rounds.{numbered, closed};
ghost use Rattle.mv_audit.specs.Schedules.{count_by, more_rounds, no_reply, fresh, restarted, finished, answered};

use crate::kept::executions;
use crate::schedule::Live;
use mv_history::change::Change;
use mv_journal::outcome::{Mark, Round};
use mv_record::record::Record;
use mv_values::calls::Reply;
use mv_values::list::List;
use mv_values::memory::NoMemory;
use std::alloc::Global;

/// Returns rounds with the number of the last one cleared.
fn unnumbered(rounds: List<Round>) -> Result<List<Round>, NoMemory>
    ensures { IfOk result (λ all. all ≡ numbered None rounds) }
{
    let mut all = rounds;
    let Some(last) = all.pop() else {
        return Ok(all);
    };
    all.push(Round {
        start: last.start,
        count: None,
        mark: last.mark,
    })?;
    Ok(all)
}

/// Returns the rounds before one with this mark. A move clears the number of the last one.
fn closed(rounds: List<Round>, mark: Mark) -> Result<List<Round>, NoMemory>
    ensures { IfOk result (λ all. all ≡ closed mark rounds) }
{
    match mark {
        Mark::Plain | Mark::Exclusive => Ok(rounds),
        Mark::Moved => unnumbered(rounds),
    }
}

/// Returns how many records a round with this mark executes, given those of the run before it, its own, and the commits
/// between them.
fn count_of(
    alloc: Global,
    mark: Mark,
    old: &[Record],
    new: &[Record],
    commits: &[List<Change>],
) -> Result<usize, NoMemory>
    requires old { PathsRise old.now }
    requires new { PathsRise new.now }
    ensures { IfOk result (λ n. n ≡ count_by mark old.now new.now commits.now) }
{
    match mark {
        Mark::Plain | Mark::Exclusive => executions(alloc, old, new, commits),
        Mark::Moved => Ok(new.len()),
    }
}

/// Returns the rounds of a call with one more. It begins after all commits, and leaves these records.
fn more_rounds(
    alloc: Global,
    live: Live,
    mark: Mark,
    records: &[Record],
    commits: &[List<Change>],
) -> Result<List<Round>, NoMemory>
    requires past { live.start ≤ length commits.now }
    requires few { length commits.now < 2 ^ 32 }
    requires old { PathsRise live.records }
    requires new { PathsRise records.now }
    ensures { IfOk result (λ rounds. rounds ≡ more_rounds live (length commits.now) mark records.now commits.now) }
{
    let Live {
        start,
        records: old,
        given: _,
        rounds,
        reply: _,
    } = live;
    let between = &commits[start as usize..];
    let count = count_of(alloc, mark, old.as_slice(), records, between)?;
    let mut rounds = closed(rounds, mark)?;
    rounds.push(Round {
        start: commits.len() as u32,
        count: Some(count),
        mark,
    })?;
    Ok(rounds)
}

/// Returns a reply without lines.
pub(crate) fn no_reply(alloc: Global) -> Reply
    ensures { result ≡ no_reply }
{
    Reply {
        lines: List::new(alloc),
        end: None,
    }
}

/// Returns a call that begins after this many commits. Its full run leaves these records and this reply.
pub(crate) fn fresh(
    alloc: Global,
    start: u32,
    records: List<Record>,
    reply: Reply,
) -> Result<Live, NoMemory>
    ensures { IfOk result (λ live. live ≡ fresh start records reply) }
{
    let first = Round {
        start,
        count: Some(records.len()),
        mark: Mark::Plain,
    };
    Ok(Live {
        start,
        records,
        given: reply,
        rounds: List::of(alloc, first)?,
        reply: None,
    })
}

/// Returns a call that is repaired or moved after all commits. Its full run leaves these records and this reply.
pub(crate) fn restarted(
    alloc: Global,
    live: Live,
    mark: Mark,
    records: List<Record>,
    reply: Reply,
    commits: &[List<Change>],
) -> Result<Live, NoMemory>
    requires past { live.start ≤ length commits.now }
    requires few { length commits.now < 2 ^ 32 }
    requires old { PathsRise live.records }
    requires new { PathsRise records }
    ensures { IfOk result (λ next. next ≡ restarted live mark records reply commits.now) }
{
    let rounds = more_rounds(alloc, live, mark, records.as_slice(), commits)?;
    Ok(Live {
        start: commits.len() as u32,
        records,
        given: reply,
        rounds,
        reply: None,
    })
}

/// Returns a call that commits with this reply. With `own` it does so in a round of its own, which leaves these records.
pub(crate) fn finished(
    alloc: Global,
    own: bool,
    live: Live,
    records: &[Record],
    commits: &[List<Change>],
    reply: Reply,
) -> Result<Live, NoMemory>
    requires past { live.start ≤ length commits.now }
    requires few { length commits.now < 2 ^ 32 }
    requires old { PathsRise live.records }
    requires new { PathsRise records.now }
    ensures { IfOk result (λ next. next ≡ finished own live records.now commits.now reply) }
{
    let none = List::new(alloc);
    if own {
        let rounds = more_rounds(alloc, live, Mark::Exclusive, records, commits)?;
        Ok(Live {
            start: commits.len() as u32,
            records: none,
            given: no_reply(alloc),
            rounds,
            reply: Some(reply),
        })
    } else {
        let Live {
            start,
            records: _,
            given: _,
            rounds,
            reply: _,
        } = live;
        Ok(Live {
            start,
            records: none,
            given: no_reply(alloc),
            rounds,
            reply: Some(reply),
        })
    }
}

/// Returns a call that is answered with the reply of its full run.
pub(crate) fn answered(alloc: Global, live: Live) -> Live
    ensures { result ≡ answered live }
{
    let Live {
        start,
        records: _,
        given,
        rounds,
        reply: _,
    } = live;
    Live {
        start,
        records: List::new(alloc),
        given: no_reply(alloc),
        rounds,
        reply: Some(given),
    }
}
