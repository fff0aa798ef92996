//! The causes of a repair.

ghost use Rattle.std.specs.Prelude.{◌≡◌, ◌++◌, IfOk, OnOk, option_map, option_to_list};
ghost use Rattle.mv_why.specs.Causes.{cause_of, causes_of, changes_since};
ghost use Rattle.mv_why.specs.Laws.{AreFullRuns};
ghost use Rattle.mv_why.specs.Walking.{AreSound};

use crate::cause::{Cause, Reason};
use crate::reasons::next_reason;
use crate::run::{Runs, runs_of};
use crate::walk::Walk;
use mv_changes::recent::Committed;
use mv_log::records::Records;
use mv_values::list::List;
use mv_values::memory::NoMemory;
use std::alloc::Global;

/// Adds the cause of the record with this number, if it has a reason.
fn add(causes: &mut List<Cause>, number: usize, reason: Option<Reason>) -> Result<(), NoMemory>
    ensures { OnOk result (causes.new ≡ causes.old ++ option_to_list (option_map (cause_of number) reason)) }
{
    match reason {
        None => Ok(()),
        Some(reason) => causes.push(Cause { number, reason }),
    }
}

/// Walks along the two runs.
pub(crate) fn causes_along(alloc: Global, runs: &Runs<'_>) -> Result<List<Cause>, NoMemory>
    requires { AreSound runs.now }
    ensures { IfOk result (λ causes. causes ≡ causes_of runs.now.old.records runs.now.fresh.records runs.now.since.now) }
{
    let mut walk = Walk::new(alloc);
    let mut causes = List::new(alloc);
    for number in 0..runs.fresh.records.len() {
        let reason = next_reason(alloc, runs, &mut walk)?;
        add(&mut causes, number, reason)?;
    }
    Ok(causes)
}

/// Returns the records of the new run that a repair doesn't keep, in the order of their numbers, each with the first
/// point of the rule that it fails. Both are full runs of one call, and the commits lead from the old run's database to
/// the new one's, in the order of their numbers. Fails if memory runs out.
///
/// Each record costs a comparison of paths and of its definers. A record with a predicate also costs what `validate` does
/// for the commits, a search in the own writes, and a trial of the predicate on the writes of the earlier records of both
/// runs that aren't kept.
pub fn causes<'a>(
    alloc: Global,
    old: &Records<'a>,
    fresh: &Records<'a>,
    since: &'a [Committed],
) -> Result<List<Cause>, NoMemory>
    requires { AreFullRuns old.now fresh.now (changes_since since.now) }
    ensures { IfOk result (λ causes. causes ≡ causes_of old.now fresh.now since.now) }
{
    let runs = runs_of(alloc, old, fresh, since)?;
    causes_along(alloc, &runs)
}
