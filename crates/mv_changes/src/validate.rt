//! Validation: the first record of a call that a commit after its start hits.

ghost use Rattle.std.specs.Prelude.{◌≡◌, ◌<◌, ◌≤◌, ◌+◌, ◌-◌, ℕ, [], All, drop, length, IfSome};
ghost use Rattle.mv_history.specs.Hits.{first_hit};
ghost use Rattle.mv_changes.specs.Admitting.{AreAdmitted, AllAdmitted};
ghost use Rattle.mv_changes.specs.Commits.{changes_in, AreNumbered};
ghost use Rattle.mv_undo.specs.Owning.{HasWritesOf};
ghost use Rattle.mv_changes.specs.Hitting.{first_record, records_before};

use crate::changes::Changes;
use crate::hit::any_hit;
use crate::recent::{Committed, Recent};
use mv_history::change::Hit;
use mv_log::records::Records;
use mv_undo::undo::Undo;

/// Returns the number of the first record that one of a commit's changes hits.
fn first_record(records: &Records<'_>, undo: &Undo<'_>, changes: &Changes) -> Option<usize>
    requires { HasWritesOf undo.now records.now }
    ensures first { All (AreAdmitted changes.now) records.now → result ≡ first_record changes.now [] records.now }
    ensures within { IfSome result (λ number. number < length records.now) }
{
    for number in 0..records.len() {
        if any_hit(&records.get(number), number, undo, changes) {
            return Some(number);
        }
    }
    None
}

/// Returns the records before the one that is hit, or all of them.
#[tactic(auto, using(std::proofs::lemmas::List::take_all))]
fn before<'a>(records: &Records<'a>, hit: Option<Hit>) -> Records<'a>
    ensures { result ≡ records_before hit records.now }
{
    match hit {
        Some(hit) => records.first(hit.number),
        None => records.first(records.len()),
    }
}

/// Validates the records of a call against the commits after its start: returns the least record that a change hits,
/// and the least commit that hits it. `undo` has the writes of the records, whose predicates match rows only under keys
/// that they admit. Allocates nothing. Costs for each commit and each predicate of the records a search in the commit's
/// changes, and a trial of the key of each of those of the predicate's table.
pub fn validate(records: &Records<'_>, undo: &Undo<'_>, since: &[Committed]) -> Option<Hit>
    requires { HasWritesOf undo.now records.now }
    ensures { (number : ℕ) → AreNumbered number since.now → AllAdmitted (changes_in since.now) records.now → result ≡ first_hit number (changes_in since.now) [] records.now }
{
    let mut first: Option<Hit> = None;
    for committed in since {
        if let Some(number) = first_record(&before(records, first), undo, &committed.changes) {
            first = Some(Hit {
                number,
                commit: committed.commit,
            });
        }
    }
    first
}

impl Recent {
    /// Validates the records of a call that started after `start` commits: returns the least record that a change of a
    /// later commit hits, and the least commit that hits it. `undo` has the writes of the records, whose predicates match
    /// rows only under keys that they admit. `start` may not be below the `low` of the last `trim`. Allocates nothing.
    /// Costs what `validate` does for these commits.
    pub fn first_hit(&self, start: u32, records: &Records<'_>, undo: &Undo<'_>) -> Option<Hit>
        requires start { self.now.low ≤ start }
        requires writes { HasWritesOf undo.now records.now }
        ensures { AllAdmitted (drop (start - self.now.low) self.now.commits) records.now → result ≡ first_hit (start + 1) (drop (start - self.now.low) self.now.commits) [] records.now }
    {
        validate(records, undo, self.since(start))
    }
}
