//! Which records of the old run a change hits.

ghost use Rattle.std.specs.Prelude.{◌≡◌, [], All, IfOk};
ghost use Rattle.mv_undo.specs.Owning.{earlier, HasWritesOf};
ghost use Rattle.mv_history.specs.Hits.{any_hits};
ghost use Rattle.mv_changes.specs.Admitting.{AreAdmitted};
ghost use Rattle.mv_repair.specs.Repairing.{changes_since};
ghost use Rattle.mv_repair.specs.Walking.{hits_in, is_hit_by, with_writes};

use mv_changes::changes::Changes;
use mv_changes::hit::any_hit;
use mv_changes::recent::Committed;
use mv_log::record_ref::RecordRef;
use mv_log::records::Records;
use mv_undo::undo::Undo;
use mv_values::list::List;
use mv_values::memory::NoMemory;
use std::alloc::Global;

/// Whether a commit hits the record with this number, whose predicates match rows only under keys that they admit.
fn commit_hits(record: &RecordRef<'_>, number: usize, undo: &Undo<'_>, changes: &Changes) -> bool
    requires { AreAdmitted changes.now record.now }
    ensures { result ≡ any_hits changes.now (with_writes (earlier number undo.now)) record.now }
{
    any_hit(record, number, undo, changes)
}

/// Whether one of the commits hits the record with this number, whose predicates match rows only under keys that they
/// admit.
fn is_hit(record: &RecordRef<'_>, number: usize, undo: &Undo<'_>, since: &[Committed]) -> bool
    requires { All (λ c. AreAdmitted c.changes record.now) since.now }
    ensures { result ≡ is_hit_by (earlier number undo.now) record.now since.now }
{
    for committed in since {
        if commit_hits(record, number, undo, &committed.changes) {
            return true;
        }
    }
    false
}

/// Returns for each record of a call whether one of the commits hits it. `undo` has the writes of the records, whose
/// predicates match rows only under keys that they admit.
pub(crate) fn hits_of(
    alloc: Global,
    records: &Records<'_>,
    undo: &Undo<'_>,
    since: &[Committed],
) -> Result<List<bool>, NoMemory>
    requires writes { HasWritesOf undo.now records.now }
    requires admitted { All (AreAdmitted (changes_since since.now)) records.now }
    ensures { IfOk result (λ flags. flags ≡ hits_in (changes_since since.now) [] records.now) }
{
    let mut flags = List::with_room(alloc, records.len())?;
    for number in 0..records.len() {
        flags.push(is_hit(&records.get(number), number, undo, since))?;
    }
    Ok(flags)
}
