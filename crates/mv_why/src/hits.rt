//! The changes that hit a record.

ghost use Rattle.std.specs.Prelude.{◌≡◌, ◌≤◌, ◌++◌, [], List as Seq, All, map, take, IfOk, OnOk};
ghost use Rattle.mv_record.specs.declared.record.Record.{Record};
ghost use Rattle.mv_record.specs.Runs.{writes_in};
ghost use Rattle.mv_undo.specs.Owning.{earlier, HasWritesOf, undo_of};
ghost use Rattle.mv_why.specs.declared.cause.Reason.TheVariants.{Hit};
ghost use Rattle.mv_why.specs.Causes.{hit_in, hit};

use crate::cause::Reason;
use mv_changes::hit::hit;
use mv_changes::recent::Committed;
use mv_history::change::Change;
use mv_log::record_ref::RecordRef;
use mv_log::records::Records;
use mv_undo::own_writes::OwnWrites;
use mv_undo::undo::Undo;
use mv_values::copied::Copied;
use mv_values::list::List;
use mv_values::memory::NoMemory;
use mv_values::patch::Write;
use std::alloc::Global;

/// Adds the writes of the record with this number.
fn add_writes(
    alloc: Global,
    undo: &mut OwnWrites,
    number: usize,
    writes: &[Write],
) -> Result<(), NoMemory>
    requires { All (λ o. o.number ≤ number) undo.old }
    ensures { OnOk result (undo.new ≡ undo.old ++ undo_of number writes.now) }
{
    for write in writes {
        undo.push(number, write.copy(alloc)?)?;
    }
    Ok(())
}

/// Returns the writes of a run.
pub(crate) fn own_writes(alloc: Global, records: &Records<'_>) -> Result<OwnWrites, NoMemory>
    ensures { IfOk result (λ undo. HasWritesOf undo records.now) }
{
    let mut undo = OwnWrites::new(alloc);
    for number in 0..records.len() {
        let record = records.get(number);
        add_writes(alloc, &mut undo, number, record.writes())?;
    }
    Ok(undo)
}

/// Returns a change of this commit as a reason.
fn reason_of(alloc: Global, commit: u32, change: &Change) -> Result<Reason, NoMemory>
    ensures { IfOk result (λ reason. reason ≡ Hit commit change.now.table change.now.key) }
{
    let key = change.key.copy(alloc)?;
    Ok(Reason::Hit {
        commit,
        table: change.table,
        key,
    })
}

/// Returns the first of a commit's changes that hits the record with this number, as a reason. `undo` has the writes of
/// the record's run.
fn hit_in(
    alloc: Global,
    record: &RecordRef<'_>,
    number: usize,
    undo: &Undo<'_>,
    commit: u32,
    changes: &[Change],
) -> Result<Option<Reason>, NoMemory>
    ensures { IfOk result (λ reason. (before : Seq Record) → earlier number undo.now ≡ writes_in before → reason ≡ hit_in commit changes.now before record.now) }
{
    for change in changes {
        if hit(record, number, undo, change) {
            return Ok(Some(reason_of(alloc, commit, change)?));
        }
    }
    Ok(None)
}

/// Returns the first change of the first commit that hits the record with this number, as a reason. `undo` has the
/// writes of the record's run. Tries each predicate of the record on each change of its table, up to the one that is
/// found.
pub(crate) fn hit_by(
    alloc: Global,
    record: &RecordRef<'_>,
    number: usize,
    undo: &Undo<'_>,
    since: &[Committed],
) -> Result<Option<Reason>, NoMemory>
    ensures { IfOk result (λ reason. (before : Seq Record) → earlier number undo.now ≡ writes_in before → reason ≡ hit since.now before record.now) }
{
    for committed in since {
        let changes = committed.changes.as_slice();
        let found = hit_in(alloc, record, number, undo, committed.commit, changes)?;
        if found.is_some() {
            return Ok(found);
        }
    }
    Ok(None)
}
