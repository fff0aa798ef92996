//! The reason of one record.

ghost use Rattle.std.specs.Prelude.{◌≡◌, ◌<◌, ◌≤◌, ◌+◌, true, Some, List as Seq, length, slice_get, take, IfOk, OnOk};
ghost use Rattle.std.specs.Option.{option_copied, option_or};
ghost use Rattle.mv_record.specs.declared.record.Record.{Record};
ghost use Rattle.mv_record.specs.Runs.{writes_in};
ghost use Rattle.mv_undo.specs.Owning.{earlier};
ghost use Rattle.mv_why.specs.Causes.{changes_since, why_reason};
ghost use Rattle.mv_why.specs.Walking.{controller_by, is_there, reading_by, reason_by, one_more, record_there, table_by, there_by, touched_by, AreSound, IsOn};

use crate::cause::Reason;
use crate::hits::hit_by;
use crate::paths::{Path, is_path, item};
use crate::points::{Known, controller, reading};
use crate::run::{Run, Runs};
use crate::touch::{earlier_of, path_touching, reason_of, record_at};
use crate::walk::Walk;
use mv_log::record_ref::RecordRef;
use mv_values::memory::NoMemory;
use std::alloc::Global;

/// Returns the first of the controller and the variables that doesn't stay as a reason.
fn known_reason(known: &Known<'_>, old: &RecordRef<'_>, fresh: &RecordRef<'_>) -> Option<Reason>
    ensures { result ≡ option_or (controller_by known.now.kept.now fresh.now.parent) (reading_by known.now.kept.now known.now.old.now known.now.fresh.now old.now.reads fresh.now.reads) }
{
    match controller(known.kept, fresh.parent()) {
        Some(reason) => Some(reason),
        None => reading(known, old.reads(), fresh.reads()),
    }
}

/// Returns the least record with a write that touches the old run's next record as a reason.
fn touch_reason(
    alloc: Global,
    runs: &Runs<'_>,
    walk: &Walk,
    old: &RecordRef<'_>,
) -> Result<Option<Reason>, NoMemory>
    ensures { IfOk result (λ reason. reason ≡ touched_by runs.now walk.now old.now) }
{
    let preds = old.preds();
    let before = path_touching(&preds, &runs.old, walk.old_others.as_slice());
    let anew = path_touching(&preds, &runs.fresh, walk.fresh_others.as_slice());
    reason_of(alloc, earlier_of(before, anew))
}

/// Returns the least change that hits the old run's next record as a reason, or else the least record with a write that
/// touches it.
fn table_reason(
    alloc: Global,
    runs: &Runs<'_>,
    walk: &Walk,
    old: &RecordRef<'_>,
) -> Result<Option<Reason>, NoMemory>
    ensures { IfOk result (λ reason. (before : Seq Record) → earlier walk.now.at runs.now.undo ≡ writes_in before → reason ≡ table_by runs.now walk.now before old.now) }
{
    match hit_by(alloc, old, walk.at, &runs.undo.undo(), runs.since)? {
        Some(reason) => Ok(Some(reason)),
        None => touch_reason(alloc, runs, walk, old),
    }
}

/// Returns the first point that the new run's record fails as a reason. The old run's next record has its path.
fn reason_there(
    alloc: Global,
    runs: &Runs<'_>,
    walk: &Walk,
    known: &Known<'_>,
    old: &RecordRef<'_>,
    fresh: &RecordRef<'_>,
) -> Result<Option<Reason>, NoMemory>
    ensures { IfOk result (λ reason. (before : Seq Record) → earlier walk.now.at runs.now.undo ≡ writes_in before → reason ≡ there_by known.now runs.now walk.now before old.now fresh.now) }
{
    match known_reason(known, old, fresh) {
        Some(reason) => Ok(Some(reason)),
        None => table_reason(alloc, runs, walk, old),
    }
}

/// Whether the old run's next record has this path.
fn is_there(next: Option<&Path>, path: &[u32]) -> bool
    ensures { result ≡ is_there (option_copied next.entry) path.now }
{
    match next {
        Some(next) => is_path(next.as_slice(), path),
        None => false,
    }
}

/// Lends the old run's next record, if it has this path.
fn record_there<'a>(runs: &Runs<'a>, walk: &Walk, path: &[u32]) -> Option<RecordRef<'a>>
    ensures { result ≡ record_there runs.now walk.now path.now }
{
    if !is_there(item(runs.old.paths.as_slice(), walk.at), path) {
        return None;
    }
    record_at(&runs.old.records, walk.at)
}

/// Returns the reason of the new run's record with this number and path. The old run is passed up to the path.
fn reason_of_record(
    alloc: Global,
    runs: &Runs<'_>,
    walk: &Walk,
    number: usize,
    path: &[u32],
) -> Result<Option<Reason>, NoMemory>
    requires within { number < length runs.now.fresh.records }
    requires paths { number ≤ length runs.now.fresh.paths }
    ensures { IfOk result (λ reason. (before : Seq Record) (r : Record) → earlier walk.now.at runs.now.undo ≡ writes_in before → slice_get runs.now.fresh.records number ≡ Some r → reason ≡ reason_by runs.now walk.now number before r path.now) }
{
    let Some(old) = record_there(runs, walk, path) else {
        return Ok(Some(Reason::New));
    };
    let known = Known {
        old: runs.old.paths.as_slice(),
        fresh: &runs.fresh.paths.as_slice()[..number],
        kept: walk.kept.as_slice(),
    };
    let fresh = runs.fresh.records.get(number);
    reason_there(alloc, runs, walk, &known, &old, &fresh)
}

/// Lends the path of the record with this number.
#[tactic(auto, using(mv_log::proofs::Lending::get_at))]
fn path_at<'p>(run: &'p Run<'_>, number: usize) -> &'p Path
    requires { number < length run.now.paths }
    ensures { slice_get run.now.paths number ≡ Some result.now }
{
    &run.paths.as_slice()[number]
}

/// Goes on by the new run's record with this number.
fn go_on(runs: &Runs<'_>, walk: &mut Walk, number: usize, is_kept: bool) -> Result<(), NoMemory>
    requires { is_kept ≡ true → walk.old.at < length runs.now.old.paths }
    ensures { OnOk result (walk.new ≡ one_more runs.now.fresh.records number is_kept walk.old) }
{
    if is_kept {
        walk.keep(&runs.old)
    } else {
        walk.renew(&runs.fresh, number)
    }
}

/// Goes on by the new run's next record. Returns its reason, or `None` if it is kept.
pub(crate) fn next_reason(
    alloc: Global,
    runs: &Runs<'_>,
    walk: &mut Walk,
) -> Result<Option<Reason>, NoMemory>
    requires sound { AreSound runs.now }
    requires on { IsOn runs.now walk.old }
    requires more { length walk.old.kept < length runs.now.fresh.records }
    ensures on { OnOk result (IsOn runs.now walk.new) }
    ensures more { OnOk result (length walk.new.kept ≡ length walk.old.kept + 1) }
    ensures reason { IfOk result (λ reason. reason ≡ why_reason runs.now.old.records runs.now.fresh.records runs.now.since.now (length walk.old.kept)) }
{
    let number = walk.kept.len();
    let path = path_at(&runs.fresh, number).as_slice();
    walk.pass(&runs.old, path)?;
    let reason = reason_of_record(alloc, runs, walk, number, path)?;
    go_on(runs, walk, number, reason.is_none())?;
    Ok(reason)
}
