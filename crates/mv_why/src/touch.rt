//! The writes that touch a record.

ghost use Rattle.std.specs.Prelude.{◌≡◌, slice_get, IfOk};
ghost use Rattle.std.specs.List.{list_any};
ghost use Rattle.std.specs.Option.{option_copied, option_map};
ghost use Rattle.mv_values.specs.Preds.{names};
ghost use Rattle.mv_history.specs.Hits.{reaches, touches_predicate};
ghost use Rattle.mv_why.specs.declared.cause.Reason.TheVariants.{Touched};
ghost use Rattle.mv_why.specs.Walking.{any_touch, any_write, earlier_of, first_of, touching_at, touching_one, writes_of};

use crate::cause::Reason;
use crate::paths::{Path, is_earlier, item};
use crate::run::Run;
use mv_log::pred_ref::Preds;
use mv_log::record_ref::RecordRef;
use mv_log::records::Records;
use mv_values::memory::NoMemory;
use mv_values::patch::{Assign, Patch, Write};
use mv_values::pred_ref::PredRef;
use std::alloc::Global;

/// Whether the predicate selects or tests a column that is set.
fn names_one(pred: &PredRef<'_>, items: &[Assign]) -> bool
    ensures { result ≡ list_any (λ a. names pred.now a.column) items.now }
{
    items.iter().any(|item| pred.names(item.column))
}

/// Whether the patch inserts or deletes a row, or sets a column that the predicate selects or tests.
fn reaches(pred: &PredRef<'_>, patch: &Patch) -> bool
    ensures { result ≡ reaches pred.now patch.now }
{
    match patch {
        Patch::Insert(_) => true,
        Patch::Set(items) => names_one(pred, items.as_slice()),
        Patch::Delete => true,
    }
}

/// Whether the write touches the predicate.
fn touches_predicate(write: &Write, pred: &PredRef<'_>) -> bool
    ensures { result ≡ touches_predicate write.now pred.now }
{
    write.table == pred.table() && (pred.admits(&write.key) && reaches(pred, &write.patch))
}

/// Whether the write touches one of these predicates.
fn touches(preds: &Preds<'_>, write: &Write) -> bool
    ensures { result ≡ list_any (touches_predicate write.now) preds.now }
{
    for at in 0..preds.len() {
        if touches_predicate(write, &preds.get(at)) {
            return true;
        }
    }
    false
}

/// Whether one of these writes touches one of these predicates.
fn one_touches(preds: &Preds<'_>, writes: &[Write]) -> bool
    ensures { result ≡ any_touch preds.now writes.now }
{
    writes.iter().any(|write| touches(preds, write))
}

/// Lends a record, if there is one with this number.
pub(crate) fn record_at<'a>(records: &Records<'a>, number: usize) -> Option<RecordRef<'a>>
    ensures { result ≡ slice_get records.now number }
{
    if number < records.len() {
        Some(records.get(number))
    } else {
        None
    }
}

/// Lends the writes of the record with this number, none if there is no such record.
fn writes_of<'a>(records: &Records<'a>, number: usize) -> &'a [Write]
    ensures { result.now ≡ writes_of (slice_get records.now number) }
{
    match record_at(records, number) {
        Some(record) => record.writes(),
        None => &[],
    }
}

/// Whether there is a record with this number and it makes writes.
pub(crate) fn has_writes(records: &Records<'_>, number: usize) -> bool
    ensures { result ≡ any_write (writes_of (slice_get records.now number)) }
{
    match writes_of(records, number) {
        [] => false,
        _ => true,
    }
}

/// Returns the path of the record with this number, if it makes a write that touches one of these predicates.
fn touching<'p>(preds: &Preds<'_>, run: &'p Run<'_>, number: usize) -> Option<&'p Path>
    ensures { option_copied result ≡ touching_one preds.now run.now.records run.now.paths number }
{
    if one_touches(preds, writes_of(&run.records, number)) {
        item(run.paths.as_slice(), number)
    } else {
        None
    }
}

/// Returns the path of the first of the records with these numbers that makes a write which touches one of these
/// predicates.
pub(crate) fn path_touching<'p>(
    preds: &Preds<'_>,
    run: &'p Run<'_>,
    numbers: &[usize],
) -> Option<&'p Path>
    ensures { option_copied result ≡ first_of (touching_at preds.now run.now.records run.now.paths numbers.now) }
{
    for number in numbers {
        if let Some(path) = touching(preds, run, *number) {
            return Some(path);
        }
    }
    None
}

/// Returns the path that is earlier in the program, if there is any.
pub(crate) fn earlier_of<'p>(a: Option<&'p Path>, b: Option<&'p Path>) -> Option<&'p Path>
    ensures { option_copied result ≡ earlier_of (option_copied a.entry) (option_copied b.entry) }
{
    match (a, b) {
        (Some(a), Some(b)) => {
            if is_earlier(b.as_slice(), a.as_slice()) {
                Some(b)
            } else {
                Some(a)
            }
        }
        (Some(a), None) => Some(a),
        (None, b) => b,
    }
}

/// Returns a path as a reason, if there is one.
pub(crate) fn reason_of(alloc: Global, path: Option<&Path>) -> Result<Option<Reason>, NoMemory>
    ensures { IfOk result (λ reason. reason ≡ option_map (λ p. Touched p) (option_copied path.entry)) }
{
    let Some(path) = path else {
        return Ok(None);
    };
    let path = path.numbers(alloc)?;
    Ok(Some(Reason::Touched { path }))
}
