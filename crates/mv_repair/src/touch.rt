//! Which writes touch a record.

ghost use Rattle.std.specs.Prelude.{◌≡◌, ◌≤◌, List, [], false, length, slice_get, IfOk, OnOk};
ghost use Rattle.std.specs.List.{list_any};
ghost use Rattle.mv_values.specs.declared.patch.Write.{Write};
ghost use Rattle.mv_values.specs.Preds.{names};
ghost use Rattle.mv_history.specs.Hits.{reaches, touches_predicate};
ghost use Rattle.mv_repair.specs.Walking.{any_touch, any_write, is_touched, writes_of, AreKnown, AreKnownIfMany, HasAddedWrites, HasLearnt};

use crate::keys::Keys;
use mv_log::pred_ref::Preds;
use mv_log::record_ref::RecordRef;
use mv_log::records::Records;
use mv_values::copied::Copied;
use mv_values::memory::NoMemory;
use mv_values::patch::{Assign, Patch, Write};
use mv_values::pred_ref::PredRef;
use std::alloc::Global;

/// Whether the predicate selects or tests a column that is set.
fn names_one(pred: &PredRef<'_>, items: &[Assign]) -> bool
    ensures { result ≡ list_any (λ a. names pred.now a.column) items.now }
{
    items.iter().any(|item| pred.names(item.column))
}

/// Whether the patch inserts or deletes a row, or sets a column that the predicate selects or tests.
fn reaches(pred: &PredRef<'_>, patch: &Patch) -> bool
    ensures { result ≡ reaches pred.now patch.now }
{
    match patch {
        Patch::Insert(_) => true,
        Patch::Set(items) => names_one(pred, items.as_slice()),
        Patch::Delete => true,
    }
}

/// Whether the write touches the predicate.
fn touches_predicate(write: &Write, pred: &PredRef<'_>) -> bool
    ensures { result ≡ touches_predicate write.now pred.now }
{
    write.table == pred.table() && (pred.admits(&write.key) && reaches(pred, &write.patch))
}

/// Whether the write touches one of these predicates.
fn touches(preds: &Preds<'_>, write: &Write) -> bool
    ensures { result ≡ list_any (touches_predicate write.now) preds.now }
{
    for at in 0..preds.len() {
        if touches_predicate(write, &preds.get(at)) {
            return true;
        }
    }
    false
}

/// Lends a record, if there is one with this number.
pub(crate) fn record_at<'a>(records: &Records<'a>, number: usize) -> Option<RecordRef<'a>>
    ensures { result ≡ slice_get records.now number }
{
    if number < records.len() {
        Some(records.get(number))
    } else {
        None
    }
}

/// Lends the writes of the record with this number, none if there is no such record.
fn writes_of<'a>(records: &Records<'a>, number: usize) -> &'a [Write]
    ensures { result.now ≡ writes_of (slice_get records.now number) }
{
    match record_at(records, number) {
        Some(record) => record.writes(),
        None => &[],
    }
}

/// Whether there is a record with this number and it made writes.
pub(crate) fn has_writes(records: &Records<'_>, number: usize) -> bool
    ensures { result ≡ any_write (writes_of (slice_get records.now number)) }
{
    match writes_of(records, number) {
        [] => false,
        _ => true,
    }
}

/// Whether one of these writes touches one of these predicates.
fn one_touches(preds: &Preds<'_>, writes: &[Write]) -> bool
    ensures { result ≡ any_touch preds.now writes.now }
{
    writes.iter().any(|write| touches(preds, write))
}

/// Adds the keys that writes are on.
pub(crate) fn add_keys(alloc: Global, keys: &mut Keys, writes: &[Write]) -> Result<(), NoMemory>
    ensures { OnOk result (HasAddedWrites keys.old writes.now keys.new) }
{
    for write in writes {
        keys.add(alloc, write.table, write.key.copy(alloc)?)?;
    }
    Ok(())
}

/// Whether one of these predicates admits one of the keys. If not, no write on these keys touches them.
fn admits_some(alloc: Global, preds: &Preds<'_>, keys: &Keys) -> Result<bool, NoMemory>
    ensures { IfOk result (λ some. some ≡ false → (ws : List Write) → AreKnown keys.now ws → any_touch preds.now ws ≡ false) }
{
    for at in 0..preds.len() {
        if keys.admits_one(alloc, &preds.get(at))? {
            return Ok(true);
        }
    }
    Ok(false)
}

/// Whether a write of the records with these numbers touches one of these predicates. Tries each write.
fn is_touched_at(preds: &Preds<'_>, records: &Records<'_>, numbers: &[usize]) -> bool
    ensures { result ≡ list_any (λ n. any_touch preds.now (writes_of (slice_get records.now n))) numbers.now }
{
    numbers
        .iter()
        .any(|number| one_touches(preds, writes_of(records, *number)))
}

/// Up to this many records are tried without a search for their keys.
const FEW: usize = 16;

/// Adds the keys of the writes of the records with these numbers, if they are more than `FEW`. Those of the first `known`
/// are there. Returns how many have their keys there now.
pub(crate) fn learn(
    alloc: Global,
    keys: &mut Keys,
    known: usize,
    records: &Records<'_>,
    numbers: &[usize],
) -> Result<usize, NoMemory>
    requires { known ≤ length numbers.now }
    ensures { IfOk result (λ now. HasLearnt records.now numbers.now keys.old known keys.new now) }
{
    if numbers.len() <= FEW {
        return Ok(known);
    }
    for at in known..numbers.len() {
        add_keys(alloc, keys, writes_of(records, numbers[at]))?;
    }
    Ok(numbers.len())
}

/// Whether a write of the records with these numbers touches the record. If they are more than `FEW`, `keys` has the keys
/// of these writes.
pub(crate) fn is_touched(
    alloc: Global,
    record: &RecordRef<'_>,
    records: &Records<'_>,
    numbers: &[usize],
    keys: &Keys,
) -> Result<bool, NoMemory>
    requires { AreKnownIfMany keys.now records.now numbers.now }
    ensures { IfOk result (λ touched. touched ≡ is_touched record.now records.now numbers.now) }
{
    let preds = record.preds();
    if numbers.len() > FEW && !admits_some(alloc, &preds, keys)? {
        return Ok(false);
    }
    Ok(is_touched_at(&preds, records, numbers))
}
