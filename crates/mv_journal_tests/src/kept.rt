//! What a repair keeps, found from two full runs: each record is compared with all others.

use crate::hits::{Point, hits_of};
use mv_record::record::{Read, Record, Spot};
use mv_values::list::List;
use mv_values::memory::NoMemory;
use mv_values::patch::{Patch, Write};
use mv_values::pred::Pred;
use std::alloc::Global;

/// Whether a write may change what the predicate finds.
fn may_change(write: &Write, pred: &Pred) -> bool {
    if pred.table != write.table || !pred.admits(&write.key) {
        return false;
    }
    let Patch::Set(items) = &write.patch else {
        return true;
    };
    for item in items.as_slice() {
        if pred.names(item.column) {
            return true;
        }
    }
    false
}

/// Whether a write may change what a record finds.
fn touches(write: &Write, record: &Record) -> bool {
    for pred in record.preds.as_slice() {
        if may_change(write, pred) {
            return true;
        }
    }
    false
}

/// Whether a record wrote what another one asks for.
pub(crate) fn is_touched(record: &Record, writer: &Record) -> bool {
    for write in writer.writes.as_slice() {
        if touches(write, record) {
            return true;
        }
    }
    false
}

/// Two full runs of a call, and the tables from those of the first to those of the second. There may be no first run.
#[derive(Clone, Copy)]
pub(crate) struct TwoRuns<'r> {
    pub(crate) old: Option<&'r [Record]>,
    pub(crate) new: &'r [Record],
    pub(crate) points: &'r [Point],
    pub(crate) from: u32,
    pub(crate) to: u32,
}

/// A record of the first run, with its number and the records before it.
#[derive(Clone, Copy)]
pub(crate) struct Twin<'r> {
    pub(crate) number: usize,
    pub(crate) before: &'r [Record],
    pub(crate) record: &'r Record,
}

/// Returns the number of the record at this place.
fn number_at(records: &[Record], place: &Spot) -> Option<usize> {
    for (number, record) in records.iter().enumerate() {
        let spot = &record.spot;
        if spot.statement == place.statement && spot.turns.as_slice() == place.turns.as_slice() {
            return Some(number);
        }
    }
    None
}

/// Returns the first run's record at the place of one of the second.
pub(crate) fn twin_at<'r>(runs: &TwoRuns<'r>, record: &Record) -> Option<Twin<'r>> {
    let records = runs.old?;
    let number = number_at(records, &record.spot)?;
    let before = records.get(..number)?;
    let record = records.get(number)?;
    Some(Twin {
        number,
        before,
        record,
    })
}

/// Whether a commit between the two runs hits a record of the first.
pub(crate) fn is_hit(alloc: Global, runs: &TwoRuns<'_>, twin: &Twin<'_>) -> Result<bool, NoMemory> {
    for commits in runs.from..runs.to {
        if let Some([before, after, ..]) = runs.points.get(commits as usize..) {
            let places = hits_of(alloc, twin.before, twin.record, before, after)?;
            if !places.is_empty() {
                return Ok(true);
            }
        }
    }
    Ok(false)
}

/// Whether two definers are one kept record, or none. A kept record of the second run has the number of its twin in the
/// first.
pub(crate) fn is_same_definer(
    kept: &[Option<usize>],
    old: Option<usize>,
    new: Option<usize>,
) -> bool {
    let Some(number) = new else {
        return old.is_none();
    };
    match (kept.get(number), old) {
        (Some(Some(twin)), Some(old)) => old == *twin,
        _ => false,
    }
}

/// Whether the reads of two records have the same definers, which are kept.
pub(crate) fn are_reads_kept(kept: &[Option<usize>], old: &[Read], new: &[Read]) -> bool {
    for (old, new) in old.iter().zip(new) {
        if !is_same_definer(kept, old.definer, new.definer) {
            return false;
        }
    }
    old.len() == new.len()
}

/// Whether the parent is kept, if there is one.
pub(crate) fn is_held(kept: &[Option<usize>], record: &Record) -> bool {
    match record.parent {
        None => true,
        Some(parent) => matches!(kept.get(parent), Some(Some(_))),
    }
}

/// Whether an earlier record of the second run that isn't kept wrote what this one asks for.
fn is_touched_anew(runs: &TwoRuns<'_>, kept: &[Option<usize>], record: &Record) -> bool {
    for (twin, writer) in kept.iter().zip(runs.new) {
        if twin.is_none() && is_touched(record, writer) {
            return true;
        }
    }
    false
}

/// Whether a record of the first run before the twin that isn't kept did.
fn was_touched(kept: &[Option<usize>], twin: &Twin<'_>, record: &Record) -> bool {
    for (number, writer) in twin.before.iter().enumerate() {
        if !kept.contains(&Some(number)) && is_touched(record, writer) {
            return true;
        }
    }
    false
}

/// Returns the number of the next record's twin, if the record is kept. These are the twins of the records before it.
fn kept_twin(
    alloc: Global,
    runs: &TwoRuns<'_>,
    kept: &[Option<usize>],
    record: &Record,
) -> Result<Option<usize>, NoMemory> {
    let Some(twin) = twin_at(runs, record) else {
        return Ok(None);
    };
    let old = twin.record;
    let is_kept = is_held(kept, record)
        && are_reads_kept(kept, old.reads.as_slice(), record.reads.as_slice())
        && !is_hit(alloc, runs, &twin)?
        && !is_touched_anew(runs, kept, record)
        && !was_touched(kept, &twin, record);
    Ok(if is_kept { Some(twin.number) } else { None })
}

/// Returns for each record of the second run the number of its twin in the first, if it is kept.
pub(crate) fn twins_of(alloc: Global, runs: &TwoRuns<'_>) -> Result<Vec<Option<usize>>, NoMemory> {
    let mut kept = Vec::new(alloc);
    for record in runs.new {
        let twin = kept_twin(alloc, runs, kept.as_slice(), record)?;
        kept.push(twin)?;
    }
    Ok(kept)
}

/// Returns the numbers of the records of the second run that aren't kept.
pub(crate) fn executed(alloc: Global, kept: &[Option<usize>]) -> Result<List<usize>, NoMemory> {
    let mut numbers = List::new(alloc);
    for (number, twin) in kept.iter().enumerate() {
        if twin.is_none() {
            numbers.push(number)?;
        }
    }
    Ok(numbers)
}
