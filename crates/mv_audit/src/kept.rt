//! What a repair keeps: it compares two full runs of a call.

ghost use Rattle.std.specs.Prelude.{◌≡◌, ◌&&◌, not, ◌<◌, ◌≤◌, ◌+◌, true, Some, length, take, slice_get, IfOk, OnOk};
ghost use Rattle.std.specs.List.{list_any, flat_map};
ghost use Rattle.std.specs.Option.{option_copied, option_and_then};
ghost use Rattle.mv_values.specs.Preds.{names};
ghost use Rattle.mv_record.specs.Paths.{PathsRise};
ghost use Rattle.mv_history.specs.Hits.{any_hits, reaches, touches_predicate, touches};
ghost use Rattle.mv_history.specs.Kept.{same_path, executions};
ghost use Rattle.mv_audit.specs.Comparing.{AreSound, IsAlong, both_stay, changes_in, executed_by, flag_of, is_flagged, is_there, read_stays, reads_by, stays_at, stays_by, touched_by, writes_at, writes_of};

use crate::hit::commits_hit;
use crate::paths::{item, paths_of};
use crate::walk::{Run, Runs, Walk, beginning, is_path, is_there, keep, pass, renew};
use mv_history::change::Change;
use mv_record::record::{Read, Record};
use mv_values::list::List;
use mv_values::memory::NoMemory;
use mv_values::patch::{Assign, Patch, Write};
use mv_values::pred::Pred;
use std::alloc::Global;

// Controllers and definers

/// Whether the new run's record with this number is kept. A record that isn't known counts as kept.
fn is_flagged(flags: &[bool], number: usize) -> bool
    ensures { result ≡ is_flagged (slice_get flags.now number) }
{
    match flags.get(number) {
        Some(is) => *is,
        None => true,
    }
}

/// Whether there is no such record, or it is kept.
fn is_kept(flags: &[bool], number: Option<usize>) -> bool
    ensures { result ≡ flag_of flags.now number }
{
    match number {
        None => true,
        Some(number) => is_flagged(flags, number),
    }
}

/// Returns the path of the record with this number, if there is one.
fn path_at(paths: &[List<usize>], number: Option<usize>) -> Option<&List<usize>>
    ensures { option_copied result ≡ option_and_then (slice_get paths.now) number }
{
    match number {
        None => None,
        Some(number) => item(paths, number),
    }
}

/// Whether there is no path, or both are the same.
fn are_same(a: Option<&List<usize>>, b: Option<&List<usize>>) -> bool
    ensures { result ≡ same_path (option_copied a.entry) (option_copied b.entry) }
{
    match (a, b) {
        (Some(a), Some(b)) => is_path(a.as_slice(), b.as_slice()),
        (None, None) => true,
        _ => false,
    }
}

/// The paths of the old run, and those of the new run so far, with whether each is kept.
#[derive(Clone, Copy)]
pub(crate) struct Known<'a> {
    pub flags: &'a [bool],
    pub old: &'a [List<usize>],
    pub new: &'a [List<usize>],
}

/// Whether a variable has in both runs a definer with the same path, which is kept, or in both its default.
fn read_stays(known: &Known<'_>, a: &Read, b: &Read) -> bool
    ensures { result ≡ read_stays known.now.flags.now known.now.old.now known.now.new.now a.now.definer b.now.definer }
{
    are_same(path_at(known.old, a.definer), path_at(known.new, b.definer))
        && is_kept(known.flags, b.definer)
}

/// Whether there are both reads and the variable has so.
fn both_stay(known: &Known<'_>, a: Option<&Read>, b: Option<&Read>) -> bool
    ensures { result ≡ both_stay known.now.flags.now known.now.old.now known.now.new.now (option_copied a.entry) (option_copied b.entry) }
{
    match (a, b) {
        (Some(a), Some(b)) => read_stays(known, a, b),
        _ => false,
    }
}

/// Whether each variable that is read has so.
#[tactic(auto, using(crate::proofs::Keeping::other_count, crate::proofs::Keeping::all_read))]
fn reads_stay(known: &Known<'_>, old: &[Read], new: &[Read]) -> bool
    ensures { result ≡ reads_by known.now.flags.now known.now.old.now known.now.new.now old.now new.now }
{
    if old.len() != new.len() {
        return false;
    }
    for i in 0..old.len() {
        if !both_stay(known, item(old, i), item(new, i)) {
            return false;
        }
    }
    true
}

// Writes

/// Whether the predicate selects or tests a column that is set.
fn names_one(pred: &Pred, items: &[Assign]) -> bool
    ensures { result ≡ list_any (λ a. names pred.now a.column) items.now }
{
    items.iter().any(|item| pred.names(item.column))
}

/// Whether a patch inserts or deletes a row, or sets a column that the predicate selects or tests.
fn reaches(pred: &Pred, patch: &Patch) -> bool
    ensures { result ≡ reaches pred.now patch.now }
{
    match patch {
        Patch::Insert(_) | Patch::Delete => true,
        Patch::Set(items) => names_one(pred, items.as_slice()),
    }
}

/// Whether a write is to a key that the predicate admits, and its patch reaches the predicate.
fn touches_predicate(write: &Write, pred: &Pred) -> bool
    ensures { result ≡ touches_predicate write.now pred.now }
{
    write.table == pred.table && (pred.admits(&write.key) && reaches(pred, &write.patch))
}

/// Whether a write touches a predicate of the record.
fn touches(record: &Record, write: &Write) -> bool
    ensures { result ≡ touches record.now write.now }
{
    record
        .preds
        .as_slice()
        .iter()
        .any(|pred| touches_predicate(write, pred))
}

/// Whether one of the writes touches the record.
fn any_touches(record: &Record, writes: &[Write]) -> bool
    ensures { result ≡ list_any (touches record.now) writes.now }
{
    writes.iter().any(|write| touches(record, write))
}

/// Whether a write of the record with this number touches this one.
fn one_touches(records: &[Record], number: usize, record: &Record) -> bool
    ensures { result ≡ list_any (touches record.now) (writes_of (slice_get records.now number)) }
{
    match item(records, number) {
        None => false,
        Some(other) => any_touches(record, other.writes.as_slice()),
    }
}

/// Whether a write of one of the records with these numbers touches this one.
fn each_touches(records: &[Record], numbers: &[usize], record: &Record) -> bool
    ensures { result ≡ list_any (λ n. list_any (touches record.now) (writes_of (slice_get records.now n))) numbers.now }
{
    numbers
        .iter()
        .any(|number| one_touches(records, *number, record))
}

/// Whether a write of one of the records with these numbers touches this one.
fn others_touch(records: &[Record], numbers: &[usize], record: &Record) -> bool
    ensures { result ≡ list_any (touches record.now) (writes_at records.now numbers.now) }
{
    each_touches(records, numbers, record)
}

/// Whether a write of an earlier record of either run that isn't kept touches this one.
fn is_touched(runs: &Runs<'_>, walk: &Walk, record: &Record) -> bool
    ensures { result ≡ touched_by runs.now walk.now record.now }
{
    others_touch(runs.old.records, walk.old_others.as_slice(), record)
        || others_touch(runs.new.records, walk.new_others.as_slice(), record)
}

// Records

/// Whether the changes of no commit hit the old run's next record, and no other write touches it.
fn is_unchanged(runs: &Runs<'_>, walk: &Walk, other: &Record) -> bool
    requires { walk.now.at ≤ length runs.now.old.records.now }
    ensures { result ≡ (not (any_hits (changes_in runs.now) (take walk.now.at runs.now.old.records.now) other.now) && not (touched_by runs.now walk.now other.now)) }
{
    let before = &runs.old.records[..walk.at];
    !commits_hit(runs.commits, before, other) && !is_touched(runs, walk, other)
}

/// Whether the new run's record with this number stays. The old run's next record has its path.
fn stays_with(runs: &Runs<'_>, walk: &Walk, number: usize, record: &Record, other: &Record) -> bool
    requires old { walk.now.at ≤ length runs.now.old.records.now }
    requires new { number ≤ length runs.now.new.paths.now }
    ensures { result ≡ stays_by runs.now walk.now number record.now other.now }
{
    let known = Known {
        flags: walk.flags.as_slice(),
        old: runs.old.paths,
        new: &runs.new.paths[..number],
    };
    is_kept(known.flags, record.parent)
        && (reads_stay(&known, other.reads.as_slice(), record.reads.as_slice())
            && is_unchanged(runs, walk, other))
}

/// Whether the new run's record with this number stays. The old run is passed up to its path.
fn stays(runs: &Runs<'_>, walk: &Walk, number: usize, path: &[usize]) -> bool
    requires sound { AreSound runs.now }
    requires number { number < length runs.now.new.records.now }
    ensures there { result ≡ true → is_there (slice_get runs.now.old.paths.now walk.now.at) path.now ≡ true }
    ensures stays { result ≡ stays_at runs.now walk.now number path.now }
{
    if !is_there(item(runs.old.paths, walk.at), path) {
        return false;
    }
    match item(runs.old.records, walk.at) {
        None => false,
        Some(other) => stays_with(runs, walk, number, &runs.new.records[number], other),
    }
}

/// Goes on by the new run's next record.
fn go_on(runs: &Runs<'_>, walk: &mut Walk) -> Result<(), NoMemory>
    requires sound { AreSound runs.now }
    requires along { IsAlong runs.now walk.old }
    requires more { length walk.old.flags < length runs.now.new.records.now }
    ensures along { OnOk result (IsAlong runs.now walk.new) }
    ensures more { OnOk result (length walk.new.flags ≡ length walk.old.flags + 1) }
{
    let number = walk.flags.len();
    let path = runs.new.paths[number].as_slice();
    pass(runs, walk, path)?;
    if stays(runs, walk, number, path) {
        keep(runs, walk)
    } else {
        renew(runs.new.records, walk, number)
    }
}

/// Returns how many records of the new run a repair executes. Goes along both runs once.
fn compared(alloc: Global, runs: &Runs<'_>) -> Result<usize, NoMemory>
    requires { AreSound runs.now }
    ensures { IfOk result (λ n. n ≡ executed_by runs.now) }
{
    let mut walk = beginning(alloc);
    while walk.flags.len() < runs.new.records.len() {
        go_on(runs, &mut walk)?;
    }
    Ok(walk.executed)
}

/// Returns how many records of the new run a repair executes. Goes along both runs once.
pub(crate) fn executions(
    alloc: Global,
    old: &[Record],
    new: &[Record],
    commits: &[List<Change>],
) -> Result<usize, NoMemory>
    requires old { PathsRise old.now }
    requires new { PathsRise new.now }
    ensures { IfOk result (λ n. n ≡ executions old.now new.now (flat_map (λ changes. changes) commits.now)) }
{
    let old_paths = paths_of(alloc, old)?;
    let new_paths = paths_of(alloc, new)?;
    let runs = Runs {
        old: Run {
            paths: old_paths.as_slice(),
            records: old,
        },
        new: Run {
            paths: new_paths.as_slice(),
            records: new,
        },
        commits,
    };
    compared(alloc, &runs)
}
