//! Compares two full runs of a call, record by record.

ghost use Rattle.std.specs.Prelude.{◌≡◌, ◌<◌, [], Some, false, length, slice_get, OnOk};
ghost use Rattle.std.specs.Option.{option_copied};
ghost use Rattle.mv_history.specs.Kept.{is_path};
ghost use Rattle.mv_audit.specs.Comparing.{AreSound, IsAlong, any_write, is_before, is_there, kept_more, noted_old, other_more, writes_of};

use crate::paths::item;
use mv_history::change::Change;
use mv_record::record::Record;
use mv_values::list::List;
use mv_values::memory::NoMemory;
use std::alloc::Global;

/// A run: its records, and the path of each.
#[derive(Clone, Copy)]
pub(crate) struct Run<'a> {
    pub paths: &'a [List<usize>],
    pub records: &'a [Record],
}

/// Two full runs of a call, and the changes of the commits between them.
#[derive(Clone, Copy)]
pub(crate) struct Runs<'a> {
    pub old: Run<'a>,
    pub new: Run<'a>,
    pub commits: &'a [List<Change>],
}

/// How far a comparison has come.
#[derive(Drop)]
pub(crate) struct Walk {
    /// Whether each record of the new run so far is kept.
    pub flags: List<bool>,
    /// How many of these records are not.
    pub executed: usize,
    /// The number of the old run's next record.
    pub at: usize,
    /// The numbers of the old run's records before it that aren't kept and make writes.
    pub old_others: List<usize>,
    /// The numbers of the new run's records so far that aren't kept and make writes.
    pub new_others: List<usize>,
}

/// Whether two paths are the same.
pub(crate) fn is_path(a: &[usize], b: &[usize]) -> bool
    ensures { result ≡ is_path a.now b.now }
{
    a.cmp(b).is_eq()
}

/// Whether there is a path and it is before the other one.
fn is_before(next: Option<&List<usize>>, path: &[usize]) -> bool
    ensures { result ≡ is_before (option_copied next.entry) path.now }
{
    match next {
        Some(next) => next.as_slice().cmp(path).is_lt(),
        None => false,
    }
}

/// Whether there is a path and it is the other one.
pub(crate) fn is_there(next: Option<&List<usize>>, path: &[usize]) -> bool
    ensures { result ≡ is_there (option_copied next.entry) path.now }
{
    match next {
        Some(next) => is_path(next.as_slice(), path),
        None => false,
    }
}

/// Whether there is a record with this number and it makes writes.
fn has_writes(records: &[Record], number: usize) -> bool
    ensures { result ≡ any_write (writes_of (slice_get records.now number)) }
{
    match item(records, number) {
        None => false,
        Some(record) => match record.writes.as_slice() {
            [] => false,
            _ => true,
        },
    }
}

/// Returns a walk before the first records. Allocates nothing.
pub(crate) fn beginning(alloc: Global) -> Walk
    ensures { result ≡ record { flags = []; executed = 0; at = 0; old_others = []; new_others = [] } }
{
    Walk {
        flags: List::new(alloc),
        executed: 0,
        at: 0,
        old_others: List::new(alloc),
        new_others: List::new(alloc),
    }
}

/// Notes the old run's next record among the others, if it makes writes.
fn note(records: &[Record], walk: &mut Walk) -> Result<(), NoMemory>
    ensures { OnOk result (walk.new ≡ noted_old records.now walk.old) }
{
    if has_writes(records, walk.at) {
        walk.old_others.push(walk.at)?;
    }
    Ok(())
}

/// Passes the old run's records with paths before this one, which is that of the new run's next record. None of them is
/// kept.
pub(crate) fn pass(runs: &Runs<'_>, walk: &mut Walk, path: &[usize]) -> Result<(), NoMemory>
    requires sound { AreSound runs.now }
    requires along { IsAlong runs.now walk.old }
    requires next { slice_get runs.now.new.paths.now (length walk.old.flags) ≡ Some path.now }
    ensures along { OnOk result (IsAlong runs.now walk.new) }
    ensures flags { OnOk result (walk.new.flags ≡ walk.old.flags) }
    ensures stops { OnOk result (is_before (slice_get runs.now.old.paths.now walk.new.at) path.now ≡ false) }
{
    while walk.at < runs.old.paths.len() && is_before(item(runs.old.paths, walk.at), path) {
        note(runs.old.records, walk)?;
        walk.at += 1;
    }
    Ok(())
}

/// Goes on by a record that is kept, with the old run's next record.
pub(crate) fn keep(runs: &Runs<'_>, walk: &mut Walk) -> Result<(), NoMemory>
    requires { walk.old.at < length runs.now.old.paths.now }
    ensures { OnOk result (walk.new ≡ kept_more walk.old) }
{
    walk.flags.push(true)?;
    if walk.at < runs.old.paths.len() {
        walk.at += 1;
    }
    Ok(())
}

/// Goes on by a record of the new run that isn't kept. It has this number.
pub(crate) fn renew(records: &[Record], walk: &mut Walk, number: usize) -> Result<(), NoMemory>
    requires { walk.old.executed < length records.now }
    ensures { OnOk result (walk.new ≡ other_more records.now number walk.old) }
{
    walk.flags.push(false)?;
    walk.executed += 1;
    if has_writes(records, number) {
        walk.new_others.push(number)?;
    }
    Ok(())
}
