//! The points of the rule that need no look at tables: controllers and definers.

ghost use Rattle.std.specs.Prelude.{◌≡◌, drop, slice_get};
ghost use Rattle.std.specs.Option.{option_and_then, option_copied};
ghost use Rattle.mv_history.specs.Kept.{same_path};
ghost use Rattle.mv_why.specs.declared.cause.Reason.TheVariants.{Reads};
ghost use Rattle.mv_why.specs.Walking.{controller_by, flag_of, read_stays_by, reading_by};

use crate::cause::Reason;
use crate::paths::{Path, is_path, item};
use mv_log::var_read::VarRead;

/// Whether the new record with this number is kept. A record that isn't known counts as kept.
fn is_flagged(kept: &[bool], number: u32) -> bool
    ensures { result ≡ flag_of kept.now (Some number) }
{
    match kept.get(number as usize) {
        Some(is) => *is,
        None => true,
    }
}

/// Whether there is no such record, or it is kept.
fn is_kept(kept: &[bool], number: Option<u32>) -> bool
    ensures { result ≡ flag_of kept.now number }
{
    match number {
        None => true,
        Some(number) => is_flagged(kept, number),
    }
}

/// Returns a record's controller as a reason, if it isn't kept.
pub(crate) fn controller(kept: &[bool], parent: Option<u32>) -> Option<Reason>
    ensures { result ≡ controller_by kept.now parent }
{
    let Some(parent) = parent else {
        return None;
    };
    if is_flagged(kept, parent) {
        return None;
    }
    Some(Reason::Controller {
        parent: parent as usize,
    })
}

/// Returns the path of the record with this number, if there are both.
fn path_of(paths: &[Path], number: Option<u32>) -> Option<&Path>
    ensures { option_copied result ≡ option_and_then (slice_get paths.now) number }
{
    match number {
        None => None,
        Some(number) => item(paths, number as usize),
    }
}

/// Whether both paths are absent, or they are equal.
fn is_same(a: Option<&Path>, b: Option<&Path>) -> bool
    ensures { result ≡ same_path (option_copied a.entry) (option_copied b.entry) }
{
    match (a, b) {
        (Some(a), Some(b)) => is_path(a.as_slice(), b.as_slice()),
        (None, None) => true,
        _ => false,
    }
}

/// What the walk knows of the two runs: the paths of the old run's records, and those of the new run's records so far,
/// with whether each is kept.
#[derive(Clone, Copy)]
pub(crate) struct Known<'a> {
    pub(crate) old: &'a [Path],
    pub(crate) fresh: &'a [Path],
    pub(crate) kept: &'a [bool],
}

/// Whether a variable has in both runs a definer with the same path, which is kept, or in both its initial value.
fn read_stays(known: &Known<'_>, old: Option<u32>, fresh: Option<u32>) -> bool
    ensures { result ≡ read_stays_by known.now.kept.now known.now.old.now known.now.fresh.now old fresh }
{
    is_same(path_of(known.old, old), path_of(known.fresh, fresh)) && is_kept(known.kept, fresh)
}

/// Returns the records that set a variable as a reason, by their numbers in the two runs.
fn reads(old: Option<u32>, fresh: Option<u32>) -> Reason
    ensures { result ≡ Reads old fresh }
{
    Reason::Reads {
        old: wide(old),
        fresh: wide(fresh),
    }
}

/// Returns the same number in eight bytes.
fn wide(number: Option<u32>) -> Option<usize>
    ensures { result ≡ number }
{
    match number {
        None => None,
        Some(number) => Some(number as usize),
    }
}

/// Returns the first variable that doesn't stay as a reason. The two records read these variables.
pub(crate) fn reading(known: &Known<'_>, old: &[VarRead], fresh: &[VarRead]) -> Option<Reason>
    ensures { result ≡ reading_by known.now.kept.now known.now.old.now known.now.fresh.now old.now fresh.now }
{
    for at in 0..fresh.len() {
        let definer = fresh[at].definer();
        let Some(was) = old.get(at) else {
            return Some(reads(None, definer));
        };
        if !read_stays(known, was.definer(), definer) {
            return Some(reads(was.definer(), definer));
        }
    }
    match old.get(fresh.len()) {
        None => None,
        Some(was) => Some(reads(was.definer(), None)),
    }
}
