//! How far the walk along the two runs has come.

ghost use Rattle.std.specs.Prelude.{◌≡◌, ◌<◌, [], false, length, slice_get, OnOk};
ghost use Rattle.std.specs.Option.{option_copied};
ghost use Rattle.mv_why.specs.Walking.{is_before, kept_more, other_more, noted_old, HasPassed};

use crate::paths::{Path, is_earlier, item};
use crate::run::Run;
use crate::touch::has_writes;
use mv_values::list::List;
use mv_values::memory::NoMemory;
use std::alloc::Global;

/// How far the walk has come.
#[derive(Drop)]
pub(crate) struct Walk {
    /// For each record of the new run so far whether it is kept.
    pub(crate) kept: List<bool>,
    /// The number of the old run's next record. Those before it are kept or were passed.
    pub(crate) at: usize,
    /// The numbers of the old run's records that were passed and make writes.
    pub(crate) old_others: List<usize>,
    /// The numbers of the new run's records that aren't kept and make writes.
    pub(crate) fresh_others: List<usize>,
}

/// Whether there is a path and it is before the other one.
fn is_before(next: Option<&Path>, path: &[u32]) -> bool
    ensures { result ≡ is_before (option_copied next.entry) path.now }
{
    match next {
        Some(next) => is_earlier(next.as_slice(), path),
        None => false,
    }
}

impl Walk {
    /// Returns a walk before the first records. Allocates nothing.
    pub(crate) fn new(alloc: Global) -> Walk
        ensures { result ≡ record { kept = []; at = 0; old_others = []; fresh_others = [] } }
    {
        Walk {
            kept: List::new(alloc),
            at: 0,
            old_others: List::new(alloc),
            fresh_others: List::new(alloc),
        }
    }

    /// Notes the old run's next record among the others, if it makes writes.
    fn note(&mut self, old: &Run<'_>) -> Result<(), NoMemory>
        ensures { OnOk result (self.new ≡ noted_old old.now.records self.old) }
    {
        if has_writes(&old.records, self.at) {
            self.old_others.push(self.at)?;
        }
        Ok(())
    }

    /// Passes the old run's records with paths before this one. None of them is kept.
    pub(crate) fn pass(&mut self, old: &Run<'_>, path: &[u32]) -> Result<(), NoMemory>
        ensures passed { OnOk result (HasPassed old.now self.old path.now self.new) }
        ensures stops { OnOk result (is_before (slice_get old.now.paths self.new.at) path.now ≡ false) }
    {
        while self.at < old.paths.len() && is_before(item(old.paths.as_slice(), self.at), path) {
            self.note(old)?;
            self.at += 1;
        }
        Ok(())
    }

    /// Goes on by a record that is kept, with the old run's next record.
    pub(crate) fn keep(&mut self, old: &Run<'_>) -> Result<(), NoMemory>
        requires { self.old.at < length old.now.paths }
        ensures { OnOk result (self.new ≡ kept_more self.old) }
    {
        self.kept.push(true)?;
        if self.at < old.paths.len() {
            self.at += 1;
        }
        Ok(())
    }

    /// Goes on by a record of the new run that isn't kept. It has this number.
    pub(crate) fn renew(&mut self, fresh: &Run<'_>, number: usize) -> Result<(), NoMemory>
        ensures { OnOk result (self.new ≡ other_more fresh.now.records number self.old) }
    {
        self.kept.push(false)?;
        if has_writes(&fresh.records, number) {
            self.fresh_others.push(number)?;
        }
        Ok(())
    }
}
