//! The walk of a repair: the new run record by record, with the old run beside it.

ghost use Rattle.std.specs.Prelude.{◌≡◌, ◌<◌, ◌≤◌, ◌&&◌, ◌||◌, not, ℕ, List as Seq, Some, true, false, length, slice_get, IfOk, OnOk};
ghost use Rattle.mv_record.specs.Paths.{paths};
ghost use Rattle.mv_history.specs.Kept.{is_path};
ghost use Rattle.mv_repair.specs.Walking.{noted, path_behind, is_before, is_in_place, is_kept_by, kept_as, next_stays, reads_by, same_definer, stays_at, is_touched, noted_next, next_passed, left_behind, added, renewed, AreKnownIfMany, HasCaughtUp, HasPassed, IsComeTo};

use crate::keys::Keys;
use crate::paths::{Path, is_earlier, item, path_at, path_of};
use crate::touch::{has_writes, is_touched, learn, record_at};
use mv_exec::ahead::Ahead;
use mv_exec::task::Task;
use mv_log::record_ref::RecordRef;
use mv_log::records::Records;
use mv_log::var_read::VarRead;
use mv_values::list::List;
use mv_values::memory::NoMemory;
use std::alloc::Global;

/// The old run of a call. Its records are the task's past.
#[derive(Drop)]
pub(crate) struct OldRun {
    /// Whether a change hits the record.
    pub(crate) hits: List<bool>,
    /// The number of its next record. Those before it were kept or passed.
    pub(crate) at: usize,
    /// The numbers of the passed records that made writes.
    pub(crate) others: List<usize>,
    /// The keys of the others' writes.
    pub(crate) keys: Keys,
    /// How many of the others have their keys there.
    pub(crate) known: usize,
}

/// The new run of a call.
#[derive(Drop)]
pub(crate) struct NewRun {
    /// For each record the number of the old record that it keeps.
    pub(crate) kept: List<Option<u32>>,
    /// The numbers of the executed records that made writes.
    pub(crate) others: List<usize>,
    /// The keys of the others' writes.
    pub(crate) keys: Keys,
    /// How many of the others have their keys there.
    pub(crate) known: usize,
}

/// Whether these are the iterations around the place ahead.
fn is_in_turns(ahead: &Ahead<'_>, turns: &[u32]) -> bool
    ensures { result ≡ is_path ahead.now.spot.turns turns.now }
{
    ahead.is_in(turns)
}

/// Whether a record is in the place ahead.
fn is_in_place(record: &RecordRef<'_>, ahead: &Ahead<'_>) -> bool
    ensures { result ≡ is_in_place (Some record.now) ahead.now.spot }
{
    record.statement() == ahead.statement() && is_in_turns(ahead, record.turns())
}

/// Returns the path of the record that is ahead of the new run.
fn path_ahead(alloc: Global, task: &Task, ahead: &Ahead<'_>) -> Result<Path, NoMemory>
    ensures { IfOk result (λ p. p ≡ path_behind task.now.log.records ahead.now.spot ahead.now.parent) }
{
    let records = task.records();
    let turns = ahead.turns(alloc)?;
    let path = path_of(
        alloc,
        &records,
        records.len(),
        ahead.statement(),
        turns.as_slice(),
        ahead.parent(),
    )?;
    Ok(path)
}

impl OldRun {
    /// Whether the next record is in the place ahead. `past` has the records of the old run.
    fn is_at(&self, past: &Records<'_>, ahead: &Ahead<'_>) -> bool
        ensures { result ≡ is_in_place (slice_get past.now self.now.at) ahead.now.spot }
    {
        match record_at(past, self.at) {
            Some(record) => is_in_place(&record, ahead),
            None => false,
        }
    }

    /// Whether there is a next record and its path is before this one. `past` has the records of the old run.
    fn is_before(&self, alloc: Global, past: &Records<'_>, path: &[u32]) -> Result<bool, NoMemory>
        ensures is { IfOk result (λ it. it ≡ is_before (slice_get (paths past.now) self.now.at) path.now) }
        ensures there { IfOk result (λ it. it ≡ true → self.now.at < length past.now) }
    {
        if self.at >= past.len() {
            return Ok(false);
        }
        let own = path_at(alloc, past, self.at)?;
        Ok(is_earlier(own.as_slice(), path))
    }

    /// Notes the next record among the others, if it made writes. `past` has the records of the old run.
    fn note(&mut self, past: &Records<'_>) -> Result<(), NoMemory>
        ensures { OnOk result (self.new ≡ noted_next past.now self.old) }
    {
        if has_writes(past, self.at) {
            self.others.push(self.at)?;
        }
        Ok(())
    }

    /// Passes the next record. The new run doesn't keep it. `past` has the records of the old run.
    fn pass_next(&mut self, past: &Records<'_>) -> Result<(), NoMemory>
        requires { self.old.at < length past.now }
        ensures { OnOk result (self.new ≡ next_passed past.now self.old) }
    {
        if self.at >= past.len() {
            unreachable!();
        }
        self.note(past)?;
        self.at += 1;
        Ok(())
    }

    /// Passes the records with paths before this one. The new run doesn't keep them. `past` has the records of the old
    /// run.
    fn pass_before(
        &mut self,
        alloc: Global,
        past: &Records<'_>,
        path: &[u32],
    ) -> Result<(), NoMemory>
        requires { self.old.known ≤ length self.old.others }
        ensures passed { OnOk result (HasPassed past.now self.old path.now self.new) }
        ensures stops { OnOk result (is_before (slice_get (paths past.now) self.new.at) path.now ≡ false) }
        ensures on { OnOk result (self.old.at ≤ self.new.at) }
        ensures within { OnOk result (self.new.known ≤ length self.new.others) }
    {
        while self.is_before(alloc, past, path)? {
            self.pass_next(past)?;
        }
        Ok(())
    }

    /// Passes the records with paths before that of the record ahead. The new run doesn't keep them. Works paths out only
    /// if the next record isn't in the place ahead. Returns whether the next record is there then.
    fn seek(&mut self, alloc: Global, task: &Task, ahead: &Ahead<'_>) -> Result<bool, NoMemory>
        requires { self.old.known ≤ length self.old.others }
        ensures passed { OnOk result (HasPassed task.now.log.past self.old (path_behind task.now.log.records ahead.now.spot ahead.now.parent) self.new) }
        ensures stops { OnOk result (IsComeTo task.now.log.past self.new.at ahead.now.spot (path_behind task.now.log.records ahead.now.spot ahead.now.parent)) }
        ensures at { IfOk result (λ it. it ≡ is_in_place (slice_get task.now.log.past self.new.at) ahead.now.spot) }
        ensures on { OnOk result (self.old.at ≤ self.new.at) }
        ensures within { OnOk result (self.new.known ≤ length self.new.others) }
    {
        let past = task.past();
        if self.is_at(&past, ahead) {
            return Ok(true);
        }
        let path = path_ahead(alloc, task, ahead)?;
        self.pass_before(alloc, &past, path.as_slice())?;
        Ok(self.is_at(&past, ahead))
    }

    /// Passes the records with paths before that of the record ahead. The new run doesn't keep them. Then the keys of all
    /// others are known, if they are many. Returns whether the next record is in the place ahead.
    pub(crate) fn pass(
        &mut self,
        alloc: Global,
        task: &Task,
        ahead: &Ahead<'_>,
    ) -> Result<bool, NoMemory>
        requires { self.old.known ≤ length self.old.others }
        ensures passed { OnOk result (HasPassed task.now.log.past self.old (path_behind task.now.log.records ahead.now.spot ahead.now.parent) self.new) }
        ensures stops { OnOk result (IsComeTo task.now.log.past self.new.at ahead.now.spot (path_behind task.now.log.records ahead.now.spot ahead.now.parent)) }
        ensures at { IfOk result (λ it. it ≡ is_in_place (slice_get task.now.log.past self.new.at) ahead.now.spot) }
        ensures on { OnOk result (self.old.at ≤ self.new.at) }
        ensures all { OnOk result (16 < length self.new.others → self.new.known ≡ length self.new.others) }
    {
        let is_there = self.seek(alloc, task, ahead)?;
        let others = self.others.as_slice();
        self.known = learn(alloc, &mut self.keys, self.known, &task.past(), others)?;
        Ok(is_there)
    }

    /// Passes the next record too, if it is in the place of one that will be executed. `past` has the records of the old
    /// run.
    pub(crate) fn leave(&mut self, past: &Records<'_>, is_there: bool) -> Result<(), NoMemory>
        requires { is_there ≡ true → self.old.at < length past.now }
        ensures { OnOk result (self.new ≡ left_behind is_there past.now self.old) }
    {
        if is_there {
            self.pass_next(past)?;
        }
        Ok(())
    }
}

impl NewRun {
    /// Adds a record. It keeps the old record with this number, if any.
    pub(crate) fn add(&mut self, old: Option<u32>) -> Result<(), NoMemory>
        ensures { OnOk result (self.new ≡ added old self.old) }
    {
        self.kept.push(old)
    }

    /// Adds a record with this number, which will be executed and may make writes.
    pub(crate) fn add_executed(&mut self, number: usize) -> Result<(), NoMemory>
        ensures { OnOk result (self.new ≡ renewed number true self.old) }
    {
        self.add(None)?;
        self.others.push(number)
    }

    /// Adds the keys of the others that aren't known yet, if the others are many. `records` are those of the new run so
    /// far.
    pub(crate) fn catch_up(&mut self, alloc: Global, records: &Records<'_>) -> Result<(), NoMemory>
        requires { self.old.known ≤ length self.old.others }
        ensures { OnOk result (HasCaughtUp records.now self.old self.new) }
    {
        let others = self.others.as_slice();
        self.known = learn(alloc, &mut self.keys, self.known, records, others)?;
        Ok(())
    }

    /// Drops the last number noted, if its record made no writes.
    pub(crate) fn retain_last(&mut self, writes: bool)
        ensures { (numbers : Seq ℕ) (number : ℕ) → self.old.others ≡ noted true number numbers → self.new ≡ record self.old { others = noted writes number numbers } }
    {
        if !writes {
            self.others.pop();
        }
    }
}

/// Returns the number of the old record that the new record with this number keeps.
fn kept_as(kept: &[Option<u32>], number: u32) -> Option<u32>
    ensures { result ≡ kept_as kept.now number }
{
    match kept.get(number as usize) {
        Some(old) => *old,
        None => None,
    }
}

/// Whether there is no such record of the new run, or it keeps an old one.
fn is_kept(kept: &[Option<u32>], number: Option<u32>) -> bool
    ensures { result ≡ is_kept_by kept.now number }
{
    let Some(number) = number else {
        return true;
    };
    match kept_as(kept, number) {
        Some(_) => true,
        None => false,
    }
}

/// Whether the new record with one number keeps the old record with the other, or both numbers are absent.
fn same_definer(kept: &[Option<u32>], old: Option<u32>, new: Option<u32>) -> bool
    ensures { result ≡ same_definer kept.now old new }
{
    match (old, new) {
        (Some(old), Some(new)) => match kept_as(kept, new) {
            Some(number) => number == old,
            None => false,
        },
        (None, None) => true,
        _ => false,
    }
}

/// Returns one of the variables that a record reads.
fn read_at(reads: &[VarRead], at: usize) -> VarRead
    requires { at < length reads.now }
    ensures { slice_get reads.now at ≡ Some result }
{
    reads[at]
}

/// Whether a variable has the same definer in both runs, which is kept, or in both its default.
fn read_stays(kept: &[Option<u32>], old: VarRead, new: VarRead) -> bool
    ensures { result ≡ same_definer kept.now old.definer new.definer }
{
    same_definer(kept, old.definer(), new.definer())
}

/// Whether each variable has the same definer in both runs, which is kept, or in both its default.
#[tactic(auto, using(crate::proofs::Lists::reads_next, crate::proofs::Lists::reads_apart))]
fn reads_stay(kept: &[Option<u32>], olds: &[VarRead], ahead: &Ahead<'_>) -> bool
    ensures { result ≡ reads_by kept.now olds.now ahead.now.reads }
{
    if olds.len() != ahead.reads() {
        return false;
    }
    for number in 0..olds.len() {
        let old = read_at(olds, number);
        let new = ahead.read(number);
        if !read_stays(kept, old, new) {
            return false;
        }
    }
    true
}

/// Whether a write of the others of either run touches the record. None touches one without predicates.
fn is_touched_by_others(
    alloc: Global,
    record: &RecordRef<'_>,
    task: &Task,
    old: &OldRun,
    new: &NewRun,
) -> Result<bool, NoMemory>
    requires old { AreKnownIfMany old.now.keys task.now.log.past old.now.others }
    requires new { AreKnownIfMany new.now.keys task.now.log.records new.now.others }
    ensures { IfOk result (λ touched. touched ≡ (is_touched record.now task.now.log.past old.now.others || is_touched record.now task.now.log.records new.now.others)) }
{
    if record.preds().len() == 0 {
        return Ok(false);
    }
    let past = task.past();
    if is_touched(alloc, record, &past, old.others.as_slice(), &old.keys)? {
        return Ok(true);
    }
    let records = task.records();
    is_touched(alloc, record, &records, new.others.as_slice(), &new.keys)
}

/// Whether the next record of the old run may stay as the record that is ahead of the new run, but for the writes that
/// touch it.
fn may_stay(record: &RecordRef<'_>, is_hit: bool, new: &NewRun, ahead: &Ahead<'_>) -> bool
    ensures { result ≡ (is_kept_by new.now.kept ahead.now.parent && (reads_by new.now.kept record.now.reads ahead.now.reads && not is_hit)) }
{
    let kept = new.kept.as_slice();
    is_kept(kept, ahead.parent()) && (reads_stay(kept, record.reads(), ahead) && !is_hit)
}

/// Whether the next record of the old run stays as the record that is ahead of the new run, if they have the same path.
fn next_stays(
    alloc: Global,
    task: &Task,
    old: &OldRun,
    new: &NewRun,
    ahead: &Ahead<'_>,
) -> Result<bool, NoMemory>
    requires old { AreKnownIfMany old.now.keys task.now.log.past old.now.others }
    requires new { AreKnownIfMany new.now.keys task.now.log.records new.now.others }
    ensures { IfOk result (λ stays. stays ≡ next_stays task.now.log.past old.now new.now task.now.log.records ahead.now (slice_get task.now.log.past old.now.at) (slice_get old.now.hits old.now.at)) }
{
    let Some(record) = record_at(&task.past(), old.at) else {
        return Ok(false);
    };
    let Some(is_hit) = item(old.hits.as_slice(), old.at) else {
        return Ok(false);
    };
    if !may_stay(&record, *is_hit, new, ahead) {
        return Ok(false);
    }
    Ok(!is_touched_by_others(alloc, &record, task, old, new)?)
}

/// Whether the next record of the old run stays as the record that is ahead of the new run. `is_there` tells whether they
/// have the same place.
pub(crate) fn stays(
    alloc: Global,
    task: &Task,
    old: &OldRun,
    new: &NewRun,
    ahead: &Ahead<'_>,
    is_there: bool,
) -> Result<bool, NoMemory>
    requires old { AreKnownIfMany old.now.keys task.now.log.past old.now.others }
    requires new { AreKnownIfMany new.now.keys task.now.log.records new.now.others }
    requires there { is_there ≡ is_in_place (slice_get task.now.log.past old.now.at) ahead.now.spot }
    ensures { IfOk result (λ stays. stays ≡ stays_at task.now.log.past old.now new.now task.now.log.records ahead.now) }
{
    if !is_there {
        return Ok(false);
    }
    next_stays(alloc, task, old, new, ahead)
}
