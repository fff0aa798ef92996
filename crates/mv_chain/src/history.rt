//! The versions of a row that has more than one, or patches of calls that have not committed.

ghost use Rattle.std.specs.Prelude.{◌≡◌, ◌↔◌, ◌==◌, ◌&&◌, ◌||◌, not, true, IsTrue, ◌<◌, ◌≤◌, ◌++◌, ◌∷◌, ℕ, [], IfOk, OnOk, OnErr, OnSome, IfSome, drop, length, slice_get};
ghost use Rattle.std.specs.Vec.{vec_capacity};
ghost use Rattle.std.specs.Option.{is_some, option_and_then, option_copied};
ghost use Rattle.mv_values.specs.declared.value.Value.{Value as Val};
ghost use Rattle.mv_values.specs.Preds.{matched};
ghost use Rattle.mv_chain.specs.Versions.{row_at, newest, IsAboveAll, own_of, without, with_own, stamped, collected, is_blank, blank};
ghost use Rattle.mv_chain.specs.Holding.{is_plain};
ghost use Rattle.mv_chain.specs.Undoing.{before};
ghost use Rattle.mv_chain.specs.Having.{has_value, undos_have};

use crate::column::{others_have, own_has, patched_has, undone_have};
use crate::commit::do_patch;
use crate::compose::compose;
use crate::pending::{Pending, place_of};
use crate::undo::{Undo, are_below, place_after, row_before, stood_before, value_before};
use mv_values::copied::Copied;
use mv_values::lent::{Lent, kept, made};
use mv_values::memory::NoMemory;
use mv_values::patch::Patch;
use mv_values::pred_ref::PredRef;
use mv_values::value::{Row, Value};
use std::alloc::Global;
use std::marker::Model;
use std::mem;

/// The newest row, what undoes each commit since the last collection, and the patches of calls that have not committed.
#[derive(Drop)]
pub(crate) struct History {
    row: Option<Row>,
    undos: Vec<Undo>,
    own: Vec<Pending>,
}

impl Model for History {
    ghost use Rattle.std.specs.Prelude.{◌≤◌, ◌+◌, length};
    ghost use Rattle.std.specs.Vec.{vec_capacity};
    ghost use Rattle.mv_chain.specs.Versions.{Versions};
    ghost use Rattle.mv_chain.specs.Undoing.{before, commits_of, Rises};

    ghost Value = { Versions };

    ghost view = { λ h. record { base = before h.undos.items h.row; commits = commits_of h.undos.items h.row; own = h.own.items } };

    ghost invariant = { λ h. Rises h.undos.items × (length h.undos.items + length h.own.items ≤ vec_capacity h.undos) };
}

impl History {
    /// Returns versions without rows and patches. It allocates no memory.
    pub(crate) fn new(alloc: Global) -> History
        ensures { result ≡ blank }
    {
        History {
            row: None,
            undos: Vec::new(alloc),
            own: Vec::new(alloc),
        }
    }

    /// Returns the row after the last commit, if there is one.
    pub(crate) fn newest(&self) -> Option<&Row>
        ensures { option_copied result ≡ newest self.now }
    {
        self.row.as_ref()
    }

    /// Returns the row after commit n, if there is one. At the newest number it lends the row. Otherwise it makes the
    /// row, in time linear in the size of the row and of the patches after n, and fails if memory runs out. The search
    /// for the patches takes time logarithmic in the number of commits.
    pub(crate) fn row_at(&self, alloc: Global, n: u32) -> Result<Option<Lent<'_>>, NoMemory>
        ensures { IfOk result (λ row. row ≡ row_at self.now n) }
    {
        let undos = self.undos.as_slice();
        let first = place_after(undos, n);
        let was = row_lent(alloc, self.row.as_ref(), undos, first)?;
        Ok(was)
    }

    /// Returns the row after commit n, if there is one and the predicate matches it. It takes as long as `row_at`, and
    /// lends the row where that does.
    pub(crate) fn found_at(
        &self,
        alloc: Global,
        n: u32,
        pred: &PredRef<'_>,
    ) -> Result<Option<Lent<'_>>, NoMemory>
        ensures { IfOk result (λ row. row ≡ matched pred.now (row_at self.now n)) }
    {
        let row = self.row_at(alloc, n)?;
        Ok(only_match(row, pred))
    }

    /// Whether there is a row after commit n. Takes time logarithmic in the number of commits, and linear in the number
    /// of those after n.
    pub(crate) fn exists_at(&self, n: u32) -> bool
        ensures { result ≡ is_some (row_at self.now n) }
    {
        let first = place_after(self.undos.as_slice(), n);
        stood_before(&self.undos[first..], self.row.as_ref())
    }

    /// Returns the value of a column after commit n, if there is a row. Takes time logarithmic in the number of
    /// commits, and linear in the number and size of the patches after n, up to the first that sets the column.
    pub(crate) fn value_at(&self, n: u32, column: u8) -> Option<&Value>
        requires { IfSome (row_at self.now n) (λ row. column < length row) }
        ensures { option_copied result ≡ option_and_then (λ row. slice_get row column) (row_at self.now n) }
    {
        if !self.exists_at(n) {
            return None;
        }
        let first = place_after(self.undos.as_slice(), n);
        value_before(&self.undos[first..], self.row.as_ref(), column)
    }

    /// Whether a call has a patch that is not committed.
    pub(crate) fn has_own(&self, call: u32) -> bool
        ensures { result ≡ is_some (own_of call self.now.own) }
    {
        place_of(self.own.as_slice(), call).is_some()
    }

    /// Returns the patches that are not committed.
    pub(crate) fn own(&self) -> &[Pending]
        ensures { result.now ≡ self.now.own }
    {
        self.own.as_slice()
    }

    /// Returns a call's patch, if it has one that is not committed.
    pub(crate) fn own_of(&self, call: u32) -> Option<&Patch>
        ensures { option_copied result ≡ own_of call self.now.own }
    {
        match place_of(self.own.as_slice(), call) {
            Some(at) => Some(&self.own[at].patch),
            None => None,
        }
    }

    /// Returns what undoes the commits up to `low`. A value that no version has once they are collected stands in it.
    pub(crate) fn dropped(&self, low: u32) -> &[Undo]
        ensures { (c : ℕ) (v : Val) → has_value c v self.now ≡ true → (has_value c v (collected low self.now) || undos_have c v result.now) ≡ true }
    {
        let end = place_after(self.undos.as_slice(), low);
        &self.undos[..end]
    }

    /// Whether one of the versions has a value in a column.
    pub(crate) fn has_value(&self, column: u8, value: &Value) -> bool
        ensures { result ≡ has_value column value.now self.now }
    {
        undone_have(self.undos.as_slice(), self.row.as_ref(), column, value)
            || own_has(self.own.as_slice(), column, value)
    }

    /// Whether one of the versions has a value in a column without the patch of a call.
    pub(crate) fn has_without(&self, call: u32, column: u8, value: &Value) -> bool
        ensures { result ≡ has_value column value.now (record self.now { own = without call self.now.own }) }
    {
        undone_have(self.undos.as_slice(), self.row.as_ref(), column, value)
            || others_have(self.own.as_slice(), call, column, value)
    }

    /// Whether one of the versions has a value in a column once the patch of a call is stamped.
    pub(crate) fn has_stamped(&self, call: u32, column: u8, value: &Value) -> bool
        ensures { (n : ℕ) → result ≡ has_value column value.now (stamped call n self.now) }
    {
        match self.own_of(call) {
            Some(patch) => {
                patched_has(self.row.as_ref(), patch, column, value)
                    || self.has_without(call, column, value)
            }
            None => self.has_value(column, value),
        }
    }

    /// Whether one of the versions has a value in a column once the rows before commit `low` are dropped.
    pub(crate) fn has_from(&self, low: u32, column: u8, value: &Value) -> bool
        ensures { result ≡ has_value column value.now (collected low self.now) }
    {
        let first = place_after(self.undos.as_slice(), low);
        undone_have(&self.undos[first..], self.row.as_ref(), column, value)
            || own_has(self.own.as_slice(), column, value)
    }

    /// Whether there are no commits and no patches.
    pub(crate) fn is_plain(&self) -> bool
        ensures { result ≡ is_plain self.now }
    {
        are_none(self.undos.as_slice(), self.own.as_slice())
    }

    /// Puts a row, or none, below the patches. There must be no commits.
    pub(crate) fn set_base(&mut self, base: Option<Row>)
        requires { self.old.commits ≡ [] }
        ensures { self.new ≡ record self.old { base = base } }
    {
        self.row = base;
    }

    /// Moves the row after the last commit out, if there is one.
    pub(crate) fn into_newest(self) -> Option<Row>
        ensures { result ≡ newest self }
    {
        let History { row, .. } = self;
        row
    }

    /// Moves the row after commit n out, if there is one. Takes time linear in the size of the patches after n, and
    /// logarithmic in the number of commits.
    pub(crate) fn into_row_at(self, alloc: Global, n: u32) -> Result<Option<Row>, NoMemory>
        ensures { IfOk result (λ row. row ≡ row_at self n) }
    {
        let History { row, undos, .. } = self;
        let first = place_after(undos.as_slice(), n);
        let was = row_before(alloc, row, undos.as_slice(), first)?;
        Ok(was)
    }

    /// Whether there is no row at any number, and no patch.
    pub(crate) fn is_blank(&self) -> bool
        ensures { result ≡ is_blank self.now }
    {
        are_blank(
            self.undos.as_slice(),
            self.own.as_slice(),
            self.row.as_ref(),
        )
    }

    /// Adds a patch of a call, after the call's own, and makes room for its stamp. The call keeps one value for each
    /// column that it sets, however often it does. If memory runs out, the versions are as before.
    pub(crate) fn put(&mut self, call: u32, patch: Patch) -> Result<(), NoMemory>
        ensures ok { OnOk result (self.new ≡ record self.old { own = with_own call patch self.old.own }) }
        ensures err { OnErr result (self.new ≡ self.old) }
    {
        self.undos.reserve(self.own.len() + 1)?;
        match place_of(self.own.as_slice(), call) {
            Some(at) => compose(&mut self.own[at].patch, patch),
            None => {
                self.own.push(Pending { call, patch })?;
                Ok(())
            }
        }
    }

    /// Whether all commits have numbers below n, so that `stamp` accepts n. Takes constant time.
    pub(crate) fn is_next(&self, n: u32) -> bool
        ensures { IsTrue result ↔ IsAboveAll n self.now }
    {
        are_below(self.undos.as_slice(), n)
    }

    /// Turns a call's patch into commit n, if it has one. The number n must be above those of all commits. It allocates
    /// no memory.
    pub(crate) fn stamp(&mut self, call: u32, n: u32)
        requires { OnSome (own_of call self.old.own) (IsAboveAll n self.old) }
        ensures { self.new ≡ stamped call n self.old }
    {
        let Some(at) = place_of(self.own.as_slice(), call) else {
            return;
        };
        let patch = mem::replace(&mut self.own[at].patch, Patch::Delete);
        let done = do_patch(self.row.take(), patch);
        self.row = done.row;
        push_within(
            &mut self.undos,
            Undo {
                commit: n,
                patch: done.undo,
            },
        );
        forget(&mut self.own, call);
    }

    /// Drops a call's patch. It allocates no memory.
    pub(crate) fn drop_of(&mut self, call: u32)
        ensures { self.new ≡ record self.old { own = without call self.old.own } }
    {
        forget(&mut self.own, call);
    }

    /// Returns the number of commits since the base.
    #[tactic(auto, using(crate::proofs::Versions::length_commits))]
    pub(crate) fn commits(&self) -> usize
        ensures { result ≡ length self.now.commits }
    {
        self.undos.len()
    }

    /// Drops the rows before commit `low`. Reads from `low` on and uncommitted patches are unaffected. It allocates no
    /// memory.
    pub(crate) fn collect(&mut self, low: u32)
        ensures versions { self.new ≡ collected low self.old }
        ensures reads { (n : ℕ) → low ≤ n → row_at self.new n ≡ row_at self.old n }
    {
        let gone = place_after(self.undos.as_slice(), low);
        let left = self.undos.len() - gone;
        self.undos.rotate_left(gone);
        self.undos.truncate(left);
    }
}

/// Whether there are no commits and no patches.
fn are_none(undos: &[Undo], own: &[Pending]) -> bool
    ensures { result ≡ ((length undos.now == 0) && (length own.now == 0)) }
{
    undos.is_empty() && own.is_empty()
}

/// Whether there are no commits, no patches and no row.
fn are_blank(undos: &[Undo], own: &[Pending], row: Option<&Row>) -> bool
    ensures { result ≡ ((length undos.now == 0) && (length own.now == 0) && not (is_some row.entry)) }
{
    undos.is_empty() && own.is_empty() && row.is_none()
}

/// Copies a row, if there is one.
fn copy_of(alloc: Global, row: Option<&Row>) -> Result<Option<Row>, NoMemory>
    ensures { IfOk result (λ copy. copy ≡ option_copied row.entry) }
{
    match row {
        Some(row) => Ok(Some(row.copy(alloc)?)),
        None => Ok(None),
    }
}

/// Returns the row before the commits from this place on, given the row after them. It lends the row if there are no such
/// commits, and else makes it.
fn row_lent<'a>(
    alloc: Global,
    row: Option<&'a Row>,
    undos: &[Undo],
    first: usize,
) -> Result<Option<Lent<'a>>, NoMemory>
    requires { first ≤ length undos.now }
    ensures { IfOk result (λ was. was ≡ before (drop first undos.now) (option_copied row.entry)) }
{
    if first == undos.len() {
        return Ok(kept(row));
    }
    let row = copy_of(alloc, row)?;
    let was = row_before(alloc, row, undos, first)?;
    Ok(made(was))
}

/// Lends the row, if there is one and the predicate matches it.
pub(crate) fn lent_match<'a>(row: Option<&'a Row>, pred: &PredRef<'_>) -> Option<Lent<'a>>
    ensures { result ≡ matched pred.now (option_copied row.entry) }
{
    match row {
        Some(row) if pred.matches(row) => Some(Lent::kept(row)),
        _ => None,
    }
}

/// Returns the row, if there is one and the predicate matches it.
fn only_match<'a>(row: Option<Lent<'a>>, pred: &PredRef<'_>) -> Option<Lent<'a>>
    ensures { result ≡ matched pred.now row.entry }
{
    match row {
        Some(row) if pred.matches(row.get()) => Some(row),
        _ => None,
    }
}

/// Appends an entry. There must be room for it.
fn push_within(undos: &mut Vec<Undo>, entry: Undo)
    requires { length undos.old.items < vec_capacity undos.old }
    ensures items { undos.new.items ≡ undos.old.items ++ entry ∷ [] }
    ensures room { vec_capacity undos.old ≤ vec_capacity undos.new }
{
    let _ = undos.push(entry);
}

/// Drops the patches of a call.
fn forget(own: &mut Vec<Pending>, call: u32)
    ensures { own.new.items ≡ without call own.old.items }
{
    own.retain(|pending| pending.call != call);
}
