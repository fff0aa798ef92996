//! The versions of a row.

ghost use Rattle.std.specs.Prelude.{◌≡◌, ◌↔◌, ◌||◌, true, IsTrue, ◌<◌, ◌≤◌, ℕ, [], IfOk, OnOk, OnErr, OnSome, IfSome, length, slice_get};
ghost use Rattle.std.specs.Option.{is_some, option_and_then, option_copied};
ghost use Rattle.mv_values.specs.declared.value.Value.{Value as Val};
ghost use Rattle.mv_values.specs.Preds.{matched};
ghost use Rattle.mv_chain.specs.Versions.{row_at, newest, IsAboveAll, own_of, without, with_own, stamped, collected, is_blank};
ghost use Rattle.mv_chain.specs.Holding.{versions_of, is_plain};
ghost use Rattle.mv_chain.specs.Having.{has_value, undos_have};

use crate::column::row_has;
use crate::history::{History, lent_match};
use crate::pending::Pending;
use crate::undo::{Undo, column_of};
use mv_values::copied::Copied;
use mv_values::lent::Lent;
use mv_values::memory::NoMemory;
use mv_values::patch::Patch;
use mv_values::pred_ref::PredRef;
use mv_values::value::{Row, Value};
use std::alloc::Global;
use std::marker::Model;
use std::mem;

/// What a chain holds. Commits and patches stand behind a pointer, since most rows have none.
#[derive(Drop)]
enum Form {
    Nothing,
    Only(Row),
    History(Box<History>),
}

/// The versions of a row: the row after each commit since the last collection, and the patches of calls that have not
/// committed. A chain without old versions and patches takes 32 bytes beside the values of its row.
#[derive(Drop)]
pub struct Chain {
    alloc: Global,
    held: Form,
}

impl Model for Chain {
    ghost use Rattle.mv_chain.specs.Versions.{Versions};
    ghost use Rattle.mv_chain.specs.Holding.{versions_of};

    ghost Value = { Versions };

    ghost view = { λ c. versions_of c.held };
}

impl Chain {
    /// Returns the versions of a row, or of none, before any commit. It allocates no memory.
    pub fn new(alloc: Global, base: Option<Row>) -> Chain
        ensures { result ≡ record { base = base; commits = []; own = [] } }
    {
        Chain {
            alloc,
            held: held_of(base),
        }
    }

    /// Returns the row after the last commit, if there is one.
    pub fn newest(&self) -> Option<&Row>
        ensures { option_copied result ≡ newest self.now }
    {
        match &self.held {
            Form::Nothing => None,
            Form::Only(row) => Some(row),
            Form::History(history) => history.newest(),
        }
    }

    /// Returns the row after commit n, if there is one. At the newest number it lends the row. Otherwise it makes the
    /// row, in time linear in the size of the row and of the patches after n, and fails if memory runs out. The search
    /// for the patches takes time logarithmic in the number of commits.
    pub fn row_at(&self, alloc: Global, n: u32) -> Result<Option<Lent<'_>>, NoMemory>
        ensures { IfOk result (λ row. row ≡ row_at self.now n) }
    {
        match &self.held {
            Form::Nothing => Ok(None),
            Form::Only(row) => Ok(Some(Lent::kept(row))),
            Form::History(history) => history.row_at(alloc, n),
        }
    }

    /// Moves the row after commit n out, if there is one. Takes time linear in the size of the patches after n, and
    /// logarithmic in the number of commits. Fails if memory runs out.
    pub fn into_row_at(self, alloc: Global, n: u32) -> Result<Option<Row>, NoMemory>
        ensures { IfOk result (λ row. row ≡ row_at self n) }
    {
        match self.held {
            Form::Nothing => Ok(None),
            Form::Only(row) => Ok(Some(row)),
            Form::History(history) => Box::into_inner(history).into_row_at(alloc, n),
        }
    }

    /// Returns the row after commit n, if there is one and the predicate matches it. It takes as long as `row_at`, and
    /// lends the row where that does.
    pub fn found_at(
        &self,
        alloc: Global,
        n: u32,
        pred: &PredRef<'_>,
    ) -> Result<Option<Lent<'_>>, NoMemory>
        ensures { IfOk result (λ row. row ≡ matched pred.now (row_at self.now n)) }
    {
        match &self.held {
            Form::Nothing => Ok(None),
            Form::Only(row) => Ok(lent_match(Some(row), pred)),
            Form::History(history) => history.found_at(alloc, n, pred),
        }
    }

    /// Whether there is a row after commit n. Takes time logarithmic in the number of commits, and linear in the number
    /// of those after n.
    pub fn exists_at(&self, n: u32) -> bool
        ensures { result ≡ is_some (row_at self.now n) }
    {
        match &self.held {
            Form::Nothing => false,
            Form::Only(_) => true,
            Form::History(history) => history.exists_at(n),
        }
    }

    /// Returns the value of a column after commit n, if there is a row. Takes time logarithmic in the number of
    /// commits, and linear in the number and size of the patches after n, up to the first that sets the column.
    pub fn value_at(&self, n: u32, column: u8) -> Option<&Value>
        requires { IfSome (row_at self.now n) (λ row. column < length row) }
        ensures { option_copied result ≡ option_and_then (λ row. slice_get row column) (row_at self.now n) }
    {
        match &self.held {
            Form::Nothing => None,
            Form::Only(row) => column_of(row, column),
            Form::History(history) => history.value_at(n, column),
        }
    }

    /// Returns how many commits have changed the row since its base. So many old versions are kept.
    pub fn commits(&self) -> usize
        ensures { result ≡ length self.now.commits }
    {
        match &self.held {
            Form::Nothing | Form::Only(_) => 0,
            Form::History(history) => history.commits(),
        }
    }

    /// Whether a call has a patch that is not committed.
    pub fn has_own(&self, call: u32) -> bool
        ensures { result ≡ is_some (own_of call self.now.own) }
    {
        match &self.held {
            Form::Nothing | Form::Only(_) => false,
            Form::History(history) => history.has_own(call),
        }
    }

    /// Returns the patches that are not committed.
    pub fn own(&self) -> &[Pending]
        ensures { result.now ≡ self.now.own }
    {
        match &self.held {
            Form::Nothing | Form::Only(_) => &[],
            Form::History(history) => history.own(),
        }
    }

    /// Returns a call's patch, if it has one that is not committed.
    pub fn own_of(&self, call: u32) -> Option<&Patch>
        ensures { option_copied result ≡ own_of call self.now.own }
    {
        match &self.held {
            Form::Nothing | Form::Only(_) => None,
            Form::History(history) => history.own_of(call),
        }
    }

    /// Returns what undoes the commits up to `low`. A value that no version has once `collect` has dropped the rows
    /// before `low` stands in it.
    pub fn dropped(&self, low: u32) -> &[Undo]
        ensures { (c : ℕ) (v : Val) → has_value c v self.now ≡ true → (has_value c v (collected low self.now) || undos_have c v result.now) ≡ true }
    {
        match &self.held {
            Form::Nothing | Form::Only(_) => &[],
            Form::History(history) => history.dropped(low),
        }
    }

    /// Whether one of the versions has a value in a column: a row, or a patch that is not committed. A column that a row
    /// lacks counts as 0. It copies no row. Takes time linear in the size of the patches.
    pub fn has_value(&self, column: u8, value: &Value) -> bool
        ensures { result ≡ has_value column value.now self.now }
    {
        match &self.held {
            Form::Nothing => false,
            Form::Only(row) => row_has(row, column, value),
            Form::History(history) => history.has_value(column, value),
        }
    }

    /// Whether one of the versions has a value in a column once `drop_of` has dropped the patch of a call.
    pub fn has_without(&self, call: u32, column: u8, value: &Value) -> bool
        ensures { result ≡ has_value column value.now (record self.now { own = without call self.now.own }) }
    {
        match &self.held {
            Form::Nothing => false,
            Form::Only(row) => row_has(row, column, value),
            Form::History(history) => history.has_without(call, column, value),
        }
    }

    /// Whether one of the versions has a value in a column once `stamp` has turned the patch of a call into a commit.
    pub fn has_stamped(&self, call: u32, column: u8, value: &Value) -> bool
        ensures { (n : ℕ) → result ≡ has_value column value.now (stamped call n self.now) }
    {
        match &self.held {
            Form::Nothing => false,
            Form::Only(row) => row_has(row, column, value),
            Form::History(history) => history.has_stamped(call, column, value),
        }
    }

    /// Whether one of the versions has a value in a column once `collect` has dropped the rows before commit `low`.
    pub fn has_from(&self, low: u32, column: u8, value: &Value) -> bool
        ensures { result ≡ has_value column value.now (collected low self.now) }
    {
        match &self.held {
            Form::Nothing => false,
            Form::Only(row) => row_has(row, column, value),
            Form::History(history) => history.has_from(low, column, value),
        }
    }

    /// Whether there is no row at any number, and no patch.
    pub fn is_blank(&self) -> bool
        ensures { result ≡ is_blank self.now }
    {
        match &self.held {
            Form::Nothing => true,
            Form::Only(_) => false,
            Form::History(history) => history.is_blank(),
        }
    }

    /// Adds a patch of a call, after the call's own, and makes room for its stamp. The call keeps one value for each
    /// column that it sets, however often it does. If memory runs out, the versions are as before.
    pub fn put(&mut self, call: u32, patch: Patch) -> Result<(), NoMemory>
        ensures ok { OnOk result (self.new ≡ record self.old { own = with_own call patch self.old.own }) }
        ensures err { OnErr result (self.new ≡ self.old) }
    {
        if let Form::History(history) = &mut self.held {
            return history.put(call, patch);
        }
        let mut history = Box::new(self.alloc, History::new(self.alloc))?;
        history.put(call, patch)?;
        history.set_base(take_newest(&mut self.held));
        self.held = Form::History(history);
        Ok(())
    }

    /// Whether all commits have numbers below n, so that `stamp` accepts n. Takes constant time.
    pub fn is_next(&self, n: u32) -> bool
        ensures { IsTrue result ↔ IsAboveAll n self.now }
    {
        match &self.held {
            Form::Nothing | Form::Only(_) => true,
            Form::History(history) => history.is_next(n),
        }
    }

    /// Turns a call's patch into commit n, if it has one. The number n must be above those of all commits. It allocates
    /// no memory.
    pub fn stamp(&mut self, call: u32, n: u32)
        requires { OnSome (own_of call self.old.own) (IsAboveAll n self.old) }
        ensures { self.new ≡ stamped call n self.old }
    {
        if let Form::History(history) = &mut self.held {
            history.stamp(call, n);
        }
    }

    /// Drops a call's patch. It allocates no memory.
    pub fn drop_of(&mut self, call: u32)
        ensures { self.new ≡ record self.old { own = without call self.old.own } }
    {
        if let Form::History(history) = &mut self.held {
            history.drop_of(call);
        }
        collapse(&mut self.held);
    }

    /// Drops the rows before commit `low`. Reads from `low` on and uncommitted patches are unaffected. It allocates no
    /// memory.
    pub fn collect(&mut self, low: u32)
        ensures versions { self.new ≡ collected low self.old }
        ensures reads { (n : ℕ) → low ≤ n → row_at self.new n ≡ row_at self.old n }
    {
        if let Form::History(history) = &mut self.held {
            history.collect(low);
        }
        collapse(&mut self.held);
    }
}

/// Returns what holds a row, or none, before any commit.
fn held_of(row: Option<Row>) -> Form
    ensures { versions_of result ≡ record { base = row; commits = []; own = [] } }
{
    match row {
        Some(row) => Form::Only(row),
        None => Form::Nothing,
    }
}

/// Whether there are no commits and no patches.
fn has_row_alone(held: &Form) -> bool
    ensures { result ≡ is_plain (versions_of held.now) }
{
    match held {
        Form::Nothing | Form::Only(_) => true,
        Form::History(history) => history.is_plain(),
    }
}

/// Moves the row after the last commit out, if there is one, and leaves nothing.
fn take_newest(held: &mut Form) -> Option<Row>
    ensures { result ≡ newest (versions_of held.old) }
{
    match mem::replace(held, Form::Nothing) {
        Form::Nothing => None,
        Form::Only(row) => Some(row),
        Form::History(history) => Box::into_inner(history).into_newest(),
    }
}

/// Holds the row alone, where there are no commits and no patches. It allocates no memory.
fn collapse(held: &mut Form)
    ensures { versions_of held.new ≡ versions_of held.old }
{
    if has_row_alone(held) {
        *held = held_of(take_newest(held));
    }
}
