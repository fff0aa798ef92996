//! The variables of a running call. What they held at the beginning can be restored.

ghost use Rattle.std.specs.Prelude.{◌≡◌, ◌<◌, ◌≤◌, List, Some, None, length, slice_get, slice_set, take, IfOk, OnOk, OnErr};
ghost use Rattle.mv_eval.specs.declared.state.Content.{Content};
ghost use Rattle.mv_eval.specs.Env.{padded, with_held};
ghost use Rattle.mv_exec.specs.Env.{at_beginning, restored, is_unset, set_back, AreNone};

use mv_eval::env::pad;
use mv_eval::state::{Content, Env};
use mv_values::list::List;
use mv_values::memory::NoMemory;
use std::alloc::Global;
use std::marker::Model;

/// The variables of a running call, and those with which it began.
#[derive(Drop)]
pub struct Variables {
    env: Env,
    /// For each initial variable what it held before it was first set. `None` if it wasn't set.
    kept: Vec<Option<Content>>,
}

impl Model for Variables {
    ghost use Rattle.std.specs.Prelude.{◌≤◌, length};
    ghost use Rattle.mv_exec.specs.Env.{CallVariables, restored};

    ghost Value = { CallVariables };

    ghost view = { λ v. record { env = v.env; initial = record { held = restored v.kept.items v.env.held; found = v.env.found } } };

    ghost invariant = { λ v. length v.kept.items ≤ length v.env.held };
}

/// Returns a list that keeps nothing of this many variables.
#[tactic(auto, using(crate::proofs::Restoring::one_none))]
fn nothing_kept(alloc: Global, len: usize) -> Result<Vec<Option<Content>>, NoMemory>
    ensures { IfOk result (λ kept. (length kept.items ≡ len) × AreNone len kept.items) }
{
    let mut kept = Vec::with_capacity(alloc, len)?;
    while kept.len() < len {
        kept.push(None)?;
    }
    Ok(kept)
}

/// Whether a variable was there at the beginning, and nothing is kept of it.
fn is_unset(kept: &[Option<Content>], variable: usize) -> bool
    ensures { result ≡ is_unset (slice_get kept.now variable) }
{
    match kept.get(variable) {
        Some(None) => true,
        _ => false,
    }
}

/// Keeps what a variable held before it was set, unless it was set before. A variable that wasn't there at the
/// beginning is ignored.
#[tactic(auto, using(crate::proofs::Restoring::restored_first, crate::proofs::Restoring::restored_again, crate::proofs::Restoring::set_len))]
fn keep(kept: &mut Vec<Option<Content>>, variable: usize, was: Content)
    ensures initial { (hs : List Content) (now : Content) → slice_get hs variable ≡ Some was → restored kept.new.items (slice_set hs variable now) ≡ restored kept.old.items hs }
    ensures len { length kept.new.items ≡ length kept.old.items }
{
    if is_unset(kept.as_slice(), variable) {
        kept[variable] = Some(was);
    }
}

/// Returns what is kept of a variable, which is then kept no longer.
fn take(kept: &mut Vec<Option<Content>>, variable: usize) -> Option<Content>
    requires { variable < length kept.old.items }
    ensures items { kept.new.items ≡ slice_set kept.old.items variable None }
    ensures back { slice_get kept.old.items variable ≡ Some result }
{
    kept[variable].take()
}

/// Sets a variable to what was kept of it. If nothing was, the variable is unchanged.
fn set_back(held: &mut List<Content>, variable: usize, kept: Option<Content>)
    requires { variable < length held.old }
    ensures { held.new ≡ set_back held.old variable kept }
{
    if let Some(first) = kept {
        held.set(variable, first);
    }
}

/// Sets all variables to what was kept of them, which is then kept no longer.
#[tactic(auto, using(crate::proofs::Restoring::restored_front))]
fn set_all_back(held: &mut List<Content>, kept: &mut Vec<Option<Content>>)
    requires { length kept.old.items ≤ length held.old }
    ensures kept { AreNone (length kept.old.items) kept.new.items }
    ensures len { length kept.new.items ≡ length kept.old.items }
    ensures held { take (length kept.old.items) held.new ≡ restored kept.old.items held.old }
    ensures room { length held.new ≡ length held.old }
{
    for variable in 0..kept.len() {
        let first = take(kept, variable);
        set_back(held, variable, first);
    }
}

impl Variables {
    /// Returns the variables of a call that begins.
    #[tactic(auto, using(crate::proofs::Restoring::restored_all))]
    pub(crate) fn new(alloc: Global, env: Env) -> Result<Variables, NoMemory>
        ensures { IfOk result (λ variables. variables ≡ at_beginning env) }
    {
        let kept = nothing_kept(alloc, env.held.len())?;
        Ok(Variables { env, kept })
    }

    /// Borrows the current variables.
    pub(crate) fn env(&self) -> &Env
        ensures { result.now ≡ self.now.env }
    {
        &self.env
    }

    /// Adds unset variables until there are at least this many. On `NoMemory` the variables are unchanged.
    #[tactic(auto, using(crate::proofs::Restoring::restored_padded, crate::proofs::Restoring::padded_longer))]
    pub(crate) fn widen(&mut self, len: usize) -> Result<(), NoMemory>
        ensures ok { OnOk result (self.new ≡ (let was = self.old in let e = was.env in record was { env = record e { held = padded len e.held } })) }
        ensures err { OnErr result (self.new ≡ self.old) }
    {
        pad(&mut self.env.held, len)
    }

    /// Sets what a variable holds. It allocates no memory.
    #[tactic(auto, using(crate::proofs::Restoring::set_len))]
    pub(crate) fn put(&mut self, variable: usize, what: Content)
        requires { variable < length self.old.env.held }
        ensures { self.new ≡ (let was = self.old in let e = was.env in record was { env = record e { held = slice_set e.held variable what } }) }
    {
        let was = self.env.held.replace(variable, what);
        keep(&mut self.kept, variable, was);
    }

    /// Sets what a variable holds. It allocates memory only if there is no such variable yet. On `NoMemory` the
    /// variables are unchanged.
    #[tactic(auto, using(mv_eval::proofs::Putting::put_padded, mv_eval::proofs::Putting::padded_long))]
    pub(crate) fn set(&mut self, variable: u16, what: Content) -> Result<(), NoMemory>
        ensures ok { OnOk result (self.new ≡ (let was = self.old in record was { env = with_held was.env variable what })) }
        ensures err { OnErr result (self.new ≡ self.old) }
    {
        self.widen(variable as usize + 1)?;
        self.put(variable as usize, what);
        Ok(())
    }

    /// Sets the variables to the initial ones. It allocates no memory.
    pub(crate) fn begin_again(&mut self)
        ensures { self.new ≡ at_beginning self.old.initial }
    {
        set_all_back(&mut self.env.held, &mut self.kept);
        self.env.held.truncate(self.kept.len());
    }
}
