//! The effect of a record on a running call.

ghost use Rattle.std.specs.Prelude.{◌≡◌, List, [], ◌∷◌, ◌++◌, IfOk, OnOk, OnErr, MatchOption};
ghost use Rattle.mv_values.specs.declared.value.Value.{Value};
ghost use Rattle.mv_eval.specs.declared.state.Env.{Env};
ghost use Rattle.mv_catalog.specs.declared.resolved.ProcInfo.{ProcInfo};
ghost use Rattle.mv_catalog.specs.declared.resolved.RStmt.{RStmt, out-RStmt};
ghost use Rattle.mv_graph.specs.Steps.{TellsOf};
ghost use Rattle.mv_recorded.specs.Effect.{with_slots};
ghost use Rattle.mv_exec.specs.Env.{with_changes};
ghost use Rattle.mv_exec.specs.Moves.{after_turns, after_empty_loop};
ghost use Rattle.mv_exec.specs.Running.{stepped};

use crate::changes::{VariableChange, changes_of, make_changes, row_of_empty, set_slots};
use crate::variables::Variables;
use mv_eval::state::Content;
use mv_graph::graph::Step;
use mv_log::record_ref::RecordRef;
use mv_values::copied::Copied;
use mv_values::memory::NoMemory;
use mv_values::value::Row;
use std::alloc::Global;

/// Whether statements are left after the record that was added. `Ended` means that none is.
#[derive(Clone, Copy, PartialEq, Eq)]
pub enum Stepped {
    Ran,
    Ended,
}

/// Returns `Ended` if the call has ended, and `Ran` otherwise.
pub(crate) fn answer(ended: bool) -> Stepped
    ensures { result ≡ stepped ended }
{
    if ended { Stepped::Ended } else { Stepped::Ran }
}

/// Returns the last row.
fn last_of(rows: &[Row]) -> Option<&Row>
    ensures { MatchOption result (rows.now ≡ []) (λ last. (front : List (List Value)) × (rows.now ≡ front ++ last.now ∷ [])) }
{
    match rows {
        [] => None,
        [.., last] => Some(last),
    }
}

/// Adds the changes of a loop with an empty body. The loop's row becomes the last one.
#[tactic(auto, using(crate::proofs::Walking::last_turn))]
fn add_last_row(
    alloc: Global,
    changes: &mut Vec<VariableChange>,
    row: u16,
    rows: &[Row],
) -> Result<(), NoMemory>
    ensures { OnOk result ((e : Env) → with_changes changes.new.items e ≡ after_turns row rows.now (with_changes changes.old.items e)) }
{
    if let Some(last) = last_of(rows) {
        let held = Content::Turn(last.copy(alloc)?);
        changes.push(VariableChange { slot: row, held })?;
    }
    Ok(())
}

/// Returns the changes of a loop with an empty body, whose row is this variable.
#[tactic(auto, using(crate::proofs::Changing::slots_changes))]
fn loop_changes(
    alloc: Global,
    row: u16,
    given: &RecordRef<'_>,
) -> Result<Vec<VariableChange>, NoMemory>
    ensures { IfOk result (λ cs. (e : Env) → with_changes cs.items e ≡ after_turns row given.now.rows (with_slots given.now.sets e)) }
{
    let mut changes = changes_of(alloc, given.sets())?;
    add_last_row(alloc, &mut changes, row, given.rows())?;
    Ok(changes)
}

/// Sets the variables that the record of a statement changes. On `NoMemory` they are unchanged.
pub(crate) fn change_variables(
    alloc: Global,
    variables: &mut Variables,
    step: &Step,
    given: &RecordRef<'_>,
) -> Result<(), NoMemory>
    ensures ok { OnOk result ((proc : ProcInfo) (s : RStmt) → TellsOf proc s step.now → variables.new ≡ (let was = variables.old in record was { env = after_empty_loop (out-RStmt s) given.now.rows (with_slots given.now.sets was.env) })) }
    ensures err { OnErr result (variables.new ≡ variables.old) }
{
    let Some(row) = row_of_empty(step) else {
        set_slots(alloc, variables, given.sets())?;
        return Ok(());
    };
    let changes = loop_changes(alloc, row, given)?;
    make_changes(variables, changes)?;
    Ok(())
}
