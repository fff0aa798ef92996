//! The changes that a record makes to the variables.

ghost use Rattle.std.specs.Prelude.{◌≡◌, ◌≤◌, [], map, length, IfOk, OnOk, OnErr, MatchOption, option_to_list, List};
ghost use Rattle.mv_values.specs.declared.value.Value.{Value};
ghost use Rattle.mv_catalog.specs.declared.resolved.ProcInfo.{ProcInfo};
ghost use Rattle.mv_catalog.specs.declared.resolved.RStmt.{RStmt, out-RStmt};
ghost use Rattle.mv_graph.specs.Steps.{TellsOf};
ghost use Rattle.mv_eval.specs.declared.state.Env.{Env};
ghost use Rattle.mv_recorded.specs.Effect.{with_slots};
ghost use Rattle.mv_exec.specs.Env.{with_changed, room, of_slot};
ghost use Rattle.mv_exec.specs.Moves.{after_empty_loop, after_turns};

use crate::moves::{Holds, holds_in};
use crate::variables::Variables;
use mv_eval::state::Content;
use mv_graph::graph::Step;
use mv_record::record::Slot;
use mv_values::copied::Copied;
use mv_values::memory::NoMemory;
use mv_values::value::Row;
use std::alloc::Global;

/// A variable, and its new value.
#[derive(Drop)]
pub struct VariableChange {
    pub slot: u16,
    pub held: Content,
}

/// Returns the number of variables that the changes need.
#[tactic(auto, using(crate::proofs::Changing::room_next))]
fn room_for(changes: &[VariableChange]) -> usize
    ensures { result ≡ room changes.now }
{
    let mut most = 0;
    for change in changes {
        let needed = change.slot as usize + 1;
        if needed > most {
            most = needed;
        }
    }
    most
}

/// Sets variables, in order.
#[tactic(auto, using(crate::proofs::Changing::room_here))]
fn set_all(variables: &mut Variables, changes: Vec<VariableChange>)
    requires { room changes.items ≤ length variables.old.env.held }
    ensures { variables.new ≡ with_changed changes.items variables.old }
{
    for change in changes {
        variables.put(change.slot as usize, change.held);
    }
}

/// Makes changes, in order. On `NoMemory` the variables are unchanged.
#[tactic(auto, using(crate::proofs::Changing::padded_changes, mv_eval::proofs::Putting::padded_long))]
pub(crate) fn make_changes(
    variables: &mut Variables,
    changes: Vec<VariableChange>,
) -> Result<(), NoMemory>
    ensures ok { OnOk result (variables.new ≡ with_changed changes.items variables.old) }
    ensures err { OnErr result (variables.new ≡ variables.old) }
{
    variables.widen(room_for(&changes))?;
    set_all(variables, changes);
    Ok(())
}

/// Returns the changes that slots describe.
pub(crate) fn changes_of(alloc: Global, slots: &[Slot]) -> Result<Vec<VariableChange>, NoMemory>
    ensures { IfOk result (λ cs. cs.items ≡ map of_slot slots.now) }
{
    let mut changes = Vec::with_capacity(alloc, slots.len())?;
    for slot in slots {
        let held = Content::Scalar(slot.value.copy(alloc)?);
        changes.push(VariableChange {
            slot: slot.slot,
            held,
        })?;
    }
    Ok(changes)
}

/// Sets variables to the values of slots, in order. It makes no list for a single one. On `NoMemory` the variables are
/// unchanged.
#[tactic(auto, using(crate::proofs::Changing::slots_changes))]
pub(crate) fn set_slots(
    alloc: Global,
    variables: &mut Variables,
    slots: &[Slot],
) -> Result<(), NoMemory>
    ensures ok { OnOk result (variables.new ≡ (let was = variables.old in record was { env = with_slots slots.now was.env })) }
    ensures err { OnErr result (variables.new ≡ variables.old) }
{
    match slots {
        [] => Ok(()),
        [slot] => {
            let held = Content::Scalar(slot.value.copy(alloc)?);
            variables.set(slot.slot, held)
        }
        _ => {
            let changes = changes_of(alloc, slots)?;
            make_changes(variables, changes)
        }
    }
}

/// Returns the row variable of a loop with an empty body.
pub(crate) fn row_of_empty(step: &Step) -> Option<u16>
    ensures { (proc : ProcInfo) (s : RStmt) → TellsOf proc s step.now → MatchOption result ((rows : List (List Value)) (env : Env) → after_empty_loop (out-RStmt s) rows env ≡ env) (λ x. (rows : List (List Value)) (env : Env) → after_empty_loop (out-RStmt s) rows env ≡ after_turns x rows env) }
{
    let Holds::Body { row } = holds_in(&step.statement) else {
        return None;
    };
    if step.size > 1 { None } else { Some(row) }
}
