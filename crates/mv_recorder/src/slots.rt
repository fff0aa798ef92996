//! The variables that statements set, with their values.

ghost use Rattle.std.specs.Prelude.{◌≡◌, ◌<◌, ◌^◌, ◌∷◌, ◌++◌, [], IfOk, OnOk};
ghost use Rattle.std.specs.Option.{is_some, option_copied, option_map};
ghost use Rattle.mv_values.specs.Columns.{columns_of};
ghost use Rattle.mv_eval.specs.Alone.{with_selected, totalled};
ghost use Rattle.mv_eval.specs.Env.{scalar_at, with_found};
ghost use Rattle.mv_record.specs.declared.record.Slot.{Slot};
ghost use Rattle.mv_recorded.specs.Doing.{when};
ghost use Rattle.mv_recorded.specs.Effect.{with_slots};
ghost use Rattle.mv_recorded.specs.Effects.{slots_behind};
ghost use Rattle.mv_recorded.specs.Reading.{each_once};
ghost use Rattle.mv_table.specs.Entries.{seen};

use mv_eval::env::{set_columns, set_found, set_value};
use mv_eval::state::{Content, Env};
use mv_record::record::Slot;
use mv_recorded::reads::once_each;
use mv_table::table::Entry;
use mv_values::copied::Copied;
use mv_values::list::List;
use mv_values::memory::NoMemory;
use mv_values::value::Value;
use std::alloc::Global;

fn copy_content(alloc: Global, content: &Content) -> Result<Content, NoMemory>
    ensures { IfOk result (λ copy. copy ≡ content.now) }
{
    match content {
        Content::Scalar(value) => Ok(Content::Scalar(value.copy(alloc)?)),
        Content::Turn(row) => Ok(Content::Turn(row.copy(alloc)?)),
        Content::Turns(rows) => Ok(Content::Turns(rows.copy(alloc)?)),
    }
}

/// Returns a copy of the variables.
fn copy_env(alloc: Global, env: &Env) -> Result<Env, NoMemory>
    ensures { IfOk result (λ copy. copy ≡ env.now) }
{
    let mut held = List::with_room(alloc, env.held.len())?;
    for content in env.held.as_slice() {
        held.push(copy_content(alloc, content)?)?;
    }
    Ok(Env {
        held,
        found: env.found,
    })
}

/// Returns a copy of the value of a variable, or 0 if it holds rows.
fn scalar(alloc: Global, env: &Env, x: u16) -> Result<Value, NoMemory>
    ensures { IfOk result (λ v. v ≡ scalar_at env.now x) }
{
    match env.held.as_slice().get(x as usize) {
        Some(Content::Scalar(v)) => v.copy(alloc),
        _ => Ok(Value::Int(0)),
    }
}

/// Returns variables with their values.
fn slots_of(alloc: Global, env: &Env, variables: &[u16]) -> Result<List<Slot>, NoMemory>
    ensures { IfOk result (λ slots. slots ≡ slots_behind env.now variables.now) }
{
    let mut slots = List::with_room(alloc, variables.len())?;
    for x in variables {
        let value = scalar(alloc, env, *x)?;
        slots.push(Slot { slot: *x, value })?;
    }
    Ok(slots)
}

/// Returns the number of `:found`.
fn found_number(env: &Env) -> u16
    requires { env.now.found < 2 ^ 16 }
    ensures { result ≡ env.now.found }
{
    env.found as u16
}

/// Returns `:found`, set to whether something was found.
#[tactic(auto, using(mv_recorded::proofs::Slots::found_has))]
pub(crate) fn found_slots(alloc: Global, env: &Env, found: bool) -> Result<List<Slot>, NoMemory>
    requires { env.now.found < 2 ^ 16 }
    ensures { IfOk result (λ slots. slots ≡ slots_behind (with_found env.now found) (env.now.found ∷ [])) }
{
    let value = Value::Int(if found { 1 } else { 0 });
    List::of(
        alloc,
        Slot {
            slot: found_number(env),
            value,
        },
    )
}

/// Returns what a SELECT sets: its targets, each once, if there is a row, and `:found`.
pub(crate) fn selected_slots(
    alloc: Global,
    env: &Env,
    columns: &[u16],
    to: &[u16],
    item: Option<&Entry<'_>>,
) -> Result<List<Slot>, NoMemory>
    requires { env.now.found < 2 ^ 16 }
    ensures { IfOk result (λ slots. slots ≡ slots_behind (with_selected columns.now to.now (option_map seen (option_copied item.entry)) env.now) (when (is_some (option_map seen (option_copied item.entry))) (each_once to.now) ++ env.now.found ∷ [])) }
{
    let Some(entry) = item else {
        return found_slots(alloc, env, false);
    };
    let mut after = copy_env(alloc, env)?;
    set_columns(alloc, &mut after, to, columns, entry.row.as_slice())?;
    set_found(&mut after, true)?;
    let mut variables = once_each(alloc, to)?;
    variables.push(found_number(env))?;
    slots_of(alloc, &after, variables.as_slice())
}

/// Returns what an aggregate sets: its target, if there is a total, and `:found`.
pub(crate) fn total_slots(
    alloc: Global,
    env: &Env,
    to: u16,
    total: Option<Value>,
    found: bool,
) -> Result<List<Slot>, NoMemory>
    requires { env.now.found < 2 ^ 16 }
    ensures { IfOk result (λ slots. slots ≡ slots_behind (with_found (totalled to total env.now) found) (when (is_some total) (to ∷ []) ++ env.now.found ∷ [])) }
{
    let Some(value) = total else {
        return found_slots(alloc, env, found);
    };
    let mut after = copy_env(alloc, env)?;
    set_value(&mut after, to, value)?;
    set_found(&mut after, found)?;
    slots_of(alloc, &after, &[to, found_number(env)])
}

/// Sets variables to these values.
pub(crate) fn set_slots(alloc: Global, env: &mut Env, slots: &[Slot]) -> Result<(), NoMemory>
    ensures { OnOk result (env.new ≡ with_slots slots.now env.old) }
{
    for slot in slots {
        set_value(env, slot.slot, slot.value.copy(alloc)?)?;
    }
    Ok(())
}
