//! Writes the variables that statements set into the log of their call.

ghost use Rattle.std.specs.Prelude.{◌≡◌, ◌<◌, ◌^◌, ◌==◌, ◌∷◌, ◌++◌, [], None, true, IfOk, OnOk, OnErr, if◌then◌else◌};
ghost use Rattle.std.specs.Option.{is_some, option_copied};
ghost use Rattle.mv_values.specs.declared.value.Value.{Value};
ghost use Rattle.mv_values.specs.Columns.{columns_of};
ghost use Rattle.mv_eval.specs.Env.{scalar_at, truth, with_values, with_found};
ghost use Rattle.mv_eval.specs.Alone.{with_selected, totalled};
ghost use Rattle.mv_recorded.specs.Doing.{when};
ghost use Rattle.mv_recorded.specs.Reading.{each_once};
ghost use Rattle.mv_effect.specs.Targets.{last_column};
ghost use Rattle.mv_recorded.specs.Effects.{slots_behind};
ghost use Rattle.mv_effect.specs.Logging.{without_effect, with_sets};

use crate::numbers::is_among_first;
use mv_eval::env::column_value;
use mv_eval::state::{Content, Env};
use mv_log::log::Log;
use mv_record::record::Slot;
use mv_table::found::Found;
use mv_table::table::Stored;
use mv_values::copied::Copied;
use mv_values::memory::NoMemory;
use mv_values::value::Value;
use std::alloc::Global;

/// Returns 1 for true and 0 for false.
fn truth_of(b: bool) -> Value
    ensures { result ≡ truth b }
{
    Value::Int(if b { 1 } else { 0 })
}

/// Returns a copy of the value of a variable, or 0 if it holds rows.
fn scalar(alloc: Global, env: &Env, x: u16) -> Result<Value, NoMemory>
    ensures { IfOk result (λ v. v ≡ scalar_at env.now x) }
{
    match env.held.as_slice().get(x as usize) {
        Some(Content::Scalar(v)) => v.copy(alloc),
        _ => Ok(Value::Int(0)),
    }
}

/// Returns `:found`, set to whether something was found.
fn found_slot(env: &Env, found: bool) -> Slot
    requires { env.now.found < 2 ^ 16 }
    ensures { result ≡ record { slot = env.now.found; value = truth found } }
{
    Slot {
        slot: env.found as u16,
        value: truth_of(found),
    }
}

/// Returns a variable with this value. The value of `:found` is `found` instead, since `:found` is set last.
fn slot_before_found(env: &Env, found: bool, x: u16, value: Value) -> Slot
    ensures { result ≡ record { slot = x; value = if x == env.now.found then truth found else value } }
{
    if x as usize == env.found {
        return Slot {
            slot: x,
            value: truth_of(found),
        };
    }
    Slot { slot: x, value }
}

/// Adds `:found` to what the open effect sets, which is nothing yet.
#[tactic(auto, using(mv_recorded::proofs::Slots::found_has))]
pub(crate) fn push_found(env: &Env, found: bool, log: &mut Log) -> Result<(), NoMemory>
    requires found { env.now.found < 2 ^ 16 }
    requires none { log.old.effect.sets ≡ [] }
    ensures ok { OnOk result (log.new ≡ with_sets log.old (slots_behind (with_found env.now found) (env.now.found ∷ []))) }
    ensures err { OnErr result (without_effect log.new ≡ without_effect log.old) }
{
    log.push_set(found_slot(env, found))
}

/// Adds what an aggregate sets: its target, if there is a total, and `:found`. The open effect sets nothing yet.
#[tactic(auto, using(crate::proofs::Variables::total_set))]
pub(crate) fn push_total(
    env: &Env,
    to: u16,
    total: Option<Value>,
    found: bool,
    log: &mut Log,
) -> Result<(), NoMemory>
    requires found { env.now.found < 2 ^ 16 }
    requires none { log.old.effect.sets ≡ [] }
    ensures ok { OnOk result (log.new ≡ with_sets log.old (slots_behind (with_found (totalled to total env.now) found) (when (is_some total) (to ∷ []) ++ env.now.found ∷ []))) }
    ensures err { OnErr result (without_effect log.new ≡ without_effect log.old) }
{
    let Some(value) = total else {
        return push_found(env, found, log);
    };
    log.push_set(slot_before_found(env, found, to, value))?;
    log.push_set(found_slot(env, found))
}

/// Returns the column that a target takes, the last one if the target occurs more than once.
fn column_for(to: &[u16], columns: &[u16], x: u16) -> Option<u16>
    ensures { result ≡ last_column to.now columns.now x None }
{
    let mut last = None;
    for (i, y) in to.iter().enumerate() {
        let Some(column) = columns.get(i) else {
            return last;
        };
        if *y == x {
            last = Some(*column);
        }
    }
    last
}

/// Returns the value of a variable after the targets took the row's columns.
fn target_value(
    alloc: Global,
    env: &Env,
    columns: &[u16],
    to: &[u16],
    row: &[Value],
    x: u16,
) -> Result<Value, NoMemory>
    ensures { IfOk result (λ v. v ≡ scalar_at (with_values env.now to.now (columns_of row.now columns.now)) x) }
{
    match column_for(to, columns, x) {
        Some(column) => column_value(alloc, row, column),
        None => scalar(alloc, env, x),
    }
}

/// Adds what a SELECT sets that found a row: its targets, each once, and `:found`. The open effect sets nothing yet.
fn push_row_slots(
    alloc: Global,
    env: &Env,
    columns: &[u16],
    to: &[u16],
    row: &[Value],
    log: &mut Log,
) -> Result<(), NoMemory>
    requires found { env.now.found < 2 ^ 16 }
    requires none { log.old.effect.sets ≡ [] }
    ensures ok { OnOk result (log.new ≡ with_sets log.old (slots_behind (with_found (with_values env.now to.now (columns_of row.now columns.now)) true) (each_once to.now ++ env.now.found ∷ []))) }
    ensures err { OnErr result (without_effect log.new ≡ without_effect log.old) }
{
    for (i, x) in to.iter().enumerate() {
        if is_among_first(to, i, *x) {
            continue;
        }
        let value = target_value(alloc, env, columns, to, row, *x)?;
        log.push_set(slot_before_found(env, true, *x, value))?;
    }
    log.push_set(found_slot(env, true))
}

/// Adds what a SELECT sets: its targets, each once, if there is a row, and `:found`. The open effect sets nothing yet.
pub(crate) fn push_selected(
    alloc: Global,
    env: &Env,
    columns: &[u16],
    to: &[u16],
    item: Option<&Found<'_>>,
    log: &mut Log,
) -> Result<(), NoMemory>
    requires found { env.now.found < 2 ^ 16 }
    requires none { log.old.effect.sets ≡ [] }
    ensures ok { OnOk result (log.new ≡ with_sets log.old (slots_behind (with_selected columns.now to.now (option_copied item.entry) env.now) (when (is_some (option_copied item.entry)) (each_once to.now) ++ env.now.found ∷ []))) }
    ensures err { OnErr result (without_effect log.new ≡ without_effect log.old) }
{
    match item {
        Some(item) => push_row_slots(alloc, env, columns, to, item.row().as_slice(), log),
        None => push_found(env, false, log),
    }
}
