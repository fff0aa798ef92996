//! The variables of a call.

ghost use Rattle.std.specs.Prelude.{◌≡◌, IfOk, OnErr, OnOk, length, take};
ghost use Rattle.mv_values.specs.Columns.{column_of, columns_of};
ghost use Rattle.mv_eval.specs.Env.{turn_at, turns_at, padded, truth, with_held, with_value, with_values, with_found, ArePartlySet};

use crate::state::{Content, Env};
use mv_values::columns::value_at;
use mv_values::copied::Copied;
use mv_values::list::List;
use mv_values::memory::NoMemory;
use mv_values::value::{Row, Value};
use std::alloc::Global;

/// Returns 1 for true and 0 for false.
pub(crate) fn truth_of(b: bool) -> Value
    ensures { result ≡ truth b }
{
    Value::Int(if b { 1 } else { 0 })
}

/// Borrows the current row of a loop; empty if the variable holds no row.
pub fn turn(env: &Env, x: u16) -> &[Value]
    ensures { result.now ≡ turn_at env.now x }
{
    match env.held.as_slice().get(x as usize) {
        Some(Content::Turn(row)) => row.as_slice(),
        _ => &[],
    }
}

/// Returns a copy of the rows of a ROWS parameter; empty if the variable holds no rows. Fails if memory runs out.
pub fn copied_turns(alloc: Global, env: &Env, x: u16) -> Result<List<Row>, NoMemory>
    ensures { IfOk result (λ rows. rows ≡ turns_at env.now x) }
{
    match env.held.as_slice().get(x as usize) {
        Some(Content::Turns(rows)) => rows.copy(alloc),
        _ => Ok(List::new(alloc)),
    }
}

/// Returns a copy of the value of a column, or 0 if the row has no such column. Fails if memory runs out.
pub fn column_value(alloc: Global, row: &[Value], c: u16) -> Result<Value, NoMemory>
    ensures { IfOk result (λ v. v ≡ column_of row.now c) }
{
    value_at(alloc, row, c as usize)
}

/// Adds unset variables until there are this many.
#[tactic(auto, using(crate::proofs::Putting::pad_longer, crate::proofs::Putting::pad_full, crate::proofs::Putting::front_longer))]
fn add_unset(held: &mut List<Content>, len: usize) -> Result<(), NoMemory>
    ensures ok { OnOk result (held.new ≡ padded len held.old) }
    ensures err { OnErr result (take (length held.old) held.new ≡ held.old) }
{
    while held.len() < len {
        held.push(Content::Scalar(Value::Int(0)))?;
    }
    Ok(())
}

/// Adds unset variables until there are at least this many. If memory runs out, it fails and the variables are
/// unchanged.
pub fn pad(held: &mut List<Content>, len: usize) -> Result<(), NoMemory>
    ensures ok { OnOk result (held.new ≡ padded len held.old) }
    ensures err { OnErr result (held.new ≡ held.old) }
{
    let before = held.len();
    match add_unset(held, len) {
        Ok(()) => Ok(()),
        Err(error) => {
            held.truncate(before);
            Err(error)
        }
    }
}

/// Sets what a variable holds. Allocates only if there is no such variable yet. If memory runs out, it fails and the
/// variables are unchanged.
#[tactic(auto, using(crate::proofs::Putting::put_padded, crate::proofs::Putting::padded_long))]
pub fn set_held(env: &mut Env, x: usize, what: Content) -> Result<(), NoMemory>
    ensures ok { OnOk result (env.new ≡ with_held env.old x what) }
    ensures err { OnErr result (env.new ≡ env.old) }
{
    let Some(len) = x.checked_add(1) else {
        return Err(NoMemory);
    };
    pad(&mut env.held, len)?;
    env.held.set(x, what);
    Ok(())
}

/// Sets a variable to a value. If memory runs out, it fails and the variables are unchanged.
pub fn set_value(env: &mut Env, x: u16, value: Value) -> Result<(), NoMemory>
    ensures ok { OnOk result (env.new ≡ with_value env.old x value) }
    ensures err { OnErr result (env.new ≡ env.old) }
{
    set_held(env, x as usize, Content::Scalar(value))
}

/// Sets `:found`. If memory runs out, it fails and the variables are unchanged.
pub fn set_found(env: &mut Env, found: bool) -> Result<(), NoMemory>
    ensures ok { OnOk result (env.new ≡ with_found env.old found) }
    ensures err { OnErr result (env.new ≡ env.old) }
{
    set_held(env, env.found, Content::Scalar(truth_of(found)))
}

/// Sets each variable to a copy of the column at the same place, up to the end of the shorter list. If memory runs out,
/// it fails, and the first of the variables are set.
#[tactic(auto, using(crate::proofs::Putting::values_end))]
pub fn set_columns(
    alloc: Global,
    env: &mut Env,
    to: &[u16],
    columns: &[u16],
    row: &[Value],
) -> Result<(), NoMemory>
    ensures ok { OnOk result (env.new ≡ with_values env.old to.now (columns_of row.now columns.now)) }
    ensures err { OnErr result (ArePartlySet to.now row.now columns.now env.old env.new) }
{
    for (i, x) in to.iter().enumerate() {
        let Some(c) = columns.get(i) else {
            return Ok(());
        };
        set_value(env, *x, column_value(alloc, row, *c)?)?;
    }
    Ok(())
}
