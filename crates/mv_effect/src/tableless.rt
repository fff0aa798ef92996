//! Statements that read no table.

ghost use Rattle.std.specs.Prelude.{◌≡◌, ◌<◌, ◌^◌, ℕ, List, [], Ok, IfOk, OnOk, OnErr};
ghost use Rattle.mv_values.specs.declared.value.Value.{Value};
ghost use Rattle.mv_catalog.specs.declared.resolved.RStmt.{RStmt};
ghost use Rattle.mv_catalog.specs.declared.resolved.RStmt.TheOpen as layer;
ghost use Rattle.mv_eval.specs.Alone.{is_turn};
ghost use Rattle.mv_eval.specs.Value.{value_of, is_so};
ghost use Rattle.mv_view.specs.Viewing.{Sight};
ghost use Rattle.mv_recorded.specs.Effects.{IsEffectAnywhere};
ghost use Rattle.mv_effect.specs.Logging.{IsBlank, without_effect, with_rows};
ghost use Rattle.mv_effect.specs.Looking.{OnlyAsks};

use crate::asking::{end, stop_early};
use crate::slots::push_found;
use mv_catalog::resolved::RExpr;
use mv_eval::env::copied_turns;
use mv_eval::expr::{holds, value};
use mv_eval::line::line_of_exprs;
use mv_eval::state::Env;
use mv_log::log::Log;
use mv_record::record::Slot;
use mv_values::calls::End;
use mv_values::copied::Copied;
use mv_values::list::List;
use mv_values::memory::NoMemory;
use mv_values::txt::Txt;
use mv_values::value::Row;
use mv_view::view::Refused;
use std::alloc::Global;

/// Writes the effect of SET: it sets its variable. The call ends if the right side is stopped.
#[tactic(auto, using(mv_recorded::proofs::Slots::set_has))]
pub(crate) fn assign(
    alloc: Global,
    to: u16,
    right: &RExpr,
    env: &Env,
    log: &mut Log,
) -> Result<(), Refused>
    requires { IsBlank log.old }
    ensures effect { OnOk result (IsEffectAnywhere (layer.Assign to right.now) env.now log.new.effect) }
    ensures rest { OnOk result (log.new ≡ record log.old { effect = log.new.effect }) }
    ensures err { OnErr result (without_effect log.new ≡ without_effect log.old) }
    ensures view { (sight : Sight) → OnlyAsks sight sight result }
{
    match value(alloc, right, env, &[]) {
        Ok(value) => log.push_set(Slot { slot: to, value })?,
        Err(reason) => stop_early(log, reason)?,
    }
    Ok(())
}

/// Writes the effect of IF, which is none of its own, and returns whether its condition holds. The call ends if the
/// condition is stopped.
pub(crate) fn decide(alloc: Global, test: &RExpr, env: &Env, log: &mut Log) -> Result<bool, Refused>
    requires { IsBlank log.old }
    ensures effect { OnOk result ((ys ns : List RStmt) → IsEffectAnywhere (layer.Branch test.now ys ns) env.now log.new.effect) }
    ensures rest { OnOk result (log.new ≡ record log.old { effect = log.new.effect }) }
    ensures err { OnErr result (without_effect log.new ≡ without_effect log.old) }
    ensures branch { IfOk result (λ it. (v : Value) → value_of test.now env.now [] ≡ Ok v → it ≡ is_so v) }
    ensures view { (sight : Sight) → OnlyAsks sight sight result }
{
    match holds(alloc, test, env) {
        Ok(it) => Ok(it),
        Err(reason) => {
            stop_early(log, reason)?;
            Ok(false)
        }
    }
}

/// Writes the effect of IF: none of its own. The call ends if the condition is stopped.
pub(crate) fn branch(alloc: Global, test: &RExpr, env: &Env, log: &mut Log) -> Result<(), Refused>
    requires { IsBlank log.old }
    ensures effect { OnOk result ((ys ns : List RStmt) → IsEffectAnywhere (layer.Branch test.now ys ns) env.now log.new.effect) }
    ensures rest { OnOk result (log.new ≡ record log.old { effect = log.new.effect }) }
    ensures err { OnErr result (without_effect log.new ≡ without_effect log.old) }
    ensures view { (sight : Sight) → OnlyAsks sight sight result }
{
    match holds(alloc, test, env) {
        Ok(_) => {}
        Err(reason) => stop_early(log, reason)?,
    }
    Ok(())
}

/// Writes the effect of PRINT: it adds a line. The call ends if one of the values is stopped.
pub(crate) fn print(alloc: Global, exprs: &[RExpr], env: &Env, log: &mut Log) -> Result<(), Refused>
    requires { IsBlank log.old }
    ensures effect { OnOk result (IsEffectAnywhere (layer.Print exprs.now) env.now log.new.effect) }
    ensures rest { OnOk result (log.new ≡ record log.old { effect = log.new.effect }) }
    ensures err { OnErr result (without_effect log.new ≡ without_effect log.old) }
    ensures view { (sight : Sight) → OnlyAsks sight sight result }
{
    match line_of_exprs(alloc, exprs, env) {
        Ok(line) => log.push_line(line)?,
        Err(reason) => stop_early(log, reason)?,
    }
    Ok(())
}

/// Writes the effect of ROLLBACK: it ends the call.
pub(crate) fn rollback(alloc: Global, reason: &Txt, log: &mut Log) -> Result<(), Refused>
    requires { IsBlank log.old }
    ensures effect { OnOk result ((env : Env) → IsEffectAnywhere (layer.Rollback reason.now) env log.new.effect) }
    ensures rest { OnOk result (log.new ≡ record log.old { effect = log.new.effect }) }
    ensures err { OnErr result (without_effect log.new ≡ without_effect log.old) }
    ensures view { (sight : Sight) → OnlyAsks sight sight result }
{
    let reason = reason.copy(alloc)?;
    end(log, End::Own(reason))?;
    Ok(())
}

/// Whether a loop has any turn.
pub(crate) fn has_turn(rows: &List<Row>) -> bool
    ensures { result ≡ is_turn rows.now }
{
    match rows.as_slice().first() {
        None => false,
        Some(_) => true,
    }
}

/// Moves rows into the open effect, which has none yet.
#[tactic(auto, using(crate::proofs::Moving::moved, crate::proofs::Moving::moved_len, crate::proofs::Moving::moved_all))]
pub(crate) fn push_turns(alloc: Global, rows: List<Row>, log: &mut Log) -> Result<(), NoMemory>
    requires { log.old.effect.rows ≡ [] }
    ensures ok { OnOk result (log.new ≡ with_rows log.old rows) }
    ensures err { OnErr result (without_effect log.new ≡ without_effect log.old) }
{
    let mut rows = rows;
    for at in 0..rows.len() {
        log.push_row(rows.replace(at, List::new(alloc)))?;
    }
    Ok(())
}

/// Writes the effect of FOR over a ROWS parameter: it goes through the rows, and sets `:found` to whether there are
/// any.
pub(crate) fn for_rows(alloc: Global, over: u16, env: &Env, log: &mut Log) -> Result<(), Refused>
    requires found { env.now.found < 2 ^ 16 }
    requires blank { IsBlank log.old }
    ensures effect { OnOk result ((row : ℕ) (body : List RStmt) → IsEffectAnywhere (layer.ForRows row over body) env.now log.new.effect) }
    ensures rest { OnOk result (log.new ≡ record log.old { effect = log.new.effect }) }
    ensures err { OnErr result (without_effect log.new ≡ without_effect log.old) }
    ensures view { (sight : Sight) → OnlyAsks sight sight result }
{
    let rows = copied_turns(alloc, env, over)?;
    push_found(env, has_turn(&rows), log)?;
    push_turns(alloc, rows, log)?;
    Ok(())
}
