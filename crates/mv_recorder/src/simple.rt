//! The effects of statements that read no table.

ghost use Rattle.std.specs.Prelude.{ℕ, List as Seq};
ghost use Rattle.mv_catalog.specs.declared.resolved.RStmt.{RStmt};
ghost use Rattle.mv_catalog.specs.declared.resolved.RStmt.TheOpen as layer;
ghost use Rattle.mv_recorded.specs.Effects.{IsEffect};
ghost use Rattle.mv_recorder.specs.Scenes.{IsSound, Finds};

use crate::asked::{ended, nothing};
use crate::queries::has_turn;
use crate::scene::Scene;
use crate::slots::found_slots;
use mv_catalog::resolved::RExpr;
use mv_eval::env::copied_turns;
use mv_eval::expr::{holds, value};
use mv_eval::line::line_of_exprs;
use mv_eval::state::Stop;
use mv_record::effect::Effect;
use mv_record::record::Slot;
use mv_values::calls::End;
use mv_values::copied::Copied;
use mv_values::list::List;
use mv_values::txt::Txt;
use std::alloc::Global;

/// Returns the effect of SET.
#[tactic(auto, using(mv_recorded::proofs::Slots::set_has))]
pub(crate) fn assign(
    alloc: Global,
    scene: &Scene<'_>,
    to: u16,
    right: &RExpr,
) -> Result<Effect, Stop>
    ensures { Finds result (IsEffect scene.now.infos.now (layer.Assign to right.now) scene.now.env.now scene.now.tables.now) }
{
    let value = value(alloc, right, scene.env, &[])?;
    let mut effect = nothing(alloc);
    effect.sets = List::of(alloc, Slot { slot: to, value })?;
    Ok(effect)
}

/// Returns the effect of IF, which only evaluates its condition.
pub(crate) fn branch(alloc: Global, scene: &Scene<'_>, test: &RExpr) -> Result<Effect, Stop>
    ensures { Finds result (λ effect. (ys ns : Seq RStmt) → IsEffect scene.now.infos.now (layer.Branch test.now ys ns) scene.now.env.now scene.now.tables.now effect) }
{
    let _holds = holds(alloc, test, scene.env)?;
    Ok(nothing(alloc))
}

/// Returns the effect of FOR over a ROWS parameter.
pub(crate) fn for_rows(alloc: Global, scene: &Scene<'_>, over: u16) -> Result<Effect, Stop>
    requires { IsSound scene.now.infos.now scene.now.env.now scene.now.tables.now }
    ensures { Finds result (λ effect. (row : ℕ) (body : Seq RStmt) → IsEffect scene.now.infos.now (layer.ForRows row over body) scene.now.env.now scene.now.tables.now effect) }
{
    let rows = copied_turns(alloc, scene.env, over)?;
    let mut effect = nothing(alloc);
    effect.sets = found_slots(alloc, scene.env, has_turn(&rows))?;
    effect.rows = rows;
    Ok(effect)
}

/// Returns the effect of PRINT.
pub(crate) fn print(alloc: Global, scene: &Scene<'_>, exprs: &[RExpr]) -> Result<Effect, Stop>
    ensures { Finds result (IsEffect scene.now.infos.now (layer.Print exprs.now) scene.now.env.now scene.now.tables.now) }
{
    let line = line_of_exprs(alloc, exprs, scene.env)?;
    let mut effect = nothing(alloc);
    effect.line = Some(line);
    Ok(effect)
}

/// Returns the effect of ROLLBACK.
pub(crate) fn rollback(alloc: Global, scene: &Scene<'_>, reason: &Txt) -> Result<Effect, Stop>
    ensures { Finds result (IsEffect scene.now.infos.now (layer.Rollback reason.now) scene.now.env.now scene.now.tables.now) }
{
    Ok(ended(alloc, End::Own(reason.copy(alloc)?)))
}
