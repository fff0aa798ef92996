//! What statements ask, and how they end.

ghost use Rattle.std.specs.Prelude.{◌≡◌, ◌∷◌, [], IfOk, map};
ghost use Rattle.mv_values.specs.Keys.{IsRising};
ghost use Rattle.mv_values.specs.Patching.{found_by};
ghost use Rattle.mv_eval.specs.Rows.{is_some_row};
ghost use Rattle.mv_recorded.specs.Asking.{KnowsKey};
ghost use Rattle.mv_recorded.specs.Effects.{empty, only_asks, only_end};
ghost use Rattle.mv_recorder.specs.Scenes.{IsSound, EndsBy};
ghost use Rattle.mv_table.specs.Entries.{seen};

use crate::scene::Scene;
use mv_eval::find::found_in;
use mv_eval::state::Stop;
use mv_record::effect::Effect;
use mv_record::record::Slot;
use mv_table::table::Entry;
use mv_values::calls::End;
use mv_values::list::List;
use mv_values::memory::NoMemory;
use mv_values::pred::Pred;
use std::alloc::Global;

/// Returns no effect.
pub(crate) fn nothing(alloc: Global) -> Effect
    ensures { result ≡ empty }
{
    Effect {
        preds: List::new(alloc),
        sets: List::new(alloc),
        rows: List::new(alloc),
        writes: List::new(alloc),
        line: None,
        end: None,
    }
}

/// Returns the effect of a statement that asked this and sets these variables.
pub(crate) fn asking(alloc: Global, pred: Pred, sets: List<Slot>) -> Result<Effect, NoMemory>
    ensures { IfOk result (λ e. e ≡ record (only_asks pred) { sets = sets }) }
{
    let mut effect = nothing(alloc);
    effect.preds = List::of(alloc, pred)?;
    effect.sets = sets;
    Ok(effect)
}

/// Returns the effect of a statement that only ends its call.
pub(crate) fn ended(alloc: Global, end: End) -> Effect
    ensures { result ≡ only_end [] end }
{
    let mut effect = nothing(alloc);
    effect.end = Some(end);
    effect
}

/// Returns the effect of a statement that asked these, and then ended its call.
pub(crate) fn ended_after(alloc: Global, preds: List<Pred>, end: End) -> Effect
    ensures { result ≡ only_end preds end }
{
    let mut effect = ended(alloc, end);
    effect.preds = preds;
    effect
}

/// Returns the effect of a statement that asked this, and then was stopped. Fails if it was stopped because memory ran
/// out.
pub(crate) fn stopped_after(alloc: Global, pred: Pred, stop: Stop) -> Result<Effect, NoMemory>
    ensures { IfOk result (EndsBy pred stop) }
{
    match stop {
        Stop::Memory => Err(NoMemory),
        Stop::Ended(end) => {
            let preds = List::of(alloc, pred)?;
            Ok(ended_after(alloc, preds, end))
        }
    }
}

/// Whether there is a row.
pub(crate) fn is_any(rows: &[Entry<'_>]) -> bool
    ensures { result ≡ is_some_row (map seen rows.now) }
{
    !rows.is_empty()
}

/// Borrows the rows that a predicate matches, in key order.
pub(crate) fn rows_for<'a>(
    alloc: Global,
    scene: &Scene<'a>,
    pred: &Pred,
) -> Result<Vec<Entry<'a>>, NoMemory>
    requires sound { IsSound scene.now.infos.now scene.now.env.now scene.now.tables.now }
    requires knows { KnowsKey scene.now.infos.now pred.now }
    ensures rows { IfOk result (λ found. map seen found.items ≡ found_by pred.now scene.now.tables.now) }
    ensures rising { IfOk result (λ found. IsRising (map seen found.items)) }
{
    found_in(
        alloc,
        scene.infos,
        scene.tables,
        pred.table as u16,
        pred.tests.as_slice(),
    )
}
