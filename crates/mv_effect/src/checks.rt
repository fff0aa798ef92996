//! What statements check after they made a row or found rows.

ghost use Rattle.std.specs.Prelude.{◌≡◌, ◌∷◌, [], ◌++◌, map, not, IfOk, OnOk, OnErr, Some, None, if◌then◌else◌};
ghost use Rattle.std.specs.List.{list_all};
ghost use Rattle.mv_values.specs.Keys.{keys};
ghost use Rattle.mv_values.specs.Patching.{applied, found_by};
ghost use Rattle.mv_eval.specs.Rows.{is_some_row};
ghost use Rattle.mv_recorded.specs.Asking.{is_among, fault_of, first_fault, asked_in, preds_up_to, KnowsKey};
ghost use Rattle.mv_recorded.specs.Own.{Each};
ghost use Rattle.mv_checks.specs.Checking.{meant, MayAsk};
ghost use Rattle.mv_effect.specs.Logging.{BeginsPred, with_preds, without_effect};
ghost use Rattle.mv_effect.specs.Looking.{AreSoundTables, OnlyAsks, AskedFor};
ghost use Rattle.mv_effect.specs.Seeing.{own_seen};

use crate::asking::ask_more;
use crate::context::Context;
use crate::rows::{first_visible, visible_rows};
use mv_checks::check::{Check, is_among};
use mv_log::log::Log;
use mv_table::found::Found;
use mv_table::scan::Direction;
use mv_table::table::Stored;
use mv_values::calls::End;
use mv_values::copied::Copied;
use mv_values::pred_ref::PredRef;
use mv_values::value::Key;
use mv_view::view::{Refused, View};
use std::alloc::Global;

/// Whether the key of the row is one of these.
fn has_key(own: &[Key], item: &Found<'_>) -> bool
    ensures { result ≡ is_among own.now item.now.key }
{
    is_among(own, item.key())
}

/// Whether the key of each row is one of these.
fn have_keys(own: &[Key], rows: &[Found<'_>]) -> bool
    ensures { result ≡ list_all (λ item. is_among own.now item.key) rows.now }
{
    rows.iter().all(|item| has_key(own, item))
}

/// Whether the predicate finds a row after the call's own writes that the statement sees. Asks the view for the first
/// one.
#[tactic(auto, using(mv_eval::proofs::FirstRows::some_foremost))]
fn finds_some<'s, V: View<'s>>(
    alloc: Global,
    context: &Context<'_>,
    log: &Log,
    pred: &PredRef<'_>,
    view: &mut V,
) -> Result<bool, Refused>
    requires stands { AreSoundTables context.now.tables.now (own_seen context.now log.now) (V.sight view.old).database }
    requires knows { KnowsKey context.now.tables.now pred.now }
    ensures found { IfOk result (λ b. b ≡ is_some_row (found_by pred.now (applied (own_seen context.now log.now) (V.sight view.old).database))) }
    ensures view { OnlyAsks (V.sight view.old) (V.sight view.new) result }
    ensures looks { AskedFor (pred.now ∷ []) (own_seen context.now log.now) (V.sight view.old) (V.sight view.new) }
{
    let row = first_visible(alloc, context, log, pred, Direction::Forward, view)?;
    Ok(row.is_some())
}

/// Whether the predicate finds no rows but those with these keys.
fn finds_only<'s, V: View<'s>>(
    alloc: Global,
    context: &Context<'_>,
    log: &Log,
    pred: &PredRef<'_>,
    own: &[Key],
    view: &mut V,
) -> Result<bool, Refused>
    requires stands { AreSoundTables context.now.tables.now (own_seen context.now log.now) (V.sight view.old).database }
    requires knows { KnowsKey context.now.tables.now pred.now }
    ensures found { IfOk result (λ b. b ≡ list_all (is_among own.now) (keys (found_by pred.now (applied (own_seen context.now log.now) (V.sight view.old).database)))) }
    ensures view { OnlyAsks (V.sight view.old) (V.sight view.new) result }
    ensures looks { AskedFor (pred.now ∷ []) (own_seen context.now log.now) (V.sight view.old) (V.sight view.new) }
{
    let found = visible_rows(alloc, context, log, pred, view)?;
    Ok(have_keys(own, found.as_slice()))
}

/// Whether the predicate finds no row; if `may_be_own`, none but those with these keys.
#[tactic(auto, using(mv_checks::proofs::Running::none_among))]
fn finds_no_other<'s, V: View<'s>>(
    alloc: Global,
    context: &Context<'_>,
    log: &Log,
    pred: &PredRef<'_>,
    may_be_own: bool,
    own: &[Key],
    view: &mut V,
) -> Result<bool, Refused>
    requires stands { AreSoundTables context.now.tables.now (own_seen context.now log.now) (V.sight view.old).database }
    requires knows { KnowsKey context.now.tables.now pred.now }
    ensures found { IfOk result (λ b. b ≡ list_all (is_among (if may_be_own then own.now else [])) (keys (found_by pred.now (applied (own_seen context.now log.now) (V.sight view.old).database)))) }
    ensures view { OnlyAsks (V.sight view.old) (V.sight view.new) result }
    ensures looks { AskedFor (pred.now ∷ []) (own_seen context.now log.now) (V.sight view.old) (V.sight view.new) }
{
    if may_be_own {
        return finds_only(alloc, context, log, pred, own, view);
    }
    let some = finds_some(alloc, context, log, pred, view)?;
    Ok(!some)
}

/// Returns the end, unless all is right.
fn unless(right: bool, end: End) -> Option<End>
    ensures { result ≡ (if right then None else Some end) }
{
    if right { None } else { Some(end) }
}

/// Runs a check of a statement that found rows with these keys, and adds its predicate to the open effect. Returns the
/// end if it fails.
fn run_one<'s, V: View<'s>>(
    alloc: Global,
    context: &Context<'_>,
    own: &[Key],
    check: &Check,
    log: &mut Log,
    view: &mut V,
) -> Result<Option<End>, Refused>
    requires stands { AreSoundTables context.now.tables.now (own_seen context.now log.old) (V.sight view.old).database }
    requires may_ask { MayAsk context.now.tables.now (meant own.now check.now) }
    requires begins { BeginsPred log.old }
    ensures fault { IfOk result (λ o. o ≡ fault_of (meant own.now check.now) (applied (own_seen context.now log.old) (V.sight view.old).database)) }
    ensures asked { OnOk result (log.new ≡ with_preds log.old (log.old.effect.preds ++ asked_in (meant own.now check.now))) }
    ensures err { OnErr result (without_effect log.new ≡ without_effect log.old) }
    ensures view { OnlyAsks (V.sight view.old) (V.sight view.new) result }
    ensures looks { AskedFor (asked_in (meant own.now check.now)) (own_seen context.now log.old) (V.sight view.old) (V.sight view.new) }
{
    match check {
        Check::Faults(end) => Ok(Some(end.copy(alloc)?)),
        Check::Needs(pred, end) => {
            let is_right = finds_some(alloc, context, log, &PredRef::of(pred), view)?;
            ask_more(log, pred.copy(alloc)?)?;
            Ok(unless(is_right, end.copy(alloc)?))
        }
        Check::Forbids(pred, may_be_own, end) => {
            let asked = PredRef::of(pred);
            let is_right = finds_no_other(alloc, context, log, &asked, *may_be_own, own, view)?;
            ask_more(log, pred.copy(alloc)?)?;
            Ok(unless(is_right, end.copy(alloc)?))
        }
    }
}

/// Runs checks of a statement that found rows with these keys, up to the first that fails, and adds their predicates to
/// the open effect. Returns the end if one fails.
pub(crate) fn run_checks<'s, V: View<'s>>(
    alloc: Global,
    context: &Context<'_>,
    own: &[Key],
    checks: &[Check],
    log: &mut Log,
    view: &mut V,
) -> Result<Option<End>, Refused>
    requires stands { AreSoundTables context.now.tables.now (own_seen context.now log.old) (V.sight view.old).database }
    requires may_ask { Each (MayAsk context.now.tables.now) (map (meant own.now) checks.now) }
    requires begins { BeginsPred log.old }
    ensures fault { IfOk result (λ o. o ≡ first_fault (map (meant own.now) checks.now) (applied (own_seen context.now log.old) (V.sight view.old).database)) }
    ensures asked { OnOk result (log.new ≡ with_preds log.old (log.old.effect.preds ++ preds_up_to (map (meant own.now) checks.now) (applied (own_seen context.now log.old) (V.sight view.old).database))) }
    ensures err { OnErr result (without_effect log.new ≡ without_effect log.old) }
    ensures view { OnlyAsks (V.sight view.old) (V.sight view.new) result }
    ensures looks { AskedFor (preds_up_to (map (meant own.now) checks.now) (applied (own_seen context.now log.old) (V.sight view.old).database)) (own_seen context.now log.old) (V.sight view.old) (V.sight view.new) }
{
    for check in checks {
        if let Some(end) = run_one(alloc, context, own, check, log, view)? {
            return Ok(Some(end));
        }
    }
    Ok(None)
}
