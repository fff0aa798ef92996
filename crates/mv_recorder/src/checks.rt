//! Runs what statements check, on tables.

ghost use Rattle.std.specs.Prelude.{◌≡◌, [], ◌++◌, Some, None, map, IfOk, OnOk, if◌then◌else◌};
ghost use Rattle.std.specs.List.{list_all};
ghost use Rattle.mv_values.specs.Keys.{keys};
ghost use Rattle.mv_table.specs.Entries.{seen};
ghost use Rattle.mv_recorded.specs.Asking.{is_among, fault_of, first_fault, asked_in, preds_up_to};
ghost use Rattle.mv_recorded.specs.Own.{Each};
ghost use Rattle.mv_checks.specs.Checking.{meant, MayAsk};
ghost use Rattle.mv_recorder.specs.Scenes.{IsSound};

use crate::asked::{is_any, rows_for};
use crate::scene::Scene;
use mv_checks::check::{Check, is_among};
use mv_table::table::Entry;
use mv_values::calls::End;
use mv_values::copied::Copied;
use mv_values::list::List;
use mv_values::memory::NoMemory;
use mv_values::pred::Pred;
use mv_values::value::Key;
use std::alloc::Global;

/// Whether the key of each row is one of these.
fn have_keys(own: &[Key], rows: &[Entry<'_>]) -> bool
    ensures { result ≡ list_all (is_among own.now) (keys (map seen rows.now)) }
{
    for entry in rows {
        if !is_among(own, entry.key) {
            return false;
        }
    }
    true
}

/// Whether there is no row; if `may_be_own`, none but those with these keys.
#[tactic(auto, using(mv_checks::proofs::Running::none_among))]
fn are_no_others(own: &[Key], may_be_own: bool, rows: &[Entry<'_>]) -> bool
    ensures { result ≡ list_all (is_among (if may_be_own then own.now else [])) (keys (map seen rows.now)) }
{
    if may_be_own {
        have_keys(own, rows)
    } else {
        !is_any(rows)
    }
}

/// Returns the end, unless all is right.
fn unless(right: bool, end: End) -> Option<End>
    ensures { result ≡ (if right then None else Some end) }
{
    if right { None } else { Some(end) }
}

/// Runs a check of a statement that found rows with these keys, and adds its predicate. Returns the end if it fails.
fn run_one(
    alloc: Global,
    scene: &Scene<'_>,
    own: &[Key],
    check: &Check,
    preds: &mut List<Pred>,
) -> Result<Option<End>, NoMemory>
    requires sound { IsSound scene.now.infos.now scene.now.env.now scene.now.tables.now }
    requires may_ask { MayAsk scene.now.infos.now (meant own.now check.now) }
    ensures fault { IfOk result (λ o. o ≡ fault_of (meant own.now check.now) scene.now.tables.now) }
    ensures preds { OnOk result (preds.new ≡ preds.old ++ asked_in (meant own.now check.now)) }
{
    match check {
        Check::Faults(end) => Ok(Some(end.copy(alloc)?)),
        Check::Needs(pred, end) => {
            let found = rows_for(alloc, scene, pred)?;
            preds.push(pred.copy(alloc)?)?;
            Ok(unless(is_any(found.as_slice()), end.copy(alloc)?))
        }
        Check::Forbids(pred, may_be_own, end) => {
            let found = rows_for(alloc, scene, pred)?;
            preds.push(pred.copy(alloc)?)?;
            let is_right = are_no_others(own, *may_be_own, found.as_slice());
            Ok(unless(is_right, end.copy(alloc)?))
        }
    }
}

/// Runs checks of a statement that found rows with these keys, up to the first that fails, and adds their predicates.
/// Returns the end if one fails.
pub(crate) fn run_checks(
    alloc: Global,
    scene: &Scene<'_>,
    own: &[Key],
    checks: &[Check],
    preds: &mut List<Pred>,
) -> Result<Option<End>, NoMemory>
    requires sound { IsSound scene.now.infos.now scene.now.env.now scene.now.tables.now }
    requires may_ask { Each (MayAsk scene.now.infos.now) (map (meant own.now) checks.now) }
    ensures fault { IfOk result (λ o. o ≡ first_fault (map (meant own.now) checks.now) scene.now.tables.now) }
    ensures preds { OnOk result (preds.new ≡ preds.old ++ preds_up_to (map (meant own.now) checks.now) scene.now.tables.now) }
{
    for check in checks {
        if let Some(end) = run_one(alloc, scene, own, check, preds)? {
            return Ok(Some(end));
        }
    }
    Ok(None)
}
