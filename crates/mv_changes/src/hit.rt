//! Whether a change hits a record.

ghost use Rattle.std.specs.Prelude.{◌≡◌, ◌==◌, ◌&&◌, ◌||◌, not, List};
ghost use Rattle.std.specs.List.{list_any, filter};
ghost use Rattle.mv_values.specs.Preds.{admits, sees};
ghost use Rattle.mv_record.specs.declared.record.Record.{Record};
ghost use Rattle.mv_record.specs.Runs.{writes_in};
ghost use Rattle.mv_undo.specs.Owning.{earlier, touches};
ghost use Rattle.mv_history.specs.Changes.{is_same};
ghost use Rattle.mv_history.specs.Hits.{is_alike, hits, any_hits};
ghost use Rattle.mv_changes.specs.Admitting.{AreAdmitted};
ghost use Rattle.mv_changes.specs.Hitting.{hits_pred, hits_admitted};

use crate::changes::Changes;
use crate::columns::are_alike;
use mv_history::change::Change;
use mv_log::pred_ref::Preds;
use mv_log::record_ref::RecordRef;
use mv_undo::undo::Undo;
use mv_values::pred_ref::PredRef;

/// Whether the predicate sees the same of the row before the change and after it.
fn sees_same(pred: &PredRef<'_>, change: &Change) -> bool
    ensures { result ≡ is_same (sees pred.now change.now.before) (sees pred.now change.now.after) }
{
    pred.same(change.before.as_ref(), change.after.as_ref())
}

/// Whether a record below `number` wrote the key of the change.
fn has_written(number: usize, undo: &Undo<'_>, change: &Change) -> bool
    ensures { result ≡ touches change.now.table change.now.key (earlier number undo.now) }
{
    undo.touched(number, change.table, &change.key)
}

/// Whether a change that the predicate doesn't see hits it: it differs in a column that the predicate names, of a key
/// that the predicate admits and an earlier record wrote.
fn hits_unseen(pred: &PredRef<'_>, number: usize, undo: &Undo<'_>, change: &Change) -> bool
    ensures { result ≡ (admits pred.now change.now.key && (not (is_alike pred.now change.now.before change.now.after) && touches change.now.table change.now.key (earlier number undo.now))) }
{
    pred.admits(&change.key)
        && (!are_alike(pred, &change.before, &change.after) && has_written(number, undo, change))
}

/// Whether a change that the predicate sees hits it.
fn hits_seen(pred: &PredRef<'_>, number: usize, undo: &Undo<'_>, change: &Change) -> bool
    ensures { result ≡ (admits pred.now change.now.key || not (touches change.now.table change.now.key (earlier number undo.now))) }
{
    pred.admits(&change.key) || !has_written(number, undo, change)
}

/// Whether a change of the predicate's table hits the predicate of the record with this number. Looks the own writes up
/// only for a change that the predicate doesn't see although it names a column that differs.
fn differs(pred: &PredRef<'_>, number: usize, undo: &Undo<'_>, change: &Change) -> bool
    ensures { result ≡ hits_pred (earlier number undo.now) change.now pred.now }
{
    if sees_same(pred, change) {
        hits_unseen(pred, number, undo, change)
    } else {
        hits_seen(pred, number, undo, change)
    }
}

/// Whether a change hits the predicate.
fn hits_table(pred: &PredRef<'_>, number: usize, undo: &Undo<'_>, change: &Change) -> bool
    ensures { result ≡ ((pred.now.table == change.now.table) && hits_pred (earlier number undo.now) change.now pred.now) }
{
    pred.table() == change.table && differs(pred, number, undo, change)
}

/// Whether a change hits one of these predicates.
fn hits_one(preds: &Preds<'_>, number: usize, undo: &Undo<'_>, change: &Change) -> bool
    ensures { result ≡ list_any (λ p. (p.table == change.now.table) && hits_pred (earlier number undo.now) change.now p) preds.now }
{
    for at in 0..preds.len() {
        if hits_table(&preds.get(at), number, undo, change) {
            return true;
        }
    }
    false
}

/// Whether a change hits the record with this number. `undo` has the writes of the call's records. A change hits if one
/// of the record's predicates sees something else of the row after it: whether the row passes the tests, or a column
/// that is selected. Of a key that an earlier record of the call wrote, every column that the predicate tests or
/// selects counts, if the predicate admits the key. Allocates nothing. Costs the tests and columns of the record's
/// predicates, and at most a look-up in the own writes for each.
pub fn hit(record: &RecordRef<'_>, number: usize, undo: &Undo<'_>, change: &Change) -> bool
    ensures { (before : List Record) → earlier number undo.now ≡ writes_in before → result ≡ hits before record.now change.now }
{
    hits_one(&record.preds(), number, undo, change)
}

/// Whether a change of the predicate's table hits it at a key that it admits. Tries the key first: few changes are of
/// such a key, and the rows of the others need no look.
fn differs_admitted(pred: &PredRef<'_>, number: usize, undo: &Undo<'_>, change: &Change) -> bool
    ensures { result ≡ hits_admitted (earlier number undo.now) change.now pred.now }
{
    pred.admits(&change.key) && differs(pred, number, undo, change)
}

/// Whether one of these changes of the predicate's table hits it at a key that it admits.
fn one_hits(pred: &PredRef<'_>, number: usize, undo: &Undo<'_>, changes: &[Change]) -> bool
    ensures { result ≡ list_any (λ c. hits_admitted (earlier number undo.now) c pred.now) changes.now }
{
    changes
        .iter()
        .any(|change| differs_admitted(pred, number, undo, change))
}

/// Whether one of a commit's changes hits the predicate at a key that it admits. Tries those of its table alone.
fn commit_hits(pred: &PredRef<'_>, number: usize, undo: &Undo<'_>, changes: &Changes) -> bool
    ensures { result ≡ list_any (λ c. hits_admitted (earlier number undo.now) c pred.now) (filter (λ c. c.table == pred.now.table) changes.now) }
{
    one_hits(pred, number, undo, changes.of_table(pred.table()))
}

/// Whether one of a commit's changes hits one of these predicates at a key that it admits.
fn commit_hits_one(preds: &Preds<'_>, number: usize, undo: &Undo<'_>, changes: &Changes) -> bool
    ensures { result ≡ list_any (λ p. list_any (λ c. hits_admitted (earlier number undo.now) c p) (filter (λ c. c.table == p.table) changes.now)) preds.now }
{
    for at in 0..preds.len() {
        if commit_hits(&preds.get(at), number, undo, changes) {
            return true;
        }
    }
    false
}

/// Whether one of a commit's changes hits the record with this number, as `hit` tells. `undo` has the writes of the
/// call's records. Allocates nothing. The record's predicates must match rows only under keys that they admit, as they do
/// in tables where each row has its own key. Tries the changes of the tables of the record's predicates alone, which it
/// finds in the logarithm of the number of changes for each predicate. Looks at the rows only of a change whose key the
/// predicate admits.
pub fn any_hit(record: &RecordRef<'_>, number: usize, undo: &Undo<'_>, changes: &Changes) -> bool
    ensures { (before : List Record) → earlier number undo.now ≡ writes_in before → AreAdmitted changes.now record.now → result ≡ any_hits changes.now before record.now }
{
    commit_hits_one(&record.preds(), number, undo, changes)
}
