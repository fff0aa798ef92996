//! Whether changes hit records.

ghost use Rattle.std.specs.Prelude.{◌≡◌, ◌==◌, ◌&&◌, ◌||◌, not, ℕ, [], if◌then◌else◌};
ghost use Rattle.std.specs.List.{list_all, list_any, flat_map};
ghost use Rattle.std.specs.Option.{is_some};
ghost use Rattle.std.specs.Ordering.{is_eq};
ghost use Rattle.mv_values.specs.Columns.{column_of, columns_of};
ghost use Rattle.mv_values.specs.Order.{value_order, key_order};
ghost use Rattle.mv_values.specs.Preds.{admits, sees};
ghost use Rattle.mv_record.specs.Writes.{is_on};
ghost use Rattle.mv_history.specs.Changes.{is_same};
ghost use Rattle.mv_history.specs.Hits.{named_columns, is_alike, has_written, hits_predicate, hits, any_hits, first_hit};

use mv_history::change::Change;
use mv_record::record::Record;
use mv_values::list::List;
use mv_values::patch::Write;
use mv_values::pred::Pred;
use mv_values::value::{Row, Value};

/// Whether two rows have the same value in a column. A column that a row lacks counts as 0.
fn is_same_in(column: u8, a: &[Value], b: &[Value]) -> bool
    ensures { result ≡ is_eq (value_order (column_of a.now column) (column_of b.now column)) }
{
    match (a.get(column as usize), b.get(column as usize)) {
        (Some(value), Some(other)) => value.order(other).is_eq(),
        (Some(value), None) => value.order(&Value::Int(0)).is_eq(),
        (None, Some(other)) => Value::Int(0).order(other).is_eq(),
        (None, None) => true,
    }
}

/// Whether two rows have the same values in the columns that the predicate selects.
fn selects_same(pred: &Pred, a: &[Value], b: &[Value]) -> bool
    ensures { result ≡ list_all (λ c. is_eq (value_order (column_of a.now c) (column_of b.now c))) pred.now.columns }
{
    pred.columns
        .as_slice()
        .iter()
        .all(|column| is_same_in(*column, a, b))
}

/// Whether two rows have the same values in the columns that the predicate tests.
fn tests_same(pred: &Pred, a: &[Value], b: &[Value]) -> bool
    ensures { result ≡ list_all (λ t. is_eq (value_order (column_of a.now t.column) (column_of b.now t.column))) pred.now.tests }
{
    pred.tests
        .as_slice()
        .iter()
        .all(|test| is_same_in(test.column, a, b))
}

/// Whether two rows have the same values in the columns that the predicate selects or tests.
fn names_same(pred: &Pred, a: &[Value], b: &[Value]) -> bool
    ensures { result ≡ is_eq (key_order (columns_of a.now (named_columns pred.now)) (columns_of b.now (named_columns pred.now))) }
{
    selects_same(pred, a, b) && tests_same(pred, a, b)
}

/// Whether both rows are absent, or both are there and have the same values in the columns that the predicate selects
/// or tests.
fn are_alike(pred: &Pred, before: &Option<Row>, after: &Option<Row>) -> bool
    ensures { result ≡ is_alike pred.now before.now after.now }
{
    match (before, after) {
        (Some(before), Some(after)) => names_same(pred, before.as_slice(), after.as_slice()),
        (None, None) => true,
        _ => false,
    }
}

/// Whether the predicate sees the same of the row before the change and after it.
fn sees_same(pred: &Pred, change: &Change) -> bool
    ensures { result ≡ is_same (sees pred.now change.now.before) (sees pred.now change.now.after) }
{
    pred.same(change.before.as_ref(), change.after.as_ref())
}

/// Whether a write is to the key of the change.
fn is_to(write: &Write, change: &Change) -> bool
    ensures { result ≡ is_on change.now.table change.now.key write.now }
{
    write.table == change.table && write.key.order(&change.key).is_eq()
}

/// Whether the record wrote the key of the change.
fn writes_key(record: &Record, change: &Change) -> bool
    ensures { result ≡ list_any (is_on change.now.table change.now.key) record.now.writes }
{
    record
        .writes
        .as_slice()
        .iter()
        .any(|write| is_to(write, change))
}

/// Whether one of these records wrote the key of the change.
fn any_writes_key(before: &[Record], change: &Change) -> bool
    ensures { result ≡ list_any (λ r. list_any (is_on change.now.table change.now.key) r.writes) before.now }
{
    before.iter().any(|record| writes_key(record, change))
}

/// Whether one of these records wrote the key of the change.
fn has_written(before: &[Record], change: &Change) -> bool
    ensures { result ≡ has_written before.now change.now }
{
    any_writes_key(before, change)
}

/// Whether a change is to a key that the predicate admits, and differs in a column that it selects or tests.
fn changes_named(change: &Change, pred: &Pred) -> bool
    ensures { result ≡ (admits pred.now change.now.key && not (is_alike pred.now change.now.before change.now.after)) }
{
    pred.admits(&change.key) && !are_alike(pred, &change.before, &change.after)
}

/// Whether a change that the predicate doesn't see hits it.
fn hits_unseen(before: &[Record], change: &Change, pred: &Pred) -> bool
    ensures { result ≡ ((admits pred.now change.now.key && not (is_alike pred.now change.now.before change.now.after)) && has_written before.now change.now) }
{
    changes_named(change, pred) && has_written(before, change)
}

/// Whether a change that the predicate sees hits it.
fn hits_seen(before: &[Record], change: &Change, pred: &Pred) -> bool
    ensures { result ≡ ((admits pred.now change.now.key && not (is_alike pred.now change.now.before change.now.after)) || not (has_written before.now change.now)) }
{
    changes_named(change, pred) || !has_written(before, change)
}

/// Whether a change of the predicate's table hits the predicate. Goes through the writes only for a change that the
/// predicate sees in one way and not in the other.
fn differs(before: &[Record], change: &Change, pred: &Pred) -> bool
    ensures { result ≡ (if has_written before.now change.now then admits pred.now change.now.key && not (is_alike pred.now change.now.before change.now.after) else not (is_same (sees pred.now change.now.before) (sees pred.now change.now.after))) }
{
    if sees_same(pred, change) {
        hits_unseen(before, change, pred)
    } else {
        hits_seen(before, change, pred)
    }
}

/// Whether a change hits a predicate of a record after these ones.
fn hits_predicate(before: &[Record], change: &Change, pred: &Pred) -> bool
    ensures { result ≡ hits_predicate before.now change.now pred.now }
{
    change.table == pred.table && differs(before, change, pred)
}

/// Whether a change hits a record after these ones.
fn hits(before: &[Record], record: &Record, change: &Change) -> bool
    ensures { result ≡ hits before.now record.now change.now }
{
    record
        .preds
        .as_slice()
        .iter()
        .any(|pred| hits_predicate(before, change, pred))
}

/// Whether a change of a commit hits a record after these ones.
fn any_hits(changes: &[Change], before: &[Record], record: &Record) -> bool
    ensures { result ≡ any_hits changes.now before.now record.now }
{
    changes.iter().any(|change| hits(before, record, change))
}

/// Whether a change of one of the commits hits a record after these ones.
fn each_hits(commits: &[List<Change>], before: &[Record], record: &Record) -> bool
    ensures { result ≡ list_any (λ changes. any_hits changes before.now record.now) commits.now }
{
    commits
        .iter()
        .any(|changes| any_hits(changes.as_slice(), before, record))
}

/// Whether a change of one of the commits hits a record after these ones.
pub(crate) fn commits_hit(commits: &[List<Change>], before: &[Record], record: &Record) -> bool
    ensures each { result ≡ list_any (λ changes. any_hits changes before.now record.now) commits.now }
    ensures all { result ≡ any_hits (flat_map (λ changes. changes) commits.now) before.now record.now }
{
    each_hits(commits, before, record)
}

/// Whether a change of one of the commits hits one of a call's records.
pub(crate) fn is_hit(commits: &[List<Change>], records: &[Record]) -> bool
    ensures { (number : ℕ) → result ≡ is_some (first_hit number commits.now [] records.now) }
{
    for number in 0..records.len() {
        if commits_hit(commits, &records[..number], &records[number]) {
            return true;
        }
    }
    false
}
