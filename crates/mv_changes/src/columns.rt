//! Comparing rows in the columns that a predicate names.

ghost use Rattle.std.specs.Prelude.{◌≡◌};
ghost use Rattle.std.specs.List.{list_all};
ghost use Rattle.std.specs.Ordering.{is_eq};
ghost use Rattle.mv_values.specs.Columns.{column_of, columns_of};
ghost use Rattle.mv_values.specs.Order.{value_order, key_order};
ghost use Rattle.mv_history.specs.Hits.{named_columns, is_alike};

use mv_values::pred_ref::PredRef;
use mv_values::value::{Row, Value};

/// Whether two rows have the same value in a column. A column that a row lacks counts as 0.
fn is_same_in(column: u8, a: &[Value], b: &[Value]) -> bool
    ensures { result ≡ is_eq (value_order (column_of a.now column) (column_of b.now column)) }
{
    match (a.get(column as usize), b.get(column as usize)) {
        (Some(value), Some(other)) => value.order(other).is_eq(),
        (Some(value), None) => value.order(&Value::Int(0)).is_eq(),
        (None, Some(other)) => Value::Int(0).order(other).is_eq(),
        (None, None) => true,
    }
}

/// Whether two rows have the same values in the columns that the predicate selects.
fn selects_same(pred: &PredRef<'_>, a: &[Value], b: &[Value]) -> bool
    ensures { result ≡ list_all (λ c. is_eq (value_order (column_of a.now c) (column_of b.now c))) pred.now.columns }
{
    pred.columns()
        .iter()
        .all(|column| is_same_in(*column, a, b))
}

/// Whether two rows have the same values in the columns that the predicate tests.
fn tests_same(pred: &PredRef<'_>, a: &[Value], b: &[Value]) -> bool
    ensures { result ≡ list_all (λ t. is_eq (value_order (column_of a.now t.column) (column_of b.now t.column))) pred.now.tests }
{
    pred.tests()
        .iter()
        .all(|test| is_same_in(test.column, a, b))
}

/// Whether two rows have the same values in the columns that the predicate selects or tests.
fn names_same(pred: &PredRef<'_>, a: &[Value], b: &[Value]) -> bool
    ensures { result ≡ is_eq (key_order (columns_of a.now (named_columns pred.now)) (columns_of b.now (named_columns pred.now))) }
{
    selects_same(pred, a, b) && tests_same(pred, a, b)
}

/// Whether both rows are absent, or both are there and have the same values in the columns that the predicate selects
/// or tests.
pub(crate) fn are_alike(pred: &PredRef<'_>, before: &Option<Row>, after: &Option<Row>) -> bool
    ensures { result ≡ is_alike pred.now before.now after.now }
{
    match (before, after) {
        (Some(before), Some(after)) => names_same(pred, before.as_slice(), after.as_slice()),
        (None, None) => true,
        _ => false,
    }
}
