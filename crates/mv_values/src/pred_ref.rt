//! Predicates that are lent.

ghost use Rattle.std.specs.Prelude.{◌≡◌, ◌↔◌, ◌==◌, IsTrue};
ghost use Rattle.std.specs.List.{list_any};
ghost use Rattle.std.specs.Option.{option_copied};
ghost use Rattle.mv_values.specs.Preds.{matches, admits, matched, sees, names};

use crate::key::Key;
use crate::pred::{Pred, Test, agrees, are_same_in, meets};
use crate::value::Row;
use std::marker::Model;

/// A predicate that is lent. Contracts see the predicate.
#[derive(Drop)]
pub struct PredRef<'a> {
    table: u8,
    tests: &'a [Test],
    columns: &'a [u8],
}

impl<'a> Model for PredRef<'a> {
    ghost use Rattle.mv_values.specs.declared.pred.Pred.{Pred};

    ghost Value = { Pred };

    ghost view = { λ p. record { table = p.table; tests = p.tests.now; columns = p.columns.now } };
}

impl<'a> PredRef<'a> {
    /// Returns a predicate of these parts.
    pub fn new(table: u8, tests: &'a [Test], columns: &'a [u8]) -> PredRef<'a>
        ensures { result ≡ record { table = table; tests = tests.now; columns = columns.now } }
    {
        PredRef {
            table,
            tests,
            columns,
        }
    }

    /// Lends a predicate.
    pub fn of(pred: &'a Pred) -> PredRef<'a>
        ensures { result ≡ pred.now }
    {
        PredRef {
            table: pred.table,
            tests: pred.tests.as_slice(),
            columns: pred.columns.as_slice(),
        }
    }

    /// Returns its table.
    pub fn table(&self) -> u8
        ensures { result ≡ self.now.table }
    {
        self.table
    }

    /// Lends its tests.
    pub fn tests(&self) -> &'a [Test]
        ensures { result.now ≡ self.now.tests }
    {
        self.tests
    }

    /// Lends the columns that it selects.
    pub fn columns(&self) -> &'a [u8]
        ensures { result.now ≡ self.now.columns }
    {
        self.columns
    }

    /// Whether the row passes every test. The cost is linear in the number of tests.
    pub fn matches(&self, row: &Row) -> bool
        ensures { result ≡ matches self.now row.now }
    {
        meets(self.tests, row.as_slice())
    }

    /// Whether the key passes every test of a key column. The cost is linear in the number of tests.
    pub fn admits(&self, key: &Key) -> bool
        ensures { result ≡ admits self.now key.now }
    {
        self.tests.iter().all(|test| agrees(test, key))
    }

    /// Returns the row if there is one and it passes every test.
    fn seen<'r>(&self, row: Option<&'r Row>) -> Option<&'r Row>
        ensures { option_copied result ≡ matched self.now (option_copied row.entry) }
    {
        match row {
            Some(row) if self.matches(row) => Some(row),
            _ => None,
        }
    }

    /// Whether it sees the same of a row before and after a change: either both match and have the same values in the
    /// selected columns, or neither matches.
    pub fn same(&self, before: Option<&Row>, after: Option<&Row>) -> bool
        ensures { IsTrue result ↔ (sees self.now (option_copied before.entry) ≡ sees self.now (option_copied after.entry)) }
    {
        match (self.seen(before), self.seen(after)) {
            (Some(before), Some(after)) => {
                are_same_in(self.columns, before.as_slice(), after.as_slice())
            }
            (None, None) => true,
            _ => false,
        }
    }

    /// Whether it selects or tests the column.
    pub fn names(&self, column: u8) -> bool
        ensures { result ≡ names self.now column }
    {
        self.selects(column) || self.tests_column(column)
    }

    fn selects(&self, column: u8) -> bool
        ensures { result ≡ list_any (λ c. c == column) self.now.columns }
    {
        self.columns.iter().any(|c| *c == column)
    }

    fn tests_column(&self, column: u8) -> bool
        ensures { result ≡ list_any (λ t. t.column == column) self.now.tests }
    {
        self.tests.iter().any(|test| test.column == column)
    }
}
