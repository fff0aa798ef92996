//! Rows that are lent, or that were made.

ghost use Rattle.std.specs.Prelude.{◌≡◌, IfOk};
ghost use Rattle.std.specs.Option.{option_copied};
ghost use Rattle.mv_values.specs.Lending.{row_in};

use crate::copied::Copied;
use crate::memory::NoMemory;
use crate::value::{Row, Value};
use std::alloc::Global;
use std::marker::Model;

/// A row where it is kept, or one that was made.
#[derive(Drop)]
enum Form<'s> {
    Kept(&'s Row),
    Made(Row),
}

/// A row that is lent where it is kept, or that was made. Contracts see the row.
#[derive(Drop)]
pub struct Lent<'s> {
    form: Form<'s>,
}

impl<'s> Model for Lent<'s> {
    ghost use Rattle.std.specs.Prelude.{List as Seq};
    ghost use Rattle.mv_values.specs.declared.value.Value.{Value as Held};
    ghost use Rattle.mv_values.specs.Lending.{row_in};

    ghost Value = { Seq Held };

    ghost view = { λ l. row_in l.form };
}

/// Borrows the row.
fn row_in<'a>(form: &'a Form<'_>) -> &'a Row
    ensures { result.now ≡ row_in form.now }
{
    match form {
        Form::Kept(row) => *row,
        Form::Made(row) => row,
    }
}

impl<'s> Lent<'s> {
    /// Lends a row where it is kept.
    pub fn kept(row: &'s Row) -> Lent<'s>
        ensures { result ≡ row.now }
    {
        Lent {
            form: Form::Kept(row),
        }
    }

    /// Takes a row that was made.
    pub fn made(row: Row) -> Lent<'s>
        ensures { result ≡ row }
    {
        Lent {
            form: Form::Made(row),
        }
    }

    /// Borrows the row.
    pub fn get(&self) -> &Row
        ensures { result.now ≡ self.now }
    {
        row_in(&self.form)
    }

    /// Borrows the values of the row.
    pub fn as_slice(&self) -> &[Value]
        ensures { result.now ≡ self.now }
    {
        row_in(&self.form).as_slice()
    }

    /// Returns the row by value. It copies a row that is kept, and moves one that was made. Fails if memory runs out.
    pub fn into_row(self, alloc: Global) -> Result<Row, NoMemory>
        ensures { IfOk result (λ row. row ≡ self.entry) }
    {
        match self.form {
            Form::Kept(row) => row.copy(alloc),
            Form::Made(row) => Ok(row),
        }
    }
}

/// Returns a row by value, if there is one. Fails if memory runs out.
pub fn own(alloc: Global, row: Option<Lent<'_>>) -> Result<Option<Row>, NoMemory>
    ensures { IfOk result (λ own. own ≡ row.entry) }
{
    match row {
        Some(row) => Ok(Some(row.into_row(alloc)?)),
        None => Ok(None),
    }
}

/// Takes a row that was made, if there is one.
pub fn made<'s>(row: Option<Row>) -> Option<Lent<'s>>
    ensures { result ≡ row }
{
    match row {
        Some(row) => Some(Lent::made(row)),
        None => None,
    }
}

/// Lends a row where it is kept, if there is one.
pub fn kept<'s>(row: Option<&'s Row>) -> Option<Lent<'s>>
    ensures { result ≡ option_copied row.entry }
{
    match row {
        Some(row) => Some(Lent::kept(row)),
        None => None,
    }
}
