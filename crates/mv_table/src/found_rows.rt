//! Lists of rows that were found.

ghost use Rattle.std.specs.Prelude.{◌≡◌, [], ◌∷◌, ◌++◌, All, IfOk, OnOk, option_to_list};
ghost use Rattle.mv_values.specs.Keys.{IsRising, IsBelow};
ghost use Rattle.mv_table.specs.FoundRows.{rows_in};

use crate::found::Found;
use mv_values::memory::NoMemory;
use mv_values::rows::Rows;
use std::alloc::Global;
use std::marker::Model;
use std::mem;

/// One row or none in place, or a list.
#[derive(Drop)]
enum Form<'s> {
    One(Option<Found<'s>>),
    Many(Vec<Found<'s>>),
}

/// Rows that were found, in key order. One of them needs no list. Contracts see the list of the rows.
#[derive(Drop)]
pub struct FoundRows<'s> {
    alloc: Global,
    form: Form<'s>,
}

impl<'s> Model for FoundRows<'s> {
    ghost use Rattle.std.specs.Prelude.{List as Seq};
    ghost use Rattle.mv_values.specs.declared.rows.Keyed.{Keyed};
    ghost use Rattle.mv_values.specs.Keys.{IsRising};
    ghost use Rattle.mv_table.specs.FoundRows.{rows_in};

    ghost Value = { Seq Keyed };

    ghost view = { λ r. rows_in r.form };

    ghost invariant = { λ r. IsRising (rows_in r.form) };
}

/// Borrows the rows as a slice.
fn slice_of<'a, 's>(form: &'a Form<'s>) -> &'a [Found<'s>]
    ensures { result.now ≡ rows_in form.now }
{
    match form {
        Form::One(item) => item.as_slice(),
        Form::Many(items) => items.as_slice(),
    }
}

/// Returns the rows with one more at their end. The second one makes a list of them.
fn with_last<'s>(alloc: Global, form: Form<'s>, item: Found<'s>) -> Result<Form<'s>, NoMemory>
    ensures { IfOk result (λ more. rows_in more ≡ rows_in form.entry ++ item.entry ∷ []) }
{
    match form {
        Form::One(None) => Ok(Form::One(Some(item))),
        Form::One(Some(first)) => {
            let mut items = Vec::with_capacity(alloc, 4)?;
            items.push(first)?;
            items.push(item)?;
            Ok(Form::Many(items))
        }
        Form::Many(items) => {
            let mut items = items;
            items.push(item)?;
            Ok(Form::Many(items))
        }
    }
}

/// Returns one row by value, or none.
fn own_item(alloc: Global, item: Option<Found<'_>>) -> Result<Rows, NoMemory>
    ensures { IfOk result (λ rows. rows ≡ option_to_list item.entry) }
{
    let mut rows = Rows::new(alloc);
    if let Some(item) = item {
        rows.push(item.into_keyed(alloc)?)?;
    }
    Ok(rows)
}

/// Returns rows in key order by value.
fn own_items(alloc: Global, items: Vec<Found<'_>>) -> Result<Rows, NoMemory>
    requires { IsRising items.items }
    ensures { IfOk result (λ rows. rows ≡ items.entry.items) }
{
    let mut rows = Rows::new(alloc);
    for item in items {
        rows.push(item.into_keyed(alloc)?)?;
    }
    Ok(rows)
}

impl<'s> FoundRows<'s> {
    /// Returns no rows. It allocates no memory.
    pub fn new(alloc: Global) -> FoundRows<'s>
        ensures { result ≡ [] }
    {
        FoundRows::one(alloc, None)
    }

    /// Returns one row, or none. It allocates no memory.
    pub fn one(alloc: Global, item: Option<Found<'s>>) -> FoundRows<'s>
        ensures { result ≡ option_to_list item.entry }
    {
        FoundRows {
            alloc,
            form: Form::One(item),
        }
    }

    /// Appends a row. Its key must be greater than all others. If memory runs out, the rows are lost.
    pub fn push(&mut self, item: Found<'s>) -> Result<(), NoMemory>
        requires { All (IsBelow item.key) self.old }
        ensures { OnOk result (self.new ≡ self.old ++ item.entry ∷ []) }
    {
        let form = mem::replace(&mut self.form, Form::One(None));
        self.form = with_last(self.alloc, form, item)?;
        Ok(())
    }

    /// Takes rows that were made. Fails if memory runs out.
    pub fn made(alloc: Global, rows: Rows) -> Result<FoundRows<'s>, NoMemory>
        ensures { IfOk result (λ found. found ≡ rows) }
    {
        let mut found = FoundRows::new(alloc);
        for item in rows.into_items() {
            found.push(Found::made(item))?;
        }
        Ok(found)
    }

    /// Returns the rows by value. It copies what is kept, and moves what was made. Fails if memory runs out.
    pub fn into_rows(self, alloc: Global) -> Result<Rows, NoMemory>
        ensures { IfOk result (λ rows. rows ≡ self.entry) }
    {
        match self.form {
            Form::One(item) => own_item(alloc, item),
            Form::Many(items) => own_items(alloc, items),
        }
    }

    /// Borrows the rows as a slice, in key order.
    pub fn as_slice(&self) -> &[Found<'s>]
        ensures items { result.now ≡ self.now }
        ensures rising { IsRising self.now }
    {
        slice_of(&self.form)
    }
}
