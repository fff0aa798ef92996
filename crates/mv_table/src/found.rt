//! Rows that were found, with their keys.

ghost use Rattle.std.specs.Prelude.{◌≡◌, IfOk};
ghost use Rattle.mv_table.specs.Finding.{key_in};

use crate::table::Stored;
use mv_values::copied::Copied;
use mv_values::lent::Lent;
use mv_values::memory::NoMemory;
use mv_values::rows::Keyed;
use mv_values::value::{Key, Row};
use std::alloc::Global;
use std::marker::Model;

/// A key where it is kept, or one that was made.
#[derive(Drop)]
enum KeyForm<'s> {
    Kept(&'s Key),
    Made(Key),
}

/// A row that was found, with its key. Each of them is lent where it is kept, or was made. Contracts see the row with
/// its key.
#[derive(Drop)]
pub struct Found<'s> {
    key: KeyForm<'s>,
    row: Lent<'s>,
}

impl<'s> Model for Found<'s> {
    ghost use Rattle.mv_values.specs.declared.rows.Keyed.{Keyed};
    ghost use Rattle.mv_table.specs.Finding.{key_in};

    ghost Value = { Keyed };

    ghost view = { λ f. record { key = key_in f.key; row = f.row } };
}

/// Borrows the key.
fn key_in<'a>(form: &'a KeyForm<'_>) -> &'a Key
    ensures { result.now ≡ key_in form.now }
{
    match form {
        KeyForm::Kept(key) => *key,
        KeyForm::Made(key) => key,
    }
}

/// Returns the key by value. It copies a key that is kept, and moves one that was made.
fn into_key(form: KeyForm<'_>, alloc: Global) -> Result<Key, NoMemory>
    ensures { IfOk result (λ key. key ≡ key_in form.entry) }
{
    match form {
        KeyForm::Kept(key) => key.copy(alloc),
        KeyForm::Made(key) => Ok(key),
    }
}

impl<'s> Found<'s> {
    /// Takes a row under a key that is lent where it is kept.
    pub fn lent(key: &'s Key, row: Lent<'s>) -> Found<'s>
        ensures { result ≡ record { key = key.now; row = row.entry } }
    {
        Found {
            key: KeyForm::Kept(key),
            row,
        }
    }

    /// Takes a row under a key that was made.
    pub fn under(key: Key, row: Lent<'s>) -> Found<'s>
        ensures { result ≡ record { key = key; row = row.entry } }
    {
        Found {
            key: KeyForm::Made(key),
            row,
        }
    }

    /// Takes a row and its key, both of which were made.
    pub fn made(item: Keyed) -> Found<'s>
        ensures { result ≡ item }
    {
        Found {
            key: KeyForm::Made(item.key),
            row: Lent::made(item.row),
        }
    }

    /// Returns the row with its key by value. It copies what is kept, and moves what was made. Fails if memory runs out.
    pub fn into_keyed(self, alloc: Global) -> Result<Keyed, NoMemory>
        ensures { IfOk result (λ item. item ≡ self.entry) }
    {
        let Found { key, row } = self;
        let key = into_key(key, alloc)?;
        let row = row.into_row(alloc)?;
        Ok(Keyed { key, row })
    }
}

impl<'s> Stored for Found<'s> {
    ghost keyed = { λ f. f };

    fn key(&self) -> &Key {
        key_in(&self.key)
    }

    fn row(&self) -> &Row {
        self.row.get()
    }
}

/// Takes a row with its key, both of which were made, if there is one.
pub fn made<'s>(item: Option<Keyed>) -> Option<Found<'s>>
    ensures { result ≡ item }
{
    match item {
        Some(item) => Some(Found::made(item)),
        None => None,
    }
}

/// Returns a row with its key by value, if there is one. Fails if memory runs out.
pub fn own(alloc: Global, item: Option<Found<'_>>) -> Result<Option<Keyed>, NoMemory>
    ensures { IfOk result (λ own. own ≡ item.entry) }
{
    match item {
        Some(item) => Ok(Some(item.into_keyed(alloc)?)),
        None => Ok(None),
    }
}
