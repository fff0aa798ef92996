//! The stored rows of a table.

ghost use Rattle.std.specs.Prelude.{◌≡◌, [], length, map, option_to_list, None, Some, OnOk, OnErr, IfOk, IfErr};
ghost use Rattle.std.specs.List.{filter};
ghost use Rattle.std.specs.Option.{option_copied, option_map};
ghost use Rattle.mv_values.specs.Keys.{IsRising, stored};
ghost use Rattle.mv_values.specs.Patching.{row_of, placed, standing};
ghost use Rattle.mv_values.specs.Tables.{rows_at};
ghost use Rattle.mv_table.specs.Entries.{seen};
ghost use Rattle.mv_table.specs.Spans.{is_within, IsForward};

use crate::key_map::KeyMap;
use crate::span::Span;
use mv_values::copied::Copied;
use mv_values::list::List;
use mv_values::memory::NoMemory;
use mv_values::rows::{Keyed, Rows};
use mv_values::value::{Key, Row};
use std::alloc::Global;
use std::collections::btree_map::Range;
use std::marker::Model;

/// A row of a table with its key, both borrowed.
#[derive(Clone, Copy)]
pub struct Entry<'a> {
    pub key: &'a Key,
    pub row: &'a Row,
}

/// A value that can be read as a row with its key.
pub trait Stored {
    ghost use Rattle.mv_values.specs.declared.rows.Keyed.{Keyed};

    /// The row with its key.
    ghost keyed: { Self → Keyed };

    /// The key.
    fn key(&self) -> &Key
        ensures { result.now ≡ (keyed self.now).key };

    /// The row.
    fn row(&self) -> &Row
        ensures { result.now ≡ (keyed self.now).row };
}

impl Stored for Keyed {
    ghost keyed = { λ k. k };

    fn key(&self) -> &Key {
        &self.key
    }

    fn row(&self) -> &Row {
        &self.row
    }
}

impl<'a> Stored for Entry<'a> {
    ghost keyed = { seen };

    fn key(&self) -> &Key {
        self.key
    }

    fn row(&self) -> &Row {
        self.row
    }
}

/// The rows of a table, kept in a tree. Contracts see them as those of `Rows`: in key order, each with its key.
#[derive(Drop)]
pub struct Table {
    rows: KeyMap<Row>,
}

impl Model for Table {
    ghost use Rattle.std.specs.Prelude.{List as Seq};
    ghost use Rattle.mv_values.specs.declared.rows.Keyed.{Keyed};
    ghost use Rattle.mv_values.specs.Keys.{stored};

    ghost Value = { Seq Keyed };

    ghost view = { λ t. stored t.rows };
}

/// The tables of a database, in the order of the script.
pub type Tables = List<Table>;

/// Returns the row under a key of a table; none if there is no such table. Costs one look-up.
pub fn row_at<'a>(tables: &'a Tables, table: u8, key: &Key) -> Option<&'a Row>
    ensures { option_copied result ≡ row_of (rows_at tables.now table) key.now }
{
    match tables.as_slice().get(table as usize) {
        None => None,
        Some(rows) => rows.get(key),
    }
}

impl Table {
    /// Returns a table without rows. It allocates no memory.
    pub fn new(alloc: Global) -> Table
        ensures { result ≡ [] }
    {
        Table {
            rows: KeyMap::new(alloc),
        }
    }

    /// Returns the number of rows.
    pub fn len(&self) -> usize
        ensures len { result ≡ length self.now }
        ensures rising { IsRising self.now }
    {
        self.rows.len()
    }

    /// Returns the row under a key. Takes time logarithmic in the number of rows.
    pub fn get(&self, key: &Key) -> Option<&Row>
        ensures { option_copied result ≡ row_of self.now key.now }
    {
        self.rows.get(key)
    }

    /// Borrows the row under a key, with the key. Takes time logarithmic in the number of rows.
    pub fn entry(&self, key: &Key) -> Option<Entry<'_>>
        ensures { option_to_list (option_map seen result) ≡ standing key.now (row_of self.now key.now) }
    {
        match self.rows.get_key_value(key) {
            Some((key, row)) => Some(Entry { key, row }),
            None => None,
        }
    }

    /// Puts a row under a key, and returns the old one if there was one. Takes time logarithmic in the number of rows,
    /// and moves none of them. If memory runs out, the table is unchanged.
    pub fn put(&mut self, key: Key, row: Row) -> Result<Option<Row>, NoMemory>
        ensures ok { OnOk result (self.new ≡ placed key (Some row) self.old) }
        ensures was { IfOk result (λ was. was ≡ row_of self.old key) }
        ensures err { OnErr result (self.new ≡ self.old) }
    {
        let was = self.rows.put(key, row)?;
        Ok(was)
    }

    /// Replaces the row under a key, and returns the old one. If there is none, the table is unchanged and the given
    /// row is returned as the error. Takes time logarithmic in the number of rows, and allocates no memory.
    pub fn replace(&mut self, key: &Key, row: Row) -> Result<Row, Row>
        ensures rows { OnOk result (self.new ≡ placed key.now (Some row) self.old) }
        ensures was { IfOk result (λ was. row_of self.old key.now ≡ Some was) }
        ensures none { IfErr result (λ back. (back ≡ row) × (row_of self.old key.now ≡ None)) }
        ensures same { OnErr result (self.new ≡ self.old) }
    {
        self.rows.replace(key, row)
    }

    /// Removes the row under a key and returns it. Takes time logarithmic in the number of rows, moves none of them and
    /// allocates no memory.
    pub fn take(&mut self, key: &Key) -> Option<Row>
        ensures rows { self.new ≡ placed key.now None self.old }
        ensures was { result ≡ row_of self.old key.now }
    {
        self.rows.take(key)
    }

    /// Returns the rows whose keys are in the span, in key order. Takes time logarithmic in the number of rows, and
    /// linear in the number of rows returned. Fails if memory runs out.
    pub fn part(&self, alloc: Global, span: &Span) -> Result<Vec<Entry<'_>>, NoMemory>
        requires { IsForward span.now }
        ensures rows { IfOk result (λ part. map seen part.items ≡ filter (λ item. is_within span.now item.key) self.now) }
        ensures rising { IsRising self.now }
    {
        let mut part = Vec::new(alloc);
        for (key, row) in self.rows.range(span) {
            part.push(Entry { key, row })?;
        }
        Ok(part)
    }

    /// Iterates over the rows whose keys are in the span, in key order. It finds the first and the last one in time
    /// logarithmic in the number of rows.
    pub fn range(&self, span: &Span) -> Range<'_, Key, Row>
        requires { IsForward span.now }
        ensures rows { stored result ≡ filter (λ item. is_within span.now item.key) self.now }
        ensures rising { IsRising self.now }
    {
        self.rows.range(span)
    }

    /// Copies rows into a new table. Takes time logarithmic in the number of rows for each row. Fails if memory runs out.
    pub fn of(alloc: Global, rows: &Rows) -> Result<Table, NoMemory>
        ensures { IfOk result (λ table. table ≡ rows.now) }
    {
        let mut table = Table::new(alloc);
        for item in rows.as_slice() {
            let key = item.key.copy(alloc)?;
            table.put(key, item.row.copy(alloc)?)?;
        }
        Ok(table)
    }

    /// Turns the table into a list of its rows. Fails if memory runs out.
    pub fn into_rows(self, alloc: Global) -> Result<Rows, NoMemory>
        ensures { IfOk result (λ rows. rows ≡ self) }
    {
        let mut rows = Rows::new(alloc);
        for (key, row) in self.rows.into_entries() {
            rows.push(Keyed { key, row })?;
        }
        Ok(rows)
    }
}
