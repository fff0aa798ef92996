//! Rows of a table, to which more can be added one by one.

ghost use Rattle.std.specs.Prelude.{◌≡◌, ◌++◌, ◌∷◌, [], IfOk, IsPermutation};
ghost use Rattle.std.specs.Bool.{MatchBool};
ghost use Rattle.mv_values.specs.Keys.{IsRising};
ghost use Rattle.mv_csvio.specs.Joining.{HasKey};

use mv_values::list::List;
use mv_values::memory::NoMemory;
use mv_values::rows::{Keyed, Rows};
use mv_values::value::{Key, Row};
use std::alloc::Global;
use std::collections::BTreeMap;
use std::marker::Model;

/// Rows by key, to which more can be added. Contracts see the rows in key order.
#[derive(Drop)]
pub struct Joining {
    rows: BTreeMap<Key, Row>,
}

impl Model for Joining {
    ghost use Rattle.std.specs.Prelude.{List as Seq};
    ghost use Rattle.mv_values.specs.declared.rows.Keyed.{Keyed};
    ghost use Rattle.mv_values.specs.Keys.{stored};

    ghost Value = { Seq Keyed };

    ghost view = { λ j. stored j.rows.entries };
}

impl Joining {
    /// Returns an empty set of rows. Allocates no memory.
    pub fn new(alloc: Global) -> Joining
        ensures { result ≡ [] }
    {
        Joining {
            rows: BTreeMap::new(alloc),
        }
    }

    /// Takes over the rows of a table.
    ///
    /// # Errors
    /// `NoMemory` if memory runs out.
    pub fn of(alloc: Global, rows: Rows) -> Result<Joining, NoMemory>
        ensures rows { IfOk result (λ joining. joining ≡ rows) }
        ensures rising { IsRising rows }
    {
        let mut by_key = BTreeMap::new(alloc);
        for item in rows.into_items() {
            by_key.insert(item.key, item.row)?;
        }
        Ok(Joining { rows: by_key })
    }

    /// Adds a row and returns true, or returns false if its key is already there. Takes time log n for n rows.
    pub(crate) fn join(&mut self, item: Keyed) -> Result<bool, NoMemory>
        ensures { IfOk result (λ is_new. MatchBool is_new (IsRising self.new × IsPermutation (self.old ++ item ∷ []) self.new) (HasKey self.old item.key)) }
    {
        if self.rows.contains_key(&item.key) {
            return Ok(false);
        }
        self.rows.insert(item.key, item.row)?;
        Ok(true)
    }

    /// Returns the rows in key order, as rows of a table.
    ///
    /// # Errors
    /// `NoMemory` if memory runs out.
    pub fn into_rows(self, alloc: Global) -> Result<Rows, NoMemory>
        ensures { IfOk result (λ rows. rows ≡ self) }
    {
        let mut rows = Rows::new(alloc);
        for (key, row) in self.rows {
            rows.push(Keyed { key, row })?;
        }
        Ok(rows)
    }
}
