//! Indexes of whole databases.

ghost use Rattle.std.specs.Prelude.{◌≡◌, ◌≢◌, ◌⊎◌, ℕ, true, List as Seq, IfOk, OnOk};
ghost use Rattle.mv_values.specs.declared.value.Value.{Value as Val};
ghost use Rattle.mv_values.specs.Tables.{rows_at};
ghost use Rattle.mv_values.specs.Testing.{are_tested};
ghost use Rattle.mv_index.specs.Indexing.{is_indexed, stands, has_row, lens_of, CoversRows, Covers, Keeps, HaveLen, AreOf};

use crate::index::Index;
use mv_values::list::List;
use mv_values::memory::NoMemory;
use mv_values::rows::{Database, Keyed};
use mv_values::tested::Tested;
use std::alloc::Global;

/// Returns the rows of a table; empty if there is no such table.
fn rows_in(database: &Database, table: usize) -> &[Keyed]
    ensures { result.now ≡ rows_at database.now table }
{
    match database.as_slice().get(table) {
        Some(rows) => rows.as_slice(),
        None => &[],
    }
}

/// Adds the keys of the rows of a table.
fn add_rows(alloc: Global, index: &mut Index, table: u8, rows: &[Keyed]) -> Result<(), NoMemory>
    ensures keeps { Keeps index.old index.new }
    ensures covers { OnOk result (CoversRows index.new table rows.now) }
    ensures only { OnOk result ((t c : ℕ) (v : Val) (k : Seq Val) → stands index.new t c v k ≡ true → (stands index.old t c v k ≡ true) ⊎ ((t ≡ table) × (has_row rows.now c v k ≡ true))) }
    ensures others { OnOk result ((t : ℕ) → t ≢ table → lens_of index.new t ≡ lens_of index.old t) }
    ensures even { OnOk result ((len : ℕ) → HaveLen len rows.now → AreOf len (lens_of index.old table) → AreOf len (lens_of index.new table)) }
{
    for item in rows {
        index.add(alloc, table, &item.key, &item.row)?;
    }
    Ok(())
}

/// How many numbers tables can have.
const TABLES: usize = 256;

/// Returns an index of these columns that covers a database, and that has no other entries. Takes time logarithmic in the number of rows for each row and
/// column.
pub fn cover(alloc: Global, columns: &List<Tested>, database: &Database) -> Result<Index, NoMemory>
    ensures indexed { IfOk result (λ index. (t c : ℕ) → is_indexed index t c ≡ are_tested columns.now t c) }
    ensures covers { IfOk result (λ index. Covers index database.now) }
    ensures only { IfOk result (λ index. (t c : ℕ) (v : Val) (k : Seq Val) → stands index t c v k ≡ true → has_row (rows_at database.now t) c v k ≡ true) }
    ensures even { IfOk result (λ index. (t len : ℕ) → HaveLen len (rows_at database.now t) → AreOf len (lens_of index t)) }
{
    let mut index = Index::new(alloc, columns)?;
    for table in 0..TABLES {
        add_rows(alloc, &mut index, table as u8, rows_in(database, table))?;
    }
    Ok(index)
}
