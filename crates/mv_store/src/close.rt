//! Turns versions into rows.

ghost use Rattle.std.specs.Prelude.{◌≡◌, ◌++◌, All, map, IfOk, OnOk, OnSome};
ghost use Rattle.mv_values.specs.Keys.{IsBelow, stored};
ghost use Rattle.mv_table.specs.Entries.{alone_at};
ghost use Rattle.mv_store.specs.Stored.{table_at};

use mv_chain::chain::Chain;
use mv_table::key_map::KeyMap;
use mv_values::memory::NoMemory;
use mv_values::rows::{Database, Keyed, Rows};
use mv_values::value::{Key, Row};
use std::alloc::Global;

/// Appends a row, if there is one, under its key. The key must then be greater than all others.
fn push_row(rows: &mut Rows, key: Key, row: Option<Row>) -> Result<(), NoMemory>
    requires { OnSome row (All (IsBelow key) rows.old) }
    ensures { OnOk result (rows.new ≡ rows.old ++ stored (alone_at key row)) }
{
    match row {
        Some(row) => rows.push(Keyed { key, row }),
        None => Ok(()),
    }
}

/// Moves the rows of a table after commit n out.
fn close_table(alloc: Global, table: KeyMap<Chain>, n: u32) -> Result<Rows, NoMemory>
    ensures { IfOk result (λ rows. rows ≡ table_at n table) }
{
    let mut rows = Rows::new(alloc);
    for (key, chain) in table.into_entries() {
        let row = chain.into_row_at(alloc, n)?;
        push_row(&mut rows, key, row)?;
    }
    Ok(rows)
}

/// Moves the rows of all tables after commit n out.
pub(crate) fn close_all(
    alloc: Global,
    tables: Vec<KeyMap<Chain>>,
    n: u32,
) -> Result<Database, NoMemory>
    ensures { IfOk result (λ database. database ≡ map (table_at n) tables.items) }
{
    let mut database = Database::new(alloc);
    for table in tables {
        database.push(close_table(alloc, table, n)?)?;
    }
    Ok(database)
}
