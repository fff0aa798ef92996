//! From databases to tables by key, and back.

ghost use Rattle.std.specs.Prelude.{◌≡◌, IfOk};

use crate::table::{Table, Tables};
use mv_values::list::List;
use mv_values::memory::NoMemory;
use mv_values::rows::Database;
use std::alloc::Global;

/// Returns the tables of a database. Copies its rows. Fails if memory runs out.
pub fn tables_of(alloc: Global, database: &Database) -> Result<Tables, NoMemory>
    ensures { IfOk result (λ tables. tables ≡ database.now) }
{
    let mut tables = List::new(alloc);
    for rows in database.as_slice() {
        tables.push(Table::of(alloc, rows)?)?;
    }
    Ok(tables)
}

/// Returns the database of these tables. Moves their rows. Fails if memory runs out.
pub fn database_of(alloc: Global, tables: Tables) -> Result<Database, NoMemory>
    ensures { IfOk result (λ database. database ≡ tables) }
{
    let mut tables = tables;
    let mut database = List::new(alloc);
    for at in 0..tables.len() {
        let rows = tables.replace(at, Table::new(alloc));
        database.push(rows.into_rows(alloc)?)?;
    }
    Ok(database)
}
