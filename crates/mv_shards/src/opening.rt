//! The part of a database that a shard has.

ghost use Rattle.std.specs.Prelude.{◌≡◌, IfOk};
ghost use Rattle.mv_values.specs.Keys.{IsRising};
ghost use Rattle.mv_shards.specs.Parts.{shard_of, part_rows, part};

use crate::parts::{SHARDS, shard_of};
use mv_values::copied::Copied;
use mv_values::memory::NoMemory;
use mv_values::rows::{Database, Keyed, Rows};
use mv_values::value::Key;
use std::alloc::Global;

/// Returns the shard of a row, by its table and key. Two tables whose numbers differ by eight have the same shards.
fn shard_in(table: usize, key: &Key) -> u32
    ensures { result ≡ shard_of table key.now }
{
    shard_of((table % SHARDS as usize) as u8, key)
}

/// Returns copies of the rows of a table that are in the shard.
fn rows_part(alloc: Global, shard: u32, table: usize, rows: &Rows) -> Result<Rows, NoMemory>
    ensures { IfOk result (λ found. found ≡ part_rows shard table rows.now) }
{
    copy_part(alloc, shard, table, rows.as_slice())
}

fn copy_part(alloc: Global, shard: u32, table: usize, rows: &[Keyed]) -> Result<Rows, NoMemory>
    requires { IsRising rows.now }
    ensures { IfOk result (λ found. found ≡ part_rows shard table rows.now) }
{
    let mut found = Rows::new(alloc);
    for item in rows {
        if shard_in(table, &item.key) == shard {
            found.push(item.copy(alloc)?)?;
        }
    }
    Ok(found)
}

/// Returns copies of the rows of each table that are in the shard.
pub(crate) fn part_of(alloc: Global, shard: u32, tables: &Database) -> Result<Database, NoMemory>
    ensures { IfOk result (λ database. database ≡ part shard tables.now) }
{
    let mut database = Database::new(alloc);
    for (table, rows) in tables.as_slice().iter().enumerate() {
        database.push(rows_part(alloc, shard, table, rows)?)?;
    }
    Ok(database)
}
