//! The initial versions of a database.

ghost use Rattle.std.specs.Prelude.{◌≡◌, IfOk, map};
ghost use Rattle.mv_table.specs.Entries.{KeysRise};
ghost use Rattle.mv_store.specs.Kept.{AllRise};
ghost use Rattle.mv_store.specs.Opened.{opened};

use mv_chain::chain::Chain;
use mv_table::key_map::KeyMap;
use mv_values::copied::Copied;
use mv_values::memory::NoMemory;
use mv_values::rows::{Database, Rows};
use std::alloc::Global;

/// Returns the rows of a table as versions before any commit.
fn open_table(alloc: Global, rows: &Rows) -> Result<KeyMap<Chain>, NoMemory>
    ensures opened { IfOk result (λ table. table ≡ opened rows.now) }
    ensures rising { IfOk result (λ table. KeysRise table) }
{
    let mut table = KeyMap::new(alloc);
    for item in rows.as_slice() {
        let key = item.key.copy(alloc)?;
        let row = item.row.copy(alloc)?;
        table.put(key, Chain::new(alloc, Some(row)))?;
    }
    Ok(table)
}

/// Returns the tables of a database as versions before any commit.
pub(crate) fn open_all(alloc: Global, opening: &Database) -> Result<Vec<KeyMap<Chain>>, NoMemory>
    ensures opened { IfOk result (λ tables. tables.items ≡ map opened opening.now) }
    ensures rising { IfOk result (λ tables. AllRise tables.items) }
{
    let mut tables = Vec::new(alloc);
    for rows in opening.as_slice() {
        tables.push(open_table(alloc, rows)?)?;
    }
    Ok(tables)
}
