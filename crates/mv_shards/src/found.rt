//! Rows that several shards give.

ghost use Rattle.std.specs.Prelude.{◌≡◌, IfOk, OnOk};
ghost use Rattle.mv_table.specs.Scans.{foremost};
ghost use Rattle.mv_view.specs.Narrowing.{outside};
ghost use Rattle.mv_shards.specs.Reads.{added};

use mv_table::scan::Direction;
use mv_table::table::Table;
use mv_values::copied::Copied;
use mv_values::memory::NoMemory;
use mv_values::rows::{Keyed, Rows};
use mv_view::key_set::KeySet;
use std::alloc::Global;

/// Adds rows to those found. If memory runs out, some of them may be missing.
pub(crate) fn add_rows(found: &mut Table, rows: Rows) -> Result<(), NoMemory>
    ensures { OnOk result (found.new ≡ added rows found.old) }
{
    for item in rows.into_items() {
        found.put(item.key, item.row)?;
    }
    Ok(())
}

/// Returns a copy of the first row in this direction whose key isn't in `passed`.
pub(crate) fn foremost_in<K: KeySet>(
    alloc: Global,
    rows: &[Keyed],
    direction: Direction,
    passed: &K,
) -> Result<Option<Keyed>, NoMemory>
    ensures { IfOk result (λ row. row ≡ foremost direction (outside (K.has passed.now) rows.now)) }
{
    let mut left = rows;
    while let Some((item, others)) = direction.split(left) {
        if !passed.contains(&item.key) {
            return Ok(Some(item.copy(alloc)?));
        }
        left = others;
    }
    Ok(None)
}
