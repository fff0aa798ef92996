//! What the commit of a call leaves.

ghost use Rattle.std.specs.Prelude.{◌≡◌, IfOk};
ghost use Rattle.mv_record.specs.Writes.{AreRising};
ghost use Rattle.mv_history.specs.Changes.{changes_between};
ghost use Rattle.mv_audit.specs.Schedules.{staying, left_by};

use crate::changes::changes_of;
use mv_history::change::Change;
use mv_record::record::Record;
use mv_recorder::recorder::after_records;
use mv_table::table::Tables;
use mv_values::calls::End;
use mv_values::list::List;
use mv_values::memory::NoMemory;
use std::alloc::Global;

/// What a commit leaves: the tables, and its changes.
#[derive(Drop)]
pub(crate) struct Left {
    pub tables: Tables,
    pub changes: List<Change>,
}

/// Returns the records whose writes stay: none if the call is rolled back.
fn staying<'a>(records: &'a [Record], end: &Option<End>) -> &'a [Record]
    ensures { result.now ≡ staying records.now end.now }
{
    match end {
        None => records,
        Some(_) => &records[..0],
    }
}

/// Commits a call with these records and this end.
pub(crate) fn apply_commit(
    alloc: Global,
    tables: Tables,
    records: &[Record],
    end: &Option<End>,
) -> Result<Left, NoMemory>
    requires { AreRising tables }
    ensures tables { IfOk result (λ left. left.tables ≡ left_by records.now end.now tables) }
    ensures changes { IfOk result (λ left. left.changes ≡ changes_between tables (left_by records.now end.now tables)) }
{
    let all = staying(records, end);
    let changes = changes_of(alloc, all, &tables)?;
    let tables = after_records(alloc, tables, all)?;
    Ok(Left { tables, changes })
}
