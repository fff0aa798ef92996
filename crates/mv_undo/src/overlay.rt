//! The database as a call sees it after its own writes.

ghost use Rattle.std.specs.Prelude.{◌≡◌, List, IfOk};
ghost use Rattle.mv_values.specs.declared.rows.Keyed.{Keyed};
ghost use Rattle.mv_values.specs.Patching.{applied, found_by};
ghost use Rattle.mv_values.specs.Preds.{matched};
ghost use Rattle.mv_undo.specs.Owning.{earlier, AreSought};
ghost use Rattle.mv_undo.specs.Overlaying.{IsSeen};

use crate::merge::Merge;
use crate::undo::Undo;
use mv_record::applying::find_row;
use mv_values::memory::NoMemory;
use mv_values::pred_ref::PredRef;
use mv_values::rows::Rows;
use mv_values::value::{Key, Row};
use std::alloc::Global;

/// Returns the row if the predicate matches it.
fn matched(pred: &PredRef<'_>, row: Option<Row>) -> Option<Row>
    ensures { result ≡ matched pred.now row }
{
    match row {
        Some(row) if pred.matches(&row) => Some(row),
        _ => None,
    }
}

impl Undo<'_> {
    /// Returns the predicate's rows after the writes of records below `number`. `keys` are those that `Undo::keys`
    /// returns. `rows` are the predicate's rows before these writes. `own` has the database's rows before them at those
    /// keys for which `fixes` doesn't hold. Fails if memory runs out. Moves each row once.
    pub fn overlay(
        &self,
        alloc: Global,
        number: usize,
        pred: &PredRef<'_>,
        keys: &[Key],
        rows: Rows,
        own: Rows,
    ) -> Result<Rows, NoMemory>
        requires { AreSought pred.now (earlier number self.now) keys.now }
        ensures { IfOk result (λ after. (db : List (List Keyed)) → IsSeen pred.now (earlier number self.now) rows own db → after ≡ found_by pred.now (applied (earlier number self.now) db)) }
    {
        let mut merge = Merge::of(alloc, rows);
        for key in keys {
            let row = self.row_behind(alloc, number, pred.table(), key, find_row(&own, key))?;
            merge.put(alloc, key, matched(pred, row))?;
        }
        merge.into_rows()
    }
}
