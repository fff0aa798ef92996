//! Hits, found from the tables before and after a commit: they are compared row by row.

use mv_record::record::Record;
use mv_values::list::List;
use mv_values::memory::NoMemory;
use mv_values::patch::Write;
use mv_values::pred::Pred;
use mv_values::rows::{Database, Keyed};
use mv_values::value::{Key, Row, Value};
use std::alloc::Global;

/// The tables after some commits, and the records of each call after it has run alone on them.
#[derive(Drop)]
pub(crate) struct Point {
    pub(crate) tables: Database,
    pub(crate) runs: List<List<Record>>,
}

/// Returns the records of a call after so many commits.
pub(crate) fn records_at(points: &[Point], commits: u32, call: u32) -> Option<&[Record]> {
    let point = points.get(commits as usize)?;
    let records = point.runs.as_slice().get(call as usize)?;
    Some(records.as_slice())
}

/// Returns the row under a key.
fn row_under<'r>(rows: &'r [Keyed], key: &Key) -> Option<&'r Row> {
    for item in rows {
        if item.key == *key {
            return Some(&item.row);
        }
    }
    None
}

/// Whether a column that the predicate selects or tests differs.
fn differ(pred: &Pred, before: &[Value], after: &[Value]) -> bool {
    for column in 0..16u8 {
        if let (Some(a), Some(b)) = (before.get(column as usize), after.get(column as usize))
            && pred.names(column)
            && !a.is(b)
        {
            return true;
        }
    }
    false
}

/// Whether there is one row and not the other, or a column that the predicate selects or tests differs.
fn are_changed(pred: &Pred, before: Option<&Row>, after: Option<&Row>) -> bool {
    match (before, after) {
        (Some(before), Some(after)) => differ(pred, before.as_slice(), after.as_slice()),
        _ => before.is_some() || after.is_some(),
    }
}

/// Whether one of these writes is to the key.
fn has_written(writes: &[Write], table: u8, key: &Key) -> bool {
    for write in writes {
        if write.table == table && write.key == *key {
            return true;
        }
    }
    false
}

/// Whether one of these records wrote the key.
fn have_written(records: &[Record], table: u8, key: &Key) -> bool {
    for record in records {
        if has_written(record.writes.as_slice(), table, key) {
            return true;
        }
    }
    false
}

/// Whether the change of a row hits the predicate of a record after these.
fn is_hit_at(own: &[Record], pred: &Pred, key: &Key, before: &[Keyed], after: &[Keyed]) -> bool {
    let (before, after) = (row_under(before, key), row_under(after, key));
    if have_written(own, pred.table, key) {
        pred.admits(key) && are_changed(pred, before, after)
    } else {
        !pred.same(before, after)
    }
}

/// Returns the rows of a table.
fn rows_of(point: &Point, table: u8) -> &[Keyed] {
    match point.tables.as_slice().get(table as usize) {
        Some(rows) => rows.as_slice(),
        None => &[],
    }
}

/// The table and the key of a row.
#[derive(Clone, Copy)]
pub(crate) struct Place<'r> {
    pub(crate) table: u8,
    pub(crate) key: &'r Key,
}

/// Adds the places of those of these rows whose change hits the predicate of a record after these.
fn add_hits<'r>(
    places: &mut Vec<Place<'r>>,
    own: &[Record],
    pred: &Pred,
    items: &'r [Keyed],
    before: &[Keyed],
    after: &[Keyed],
) -> Result<(), NoMemory> {
    for item in items {
        if is_hit_at(own, pred, &item.key, before, after) {
            let (table, key) = (pred.table, &item.key);
            places.push(Place { table, key })?;
        }
    }
    Ok(())
}

/// Returns the places of the rows whose change by a commit hits a record after these.
pub(crate) fn hits_of<'r>(
    alloc: Global,
    own: &[Record],
    record: &Record,
    before: &'r Point,
    after: &'r Point,
) -> Result<Vec<Place<'r>>, NoMemory> {
    let mut places = Vec::new(alloc);
    for pred in record.preds.as_slice() {
        let (before, after) = (rows_of(before, pred.table), rows_of(after, pred.table));
        add_hits(&mut places, own, pred, before, before, after)?;
        add_hits(&mut places, own, pred, after, before, after)?;
    }
    Ok(places)
}
