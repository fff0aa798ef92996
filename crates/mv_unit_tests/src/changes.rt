//! The changes of commits, and what they hit, worked out by hand. The one table has a key, and two columns more.

ghost use Rattle.std.specs.Prelude.{◌≡◌, ◌≤◌, [], IfOk, length};
ghost use Rattle.mv_record.specs.Writes.{AreRising};

use crate::cases::ensure_at;
use crate::values::{key, row};
use mv_cases::ensure::ensure;
use mv_changes::changes::Changes;
use mv_changes::commit::changes_of_commit;
use mv_changes::hit::hit;
use mv_changes::recent::Recent;
use mv_history::change::{Change, Hit};
use mv_log::log::Log;
use mv_record::applying::put_row;
use mv_undo::own_writes::OwnWrites;
use mv_values::list::List;
use mv_values::memory::NoMemory;
use mv_values::op::Op;
use mv_values::patch::{Assign, Patch, Write};
use mv_values::pred::Test;
use mv_values::rows::{Database, Rows};
use mv_values::value::{Row, Value};
use mv_view::plain::Plain;
use std::alloc::Global;
use std::test::Fail;

/// Returns rows with these keys, each with 100 in its second column.
fn rows(alloc: Global, keys: &[i64]) -> Result<Rows, NoMemory> {
    let mut rows = Rows::new(alloc);
    for n in keys {
        let key = key(alloc, &[*n])?;
        let row = row(alloc, &[*n, 100, 0])?;
        put_row(alloc, &mut rows, &key, Some(row))?;
    }
    Ok(rows)
}

fn database(alloc: Global, keys: &[i64]) -> Result<Database, NoMemory>
    ensures size { IfOk result (λ db. 1 ≡ length db) }
    ensures rising { IfOk result AreRising }
{
    let rows = rows(alloc, keys)?;
    let _count = rows.as_slice().len();
    let mut tables = List::new(alloc);
    tables.push(rows)?;
    Ok(tables)
}

/// A write: of the second column, of a whole row, or a delete.
enum Kind {
    Set(i64),
    Insert(i64),
    Delete,
}

fn patch(alloc: Global, n: i64, kind: &Kind) -> Result<Patch, NoMemory> {
    match kind {
        Kind::Set(number) => {
            let value = Value::Int(*number);
            let mut items = List::new(alloc);
            items.push(Assign { column: 1, value })?;
            Ok(Patch::Set(items))
        }
        Kind::Insert(number) => Ok(Patch::Insert(row(alloc, &[n, *number, 0])?)),
        Kind::Delete => Ok(Patch::Delete),
    }
}

fn write(alloc: Global, table: u8, n: i64, kind: &Kind) -> Result<Write, NoMemory> {
    let key = key(alloc, &[n])?;
    let patch = patch(alloc, n, kind)?;
    Ok(Write { table, key, patch })
}

/// A table, a key and its write. The second table isn't there.
const WRITTEN: &[(u8, i64, Kind)] = &[
    (0, 9, Kind::Insert(7)),
    (0, 4, Kind::Delete),
    (0, 1, Kind::Set(130)),
    (1, 1, Kind::Insert(5)),
    (0, 2, Kind::Set(100)),
    (0, 3, Kind::Set(5)),
    (0, 3, Kind::Set(100)),
    (0, 8, Kind::Insert(1)),
    (0, 8, Kind::Delete),
    (0, 7, Kind::Set(1)),
];

/// A key that changes, and its second column before and after.
type Told = (Option<i64>, Option<i64>, Option<i64>);

const CHANGED: &[Told] = &[
    (Some(1), Some(100), Some(130)),
    (Some(4), Some(100), None),
    (Some(9), None, Some(7)),
];

fn number(row: &Row, column: usize) -> Option<i64> {
    match row.as_slice().get(column) {
        Some(Value::Int(number)) => Some(*number),
        _ => None,
    }
}

fn second(row: &Option<Row>) -> Option<i64> {
    match row {
        Some(row) => number(row, 1),
        None => None,
    }
}

fn told(change: &Change) -> Told {
    (
        change.key.part(0).number(),
        second(&change.before),
        second(&change.after),
    )
}

/// Writes a record into the log with these writes alone.
fn writing(alloc: Global, log: &mut Log) -> Result<(), NoMemory> {
    for (table, n, kind) in WRITTEN {
        log.push_write(write(alloc, *table, *n, kind)?)?;
    }
    log.close(1, None)
}

fn committed(alloc: Global) -> Result<Changes, Fail> {
    let tables = database(alloc, &[1, 2, 3, 4])?;
    let mut log = Log::new(alloc);
    writing(alloc, &mut log)?;
    let mut view = Plain::new(&tables);
    match changes_of_commit(alloc, 1, &log.records(), &mut view) {
        Ok(changes) => Ok(changes),
        Err(_) => Err("no changes".into()),
    }
}

fn are_as_told(alloc: Global, changes: &[Change]) -> Result<(), Fail> {
    ensure(alloc, changes.len() == CHANGED.len(), "three")?;
    for (i, want) in CHANGED.iter().enumerate() {
        let right = match changes.get(i) {
            Some(change) => told(change) == *want,
            None => false,
        };
        ensure_at(alloc, right, i)?;
    }
    Ok(())
}

#[test]
fn changes_are_what_differs(rt: HostRuntime) -> Result<(), Fail> {
    let alloc = rt.alloc();
    let changes = committed(alloc)?;
    are_as_told(alloc, changes.as_slice())?;
    let counts = (changes.of_table(0).len(), changes.of_table(1).len());
    ensure(alloc, counts == (3, 0), "by table")
}

/// Writes a record into the log that reads these columns of rows with these numbers.
fn reading(log: &mut Log, wanted: &[(u8, i64)], columns: &[u8]) -> Result<(), NoMemory> {
    for (column, number) in wanted {
        let key_place = if *column == 0 { Some(0) } else { None };
        log.push_test(Test {
            column: *column,
            key_place,
            op: Op::Eq,
            value: Value::Int(*number),
        })?;
    }
    log.push_columns(columns)?;
    log.push_pred(0)?;
    log.close(1, None)
}

fn some_row(alloc: Global, numbers: &Option<[i64; 3]>) -> Result<Option<Row>, NoMemory> {
    match numbers {
        Some(numbers) => Ok(Some(row(alloc, numbers)?)),
        None => Ok(None),
    }
}

/// A predicate by its tests and selected columns, the row with key 1 before a change and after it, and whether the change
/// hits where the call didn't write the key before, and where it did.
struct Case {
    wanted: &'static [(u8, i64)],
    columns: &'static [u8],
    before: Option<[i64; 3]>,
    after: Option<[i64; 3]>,
    hits: (bool, bool),
}

const CASES: &[Case] = &[
    // a selected column
    Case {
        wanted: &[(0, 1)],
        columns: &[1],
        before: Some([1, 5, 0]),
        after: Some([1, 6, 0]),
        hits: (true, true),
    },
    // another column of the same row
    Case {
        wanted: &[(0, 1)],
        columns: &[1],
        before: Some([1, 5, 0]),
        after: Some([1, 5, 9]),
        hits: (false, false),
    },
    // a tested column of a row that fails another test
    Case {
        wanted: &[(1, 1), (2, 1)],
        columns: &[],
        before: Some([1, 0, 0]),
        after: Some([1, 0, 1]),
        hits: (false, true),
    },
    // a new row that is counted
    Case {
        wanted: &[(1, 1)],
        columns: &[],
        before: None,
        after: Some([1, 1, 0]),
        hits: (true, true),
    },
    // a new row that isn't
    Case {
        wanted: &[(1, 1)],
        columns: &[],
        before: None,
        after: Some([1, 2, 0]),
        hits: (false, true),
    },
    // a row of another key
    Case {
        wanted: &[(0, 2)],
        columns: &[1],
        before: Some([1, 5, 0]),
        after: Some([1, 6, 0]),
        hits: (false, false),
    },
    // a row that goes
    Case {
        wanted: &[(0, 1)],
        columns: &[],
        before: Some([1, 5, 0]),
        after: None,
        hits: (true, true),
    },
];

/// Returns the writes of a call whose first record wrote key 1.
fn own(alloc: Global) -> Result<OwnWrites, NoMemory> {
    let write = write(alloc, 0, 1, &Kind::Set(1))?;
    let mut undo = OwnWrites::new(alloc);
    undo.push(0, write)?;
    Ok(undo)
}

fn change(alloc: Global, case: &Case) -> Result<Change, NoMemory> {
    let key = key(alloc, &[1])?;
    let before = some_row(alloc, &case.before)?;
    let after = some_row(alloc, &case.after)?;
    Ok(Change {
        table: 0,
        key,
        before,
        after,
    })
}

fn hits(alloc: Global, case: &Case, change: &Change) -> Result<(bool, bool), Fail> {
    let undo = own(alloc)?;
    let mut log = Log::new(alloc);
    reading(&mut log, case.wanted, case.columns)?;
    let records = log.records();
    if records.len() != 1 {
        return Err("not one record".into());
    }
    let record = records.get(0);
    Ok((
        hit(&record, 0, &undo.undo(), change),
        hit(&record, 1, &undo.undo(), change),
    ))
}

fn hits_as_told(alloc: Global, case: &Case) -> Result<bool, Fail> {
    let change = change(alloc, case)?;
    Ok(hits(alloc, case, &change)? == case.hits)
}

#[test]
fn changes_hit_what_a_predicate_sees(rt: HostRuntime) -> Result<(), Fail> {
    let alloc = rt.alloc();
    for (i, case) in CASES.iter().enumerate() {
        ensure_at(alloc, hits_as_told(alloc, case)?, i)?;
    }
    Ok(())
}

/// Returns the change of one row's second column.
fn one(alloc: Global, n: i64) -> Result<Changes, NoMemory> {
    let change = Change {
        table: 0,
        key: key(alloc, &[n])?,
        before: Some(row(alloc, &[n, 100, 0])?),
        after: Some(row(alloc, &[n, 101, 0])?),
    };
    let mut items = List::new(alloc);
    items.push(change)?;
    Changes::of(alloc, items)
}

/// Returns three commits: the first changes row 1, the others row 2.
pub(crate) fn three(alloc: Global) -> Result<Recent, NoMemory>
    ensures low { IfOk result (λ recent. recent.low ≡ 0) }
    ensures count { IfOk result (λ recent. length recent.commits ≡ 3) }
{
    let mut recent = Recent::new(alloc);
    recent.reserve(3)?;
    recent.push(1, one(alloc, 1)?)?;
    recent.push(2, one(alloc, 2)?)?;
    recent.push(3, one(alloc, 2)?)?;
    Ok(recent)
}

/// Writes a record into the log that reads the second column of a row, and writes nothing.
fn read(log: &mut Log, n: i64) -> Result<(), NoMemory> {
    log.push_test(Test {
        column: 0,
        key_place: Some(0),
        op: Op::Eq,
        value: Value::Int(n),
    })?;
    log.push_column(1)?;
    log.push_pred(0)?;
    log.close(1, None)
}

/// Writes the records of a call that reads the second column of these rows, one by one.
fn reads(alloc: Global, keys: &[i64]) -> Result<Log, NoMemory> {
    let mut log = Log::new(alloc);
    for n in keys {
        read(&mut log, *n)?;
    }
    Ok(log)
}

/// Returns the record and the commit that are found for a call that reads these rows.
fn found(
    alloc: Global,
    recent: &Recent,
    start: u32,
    keys: &[i64],
) -> Result<Option<(usize, u32)>, NoMemory>
    requires { recent.now.low ≤ start }
{
    let log = reads(alloc, keys)?;
    match recent.first_hit(start, &log.records(), &log.undo()) {
        Some(hit) => Ok(Some((hit.number, hit.commit))),
        None => Ok(None),
    }
}

/// A start, the rows that are read, and the record and the commit.
type Found = (u32, &'static [i64], Option<(usize, u32)>);

const FOUND: &[Found] = &[
    (0, &[5, 1], Some((1, 1))),
    (1, &[5, 1], None),
    (0, &[5, 2], Some((1, 2))),
    (1, &[2, 1], Some((0, 2))),
    (0, &[1, 2], Some((0, 1))),
    (2, &[5, 5, 2], Some((2, 3))),
    (3, &[1, 2], None),
];

fn found_as_told(alloc: Global, recent: &Recent) -> Result<(), Fail>
    requires { recent.now.low ≡ 0 }
{
    for (i, (start, keys, want)) in FOUND.iter().enumerate() {
        ensure_at(alloc, found(alloc, recent, *start, keys)? == *want, i)?;
    }
    Ok(())
}

#[test]
fn the_least_record_and_commit_are_found(rt: HostRuntime) -> Result<(), Fail> {
    let alloc = rt.alloc();
    let recent = three(alloc)?;
    found_as_told(alloc, &recent)
}

#[test]
fn commits_are_kept_from_low_on(rt: HostRuntime) -> Result<(), Fail> {
    let alloc = rt.alloc();
    let mut recent = three(alloc)?;
    ensure(alloc, recent.since(0).len() == 3, "all")?;
    recent.trim(1);
    ensure(alloc, recent.since(1).len() == 2, "after the first")?;
    recent.trim(2);
    ensure(alloc, recent.since(2).len() == 1, "after the second")?;
    ensure(alloc, recent.since(3).is_empty(), "after the third")?;
    let last = found(alloc, &recent, 2, &[2])?;
    ensure(alloc, last == Some((0, 3)), "the third")
}
