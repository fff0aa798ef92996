//! Which keys own writes touched, and which rows are seen after them, worked out by hand.

use crate::cases::ensure_at;
use crate::values::{key, row};
use mv_record::applying::put_row;
use mv_table::table::Stored;
use mv_undo::own_writes::OwnWrites;
use mv_values::list::List;
use mv_values::memory::NoMemory;
use mv_values::patch::{Assign, Patch, Write};
use mv_values::pred::Pred;
use mv_values::pred_ref::PredRef;
use mv_values::rows::Rows;
use mv_values::value::{Value, are_same};
use std::alloc::Global;
use std::test::Fail;

/// A record's number, a table and a key.
type Written = (usize, u8, [i64; 2]);

const WRITTEN: &[Written] = &[
    (0, 0, [1, 2]),
    (1, 0, [1, 4]),
    (1, 1, [1, 5]),
    (3, 0, [1, 2]),
];

/// Adds a write of a record whose number isn't less than those before it.
fn push_write(undo: &mut OwnWrites, number: usize, write: Write) -> Result<(), Fail> {
    if !undo.takes(number) {
        return Err("a lower number".into());
    }
    Ok(undo.push(number, write)?)
}

/// The same with a deletion.
fn push(alloc: Global, undo: &mut OwnWrites, written: &Written) -> Result<(), Fail> {
    let (number, table, numbers) = *written;
    let write = Write {
        table,
        key: key(alloc, &numbers)?,
        patch: Patch::Delete,
    };
    push_write(undo, number, write)
}

fn undo_of(alloc: Global) -> Result<OwnWrites, Fail> {
    let mut undo = OwnWrites::new(alloc);
    for written in WRITTEN {
        push(alloc, &mut undo, written)?;
    }
    Ok(undo)
}

/// Whether a key of a table is touched for a record.
fn touched(alloc: Global, undo: &OwnWrites, sought: &Written) -> Result<bool, NoMemory> {
    let (number, table, numbers) = *sought;
    let key = key(alloc, &numbers)?;
    Ok(undo.undo().touched(number, table, &key))
}

const TOUCHED: &[(Written, bool)] = &[
    ((0, 0, [1, 2]), false),
    ((1, 0, [1, 2]), true),
    ((9, 0, [1, 2]), true),
    ((1, 0, [1, 4]), false),
    ((2, 0, [1, 4]), true),
    ((9, 0, [1, 5]), false),
    ((9, 1, [1, 5]), true),
    ((1, 1, [1, 5]), false),
    ((9, 0, [1, 3]), false),
];

fn touched_as_told(alloc: Global, undo: &OwnWrites) -> Result<(), Fail> {
    for (i, (sought, want)) in TOUCHED.iter().enumerate() {
        ensure_at(alloc, touched(alloc, undo, sought)? == *want, i)?;
    }
    Ok(())
}

#[test]
fn keys_are_touched_by_earlier_records(rt: HostRuntime) -> Result<(), Fail> {
    let undo = undo_of(rt.alloc())?;
    touched_as_told(rt.alloc(), &undo)
}

/// A number, how many writes are left after those of records from it on are dropped, and whether they touch a key.
type Dropped = (usize, usize, bool);

const DROPPED: &[Dropped] = &[(0, 0, false), (1, 1, false), (2, 3, true), (4, 4, true)];

/// Drops the writes of later records. After that, a key can be touched that none touched before.
fn drops(alloc: Global, undo: &mut OwnWrites, case: &Dropped) -> Result<bool, Fail> {
    let (number, want, early) = *case;
    undo.drop_from(number);
    let is_left = undo.len() == want;
    let is_early = touched(alloc, undo, &(9, 0, [1, 4]))? == early;
    push(alloc, undo, &(5, 0, [7, 7]))?;
    let is_late = touched(alloc, undo, &(6, 0, [7, 7]))?;
    let is_own = touched(alloc, undo, &(5, 0, [7, 7]))?;
    Ok(is_left && is_early && is_late && !is_own)
}

fn drops_as_told(alloc: Global, case: &Dropped) -> Result<bool, Fail> {
    let mut undo = undo_of(alloc)?;
    drops(alloc, &mut undo, case)
}

#[test]
fn writes_of_later_records_are_dropped(rt: HostRuntime) -> Result<(), Fail> {
    let alloc = rt.alloc();
    for (i, case) in DROPPED.iter().enumerate() {
        ensure_at(alloc, drops_as_told(alloc, case)?, i)?;
    }
    Ok(())
}

/// What a write does: insert a row with these values after its key, set a column, or delete the row.
enum Kind {
    Insert(i64, i64),
    Set(u8, i64),
    Delete,
}

/// A record's number, a key, and what its write does.
type Change = (usize, i64, Kind);

/// Rows of a key and two values.
type Numbers = &'static [[i64; 3]];

const BEFORE: Numbers = &[[1, 10, 10], [3, 30, 30], [5, 50, 50]];

const CHANGES: &[Change] = &[
    (0, 1, Kind::Set(1, 11)),
    (1, 1, Kind::Set(2, 12)),
    (2, 1, Kind::Set(1, 13)),
    (3, 2, Kind::Insert(20, 20)),
    (4, 2, Kind::Delete),
    (5, 2, Kind::Insert(21, 21)),
    (6, 2, Kind::Set(2, 22)),
    (7, 3, Kind::Delete),
    (7, 4, Kind::Set(1, 41)),
    (8, 3, Kind::Set(1, 31)),
    (9, 0, Kind::Insert(1, 1)),
    (9, 9, Kind::Insert(90, 90)),
];

/// The rows that each record sees.
const SEEN: &[Numbers] = &[
    BEFORE,
    &[[1, 11, 10], [3, 30, 30], [5, 50, 50]],
    &[[1, 11, 12], [3, 30, 30], [5, 50, 50]],
    &[[1, 13, 12], [3, 30, 30], [5, 50, 50]],
    &[[1, 13, 12], [2, 20, 20], [3, 30, 30], [5, 50, 50]],
    &[[1, 13, 12], [3, 30, 30], [5, 50, 50]],
    &[[1, 13, 12], [2, 21, 21], [3, 30, 30], [5, 50, 50]],
    &[[1, 13, 12], [2, 21, 22], [3, 30, 30], [5, 50, 50]],
    &[[1, 13, 12], [2, 21, 22], [5, 50, 50]],
    &[[1, 13, 12], [2, 21, 22], [5, 50, 50]],
    &[
        [0, 1, 1],
        [1, 13, 12],
        [2, 21, 22],
        [5, 50, 50],
        [9, 90, 90],
    ],
];

fn patch_of(alloc: Global, n: i64, kind: &Kind) -> Result<Patch, NoMemory> {
    match kind {
        Kind::Insert(first, second) => Ok(Patch::Insert(row(alloc, &[n, *first, *second])?)),
        Kind::Set(column, number) => {
            let value = Value::Int(*number);
            let mut items = List::new(alloc);
            items.push(Assign {
                column: *column,
                value,
            })?;
            Ok(Patch::Set(items))
        }
        Kind::Delete => Ok(Patch::Delete),
    }
}

/// Adds the changes of records from this number on.
fn push_from(alloc: Global, undo: &mut OwnWrites, from: usize) -> Result<(), Fail> {
    for (number, n, kind) in CHANGES {
        if *number < from {
            continue;
        }
        let write = Write {
            table: 0,
            key: key(alloc, &[*n])?,
            patch: patch_of(alloc, *n, kind)?,
        };
        push_write(undo, *number, write)?;
    }
    Ok(())
}

/// Returns the rows, each under its first number, that are of all keys, or of those that a record's predecessors wrote
/// without fixing their rows.
fn rows_of(
    alloc: Global,
    numbers: Numbers,
    own: Option<(&OwnWrites, usize)>,
) -> Result<Rows, NoMemory> {
    let mut rows = Rows::new(alloc);
    for item in numbers {
        let key = key(alloc, &[item[0]])?;
        let is_wanted = match own {
            Some((undo, number)) => {
                undo.undo().touched(number, 0, &key) && !undo.undo().fixes(number, 0, &key)
            }
            None => true,
        };
        if is_wanted {
            put_row(alloc, &mut rows, &key, Some(row(alloc, item)?))?;
        }
    }
    Ok(rows)
}

pub(crate) fn is_same<S: Stored>(item: &S, other: &S) -> bool {
    item.key() == other.key() && are_same(item.row().as_slice(), other.row().as_slice())
}

/// Whether two lists have equal rows.
pub(crate) fn are_equal<S: Stored>(rows: &[S], want: &[S]) -> bool {
    rows.len() == want.len()
        && rows
            .iter()
            .zip(want)
            .all(|(item, other)| is_same(item, other))
}

/// Whether a record sees these rows.
fn sees(alloc: Global, undo: &OwnWrites, number: usize, want: Numbers) -> Result<bool, NoMemory> {
    let pred = Pred {
        table: 0,
        tests: List::new(alloc),
        columns: List::new(alloc),
    };
    let rows = rows_of(alloc, BEFORE, None)?;
    let own = rows_of(alloc, BEFORE, Some((undo, number)))?;
    let keys = undo.undo().keys(alloc, number, &PredRef::of(&pred))?;
    let seen = undo.undo().overlay(
        alloc,
        number,
        &PredRef::of(&pred),
        keys.as_slice(),
        rows,
        own,
    )?;
    let want = rows_of(alloc, want, None)?;
    Ok(are_equal(seen.as_slice(), want.as_slice()))
}

fn seen_as_told(alloc: Global, undo: &OwnWrites) -> Result<(), Fail> {
    for (number, want) in SEEN.iter().enumerate() {
        ensure_at(alloc, sees(alloc, undo, number, want)?, number)?;
    }
    Ok(())
}

#[test]
fn each_record_sees_the_rows_after_those_before_it(rt: HostRuntime) -> Result<(), Fail> {
    let mut undo = OwnWrites::new(rt.alloc());
    push_from(rt.alloc(), &mut undo, 0)?;
    seen_as_told(rt.alloc(), &undo)
}

/// Whether a record that comes after all sees these rows where those from a number on are dropped.
fn sees_without(
    alloc: Global,
    undo: &mut OwnWrites,
    number: usize,
    want: Numbers,
) -> Result<bool, Fail> {
    undo.drop_from(number);
    Ok(sees(alloc, undo, 99, want)?)
}

#[test]
fn rows_are_seen_where_records_were_dropped_and_came_again(rt: HostRuntime) -> Result<(), Fail> {
    let alloc = rt.alloc();
    let mut undo = OwnWrites::new(alloc);
    push_from(alloc, &mut undo, 0)?;
    for (number, want) in SEEN.iter().enumerate() {
        ensure_at(alloc, sees_without(alloc, &mut undo, number, want)?, number)?;
        push_from(alloc, &mut undo, number)?;
    }
    seen_as_told(alloc, &undo)
}

/// Adds a write of each of these records to one key: its number is in the row.
fn push_numbers(alloc: Global, undo: &mut OwnWrites, from: u32, to: u32) -> Result<(), Fail> {
    for number in from..to {
        let write = Write {
            table: 0,
            key: key(alloc, &[1])?,
            patch: Patch::Insert(row(alloc, &[1, number as i64, 0])?),
        };
        push_write(undo, number as usize, write)?;
    }
    Ok(())
}

/// Whether a record finds the row that another one wrote.
fn finds(alloc: Global, undo: &OwnWrites, number: u32, other: u32) -> Result<bool, NoMemory> {
    let want = row(alloc, &[1, other as i64, 0])?;
    match undo
        .undo()
        .row_behind(alloc, number as usize, 0, &key(alloc, &[1])?, None)?
    {
        Some(found) => Ok(are_same(found.as_slice(), want.as_slice())),
        None => Ok(false),
    }
}

/// Checks that each record finds what the one before it wrote, and that later ones find what the last one wrote.
fn find_the_last(alloc: Global, undo: &OwnWrites, records: u32) -> Result<(), Fail> {
    for other in 0..records {
        let is_found = finds(alloc, undo, other.saturating_add(1), other)?;
        ensure_at(alloc, is_found, other as usize)?;
    }
    let last = records.saturating_sub(1);
    ensure_at(alloc, finds(alloc, undo, 999, last)?, records as usize)
}

#[test]
fn each_record_finds_the_last_write_to_a_key(rt: HostRuntime) -> Result<(), Fail> {
    let alloc = rt.alloc();
    let mut undo = OwnWrites::new(alloc);
    push_numbers(alloc, &mut undo, 0, 100)?;
    find_the_last(alloc, &undo, 100)?;
    undo.drop_from(37);
    find_the_last(alloc, &undo, 37)?;
    push_numbers(alloc, &mut undo, 37, 80)?;
    find_the_last(alloc, &undo, 80)
}
