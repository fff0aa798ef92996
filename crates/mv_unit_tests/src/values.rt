//! Rows, values, predicates and writes.

ghost use Rattle.std.specs.Prelude.{◌↔◌, IsTrue, All};
ghost use Rattle.mv_values.specs.Printable.{IsPrintable};

use crate::cases::ensure_at;
use mv_cases::ensure::ensure;
use mv_values::copied::Copied;
use mv_values::list::List;
use mv_values::memory::NoMemory;
use mv_values::op::Op;
use mv_values::patch::{Assign, Patch, Write};
use mv_values::pred::{Pred, Test};
use mv_values::rows::{Keyed, Rows};
use mv_values::txt::Txt;
use mv_values::value::{Key, Row, Value};
use std::alloc::Global;
use std::cmp::Ordering;
use std::test::Fail;

/// Returns a row of numbers.
pub(crate) fn row(alloc: Global, numbers: &[i64]) -> Result<Row, NoMemory> {
    let mut row = List::new(alloc);
    for n in numbers {
        row.push(Value::Int(*n))?;
    }
    Ok(row)
}

/// Returns a key of numbers.
pub(crate) fn key(alloc: Global, numbers: &[i64]) -> Result<Key, NoMemory> {
    let mut key = Key::new();
    for n in numbers {
        key.push(alloc, Value::Int(*n))?;
    }
    Ok(key)
}

fn is_printable(byte: u8) -> bool
    ensures { IsTrue result ↔ IsPrintable byte }
{
    32 <= byte && byte <= 126
}

fn are_printable(bytes: &[u8]) -> bool
    ensures { IsTrue result ↔ All IsPrintable bytes.now }
{
    bytes.iter().all(|byte| is_printable(*byte))
}

/// Returns the text of these bytes if they are printable, and else the empty text.
fn txt(alloc: Global, text: &str) -> Result<Txt, NoMemory> {
    let bytes = text.as_bytes();
    if are_printable(bytes) {
        Txt::of(alloc, bytes)
    } else {
        Ok(Txt::new(alloc))
    }
}

/// Returns rows with one row, under this key.
fn only(alloc: Global, n: i64) -> Result<Rows, NoMemory> {
    let key = key(alloc, &[n])?;
    let row = row(alloc, &[n])?;
    let mut rows = Rows::new(alloc);
    rows.push(Keyed { key, row })?;
    Ok(rows)
}

fn place_of(alloc: Global, rows: &Rows, n: i64) -> Result<Result<usize, usize>, NoMemory> {
    let key = key(alloc, &[n])?;
    Ok(rows.place_of(&key))
}

/// A key, and its place, or its gap, if the only key is 7.
const PLACES: &[(i64, Result<usize, usize>)] = &[(6, Err(0)), (7, Ok(0)), (8, Err(1))];

fn found_as_told(alloc: Global, rows: &Rows) -> Result<(), Fail> {
    for (i, (n, want)) in PLACES.iter().enumerate() {
        ensure_at(alloc, place_of(alloc, rows, *n)? == *want, i)?;
    }
    Ok(())
}

#[test]
fn rows_are_found_by_key(rt: HostRuntime) -> Result<(), Fail> {
    let rows = only(rt.alloc(), 7)?;
    found_as_told(rt.alloc(), &rows)
}

#[test]
fn rows_are_copied(rt: HostRuntime) -> Result<(), Fail> {
    let copy = only(rt.alloc(), 7)?.copy(rt.alloc())?;
    ensure(
        rt.alloc(),
        copy.as_slice().len() == 1,
        "another number of rows",
    )
}

/// A value of a case.
pub(crate) enum Given {
    Number(i64),
    Text(&'static str),
}

pub(crate) fn value(alloc: Global, given: &Given) -> Result<Value, NoMemory> {
    match given {
        Given::Number(n) => Ok(Value::Int(*n)),
        Given::Text(text) => Ok(Value::Text(txt(alloc, text)?)),
    }
}

fn order(alloc: Global, left: &Given, right: &Given) -> Result<Ordering, NoMemory> {
    let left = value(alloc, left)?;
    let right = value(alloc, right)?;
    Ok(left.order(&right))
}

const ORDERS: &[(Given, Given, Ordering)] = &[
    (Given::Number(-1), Given::Number(1), Ordering::Less),
    (Given::Number(9), Given::Text("a"), Ordering::Less),
    (Given::Text("a"), Given::Text("ab"), Ordering::Less),
    (Given::Text("ab"), Given::Text("ab"), Ordering::Equal),
];

#[test]
fn values_stand_in_order(rt: HostRuntime) -> Result<(), Fail> {
    let alloc = rt.alloc();
    for (i, (left, right, want)) in ORDERS.iter().enumerate() {
        ensure_at(alloc, order(alloc, left, right)? == *want, i)?;
    }
    Ok(())
}

#[test]
fn a_shorter_key_stands_first(rt: HostRuntime) -> Result<(), Fail> {
    let key = key(rt.alloc(), &[1])?;
    let order = Key::new().order(&key);
    ensure(rt.alloc(), order == Ordering::Less, "an empty key")
}

/// Returns a predicate for the rows whose first column, the key, is 7 and whose second is at least 10. It selects the
/// third.
fn rich(alloc: Global) -> Result<Pred, NoMemory> {
    let mut tests = List::new(alloc);
    tests.push(Test {
        column: 0,
        key_place: Some(0),
        op: Op::Eq,
        value: Value::Int(7),
    })?;
    tests.push(Test {
        column: 1,
        key_place: None,
        op: Op::Ge,
        value: Value::Int(10),
    })?;
    let mut columns = List::new(alloc);
    columns.push(2)?;
    Ok(Pred {
        table: 0,
        tests,
        columns,
    })
}

/// A row, and whether the predicate matches it and admits its first column as a key.
type Matched = ([i64; 4], bool, bool);

const MATCHED: &[Matched] = &[
    ([7, 10, 1, 1], true, true),
    ([7, 9, 1, 1], false, true),
    ([8, 10, 1, 1], false, false),
];

fn matches(alloc: Global, pred: &Pred, case: &Matched) -> Result<bool, NoMemory> {
    let (numbers, matches, admits) = *case;
    let key = key(alloc, &[numbers[0]])?;
    let row = row(alloc, &numbers)?;
    Ok(pred.matches(&row) == matches && pred.admits(&key) == admits)
}

fn matched_as_told(alloc: Global, pred: &Pred) -> Result<(), Fail> {
    for (i, case) in MATCHED.iter().enumerate() {
        ensure_at(alloc, matches(alloc, pred, case)?, i)?;
    }
    Ok(())
}

/// A row before and after a change, where there is one, and whether the predicate sees the same.
type Seen = (Option<[i64; 4]>, Option<[i64; 4]>, bool);

const SEEN: &[Seen] = &[
    (Some([7, 10, 1, 1]), Some([7, 10, 1, 2]), true),
    (Some([7, 10, 1, 1]), Some([7, 11, 1, 1]), true),
    (Some([7, 10, 1, 1]), Some([7, 10, 2, 1]), false),
    (Some([7, 10, 1, 1]), Some([7, 9, 1, 1]), false),
    (Some([7, 9, 1, 1]), None, true),
    (None, None, true),
    (None, Some([7, 10, 1, 1]), false),
];

fn maybe_row(alloc: Global, numbers: Option<[i64; 4]>) -> Result<Option<Row>, NoMemory> {
    match numbers {
        None => Ok(None),
        Some(numbers) => Ok(Some(row(alloc, &numbers)?)),
    }
}

fn sees(alloc: Global, pred: &Pred, case: &Seen) -> Result<bool, NoMemory> {
    let (before, after, want) = *case;
    let before = maybe_row(alloc, before)?;
    let after = maybe_row(alloc, after)?;
    Ok(pred.same(before.as_ref(), after.as_ref()) == want)
}

fn seen_as_told(alloc: Global, pred: &Pred) -> Result<(), Fail> {
    for (i, case) in SEEN.iter().enumerate() {
        ensure_at(alloc, sees(alloc, pred, case)?, i)?;
    }
    Ok(())
}

const NAMED: &[(u8, bool)] = &[(0, true), (1, true), (2, true), (3, false)];

fn named_as_told(alloc: Global, pred: &Pred) -> Result<(), Fail> {
    for (i, (column, want)) in NAMED.iter().enumerate() {
        ensure_at(alloc, pred.names(*column) == *want, i)?;
    }
    Ok(())
}

fn sees_as_told(alloc: Global, pred: &Pred) -> Result<(), Fail> {
    matched_as_told(alloc, pred)?;
    seen_as_told(alloc, pred)?;
    named_as_told(alloc, pred)
}

fn copy_of_rich(alloc: Global) -> Result<Pred, NoMemory> {
    let pred = rich(alloc)?;
    pred.copy(alloc)
}

#[test]
fn a_predicate_sees_what_it_tests_and_selects(rt: HostRuntime) -> Result<(), Fail> {
    let pred = copy_of_rich(rt.alloc())?;
    sees_as_told(rt.alloc(), &pred)
}

/// Returns a write of column 3 of a row of table 2.
fn write(alloc: Global) -> Result<Write, NoMemory> {
    let key = key(alloc, &[7])?;
    let mut items = List::new(alloc);
    items.push(Assign {
        column: 3,
        value: Value::Int(4),
    })?;
    Ok(Write {
        table: 2,
        key,
        patch: Patch::Set(items),
    })
}

/// Returns the table and the column of a write that sets one column.
fn set_by(write: &Write) -> Option<(u8, u8)> {
    match &write.patch {
        Patch::Set(items) => match items.as_slice() {
            [item] => Some((write.table, item.column)),
            _ => None,
        },
        _ => None,
    }
}

fn copy_of_write(alloc: Global) -> Result<Write, NoMemory> {
    let write = write(alloc)?;
    write.copy(alloc)
}

#[test]
fn writes_are_copied(rt: HostRuntime) -> Result<(), Fail> {
    let copy = copy_of_write(rt.alloc())?;
    ensure(rt.alloc(), set_by(&copy) == Some((2, 3)), "another write")
}
