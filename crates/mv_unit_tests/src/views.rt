//! What a view in memory shows of one table of accounts: 0 with nothing, 1 to 4 with 100, the owners' names empty.

ghost use Rattle.std.specs.Prelude.{◌≡◌, ◌↔◌, All, IsTrue, IfOk};
ghost use Rattle.mv_values.specs.Preds.{matches, admits};
ghost use Rattle.mv_values.specs.Tables.{rows_at};
ghost use Rattle.mv_record.specs.Admitting.{Admitted};
ghost use Rattle.mv_view.specs.Viewing.{with_row_call};

use crate::cases::ensure_at;
use crate::values::{key, row};
use mv_cases::ensure::ensure;
use mv_record::applying::put_row;
use mv_store::store::Store;
use mv_store::view::StoreView;
use mv_table::found;
use mv_table::scan::Direction;
use mv_table::table::Stored;
use mv_values::list::List;
use mv_values::memory::NoMemory;
use mv_values::op::Op;
use mv_values::pred::{Pred, Test};
use mv_values::pred_ref::PredRef;
use mv_values::rows::{Database, Keyed, Rows};
use mv_values::txt::Txt;
use mv_values::value::{Key, Row, Value};
use mv_view::key_set::KeySet;
use mv_view::plain::Plain;
use mv_view::view::View;
use std::alloc::Global;
use std::test::Fail;

/// The numbers and the balances of the accounts.
const ACCOUNTS: &[(i64, i64)] = &[(0, 0), (1, 100), (2, 100), (3, 100), (4, 100)];

fn accounts(alloc: Global) -> Result<Rows, NoMemory> {
    let mut rows = Rows::new(alloc);
    for (id, balance) in ACCOUNTS {
        let key = key(alloc, &[*id])?;
        let mut account = row(alloc, &[*id, *balance])?;
        account.push(Value::Text(Txt::new(alloc)))?;
        put_row(alloc, &mut rows, &key, Some(account))?;
    }
    Ok(rows)
}

fn database(alloc: Global) -> Result<Database, NoMemory> {
    let mut tables = List::new(alloc);
    tables.push(accounts(alloc)?)?;
    Ok(tables)
}

/// Returns the predicate for rows that pass one test, of a key column or of another.
fn where_is(alloc: Global, column: u8, op: Op, value: i64) -> Result<Pred, NoMemory> {
    let key_place = if column == 0 { Some(0) } else { None };
    let value = Value::Int(value);
    let mut tests = List::new(alloc);
    tests.push(Test {
        column,
        key_place,
        op,
        value,
    })?;
    Ok(Pred {
        table: 0,
        tests,
        columns: List::new(alloc),
    })
}

fn admits_match(pred: &PredRef<'_>, item: &Keyed) -> bool
    ensures { IsTrue result ↔ (IsTrue (matches pred.now item.now.row) → IsTrue (admits pred.now item.now.key)) }
{
    !pred.matches(&item.row) || pred.admits(&item.key)
}

fn admits_matches(pred: &PredRef<'_>, rows: &[Keyed]) -> bool
    ensures { IsTrue result ↔ Admitted pred.now rows.now }
{
    rows.iter().all(|item| admits_match(pred, item))
}

/// Whether the predicate admits the keys of the rows that it matches.
pub(crate) fn has_admitted(pred: &PredRef<'_>, tables: &Database) -> bool
    ensures { IsTrue result → Admitted pred.now (rows_at tables.now pred.now.table) }
{
    match tables.as_slice().get(pred.table() as usize) {
        Some(rows) => admits_matches(pred, rows.as_slice()),
        None => true,
    }
}

/// Returns the number in a column.
pub(crate) fn number(row: &Row, column: usize) -> Option<i64> {
    match row.as_slice().get(column) {
        Some(Value::Int(number)) => Some(*number),
        _ => None,
    }
}

/// Returns how many rows there are, and the number of the last.
fn last(rows: &[found::Found<'_>]) -> (usize, Option<i64>) {
    match rows.last() {
        Some(item) => (rows.len(), number(item.row(), 0)),
        None => (0, None),
    }
}

/// A column, its comparison with a number, and how many rows are found, with the number of the last.
type Found = (u8, Op, i64, (usize, Option<i64>));

const FOUND: &[Found] = &[
    (0, Op::Eq, 0, (1, Some(0))),
    (0, Op::Eq, 3, (1, Some(3))),
    (0, Op::Eq, 9, (0, None)),
    (0, Op::Ne, 4, (4, Some(3))),
    (0, Op::Lt, 2, (2, Some(1))),
    (1, Op::Eq, 100, (4, Some(4))),
    (1, Op::Le, 99, (1, Some(0))),
];

fn finds(alloc: Global, tables: &Database, case: &Found) -> Result<bool, Fail> {
    let (column, op, value, want) = *case;
    let pred = where_is(alloc, column, op, value)?;
    let pred = PredRef::of(&pred);
    if !has_admitted(&pred, tables) {
        return Err("a row that the predicate doesn't admit".into());
    }
    let mut view = Plain::new(tables);
    match view.rows(alloc, &pred) {
        Ok(rows) => Ok(last(rows.as_slice()) == want),
        Err(_) => Err("no rows".into()),
    }
}

fn found_as_told(alloc: Global, tables: &Database) -> Result<(), Fail> {
    for (i, case) in FOUND.iter().enumerate() {
        ensure_at(alloc, finds(alloc, tables, case)?, i)?;
    }
    Ok(())
}

#[test]
fn rows_are_found_by_their_tests(rt: HostRuntime) -> Result<(), Fail> {
    let tables = database(rt.alloc())?;
    found_as_told(rt.alloc(), &tables)
}

/// The keys that a predicate admits.
#[derive(Drop)]
pub(crate) struct AdmittedKeys<'a> {
    pub(crate) pred: &'a PredRef<'a>,
}

impl<'a> KeySet for AdmittedKeys<'a> {
    ghost has = { λ k key. admits k.pred.now key };

    fn contains(&self, key: &Key) -> bool {
        self.pred.admits(key)
    }
}

/// A column, its comparison with a number, a comparison of the keys that are passed over, and the numbers of the first
/// and of the last row that is found.
type Ends = (u8, Op, i64, (Op, i64), Option<i64>, Option<i64>);

const NO_KEY: (Op, i64) = (Op::Lt, 0);

const ENDS: &[Ends] = &[
    (0, Op::Eq, 3, NO_KEY, Some(3), Some(3)),
    (0, Op::Eq, 9, NO_KEY, None, None),
    (0, Op::Lt, 2, NO_KEY, Some(0), Some(1)),
    (1, Op::Eq, 100, NO_KEY, Some(1), Some(4)),
    (1, Op::Le, 99, NO_KEY, Some(0), Some(0)),
    (0, Op::Eq, 3, (Op::Eq, 3), None, None),
    (0, Op::Lt, 2, (Op::Eq, 0), Some(1), Some(1)),
    (0, Op::Lt, 2, (Op::Ge, 0), None, None),
    (1, Op::Eq, 100, (Op::Ge, 3), Some(1), Some(2)),
    (1, Op::Eq, 100, (Op::Lt, 3), Some(3), Some(4)),
    (1, Op::Eq, 100, (Op::Ne, 2), Some(2), Some(2)),
];

/// Returns the number of the first row in this direction outside the keys that are passed over.
fn end<'s, V: View<'s>>(
    alloc: Global,
    pred: &PredRef<'_>,
    direction: Direction,
    passed: &PredRef<'_>,
    view: &mut V,
) -> Result<Option<i64>, Fail>
    requires { Admitted pred.now (rows_at (V.sight view.old).database pred.now.table) }
{
    match view.foremost(alloc, pred, direction, &AdmittedKeys { pred: passed }) {
        Ok(Some(item)) => Ok(number(item.row(), 0)),
        Ok(None) => Ok(None),
        Err(_) => Err("no answer".into()),
    }
}

/// Returns the ends that a view in memory finds, and those that a view of a store finds.
fn ends_found(
    alloc: Global,
    tables: &Database,
    pred: &PredRef<'_>,
    direction: Direction,
    passed: &PredRef<'_>,
) -> Result<(Option<i64>, Option<i64>), Fail>
    requires { Admitted pred.now (rows_at tables.now pred.now.table) }
{
    let store = Store::new(alloc, tables, &List::new(alloc))?;
    let in_memory = end(alloc, pred, direction, passed, &mut Plain::new(tables))?;
    let in_store = end(
        alloc,
        pred,
        direction,
        passed,
        &mut StoreView::new(&store, 0),
    )?;
    Ok((in_memory, in_store))
}

fn has_ends(alloc: Global, tables: &Database, case: &Ends) -> Result<bool, Fail> {
    let (column, op, value, (key_op, key), first, last) = *case;
    let pred = where_is(alloc, column, op, value)?;
    let pred = PredRef::of(&pred);
    let passed = where_is(alloc, 0, key_op, key)?;
    let passed = PredRef::of(&passed);
    if !has_admitted(&pred, tables) {
        return Err("a row that the predicate doesn't admit".into());
    }
    let forward = ends_found(alloc, tables, &pred, Direction::Forward, &passed)?;
    let backward = ends_found(alloc, tables, &pred, Direction::Backward, &passed)?;
    Ok(forward == (first, first) && backward == (last, last))
}

fn ends_as_told(alloc: Global, tables: &Database) -> Result<(), Fail> {
    for (i, case) in ENDS.iter().enumerate() {
        ensure_at(alloc, has_ends(alloc, tables, case)?, i)?;
    }
    Ok(())
}

#[test]
fn the_first_and_the_last_row_are_found(rt: HostRuntime) -> Result<(), Fail> {
    let tables = database(rt.alloc())?;
    ends_as_told(rt.alloc(), &tables)
}

/// A key, a column, its comparison with a number, and the number of the row under the key, if it passes.
type Matched = (i64, u8, Op, i64, Option<i64>);

const MATCHED: &[Matched] = &[
    (3, 0, Op::Eq, 3, Some(3)),
    (9, 0, Op::Eq, 9, None),
    (2, 1, Op::Eq, 100, Some(2)),
    (0, 1, Op::Eq, 100, None),
    (3, 0, Op::Eq, 0, None),
];

/// Returns the number of the row under the key, if it passes.
fn match_of<'s, V: View<'s>>(
    alloc: Global,
    pred: &PredRef<'_>,
    key: &Key,
    view: &mut V,
) -> Result<Option<i64>, Fail> {
    match view.match_under(alloc, pred, key) {
        Ok(Some(row)) => Ok(number(row.get(), 0)),
        Ok(None) => Ok(None),
        Err(_) => Err("no answer".into()),
    }
}

fn has_match(alloc: Global, tables: &Database, case: &Matched) -> Result<bool, Fail> {
    let (id, column, op, value, want) = *case;
    let pred = where_is(alloc, column, op, value)?;
    let pred = PredRef::of(&pred);
    let key = key(alloc, &[id])?;
    let store = Store::new(alloc, tables, &List::new(alloc))?;
    let in_memory = match_of(alloc, &pred, &key, &mut Plain::new(tables))?;
    let in_store = match_of(alloc, &pred, &key, &mut StoreView::new(&store, 0))?;
    Ok((in_memory, in_store) == (want, want))
}

fn matched_as_told(alloc: Global, tables: &Database) -> Result<(), Fail> {
    for (i, case) in MATCHED.iter().enumerate() {
        ensure_at(alloc, has_match(alloc, tables, case)?, i)?;
    }
    Ok(())
}

#[test]
fn a_row_is_found_under_its_key_if_it_matches(rt: HostRuntime) -> Result<(), Fail> {
    let tables = database(rt.alloc())?;
    matched_as_told(rt.alloc(), &tables)
}

/// Checks that the row under this key has this number in its second column, or that there is no row.
fn shows(alloc: Global, view: &mut Plain, table: u8, id: i64, want: Option<i64>) -> Result<(), Fail>
    ensures counted { IfOk result (λ shown. view.new ≡ with_row_call view.old) }
{
    let key = key(alloc, &[id])?;
    match view.row(alloc, table, &key) {
        Ok(Some(row)) => ensure(alloc, number(row.get(), 1) == want, "another row"),
        Ok(None) => ensure(alloc, want == None, "no row"),
        Err(_) => Err("no answer".into()),
    }
}

/// Looks up four rows. That the view counts four calls can only be proved: only contracts see its counts.
fn shows_rows(alloc: Global, view: &mut Plain) -> Result<(), Fail>
    ensures counted { IfOk result (λ shown. view.new ≡ with_row_call (with_row_call (with_row_call (with_row_call view.old)))) }
{
    shows(alloc, view, 0, 1, Some(100))?;
    shows(alloc, view, 0, 0, Some(0))?;
    shows(alloc, view, 0, 7, None)?;
    shows(alloc, view, 1, 1, None)
}

#[test]
fn a_row_is_found_by_its_key_and_calls_are_counted(rt: HostRuntime) -> Result<(), Fail> {
    let tables = database(rt.alloc())?;
    let mut view = Plain::new(&tables);
    shows_rows(rt.alloc(), &mut view)
}
