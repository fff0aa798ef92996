//! Indexes of columns, and what views find through them, against scans of all rows.

ghost use Rattle.std.specs.Prelude.{◌≡◌, IfOk, length, refl};
ghost use Rattle.mv_values.specs.Tables.{rows_at};
ghost use Rattle.mv_record.specs.Admitting.{Admitted};
ghost use Rattle.mv_record.specs.Writes.{AreRising};
ghost use Rattle.mv_index.specs.Indexing.{Covers, Keeps};

use crate::cases::ensure_at;
use crate::own_writes::{are_equal, is_same};
use crate::values::{key, row};
use crate::views::{AdmittedKeys, has_admitted, number};
use mv_index::cover::cover;
use mv_index::index::Index;
use mv_index::indexable::{Indexable, Sighted};
use mv_index::view::IndexView;
use mv_record::applying::put_row;
use mv_table::found::Found;
use mv_table::found_rows::FoundRows;
use mv_table::scan::Direction;
use mv_values::copied::Copied;
use mv_values::lent::Lent;
use mv_values::list::List;
use mv_values::memory::NoMemory;
use mv_values::op::Op;
use mv_values::pred::{Pred, Test};
use mv_values::pred_ref::PredRef;
use mv_values::rows::{Database, Rows};
use mv_values::tested::Tested;
use mv_values::value::{Key, Row, Value};
use mv_view::key_set::KeySet;
use mv_view::plain::Plain;
use mv_view::view::{Refused, View};
use rand_core::{Rng, SeedableRng};
use rand_xoshiro::SplitMix64;
use std::alloc::Global;
use std::test::Fail;

/// Returns these columns of the one table.
fn columns(alloc: Global, numbers: &[u8]) -> Result<List<Tested>, NoMemory> {
    let mut columns = List::new(alloc);
    for column in numbers {
        columns.push(Tested {
            table: 0,
            column: *column,
        })?;
    }
    Ok(columns)
}

/// Returns a predicate of tests, each with its column. The first columns are those of the key.
fn pred(alloc: Global, key_columns: u8, given: &[(u8, Op, i64)]) -> Result<Pred, NoMemory> {
    let mut tests = List::new(alloc);
    for (column, op, number) in given {
        let key_place = if *column < key_columns {
            Some(*column)
        } else {
            None
        };
        tests.push(Test {
            column: *column,
            key_place,
            op: *op,
            value: Value::Int(*number),
        })?;
    }
    Ok(Pred {
        table: 0,
        tests,
        columns: List::new(alloc),
    })
}

/// Returns a database of one table.
fn database(alloc: Global, rows: Rows) -> Result<Database, NoMemory>
    ensures size { IfOk result (λ db. 1 ≡ length db) }
    ensures rising { IfOk result AreRising }
{
    let _count = rows.as_slice().len();
    let mut tables = List::new(alloc);
    tables.push(rows)?;
    Ok(tables)
}

// How often a view is asked

/// A view in memory that tells how often it was asked.
#[derive(Drop)]
struct Counted<'a> {
    plain: Plain<'a>,
    rows_calls: u32,
    row_calls: u32,
}

impl<'a> View<'a> for Counted<'a> {
    ghost sight = { λ c. c.plain };

    fn rows(&mut self, alloc: Global, pred: &PredRef<'_>) -> Result<FoundRows<'a>, Refused> {
        self.rows_calls = self.rows_calls.saturating_add(1);
        self.plain.rows(alloc, pred)
    }

    fn foremost<K: KeySet>(
        &mut self,
        alloc: Global,
        pred: &PredRef<'_>,
        direction: Direction,
        passed: &K,
    ) -> Result<Option<Found<'a>>, Refused> {
        self.rows_calls = self.rows_calls.saturating_add(1);
        self.plain.foremost(alloc, pred, direction, passed)
    }

    fn match_under(
        &mut self,
        alloc: Global,
        pred: &PredRef<'_>,
        key: &Key,
    ) -> Result<Option<Lent<'a>>, Refused> {
        self.rows_calls = self.rows_calls.saturating_add(1);
        self.plain.match_under(alloc, pred, key)
    }

    fn row(&mut self, alloc: Global, table: u8, key: &Key) -> Result<Option<Lent<'a>>, Refused> {
        self.row_calls = self.row_calls.saturating_add(1);
        self.plain.row(alloc, table, key)
    }
}

impl<'a> Sighted for Counted<'a> {
    ghost seen = { λ c. c.plain };
}

impl<'a> Indexable<'a> for Counted<'a> {
    ghost alike = { λ c. refl };
}

/// The numbers, the balances and the branches of the accounts.
const ACCOUNTS: &[[i64; 3]] = &[
    [0, 0, 1],
    [1, 100, 1],
    [2, 100, 2],
    [3, 100, 2],
    [4, 100, 2],
];

fn accounts(alloc: Global, numbers: &[[i64; 3]]) -> Result<Rows, NoMemory> {
    let mut rows = Rows::new(alloc);
    for account in numbers {
        let key = key(alloc, &[account[0]])?;
        put_row(alloc, &mut rows, &key, Some(row(alloc, account)?))?;
    }
    Ok(rows)
}

/// Tests of an account, how many rows are found, and how often the inner view is asked for rows and for a row.
type Asked = (&'static [(u8, Op, i64)], usize, (u32, u32));

/// Accounts with indexes of the balance and of the branch.
const ASKED: &[Asked] = &[
    (&[(1, Op::Eq, 100)], 4, (0, 4)),
    (&[(1, Op::Eq, 7)], 0, (0, 0)),
    (&[(1, Op::Eq, 100), (0, Op::Eq, 2)], 1, (0, 1)),
    (&[(1, Op::Eq, 0), (0, Op::Eq, 2)], 0, (0, 1)),
    (&[(0, Op::Eq, 2)], 1, (0, 1)),
    (&[(0, Op::Eq, 9)], 0, (0, 1)),
    (&[(1, Op::Eq, 100), (1, Op::Eq, 7)], 0, (0, 0)),
    (&[(1, Op::Eq, 100), (1, Op::Eq, 0)], 0, (0, 1)),
    (&[(1, Op::Eq, 100), (2, Op::Eq, 1)], 1, (0, 2)),
    (&[(2, Op::Eq, 1), (1, Op::Eq, 100)], 1, (0, 2)),
    (&[(1, Op::Eq, 100), (0, Op::Ge, 3)], 2, (0, 2)),
    (&[(1, Op::Ge, 100)], 4, (1, 0)),
    (&[], 5, (1, 0)),
];

/// Returns the rows that a view finds through an index.
fn counted_rows<'a>(
    alloc: Global,
    index: &'a Index,
    inner: &mut Counted<'a>,
    pred: &PredRef<'_>,
) -> Result<FoundRows<'a>, Refused>
    requires covers { Covers index.now inner.old.plain.database }
    requires rising { AreRising inner.old.plain.database }
    requires admitted { Admitted pred.now (rows_at inner.old.plain.database pred.now.table) }
{
    let mut view = IndexView::new(index, inner);
    view.rows(alloc, pred)
}

fn asks(alloc: Global, index: &Index, tables: &Database, case: &Asked) -> Result<bool, Fail>
    requires covers { Covers index.now tables.now }
    requires rising { AreRising tables.now }
{
    let (tests, found, counts) = *case;
    let pred = pred(alloc, 1, tests)?;
    let pred = PredRef::of(&pred);
    if !has_admitted(&pred, tables) {
        return Err("a row that the predicate doesn't admit".into());
    }
    let mut inner = Counted {
        plain: Plain::new(tables),
        rows_calls: 0,
        row_calls: 0,
    };
    let Ok(rows) = counted_rows(alloc, index, &mut inner, &pred) else {
        return Err("no rows".into());
    };
    Ok(rows.as_slice().len() == found && (inner.rows_calls, inner.row_calls) == counts)
}

fn asks_as_told(
    alloc: Global,
    index: &Index,
    tables: &Database,
    cases: &[Asked],
) -> Result<(), Fail>
    requires covers { Covers index.now tables.now }
    requires rising { AreRising tables.now }
{
    for (i, case) in cases.iter().enumerate() {
        ensure_at(alloc, asks(alloc, index, tables, case)?, i)?;
    }
    Ok(())
}

#[test]
fn a_view_asks_for_the_rows_that_an_index_tells(rt: HostRuntime) -> Result<(), Fail> {
    let alloc = rt.alloc();
    let tables = database(alloc, accounts(alloc, ACCOUNTS)?)?;
    let index = cover(alloc, &columns(alloc, &[1, 2])?, &tables)?;
    asks_as_told(alloc, &index, &tables, ASKED)
}

/// The same where no account has ever been.
const NONE_ASKED: &[Asked] = &[
    (&[(0, Op::Eq, 2)], 0, (0, 0)),
    (&[(1, Op::Ge, 2)], 0, (0, 0)),
    (&[], 0, (0, 0)),
];

#[test]
fn a_view_asks_nothing_of_a_table_without_rows(rt: HostRuntime) -> Result<(), Fail> {
    let alloc = rt.alloc();
    let tables = database(alloc, Rows::new(alloc))?;
    let index = cover(alloc, &columns(alloc, &[1])?, &tables)?;
    asks_as_told(alloc, &index, &tables, NONE_ASKED)
}

// Random rows

/// The keys of the rows, in order. A row has two columns after them.
const KEYS: &[[i64; 2]] = &[
    [0, 0],
    [0, 1],
    [0, 2],
    [0, 3],
    [1, 0],
    [1, 1],
    [1, 2],
    [1, 3],
];

/// A column has numbers below this.
const VALUES: i64 = 3;

fn byte(random: &mut SplitMix64) -> u8 {
    (random.next_u64() % 256) as u8
}

/// Returns a key and a row that it may have next.
fn any_row(alloc: Global, random: &mut SplitMix64) -> Result<(Key, Row), NoMemory> {
    let (group, item) = ((byte(random) % 2) as i64, (byte(random) % 4) as i64);
    let (first, second) = ((byte(random) % 3) as i64, (byte(random) % 3) as i64);
    let key = key(alloc, &[group, item])?;
    let row = row(alloc, &[group, item, first, second])?;
    Ok((key, row))
}

// What an index has

/// An index of the two columns, and the rows of the table after each commit that is kept.
#[derive(Drop)]
struct History {
    index: Index,
    kept: Vec<Rows>,
}

/// Returns a copy of the newest rows.
fn newest(alloc: Global, history: &History) -> Result<Rows, NoMemory> {
    match history.kept.last() {
        Some(rows) => rows.copy(alloc),
        None => Ok(Rows::new(alloc)),
    }
}

/// Commits a new row, or none, under a key.
fn commit(alloc: Global, history: &mut History, random: &mut SplitMix64) -> Result<(), NoMemory> {
    let (key, row) = any_row(alloc, random)?;
    let mut rows = newest(alloc, history)?;
    if byte(random) % 4 == 0 {
        put_row(alloc, &mut rows, &key, None)?;
    } else {
        history.index.add(alloc, 0, &key, &row)?;
        put_row(alloc, &mut rows, &key, Some(row))?;
    }
    history.kept.push(rows)?;
    Ok(())
}

/// Whether the row under a key has this number in a column.
fn has_number(rows: &Rows, key: &Key, column: u8, value: i64) -> bool {
    rows.as_slice().iter().any(|item| item.key == *key
        && number(&item.row, column as usize) == Some(value))
}

/// Whether the row under a key has had this number in a column after a commit that is kept.
fn has_had(kept: &[Rows], key: &Key, column: u8, value: i64) -> bool {
    kept.iter().any(|rows| has_number(rows, key, column, value))
}

/// Takes out the entries of a value that no row has that is kept.
fn forget(alloc: Global, history: &mut History, column: u8, value: i64) -> Result<(), NoMemory> {
    for numbers in KEYS {
        let key = key(alloc, numbers)?;
        if !has_had(&history.kept, &key, column, value) {
            history.index.forget(0, column, &Value::Int(value), &key);
        }
    }
    Ok(())
}

/// Returns copies of the rows after all commits but the first.
fn kept_from(alloc: Global, kept: &[Rows], from: usize) -> Result<Vec<Rows>, NoMemory> {
    let mut later = Vec::new(alloc);
    for rows in kept.iter().skip(from) {
        later.push(rows.copy(alloc)?)?;
    }
    Ok(later)
}

/// Drops the rows after the first commits, but keeps the newest ones.
fn collect(alloc: Global, history: &mut History, random: &mut SplitMix64) -> Result<(), NoMemory> {
    let count = (byte(random) % 6) as usize;
    let from = count.min(history.kept.len().saturating_sub(1));
    history.kept = kept_from(alloc, &history.kept, from)?;
    for column in 2..4u8 {
        for value in 0..VALUES {
            forget(alloc, history, column, value)?;
        }
    }
    Ok(())
}

/// Whether the index has the keys of the rows that have had this number in a column, and no others.
fn has_keys(alloc: Global, history: &History, column: u8, value: i64) -> Result<bool, NoMemory> {
    let keys = history.index.keys(0, column, &Value::Int(value));
    let mut count: usize = 0;
    for numbers in KEYS {
        let key = key(alloc, numbers)?;
        let had = has_had(&history.kept, &key, column, value);
        if keys.contains(&key) != had {
            return Ok(false);
        }
        if had {
            count = count.saturating_add(1);
        }
    }
    Ok(keys.len() == count)
}

fn has_all_keys(alloc: Global, history: &History) -> Result<bool, NoMemory> {
    for column in 2..4u8 {
        for value in 0..VALUES {
            if !has_keys(alloc, history, column, value)? {
                return Ok(false);
            }
        }
    }
    Ok(true)
}

/// Whether the index has the values of all rows that are kept after each commit and each collection.
fn keeps_values(alloc: Global, seed: u64) -> Result<bool, NoMemory> {
    let mut random = SplitMix64::seed_from_u64(seed);
    let mut history = History {
        index: Index::new(alloc, &columns(alloc, &[2, 3])?)?,
        kept: Vec::new(alloc),
    };
    for _ in 0..30u32 {
        if byte(&mut random) % 8 == 0 {
            collect(alloc, &mut history, &mut random)?;
        } else {
            commit(alloc, &mut history, &mut random)?;
        }
        if !has_all_keys(alloc, &history)? {
            return Ok(false);
        }
    }
    Ok(true)
}

#[test]
fn an_index_has_the_values_of_all_rows_that_are_kept(rt: HostRuntime) -> Result<(), Fail> {
    for seed in 0..20 {
        ensure_at(rt.alloc(), keeps_values(rt.alloc(), seed)?, seed as usize)?;
    }
    Ok(())
}

// What a view finds

/// Tests of the two key columns and of the two others.
const TESTS: &[&[(u8, Op, i64)]] = &[
    &[],
    &[(2, Op::Eq, 1)],
    &[(2, Op::Eq, 1), (3, Op::Eq, 2)],
    &[(3, Op::Eq, 0), (3, Op::Eq, 1)],
    &[(0, Op::Eq, 1)],
    &[(3, Op::Eq, 1), (0, Op::Eq, 1)],
    &[(2, Op::Eq, 2), (0, Op::Eq, 0), (1, Op::Gt, 0)],
    &[(0, Op::Eq, 1), (1, Op::Eq, 2)],
    &[(0, Op::Eq, 1), (1, Op::Eq, 3), (2, Op::Eq, 0)],
    &[(2, Op::Ne, 0), (3, Op::Le, 1)],
    &[(2, Op::Eq, 9)],
];

/// Returns the rows of a few keys.
fn some_rows(alloc: Global, random: &mut SplitMix64) -> Result<Rows, NoMemory> {
    let mut rows = Rows::new(alloc);
    for _ in 0..byte(random) % 12 {
        let (key, row) = any_row(alloc, random)?;
        put_row(alloc, &mut rows, &key, Some(row))?;
    }
    Ok(rows)
}

/// Adds entries of rows that the table doesn't have.
fn add_others(alloc: Global, index: &mut Index, random: &mut SplitMix64) -> Result<(), NoMemory>
    ensures { Keeps index.old index.new }
{
    for _ in 0..4u32 {
        let (key, row) = any_row(alloc, random)?;
        index.add(alloc, 0, &key, &row)?;
    }
    Ok(())
}

/// Whether a view finds the same rows with an index as without one.
fn finds_rows<'x>(alloc: Global, index: &'x Index, tables: &'x Database, pred: &PredRef<'_>) -> bool
    requires covers { Covers index.now tables.now }
    requires rising { AreRising tables.now }
    requires admitted { Admitted pred.now (rows_at tables.now pred.now.table) }
{
    let mut inner = Plain::new(tables);
    let mut view = IndexView::new(index, &mut inner);
    let mut plain = Plain::new(tables);
    match (view.rows(alloc, pred), plain.rows(alloc, pred)) {
        (Ok(rows), Ok(others)) => are_equal(rows.as_slice(), others.as_slice()),
        _ => false,
    }
}

fn is_same_end(found: &Option<Found<'_>>, want: &Option<Found<'_>>) -> bool {
    match (found, want) {
        (Some(item), Some(other)) => is_same(item, other),
        (None, None) => true,
        _ => false,
    }
}

/// Whether a view finds the same row from this end with an index as without one, outside some keys.
fn finds_end<'x>(
    alloc: Global,
    index: &'x Index,
    tables: &'x Database,
    pred: &PredRef<'_>,
    direction: Direction,
    passed: &PredRef<'_>,
) -> bool
    requires covers { Covers index.now tables.now }
    requires rising { AreRising tables.now }
    requires admitted { Admitted pred.now (rows_at tables.now pred.now.table) }
{
    let mut inner = Plain::new(tables);
    let mut view = IndexView::new(index, &mut inner);
    let mut plain = Plain::new(tables);
    let passed = AdmittedKeys { pred: passed };
    let found = view.foremost(alloc, pred, direction, &passed);
    let want = plain.foremost(alloc, pred, direction, &passed);
    match (found, want) {
        (Ok(item), Ok(other)) => is_same_end(&item, &other),
        _ => false,
    }
}

fn finds_all(alloc: Global, index: &Index, tables: &Database) -> Result<bool, Fail>
    requires covers { Covers index.now tables.now }
    requires rising { AreRising tables.now }
{
    let passed = pred(alloc, 2, &[(1, Op::Ge, 2)])?;
    let passed = PredRef::of(&passed);
    for tests in TESTS {
        let pred = pred(alloc, 2, tests)?;
        let pred = PredRef::of(&pred);
        if !has_admitted(&pred, tables) {
            return Err("a row that the predicate doesn't admit".into());
        }
        let is_right = finds_rows(alloc, index, tables, &pred)
            && finds_end(alloc, index, tables, &pred, Direction::Forward, &passed)
            && finds_end(alloc, index, tables, &pred, Direction::Backward, &passed);
        if !is_right {
            return Ok(false);
        }
    }
    Ok(true)
}

/// Whether a view finds the same with an index that covers its database, and has more entries.
fn finds_right(alloc: Global, seed: u64) -> Result<bool, Fail> {
    let mut random = SplitMix64::seed_from_u64(seed);
    let tables = database(alloc, some_rows(alloc, &mut random)?)?;
    let mut index = cover(alloc, &columns(alloc, &[2, 3])?, &tables)?;
    add_others(alloc, &mut index, &mut random)?;
    finds_all(alloc, &index, &tables)
}

#[test]
fn views_find_the_same_with_an_index_and_without(rt: HostRuntime) -> Result<(), Fail> {
    for seed in 0..100 {
        ensure_at(rt.alloc(), finds_right(rt.alloc(), seed)?, seed as usize)?;
    }
    Ok(())
}
