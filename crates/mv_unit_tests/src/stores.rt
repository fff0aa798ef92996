//! Random histories of a store of two tables, against the plain tables after each commit.

ghost use Rattle.std.specs.Prelude.{◌≡◌, ◌↔◌, ◌<◌, ◌≤◌, ℕ, [], All, IsTrue, IfOk, OnOk, OnErr};
ghost use Rattle.mv_values.specs.Patching.{row_of, applied};
ghost use Rattle.mv_values.specs.Preds.{matches, admits};
ghost use Rattle.mv_values.specs.Tables.{rows_at};
ghost use Rattle.mv_record.specs.Admitting.{Admitted};
ghost use Rattle.mv_store.specs.Changes.{KeepsReads};
ghost use Rattle.mv_store.specs.Stored.{database_at, newest, own_writes};

use crate::cases::ensure_at;
use crate::values::{key, row};
use mv_record::applying::apply;
use mv_store::store::Store;
use mv_store::view::StoreView;
use mv_table::found::Found;
use mv_table::scan::Direction;
use mv_table::table::Stored;
use mv_values::copied::Copied;
use mv_values::lent;
use mv_values::list::List;
use mv_values::memory::NoMemory;
use mv_values::op::Op;
use mv_values::patch::{Assign, Patch, Write};
use mv_values::pred::{Pred, Test};
use mv_values::pred_ref::PredRef;
use mv_values::rows::{Database, Keyed, Rows};
use mv_values::tested::Tested;
use mv_values::value::{Key, Row, Value, are_same};
use mv_view::key_set::NoKeys;
use mv_view::view::{Refused, View};
use rand_core::{Rng, SeedableRng};
use rand_xoshiro::SplitMix64;
use std::alloc::Global;
use std::test::Fail;

/// Commits the writes of a call that has none yet.
fn commit(
    alloc: Global,
    store: &mut Store,
    call: u32,
    n: u32,
    writes: &[Write],
) -> Result<(), NoMemory>
    requires clean { own_writes store.old call ≡ [] }
    requires next { store.old.last < n }
    ensures database { OnOk result ((m : ℕ) → n ≤ m → database_at store.new m ≡ applied writes.now (newest store.old)) }
    ensures clean { own_writes store.new call ≡ [] }
    ensures err { OnErr result (KeepsReads store.old store.new) }
{
    let _last = store.last();
    store.put_all(alloc, call, writes)?;
    store.stamp(call, n);
    Ok(())
}

/// Returns the row under a key that a reader finds after n commits.
pub(crate) fn look_up(
    alloc: Global,
    store: &Store,
    n: u32,
    table: u8,
    key: &Key,
) -> Result<Option<Row>, Refused>
    ensures { IfOk result (λ row. row ≡ row_of (rows_at (database_at store.now n) table) key.now) }
{
    let mut view = StoreView::new(store, n);
    let row = view.row(alloc, table, key)?;
    let row = lent::own(alloc, row)?;
    Ok(row)
}

/// A store, the tables after each commit, and the writes of calls that have not committed.
#[derive(Drop)]
struct History {
    store: Store,
    databases: Vec<Database>,
    own: Vec<(u32, Write)>,
}

const TABLES: u8 = 2;

fn byte(random: &mut SplitMix64) -> u8 {
    (random.next_u64() % 256) as u8
}

/// Returns a number of commits.
fn number(commits: usize) -> u32 {
    commits.min(1000) as u32
}

fn set(alloc: Global, column: u8, number: i64) -> Result<Patch, NoMemory> {
    let value = Value::Int(number);
    let mut items = List::new(alloc);
    items.push(Assign { column, value })?;
    Ok(Patch::Set(items))
}

fn any_patch(
    alloc: Global,
    group: i64,
    item: i64,
    random: &mut SplitMix64,
) -> Result<Patch, NoMemory> {
    let number = byte(random) as i64 % 4;
    match byte(random) % 7 {
        0 => Ok(Patch::Delete),
        1 | 2 => Ok(Patch::Insert(row(alloc, &[group, item, number, 0])?)),
        3 | 4 => set(alloc, 2, number),
        _ => set(alloc, 3, number),
    }
}

/// Returns a write to one of six keys of one of two tables, or to a table that isn't there.
fn any_write(alloc: Global, random: &mut SplitMix64) -> Result<Write, NoMemory> {
    let (group, item) = ((byte(random) % 2) as i64, (byte(random) % 3) as i64);
    let table = if byte(random) == 0 {
        9
    } else {
        byte(random) % TABLES
    };
    let key = key(alloc, &[group, item])?;
    let patch = any_patch(alloc, group, item, random)?;
    Ok(Write { table, key, patch })
}

fn put(alloc: Global, history: &mut History, call: u32, write: Write) -> Result<(), Fail> {
    history.store.put(alloc, call, &write)?;
    history.own.push((call, write))?;
    Ok(())
}

fn put_some(
    alloc: Global,
    history: &mut History,
    call: u32,
    random: &mut SplitMix64,
) -> Result<(), Fail> {
    let mut writes = Vec::new(alloc);
    for _ in 0..3u32 {
        writes.push(any_write(alloc, random)?)?;
    }
    history.store.put_all(alloc, call, &writes)?;
    for write in writes {
        history.own.push((call, write))?;
    }
    Ok(())
}

/// Returns the newest tables, with the writes of a call applied.
fn with_own(alloc: Global, history: &History, call: u32) -> Result<Database, Fail> {
    let Some(newest) = history.databases.last() else {
        return Err("no tables".into());
    };
    let mut database = newest.copy(alloc)?;
    for (of, write) in &history.own {
        if *of == call {
            apply(alloc, &mut database, write)?;
        }
    }
    Ok(database)
}

fn stamp(alloc: Global, history: &mut History, call: u32) -> Result<(), Fail> {
    let database = with_own(alloc, history, call)?;
    let n = number(history.databases.len());
    if history.store.last() >= n {
        return Err("a number that isn't next".into());
    }
    history.store.stamp(call, n);
    history.databases.push(database)?;
    history.own.retain(|(of, _)| *of != call);
    Ok(())
}

fn raise(history: &mut History, to: u32) {
    let low = to.min(history.store.last()).max(history.store.low());
    history.store.raise(low);
}

fn step(alloc: Global, history: &mut History, random: &mut SplitMix64) -> Result<(), Fail> {
    let call = byte(random) as u32 % 3;
    match byte(random) % 10 {
        0 => {
            history.store.drop_of(call);
            history.own.retain(|(of, _)| *of != call);
        }
        1 => raise(history, byte(random) as u32 % 16),
        2 | 3 => stamp(alloc, history, call)?,
        4 => put_some(alloc, history, call, random)?,
        _ => {
            let write = any_write(alloc, random)?;
            put(alloc, history, call, write)?;
        }
    }
    Ok(())
}

// Reads

fn same(a: &Keyed, b: &Keyed) -> bool {
    a.key == b.key && are_same(a.row.as_slice(), b.row.as_slice())
}

/// Whether the row that was found is this one.
fn is_same(found: &Found<'_>, want: &Keyed) -> bool {
    found.key() == &want.key && are_same(found.row().as_slice(), want.row.as_slice())
}

/// Whether the rows found are those of the table that the predicate matches, in their order.
fn are_matching(found: &[Found<'_>], pred: &PredRef<'_>, rows: &[Keyed]) -> bool {
    let mut wanted = rows.iter().filter(|item| pred.matches(&item.row));
    for item in found {
        match wanted.next() {
            Some(want) if is_same(item, want) => {}
            _ => return false,
        }
    }
    wanted.next().is_none()
}

fn pred(alloc: Global, table: u8, tests: &[(u8, Op, i64)]) -> Result<Pred, NoMemory> {
    let mut list = List::new(alloc);
    for (column, op, number) in tests {
        let key_place = if *column < 2 { Some(*column) } else { None };
        let value = Value::Int(*number);
        list.push(Test {
            column: *column,
            key_place,
            op: *op,
            value,
        })?;
    }
    Ok(Pred {
        table,
        tests: list,
        columns: List::new(alloc),
    })
}

/// Tests of the two key columns, and of a third.
const TESTS: &[&[(u8, Op, i64)]] = &[
    &[],
    &[(0, Op::Eq, 1)],
    &[(0, Op::Eq, 0), (1, Op::Gt, 0)],
    &[(0, Op::Eq, 1), (1, Op::Eq, 2)],
    &[(0, Op::Le, 0)],
    &[(2, Op::Ge, 2)],
    &[(1, Op::Lt, 2), (3, Op::Ne, 0)],
    &[(1, Op::Eq, 2)],
    &[(2, Op::Eq, 1)],
    &[(2, Op::Eq, 1), (3, Op::Eq, 0)],
    &[(2, Op::Eq, 1), (2, Op::Eq, 3)],
    &[(3, Op::Eq, 7), (0, Op::Eq, 0)],
    &[(2, Op::Eq, 3), (1, Op::Ge, 1)],
];

/// Returns the columns that are indexed: of the first table the second and two that aren't in the key, of the second
/// table one.
pub(crate) fn columns(alloc: Global) -> Result<List<Tested>, NoMemory> {
    let mut columns = List::new(alloc);
    for (table, column) in [(0, 1), (0, 2), (0, 3), (1, 2)] {
        columns.push(Tested { table, column })?;
    }
    Ok(columns)
}

fn admits_match(pred: &PredRef<'_>, item: &Keyed) -> bool
    ensures { IsTrue result ↔ (IsTrue (matches pred.now item.now.row) → IsTrue (admits pred.now item.now.key)) }
{
    !pred.matches(&item.row) || pred.admits(&item.key)
}

fn admits_matches(pred: &PredRef<'_>, rows: &[Keyed]) -> bool
    ensures { IsTrue result ↔ Admitted pred.now rows.now }
{
    rows.iter().all(|item| admits_match(pred, item))
}

/// Returns all rows of a table after n commits.
fn all_rows(alloc: Global, store: &Store, n: u32, table: u8) -> Result<Rows, Refused>
    ensures { IfOk result (λ rows. rows ≡ rows_at (database_at store.now n) table) }
{
    let pred = PredRef::new(table, &[], &[]);
    let found = store.rows_at(alloc, n, &pred)?;
    Ok(found.into_rows(alloc)?)
}

/// Whether this was found: a row, or none.
fn is_found(found: Result<Option<Found<'_>>, Refused>, want: Option<&Keyed>) -> bool {
    match (found, want) {
        (Ok(Some(found)), Some(want)) => is_same(&found, want),
        (Ok(None), None) => true,
        _ => false,
    }
}

/// Whether the first and the last row that a predicate finds after n commits are those of the plain tables.
fn finds_ends(alloc: Global, store: &Store, n: u32, pred: &PredRef<'_>, rows: &[Keyed]) -> bool
    requires { Admitted pred.now (rows_at (database_at store.now n) pred.now.table) }
{
    let first = rows.iter().find(|item| pred.matches(&item.row));
    let last = rows.iter().rev().find(|item| pred.matches(&item.row));
    is_found(
        store.foremost_at(alloc, n, pred, Direction::Forward, &NoKeys),
        first,
    ) && is_found(
        store.foremost_at(alloc, n, pred, Direction::Backward, &NoKeys),
        last,
    )
}

/// Whether the rows that a predicate finds after n commits are those of the plain tables.
fn finds(alloc: Global, store: &Store, n: u32, pred: &PredRef<'_>, rows: &[Keyed]) -> bool {
    let Ok(all) = all_rows(alloc, store, n, pred.table()) else {
        return false;
    };
    if !admits_matches(pred, all.as_slice()) {
        return false;
    }
    match store.rows_at(alloc, n, pred) {
        Ok(found) => {
            are_matching(found.as_slice(), pred, rows) && finds_ends(alloc, store, n, pred, rows)
        }
        Err(_) => false,
    }
}

fn finds_all(
    alloc: Global,
    store: &Store,
    n: u32,
    table: u8,
    rows: &[Keyed],
) -> Result<bool, NoMemory> {
    for tests in TESTS {
        if !finds(
            alloc,
            store,
            n,
            &PredRef::of(&pred(alloc, table, tests)?),
            rows,
        ) {
            return Ok(false);
        }
    }
    Ok(true)
}

fn row_under<'a>(rows: &'a [Keyed], key: &Key) -> Option<&'a Keyed> {
    rows.iter().find(|item| item.key == *key)
}

/// Whether each of the six keys has its row.
fn has_rows(
    alloc: Global,
    store: &Store,
    n: u32,
    table: u8,
    rows: &[Keyed],
) -> Result<bool, NoMemory> {
    for place in 0..6i64 {
        let key = key(alloc, &[place / 3, place % 3])?;
        let right = match (look_up(alloc, store, n, table, &key), row_under(rows, &key)) {
            (Ok(Some(row)), Some(item)) => are_same(row.as_slice(), item.row.as_slice()),
            (Ok(None), None) => true,
            _ => false,
        };
        if !right {
            return Ok(false);
        }
    }
    Ok(true)
}

fn reads(alloc: Global, store: &Store, n: u32, database: &Database) -> Result<bool, NoMemory> {
    for (table, rows) in (0u8..).zip(database.as_slice()) {
        let rows = rows.as_slice();
        if !finds_all(alloc, store, n, table, rows)? || !has_rows(alloc, store, n, table, rows)? {
            return Ok(false);
        }
    }
    Ok(true)
}

/// Whether a read answers Stale with its number and the store's low.
fn is_stale(alloc: Global, store: &Store, n: u32) -> bool {
    match all_rows(alloc, store, n, 0) {
        Err(Refused::Stale { start, low }) => start == n && low == store.low(),
        _ => false,
    }
}

fn reads_everywhere(alloc: Global, history: &History) -> Result<bool, NoMemory> {
    for (n, database) in history.databases.iter().enumerate() {
        let n = number(n);
        let right = if n < history.store.low() {
            is_stale(alloc, &history.store, n)
        } else {
            reads(alloc, &history.store, n, database)?
        };
        if !right {
            return Ok(false);
        }
    }
    Ok(true)
}

/// Returns two tables of one row each.
pub(crate) fn opening(alloc: Global) -> Result<Database, NoMemory> {
    let mut database = List::new(alloc);
    for table in 0..TABLES {
        let mut rows = Rows::new(alloc);
        rows.push(Keyed {
            key: key(alloc, &[0, 1])?,
            row: row(alloc, &[0, 1, table as i64, 7])?,
        })?;
        database.push(rows)?;
    }
    Ok(database)
}

/// Whether the store reads as the plain tables after each five steps.
fn goes_right(alloc: Global, seed: u64) -> Result<bool, Fail> {
    let mut random = SplitMix64::seed_from_u64(seed);
    let database = opening(alloc)?;
    let store = Store::new(alloc, &database, &columns(alloc)?)?;
    let mut databases = Vec::new(alloc);
    databases.push(database)?;
    let mut history = History {
        store,
        databases,
        own: Vec::new(alloc),
    };
    for _ in 0..8u32 {
        for _ in 0..5u32 {
            step(alloc, &mut history, &mut random)?;
        }
        if !reads_everywhere(alloc, &history)? {
            return Ok(false);
        }
    }
    Ok(true)
}

#[test]
fn random_histories_are_read_at_every_number(rt: HostRuntime) -> Result<(), Fail> {
    for seed in 0..200 {
        ensure_at(rt.alloc(), goes_right(rt.alloc(), seed)?, seed as usize)?;
    }
    Ok(())
}

/// A commit is read from its number on, and a key that it deletes is gone.
#[test]
fn a_commit_is_read_from_its_number_on(rt: HostRuntime) -> Result<(), Fail> {
    let alloc = rt.alloc();
    let mut store = Store::new(alloc, &opening(alloc)?, &columns(alloc)?)?;
    let mut writes = Vec::new(alloc);
    writes.push(Write {
        table: 1,
        key: key(alloc, &[0, 1])?,
        patch: Patch::Delete,
    })?;
    commit(alloc, &mut store, 5, 1, &writes)?;
    let key = key(alloc, &[0, 1])?;
    let before = match look_up(alloc, &store, 0, 1, &key) {
        Ok(Some(row)) => row.len() == 4,
        _ => false,
    };
    ensure_at(alloc, before, 0)?;
    let after = match look_up(alloc, &store, 1, 1, &key) {
        Ok(None) => true,
        _ => false,
    };
    ensure_at(alloc, after, 1)
}
