//! A collection of a store and of the changes of its commits, as its caller sees it.

ghost use Rattle.std.specs.Prelude.{◌≡◌, ◌≤◌, ◌+◌, ◌∷◌, [], None, length, List as Seq, Option as Opt};
ghost use Rattle.mv_values.specs.declared.value.Value.{Value as Val};

use crate::changes::three;
use crate::stores::{columns, look_up, opening};
use crate::values::{key, row};
use mv_cases::ensure::ensure;
use mv_changes::recent::Recent;
use mv_collect::collect::collect;
use mv_store::store::Store;
use mv_values::memory::NoMemory;
use mv_values::patch::{Patch, Write};
use mv_values::value::{Row, are_same};
use mv_view::view::Refused;
use std::alloc::Global;
use std::test::Fail;

/// Collects up to commit 2. A key that commits 1, 2 and 3 have written keeps one base and commit 3. A key that commit 1
/// has deleted is gone.
fn collect_two(store: &mut Store, recent: &mut Recent)
    requires low { store.old.low ≤ 2 }
    requires rises { recent.old.low ≤ 2 }
    requires within { 2 ≤ recent.old.low + length recent.old.commits }
    ensures kept { (key : Seq Val) (a b c d : Opt (Seq Val)) → store.old.tables ≡ ((key, record { base = a; commits = record { number = 1; row = b } ∷ record { number = 2; row = c } ∷ record { number = 3; row = d } ∷ []; own = [] }) ∷ []) ∷ [] → store.new.tables ≡ ((key, record { base = c; commits = record { number = 3; row = d } ∷ []; own = [] }) ∷ []) ∷ [] }
    ensures gone { (key : Seq Val) (a : Opt (Seq Val)) → store.old.tables ≡ ((key, record { base = a; commits = record { number = 1; row = None } ∷ []; own = [] }) ∷ []) ∷ [] → store.new.tables ≡ [] ∷ [] }
    ensures changes { recent.new.low ≡ 2 }
{
    collect(store, recent, 2);
}

/// Adds a write of a call to the one key of a table.
fn put(
    alloc: Global,
    store: &mut Store,
    call: u32,
    table: u8,
    patch: Patch,
) -> Result<(), NoMemory> {
    let key = key(alloc, &[0, 1])?;
    store.put(alloc, call, &Write { table, key, patch })
}

fn stamp(store: &mut Store, n: u32) -> Result<(), Fail> {
    if store.last() >= n {
        return Err("a number that isn't next".into());
    }
    store.stamp(n, n);
    Ok(())
}

/// Returns a store of two tables. Commits 1, 2 and 3 write the row of the first one, and commit 1 deletes that of the
/// second.
fn store_of_three(alloc: Global) -> Result<Store, Fail> {
    let mut store = Store::new(alloc, &opening(alloc)?, &columns(alloc)?)?;
    put(alloc, &mut store, 1, 1, Patch::Delete)?;
    for n in 1..=3u32 {
        let patch = Patch::Insert(row(alloc, &[0, 1, n as i64, 0])?);
        put(alloc, &mut store, n, 0, patch)?;
        stamp(&mut store, n)?;
    }
    Ok(store)
}

fn is_row(found: Result<Option<Row>, Refused>, want: &Row) -> bool {
    match found {
        Ok(Some(row)) => are_same(row.as_slice(), want.as_slice()),
        _ => false,
    }
}

#[test]
fn later_commits_are_kept(rt: HostRuntime) -> Result<(), Fail> {
    let alloc = rt.alloc();
    let mut store = store_of_three(alloc)?;
    let mut recent = three(alloc)?;
    if store.low() > 0 {
        return Err("a low before any collection".into());
    }
    collect_two(&mut store, &mut recent);
    let key = key(alloc, &[0, 1])?;
    for n in 2..=3u32 {
        let want = row(alloc, &[0, 1, n as i64, 0])?;
        ensure(
            alloc,
            is_row(look_up(alloc, &store, n, 0, &key), &want),
            "from low on",
        )?;
    }
    let before = look_up(alloc, &store, 1, 0, &key);
    ensure(alloc, before.is_err(), "before low")?;
    let deleted = match look_up(alloc, &store, 2, 1, &key) {
        Ok(None) => true,
        _ => false,
    };
    ensure(alloc, deleted, "a deleted row")?;
    ensure(alloc, recent.since(2).len() == 1, "changes after low")
}
