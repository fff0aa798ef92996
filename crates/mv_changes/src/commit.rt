//! The changes that a call makes when it commits.

ghost use Rattle.std.specs.Prelude.{◌≡◌, ◌≤◌, ◌∷◌, ◌++◌, [], List, length, slice_get, IfOk, OnOk};
ghost use Rattle.std.specs.List.{list_any};
ghost use Rattle.mv_values.specs.Order.{key_order};
ghost use Rattle.mv_values.specs.Patching.{applied, row_of};
ghost use Rattle.mv_values.specs.Tables.{rows_at};
ghost use Rattle.mv_record.specs.Runs.{writes_in};
ghost use Rattle.mv_record.specs.Writes.{AreRising};
ghost use Rattle.mv_values.specs.declared.patch.Write.{Write};
ghost use Rattle.mv_history.specs.Changes.{InOrder, changes_between, is_same, place};
ghost use Rattle.mv_changes.specs.Tables.{IsCut};
ghost use Rattle.mv_changes.specs.Drafting.{IsDraft, HasAsked, by_place, written, is_before, is_there, change_of_write, differing};

use crate::changes::Changes;
use mv_history::change::{Change, is_same, next_change};
use mv_log::records::Records;
use mv_record::applying::patch_row;
use mv_values::copied::Copied;
use mv_values::lent::own;
use mv_values::list::List;
use mv_values::memory::NoMemory;
use mv_values::patch::Write;
use mv_values::value::Key;
use mv_view::view::{Refused, View};
use std::alloc::Global;
use std::cmp::Ordering;

/// Compares the place of a change with that of a write.
fn order_to(change: &Change, write: &Write) -> Ordering
    ensures { result ≡ key_order (place change.now) (written write.now) }
{
    if change.table < write.table {
        return Ordering::Less;
    }
    if change.table > write.table {
        return Ordering::Greater;
    }
    change.key.order(&write.key)
}

/// Returns the number of changes before the place of a write. Takes time logarithmic in their number.
fn place_in(changes: &List<Change>, write: &Write) -> usize
    requires { InOrder changes.now }
    ensures within { result ≤ length changes.now }
    ensures cut { IsCut (is_before write.now) changes.now result }
{
    changes.as_slice().partition_point(
        |change: &Change| -> bool
            ensures { result ≡ is_before write.entry.now change.now }
        { order_to(change, write).is_lt() },
    )
}

/// Whether the change at an index is of the place of a write.
fn is_there(changes: &List<Change>, at: usize, write: &Write) -> bool
    ensures { result ≡ is_there write.now (slice_get changes.now at) }
{
    match changes.as_slice().get(at) {
        Some(change) => order_to(change, write).is_eq(),
        None => false,
    }
}

/// Returns a change of nothing. It allocates no memory.
fn no_change() -> Change {
    Change {
        table: 0,
        key: Key::new(),
        before: None,
        after: None,
    }
}

/// Returns the change of a key by its first write: from its row in the view's database to the row after the write.
fn first_change<'s, V: View<'s>>(
    alloc: Global,
    write: &Write,
    view: &mut V,
) -> Result<Change, Refused>
    ensures change { IfOk result (λ change. change ≡ change_of_write write.now (row_of (rows_at (V.sight view.old).database write.now.table) write.now.key)) }
    ensures asks { HasAsked 1 (V.sight view.old) (V.sight view.new) result }
{
    let before = own(alloc, view.row(alloc, write.table, &write.key)?)?;
    let after = patch_row(alloc, &write.patch, before.as_ref())?;
    let key = write.key.copy(alloc)?;
    Ok(Change {
        table: write.table,
        key,
        before,
        after,
    })
}

/// Adds a write to the changes, unless it is to a table that the database lacks.
fn add_write<'s, V: View<'s>>(
    alloc: Global,
    tables: usize,
    changes: &mut List<Change>,
    write: &Write,
    view: &mut V,
) -> Result<(), Refused>
    requires tables { tables ≡ length (V.sight view.old).database }
    requires rising { AreRising (V.sight view.old).database }
    requires order { InOrder changes.old }
    ensures order { OnOk result (InOrder changes.new) }
    ensures ok { OnOk result ((ws : List Write) → IsDraft (by_place changes.old) ws (V.sight view.old).database → IsDraft (by_place changes.new) (ws ++ write.now ∷ []) (V.sight view.old).database) }
    ensures asks { HasAsked 1 (V.sight view.old) (V.sight view.new) result }
{
    if write.table as usize >= tables {
        return Ok(());
    }
    let at = place_in(changes, write);
    if is_there(changes, at, write) {
        let was = changes.replace(at, no_change());
        let next = next_change(alloc, was, write)?;
        changes.set(at, next);
        return Ok(());
    }
    let first = first_change(alloc, write, view)?;
    changes.insert(at, first)?;
    Ok(())
}

/// Adds writes to the changes.
fn add_writes<'s, V: View<'s>>(
    alloc: Global,
    tables: usize,
    changes: &mut List<Change>,
    writes: &[Write],
    view: &mut V,
) -> Result<(), Refused>
    requires tables { tables ≡ length (V.sight view.old).database }
    requires rising { AreRising (V.sight view.old).database }
    requires order { InOrder changes.old }
    ensures order { OnOk result (InOrder changes.new) }
    ensures ok { OnOk result ((ws : List Write) → IsDraft (by_place changes.old) ws (V.sight view.old).database → IsDraft (by_place changes.new) (ws ++ writes.now) (V.sight view.old).database) }
    ensures asks { HasAsked (length writes.now) (V.sight view.old) (V.sight view.new) result }
{
    for write in writes {
        add_write(alloc, tables, changes, write, view)?;
    }
    Ok(())
}

/// Whether one of the changes leaves its row as it was.
fn has_same(changes: &[Change]) -> bool
    ensures { result ≡ list_any (λ c. is_same c.before c.after) changes.now }
{
    changes
        .iter()
        .any(|change| is_same(&change.before, &change.after))
}

/// Copies the changes whose rows differ.
fn copy_differing(alloc: Global, changes: &[Change]) -> Result<Changes, NoMemory>
    requires { InOrder changes.now }
    ensures { IfOk result (λ listed. listed ≡ differing (by_place changes.now)) }
{
    let mut listed = List::new(alloc);
    for change in changes {
        if !is_same(&change.before, &change.after) {
            let copy = change.copy(alloc)?;
            listed.push(copy)?;
        }
    }
    Changes::of(alloc, listed)
}

/// Returns the changes whose rows differ. It copies them only if some row doesn't.
fn differing(alloc: Global, changes: List<Change>) -> Result<Changes, NoMemory>
    requires { InOrder changes }
    ensures { IfOk result (λ listed. listed ≡ differing (by_place changes)) }
{
    if has_same(changes.as_slice()) {
        return copy_differing(alloc, changes.as_slice());
    }
    Changes::of(alloc, changes)
}

/// Returns the changes that the writes of a call's records make to the view's database, which has this many tables. A
/// change has the row of a written key before and after the writes, if these differ. Fails if memory runs out, or with
/// `Stale` if the view does. Costs one look-up in the view for each key written, and for each write the logarithm of
/// their number. The first write of a key moves the changes of later keys.
pub fn changes_of_commit<'s, V: View<'s>>(
    alloc: Global,
    tables: usize,
    records: &Records<'_>,
    view: &mut V,
) -> Result<Changes, Refused>
    requires tables { tables ≡ length (V.sight view.old).database }
    requires rising { AreRising (V.sight view.old).database }
    ensures changes { IfOk result (λ changes. changes ≡ changes_between (V.sight view.old).database (applied (writes_in records.now) (V.sight view.old).database)) }
    ensures asks { HasAsked (length (writes_in records.now)) (V.sight view.old) (V.sight view.new) result }
{
    let mut changes = List::new(alloc);
    for number in 0..records.len() {
        let record = records.get(number);
        add_writes(alloc, tables, &mut changes, record.writes(), view)?;
    }
    Ok(differing(alloc, changes)?)
}
