//! Applies patches in place, and keeps what undoes them.

ghost use Rattle.std.specs.Prelude.{◌≡◌, ◌<◌, ◌≤◌, ◌+◌, ◌++◌, drop, Option, Some, List, OnOk, OnErr, length, slice_set, slice_index_or, option_map};
ghost use Rattle.mv_values.specs.declared.patch.Assign.{Assign};
ghost use Rattle.mv_values.specs.declared.value.Value.{Value};
ghost use Rattle.mv_values.specs.Patching.{with_columns, patched, is_set};
ghost use Rattle.mv_chain.specs.Undoing.{set_back, undone};
ghost use Rattle.mv_chain.specs.Versions.{compact};
ghost use Rattle.mv_chain.specs.Keeping.{HasKeptColumn, IsCompacted};

use mv_values::list::List as Listed;
use mv_values::memory::NoMemory;
use mv_values::patch::{Assign, Patch, is_set};
use mv_values::value::{Row, Value};

/// A row after a patch, and the patch that undoes it.
#[derive(Drop)]
pub(crate) struct Done {
    pub(crate) row: Option<Row>,
    pub(crate) undo: Patch,
}

/// Returns an item that fills the place of one that was moved out.
fn placeholder() -> Assign {
    Assign {
        column: 0,
        value: Value::Int(0),
    }
}

/// Replaces the value of a column and returns the old one. If the row has no such column, returns the given value.
fn swap_column(row: &mut Row, column: u8, value: Value) -> Value
    ensures row { row.new ≡ slice_set row.old column value }
    ensures was { result ≡ slice_index_or row.old column value }
{
    if (column as usize) < row.len() {
        row.replace(column as usize, value)
    } else {
        value
    }
}

/// Sets one column to an item's value, and keeps the column's own value in the item.
fn exchange(row: &mut Row, items: &mut Listed<Assign>, at: usize)
    requires { at < length items.old }
    ensures { (d : Assign) → let item = slice_index_or items.old at d in (row.new ≡ slice_set row.old item.column item.value) × (items.new ≡ slice_set items.old at (record item { value = slice_index_or row.old item.column item.value })) }
{
    let Assign { column, value } = items.replace(at, placeholder());
    let value = swap_column(row, column, value);
    items.set(at, Assign { column, value });
}

/// Sets columns of a row, in order. The items then hold what undoes this. It allocates no memory.
pub(crate) fn set_columns(row: &mut Row, items: &mut Listed<Assign>)
    ensures row { row.new ≡ with_columns items.old row.old }
    ensures back { set_back items.new row.new ≡ row.old }
{
    for at in 0..items.len() {
        exchange(row, items, at);
    }
}

/// Returns the patch that restores a row, or its absence.
fn bringing_back(row: Option<Row>) -> Patch
    ensures { (now : Option (List Value)) → undone result now ≡ row }
{
    match row {
        Some(row) => Patch::Insert(row),
        None => Patch::Delete,
    }
}

/// Applies a patch to a row, or to none. It allocates no memory.
pub(crate) fn do_patch(row: Option<Row>, patch: Patch) -> Done
    ensures row { result.row ≡ patched patch row }
    ensures back { undone result.undo result.row ≡ row }
{
    match patch {
        Patch::Insert(new) => Done {
            row: Some(new),
            undo: bringing_back(row),
        },
        Patch::Set(items) => done_on_columns(row, items),
        Patch::Delete => Done {
            row: None,
            undo: bringing_back(row),
        },
    }
}

fn done_on_columns(row: Option<Row>, items: Listed<Assign>) -> Done
    ensures row { result.row ≡ option_map (with_columns items) row }
    ensures back { undone result.undo result.row ≡ row }
{
    let Some(row) = row else {
        return Done {
            row: None,
            undo: Patch::Delete,
        };
    };
    let mut row = row;
    let mut items = items;
    set_columns(&mut row, &mut items);
    Done {
        row: Some(row),
        undo: Patch::Set(items),
    }
}

/// Appends items to a list. If memory runs out, the list is unchanged.
fn add_items(items: &mut Listed<Assign>, more: Listed<Assign>) -> Result<(), NoMemory>
    ensures ok { OnOk result (items.new ≡ items.old ++ more) }
    ensures err { OnErr result (items.new ≡ items.old) }
{
    let len = items.len();
    let mut more = more;
    for at in 0..more.len() {
        let item = more.replace(at, placeholder());
        if items.push(item).is_err() {
            items.truncate(len);
            return Err(NoMemory);
        }
    }
    Ok(())
}

/// Returns whether a later item sets the column of the one at a place.
fn is_set_later(items: &[Assign], at: usize) -> bool
    requires { at < length items.now }
    ensures { (d : Assign) → result ≡ is_set (slice_index_or items.now at d).column (drop (at + 1) items.now) }
{
    is_set(&items[at + 1..], items[at].column)
}

/// Moves an item to an earlier place, or leaves it there.
fn keep(items: &mut Listed<Assign>, to: usize, at: usize)
    requires order { to ≤ at }
    requires within { at < length items.old }
    ensures { (d : Assign) → HasKeptColumn to at d items.old items.new }
{
    let item = items.replace(at, placeholder());
    items.set(to, item);
}

/// Keeps the item at a place, unless a later one sets its column. Returns how many items are kept then.
fn keep_last(items: &mut Listed<Assign>, kept: usize, at: usize) -> usize
    requires order { kept ≤ at }
    requires within { at < length items.old }
    ensures { (all : List Assign) → IsCompacted all kept at items.old → IsCompacted all result (at + 1) items.new }
{
    if is_set_later(items.as_slice(), at) {
        return kept;
    }
    keep(items, kept, at);
    kept + 1
}

/// Drops the items whose column a later one sets. It allocates no memory.
fn compact(items: &mut Listed<Assign>)
    ensures { items.new ≡ compact items.old }
{
    let mut kept = 0;
    for at in 0..items.len() {
        kept = keep_last(items, kept, at);
    }
    items.truncate(kept);
}

/// Appends items to a list, and keeps the last one of each column. If memory runs out, the list is unchanged.
pub(crate) fn set_more(items: &mut Listed<Assign>, more: Listed<Assign>) -> Result<(), NoMemory>
    ensures ok { OnOk result (items.new ≡ compact (items.old ++ more)) }
    ensures err { OnErr result (items.new ≡ items.old) }
{
    add_items(items, more)?;
    compact(items);
    Ok(())
}
