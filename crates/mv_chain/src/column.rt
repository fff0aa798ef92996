//! Which values versions have in a column.

ghost use Rattle.std.specs.Prelude.{◌≡◌, Some, if◌then◌else◌, ◌==◌, ◌&&◌, not};
ghost use Rattle.std.specs.List.{list_any};
ghost use Rattle.std.specs.Option.{option_copied};
ghost use Rattle.mv_values.specs.Patching.{patched, with_columns};
ghost use Rattle.mv_chain.specs.Undoing.{item_on};
ghost use Rattle.mv_chain.specs.Versions.{without};
ghost use Rattle.mv_chain.specs.Having.{is_value, row_has, item_has, patch_has, own_has, undone_have, ends, ends_at, is_in, is_set_past, has_after};

use crate::pending::Pending;
use crate::undo::{Undo, item_on};
use mv_values::patch::{Assign, Patch};
use mv_values::value::{Row, Value};

/// Whether two values are the same.
fn is_value(own: &Value, value: &Value) -> bool
    ensures { result ≡ is_value value.now own.now }
{
    own.order(value).is_eq()
}

/// Whether a row has a value in a column. A missing column counts as 0.
pub(crate) fn row_has(row: &Row, column: u8, value: &Value) -> bool
    ensures { result ≡ row_has column value.now (Some row.now) }
{
    match row.as_slice().get(column as usize) {
        Some(own) => is_value(own, value),
        None => is_value(&Value::Int(0), value),
    }
}

/// Whether a row, if there is one, has a value in a column.
fn newest_has(row: Option<&Row>, column: u8, value: &Value) -> bool
    ensures { result ≡ row_has column value.now (option_copied row.entry) }
{
    match row {
        Some(row) => row_has(row, column, value),
        None => false,
    }
}

/// Whether an item sets a column to a value.
fn item_has(item: &Assign, column: u8, value: &Value) -> bool
    ensures { result ≡ item_has column value.now item.now }
{
    item.column == column && is_value(&item.value, value)
}

/// Whether one of the items sets a column to a value.
fn items_have(items: &[Assign], column: u8, value: &Value) -> bool
    ensures { result ≡ list_any (item_has column value.now) items.now }
{
    items.iter().any(|item| item_has(item, column, value))
}

/// Whether a patch gives a column a value.
pub fn patch_has(patch: &Patch, column: u8, value: &Value) -> bool
    ensures { result ≡ patch_has column value.now patch.now }
{
    match patch {
        Patch::Insert(row) => row_has(row, column, value),
        Patch::Set(items) => items_have(items.as_slice(), column, value),
        Patch::Delete => false,
    }
}

/// Whether one of the patches that aren't committed gives a column a value.
pub(crate) fn own_has(own: &[Pending], column: u8, value: &Value) -> bool
    ensures { result ≡ own_has column value.now own.now }
{
    own.iter()
        .any(|pending| patch_has(&pending.patch, column, value))
}

/// Whether it is a patch of another call that gives a column a value.
fn is_other_with(pending: &Pending, call: u32, column: u8, value: &Value) -> bool
    ensures { result ≡ (not (pending.now.call == call) && patch_has column value.now pending.now.patch) }
{
    pending.call != call && patch_has(&pending.patch, column, value)
}

/// Whether one is a patch of another call that gives a column a value.
fn any_other(own: &[Pending], call: u32, column: u8, value: &Value) -> bool
    ensures { result ≡ list_any (λ p. not (p.call == call) && patch_has column value.now p.patch) own.now }
{
    own.iter()
        .any(|pending| is_other_with(pending, call, column, value))
}

/// Whether one of the patches of other calls gives a column a value.
pub(crate) fn others_have(own: &[Pending], call: u32, column: u8, value: &Value) -> bool
    ensures { result ≡ own_has column value.now (without call own.now) }
{
    any_other(own, call, column, value)
}

/// Whether a row, if there is one, has a value in a column, or an earlier row has it as far as this one has the column.
fn ends(row: Option<&Row>, set: bool, column: u8, value: &Value) -> bool
    ensures { result ≡ ends column value.now set (option_copied row.entry) }
{
    match row {
        Some(row) => {
            row_has(row, column, value) || (set && (column as usize) < row.as_slice().len())
        }
        None => false,
    }
}

/// The same at what undoes a commit: if it brings a row back, the row after it has no part in that.
fn ends_at(patch: &Patch, set: bool, column: u8, value: &Value) -> bool
    ensures { result ≡ ends_at column value.now set patch.now }
{
    match patch {
        Patch::Insert(row) => ends(Some(row), set, column, value),
        Patch::Set(_) => false,
        Patch::Delete => false,
    }
}

/// Whether the first item on a column sets it to a value.
fn first_has(items: &[Assign], column: u8, value: &Value) -> bool
    ensures { result ≡ is_in value.now (item_on column items.now) }
{
    match item_on(items, column) {
        Some(own) => is_value(own, value),
        None => false,
    }
}

/// Whether a row before a commit has a value in a column if the row after the commit has the column.
fn is_set_past(patch: &Patch, set: bool, column: u8, value: &Value) -> bool
    ensures { result ≡ is_set_past column value.now set patch.now }
{
    match patch {
        Patch::Insert(_) => false,
        Patch::Set(items) => set || first_has(items.as_slice(), column, value),
        Patch::Delete => false,
    }
}

/// Whether a row before one of these commits has a value in a column, or the row after them. It copies no row, and looks
/// at each patch once.
fn found_before(undos: &[Undo], now: Option<&Row>, column: u8, value: &Value) -> bool
    ensures { result ≡ undone_have column value.now undos.now (option_copied now.entry) }
{
    let mut set = false;
    for undo in undos {
        if ends_at(&undo.patch, set, column, value) {
            return true;
        }
        set = is_set_past(&undo.patch, set, column, value);
    }
    ends(now, set, column, value)
}

/// Whether a row before one of these commits has a value in a column, or the row after them. It looks at that row first.
#[tactic(auto, using(crate::proofs::Having::newest_first))]
pub(crate) fn undone_have(undos: &[Undo], now: Option<&Row>, column: u8, value: &Value) -> bool
    ensures { result ≡ undone_have column value.now undos.now (option_copied now.entry) }
{
    newest_has(now, column, value) || found_before(undos, now, column, value)
}

/// Whether a column has a value after an item, where it had it before or not.
fn has_past(item: &Assign, had: bool, column: u8, value: &Value) -> bool
    ensures { result ≡ (if item.now.column == column then is_value value.now item.now.value else had) }
{
    if item.column == column {
        is_value(&item.value, value)
    } else {
        had
    }
}

/// Whether a column has a value after these items, in order, where it had it before or not.
fn has_after(items: &[Assign], had: bool, column: u8, value: &Value) -> bool
    ensures { result ≡ has_after column value.now items.now had }
{
    let mut has = had;
    for item in items {
        has = has_past(item, has, column, value);
    }
    has
}

/// Whether a row has a value in a column once these columns are set.
#[tactic(auto, using(crate::proofs::Having::set_all, crate::proofs::Having::set_past_end))]
fn set_has(row: &Row, items: &[Assign], column: u8, value: &Value) -> bool
    ensures { result ≡ row_has column value.now (Some (with_columns items.now row.now)) }
{
    let has = row_has(row, column, value);
    if (column as usize) < row.as_slice().len() {
        has_after(items, has, column, value)
    } else {
        has
    }
}

/// Whether the row that a patch makes of this one, or of none, has a value in a column.
pub(crate) fn patched_has(row: Option<&Row>, patch: &Patch, column: u8, value: &Value) -> bool
    ensures { result ≡ row_has column value.now (patched patch.now (option_copied row.entry)) }
{
    match patch {
        Patch::Insert(new) => row_has(new, column, value),
        Patch::Set(items) => match row {
            Some(row) => set_has(row, items.as_slice(), column, value),
            None => false,
        },
        Patch::Delete => false,
    }
}
