//! Undoes commits.

ghost use Rattle.std.specs.Prelude.{◌≡◌, ◌↔◌, ◌≤◌, ◌<◌, IsTrue, IfOk, All, List, Option, Some, drop, length, slice_get};
ghost use Rattle.std.specs.Option.{is_some, option_copied};
ghost use Rattle.mv_values.specs.declared.value.Value.{Value as Val};
ghost use Rattle.mv_chain.specs.Undoing.{set_back, undone, before, commits_of, item_on, later, Rises};

use mv_values::copied::Copied;
use mv_values::memory::NoMemory;
use mv_values::patch::{Assign, Patch};
use mv_values::value::{Row, Value};
use std::alloc::Global;

/// A commit's number, and the patch that undoes it. The items of a `Set` are applied from the last to the first.
#[derive(Drop)]
pub struct Undo {
    pub commit: u32,
    pub patch: Patch,
}

/// Returns the place of the first commit after n. Takes time logarithmic in the number of commits.
pub(crate) fn place_after(undos: &[Undo], n: u32) -> usize
    requires { Rises undos.now }
    ensures later { drop result undos.now ≡ later n undos.now }
    ensures within { result ≤ length undos.now }
{
    undos.partition_point(|undo| undo.commit <= n)
}

/// Whether all commits have numbers below n.
pub(crate) fn are_below(undos: &[Undo], n: u32) -> bool
    requires { Rises undos.now }
    ensures { (now : Option (List Val)) → IsTrue result ↔ All (λ c. c.number < n) (commits_of undos.now now) }
{
    undos.is_empty() || undos[undos.len() - 1].commit < n
}

/// Sets columns of a row, from the last item to the first.
fn set_back(alloc: Global, row: Row, items: &[Assign]) -> Result<Row, NoMemory>
    ensures { IfOk result (λ new. new ≡ set_back items.now row) }
{
    let mut new = row;
    let mut at = items.len();
    while 0 < at {
        at -= 1;
        let item = &items[at];
        if (item.column as usize) < new.len() {
            new.set(item.column as usize, item.value.copy(alloc)?);
        }
    }
    Ok(new)
}

/// Returns the row before a commit, given the row after it. Takes time linear in the size of the patch.
pub(crate) fn take_back(
    alloc: Global,
    row: Option<Row>,
    patch: &Patch,
) -> Result<Option<Row>, NoMemory>
    ensures { IfOk result (λ was. was ≡ undone patch.now row) }
{
    match patch {
        Patch::Insert(was) => Ok(Some(was.copy(alloc)?)),
        Patch::Set(items) => match row {
            Some(row) => Ok(Some(set_back(alloc, row, items.as_slice())?)),
            None => Ok(None),
        },
        Patch::Delete => Ok(None),
    }
}

/// Returns the row before the commits from this place on, given the row after them. Takes time linear in the size of
/// their patches.
pub(crate) fn row_before(
    alloc: Global,
    row: Option<Row>,
    undos: &[Undo],
    first: usize,
) -> Result<Option<Row>, NoMemory>
    requires { first ≤ length undos.now }
    ensures { IfOk result (λ was. was ≡ before (drop first undos.now) row) }
{
    let mut was = row;
    let mut at = undos.len();
    while first < at {
        at -= 1;
        was = take_back(alloc, was, &undos[at].patch)?;
    }
    Ok(was)
}

/// Whether there was a row before these commits. It stops at the last of them that inserted or deleted.
pub(crate) fn stood_before(undos: &[Undo], now: Option<&Row>) -> bool
    ensures { result ≡ is_some (before undos.now (option_copied now.entry)) }
{
    for undo in undos {
        match &undo.patch {
            Patch::Insert(_) => return true,
            Patch::Set(_) => {}
            Patch::Delete => return false,
        }
    }
    now.is_some()
}

/// Returns the value of the first item on a column.
pub(crate) fn item_on(items: &[Assign], column: u8) -> Option<&Value>
    ensures { option_copied result ≡ item_on column items.now }
{
    for item in items {
        if item.column == column {
            return Some(&item.value);
        }
    }
    None
}

/// Returns the value of a column, if the row has it.
pub(crate) fn column_of(row: &Row, column: u8) -> Option<&Value>
    ensures { option_copied result ≡ slice_get row.now column }
{
    row.as_slice().get(column as usize)
}

/// Returns the value that a column had before these commits, if the row has the column. It stops at the first commit
/// that set the column or deleted the row.
pub(crate) fn value_before<'a>(
    undos: &'a [Undo],
    now: Option<&'a Row>,
    column: u8,
) -> Option<&'a Value>
    ensures { (row : List Val) → before undos.now (option_copied now.entry) ≡ Some row → column < length row → option_copied result ≡ slice_get row column }
{
    for undo in undos {
        match &undo.patch {
            Patch::Insert(row) => return column_of(row, column),
            Patch::Set(items) => {
                if let Some(value) = item_on(items.as_slice(), column) {
                    return Some(value);
                }
            }
            Patch::Delete => return None,
        }
    }
    match now {
        Some(row) => column_of(row, column),
        None => None,
    }
}
