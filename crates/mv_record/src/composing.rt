//! Two patches in one.

ghost use Rattle.std.specs.Prelude.{◌≡◌, ◌++◌, List, Option, IfOk, OnOk};
ghost use Rattle.std.specs.Option.{option_map};
ghost use Rattle.mv_values.specs.declared.value.Value.{Value};
ghost use Rattle.mv_values.specs.Patching.{with_columns, patched};
ghost use Rattle.mv_record.specs.Composing.{left_by};

use crate::applying::set_columns;
use mv_values::copied::Copied;
use mv_values::list::List;
use mv_values::memory::NoMemory;
use mv_values::patch::{Assign, Patch, is_set};
use std::alloc::Global;

/// Returns copies of the items whose columns the next ones don't set.
fn items_left(alloc: Global, items: &[Assign], next: &[Assign]) -> Result<List<Assign>, NoMemory>
    ensures { IfOk result (λ left. left ≡ left_by next.now items.now) }
{
    let mut left = List::new(alloc);
    for item in items {
        if !is_set(next, item.column) {
            left.push(item.copy(alloc)?)?;
        }
    }
    Ok(left)
}

/// Appends copies of items.
fn append(alloc: Global, items: &mut List<Assign>, more: &[Assign]) -> Result<(), NoMemory>
    ensures { OnOk result (items.new ≡ items.old ++ more.now) }
{
    for item in more {
        items.push(item.copy(alloc)?)?;
    }
    Ok(())
}

/// Returns items that do what these and then the next ones do.
fn join(alloc: Global, items: &[Assign], next: &[Assign]) -> Result<List<Assign>, NoMemory>
    ensures { IfOk result (λ both. (row : List Value) → with_columns both row ≡ with_columns next.now (with_columns items.now row)) }
{
    let mut both = items_left(alloc, items, next)?;
    append(alloc, &mut both, next)?;
    Ok(both)
}

/// Returns the patch that does what a patch and then these items do.
fn compose_set(alloc: Global, first: &Patch, items: &[Assign]) -> Result<Patch, NoMemory>
    ensures { IfOk result (λ both. (was : Option (List Value)) → patched both was ≡ option_map (with_columns items.now) (patched first.now was)) }
{
    match first {
        Patch::Insert(row) => Ok(Patch::Insert(set_columns(alloc, row, items)?)),
        Patch::Set(own) => Ok(Patch::Set(join(alloc, own.as_slice(), items)?)),
        Patch::Delete => Ok(Patch::Delete),
    }
}

/// Returns the patch that does what two patches do, one after the other. Both stay as they are, for who still reads
/// them. Fails if memory runs out. Costs the sizes of both; of items that set a column, only the next patch's are kept.
pub fn compose(alloc: Global, first: &Patch, next: &Patch) -> Result<Patch, NoMemory>
    ensures { IfOk result (λ both. (was : Option (List Value)) → patched both was ≡ patched next.now (patched first.now was)) }
{
    match next {
        Patch::Insert(row) => Ok(Patch::Insert(row.copy(alloc)?)),
        Patch::Set(items) => compose_set(alloc, first, items.as_slice()),
        Patch::Delete => Ok(Patch::Delete),
    }
}
