//! Copies at the end of a list.

ghost use Rattle.std.specs.Prelude.{◌≡◌, ◌++◌, OnOk};

use mv_values::copied::Copied;
use mv_values::list::List;
use mv_values::memory::NoMemory;
use std::alloc::Global;

/// Appends copies of the items. Fails with `NoMemory` if memory runs out. Then it may have appended some of them.
pub fn append_copies<T: Copied>(
    alloc: Global,
    list: &mut List<T>,
    items: &[T],
) -> Result<(), NoMemory>
    ensures { OnOk result (list.new ≡ list.old ++ items.now) }
{
    for item in items {
        list.push(item.copy(alloc)?)?;
    }
    Ok(())
}
