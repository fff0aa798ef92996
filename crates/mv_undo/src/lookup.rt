//! Copies of rows that may be there.

ghost use Rattle.std.specs.Prelude.{◌≡◌, IfOk};
ghost use Rattle.std.specs.Option.{option_copied};

use mv_values::copied::Copied;
use mv_values::memory::NoMemory;
use mv_values::value::Row;
use std::alloc::Global;

/// Returns a copy of a row, if any.
pub(crate) fn copy_of(alloc: Global, row: Option<&Row>) -> Result<Option<Row>, NoMemory>
    ensures { IfOk result (λ copy. copy ≡ option_copied row.entry) }
{
    match row {
        Some(row) => Ok(Some(row.copy(alloc)?)),
        None => Ok(None),
    }
}
