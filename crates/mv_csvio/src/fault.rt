//! The errors of loading rows.

use mv_values::memory::NoMemory;

/// Why the rows of VALUES or of a block can't be loaded. Rows and columns are counted from 1.
#[derive(Clone, Copy)]
pub enum CopyFault {
    /// The field isn't a value of its column's type.
    Field { row: u32, column: u32 },
    /// The record doesn't have one field for each column of the table.
    Width { row: u32 },
    /// The table already has a row with this row's key.
    Duplicate { row: u32 },
    /// Memory ran out.
    NoMemory,
}

impl From<NoMemory> for CopyFault {
    ghost use Rattle.std.specs.Prelude.{◌≡◌};
    ghost use Rattle.mv_csvio.specs.declared.fault.CopyFault.TheVariants as fault;

    ghost from_gives = { λ _ e. e ≡ fault.NoMemory };

    fn from(_error: NoMemory) -> CopyFault {
        CopyFault::NoMemory
    }
}
