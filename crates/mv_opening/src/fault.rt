//! The errors of making the opening database.

ghost use Rattle.std.specs.Prelude.{◌≡◌};
ghost use Rattle.mv_opening.specs.Opening.{in_table};

use mv_csvio::fault::CopyFault;
use mv_values::memory::NoMemory;

/// Why the database that the calls begin with can't be made. Tables are numbered from 0, in the order of the script.
/// Rows and columns are counted from 1.
#[derive(Clone, Copy)]
pub enum OpeningFault {
    /// The field of a copy isn't a value of its column's type.
    Field { table: u8, row: u32, column: u32 },
    /// The record of a copy doesn't have one field for each column of the table.
    Width { table: u8, row: u32 },
    /// The table already has a row with this row's key. The row is counted within VALUES or within the copy's block.
    Duplicate { table: u8, row: u32 },
    /// The block of a copy or of the journal isn't closed.
    OpenBlock,
    /// Memory ran out.
    NoMemory,
}

/// Why the rows that the calls begin with may not stand together. The table is numbered from 0, in the order of the
/// script. The row, in key order, and the column are counted from 1.
#[derive(Clone, Copy)]
pub enum ParentFault {
    /// The row has no parent by this column.
    Missing { table: u32, row: u32, column: u32 },
    /// Memory ran out, or a row has a number of more than 32 bits.
    NoMemory,
}

impl From<NoMemory> for ParentFault {
    ghost use Rattle.std.specs.Prelude.{◌≡◌};
    ghost use Rattle.mv_opening.specs.declared.fault.ParentFault.TheVariants as fault;

    ghost from_gives = { λ _ e. e ≡ fault.NoMemory };

    fn from(_error: NoMemory) -> ParentFault {
        ParentFault::NoMemory
    }
}

impl From<NoMemory> for OpeningFault {
    ghost use Rattle.std.specs.Prelude.{◌≡◌};
    ghost use Rattle.mv_opening.specs.declared.fault.OpeningFault.TheVariants as fault;

    ghost from_gives = { λ _ e. e ≡ fault.NoMemory };

    fn from(_error: NoMemory) -> OpeningFault {
        OpeningFault::NoMemory
    }
}

impl OpeningFault {
    /// Adds the number of the table to an error of its rows.
    pub(crate) fn of_rows(fault: CopyFault, table: u8) -> OpeningFault
        ensures { result ≡ in_table table fault }
    {
        match fault {
            CopyFault::Field { row, column } => OpeningFault::Field { table, row, column },
            CopyFault::Width { row } => OpeningFault::Width { table, row },
            CopyFault::Duplicate { row } => OpeningFault::Duplicate { table, row },
            CopyFault::NoMemory => OpeningFault::NoMemory,
        }
    }
}
