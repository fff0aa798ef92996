//! Loads blocks of CSV into the rows of a table.

ghost use Rattle.std.specs.Prelude.{◌≡◌, ◌<◌, ◌^◌, ◌⊎◌, [], ℕ, None, length, Err, IfErr, IfOk, List as Seq, MatchResult, OnOk};
ghost use Rattle.std.specs.Bool.{MatchBool};
ghost use Rattle.csv.specs.Machine.{next_record};
ghost use Rattle.csv.specs.Reading.{default_config, strip_bom};
ghost use Rattle.csv.specs.declared.parser.State.{State};
ghost use Rattle.csv.specs.declared.parser.State.TheVariants as state;
ghost use Rattle.mv_values.specs.Keys.{IsRising};
ghost use Rattle.mv_values.specs.declared.rows.Keyed.{Keyed};
ghost use Rattle.mv_csvio.specs.declared.fault.CopyFault.{CopyFault};
ghost use Rattle.mv_csvio.specs.declared.fault.CopyFault.TheVariants as fault;
ghost use Rattle.mv_csvio.specs.Loading.{HasLoaded, IsFirstBad, records_of};
ghost use Rattle.mv_csvio.specs.Reading.{HasRead, ReadsFrom};

use crate::fault::CopyFault;
use crate::gather::join_row;
use crate::joining::Joining;
use crate::record::row_of;
use csv::{ByteRecord, Reader, ReaderBuilder};
use mv_values::memory::NoMemory;
use mv_values::rows::Rows;
use mv_values::schema::TableInfo;
use std::alloc::Global;
use std::mem;

/// Adds the records of a block to the rows of a table, each under its key. Takes time n log n for n rows in all, in
/// whatever order they come. The block must have fewer than 2^32 bytes.
///
/// # Errors
/// The error of the first bad record, with its number counted from 1. The first of these that applies is returned:
/// 1. `Width` if the record doesn't have one field for each column.
/// 2. `Field` with the first field that isn't a value of its column's type.
/// 3. `Duplicate` if the key is already there, in the table or in the block.
///
/// `NoMemory` is returned if memory runs out. After an error the rows are lost.
pub fn load(
    alloc: Global,
    block: &[u8],
    table: &TableInfo,
    rows: &mut Rows,
) -> Result<(), CopyFault>
    requires block { length block.now < 2 ^ 32 }
    requires columns { length table.now.columns < 2 ^ 32 }
    ensures ok { OnOk result (HasLoaded table.now rows.old (records_of block.now) rows.new) }
    ensures only { (loaded : Seq Keyed) → HasLoaded table.now rows.old (records_of block.now) loaded → MatchResult result (λ _. rows.new ≡ loaded) (λ f. f ≡ fault.NoMemory) }
    ensures fault { IfErr result (λ f. (f ≡ fault.NoMemory) ⊎ IsFirstBad table.now rows.old (records_of block.now) f) }
    ensures told { (f : CopyFault) → IsFirstBad table.now rows.old (records_of block.now) f → (result ≡ Err f) ⊎ (result ≡ Err fault.NoMemory) }
{
    let old = mem::replace(rows, Rows::new(alloc));
    let mut joining = Joining::of(alloc, old)?;
    join_records(alloc, block, table, &mut joining)?;
    *rows = joining.into_rows(alloc)?;
    Ok(())
}

/// Like `load`, but more rows can be added afterwards. Takes time n log m for a block of n records and m rows in all.
/// Many small blocks cost no more than one large block.
pub fn join_records(
    alloc: Global,
    block: &[u8],
    table: &TableInfo,
    joining: &mut Joining,
) -> Result<(), CopyFault>
    requires block { length block.now < 2 ^ 32 }
    requires columns { length table.now.columns < 2 ^ 32 }
    requires rising { IsRising joining.old }
    ensures { MatchResult result (λ _. HasLoaded table.now joining.old (records_of block.now) joining.new) (λ f. (f ≡ fault.NoMemory) ⊎ IsFirstBad table.now joining.old (records_of block.now) f) }
{
    let mut reader = reader_of(alloc, block);
    let mut fields = ByteRecord::new(alloc);
    let mut number = 0;
    while has_read(&mut reader, &mut fields)? {
        number += 1;
        let row = row_of(alloc, &fields, table.columns.as_slice(), number)?;
        join_row(alloc, joining, table, row, number)?;
    }
    Ok(())
}

/// Returns a reader of the records of a block. Records may differ in length, and none is a header.
fn reader_of(alloc: Global, block: &[u8]) -> Reader<&[u8]>
    ensures { ReadsFrom result state.StartRecord (strip_bom block.now) }
{
    ReaderBuilder::new()
        .has_headers(false)
        .flexible(true)
        .from_reader(alloc, block)
}

/// Reads the next record. Returns whether there was one.
fn has_read(reader: &mut Reader<&[u8]>, fields: &mut ByteRecord) -> Result<bool, NoMemory>
    ensures { (at : State) (bytes : Seq ℕ) → ReadsFrom reader.old at bytes → IfOk result (λ found. MatchBool found (HasRead at bytes fields.new reader.new) (next_record default_config at [] [] bytes ≡ None)) }
{
    let Ok(found) = reader.read_byte_record(fields) else {
        return Err(NoMemory);
    };
    Ok(found)
}
