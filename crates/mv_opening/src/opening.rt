//! Loads the rows of VALUES and of the copies, and checks the journal's block.

ghost use Rattle.std.specs.Prelude.{◌≡◌, ◌<◌, ◌≤◌, ◌+◌, ◌^◌, ◌⊎◌, All, Err, IfErr, IfOk, List as Seq, length, MatchResult};
ghost use Rattle.std.specs.Bool.{MatchBool};
ghost use Rattle.mv_opening.specs.Opening.{FitTogether, HasCopied, HaveGathered, IsClosed, IsOpen, IsOpening, HasNoOpening, TellsOfCopy, TellsOfTables};
ghost use Rattle.mv_opening.specs.declared.fault.OpeningFault.{OpeningFault};
ghost use Rattle.mv_opening.specs.declared.fault.OpeningFault.TheVariants as fault;
ghost use Rattle.mv_values.specs.Keys.{IsRising};
ghost use Rattle.mv_values.specs.declared.rows.Keyed.{Keyed};
ghost use Rattle.mv_catalog.specs.Text.{FitsText};
ghost use Rattle.mv_record.specs.Databases.{IsDatabaseOf};

use crate::fault::OpeningFault;
use mv_catalog::resolved::{CopyInfo, Resolved};
use mv_csvio::gather::join_values;
use mv_csvio::joining::Joining;
use mv_csvio::load::join_records;
use mv_values::list::List;
use mv_values::memory::NoMemory;
use mv_values::rows::Database;
use mv_values::schema::TableInfo;
use std::alloc::Global;

/// Returns the database that the calls begin with. Takes time n log n for n rows in all, in whatever order they come
/// and however many blocks they are in. The script and the bytes must pass `fit_together`.
///
/// # Errors
/// The checks run in this order, and the first that fails is returned:
/// 1. `Duplicate` for the rows of VALUES, table by table.
/// 2. For each copy, in the order of the text: `OpenBlock` if its block isn't closed, else the error of its first bad
///    record.
/// 3. `OpenBlock` if the journal's block isn't closed.
///
/// `NoMemory` is returned if memory runs out.
pub fn opening(alloc: Global, resolved: &Resolved, bytes: &[u8]) -> Result<Database, OpeningFault>
    requires { FitTogether resolved.now bytes.now }
    ensures opened { IfOk result (IsOpening resolved.now bytes.now) }
    ensures only { (tables : Seq (Seq Keyed)) → IsOpening resolved.now bytes.now tables → MatchResult result (λ answer. answer ≡ tables) (λ f. f ≡ fault.NoMemory) }
    ensures refused { IfErr result (λ f. (f ≡ fault.NoMemory) ⊎ HasNoOpening resolved.now bytes.now f) }
    ensures told { (f : OpeningFault) → HasNoOpening resolved.now bytes.now f → (result ≡ Err f) ⊎ (result ≡ Err fault.NoMemory) }
    ensures database { FitsText resolved.now → IfOk result (IsDatabaseOf resolved.now.tables) }
{
    let tables = join_all(alloc, resolved, bytes)?;
    Ok(into_database(alloc, tables)?)
}

/// Returns the rows of VALUES and of the copies, table by table.
fn join_all(alloc: Global, resolved: &Resolved, bytes: &[u8]) -> Result<List<Joining>, OpeningFault>
    requires { FitTogether resolved.now bytes.now }
    ensures { MatchResult result (IsOpening resolved.now bytes.now) (λ f. (f ≡ fault.NoMemory) ⊎ HasNoOpening resolved.now bytes.now f) }
{
    let mut tables = gather_all(alloc, resolved)?;
    for copy in resolved.copies.as_slice() {
        take_copy(alloc, resolved.tables.as_slice(), bytes, *copy, &mut tables)?;
    }
    if is_open(&resolved.journal) {
        return Err(OpeningFault::OpenBlock);
    }
    Ok(tables)
}

/// Returns the rows of VALUES, table by table.
fn gather_all(alloc: Global, resolved: &Resolved) -> Result<List<Joining>, OpeningFault>
    requires tables { length resolved.now.tables ≤ 256 }
    requires values { length resolved.now.rows ≡ length resolved.now.tables }
    requires rows { All (λ rows. length rows < 2 ^ 32) resolved.now.rows }
    ensures { MatchResult result (HaveGathered resolved.now.tables resolved.now.rows) (λ f. (f ≡ fault.NoMemory) ⊎ TellsOfTables resolved.now f) }
{
    let mut tables = List::new(alloc);
    let values = resolved.rows.as_slice();
    for (place, table) in resolved.tables.as_slice().iter().enumerate() {
        match join_values(alloc, &values[place], table) {
            Ok(rows) => tables.push(rows)?,
            Err(fault) => return Err(OpeningFault::of_rows(fault, place as u8)),
        }
    }
    Ok(tables)
}

/// Adds the records of a copy's block to the rows of its table.
fn take_copy(
    alloc: Global,
    infos: &[TableInfo],
    bytes: &[u8],
    copy: CopyInfo,
    tables: &mut List<Joining>,
) -> Result<(), OpeningFault>
    requires tables { length tables.old ≡ length infos.now }
    requires rising { All IsRising tables.old }
    requires table { copy.table < length infos.now }
    requires block { copy.at + copy.len ≤ length bytes.now }
    requires bytes { length bytes.now < 2 ^ 32 }
    requires columns { All (λ info. length info.columns < 2 ^ 32) infos.now }
    ensures { MatchResult result (λ _. HasCopied infos.now bytes.now tables.old copy tables.new) (λ f. (f ≡ fault.NoMemory) ⊎ TellsOfCopy infos.now bytes.now tables.old copy f) }
{
    if !copy.closed {
        return Err(OpeningFault::OpenBlock);
    }
    let table = copy.table as usize;
    let at = copy.at as usize;
    let block = &bytes[at..at + copy.len as usize];
    let mut rows = tables.replace(table, Joining::new(alloc));
    if let Err(fault) = join_records(alloc, block, &infos[table], &mut rows) {
        return Err(OpeningFault::of_rows(fault, copy.table));
    }
    tables.set(table, rows);
    Ok(())
}

/// Returns the finished rows of each table.
fn into_database(alloc: Global, mut tables: List<Joining>) -> Result<Database, NoMemory>
    ensures { IfOk result (λ database. database ≡ tables) }
{
    let mut database = List::new(alloc);
    for place in 0..tables.len() {
        let joining = tables.replace(place, Joining::new(alloc));
        database.push(joining.into_rows(alloc)?)?;
    }
    Ok(database)
}

/// Whether there is a block that isn't closed.
fn is_open(block: &Option<CopyInfo>) -> bool
    ensures { MatchBool result (IsOpen block.now) (IsClosed block.now) }
{
    match block {
        Some(block) => !block.closed,
        None => false,
    }
}
