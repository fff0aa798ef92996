//! Loads the rows of VALUES.

ghost use Rattle.std.specs.Prelude.{◌≡◌, ◌<◌, ◌^◌, ◌++◌, ◌∷◌, ◌⊎◌, [], length, Err, IfOk, IfErr, List as Seq, MatchResult, IsPermutation};
ghost use Rattle.mv_values.specs.Keys.{IsRising};
ghost use Rattle.mv_values.specs.declared.rows.Keyed.{Keyed};
ghost use Rattle.mv_csvio.specs.declared.fault.CopyFault.{CopyFault};
ghost use Rattle.mv_csvio.specs.declared.fault.CopyFault.TheVariants as fault;
ghost use Rattle.mv_csvio.specs.Joining.{HasJoined, IsDuplicate, TellsOfValues, under_key};

use crate::fault::CopyFault;
use crate::joining::Joining;
use mv_values::copied::Copied;
use mv_values::key::key_of;
use mv_values::list::List;
use mv_values::rows::{Keyed, Rows};
use mv_values::schema::TableInfo;
use mv_values::value::Row;
use std::alloc::Global;

/// Returns the rows of VALUES of a table, each with its key, in key order. Takes time n log n for n rows, in whatever
/// order they come. There must be fewer than 2^32 rows.
///
/// # Errors
/// `Duplicate` with the first row whose key an earlier row has. `NoMemory` if memory runs out.
pub fn gather(alloc: Global, rows: &List<Row>, table: &TableInfo) -> Result<Rows, CopyFault>
    requires { length rows.now < 2 ^ 32 }
    ensures rows { IfOk result (HasJoined table.now [] rows.now) }
    ensures only { (joined : Seq Keyed) → HasJoined table.now [] rows.now joined → MatchResult result (λ answer. answer ≡ joined) (λ f. f ≡ fault.NoMemory) }
    ensures fault { IfErr result (λ f. (f ≡ fault.NoMemory) ⊎ TellsOfValues table.now rows.now f) }
    ensures told { (f : CopyFault) → TellsOfValues table.now rows.now f → (result ≡ Err f) ⊎ (result ≡ Err fault.NoMemory) }
{
    let joining = join_values(alloc, rows, table)?;
    Ok(joining.into_rows(alloc)?)
}

/// Like `gather`, but more rows can be added to the result.
pub fn join_values(alloc: Global, rows: &List<Row>, table: &TableInfo) -> Result<Joining, CopyFault>
    requires { length rows.now < 2 ^ 32 }
    ensures rows { IfOk result (HasJoined table.now [] rows.now) }
    ensures fault { IfErr result (λ f. (f ≡ fault.NoMemory) ⊎ TellsOfValues table.now rows.now f) }
{
    let mut joining = Joining::new(alloc);
    let mut number = 0;
    for row in rows.as_slice() {
        number += 1;
        join_row(alloc, &mut joining, table, row.copy(alloc)?, number)?;
    }
    Ok(joining)
}

/// Adds a row under its key. The number is reported if the key is a duplicate.
pub(crate) fn join_row(
    alloc: Global,
    joining: &mut Joining,
    table: &TableInfo,
    row: Row,
    number: u32,
) -> Result<(), CopyFault>
    ensures { MatchResult result (λ _. IsRising joining.new × IsPermutation (joining.old ++ under_key table.now row ∷ []) joining.new) (λ f. (f ≡ fault.NoMemory) ⊎ IsDuplicate table.now joining.old row number f) }
{
    let key = key_of(alloc, row.as_slice(), table.key.as_slice())?;
    if !joining.join(Keyed { key, row })? {
        return Err(CopyFault::Duplicate { row: number });
    }
    Ok(())
}
