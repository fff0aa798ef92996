//! Parses a record as a row.

ghost use Rattle.std.specs.Prelude.{◌≡◌, ◌<◌, ◌^◌, ◌⊎◌, length, MatchResult};
ghost use Rattle.csv.specs.Records.{fields_of};
ghost use Rattle.mv_csvio.specs.declared.fault.CopyFault.TheVariants as fault;
ghost use Rattle.mv_csvio.specs.Fields.{IsNoRow, IsRow};

use crate::fault::CopyFault;
use crate::fields::value_of;
use csv::ByteRecord;
use mv_values::list::List;
use mv_values::schema::Column;
use mv_values::value::Row;
use std::alloc::Global;

/// Returns the record as a row. Fails with `Width`, or with `Field` for the first field that isn't a value of its type.
pub(crate) fn row_of(
    alloc: Global,
    fields: &ByteRecord,
    columns: &[Column],
    number: u32,
) -> Result<Row, CopyFault>
    requires { length columns.now < 2 ^ 32 }
    ensures { MatchResult result (IsRow columns.now (fields_of fields.now)) (λ f. (f ≡ fault.NoMemory) ⊎ IsNoRow columns.now (fields_of fields.now) number f) }
{
    if fields.len() != columns.len() {
        return Err(CopyFault::Width { row: number });
    }
    let mut row = List::new(alloc);
    let mut place = 0;
    for column in columns {
        let Some(field) = fields.get(place as usize) else {
            return Err(CopyFault::Width { row: number });
        };
        place += 1;
        let Some(value) = value_of(alloc, column.kind, field)? else {
            return Err(CopyFault::Field {
                row: number,
                column: place,
            });
        };
        row.push(value)?;
    }
    Ok(row)
}
