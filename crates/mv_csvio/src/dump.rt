//! Writes rows as CSV.

ghost use Rattle.std.specs.Prelude.{◌≡◌, ◌++◌, ◌∷◌, ◌<◌, ◌-◌, ◌^◌, ℕ, List as Seq, [], length, IfOk, OnOk, OnErr};
ghost use Rattle.mv_csvio.specs.Csv.{field_of, row_csv, rows_csv};
ghost use Rattle.mv_csvio.specs.Writing.{HasWritten};

use csv::{Writer, WriterBuilder};
use itoa::Buffer;
use mv_values::list::List;
use mv_values::memory::NoMemory;
use mv_values::rows::Rows;
use mv_values::value::Value;
use std::alloc::Global;

/// Appends the rows to the text as CSV, one record per row.
///
/// # Errors
/// `NoMemory` if memory runs out. The text is then unchanged.
pub fn dump(alloc: Global, rows: &Rows, text: &mut List<u8>) -> Result<(), NoMemory>
    ensures ok { OnOk result (text.new ≡ text.old ++ rows_csv rows.now) }
    ensures err { OnErr result (text.new ≡ text.old) }
{
    let bytes = csv_of(alloc, rows)?;
    text.append(bytes.as_slice())
}

/// Returns the rows as CSV.
fn csv_of(alloc: Global, rows: &Rows) -> Result<Vec<u8>, NoMemory>
    ensures { IfOk result (λ bytes. bytes.items ≡ rows_csv rows.now) }
{
    let mut writer = WriterBuilder::new()
        .flexible(true)
        .from_writer(Vec::new(alloc));
    for item in rows.as_slice() {
        write_row(&mut writer, item.row.as_slice())?;
    }
    let Ok(bytes) = writer.into_inner() else {
        return Err(NoMemory);
    };
    Ok(bytes)
}

fn write_row(writer: &mut Writer<Vec<u8>>, row: &[Value]) -> Result<(), NoMemory>
    ensures { (before : Seq ℕ) → HasWritten writer.old before [] → OnOk result (HasWritten writer.new (before ++ row_csv row.now) []) }
{
    for value in row {
        write_value(writer, value)?;
    }
    let Ok(()) = writer.end_record() else {
        return Err(NoMemory);
    };
    Ok(())
}

fn write_value(writer: &mut Writer<Vec<u8>>, value: &Value) -> Result<(), NoMemory>
    ensures { (before : Seq ℕ) (fields : Seq (Seq ℕ)) → length fields < 2 ^ 64 - 1 → HasWritten writer.old before fields → OnOk result (HasWritten writer.new before (fields ++ field_of value.now ∷ [])) }
{
    match value {
        Value::Int(n) => {
            let mut digits = Buffer::new();
            write_field(writer, digits.format(*n).as_bytes())
        }
        Value::Text(text) => write_field(writer, text.as_slice()),
    }
}

fn write_field(writer: &mut Writer<Vec<u8>>, field: &[u8]) -> Result<(), NoMemory>
    ensures { (before : Seq ℕ) (fields : Seq (Seq ℕ)) → length fields < 2 ^ 64 - 1 → HasWritten writer.old before fields → OnOk result (HasWritten writer.new before (fields ++ field.now ∷ [])) }
{
    let Ok(()) = writer.write_field(field) else {
        return Err(NoMemory);
    };
    Ok(())
}
