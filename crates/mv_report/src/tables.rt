//! Part 4 of a run's text: the tables after the last call.

ghost use Rattle.std.specs.Prelude.{◌≡◌, ◌++◌, length, OnOk};
ghost use Rattle.mv_report.specs.Text.{table_text, tables_text};

use mv_csvio::dump::dump;
use mv_values::list::List;
use mv_values::memory::NoMemory;
use mv_values::rows::Rows;
use mv_values::schema::TableInfo;
use std::alloc::Global;

/// Adds the tables in declared order.
pub(crate) fn write_tables(
    alloc: Global,
    tables: &[TableInfo],
    database: &[Rows],
    text: &mut List<u8>,
) -> Result<(), NoMemory>
    ensures { OnOk result (text.new ≡ text.old ++ tables_text tables.now database.now) }
{
    let count = tables.len().min(database.len());
    for place in 0..count {
        write_table(alloc, &tables[place], &database[place], text)?;
    }
    Ok(())
}

fn write_table(
    alloc: Global,
    table: &TableInfo,
    rows: &Rows,
    text: &mut List<u8>,
) -> Result<(), NoMemory>
    ensures { OnOk result (text.new ≡ text.old ++ table_text table.now rows.now) }
{
    text.append(b"table ")?;
    text.append(table.name.as_slice())?;
    text.push(b'\n')?;
    dump(alloc, rows, text)
}
