//! The text of calls that ran alone. It has three of a run's parts: replies, tables, end.

ghost use Rattle.std.specs.Prelude.{◌≡◌, IfOk};
ghost use Rattle.mv_report.specs.Serial.{serial_text};

use crate::replies::write_replies;
use crate::tables::write_tables;
use mv_values::calls::Reply;
use mv_values::list::List;
use mv_values::memory::NoMemory;
use mv_values::rows::Database;
use mv_values::schema::TableInfo;
use std::alloc::Global;

/// Returns the text of calls that ran alone: the reply of each call by number, and the database after the last call.
/// Takes time proportional to the length of the text.
pub fn render_serial(
    alloc: Global,
    tables: &List<TableInfo>,
    replies: &List<Reply>,
    database: &Database,
) -> Result<List<u8>, NoMemory>
    ensures { IfOk result (λ text. text ≡ serial_text tables.now replies.now database.now) }
{
    let mut text = List::new(alloc);
    write_replies(replies.as_slice(), &mut text)?;
    write_tables(alloc, tables.as_slice(), database.as_slice(), &mut text)?;
    text.append(b"end\n")?;
    Ok(text)
}
