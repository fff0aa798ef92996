//! The text of a run, in its five parts: replies, history, journal, tables, end.

ghost use Rattle.std.specs.Prelude.{◌≡◌, length, IfOk};
ghost use Rattle.mv_report.specs.Text.{text_of};

use crate::history::write_history;
use crate::journal::write_journal;
use crate::replies::write_replies;
use crate::tables::write_tables;
use mv_journal::outcome::Outcome;
use mv_values::list::List;
use mv_values::memory::NoMemory;
use mv_values::schema::TableInfo;
use std::alloc::Global;

/// Returns the text of a run. Takes time proportional to the lengths of the text and of the outcome.
pub fn render(
    alloc: Global,
    tables: &List<TableInfo>,
    outcome: &Outcome,
) -> Result<List<u8>, NoMemory>
    ensures { IfOk result (λ text. text ≡ text_of tables.now outcome.now) }
{
    let mut text = List::new(alloc);
    write_replies(outcome.replies.as_slice(), &mut text)?;
    text.append(b"history\n")?;
    write_history(outcome.history.as_slice(), &mut text)?;
    text.append(b"journal\n")?;
    write_journal(outcome.journal.as_slice(), &mut text)?;
    write_tables(
        alloc,
        tables.as_slice(),
        outcome.tables.as_slice(),
        &mut text,
    )?;
    text.append(b"end\n")?;
    Ok(text)
}
