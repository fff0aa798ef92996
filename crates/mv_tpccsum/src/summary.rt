//! The summary of a run of the generated workload.

ghost use Rattle.std.specs.Prelude.{◌≡◌, ◌++◌, IfOk, OnOk};
ghost use Rattle.mv_tpccsum.specs.Summary.{load_line, new_order_line, calls_line, calls_text, rows_line, sum_line, tables_text, answer_line, consistent_line, summary};

use crate::columns::Tables;
use crate::consistent::agrees;
use crate::counts::{calls_of, ends_of};
use crate::text::write_named;
use mv_catalog::resolved::Resolved;
use mv_journal::outcome::Outcome;
use mv_tpccgen::load::Load;
use mv_values::list::List;
use mv_values::memory::NoMemory;
use std::alloc::Global;

/// Returns the summary of a run: the calls of each procedure, how many rows tables have, the sums of columns, and whether
/// the final tables agree. Tables, columns and procedures are found by name. One that isn't there, or a column that isn't
/// INT, counts as having no rows or calls. Sums are exact. Takes time linear in the number of calls, and n log d for n rows
/// and d districts. Fails if memory runs out.
#[tactic(auto, unfolding(crate::specs::Summary::summary))]
pub fn summary(
    alloc: Global,
    load: &Load,
    resolved: &Resolved,
    outcome: &Outcome,
) -> Result<List<u8>, NoMemory>
    ensures { IfOk result (λ text. text ≡ summary load.now resolved.now outcome.now) }
{
    let tables = Tables {
        infos: resolved.tables.as_slice(),
        database: outcome.tables.as_slice(),
    };
    let mut text = List::new(alloc);
    write_load(load, &mut text)?;
    write_calls(resolved, outcome, &mut text)?;
    write_tables(alloc, tables, &mut text)?;
    write_consistent(alloc, tables, &mut text)?;
    text.append(b"end\n")?;
    Ok(text)
}

#[tactic(auto, unfolding(crate::specs::Summary::load_line))]
fn write_load(load: &Load, text: &mut List<u8>) -> Result<(), NoMemory>
    ensures { OnOk result (text.new ≡ text.old ++ load_line load.now) }
{
    write_named("tpcc warehouses ", load.warehouses, text)?;
    write_named(" calls ", load.calls, text)?;
    write_named(" seed ", load.seed, text)?;
    text.push(b'\n')
}

#[tactic(auto, unfolding(crate::specs::Summary::calls_text))]
fn write_calls(resolved: &Resolved, outcome: &Outcome, text: &mut List<u8>) -> Result<(), NoMemory>
    ensures { OnOk result (text.new ≡ text.old ++ calls_text resolved.now outcome.now) }
{
    write_new_orders(resolved, outcome, text)?;
    write_calls_of(resolved, "payment", text)?;
    write_calls_of(resolved, "order_status", text)?;
    write_calls_of(resolved, "delivery", text)?;
    write_calls_of(resolved, "stock_level", text)
}

#[tactic(auto, unfolding(crate::specs::Summary::new_order_line))]
fn write_new_orders(
    resolved: &Resolved,
    outcome: &Outcome,
    text: &mut List<u8>,
) -> Result<(), NoMemory>
    ensures { OnOk result (text.new ≡ text.old ++ new_order_line resolved.now outcome.now) }
{
    let ends = ends_of(resolved, outcome.replies.as_slice(), "new_order");
    write_named("new_order ", calls_of(resolved, "new_order"), text)?;
    write_named(" rolled back ", ends, text)?;
    text.push(b'\n')
}

#[tactic(auto, unfolding(crate::specs::Summary::calls_line))]
fn write_calls_of(resolved: &Resolved, name: &str, text: &mut List<u8>) -> Result<(), NoMemory>
    ensures { OnOk result (text.new ≡ text.old ++ calls_line resolved.now name.now) }
{
    text.append(name.as_bytes())?;
    write_named(" ", calls_of(resolved, name), text)?;
    text.push(b'\n')
}

#[tactic(auto, unfolding(crate::specs::Summary::tables_text))]
fn write_tables(alloc: Global, tables: Tables<'_>, text: &mut List<u8>) -> Result<(), NoMemory>
    ensures { OnOk result (text.new ≡ text.old ++ tables_text tables.entry.infos.now tables.entry.database.now) }
{
    write_rows("orders ", tables, "orders", text)?;
    write_rows("order_lines ", tables, "order_line", text)?;
    write_sum(alloc, tables, "warehouse", "w_ytd", text)?;
    write_sum(alloc, tables, "history", "h_amount", text)?;
    write_sum(alloc, tables, "stock", "s_ytd", text)?;
    write_sum(alloc, tables, "stock", "s_order_cnt", text)?;
    write_sum(alloc, tables, "stock", "s_remote_cnt", text)
}

#[tactic(auto, unfolding(crate::specs::Summary::rows_line))]
fn write_rows(
    name: &str,
    tables: Tables<'_>,
    table: &str,
    text: &mut List<u8>,
) -> Result<(), NoMemory>
    ensures { OnOk result (text.new ≡ text.old ++ rows_line tables.entry.infos.now tables.entry.database.now name.now table.now) }
{
    write_named(name, tables.rows(table).len(), text)?;
    text.push(b'\n')
}

#[tactic(auto, unfolding(crate::specs::Summary::sum_line))]
fn write_sum(
    alloc: Global,
    tables: Tables<'_>,
    table: &str,
    column: &str,
    text: &mut List<u8>,
) -> Result<(), NoMemory>
    ensures { OnOk result (text.new ≡ text.old ++ sum_line tables.entry.infos.now tables.entry.database.now table.now column.now) }
{
    let sum = tables.sum(alloc, table, column)?;
    text.append(b"sum ")?;
    text.append(column.as_bytes())?;
    write_named(" ", sum, text)?;
    text.push(b'\n')
}

#[tactic(auto, unfolding(crate::specs::Summary::consistent_line))]
fn write_consistent(alloc: Global, tables: Tables<'_>, text: &mut List<u8>) -> Result<(), NoMemory>
    ensures { OnOk result (text.new ≡ text.old ++ consistent_line tables.entry.infos.now tables.entry.database.now) }
{
    let agree = agrees(alloc, tables)?;
    text.append(answer_line(agree))
}

fn answer_line(agree: bool) -> &'static [u8]
    ensures { result.now ≡ answer_line agree }
{
    if agree {
        b"consistent yes\n"
    } else {
        b"consistent no\n"
    }
}
