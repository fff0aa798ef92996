//! Why the repairs of a journal executed the records that they did.

ghost use Rattle.std.specs.Prelude.{◌≡◌, ◌<◌, ◌^◌, ◌++◌, length, OnOk};
ghost use Rattle.mv_lawful.specs.Batch.{records_at};
ghost use Rattle.mv_script.specs.Scripts.{IsCompiledScript, batch_of};
ghost use Rattle.mv_core.specs.Books.{Booked, batch_in, Made};
ghost use Rattle.mv_core.specs.Cores.{HasRunWhole};
ghost use Rattle.mv_why.specs.Causes.{changes_since};
ghost use Rattle.mv_why.specs.Laws.{AreFullRuns};
ghost use Rattle.mv_why.specs.Text.{repair_text};
ghost use Rattle.mv_explain.specs.Explained.{IsRepair, TellsEvent, TellsEvents, HasExplained};

use crate::before::{Before, before_repair};
use mv_core::drive::DriveFault;
use mv_core::engine::Core;
use mv_journal::event::Event;
use mv_log::records::Records;
use mv_script::script::CompiledScript;
use mv_values::list::List;
use mv_values::memory::NoMemory;
use mv_values::schema::TableInfo;
use mv_why::lines::{Repair, write_repair};
use std::alloc::Global;

/// Lends the records of a call that this event has repaired.
fn records_after<'c>(core: &'c Core, event: &Event, call: u32) -> Records<'c>
    requires made { (old : Booked) × Made event.now old core.now.book }
    requires repair { IsRepair event.now call }
    requires whole { HasRunWhole event.now core.now }
    ensures { (old : Booked) → Made event.now old core.now.book → result ≡ records_at (batch_in old) old.schedule.order (length old.schedule.order) call }
{
    match event {
        Event::X(_) => core.last_records(),
        _ => core.records(call),
    }
}

/// Adds the lines of a repair of a call, which has these new records at its new start.
fn write_lines<'a>(
    alloc: Global,
    tables: &'a [TableInfo],
    call: u32,
    start: u32,
    before: &'a Before,
    fresh: Records<'a>,
    text: &mut List<u8>,
) -> Result<(), NoMemory>
    requires { AreFullRuns before.now.task.log.records fresh (changes_since before.now.since) }
    ensures { OnOk result (text.new ≡ text.old ++ repair_text tables.now call start before.now.task.log.records fresh.entry before.now.since) }
{
    let old = before.task.records();
    let repair = Repair {
        tables,
        call,
        start,
        old,
        fresh,
        since: before.since.as_slice(),
    };
    write_repair(alloc, &repair, text)
}

/// Makes the event on line n, which repairs a call, and adds its lines.
fn write_repair_event(
    alloc: Global,
    core: &mut Core,
    tables: &[TableInfo],
    event: &Event,
    call: u32,
    n: u32,
    text: &mut List<u8>,
) -> Result<(), DriveFault>
    requires script { IsCompiledScript core.old.book.script }
    requires repair { IsRepair event.now call }
    ensures { TellsEvent tables.now event.now n core.old.book core.new.book text.old text.new result }
{
    let Some(before) = before_repair(alloc, core, call)? else {
        return core.event(alloc, event, n);
    };
    let start = core.commits();
    core.event(alloc, event, n)?;
    let fresh = records_after(core, event, call);
    write_lines(alloc, tables, call, start, &before, fresh, text)?;
    Ok(())
}

/// Makes the event on line n, and adds its lines.
fn write_event(
    alloc: Global,
    core: &mut Core,
    tables: &[TableInfo],
    event: &Event,
    n: u32,
    text: &mut List<u8>,
) -> Result<(), DriveFault>
    requires { IsCompiledScript core.old.book.script }
    ensures { TellsEvent tables.now event.now n core.old.book core.new.book text.old text.new result }
{
    match event {
        Event::A(call) | Event::X(call) => {
            write_repair_event(alloc, core, tables, event, *call, n, text)
        }
        _ => core.event(alloc, event, n),
    }
}

/// Makes events one after another, up to the first that is refused, and adds the lines of each.
fn write_events(
    alloc: Global,
    core: &mut Core,
    tables: &[TableInfo],
    events: &[Event],
    text: &mut List<u8>,
) -> Result<(), DriveFault>
    requires script { IsCompiledScript core.old.book.script }
    requires few { length events.now < 2 ^ 32 }
    ensures { TellsEvents tables.now events.now core.old.book core.new.book text.old text.new result }
{
    let mut n: u32 = 0;
    for event in events {
        n += 1;
        write_event(alloc, core, tables, event, n, text)?;
    }
    Ok(())
}

/// Runs the events of a journal, and returns a text with the lines of each repair, in order, and `end`. These are the
/// script's tables. Fails exactly if the journal isn't lawful, with its first fault, and with `NoMemory` if memory runs
/// out. Costs what `replay` does, and for each repair a whole run of the call and what `causes` costs.
pub fn explain(
    alloc: Global,
    script: CompiledScript,
    tables: &[TableInfo],
    events: &[Event],
) -> Result<List<u8>, DriveFault>
    requires script { IsCompiledScript script }
    requires few { length events.now < 2 ^ 32 }
    ensures { HasExplained tables.now (batch_of script) events.now result }
{
    let mut core = Core::new(alloc, script)?;
    let mut text = List::new(alloc);
    write_events(alloc, &mut core, tables, events, &mut text)?;
    if let Some(call) = core.open_call() {
        return Err(DriveFault::Open { call });
    }
    text.append(b"end\n")?;
    Ok(text)
}
