//! What the text of a run tells.

ghost use Rattle.std.specs.Prelude.{◌≡◌, length, map, count_by, IfOk};
ghost use Rattle.mv_trace.specs.Bars.{AreBars, is_begin};

use crate::bars::bars_of;
use crate::calls::{Call, calls_of};
use crate::fault::TextFault;
use crate::names::names_of;
use crate::run::read_run;
use mv_journal::event::Event;
use mv_values::list::List;
use std::alloc::Global;

/// What the text of a run tells: its events, and its calls by their numbers.
#[derive(Drop)]
pub struct Trace<'a> {
    pub events: List<Event>,
    pub calls: List<Call<'a>>,
}

/// Reads the text of a run. The script, where it's given, adds the names of the procedures.
pub fn trace_of<'a>(
    alloc: Global,
    text: &'a [u8],
    script: Option<&'a [u8]>,
) -> Result<Trace<'a>, TextFault>
    ensures bars { IfOk result (λ trace. AreBars trace.events (map (λ call. call.bar) trace.calls)) }
    ensures each { IfOk result (λ trace. length trace.calls ≡ count_by is_begin trace.events) }
{
    let run = read_run(alloc, text)?;
    let first = run.journal_at.saturating_add(1);
    let bars = bars_of(alloc, first, run.journal.as_slice())?;
    let names = names_in(alloc, script, bars.len())?;
    let calls = calls_of(alloc, &run, bars.as_slice(), names.as_ref())?;
    Ok(Trace {
        events: run.journal,
        calls,
    })
}

/// Returns the names of the procedures of so many calls, where the script is given.
fn names_in<'a>(
    alloc: Global,
    script: Option<&'a [u8]>,
    calls: usize,
) -> Result<Option<List<&'a [u8]>>, TextFault> {
    let Some(script) = script else {
        return Ok(None);
    };
    let names = names_of(alloc, script)?;
    if names.len() != calls {
        return Err(TextFault::Calls {
            text: calls,
            script: names.len(),
        });
    }
    Ok(Some(names))
}
