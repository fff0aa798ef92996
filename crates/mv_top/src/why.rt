//! Why the repairs of a script's own journal executed what they did.

ghost use Rattle.std.specs.Prelude.{◌≡◌, ◌<◌, ◌≤◌, ◌^◌, length, IfOk, IfErr};
ghost use Rattle.mv_accept.specs.Accepting.{most_calls};
ghost use Rattle.mv_record.specs.Databases.{IsProgram};
ghost use Rattle.mv_script.specs.Scripts.{IsCompiledScript, batch_of};
ghost use Rattle.mv_lawful.specs.Lawful.{Lawful};
ghost use Rattle.mv_explain.specs.Text.{why_text};
ghost use Rattle.mv_top.specs.Whys.{IsWhyText};
ghost use Rattle.mv_top.specs.Refusing.{TellsWrong, TellsJournal};

use crate::journals::events_of;
use crate::refusal::NoText;
use crate::script::{CompiledProgram, compile_program};
use mv_catalog::resolved::Program;
use mv_explain::explain::explain;
use mv_journal::event::Event;
use mv_script::script::CompiledScript;
use mv_values::calls::Options;
use mv_values::list::List;
use mv_values::schema::TableInfo;
use std::alloc::Global;

/// Makes the events of a journal, one after another, and returns the lines of their repairs. Costs the work of the calls.
fn explain_journal(
    alloc: Global,
    script: CompiledScript,
    tables: &[TableInfo],
    events: &[Event],
) -> Result<List<u8>, NoText>
    requires script { IsCompiledScript script }
    requires few { length events.now < 2 ^ 32 }
    ensures lawful { IfOk result (λ _. Lawful (batch_of script) events.now) }
    ensures text { IfOk result (λ text. text ≡ why_text tables.now (batch_of script) events.now) }
    ensures wrong { IfErr result (TellsWrong (batch_of script) events.now) }
{
    Ok(explain(alloc, script, tables, events)?)
}

/// Returns the lines of the repairs of a program's journal, or why the journal is refused.
pub(crate) fn why_text(
    alloc: Global,
    options: Options,
    bytes: &[u8],
    program: Program,
) -> Result<List<u8>, NoText>
    requires whole { IsProgram program }
    requires few { length program.resolved.calls ≤ most_calls }
    requires size { length bytes.now < 2 ^ 32 }
    ensures text { IfOk result (IsWhyText options bytes.now program) }
    ensures refused { IfErr result (TellsJournal options bytes.now program) }
{
    let events = events_of(alloc, options, bytes, &program)?;
    let CompiledProgram { script, tables } = compile_program(alloc, program, options)?;
    explain_journal(alloc, script, tables.as_slice(), events.as_slice())
}
