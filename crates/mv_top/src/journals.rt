//! The run of a script's own journal.

ghost use Rattle.std.specs.Prelude.{◌≡◌, ◌<◌, ◌≤◌, ◌^◌, length, IfOk, IfErr};
ghost use Rattle.mv_accept.specs.Accepting.{most_calls};
ghost use Rattle.mv_record.specs.Databases.{IsProgram};
ghost use Rattle.mv_script.specs.Scripts.{IsCompiledScript, batch_of};
ghost use Rattle.mv_lawful.specs.Lawful.{Lawful};
ghost use Rattle.mv_lawful.specs.Outcomes.{outcome_of};
ghost use Rattle.mv_top.specs.Journals.{block_in, IsJournalOf, IsJournalText};
ghost use Rattle.mv_top.specs.Refusing.{TellsWrong, TellsJournal};

use crate::refusal::{NoText, Refusal};
use crate::script::{CompiledProgram, compile_program};
use mv_catalog::resolved::{CopyInfo, Program};
use mv_core::drive::DriveFault;
use mv_core::runs::replay;
use mv_journal::event::Event;
use mv_journal::fault::LineFault;
use mv_journal::journal::read_journal;
use mv_journal::outcome::Outcome;
use mv_report::render::render;
use mv_script::script::CompiledScript;
use mv_values::calls::Options;
use mv_values::list::List;
use mv_values::memory::NoMemory;
use std::alloc::Global;

/// Returns the bytes of the journal's block. There are none without a journal.
fn block_in<'b>(bytes: &'b [u8], journal: &Option<CopyInfo>) -> &'b [u8]
    ensures { result.now ≡ block_in bytes.now journal.now }
{
    match journal {
        None => &[],
        Some(block) => {
            let from = (block.at as usize).min(bytes.len());
            let to = (block.at as usize + block.len as usize).min(bytes.len());
            &bytes[from..to]
        }
    }
}

/// Returns the events of a program's journal.
pub(crate) fn events_of(
    alloc: Global,
    options: Options,
    bytes: &[u8],
    program: &Program,
) -> Result<List<Event>, NoText>
    requires { length bytes.now < 2 ^ 32 }
    ensures events { IfOk result (IsJournalOf bytes.now program.now) }
    ensures few { IfOk result (λ events. length events < 2 ^ 32) }
    ensures refused { IfErr result (TellsJournal options bytes.now program.now) }
{
    Ok(read_journal(alloc, block_in(bytes, &program.resolved.journal))?)
}

impl From<LineFault> for NoText {
    ghost use Rattle.std.specs.Prelude.{◌≡◌};
    ghost use Rattle.mv_top.specs.Refusing.{of_line};

    ghost from_gives = { λ fault e. e ≡ of_line fault };

    fn from(fault: LineFault) -> NoText {
        match fault {
            LineFault::Line { n } => NoText::Refused(Refusal::Line { n }),
            LineFault::NoMemory => NoText::NoMemory,
        }
    }
}

/// Makes the events of a journal, one after another, and returns their outcome. Costs the work of the calls.
fn run_journal(alloc: Global, script: CompiledScript, events: &[Event]) -> Result<Outcome, NoText>
    requires script { IsCompiledScript script }
    requires few { length events.now < 2 ^ 32 }
    ensures lawful { IfOk result (λ _. Lawful (batch_of script) events.now) }
    ensures outcome { IfOk result (λ outcome. outcome ≡ outcome_of (batch_of script) events.now) }
    ensures wrong { IfErr result (TellsWrong (batch_of script) events.now) }
{
    Ok(replay(alloc, script, events)?)
}

impl From<DriveFault> for NoText {
    ghost use Rattle.std.specs.Prelude.{◌≡◌};
    ghost use Rattle.mv_top.specs.Refusing.{of_drive};

    ghost from_gives = { λ fault e. e ≡ of_drive fault };

    fn from(fault: DriveFault) -> NoText {
        match fault {
            DriveFault::Refused { n, fault } => NoText::Refused(Refusal::Event { n, fault }),
            DriveFault::Open { call } => NoText::Refused(Refusal::Open { call }),
            DriveFault::NoMemory => NoText::NoMemory,
        }
    }
}

/// Returns the text of a program's journal, or why the journal is refused.
pub(crate) fn journal_text(
    alloc: Global,
    options: Options,
    bytes: &[u8],
    program: Program,
) -> Result<List<u8>, NoText>
    requires whole { IsProgram program }
    requires few { length program.resolved.calls ≤ most_calls }
    requires size { length bytes.now < 2 ^ 32 }
    ensures text { IfOk result (IsJournalText options bytes.now program) }
    ensures refused { IfErr result (TellsJournal options bytes.now program) }
{
    let events = events_of(alloc, options, bytes, &program)?;
    let CompiledProgram { script, tables } = compile_program(alloc, program, options)?;
    let outcome = run_journal(alloc, script, events.as_slice())?;
    Ok(render(alloc, &tables, &outcome)?)
}
