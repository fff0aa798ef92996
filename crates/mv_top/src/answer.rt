//! The answer to a command and its input.

ghost use Rattle.std.specs.Prelude.{◌≡◌, ◌<◌, ◌≤◌, ◌^◌, length, IfOk, IfErr, MatchResult};
ghost use Rattle.mv_accept.specs.Accepting.{most_calls, Accepts, Refuses};
ghost use Rattle.mv_accept.specs.declared.refusal.ScriptRefusal.{ScriptRefusal as ScriptWhy};
ghost use Rattle.mv_record.specs.Databases.{IsProgram};
ghost use Rattle.mv_catalog.specs.declared.resolved.Program.{Program as Whole};
ghost use Rattle.mv_values.specs.declared.calls.Options.{Options as Given};
ghost use Rattle.mv_words.specs.declared.command.Command.TheVariants as command;
ghost use Rattle.mv_top.specs.declared.refusal.Refusal.{Refusal as Why};
ghost use Rattle.mv_top.specs.declared.refusal.Refusal.TheVariants as why;
ghost use Rattle.mv_top.specs.Answers.{IsTextFor, IsTextOf, AcceptsScript, AcceptsProgram, TakesBytes, IsRefusedBy, RefusesProgram, HasCause, IsToldBy, IsFaultFor};
ghost use Rattle.mv_top.specs.Refusing.{Causes, RefusesAs, IsOfScript};
ghost use Rattle.mv_top.specs.Headline.{IsSerializableFor};

use crate::audit::verdict_text;
use crate::graphs::graph_text;
use crate::journals::journal_text;
use crate::parts::script_in;
use crate::print::print_text;
use crate::refusal::{NoText, Refusal};
use crate::serial::serial_text;
use crate::status::Fault;
use crate::tpcc::summary_text;
use crate::why::why_text;
use crate::workers::{Crew, run_text};
use mv_accept::accept::{NotAccepted, accept};
use mv_catalog::resolved::Program;
use mv_edge::pace::Pace;
use mv_values::calls::Options;
use mv_values::list::List;
use mv_words::command::Command;
use std::alloc::Global;
use std::sync::Wait;
use std::thread::Threads;

/// Returns the text to write for a command and its input. Fails with `Refused`, which has the number and the line of
/// the refusal, if the input is refused, and with `NoMemory` if memory runs out.
pub fn answer<R: Threads + Wait + Sync, P: Pace>(
    rt: &R,
    alloc: Global,
    command: &Command,
    bytes: &[u8],
    pace: &P,
) -> Result<List<u8>, Fault>
    ensures found { IfOk result (IsTextFor command.now bytes.now) }
    // A command gets its text for an accepted script, `replay` and `why` for one with a lawful journal.
    ensures only { (program : Whole) → TakesBytes command.now bytes.now program → MatchResult result (IsTextOf command.now bytes.now program) (λ fault. fault ≡ Fault.NoMemory) }
    ensures refused { IfErr result (HasCause command.now bytes.now) }
    // A refusal that has its cause in the command and the bytes is returned, unless memory runs out.
    ensures told { (refusal : Why) → IsRefusedBy command.now bytes.now refusal → MatchResult result (λ answer. ⊥) (IsToldBy refusal) }
{
    match text_for(rt, alloc, command, bytes, pace) {
        Ok(text) => Ok(text),
        Err(why) => Err(fault_for(alloc, &why)),
    }
}

/// Returns the text of a script's own journal. Waits for no other thread. Fails as `answer` does.
pub fn replay(
    alloc: Global,
    rounds: u32,
    horizon: Option<u32>,
    bytes: &[u8],
) -> Result<List<u8>, Fault>
    // The headline: the calls are serializable by the text.
    ensures serializable { IfOk result (IsSerializableFor bytes.now) }
    ensures found { let options : Given = record { rounds = rounds; horizon = horizon } in IfOk result (IsTextFor (command.Replay options) bytes.now) }
    ensures only { let options : Given = record { rounds = rounds; horizon = horizon } in (program : Whole) → TakesBytes (command.Replay options) bytes.now program → MatchResult result (IsTextOf (command.Replay options) bytes.now program) (λ fault. fault ≡ Fault.NoMemory) }
    ensures refused { let options : Given = record { rounds = rounds; horizon = horizon } in IfErr result (HasCause (command.Replay options) bytes.now) }
    ensures told { let options : Given = record { rounds = rounds; horizon = horizon } in (refusal : Why) → IsRefusedBy (command.Replay options) bytes.now refusal → MatchResult result (λ answer. ⊥) (IsToldBy refusal) }
{
    match replay_text(alloc, Options { rounds, horizon }, bytes) {
        Ok(text) => Ok(text),
        Err(why) => Err(fault_for(alloc, &why)),
    }
}

/// Returns the text for the program of these bytes, or why there is none.
fn text_for<R: Threads + Wait + Sync, P: Pace>(
    rt: &R,
    alloc: Global,
    command: &Command,
    bytes: &[u8],
    pace: &P,
) -> Result<List<u8>, NoText>
    ensures found { IfOk result (IsTextFor command.now bytes.now) }
    ensures only { (program : Whole) → TakesBytes command.now bytes.now program → MatchResult result (IsTextOf command.now bytes.now program) (λ f. f ≡ NoText.NoMemory) }
    ensures refused { IfErr result (Causes (IsRefusedBy command.now bytes.now)) }
    ensures told { (refusal : Why) → IsRefusedBy command.now bytes.now refusal → MatchResult result (λ answer. ⊥) (RefusesAs refusal) }
{
    let script = script_in(command, bytes)?;
    let program = program_of(alloc, script)?;
    text_of(rt, alloc, command, bytes, program, pace)
}

/// Returns the text of the journal in these bytes, or why there is none.
fn replay_text(alloc: Global, options: Options, bytes: &[u8]) -> Result<List<u8>, NoText>
    ensures found { IfOk result (IsTextFor (command.Replay options) bytes.now) }
    ensures only { (program : Whole) → TakesBytes (command.Replay options) bytes.now program → MatchResult result (IsTextOf (command.Replay options) bytes.now program) (λ f. f ≡ NoText.NoMemory) }
    ensures refused { IfErr result (Causes (IsRefusedBy (command.Replay options) bytes.now)) }
    ensures told { (refusal : Why) → IsRefusedBy (command.Replay options) bytes.now refusal → MatchResult result (λ answer. ⊥) (RefusesAs refusal) }
{
    let program = program_of(alloc, bytes)?;
    journal_text(alloc, options, bytes, program)
}

/// Returns the program of a script, or why there is none: the same for every command.
fn program_of(alloc: Global, script: &[u8]) -> Result<Program, NoText>
    ensures found { IfOk result (Accepts script.now) }
    ensures only { (program : Whole) → Accepts script.now program → MatchResult result (λ p. p ≡ program) (λ f. f ≡ NoText.NoMemory) }
    ensures refused { IfErr result (Causes (IsOfScript script.now)) }
    ensures told { (refusal : ScriptWhy) → Refuses script.now refusal → MatchResult result (λ p. ⊥) (RefusesAs (why.Script refusal)) }
    ensures whole { IfOk result IsProgram }
    ensures few { IfOk result (λ p. length p.resolved.calls ≤ most_calls) }
    ensures size { IfOk result (λ p. length script.now < 2 ^ 32) }
{
    Ok(accept(alloc, script)?)
}

impl From<NotAccepted> for NoText {
    ghost use Rattle.std.specs.Prelude.{◌≡◌};
    ghost use Rattle.mv_top.specs.Refusing.{of_accept};

    ghost from_gives = { λ why e. e ≡ of_accept why };

    fn from(why: NotAccepted) -> NoText {
        match why {
            NotAccepted::Refused(refusal) => NoText::Refused(Refusal::Script(refusal)),
            NotAccepted::NoMemory => NoText::NoMemory,
        }
    }
}

/// Returns a text of the command for a program, or why there is none.
fn text_of<R: Threads + Wait + Sync, P: Pace>(
    rt: &R,
    alloc: Global,
    command: &Command,
    bytes: &[u8],
    program: Program,
    pace: &P,
) -> Result<List<u8>, NoText>
    requires accepted { AcceptsScript command.now bytes.now program }
    requires whole { IsProgram program }
    requires few { length program.resolved.calls ≤ most_calls }
    requires size { length bytes.now < 2 ^ 31 }
    ensures found { IfOk result (IsTextOf command.now bytes.now program) }
    ensures only { AcceptsProgram command.now bytes.now program → IfErr result (λ f. f ≡ NoText.NoMemory) }
    ensures refused { IfErr result (Causes (RefusesProgram command.now bytes.now program)) }
    ensures told { (refusal : Why) → RefusesProgram command.now bytes.now program refusal → MatchResult result (λ answer. ⊥) (RefusesAs refusal) }
{
    match command {
        Command::Run { threads, options } => {
            let crew = Crew {
                threads: *threads,
                options: *options,
            };
            Ok(run_text(rt, alloc, crew, program, pace)?)
        }
        Command::Replay { options } => journal_text(alloc, *options, bytes, program),
        Command::Serial => Ok(serial_text(alloc, &program)?),
        Command::Graph => Ok(graph_text(alloc, &program)?),
        Command::Tpcc { script: true, .. } => {
            drop(program);
            Ok(print_text(alloc, bytes)?)
        }
        Command::Tpcc {
            load,
            threads,
            options,
            ..
        } => {
            let crew = Crew {
                threads: *threads,
                options: *options,
            };
            Ok(summary_text(rt, alloc, load, crew, program, pace)?)
        }
        Command::Why { options } => why_text(alloc, *options, bytes, program),
        Command::Audit { rounds } => Ok(verdict_text(alloc, *rounds, bytes, &program)?),
    }
}

/// Returns the fault that tells why there is no text.
fn fault_for(alloc: Global, why: &NoText) -> Fault
    ensures { IsFaultFor why.now result }
{
    match why {
        NoText::Refused(refusal) => fault_of(alloc, refusal),
        NoText::NoMemory => Fault::NoMemory,
    }
}

/// Returns the fault for a refusal.
fn fault_of(alloc: Global, refusal: &Refusal) -> Fault
    ensures { IsToldBy refusal.now result }
{
    match refusal.line(alloc) {
        Ok(line) => Fault::Refused {
            number: refusal.number(),
            line,
        },
        Err(_) => Fault::NoMemory,
    }
}
