//! Whole runs of a script: its calls in turn, or a journal.

ghost use Rattle.std.specs.Prelude.{◌≡◌, ◌⊎◌, ◌<◌, ◌^◌, length, IfOk, OnOk};
ghost use Rattle.mv_journal.specs.declared.event.Event.TheVariants.{G};
ghost use Rattle.mv_lawful.specs.Lawful.{beginning};
ghost use Rattle.mv_lawful.specs.Outcomes.{IsOutcomeInTurn};
ghost use Rattle.mv_core.specs.Calls.{IsLiveCall};
ghost use Rattle.mv_core.specs.Books.{Made, IsSame};
ghost use Rattle.mv_core.specs.Cores.{HasTriedToEnd};
ghost use Rattle.mv_script.specs.Scripts.{IsCompiledScript, batch_of};
ghost use Rattle.mv_core.specs.Drives.{HasTurned, HasReplayed};

use crate::drive::{DriveFault, drive};
use crate::engine::Core;
use mv_journal::event::Event;
use mv_journal::outcome::Outcome;
use mv_script::script::CompiledScript;
use mv_values::memory::NoMemory;
use mv_view::view::Refused;
use std::alloc::Global;

/// The number of calls from one collection to the next.
const PERIOD: u32 = 64;

/// Collects old versions, if this is the last call of a period.
fn collect_after(core: &mut Core, call: u32) -> Result<(), NoMemory>
    ensures { OnOk result (IsSame core.old.book core.new.book ⊎ Made G core.old.book core.new.book) }
{
    if call % PERIOD == PERIOD - 1 {
        core.collect()?;
    }
    Ok(())
}

/// Answers a live call if it is read only, and tries to commit any other.
fn end_call(alloc: Global, core: &mut Core, call: u32) -> Result<(), NoMemory>
    requires { IsLiveCall core.old.book.schedule call }
    ensures { OnOk result (HasTriedToEnd call core.old.book core.new.book) }
{
    if !core.is_read_only(call) {
        core.attempt(alloc, call)?;
        return Ok(());
    }
    match core.answer_read(alloc, call) {
        Err(Refused::NoMemory) => Err(NoMemory),
        Ok(_) | Err(Refused::Stale { .. }) => Ok(()),
    }
}

/// Begins and ends the calls of a core without events, one after another, and collects old versions from time to time.
fn run_calls(alloc: Global, core: &mut Core) -> Result<(), NoMemory>
    requires { core.old.book.schedule ≡ beginning }
    ensures { OnOk result (HasTurned core.old.book core.new.book) }
{
    while let Some(call) = core.begin(alloc)? {
        end_call(alloc, core, call)?;
        collect_after(core, call)?;
    }
    Ok(())
}

/// Runs the calls of a script in order: each begins and ends before the next begins. After each 64 calls it collects old
/// versions. Fails with `NoMemory` if memory runs out.
pub fn run_in_turn(alloc: Global, script: CompiledScript) -> Result<Outcome, NoMemory>
    requires { IsCompiledScript script }
    ensures { IfOk result (IsOutcomeInTurn (batch_of script) (length script.calls)) }
{
    let mut core = Core::new(alloc, script)?;
    run_calls(alloc, &mut core)?;
    core.outcome(alloc)
}

/// Runs the events of a journal. Fails exactly if the journal isn't lawful, with its first fault, and with `NoMemory` if
/// memory runs out.
pub fn replay(
    alloc: Global,
    script: CompiledScript,
    events: &[Event],
) -> Result<Outcome, DriveFault>
    requires script { IsCompiledScript script }
    requires few { length events.now < 2 ^ 32 }
    ensures { HasReplayed (batch_of script) events.now result }
{
    let mut core = Core::new(alloc, script)?;
    drive(alloc, &mut core, events)?;
    Ok(core.outcome(alloc)?)
}
