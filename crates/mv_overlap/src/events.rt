//! Events that are made if the law of journals allows them.

ghost use Rattle.std.specs.Prelude.{◌≡◌};

use mv_core::drive::DriveFault;
use mv_core::engine::Core;
use mv_journal::event::Event;
use mv_lawful::fault::EventFault;
use mv_values::memory::NoMemory;
use std::alloc::Global;

/// Makes an event, or returns why the law of journals refuses it.
#[tactic(auto, using(crate::proofs::Keeping::taken_keeps))]
pub(crate) fn try_event(
    alloc: Global,
    core: &mut Core,
    event: Event,
) -> Result<Option<EventFault>, NoMemory>
    ensures script { core.new.book.script ≡ core.old.book.script }
{
    match core.event(alloc, &event, 0) {
        Ok(()) => Ok(None),
        Err(DriveFault::Refused { fault, .. }) => Ok(Some(fault)),
        Err(DriveFault::Open { .. }) => unreachable!(),
        Err(DriveFault::NoMemory) => Err(NoMemory),
    }
}

/// Repairs a call that is hit. Once it has used its rounds, it commits in the same step. Returns whether it has committed.
fn repair(alloc: Global, core: &mut Core, call: u32) -> Result<bool, NoMemory>
    ensures script { core.new.book.script ≡ core.old.book.script }
{
    if try_event(alloc, core, Event::A(call))?.is_none() {
        return Ok(false);
    }
    Ok(try_event(alloc, core, Event::X(call))?.is_none())
}

/// Moves a call, which then starts after all commits.
pub(crate) fn move_up(alloc: Global, core: &mut Core, call: u32) -> Result<bool, NoMemory>
    ensures script { core.new.book.script ≡ core.old.book.script }
{
    try_event(alloc, core, Event::M(call))?;
    Ok(false)
}

/// Answers a read only call, or moves it if its start is below low. Returns whether it was answered.
fn answer(alloc: Global, core: &mut Core, call: u32) -> Result<bool, NoMemory>
    ensures script { core.new.book.script ≡ core.old.book.script }
{
    if try_event(alloc, core, Event::R(call))?.is_none() {
        return Ok(true);
    }
    move_up(alloc, core, call)
}

/// Commits a call, or answers a read only one. If it is hit, repairs it, and if its start is below low, moves it. Returns
/// whether it has committed or was answered.
pub(crate) fn commit(alloc: Global, core: &mut Core, call: u32) -> Result<bool, NoMemory>
    ensures script { core.new.book.script ≡ core.old.book.script }
{
    match try_event(alloc, core, Event::C(call))? {
        None => Ok(true),
        Some(EventFault::Conflict) => repair(alloc, core, call),
        Some(EventFault::Kind) => answer(alloc, core, call),
        Some(_) => move_up(alloc, core, call),
    }
}
