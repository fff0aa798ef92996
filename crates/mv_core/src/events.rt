//! The events of a core.

ghost use Rattle.std.specs.Prelude.{OnOk};
ghost use Rattle.mv_journal.specs.declared.event.Event.TheVariants.{B, S, A, M, C, X, R, G};
ghost use Rattle.mv_core.specs.Drives.{HasTaken, TakesLine, TellsRound};
ghost use Rattle.mv_core.specs.Cores.{HasAllRecords, HasRunWhole};

use crate::book::Check;
use crate::drive::{DriveFault, EventRefusal, Events, fault_at};
use crate::engine::{Attempt, Core};
use mv_journal::event::Event;
use mv_lawful::fault::EventFault;
use std::alloc::Global;

/// Begins a call, if it is the next one.
fn begin_event(core: &mut Core, alloc: Global, call: u32) -> Result<(), EventRefusal>
    ensures { HasTaken (B call) core.old.book core.new.book result }
{
    if !core.is_next(call) {
        return Err(EventRefusal::Refused(EventFault::Order));
    }
    core.begin(alloc)?;
    Ok(())
}

/// Executes the next statement of a call, if it has one.
fn step_event(core: &mut Core, alloc: Global, call: u32) -> Result<(), EventRefusal>
    ensures { HasTaken (S call) core.old.book core.new.book result }
{
    if !core.may_step(call) {
        return Err(EventRefusal::Refused(EventFault::Order));
    }
    core.step(alloc, call)?;
    Ok(())
}

/// Moves a call, if it is live.
fn move_event(core: &mut Core, alloc: Global, call: u32) -> Result<(), EventRefusal>
    ensures taken { HasTaken (M call) core.old.book core.new.book result }
    ensures whole { OnOk result (HasAllRecords core.new call) }
{
    if core.rounds(call).is_none() {
        return Err(EventRefusal::Refused(EventFault::Order));
    }
    core.move_up(alloc, call)?;
    Ok(())
}

/// Commits a call, if it is live and may commit.
fn commit_event(core: &mut Core, alloc: Global, call: u32) -> Result<(), EventRefusal>
    ensures { HasTaken (C call) core.old.book core.new.book result }
{
    if core.rounds(call).is_none() {
        return Err(EventRefusal::Refused(EventFault::Order));
    }
    if core.is_read_only(call) {
        return Err(EventRefusal::Refused(EventFault::Kind));
    }
    match core.attempt(alloc, call)? {
        Attempt::Committed(_) => Ok(()),
        Attempt::Hit { .. } => Err(EventRefusal::Refused(EventFault::Conflict)),
        Attempt::Stale { .. } => Err(EventRefusal::Refused(EventFault::Stale)),
    }
}

/// Whether a live call that is hit may be repaired once more before it is decided in one step. Refuses the repair of any
/// other call.
fn round_left(core: &mut Core, alloc: Global, call: u32) -> Result<bool, EventRefusal>
    ensures { TellsRound call result core.old.book core.new.book }
{
    if core.rounds(call).is_none() {
        return Err(EventRefusal::Refused(EventFault::Order));
    }
    if core.is_read_only(call) {
        return Err(EventRefusal::Refused(EventFault::Kind));
    }
    match core.validate(alloc, call)? {
        Check::Free => return Err(EventRefusal::Refused(EventFault::Idle)),
        Check::Stale { .. } => return Err(EventRefusal::Refused(EventFault::Stale)),
        Check::Hit { .. } => {}
    }
    Ok(core.has_round(call))
}

/// Repairs a call, if it is live, hit and may be repaired once more.
fn repair_event(core: &mut Core, alloc: Global, call: u32) -> Result<(), EventRefusal>
    ensures taken { HasTaken (A call) core.old.book core.new.book result }
    ensures whole { OnOk result (HasAllRecords core.new call) }
{
    let more = round_left(core, alloc, call)?;
    if !more {
        return Err(EventRefusal::Refused(EventFault::Rounds));
    }
    core.again(alloc, call)?;
    Ok(())
}

/// Repairs and commits a call in one step, if it is live and hit, and has used its rounds.
fn decide_event(core: &mut Core, alloc: Global, call: u32) -> Result<(), EventRefusal>
    ensures { HasTaken (X call) core.old.book core.new.book result }
{
    let more = round_left(core, alloc, call)?;
    if more {
        return Err(EventRefusal::Refused(EventFault::Rounds));
    }
    core.exclusive(alloc, call)?;
    Ok(())
}

/// Answers a call, if it is live and read only.
fn answer_event(core: &mut Core, alloc: Global, call: u32) -> Result<(), EventRefusal>
    ensures { HasTaken (R call) core.old.book core.new.book result }
{
    if core.rounds(call).is_none() {
        return Err(EventRefusal::Refused(EventFault::Order));
    }
    if !core.is_read_only(call) {
        return Err(EventRefusal::Refused(EventFault::Kind));
    }
    core.answer_read(alloc, call)?;
    Ok(())
}

/// Collects old versions.
fn collect_event(core: &mut Core) -> Result<(), EventRefusal>
    ensures { HasTaken G core.old.book core.new.book result }
{
    core.collect()?;
    Ok(())
}

/// Makes an event. If it is refused, the history is unchanged.
fn take(core: &mut Core, alloc: Global, event: Event) -> Result<(), EventRefusal>
    ensures taken { HasTaken event core.old.book core.new.book result }
    ensures whole { OnOk result (HasRunWhole event core.new) }
{
    match event {
        Event::B(call) => begin_event(core, alloc, call),
        Event::S(call) => step_event(core, alloc, call),
        Event::A(call) => repair_event(core, alloc, call),
        Event::M(call) => move_event(core, alloc, call),
        Event::C(call) => commit_event(core, alloc, call),
        Event::X(call) => decide_event(core, alloc, call),
        Event::R(call) => answer_event(core, alloc, call),
        Event::G => collect_event(core),
    }
}

impl Core {
    /// Makes the event on line n of a journal. Fails exactly if the law of journals refuses it, and with `NoMemory` if
    /// memory runs out. Then the history is unchanged. A call that was repaired or moved has its new records.
    pub fn event(&mut self, alloc: Global, event: &Event, n: u32) -> Result<(), DriveFault>
        ensures taken { TakesLine event.now n self.old.book self.new.book result }
        ensures whole { OnOk result (HasRunWhole event.now self.new) }
    {
        match take(self, alloc, *event) {
            Ok(()) => Ok(()),
            Err(refusal) => Err(fault_at(refusal, n)),
        }
    }
}

impl Events for Core {
    ghost booked = { λ core. core.book };

    fn event(&mut self, alloc: Global, event: &Event, n: u32) -> Result<(), DriveFault>
        ensures { TakesLine event.now n self.old.book self.new.book result }
    {
        Core::event(self, alloc, event, n)
    }

    fn open_call(&self) -> Option<u32> {
        Core::open_call(self)
    }
}
