//! Lists of events.

ghost use Rattle.std.specs.Prelude.{◌≡◌, ◌<◌, ◌^◌, length};
ghost use Rattle.mv_lawful.specs.Lawful.{open_call};
ghost use Rattle.mv_core.specs.Books.{Booked, batch_in};
ghost use Rattle.mv_core.specs.Drives.{TakesLine, Driven, fault_at};

use mv_journal::event::Event;
use mv_lawful::fault::EventFault;
use mv_values::memory::NoMemory;
use mv_view::view::Refused;
use std::alloc::Global;

/// The reasons why an event isn't made.
#[derive(Clone, Copy)]
pub enum EventRefusal {
    /// The law of journals refuses it.
    Refused(EventFault),
    /// Memory ran out.
    NoMemory,
}

impl From<NoMemory> for EventRefusal {
    ghost use Rattle.std.specs.Prelude.{◌≡◌};
    ghost use Rattle.mv_core.specs.declared.drive.EventRefusal.TheVariants as refusal;

    ghost from_gives = { λ _ e. e ≡ refusal.NoMemory };

    fn from(_error: NoMemory) -> EventRefusal {
        EventRefusal::NoMemory
    }
}

impl From<Refused> for EventRefusal {
    ghost use Rattle.std.specs.Prelude.{◌≡◌};
    ghost use Rattle.mv_core.specs.Drives.{of_view};

    ghost from_gives = { λ refused e. e ≡ of_view refused };

    fn from(refused: Refused) -> EventRefusal {
        match refused {
            Refused::Stale { .. } => EventRefusal::Refused(EventFault::Stale),
            Refused::NoMemory => EventRefusal::NoMemory,
        }
    }
}

/// The reasons why a list of events fails: an event isn't made, or a call is left open.
#[derive(Clone, Copy)]
pub enum DriveFault {
    /// The event with this number, counted from 1, is refused.
    Refused { n: u32, fault: EventFault },
    /// All events are made, but this call has neither committed nor been answered. It is the least such call.
    Open { call: u32 },
    /// Memory ran out.
    NoMemory,
}

impl From<NoMemory> for DriveFault {
    ghost use Rattle.std.specs.Prelude.{◌≡◌};
    ghost use Rattle.mv_core.specs.declared.drive.DriveFault.TheVariants as fault;

    ghost from_gives = { λ _ e. e ≡ fault.NoMemory };

    fn from(_error: NoMemory) -> DriveFault {
        DriveFault::NoMemory
    }
}

/// A history to which events can be added.
pub trait Events {
    /// The history.
    ghost booked: { Self → Booked };

    /// Makes the event on line n of a journal. If it is refused, the history is unchanged.
    fn event(&mut self, alloc: Global, event: &Event, n: u32) -> Result<(), DriveFault>
        ensures { TakesLine event.now n (booked self.old) (booked self.new) result };

    /// Returns the least call that has neither committed nor been answered.
    fn open_call(&self) -> Option<u32>
        ensures { result ≡ open_call (batch_in (booked self.now)) (booked self.now).schedule };
}

/// Returns the fault of the event with this number.
pub(crate) fn fault_at(refusal: EventRefusal, n: u32) -> DriveFault
    ensures { result ≡ fault_at n refusal }
{
    match refusal {
        EventRefusal::Refused(fault) => DriveFault::Refused { n, fault },
        EventRefusal::NoMemory => DriveFault::NoMemory,
    }
}

/// Makes events one after another, up to the first that is refused. On an error the history is that before the refused
/// event.
pub fn drive<E: Events>(alloc: Global, history: &mut E, events: &[Event]) -> Result<(), DriveFault>
    requires few { length events.now < 2 ^ 32 }
    ensures { Driven events.now (E.booked history.old) (E.booked history.new) result }
{
    let mut n: u32 = 0;
    for event in events {
        n += 1;
        history.event(alloc, event, n)?;
    }
    match history.open_call() {
        Some(call) => Err(DriveFault::Open { call }),
        None => Ok(()),
    }
}
