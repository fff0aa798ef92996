//! Faults of a journal.

/// Why an event is refused.
#[derive(Clone, Copy)]
pub enum EventFault {
    /// A B event of another call than the next one, an event of a call that isn't live, or an S event after a repair or
    /// a move of its call, or if its first run has no statement left.
    Order,
    /// An A, C or X event of a read only call, or an R event of another call.
    Kind,
    /// The call's start is below low.
    Stale,
    /// A C event of a call with a record that is hit.
    Conflict,
    /// An A or X event of a call with no record that is hit.
    Idle,
    /// An A event if no round is left, or an X event if a round is left.
    Rounds,
}

/// The first fault of a journal.
#[derive(Clone, Copy)]
pub enum Wrong {
    /// The event with this number, counted from 1, is refused.
    Refused { n: u32, fault: EventFault },
    /// All events are allowed, and this is the first call that has neither committed nor been answered.
    Open { call: u32 },
}
