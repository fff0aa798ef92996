//! Counts of a run with many calls, in bins over the events of its journal.

use mv_journal::event::Event;
use mv_trace::calls::Call;
use mv_values::list::List;
use mv_values::memory::NoMemory;
use std::alloc::Global;

/// The most bins of a run.
pub(crate) const BINS: usize = 96;

/// What happened in the events of a bin.
#[derive(Clone, Copy)]
pub(crate) struct Bin {
    /// Calls that ended and were neither repaired nor moved, nor rolled back.
    pub(crate) plain: usize,
    /// Calls that ended after a repair or a move.
    pub(crate) again: usize,
    /// Calls that ended, were rolled back, and were neither repaired nor moved.
    pub(crate) undone: usize,
    /// Statements that these calls executed in their first rounds.
    pub(crate) first: usize,
    /// Statements that they executed in other rounds.
    pub(crate) more: usize,
    /// The most calls that were live at once.
    pub(crate) live: usize,
}

impl Bin {
    const EMPTY: Bin = Bin {
        plain: 0,
        again: 0,
        undone: 0,
        first: 0,
        more: 0,
        live: 0,
    };

    /// Returns the number of calls that ended.
    pub(crate) fn calls(&self) -> usize {
        self.plain
            .saturating_add(self.again)
            .saturating_add(self.undone)
    }

    /// Returns the number of statements.
    pub(crate) fn statements(&self) -> usize {
        self.first.saturating_add(self.more)
    }

    /// Returns the bin with a call more.
    fn with(self, call: &Call) -> Bin {
        let counted = Bin {
            first: self.first.saturating_add(call.cost.at_first()),
            more: self.more.saturating_add(call.cost.again),
            ..self
        };
        if call.is_again() {
            Bin {
                again: self.again.saturating_add(1),
                ..counted
            }
        } else if call.is_undone() {
            Bin {
                undone: self.undone.saturating_add(1),
                ..counted
            }
        } else {
            Bin {
                plain: self.plain.saturating_add(1),
                ..counted
            }
        }
    }
}

/// Returns how many events a bin has.
pub(crate) fn size_of(events: usize) -> usize {
    events / BINS + 1
}

/// Returns the bins of a run. A call counts in the bin of the event with which it ends.
pub(crate) fn bins_of(
    alloc: Global,
    events: &[Event],
    calls: &[Call],
) -> Result<List<Bin>, NoMemory> {
    let size = size_of(events.len()).max(1);
    let mut bins = List::new(alloc);
    for _ in 0..(events.len() / size).saturating_add(1) {
        bins.push(Bin::EMPTY)?;
    }
    for call in calls {
        let place = call.bar.to / size;
        if let Some(bin) = bins.as_slice().get(place) {
            let bin = bin.with(call);
            bins.set(place, bin);
        }
    }
    add_live(&mut bins, size, events);
    Ok(bins)
}

/// Notes how many calls were live.
fn add_live(bins: &mut List<Bin>, size: usize, events: &[Event]) {
    let mut live = 0usize;
    for (at, event) in events.iter().enumerate() {
        match event {
            Event::B(_) => live = live.saturating_add(1),
            Event::C(_) | Event::X(_) | Event::R(_) => live = live.saturating_sub(1),
            _ => {}
        }
        let place = at / size.max(1);
        if let Some(bin) = bins.as_slice().get(place) {
            let bin = *bin;
            bins.set(
                place,
                Bin {
                    live: bin.live.max(live),
                    ..bin
                },
            );
        }
    }
}
