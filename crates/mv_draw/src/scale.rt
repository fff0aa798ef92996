//! Where things are on a time line.

ghost use Rattle.std.specs.Prelude.{◌<◌};

use crate::pixels::pixels;
use mv_trace::calls::Call;

/// Where the events begin.
pub(crate) const LEFT: u32 = 56;

/// Where the rows begin.
pub(crate) const TOP: u32 = 108;

/// The height of a row.
const ROW: u32 = 16;

/// The least room for the events.
const LEAST: u32 = 560;

/// The room for words after the last event.
const WORDS: u32 = 170;

/// The width of the longest bar of statements.
const COSTS: u32 = 160;

/// Where things are on a time line, in pixels.
#[derive(Clone, Copy)]
pub(crate) struct Scale {
    events: usize,
    calls: usize,
    /// The most statements of a call.
    most: usize,
    /// How far events are from each other.
    step: u32,
}

impl Scale {
    /// Returns the scale of a run with so many events.
    pub(crate) fn new(events: usize, calls: &[Call]) -> Scale {
        let mut most = 1usize;
        for call in calls {
            most = most.max(call.cost.statements());
        }
        Scale {
            events,
            calls: calls.len(),
            most,
            step: (960 / pixels(events).max(1)).clamp(2, 24),
        }
    }

    /// Returns the place of an event.
    pub(crate) fn x(&self, at: usize) -> u32 {
        pixels(at).saturating_mul(self.step).saturating_add(LEFT)
    }

    /// Returns where the bars of statements begin.
    pub(crate) fn right(&self) -> u32 {
        self.x(self.events).max(LEAST).saturating_add(WORDS)
    }

    /// Returns the place below the last row.
    pub(crate) fn bottom(&self) -> u32 {
        row(self.calls)
    }

    /// Returns the width of the picture.
    pub(crate) fn width(&self) -> u32 {
        self.right().saturating_add(COSTS + 24)
    }

    /// Returns the height of the picture.
    pub(crate) fn height(&self) -> u32 {
        self.bottom().saturating_add(16)
    }

    /// Returns the length of a bar of so many statements.
    pub(crate) fn length(&self, statements: usize) -> u32 {
        pixels(statements.saturating_mul(COSTS as usize) / self.most.max(1))
    }

    /// Returns how many events there are from a line of the grid to the next one.
    pub(crate) fn gap(&self) -> usize
        ensures { 0 < result }
    {
        match self.step {
            0..=4 => 20,
            5..=10 => 10,
            _ => 5,
        }
    }
}

/// Returns the top of a call's row.
pub(crate) fn row(number: usize) -> u32 {
    pixels(number).saturating_mul(ROW).saturating_add(TOP)
}
