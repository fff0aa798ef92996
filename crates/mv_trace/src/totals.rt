//! What the calls of a run come to.

use crate::calls::Call;
use crate::words::{add_count, add_share};
use mv_values::list::List;
use mv_values::memory::NoMemory;

/// Counts over calls.
#[derive(Clone, Copy)]
pub struct Totals {
    pub calls: usize,
    pub undone: usize,
    pub rounds: usize,
    /// Statements of first rounds.
    pub first: usize,
    /// Statements of other rounds.
    pub again: usize,
    /// Calls that were repaired.
    pub repaired: usize,
    /// Calls that moved.
    pub moved: usize,
    /// Calls whose last repair and commit were one event.
    pub exclusive: usize,
    /// Rounds that a move ended. Their statements aren't told.
    pub open: usize,
}

impl Totals {
    pub const NONE: Totals = Totals {
        calls: 0,
        undone: 0,
        rounds: 0,
        first: 0,
        again: 0,
        repaired: 0,
        moved: 0,
        exclusive: 0,
        open: 0,
    };

    /// Returns the counts with one call more.
    pub fn with(self, call: &Call) -> Totals {
        Totals {
            calls: self.calls.saturating_add(1),
            undone: self.undone.saturating_add(call.is_undone() as usize),
            rounds: self.rounds.saturating_add(call.cost.rounds),
            first: self.first.saturating_add(call.cost.at_first()),
            again: self.again.saturating_add(call.cost.again),
            repaired: self
                .repaired
                .saturating_add((call.bar.repairs > 0) as usize),
            moved: self.moved.saturating_add((call.bar.moves > 0) as usize),
            exclusive: self
                .exclusive
                .saturating_add(call.bar.is_exclusive as usize),
            open: self.open.saturating_add(call.bar.moves),
        }
    }

    /// Returns all statements that were executed, as far as they are told.
    pub fn statements(&self) -> usize {
        self.first.saturating_add(self.again)
    }
}

pub fn totals_of(calls: &[Call]) -> Totals {
    let mut totals = Totals::NONE;
    for call in calls {
        totals = totals.with(call);
    }
    totals
}

/// Adds the heading of a picture.
pub fn add_heading(text: &mut List<u8>, totals: &Totals) -> Result<(), NoMemory> {
    add_count(text, b"", totals.calls)?;
    add_count(text, b" calls: ", totals.repaired)?;
    add_count(text, b" repaired, ", totals.moved)?;
    add_count(text, b" moved, ", totals.undone)?;
    text.append(b" rolled back")
}

/// Adds a sentence on what was executed.
pub fn add_sentence(text: &mut List<u8>, totals: &Totals) -> Result<(), NoMemory> {
    add_count(text, b"Statements executed at first: ", totals.first)?;
    add_count(text, b". Executed again: ", totals.again)?;
    text.append(b", which is ")?;
    add_share(text, totals.again, totals.statements())?;
    text.append(b" of all.")?;
    if totals.open > 0 {
        text.append(b" What a move ended isn't told.")?;
    }
    Ok(())
}
