//! How many statements a call executed.

use crate::words::add_number;
use mv_journal::outcome::Round;
use mv_values::list::List;
use mv_values::memory::NoMemory;

/// How many statements a call executed. Those of a round that a move ended aren't told, and don't count.
#[derive(Clone, Copy)]
pub struct Cost {
    /// In its first round. `None` if that isn't told.
    pub first: Option<usize>,
    /// In its other rounds.
    pub again: usize,
    /// The number of its rounds.
    pub rounds: usize,
}

impl Cost {
    /// The cost of no rounds.
    pub const NONE: Cost = Cost {
        first: None,
        again: 0,
        rounds: 0,
    };

    /// Returns the statements of its first round, as far as they are told.
    pub fn at_first(&self) -> usize {
        self.first.unwrap_or(0)
    }

    /// Returns all statements.
    pub fn statements(&self) -> usize {
        self.at_first().saturating_add(self.again)
    }

    /// Adds the statements of its first round, or `?` if they aren't told.
    pub fn add_first(&self, text: &mut List<u8>) -> Result<(), NoMemory> {
        match self.first {
            Some(count) => add_number(text, count),
            None => text.push(b'?'),
        }
    }
}

/// Returns the cost of rounds.
pub fn cost_of(rounds: &[Round]) -> Cost {
    let [first, others @ ..] = rounds else {
        return Cost::NONE;
    };
    let mut again = 0usize;
    for round in others {
        again = again.saturating_add(round.count.unwrap_or(0));
    }
    Cost {
        first: first.count,
        again,
        rounds: rounds.len(),
    }
}
