//! The outcome of a run.

use crate::event::Event;
use mv_values::calls::Reply;
use mv_values::list::List;
use mv_values::rows::Database;

/// The kind of a round of a call.
#[derive(Clone, Copy)]
pub enum Mark {
    /// The first round, or a repair.
    Plain,
    /// A repair that committed in the same step.
    Exclusive,
    /// A full execution after a move.
    Moved,
}

/// A round of a call: its start, and the number of records that it executed. That number is unknown if a move ended the
/// round.
#[derive(Clone, Copy)]
pub struct Round {
    pub start: u32,
    pub count: Option<usize>,
    pub mark: Mark,
}

/// A call in its place in the history, and its rounds. A call that has committed has the number of its commit. One that was
/// answered has none, and stands at the start of its last round: after the commits up to it, and before the next one.
#[derive(Drop)]
pub struct HistoryLine {
    pub commit: Option<u32>,
    pub call: u32,
    pub rounds: List<Round>,
}

/// The outcome of a run: the replies by call number, the calls in the order of the history, the events, and the final tables.
#[derive(Drop)]
pub struct Outcome {
    pub replies: List<Reply>,
    pub history: List<HistoryLine>,
    pub journal: List<Event>,
    pub tables: Database,
}
