//! What a journal is made of.

use mv_values::calls::Options;

/// What a journal is made of. The shares count the turns of 100 that may go otherwise than to a commit.
#[derive(Clone, Copy)]
pub(crate) struct Mix {
    /// It decides all that is drawn.
    pub(crate) seed: u32,
    /// How many calls are live at once, from 1 to 64, while as many are left.
    pub(crate) calls: u32,
    /// The share of turns that execute a statement of a call in its first round, up to 100.
    pub(crate) steps: u32,
    /// The share of turns that move a call, up to 50.
    pub(crate) moves: u32,
    /// The share of turns that collect old versions, up to 50.
    pub(crate) collections: u32,
    /// The options by which `replay` accepts the journal.
    pub(crate) options: Options,
}
