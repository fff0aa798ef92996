//! The answers of attempts to end calls.

/// What an attempt to commit or to answer a call has come to.
#[derive(Clone, Copy)]
pub enum Answer {
    /// It has committed. This is the number of the commit.
    Committed(u32),
    /// It is read only, and was answered at its start, which is after this many commits.
    Answered(u32),
    /// A commit after its start hit it. It starts anew after all commits, and is to be repaired there.
    Repaired,
    /// Its start was too old. It has moved: it starts anew after all commits, and is to run whole there.
    Moved,
    /// The history doesn't have the call as its holder knows it. Nothing was done.
    Lost,
}
