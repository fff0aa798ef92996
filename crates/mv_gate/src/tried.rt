//! What attempts to commit give back.

use crate::answers::Answer;
use crate::held::{Begun, Repair};
use mv_exec::task::Task;
use mv_seats::board::Making;
use mv_values::list::List;
use mv_values::patch::Write;

/// The answer of an attempt, and the call that it gives back. `done` and `writes` are what the call needs no more. Their
/// memory is freed after the hold.
#[derive(Drop)]
pub struct Tried<N: Making> {
    pub answer: Answer,
    pub repair: Option<Repair<N>>,
    pub moved: Option<Begun<N>>,
    pub done: Option<Task>,
    pub writes: Option<List<Write>>,
}
