//! Threads that run the calls of a script: a lock round a history, shards beside it, and workers with tasks of their own.
#![tactic(auto)]

pub mod answers;
pub mod beside;
pub mod gate;
pub mod held;
mod installing;
mod latest;
mod notes;
pub mod output;
pub mod pinned;
mod reader_pins;
mod readers;
mod rounds;
pub mod scheduler;
mod state;
mod tables;
pub mod tried;
