//! The history of a run, built event by event.
#![tactic(auto)]

mod block;
pub mod book;
pub mod commits;
pub mod copies;
pub mod drive;
pub mod engine;
mod events;
pub mod fresh;
mod history;
mod live;
pub mod output;
mod progress;
mod roomy;
pub mod running;
pub mod runs;
pub mod shared;
pub mod spare;
pub mod tasks;
