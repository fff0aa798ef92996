//! The recorder: runs a call alone on plain tables, and leaves its records.
#![tactic(auto)]

mod adding;
mod asked;
pub mod calls;
mod changes;
mod checks;
mod effect;
mod numbers;
mod predicates;
mod queries;
mod reads;
pub mod recorder;
mod running;
mod scene;
mod simple;
mod sites;
mod slots;
mod undo;
