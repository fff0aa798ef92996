//! Execution: runs a procedure one statement at a time, over a view of the database.
#![tactic(auto)]

mod add;
pub mod ahead;
mod around;
mod changes;
mod execute;
pub mod frames;
mod keeping;
mod moves;
mod position;
mod recording;
pub mod running;
pub mod step;
pub mod task;
mod trim;
mod turns;
mod variables;
