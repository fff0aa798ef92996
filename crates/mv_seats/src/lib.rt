//! A board that counts commits and marks how far each shard has come, and passes that know a beginning of the history.
#![tactic(auto)]

pub mod board;
pub mod pass;
mod rule;
mod script;
mod view;
