//! Reads and writes the rows of tables as CSV.
#![tactic(auto)]

pub mod dump;
pub mod fault;
mod fields;
pub mod gather;
pub mod joining;
pub mod laws;
pub mod load;
mod record;
