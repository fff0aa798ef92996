//! The result of a run of a procedure: its records, and what follows from them.
#![tactic(auto)]

pub mod applying;
pub mod composing;
pub mod effect;
pub mod record;
